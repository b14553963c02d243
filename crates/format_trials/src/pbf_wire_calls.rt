//! Varints and fields, read and put.
use pbf_wire::{Field, WireFault, WireKind, field_at, put_bytes, put_varint, varint};
use std::test::Fail;

fn fault(byte: u64, kind: WireKind) -> WireFault {
    WireFault { byte, kind }
}

#[test]
fn a_varint_has_at_most_ten_bytes(rt: HostRuntime) {
    assert_eq!(rt; varint(&[0x96, 0x01], 0), Ok((150, 2)));
    assert_eq!(rt;
        varint(
            &[
                0, 0xff, 0xff, 0xff, 0xff, 0xff, 0xff, 0xff, 0xff, 0xff, 0x01
            ],
            1
        ),
        Ok((u64::MAX, 11))
    );
    assert_eq!(rt;
        varint(
            &[0x81, 0x80, 0x80, 0x80, 0x80, 0x80, 0x80, 0x80, 0x80, 0x02],
            0
        ),
        Ok((1, 10))
    );
    assert_eq!(rt; varint(&[0x80; 11], 1), Err(fault(1, WireKind::Long)));
    assert_eq!(rt; varint(&[0x80; 9], 0), Err(fault(0, WireKind::End)));
    assert_eq!(rt; varint(&[7], 1), Err(fault(1, WireKind::End)));
}

#[test]
fn a_field_is_read_by_its_wire_type(rt: HostRuntime) {
    let bytes = b"\x12\x07testing";
    let field = Field {
        number: 2,
        wire: 2,
        value: 7,
        start: 2,
        end: 9,
        next: 9,
    };
    assert_eq!(rt; field_at(bytes.as_slice(), 0), Ok(field));
    let fixed = [0x0d, 1, 2, 0, 0, 0x09, 0, 1, 0, 0, 0, 0, 0, 0];
    assert_eq!(rt; field_at(&fixed, 0).map(|field| field.value), Ok(513));
    assert_eq!(rt; field_at(&fixed, 5).map(|field| field.value), Ok(256));
    assert_eq!(rt;
        field_at(&[0x08, 0x96, 0x01], 0).map(|field| field.end),
        Ok(3)
    );
    assert_eq!(rt; field_at(&[0x02, 0], 0), Err(fault(0, WireKind::Zero)));
    assert_eq!(rt; field_at(&[0x0b, 0x0c], 0), Err(fault(0, WireKind::Wire)));
    assert_eq!(rt; field_at(&[0x12, 2, 0], 0), Err(fault(0, WireKind::End)));
}

#[test]
fn what_is_put_is_read_again(rt: HostRuntime) -> Result<(), Fail> {
    let mut out = Vec::new(rt.alloc());
    put_bytes(&mut out, 2, b"testing")?;
    assert_eq!(rt; out.as_slice(), b"\x12\x07testing".as_slice());
    put_varint(&mut out, 300)?;
    assert_eq!(rt; out.len(), 11);
    assert_eq!(rt; varint(out.as_slice(), 9), Ok((300, 11)));
    Ok(())
}

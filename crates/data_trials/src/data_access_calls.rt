//! Words at both sides of the border between two segments.
use data_access::Segments;
use std::test::Fail;

/// Sets a word of four bytes, where there is one.
fn set_word(bytes: &mut Segments, at: u64, value: u32) {
    if at % 4 == 0 && at < 2_097_152 && at + 4 <= bytes.len() {
        bytes.set_u32(at, value);
    }
}

/// A word of four bytes, where there is one.
fn word(bytes: &Segments, at: u64) -> Option<u32> {
    if at % 4 == 0 && at < 2_097_152 && at + 4 <= bytes.len() {
        return Some(bytes.get_u32(at));
    }
    None
}

/// Sets a word of two bytes, where there is one.
fn set_half(bytes: &mut Segments, at: u64, value: u16) {
    if at % 2 == 0 && at < 2_097_152 && at + 2 <= bytes.len() {
        bytes.set_u16(at, value);
    }
}

/// A word of two bytes, where there is one.
fn half(bytes: &Segments, at: u64) -> Option<u16> {
    if at % 2 == 0 && at < 2_097_152 && at + 2 <= bytes.len() {
        return Some(bytes.get_u16(at));
    }
    None
}

#[test]
fn a_word_is_its_bytes_lowest_first(rt: HostRuntime) -> Result<(), Fail> {
    let mut bytes = Segments::new(rt.alloc());
    assert_eq!(rt; bytes.len(), 0);
    bytes.reserve_bytes(1)?;
    assert_eq!(rt; bytes.len(), 1_048_576);
    set_word(&mut bytes, 4, 0x1234_5678);
    assert_eq!(rt; half(&bytes, 4), Some(0x5678));
    assert_eq!(rt; half(&bytes, 6), Some(0x1234));
    set_half(&mut bytes, 6, 0xabcd);
    assert_eq!(rt; word(&bytes, 4), Some(0xabcd_5678));
    assert_eq!(rt; word(&bytes, 0), Some(0));
    assert_eq!(rt; word(&bytes, 8), Some(0));
    Ok(())
}

#[test]
fn words_stay_where_they_are_when_room_is_taken(rt: HostRuntime) -> Result<(), Fail> {
    let mut bytes = Segments::new(rt.alloc());
    bytes.reserve_bytes(1_048_576)?;
    assert_eq!(rt; bytes.len(), 1_048_576);
    set_word(&mut bytes, 1_048_572, 7);
    bytes.reserve_bytes(1_048_577)?;
    assert_eq!(rt; bytes.len(), 2_097_152);
    set_word(&mut bytes, 1_048_576, 9);
    assert_eq!(rt; word(&bytes, 1_048_572), Some(7));
    assert_eq!(rt; word(&bytes, 1_048_576), Some(9));
    assert_eq!(rt; word(&bytes, 2_097_148), Some(0));
    bytes.reserve_bytes(5)?;
    assert_eq!(rt; bytes.len(), 2_097_152);
    Ok(())
}

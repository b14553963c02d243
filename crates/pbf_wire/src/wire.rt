//! A varint and a field at a place.
ghost use Rattle.std.specs.Prelude.{◌≡◌, ◌+◌, ◌*◌, ◌^◌, ◌<◌, ◌≤◌, length, take, drop, IfOk};
ghost use Rattle.pbf_wire.specs.Wire.{varint_front, varint_at, at_byte, little_endian, value_of, behind_key, field_of};

use thiserror::Error;

/// What a byte of a varint holds beside its top bit, which says that another follows.
pub(crate) const GROUP: u64 = 128;

/// The most bytes that a varint has.
const LONGEST_VARINT: usize = 10;

/// What is wrong with a field.
#[derive(Clone, Copy, Debug, PartialEq, Eq)]
pub enum WireKind {
    /// A varint's first ten bytes all have the top bit set.
    Long,
    /// A varint or a value goes past the end.
    End,
    /// The field's number is 0.
    Zero,
    /// The wire type is 3, 4, 6 or 7.
    Wire,
}

/// No field stands at a byte, the one that was asked for: usually the message is cut, or isn't a message.
#[derive(Clone, Copy, Debug, PartialEq, Eq, Error)]
#[error("not a field of a message")]
pub struct WireFault {
    pub byte: u64,
    pub kind: WireKind,
}

/// A field: what its key says, and where its value stands.
#[derive(Clone, Copy, Debug, PartialEq, Eq)]
pub struct Field {
    pub number: u64,
    /// The wire type: 0 a varint, 1 eight bytes, 2 a length and bytes, 5 four bytes.
    pub wire: u8,
    /// The varint, the number in little-endian order, or the length.
    pub value: u64,
    /// Where the value's bytes begin and end.
    pub start: usize,
    pub end: usize,
    /// Where the next field begins.
    pub next: usize,
}

#[tactic(auto, using(crate::proofs::Bytes::last_byte, crate::proofs::Bytes::more_byte), unfolding(crate::specs::Wire::varint_front))]
fn front_varint(bytes: &[u8]) -> Result<(u64, usize), WireKind>
    ensures value { result ≡ varint_front bytes.now }
    ensures size { IfOk result (λ r. (0 < r.1) × (r.1 ≤ length bytes.now)) }
{
    let mut rest = bytes;
    let mut value = 0u64;
    let mut weight = 1u64;
    for size in 0..LONGEST_VARINT {
        let Some((byte, more)) = rest.split_first() else {
            return Err(WireKind::End);
        };
        let low = u64::from(*byte);
        if low < GROUP {
            return Ok((value.wrapping_add(weight.wrapping_mul(low)), size + 1));
        }
        value = value.wrapping_add(weight.wrapping_mul(low - GROUP));
        weight = weight.wrapping_mul(GROUP);
        rest = more;
    }
    Err(WireKind::Long)
}

#[tactic(auto, unfolding(crate::specs::Wire::varint_at))]
fn varint_behind(bytes: &[u8], at: usize) -> Result<(u64, usize), WireKind>
    requires { at ≤ length bytes.now }
    ensures value { result ≡ varint_at bytes.now at }
    ensures place { IfOk result (λ r. (at < r.1) × (r.1 ≤ length bytes.now)) }
{
    let (_, rest) = bytes.split_at(at);
    let (value, size) = front_varint(rest)?;
    Ok((value, at + size))
}

/// The varint at a place, without bits above 64, and the place behind it.
///
/// `Long` where the first ten bytes have the top bit set, `End` where the bytes end before.
pub fn varint(bytes: &[u8], at: usize) -> Result<(u64, usize), WireFault>
    requires { at ≤ length bytes.now }
    ensures value { result ≡ at_byte at (varint_at bytes.now at) }
    ensures place { IfOk result (λ r. (at < r.1) × (r.1 ≤ length bytes.now)) }
{
    match varint_behind(bytes, at) {
        Ok(read) => Ok(read),
        Err(kind) => Err(WireFault {
            byte: at as u64,
            kind,
        }),
    }
}

/// The number that these bytes are in little-endian order.
#[tactic(auto, using(crate::proofs::Bytes::power_more))]
fn number_of(bytes: &[u8]) -> u64
    requires { length bytes.now ≤ 8 }
    ensures value { result ≡ little_endian bytes.now }
    ensures small { result < 256 ^ length bytes.now }
{
    match bytes.split_first() {
        None => 0,
        Some((byte, more)) => 256 * number_of(more) + u64::from(*byte),
    }
}

/// The number in little-endian order of a few bytes at a place, as far as they are there.
fn fixed_behind(bytes: &[u8], start: usize, size: usize) -> u64
    requires start { start ≤ length bytes.now }
    requires size { size ≤ 8 }
    ensures { result ≡ little_endian (take size (drop start bytes.now)) }
{
    let (_, rest) = bytes.split_at(start);
    if size <= rest.len() {
        let (value, _) = rest.split_at(size);
        number_of(value)
    } else {
        number_of(rest)
    }
}

#[tactic(auto, unfolding(crate::specs::Wire::value_of))]
fn with_value(
    bytes: &[u8],
    number: u64,
    wire: u8,
    value: u64,
    start: usize,
    size: u64,
) -> Result<Field, WireKind>
    requires { start ≤ length bytes.now }
    ensures value { result ≡ value_of bytes.now number wire value start size }
    ensures place { IfOk result (λ f. (start ≤ f.next) × (f.next ≤ length bytes.now)) }
{
    if size > (bytes.len() - start) as u64 {
        return Err(WireKind::End);
    }
    let end = start + size as usize;
    Ok(Field {
        number,
        wire,
        value,
        start,
        end,
        next: end,
    })
}

#[tactic(auto, unfolding(crate::specs::Wire::behind_key))]
fn value_behind(bytes: &[u8], number: u64, wire: u8, start: usize) -> Result<Field, WireKind>
    requires { start ≤ length bytes.now }
    ensures value { result ≡ behind_key bytes.now number wire start }
    ensures place { IfOk result (λ f. (start ≤ f.next) × (f.next ≤ length bytes.now)) }
{
    if number == 0 {
        return Err(WireKind::Zero);
    }
    match wire {
        0 => {
            let (value, end) = varint_behind(bytes, start)?;
            with_value(bytes, number, wire, value, start, (end - start) as u64)
        }
        1 => with_value(bytes, number, wire, fixed_behind(bytes, start, 8), start, 8),
        2 => {
            let (value, from) = varint_behind(bytes, start)?;
            with_value(bytes, number, wire, value, from, value)
        }
        5 => with_value(bytes, number, wire, fixed_behind(bytes, start, 4), start, 4),
        _ => Err(WireKind::Wire),
    }
}

#[tactic(auto, unfolding(crate::specs::Wire::field_of))]
fn field_behind(bytes: &[u8], at: usize) -> Result<Field, WireKind>
    requires { at ≤ length bytes.now }
    ensures value { result ≡ field_of bytes.now at }
    ensures place { IfOk result (λ f. (at < f.next) × (f.next ≤ length bytes.now)) }
{
    let (key, start) = varint_behind(bytes, at)?;
    value_behind(bytes, key / 8, (key % 8) as u8, start)
}

/// The field at a place. The fault is the first in the order key, number, wire type, value: a number that is 0
/// is `Zero`, a wire type other than 0, 1, 2 and 5 is `Wire`, a value past the end is `End`.
pub fn field_at(bytes: &[u8], at: usize) -> Result<Field, WireFault>
    requires { at ≤ length bytes.now }
    ensures value { result ≡ at_byte at (field_of bytes.now at) }
    ensures place { IfOk result (λ f. (at < f.next) × (f.next ≤ length bytes.now)) }
{
    match field_behind(bytes, at) {
        Ok(field) => Ok(field),
        Err(kind) => Err(WireFault {
            byte: at as u64,
            kind,
        }),
    }
}

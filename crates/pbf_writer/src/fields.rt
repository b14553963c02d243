//! Fields and lists of numbers, appended to a message.
ghost use Rattle.std.specs.Prelude.{◌≡◌, ◌<◌, ◌++◌, pos, OnOk, IfOk};
ghost use Rattle.pbf_wire.specs.Parts.{Part, part_text, varints_text, sint, deltas};

use gh_base::NoMemory;
use pbf_wire::{put_bytes, put_varint};
use std::alloc::Global;

/// Appends a field that holds a number.
pub(crate) fn put_number(out: &mut Vec<u8>, number: u32, value: u64) -> Result<(), NoMemory>
    ensures { OnOk result (out.new.items ≡ out.old.items ++ part_text (Part.Number number value)) }
{
    put_varint(out, 8 * u64::from(number))?;
    put_varint(out, value)
}

/// Numbers as varints, one behind another.
fn packed(alloc: Global, values: &[u64]) -> Result<Vec<u8>, NoMemory>
    ensures { IfOk result (λ bytes. bytes.items ≡ varints_text values.now) }
{
    let mut bytes = Vec::new(alloc);
    for value in values {
        put_varint(&mut bytes, *value)?;
    }
    Ok(bytes)
}

/// Appends a field that holds a list of numbers; an empty list is not written.
pub(crate) fn put_packed(
    alloc: Global,
    out: &mut Vec<u8>,
    number: u32,
    values: &[u64],
) -> Result<(), NoMemory>
    requires { 0 < number }
    ensures { OnOk result (out.new.items ≡ out.old.items ++ part_text (Part.Packed number values.now)) }
{
    if values.is_empty() {
        return Ok(());
    }
    let bytes = packed(alloc, values)?;
    put_bytes(out, number, &bytes)
}

/// A signed number as a varint is to hold it.
fn zigzag(value: i64) -> u64
    ensures { result ≡ sint value }
{
    let magnitude = value.unsigned_abs();
    if value < 0 {
        2 * (magnitude - 1) + 1
    } else {
        2 * magnitude
    }
}

/// The differences of numbers, each from the one before it, as varints are to hold them.
fn deltas_of(alloc: Global, values: &[i64]) -> Result<Vec<u64>, NoMemory>
    ensures { IfOk result (λ list. list.items ≡ deltas (pos 0) values.now) }
{
    let mut list = Vec::new(alloc);
    let mut last = 0;
    for value in values {
        list.push(zigzag(value.wrapping_sub(last)))?;
        last = *value;
    }
    Ok(list)
}

/// Appends a field that holds a list of signed numbers by their differences.
pub(crate) fn put_deltas(
    alloc: Global,
    out: &mut Vec<u8>,
    number: u32,
    values: &[i64],
) -> Result<(), NoMemory>
    requires { 0 < number }
    ensures { OnOk result (out.new.items ≡ out.old.items ++ part_text (Part.Packed number (deltas (pos 0) values.now))) }
{
    let list = deltas_of(alloc, values)?;
    put_packed(alloc, out, number, &list)
}

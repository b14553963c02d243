//! Varints and fields of bytes, written so that they are read again.
ghost use Rattle.std.specs.Prelude.{◌-◌, ◌≡◌, ◌+◌, ◌*◌, ◌^◌, ◌<◌, ◌≤◌, ◌++◌, length, OnOk, OnErr, Ok};
ghost use Rattle.pbf_wire.specs.Wire.{varint_at, field_of};
ghost use Rattle.pbf_wire.specs.Put.{varint_bytes, bytes_field, Extends};
ghost use Rattle.pbf_wire.specs.declared.wire.Field.{Field};

use crate::wire::GROUP;
use gh_base::NoMemory;

/// Appends a varint in its shortest form. After `NoMemory` the old bytes stand, maybe with a part of it behind them.
#[tactic(auto, using(crate::proofs::Puts::start_put, crate::proofs::Puts::more_put, crate::proofs::Puts::end_put, crate::proofs::Puts::extends_none, crate::proofs::Puts::extends_more))]
fn append_varint(out: &mut Vec<u8>, value: u64) -> Result<(), NoMemory>
    ensures put { OnOk result (out.new.items ≡ out.old.items ++ varint_bytes value) }
    ensures kept { OnErr result (Extends out.old.items out.new.items) }
{
    let mut left = value;
    'bytes: while left >= GROUP {
        out.push((left % GROUP + GROUP) as u8)?;
        left /= GROUP;
    }
    out.push(left as u8)?;
    Ok(())
}

/// Appends a field that holds bytes. After `NoMemory` the old bytes stand, maybe with a part of it behind them.
#[tactic(auto, using(crate::proofs::Puts::field_put, crate::proofs::Puts::extends_more, crate::proofs::Puts::extends_front, crate::proofs::Puts::extends_none))]
fn append_bytes(out: &mut Vec<u8>, number: u32, bytes: &[u8]) -> Result<(), NoMemory>
    ensures put { OnOk result (out.new.items ≡ out.old.items ++ bytes_field number bytes.now) }
    ensures kept { OnErr result (Extends out.old.items out.new.items) }
{
    append_varint(out, 8 * u64::from(number) + 2)?;
    append_varint(out, bytes.len() as u64)?;
    out.extend_from_slice(bytes)?;
    Ok(())
}

/// Appends a varint in its shortest form, which `varint` reads again. After `NoMemory` all is as before.
#[tactic(auto, using(crate::proofs::Puts::read_back, crate::proofs::Puts::extends_cut))]
pub fn put_varint(out: &mut Vec<u8>, value: u64) -> Result<(), NoMemory>
    ensures put { OnOk result (out.new.items ≡ out.old.items ++ varint_bytes value) }
    ensures kept { OnErr result (out.new.items ≡ out.old.items) }
    ensures read { OnOk result (varint_at out.new.items (length out.old.items) ≡ Ok (value, length out.new.items)) }
{
    let before = out.len();
    if append_varint(out, value).is_err() {
        out.truncate(before);
        return Err(NoMemory);
    }
    Ok(())
}

/// Appends a field that holds bytes, which `field_at` reads again. After `NoMemory` all is as before.
#[tactic(auto, using(crate::proofs::Puts::field_back, crate::proofs::Puts::extends_cut))]
pub fn put_bytes(out: &mut Vec<u8>, number: u32, bytes: &[u8]) -> Result<(), NoMemory>
    requires { 0 < number }
    ensures put { OnOk result (out.new.items ≡ out.old.items ++ bytes_field number bytes.now) }
    ensures kept { OnErr result (out.new.items ≡ out.old.items) }
    ensures read { OnOk result (field_of out.new.items (length out.old.items) ≡ Ok (record { number = number; wire = 2; value = length bytes.now; start = length out.new.items - length bytes.now; end = length out.new.items; next = length out.new.items })) }
{
    let before = out.len();
    if append_bytes(out, number, bytes).is_err() {
        out.truncate(before);
        return Err(NoMemory);
    }
    Ok(())
}

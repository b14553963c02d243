//! Lists of numbers in a message, packed or not.
ghost use Rattle.std.specs.Prelude.{◌≡◌, OnOk, IfOk};
ghost use Rattle.pbf_wire.specs.Lists.{both, varints_of, values_in, values_of};

use crate::runs::{before, lesser};
use gh_base::{NoMemory, Sequence};
use pbf_wire::{Spot, Values, varint};
use std::alloc::Global;

/// Adds the varints from a place to the end, in the field of a key.
#[tactic(auto, using(crate::proofs::Varints::start_values, crate::proofs::Varints::more_values, crate::proofs::Varints::end_values, crate::proofs::Varints::bad_value))]
fn add_varints(out: &mut Values, key: u64, bytes: &[u8], at: usize) -> Result<(), NoMemory>
    ensures { OnOk result (out.new ≡ both out.old (varints_of key bytes.now at)) }
{
    let mut next = at;
    'values: while next < bytes.len() {
        match varint(bytes, next) {
            Ok((value, end)) => {
                out.values.push(value)?;
                next = end;
            }
            Err(_) => {
                out.bad = lesser(out.bad, Some(key));
                return Ok(());
            }
        }
    }
    Ok(())
}

/// Adds what a field holds of the list of a number.
fn add_values(out: &mut Values, bytes: &[u8], number: u64, spot: &Spot) -> Result<(), NoMemory>
    ensures { OnOk result (out.new ≡ both out.old (values_in bytes.now number spot.now)) }
{
    if spot.field.number != number {
        return Ok(());
    }
    match spot.field.wire {
        0 => out.values.push(spot.field.value),
        2 => add_varints(
            out,
            spot.key as u64,
            before(bytes, spot.field.end),
            spot.field.start,
        ),
        _ => Ok(()),
    }
}

/// The list of a number in these fields.
pub fn list_of(
    alloc: Global,
    bytes: &[u8],
    number: u64,
    fields: &[Spot],
) -> Result<Values, NoMemory>
    ensures { IfOk result (λ v. v ≡ values_of bytes.now number fields.now) }
{
    let mut out = Values {
        values: Sequence::new(alloc),
        bad: None,
    };
    for spot in fields {
        add_values(&mut out, bytes, number, spot)?;
    }
    Ok(out)
}

//! A message as a run of fields.
ghost use Rattle.std.specs.Prelude.{◌≡◌, take, IfOk};
ghost use Rattle.pbf_wire.specs.Runs.{run_of, least};
ghost use Rattle.pbf_wire.specs.Pieces.{part_of};

use gh_base::{NoMemory, Sequence};
use pbf_wire::{Run, Spot, field_at};
use std::alloc::Global;

/// The message from a place to the end.
#[tactic(auto, using(crate::proofs::Fields::start_run, crate::proofs::Fields::more_fields, crate::proofs::Fields::end_fields, crate::proofs::Fields::bad_field))]
pub fn read_run(alloc: Global, bytes: &[u8], at: usize) -> Result<Run, NoMemory>
    ensures { IfOk result (λ r. r ≡ run_of bytes.now at) }
{
    let mut fields = Sequence::new(alloc);
    let mut next = at;
    'fields: while next < bytes.len() {
        match field_at(bytes, next) {
            Ok(field) => {
                fields.push(Spot { key: next, field })?;
                next = field.next;
            }
            Err(fault) => {
                return Ok(Run {
                    fields,
                    bad: Some(fault.byte),
                });
            }
        }
    }
    Ok(Run { fields, bad: None })
}

/// The lesser of two keys.
pub(crate) fn lesser(one: Option<u64>, other: Option<u64>) -> Option<u64>
    ensures { result ≡ least one other }
{
    match (one, other) {
        (None, other) => other,
        (one, None) => one,
        (Some(one), Some(other)) => Some(one.min(other)),
    }
}

/// The bytes before a place.
pub fn before(bytes: &[u8], end: usize) -> &[u8]
    ensures { result.now ≡ take end bytes.now }
{
    if end < bytes.len() {
        bytes.split_at(end).0
    } else {
        bytes
    }
}

/// The bytes from a place to another, as far as they are there.
pub(crate) fn part(bytes: &[u8], start: usize, end: usize) -> &[u8]
    ensures { result.now ≡ part_of bytes.now start end }
{
    let front = before(bytes, end);
    if start < front.len() {
        front.split_at(start).1
    } else {
        &[]
    }
}

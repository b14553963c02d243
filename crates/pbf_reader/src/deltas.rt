//! Ids and coordinates, as sums of differences.
ghost use Rattle.std.specs.Prelude.{◌≡◌, ◌+◌, ◌+ℤ◌, ◌*ℤ◌, ◌^◌, ◌<◌, ◌≤◌, nat_abs, pos};
ghost use Rattle.std.specs.Int.{int_div_euclid};
ghost use Rattle.pbf_wire.specs.Deltas.{zigzag_of, is_id, ids_from, within, coordinate_of, coordinates_from};
ghost use Rattle.pbf_reader.specs.Reading.{Gives};

use crate::fault::{PbfFault, fault};
use gh_base::{IdList, PbfKind, Sequence};
use pbf_wire::Axis;
use std::alloc::Global;

/// The least number of nineteen digits: ids are less.
const END_OF_IDS: u64 = 1_000_000_000_000_000_000;

/// How many 1e-9 degrees, in which a file is written, a unit of a coordinate has.
const NANO_OF_UNIT: i128 = 100;

/// A number with a sign: 0, -1, 1, -2, 2 and so on.
pub fn zigzag(n: u64) -> i64
    ensures { result ≡ zigzag_of n }
{
    if n % 2 == 0 {
        (n / 2) as i64
    } else {
        -1 - (n / 2) as i64
    }
}

/// Whether an id has at most eighteen digits.
pub(crate) fn fits_id(id: i64) -> bool
    ensures { result ≡ is_id id }
{
    id.unsigned_abs() < END_OF_IDS
}

/// The ids that these differences make.
#[tactic(auto, using(crate::proofs::Fronts::front_more, crate::proofs::Fronts::front_nil))]
pub(crate) fn ids(alloc: Global, place: u64, deltas: &[u64]) -> Result<IdList, PbfFault>
    ensures { Gives result (ids_from place (pos 0) deltas.now) }
{
    let mut ids = IdList::new(alloc);
    let mut last = 0i64;
    for delta in deltas {
        let Some(id) = last.checked_add(zigzag(*delta)) else {
            return Err(fault(place, PbfKind::BadId));
        };
        if !fits_id(id) {
            return Err(fault(place, PbfKind::BadId));
        }
        ids.push(id)?;
        last = id;
    }
    Ok(ids)
}

/// A value in units of 1e-7 degree, where it isn't too far from 0.
#[tactic(auto, using(crate::proofs::Far::far_out, crate::proofs::Far::is_within, crate::proofs::Far::is_outside, crate::proofs::Rounds::rounds))]
fn unit_within(granularity: i32, value: i128, offset: i64, most: u32) -> Option<i32>
    requires { most < 2 ^ 31 }
    ensures { result ≡ within most (int_div_euclid (granularity *ℤ value +ℤ offset) (pos 100)) }
{
    let Some(product) = i128::from(granularity).checked_mul(value) else {
        return None;
    };
    let Some(nano) = product.checked_add(i128::from(offset)) else {
        return None;
    };
    let unit = nano.div_euclid(NANO_OF_UNIT);
    if unit.unsigned_abs() > u128::from(most) {
        return None;
    }
    Some(unit as i32)
}

/// A value of an axis in units of 1e-7 degree.
#[tactic(auto, using(crate::proofs::Rounds::rounds), unfolding(pbf_wire::specs::Deltas::coordinate_of))]
pub(crate) fn coordinate(axis: &Axis, value: i128) -> Option<i32>
    requires { axis.now.most < 2 ^ 31 }
    ensures { result ≡ coordinate_of axis.now value }
{
    unit_within(axis.granularity, value, axis.offset, axis.most)
}

/// A number and the next difference.
fn moved(last: i128, delta: u64) -> i128
    requires { nat_abs last ≤ 2 ^ 126 }
    ensures value { result ≡ last +ℤ zigzag_of delta }
    ensures near { nat_abs result ≤ nat_abs last + 2 ^ 63 }
{
    last + i128::from(zigzag(delta))
}

/// The coordinates that these differences make.
#[tactic(auto, using(crate::proofs::Fronts::front_more, crate::proofs::Fronts::front_nil))]
pub(crate) fn coordinates(
    alloc: Global,
    place: u64,
    axis: &Axis,
    deltas: &[u64],
) -> Result<Sequence<i32>, PbfFault>
    requires { axis.now.most < 2 ^ 31 }
    ensures { Gives result (coordinates_from place axis.now (pos 0) deltas.now) }
{
    let mut found = Sequence::new(alloc);
    let mut last = 0i128;
    for delta in deltas {
        let value = moved(last, *delta);
        let Some(unit) = coordinate(axis, value) else {
            return Err(fault(place, PbfKind::BadPlace));
        };
        found.push(unit)?;
        last = value;
    }
    Ok(found)
}

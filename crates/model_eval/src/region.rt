//! Points and edges in areas, by exact fractions.
ghost use Rattle.std.specs.Prelude.{◌≡◌, ◌≤◌, ◌<◌, ◌^◌, ◌*ℤ◌, ℕ, int_lt, length, slice_get, Some, None};
ghost use Rattle.std.specs.List.{list_any};
ghost use Rattle.std.specs.Int.RustNames.{unsigned_abs};
ghost use Rattle.model_eval.specs.Conditions.{has_bit};
ghost use Rattle.model_eval.specs.Models.{IsModel};
ghost use Rattle.model_eval.specs.Regions as spec;
ghost use Rattle.model_eval.specs.declared.custom_model.Area.{Area};

use crate::custom_model::{Area, CustomModel, Ring};
use gh_base::{EdgeId, Point, Shape, Shapes};

/// How far a point lies east of another.
fn east(a: Point, p: Point) -> i64
    ensures value { result ≡ spec.east a p }
    ensures small { unsigned_abs result ≤ 4294967296 }
{
    i64::from(p.lon) - i64::from(a.lon)
}

/// How far a point lies north of another.
fn north(a: Point, p: Point) -> i64
    ensures value { result ≡ spec.north a p }
    ensures small { unsigned_abs result ≤ 4294967296 }
{
    i64::from(p.lat) - i64::from(a.lat)
}

fn product(a: i64, b: i64) -> i128
    requires a { unsigned_abs a ≤ 4294967296 }
    requires b { unsigned_abs b ≤ 4294967296 }
    ensures { result ≡ a *ℤ b }
{
    i128::from(a) * i128::from(b)
}

#[tactic(auto, unfolding(crate::specs::Regions::is_same))]
fn is_same(a: i128, b: i128) -> bool
    ensures { result ≡ spec.is_same a b }
{
    a == b
}

fn is_less(a: i128, b: i128) -> bool
    ensures { result ≡ int_lt a b }
{
    a < b
}

#[tactic(auto, unfolding(crate::specs::Regions::are_in_line))]
fn are_in_line(a: Point, b: Point, p: Point) -> bool
    ensures { result ≡ spec.are_in_line a b p }
{
    is_same(
        product(east(a, p), north(a, b)),
        product(north(a, p), east(a, b)),
    )
}

#[tactic(auto, unfolding(crate::specs::Regions::is_between))]
fn is_between(a: i32, b: i32, x: i32) -> bool
    ensures { result ≡ spec.is_between a b x }
{
    a <= x && x <= b || b <= x && x <= a
}

fn is_on(point: Point, start: Point, stop: Point) -> bool
    ensures { result ≡ spec.is_on point (record { start = start; stop = stop }) }
{
    are_in_line(start, stop, point)
        && is_between(start.lat, stop.lat, point.lat)
        && is_between(start.lon, stop.lon, point.lon)
}

/// Whether a segment that goes north from `a` to `b` is farther east than the point, at its latitude.
#[tactic(auto, unfolding(crate::specs::Regions::lies_west))]
fn lies_west(point: Point, a: Point, b: Point) -> bool
    ensures { result ≡ spec.lies_west point a b }
{
    is_less(
        product(east(a, point), north(a, b)),
        product(north(a, point), east(a, b)),
    )
}

/// Whether the ray from the point to growing longitude crosses the segment.
fn crosses(point: Point, start: Point, stop: Point) -> bool
    ensures { result ≡ spec.crosses point (record { start = start; stop = stop }) }
{
    match (point.lat < start.lat, point.lat < stop.lat) {
        (true, false) => lies_west(point, stop, start),
        (false, true) => lies_west(point, start, stop),
        _ => false,
    }
}

/// Whether the ray from the point crosses an odd number of a ring's segments; None where the point lies on
/// one of them.
#[tactic(auto, using(crate::proofs::Crossings::from_even, crate::proofs::Crossings::ring_parts))]
fn crosses_oddly(ring: &[Point], point: Point) -> Option<bool>
    ensures { result ≡ spec.sight point (spec.segments ring.now) }
{
    let [first, rest @ ..] = ring else {
        return Some(false);
    };
    let mut start = *first;
    let mut odd = false;
    for stop in rest {
        if is_on(point, start, *stop) {
            return None;
        }
        if crosses(point, start, *stop) {
            odd = !odd;
        }
        start = *stop;
    }
    Some(odd)
}

/// Whether a point lies in an area or on its border.
#[tactic(auto, using(crate::proofs::Crossings::from_outside))]
pub fn inside(area: &Area, point: Point) -> bool
    ensures { result ≡ spec.is_inside area.now.rings point }
{
    let mut odd = false;
    for ring in area.rings.as_slice() {
        match crosses_oddly(ring.as_slice(), point) {
            None => return true,
            Some(true) => odd = !odd,
            Some(false) => {}
        }
    }
    odd
}

/// Whether some point of a line lies in an area or on its border.
fn touches(area: &Area, shape: &Shape<'_>) -> bool
    ensures { result ≡ spec.touches shape.now area.now }
{
    for index in 0..shape.len() {
        if inside(area, shape.get(index)) {
            return true;
        }
    }
    false
}

/// The areas in which an edge lies: bit i is set where some point of its geometry, its towers among them,
/// lies in area i or on its border.
#[tactic(auto, using(crate::proofs::Bits::next_area, crate::proofs::Bits::rest_is_small, crate::proofs::Bits::bit_of_word), unfolding(crate::specs::Regions::areas_at))]
pub fn areas_of<S: Shapes>(model: &CustomModel, shapes: &S, edge: EdgeId) -> u64
    requires model { IsModel model.now }
    requires edge { edge.0 < S.edges shapes.now }
    ensures word { result ≡ spec.areas_at model.now.areas (S.points_of shapes.now edge.0) }
    ensures bit { (place : ℕ) (area : Area) → slice_get model.now.areas place ≡ Some area → has_bit result place ≡ spec.touches (S.points_of shapes.now edge.0) area }
{
    let areas = model.areas.as_slice();
    let shape = shapes.shape(edge);
    let mut word = 0;
    let mut left = areas.len();
    while left > 0 {
        left -= 1;
        word = 2 * word + u64::from(touches(&areas[left], &shape));
    }
    word
}

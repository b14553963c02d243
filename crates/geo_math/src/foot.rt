//! The foot of a point on a segment.
ghost use Rattle.std.specs.Prelude.{◌≡◌, ◌*◌, ◌-ℤ◌, ◌*ℤ◌, ◌^◌, ◌<◌, ◌≤◌};
ghost use Rattle.std.specs.Int.RustNames.{unsigned_abs};
ghost use Rattle.gh_base.specs.Places.{IsOnEarth};
ghost use Rattle.geo_math.specs.Lengths.{segment_length};
ghost use Rattle.geo_math.specs.Foot.{along, along as inner, area, away2, foot, foot_of, inside, seen, square, step, IsNear, IsStep};

use crate::lengths::{scaled, segment_mm};
use gh_base::Point;

/// Where a segment is nearest to a point.
#[derive(Clone, Copy, Debug, PartialEq, Eq)]
pub struct Snap {
    /// How far from the segment's first end, in mm.
    pub place: u64,
    /// The square of the distance from the point, in squares of 1e-7 degree of latitude.
    pub dist2: u128,
}

/// How far east and how far north a place lies from another, in 1e-7 degree of latitude.
#[derive(Clone, Copy)]
pub(crate) struct Seen {
    east: i64,
    north: i64,
}

/// How far one coordinate is from another.
fn difference(to: i32, from: i32) -> i64
    ensures value { result ≡ to -ℤ from }
{
    i64::from(to) - i64::from(from)
}

/// The product of two numbers, wide enough for each.
#[tactic(auto, using(std::proofs::lemmas::Int::fits_signed_from_abs))]
fn product(a: i64, b: i64) -> i128
    requires a { unsigned_abs a ≤ 7200000000 }
    requires b { unsigned_abs b ≤ 7200000000 }
    ensures value { result ≡ a *ℤ b }
    ensures small { unsigned_abs result ≤ 51840000000000000000 }
    ensures size { unsigned_abs result ≡ unsigned_abs a * unsigned_abs b }
{
    i128::from(a) * i128::from(b)
}

/// The square of a number.
fn square(a: i64) -> u128
    requires { unsigned_abs a ≤ 7200000000 }
    ensures value { result ≡ square a }
    ensures small { result ≤ 51840000000000000000 }
{
    let size = u128::from(a.unsigned_abs());
    size * size
}

impl Seen {
    /// A place, seen from a point.
    #[tactic(auto, unfolding(crate::specs::Foot::seen))]
    fn of(p: Point, place: Point) -> Seen
        requires p { IsOnEarth p }
        requires place { IsOnEarth place }
        ensures value { result ≡ seen p place }
        ensures near { IsNear result }
    {
        Seen {
            east: scaled(difference(place.lon, p.lon), i64::from(p.lat)),
            north: difference(place.lat, p.lat),
        }
    }

    /// The step from this place to another.
    #[tactic(auto, unfolding(crate::specs::Foot::step))]
    fn step_to(self, other: Seen) -> Seen
        requires near { IsNear self }
        requires other { IsNear other }
        ensures value { result ≡ step self other }
        ensures small { IsStep result }
    {
        Seen {
            east: other.east - self.east,
            north: other.north - self.north,
        }
    }

    /// The square of how far away.
    #[tactic(auto, unfolding(crate::specs::Foot::away2))]
    fn away2(self) -> u128
        requires { IsStep self }
        ensures value { result ≡ away2 self }
        ensures small { result ≤ 103680000000000000000 }
    {
        square(self.east) + square(self.north)
    }

    /// How far along the step to `other` the foot lies, in parts of the step's square.
    #[tactic(auto, unfolding(crate::specs::Foot::along))]
    fn along(self, other: Seen) -> i128
        requires near { IsNear self }
        requires other { IsNear other }
        ensures { result ≡ along self other }
    {
        let step = self.step_to(other);
        -(product(self.east, step.east) + product(self.north, step.north))
    }

    /// Twice the area of the triangle with `other`, with its sign.
    fn area(self, other: Seen) -> i128
        requires near { IsNear self }
        requires other { IsNear other }
        ensures value { result ≡ area self other }
        ensures small { unsigned_abs result ≤ 12960000000000000000 }
    {
        product(self.east, other.north) - product(self.north, other.east)
    }

    /// The square of that area. It needs all 128 bits but one.
    #[tactic(auto, using(crate::proofs::Squares::area_fits))]
    fn area2(self, other: Seen) -> u128
        requires near { IsNear self }
        requires other { IsNear other }
        ensures { result ≡ square (area self other) }
    {
        let size = self.area(other).unsigned_abs();
        size * size
    }
}

/// Strictly inside a segment of a length.
#[tactic(auto, unfolding(crate::specs::Foot::inside))]
fn inside(length: u64, along: u128, a: Seen, b: Seen) -> Snap
    requires length { length < 2 ^ 36 }
    requires a { IsNear a }
    requires b { IsNear b }
    requires along { along ≡ unsigned_abs (inner a b) }
    requires inside { along < away2 (step a b) }
    ensures value { result ≡ inside length a b }
    ensures within { result.place ≤ length }
{
    let whole = a.step_to(b).away2();
    Snap {
        place: (u128::from(length) * along / whole) as u64,
        dist2: a.area2(b) / whole,
    }
}

/// The foot on a segment of a length, whose ends are seen so.
#[tactic(auto, unfolding(crate::specs::Foot::foot_of))]
fn foot_of(length: u64, a: Seen, b: Seen) -> Snap
    requires length { length < 2 ^ 36 }
    requires a { IsNear a }
    requires b { IsNear b }
    ensures value { result ≡ foot_of length a b }
    ensures within { result.place ≤ length }
{
    let along = a.along(b);
    if along <= 0 {
        return Snap {
            place: 0,
            dist2: a.away2(),
        };
    }
    let along = along.unsigned_abs();
    if along >= a.step_to(b).away2() {
        return Snap {
            place: length,
            dist2: b.away2(),
        };
    }
    inside(length, along, a, b)
}

/// The foot of the point `p` on the segment from `a` to `b`: where the segment is nearest to it.
///
/// Seen from `p`, differences of longitudes are scaled at its latitude. The foot is an end where `p` lies
/// behind `a` or past `b`.
#[tactic(auto, unfolding(crate::specs::Foot::foot))]
pub fn project(p: Point, a: Point, b: Point) -> Snap
    requires p { IsOnEarth p }
    requires a { IsOnEarth a }
    requires b { IsOnEarth b }
    ensures value { result ≡ foot p a b }
    ensures within { result.place ≤ segment_length a b }
{
    foot_of(segment_mm(a, b), Seen::of(p, a), Seen::of(p, b))
}

//! The length of a segment.
ghost use Rattle.std.specs.Prelude.{◌≡◌, ◌≤◌, ◌<◌, ◌^◌};
ghost use Rattle.std.specs.Int.RustNames.{unsigned_abs};
ghost use Rattle.gh_base.specs.Places.{IsOnEarth};
ghost use Rattle.geo_math.specs.Lengths.{diagonal, middle, scaled, scaled_size, segment_length};

use crate::roots::isqrt;
use gh_base::Point;

/// Four times the square of 90 degrees, in squares of 1e-7 degree.
const POLE: u128 = 3_240_000_000_000_000_000;

/// Squares of 1e-10 degree in a square of 1e-7 degree.
const FINER: u128 = 1_000_000;

/// 1e-10 degree is this many mm, over `MM_UNDER`.
const MM_OVER: u128 = 111_194_927;

const MM_UNDER: u128 = 10_000_000_000;

/// The size of a difference of longitudes at a latitude, scaled by a fraction near the cosine, rounded down.
#[tactic(auto, using(crate::proofs::Squares::scaled_small), unfolding(crate::specs::Lengths::scaled_size))]
fn scaled_size(difference: u64, latitude: u64) -> u64
    requires difference { difference ≤ 3600000000 }
    requires latitude { latitude ≤ 900000000 }
    ensures value { result ≡ scaled_size difference latitude }
    ensures small { result ≤ 3600000000 }
{
    let square = u128::from(latitude) * u128::from(latitude);
    (u128::from(difference) * (POLE - 4 * square) / (POLE + square)) as u64
}

/// A difference of longitudes at a latitude, as long as the same difference of latitudes. It keeps its sign.
#[tactic(auto, unfolding(crate::specs::Lengths::scaled))]
pub(crate) fn scaled(difference: i64, latitude: i64) -> i64
    requires difference { unsigned_abs difference ≤ 3600000000 }
    requires latitude { unsigned_abs latitude ≤ 900000000 }
    ensures value { result ≡ scaled difference latitude }
    ensures small { unsigned_abs result ≤ 3600000000 }
{
    let size = scaled_size(difference.unsigned_abs(), latitude.unsigned_abs()) as i64;
    if difference < 0 { -size } else { size }
}

/// Halfway between two latitudes, rounded down.
#[tactic(auto, using(crate::proofs::Squares::middle_small), unfolding(crate::specs::Lengths::middle))]
fn middle(a: i32, b: i32) -> i64
    requires a { unsigned_abs a ≤ 900000000 }
    requires b { unsigned_abs b ≤ 900000000 }
    ensures value { result ≡ middle a b }
    ensures small { unsigned_abs result ≤ 900000000 }
{
    (i64::from(a) + i64::from(b)).div_euclid(2)
}

/// The length in mm of a way that goes so far east and so far north, below 2^36.
#[tactic(auto, using(crate::proofs::Squares::diagonal_small), unfolding(crate::specs::Lengths::diagonal))]
fn diagonal(east: u64, north: u64) -> u64
    requires east { east ≤ 3600000000 }
    requires north { north ≤ 1800000000 }
    ensures value { result ≡ diagonal east north }
    ensures small { result < 2 ^ 36 }
{
    let square = u128::from(east) * u128::from(east) + u128::from(north) * u128::from(north);
    let root = isqrt(square * FINER);
    (u128::from(root) * MM_OVER / MM_UNDER) as u64
}

/// The length of the segment between two points in mm, below 2^36.
#[tactic(auto, unfolding(crate::specs::Lengths::segment_length))]
pub fn segment_mm(a: Point, b: Point) -> u64
    requires a { IsOnEarth a }
    requires b { IsOnEarth b }
    ensures value { result ≡ segment_length a b }
    ensures small { result < 2 ^ 36 }
{
    let east = scaled(i64::from(b.lon) - i64::from(a.lon), middle(a.lat, b.lat));
    let north = i64::from(b.lat) - i64::from(a.lat);
    diagonal(east.unsigned_abs(), north.unsigned_abs())
}

//! The points of a piece, and its length.
ghost use Rattle.std.specs.Ordering.{int_eq};
ghost use Rattle.std.specs.Prelude.{◌≡◌, ◌-◌, ◌^◌, ℤ, min, All, IfOk};
ghost use Rattle.std.specs.HashMap.{get};
ghost use Rattle.gh_base.specs.Places.{IsOnEarth};
ghost use Rattle.geo_math.specs.Lengths.{line_length};
ghost use Rattle.map_import.specs.Roads.{points_along};

use crate::places::point_at;
use geo_math::segment_mm;
use gh_base::{NoMemory, Point};
use std::alloc::Global;
use std::collections::HashMap;

/// The points of nodes, in order.
pub(crate) fn points_of(
    alloc: Global,
    places: &HashMap<i64, Point>,
    refs: &[i64],
) -> Result<Vec<Point>, NoMemory>
    ensures { IfOk result (λ points. points.items ≡ points_along (get int_eq places.now) refs.now) }
{
    let mut points = Vec::new(alloc);
    for id in refs {
        points.push(point_at(places, *id))?;
    }
    Ok(points)
}

/// The sum of the lengths of the segments in mm, or 2^64 - 1 where it is more.
pub(crate) fn line_mm(points: &[Point]) -> u64
    requires { All IsOnEarth points.now }
    ensures { result ≡ min (line_length points.now) (2 ^ 64 - 1) }
{
    let mut mm = 0u64;
    let mut left = points;
    while let [a, rest @ ..] = left {
        if let [b, ..] = rest {
            mm = mm.saturating_add(segment_mm(*a, *b));
        }
        left = rest;
    }
    mm
}

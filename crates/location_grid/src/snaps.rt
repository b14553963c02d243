//! The snap of a point on a line.
ghost use Rattle.std.specs.Prelude.{◌≡◌, ◌≤◌, ◌<◌, ◌^◌, All, length};
ghost use Rattle.gh_base.specs.Places.{IsOnEarth};
ghost use Rattle.geo_math.specs.Lengths.{line_length};
ghost use Rattle.location_grid.specs.Snaps.{IsSnap, point_at};

use geo_math::{Snap, project, segment_mm};
use gh_base::{Point, Shape};

/// A point of a line, by its number.
#[tactic(auto, using(crate::proofs::Lines::point_is))]
pub fn point_of(line: &Shape<'_>, number: usize) -> Point
    requires line { All IsOnEarth line.now }
    requires number { number < length line.now }
    ensures value { result ≡ point_at line.now number }
    ensures on_earth { IsOnEarth result }
{
    line.get(number)
}

/// Where a line is nearest to a point: the mm from the line's first point, and the square of the distance.
pub fn snap_on(line: &Shape<'_>, point: Point) -> Snap
    requires point { IsOnEarth point }
    requires line { All IsOnEarth line.now }
    requires length { line_length line.now < 2 ^ 32 }
    ensures snap { IsSnap point line.now result }
    ensures within { result.place ≤ line_length line.now }
{
    let last = line.len() - 1;
    let first = point_of(line, 0);
    let mut from = point_of(line, 1);
    let mut best = project(point, first, from);
    let mut before = segment_mm(first, from);
    'segments: for k in 1..last {
        let to = point_of(line, k + 1);
        let foot = project(point, from, to);
        if foot.dist2 < best.dist2 {
            best = Snap {
                place: before + foot.place,
                dist2: foot.dist2,
            };
        }
        before += segment_mm(from, to);
        from = to;
    }
    best
}

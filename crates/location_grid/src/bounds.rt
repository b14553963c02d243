//! Boxes of the map.
ghost use Rattle.std.specs.Prelude.{◌≡◌, ◌≤◌, All, IsTrue};
ghost use Rattle.gh_base.specs.declared.map.Point.{Point};
ghost use Rattle.gh_base.specs.Places.{IsOnEarth};
ghost use Rattle.geo_math.specs.Foot.{foot};
ghost use Rattle.location_grid.specs.Boxes.{IsIn, IsPast, MeetsEarth, nearest_in};

use crate::found::Found;
use crate::snaps::point_of;
use geo_math::project;
use gh_base::{Point, Shape};

/// A box of the map, between two latitudes and two longitudes.
#[derive(Clone, Copy)]
pub struct Bounds {
    pub south: i32,
    pub north: i32,
    pub west: i32,
    pub east: i32,
}

impl Bounds {
    /// A point alone.
    pub fn of(point: Point) -> Bounds
        requires { IsOnEarth point }
        ensures earth { MeetsEarth result }
    {
        Bounds {
            south: point.lat,
            north: point.lat,
            west: point.lon,
            east: point.lon,
        }
    }

    /// The box with one more point.
    fn with_point(self, point: Point) -> Bounds
        requires { IsOnEarth point }
        ensures earth { MeetsEarth result }
        ensures point { IsIn result point }
        ensures kept { (other : Point) → IsIn self other → IsIn result other }
    {
        Bounds {
            south: self.south.min(point.lat),
            north: self.north.max(point.lat),
            west: self.west.min(point.lon),
            east: self.east.max(point.lon),
        }
    }

    /// The box with a line.
    pub fn with_line(self, line: &Shape<'_>) -> Bounds
        requires earth { MeetsEarth self }
        requires line { All IsOnEarth line.now }
        ensures earth { MeetsEarth result }
        ensures line { All (IsIn result) line.now }
        ensures kept { (other : Point) → IsIn self other → IsIn result other }
    {
        let mut wider = self;
        'points: for k in 0..line.len() {
            wider = wider.with_point(point_of(line, k));
        }
        wider
    }

    /// What was found is nearer to a point than the whole box.
    pub fn is_past(self, point: Point, found: Option<Found>) -> bool
        requires earth { MeetsEarth self }
        requires point { IsOnEarth point }
        ensures { IsTrue result → IsPast point self found }
    {
        let Some(found) = found else {
            return false;
        };
        let nearest = self.nearest(point);
        // Most boxes lie in other rows: they need no projection.
        if found.snap.dist2 < north2(point, nearest) {
            return true;
        }
        found.snap.dist2 < project(point, nearest, nearest).dist2
    }

    /// The point of the box that is nearest to a point.
    #[tactic(auto, using(crate::proofs::Boxes::box_past), unfolding(crate::specs::Boxes::nearest_in))]
    fn nearest(self, point: Point) -> Point
        requires earth { MeetsEarth self }
        requires point { IsOnEarth point }
        ensures value { result ≡ nearest_in self point }
        ensures on_earth { IsOnEarth result }
    {
        Point {
            lat: point.lat.max(self.south).min(self.north),
            lon: point.lon.max(self.west).min(self.east),
        }
    }
}

/// The square of how far north or south one point is of another, which is no more than that of how far away it is.
#[tactic(auto, using(crate::proofs::Boxes::north_within))]
fn north2(from: Point, to: Point) -> u128
    ensures { result ≤ (foot from to to).dist2 }
{
    let north = u128::from(to.lat.abs_diff(from.lat));
    north * north
}

//! The geometry of an edge.
ghost use Rattle.std.specs.Prelude.{◌≡◌, ◌<◌, ◌≤◌, [], ◌∷◌, ◌++◌, ℕ, List, length, slice_get, All};
ghost use Rattle.gh_base.specs.declared.map.Point.{Point};
ghost use Rattle.gh_base.specs.Places.{IsOnEarth};

use crate::edges::EdgeId;
use crate::map::Point;
use std::marker::Model;

/// The points of an edge in order, both towers among them. Contracts see their list.
#[derive(Drop)]
pub struct Shape<'a> {
    base: Point,
    between: &'a [Point],
    adjacent: Point,
}

impl<'a> Model for Shape<'a> {
    ghost use Rattle.std.specs.Prelude.{List, [], ◌∷◌, ◌++◌};
    ghost use Rattle.gh_base.specs.declared.map.Point.{Point};

    ghost Value = { List Point };

    ghost view = { λ s. s.base ∷ s.between.now ++ s.adjacent ∷ [] };
}

impl<'a> Shape<'a> {
    pub fn new(base: Point, between: &'a [Point], adjacent: Point) -> Shape<'a>
        ensures { result ≡ base ∷ between.now ++ adjacent ∷ [] }
    {
        Shape {
            base,
            between,
            adjacent,
        }
    }

    /// The number of points, at least two.
    pub fn len(&self) -> usize
        ensures count { result ≡ length self.now }
        ensures two { 2 ≤ result }
    {
        self.between.len() + 2
    }

    pub fn get(&self, index: usize) -> Point
        requires { index < length self.now }
        ensures { slice_get self.now index ≡ Some result }
    {
        if index == 0 {
            self.base
        } else if index <= self.between.len() {
            self.between[index - 1]
        } else {
            self.adjacent
        }
    }
}

/// A geometry for each edge.
pub trait Shapes {
    /// The number of edges.
    ghost edges: { Self → ℕ };

    /// The points of an edge, in order.
    ghost points_of: { Self → ℕ → List Point };

    fn shape(&self, edge: EdgeId) -> Shape<'_>
        requires { edge.0 < edges self.now }
        ensures { result ≡ points_of self.now edge.0 };

    /// Each point is one of the earth's.
    ghost on_earth: { (shapes : Self) (edge : ℕ) → edge < edges shapes → All IsOnEarth (points_of shapes edge) };
}

//! The nearest edge among those looked at.
ghost use Rattle.std.specs.Prelude.{◌≡◌, ◌<◌, ◌≤◌, ◌↔◌, ℕ, length, IsTrue};
ghost use Rattle.gh_base.specs.Places.{IsOnEarth};
ghost use Rattle.base_graph.specs.Graphs.{edge_at, points_of};
ghost use Rattle.location_grid.specs.Snaps.{IsSnap};
ghost use Rattle.location_grid.specs.Grids.{HasLineLengths};
ghost use Rattle.location_grid.specs.Founds.{IsFound, IsLess, IsSettled};

use crate::edge_set::EdgeSet;
use crate::snaps::snap_on;
use base_graph::BaseGraph;
use geo_math::Snap;
use gh_base::{EdgeId, Point};

/// An edge, and where it is nearest to the point.
#[derive(Clone, Copy)]
pub struct Found {
    pub edge: EdgeId,
    pub snap: Snap,
}

impl Found {
    /// It is nearer than another, or as near and of a lesser number.
    fn is_before(self, other: Found) -> bool
        ensures { IsTrue result ↔ IsLess self other }
    {
        (self.snap.dist2, self.edge.0) < (other.snap.dist2, other.edge.0)
    }
}

/// Where an edge is nearest to a point.
fn snap_of(graph: &BaseGraph, edge: EdgeId, point: Point) -> Snap
    requires lengths { HasLineLengths graph.now.lists }
    requires edge { edge.0 < length graph.now.lists.edges }
    requires point { IsOnEarth point }
    ensures snap { IsSnap point (points_of graph.now.lists edge.0) result }
    ensures within { result.place ≤ (edge_at graph.now.lists.edges edge.0).mm }
{
    snap_on(&graph.geometry(edge), point)
}

/// The nearer of what was found before and an edge, if the set has it. On a tie it is the edge of the lesser number.
pub fn nearer<U: EdgeSet>(
    found: Option<Found>,
    graph: &BaseGraph,
    point: Point,
    usable: &U,
    edge: EdgeId,
) -> Option<Found>
    requires lengths { HasLineLengths graph.now.lists }
    requires point { IsOnEarth point }
    requires usable { U.edges usable.now ≡ length graph.now.lists.edges }
    requires edge { edge.0 < length graph.now.lists.edges }
    requires found { IsFound graph.now.lists point (U.has_edge usable.now) found }
    ensures found { IsFound graph.now.lists point (U.has_edge usable.now) result }
    ensures settled { IsSettled graph.now.lists point (U.has_edge usable.now) edge.0 result }
    ensures kept { (other : ℕ) → IsSettled graph.now.lists point (U.has_edge usable.now) other found → IsSettled graph.now.lists point (U.has_edge usable.now) other result }
{
    if !usable.has(edge) {
        return found;
    }
    let other = Found {
        edge,
        snap: snap_of(graph, edge, point),
    };
    let Some(before) = found else {
        return Some(other);
    };
    if other.is_before(before) {
        Some(other)
    } else {
        found
    }
}

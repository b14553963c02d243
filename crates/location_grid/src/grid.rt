//! The grid, and the search for the nearest edge.
ghost use Rattle.std.specs.Prelude.{◌≡◌, ◌+◌, ◌<◌, ◌≤◌, ◌↔◌, ℕ, false, length, IfOk, IfSome, IsNone};
ghost use Rattle.gh_base.specs.Places.{IsOnEarth};
ghost use Rattle.base_graph.specs.Graphs.{edge_at};
ghost use Rattle.location_grid.specs.Founds.{IsFound, IsSettled};
ghost use Rattle.location_grid.specs.Grids.{HasLineLengths, IsGridOf, edge_in};
ghost use Rattle.location_grid.specs.Nearest.{IsNearest};

use crate::bounds::Bounds;
use crate::cells::boxes_of;
use crate::edge_set::EdgeSet;
use crate::found::{Found, nearer};
use crate::order::{CELL_EDGES, Placed, in_rows};
use crate::rows::Rows;
use base_graph::BaseGraph;
use gh_base::{EdgeId, NoMemory, NodeId, Point};
use std::alloc::Global;

/// A place on an edge: so many mm from its base, at most its length.
#[derive(Clone, Copy, Debug, PartialEq, Eq)]
pub struct OnEdge {
    pub edge: EdgeId,
    pub offset_mm: u32,
}

/// Where the edges of a graph lie: in rows from south to north, each from west to east, and cut into cells, each in a box.
///
/// A search looks first where the point would stand in that order, and then into each cell whose box isn't
/// farther than what was found.
#[derive(Drop)]
pub struct Grid {
    rows: Rows,
    order: Vec<Placed>,
    boxes: Vec<Bounds>,
}

impl Grid {
    /// The grid of a graph whose edges are as long as their lines.
    pub fn build(alloc: Global, graph: &BaseGraph) -> Result<Grid, NoMemory>
        requires { HasLineLengths graph.now.lists }
        ensures { IfOk result (λ grid. IsGridOf graph.now.lists grid) }
    {
        let rows = rows_of(graph);
        let order = in_rows(alloc, graph, rows)?;
        let boxes = boxes_of(alloc, graph, &order)?;
        Ok(Grid { rows, order, boxes })
    }

    /// The edge of a set that is nearest to a point, the least number on a tie, and the offset at which it is nearest.
    /// None where the set has no edge. `graph` is the graph that the grid was built of.
    pub fn nearest<U: EdgeSet>(&self, graph: &BaseGraph, point: Point, usable: &U) -> Option<OnEdge>
        requires grid { IsGridOf graph.now.lists self.now }
        requires point { IsOnEarth point }
        requires usable { U.edges usable.now ≡ length graph.now.lists.edges }
        ensures nearest { IfSome result (λ at. IsNearest graph.now.lists point (U.has_edge usable.now) at) }
        ensures none { IsNone result ↔ ((edge : ℕ) → edge < length graph.now.lists.edges → U.has_edge usable.now edge ≡ false) }
        ensures within { IfSome result (λ at. at.offset_mm ≤ (edge_at graph.now.lists.edges at.edge.0).mm) }
    {
        let found = self.found(graph, point, usable)?;
        Some(OnEdge {
            edge: found.edge,
            offset_mm: found.snap.place as u32,
        })
    }

    /// The nearest of all edges that the set has.
    fn found<U: EdgeSet>(&self, graph: &BaseGraph, point: Point, usable: &U) -> Option<Found>
        requires grid { IsGridOf graph.now.lists self.now }
        requires point { IsOnEarth point }
        requires usable { U.edges usable.now ≡ length graph.now.lists.edges }
        ensures found { IsFound graph.now.lists point (U.has_edge usable.now) result }
        ensures settled { (edge : ℕ) → edge < length graph.now.lists.edges → IsSettled graph.now.lists point (U.has_edge usable.now) edge result }
    {
        let at = self.place_of(point);
        let mut found = self.nearer_from(at, None, graph, point, usable);
        'cells: for cell in 0..self.boxes.len() {
            if !self.boxes[cell].is_past(point, found) {
                found = self.nearer_from(cell * CELL_EDGES, found, graph, point, usable);
            }
        }
        found
    }

    /// The nearer of what was found before and the edges at the next places of the order, as many as a cell has.
    fn nearer_from<U: EdgeSet>(
        &self,
        first: usize,
        found: Option<Found>,
        graph: &BaseGraph,
        point: Point,
        usable: &U,
    ) -> Option<Found>
        requires grid { IsGridOf graph.now.lists self.now }
        requires point { IsOnEarth point }
        requires usable { U.edges usable.now ≡ length graph.now.lists.edges }
        requires found { IsFound graph.now.lists point (U.has_edge usable.now) found }
        ensures found { IsFound graph.now.lists point (U.has_edge usable.now) result }
        ensures settled { (place : ℕ) → first ≤ place → place < first + 32 → place < length self.now.order.items → IsSettled graph.now.lists point (U.has_edge usable.now) (edge_in self.now.order.items place) result }
        ensures kept { (edge : ℕ) → IsSettled graph.now.lists point (U.has_edge usable.now) edge found → IsSettled graph.now.lists point (U.has_edge usable.now) edge result }
    {
        let mut best = found;
        let last = first.saturating_add(CELL_EDGES).min(self.order.len());
        'places: for place in first..last {
            best = nearer(best, graph, point, usable, self.order[place].edge);
        }
        best
    }

    /// The place in the order from which on the edges near a point are looked for first.
    fn place_of(&self, point: Point) -> usize {
        let key = self.rows.key(point);
        let place = self.order.partition_point(|placed| placed.key < key);
        place.saturating_sub(CELL_EDGES / 2)
    }
}

/// About as many rows over the latitudes of a graph as a row has cells.
fn rows_of(graph: &BaseGraph) -> Rows {
    let mut south = i32::MAX;
    let mut north = i32::MIN;
    for node in 0..graph.node_count() {
        let place = graph.place(NodeId(node));
        south = south.min(place.lat);
        north = north.max(place.lat);
    }
    let cells = graph.edge_count() / CELL_EDGES as u32;
    Rows::of(north.max(south).abs_diff(south), cells.isqrt() + 1)
}

//! Cells: edges that stand together in the order, in a box.
ghost use Rattle.std.specs.Prelude.{◌+◌, ◌*◌, ◌<◌, ◌≤◌, ℕ, All, length, IfOk};
ghost use Rattle.base_graph.specs.Graphs.{points_of};
ghost use Rattle.location_grid.specs.Boxes.{IsIn, MeetsEarth};
ghost use Rattle.location_grid.specs.Grids.{AreRound, IsEdgeOf, edge_in};

use crate::bounds::Bounds;
use crate::order::{CELL_EDGES, Placed, base_of};
use base_graph::BaseGraph;
use gh_base::NoMemory;
use std::alloc::Global;

/// The boxes of all cells.
pub fn boxes_of(alloc: Global, graph: &BaseGraph, order: &[Placed]) -> Result<Vec<Bounds>, NoMemory>
    requires { All (IsEdgeOf graph.now.lists) order.now }
    ensures enough { IfOk result (λ boxes. length order.now ≤ 32 * length boxes.items) }
    ensures few { IfOk result (λ boxes. 32 * length boxes.items < length order.now + 32) }
    ensures earth { IfOk result (λ boxes. All MeetsEarth boxes.items) }
    ensures round { IfOk result (λ boxes. AreRound graph.now.lists order.now boxes.items) }
{
    let count = order.len().div_ceil(CELL_EDGES);
    let mut boxes = Vec::new(alloc);
    'cells: for cell in 0..count {
        let first = cell * CELL_EDGES;
        let last = (first + CELL_EDGES).min(order.len());
        boxes.push(box_round(graph, order, first, last))?;
    }
    Ok(boxes)
}

/// A box round the edges at the places from `first` up to `last`.
fn box_round(graph: &BaseGraph, order: &[Placed], first: usize, last: usize) -> Bounds
    requires edges { All (IsEdgeOf graph.now.lists) order.now }
    requires some { first < last }
    requires last { last ≤ length order.now }
    ensures earth { MeetsEarth result }
    ensures round { (place : ℕ) → first ≤ place → place < last → All (IsIn result) (points_of graph.now.lists (edge_in order.now place)) }
{
    let mut bounds = Bounds::of(base_of(graph, order[first].edge));
    'places: for place in first..last {
        bounds = bounds.with_line(&graph.geometry(order[place].edge));
    }
    bounds
}

//! The order in which a grid holds the edges.
ghost use Rattle.std.specs.Prelude.{◌≡◌, ◌<◌, ℕ, true, All, length, IfOk};
ghost use Rattle.gh_base.specs.Places.{IsOnEarth};
ghost use Rattle.location_grid.specs.Grids.{IsEdgeOf, holds};

use crate::rows::Rows;
use base_graph::BaseGraph;
use gh_base::{EdgeId, NoMemory, Point};
use std::alloc::Global;

/// The number of edges in a cell.
pub const CELL_EDGES: usize = 32;

/// An edge, and the key by which it stands in the order.
#[derive(Clone, Copy)]
pub struct Placed {
    pub key: u64,
    pub edge: EdgeId,
}

/// All edges of a graph, in the order of their bases.
pub fn in_rows(alloc: Global, graph: &BaseGraph, rows: Rows) -> Result<Vec<Placed>, NoMemory>
    ensures edges { IfOk result (λ order. All (IsEdgeOf graph.now.lists) order.items) }
    ensures all { IfOk result (λ order. (edge : ℕ) → edge < length graph.now.lists.edges → holds order.items edge ≡ true) }
{
    let mut order = Vec::new(alloc);
    'edges: for number in 0..graph.edge_count() {
        let edge = EdgeId(number);
        let key = rows.key(base_of(graph, edge));
        order.push(Placed { key, edge })?;
    }
    order.sort_unstable_by_key(|placed| placed.key);
    Ok(order)
}

/// Where an edge begins.
#[tactic(auto, using(base_graph::specs::Facts::edge_is))]
pub fn base_of(graph: &BaseGraph, edge: EdgeId) -> Point
    requires { edge.0 < length graph.now.lists.edges }
    ensures { IsOnEarth result }
{
    graph.place(graph.edge(edge).base)
}

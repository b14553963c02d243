//! The traffic limits that a graph opens with.
ghost use Rattle.std.specs.Prelude.{◌≡◌, length};
ghost use Rattle.weighting.specs.Roads.{opening_of};

use base_graph::BaseGraph;
use encoded_values::opening_limit;
use gh_base::{DirEdge, Limits};

/// A limit for each directed edge of a graph: that of its fastest vehicle, and 0 where none may pass.
#[derive(Drop)]
pub struct Opening<'a> {
    graph: &'a BaseGraph,
}

impl<'a> Opening<'a> {
    /// It takes no memory.
    pub fn new(graph: &'a BaseGraph) -> Opening<'a>
        ensures edges { ⟦<Opening<'a> as Limits>⟧.edges result ≡ length graph.now.lists.edges }
        ensures limits { ⟦<Opening<'a> as Limits>⟧.limit_of result ≡ opening_of graph.now.lists }
    {
        Opening { graph }
    }
}

impl<'a> Limits for Opening<'a> {
    ghost edges = { λ limits. length limits.graph.now.lists.edges };

    ghost limit_of = { λ limits. opening_of limits.graph.now.lists };

    fn limit(&self, edge: DirEdge) -> u32 {
        opening_limit(&self.graph.values(edge.edge, edge.reverse))
    }
}

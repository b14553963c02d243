//! Limits as a store has them, by directed edge.
ghost use Rattle.std.specs.Prelude.{◌≡◌, ◌*◌, length};
ghost use Rattle.traffic_core.specs.History.{limit_in};

use base_graph::BaseGraph;
use gh_base::{DirEdge, LimitList, Limits};
use traffic_core::listed_limit;

/// The limits of a graph's directed edges in a list: two an edge, forward first.
#[derive(Drop)]
pub(crate) struct Listed<'a> {
    graph: &'a BaseGraph,
    list: &'a LimitList,
    ghost long: { length list.now ≡ 2 * length graph.now.lists.edges },
}

impl<'a> Listed<'a> {
    pub(crate) fn new(graph: &'a BaseGraph, list: &'a LimitList) -> Listed<'a>
        requires { length list.now ≡ 2 * length graph.now.lists.edges }
        ensures edges { ⟦<Listed<'a> as Limits>⟧.edges result ≡ length graph.now.lists.edges }
        ensures limits { ⟦<Listed<'a> as Limits>⟧.limit_of result ≡ limit_in list.now }
    {
        Listed { graph, list }
    }
}

impl<'a> Limits for Listed<'a> {
    ghost edges = { λ limits. length limits.graph.now.lists.edges };

    ghost limit_of = { λ limits. limit_in limits.list.now };

    fn limit(&self, edge: DirEdge) -> u32 {
        listed_limit(self.list, edge)
    }
}

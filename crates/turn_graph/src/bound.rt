//! A potential for roads by states.
ghost use Rattle.std.specs.Prelude.{◌≡◌, ◌<◌, ℕ, Bool, length};
ghost use Rattle.gh_base.specs.declared.edges.DirEdge.{DirEdge};
ghost use Rattle.gh_base.specs.Networks.{Network};
ghost use Rattle.walk_rules.specs.Potentials.{IsFeasible};
ghost use Rattle.turn_graph.specs.States.{by_states, target_in, IsOver};
ghost use Rattle.turn_graph.specs.Bounds.{bound_by};

use crate::state::{State, end_of, state_by};
use base_graph::BaseGraph;
use gh_base::{NodeId, Potential};

/// A potential of towers, at what was passed: its number at the end of the directed edge, at the
/// start that of the tower `from`, and at the target 0.
#[derive(Drop)]
pub struct TurnPotential<'a, P: Potential> {
    inner: P,
    graph: &'a BaseGraph,
    from: NodeId,
}

impl<'a, P: Potential> TurnPotential<'a, P> {
    /// It takes no memory.
    pub fn new(inner: P, graph: &'a BaseGraph, from: NodeId) -> TurnPotential<'a, P>
        ensures is { ⟦<TurnPotential<'a, P> as Potential>⟧.bound result
            ≡ bound_by (P.bound inner) graph.now.lists from.0 }
        // Whichever turns are banned, it is feasible by states where `inner` is feasible to the
        // last tower.
        ensures feasible { (base : Network) (is_banned : DirEdge → DirEdge → Bool) (to : ℕ) →
            IsOver graph.now.lists base →
            IsFeasible base (P.bound inner) to →
            IsFeasible (by_states (record {
              base = base;
              graph = graph.now.lists;
              is_banned = is_banned;
              from = from.0;
              to = to;
            }))
            (⟦<TurnPotential<'a, P> as Potential>⟧.bound result) (target_in graph.now.lists) }
    {
        TurnPotential { inner, graph, from }
    }
}

impl<'a, P: Potential> Potential for TurnPotential<'a, P> {
    ghost use Rattle.turn_graph.specs.Bounds.{bound_by};

    ghost bound = { λ p. bound_by (P.bound p.inner) p.graph.now.lists p.from.0 };

    fn at(&self, node: NodeId) -> Option<u64> {
        match state_by(self.graph.edge_count(), node) {
            State::Start => self.inner.at(self.from),
            State::Passed(by) => self.inner.at(end_of(self.graph, by)),
            State::Target => Some(0),
        }
    }
}

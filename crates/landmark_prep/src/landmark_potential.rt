//! The potential of a preparation to a place.
ghost use Rattle.std.specs.Prelude.{◌≡◌, ℕ, ◌+◌, ◌^◌, ◌<◌, ◌≤◌, All, Option, List, length};
ghost use Rattle.gh_base.specs.declared.edges.Hop.{Hop};
ghost use Rattle.gh_base.specs.declared.edges.Arrival.{Arrival};
ghost use Rattle.gh_base.specs.Networks.{Network, LeadsToNodes};
ghost use Rattle.walk_rules.specs.Walks.{IsNoFaster};
ghost use Rattle.walk_rules.specs.Potentials.{IsFeasible};
ghost use Rattle.label_spread.specs.Cutting.{cut};
ghost use Rattle.landmark_choice.specs.Farthest.{lesser};
ghost use Rattle.query_graph.specs.declared.ends.Leave.{Leave};
ghost use Rattle.query_graph.specs.Ends.{ReachesIn, target_in};
ghost use Rattle.query_graph.specs.Joined.{joined};
ghost use Rattle.landmark_prep.specs.Preparations.{nodes_of};
ghost use Rattle.landmark_prep.specs.Bounds.{AreFit, bound_into, plus, picked, potential_of, ReachesIn-prop};

use crate::active::Active;
use crate::preparation::Prep;
use gh_base::{Arrival, NodeId, Potential};
use query_graph::Reach;

/// Where a search goes: to a node, or inside an edge with a piece from each end.
pub type Goal = Reach;

/// The greatest potential in ms inside an edge.
const LIMIT_MS: u128 = 1 << 62;

/// The bounds of a preparation's landmarks to a goal. At a number past the preparation's nodes, as that of
/// a start or a target inside an edge, it is 0.
#[derive(Drop)]
pub struct LandmarkPotential<'a> {
    prep: &'a Prep,
    active: Active,
    goal: Goal,
    ghost places: { All (λ place. place < length prep.now.landmarks) active },
    ghost ends: { ReachesIn (nodes_of prep.now.labels) goal } by { ReachesIn-prop (nodes_of prep.now.labels) goal },
}

impl Prep {
    /// The bounds of these landmarks to a goal. To a goal inside an edge a bound is the least, over the
    /// pieces that lead in, of the bound to where the piece begins and its weight, cut at 2^62.
    pub fn potential<'a>(&'a self, active: Active, goal: Goal) -> LandmarkPotential<'a>
        requires active { All (λ place. place < length self.now.landmarks) active }
        requires goal { ReachesIn (nodes_of self.now.labels) goal }
        ensures is { ⟦<LandmarkPotential<'a> as Potential>⟧.bound result ≡
            potential_of (picked self.now.labels active) goal (nodes_of self.now.labels) }
        // Where the labels fit a network, it is feasible for each that is no faster, wherever a walk starts.
        ensures feasible { (base network : Network) (from : Leave) (direct : List (Option Hop)) → AreFit base self.now → IsNoFaster base network →
            LeadsToNodes network → network.nodes ≡ nodes_of self.now.labels →
            IsFeasible (joined network from goal direct) (⟦<LandmarkPotential<'a> as Potential>⟧.bound result) (target_in network goal) }
    {
        LandmarkPotential {
            prep: self,
            active,
            goal,
        }
    }

    /// The least over the pieces that lead in, cut at 2^62.
    fn bound_inside(&self, active: &Active, node: NodeId, arrivals: [Arrival; 2]) -> Option<u64>
        requires active { All (λ place. place < length self.now.landmarks) active.now }
        requires node { node.0 < nodes_of self.now.labels }
        requires arrivals { All (λ arrival. arrival.at.0 < nodes_of self.now.labels) arrivals }
        ensures { result ≡ cut (2 ^ 62) (bound_into (picked self.now.labels active.now) arrivals node.0) }
    {
        let mut least = None;
        for arrival in &arrivals {
            let here = sum_of(self.bound(active, node, arrival.at), arrival.weight);
            least = lesser_of(least, here);
        }
        Some(least?.min(LIMIT_MS) as u64)
    }
}

impl<'a> Potential for LandmarkPotential<'a> {
    ghost use Rattle.landmark_prep.specs.Preparations.{nodes_of};
    ghost use Rattle.landmark_prep.specs.Bounds.{picked, potential_of};

    ghost bound = { λ it. potential_of (picked it.prep.now.labels it.active) it.goal (nodes_of it.prep.now.labels) };

    fn at(&self, node: NodeId) -> Option<u64> {
        let prep = self.prep;
        if node.0 >= prep.node_count() {
            return Some(0);
        }
        match self.goal {
            Reach::Node(target) => prep.bound(&self.active, node, target),
            Reach::Inside(arrivals) => prep.bound_inside(&self.active, node, arrivals),
        }
    }
}

fn sum_of(first: Option<u64>, second: Option<u64>) -> Option<u128>
    ensures { result ≡ plus first second }
{
    match (first, second) {
        (Some(x), Some(y)) => Some(u128::from(x) + u128::from(y)),
        _ => None,
    }
}

fn lesser_of(first: Option<u128>, second: Option<u128>) -> Option<u128>
    ensures { result ≡ lesser first second }
{
    match (first, second) {
        (Some(x), Some(y)) => Some(x.min(y)),
        (Some(x), None) => Some(x),
        (None, second) => second,
    }
}

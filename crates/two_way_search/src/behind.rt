//! The potential of a preparation from a start.
ghost use Rattle.std.specs.Prelude.{◌≡◌, ◌<◌, All, length};
ghost use Rattle.gh_base.specs.Networks.{Network, LeadsToNodes};
ghost use Rattle.walk_rules.specs.Walks.{IsNoFaster};
ghost use Rattle.walk_rules.specs.Potentials.{IsFeasible};
ghost use Rattle.landmark_prep.specs.Preparations.{nodes_of};
ghost use Rattle.landmark_prep.specs.Bounds.{AreFit, picked};
ghost use Rattle.walk_rules.specs.Turned.{IsTurned};
ghost use Rattle.two_way_search.specs.Behind.{behind_of};

use gh_base::{NodeId, Potential};
use landmark_prep::{Active, Prep};

/// What lies behind a node, by a preparation's landmarks: their bounds on the way from a start to
/// it. There is none where they show that no walk leads from the start to the node. At a number
/// past the preparation's nodes it is 0.
#[derive(Drop)]
pub struct Behind<'a> {
    prep: &'a Prep,
    active: Active,
    start: NodeId,
    ghost places: { All (λ place. place < length prep.now.landmarks) active },
    ghost within: { start.0 < nodes_of prep.now.labels },
}

impl<'a> Behind<'a> {
    /// The bounds of these landmarks from a start.
    ///
    /// With roads a --5--> b --7--> c and the landmark c, from a it is 12 to the landmark and from
    /// b 7, so 5 lie behind b from the start a.
    pub fn new(prep: &'a Prep, active: Active, start: NodeId) -> Behind<'a>
        requires active { All (λ place. place < length prep.now.landmarks) active }
        requires start { start.0 < nodes_of prep.now.labels }
        ensures is { ⟦<Behind<'a> as Potential>⟧.bound result ≡
            behind_of (picked prep.now.labels active) start.0 (nodes_of prep.now.labels) }
        // Where the labels fit a network, it is feasible for one that is no faster, turned round,
        // and the start.
        ensures feasible { (base network back : Network) → AreFit base prep.now →
            IsNoFaster base network → IsTurned network back → LeadsToNodes back →
            back.nodes ≡ nodes_of prep.now.labels →
            IsFeasible back (⟦<Behind<'a> as Potential>⟧.bound result) start.0 }
    {
        Behind {
            prep,
            active,
            start,
        }
    }
}

impl<'a> Potential for Behind<'a> {
    ghost use Rattle.landmark_prep.specs.Preparations.{nodes_of};
    ghost use Rattle.landmark_prep.specs.Bounds.{picked};
    ghost use Rattle.two_way_search.specs.Behind.{behind_of};

    ghost bound = { λ it.
        behind_of (picked it.prep.now.labels it.active) it.start.0 (nodes_of it.prep.now.labels) };

    fn at(&self, node: NodeId) -> Option<u64> {
        if node.0 >= self.prep.node_count() {
            return Some(0);
        }
        self.prep.bound(&self.active, self.start, node)
    }
}

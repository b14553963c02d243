//! Hops that can't improve what a search knows.
ghost use Rattle.std.specs.Prelude.{◌≡◌, ◌∷◌, [], length, IfSome, IfNone};
ghost use Rattle.gh_base.specs.Networks.{wanted_from};
ghost use Rattle.alt_search.specs.Progress.{is_known_within};

use crate::reached::Reached;
use gh_base::{Hop, NodeId, RoadView, Unwanted};

/// The nodes to which a walk is known that weighs no more than `weight`.
#[derive(Drop)]
struct KnownWithin<'a> {
    reached: &'a Reached,
    nodes: u32,
    weight: u128,
    ghost all: { nodes ≡ length reached.now },
}

impl<'a> Unwanted for KnownWithin<'a> {
    ghost use Rattle.alt_search.specs.Progress.{is_known_within};

    ghost is_unwanted = { λ known. is_known_within known.reached.now known.weight };

    fn is_unwanted(&self, node: NodeId) -> bool {
        if node.0 >= self.nodes {
            return false;
        }
        match self.reached.weight(node) {
            Some(weight) => weight <= self.weight,
            None => false,
        }
    }
}

/// The next hop of a settled node whose walk has that weight, but for hops to nodes that are known by
/// a walk which is no heavier: whatever such a hop weighs, it leads to no lighter walk.
pub fn next_useful<V: RoadView>(
    view: &mut V,
    reached: &Reached,
    nodes: u32,
    weight: u128,
) -> Option<Hop>
    requires { nodes ≡ length reached.now }
    ensures hop { IfSome result (λ hop. wanted_from (is_known_within reached.now weight) (V.left view.old) ≡ hop ∷ V.left view.new) }
    ensures end { IfNone result (wanted_from (is_known_within reached.now weight) (V.left view.old) ≡ []) }
    ensures ended { IfNone result (V.left view.new ≡ []) }
    ensures starts { V.starts view.new ≡ V.starts view.old }
    ensures network { V.network view.new ≡ V.network view.old }
{
    view.next_wanted(&KnownWithin {
        reached,
        nodes,
        weight,
    })
}

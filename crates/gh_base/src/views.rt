//! Views of roads, which count at how many nodes they were started, and bounds on what is left.
ghost use Rattle.std.specs.Prelude.{◌≡◌, ◌+◌, ◌-◌, ◌^◌, ◌<◌, ℕ, Bool, Option, List, [], ◌∷◌, IfNone, IfSome};
ghost use Rattle.gh_base.specs.declared.edges.Hop.{Hop};
ghost use Rattle.gh_base.specs.Networks.{Network, LeadsToNodes, wanted_from};

use crate::edges::{Hop, NodeId};

/// Nodes to which no hop is wanted.
pub trait Unwanted {
    ghost is_unwanted: { Self → ℕ → Bool };

    fn is_unwanted(&self, node: NodeId) -> bool
        ensures { result ≡ is_unwanted self.now node.0 };
}

/// Roads, seen from one node at a time.
pub trait RoadView {
    /// The nodes, and the hops of each in the view's order. No call changes them.
    ghost network: { Self → Network };

    /// How often the view was started at a node.
    ghost starts: { Self → ℕ };

    /// The hops of the node last started at that were not given yet; none before the first start.
    ghost left: { Self → List Hop };

    fn node_count(&self) -> u32
        ensures { result ≡ (network self.now).nodes };

    /// Begins with the hops of a node.
    fn start_at(&mut self, node: NodeId)
        requires node { node.0 < (network self.old).nodes }
        requires count { starts self.old < 2 ^ 64 - 1 }
        ensures left { left self.new ≡ (network self.old).hops node.0 }
        ensures starts { starts self.new ≡ starts self.old + 1 }
        ensures network { network self.new ≡ network self.old };

    /// The next hop of the node last started at, or None after the last.
    fn next_hop(&mut self) -> Option<Hop>
        ensures hop { IfSome result (λ hop. left self.old ≡ hop ∷ left self.new) }
        ensures end { IfNone result (left self.old ≡ []) }
        ensures ended { IfNone result (left self.new ≡ []) }
        ensures starts { starts self.new ≡ starts self.old }
        ensures network { network self.new ≡ network self.old };

    /// The next hop of the node last started at, but for those to unwanted nodes, which are passed
    /// over; None after the last. A view that weighs its hops need not weigh what it passes over.
    fn next_wanted<U: Unwanted>(&mut self, unwanted: &U) -> Option<Hop>
        ensures hop { IfSome result (λ hop. wanted_from (U.is_unwanted unwanted.now) (left self.old) ≡ hop ∷ left self.new) }
        ensures end { IfNone result (wanted_from (U.is_unwanted unwanted.now) (left self.old) ≡ []) }
        ensures ended { IfNone result (left self.new ≡ []) }
        ensures starts { starts self.new ≡ starts self.old }
        ensures network { network self.new ≡ network self.old }
    {
        while let Some(hop) = self.next_hop() {
            if !unwanted.is_unwanted(hop.to) {
                return Some(hop);
            }
        }
        None
    }

    /// Each hop leads to a node.
    ghost leads: { (view : Self) → LeadsToNodes (network view) };
}

/// A view of which there can be more, each with a count of its own.
pub trait FreshView: RoadView {
    fn again(&self) -> Self
        ensures network { Self.network result ≡ Self.network self.now }
        ensures starts { Self.starts result ≡ 0 }
        ensures left { Self.left result ≡ [] };
}

/// A number for each node from which the target may be reached; none where it can't be.
pub trait Potential {
    ghost bound: { Self → ℕ → Option ℕ };

    fn at(&self, node: NodeId) -> Option<u64>
        ensures { result ≡ bound self.now node.0 };
}

//! A view with a start and a target that may lie inside edges.
ghost use Rattle.std.specs.Prelude.{◌≡◌, ◌↔◌, List, All, ◌+◌, ◌-◌, ◌^◌, ◌<◌, ◌≤◌, [], ◌∷◌, drop, length, IfSome, IfNone};
ghost use Rattle.gh_base.specs.declared.edges.Hop.{Hop};
ghost use Rattle.gh_base.specs.Networks.{wanted_from};
ghost use Rattle.walk_rules.specs.Walks.{IsWalk};
ghost use Rattle.query_graph.specs.Ends.{given, ways_out, LeavesIn, ReachesIn, AreDirect, start_in, target_in};
ghost use Rattle.query_graph.specs.Joined.{hops_into, joined};
ghost use Rattle.query_graph.specs.Between.{IsBetween};

use crate::ends::{Leave, Reach};
use gh_base::{Arrival, Hop, NodeId, RoadView, Unwanted};

/// The roads of a base view and two nodes more. With n nodes in the base, n is the start and n + 1
/// the target of a walk, each where that place lies inside an edge; else no hop leaves that number
/// and none leads to it.
///
/// A base node has its hops in the base's order, and then the arrivals there in the order of `to`.
/// The start has its two pieces in the order of `from`, and then the direct ones.
#[derive(Drop)]
pub struct QueryView<V: RoadView> {
    base: V,
    count: u32,
    from: Leave,
    to: Reach,
    direct: [Option<Hop>; 2],
    node: u32,
    next: usize,
    passed: usize,
    own_starts: u64,
    ghost count_is: { count ≡ (V.network base).nodes },
    ghost few: { count < 2 ^ 32 - 2 },
    ghost leaves: { All (λ hop. hop.to.0 < count) (ways_out from) },
    ghost directs: { AreDirect count from to direct },
}

impl<V: RoadView> QueryView<V> {
    /// The view of these ends over a base with at most 4294967293 nodes. `direct` has the pieces
    /// that lead straight from the start to the target, where both lie inside one edge. It takes no memory.
    pub fn new(base: V, from: Leave, to: Reach, direct: [Option<Hop>; 2]) -> QueryView<V>
        requires few { (V.network base).nodes ≤ 4294967293 }
        requires leaves { LeavesIn (V.network base).nodes from }
        requires reaches { ReachesIn (V.network base).nodes to }
        requires directs { AreDirect (V.network base).nodes from to direct }
        ensures network { ⟦<QueryView<V> as RoadView>⟧.network result ≡ joined (V.network base) from to direct }
        // Its walks from the start to the target are those between the two places.
        ensures walks { (hops : List Hop) → IsWalk (⟦<QueryView<V> as RoadView>⟧.network result) (start_in (V.network base) from) hops (target_in (V.network base) to)
            ↔ IsBetween (V.network base) from to direct hops }
        // It begins with the base's count, which each start at n or n + 1 raises too.
        ensures starts { ⟦<QueryView<V> as RoadView>⟧.starts result ≡ V.starts base }
        ensures left { ⟦<QueryView<V> as RoadView>⟧.left result ≡ [] }
    {
        let count = base.node_count();
        QueryView {
            base,
            count,
            from,
            to,
            direct,
            node: count + 1,
            next: 0,
            passed: 0,
            own_starts: 0,
        }
    }
}

impl<V: RoadView> QueryView<V> {
    /// The next wanted hop that the base has; it may pass over the others unweighed.
    fn next_of_base<U: Unwanted>(&mut self, unwanted: &U) -> Option<Hop>
        ensures hop { IfSome result (λ hop. wanted_from (U.is_unwanted unwanted.now) (⟦<QueryView<V> as RoadView>⟧.left self.old)
            ≡ hop ∷ ⟦<QueryView<V> as RoadView>⟧.left self.new) }
        ensures none { IfNone result (wanted_from (U.is_unwanted unwanted.now) (⟦<QueryView<V> as RoadView>⟧.left self.old)
            ≡ wanted_from (U.is_unwanted unwanted.now) (⟦<QueryView<V> as RoadView>⟧.left self.new)) }
        ensures starts { ⟦<QueryView<V> as RoadView>⟧.starts self.new ≡ ⟦<QueryView<V> as RoadView>⟧.starts self.old }
        ensures network { ⟦<QueryView<V> as RoadView>⟧.network self.new ≡ ⟦<QueryView<V> as RoadView>⟧.network self.old }
    {
        if self.node < self.count {
            return self.base.next_wanted(unwanted);
        }
        None
    }
}

impl<V: RoadView> RoadView for QueryView<V> {
    ghost use Rattle.std.specs.Prelude.{◌+◌};
    ghost use Rattle.query_graph.specs.Joined.{joined, joined_left, joined_leads};

    ghost network = { λ view. joined (V.network view.base) view.from view.to view.direct };

    ghost starts = { λ view. V.starts view.base + view.own_starts };

    ghost left = { λ view. joined_left (V.network view.base) (V.left view.base) view.from view.to view.direct view.node view.next view.passed };

    ghost leads = { λ view. joined_leads (V.network view.base) view.from view.to view.direct view.count view.count_is view.leaves view.directs (V.leads view.base) };

    fn node_count(&self) -> u32 {
        self.count + 2
    }

    fn start_at(&mut self, node: NodeId) {
        if node.0 < self.count {
            self.base.start_at(node);
        } else {
            self.own_starts += 1;
        }
        self.node = node.0;
        self.next = 0;
        self.passed = 0;
    }

    fn next_hop(&mut self) -> Option<Hop> {
        if self.node < self.count {
            if let Some(hop) = self.base.next_hop() {
                return Some(hop);
            }
            return match self.to {
                Reach::Node(_) => None,
                Reach::Inside(arrivals) => next_into(
                    &arrivals,
                    NodeId(self.count + 1),
                    self.node,
                    &mut self.next,
                ),
            };
        }
        if self.node > self.count {
            return None;
        }
        if let Leave::Inside(hops) = self.from {
            if self.next < hops.len() {
                let hop = hops[self.next];
                self.next += 1;
                return Some(hop);
            }
        }
        next_given(&self.direct, &mut self.passed)
    }

    fn next_wanted<U: Unwanted>(&mut self, unwanted: &U) -> Option<Hop> {
        if let Some(hop) = self.next_of_base(unwanted) {
            return Some(hop);
        }
        while let Some(hop) = self.next_hop() {
            if !unwanted.is_unwanted(hop.to) {
                return Some(hop);
            }
        }
        None
    }
}

/// The next arrival at a node, as a hop to the target.
fn next_into(arrivals: &[Arrival], target: NodeId, node: u32, next: &mut usize) -> Option<Hop>
    ensures hop { IfSome result (λ hop. hops_into target.0 node (drop next.old arrivals.now) ≡ hop ∷ hops_into target.0 node (drop next.new arrivals.now)) }
    ensures none { IfNone result (hops_into target.0 node (drop next.old arrivals.now) ≡ []) }
    ensures end { IfNone result (hops_into target.0 node (drop next.new arrivals.now) ≡ []) }
{
    while *next < arrivals.len() {
        let arrival = arrivals[*next];
        *next += 1;
        if arrival.at.0 == node {
            return Some(Hop {
                to: target,
                by: arrival.by,
                weight: arrival.weight,
            });
        }
    }
    None
}

/// The next of those that are there.
fn next_given(hops: &[Option<Hop>], next: &mut usize) -> Option<Hop>
    ensures hop { IfSome result (λ hop. given (drop next.old hops.now) ≡ hop ∷ given (drop next.new hops.now)) }
    ensures none { IfNone result (given (drop next.old hops.now) ≡ []) }
    ensures end { IfNone result (given (drop next.new hops.now) ≡ []) }
{
    while *next < hops.len() {
        let hop = hops[*next];
        *next += 1;
        if hop.is_some() {
            return hop;
        }
    }
    None
}

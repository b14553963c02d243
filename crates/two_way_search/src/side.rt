//! One side of the search.
ghost use Rattle.std.specs.Prelude.{◌≡◌, ◌+◌, ◌-◌, ◌*◌, ◌^◌, ◌<◌, ◌≤◌, ℕ, Some, None, length, replicate, slice_set, IfOk, IfSome, IsSome};
ghost use Rattle.gh_base.specs.declared.edges.NodeId.{NodeId};
ghost use Rattle.alt_search.specs.declared.reach.Reach.{Reach};
ghost use Rattle.alt_search.specs.Progress.{reach_at};
ghost use Rattle.two_way_search.specs.Sides.{reduced_by, FallsTwice, AreSmall, AreAsked, AreQueued, Relaxes, IsNext, IsSide};
ghost use Rattle.two_way_search.specs.Meetings.{IsMet};

use crate::meeting::{Meeting, best_over};
use alt_search::{Reach, Reached, next_useful};
use gh_base::{Hop, NoMemory, NodeId, Potential, RoadView};
use search_queue::Queue;
use std::alloc::Global;

/// Over every bound: what lies behind a node is taken from it.
const ROOM: u128 = 1 << 64;

/// What one side knows of each node, which nodes are open, and at how many it was started. The next
/// node to start at, with its key, is out of the queue.
#[derive(Drop)]
pub struct Side {
    pub reached: Reached,
    pub queue: Queue,
    pub next: Option<(NodeId, u128)>,
    pub settled: u32,
}

/// What is left from a node less what lies behind it, and 2^64. None where nothing is told of what
/// is left.
pub fn reduced_at<P: Potential, Q: Potential>(ahead: &P, behind: &Q, node: NodeId) -> Option<u128>
    ensures is { result ≡ reduced_by (P.bound ahead.now) (Q.bound behind.now) node.0 }
    ensures small { IsSome result → AreSmall (P.bound ahead.now) (Q.bound behind.now) node.0 }
    ensures few { IfSome result (λ b. b < 2 ^ 65) }
{
    let left = ahead.at(node)?;
    match behind.at(node) {
        Some(passed) => Some(u128::from(left) + (ROOM - u128::from(passed))),
        None => Some(u128::from(left)),
    }
}

impl Side {
    /// The end alone is reached, and is next.
    pub fn begin(alloc: Global, nodes: u32, end: NodeId, bound: u128) -> Result<Side, NoMemory>
        requires { end.0 < nodes }
        ensures reached { IfOk result (λ side. side.reached ≡ slice_set (replicate nodes None) end.0
            (Some (record { weight = 0; depth = 0; last = None }))) }
        ensures next { IfOk result (λ side.
            IsNext side.next (slice_set (replicate nodes None) end.0 (Some bound)) side.queue) }
        ensures settled { IfOk result (λ side. side.settled ≡ 0) }
    {
        let mut reached = Reached::new(alloc, nodes)?;
        let mut queue = Queue::new(alloc, nodes)?;
        reached.begin(end);
        queue.put(end, bound);
        let next = queue.pop_least();
        Ok(Side {
            reached,
            queue,
            next,
            settled: 0,
        })
    }

    /// Starts the view at the next node and takes its hops into account. Where the other side knows
    /// the head of one, a walk over it may be the best.
    pub fn settle_next<V: RoadView, P: Potential, Q: Potential>(
        &mut self,
        view: &mut V,
        ahead: &P,
        behind: &Q,
        other: &Reached,
        met: Option<Meeting>,
    ) -> Option<Meeting>
        requires next { IsSome self.old.next }
        requires count { V.starts view.old < 2 ^ 64 - 1 }
        requires few { (V.network view.old).nodes < 2 ^ 32 }
        requires falls { FallsTwice (V.network view.old)
            (reduced_by (P.bound ahead.now) (Q.bound behind.now)) }
        requires other { length other.now ≡ (V.network view.old).nodes }
        requires light { (node : ℕ) (reach : Reach) →
            reach_at other.now node ≡ Some reach → reach.weight ≤ 2 ^ 96 }
        requires side { (end least : ℕ) × IsSide (V.network view.old)
            (P.bound ahead.now) (Q.bound behind.now) end least self.old }
        requires met { IsMet self.old.reached other.now met }
        ensures network { V.network view.new ≡ V.network view.old }
        ensures starts { V.starts view.new ≡ V.starts view.old + 1 }
        ensures settled { self.new.settled ≡ self.old.settled + 1 }
        ensures side { (end least : ℕ) (next : NodeId × ℕ) → self.old.next ≡ Some next →
            IsSide (V.network view.old) (P.bound ahead.now) (Q.bound behind.now) end least
            self.old →
            IsSide (V.network view.old) (P.bound ahead.now) (Q.bound behind.now) end next.1
            self.new }
        ensures met { IsMet self.new.reached other.now result }
    {
        let Some((node, _key)) = self.next else {
            unreachable!()
        };
        let Some(from) = self.reached.reach(node) else {
            unreachable!()
        };
        let nodes = view.node_count();
        let mut met = met;
        view.start_at(node);
        self.settled += 1;
        'hops: while let Some(hop) = next_useful(view, &self.reached, nodes, from.weight) {
            relax(
                &mut self.reached,
                &mut self.queue,
                ahead,
                behind,
                node,
                from,
                hop,
            );
            met = best_over(met, hop.to, &self.reached, other);
        }
        self.next = self.queue.pop_least();
        met
    }
}

/// Takes a hop of a settled node into account. The potentials are asked only of a head that is
/// reached for the first time.
fn relax<P: Potential, Q: Potential>(
    reached: &mut Reached,
    queue: &mut Queue,
    ahead: &P,
    behind: &Q,
    tail: NodeId,
    from: Reach,
    hop: Hop,
)
    requires reached { hop.to.0 < length reached.old }
    requires keys { hop.to.0 < length queue.old }
    requires queued { AreQueued (reduced_by (P.bound ahead.now) (Q.bound behind.now))
        reached.old queue.old }
    requires asked { AreAsked (P.bound ahead.now) (Q.bound behind.now) reached.old }
    requires depth { from.depth < 2 ^ 32 - 1 }
    requires weight { from.weight ≤ 2 ^ 64 * from.depth }
    ensures relaxes { Relaxes (reduced_by (P.bound ahead.now) (Q.bound behind.now)) tail from hop
        reached.old queue.old reached.new queue.new }
    ensures asked { AreAsked (P.bound ahead.now) (Q.bound behind.now) reached.new }
{
    let Some(weight) = hop.weight else { return };
    let total = from.weight + u128::from(weight);
    if let Some(known) = reached.weight(hop.to) {
        if known <= total {
            return;
        }
        let Some(key) = queue.key_of(hop.to) else {
            return
        };
        queue.lower(hop.to, key - 2 * known + 2 * total);
    } else {
        let Some(bound) = reduced_at(ahead, behind, hop.to) else {
            return
        };
        queue.put(hop.to, 2 * total + bound);
    }
    reached.extend(total, from.depth + 1, tail, hop);
}

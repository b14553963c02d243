//! The loop that all searches share.
ghost use Rattle.std.specs.Prelude.{◌≡◌, ◌+◌, ◌-◌, ◌*◌, ◌^◌, ◌<◌, ◌≤◌, length, IfOk};
ghost use Rattle.alt_search.specs.Progress.{AreQueued, Relaxes, IsDone};

use crate::known::next_useful;
use crate::reach::Reach;
use crate::reached::Reached;
use gh_base::{Hop, NoMemory, NodeId, Potential, RoadView};
use search_queue::Queue;
use std::alloc::Global;

/// What is known of each node, which nodes are open, and where the search stopped.
#[derive(Drop)]
pub struct Expansion {
    pub reached: Reached,
    pub queue: Queue,
    pub settled: u32,
    pub at_target: bool,
}

/// Settles nodes in the order of their keys, until the target is the next or none is open.
pub fn expand<V: RoadView, P: Potential>(
    alloc: Global,
    view: &mut V,
    potential: &P,
    start: NodeId,
    target: NodeId,
) -> Result<Expansion, NoMemory>
    requires start { start.0 < (V.network view.old).nodes }
    requires count { V.starts view.old ≤ 2 ^ 63 }
    ensures network { V.network view.new ≡ V.network view.old }
    ensures starts { IfOk result (λ end. V.starts view.new ≡ V.starts view.old + end.settled) }
    ensures rise { V.starts view.new ≤ V.starts view.old + (V.network view.old).nodes }
    ensures few { IfOk result (λ _. (V.network view.old).nodes < 2 ^ 32) }
    ensures done { IfOk result (λ end. IsDone (V.network view.old) (P.bound potential.now) start.0 target.0
        end.settled end.reached end.queue end.at_target) }
{
    let count = view.node_count();
    let mut reached = Reached::new(alloc, count)?;
    let mut queue = Queue::new(alloc, count)?;
    let mut settled: u32 = 0;
    if let Some(bound) = potential.at(start) {
        reached.begin(start);
        queue.put(start, u128::from(bound));
    }
    'nodes: while let Some((node, _key)) = queue.pop_least() {
        if node.0 == target.0 {
            return Ok(Expansion {
                reached,
                queue,
                settled,
                at_target: true,
            });
        }
        let Some(from) = reached.reach(node) else {
            unreachable!()
        };
        view.start_at(node);
        settled += 1;
        'hops: while let Some(hop) = next_useful(view, &reached, count, from.weight) {
            relax(&mut reached, &mut queue, potential, node, from, hop);
        }
    }
    Ok(Expansion {
        reached,
        queue,
        settled,
        at_target: false,
    })
}

/// Takes a hop of a settled node into account. The potential is asked only of a head that is reached for
/// the first time: the key of an open node is its walk's weight and its bound.
fn relax<P: Potential>(
    reached: &mut Reached,
    queue: &mut Queue,
    potential: &P,
    tail: NodeId,
    from: Reach,
    hop: Hop,
)
    requires reached { hop.to.0 < length reached.old }
    requires keys { hop.to.0 < length queue.old }
    requires queued { AreQueued (P.bound potential.now) reached.old queue.old }
    requires depth { from.depth < 2 ^ 32 - 1 }
    requires weight { from.weight ≤ 2 ^ 64 * from.depth }
    ensures { Relaxes (P.bound potential.now) tail from hop reached.old queue.old reached.new queue.new }
{
    let Some(weight) = hop.weight else { return };
    let total = from.weight + u128::from(weight);
    if let Some(known) = reached.weight(hop.to) {
        if known <= total {
            return;
        }
        let Some(key) = queue.key_of(hop.to) else {
            return
        };
        queue.lower(hop.to, key - known + total);
    } else {
        let Some(bound) = potential.at(hop.to) else {
            return
        };
        queue.put(hop.to, total + u128::from(bound));
    }
    reached.extend(total, from.depth + 1, tail, hop);
}

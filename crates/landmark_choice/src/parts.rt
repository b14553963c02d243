//! The part of the roads with most nodes.
ghost use Rattle.std.specs.Prelude.{◌≡◌, ◌≢◌, ◌↔◌, ◌+◌, ◌-◌, ◌<◌, ◌≤◌, ◌^◌, ℕ, List, IsTrue, IfOk, IfSome, IfNone, false, length, slice_index};
ghost use Rattle.gh_base.specs.declared.edges.Hop.{Hop};
ghost use Rattle.gh_base.specs.Networks.{Network};
ghost use Rattle.landmark_choice.specs.Grouping.{IsForest, Leads, AreGrouped};
ghost use Rattle.landmark_choice.specs.Parts.{IsLargestPart, HasOpenHop, SomeHopIsOpen, IsBarred};

use crate::groups::{apart, join, sizes};
use gh_base::{FreshView, NoMemory, NodeId, RoadView};
use std::alloc::Global;

/// The least node of the part with most nodes, on a tie of the part with the least node; None exactly
/// where no hop has a weight. A part is joined by hops with a weight, whichever way they lead.
///
/// `_back` is `out` turned round. The hops of `out` alone join all that `_back` joins.
pub fn largest_part<V: FreshView + Drop, W: FreshView>(
    alloc: Global,
    out: &V,
    _back: &W,
) -> Result<Option<NodeId>, NoMemory>
    ensures largest { IfOk result (λ part. IfSome part (λ node. IsLargestPart (V.network out.now) node.0)) }
    ensures none { IfOk result (λ part. IfNone part ((node : ℕ) → node < (V.network out.now).nodes → IsBarred (V.network out.now) node)) }
    ensures some { IfOk result (λ part. IfSome part (λ _. SomeHopIsOpen (V.network out.now))) }
{
    let mut view = out.again();
    let count = out.node_count();
    let mut above = apart(alloc, count)?;
    let mut is_barred = true;
    for node in 0..count {
        if join_hops(&mut view, &mut above, NodeId(node)) {
            is_barred = false;
        }
    }
    if is_barred {
        return Ok(None);
    }
    fullest(alloc, &mut above)
}

/// Joins a node with those that its hops with a weight lead to. Whether there was one.
fn join_hops<V: RoadView>(view: &mut V, above: &mut [u32], node: NodeId) -> bool
    requires node { node.0 < (V.network view.old).nodes }
    requires count { V.starts view.old < 2 ^ 64 - 1 }
    requires grouped { AreGrouped (V.network view.old) above.old node.0 ((V.network view.old).hops node.0) }
    ensures network { V.network view.new ≡ V.network view.old }
    ensures starts { V.starts view.new ≡ V.starts view.old + 1 }
    ensures grouped { AreGrouped (V.network view.old) above.new (node.0 + 1) ((V.network view.old).hops (node.0 + 1)) }
    ensures open { IsTrue result → HasOpenHop (V.network view.old) node.0 }
    ensures barred { result ≡ false → IsBarred (V.network view.old) node.0 }
{
    let mut is_open = false;
    view.start_at(node);
    'hops: while let Some(hop) = view.next_hop() {
        if hop.weight.is_some() {
            is_open = true;
            join(above, node.0, hop.to.0);
        }
    }
    is_open
}

/// The least leader of the groups with most members; None where there are no groups.
fn fullest(alloc: Global, above: &mut [u32]) -> Result<Option<NodeId>, NoMemory>
    requires forest { IsForest above.old }
    requires few { length above.old < 2 ^ 32 }
    ensures largest { (network : Network) (left : List Hop) → AreGrouped network above.old network.nodes left →
        IfOk result (λ part. IfSome part (λ node. IsLargestPart network node.0)) }
    ensures none { (leader : ℕ → ℕ) → Leads above.old leader → IfOk result (λ part. IfNone part (length above.old ≡ 0)) }
{
    let sizes = sizes(alloc, above)?;
    Ok(greatest(above, &sizes))
}

/// The leader with the greatest number, the first on a tie.
fn greatest(above: &[u32], sizes: &[u32]) -> Option<NodeId>
    requires long { length sizes.now ≡ length above.now }
    requires few { length above.now < 2 ^ 32 }
    ensures none { IfNone result ((one : ℕ) → one < length above.now → slice_index above.now one ≢ one) }
    ensures within { IfSome result (λ node. node.0 < length above.now) }
    ensures leader { IfSome result (λ node. slice_index above.now node.0 ≡ node.0) }
    ensures most { IfSome result (λ node. (one : ℕ) → one < length above.now → slice_index above.now one ≡ one → slice_index sizes.now one ≤ slice_index sizes.now node.0) }
    ensures first { IfSome result (λ node. (one : ℕ) → one < node.0 → slice_index above.now one ≡ one → slice_index sizes.now one < slice_index sizes.now node.0) }
{
    let mut best: Option<u32> = None;
    for one in 0..above.len() as u32 {
        if above[one as usize] == one {
            let is_greater = match best {
                None => true,
                Some(best) => sizes[best as usize] < sizes[one as usize],
            };
            if is_greater {
                best = Some(one);
            }
        }
    }
    Some(NodeId(best?))
}

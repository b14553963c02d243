//! What is asked of the hops of a node.
ghost use Rattle.std.specs.Prelude.{◌≡◌, ◌⊎◌, ◌+◌, ◌<◌, ◌≤◌, ◌^◌, ℕ, true, Some, IsTrue, IfSome, IfNone, Contains};
ghost use Rattle.gh_base.specs.declared.edges.Hop.{Hop};
ghost use Rattle.walk_rules.specs.Walks.{hops_from};
ghost use Rattle.traffic_core.specs.History.{index_of};
ghost use Rattle.prep_store.specs.Evidence as spec;
ghost use Rattle.prep_store.specs.Evidence.{label_in, IsClosedAt, IsFirstOpenAt};
ghost use Rattle.prep_store.specs.Steps.{gives, gives_back};

use crate::item::Item;
use crate::listing::Listing;
use gh_base::{DirEdge, Hop, NodeId, RoadView};

/// The greatest label in grains.
const MOST_GRAINS: u64 = 65534;

/// Whether a weight gives a label from a node's label.
fn gives(grain: u64, tail: Option<u16>, weight: Option<u64>, label: u16) -> bool
    requires { 1 ≤ grain }
    ensures { result ≡ gives grain tail weight label }
{
    match (tail, weight) {
        (Some(tail), Some(weight)) => {
            u64::from(label)
                == u64::from(tail)
                    .saturating_add(weight / grain)
                    .min(MOST_GRAINS)
        }
        _ => false,
    }
}

/// Whether some hop, turned round, leads to an item from a listed node and gives its label.
pub(crate) fn is_reached<W: RoadView>(
    back: &mut W,
    listing: &Listing,
    grain: u64,
    item: Item,
) -> bool
    requires node { item.node.0 < (W.network back.old).nodes }
    requires nodes { listing.now.nodes ≡ (W.network back.old).nodes }
    requires count { W.starts back.old ≤ 2 ^ 63 }
    requires fine { 1 ≤ grain }
    ensures some { IsTrue result → (hop : Hop) × Contains (hops_from (W.network back.old) item.node.0) hop × (gives_back grain listing.now.items item.label hop ≡ true) }
    ensures none { (hop : Hop) → Contains (hops_from (W.network back.old) item.node.0) hop → gives_back grain listing.now.items item.label hop ≡ true → IsTrue result }
    ensures network { W.network back.new ≡ W.network back.old }
    ensures starts { W.starts back.new ≡ W.starts back.old + 1 }
{
    back.start_at(item.node);
    'hops: while let Some(hop) = back.next_hop() {
        if gives(grain, listing.label(hop.to), hop.weight, item.label) {
            return true;
        }
    }
    false
}

/// Where a directed edge stands among all, forward before reverse.
fn index_of_edge(by: DirEdge) -> u64
    ensures { result ≡ index_of by }
{
    2 * u64::from(by.edge.0) + u64::from(by.reverse)
}

/// Whether a hop from a node with this label is open.
fn is_open(listing: &Listing, grain: u64, tail: Option<u16>, hop: Hop) -> bool
    requires head { hop.to.0 < listing.now.nodes }
    requires fine { 1 ≤ grain }
    ensures { (node : ℕ) → label_in listing.now.items node ≡ tail → result ≡ spec.is_open grain listing.now.items node hop }
{
    match (tail, hop.weight) {
        (Some(tail), Some(weight)) => match listing.label(hop.to) {
            None => true,
            Some(head) => u64::from(tail).saturating_add(weight / grain) < u64::from(head),
        },
        _ => false,
    }
}

/// The lesser of two directed edges, of which there may be only the second.
fn lesser_edge(first: Option<DirEdge>, by: DirEdge) -> DirEdge
    ensures one { (first ≡ Some result) ⊎ (result ≡ by) }
    ensures least { index_of result ≤ index_of by }
    ensures first { IfSome first (λ edge. index_of result ≤ index_of edge) }
{
    match first {
        Some(first) if index_of_edge(first) <= index_of_edge(by) => first,
        _ => by,
    }
}

/// The open hop of a node over the least directed edge; None where no hop is open.
pub(crate) fn open_at<V: RoadView>(
    view: &mut V,
    listing: &Listing,
    grain: u64,
    node: NodeId,
) -> Option<DirEdge>
    requires node { node.0 < (V.network view.old).nodes }
    requires nodes { listing.now.nodes ≡ (V.network view.old).nodes }
    requires count { V.starts view.old ≤ 2 ^ 63 }
    requires fine { 1 ≤ grain }
    ensures none { IfNone result (IsClosedAt (V.network view.old) grain listing.now.items node.0) }
    ensures some { IfSome result (IsFirstOpenAt (V.network view.old) grain listing.now.items node.0) }
    ensures network { V.network view.new ≡ V.network view.old }
    ensures starts { V.starts view.new ≡ V.starts view.old + 1 }
{
    let tail = listing.label(node);
    let mut first = None;
    view.start_at(node);
    'hops: while let Some(hop) = view.next_hop() {
        if is_open(listing, grain, tail, hop) {
            first = Some(lesser_edge(first, hop.by));
        }
    }
    first
}

//! The order in which a store lists the nodes that a landmark reaches.
ghost use Rattle.std.specs.Prelude.{◌≡◌, ◌↔◌, ◌+◌, ◌*◌, ◌/◌, ◌++◌, ◌∷◌, [], ◌<◌, ◌≤◌, ◌^◌, None, Some, IsTrue, length, IfOk, OnOk};
ghost use Rattle.walk_rules.specs.Walks.{hops_from};
ghost use Rattle.landmark_prep.specs.Preparations.{nodes_of};
ghost use Rattle.prep_store.specs.Evidence.{label_in};
ghost use Rattle.prep_store.specs.Evidence as spec;
ghost use Rattle.prep_store.specs.Ordering as ordering;
ghost use Rattle.prep_store.specs.Ordering.{told_label, IsOpen, IsOpenBut, Offers};
ghost use Rattle.prep_store.specs.Writing.{IsListing};

use crate::item::Item;
use crate::listing::Listing;
use gh_base::{FreshView, Hop, NoMemory, NodeId, RoadView};
use landmark_prep::Prep;
use search_queue::Queue;
use std::alloc::Global;

/// The greatest label in grains.
const MOST_GRAINS: u64 = 65534;

/// How many numbers a node may have.
const NODES: u128 = 1 << 32;

/// The labels of the landmark at a place: those from it, or where `back` those to it.
#[derive(Clone, Copy)]
pub(crate) struct Told<'a> {
    pub(crate) prep: &'a Prep,
    pub(crate) landmark: u32,
    pub(crate) back: bool,
}

impl<'a> Told<'a> {
    /// The label of a node in ms.
    fn label(&self, node: NodeId) -> Option<u64>
        requires landmark { self.now.landmark < length self.now.prep.now.landmarks }
        requires node { node.0 < nodes_of self.now.prep.now.labels }
        ensures { result ≡ told_label self.now.prep.now self.now.landmark self.now.back node.0 }
    {
        if self.back {
            self.prep.label_to(self.landmark, node)
        } else {
            self.prep.label_from(self.landmark, node)
        }
    }

    /// Whether an item has the label of its node.
    fn has(&self, grain: u64, item: Item) -> bool
        requires landmark { self.now.landmark < length self.now.prep.now.landmarks }
        requires node { item.node.0 < nodes_of self.now.prep.now.labels }
        requires coarse { grain ≤ 2 ^ 46 }
        ensures { IsTrue result ↔ (told_label self.now.prep.now self.now.landmark self.now.back item.node.0 ≡ Some (grain * item.label)) }
    {
        match self.label(item.node) {
            None => false,
            Some(label) => label == grain * u64::from(item.label),
        }
    }
}

/// The label after a hop, in grains.
fn label_after(grain: u64, label: u16, weight: u64) -> u16
    requires { 1 ≤ grain }
    ensures { result ≡ spec.label_after grain label weight }
{
    u64::from(label)
        .saturating_add(weight / grain)
        .min(MOST_GRAINS) as u16
}

/// Where an item stands among the next: by its label, then by its number.
fn key_of(item: Item) -> u128
    ensures { result ≡ ordering.key_of item }
{
    u128::from(item.label) * NODES + u128::from(item.node.0)
}

/// The item of a node with a key.
fn item_of(node: NodeId, key: u128) -> Item
    requires { key < 65536 * 4294967296 }
    ensures node { result.node ≡ node }
    ensures label { result.label ≡ key / 4294967296 }
{
    Item {
        node,
        label: (key / NODES) as u16,
    }
}

/// Brings in the head of a hop, where it isn't listed and the hop gives it its label.
fn offer(queue: &mut Queue, listing: &Listing, told: &Told<'_>, grain: u64, tail: u16, hop: Hop)
    requires listing { hop.to.0 < listing.now.nodes }
    requires queue { hop.to.0 < length queue.old }
    requires landmark { told.now.landmark < length told.now.prep.now.landmarks }
    requires labels { hop.to.0 < nodes_of told.now.prep.now.labels }
    requires fine { 1 ≤ grain }
    requires coarse { grain ≤ 2 ^ 46 }
    ensures { Offers grain (told_label told.now.prep.now told.now.landmark told.now.back) listing.now.items tail hop queue.old queue.new }
{
    let Some(weight) = hop.weight else { return };
    if listing.label(hop.to).is_some() || queue.key_of(hop.to).is_some() {
        return;
    }
    let item = Item {
        node: hop.to,
        label: label_after(grain, tail, weight),
    };
    if told.has(grain, item) {
        queue.put(item.node, key_of(item));
    }
}

/// Brings in what the hops of the last listed node lead to.
fn offer_hops<V: RoadView>(
    view: &mut V,
    queue: &mut Queue,
    listing: &Listing,
    told: &Told<'_>,
    grain: u64,
    last: Item,
)
    requires node { last.node.0 < (V.network view.old).nodes }
    requires listed { label_in listing.now.items last.node.0 ≡ Some last.label }
    requires nodes { listing.now.nodes ≡ (V.network view.old).nodes }
    requires keys { length queue.old ≡ (V.network view.old).nodes }
    requires landmark { told.now.landmark < length told.now.prep.now.landmarks }
    requires labels { nodes_of told.now.prep.now.labels ≡ (V.network view.old).nodes }
    requires count { V.starts view.old ≤ 2 ^ 63 }
    requires fine { 1 ≤ grain }
    requires coarse { grain ≤ 2 ^ 46 }
    requires keyed { IsOpenBut (V.network view.old) grain (told_label told.now.prep.now told.now.landmark told.now.back) listing.now.items last.label (hops_from (V.network view.old) last.node.0) queue.old }
    ensures keyed { IsOpen (V.network view.old) grain (told_label told.now.prep.now told.now.landmark told.now.back) listing.now.items queue.new }
    ensures keys { length queue.new ≡ length queue.old }
    ensures network { V.network view.new ≡ V.network view.old }
    ensures starts { V.starts view.new ≡ V.starts view.old + 1 }
{
    view.start_at(last.node);
    'hops: while let Some(hop) = view.next_hop() {
        offer(queue, listing, told, grain, last.label, hop);
    }
}

/// Lists an item, and brings in what its hops lead to.
fn list_next<V: RoadView>(
    view: &mut V,
    queue: &mut Queue,
    listing: &mut Listing,
    told: &Told<'_>,
    grain: u64,
    item: Item,
) -> Result<(), NoMemory>
    requires node { item.node.0 < (V.network view.old).nodes }
    requires label { item.label < 65535 }
    requires new { label_in listing.old.items item.node.0 ≡ None }
    requires nodes { listing.old.nodes ≡ (V.network view.old).nodes }
    requires keys { length queue.old ≡ (V.network view.old).nodes }
    requires landmark { told.now.landmark < length told.now.prep.now.landmarks }
    requires labels { nodes_of told.now.prep.now.labels ≡ (V.network view.old).nodes }
    requires count { V.starts view.old ≤ 2 ^ 63 }
    requires fine { 1 ≤ grain }
    requires coarse { grain ≤ 2 ^ 46 }
    requires keyed { IsOpenBut (V.network view.old) grain (told_label told.now.prep.now told.now.landmark told.now.back) (listing.old.items ++ item ∷ []) item.label (hops_from (V.network view.old) item.node.0) queue.old }
    ensures listed { OnOk result (listing.new ≡ record { nodes = listing.old.nodes; items = listing.old.items ++ item ∷ [] }) }
    ensures keyed { OnOk result (IsOpen (V.network view.old) grain (told_label told.now.prep.now told.now.landmark told.now.back) (listing.old.items ++ item ∷ []) queue.new) }
    ensures keys { OnOk result (length queue.new ≡ length queue.old) }
    ensures network { OnOk result (V.network view.new ≡ V.network view.old) }
    ensures starts { OnOk result (V.starts view.new ≡ V.starts view.old + 1) }
{
    listing.push(item)?;
    offer_hops(view, queue, listing, told, grain, item);
    Ok(())
}

/// Lists the landmark, and then again and again the next node: of those that aren't listed and to which a hop from one
/// that is gives its label, the one of least label, then of least number.
pub(crate) fn list_nodes<V: FreshView + Drop>(
    alloc: Global,
    view: &V,
    told: &Told<'_>,
    grain: u64,
    landmark: NodeId,
) -> Result<Listing, NoMemory>
    requires node { landmark.0 < (V.network view.now).nodes }
    requires landmark { told.now.landmark < length told.now.prep.now.landmarks }
    requires labels { nodes_of told.now.prep.now.labels ≡ (V.network view.now).nodes }
    requires fine { 1 ≤ grain }
    requires coarse { grain ≤ 2 ^ 46 }
    ensures listing { IfOk result (λ listing. IsListing (V.network view.now) grain landmark.0 (told_label told.now.prep.now told.now.landmark told.now.back) listing.items) }
    ensures few { IfOk result (λ listing. length listing.items < 2 ^ 32) }
{
    let mut roads = view.again();
    let count = roads.node_count();
    let mut listing = Listing::new(alloc, count)?;
    let mut queue = Queue::new(alloc, count)?;
    let first = Item {
        node: landmark,
        label: 0,
    };
    list_next(&mut roads, &mut queue, &mut listing, told, grain, first)?;
    'nodes: while let Some((node, key)) = queue.pop_least() {
        let item = item_of(node, key);
        list_next(&mut roads, &mut queue, &mut listing, told, grain, item)?;
    }
    Ok(listing)
}

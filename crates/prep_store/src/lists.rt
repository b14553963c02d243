//! The lists of landmarks, which are read and checked to be evidence.
ghost use Rattle.std.specs.Prelude.{◌≡◌, ◌↔◌, ◌+◌, ◌++◌, ◌<◌, ◌≤◌, ◌^◌, [], List, None, IsTrue, length, map, IfOk, IfErr, OnOk, IfNone, IfSome, Contains, All};
ghost use Rattle.gh_base.specs.Networks.{Network, LeadsToNodes};
ghost use Rattle.walk_rules.specs.Walks.{AreTurned};
ghost use Rattle.prep_store.specs.declared.item.Item.{Item};
ghost use Rattle.prep_store.specs.Evidence.{label_in, MayFollow, MayAllFollow, IsClosedAt, IsFirstOpen, IsEvidence};
ghost use Rattle.prep_store.specs.Stores.{Lists, items_text, list_text, lists_text, AreEvidence};
ghost use Rattle.prep_store.specs.FirstFaults.{FailsInItems, FailsInList, FailsInPair, FailsInLists};
ghost use Rattle.prep_store.specs.Steps.{IsItem, AreRead};
ghost use Rattle.prep_store.specs.Readings.{place, Takes, Fails};

use crate::fault::PrepFault;
use crate::hops::{is_reached, open_at};
use crate::item::{Item, Which};
use crate::listing::Listing;
use crate::units::{read_item, read_u32};
use gh_base::{DirEdge, FreshView, NodeId, RoadView, Source};
use landmark_prep::LabelTable;
use std::alloc::Global;
use walk_rules::walks_turn_round;

/// Whether an item may follow those of a list: the landmark in front, then a new node that a hop from a listed one
/// reaches. `back` is the roads turned round.
fn may_follow<W: RoadView>(
    back: &mut W,
    listing: &Listing,
    grain: u64,
    landmark: NodeId,
    item: Item,
) -> bool
    requires nodes { listing.now.nodes ≡ (W.network back.old).nodes }
    requires landmark { landmark.0 < listing.now.nodes }
    requires count { W.starts back.old ≤ 2 ^ 63 }
    requires fine { 1 ≤ grain }
    ensures node { IsTrue result → IsItem listing.now.nodes item }
    ensures new { IsTrue result → label_in listing.now.items item.node.0 ≡ None }
    ensures follows { (network : Network) → AreTurned network (W.network back.old) → LeadsToNodes network →
        IsTrue result ↔ MayFollow network grain landmark.0 listing.now.items item }
    ensures network { W.network back.new ≡ W.network back.old }
    ensures starts { W.starts back.new ≤ W.starts back.old + 1 }
{
    if listing.is_empty() {
        return item.node == landmark && item.label == 0;
    }
    if item.node.0 as usize >= listing.node_count() {
        return false;
    }
    match listing.label(item.node) {
        Some(_) => false,
        None => is_reached(back, listing, grain, item),
    }
}

/// Reads so many items, each of which may follow those before it, into an empty list.
fn read_items<S: Source, W: FreshView + Drop>(
    source: &mut S,
    at: &mut u64,
    back: &W,
    listing: &mut Listing,
    grain: u64,
    landmark: NodeId,
    which: Which,
    count: u32,
) -> Result<(), PrepFault>
    requires small { at.old ≤ 2 ^ 60 }
    requires empty { listing.old.items ≡ [] }
    requires nodes { listing.old.nodes ≡ (W.network back.now).nodes }
    requires landmark { landmark.0 < (W.network back.now).nodes }
    requires fine { 1 ≤ grain }
    ensures text { OnOk result (Takes (place S.left S.faults S.mark source.old at.old) (place S.left S.faults S.mark source.new at.new) (items_text listing.new.items)) }
    ensures each { OnOk result (length listing.new.items ≡ count) }
    ensures nodes { OnOk result (listing.new.nodes ≡ listing.old.nodes) }
    ensures order { (network : Network) → AreTurned network (W.network back.now) → LeadsToNodes network → OnOk result (MayAllFollow network grain landmark.0 [] listing.new.items) }
    ensures fails { (network : Network) → AreTurned network (W.network back.now) → LeadsToNodes network →
        IfErr result (Fails (FailsInItems network grain landmark.0 which count) (place S.left S.faults S.mark source.old at.old) (place S.left S.faults S.mark source.new at.new)) }
{
    let mut behind = back.again();
    'items: for place in 0..count {
        let item = read_item(source, at)?;
        if !may_follow(&mut behind, listing, grain, landmark, item) {
            return Err(PrepFault::Order {
                landmark: which.landmark,
                back: which.back,
                place,
            });
        }
        listing.push(item)?;
    }
    Ok(())
}

/// The first open hop of a list, by its tail's place and then by its directed edge; None where the list is closed.
fn find_open<V: FreshView + Drop>(view: &V, listing: &Listing, grain: u64) -> Option<DirEdge>
    requires nodes { listing.now.nodes ≡ (V.network view.now).nodes }
    requires few { length listing.now.items < 2 ^ 32 }
    requires fine { 1 ≤ grain }
    ensures none { IfNone result ((item : Item) → Contains listing.now.items item → IsClosedAt (V.network view.now) grain listing.now.items item.node.0) }
    ensures some { IfSome result (IsFirstOpen (V.network view.now) grain listing.now.items) }
{
    let mut ahead = view.again();
    let items = listing.items();
    'items: for place in 0..items.len() {
        let item = items[place];
        match open_at(&mut ahead, listing, grain, item.node) {
            Some(edge) => return Some(edge),
            None => {}
        }
    }
    None
}

/// Reads a list from a landmark, which is evidence. `back` is `out` turned round; with the two exchanged it is a list
/// to the landmark.
fn read_list<S: Source, V: FreshView + Drop, W: FreshView + Drop>(
    alloc: Global,
    source: &mut S,
    at: &mut u64,
    out: &V,
    back: &W,
    grain: u64,
    landmark: NodeId,
    which: Which,
) -> Result<Listing, PrepFault>
    requires small { at.old ≤ 2 ^ 59 }
    requires turned { AreTurned (V.network out.now) (W.network back.now) }
    requires landmark { landmark.0 < (V.network out.now).nodes }
    requires fine { 1 ≤ grain }
    ensures text { IfOk result (λ list. Takes (place S.left S.faults S.mark source.old at.old) (place S.left S.faults S.mark source.new at.new) (list_text list.items)) }
    ensures word { IfOk result (λ list. length list.items < 2 ^ 32) }
    ensures evidence { IfOk result (λ list. IsEvidence (V.network out.now) grain landmark.0 list.items) }
    ensures nodes { IfOk result (λ list. list.nodes ≡ (V.network out.now).nodes) }
    ensures bounded { OnOk result (at.new ≤ at.old + 2 ^ 36) }
    ensures fails { IfErr result (Fails (FailsInList (V.network out.now) grain landmark.0 which) (place S.left S.faults S.mark source.old at.old) (place S.left S.faults S.mark source.new at.new)) }
{
    let count = read_u32(source, at)?;
    if count == 0 {
        return Err(PrepFault::Order {
            landmark: which.landmark,
            back: which.back,
            place: 0,
        });
    }
    let mut listing = Listing::new(alloc, out.node_count())?;
    read_items(
        source,
        at,
        back,
        &mut listing,
        grain,
        landmark,
        which,
        count,
    )?;
    match find_open(out, &listing, grain) {
        None => Ok(listing),
        Some(edge) => Err(PrepFault::Open {
            landmark: which.landmark,
            back: which.back,
            edge,
        }),
    }
}

/// Both lists of a landmark.
#[derive(Drop)]
struct Pair {
    from: Listing,
    to: Listing,
}

/// Reads both lists of a landmark, which are evidence.
fn read_pair<S: Source, V: FreshView + Drop, W: FreshView + Drop>(
    alloc: Global,
    source: &mut S,
    at: &mut u64,
    out: &V,
    back: &W,
    grain: u64,
    landmark: NodeId,
    number: u32,
) -> Result<Pair, PrepFault>
    requires small { at.old ≤ 2 ^ 58 }
    requires turned { AreTurned (V.network out.now) (W.network back.now) }
    requires landmark { landmark.0 < (V.network out.now).nodes }
    requires fine { 1 ≤ grain }
    ensures text { IfOk result (λ pair. Takes (place S.left S.faults S.mark source.old at.old) (place S.left S.faults S.mark source.new at.new) (list_text pair.from.items ++ list_text pair.to.items)) }
    ensures evidence { IfOk result (λ pair. AreEvidence (V.network out.now) (W.network back.now) grain landmark.0 (record { from = pair.from.items; to = pair.to.items })) }
    ensures from { IfOk result (λ pair. pair.from.nodes ≡ (V.network out.now).nodes) }
    ensures to { IfOk result (λ pair. pair.to.nodes ≡ (V.network out.now).nodes) }
    ensures bounded { OnOk result (at.new ≤ at.old + 2 ^ 37) }
    ensures fails { IfErr result (Fails (FailsInPair (V.network out.now) (W.network back.now) grain landmark.0 number) (place S.left S.faults S.mark source.old at.old) (place S.left S.faults S.mark source.new at.new)) }
{
    walks_turn_round();
    let from = Which {
        landmark: number,
        back: false,
    };
    let from = read_list(alloc, source, at, out, back, grain, landmark, from)?;
    let to = Which {
        landmark: number,
        back: true,
    };
    let to = read_list(alloc, source, at, back, out, grain, landmark, to)?;
    Ok(Pair { from, to })
}

/// Reads the lists of landmarks, all of which are evidence. It gives the labels that they tell.
pub(crate) fn read_lists<S: Source, V: FreshView + Drop, W: FreshView + Drop>(
    alloc: Global,
    source: &mut S,
    at: &mut u64,
    out: &V,
    back: &W,
    grain: u64,
    landmarks: &[NodeId],
) -> Result<LabelTable, PrepFault>
    requires small { at.old ≤ 2 ^ 50 }
    requires few { length landmarks.now ≤ 16 }
    requires turned { AreTurned (V.network out.now) (W.network back.now) }
    requires landmarks { All (λ landmark. landmark.0 < (V.network out.now).nodes) landmarks.now }
    requires fine { 1 ≤ grain }
    ensures read { IfOk result (λ table. (lists : List Lists) × Takes (place S.left S.faults S.mark source.old at.old) (place S.left S.faults S.mark source.new at.new) (lists_text lists)
        × AreRead (V.network out.now) (W.network back.now) grain (map (λ node. node.0) landmarks.now) lists table) }
    ensures fails { IfErr result (Fails (FailsInLists (V.network out.now) (W.network back.now) grain (map (λ node. node.0) landmarks.now)) (place S.left S.faults S.mark source.old at.old) (place S.left S.faults S.mark source.new at.new)) }
{
    let mut table = LabelTable::new(alloc);
    'lists: for place in 0..landmarks.len() {
        let landmark = landmarks[place];
        let Pair { from, to } = read_pair(
            alloc,
            source,
            at,
            out,
            back,
            grain,
            landmark,
            place as u32,
        )?;
        table.push(from.into_row(), to.into_row())?;
    }
    Ok(table)
}

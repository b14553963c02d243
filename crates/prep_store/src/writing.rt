//! A preparation written as a store.
ghost use Rattle.std.specs.Prelude.{◌≡◌, ◌<◌, ◌≤◌, ◌^◌, ℕ, List, length, slice_get, Some, IfOk, OnOk, OnErr, IsErrOf};
ghost use Rattle.std.specs.Io.KnownBytes.{Appends};
ghost use Rattle.gh_base.specs.Causes.{Rose, AppendsFront};
ghost use Rattle.landmark_prep.specs.Preparations.{nodes_of};
ghost use Rattle.landmark_prep.specs.Bounds.{labels_at};
ghost use Rattle.traffic_core.specs.Truth.{IsTrueOver};
ghost use Rattle.prep_store.specs.Stores.{list_text, roads_at, back_at};
ghost use Rattle.prep_store.specs.Ordering.{told_label, front_text, IsListText, IsPairText, AreTexts, IsGiven, IsCutOff};
ghost use Rattle.prep_store.specs.Writing.{IsStoreOf};

use crate::item::Item;
use crate::listed::Listed;
use crate::ordering::{Told, list_nodes};
use crate::texts::{put_list, put_nodes, put_u32, put_u64, put_words};
use gh_base::{FreshView, GiveFault, NoMemory, NodeId, Sink, give_all};
use landmark_prep::{Prep, preparations_are_one};
use std::alloc::Global;
use traffic_core::Ground;
use weighting::{Side, WeightView, Weighting};

/// How a store begins.
const MAGIC: &[u8] = b"GHPREP01";

/// What stands before the lists.
fn front(alloc: Global, ground: &Ground, prep: &Prep) -> Result<Vec<u8>, NoMemory>
    ensures { IfOk result (λ bytes. bytes.items ≡ front_text ground.now prep.now) }
{
    let graph = ground.graph();
    let head = [
        prep.profile(),
        graph.node_count(),
        graph.edge_count(),
        prep.landmark_count(),
    ];
    let mut bytes = Vec::new(alloc);
    bytes.extend_from_slice(MAGIC)?;
    put_words(&mut bytes, &head)?;
    put_words(&mut bytes, prep.snapshot().as_slice())?;
    put_nodes(&mut bytes, prep.landmarks().as_slice())?;
    put_u64(&mut bytes, prep.grain())?;
    Ok(bytes)
}

/// Gives a list.
fn give_list<K: Sink>(alloc: Global, items: &[Item], sink: &mut K) -> Result<(), GiveFault>
    requires { length items.now < 2 ^ 32 }
    ensures ok { OnOk result (Appends (K.held sink.old) (K.held sink.new) (list_text items.now)) }
    ensures err { OnErr result (AppendsFront (K.held sink.old) (K.held sink.new) (list_text items.now)) }
    ensures fault { IsErrOf result GiveFault.WriteFault → Rose (K.faults sink.old) (K.faults sink.new) }
    ensures later { K.faults sink.old ≤ K.faults sink.new }
{
    let mut bytes = Vec::new(alloc);
    put_list(&mut bytes, items)?;
    give_all(sink, &bytes)?;
    Ok(())
}

/// Gives the list of a landmark that is seen from one side.
fn give_side<K: Sink, V: FreshView + Drop>(
    alloc: Global,
    view: &V,
    told: &Told<'_>,
    landmark: NodeId,
    sink: &mut K,
) -> Result<(), GiveFault>
    requires node { landmark.0 < (V.network view.now).nodes }
    requires landmark { told.now.landmark < length told.now.prep.now.landmarks }
    requires labels { nodes_of told.now.prep.now.labels ≡ (V.network view.now).nodes }
    requires fine { 1 ≤ told.now.prep.now.grain }
    requires coarse { told.now.prep.now.grain ≤ 2 ^ 46 }
    ensures ok { OnOk result (IsGiven (IsListText (V.network view.now) told.now.prep.now.grain landmark.0 (told_label told.now.prep.now told.now.landmark told.now.back)) (K.held sink.old) (K.held sink.new)) }
    ensures err { OnErr result (IsCutOff (IsListText (V.network view.now) told.now.prep.now.grain landmark.0 (told_label told.now.prep.now told.now.landmark told.now.back)) (K.held sink.old) (K.held sink.new)) }
    ensures fault { IsErrOf result GiveFault.WriteFault → Rose (K.faults sink.old) (K.faults sink.new) }
    ensures later { K.faults sink.old ≤ K.faults sink.new }
{
    let listing = list_nodes(alloc, view, told, told.prep.grain(), landmark)?;
    give_list(alloc, listing.items(), sink)
}

/// The landmark at a place.
fn landmark_at(prep: &Prep, place: u32) -> NodeId
    requires { place < length prep.now.landmarks }
    ensures { slice_get prep.now.landmarks place ≡ Some result.0 }
{
    *prep.landmarks().get(place as usize)
}

/// Gives both lists of the landmark at a place.
fn give_pair<K: Sink, V: FreshView + Drop, W: FreshView + Drop>(
    alloc: Global,
    out: &V,
    back: &W,
    prep: &Prep,
    place: u32,
    landmark: NodeId,
    sink: &mut K,
) -> Result<(), GiveFault>
    requires place { place < length prep.now.landmarks }
    requires node { landmark.0 < (V.network out.now).nodes }
    requires back { (W.network back.now).nodes ≡ (V.network out.now).nodes }
    requires labels { nodes_of prep.now.labels ≡ (V.network out.now).nodes }
    requires fine { 1 ≤ prep.now.grain }
    requires coarse { prep.now.grain ≤ 2 ^ 46 }
    ensures ok { OnOk result (IsGiven (IsPairText (V.network out.now) (W.network back.now) prep.now.grain landmark.0 (labels_at prep.now.labels place)) (K.held sink.old) (K.held sink.new)) }
    ensures err { OnErr result (IsCutOff (IsPairText (V.network out.now) (W.network back.now) prep.now.grain landmark.0 (labels_at prep.now.labels place)) (K.held sink.old) (K.held sink.new)) }
    ensures fault { IsErrOf result GiveFault.WriteFault → Rose (K.faults sink.old) (K.faults sink.new) }
    ensures later { K.faults sink.old ≤ K.faults sink.new }
{
    let from = Told {
        prep,
        landmark: place,
        back: false,
    };
    let to = Told {
        prep,
        landmark: place,
        back: true,
    };
    give_side(alloc, out, &from, landmark, sink)?;
    give_side(alloc, back, &to, landmark, sink)
}

/// Gives the lists of all landmarks.
fn give_lists<K: Sink, V: FreshView + Drop, W: FreshView + Drop>(
    alloc: Global,
    out: &V,
    back: &W,
    prep: &Prep,
    sink: &mut K,
) -> Result<(), GiveFault>
    requires nodes { (place node : ℕ) → slice_get prep.now.landmarks place ≡ Some node → node < (V.network out.now).nodes }
    requires table { length prep.now.labels ≡ length prep.now.landmarks }
    requires back { (W.network back.now).nodes ≡ (V.network out.now).nodes }
    requires labels { nodes_of prep.now.labels ≡ (V.network out.now).nodes }
    requires fine { 1 ≤ prep.now.grain }
    requires coarse { prep.now.grain ≤ 2 ^ 46 }
    ensures ok { OnOk result (IsGiven (AreTexts (V.network out.now) (W.network back.now) prep.now.grain prep.now.landmarks prep.now.labels) (K.held sink.old) (K.held sink.new)) }
    ensures err { OnErr result (IsCutOff (AreTexts (V.network out.now) (W.network back.now) prep.now.grain prep.now.landmarks prep.now.labels) (K.held sink.old) (K.held sink.new)) }
    ensures fault { IsErrOf result GiveFault.WriteFault → Rose (K.faults sink.old) (K.faults sink.new) }
    ensures later { K.faults sink.old ≤ K.faults sink.new }
{
    'places: for place in 0..prep.landmark_count() {
        let landmark = landmark_at(prep, place);
        give_pair(alloc, out, back, prep, place, landmark, sink)?;
    }
    Ok(())
}

/// Gives the lists of a preparation that is true over the ground.
fn give_roads<K: Sink>(
    alloc: Global,
    ground: &Ground,
    prep: &Prep,
    sink: &mut K,
) -> Result<(), GiveFault>
    requires { IsTrueOver ground.now prep.now }
    ensures ok { OnOk result (IsGiven (AreTexts (roads_at ground.now prep.now.profile prep.now.snapshot) (back_at ground.now prep.now.profile prep.now.snapshot) prep.now.grain prep.now.landmarks prep.now.labels) (K.held sink.old) (K.held sink.new)) }
    ensures err { OnErr result (IsCutOff (AreTexts (roads_at ground.now prep.now.profile prep.now.snapshot) (back_at ground.now prep.now.profile prep.now.snapshot) prep.now.grain prep.now.landmarks prep.now.labels) (K.held sink.old) (K.held sink.new)) }
    ensures fault { IsErrOf result GiveFault.WriteFault → Rose (K.faults sink.old) (K.faults sink.new) }
    ensures later { K.faults sink.old ≤ K.faults sink.new }
{
    let graph = ground.graph();
    let weighting = Weighting::new(ground.profile(prep.profile()), None);
    let listed = Listed::new(graph, prep.snapshot());
    let out = WeightView::new(graph, &listed, &weighting, Side::Out);
    let back = WeightView::new(graph, &listed, &weighting, Side::Back);
    preparations_are_one();
    give_lists(alloc, &out, &back, prep, sink)
}

/// Gives the store of a preparation that is true over the ground to a sink: what stands before the lists in one piece,
/// and then a list at a time.
///
/// After `WriteFault`, which comes only where a call of the sink failed, and after `NoMemory` the sink has a front of the
/// store behind its old bytes.
pub fn write_prep<K: Sink>(
    alloc: Global,
    ground: &Ground,
    prep: &Prep,
    sink: &mut K,
) -> Result<(), GiveFault>
    requires { IsTrueOver ground.now prep.now }
    ensures ok { OnOk result ((text : List ℕ) × IsStoreOf ground.now prep.now text × Appends (K.held sink.old) (K.held sink.new) text) }
    ensures err { OnErr result ((text : List ℕ) → IsStoreOf ground.now prep.now text → AppendsFront (K.held sink.old) (K.held sink.new) text) }
    ensures fault { IsErrOf result GiveFault.WriteFault → Rose (K.faults sink.old) (K.faults sink.new) }
    ensures later { K.faults sink.old ≤ K.faults sink.new }
{
    let bytes = front(alloc, ground, prep)?;
    give_all(sink, &bytes)?;
    give_roads(alloc, ground, prep, sink)
}

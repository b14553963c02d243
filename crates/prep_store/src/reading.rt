//! A store read back.
ghost use Rattle.std.specs.Prelude.{◌≡◌, ◌*◌, ◌<◌, ◌≤◌, ◌^◌, true, List, length, map, IfOk, IfErr, IfSome, OnOk, IsErrOf};
ghost use Rattle.std.specs.Io.KnownBytes.{IsAtEnd};
ghost use Rattle.gh_base.specs.Causes.{Rose};
ghost use Rattle.walk_rules.specs.Walks.{AreTurned};
ghost use Rattle.traffic_core.specs.Truth.{IsTrueOver};
ghost use Rattle.prep_store.specs.Stores.{Lists, IsStored, roads_at, back_at};
ghost use Rattle.prep_store.specs.FirstFaults.{is_of_bytes, IsFirstFault};
ghost use Rattle.prep_store.specs.Readings.{place, Takes, Fails};
ghost use Rattle.prep_store.specs.Steps.{IsBehindLimits, text_behind, FailsBehindLimits};

use crate::fault::PrepFault;
use crate::head::{Head, read_head, read_limits};
use crate::laws::stored_is_true;
use crate::listed::Listed;
use crate::lists::read_lists;
use crate::placing::{check_grain, read_landmarks};
use crate::units::read_end;
use gh_base::{FreshView, LimitList, Source};
use landmark_prep::{LabelTable, Placing, Prep, of_parts};
use std::alloc::Global;
use traffic_core::Ground;
use weighting::{Side, WeightView, Weighting, sides_are_turned};

/// What is read behind the limits.
#[derive(Drop)]
struct Parts {
    placing: Placing,
    labels: LabelTable,
}

/// Reads landmarks, grain and lists of roads that are seen from both sides.
fn read_over<S: Source, V: FreshView + Drop, W: FreshView + Drop>(
    alloc: Global,
    source: &mut S,
    at: &mut u64,
    out: &V,
    back: &W,
    count: u32,
) -> Result<Parts, PrepFault>
    requires small { at.old ≤ 2 ^ 40 }
    requires turned { AreTurned (V.network out.now) (W.network back.now) }
    requires some { 1 ≤ count }
    requires few { count ≤ 16 }
    ensures read { IfOk result (λ parts. (lists : List Lists)
        × Takes (place S.left S.faults S.mark source.old at.old) (place S.left S.faults S.mark source.new at.new) (text_behind (map (λ node. node.0) parts.placing.landmarks) parts.placing.grain lists)
        × IsBehindLimits (V.network out.now) (W.network back.now) count (map (λ node. node.0) parts.placing.landmarks) parts.placing.grain lists parts.labels) }
    ensures coarse { IfOk result (λ parts. parts.placing.grain ≤ 2 ^ 46) }
    ensures fails { IfErr result (Fails (FailsBehindLimits (V.network out.now) (W.network back.now) count) (place S.left S.faults S.mark source.old at.old) (place S.left S.faults S.mark source.new at.new)) }
{
    let placing = read_landmarks(alloc, source, at, out, back, count)?;
    check_grain(source, at, placing.grain)?;
    let nodes = placing.landmarks.as_slice();
    let labels = read_lists(alloc, source, at, out, back, placing.grain, nodes)?;
    Ok(Parts { placing, labels })
}

/// Reads landmarks, grain and lists of a ground's roads at limits.
fn read_parts<S: Source>(
    alloc: Global,
    source: &mut S,
    at: &mut u64,
    ground: &Ground,
    head: Head,
    snapshot: &LimitList,
) -> Result<Parts, PrepFault>
    requires small { at.old ≤ 2 ^ 40 }
    requires long { length snapshot.now ≡ 2 * length ground.now.graph.edges }
    requires profile { head.profile < length ground.now.profiles }
    requires some { 1 ≤ head.count }
    requires few { head.count ≤ 16 }
    ensures read { IfOk result (λ parts. (lists : List Lists)
        × Takes (place S.left S.faults S.mark source.old at.old) (place S.left S.faults S.mark source.new at.new) (text_behind (map (λ node. node.0) parts.placing.landmarks) parts.placing.grain lists)
        × IsBehindLimits (roads_at ground.now head.profile snapshot.now) (back_at ground.now head.profile snapshot.now) head.count (map (λ node. node.0) parts.placing.landmarks) parts.placing.grain lists parts.labels) }
    ensures coarse { IfOk result (λ parts. parts.placing.grain ≤ 2 ^ 46) }
    ensures fails { IfErr result (Fails (FailsBehindLimits (roads_at ground.now head.profile snapshot.now) (back_at ground.now head.profile snapshot.now) head.count) (place S.left S.faults S.mark source.old at.old) (place S.left S.faults S.mark source.new at.new)) }
{
    let graph = ground.graph();
    let weighting = Weighting::new(ground.profile(head.profile), None);
    let listed = Listed::new(graph, snapshot);
    sides_are_turned();
    let out = WeightView::new(graph, &listed, &weighting, Side::Out);
    let back = WeightView::new(graph, &listed, &weighting, Side::Back);
    let parts = read_over(alloc, source, at, &out, &back, head.count)?;
    Ok(parts)
}

/// Reads a stored preparation of a ground, and takes it only where its bytes show that it is one: landmarks and grain are
/// placed anew, and each list has to be evidence of its labels.
///
/// It reads to the end, number by number, and takes memory by the ground and not by what the bytes claim.
pub fn read_prep<S: Source>(
    alloc: Global,
    ground: &Ground,
    source: &mut S,
) -> Result<Prep, PrepFault>
    ensures stored { IfOk result (λ prep. IfSome (S.left source.old) (IsStored ground.now prep)) }
    ensures true_over { IfOk result (λ prep. IsTrueOver ground.now prep) }
    ensures first { IfErr result (λ fault. is_of_bytes fault ≡ true → IfSome (S.left source.old) (λ bytes. IsFirstFault ground.now bytes fault)) }
    ensures end { OnOk result (IsAtEnd (S.left source.new)) }
    ensures fault { IsErrOf result PrepFault.ReadFault → Rose (S.faults source.old) (S.faults source.new) }
    ensures later { S.faults source.old ≤ S.faults source.new }
    ensures mark { S.mark source.new ≡ S.mark source.old }
{
    let mut at = 0;
    let head = read_head(ground, source, &mut at)?;
    let snapshot = read_limits(alloc, source, &mut at, ground.graph().edge_count())?;
    let Parts { placing, labels } = read_parts(alloc, source, &mut at, ground, head, &snapshot)?;
    read_end(source)?;
    let Placing { landmarks, grain } = placing;
    Ok(of_parts(head.profile, snapshot, landmarks, grain, labels))
}

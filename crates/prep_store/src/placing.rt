//! Landmarks and grain, which are placed anew and compared.
ghost use Rattle.std.specs.Prelude.{◌≡◌, ◌↔◌, ◌<◌, ◌≤◌, ◌^◌, Some, IsTrue, length, map, slice_get, ℕ, IfOk, IfErr, OnOk};
ghost use Rattle.byteorder.specs.Endian.{big_bytes};
ghost use Rattle.walk_rules.specs.Walks.{AreTurned};
ghost use Rattle.landmark_prep.specs.Preparations.{IsPlacing};
ghost use Rattle.prep_store.specs.Stores.{words};
ghost use Rattle.prep_store.specs.FirstFaults.{FailsByRule, FailsInLandmarks, FailsInGrain};
ghost use Rattle.prep_store.specs.Readings.{place, Takes, Fails};

use crate::fault::PrepFault;
use crate::units::{read_u32, read_u64};
use gh_base::{FreshView, NodeId, Source};
use landmark_prep::{Placing, place_landmarks, preparations_are_one, prepared_roads_are_open};
use std::alloc::Global;

/// Whether a number is the node at a place.
fn is_at(nodes: &[NodeId], place: u32, number: u32) -> bool
    ensures { IsTrue result ↔ (slice_get (map (λ node. node.0) nodes.now) place ≡ Some number) }
{
    match nodes.get(place as usize) {
        None => false,
        Some(node) => node.0 == number,
    }
}

/// Reads as many landmarks as there should be, which are these and no others.
fn check_landmarks<S: Source>(
    source: &mut S,
    at: &mut u64,
    right: &[NodeId],
    count: u32,
) -> Result<(), PrepFault>
    requires small { at.old ≤ 2 ^ 60 }
    requires few { length right.now ≤ count }
    ensures text { OnOk result (Takes (place S.left S.faults S.mark source.old at.old) (place S.left S.faults S.mark source.new at.new) (words (map (λ node. node.0) right.now))) }
    ensures all { OnOk result (length right.now ≡ count) }
    ensures fails { IfErr result (Fails (FailsByRule (λ place node. slice_get (map (λ node. node.0) right.now) place ≡ Some node) count) (place S.left S.faults S.mark source.old at.old) (place S.left S.faults S.mark source.new at.new)) }
{
    'landmarks: for place in 0..count {
        let number = read_u32(source, at)?;
        if !is_at(right, place, number) {
            return Err(PrepFault::Landmarks { place });
        }
    }
    Ok(())
}

/// Reads the first landmark where there should be none.
fn refuse_landmarks<S: Source>(source: &mut S, at: &mut u64) -> PrepFault
    requires { at.old ≤ 2 ^ 60 }
    ensures { (count : ℕ) → 0 < count → Fails (FailsByRule (λ _ _. ⊥) count) (place S.left S.faults S.mark source.old at.old) (place S.left S.faults S.mark source.new at.new) result }
{
    match read_u32(source, at) {
        Ok(_) => PrepFault::Landmarks { place: 0 },
        Err(fault) => fault,
    }
}

/// Reads as many landmarks as were said, where landmarks are placed on these roads.
///
/// `back` is `out` turned round.
pub(crate) fn read_landmarks<S: Source, V: FreshView + Drop, W: FreshView + Drop>(
    alloc: Global,
    source: &mut S,
    at: &mut u64,
    out: &V,
    back: &W,
    count: u32,
) -> Result<Placing, PrepFault>
    requires small { at.old ≤ 2 ^ 60 }
    requires turned { AreTurned (V.network out.now) (W.network back.now) }
    requires some { 1 ≤ count }
    ensures placing { IfOk result (λ placing. IsPlacing (V.network out.now) count (map (λ node. node.0) placing.landmarks) placing.grain) }
    ensures all { IfOk result (λ placing. length placing.landmarks ≡ count) }
    ensures coarse { IfOk result (λ placing. placing.grain ≤ 2 ^ 46) }
    ensures text { IfOk result (λ placing. Takes (place S.left S.faults S.mark source.old at.old) (place S.left S.faults S.mark source.new at.new) (words (map (λ node. node.0) placing.landmarks))) }
    ensures fails { IfErr result (Fails (FailsInLandmarks (V.network out.now) count) (place S.left S.faults S.mark source.old at.old) (place S.left S.faults S.mark source.new at.new)) }
{
    let placed = place_landmarks(alloc, out, back, count)?;
    match placed {
        None => Err(refuse_landmarks(source, at)),
        Some(placing) => {
            check_landmarks(source, at, placing.landmarks.as_slice(), count)?;
            Ok(placing)
        }
    }
}

/// Reads a grain, which is this one.
pub(crate) fn check_grain<S: Source>(
    source: &mut S,
    at: &mut u64,
    grain: u64,
) -> Result<(), PrepFault>
    requires { at.old ≤ 2 ^ 62 }
    ensures text { OnOk result (Takes (place S.left S.faults S.mark source.old at.old) (place S.left S.faults S.mark source.new at.new) (big_bytes 8 grain)) }
    ensures fails { IfErr result (Fails (FailsInGrain grain) (place S.left S.faults S.mark source.old at.old) (place S.left S.faults S.mark source.new at.new)) }
{
    let other = read_u64(source, at)?;
    if other != grain {
        return Err(PrepFault::Grain { grain: other });
    }
    Ok(())
}

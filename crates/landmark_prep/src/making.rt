//! How a preparation is made.
ghost use Rattle.std.specs.Prelude.{◌≡◌, ◌↔◌, ℕ, ◌^◌, ◌<◌, ◌≤◌, map, IfOk, IfSome, IsNone};
ghost use Rattle.walk_rules.specs.Walks.{AreTurned};
ghost use Rattle.landmark_choice.specs.Parts.{IsBarred};
ghost use Rattle.landmark_prep.specs.Preparations.{grain_of, IsPlacing, IsPrepOf};
ghost use Rattle.landmark_prep.specs.Answers.{IfPrep, IsNoLandmark};

use crate::preparation::{Prep, of_parts};
use crate::spreading::spread_all;
use gh_base::{FreshView, LimitList, NoMemory, NodeId};
use landmark_choice::{Choice, Chosen, choose, largest_part};
use std::alloc::Global;
use std::thread::Threads;

/// The greatest distance in ms that counts for a grain.
const FARTHEST_MS: u128 = 1 << 60;

/// How many grains that distance has at least, so that twice as much fits 16 bits.
const LEAST_GRAINS: u64 = 32767;

/// What was made.
#[derive(Drop)]
pub enum Made {
    Prep(Prep),
    /// No hop has a weight, so there is nowhere to place a landmark.
    NoLandmark,
}

/// Where landmarks stand.
#[derive(Drop)]
pub struct Placing {
    /// The landmarks, in the order of the choice.
    pub landmarks: Chosen,
    /// The grain of their labels, in ms.
    pub grain: u64,
}

/// The preparation of a network with at most `count` landmarks (1 to 16), its labels spread on threads.
///
/// `back` is `out` turned round. `profile` and `snapshot` say what the weights are those of, and are kept.
///
/// On three nodes in a row, each edge 66717 ms both ways, with count 2: the landmarks are the nodes 2 and 0,
/// the greatest distance from node 0 is 133434, so the grain is 5, and the label of node 1 is 66715.
pub fn make_prep<R: Threads + Sync, V: FreshView + Sync + Drop, W: FreshView + Sync + Drop>(
    rt: &R,
    alloc: Global,
    out: &V,
    back: &W,
    profile: u32,
    snapshot: LimitList,
    count: u32,
) -> Result<Made, NoMemory>
    requires turned { AreTurned (V.network out.now) (W.network back.now) }
    requires some { 1 ≤ count }
    requires few { count ≤ 16 }
    ensures prep { IfOk result (λ made. IfPrep made (λ prep. IsPrepOf (V.network out.now) count prep)) }
    ensures profile { IfOk result (λ made. IfPrep made (λ prep. prep.profile ≡ profile)) }
    ensures snapshot { IfOk result (λ made. IfPrep made (λ prep. prep.snapshot ≡ snapshot)) }
    ensures none { IfOk result (λ made. IsNoLandmark made ↔ ((node : ℕ) → node < (V.network out.now).nodes → IsBarred (V.network out.now) node)) }
{
    let Some(placing) = place_landmarks(alloc, out, back, count)? else {
        return Ok(Made::NoLandmark)
    };
    let Placing { landmarks, grain } = placing;
    let labels = spread_all(rt, alloc, out, back, grain, landmarks.as_slice())?;
    Ok(Made::Prep(of_parts(profile, snapshot, landmarks, grain, labels)))
}

/// Where the landmarks of a network stand: at most `count` (1 to 16) of them, and the grain of their labels.
/// None where no hop has a weight.
///
/// `back` is `out` turned round.
pub fn place_landmarks<V: FreshView + Drop, W: FreshView + Drop>(
    alloc: Global,
    out: &V,
    back: &W,
    count: u32,
) -> Result<Option<Placing>, NoMemory>
    requires turned { AreTurned (V.network out.now) (W.network back.now) }
    requires some { 1 ≤ count }
    ensures placing { IfOk result (λ placing. IfSome placing (λ placing. IsPlacing (V.network out.now) count (map (λ node. node.0) placing.landmarks) placing.grain)) }
    ensures none { IfOk result (λ placing. IsNone placing ↔ ((node : ℕ) → node < (V.network out.now).nodes → IsBarred (V.network out.now) node)) }
    ensures coarse { IfOk result (λ placing. IfSome placing (λ placing. placing.grain ≤ 2 ^ 46)) }
{
    let Some(start) = largest_part(alloc, out, back)? else {
        return Ok(None)
    };
    let Choice { landmarks, far_ms } = choose(alloc, out, start, count)?;
    Ok(Some(Placing {
        landmarks,
        grain: grain_for(far_ms),
    }))
}

/// The grain for a greatest distance in ms.
fn grain_for(far_ms: u128) -> u64
    ensures is { result ≡ grain_of far_ms }
    ensures coarse { result ≤ 2 ^ 46 }
{
    far_ms.min(FARTHEST_MS) as u64 / LEAST_GRAINS + 1
}

//! How a seat makes a preparation of the roads after its list.
ghost use Rattle.std.specs.Prelude.{◌≡◌, ◌↔◌, ℕ, ◌*◌, ◌≤◌, ◌<◌, List, length, IfOk, MatchOption};
ghost use Rattle.walk_rules.specs.Walks.{AreTurned};
ghost use Rattle.landmark_choice.specs.Parts.{IsBarred};
ghost use Rattle.landmark_prep.specs.Preparations.{IsPrepOf};
ghost use Rattle.landmark_prep.specs.Answers.{IfPrep, IsNoLandmark};
ghost use Rattle.traffic_core.specs.declared.entry.Entry.{Entry};
ghost use Rattle.traffic_core.specs.History.{limit_in};
ghost use Rattle.traffic_core.specs.Standing.{Stands};
ghost use Rattle.traffic_core.specs.Truth.{network_at, IsPrepAt, IsNoPrepAt};

use super::Seat;
use crate::listed::Listed;
use crate::sealed::{Naming, TruePrep};
use gh_base::{LimitList, Limits, NoMemory, RoadView};
use landmark_prep::{Made, make_prep, preparations_are_one};
use std::alloc::Global;
use std::thread::Threads;
use traffic_core::{Ground, RoadState, Shared};
use weighting::{Side, WeightView, Weighting, sides_are_turned};

impl<'l, 'g, J: Naming> Seat<'l, 'g, J> {
    /// The preparation of a profile after the list, with at most `count` landmarks (1 to 16), its labels spread on
    /// threads. None where no road can be used under the profile. It appends nothing.
    pub fn prepare<R: Threads + Sync>(
        &self,
        rt: &R,
        profile: u32,
        count: u32,
    ) -> Result<Option<TruePrep<J>>, NoMemory>
        requires profile { profile < length J.land.profiles }
        requires some { 1 ≤ count }
        requires few { count ≤ 16 }
        ensures { IfOk result (λ made. MatchOption made (IsNoPrepAt J.land self.now.entries profile) (λ prep. IsPrepAt J.land self.now.entries profile count prep)) }
    {
        preparations_are_one();
        match prepare_at(rt, self.alloc, self.state(), profile, count)? {
            Made::Prep(prep) => Ok(Some(TruePrep::new(Shared::new(self.alloc, prep)?))),
            Made::NoLandmark => Ok(None),
        }
    }
}

/// The preparation of a profile at a state's limits, with at most `count` landmarks (1 to 16), its labels spread on threads.
pub fn prepare_at<R: Threads + Sync>(
    rt: &R,
    alloc: Global,
    state: &RoadState<'_>,
    profile: u32,
    count: u32,
) -> Result<Made, NoMemory>
    requires stands { (h : List Entry) × Stands state.now h }
    requires profile { profile < length state.now.land.profiles }
    requires some { 1 ≤ count }
    requires few { count ≤ 16 }
    ensures prep { (h : List Entry) → Stands state.now h →
        IfOk result (λ made. IfPrep made (λ prep. IsPrepAt state.now.land h profile count prep)) }
    ensures none { (h : List Entry) → Stands state.now h →
        IfOk result (λ made. IsNoLandmark made → IsNoPrepAt state.now.land h profile) }
{
    let limits = state.snapshot(alloc)?;
    let snapshot = state.snapshot(alloc)?;
    let ground = state.ground();
    let made = make_over(rt, alloc, ground, &limits, profile, snapshot, count)?;
    Ok(made)
}

/// What is made of the roads at limits, as a profile alone weighs them. `snapshot` is what it keeps of the limits.
fn make_over<R: Threads + Sync>(
    rt: &R,
    alloc: Global,
    ground: &Ground,
    limits: &LimitList,
    profile: u32,
    snapshot: LimitList,
    count: u32,
) -> Result<Made, NoMemory>
    requires limits { length limits.now ≡ 2 * length ground.now.graph.edges }
    requires profile { profile < length ground.now.profiles }
    requires some { 1 ≤ count }
    requires few { count ≤ 16 }
    ensures prep { IfOk result (λ made. IfPrep made (λ prep. IsPrepOf (network_at ground.now profile (limit_in limits.now)) count prep)) }
    ensures profile { IfOk result (λ made. IfPrep made (λ prep. prep.profile ≡ profile)) }
    ensures snapshot { IfOk result (λ made. IfPrep made (λ prep. prep.snapshot ≡ snapshot)) }
    ensures none { IfOk result (λ made. IsNoLandmark made → (node : ℕ) → node < length ground.now.graph.places → IsBarred (network_at ground.now profile (limit_in limits.now)) node) }
{
    let graph = ground.graph();
    let weighting = Weighting::new(ground.profile(profile), None);
    let listed = Listed::new(graph, limits);
    sides_are_turned();
    let out = WeightView::new(graph, &listed, &weighting, Side::Out);
    let back = WeightView::new(graph, &listed, &weighting, Side::Back);
    let made = make_of(rt, alloc, &out, &back, profile, snapshot, count)?;
    Ok(made)
}

/// What is made of roads that are seen from both sides.
fn make_of<'a, R: Threads + Sync, L: Limits + Sync>(
    rt: &R,
    alloc: Global,
    out: &WeightView<'a, L>,
    back: &WeightView<'a, L>,
    profile: u32,
    snapshot: LimitList,
    count: u32,
) -> Result<Made, NoMemory>
    requires turned { AreTurned (⟦<WeightView<'a, L> as RoadView>⟧.network out.now) (⟦<WeightView<'a, L> as RoadView>⟧.network back.now) }
    requires some { 1 ≤ count }
    requires few { count ≤ 16 }
    ensures prep { IfOk result (λ made. IfPrep made (λ prep. IsPrepOf (⟦<WeightView<'a, L> as RoadView>⟧.network out.now) count prep)) }
    ensures profile { IfOk result (λ made. IfPrep made (λ prep. prep.profile ≡ profile)) }
    ensures snapshot { IfOk result (λ made. IfPrep made (λ prep. prep.snapshot ≡ snapshot)) }
    ensures none { IfOk result (λ made. IsNoLandmark made ↔ ((node : ℕ) → node < (⟦<WeightView<'a, L> as RoadView>⟧.network out.now).nodes → IsBarred (⟦<WeightView<'a, L> as RoadView>⟧.network out.now) node)) }
{
    make_prep(rt, alloc, out, back, profile, snapshot, count)
}

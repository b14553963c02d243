//! What is asked of the roads as they stand.
ghost use Rattle.std.specs.Prelude.{◌≡◌, ◌<◌, List, None, length, IfOk, IfSome};
ghost use Rattle.model_eval.specs.Slowing.{offender};
ghost use Rattle.weighting.specs.SlowRoads.{OnlySlows, AreNowhereAbove};
ghost use Rattle.traffic_core.specs.declared.entry.Entry.{Entry};
ghost use Rattle.traffic_core.specs.History.{limit_in, IsGuide};
ghost use Rattle.traffic_core.specs.Seen.{seen};
ghost use Rattle.traffic_core.specs.Standing.{Stands};
ghost use Rattle.traffic_core.specs.Truth.{IsTrueOver};

use crate::routing::route;
use crate::state::RoadState;
use gh_base::{NoMemory, Place, RouteAnswer};
use landmark_prep::{Prep, preparations_are_one};
use model_eval::SlowModel;
use std::alloc::Global;
use weighting::Profile;

/// What can be asked of the roads after any history, under a profile.
pub trait Query {
    ghost use Rattle.std.specs.Prelude.{ℕ, List};
    ghost use Rattle.traffic_core.specs.Lands.{Land};
    ghost use Rattle.traffic_core.specs.declared.entry.Entry.{Entry};

    type Answer;

    ghost profile_of: { Self → ℕ };

    /// The condition on a ground under which it can be asked there.
    ghost asks: { Self → Land → Type 0 };

    /// Which answers are right after a history.
    ghost right: { Self → Land → List Entry → Self.Answer → Type 0 };

    /// The profile, by its number.
    fn profile(&self) -> u32
        ensures { result ≡ profile_of self.now };

    /// The answer on the roads as they stand, by the preparation that guides queries of its profile, or by none.
    fn ask(
        &self,
        alloc: Global,
        state: &RoadState<'_>,
        prep: Option<&Prep>,
    ) -> Result<Self::Answer, NoMemory>
        requires asks { asks self.now state.now.land }
        requires truth { IfSome prep (λ p. IsTrueOver state.now.land p.now) }
        requires covers { IfSome prep (λ p. AreNowhereAbove state.now.land.graph (limit_in state.now.limits) (limit_in p.now.snapshot)) }
        requires of_profile { IfSome prep (λ p. p.now.profile ≡ profile_of self.now) }
        ensures { IfOk result (λ answer. (h : List Entry) → Stands state.now h →
            IsGuide state.now.land.graph h (profile_of self.now) (seen prep.entry) → right self.now state.now.land h answer) };

    // Where it can be asked, its profile is there.
    ghost there: { (query : Self) (land : Land) → asks query land → profile_of query < length land.profiles };
}

/// A query for a route from place to place, under a profile by number and a model that only slows it.
/// With `labels` it asks for a label for each tower in place of the walk.
#[derive(Clone, Copy)]
pub struct RouteQuery<'a> {
    pub profile: u32,
    pub model: &'a SlowModel,
    pub from: Place,
    pub to: Place,
    pub labels: bool,
}

/// A model without an offender under a profile only slows it.
pub fn model_slows(profile: &Profile, model: &SlowModel)
    requires { offender profile.now.model model.now ≡ None }
    ensures { OnlySlows profile.now.model model.now }
{
    model.model();
}

impl<'a> Query for RouteQuery<'a> {
    ghost use Rattle.traffic_core.specs.Answers.{asked};
    ghost use Rattle.traffic_core.specs.Queries.{CanAsk, IsRightAfter};

    type Answer = RouteAnswer;

    ghost profile_of = { λ query. query.profile };

    ghost asks = { λ query land. CanAsk land (asked query) };

    ghost right = { λ query land h answer. IsRightAfter land h (asked query) answer };

    fn profile(&self) -> u32 {
        self.profile
    }

    fn ask(
        &self,
        alloc: Global,
        state: &RoadState<'_>,
        prep: Option<&Prep>,
    ) -> Result<RouteAnswer, NoMemory> {
        preparations_are_one();
        let ground = state.ground();
        model_slows(ground.profile(self.profile), self.model);
        route(alloc, ground, state, prep, self)
    }

    ghost there = { λ query land asks. asks.profile };
}

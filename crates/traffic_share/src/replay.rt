//! A list of entries that were found in cells, with the state of the roads after it.
ghost use Rattle.std.specs.Prelude.{◌≡◌, ℕ, ◌-◌, ◌<◌, ◌≤◌, [], ◌∷◌, ◌++◌, length, Some, IfOk, IfSome, IsTrue, ◌↔◌, slice_get};
ghost use Rattle.weighting.specs.SlowRoads.{AreNowhereAbove};
ghost use Rattle.traffic_core.specs.History.{IsGuide, limit_in};
ghost use Rattle.traffic_core.specs.Standing.{IsOnLand, Stands};
ghost use Rattle.traffic_core.specs.Truth.{IsTrueOver};
ghost use Rattle.traffic_share.specs.TrueEntries.{IsTrueEntry};
ghost use Rattle.traffic_share.specs.Notes.{CanFollow};
ghost use Rattle.traffic_core.specs.Seen.{seen};

use crate::sealed::Naming;
use gh_base::NoMemory;
use landmark_prep::Prep;
use std::alloc::Global;
use std::marker::{Model, PhantomData};
use traffic_core::{Entries, Entry, Ground, RoadState};

/// Entries by reference, each of which stands in a cell.
#[derive(Drop)]
pub(crate) struct Found<'l> {
    refs: Vec<&'l Entry>,
}

impl<'l> Entries for Found<'l> {
    ghost use Rattle.traffic_share.specs.Notes.{shown};

    ghost entries = { λ found. shown found.refs.items };

    fn entry(&self, place: u32) -> &Entry {
        self.refs[place as usize - 1]
    }
}

/// Contracts see it as the list and the state after it.
#[derive(Drop)]
pub(crate) struct Replay<'l, 'g, J: Naming> {
    found: Found<'l>,
    state: RoadState<'g>,
    of: PhantomData<J>,
}

impl<'l, 'g, J: Naming> Model for Replay<'l, 'g, J> {
    ghost use Rattle.std.specs.Prelude.{◌≤◌, vec_capacity};
    ghost use Rattle.model_eval.specs.contracts.conditions.Test as e;
    ghost use Rattle.std.specs.Coded.{codes};
    ghost use Rattle.traffic_share.specs.Notes.{shown, Replayed, IsReplay};

    ghost Value = { Replayed };

    ghost coded = { Prim.hlevel (codes, e.the_row.coded) };

    ghost view = { λ r. record { entries = shown r.found.refs.items; state = r.state } };

    ghost invariant = { λ r. IsReplay J.land (shown r.found.refs.items) r.state × (r.state.room ≤ vec_capacity r.found.refs) };
}

impl<'l, 'g, J: Naming> Replay<'l, 'g, J> {
    /// The empty list, with room for so many entries. It takes all the memory that it will ever need.
    pub(crate) fn new(
        alloc: Global,
        ground: &'g Ground,
        room: u32,
    ) -> Result<Replay<'l, 'g, J>, NoMemory>
        requires { ground.now ≡ J.land }
        ensures entries { IfOk result (λ replay. replay.entries ≡ []) }
        ensures room { IfOk result (λ replay. replay.state.room ≡ room) }
    {
        let refs = Vec::with_capacity(alloc, room as usize)?;
        let state = RoadState::with_room(alloc, ground, room)?;
        Ok(Replay {
            found: Found { refs },
            state,
            of: PhantomData,
        })
    }

    /// The state after the list.
    pub(crate) fn state(&self) -> &RoadState<'g>
        ensures same { result.now ≡ self.now.state }
        ensures stands { Stands result.now self.now.entries }
        ensures land { result.now.land ≡ J.land }
    {
        &self.state
    }

    pub(crate) fn len(&self) -> u32
        ensures { result ≡ length self.now.entries }
    {
        self.state.len()
    }

    /// The entry at a place, counted from 0.
    pub(crate) fn at(&self, place: u32) -> &'l Entry
        requires { place < length self.now.entries }
        ensures is { slice_get self.now.entries place ≡ Some result.now }
        ensures holds { IsTrueEntry J.land result.now }
        ensures on_land { IsOnLand J.land result.now.what }
    {
        self.found.refs[place as usize]
    }

    /// Whether there is room for an entry, and it is one of the roads.
    pub(crate) fn can_take(&self, entry: &Entry) -> bool
        ensures { IsTrue result ↔ CanFollow J.land self.now entry.now }
    {
        self.state.can_take(entry)
    }

    /// Takes an entry behind the list. It takes no memory.
    pub(crate) fn take(&mut self, entry: &'l Entry)
        requires can { CanFollow J.land self.old entry.now }
        requires holds { IsTrueEntry J.land entry.now }
        ensures entries { self.new.entries ≡ self.old.entries ++ entry.now ∷ [] }
        ensures room { self.new.state.room ≡ self.old.state.room }
    {
        self.state.apply(entry, &self.found);
        self.found.refs.push_reserved(entry);
    }

    /// The preparation in the slot of a profile, which is true over the roads.
    pub(crate) fn preparation(&self, profile: u32) -> Option<&Prep>
        requires { profile < length J.land.profiles }
        ensures guide { IsGuide J.land.graph self.now.entries profile (seen result) }
        ensures covers { IfSome result (λ prep. AreNowhereAbove J.land.graph (limit_in self.now.state.limits) (limit_in prep.now.snapshot)) }
        ensures of_profile { IfSome result (λ prep. prep.now.profile ≡ profile) }
        ensures holds { IfSome result (λ prep. IsTrueOver J.land prep.now) }
    {
        self.state.preparation(profile, &self.found)
    }
}

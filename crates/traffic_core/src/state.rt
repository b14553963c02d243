//! The state of the roads after a list of entries: the limit of each directed edge, and which publication guides
//! queries of each profile.
ghost use Rattle.std.specs.Prelude.{◌≡◌, ℕ, ◌+◌, ◌*◌, ◌^◌, ◌<◌, ◌≤◌, List, [], ◌∷◌, ◌++◌, length, None, IfOk, IfSome, MatchOption, IsTrue, ◌↔◌, slice_set, slice_index_or};
ghost use Rattle.traffic_core.specs.declared.entry.Entry.{Entry};
ghost use Rattle.traffic_core.specs.History.{index_of, limit_in, IsGuide, IsSlot};
ghost use Rattle.traffic_core.specs.Seen.{seen};
ghost use Rattle.traffic_core.specs.Standing.{State, Stands, CanTake, IsOnLand, AreOnLand, AreSlotsAfter, IsCoveredBy, IsFirstOver};
ghost use Rattle.traffic_core.specs.Steps.{IsCounted, IsSlotAfterChange, AreSlotsAfterChange, HasTakenChange, HasTakenPublication};

use crate::edge_index::{edge_of_index, index_of_edge, listed_limit};
use crate::entries::Entries;
use crate::entry::{Entry, What};
use crate::ground::Ground;
use crate::rows::ChangedLimits;
use encoded_values::opening_limit;
use gh_base::{DirEdge, LimitList, Limits, NoMemory};
use landmark_prep::Prep;
use std::alloc::Global;
use std::marker::Model;

/// The roads after a list of entries. Only limits that entries changed are kept. Contracts see the roads, each
/// limit by index, the place of the entry in each profile's slot, how many entries there were, and for how many
/// there is room.
#[derive(Drop)]
pub struct RoadState<'g> {
    ground: &'g Ground,
    changed: ChangedLimits,
    slots: Vec<Option<u32>>,
    len: u32,
    room: u32,
}

impl<'g> Model for RoadState<'g> {
    ghost use Rattle.traffic_core.specs.Rows.{opening_limits, with_rows};
    ghost use Rattle.traffic_core.specs.Steps.{IsKept};
    ghost use Rattle.traffic_core.specs.Standing.{State};
    ghost use Rattle.model_eval.specs.contracts.conditions.Test as e;
    ghost use Rattle.std.specs.Coded.{codes};

    ghost Value = { State };

    ghost coded = { Prim.hlevel (codes, e.the_row.coded) };

    ghost view = { λ state. record {
      land = state.ground.now;
      limits = with_rows (opening_limits state.ground.now.graph.edges) state.changed.rows;
      slots = state.slots.items;
      len = state.len;
      room = state.room;
    } };

    ghost invariant = { λ state. IsKept state.ground.now state.changed state.slots.items state.len state.room };
}

impl<'g> RoadState<'g> {
    /// The state before any entry. It takes all memory that so many entries need.
    pub fn with_room(
        alloc: Global,
        ground: &'g Ground,
        room: u32,
    ) -> Result<RoadState<'g>, NoMemory>
        ensures stands { IfOk result (λ state. Stands state []) }
        ensures land { IfOk result (λ state. state.land ≡ ground.now) }
        ensures room { IfOk result (λ state. state.room ≡ room) }
    {
        let changed = ChangedLimits::with_room(alloc, room)?;
        let slots = vec![in alloc; None; ground.profiles().len()]?;
        Ok(RoadState {
            ground,
            changed,
            slots,
            len: 0,
            room,
        })
    }

    pub fn ground(&self) -> &'g Ground
        ensures { result.now ≡ self.now.land }
    {
        self.ground
    }

    /// How many entries it stands for.
    pub fn len(&self) -> u32
        ensures { result ≡ self.now.len }
    {
        self.len
    }

    pub fn is_empty(&self) -> bool
        ensures { IsTrue result ↔ (self.now.len ≡ 0) }
    {
        self.len == 0
    }

    /// How many entries it can take in all.
    pub fn room(&self) -> u32
        ensures { result ≡ self.now.room }
    {
        self.room
    }

    /// The present limit of a directed edge, in milli-km/h.
    pub fn limit(&self, edge: DirEdge) -> u32
        requires { edge.edge.0 < length self.now.land.graph.edges }
        ensures { result ≡ limit_in self.now.limits edge }
    {
        let opening = opening_limit(&self.ground.graph().values(edge.edge, edge.reverse));
        self.changed.get(index_of_edge(edge)).unwrap_or(opening)
    }

    /// How many directed edges there are.
    fn limit_count(&self) -> usize
        ensures of_land { result ≡ 2 * length self.now.land.graph.edges }
        ensures of_limits { result ≡ length self.now.limits }
        ensures few { result < 2 * 2 ^ 32 }
    {
        2 * self.ground.graph().edge_count() as usize
    }

    /// The present limits, as a preparation keeps them.
    pub fn snapshot(&self, alloc: Global) -> Result<LimitList, NoMemory>
        ensures { IfOk result (λ snapshot. snapshot ≡ self.now.limits) }
    {
        let mut snapshot = Vec::with_capacity(alloc, self.limit_count())?;
        for place in 0..self.limit_count() {
            snapshot.push(self.limit(edge_of_index(place)))?;
        }
        Ok(LimitList::from_vec(snapshot))
    }

    /// The first directed edge, forward before reverse, whose limit in a snapshot is below the present one. None
    /// where the snapshot covers the present limits.
    pub fn first_below(&self, snapshot: &LimitList) -> Option<DirEdge>
        requires { length snapshot.now ≡ 2 * length self.now.land.graph.edges }
        ensures { MatchOption result (IsCoveredBy self.now snapshot.now) (IsFirstOver self.now snapshot.now) }
    {
        for place in 0..self.limit_count() {
            let edge = edge_of_index(place);
            if listed_limit(snapshot, edge) < self.limit(edge) {
                return Some(edge);
            }
        }
        None
    }

    /// The place of the entry in the slot of a profile, from 1. None where the slot is empty.
    pub fn slot(&self, profile: u32) -> Option<u32>
        ensures { result ≡ slice_index_or self.now.slots profile None }
    {
        match self.slots.get(profile as usize) {
            Some(slot) => *slot,
            None => None,
        }
    }

    /// The preparation that guides queries of a profile: that in its slot. None exactly where the slot is empty.
    pub fn preparation<'e, E: Entries>(&self, profile: u32, before: &'e E) -> Option<&'e Prep>
        requires profile { profile < length self.now.land.profiles }
        requires before { Stands self.now (E.entries before.now) }
        ensures guide { IsGuide self.now.land.graph (E.entries before.now) profile (seen result) }
        ensures covers { IfSome result (λ prep. IsCoveredBy self.now prep.now.snapshot) }
        ensures of_profile { IfSome result (λ prep. prep.now.profile ≡ profile) }
        ensures on_land { IfSome result (λ prep. IsOnLand self.now.land (What.Publish prep.now)) }
    {
        let place = self.slot(profile)?;
        match &before.entry(place).what {
            What::Publish { prep } => Some(prep.prep()),
            _ => unreachable!(),
        }
    }

    /// Whether there is room for one more entry, and the entry is one of these roads.
    pub fn can_take(&self, entry: &Entry) -> bool
        ensures { IsTrue result ↔ CanTake self.now entry.now }
    {
        self.len < self.room && self.is_on_land(&entry.what)
    }

    fn is_on_land(&self, what: &What) -> bool
        ensures { IsTrue result ↔ IsOnLand self.now.land what.now }
    {
        let edges = self.ground.graph().edge_count();
        match what {
            What::Lower { edge, .. } => edge.edge.0 < edges,
            What::Restore { edge, .. } => edge.edge.0 < edges,
            What::Publish { prep } => self.is_prep_on_land(prep.prep()),
        }
    }

    fn is_prep_on_land(&self, prep: &Prep) -> bool
        ensures { IsTrue result ↔ IsOnLand self.now.land (What.Publish prep.now) }
    {
        (prep.profile() as usize) < self.ground.profiles().len()
            && prep.snapshot().len() == self.limit_count()
            && prep.node_count() == self.ground.graph().node_count()
    }

    /// Takes an entry behind those before. It takes no memory.
    pub fn apply<E: Entries>(&mut self, entry: &Entry, before: &E)
        requires can { CanTake self.old entry.now }
        requires before { Stands self.old (E.entries before.now) }
        ensures stands { Stands self.new (E.entries before.now ++ entry.now ∷ []) }
        ensures land { self.new.land ≡ self.old.land }
        ensures room { self.new.room ≡ self.old.room }
    {
        match &entry.what {
            What::Lower { edge, speed } => self.change(*edge, *speed, before),
            What::Restore { edge, speed } => self.change(*edge, *speed, before),
            What::Publish { prep } => self.publish(prep.prep()),
        }
    }

    /// Changes a limit, and empties each slot whose preparation has a lower one there.
    fn change<E: Entries>(&mut self, by: DirEdge, speed: u32, before: &E)
        requires room { self.old.len < self.old.room }
        requires by { by.edge.0 < length self.old.land.graph.edges }
        requires before { Stands self.old (E.entries before.now) }
        ensures same { IsCounted self.old self.new }
        ensures taken { HasTakenChange self.new (E.entries before.now) by speed }
    {
        self.set_limit(by, speed);
        self.test_slots(by, speed, before);
    }

    /// Sets a limit, and counts the entry that does.
    fn set_limit(&mut self, by: DirEdge, speed: u32)
        requires room { self.old.len < self.old.room }
        ensures { self.new ≡ record self.old { limits = slice_set self.old.limits (index_of by) speed; len = self.old.len + 1 } }
    {
        self.changed.set(index_of_edge(by), speed);
        self.len += 1;
    }

    fn count(&mut self)
        requires room { self.old.len < self.old.room }
        ensures { self.new ≡ record self.old { len = self.old.len + 1 } }
    {
        self.len += 1;
    }

    fn set_slot(&mut self, profile: usize, slot: Option<u32>)
        requires { profile < length self.old.land.profiles }
        ensures { self.new ≡ record self.old { slots = slice_set self.old.slots profile slot } }
    {
        self.slots[profile] = slot;
    }

    fn slot_at(&self, profile: usize) -> Option<u32>
        requires { profile < length self.now.land.profiles }
        ensures { result ≡ slice_index_or self.now.slots profile None }
    {
        self.slots[profile]
    }

    /// Empties each slot whose preparation has a limit below the speed.
    fn test_slots<E: Entries>(&mut self, by: DirEdge, speed: u32, before: &E)
        requires by { by.edge.0 < length self.old.land.graph.edges }
        requires on_land { AreOnLand self.old.land (E.entries before.now) }
        requires before { AreSlotsAfter self.old.land (E.entries before.now) self.old.slots }
        ensures same { self.new ≡ record self.old { slots = self.new.slots } }
        ensures slots { AreSlotsAfterChange self.new.land (E.entries before.now) by speed self.new.slots }
    {
        for profile in 0..self.ground.profiles().len() {
            let kept = self.kept_slot(profile, by, speed, before);
            self.set_slot(profile, kept);
        }
    }

    /// The place in a slot, where the preparation there has no limit below the speed. It covered all limits before,
    /// and only this one changes.
    fn kept_slot<E: Entries>(
        &self,
        profile: usize,
        by: DirEdge,
        speed: u32,
        before: &E,
    ) -> Option<u32>
        requires profile { profile < length self.now.land.profiles }
        requires by { by.edge.0 < length self.now.land.graph.edges }
        requires on_land { AreOnLand self.now.land (E.entries before.now) }
        requires before { IsSlot self.now.land.graph (E.entries before.now) profile (slice_index_or self.now.slots profile None) }
        ensures { IsSlotAfterChange self.now.land.graph (E.entries before.now) by speed profile result }
    {
        let place = self.slot_at(profile)?;
        match &before.entry(place).what {
            What::Publish { prep } => {
                (speed <= listed_limit(prep.prep().snapshot(), by)).then_some(place)
            }
            _ => unreachable!(),
        }
    }

    /// Takes a publication.
    fn publish(&mut self, prep: &Prep)
        requires room { self.old.len < self.old.room }
        requires on_land { IsOnLand self.old.land (What.Publish prep.now) }
        ensures same { IsCounted self.old self.new }
        ensures taken { HasTakenPublication self.old self.new prep.now }
    {
        self.take_slot(prep);
        self.count();
    }

    /// Puts the next entry into its slot, where its preparation covers the present limits.
    fn take_slot(&mut self, prep: &Prep)
        requires room { self.old.len < self.old.room }
        requires on_land { IsOnLand self.old.land (What.Publish prep.now) }
        ensures same { self.new ≡ record self.old { slots = self.new.slots } }
        ensures taken { HasTakenPublication self.old self.new prep.now }
    {
        if self.is_covered(prep) {
            self.set_slot(prep.profile() as usize, Some(self.len + 1));
        }
    }

    /// Whether no snapshot limit is below the present one.
    fn is_covered(&self, prep: &Prep) -> bool
        requires { length prep.now.snapshot ≡ 2 * length self.now.land.graph.edges }
        ensures { IsTrue result ↔ IsCoveredBy self.now prep.now.snapshot }
    {
        self.first_below(prep.snapshot()).is_none()
    }
}

impl<'g> Limits for RoadState<'g> {
    ghost edges = { λ state. length state.land.graph.edges };

    ghost limit_of = { λ state. limit_in state.limits };

    fn limit(&self, edge: DirEdge) -> u32 {
        RoadState::limit(self, edge)
    }
}

//! A seat: a list of entries, the state after it, and a note of each cell.
ghost use Rattle.std.specs.Prelude.{◌≡◌, ℕ, ◌+◌, ◌-◌, ◌^◌, ◌<◌, ◌≤◌, [], ◌∷◌, ◌++◌, length, Some, true, false, Ok, IfOk, OnErr, MatchOption, IsTrue, ◌↔◌, slice_get, slice_index_or};
ghost use Rattle.traffic_core.specs.declared.entry.Entry.{Entry};
ghost use Rattle.traffic_core.specs.Standing.{Stands};
ghost use Rattle.traffic_share.specs.TrueEntries.{IsTrueEntry};
ghost use Rattle.traffic_share.specs.Seats.{HasSameSeat, StartsWith, AreOfOne, longer, IsFull};
ghost use Rattle.traffic_share.specs.Notes.{IsOther};

mod asking;
mod changes;
mod preparing;

use crate::log::Log;
use crate::replay::Replay;
use crate::sealed::{Naming, Sealed};
pub use asking::Asked;
use gh_base::NoMemory;
use once_cell::race::Note;
pub use preparing::prepare_at;
use std::alloc::Global;
use std::marker::Model;
use traffic_core::{Entry, Ground, RoadState};

/// A place at a log, for an actor. Contracts see it as the names of the log's cells, the actor, the last number that it
/// was given, and its list of entries.
#[derive(Drop)]
pub struct Seat<'l, 'g, J: Naming> {
    log: &'l Log<J>,
    alloc: Global,
    actor: u32,
    pub(crate) last: u32,
    replay: Replay<'l, 'g, J>,
    notes: Vec<Note<Sealed<J>>>,
}

impl<'l, 'g, J: Naming> Model for Seat<'l, 'g, J> {
    ghost use Rattle.std.specs.Prelude.{◌≡◌, length};
    ghost use Rattle.traffic_share.specs.Seats.{Place};
    ghost use Rattle.traffic_share.specs.Notes.{Keeps};

    ghost Value = { Place };

    ghost view = { λ s. record { cells = s.log.now; actor = s.actor; last = s.last; entries = s.replay.entries } };

    ghost invariant = { λ s. Keeps s.log.now s.notes.items s.replay.entries × (s.replay.state.room ≡ length s.log.now) };
}

impl<'l, 'g, J: Naming> Seat<'l, 'g, J> {
    /// A seat with the empty list. It takes all the memory that its list will ever need.
    pub fn new(
        alloc: Global,
        log: &'l Log<J>,
        ground: &'g Ground,
        actor: u32,
    ) -> Result<Seat<'l, 'g, J>, NoMemory>
        requires { ground.now ≡ J.land }
        ensures cells { IfOk result (λ seat. seat.cells ≡ log.now) }
        ensures actor { IfOk result (λ seat. seat.actor ≡ actor) }
        ensures last { IfOk result (λ seat. seat.last ≡ 0) }
        ensures entries { IfOk result (λ seat. seat.entries ≡ []) }
    {
        let capacity = log.capacity();
        let replay = Replay::new(alloc, ground, capacity)?;
        let mut notes = Vec::with_capacity(alloc, capacity as usize)?;
        for place in 0..capacity {
            notes.push(log.cell(place).note())?;
        }
        Ok(Seat {
            log,
            alloc,
            actor,
            last: 0,
            replay,
            notes,
        })
    }

    /// The number of entries of the list.
    pub fn len(&self) -> u32
        ensures { result ≡ length self.now.entries }
    {
        self.replay.len()
    }

    /// The list has no more entries than the log has cells.
    pub fn list_fits(&self)
        ensures { length self.now.entries ≤ length self.now.cells }
    {
        let _count = self.notes.len();
    }

    pub fn is_empty(&self) -> bool
        ensures { IsTrue result ↔ (length self.now.entries ≡ 0) }
    {
        self.len() == 0
    }

    /// Whether the log has no cell behind the list.
    pub fn is_full(&self) -> bool
        ensures full { IsTrue result ↔ IsFull self.now }
        ensures room { result ≡ false → length self.now.entries < length self.now.cells }
        ensures few { length self.now.cells < 2 ^ 32 }
    {
        self.len() >= self.log.capacity()
    }

    pub fn actor(&self) -> u32
        ensures { result ≡ self.now.actor }
    {
        self.actor
    }

    /// The entry at a place, counted from 1.
    pub fn entry(&self, place: u32) -> &Entry
        requires from_one { 1 ≤ place }
        requires there { place ≤ length self.now.entries }
        ensures is { slice_get self.now.entries (place - 1) ≡ Some result.now }
        ensures holds { IsTrueEntry J.land result.now }
    {
        self.replay.at(place - 1)
    }

    /// The state of the roads after the list.
    pub fn state(&self) -> &RoadState<'g>
        ensures stands { Stands result.now self.now.entries }
        ensures land { result.now.land ≡ J.land }
    {
        self.replay.state()
    }

    /// The roads before any entry.
    pub fn ground(&self) -> &'g Ground
        ensures { result.now ≡ J.land }
    {
        self.replay.state().ground()
    }

    /// Takes the entries that stand in the log behind the list. It stays at an entry that isn't one of the roads.
    /// It takes no memory.
    pub fn catch_up(&mut self)
        ensures same { HasSameSeat self.old self.new }
        ensures longer { StartsWith self.new.entries self.old.entries }
    {
        for _ in self.len()..self.log.capacity() {
            if self.is_full() || self.take_next().is_none() {
                break;
            }
        }
    }

    /// Takes the entry behind the list, if there is one, and it is one of the roads.
    fn take_next(&mut self) -> Option<&'l Entry>
        requires { length self.old.entries < length self.old.cells }
        ensures same { HasSameSeat self.old self.new }
        ensures next { MatchOption result (self.new.entries ≡ self.old.entries) (λ e. self.new.entries ≡ self.old.entries ++ e.now ∷ []) }
    {
        let place = self.len();
        let cell = self.log.cell(place);
        let found = cell.get_as(&mut self.notes[place as usize])?.entry();
        if !self.replay.can_take(found) {
            return None;
        }
        self.replay.take(found);
        Some(found)
    }

    /// Puts an entry behind the list, this one or that which another call had put there, and answers whether it is this
    /// one. `NoMemory` is also the answer where that other entry isn't one of the roads.
    pub(crate) fn offer(&mut self, mine: &Sealed<J>) -> Result<bool, NoMemory>
        requires { length self.old.entries < length self.old.cells }
        ensures same { HasSameSeat self.old self.new }
        ensures mine { result ≡ Ok true → self.new.entries ≡ self.old.entries ++ mine.now ∷ [] }
        ensures other { result ≡ Ok false → IsOther mine.now self.old.entries self.new.entries }
        ensures err { OnErr result (self.new.entries ≡ self.old.entries) }
    {
        let found = self.find(mine.again()?)?;
        Ok(found.is_same(mine.entry()))
    }

    /// Puts an entry into the cell behind the list, if it is empty, and takes the one that stands there then.
    fn find(&mut self, mine: Sealed<J>) -> Result<&'l Entry, NoMemory>
        requires { length self.old.entries < length self.old.cells }
        ensures same { HasSameSeat self.old self.new }
        ensures ok { IfOk result (λ e. self.new.entries ≡ self.old.entries ++ e.now ∷ []) }
        ensures err { OnErr result (self.new.entries ≡ self.old.entries) }
    {
        let place = self.len();
        let alloc = self.alloc;
        let cell = self.log.cell(place);
        let found = cell.get_or_try_init_as(
            move || -> Result<Box<Sealed<J>>, NoMemory> { Ok(Box::new(alloc, mine)?) },
            &mut self.notes[place as usize],
        )?;
        let found = found.entry();
        if !self.replay.can_take(found) {
            return Err(NoMemory);
        }
        self.replay.take(found);
        Ok(found)
    }

    /// Shows that of two lists one begins with the other. It takes no memory.
    pub fn meet(&mut self, other: &mut Seat<'l, 'g, J>)
        requires { self.old.cells ≡ other.old.cells }
        ensures same { self.new ≡ self.old }
        ensures other { other.new ≡ other.old }
        ensures one { AreOfOne self.new.entries other.new.entries }
    {
        for place in 0..self.len().min(other.len()) {
            self.agree(other, place);
        }
    }

    /// Shows that two lists have one entry at a place, counted from 0.
    fn agree(&mut self, other: &mut Seat<'l, 'g, J>, place: u32)
        requires cells { self.old.cells ≡ other.old.cells }
        requires here { place < length self.old.entries }
        requires there { place < length other.old.entries }
        ensures same { self.new ≡ self.old }
        ensures other { other.new ≡ other.old }
        ensures one { (d : Entry) → slice_index_or self.old.entries place d ≡ slice_index_or other.old.entries place d }
    {
        let theirs = other.notes[place as usize].again();
        self.notes[place as usize].compare(theirs);
    }

    /// Takes what the other list has behind this one. The list is then the longer of the two. It takes no memory.
    pub fn learn(&mut self, other: &mut Seat<'l, 'g, J>)
        requires { self.old.cells ≡ other.old.cells }
        ensures same { HasSameSeat self.old self.new }
        ensures other { other.new ≡ other.old }
        ensures longer { self.new.entries ≡ longer self.old.entries other.old.entries }
        ensures mine { StartsWith self.new.entries self.old.entries }
        ensures theirs { StartsWith self.new.entries other.old.entries }
    {
        self.meet(other);
        if self.len() < other.len() {
            for _ in self.len()..other.len() {
                self.copy_next(other);
            }
        }
    }

    /// Takes the next entry of the other list.
    fn copy_next(&mut self, other: &mut Seat<'l, 'g, J>)
        requires cells { self.old.cells ≡ other.old.cells }
        requires there { length self.old.entries < length other.old.entries }
        ensures same { HasSameSeat self.old self.new }
        ensures other { other.new ≡ other.old }
        ensures next { (d : Entry) → self.new.entries ≡ self.old.entries ++ slice_index_or other.old.entries (length self.old.entries) d ∷ [] }
    {
        let place = self.len();
        let note = other.notes[place as usize].again();
        let entry = other.replay.at(place);
        self.notes[place as usize] = note;
        self.replay.take(entry);
    }
}

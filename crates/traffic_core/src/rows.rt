//! Limits that were changed, each in a row. Rows are found from a table of heads, and those of one head are linked,
//! the latest first.
ghost use Rattle.std.specs.Prelude.{◌≡◌, ◌+◌, ◌<◌, ◌≤◌, [], length, IfOk, MatchOption};
ghost use Rattle.traffic_core.specs.Rows.{head_of, HasNoRow, IsRowOf, IsChangedLimit, SetsLimit};

use gh_base::NoMemory;
use std::alloc::Global;
use std::marker::Model;

/// A changed limit, by its place in the list of limits, and the row before it of the same head.
#[derive(Clone, Copy)]
pub(crate) struct Row {
    place: usize,
    speed: u32,
    next: Option<u32>,
}

/// Contracts see it as its rows, and how many there may be.
#[derive(Drop)]
pub(crate) struct ChangedLimits {
    heads: Vec<Option<u32>>,
    rows: Vec<Row>,
    room: u32,
}

impl Model for ChangedLimits {
    ghost use Rattle.std.specs.Prelude.{◌≤◌, vec_capacity};
    ghost use Rattle.traffic_core.specs.Rows.{Rows, AreLinked};

    ghost Value = { Rows };

    ghost view = { λ c. record { rows = c.rows.items; room = c.room } };

    ghost invariant = { λ c. AreLinked c.heads.items c.rows.items × (c.room ≤ vec_capacity c.rows) };
}

impl ChangedLimits {
    /// Takes all room for rows, and about two heads for each.
    pub(crate) fn with_room(alloc: Global, room: u32) -> Result<ChangedLimits, NoMemory>
        ensures rows { IfOk result (λ changed. changed.rows ≡ []) }
        ensures room { IfOk result (λ changed. changed.room ≡ room) }
    {
        let rows = Vec::with_capacity(alloc, room as usize)?;
        let heads = vec![in alloc; None; heads_for(room)]?;
        Ok(ChangedLimits { heads, rows, room })
    }

    /// The changed limit of a place, or none where it wasn't changed.
    pub(crate) fn get(&self, place: usize) -> Option<u32>
        ensures { IsChangedLimit self.now.rows place result }
    {
        // While no limit was changed, no head is looked at.
        if self.rows.is_empty() {
            return None;
        }
        let number = self.find(place)?;
        Some(self.rows[number as usize].speed)
    }

    /// Sets the limit of a place. It takes a row where the place has none.
    pub(crate) fn set(&mut self, place: usize, speed: u32)
        requires { length self.old.rows < self.old.room }
        ensures limits { SetsLimit self.old.rows self.new.rows place speed }
        ensures rows { length self.new.rows ≤ length self.old.rows + 1 }
        ensures room { self.new.room ≡ self.old.room }
    {
        match self.find(place) {
            Some(number) => {
                let mut row = self.rows[number as usize];
                row.speed = speed;
                self.rows[number as usize] = row;
            }
            None => self.add(place, speed),
        }
    }

    fn add(&mut self, place: usize, speed: u32)
        requires room { length self.old.rows < self.old.room }
        requires fresh { HasNoRow self.old.rows place }
        ensures limits { SetsLimit self.old.rows self.new.rows place speed }
        ensures rows { length self.new.rows ≡ length self.old.rows + 1 }
        ensures room { self.new.room ≡ self.old.room }
    {
        let head = head_of_place(self.heads.len(), place);
        let number = self.rows.len() as u32;
        let next = self.heads[head];
        self.rows.push_reserved(Row { place, speed, next });
        self.heads[head] = Some(number);
    }

    /// The number of the row of a place.
    fn find(&self, place: usize) -> Option<u32>
        ensures { MatchOption result (HasNoRow self.now.rows place) (IsRowOf self.now.rows place) }
    {
        let mut next = self.heads[head_of_place(self.heads.len(), place)];
        while let Some(number) = next {
            let row = self.rows[number as usize];
            if row.place == place {
                return Some(number);
            }
            next = row.next;
        }
        None
    }
}

/// How many heads there are for so many rows: about twice as many, and a power of two.
fn heads_for(room: u32) -> usize
    ensures { 0 < result }
{
    let most = room as usize;
    (most + most / 2 + 1).next_power_of_two()
}

/// The head of a place, of so many.
fn head_of_place(heads: usize, place: usize) -> usize
    requires { 0 < heads }
    ensures head { result ≡ head_of heads place }
    ensures within { result < heads }
{
    place & (heads - 1)
}

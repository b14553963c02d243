//! Lists of entries.
ghost use Rattle.std.specs.Prelude.{◌≡◌, ℕ, ◌-◌, ◌≤◌, List, [], ◌∷◌, ◌++◌, length, Some, slice_get, OnErr, OnOk};
ghost use Rattle.traffic_core.specs.declared.entry.Entry.{Entry};

use crate::entry::Entry;
use gh_base::NoMemory;
use std::alloc::Global;
use std::marker::Model;

/// A list of entries, each by its place from 1.
pub trait Entries {
    ghost entries: { Self → List Entry };

    fn entry(&self, place: u32) -> &Entry
        requires from_one { 1 ≤ place }
        requires within { place ≤ length (entries self.now) }
        ensures { slice_get (entries self.now) (place - 1) ≡ Some result.now };
}

/// Entries in memory. Contracts see the list.
#[derive(Drop)]
pub struct EntryList {
    entries: Vec<Entry>,
}

impl Model for EntryList {
    ghost use Rattle.std.specs.Prelude.{List};
    ghost use Rattle.traffic_core.specs.declared.entry.Entry.{Entry};

    ghost Value = { List Entry };

    ghost view = { λ list. list.entries.items };
}

impl EntryList {
    /// The empty list. It takes no memory.
    pub fn new(alloc: Global) -> EntryList
        ensures { result ≡ [] }
    {
        EntryList {
            entries: Vec::new(alloc),
        }
    }

    /// Appends an entry. After `NoMemory` the list is as before.
    pub fn push(&mut self, entry: Entry) -> Result<(), NoMemory>
        ensures ok { OnOk result (self.new ≡ self.old ++ entry ∷ []) }
        ensures err { OnErr result (self.new ≡ self.old) }
    {
        self.entries.push(entry).map_err(|_| NoMemory)
    }
}

impl Entries for EntryList {
    ghost entries = { λ list. list };

    fn entry(&self, place: u32) -> &Entry {
        &self.entries[place as usize - 1]
    }
}

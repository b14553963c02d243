//! The log: a fixed number of cells, each set at most once.
ghost use Rattle.std.specs.Prelude.{◌≡◌, ℕ, ◌<◌, length, IfOk, slice_index_or};
ghost use Rattle.once_cell.specs.Once.{cell_name};

use crate::sealed::{Naming, Sealed};
use gh_base::NoMemory;
use once_cell::race::OnceBox;
use std::alloc::Global;
use std::marker::Model;

/// Cells for entries, which seats append to and read in threads. Contracts see a log as the list of its cells' names:
/// no two logs have the same.
#[derive(Drop)]
pub struct Log<J: Naming> {
    cells: Vec<OnceBox<Sealed<J>>>,
    capacity: u32,
}

impl<J: Naming> Model for Log<J> {
    ghost use Rattle.std.specs.Prelude.{◌≡◌, ℕ, List, length, map};
    ghost use Rattle.once_cell.specs.Once.{cell_name};

    ghost Value = { List ℕ };

    ghost view = { λ l. map cell_name l.cells.items };

    ghost invariant = { λ l. length l.cells.items ≡ l.capacity };
}

impl<J: Naming> Log<J> {
    /// A log with so many cells, all of them empty.
    pub fn new(alloc: Global, capacity: u32) -> Result<Log<J>, NoMemory>
        ensures { IfOk result (λ log. length log ≡ capacity) }
    {
        let mut cells = Vec::with_capacity(alloc, capacity as usize)?;
        for _ in 0..capacity {
            cells.push(OnceBox::new(alloc))?;
        }
        Ok(Log { cells, capacity })
    }

    pub fn capacity(&self) -> u32
        ensures { result ≡ length self.now }
    {
        self.capacity
    }

    /// The cell at a place, counted from 0.
    pub(crate) fn cell(&self, place: u32) -> &OnceBox<Sealed<J>>
        requires { place < length self.now }
        ensures { (d : ℕ) → cell_name result.now ≡ slice_index_or self.now place d }
    {
        &self.cells[place as usize]
    }
}

//! Rows, and the lists of half-edges that their links are.
ghost use Rattle.std.specs.Prelude.{◌≡◌, ◌<◌, ◌*◌, ◌==◌, [], ◌∷◌, ◌++◌, length, slice_index, if◌then◌else◌, OnOk, OnErr};
ghost use Rattle.segment_graph.specs.Halves.{link_below};
ghost use Rattle.segment_graph.specs.Rows.{AreLinked, linked_row, tower_by};
ghost use Rattle.segment_graph.specs.Facts.{AreLinked-prop};

use crate::row::EdgeRow;
use crate::rows::EdgeRows;
use crate::word_list::WordList;
use base_graph::EdgeEnds;
use gh_base::{NoMemory, NodeId};
use std::alloc::Global;

/// Rows of edges, and for each tower the link that begins its list, its head.
///
/// The towers 0, 1 and 2 with edges from 0 to 1, from 1 to 0 and from 1 to 2:
///
///     tower 0   head 4   half-edges 3 (1-) and 0 (0+)
///     tower 1   head 5   half-edges 4 (2+), 2 (1+) and 1 (0-)
///     tower 2   head 6   half-edge 5 (2-)
#[derive(Drop)]
pub struct Links {
    pub heads: WordList,
    pub rows: EdgeRows,
    ghost linked: { AreLinked heads rows } by { AreLinked-prop heads rows },
}

impl Links {
    /// No towers and no edges. It takes no memory.
    pub fn new(alloc: Global) -> Links
        ensures heads { result.heads ≡ [] }
        ensures rows { result.rows ≡ [] }
    {
        Links {
            heads: WordList::new(alloc),
            rows: EdgeRows::new(alloc),
        }
    }

    /// Adds a tower that nothing leaves. After `NoMemory` all is as before.
    pub fn add_tower(&mut self) -> Result<(), NoMemory>
        requires { length self.old.heads < 2000000 }
        ensures ok { OnOk result (self.new.heads ≡ self.old.heads ++ 0 ∷ []) }
        ensures err { OnErr result (self.new.heads ≡ self.old.heads) }
        ensures rows { self.new.rows ≡ self.old.rows }
    {
        self.heads.append(&[0])
    }

    /// Adds an edge, whose half-edges then begin the lists of its towers. After `NoMemory` all is
    /// as before.
    pub fn add_edge(
        &mut self,
        ends: EdgeEnds,
        first_point: u32,
        end_point: u32,
    ) -> Result<(), NoMemory>
        requires few { length self.old.rows < 4000000 }
        requires base { ends.base.0 < length self.old.heads }
        requires adjacent { ends.adjacent.0 < length self.old.heads }
        ensures ok { OnOk result (self.new.rows ≡ self.old.rows
            ++ linked_row self.old.heads (length self.old.rows) ends first_point end_point ∷ []) }
        ensures err { OnErr result (self.new.rows ≡ self.old.rows) }
        ensures towers { length self.new.heads ≡ length self.old.heads }
    {
        let count = self.rows.len();
        let row = self.linked(ends, first_point, end_point);
        self.rows.push(row)?;
        self.heads.set(ends.base.0 as usize, 2 * count + 1);
        self.heads.set(ends.adjacent.0 as usize, 2 * count + 2);
        Ok(())
    }

    /// The row of a new edge, before any list leads to it.
    fn linked(&self, ends: EdgeEnds, first_point: u32, end_point: u32) -> EdgeRow
        requires base { ends.base.0 < length self.now.heads }
        requires adjacent { ends.adjacent.0 < length self.now.heads }
        ensures { result
            ≡ linked_row self.now.heads (length self.now.rows) ends first_point end_point }
    {
        let forward = 2 * self.rows.len() + 1;
        let next_at_base = self.heads.get(ends.base.0 as usize);
        EdgeRow {
            base: ends.base,
            adjacent: ends.adjacent,
            mm: ends.mm,
            next_at_base,
            next_at_adjacent: self.head_after(ends.adjacent, ends.base, forward),
            first_point,
            end_point,
        }
    }

    /// The link that begins a tower's list once another's begins with this link.
    fn head_after(&self, tower: NodeId, other: NodeId, link: u32) -> u32
        requires { tower.0 < length self.now.heads }
        ensures { result
            ≡ (if tower.0 == other.0 then link else slice_index self.now.heads tower.0) }
    {
        if tower.0 == other.0 {
            link
        } else {
            self.heads.get(tower.0 as usize)
        }
    }

    /// The link that begins a tower's list.
    pub fn head(&self, tower: NodeId) -> u32
        requires { tower.0 < length self.now.heads }
        ensures { result ≡ link_below (tower_by self.now.rows) tower.0 (2 * length self.now.rows) }
    {
        self.heads.get(tower.0 as usize)
    }

    /// The link behind a half-edge in its list.
    pub fn behind(&self, half: u32) -> u32
        requires { half < 2 * length self.now.rows }
        ensures { result ≡ link_below (tower_by self.now.rows) (tower_by self.now.rows half) half }
    {
        self.rows.next(half)
    }
}

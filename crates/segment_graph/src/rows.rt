//! The table of rows.
ghost use Rattle.std.specs.Prelude.{◌≡◌, ◌<◌, ◌≤◌, ◌+◌, ◌*◌, ◌/◌, ◌%◌, ◌==◌, [], ◌∷◌, ◌++◌, length, OnOk, OnErr};
ghost use Rattle.segment_graph.specs.Rows.{row_at, row_of, ends_of, next_of, next_on};

use crate::row::EdgeRow;
use crate::word_list::WordList;
use base_graph::EdgeEnds;
use gh_base::{EdgeId, NoMemory, NodeId};
use std::alloc::Global;
use std::marker::Model;

/// How many words a row has. The last one is free.
const ROW_WORDS: usize = 8;

/// Rows by number. Contracts see their list.
#[derive(Drop)]
pub struct EdgeRows {
    words: WordList,
    count: u32,
}

impl Model for EdgeRows {
    ghost use Rattle.std.specs.Prelude.{List};
    ghost use Rattle.segment_graph.specs.declared.row.EdgeRow.{EdgeRow};

    ghost Value = { List EdgeRow };

    ghost use Rattle.std.specs.Prelude.{◌≡◌, ◌*◌, ◌≤◌, length};
    ghost use Rattle.segment_graph.specs.Rows.{rows_of};

    ghost view = { λ a. rows_of a.words a.count };

    ghost invariant = { λ a. (length a.words ≡ 8 * a.count) × (a.count ≤ 4000000) };
}

impl EdgeRows {
    /// No rows. It takes no memory.
    pub fn new(alloc: Global) -> EdgeRows
        ensures { result ≡ [] }
    {
        EdgeRows {
            words: WordList::new(alloc),
            count: 0,
        }
    }

    pub fn len(&self) -> u32
        ensures len { result ≡ length self.now }
        ensures few { result ≤ 4000000 }
    {
        self.count
    }

    pub fn ends(&self, edge: EdgeId) -> EdgeEnds
        requires { edge.0 < length self.now }
        ensures { result ≡ ends_of (row_at self.now edge.0) }
    {
        ends_in(&self.words, edge.0 as usize)
    }

    /// The first point of an edge, and the one behind its last.
    pub fn line(&self, edge: EdgeId) -> (u32, u32)
        requires { edge.0 < length self.now }
        ensures first { result.0 ≡ (row_at self.now edge.0).first_point }
        ensures end { result.1 ≡ (row_at self.now edge.0).end_point }
    {
        line_in(&self.words, edge.0 as usize)
    }

    /// The link behind a half-edge.
    pub fn next(&self, half: u32) -> u32
        requires { half < 2 * length self.now }
        ensures { result ≡ next_of self.now half }
    {
        next_in(&self.words, half as usize)
    }

    /// Puts a row behind the others. After `NoMemory` all is as before.
    pub fn push(&mut self, row: EdgeRow) -> Result<(), NoMemory>
        requires { length self.old < 4000000 }
        ensures ok { OnOk result (self.new ≡ self.old ++ row ∷ []) }
        ensures err { OnErr result (self.new ≡ self.old) }
    {
        let words = [
            row.base.0,
            row.adjacent.0,
            row.mm,
            row.next_at_base,
            row.next_at_adjacent,
            row.first_point,
            row.end_point,
            0,
        ];
        self.words.append(&words)?;
        self.count += 1;
        Ok(())
    }
}

fn ends_in(words: &WordList, edge: usize) -> EdgeEnds
    requires inside { 8 * edge + 8 ≤ length words.now }
    requires few { edge < 4000000 }
    ensures { result ≡ ends_of (row_of words.now edge) }
{
    let row = ROW_WORDS * edge;
    EdgeEnds {
        base: NodeId(words.get(row)),
        adjacent: NodeId(words.get(row + 1)),
        mm: words.get(row + 2),
    }
}

fn line_in(words: &WordList, edge: usize) -> (u32, u32)
    requires inside { 8 * edge + 8 ≤ length words.now }
    requires few { edge < 4000000 }
    ensures first { result.0 ≡ (row_of words.now edge).first_point }
    ensures end { result.1 ≡ (row_of words.now edge).end_point }
{
    let row = ROW_WORDS * edge;
    (words.get(row + 5), words.get(row + 6))
}

/// The link behind a half-edge. Those of an edge stand side by side, so that no side is asked.
fn next_in(words: &WordList, half: usize) -> u32
    requires inside { 8 * (half / 2) + 8 ≤ length words.now }
    requires few { half < 8000000 }
    ensures { result ≡ next_on (half % 2 == 1) (row_of words.now (half / 2)) }
{
    words.get(ROW_WORDS * (half / 2) + 3 + half % 2)
}

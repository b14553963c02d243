//! Words by number, kept in segments.
ghost use Rattle.std.specs.Prelude.{◌≡◌, ◌<◌, ◌≤◌, ◌+◌, ◌*◌, ◌^◌, [], ◌++◌, ℕ, length, take, slice_index, slice_set, OnOk, OnErr};
ghost use Rattle.data_access.specs.Bytes.{u32_at};

use data_access::Segments;
use gh_base::NoMemory;
use std::alloc::Global;
use std::marker::Model;

/// Words in segments. Contracts see their list.
#[derive(Drop)]
pub struct WordList {
    bytes: Segments,
    len: usize,
}

impl Model for WordList {
    ghost use Rattle.std.specs.Prelude.{ℕ, List};

    ghost Value = { List ℕ };

    ghost use Rattle.segment_graph.specs.Words.{words_of, AreWords};

    ghost view = { λ a. words_of a.bytes a.len };

    ghost invariant = { λ a. AreWords a.bytes a.len };
}

impl WordList {
    /// No words. It takes no memory.
    pub fn new(alloc: Global) -> WordList
        ensures { result ≡ [] }
    {
        WordList {
            bytes: Segments::new(alloc),
            len: 0,
        }
    }

    pub fn len(&self) -> usize
        ensures { result ≡ length self.now }
    {
        self.len
    }

    pub fn get(&self, index: usize) -> u32
        requires { index < length self.now }
        ensures { result ≡ slice_index self.now index }
    {
        self.bytes.get_u32(4 * index as u64)
    }

    pub fn set(&mut self, index: usize, word: u32)
        requires { index < length self.old }
        ensures { self.new ≡ slice_set self.old index word }
    {
        self.bytes.set_u32(4 * index as u64, word);
    }

    /// Puts words behind the others. After `NoMemory` all is as before.
    pub fn append(&mut self, row: &[u32]) -> Result<(), NoMemory>
        requires { length self.old + length row.now ≤ 2 ^ 32 }
        ensures ok { OnOk result (self.new ≡ self.old ++ row.now) }
        ensures err { OnErr result (self.new ≡ self.old) }
    {
        let end = self.len + row.len();
        self.bytes.reserve_bytes(4 * end as u64)?;
        put_words(&mut self.bytes, self.len, row);
        self.len = end;
        Ok(())
    }

    /// Forgets the words from a number on.
    pub fn truncate(&mut self, len: usize)
        requires { len ≤ length self.old }
        ensures { self.new ≡ take len self.old }
    {
        self.len = len;
    }
}

/// Writes words from one on.
fn put_words(bytes: &mut Segments, from: usize, row: &[u32])
    requires inside { 4 * (from + length row.now) ≤ length bytes.old }
    requires few { from + length row.now ≤ 2 ^ 32 }
    ensures row { (k : ℕ) → k < length row.now
        → u32_at bytes.new (4 * (from + k)) ≡ slice_index row.now k }
    ensures before { (k : ℕ) → k < from → u32_at bytes.new (4 * k) ≡ u32_at bytes.old (4 * k) }
    ensures len { length bytes.new ≡ length bytes.old }
{
    for (k, word) in row.iter().enumerate() {
        bytes.set_u32(4 * (from + k) as u64, *word);
    }
}

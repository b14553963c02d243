//! A list of words that never moves: it grows by whole segments.
ghost use Rattle.std.specs.Prelude.{◌≡◌, ◌<◌, ◌≤◌, ◌*◌, ◌^◌, [], length, max, slice_index, slice_set, All, IfOk, OnOk, OnErr};
ghost use Rattle.data_access.specs.Bytes.{GrowsByZeros};
ghost use Rattle.data_access.specs.Words.{IsZero};

use gh_base::NoMemory;
use std::alloc::Global;
use std::marker::Model;

/// How many words a segment has: they are 2^20 bytes.
const SEGMENT_WORDS: usize = 262_144;

/// One segment.
#[derive(Drop)]
struct Segment {
    words: Vec<u32>,
}

impl Model for Segment {
    ghost use Rattle.std.specs.Prelude.{ℕ, List};

    ghost Value = { List ℕ };

    ghost view = { λ segment. segment.words.items };
}

/// Words in segments. Contracts see the list of the words. A list that grows copies none of them,
/// only the pointers to its segments.
#[derive(Drop)]
pub struct Words {
    alloc: Global,
    segments: Vec<Segment>,
}

impl Model for Words {
    ghost use Rattle.std.specs.Prelude.{ℕ, List};

    ghost Value = { List ℕ };

    ghost use Rattle.data_access.specs.Words.{words_in, AreSegments};

    ghost view = { λ a. words_in a.segments.items };

    ghost invariant = { λ a. AreSegments a.segments.items };
}

impl Words {
    /// The list of no words. It takes no memory.
    pub fn new(alloc: Global) -> Words
        ensures { result ≡ [] }
    {
        Words {
            alloc,
            segments: Vec::new(alloc),
        }
    }

    pub fn len(&self) -> u64
        ensures len { result ≡ length self.now }
        ensures few { result ≤ 2 ^ 61 }
    {
        SEGMENT_WORDS as u64 * self.segments.len() as u64
    }

    pub fn get(&self, index: usize) -> u32
        requires { index < length self.now }
        ensures { result ≡ slice_index self.now index }
    {
        let segment = &self.segments[index / SEGMENT_WORDS];
        segment.words[index % SEGMENT_WORDS]
    }

    pub fn set(&mut self, index: usize, word: u32)
        requires { index < length self.old }
        ensures { self.new ≡ slice_set self.old index word }
    {
        let segment = &mut self.segments[index / SEGMENT_WORDS];
        segment.words[index % SEGMENT_WORDS] = word;
    }

    /// Sees that there are at least so many segments. New words are 0. After `NoMemory` all is as
    /// before.
    pub fn grow(&mut self, segments: usize) -> Result<(), NoMemory>
        requires { segments ≤ 2 ^ 43 }
        ensures ok { OnOk result (GrowsByZeros self.old self.new) }
        ensures len { OnOk result (length self.new ≡ max (length self.old) (262144 * segments)) }
        ensures err { OnErr result (self.new ≡ self.old) }
    {
        let mut more = zero_segments(self.alloc, segments.saturating_sub(self.segments.len()))?;
        self.segments.append(&mut more)?;
        Ok(())
    }
}

/// So many segments of 0.
fn zero_segments(alloc: Global, count: usize) -> Result<Vec<Segment>, NoMemory>
    ensures count { IfOk result (λ segments. length segments.items ≡ count) }
    ensures long { IfOk result (λ segments. All (λ words. length words ≡ 262144) segments.items) }
    ensures zero { IfOk result (λ segments. All IsZero segments.items) }
{
    let mut segments = Vec::new(alloc);
    for _ in 0..count {
        segments.push(zero_segment(alloc, SEGMENT_WORDS)?)?;
    }
    Ok(segments)
}

/// A segment of so many words 0.
fn zero_segment(alloc: Global, count: usize) -> Result<Segment, NoMemory>
    ensures long { IfOk result (λ words. length words ≡ count) }
    ensures zero { IfOk result IsZero }
{
    Ok(Segment {
        words: vec![in alloc; 0; count]?,
    })
}

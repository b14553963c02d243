//! The bytes, as callers see them.
ghost use Rattle.std.specs.Prelude.{◌≡◌, ◌≤◌, ◌+◌, ◌%◌, ◌^◌, ◌⊎◌, ℕ, [], length, max, OnOk, OnErr};
ghost use Rattle.std.specs.Int.{w16, w32, to_le_bytes, next_multiple_of};
ghost use Rattle.data_access.specs.Bytes.{GrowsByZeros, bytes_with, u16_at, u32_at};

use crate::words::Words;
use gh_base::NoMemory;
use std::alloc::Global;
use std::marker::Model;

/// How many bytes a segment has.
const SEGMENT_BYTES: u64 = 1_048_576;

/// Bytes in segments. Contracts see the list of the bytes; a word is that of its bytes, the lowest
/// first.
#[derive(Drop)]
pub struct Segments {
    words: Words,
}

impl Model for Segments {
    ghost use Rattle.std.specs.Prelude.{ℕ, List};

    ghost Value = { List ℕ };

    ghost use Rattle.data_access.specs.Bytes.{bytes_of};

    ghost view = { λ a. bytes_of a.words };
}

impl Segments {
    /// No bytes. It takes no memory.
    pub fn new(alloc: Global) -> Segments
        ensures { result ≡ [] }
    {
        Segments {
            words: Words::new(alloc),
        }
    }

    /// Sees that there are at least so many bytes, in whole segments of 2^20. New bytes are 0. After
    /// `NoMemory` all is as before.
    pub fn reserve_bytes(&mut self, bytes: u64) -> Result<(), NoMemory>
        requires { bytes ≤ 2 ^ 63 }
        ensures ok { OnOk result (GrowsByZeros self.old self.new) }
        ensures len { OnOk result
            (length self.new ≡ max (length self.old) (next_multiple_of bytes 1048576)) }
        ensures err { OnErr result (self.new ≡ self.old) }
    {
        self.words.grow(bytes.div_ceil(SEGMENT_BYTES) as usize)?;
        Ok(())
    }

    pub fn len(&self) -> u64
        ensures { result ≡ length self.now }
    {
        4 * self.words.len()
    }

    pub fn get_u16(&self, at: u64) -> u16
        requires aligned { at % 2 ≡ 0 }
        requires inside { at + 2 ≤ length self.now }
        ensures { result ≡ u16_at self.now at }
    {
        let word = self.words.get((at / 4) as usize);
        if at % 4 == 0 {
            (word % 65_536) as u16
        } else {
            (word / 65_536) as u16
        }
    }

    pub fn set_u16(&mut self, at: u64, value: u16)
        requires aligned { at % 2 ≡ 0 }
        requires inside { at + 2 ≤ length self.old }
        ensures bytes { self.new ≡ bytes_with self.old at (to_le_bytes w16 value) }
        ensures read { u16_at self.new at ≡ value }
        ensures others { (other : ℕ) → (other + 2 ≤ at) ⊎ (at + 2 ≤ other)
            → u16_at self.new other ≡ u16_at self.old other }
    {
        let index = (at / 4) as usize;
        let word = self.words.get(index);
        let half = u32::from(value);
        let changed = if at % 4 == 0 {
            word / 65_536 * 65_536 + half
        } else {
            half * 65_536 + word % 65_536
        };
        self.words.set(index, changed);
    }

    pub fn get_u32(&self, at: u64) -> u32
        requires aligned { at % 4 ≡ 0 }
        requires inside { at + 4 ≤ length self.now }
        ensures { result ≡ u32_at self.now at }
    {
        self.words.get((at / 4) as usize)
    }

    pub fn set_u32(&mut self, at: u64, value: u32)
        requires aligned { at % 4 ≡ 0 }
        requires inside { at + 4 ≤ length self.old }
        ensures bytes { self.new ≡ bytes_with self.old at (to_le_bytes w32 value) }
        ensures read { u32_at self.new at ≡ value }
        ensures others { (other : ℕ) → (other + 4 ≤ at) ⊎ (at + 4 ≤ other)
            → u32_at self.new other ≡ u32_at self.old other }
    {
        self.words.set((at / 4) as usize, value);
    }
}

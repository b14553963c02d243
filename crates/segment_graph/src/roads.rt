//! The table of values: four words for each edge.
ghost use Rattle.std.specs.Prelude.{◌≡◌, ◌<◌, ◌≤◌, ◌*◌, [], ◌∷◌, ◌++◌, length, take, if◌then◌else◌, OnOk, OnErr};
ghost use Rattle.encoded_values.specs.Values.{AreInRange};
ghost use Rattle.segment_graph.specs.Roads.{road_at, roads_of, along};

use crate::word_list::WordList;
use encoded_values::{DirValues, EdgeValues};
use gh_base::{EdgeId, EdgeWords, NoMemory};
use std::alloc::Global;
use std::marker::Model;
use value_plan::{put_values, take_values};

/// How many words the values of an edge have.
const VALUE_WORDS: usize = 4;

/// Four words for each edge.
#[derive(Drop)]
struct ValueWords {
    words: WordList,
    count: u32,
    ghost whole: { length words ≡ 4 * count },
    ghost few: { count ≤ 4000000 },
}

impl EdgeWords for ValueWords {
    ghost use Rattle.segment_graph.specs.Roads.{value_word};

    ghost edges = { λ a. a.count };

    ghost word_of = { λ a edge index. value_word a.words edge index };

    fn edge_count(&self) -> u32 {
        self.count
    }

    fn word(&self, edge: EdgeId, index: u32) -> u32 {
        self.words
            .get(VALUE_WORDS * edge.0 as usize + index as usize)
    }

    fn set_word(&mut self, edge: EdgeId, index: u32, word: u32) {
        self.words
            .set(VALUE_WORDS * edge.0 as usize + index as usize, word);
    }
}

impl ValueWords {
    /// Puts the values of an edge behind the others. After `NoMemory` all is as before.
    fn push(&mut self, values: &EdgeValues) -> Result<(), NoMemory>
        requires { self.old.count < 4000000 }
        ensures ok { OnOk result (roads_of self.new.words self.new.count
            ≡ roads_of self.old.words self.old.count ++ values.now ∷ []) }
        ensures words { OnErr result (self.new.words ≡ self.old.words) }
        ensures count { OnErr result (self.new.count ≡ self.old.count) }
    {
        self.words.append(&[0; VALUE_WORDS])?;
        let edge = EdgeId(self.count);
        self.count += 1;
        put_values(self, edge, values);
        Ok(())
    }

    /// Forgets the values from an edge on.
    fn truncate(&mut self, count: u32)
        requires { count ≤ self.old.count }
        ensures words { self.new.words ≡ take (4 * count) self.old.words }
        ensures count { self.new.count ≡ count }
    {
        self.words.truncate(VALUE_WORDS * count as usize);
        self.count = count;
    }
}

/// The values of each edge, by number. Contracts see their list.
#[derive(Drop)]
pub struct Roads {
    kept: ValueWords,
}

impl Model for Roads {
    ghost use Rattle.std.specs.Prelude.{List};
    ghost use Rattle.encoded_values.specs.Values.{TwoValues};

    ghost Value = { List TwoValues };

    ghost use Rattle.segment_graph.specs.Roads.{roads_of};

    ghost view = { λ a. roads_of a.kept.words a.kept.count };
}

impl Roads {
    /// No values. It takes no memory.
    pub fn new(alloc: Global) -> Roads
        ensures { result ≡ [] }
    {
        Roads {
            kept: ValueWords {
                words: WordList::new(alloc),
                count: 0,
            },
        }
    }

    pub fn get(&self, edge: EdgeId, reverse: bool) -> DirValues
        requires edge { edge.0 < length self.now }
        requires in_range { AreInRange (along (road_at self.now edge.0) reverse) }
        ensures { result ≡ along (road_at self.now edge.0) reverse }
    {
        take_values(&self.kept, edge, reverse)
    }

    /// Puts the values of an edge behind the others. After `NoMemory` all is as before.
    pub fn push(&mut self, values: &EdgeValues) -> Result<(), NoMemory>
        requires { length self.old < 4000000 }
        ensures ok { OnOk result (self.new ≡ self.old ++ values.now ∷ []) }
        ensures err { OnErr result (self.new ≡ self.old) }
    {
        self.kept.push(values)
    }

    /// Forgets the values from an edge on.
    pub fn truncate(&mut self, count: u32)
        requires { count ≤ length self.old }
        ensures { self.new ≡ take count self.old }
    {
        self.kept.truncate(count);
    }
}

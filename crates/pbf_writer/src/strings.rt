//! The strings that a block uses.
ghost use Rattle.std.specs.Prelude.{◌≡◌, [], OnOk, IfOk};
ghost use Rattle.pbf_wire.specs.Writing.{index_of};
ghost use Rattle.pbf_writer.specs.Strings.{spelled, with_word, IsText};

use gh_base::NoMemory;
use indexmap::IndexSet;
use pbf_wire::put_bytes;
use std::alloc::Global;

/// The strings that a block uses, and their table as it is written so far.
#[derive(Drop)]
pub(crate) struct Strings<'a> {
    pub(crate) words: IndexSet<&'a str>,
    pub(crate) text: Vec<u8>,
}

impl<'a> Strings<'a> {
    pub(crate) fn new(alloc: Global) -> Strings<'a>
        ensures words { spelled result.words ≡ [] }
        ensures text { result.text.items ≡ [] }
    {
        Strings {
            words: IndexSet::new(alloc),
            text: Vec::new(alloc),
        }
    }

    /// The place of a string in the table, where it goes last if it is new.
    pub(crate) fn place(&mut self, word: &'a str) -> Result<u64, NoMemory>
        ensures words { OnOk result (spelled self.new.words ≡ with_word (spelled self.old.words) word.now) }
        ensures text { OnOk result (IsText self.old → IsText self.new) }
        ensures place { IfOk result (λ place. place ≡ index_of (spelled self.new.words) word.now) }
    {
        let (place, is_new) = self.words.insert_full(word)?;
        if is_new {
            put_bytes(&mut self.text, 1, word.as_bytes())?;
        }
        Ok(place as u64)
    }
}

//! What an actor was told.
use script_text::Reply;

/// A reply, and the number of entries of the journal that it speaks of.
#[derive(Debug, Drop)]
pub struct Told {
    pub at: u32,
    pub reply: Reply,
}

//! Bytes in segments, read and written as whole words: the storage below a base graph.
//!
//! Promises: a word that was set is the word that is read, and no other byte changes; room that is
//! reserved holds 0, and what was there before stays, byte for byte, where it was. It stands on
//! `gh_base` for the want of memory; how a word is made of bytes stands in `specs/Bytes.antt`.
#![tactic(auto)]

mod segments;
mod words;

pub use segments::Segments;

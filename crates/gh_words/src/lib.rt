//! The words of the command line, read with clap.
//!
//! Promises: the words are refused exactly where `asks` of `specs/Words.antt` is none, and else the request is what it
//! says: clap's own definition of one simple command, and the few refusals that this program adds. Only want of memory
//! can hide an answer.
#![tactic(auto)]

mod convert;
mod counted;
mod generate;
mod numbers;
mod on_map;
mod options;
mod request;
mod words;

pub use request::{Request, WordsFault};
pub use words::read_words;

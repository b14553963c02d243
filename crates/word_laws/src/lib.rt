//! Laws of command lines: which words are a request.
//!
//! It is no part of the program. Stands on `gh_words` for what is read. `specs/Writing.antt` says how a command line
//! is written.
#![tactic(auto)]

mod laws;

pub use laws::{lines_are_read, lines_are_refused};

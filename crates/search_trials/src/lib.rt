//! Tries calls of the crates that search, `search_queue` and `label_certificate`, that no run of the program shows.
//!
//! It is no part of the program: tests stand here since a crate with tests is proved twice. Walks, labels and landmarks are
//! rows of examples/tables.
#![tactic(auto)]

#[cfg(test)]
mod label_certificate_calls;
#[cfg(test)]
mod search_queue_calls;

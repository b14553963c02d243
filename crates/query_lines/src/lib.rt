//! Lines of queries from tower to tower, and the text that answers them.
//!
//! Promises: standard input is read as the queries that its lines are, or its first fault is told
//! with its line and byte (`specs/Queries.antt`, `specs/Lines.antt`); what answers them is written
//! in one piece behind the last answer (`specs/Answering.antt`). Stands on the words of
//! `script_text` and on the statuses of `map_roads`.
#![tactic(auto)]

mod answering;
mod line;
mod queries;
mod reading;

pub use answering::{Answering, answer_lines};
pub use queries::{QueryList, TowerQuery};
pub use reading::read_query_lines;

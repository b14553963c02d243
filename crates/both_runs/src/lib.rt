//! The command that answers query lines over a map by searches from both ends.
//!
//! Promises: the text that `both_map` writes has for each query a least walk between its two
//! towers, with the counts of starts of both sides, or why there is none to give
//! (`specs/Lines.antt`), over the roads of cars at the opening limits, guided by one preparation
//! (`specs/Runs.antt`); each other status has its cause. Stands on `two_way_search` for least
//! walks, on `map_roads` for maps and preparations, and on `query_lines` for queries.
#![tactic(auto)]

mod answer;
mod between;
mod commands;
mod ends;
mod line;

pub use answer::BothAnswer;
pub use commands::both_map;

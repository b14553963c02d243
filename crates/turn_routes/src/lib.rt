//! Least walks that obey turn restrictions.
//!
//! Promises: what is found is a walk between two towers with no banned turn, and none weighs less;
//! none is found exactly where there is none. It searches the roads of `turn_graph`, whose nodes are
//! the directed edges that were passed, with `alt_search`. What a turn walk is stands in `specs/` of
//! `turn_graph`.
#![tactic(auto)]

mod laws;
mod searching;
mod unstated;

pub use laws::weighed_roads_are_over;
pub use searching::search_turns;

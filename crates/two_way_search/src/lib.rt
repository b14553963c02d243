//! Least walks over any view of roads and the same turned round, searched from both ends at once.
//!
//! Promises: a walk that is found is least, and none is found only where there is none; each view
//! is started in its turn, at no node twice, at those that the keys of both sides ask for, and that
//! often is what is told; what lies behind by landmarks is feasible. It stands on the words of
//! `walk_rules`, on what `alt_search` keeps of nodes, and on the bounds of `landmark_prep`. What a
//! key is stands in `specs/Keys.antt`.
#![tactic(auto)]

mod behind;
mod joining;
mod meeting;
mod searching;
mod side;
mod turns;

pub use behind::Behind;
pub use searching::{Both, search_both};

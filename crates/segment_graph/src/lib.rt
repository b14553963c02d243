//! The base graph in segments: the calls of `base_graph`, over tables of words that grow by whole
//! segments and never move.
//!
//! Promises what `BaseGraph` does, clause for clause. What a search reads of an edge is one row of
//! eight words; round each tower half-edges stand in a list of links, in which each link leads to
//! an older half-edge, so that lists end and a loop edge stands in them twice. Stands on
//! `data_access` for words and on `value_plan` for values in words; lists stand in
//! `specs/Halves.antt`.
#![tactic(auto)]

mod around;
mod graph;
mod links;
mod lists;
mod roads;
mod row;
mod rows;
mod word_list;

pub use around::Around;
pub use base_graph::{EdgeEnds, GraphFault};
pub use graph::SegmentGraph;

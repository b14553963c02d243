//! The base graph: towers by number with their places, and edges by number with their ends, length,
//! points and values.
//!
//! Promises: round each tower stands each directed edge that starts there, once, and no other; ends
//! of edges are towers; all points are on the earth, all values in their ranges. These are facts of
//! the type, defined in `specs/Graphs.antt`. Stands on `gh_base` for numbers and points, and on `encoded_values`.
#![tactic(auto)]

mod around;
mod faults;
mod graph;
mod lists;

pub use around::Around;
pub use faults::GraphFault;
pub use graph::{BaseGraph, EdgeEnds};

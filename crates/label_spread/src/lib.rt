//! Labels: the distances from a node to each and from each to a node, cut at 2^62.
//!
//! Promises: a label is the lesser of the least weight of a walk and 2^62, and it is there exactly where
//! there is a walk; `GrainView` shows the same roads with each weight in whole grains. It stands on the
//! exploration of `alt_search`; what labels and grains are stands in `walk_rules`.
#![tactic(auto)]

mod grains;
mod labels;

pub use grains::GrainView;
pub use labels::{labels_from, labels_to};

//! A view of roads between two places that may lie inside edges.
//!
//! `QueryView` adds to a base view a start and a target. Base hops stay as they are, pieces of edges
//! leave the start and enter the target. Its walks from the start to the target are those between
//! the two places (`specs/Between.antt`), and its hops are those of `specs/Joined.antt`. It stands on
//! the views of `gh_base` and the walks of `walk_rules`.
#![tactic(auto)]

mod ends;
mod query_view;

pub use ends::{Leave, Reach};
pub use query_view::QueryView;

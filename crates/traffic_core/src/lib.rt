//! Routes from place to place: what queries run over, and a least walk for each, or why there is none to give.
//!
//! Promises: an answer is right by `specs/Answers.antt` at any limits of the directed edges: a walk is least among
//! all walks between its two places, no route is answered exactly where there is none, and labels show that no walk
//! weighs less. Where places lie stands in `specs/Places.antt`, and which walks there are in `specs/Trips.antt`.
//! Stands on `weighting` for weights, on `location_grid` for the nearest edge, on `query_graph` for pieces of edges,
//! on `alt_search` for least walks and on `label_certificate` for labels.
#![tactic(auto)]

mod edge_index;
mod entries;
mod entry;
mod ground;
mod guiding;
mod history_laws;
mod laws;
mod lengths;
mod pieces;
mod query;
mod routing;
mod rows;
mod spot;
mod state;
mod towers;
mod usable;

pub use edge_index::listed_limit;
pub use entries::{Entries, EntryList};
pub use entry::{Entry, Shared, What};
pub use gh_base::{Place, RouteAnswer};
pub use ground::Ground;
pub use history_laws::{limits_follow_entries, slots_follow_limits};
pub use laws::{answers_agree, lengths_are_those_of_pieces};
pub use lengths::walk_mm;
pub use query::{Query, RouteQuery, model_slows};
pub use routing::{GREATEST_WEIGHT, route};
pub use spot::Spot;
pub use state::RoadState;

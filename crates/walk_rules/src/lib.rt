//! The words on views of roads that all searches share: walks, least walks, feasible potentials,
//! distances, bounded starts and evidence, with their laws.
//!
//! There is no code here but law functions, whose contracts are the laws. Definitions stand in `specs/`.
#![tactic(auto)]

mod laws;
mod row;

pub use laws::{
    bounds_change_by_weights, distances_are_unique, evidence_shows, least_weights_are_unique,
    starts_are_counted, told_weights_show, walks_turn_round,
};
pub use row::row_of_five_in_numbers;

//! Weights of roads: what a profile, and maybe a query's model, make of a directed edge under a traffic limit.
//!
//! Promises: a weight is the exact one of `specs/Weights.antt`; a view's hops are the directed edges with their weights,
//! or the same turned round; under a query that only slows and limits that only fell no weight falls. Stands on
//! `model_eval` for runs of statements, on `base_graph` for edges, and on `walk_rules` for the words on views.
#![tactic(auto)]

mod laws;
mod opening;
mod profile;
mod quotient;
mod weight_view;
mod weighting;

pub use gh_base::Vehicle;
pub use laws::{
    graph_values_are_stored, no_hop_is_faster, no_weight_falls, sides_are_turned,
    sides_turn_along_edges, values_are_stored_in_each_graph, weights_fit,
};
pub use opening::Opening;
pub use profile::{CAR_PROFILE, Profile, Profiles, car_profile};
pub use weight_view::{Side, WeightView};
pub use weighting::Weighting;

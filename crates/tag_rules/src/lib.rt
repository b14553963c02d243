//! What the tags of a way say of its edges: their kind, and how fast each vehicle is in each direction.
//!
//! Promises: the values are those of the tables in `specs/`, and there are none exactly where no vehicle
//! may use the way. Stands on the types of `encoded_values`; the set of barred vehicles is `bitflags`'.
#![tactic(auto)]

mod barred;
mod highways;
mod rules;
mod tables;
mod tags;

pub use rules::values_of;

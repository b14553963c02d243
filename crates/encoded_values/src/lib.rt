//! The values of an edge: what each of its directions is like, and how fast each vehicle is there.
//!
//! Promises: values are in their ranges, a vehicle has access exactly where its speed is above 0, and
//! what doesn't depend on the direction is the same in both. Definitions stand in `specs/Values.antt`.
#![tactic(auto)]

mod edge_values;
mod words;

pub use edge_values::{
    DirValues, EdgeValues, MISSING_MAX_SPEED, both_are_in_range, opening_limit, values_are_in_range,
};
pub use words::{RoadClass, Surface, Toll, road_class_named, surface_named, toll_named};

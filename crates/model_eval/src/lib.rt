//! Custom models: what their statements make of the running speed and the running priority of a directed
//! edge, and in which areas an edge lies (GraphHopper documentation, "Custom models").
//!
//! Promises: of each block the first true branch acts, each action rounds down, a greater start never ends
//! lower, and a slowing model raises nothing. Definitions stand in `specs/`: conditions, statements, models,
//! areas, slowing. Stands on `encoded_values` for what is stored of an edge.
#![tactic(auto)]

mod conditions;
mod custom_model;
mod laws;
mod region;
mod slowing;
mod statements;

pub use conditions::{FlagName, NumberName, Op, Test, TestList, WordName};
pub use custom_model::{
    Action, Area, Areas, Branch, CustomModel, Ring, RingList, Running, Statement, Statements,
    no_model,
};
pub use laws::{keeps_order, slow_runs_raise_nothing, values_are_stored};
pub use region::{areas_of, inside};
pub use slowing::SlowModel;
pub use statements::{priority_of, speed_of};

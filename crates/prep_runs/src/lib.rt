//! The commands that prepare a map and check what was prepared.
//!
//! Promises: what `prep_map` writes is the store of the map's preparation for cars, and `check_map`
//! tells of a store, or its first fault (`specs/Preps.antt`); each other status has its cause
//! (`specs/Statuses.antt`). Stands on `prep_store` for stores and on `map_roads` for maps.
#![tactic(auto)]

mod cars;
mod commands;

pub use commands::{check_map, prep_map};

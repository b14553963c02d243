//! Tries public calls of the storage that nothing stands on yet: `data_access`, `value_plan` and
//! `segment_graph`.
//!
//! It is no part of the program: tests stand here since a crate with tests is proved twice.
#![tactic(auto)]

#[cfg(test)]
mod data_access_calls;
#[cfg(test)]
mod segment_graph_calls;
#[cfg(test)]
mod value_plan_calls;

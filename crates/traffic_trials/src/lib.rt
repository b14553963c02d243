//! Tries calls of the crates of traffic, `traffic_core` and `traffic_share`, that no run of the program shows: what a state
//! refuses, and that a seat which wants memory leaves nothing behind (`bench/seats`).
//!
//! It is no part of the program: tests stand here since a crate with tests is proved twice. Limits, slots and the journal after
//! each change are examples.
#![tactic(auto)]

#[cfg(test)]
mod road;
#[cfg(test)]
mod traffic_core_calls;
#[cfg(test)]
mod traffic_share_calls;

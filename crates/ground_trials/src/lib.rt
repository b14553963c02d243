//! Tries public calls of the crates below all others: `gh_base` and `geo_math`.
//!
//! It is no part of the program: tests stand here since a crate with tests is proved twice.
#![tactic(auto)]

#[cfg(test)]
mod geo_math_calls;
#[cfg(test)]
mod gh_base_calls;

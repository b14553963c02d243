//! Tries whole runs in memory, of `gh_serve`: what fails outside, and what stands then; and that actors run at once.
//!
//! It is no part of the program: tests stand here since a crate with tests is proved twice. Runs that the program
//! itself can show are examples.
#![tactic(auto)]

#[cfg(test)]
mod gh_serve_calls;

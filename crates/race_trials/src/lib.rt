//! Races between two actors of one phase, tried with the top call of `gh_serve`. It is no part of the program.
//!
//! Holds a gate that makes one actor's command wait until the other has answered so many (`turns.rt`). The tests hold either
//! actor of each race, and let both run free many times. What may come of a race is written out there, by hand.
#![tactic(auto)]

mod turns;

pub use turns::{Hold, Turns};

#[cfg(test)]
mod tests;

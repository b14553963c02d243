//! Where landmarks are placed: the largest part of the roads, and in it nodes far from one another.
//!
//! Promises: the least node of the part with most nodes; landmarks each of which is the farthest node
//! from those before it (`specs/Farthest.antt`), which determines them. Parts are nodes that hops with a
//! weight join, whichever way they lead (`specs/Parts.antt`). It stands on the exploration of `alt_search`.
#![tactic(auto)]

mod farthest;
mod groups;
mod parts;

pub use farthest::{Choice, Chosen, choices_are_fronts, choose};
pub use parts::largest_part;

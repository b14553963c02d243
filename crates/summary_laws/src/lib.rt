//! Laws of the summaries of sizes: what `generate` writes doesn't depend on how its threads ran.
//!
//! It is no part of the program: it holds laws alone, in a crate of its own so that no other waits
//! for their proof. Stands on `generated_run`, whose runs it speaks of.
#![tactic(auto)]

mod laws;

pub use laws::sizes_have_one_summary;

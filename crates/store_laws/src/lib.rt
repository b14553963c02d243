//! Laws of stores: that bytes are stored for one preparation at most, and that such bytes have no fault.
//!
//! It is no part of the program. Stands on `prep_store` for what a store is.
#![tactic(auto)]

mod laws;

pub use laws::{stores_are_of_one, stores_have_no_fault};

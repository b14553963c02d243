//! Preparations that are stored, and read back without trust.
//!
//! Promises: what `write_prep` writes are the store's bytes; `read_prep` reads exactly those bytes that are stored for a
//! preparation, which is then true over the ground, and of all others it names the first fault. What a store is stands in
//! `specs/Stores.antt`, why a list shows that its labels are distances in `specs/Evidence.antt`, and the faults in
//! `specs/FirstFaults.antt`. Stands on `landmark_prep` for where landmarks stand, and on `traffic_core` for the ground.
#![tactic(auto)]

mod fault;
mod head;
mod hops;
mod item;
mod laws;
mod listed;
mod listing;
mod lists;
mod ordering;
mod placing;
mod reading;
mod texts;
mod units;
mod writing;

pub use fault::PrepFault;
pub use item::{Item, Which};
pub use laws::{evidence_tells_labels, stored_is_true, stores_are_read_again};
pub use reading::read_prep;
pub use writing::write_prep;

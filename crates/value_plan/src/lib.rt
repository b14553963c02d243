//! The plan of an edge's values: which bits of its four words each of them has.
//!
//! Promises: slots of a plan share no bit, so what one sets no other reads; a value that is set is the
//! value that is read; a slot beyond the 128 bits is refused, and the plan then is as before. A
//! road's own values have a plan of 77 bits, and are taken from an edge's words as they were put
//! there. It stands on `gh_base` for those words, and on `encoded_values` for what a road is like.
//! Slots stand in `specs/Slots.antt`, a road's in `specs/Road.antt`.
#![tactic(auto)]

mod faults;
mod numbers;
mod packed;
mod plan;
mod road;
mod slots;
mod taken;

pub use faults::PlanFault;
pub use plan::Plan;
pub use road::{put_values, road_plan};
pub use slots::{Slot, get, set};
pub use taken::take_values;

//! Whether a query's model only slows its profile (GraphHopper documentation, "Landmarks").
//!
//! Promises: a model is taken exactly where no factor is above 1, an expression counted at its greatest
//! value, and the influence of distance isn't below the profile's; else the first offender is named. The
//! definition is `Slowing` of `model_eval`.
#![tactic(auto)]

mod checking;

pub use checking::{Speeding, check, offenders_are_exact, plain};

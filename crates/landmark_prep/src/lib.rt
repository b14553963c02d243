//! Preparations of landmarks: their labels, spread on threads, and the bounds that these give (ALT).
//!
//! Promises: `make_prep` gives the one preparation that the definition names (`specs/Preparations.antt`),
//! whatever the threads do; a bound is no more than the weight of each walk to the target, and there is
//! none only where there is no walk; the potential is feasible for each network that is no faster than
//! one that the labels fit. It stands on `label_spread`, `landmark_choice` and the ends of `query_graph`.
#![tactic(auto)]

mod active;
mod bounds;
mod labels;
mod landmark_potential;
mod laws;
mod making;
mod preparation;
mod spreading;

pub use active::Active;
pub use labels::LabelTable;
pub use landmark_choice::Chosen;
pub use landmark_potential::{Goal, LandmarkPotential};
pub use laws::{
    active_landmarks_are_one, preparations_are_one, preparations_fit, prepared_roads_are_open,
};
pub use making::{Made, Placing, make_prep, place_landmarks};
pub use preparation::{Prep, of_parts};

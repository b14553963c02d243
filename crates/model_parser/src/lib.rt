//! Custom models from JSON (GraphHopper documentation, "Custom models"; RFC 7946 for areas).
//!
//! Promises: what is read is the model that a value is, or its first fault with part, item and byte, in the order
//! top, areas, speed, priority, distance influence; and what is read meets all that the running of models asks of
//! one. Definitions stand in `specs/`: `ModelText.antt` first, then statements, features, rings, outlines. Stands on
//! `exact_json` for values, on `model_texts` for conditions and actions, on `model_eval` for models.
#![tactic(auto)]

mod fault;
mod features;
mod model_text;
mod outlines;
mod rings;
mod statements;
mod values;

pub use fault::ModelFault;
pub use gh_base::{ModelKind, Part, Place3};
pub use model_text::parse_model;

//! Laws of custom models: what is written of a condition, of an action and of a whole model is read as it; each name,
//! word and operator, and faults, by texts and what they are; what a list of statements makes of a number.
//!
//! It is no part of the program. Stands on `model_texts` for what a text is, on `model_parser` for what an object is,
//! and on `model_eval` for what statements do. `specs/` has the laws.
#![tactic(auto)]

mod laws;

pub use laws::{
    actions_are_read, actions_are_so, chains_are_run, condition_faults_stand_so,
    conditions_are_read, conditions_are_so, models_are_read, names_are_so, orphans_are_refused,
    words_are_so,
};

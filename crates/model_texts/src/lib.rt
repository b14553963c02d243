//! The texts inside a custom model: conditions, and the values of actions (GraphHopper documentation, "Custom
//! models").
//!
//! Promises: what is read is the condition or the action that a text is, or its first fault with its byte; a
//! condition names only areas that are there, and an expression scales by at most 10. Definitions stand in
//! `specs/`: tokens, words, amounts, conditions, actions. Stands on `model_eval` for what is read and on
//! `exact_json` for reading from the left.
#![tactic(auto)]

mod actions;
mod amounts;
mod conditions;
mod fault;
mod laws;
mod tokens;
mod words;

pub use actions::{action_of, plain_action};
pub use amounts::{Verb, decimal, most_of, places_of, within};
pub use conditions::read_condition;
pub use fault::{BadText, ConditionFault};
pub use gh_base::ModelKind;
pub use laws::conditions_group_so;
pub use tokens::{begins_word, in_word};

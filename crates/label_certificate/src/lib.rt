//! Evidence for what a search answered, and checks of it that trust nobody.
//!
//! Promises: what a check accepts shows that no walk weighs less, or that there is none; a refusal is
//! exact, with the first hop that is violated; and the labels that are made here for a least walk are
//! accepted. The words, `IsEvidence` and `IsClosed`, stand in `walk_rules`; the reasons of a refusal
//! in `specs/Refuting.antt`.
#![tactic(auto)]

mod checking;
mod hop_test;
mod labelling;
mod node_set;
mod refuted;

pub use checking::{check_none, check_walk};
pub use labelling::labels_of;
pub use node_set::NodeSet;
pub use refuted::Refuted;

//! Turn restrictions of a map as it is written.
//!
//! Promises: what is read are exactly the restrictions of the bytes, in their order; a relation that
//! isn't of the form, or is none, is passed over. Definitions stand in `specs/`: what makes a
//! relation a restriction (Restricting), and which relations the lines of a plain map are
//! (PlainRelations). Stands on the words of `plain_map` and on `turn_graph`.
#![tactic(auto)]

mod lines;
mod members;
mod relation;

pub use lines::read_plain_turns;
pub use relation::{Member, MemberKind, MemberList, Relation, turn_of};

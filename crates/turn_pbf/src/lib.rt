//! Turn restrictions of OpenStreetMap PBF files.
//!
//! Promises: what is read are exactly the restrictions among the relations of the file, in their order; a
//! relation that isn't of the form is passed over. Definitions stand in `specs/`: relations (PbfRelations)
//! and where they stand (PbfTurns). Stands on the messages of `pbf_wire`, read by `pbf_reader`, and on
//! `turn_texts` for what makes a relation a restriction.
#![tactic(auto)]

mod blocks;
mod file;
mod found;
mod members;
mod written;

pub use file::read_pbf_turns;
pub use written::Written;

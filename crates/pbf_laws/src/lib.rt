//! Laws of PBF files in the words of the OSM wiki and of Protocol Buffers: varints in any spelling, numbers with a
//! sign, fields in any order with unknown ones between, coordinates by granularity and offset, plain and dense
//! nodes alike, and each fault at its byte.
//!
//! It is no part of the program. Stands on `pbf_wire` for what a file is. `specs/` has the laws.
#![tactic(auto)]

mod laws;

pub use laws::{
    coordinates_are_rounded_down, dense_nodes_are_nodes, faults_stand_so, fields_may_be_swapped,
    files_are_so, signs_are_zigzag, unknown_fields_say_nothing, varints_may_be_longer,
};

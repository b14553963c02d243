//! The law of PBF files: what a file says, in the words of the OSM wiki and of Protocol Buffers,
//! is what is read of it, whichever of its many spellings it has.
//!
//! It is no part of the program. Stands on `pbf_wire` for what is read of a file. `specs/` says
//! what a file is: its messages (Messages), what their fields say (Saying), nodes, ways and blocks,
//! and the map that they are together (Files); and that the fields of a message tile it (Tiling).
#![tactic(auto)]

mod laws;

pub use laws::{
    blocks_are_read, dense_nodes_are_read, fields_are_read, fields_tile, files_are_read,
    files_there_are, groups_are_read, lists_are_read, messages_are_read, nodes_are_read,
    scalars_are_read, ways_are_read,
};

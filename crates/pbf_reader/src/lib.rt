//! OpenStreetMap PBF files: maps of nodes and ways in blobs of protocol buffers messages.
//!
//! Promises: what is read is the map that the bytes are, or their first fault with its byte and kind. What a file is,
//! message by message, is defined in `specs/` of `pbf_wire`; what a reading answers, in `specs/` here (Reading).
//! Stands on `gh_base` and `pbf_wire`.
#![tactic(auto)]

mod blobs;
mod blocks;
mod deltas;
mod dense;
mod fault;
mod groups;
mod headers;
mod lists;
mod nodes;
mod pieces;
mod reading;
mod runs;
mod ways;

pub use blobs::{is_data, read_content, read_header};
pub use blocks::read_texts;
pub use deltas::zigzag;
pub use fault::PbfFault;
pub use gh_base::PbfKind;
pub use lists::list_of;
pub use pieces::{holds_bytes, join, pieces as pieces_under, scalar};
pub use reading::read_pbf;
pub use runs::{before, read_run};
pub use ways::{made_tags, text_of_index};

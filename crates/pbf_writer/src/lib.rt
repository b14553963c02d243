//! OpenStreetMap PBF files, written with blobs that are not compressed.
//!
//! Promises: what is written is the file of the map, and is read as the same map again; whether each
//! way of a map fits into a block is told. Definitions stand in `pbf_wire`'s `specs/`: the fields of
//! messages (Parts), and blocks and the file (Writing). Stands on `pbf_wire` and `gh_base`.
#![tactic(auto)]

mod blobs;
mod blocks;
mod fields;
mod law;
mod sizes;
mod strings;
mod ways;
mod writing;

pub use law::files_are_read_again;
pub use writing::{fits_pbf, write_pbf};

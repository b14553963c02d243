//! Roads as lines of GeoJSON (RFC 7946), an edge a line, by which a user learns which road an edge's number means.
//!
//! Promises: what is written is the line of each edge in order (`specs/Lines.antt`): its number, the ids of its way and of
//! its towers, its length, the limits that it opens with, and its points. Stands on `map_import` for the roads, and on
//! `plain_map` for the spelling of numbers.
#![tactic(auto)]

mod line;
mod writing;

pub use writing::write_roads;

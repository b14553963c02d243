//! Import: the base graph of a map, and the id of each of its towers.
//!
//! Promises: the towers and edges are those of the map's used ways by `specs/Roads.antt`, or the first
//! refusal of `specs/Refusals.antt`; each edge is as long as its segments together; ids differ. Stands
//! on `tag_rules` for what a way is, on `geo_math` for lengths and on `base_graph`.
#![tactic(auto)]

mod builder;
mod faults;
mod laws;
mod lines;
mod origins;
mod places;
mod roads;
mod towers;
mod used;

pub use faults::ImportFault;
pub use laws::{edges_are_pieces, pieces_join_towers, the_first_that_cannot_stand_is_refused};
pub use origins::ways_of_edges;
pub use roads::{Roads, import};

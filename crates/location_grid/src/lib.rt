//! The edge of a set that is nearest to a point, and how far along that edge the point lies.
//!
//! Promises: of all edges that the set has, the answer is the nearest, and of those equally near the
//! one with the least number; there is none exactly where the set has no edge; a search takes no
//! memory. Stands on `base_graph` for edges and their points, and on `geo_math` for distances. What is
//! nearest is defined in `specs/Snaps.antt` and `specs/Nearest.antt`.
#![tactic(auto)]

mod bounds;
mod cells;
mod edge_bits;
mod edge_set;
mod found;
mod grid;
mod order;
mod rows;
mod snaps;

pub use edge_bits::EdgeBits;
pub use edge_set::EdgeSet;
pub use grid::{Grid, OnEdge};

//! Maps and scripts made of a number, answered, and what the replies come to.
//!
//! Promises: of a size N the map is a grid of N rows and N columns whose ways are classed by draws (`specs/Maps.antt`),
//! the script lowers, prepares, publishes and asks by the draws behind those (`specs/Scripts.antt`), and what is written is
//! the summary of a text that fits the script over the roads of the map (`specs/Summaries.antt`, `Generating.antt`).
//! Stands on `map_import` for the roads and on `script_service` for the replies.
#![tactic(auto)]

mod drawing;
mod grid_map;
mod laws;
mod running;
mod scripting;
mod summing;

pub use laws::sizes_have_one_ground;
pub use running::generate;
pub use summing::Summary;

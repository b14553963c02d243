//! Maps read into roads, and how a run ends.
//!
//! Promises: the map of a name is read to its end and imported, or told why not: each answer but want
//! of memory has its cause (`specs/Statuses.antt`); the roads are the map's (`specs/Reading.antt`).
//! Standard input is read whole, up to its greatest length. The roads of cars are those of
//! `specs/Cars.antt`, and what guides searches over them at the opening limits is that of
//! `specs/Opening.antt`. Stands on the readers of maps, on import, and on `traffic_share` for
//! preparations.
#![tactic(auto)]

mod cars;
mod input;
mod maps;
mod opening;
mod status;

pub use cars::{MOST_LABELS, car_ground, cars_of, read_cars};
pub use input::read_input;
pub use maps::{RoadsAndWays, read_map, read_roads, read_roads_and_ways, roads_and_ways_of};
pub use opening::{potential_between, prepare_opening, walk_mm};
pub use status::{MapFault, Quantity, Status, Which};

//! The command that routes cars by the turn restrictions of a map.
//!
//! Promises: `turns_map` reads the file of a name once, so map, ways and restrictions are of one
//! text, and answers each query line by a least walk with no banned turn, or why there is none
//! (`specs/Lines.antt`); the text stands whole behind the sink's old bytes (`specs/Runs.antt`); each
//! other status has its cause. Stands on `turn_routes` for searches, on `map_roads` for maps, and on
//! `query_lines` for standard input.
#![tactic(auto)]

mod answers;
mod commands;
mod maps;
mod turns;

pub use commands::turns_map;
pub use turns::read_turns;

//! Laws of plain maps: words may stand in any order and skipped ones anywhere, a character may be spelled as an
//! escape, `y` is the latitude and `x` the longitude in 1e-7 degree, and each fault stands at its line and byte.
//!
//! It is no part of the program. Stands on `plain_map` for what a text is. `specs/` has the laws.
#![tactic(auto)]

mod laws;

pub use laws::{
    characters_may_be_escaped, coordinates_are_exact, faults_stand_so, maps_are_so,
    node_words_may_be_swapped, nodes_are_where_they_say, skipped_words_say_nothing,
    way_words_may_be_swapped,
};

//! Plain maps: OpenStreetMap data as text, a node or a way on a line (after OPL).
//!
//! Promises: what is read is the map that the bytes are, or their first fault with its line and byte;
//! what is printed is the text of the map, and is read as the same map again. Definitions stand in
//! `specs/`: escapes, fields, lines, reading, printing. Stands on `gh_base`.
#![tactic(auto)]

mod escapes;
mod fault;
mod fields;
mod law;
mod line;
mod printing;
mod reading;
mod tags;
mod texts;

pub use escapes::unescape;
pub use fault::{PlainFault, WordFault};
pub use fields::{after_letter, is_passed, refs};
pub use gh_base::PlainKind;
pub use law::maps_are_read_again;
pub use printing::{print_plain, send_block};
pub use reading::read_plain;
pub use tags::read_tags;
pub use texts::{push_coordinate, push_id, push_natural};

//! Laws of JSON in the words of RFC 8259: escapes are their characters, white space means nothing, a number is
//! its digits times a power of ten, and each fault stands at its byte.
//!
//! It is no part of the program. Stands on `exact_json` for what a text reads as. `specs/` has the laws.
#![tactic(auto)]

mod laws;

pub use laws::{
    decimals_are_exact, escapes_are_their_characters, faults_stand_so, pairs_are_one_character,
    space_means_nothing, texts_are_read, texts_are_so, unicode_escapes_are_their_numbers,
};

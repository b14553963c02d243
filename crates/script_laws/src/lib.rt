//! Laws of scripts: what is written as a script is read as that script.
//!
//! It is no part of the program. Stands on `script_text` for what a script is, and on `plain_map` for how
//! coordinates are written. `specs/Writing.antt` says how a script is written, `specs/Laws.antt` has the laws,
//! `specs/Telling.antt` what a reply's line tells.
#![tactic(auto)]

mod laws;

pub use laws::{
    actors_are_read, commands_are_read, entries_are_so, journal_is_read, lines_tell_replies,
    profiles_are_read, replies_are_so, scripts_are_read, sync_is_read,
};

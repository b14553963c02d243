//! Scripts of commands, and the lines of their replies.
//!
//! Promises: a script that is read is what its lines say, or its first fault with its line and byte; a reply
//! line is the text of its reply, whole or not at all. Definitions stand in `specs/`: names, fields, line reading,
//! commands, headers, lines, what each script keeps, replies. Stands on `exact_json` and `model_parser` for models.
#![tactic(auto)]

mod commands;
mod entry_line;
mod fault;
mod fields;
mod headers;
mod line;
mod line_words;
mod model_text;
mod names;
mod noted;
mod putting;
mod reading;
mod reply;
mod reply_line;
mod script;
mod so_far;
mod words;

pub use entry_line::put_entry;
pub use fault::{LineFault, ScriptFault};
pub use gh_base::ScriptKind;
pub use line::passes;
pub use line_words::LineWords;
pub use noted::Noted;
pub use reading::read_script;
pub use reply::Reply;
pub use reply_line::{put_answer, put_count, put_hops, put_reply};
pub use script::{Command, Line, Names, Phase, Phases, Script, ScriptRead};

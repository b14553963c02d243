//! Sessions: the rule that an actor's queries are asked under.
//!
//! Promises: a model is taken exactly where its text is empty or is a model that only slows the profile; else the
//! first fault or the first offender is named, and the rule before stays in force. The definition is `specs/Sessions.antt`.
//! Scripts and reply lines are those of `script_text`, which this crate passes on.
#![tactic(auto)]

mod session;

pub use script_text::{
    Command, Line, Names, Phase, Phases, Reply, Script, ScriptFault, ScriptKind, ScriptRead,
    put_reply, read_script,
};
pub use session::{ModelReply, Session};

//! Scripts answered over roads: the actors of a phase in threads, phase by phase, and the journal of all changes.
//!
//! Promises: what is written fits the script (`specs/Fitting.antt`, `Writing.antt`): each reply is right after as many entries of the journal as it says
//! (`specs/Replying.antt`), and the entries are those of the accepted replies, whatever order the steps of the threads fall in.
//! Stands on `traffic_core` for roads and histories, on `route_sessions` for the rule of each actor, and on `script_text` for lines.
#![tactic(auto)]

mod actor;
mod answering;
mod collecting;
mod crossing;
mod journal;
mod laws;
mod memory;
mod replying;
mod serving;
mod threads;
mod told;

pub use actor::Heard;
pub use collecting::{Answers, answer_script};
pub use laws::replies_tell_the_journal;
pub use serving::serve_script;
pub use told::Told;

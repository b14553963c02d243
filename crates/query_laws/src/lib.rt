//! Laws of query lines: what is written of queries is read as them, and each fault stands at its line and byte.
//!
//! It is no part of the program. Stands on `query_lines` for what lines are. `specs/Writing.antt` says how a line is
//! written, `specs/Laws.antt` and `specs/Samples.antt` have the laws.
#![tactic(auto)]

mod laws;

pub use laws::{faults_stand_at_their_line, line_faults_are_so, queries_are_read};

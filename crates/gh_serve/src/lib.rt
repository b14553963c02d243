//! The service: the top call `run`, and the texts for faults.
//!
//! Promises: a run that ends well wrote a text that answers the script over the map's roads: each reply is right, and the
//! journal stands behind them (`specs/Serving.antt`, over `script_service`'s words). Every other status has its cause as a clause of `run`,
//! and says what was written (`specs/Statuses.antt`). Stands on the readers of maps and scripts, on import, and on `script_service`.
#![tactic(auto)]

mod commands;
mod conversion;
mod generating;
mod labels;
mod scripts;
mod serving;
mod texts;
mod top;

pub use conversion::convert;
pub use generating::generate;
pub use map_roads::{MapFault, Quantity, Status, Which};
pub use serving::serve_script;
pub use texts::fault_text;
pub use top::run;

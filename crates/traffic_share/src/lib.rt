//! Traffic that actors share: a log of cells that are set once, and seats that append to it and replay it.
//!
//! Promises: of the lists of two seats of one log one begins with the other; a call is accepted exactly where its entry
//! is the last of its seat's list; each refusal has its cause at that list (`specs/Lowering.antt`,
//! `specs/Restoring.antt`, `specs/Publishing.antt`); what is asked is answered after that list. An entry in a cell is
//! true over the roads by its type. Stands on `traffic_core` for the state after a list, and on `once_cell` for cells.
#![tactic(auto)]

mod listed;
mod log;
mod replay;
mod replies;
mod sealed;
mod seat;

pub use listed::Listed;
pub use log::Log;
pub use replies::{LowerReply, PublishReply, RestoreReply};
pub use sealed::{Naming, Sealed, TruePrep};
pub use seat::{Asked, Seat, prepare_at};

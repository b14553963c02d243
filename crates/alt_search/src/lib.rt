//! Least walks over any view of roads, looking ahead by any potential (A*, with landmarks ALT).
//!
//! Promises: where the potential is feasible, a walk that is found is least, as labels show that no
//! hop violates, and none is found only where there is none, as a set shows that no hop leads out of;
//! the view is started at each node at most once, at no node that a bounded search need not look at,
//! and that often is what is told. It stands on the words of `walk_rules` and the queue of
//! `search_queue`. The loop is `expand`, in `expansion`; all else reads its end.
#![tactic(auto)]

mod adjacency;
mod expansion;
mod explored;
mod exploring;
mod finding;
mod known;
mod potential;
mod reach;
mod reached;
mod tracing;

pub use adjacency::{Adjacency, lead_to_rows};
pub use explored::Explored;
pub use exploring::{explore, explore_all};
pub use finding::{Found, search};
pub use known::next_useful;
pub use potential::{FlatPotential, ListPotential};
pub use reach::{Reach, Step};
pub use reached::Reached;
pub use tracing::{walk_to, weight_at};

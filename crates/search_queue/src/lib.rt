//! A queue of nodes by key, for searches.
//!
//! Contracts see it as the list of its keys by node. It gives a node with a least key. Which of several
//! nodes with one least key comes first is left open. All room is taken when it is made, but only what
//! nodes that come in need is ever touched: their items in a heap, and in a `NodeTable` the pages of their
//! places, so that a search costs what it visits. It stands on `gh_base` alone; what a key is of stands
//! in `specs/Keys.antt`.
#![tactic(auto)]

mod heap;
mod node_table;
mod pages;
mod queue;

pub use node_table::NodeTable;
pub use queue::Queue;

//! A number for each node.
ghost use Rattle.std.specs.Prelude.{◌≡◌, ◌<◌, length, replicate, slice_index, slice_set, IfOk};

use crate::pages::{PAGE, Pages};
use gh_base::NoMemory;
use std::alloc::Global;
use std::marker::Model;

/// A number for each node, first 0. Contracts see the list of the numbers. It takes all its room when it
/// is made, and touches of that only the pages of nodes that are written to.
#[derive(Drop)]
pub struct NodeTable {
    pages: Pages,
    nodes: u32,
}

impl Model for NodeTable {
    ghost use Rattle.std.specs.Prelude.{ℕ, List};

    ghost Value = { List ℕ };

    ghost use Rattle.search_queue.specs.Pages.{numbers_in, IsTable};

    ghost view = { λ table. numbers_in table.pages table.nodes };

    ghost invariant = { λ table. IsTable table.pages table.nodes };
}

impl NodeTable {
    /// The number 0 for each node below `nodes`.
    pub fn new(alloc: Global, nodes: u32) -> Result<NodeTable, NoMemory>
        ensures { IfOk result (λ table. table ≡ replicate nodes 0) }
    {
        Ok(NodeTable {
            pages: Pages::new(alloc, nodes / PAGE + 1)?,
            nodes,
        })
    }

    /// The number of a node.
    pub fn get(&self, node: u32) -> u32
        requires { node < length self.now }
        ensures { result ≡ slice_index self.now node }
    {
        self.pages.number(node)
    }

    /// Gives a node another number.
    pub fn set(&mut self, node: u32, number: u32)
        requires { node < length self.old }
        ensures { self.new ≡ slice_set self.old node number }
    {
        self.pages.write(node, number);
    }
}

//! Sets of nodes.
ghost use Rattle.std.specs.Prelude.{◌≡◌, ◌<◌, true, false, length, replicate, slice_set, IfOk};
ghost use Rattle.label_certificate.specs.Refuting.{is_in};

use gh_base::{NoMemory, NodeId};
use std::alloc::Global;
use std::marker::Model;

/// A set of nodes below a number. Contracts see it as the list that says of each node whether it is in.
#[derive(Debug, Drop)]
pub struct NodeSet {
    members: Vec<bool>,
}

impl Model for NodeSet {
    ghost use Rattle.std.specs.Prelude.{List, Bool};

    ghost Value = { List Bool };

    ghost view = { λ set. set.members.items };
}

impl NodeSet {
    /// The empty set of nodes below `nodes`. It takes all room that the set ever needs.
    pub fn new(alloc: Global, nodes: u32) -> Result<NodeSet, NoMemory>
        ensures { IfOk result (λ set. set ≡ replicate nodes false) }
    {
        let members = vec![in alloc; false; nodes as usize]?;
        Ok(NodeSet { members })
    }

    /// Adds a node. All others stay as they are.
    pub fn add(&mut self, node: NodeId)
        requires { node.0 < length self.old }
        ensures { self.new ≡ slice_set self.old node.0 true }
    {
        self.members[node.0 as usize] = true;
    }

    /// Whether a node is in the set.
    pub fn has(&self, node: NodeId) -> bool
        requires { node.0 < length self.now }
        ensures { result ≡ is_in self.now node.0 }
    {
        self.members[node.0 as usize]
    }
}

//! What an exploration tells.
ghost use Rattle.std.specs.Prelude.{◌≡◌, length};

use crate::expansion::Expansion;
use crate::reached::Reached;
use gh_base::NodeId;
use search_queue::Queue;

/// What an exploration from a node tells: of each node the weight of a least walk in ms, or nothing.
#[derive(Drop)]
pub struct Explored {
    reached: Reached,
    queue: Queue,
    settled: u32,
    ghost same: { length queue ≡ length reached },
}

impl Explored {
    ghost use Rattle.std.specs.Prelude.{◌<◌, ◌↔◌, IsSome, IsTrue};
    ghost use Rattle.alt_search.specs.Exploring.{weight_in, nodes_in};

    /// What is known at the end of an expansion.
    pub(crate) fn after(end: Expansion) -> Explored
        requires { length end.queue ≡ length end.reached }
        ensures reached { result.reached ≡ end.reached }
        ensures queue { result.queue ≡ end.queue }
        ensures settled { result.settled ≡ end.settled }
    {
        Explored {
            reached: end.reached,
            queue: end.queue,
            settled: end.settled,
        }
    }

    /// The weight that is told of a node, in ms.
    pub fn weight(&self, node: NodeId) -> Option<u128>
        requires { node.0 < nodes_in self.now }
        ensures { result ≡ weight_in self.now node.0 }
    {
        let weight = self.reached.weight(node)?;
        if self.queue.key_of(node).is_some() {
            return None;
        }
        Some(weight)
    }

    /// Whether a weight is told of a node.
    pub fn has_weight(&self, node: NodeId) -> bool
        requires { node.0 < nodes_in self.now }
        ensures { IsTrue result ↔ IsSome (weight_in self.now node.0) }
    {
        self.weight(node).is_some()
    }

    /// At how many nodes the view was started.
    pub fn settled(&self) -> u32
        ensures { result ≡ self.now.settled }
    {
        self.settled
    }
}

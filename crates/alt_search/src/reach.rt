//! What a search knows of a node.

use gh_base::{Hop, NodeId};

/// The last hop of a walk, and the node that it leaves.
#[derive(Clone, Copy, Debug)]
pub struct Step {
    pub tail: NodeId,
    pub hop: Hop,
}

/// The best walk to a node so far: its weight in ms, how many hops it has, and the last of them.
#[derive(Clone, Copy, Debug)]
pub struct Reach {
    pub weight: u128,
    pub depth: u32,
    pub last: Option<Step>,
}

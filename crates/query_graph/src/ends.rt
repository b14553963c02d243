//! The two ends of a walk.
use gh_base::{Arrival, Hop, NodeId};

/// Where a walk starts: at a node, or inside an edge with a piece to each end. A piece may have no weight.
#[derive(Clone, Copy, Debug, PartialEq, Eq)]
pub enum Leave {
    Node(NodeId),
    Inside([Hop; 2]),
}

/// Where a walk ends: at a node, or inside an edge with a piece from each end. A piece may have no weight.
#[derive(Clone, Copy, Debug, PartialEq, Eq)]
pub enum Reach {
    Node(NodeId),
    Inside([Arrival; 2]),
}

//! Nodes, directed edges and hops by number, and what is stored of an edge.
ghost use Rattle.std.specs.Prelude.{◌≡◌, ◌≢◌, ◌<◌, ◌^◌, ◌⊎◌, ℕ};
ghost use Rattle.gh_base.specs.declared.edges.DirEdge.{DirEdge};

use crate::lists::Sequence;

/// A node, by its number from 0.
#[derive(Clone, Copy, Debug, PartialEq, Eq)]
pub struct NodeId(pub u32);

/// An edge, by its number from 0.
#[derive(Clone, Copy, Debug, PartialEq, Eq)]
pub struct EdgeId(pub u32);

/// An edge with a direction: forward, or reverse.
#[derive(Clone, Copy, Debug, PartialEq, Eq)]
pub struct DirEdge {
    pub edge: EdgeId,
    pub reverse: bool,
}

/// A directed edge, or a piece of one, as it leaves a node. Its weight is in ms; without one it is barred.
#[derive(Clone, Copy, Debug, PartialEq, Eq)]
pub struct Hop {
    pub to: NodeId,
    pub by: DirEdge,
    pub weight: Option<u64>,
}

/// A piece of a directed edge that leads from a node into a place inside that edge.
#[derive(Clone, Copy, Debug, PartialEq, Eq)]
pub struct Arrival {
    pub at: NodeId,
    pub by: DirEdge,
    pub weight: Option<u64>,
}

/// The hops of a walk, in order.
pub type Hops = Sequence<Hop>;

/// A label for each node by number: a distance in ms, or none.
pub type LabelList = Sequence<Option<u64>>;

/// Limits in milli-km/h: item `2 * e` is that of edge e forward, item `2 * e + 1` reverse.
pub type LimitList = Sequence<u32>;

/// A speed limit for each directed edge, in milli-km/h.
pub trait Limits {
    /// The number of edges.
    ghost edges: { Self → ℕ };

    ghost limit_of: { Self → DirEdge → ℕ };

    fn limit(&self, edge: DirEdge) -> u32
        requires { edge.edge.0 < edges self.now }
        ensures { result ≡ limit_of self.now edge };
}

/// Four words for each edge.
pub trait EdgeWords {
    /// The number of edges.
    ghost edges: { Self → ℕ };

    ghost word_of: { Self → ℕ → ℕ → ℕ };

    fn edge_count(&self) -> u32
        ensures { result ≡ edges self.now };

    fn word(&self, edge: EdgeId, index: u32) -> u32
        requires edge { edge.0 < edges self.now }
        requires index { index < 4 }
        ensures { result ≡ word_of self.now edge.0 index };

    /// Sets one word. All others stay.
    fn set_word(&mut self, edge: EdgeId, index: u32, word: u32)
        requires edge { edge.0 < edges self.old }
        requires index { index < 4 }
        ensures word { word_of self.new edge.0 index ≡ word }
        ensures others { (e i : ℕ) → (e ≢ edge.0) ⊎ (i ≢ index) → word_of self.new e i ≡ word_of self.old e i }
        ensures edges { edges self.new ≡ edges self.old };
}

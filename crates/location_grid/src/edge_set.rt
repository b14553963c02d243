//! Sets of edges.
ghost use Rattle.std.specs.Prelude.{◌≡◌, ◌<◌, ℕ, Bool};

use gh_base::EdgeId;

/// A set of edges of a graph, asked edge by edge.
pub trait EdgeSet {
    /// The number of edges of the graph.
    ghost edges: { Self → ℕ };

    /// Which of them the set has.
    ghost has_edge: { Self → ℕ → Bool };

    fn has(&self, edge: EdgeId) -> bool
        requires { edge.0 < edges self.now }
        ensures { result ≡ has_edge self.now edge.0 };
}

//! Why a graph doesn't grow.
use gh_base::NoMemory;
use thiserror::Error;

/// After each of these the graph is as before.
#[derive(Clone, Copy, Debug, PartialEq, Eq, Error)]
pub enum GraphFault {
    /// The graph has 2000000 towers.
    #[error("too many nodes")]
    TooManyNodes,
    /// The graph has 4000000 edges.
    #[error("too many edges")]
    TooManyEdges,
    #[error("no memory")]
    NoMemory,
}

impl From<NoMemory> for GraphFault {
    ghost use Rattle.std.specs.Prelude.{◌≡◌};
    ghost use Rattle.base_graph.specs.declared.faults.GraphFault.TheVariants as fault;

    ghost from_gives = { λ _ e. e ≡ fault.NoMemory };

    fn from(_: NoMemory) -> GraphFault {
        GraphFault::NoMemory
    }
}

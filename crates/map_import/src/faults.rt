//! Why a map has no roads.
use base_graph::GraphFault;
use gh_base::NoMemory;
use std::alloc::{AllocError, AllocFailed};
use thiserror::Error;

/// The first refusal of a map, in the order in which they are listed.
#[derive(Clone, Copy, Debug, PartialEq, Eq, Error)]
pub enum ImportFault {
    /// A node of this id stood before in the node list.
    #[error("a node id stands twice")]
    TwiceNode { id: i64 },
    /// A used way names a node that isn't there: usually the map was cut out without the nodes outside.
    #[error("a way names a node that is not there")]
    MissingNode { way: i64, node: i64 },
    /// A piece of this way between two towers is longer than 4294967295 mm.
    #[error("an edge is too long")]
    TooLong { way: i64 },
    /// There would be more than 4000000 edges.
    #[error("too many edges")]
    TooManyEdges,
    /// There would be more than 2000000 towers.
    #[error("too many nodes")]
    TooManyNodes,
    #[error("no memory")]
    NoMemory,
}

impl From<AllocError> for ImportFault {
    ghost use Rattle.std.specs.Prelude.{◌≡◌};
    ghost use Rattle.map_import.specs.declared.faults.ImportFault.TheVariants as fault;

    ghost from_gives = { λ _ e. e ≡ fault.NoMemory };

    fn from(_: AllocError) -> ImportFault {
        ImportFault::NoMemory
    }
}

impl<T: Drop> From<AllocFailed<T>> for ImportFault {
    ghost use Rattle.std.specs.Prelude.{◌≡◌};
    ghost use Rattle.map_import.specs.declared.faults.ImportFault.TheVariants as fault;

    ghost from_gives = { λ _ e. e ≡ fault.NoMemory };

    fn from(_: AllocFailed<T>) -> ImportFault {
        ImportFault::NoMemory
    }
}

impl From<NoMemory> for ImportFault {
    ghost use Rattle.std.specs.Prelude.{◌≡◌};
    ghost use Rattle.map_import.specs.declared.faults.ImportFault.TheVariants as fault;

    ghost from_gives = { λ _ e. e ≡ fault.NoMemory };

    fn from(_: NoMemory) -> ImportFault {
        ImportFault::NoMemory
    }
}

impl From<GraphFault> for ImportFault {
    ghost use Rattle.std.specs.Prelude.{◌≡◌};
    ghost use Rattle.map_import.specs.Faults.{fault_of};

    ghost from_gives = { λ fault e. e ≡ fault_of fault };

    fn from(fault: GraphFault) -> ImportFault {
        match fault {
            GraphFault::TooManyNodes => ImportFault::TooManyNodes,
            GraphFault::TooManyEdges => ImportFault::TooManyEdges,
            GraphFault::NoMemory => ImportFault::NoMemory,
        }
    }
}

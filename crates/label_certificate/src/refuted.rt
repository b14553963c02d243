//! Why evidence is refused.

use gh_base::{DirEdge, NodeId};
use thiserror::Error;

/// Why evidence shows nothing.
#[derive(Clone, Copy, Debug, PartialEq, Eq, Error)]
pub enum Refuted {
    /// The start or the target isn't as it must be.
    #[error("an end is not as it must be")]
    Ends,
    /// This hop is violated, the first by its tail and then in the view's order. Its weight is in ms.
    #[error("a hop is violated")]
    Violated {
        edge: DirEdge,
        tail: NodeId,
        head: NodeId,
        weight: u64,
    },
}

//! What a search reads of an edge.
use gh_base::NodeId;

/// An edge but for its values. In its table it is 32 bytes, within one line of a cache.
#[derive(Clone, Copy, Debug, PartialEq, Eq)]
pub struct EdgeRow {
    pub base: NodeId,
    pub adjacent: NodeId,
    pub mm: u32,
    /// The link behind this edge in the list of its base.
    pub next_at_base: u32,
    /// The link behind it in the list of its adjacent end.
    pub next_at_adjacent: u32,
    pub first_point: u32,
    /// The point behind its last one.
    pub end_point: u32,
}

//! Where directed edges stand in lists of limits: two an edge, forward first.
ghost use Rattle.std.specs.Prelude.{◌≡◌, ◌*◌, ◌<◌, ◌/◌, ◌^◌, length};
ghost use Rattle.traffic_core.specs.History.{index_of, limit_in};

use gh_base::{DirEdge, EdgeId, LimitList};

/// The place of a directed edge.
pub(crate) fn index_of_edge(edge: DirEdge) -> usize
    ensures { result ≡ index_of edge }
{
    2 * edge.edge.0 as usize + if edge.reverse { 1 } else { 0 }
}

/// The directed edge of a place.
pub(crate) fn edge_of_index(place: usize) -> DirEdge
    requires { place < 2 * 2 ^ 32 }
    ensures edge { result.edge.0 ≡ place / 2 }
    ensures place { index_of result ≡ place }
{
    DirEdge {
        edge: EdgeId((place / 2) as u32),
        reverse: place % 2 == 1,
    }
}

/// The limit of a directed edge in a list of limits.
pub fn listed_limit(limits: &LimitList, edge: DirEdge) -> u32
    requires { index_of edge < length limits.now }
    ensures { result ≡ limit_in limits.now edge }
{
    *limits.get(index_of_edge(edge))
}

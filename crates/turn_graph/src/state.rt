//! What was passed, by number.
ghost use Rattle.std.specs.Prelude.{◌≡◌, ◌≤◌, ◌<◌, ◌+◌, ◌*◌, length};
ghost use Rattle.turn_graph.specs.Restrictions.{end_of};
ghost use Rattle.turn_graph.specs.States.{state_by, onto_state, arrival};

use base_graph::BaseGraph;
use gh_base::{DirEdge, EdgeId, Hop, NodeId};

/// Where who drives stands: before the first directed edge, behind one, or at the end.
#[derive(Clone, Copy, Debug, PartialEq, Eq)]
pub(crate) enum State {
    Start,
    Passed(DirEdge),
    Target,
}

/// What a number stands for.
pub(crate) fn state_by(edges: u32, node: NodeId) -> State
    requires { edges ≤ 4000000 }
    ensures { result ≡ state_by edges node.0 }
{
    if node.0 < 2 * edges {
        return State::Passed(DirEdge {
            edge: EdgeId(node.0 / 2),
            reverse: node.0 % 2 == 1,
        });
    }
    if node.0 == 2 * edges {
        return State::Start;
    }
    State::Target
}

/// The tower at which a directed edge ends.
pub(crate) fn end_of(graph: &BaseGraph, by: DirEdge) -> NodeId
    requires { by.edge.0 < length graph.now.lists.edges }
    ensures { result.0 ≡ end_of graph.now.lists by }
{
    let ends = graph.edge(by.edge);
    if by.reverse { ends.base } else { ends.adjacent }
}

/// A hop to having passed the directed edge of a base's hop.
pub(crate) fn onto_state(hop: Hop) -> Hop
    requires { hop.by.edge.0 < 4000000 }
    ensures { result ≡ onto_state hop }
{
    let side = if hop.by.reverse { 1 } else { 0 };
    Hop {
        to: NodeId(2 * hop.by.edge.0 + side),
        by: hop.by,
        weight: hop.weight,
    }
}

/// The hop to the target from having passed a directed edge.
pub(crate) fn arrival(edges: u32, by: DirEdge) -> Hop
    requires { edges ≤ 4000000 }
    ensures { result ≡ arrival edges by }
{
    Hop {
        to: NodeId(2 * edges + 1),
        by,
        weight: Some(0),
    }
}

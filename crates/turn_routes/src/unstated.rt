//! A walk by states, as a walk from tower to tower.
ghost use Rattle.std.specs.Prelude.{◌≡◌, ◌<◌, ◌≤◌, length, All, IfOk};
ghost use Rattle.turn_graph.specs.Restrictions.{end_of};
ghost use Rattle.turn_routes.specs.Unstated.{tower_hop, AreByTowers};

use base_graph::BaseGraph;
use gh_base::{DirEdge, Hop, Hops, NoMemory, NodeId};
use std::alloc::Global;

/// The tower at which a directed edge ends.
fn end_of(graph: &BaseGraph, by: DirEdge) -> NodeId
    requires { by.edge.0 < length graph.now.lists.edges }
    ensures { result.0 ≡ end_of graph.now.lists by }
{
    let ends = graph.edge(by.edge);
    if by.reverse { ends.base } else { ends.adjacent }
}

/// A hop over the same directed edge, to the tower where that ends.
fn tower_hop(graph: &BaseGraph, hop: Hop) -> Hop
    requires { hop.by.edge.0 < length graph.now.lists.edges }
    ensures { result ≡ tower_hop graph.now.lists hop }
{
    Hop {
        to: end_of(graph, hop.by),
        by: hop.by,
        weight: hop.weight,
    }
}

/// The hops from tower to tower, without the last, which arrives.
pub(crate) fn tower_hops(alloc: Global, graph: &BaseGraph, hops: &[Hop]) -> Result<Hops, NoMemory>
    requires { All (λ hop. hop.by.edge.0 < length graph.now.lists.edges) hops.now }
    ensures same { IfOk result (λ out. AreByTowers graph.now.lists hops.now out) }
    ensures no_longer { IfOk result (λ out. length out ≤ length hops.now) }
{
    let mut out = Hops::new(alloc);
    let Some((_, most)) = hops.split_last() else {
        return Ok(out);
    };
    for hop in most {
        out.push(tower_hop(graph, *hop))?;
    }
    Ok(out)
}

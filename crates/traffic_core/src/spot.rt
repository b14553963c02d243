//! Where a place lies on the roads.
ghost use Rattle.std.specs.Prelude.{◌≡◌, ◌<◌, ◌≤◌, length};
ghost use Rattle.base_graph.specs.Graphs.{edge_at};
ghost use Rattle.traffic_core.specs.Spots as spec;

use base_graph::BaseGraph;
use gh_base::{EdgeId, NodeId};
use location_grid::OnEdge;

/// Where a place lies on the roads: at a tower, or inside an edge, `mm` mm from its base.
#[derive(Clone, Copy, Debug, PartialEq, Eq)]
pub enum Spot {
    Tower(NodeId),
    Inside { edge: EdgeId, mm: u32 },
}

/// The spot at an offset of an edge: one of its towers at its ends.
pub(crate) fn spot_along(graph: &BaseGraph, at: OnEdge) -> Spot
    requires edge { at.edge.0 < length graph.now.lists.edges }
    requires within { at.offset_mm ≤ (edge_at graph.now.lists.edges at.edge.0).mm }
    ensures spot { result ≡ spec.spot_along graph.now.lists at.edge at.offset_mm }
    ensures on { spec.IsOn graph.now.lists result }
{
    let ends = graph.edge(at.edge);
    if at.offset_mm == 0 {
        Spot::Tower(ends.base)
    } else if at.offset_mm == ends.mm {
        Spot::Tower(ends.adjacent)
    } else {
        Spot::Inside {
            edge: at.edge,
            mm: at.offset_mm,
        }
    }
}

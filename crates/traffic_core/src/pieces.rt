//! The pieces of edges that lead out of a spot, into a spot, and from one to another.
ghost use Rattle.std.specs.Prelude.{◌≡◌, ◌-◌, ◌+◌, ◌<◌, ◌≤◌, length};
ghost use Rattle.base_graph.specs.Graphs.{edge_at};
ghost use Rattle.traffic_core.specs.Spots.{IsOn};
ghost use Rattle.traffic_core.specs.Trips as spec;

use crate::spot::Spot;
use base_graph::BaseGraph;
use gh_base::{Arrival, DirEdge, EdgeId, Hop, Limits, NodeId};
use query_graph::{Leave, Reach};
use weighting::Weighting;

/// A graph whose directed edges have limits, and what gives them weights.
#[derive(Drop)]
pub(crate) struct Pieces<'a, L: Limits> {
    pub(crate) graph: &'a BaseGraph,
    pub(crate) limits: &'a L,
    pub(crate) weighting: &'a Weighting<'a>,
    ghost limited: { L.edges limits.now ≡ length graph.now.lists.edges },
}

impl<'a, L: Limits> Pieces<'a, L> {
    pub(crate) fn new(
        graph: &'a BaseGraph,
        limits: &'a L,
        weighting: &'a Weighting<'a>,
    ) -> Pieces<'a, L>
        requires { L.edges limits.now ≡ length graph.now.lists.edges }
        ensures graph { result.graph.now ≡ graph.now }
        ensures limits { result.limits.now ≡ limits.now }
        ensures weighting { result.weighting.now ≡ weighting.now }
    {
        Pieces {
            graph,
            limits,
            weighting,
        }
    }

    /// The weight of `mm` mm of a directed edge at its limit.
    fn weight(&self, by: DirEdge, mm: u32) -> Option<u64>
        requires { by.edge.0 < length self.now.graph.now.lists.edges }
        ensures { result ≡ spec.weigh self.now.weighting.now (L.limit_of self.now.limits.now) self.now.graph.now.lists by mm }
    {
        self.weighting
            .weight(self.graph, by, self.limits.limit(by), mm)
    }

    /// The piece from a point inside an edge to its end in a direction.
    fn way_out(&self, edge: EdgeId, mm: u32, reverse: bool) -> Hop
        requires edge { edge.0 < length self.now.graph.now.lists.edges }
        requires inside { mm < (edge_at self.now.graph.now.lists.edges edge.0).mm }
        ensures { result ≡ spec.way_out self.now.weighting.now (L.limit_of self.now.limits.now) self.now.graph.now.lists edge mm reverse }
    {
        let ends = self.graph.edge(edge);
        let by = DirEdge { edge, reverse };
        if reverse {
            Hop {
                to: ends.base,
                by,
                weight: self.weight(by, mm),
            }
        } else {
            Hop {
                to: ends.adjacent,
                by,
                weight: self.weight(by, ends.mm - mm),
            }
        }
    }

    /// The piece from the end of an edge, against a direction, to a point inside it.
    fn way_in(&self, edge: EdgeId, mm: u32, reverse: bool) -> Arrival
        requires edge { edge.0 < length self.now.graph.now.lists.edges }
        requires inside { mm < (edge_at self.now.graph.now.lists.edges edge.0).mm }
        ensures { result ≡ spec.way_in self.now.weighting.now (L.limit_of self.now.limits.now) self.now.graph.now.lists edge mm reverse }
    {
        let ends = self.graph.edge(edge);
        let by = DirEdge { edge, reverse };
        if reverse {
            Arrival {
                at: ends.adjacent,
                by,
                weight: self.weight(by, ends.mm - mm),
            }
        } else {
            Arrival {
                at: ends.base,
                by,
                weight: self.weight(by, mm),
            }
        }
    }

    /// The ways out of a spot.
    pub(crate) fn leave(&self, from: Spot) -> Leave
        requires { IsOn self.now.graph.now.lists from }
        ensures { result ≡ spec.leave_from self.now.weighting.now (L.limit_of self.now.limits.now) self.now.graph.now.lists from }
    {
        match from {
            Spot::Tower(node) => Leave::Node(node),
            Spot::Inside { edge, mm } => Leave::Inside([
                self.way_out(edge, mm, false),
                self.way_out(edge, mm, true),
            ]),
        }
    }

    /// The ways into a spot.
    pub(crate) fn reach(&self, to: Spot) -> Reach
        requires { IsOn self.now.graph.now.lists to }
        ensures { result ≡ spec.reach_to self.now.weighting.now (L.limit_of self.now.limits.now) self.now.graph.now.lists to }
    {
        match to {
            Spot::Tower(node) => Reach::Node(node),
            Spot::Inside { edge, mm } => Reach::Inside([
                self.way_in(edge, mm, false),
                self.way_in(edge, mm, true),
            ]),
        }
    }

    /// The piece over what lies between two points of an edge, where the first is no farther from its base.
    fn straight(&self, edge: EdgeId, reverse: bool, near: u32, far: u32) -> Option<Hop>
        requires { edge.0 < length self.now.graph.now.lists.edges }
        ensures { result ≡ spec.straight self.now.weighting.now (L.limit_of self.now.limits.now) self.now.graph.now.lists edge reverse near far }
    {
        if near > far {
            return None;
        }
        let by = DirEdge { edge, reverse };
        Some(Hop {
            to: NodeId(self.graph.node_count() + 1),
            by,
            weight: self.weight(by, far - near),
        })
    }

    /// The direct pieces, where both spots lie inside one edge.
    pub(crate) fn direct(&self, from: Spot, to: Spot) -> [Option<Hop>; 2]
        requires { IsOn self.now.graph.now.lists from }
        ensures { result ≡ spec.direct_between self.now.weighting.now (L.limit_of self.now.limits.now) self.now.graph.now.lists from to }
    {
        let Spot::Inside { edge, mm: start } = from else {
            return [None, None];
        };
        let Spot::Inside {
            edge: other,
            mm: end,
        } = to
        else {
            return [None, None];
        };
        if edge != other {
            return [None, None];
        }
        [
            self.straight(edge, false, start, end),
            self.straight(edge, true, end, start),
        ]
    }
}

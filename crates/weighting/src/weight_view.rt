//! A graph seen as a rule weighs it.
ghost use Rattle.std.specs.Prelude.{◌≡◌, ◌+◌, ◌<◌, ◌≤◌, ◌^◌, [], ◌∷◌, map, length, IfSome, IfNone};
ghost use Rattle.gh_base.specs.Networks.{wanted_from};
ghost use Rattle.base_graph.specs.Graphs.{head, edge_at};
ghost use Rattle.weighting.specs.Roads.{network_of, hop_of, hops_left, edges_left, AreOf, opposite};
ghost use Rattle.weighting.specs.RoadFacts.{leads_to_nodes};

use crate::weighting::Weighting;
use base_graph::{Around, BaseGraph};
use gh_base::{DirEdge, FreshView, Hop, Limits, NodeId, RoadView, Unwanted};

/// The side of a node from which roads are seen.
#[derive(Clone, Copy, Debug, PartialEq, Eq)]
pub enum Side {
    /// The hops that leave a node.
    Out,
    /// The hops that lead to a node, turned round.
    Back,
}

/// The other direction of the same edge.
fn opposite(by: DirEdge) -> DirEdge
    ensures { result ≡ opposite by }
{
    DirEdge {
        edge: by.edge,
        reverse: !by.reverse,
    }
}

/// Where a directed edge leads.
fn head_of(graph: &BaseGraph, edge: DirEdge) -> NodeId
    requires { edge.edge.0 < length graph.now.lists.edges }
    ensures { result.0 ≡ head (edge_at graph.now.lists.edges edge.edge.0) edge.reverse }
{
    let ends = graph.edge(edge.edge);
    if edge.reverse {
        ends.base
    } else {
        ends.adjacent
    }
}

/// The hop of a directed edge that starts at a node, or of its opposite, which leads there.
#[tactic(auto, using(crate::specs::RoadFacts::tail_of_opposite))]
fn hop_of<L: Limits>(
    graph: &BaseGraph,
    limits: &L,
    weighting: &Weighting<'_>,
    side: Side,
    starting: DirEdge,
) -> Hop
    requires edge { starting.edge.0 < length graph.now.lists.edges }
    requires limits { L.edges limits.now ≡ length graph.now.lists.edges }
    ensures { result ≡ hop_of side weighting.now (L.limit_of limits.now) graph.now.lists starting }
{
    let by = match side {
        Side::Out => starting,
        Side::Back => opposite(starting),
    };
    Hop {
        to: head_of(graph, starting),
        by,
        weight: weighting.whole_weight(graph, limits, by),
    }
}

/// The next hop to a wanted node, of the directed edges that are left to give. No other is weighed.
fn next_wanted_of<L: Limits, U: Unwanted>(
    graph: &BaseGraph,
    limits: &L,
    weighting: &Weighting<'_>,
    side: Side,
    around: &mut Around<'_>,
    unwanted: &U,
) -> Option<Hop>
    requires known { AreOf graph.now.lists around.old }
    requires limits { L.edges limits.now ≡ length graph.now.lists.edges }
    ensures hop { let hops = map (hop_of side weighting.now (L.limit_of limits.now) graph.now.lists) in
        IfSome result (λ hop. wanted_from (U.is_unwanted unwanted.now) (hops around.old) ≡ hop ∷ hops around.new) }
    ensures end { let hops = map (hop_of side weighting.now (L.limit_of limits.now) graph.now.lists) in
        IfNone result (wanted_from (U.is_unwanted unwanted.now) (hops around.old) ≡ []) }
    ensures ended { IfNone result (around.new ≡ []) }
    ensures known { AreOf graph.now.lists around.new }
{
    while let Some(starting) = around.next() {
        if !unwanted.is_unwanted(head_of(graph, starting)) {
            return Some(hop_of(graph, limits, weighting, side, starting));
        }
    }
    None
}

/// A view of a graph whose hops have their weights at present limits. On the side `Out` a node's hops are the directed
/// edges that start there; on the side `Back` they are those that lead there, each as a hop to the node at which it
/// starts.
#[derive(Drop)]
pub struct WeightView<'a, L: Limits> {
    graph: &'a BaseGraph,
    limits: &'a L,
    weighting: &'a Weighting<'a>,
    side: Side,
    around: Option<Around<'a>>,
    starts: u64,
    ghost known: { AreOf graph.now.lists (edges_left around) },
    ghost limited: { L.edges limits.now ≡ length graph.now.lists.edges },
}

impl<'a, L: Limits> WeightView<'a, L> {
    /// Before the first start it has no hop to give. It takes no memory.
    pub fn new(
        graph: &'a BaseGraph,
        limits: &'a L,
        weighting: &'a Weighting<'a>,
        side: Side,
    ) -> WeightView<'a, L>
        requires { L.edges limits.now ≡ length graph.now.lists.edges }
        ensures network { ⟦<WeightView<'a, L> as RoadView>⟧.network result ≡ network_of side weighting.now (L.limit_of limits.now) graph.now.lists }
        ensures starts { ⟦<WeightView<'a, L> as RoadView>⟧.starts result ≡ 0 }
        ensures left { ⟦<WeightView<'a, L> as RoadView>⟧.left result ≡ [] }
    {
        WeightView {
            graph,
            limits,
            weighting,
            side,
            around: None,
            starts: 0,
        }
    }
}

impl<'a, L: Limits> RoadView for WeightView<'a, L> {
    ghost network = { λ view. network_of view.side view.weighting.now (L.limit_of view.limits.now) view.graph.now.lists };

    ghost starts = { λ view. view.starts };

    ghost left = { λ view. hops_left view.side view.weighting.now (L.limit_of view.limits.now) view.graph.now.lists view.around };

    ghost leads = { λ view. leads_to_nodes view.side view.weighting.now (L.limit_of view.limits.now) view.graph.now.lists view.graph.now.facts };

    fn node_count(&self) -> u32 {
        self.graph.node_count()
    }

    fn start_at(&mut self, node: NodeId) {
        self.around = Some(self.graph.explore(node));
        self.starts += 1;
    }

    fn next_hop(&mut self) -> Option<Hop> {
        let (graph, limits) = (self.graph, self.limits);
        let (weighting, side) = (self.weighting, self.side);
        match &mut self.around {
            None => None,
            Some(around) => match around.next() {
                None => None,
                Some(by) => Some(hop_of(graph, limits, weighting, side, by)),
            },
        }
    }

    fn next_wanted<U: Unwanted>(&mut self, unwanted: &U) -> Option<Hop> {
        let (graph, limits) = (self.graph, self.limits);
        let (weighting, side) = (self.weighting, self.side);
        match &mut self.around {
            None => None,
            Some(around) => next_wanted_of(graph, limits, weighting, side, around, unwanted),
        }
    }
}

impl<'a, L: Limits> FreshView for WeightView<'a, L> {
    fn again(&self) -> Self {
        WeightView::new(self.graph, self.limits, self.weighting, self.side)
    }
}

//! A view of roads by states.
ghost use Rattle.std.specs.Prelude.{◌≡◌, ◌≢◌, ◌↔◌, ◌+◌, ◌<◌, ℕ, ℤ, List, All, [], ◌∷◌, not, filter, length, IfSome, IfNone};
ghost use Rattle.gh_base.specs.declared.edges.Hop.{Hop};
ghost use Rattle.walk_rules.specs.Walks.{IsWalk};
ghost use Rattle.turn_graph.specs.declared.turn.Turn.{Turn};
ghost use Rattle.turn_graph.specs.Tables.{IsFor, streets_for, IsTableOf, is_banned};
ghost use Rattle.turn_graph.specs.States.{IsOver, AreKnown, trip_by, by_states, start_in, target_in, AreOfTurnWalk};

use crate::state::{State, arrival, end_of, onto_state, state_by};
use crate::table::TurnTable;
use base_graph::BaseGraph;
use gh_base::{DirEdge, Hop, NodeId, RoadView};

/// The roads of a base view by what was passed, so that a turn can be banned. With m edges, node
/// `2 * e` is having passed edge e forward, `2 * e + 1` in reverse, `2 * m` is the start and
/// `2 * m + 1` the target.
///
/// From 0 to 2, where the turn from edge 0 into edge 1 is banned and a way round leads over edge 2:
///
///     0 --0-- 1 --1-- 2      4 --0+--> 0 --2+--> .. 5, and not 4 --0+--> 0 --1+--> 2 --> 5
///             |       |
///             +---2---+
///
/// A tower may be left in two ways, by how one came; so a least walk with turns is none on towers.
#[derive(Drop)]
pub struct TurnView<'a, V: RoadView> {
    base: V,
    graph: &'a BaseGraph,
    turns: &'a TurnTable<'a>,
    from: NodeId,
    to: NodeId,
    state: State,
    arrives: bool,
    own_starts: u64,
    ghost over: { IsOver graph.now.lists (V.network base) },
    ghost suits: { IsFor graph.now.lists turns.now },
    ghost starts: { from.0 < length graph.now.lists.places },
    ghost known: { AreKnown graph.now.lists state (V.left base) },
}

impl<'a, V: RoadView> TurnView<'a, V> {
    /// The view from a tower to another, over a base whose hops are directed edges of the graph. It
    /// takes no memory.
    pub fn new(
        base: V,
        graph: &'a BaseGraph,
        turns: &'a TurnTable<'a>,
        from: NodeId,
        to: NodeId,
    ) -> TurnView<'a, V>
        requires over { IsOver graph.now.lists (V.network base) }
        requires suits { IsFor graph.now.lists turns.now }
        requires from { from.0 < length graph.now.lists.places }
        ensures network { ⟦<TurnView<'a, V> as RoadView>⟧.network result
            ≡ by_states (trip_by (V.network base) graph.now.lists turns.now from.0 to.0) }
        // Between two towers, its walks from the start to the target are the turn walks, by states.
        ensures walks { (ids : List ℤ) (all : List Turn) (hops : List Hop) → from.0 ≢ to.0 →
            IsTableOf (streets_for graph.now.lists ids turns.now) all turns.now →
            IsWalk (⟦<TurnView<'a, V> as RoadView>⟧.network result)
            (start_in graph.now.lists) hops (target_in graph.now.lists)
            ↔ AreOfTurnWalk (V.network base) (streets_for graph.now.lists ids turns.now)
            all from.0 to.0 hops }
        // It begins with the base's count, which each start at the target raises too.
        ensures starts { ⟦<TurnView<'a, V> as RoadView>⟧.starts result ≡ V.starts base }
        ensures left { ⟦<TurnView<'a, V> as RoadView>⟧.left result ≡ [] }
    {
        TurnView {
            base,
            graph,
            turns,
            from,
            to,
            state: State::Target,
            arrives: false,
            own_starts: 0,
        }
    }
}

impl<'a, V: RoadView> RoadView for TurnView<'a, V> {
    ghost use Rattle.std.specs.Prelude.{◌+◌, length};
    ghost use Rattle.turn_graph.specs.Tables.{is_banned};
    ghost use Rattle.turn_graph.specs.States.{trip_by, by_states, left_at};
    ghost use Rattle.turn_graph.specs.Leading.{states_lead};

    ghost network = { λ view. by_states
        (trip_by (V.network view.base) view.graph.now.lists view.turns.now view.from.0 view.to.0) };

    ghost starts = { λ view. V.starts view.base + view.own_starts };

    ghost left = { λ view. left_at (is_banned view.graph.now.lists view.turns.now)
        (length view.graph.now.lists.edges) view.state view.arrives (V.left view.base) };

    ghost leads = { λ view. states_lead
        (trip_by (V.network view.base) view.graph.now.lists view.turns.now view.from.0 view.to.0)
        view.over };

    fn node_count(&self) -> u32 {
        2 * self.graph.edge_count() + 2
    }

    fn start_at(&mut self, node: NodeId) {
        self.state = state_by(self.graph.edge_count(), node);
        self.arrives = false;
        match self.state {
            State::Start => self.base.start_at(self.from),
            State::Passed(by) => {
                let end = end_of(self.graph, by);
                self.base.start_at(end);
                self.arrives = end.0 == self.to.0;
            }
            State::Target => self.own_starts += 1,
        }
    }

    fn next_hop(&mut self) -> Option<Hop> {
        match self.state {
            State::Start => Some(onto_state(self.base.next_hop()?)),
            State::Passed(by) => {
                if let Some(hop) = next_free(&mut self.base, self.graph, self.turns, by) {
                    return Some(onto_state(hop));
                }
                if !self.arrives {
                    return None;
                }
                self.arrives = false;
                Some(arrival(self.graph.edge_count(), by))
            }
            State::Target => None,
        }
    }
}

/// The next hop of the base to which the turn from a directed edge isn't banned.
fn next_free<V: RoadView>(
    base: &mut V,
    graph: &BaseGraph,
    turns: &TurnTable<'_>,
    by: DirEdge,
) -> Option<Hop>
    requires suits { IsFor graph.now.lists turns.now }
    requires by { by.edge.0 < length graph.now.lists.edges }
    requires known { All (λ hop. hop.by.edge.0 < length graph.now.lists.edges) (V.left base.old) }
    ensures hop { let free = filter (λ (hop : Hop). not (is_banned graph.now.lists turns.now by hop.by)) in
        IfSome result (λ hop. free (V.left base.old) ≡ hop ∷ free (V.left base.new)) }
    ensures end { let free = filter (λ (hop : Hop). not (is_banned graph.now.lists turns.now by hop.by)) in
        IfNone result (free (V.left base.old) ≡ []) }
    ensures ended { IfNone result (V.left base.new ≡ []) }
    ensures over { IfSome result (λ hop. hop.by.edge.0 < length graph.now.lists.edges) }
    ensures known { All (λ hop. hop.by.edge.0 < length graph.now.lists.edges) (V.left base.new) }
    ensures starts { V.starts base.new ≡ V.starts base.old }
    ensures network { V.network base.new ≡ V.network base.old }
{
    let tower = end_of(graph, by);
    while let Some(hop) = base.next_hop() {
        if !turns.bans(tower, by, hop.by) {
            return Some(hop);
        }
    }
    None
}

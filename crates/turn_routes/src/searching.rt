//! The search for a least walk with no banned turn.
ghost use Rattle.std.specs.Prelude.{◌≡◌, ◌≢◌, ◌↔◌, ◌<◌, ◌≤◌, ◌^◌, ℤ, List, [], length, All, IfOk};
ghost use Rattle.walk_rules.specs.Walks.{weight_of};
ghost use Rattle.walk_rules.specs.Potentials.{IsFeasible};
ghost use Rattle.walk_rules.specs.Starts.{StartsWithin, StartsAtAll};
ghost use Rattle.alt_search.specs.Findings.{IfWalk, IfNoWalk, IsNoWalk, settled_of};
ghost use Rattle.turn_graph.specs.declared.turn.Turn.{Turn};
ghost use Rattle.turn_graph.specs.Tables.{IsFor, streets_for, IsTableOf};
ghost use Rattle.turn_graph.specs.TurnWalks.{IsTurnWalk, IsAtMostEachTurnWalk, NoTurnWalk};
ghost use Rattle.turn_graph.specs.States.{IsOver, trip_by, by_states, start_in, target_in};
ghost use Rattle.turn_graph.specs.Bounds.{bound_by};
ghost use Rattle.turn_routes.specs.Unstated.{IsFoundIn, IsByTowers};

use crate::unstated::tower_hops;
use alt_search::{Found, search};
use base_graph::BaseGraph;
use gh_base::{Hops, NoMemory, NodeId, Potential, RoadView};
use std::alloc::Global;
use turn_graph::{TurnPotential, TurnTable, TurnView};

/// A least walk with no banned turn from a tower to another, over a base whose hops are directed
/// edges of the graph, looking ahead by a potential of towers.
///
/// `settled` counts the states that the search started at: none where both towers are one.
pub fn search_turns<V: RoadView + Drop, P: Potential + Drop>(
    alloc: Global,
    base: V,
    graph: &BaseGraph,
    turns: &TurnTable<'_>,
    inner: P,
    from: NodeId,
    to: NodeId,
) -> Result<Found, NoMemory>
    requires over { IsOver graph.now.lists (V.network base) }
    requires suits { IsFor graph.now.lists turns.now }
    requires from { from.0 < length graph.now.lists.places }
    requires count { V.starts base ≤ 2 ^ 63 }

    // What is given is a turn walk of that weight.
    ensures walk { (ids : List ℤ) (all : List Turn) →
        IsTableOf (streets_for graph.now.lists ids turns.now) all turns.now →
        IfOk result (λ found. IfWalk found (λ hops weight _.
        IsTurnWalk (V.network base) (streets_for graph.now.lists ids turns.now) all from.0 hops to.0
        × (weight_of hops ≡ weight))) }

    // Where the potential is feasible, no turn walk weighs less.
    ensures least { (ids : List ℤ) (all : List Turn) →
        IsTableOf (streets_for graph.now.lists ids turns.now) all turns.now →
        IsFeasible (V.network base) (P.bound inner) to.0 →
        IfOk result (λ found. IfWalk found (λ _ weight _.
        IsAtMostEachTurnWalk (V.network base) (streets_for graph.now.lists ids turns.now)
        all from.0 to.0 weight)) }

    // None is given exactly where there is none.
    ensures none { (ids : List ℤ) (all : List Turn) →
        IsTableOf (streets_for graph.now.lists ids turns.now) all turns.now →
        IsFeasible (V.network base) (P.bound inner) to.0 → IfOk result (λ found. IsNoWalk found
        ↔ NoTurnWalk (V.network base) (streets_for graph.now.lists ids turns.now) all from.0 to.0) }

    // It starts at each state that comes before the target, and at none that comes behind it.
    ensures within { from.0 ≢ to.0 → IsFeasible (V.network base) (P.bound inner) to.0 →
        IfOk result (λ found. IfWalk found (λ _ weight settled.
        StartsWithin (by_states (trip_by (V.network base) graph.now.lists turns.now from.0 to.0))
        (bound_by (P.bound inner) graph.now.lists from.0)
        (start_in graph.now.lists) (target_in graph.now.lists) weight settled)) }

    // Where there is no walk, it starts at each state that the start reaches and that has a bound.
    ensures all { from.0 ≢ to.0 → IsFeasible (V.network base) (P.bound inner) to.0 →
        IfOk result (λ found. IfNoWalk found (λ settled.
        StartsAtAll (by_states (trip_by (V.network base) graph.now.lists turns.now from.0 to.0))
        (bound_by (P.bound inner) graph.now.lists from.0)
        (start_in graph.now.lists) (target_in graph.now.lists) settled)) }

    // Where both towers are one, it starts nowhere.
    ensures here { from.0 ≡ to.0 → IfOk result (λ found. settled_of found ≡ 0) }

    // A walk has no more hops than there were starts. To the start itself it has none.
    ensures long { IfOk result (λ found. IfWalk found (λ hops _ settled. length hops ≤ settled)) }
    ensures empty { from.0 ≡ to.0 →
        IfOk result (λ found. IfWalk found (λ hops _ _. hops ≡ [])) }
{
    if from.0 == to.0 {
        return Ok(Found::Walk {
            hops: Hops::new(alloc),
            weight: 0,
            settled: 0,
        });
    }
    let found = search_states(alloc, base, graph, turns, inner, from, to)?;
    by_towers(alloc, graph, found)
}

/// The same, by states.
fn search_states<V: RoadView + Drop, P: Potential + Drop>(
    alloc: Global,
    base: V,
    graph: &BaseGraph,
    turns: &TurnTable<'_>,
    inner: P,
    from: NodeId,
    to: NodeId,
) -> Result<Found, NoMemory>
    requires over { IsOver graph.now.lists (V.network base) }
    requires suits { IsFor graph.now.lists turns.now }
    requires from { from.0 < length graph.now.lists.places }
    requires count { V.starts base ≤ 2 ^ 63 }
    ensures { IfOk result (IsFoundIn
        (by_states (trip_by (V.network base) graph.now.lists turns.now from.0 to.0))
        (bound_by (P.bound inner) graph.now.lists from.0)
        (start_in graph.now.lists) (target_in graph.now.lists)
        (IsFeasible (V.network base) (P.bound inner) to.0)) }
{
    let mut view = TurnView::new(base, graph, turns, from, to);
    let potential = TurnPotential::new(inner, graph, from);
    let start = 2 * graph.edge_count();
    search(
        alloc,
        &mut view,
        &potential,
        NodeId(start),
        NodeId(start + 1),
    )
}

/// What was found by states, from tower to tower.
fn by_towers(alloc: Global, graph: &BaseGraph, found: Found) -> Result<Found, NoMemory>
    requires { IfWalk found (λ hops _ _.
        All (λ hop. hop.by.edge.0 < length graph.now.lists.edges) hops) }
    ensures { IfOk result (IsByTowers graph.now.lists found) }
{
    match found {
        Found::Walk {
            hops,
            weight,
            settled,
        } => Ok(Found::Walk {
            hops: tower_hops(alloc, graph, hops.as_slice())?,
            weight,
            settled,
        }),
        Found::NoWalk { settled } => Ok(Found::NoWalk { settled }),
    }
}

//! Least weights from one node to others.
ghost use Rattle.std.specs.Prelude.{◌≡◌, ◌+◌, ◌^◌, ◌<◌, ◌≤◌, ℕ, Some, List, IfOk};
ghost use Rattle.gh_base.specs.declared.edges.Hop.{Hop};
ghost use Rattle.walk_rules.specs.Walks.{IsWalk, weight_of};
ghost use Rattle.walk_rules.specs.Potentials.{FallsAlong};
ghost use Rattle.walk_rules.specs.Distances.{IsReach};
ghost use Rattle.walk_rules.specs.Evidence.{TellsLeast};
ghost use Rattle.walk_rules.specs.Starts.{StartsOnce};
ghost use Rattle.alt_search.specs.Exploring.{weight_in, nodes_in};

use crate::expansion::expand;
use crate::explored::Explored;
use crate::potential::FlatPotential;
use gh_base::{NoMemory, NodeId, Potential, RoadView};
use std::alloc::Global;

/// Explores from a node until the target is the nearest that is open, or none is open. The target may
/// be a number that is no node.
pub fn explore<V: RoadView, P: Potential>(
    alloc: Global,
    view: &mut V,
    potential: &P,
    start: NodeId,
    target: NodeId,
) -> Result<Explored, NoMemory>
    requires start { start.0 < (V.network view.old).nodes }
    requires count { V.starts view.old ≤ 2 ^ 63 }

    // The view is started once for each node that is settled, and its roads stay.
    ensures network { V.network view.new ≡ V.network view.old }
    ensures starts { IfOk result (λ explored. V.starts view.new ≡ V.starts view.old + explored.settled) }
    ensures rise { V.starts view.new ≤ V.starts view.old + (V.network view.old).nodes }
    ensures once { IfOk result (λ explored.
        StartsOnce (V.network view.old) (P.bound potential.now) start.0 target.0 explored.settled) }

    ensures nodes { IfOk result (λ explored. nodes_in explored ≡ (V.network view.old).nodes) }
    ensures few { IfOk result (λ _. (V.network view.old).nodes < 2 ^ 32) }

    // Where a weight is told, a walk of that weight leads there.
    ensures walks { IfOk result (λ explored. (node weight : ℕ) → weight_in explored node ≡ Some weight →
        (hops : List Hop) × IsWalk (V.network view.old) start.0 hops node × (weight_of hops ≡ weight)) }

    // Where the potential falls along hops, no walk weighs less, and none is told only of what lies behind the target.
    ensures least { FallsAlong (V.network view.old) (P.bound potential.now) →
        IfOk result (λ explored. TellsLeast (V.network view.old) (P.bound potential.now) start.0 target.0 (weight_in explored)) }
{
    let end = expand(alloc, view, potential, start, target)?;
    Ok(Explored::after(end))
}

/// Explores all that a node reaches, with no potential.
pub fn explore_all<V: RoadView>(
    alloc: Global,
    view: &mut V,
    start: NodeId,
) -> Result<Explored, NoMemory>
    requires start { start.0 < (V.network view.old).nodes }
    requires count { V.starts view.old ≤ 2 ^ 63 }
    ensures network { V.network view.new ≡ V.network view.old }
    ensures starts { IfOk result (λ explored. V.starts view.new ≡ V.starts view.old + explored.settled) }
    ensures rise { V.starts view.new ≤ V.starts view.old + (V.network view.old).nodes }
    ensures nodes { IfOk result (λ explored. nodes_in explored ≡ (V.network view.old).nodes) }
    ensures few { IfOk result (λ _. (V.network view.old).nodes < 2 ^ 32) }

    // The weight of each node is the least of a walk there; none is told exactly where there is no walk.
    ensures each { IfOk result (λ explored. (node : ℕ) →
        IsReach (V.network view.old) start.0 node (weight_in explored node)) }
{
    let past = NodeId(view.node_count());
    explore(alloc, view, &FlatPotential, start, past)
}

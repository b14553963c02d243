//! The search for a least walk.
ghost use Rattle.std.specs.Prelude.{◌≡◌, ◌+◌, ◌^◌, ◌<◌, ◌≤◌, ◌↔◌, [], length, IfOk};
ghost use Rattle.walk_rules.specs.Walks.{IsWalk, weight_of, IsAtMostEachWalk, NoWalk};
ghost use Rattle.walk_rules.specs.Potentials.{IsFeasible};
ghost use Rattle.walk_rules.specs.Evidence.{IsShownLeast, IsShownNone};
ghost use Rattle.walk_rules.specs.Starts.{StartsWithin, StartsAtAll, StartsOnce};
ghost use Rattle.alt_search.specs.Findings.{IfWalk, IfNoWalk, IsNoWalk, settled_of};

use crate::expansion::expand;
use crate::tracing::{walk_to, weight_at};
use gh_base::{Hops, NoMemory, NodeId, Potential, RoadView};
use std::alloc::Global;

/// What a search found, and at how many nodes it started the view.
#[derive(Drop)]
pub enum Found {
    /// A least walk, and its weight in ms.
    Walk {
        hops: Hops,
        weight: u128,
        settled: u32,
    },
    /// There is no walk.
    NoWalk {
        settled: u32,
    },
}

/// A least walk from `start` to `target`, looking ahead by a potential (A*).
///
/// With edges of 1, 4, 1, 1 ms and no potential:
///
///     0 --1--> 1 --1--> 3      the walk 0 1 3 weighs 2
///     0 --4--> 2 --1--> 3
///
/// `settled` counts the nodes that the search started at; a better potential makes it smaller. It
/// never starts at the target, nor at a node with no potential. What is said of least walks holds where
/// the potential is feasible for the view and the target; without that a walk that is found is a walk
/// of that weight, and no node is started twice.
pub fn search<V: RoadView, P: Potential>(
    alloc: Global,
    view: &mut V,
    potential: &P,
    start: NodeId,
    target: NodeId,
) -> Result<Found, NoMemory>
    requires start { start.0 < (V.network view.old).nodes }
    requires target { target.0 < (V.network view.old).nodes }
    requires count { V.starts view.old ≤ 2 ^ 63 }

    // What is given is a walk of that weight.
    ensures walk { IfOk result (λ found. IfWalk found (λ hops weight _.
        IsWalk (V.network view.old) start.0 hops target.0 × (weight_of hops ≡ weight))) }

    // Where the potential is feasible, no walk weighs less.
    ensures least { IsFeasible (V.network view.old) (P.bound potential.now) target.0 →
        IfOk result (λ found. IfWalk found (λ _ weight _.
        IsAtMostEachWalk (V.network view.old) start.0 target.0 weight)) }

    // None is given exactly where there is none.
    ensures none { IsFeasible (V.network view.old) (P.bound potential.now) target.0 →
        IfOk result (λ found. IsNoWalk found ↔ NoWalk (V.network view.old) start.0 target.0) }

    // Where there is a walk, labels show that none weighs less; where there is none, a set that no hop
    // leads out of shows it.
    ensures shown { IsFeasible (V.network view.old) (P.bound potential.now) target.0 →
        IfOk result (λ found. IfWalk found (λ _ weight _.
        IsShownLeast (V.network view.old) (P.bound potential.now) start.0 target.0 weight)) }
    ensures closed { IsFeasible (V.network view.old) (P.bound potential.now) target.0 →
        IfOk result (λ found. IfNoWalk found (λ _.
        IsShownNone (V.network view.old) (P.bound potential.now) start.0 target.0)) }

    // The roads stay, and the view is started as often as is told, at no node twice.
    ensures network { V.network view.new ≡ V.network view.old }
    ensures starts { IfOk result (λ found. V.starts view.new ≡ V.starts view.old + settled_of found) }
    ensures rise { V.starts view.new ≤ V.starts view.old + (V.network view.old).nodes }
    ensures once { IfOk result (λ found.
        StartsOnce (V.network view.old) (P.bound potential.now) start.0 target.0 (settled_of found)) }

    // It starts at each candidate that comes before the target, and at none that comes behind it.
    ensures within { IsFeasible (V.network view.old) (P.bound potential.now) target.0 →
        IfOk result (λ found. IfWalk found (λ _ weight settled.
        StartsWithin (V.network view.old) (P.bound potential.now) start.0 target.0 weight settled)) }

    // Where there is no walk, it starts at each candidate.
    ensures all { IsFeasible (V.network view.old) (P.bound potential.now) target.0 →
        IfOk result (λ found. IfNoWalk found (λ settled.
        StartsAtAll (V.network view.old) (P.bound potential.now) start.0 target.0 settled)) }

    // A walk has no more hops than there were starts. To the start itself it has none.
    ensures long { IfOk result (λ found. IfWalk found (λ hops _ settled. length hops ≤ settled)) }
    ensures here { start.0 ≡ target.0 → IfOk result (λ found. settled_of found ≡ 0) }
{
    if start.0 == target.0 {
        return Ok(Found::Walk {
            hops: Hops::from_vec(Vec::new(alloc)),
            weight: 0,
            settled: 0,
        });
    }
    let end = expand(alloc, view, potential, start, target)?;
    if !end.at_target {
        return Ok(Found::NoWalk {
            settled: end.settled,
        });
    }
    let weight = weight_at(&end.reached, target);
    let hops = walk_to(alloc, &end.reached, target)?;
    Ok(Found::Walk {
        hops,
        weight,
        settled: end.settled,
    })
}

//! The walk to a node, traced back over the last hops.
ghost use Rattle.std.specs.Prelude.{◌≡◌, ℕ, Option, Some, List, length, IsSome, IfOk};
ghost use Rattle.gh_base.specs.Networks.{Network};
ghost use Rattle.walk_rules.specs.Walks.{IsWalk, weight_of};
ghost use Rattle.alt_search.specs.declared.reach.Reach.{Reach};
ghost use Rattle.alt_search.specs.Progress.{reach_at, IsTree, IsChain};

use crate::reach::Step;
use crate::reached::Reached;
use gh_base::{Hops, NoMemory, NodeId};
use std::alloc::Global;

/// The walk of a node that was reached.
pub fn walk_to(alloc: Global, reached: &Reached, target: NodeId) -> Result<Hops, NoMemory>
    requires target { IsSome (reach_at reached.now target.0) }
    requires chain { IsChain reached.now }
    ensures { IfOk result (λ hops. (network : Network) (bound : ℕ → Option ℕ) (start settled : ℕ) (keys : List (Option ℕ)) (reach : Reach) →
        IsTree network bound start settled reached.now keys → reach_at reached.now target.0 ≡ Some reach →
        IsWalk network start hops target.0 × (weight_of hops ≡ reach.weight) × (length hops ≡ reach.depth)) }
{
    let mut hops = Vec::new(alloc);
    let mut node = target;
    while let Some(step) = last_step(reached, node) {
        hops.push(step.hop)?;
        node = step.tail;
    }
    hops.reverse();
    Ok(Hops::from_vec(hops))
}

/// The last hop of a node's walk.
fn last_step(reached: &Reached, node: NodeId) -> Option<Step>
    requires { IsSome (reach_at reached.now node.0) }
    ensures { (reach : Reach) → reach_at reached.now node.0 ≡ Some reach → result ≡ reach.last }
{
    match reached.reach(node) {
        Some(reach) => reach.last,
        None => unreachable!(),
    }
}

/// The weight of a node's walk.
pub fn weight_at(reached: &Reached, node: NodeId) -> u128
    requires { IsSome (reach_at reached.now node.0) }
    ensures { (reach : Reach) → reach_at reached.now node.0 ≡ Some reach → result ≡ reach.weight }
{
    match reached.weight(node) {
        Some(weight) => weight,
        None => unreachable!(),
    }
}

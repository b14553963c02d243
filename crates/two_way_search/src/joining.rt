//! The walk over the node where both sides meet.
ghost use Rattle.std.specs.Prelude.{◌≡◌, ◌+◌, ℕ, Option, Some, List, length, IsSome, IfOk};
ghost use Rattle.gh_base.specs.Networks.{Network};
ghost use Rattle.walk_rules.specs.Walks.{IsWalk, weight_of};
ghost use Rattle.alt_search.specs.declared.reach.Reach.{Reach};
ghost use Rattle.alt_search.specs.Progress.{reach_at, IsChain};
ghost use Rattle.walk_rules.specs.Turned.{IsTurned};
ghost use Rattle.two_way_search.specs.Sides.{IsTree};

use alt_search::{Reached, Step, walk_to};
use gh_base::{Hop, Hops, NoMemory, NodeId};
use std::alloc::Global;

/// The hops of a walk from the start to a node that both sides reached, and on to the target.
pub fn walk_over(
    alloc: Global,
    forward: &Reached,
    backward: &Reached,
    node: NodeId,
) -> Result<Hops, NoMemory>
    requires here { IsSome (reach_at forward.now node.0) }
    requires there { IsSome (reach_at backward.now node.0) }
    requires chain { IsChain forward.now }
    requires chain_back { IsChain backward.now }
    ensures { IfOk result (λ hops. (out back : Network) (bound other : ℕ → Option ℕ)
        (start target settled count : ℕ) (keys rest : List (Option ℕ)) (here there : Reach) →
        IsTurned out back → IsTree out bound start settled forward.now keys →
        IsTree back other target count backward.now rest →
        reach_at forward.now node.0 ≡ Some here → reach_at backward.now node.0 ≡ Some there →
        IsWalk out start hops target × (weight_of hops ≡ here.weight + there.weight)
        × (length hops ≡ here.depth + there.depth)) }
{
    let mut hops = walk_to(alloc, forward, node)?;
    let mut at = node;
    while let Some(step) = last_step(backward, at) {
        hops.push(Hop {
            to: step.tail,
            by: step.hop.by,
            weight: step.hop.weight,
        })?;
        at = step.tail;
    }
    Ok(hops)
}

/// The last hop of a node's walk.
fn last_step(reached: &Reached, node: NodeId) -> Option<Step>
    requires { IsSome (reach_at reached.now node.0) }
    ensures { (reach : Reach) → reach_at reached.now node.0 ≡ Some reach → result ≡ reach.last }
{
    match reached.reach(node) {
        Some(reach) => reach.last,
        None => unreachable!(),
    }
}

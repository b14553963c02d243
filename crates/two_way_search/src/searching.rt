//! The search from both ends.
ghost use Rattle.std.specs.Prelude.{◌≡◌, ◌+◌, ◌^◌, ◌<◌, ◌≤◌, ◌↔◌, ◌⊎◌, [], length, IfOk};
ghost use Rattle.walk_rules.specs.Walks.{IsWalk, weight_of, IsAtMostEachWalk, NoWalk};
ghost use Rattle.walk_rules.specs.Potentials.{IsFeasible};
ghost use Rattle.walk_rules.specs.Turned.{IsTurned};
ghost use Rattle.two_way_search.specs.Keys.{StartsOnBothSides};
ghost use Rattle.two_way_search.specs.Answers.{IfWalk, IsNoWalk, forward_of, backward_of, NeedsNoSearch};

use crate::joining::walk_over;
use crate::side::reduced_at;
use crate::turns::expand_both;
use gh_base::{Hops, NoMemory, NodeId, Potential, RoadView};
use std::alloc::Global;

/// What a search from both ends found, and at how many nodes it started each view.
#[derive(Drop)]
pub enum Both {
    /// A least walk, and its weight in ms.
    Walk {
        hops: Hops,
        weight: u128,
        forward: u32,
        backward: u32,
    },
    /// There is no walk.
    NoWalk {
        forward: u32,
        backward: u32,
    },
}

/// A least walk from `start` to `target`, searched from both ends in turn, forward first. `back` is
/// `out` turned round; `ahead` says what is left to the target, `behind` what lies behind from the
/// start.
///
/// With edges of 3, 3, 3, 5, 5 ms and no potentials both ends first meet at 4, by a walk of 10 ms:
///
///     0 --3--> 1 --3--> 2 --3--> 3      the walk 0 1 2 3 weighs 9
///     0 ------5---> 4 ---5-----> 3
///
/// They go on until their least keys are together no less than the best walk's total, or one of
/// them has nothing open. Neither starts at a node twice.
pub fn search_both<V: RoadView, W: RoadView, P: Potential, Q: Potential>(
    alloc: Global,
    out: &mut V,
    back: &mut W,
    ahead: &P,
    behind: &Q,
    start: NodeId,
    target: NodeId,
) -> Result<Both, NoMemory>
    requires start { start.0 < (V.network out.old).nodes }
    requires target { target.0 < (V.network out.old).nodes }
    requires count { V.starts out.old ≤ 2 ^ 63 }
    requires count_back { W.starts back.old ≤ 2 ^ 63 }
    requires turned { IsTurned (V.network out.old) (W.network back.old) }
    requires ahead { IsFeasible (V.network out.old) (P.bound ahead.now) target.0 }
    requires behind { IsFeasible (W.network back.old) (Q.bound behind.now) start.0 }

    // What is given is a walk of that weight, and none weighs less.
    ensures walk { IfOk result (λ both. IfWalk both (λ hops weight.
        IsWalk (V.network out.old) start.0 hops target.0 × (weight_of hops ≡ weight))) }
    ensures least { IfOk result (λ both. IfWalk both (λ _ weight.
        IsAtMostEachWalk (V.network out.old) start.0 target.0 weight)) }

    // None is given exactly where there is none.
    ensures none { IfOk result (λ both.
        IsNoWalk both ↔ NoWalk (V.network out.old) start.0 target.0) }

    // The roads stay, and each view is started as often as is told: in turn, the first one first.
    ensures network { V.network out.new ≡ V.network out.old }
    ensures network_back { W.network back.new ≡ W.network back.old }
    ensures starts { IfOk result (λ both. V.starts out.new ≡ V.starts out.old + forward_of both) }
    ensures starts_back { IfOk result (λ both.
        W.starts back.new ≡ W.starts back.old + backward_of both) }
    ensures turns { IfOk result (λ both.
        (forward_of both ≡ backward_of both) ⊎ (forward_of both ≡ backward_of both + 1)) }
    ensures rise { V.starts out.new ≤ V.starts out.old + (V.network out.old).nodes }
    ensures rise_back { W.starts back.new ≤ W.starts back.old + (V.network out.old).nodes }

    // Nothing is started where nothing is to be searched; elsewhere the keys say at which nodes.
    ensures nowhere { NeedsNoSearch (P.bound ahead.now) (Q.bound behind.now) start.0 target.0 →
        IfOk result (λ both. (forward_of both ≡ 0) × (backward_of both ≡ 0)) }
    ensures started { IfOk result (λ both.
        (NeedsNoSearch (P.bound ahead.now) (Q.bound behind.now) start.0 target.0 → ⊥) →
        StartsOnBothSides (V.network out.old) (W.network back.old) (P.bound ahead.now)
        (Q.bound behind.now) start.0 target.0 (forward_of both) (backward_of both)) }

    // A walk has no more hops than there were starts. To the start itself it has none.
    ensures long { IfOk result (λ both. IfWalk both (λ hops _.
        length hops ≤ forward_of both + backward_of both)) }
    ensures empty { start.0 ≡ target.0 →
        IfOk result (λ both. IfWalk both (λ hops _. hops ≡ [])) }
{
    if start.0 == target.0 {
        return Ok(Both::Walk {
            hops: Hops::from_vec(Vec::new(alloc)),
            weight: 0,
            forward: 0,
            backward: 0,
        });
    }
    let Some(first) = reduced_at(ahead, behind, start) else {
        return Ok(Both::NoWalk {
            forward: 0,
            backward: 0,
        });
    };
    let Some(second) = reduced_at(behind, ahead, target) else {
        return Ok(Both::NoWalk {
            forward: 0,
            backward: 0,
        });
    };
    let sides = expand_both(
        alloc, out, back, ahead, behind, start, target, first, second,
    )?;
    let (forward, backward) = (sides.forward.settled, sides.backward.settled);
    let Some(best) = sides.met else {
        return Ok(Both::NoWalk { forward, backward });
    };
    let hops = walk_over(
        alloc,
        &sides.forward.reached,
        &sides.backward.reached,
        best.node,
    )?;
    Ok(Both::Walk {
        hops,
        weight: best.weight,
        forward,
        backward,
    })
}

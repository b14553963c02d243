//! The answer between two towers.
ghost use Rattle.std.specs.Prelude.{◌≡◌, ◌<◌, ◌↔◌, [], length, IfOk};
ghost use Rattle.walk_rules.specs.Walks.{IsLeast, NoWalk, weight_of};
ghost use Rattle.walk_rules.specs.Potentials.{IsFeasible};
ghost use Rattle.two_way_search.specs.Answers.{IfWalk, IsNoWalk, forward_of, backward_of};
ghost use Rattle.map_roads.specs.Opening.{opening_network};
ghost use Rattle.both_runs.specs.Guided.{opening_back};
ghost use Rattle.both_runs.specs.Lines.{AreRightStarts, IsRightBy};

use crate::answer::BothAnswer;
use gh_base::{NoMemory, NodeId, Potential};
use map_roads::walk_mm;
use std::alloc::Global;
use traffic_core::{GREATEST_WEIGHT, Ground};
use two_way_search::{Both, search_both};
use weighting::{Opening, Side, WeightView, Weighting, sides_turn_along_edges};

/// A search from both ends over the roads as the first profile weighs them at the opening limits.
fn search_between<P: Potential, Q: Potential>(
    alloc: Global,
    ground: &Ground,
    ahead: &P,
    behind: &Q,
    from: NodeId,
    to: NodeId,
) -> Result<Both, NoMemory>
    requires there { 0 < length ground.now.profiles }
    requires from { from.0 < length ground.now.graph.places }
    requires to { to.0 < length ground.now.graph.places }
    requires ahead { IsFeasible (opening_network ground.now) (P.bound ahead.now) to.0 }
    requires behind { IsFeasible (opening_back ground.now) (Q.bound behind.now) from.0 }
    ensures least { IfOk result (λ both. IfWalk both (λ hops weight.
        IsLeast (opening_network ground.now) from.0 hops to.0 × (weight_of hops ≡ weight))) }
    ensures none { IfOk result (λ both.
        IsNoWalk both ↔ NoWalk (opening_network ground.now) from.0 to.0) }
    ensures starts { IfOk result (λ both.
        AreRightStarts ground.now (P.bound ahead.now) (Q.bound behind.now) from.0 to.0
        (forward_of both) (backward_of both)) }
    ensures empty { from.0 ≡ to.0 → IfOk result (λ both. IfWalk both (λ hops _. hops ≡ [])) }
{
    sides_turn_along_edges();
    let graph = ground.graph();
    let opening = Opening::new(graph);
    let weighting = Weighting::new(ground.profile(0), None);
    let mut out = WeightView::new(graph, &opening, &weighting, Side::Out);
    let mut back = WeightView::new(graph, &opening, &weighting, Side::Back);
    search_both(alloc, &mut out, &mut back, ahead, behind, from, to)
}

/// The answer between two towers of the ground by a search that looks ahead to the second by one
/// potential, and behind from the first by another.
pub(crate) fn answer_by<P: Potential, Q: Potential>(
    alloc: Global,
    ground: &Ground,
    ahead: &P,
    behind: &Q,
    from: NodeId,
    to: NodeId,
) -> Result<BothAnswer, NoMemory>
    requires there { 0 < length ground.now.profiles }
    requires from { from.0 < length ground.now.graph.places }
    requires to { to.0 < length ground.now.graph.places }
    requires ahead { IsFeasible (opening_network ground.now) (P.bound ahead.now) to.0 }
    requires behind { IsFeasible (opening_back ground.now) (Q.bound behind.now) from.0 }
    ensures { IfOk result
        (IsRightBy ground.now (P.bound ahead.now) (Q.bound behind.now) from.0 to.0) }
{
    match search_between(alloc, ground, ahead, behind, from, to)? {
        Both::NoWalk { forward, backward } => Ok(BothAnswer::NoRoute { forward, backward }),
        Both::Walk {
            hops,
            weight,
            forward,
            backward,
        } => {
            if weight > GREATEST_WEIGHT {
                return Ok(BothAnswer::Overflow { weight });
            }
            let mm = walk_mm(ground.graph(), hops.as_slice());
            Ok(BothAnswer::Walk {
                weight,
                mm,
                forward,
                backward,
                hops,
            })
        }
    }
}

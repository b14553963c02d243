//! Routes: least walks between two places.
ghost use Rattle.std.specs.Prelude.{◌≡◌, ◌<◌, ◌≤◌, ℕ, Option, List, length, take, IfOk, IfSome};
ghost use Rattle.gh_base.specs.declared.edges.Hop.{Hop};
ghost use Rattle.walk_rules.specs.Potentials.{IsFeasible};
ghost use Rattle.weighting.specs.Rules.{alone};
ghost use Rattle.weighting.specs.Roads.{AreOver};
ghost use Rattle.weighting.specs.SlowRoads.{OnlySlows, IsSlowing};
ghost use Rattle.weighting.specs.Profiles.{profile_at};
ghost use Rattle.traffic_core.specs.Lands.{rule_alone};
ghost use Rattle.gh_base.specs.Places.{IsPlace};
ghost use Rattle.traffic_core.specs.Spots.{IsOn};
ghost use Rattle.traffic_core.specs.Trips.{trip_by, mm_between, trip_network, trip_target};
ghost use Rattle.traffic_core.specs.Trips.{start_for, target_for};
ghost use Rattle.traffic_core.specs.Truth.{IsTrueOver, IsBoundOf, CanGuide};
ghost use Rattle.traffic_core.specs.Seen.{seen};
ghost use Rattle.traffic_core.specs.Answers as spec;

use crate::ground::Ground;
use crate::guiding::potential_between;
use crate::lengths::walk_mm;
use crate::pieces::Pieces;
use crate::query::RouteQuery;
use crate::spot::Spot;
use alt_search::{FlatPotential, Found, search};
use base_graph::BaseGraph;
use gh_base::{LabelList, Limits, NoMemory, NodeId, Place, Potential, RoadView, RouteAnswer};
use label_certificate::labels_of;
use landmark_prep::Prep;
use query_graph::QueryView;
use std::alloc::Global;
use weighting::{Side, WeightView, Weighting};

/// The greatest weight of a route that is answered, in ms: whole numbers up to it are exact
/// wherever they are read.
pub const GREATEST_WEIGHT: u128 = 9_007_199_254_740_991;

/// Two spots, and the nodes that stand for them in a view.
#[derive(Clone, Copy)]
struct Ends {
    from: Spot,
    to: Spot,
    start: NodeId,
    target: NodeId,
}

/// The labels of so many towers, without those of the nodes behind them.
fn front_of(labels: LabelList, towers: u32) -> LabelList
    requires { towers ≤ length labels }
    ensures { result ≡ take towers labels }
{
    let mut list = labels.into_vec();
    list.truncate(towers as usize);
    LabelList::from_vec(list)
}

/// The answer to a search from end to end: a least walk, or labels that show that no walk weighs
/// less. It is right where the potential is feasible.
fn answer_over<V: RoadView, P: Potential>(
    alloc: Global,
    graph: &BaseGraph,
    view: &mut V,
    potential: &P,
    ends: Ends,
    labels: bool,
) -> Result<RouteAnswer, NoMemory>
    requires from { IsOn graph.now.lists ends.from }
    requires to { IsOn graph.now.lists ends.to }
    requires start { ends.start.0 < (V.network view.old).nodes }
    requires target { ends.target.0 < (V.network view.old).nodes }
    requires starts { V.starts view.old ≡ 0 }
    requires towers { length graph.now.lists.places ≤ (V.network view.old).nodes }
    requires over { (hops : List Hop) →
        spec.IsWalkIn (V.network view.old) ends.start.0 ends.target.0 hops →
        AreOver graph.now.lists hops }
    ensures { let network = V.network view.old in
        IsFeasible network (P.bound potential.now) ends.target.0 →
        IfOk result (spec.IsRightAmong (spec.IsWalkIn network ends.start.0 ends.target.0)
        (spec.plan_over network (P.bound potential.now) ends.start.0 ends.target.0)
        (mm_between graph.now.lists ends.from ends.to) (length graph.now.lists.places) labels) }
{
    match search(alloc, view, potential, ends.start, ends.target)? {
        Found::NoWalk { settled } => Ok(RouteAnswer::NoRoute { settled }),
        Found::Walk {
            hops,
            weight,
            settled,
        } => {
            if weight > GREATEST_WEIGHT {
                return Ok(RouteAnswer::WeightOverflow { weight });
            }
            let weight = weight as u64;
            if labels {
                let list = labels_of(alloc, view, potential, ends.start, ends.target, weight)?;
                return Ok(RouteAnswer::Labelled {
                    weight,
                    labels: front_of(list, graph.node_count()),
                });
            }
            let mm = walk_mm(graph, ends.from, ends.to, hops.as_slice());
            Ok(RouteAnswer::Walk {
                weight,
                mm,
                settled,
                hops,
            })
        }
    }
}

/// The node that stands for the start, where the towers are so many.
fn start_node(from: Spot, towers: u32) -> NodeId
    ensures { result.0 ≡ start_for from towers }
{
    match from {
        Spot::Tower(node) => node,
        Spot::Inside { edge: _, mm: _ } => NodeId(towers),
    }
}

/// The node that stands for the target.
fn target_node(to: Spot, towers: u32) -> NodeId
    requires { towers ≤ 2000000 }
    ensures { result.0 ≡ target_for to towers }
{
    match to {
        Spot::Tower(node) => node,
        Spot::Inside { edge: _, mm: _ } => NodeId(towers + 1),
    }
}

/// The answer for two spots by a search that looks ahead by a potential.
fn answer_by<L: Limits, P: Potential>(
    alloc: Global,
    pieces: &Pieces<'_, L>,
    potential: &P,
    from: Spot,
    to: Spot,
    labels: bool,
) -> Result<RouteAnswer, NoMemory>
    requires from { IsOn pieces.now.graph.now.lists from }
    requires to { IsOn pieces.now.graph.now.lists to }
    ensures { let graph = pieces.now.graph.now.lists in
        let limits = L.limit_of pieces.now.limits.now in
        let trip = trip_by pieces.now.weighting.now limits graph from to in
        IsFeasible (trip_network trip) (P.bound potential.now) (trip_target trip) →
        IfOk result (spec.IsRightTrip trip graph from to labels (P.bound potential.now)) }
{
    let graph = pieces.graph;
    let towers = graph.node_count();
    let roads = WeightView::new(graph, pieces.limits, pieces.weighting, Side::Out);
    let mut view = QueryView::new(
        roads,
        pieces.leave(from),
        pieces.reach(to),
        pieces.direct(from, to),
    );
    let ends = Ends {
        from,
        to,
        start: start_node(from, towers),
        target: target_node(to, towers),
    };
    answer_over(alloc, graph, &mut view, potential, ends, labels)
}

/// The answer for two spots. A preparation guides the search, if there is one.
fn answer_between<L: Limits>(
    alloc: Global,
    ground: &Ground,
    pieces: &Pieces<'_, L>,
    prep: Option<&Prep>,
    from: Spot,
    to: Spot,
    labels: bool,
) -> Result<RouteAnswer, NoMemory>
    requires ground { pieces.now.graph.now.lists ≡ ground.now.graph }
    requires from { IsOn pieces.now.graph.now.lists from }
    requires to { IsOn pieces.now.graph.now.lists to }
    requires slow { IsSlowing pieces.now.weighting.now }
    requires profile { IfSome prep (λ p. alone pieces.now.weighting.now
        ≡ rule_alone (profile_at ground.now.profiles p.now.profile)) }
    requires prep { IfSome prep (λ p.
        CanGuide ground.now (L.limit_of pieces.now.limits.now) p.now.profile p.now) }
    ensures { let graph = pieces.now.graph.now.lists in
        let limits = L.limit_of pieces.now.limits.now in
        let trip = trip_by pieces.now.weighting.now limits graph from to in
        IfSome prep.entry (λ p. IsTrueOver ground.now p.now) →
        IfOk result (λ answer.
        (bound : ℕ → Option ℕ) × IsBoundOf ground.now trip from to (seen prep.entry) bound
        × spec.IsRightTrip trip graph from to labels bound answer) }
{
    let Some(prep) = prep else {
        return answer_by(alloc, pieces, &FlatPotential, from, to, labels);
    };
    let potential = potential_between(ground, pieces, prep, from, to);
    answer_by(alloc, pieces, &potential, from, to, labels)
}

/// The answer for a place, the first or the second, that isn't on the roads.
fn missing(place: Place, point: u32) -> RouteAnswer
    ensures { result ≡ spec.missing place point }
{
    match place {
        Place::Id(id) => RouteAnswer::NoNode { id },
        Place::At(_) => RouteAnswer::NoSnap { point },
    }
}

/// The answer to a query at present limits: a least walk between its places, or why there is none
/// to give. A preparation, if there is one, guides the search. Where that is one of the profile at
/// limits that were nowhere lower, the answer is right.
pub fn route<L: Limits>(
    alloc: Global,
    ground: &Ground,
    limits: &L,
    prep: Option<&Prep>,
    query: &RouteQuery<'_>,
) -> Result<RouteAnswer, NoMemory>
    requires limits { L.edges limits.now ≡ length ground.now.graph.edges }
    requires profile { query.now.profile < length ground.now.profiles }
    requires from { IsPlace query.now.from }
    requires to { IsPlace query.now.to }
    requires slow { OnlySlows (profile_at ground.now.profiles query.now.profile).model query.now.model.now }
    requires prep { IfSome prep (λ p.
        CanGuide ground.now (L.limit_of limits.now) query.now.profile p.now) }
    ensures right { IfSome prep.entry (λ p. IsTrueOver ground.now p.now) →
        IfOk result (spec.IsRightAnswer ground.now (L.limit_of limits.now) (seen prep.entry)
        (spec.asked query.now)) }
{
    let Some(from) = ground.spot(query.profile, query.from) else {
        return Ok(missing(query.from, 1));
    };
    let Some(to) = ground.spot(query.profile, query.to) else {
        return Ok(missing(query.to, 2));
    };
    let weighting = Weighting::new(ground.profile(query.profile), Some(query.model));
    let pieces = Pieces::new(ground.graph(), limits, &weighting);
    answer_between(alloc, ground, &pieces, prep, from, to, query.labels)
}

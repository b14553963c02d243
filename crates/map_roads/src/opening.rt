//! Searches of cars at the limits that roads open with: what guides them, and how long a walk is.
ghost use Rattle.std.specs.Prelude.{◌≡◌, ◌<◌, ◌≤◌, ◌*◌, ◌-◌, ◌^◌, ℕ, [], Some, length, IfOk};
ghost use Rattle.std.specs.List.{sum_by};
ghost use Rattle.walk_rules.specs.Potentials.{IsFeasible};
ghost use Rattle.weighting.specs.Roads.{AreOver};
ghost use Rattle.landmark_prep.specs.Answers.{IfPrep};
ghost use Rattle.traffic_core.specs.Trips.{edge_mm};
ghost use Rattle.traffic_core.specs.Truth.{IsPrepAt, IsTrueOver};
ghost use Rattle.map_roads.specs.Opening.{opening_network, guide_of, IsGuideOf, IsBoundBetween};

use base_graph::BaseGraph;
use gh_base::{Hop, NoMemory, NodeId, Potential};
use landmark_prep::{Goal, LandmarkPotential, Made, Prep, preparations_are_one, preparations_fit};
use std::alloc::Global;
use std::thread::Threads;
use traffic_core::{Ground, RoadState};
use traffic_share::prepare_at;
use weighting::no_hop_is_faster;

/// What is made of the roads at the opening limits, for the first profile.
pub fn prepare_opening<R: Threads + Sync>(
    rt: &R,
    alloc: Global,
    ground: &Ground,
    count: u32,
) -> Result<Made, NoMemory>
    requires there { 0 < length ground.now.profiles }
    requires some { 1 ≤ count }
    requires few { count ≤ 16 }
    ensures guide { IfOk result (λ made. IsGuideOf ground.now count (guide_of made)) }
    ensures true_over { IfOk result (λ made. IfPrep made (λ prep. IsTrueOver ground.now prep)) }
{
    preparations_are_one();
    let state = RoadState::with_room(alloc, ground, 0)?;
    let made = prepare_at(rt, alloc, &state, 0, count)?;
    Ok(made)
}

/// The bounds of the active landmarks of a preparation between two towers. Where it is one of the
/// opening limits, they are feasible.
pub fn potential_between<'p>(
    ground: &Ground,
    prep: &'p Prep,
    from: NodeId,
    to: NodeId,
) -> LandmarkPotential<'p>
    requires prep { (count : ℕ) × IsPrepAt ground.now [] 0 count prep.now }
    requires from { from.0 < length ground.now.graph.places }
    requires to { to.0 < length ground.now.graph.places }
    ensures bound { IsBoundBetween ground.now from to (Some prep.now)
        (⟦<LandmarkPotential<'p> as Potential>⟧.bound result) }
    ensures feasible { IsFeasible (opening_network ground.now)
        (⟦<LandmarkPotential<'p> as Potential>⟧.bound result) to.0 }
{
    preparations_are_one();
    preparations_fit();
    no_hop_is_faster();
    // Feasible bounds rest on the facts of the graph.
    ground.graph();
    let active = prep.pick_active(from, to);
    prep.potential(active, Goal::Node(to))
}

/// The mm of the edges of a walk, each of which has less than 2^32.
pub fn walk_mm(graph: &BaseGraph, hops: &[Hop]) -> u128
    requires { AreOver graph.now.lists hops.now }
    ensures sum { result ≡ sum_by (edge_mm graph.now.lists) hops.now }
    ensures small { result ≤ length hops.now * (2 ^ 32 - 1) }
{
    let mut mm = 0u128;
    for hop in hops {
        mm += u128::from(graph.edge(hop.by.edge).mm);
    }
    mm
}

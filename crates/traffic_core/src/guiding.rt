//! How a preparation guides a search.
ghost use Rattle.std.specs.Prelude.{◌≡◌, ◌<◌, Some, length};
ghost use Rattle.walk_rules.specs.Potentials.{IsFeasible};
ghost use Rattle.weighting.specs.Rules.{alone};
ghost use Rattle.weighting.specs.SlowRoads.{IsSlowing, AreNowhereAbove};
ghost use Rattle.landmark_prep.specs.Preparations.{nodes_of};
ghost use Rattle.weighting.specs.Profiles.{profile_at};
ghost use Rattle.traffic_core.specs.Lands.{rule_alone};
ghost use Rattle.traffic_core.specs.History.{limit_in};
ghost use Rattle.traffic_core.specs.Spots.{IsOn};
ghost use Rattle.traffic_core.specs.Trips.{trip_by, trip_network, trip_target};
ghost use Rattle.traffic_core.specs.Truth as spec;

use crate::ground::Ground;
use crate::pieces::Pieces;
use crate::spot::Spot;
use base_graph::BaseGraph;
use gh_base::{Limits, NodeId, Potential};
use landmark_prep::{LandmarkPotential, Prep, preparations_fit};
use weighting::no_hop_is_faster;

/// The tower that stands for a spot where landmarks are picked: the base of its edge for one inside an edge.
fn representative(graph: &BaseGraph, spot: Spot) -> NodeId
    requires { IsOn graph.now.lists spot }
    ensures is { result.0 ≡ spec.representative graph.now.lists spot }
    ensures there { result.0 < length graph.now.lists.places }
{
    match spot {
        Spot::Tower(node) => node,
        Spot::Inside { edge, mm: _ } => graph.edge(edge).base,
    }
}

/// The bounds of a preparation's active landmarks for a search between two spots. Where the preparation is
/// true over the ground, they are feasible.
pub(crate) fn potential_between<'a, L: Limits>(
    ground: &Ground,
    pieces: &Pieces<'_, L>,
    prep: &'a Prep,
    from: Spot,
    to: Spot,
) -> LandmarkPotential<'a>
    requires ground { pieces.now.graph.now.lists ≡ ground.now.graph }
    requires from { IsOn pieces.now.graph.now.lists from }
    requires to { IsOn pieces.now.graph.now.lists to }
    requires slow { IsSlowing pieces.now.weighting.now }
    requires profile { alone pieces.now.weighting.now ≡ rule_alone (profile_at ground.now.profiles prep.now.profile) }
    requires nodes { nodes_of prep.now.labels ≡ length ground.now.graph.places }
    requires above { AreNowhereAbove ground.now.graph (L.limit_of pieces.now.limits.now) (limit_in prep.now.snapshot) }
    ensures bound { let trip = trip_by pieces.now.weighting.now (L.limit_of pieces.now.limits.now) pieces.now.graph.now.lists from to in
        spec.IsBoundOf ground.now trip from to (Some prep.now) (⟦<LandmarkPotential<'a> as Potential>⟧.bound result) }
    ensures feasible { let trip = trip_by pieces.now.weighting.now (L.limit_of pieces.now.limits.now) pieces.now.graph.now.lists from to in
        spec.IsTrueOver ground.now prep.now →
        IsFeasible (trip_network trip) (⟦<LandmarkPotential<'a> as Potential>⟧.bound result) (trip_target trip) }
{
    preparations_fit();
    no_hop_is_faster();
    let active = prep.pick_active(
        representative(pieces.graph, from),
        representative(pieces.graph, to),
    );
    prep.potential(active, pieces.reach(to))
}

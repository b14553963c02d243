//! Laws of weights and views: what each function ensures is the law.
ghost use Rattle.weighting.specs.SlowRoads.{HasStored, NoHopIsFaster, NoWeightFalls, SidesAreTurned, SidesTurnAlongEdges, ValuesAreStored};
ghost use Rattle.weighting.specs.Weights.{WeightsFit};

use base_graph::BaseGraph;

/// A weight fits 64 bits at any influence of distance that fits 32.
pub fn weights_fit()
    ensures { WeightsFit }
{}

/// Under a query that only slows, and at a limit that isn't above an earlier one, a weight is none or at least the
/// profile's own of then.
pub fn no_weight_falls()
    ensures { NoWeightFalls }
{}

/// So no hop is faster than under the profile alone.
pub fn no_hop_is_faster()
    ensures { NoHopIsFaster }
{}

/// The hops of the one side are those of the other, turned round.
pub fn sides_are_turned()
    ensures { SidesAreTurned }
{}

/// They are over the same directed edges.
pub fn sides_turn_along_edges()
    ensures { SidesTurnAlongEdges }
{}

/// The values of a graph's edges are in the ranges that are stored.
pub fn graph_values_are_stored(graph: &BaseGraph)
    ensures { HasStored graph.now.lists }
{}

/// They are so in every graph.
pub fn values_are_stored_in_each_graph()
    ensures { ValuesAreStored }
{}

//! The edges that can be used under a profile.
ghost use Rattle.std.specs.Prelude.{All, IfOk};
ghost use Rattle.std.specs.List.{AllZip};
ghost use Rattle.model_eval.specs.Models.{IsModel};
ghost use Rattle.weighting.specs.declared.profile.Profile.{Profile};
ghost use Rattle.traffic_core.specs.Grounds.{AreUsable};

use base_graph::BaseGraph;
use gh_base::{EdgeId, NoMemory};
use location_grid::EdgeBits;
use std::alloc::Global;
use weighting::{Profile, Weighting};

/// The edges that can be used under a profile alone.
fn usable_under(alloc: Global, graph: &BaseGraph, profile: &Profile) -> Result<EdgeBits, NoMemory>
    requires { IsModel profile.now.model }
    ensures { IfOk result (AreUsable graph.now.lists profile.now) }
{
    let alone = Weighting::new(profile, None);
    let mut bits = EdgeBits::new(alloc, graph.edge_count())?;
    for number in 0..graph.edge_count() {
        let edge = EdgeId(number);
        if alone.is_usable(graph, edge) {
            bits.add(edge);
        }
    }
    Ok(bits)
}

/// The edges that can be used, by profile.
pub(crate) fn usable_edges(
    alloc: Global,
    graph: &BaseGraph,
    profiles: &[Profile],
) -> Result<Vec<EdgeBits>, NoMemory>
    requires { All (λ (profile : Profile). IsModel profile.model) profiles.now }
    ensures { IfOk result (λ sets. AllZip (AreUsable graph.now.lists) profiles.now sets.items) }
{
    let mut sets = Vec::new(alloc);
    for profile in profiles {
        sets.push(usable_under(alloc, graph, profile)?)?;
    }
    Ok(sets)
}

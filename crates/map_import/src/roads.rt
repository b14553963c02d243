//! The roads of a map.
ghost use Rattle.std.specs.Ordering.{int_eq};
ghost use Rattle.std.specs.Prelude.{◌≡◌, ◌≢◌, ◌<◌, ℕ, ℤ, [], length, Ok, All, OnOk, IfOk, IfErr};
ghost use Rattle.std.specs.List.{IsDistinct};
ghost use Rattle.gh_base.specs.declared.map.OsmNode.{OsmNode};
ghost use Rattle.gh_base.specs.Places.{IsOnEarth};
ghost use Rattle.base_graph.specs.Graphs.{edge_at, points_of};
ghost use Rattle.geo_math.specs.Lengths.{line_length};
ghost use Rattle.map_import.specs.Roads.{place_in, points_along};
ghost use Rattle.map_import.specs.Refusals.{roads, Refuses};
ghost use Rattle.map_import.specs.Building.{laid_as};

use crate::builder::Builder;
use crate::faults::ImportFault;
use crate::places::{check_ways, places_of};
use crate::towers::towers_of;
use crate::used::all_used;
use base_graph::BaseGraph;
use gh_base::{IdList, OsmMap};
use std::alloc::Global;

/// A base graph, and the id of each of its towers by number.
#[derive(Drop)]
pub struct Roads {
    pub graph: BaseGraph,
    pub ids: IdList,
}

/// The roads of a map: its used ways, cut at their towers, or the first refusal.
///
/// With a way over the nodes 1, 2, 3 and another over 2, 4 the towers are 1, 2, 3 and 4:
///
///     1 --0-- 2 --1-- 3
///             2 --2-- 4
pub fn import(alloc: Global, map: &OsmMap) -> Result<Roads, ImportFault>
    requires { All (λ (node : OsmNode). IsOnEarth node.place) map.now.nodes }
    ensures roads { IfOk result (λ found. roads map.now ≡ Ok (laid_as found.ids found.graph.lists)) }
    ensures refused { IfErr result (Refuses (roads map.now)) }
    ensures places { IfOk result (λ found. found.graph.lists.places ≡ points_along (place_in map.now.nodes) found.ids) }
    ensures ids { IfOk result (λ found. IsDistinct int_eq found.ids) }
    ensures lengths { IfOk result (λ found. (edge : ℕ) → edge < length found.graph.lists.edges
        → (edge_at found.graph.lists.edges edge).mm ≡ line_length (points_of found.graph.lists edge)) }
{
    let places = places_of(alloc, map.nodes.as_slice())?;
    let ways = all_used(alloc, map.ways.as_slice())?;
    check_ways(&places, &ways)?;
    let towers = towers_of(alloc, &ways)?;
    let mut builder = Builder::new(alloc)?;
    builder.lay_ways(alloc, &places, &towers, &ways)?;
    Ok(builder.into_roads())
}

//! Where edges come from.
ghost use Rattle.std.specs.Ordering.{int_eq};
ghost use Rattle.std.specs.Prelude.{◌≡◌, ◌++◌, Ok, length, OnOk, IfOk};
ghost use Rattle.std.specs.HashMap.{get};
ghost use Rattle.map_import.specs.Roads.{pieces_of_way, way_ids, ways_of_edges};
ghost use Rattle.map_import.specs.Refusals.{Laid, roads};
ghost use Rattle.map_import.specs.Building.{tower_by};

use crate::towers::{is_marked, towers_of};
use crate::used::{Used, all_used};
use gh_base::{IdList, NoMemory, OsmMap};
use std::alloc::Global;
use std::collections::HashMap;

/// Appends the id of a way once for each of its pieces: one ends at each tower behind the first node.
fn push_way(ids: &mut IdList, towers: &HashMap<i64, bool>, way: &Used) -> Result<(), NoMemory>
    ensures { OnOk result (ids.new
        ≡ ids.old ++ way_ids (pieces_of_way (tower_by (get int_eq towers.now)) way.now)) }
{
    let [_, rest @ ..] = way.refs.as_slice() else {
        return Ok(());
    };
    for id in rest {
        if is_marked(towers, *id) {
            ids.push(way.id)?;
        }
    }
    Ok(())
}

/// The id of the way that each edge comes from, by edge number.
///
/// With a way 10 over the nodes 1, 2, 3 and a way 11 over 2, 4 these are 10, 10, 11:
///
///     1 --0-- 2 --1-- 3
///             2 --2-- 4
pub fn ways_of_edges(alloc: Global, map: &OsmMap) -> Result<IdList, NoMemory>
    ensures each { IfOk result (λ ids. ids ≡ ways_of_edges map.now) }
    // Where the map has roads there is one for each edge.
    ensures many { IfOk result (λ ids.
        (laid : Laid) → roads map.now ≡ Ok laid → length ids ≡ length laid.edges) }
{
    let ways = all_used(alloc, map.ways.as_slice())?;
    let towers = towers_of(alloc, &ways)?;
    let mut ids = IdList::new(alloc);
    for way in &ways {
        push_way(&mut ids, &towers, way)?;
    }
    Ok(ids)
}

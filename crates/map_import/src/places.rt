//! Where nodes stand.
ghost use Rattle.std.specs.Ordering.{int_eq};
ghost use Rattle.std.specs.Prelude.{◌≡◌, ◌≢◌, ℤ, [], None, Some, OnOk, IfOk, IfErr};
ghost use Rattle.std.specs.HashMap.{get};
ghost use Rattle.map_import.specs.Roads.{place_in, place_at};
ghost use Rattle.map_import.specs.Refusals.{first_twice, missing_of, missing_or, first_missing};

use crate::faults::ImportFault;
use crate::used::Used;
use gh_base::{OsmNode, Point};
use std::alloc::Global;
use std::collections::HashMap;

/// Where each node stands by its id, or the first id that stood before.
pub(crate) fn places_of(
    alloc: Global,
    nodes: &[OsmNode],
) -> Result<HashMap<i64, Point>, ImportFault>
    ensures places { IfOk result (λ places. (id : ℤ) → get int_eq places id ≡ place_in nodes.now id) }
    ensures once { OnOk result (first_twice nodes.now ≡ None) }
    ensures twice { IfErr result (λ e. e ≢ ImportFault.NoMemory → first_twice nodes.now ≡ Some e) }
{
    let mut places = HashMap::new(alloc);
    for node in nodes {
        if places.insert(node.id, node.place)?.is_some() {
            return Err(ImportFault::TwiceNode { id: node.id });
        }
    }
    Ok(places)
}

/// Where a node stands that is there.
pub(crate) fn point_at(places: &HashMap<i64, Point>, id: i64) -> Point
    ensures { result ≡ place_at (get int_eq places.now) id }
{
    match places.get(&id) {
        Some(point) => *point,
        None => Point { lat: 0, lon: 0 },
    }
}

/// Whether the nodes of a way are there, or the first that isn't.
fn check_refs(places: &HashMap<i64, Point>, way: i64, refs: &[i64]) -> Result<(), ImportFault>
    ensures there { OnOk result (missing_of (get int_eq places.now) refs.now ≡ None) }
    ensures missing { IfErr result (λ e. missing_or way (missing_of (get int_eq places.now) refs.now) None ≡ Some e) }
{
    for id in refs {
        if !places.contains_key(id) {
            return Err(ImportFault::MissingNode { way, node: *id });
        }
    }
    Ok(())
}

/// Whether the nodes of all used ways are there, or the first that isn't.
pub(crate) fn check_ways(places: &HashMap<i64, Point>, ways: &[Used]) -> Result<(), ImportFault>
    ensures there { OnOk result (first_missing (get int_eq places.now) ways.now ≡ None) }
    ensures missing { IfErr result (λ e. first_missing (get int_eq places.now) ways.now ≡ Some e) }
{
    for way in ways {
        check_refs(places, way.id, &way.refs)?;
    }
    Ok(())
}

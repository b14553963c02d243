//! The ways that are used.
ghost use Rattle.std.specs.Prelude.{◌≡◌, IfOk};
ghost use Rattle.map_import.specs.Roads.{used_of, used_ways};

use encoded_values::EdgeValues;
use gh_base::{NoMemory, OsmWay};
use std::alloc::Global;
use std::marker::Model;
use tag_rules::values_of;

/// A way that is used: its id, its nodes with equal neighbours merged, and the values of its edges.
#[derive(Drop)]
pub(crate) struct Used {
    pub(crate) id: i64,
    pub(crate) refs: Vec<i64>,
    pub(crate) values: EdgeValues,
}

impl Model for Used {
    ghost use Rattle.std.specs.Prelude.{◌≤◌, length};
    ghost use Rattle.map_import.specs.Roads.{UsedWay};

    ghost Value = { UsedWay };

    ghost view = { λ a. record { id = a.id; refs = a.refs.items; values = a.values } };

    ghost invariant = { λ a. 2 ≤ length a.refs.items };
}

/// What is used of a way, if it is.
fn used_way(alloc: Global, way: &OsmWay) -> Result<Option<Used>, NoMemory>
    ensures { IfOk result (λ found. found ≡ used_of way.now) }
{
    let mut refs = Vec::from_slice(alloc, way.refs.as_slice())?;
    refs.dedup();
    if refs.len() < 2 {
        return Ok(None);
    }
    match values_of(&way.tags) {
        Some(values) => Ok(Some(Used {
            id: way.id,
            refs,
            values,
        })),
        None => Ok(None),
    }
}

/// The ways that are used, in map order.
pub(crate) fn all_used(alloc: Global, ways: &[OsmWay]) -> Result<Vec<Used>, NoMemory>
    ensures { IfOk result (λ found. found.items ≡ used_ways ways.now) }
{
    let mut found = Vec::new(alloc);
    for way in ways {
        let Some(way) = used_way(alloc, way)? else {
            continue;
        };
        found.push(way)?;
    }
    Ok(found)
}

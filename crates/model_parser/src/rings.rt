//! The rings of polygons, ring by ring.
ghost use Rattle.std.specs.Prelude.{[]};
ghost use Rattle.model_parser.specs.Faults.{Answers};
ghost use Rattle.model_parser.specs.Rings as spec;

use crate::fault::{ModelFault, fault, must};
use crate::outlines::{is_closed, point_of};
use crate::values::items;
use exact_json::Json;
use gh_base::{ModelKind, Part, Point};
use model_eval::{Ring, RingList};
use std::alloc::Global;

fn position_of(item: u32, position: &Json) -> Result<Point, ModelFault>
    ensures { Answers (spec.position_of item position.now) result }
{
    match point_of(position) {
        Some(point) => Ok(point),
        None => Err(fault(Part::Areas, item, ModelKind::Position)),
    }
}

/// The positions of a ring, and then whether they close.
#[tactic(auto, unfolding(crate::specs::Rings::ring_of))]
fn ring_of(alloc: Global, item: u32, ring: &Json) -> Result<Ring, ModelFault>
    ensures { Answers (spec.ring_of item ring.now) result }
{
    let mut points = Ring::new(alloc);
    for position in items(ring) {
        let point = position_of(item, position)?;
        points.push(point)?;
    }
    must(
        is_closed(points.as_slice()),
        Part::Areas,
        item,
        ModelKind::Ring,
    )?;
    Ok(points)
}

/// The rings of a polygon, behind those that were found.
fn polygon_rings(
    alloc: Global,
    item: u32,
    found: RingList,
    polygon: &Json,
) -> Result<RingList, ModelFault>
    ensures { Answers (spec.polygon_rings item found polygon.now) result }
{
    let mut found = found;
    for ring in items(polygon) {
        let ring = ring_of(alloc, item, ring)?;
        found.push(ring)?;
    }
    Ok(found)
}

/// The rings of polygons, in order.
pub(crate) fn rings_of(alloc: Global, item: u32, polygons: &[Json]) -> Result<RingList, ModelFault>
    ensures { Answers (spec.rings_from item [] polygons.now) result }
{
    let mut found = RingList::new(alloc);
    for polygon in polygons {
        found = polygon_rings(alloc, item, found, polygon)?;
    }
    Ok(found)
}

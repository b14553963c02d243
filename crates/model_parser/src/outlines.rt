//! Points and polygons as they are written.
ghost use Rattle.std.specs.Prelude.{◌≡◌, ◌≤◌, ◌<◌, ◌+◌, ◌-◌, ◌*◌, ◌/◌, ◌^◌, min, IfSome};
ghost use Rattle.std.specs.List.{list_all, sum_by};
ghost use Rattle.std.specs.Option.{option_map};
ghost use Rattle.model_parser.specs.Values as values_spec;
ghost use Rattle.model_parser.specs.Outlines as spec;

use crate::values::{array_of, find, is_array, items, number_of, text_at};
use exact_json::{Decimal, Json, Member};
use gh_base::{MOST_LAT, MOST_LON, Point};
use std::slice;

/// How many 1e-7 degrees a degree has.
const PER_DEGREE: u128 = 10_000_000;

/// What a geometry is made of.
#[derive(Clone, Copy, Debug, PartialEq, Eq)]
pub(crate) enum Outline {
    Polygon,
    MultiPolygon,
}

/// A decimal in 1e-7 degree without its sign, rounded down with it.
#[tactic(auto, using(exact_json::proofs::Limits::ten_pow))]
fn magnitude(degrees: Decimal) -> u128
    ensures { result ≡ spec.magnitude degrees }
{
    let unit = u128::from(10u64.pow(u32::from(degrees.places)));
    let scaled = u128::from(degrees.digits) * PER_DEGREE;
    if degrees.negative {
        (scaled + (unit - 1)) / unit
    } else {
        scaled / unit
    }
}

#[tactic(auto, unfolding(crate::specs::Outlines::rounded))]
fn rounded(degrees: Decimal, most: u32) -> Option<i32>
    requires { most < 2 ^ 31 }
    ensures { result ≡ spec.rounded most degrees }
{
    let size = magnitude(degrees);
    if size > u128::from(most) {
        return None;
    }
    let size = size as i32;
    Some(if degrees.negative { -size } else { size })
}

#[tactic(auto, unfolding(crate::specs::Outlines::coordinate))]
fn coordinate(value: &Json, most: u32) -> Option<i32>
    requires { most < 2 ^ 31 }
    ensures { result ≡ spec.coordinate most value.now }
{
    rounded(number_of(value)?, most)
}

/// The point of a position: longitude, then latitude.
#[tactic(auto, unfolding(crate::specs::Outlines::point_of))]
pub(crate) fn point_of(position: &Json) -> Option<Point>
    ensures { result ≡ spec.point_of position.now }
{
    let [lon, lat, ..] = items(position) else {
        return None;
    };
    let lon = coordinate(lon, MOST_LON)?;
    let lat = coordinate(lat, MOST_LAT)?;
    Some(Point { lat, lon })
}

fn same_point(a: Point, b: Point) -> bool
    ensures { result ≡ spec.same_point a b }
{
    a.lat == b.lat && a.lon == b.lon
}

/// Whether a ring has at least four positions and ends where it began.
#[tactic(auto, unfolding(crate::specs::Outlines::is_closed))]
pub(crate) fn is_closed(points: &[Point]) -> bool
    ensures { result ≡ spec.is_closed points.now }
{
    if points.len() < 4 {
        return false;
    }
    match (points.get(0), points.get(points.len() - 1)) {
        (Some(first), Some(last)) => same_point(*first, *last),
        _ => false,
    }
}

fn are_arrays(values: &[Json]) -> bool
    ensures { result ≡ list_all values_spec.is_array values.now }
{
    for value in values {
        if !is_array(value) {
            return false;
        }
    }
    true
}

fn is_ring(value: &Json) -> bool
    ensures { result ≡ spec.is_ring value.now }
{
    match array_of(value) {
        Some(positions) => are_arrays(positions),
        None => false,
    }
}

fn are_rings(values: &[Json]) -> bool
    ensures { result ≡ list_all spec.is_ring values.now }
{
    for value in values {
        if !is_ring(value) {
            return false;
        }
    }
    true
}

fn is_polygon(value: &Json) -> bool
    ensures { result ≡ spec.is_polygon value.now }
{
    match array_of(value) {
        Some(rings) => are_rings(rings) && !rings.is_empty(),
        None => false,
    }
}

fn are_polygons(values: &[Json]) -> bool
    ensures { result ≡ list_all spec.is_polygon values.now }
{
    for value in values {
        if !is_polygon(value) {
            return false;
        }
    }
    true
}

/// The polygons of these coordinates.
fn polygons_of(outline: Outline, coordinates: &Json) -> Option<&[Json]>
    ensures { option_map (λ x. x.now) result ≡ spec.polygons_of outline coordinates.now }
{
    match outline {
        Outline::Polygon => {
            if is_polygon(coordinates) {
                Some(slice::from_ref(coordinates))
            } else {
                None
            }
        }
        Outline::MultiPolygon => match array_of(coordinates) {
            Some(polygons) => {
                if are_polygons(polygons) {
                    Some(polygons)
                } else {
                    None
                }
            }
            None => None,
        },
    }
}

fn outline_of(name: &str) -> Option<Outline>
    ensures { result ≡ spec.outline_of name.now }
{
    match name {
        "Polygon" => Some(Outline::Polygon),
        "MultiPolygon" => Some(Outline::MultiPolygon),
        _ => None,
    }
}

/// The polygons of a geometry.
#[tactic(auto, unfolding(crate::specs::Outlines::geometry_of))]
pub(crate) fn geometry_of(members: &[Member]) -> Option<&[Json]>
    ensures { option_map (λ x. x.now) result ≡ spec.geometry_of members.now }
{
    let name = text_at(members, "type")?;
    let outline = outline_of(name)?;
    let coordinates = find(members, "coordinates")?;
    polygons_of(outline, coordinates)
}

fn polygon_size(polygon: &Json) -> usize
    ensures { result ≡ min (spec.polygon_size polygon.now) (2 ^ 64 - 1) }
{
    let mut size = 0usize;
    for ring in items(polygon) {
        size = size.saturating_add(items(ring).len());
    }
    size
}

/// How many positions there are; at the end of its type where there are more.
pub(crate) fn positions_in(polygons: &[Json]) -> usize
    ensures { result ≡ min (spec.positions_in polygons.now) (2 ^ 64 - 1) }
{
    let mut size = 0usize;
    for polygon in polygons {
        size = size.saturating_add(polygon_size(polygon));
    }
    size
}

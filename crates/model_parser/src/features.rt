//! The areas of a model.
ghost use Rattle.std.specs.Prelude.{◌≡◌, ◌≤◌, ◌<◌, ◌-◌, ◌^◌, min, [], length, IfOk};
ghost use Rattle.std.specs.List.{list_all};
ghost use Rattle.std.specs.Option.{option_map};
ghost use Rattle.model_texts.specs.Tokens as tokens;
ghost use Rattle.model_parser.specs.Faults.{Answers};
ghost use Rattle.model_parser.specs.Features as spec;

use crate::fault::{ModelFault, fault, must};
use crate::outlines::{geometry_of, positions_in};
use crate::rings::rings_of;
use crate::values::{array_of, find, object_of, text_at};
use exact_json::{Json, Member};
use gh_base::{ModelKind, Part, Text};
use model_eval::{Area, Areas};
use model_texts::{begins_word, in_word};
use std::alloc::Global;

/// The most areas of a model.
const MOST_AREAS: usize = 50;

/// The most positions of a model.
const MOST_POSITIONS: usize = 10_000;

fn are_in_word(bytes: &[u8]) -> bool
    ensures { result ≡ list_all tokens.in_word bytes.now }
{
    bytes.iter().all(|b| in_word(*b))
}

/// Whether a text has only letters, digits and underscores, no digit first.
fn is_id(text: &[u8]) -> bool
    ensures { result ≡ spec.is_id text.now }
{
    match text {
        [] => false,
        [first, rest @ ..] => begins_word(*first) && are_in_word(rest),
    }
}

/// Whether the member `type` is this.
fn is_type(members: &[Member], name: &str) -> bool
    ensures { result ≡ spec.is_type name.now members.now }
{
    match text_at(members, "type") {
        Some(text) => text == name,
        None => false,
    }
}

/// The id of an object of type `Feature`.
#[tactic(auto, unfolding(crate::specs::Features::id_of))]
fn id_of(members: &[Member]) -> Option<&str>
    ensures { option_map (λ x. x.now) result ≡ spec.id_of members.now }
{
    if !is_type(members, "Feature") {
        return None;
    }
    match text_at(members, "id") {
        Some(id) => { if is_id(id.as_bytes()) { Some(id) } else { None } }
        None => None,
    }
}

/// The members of the geometry of a feature.
fn geometry_in(members: &[Member]) -> Option<&[Member]>
    ensures { option_map (λ x. x.now) result ≡ spec.geometry_in members.now }
{
    match find(members, "geometry") {
        Some(value) => object_of(value),
        None => None,
    }
}

fn has_id(areas: &[Area], id: &str) -> bool
    ensures { result ≡ spec.has_id areas.now id.now }
{
    for area in areas {
        if area.id.as_str() == id {
            return true;
        }
    }
    false
}

fn area_size(area: &Area) -> usize
    ensures { result ≡ min (spec.area_size area.now) (2 ^ 64 - 1) }
{
    let mut size = 0usize;
    for ring in area.rings.as_slice() {
        size = size.saturating_add(ring.len());
    }
    size
}

/// How many positions areas have; at the end of its type where they have more.
fn positions_of(areas: &[Area]) -> usize
    ensures { result ≡ min (spec.positions_of areas.now) (2 ^ 64 - 1) }
{
    let mut size = 0usize;
    for area in areas {
        size = size.saturating_add(area_size(area));
    }
    size
}

/// Whether these polygons have not too many positions, behind these areas.
fn have_room(found: &[Area], polygons: &[Json]) -> bool
    ensures { result ≡ spec.have_room found.now polygons.now }
{
    positions_of(found).saturating_add(positions_in(polygons)) <= MOST_POSITIONS
}

/// A feature, behind the areas that were found.
#[tactic(auto, unfolding(crate::specs::Features::feature_of))]
fn feature_of(alloc: Global, item: u32, found: &[Area], feature: &Json) -> Result<Area, ModelFault>
    ensures { Answers (spec.feature_of item found.now feature.now) result }
{
    let Some(members) = object_of(feature) else {
        return Err(fault(Part::Areas, item, ModelKind::Feature));
    };
    let Some(id) = id_of(members) else {
        return Err(fault(Part::Areas, item, ModelKind::Feature));
    };
    let Some(geometry) = geometry_in(members) else {
        return Err(fault(Part::Areas, item, ModelKind::Feature));
    };
    must(!has_id(found, id), Part::Areas, item, ModelKind::TwiceId)?;
    let Some(polygons) = geometry_of(geometry) else {
        return Err(fault(Part::Areas, item, ModelKind::Geometry));
    };
    must(
        have_room(found, polygons),
        Part::Areas,
        item,
        ModelKind::TooMany,
    )?;
    let rings = rings_of(alloc, item, polygons)?;
    let mut name = Text::new(alloc);
    name.push(id)?;
    Ok(Area { id: name, rings })
}

/// The features of a collection.
fn features_in(members: &[Member]) -> Option<&[Json]>
    ensures { option_map (λ x. x.now) result ≡ spec.features_in members.now }
{
    if !is_type(members, "FeatureCollection") {
        return None;
    }
    match find(members, "features") {
        Some(value) => array_of(value),
        None => None,
    }
}

/// Features, in order.
fn features_from(alloc: Global, features: &[Json]) -> Result<Areas, ModelFault>
    requires { length features.now ≤ 50 }
    ensures areas { Answers (spec.features_from 1 [] features.now) result }
    ensures few { IfOk result (λ areas. length areas ≤ 50) }
{
    let mut found = Areas::new(alloc);
    let mut item = 1;
    for feature in features {
        let area = feature_of(alloc, item, found.as_slice(), feature)?;
        found.push(area)?;
        item += 1;
    }
    Ok(found)
}

/// A collection of at most 50 features.
#[tactic(auto, unfolding(crate::specs::Features::collection_of))]
fn collection_of(alloc: Global, collection: &Json) -> Result<Areas, ModelFault>
    ensures areas { Answers (spec.collection_of collection.now) result }
    ensures few { IfOk result (λ areas. length areas ≤ 50) }
{
    let Some(members) = object_of(collection) else {
        return Err(fault(Part::Areas, 0, ModelKind::NotObject));
    };
    let Some(features) = features_in(members) else {
        return Err(fault(Part::Areas, 0, ModelKind::Feature));
    };
    if features.len() > MOST_AREAS {
        return Err(fault(Part::Areas, 0, ModelKind::TooMany));
    }
    features_from(alloc, features)
}

/// The areas of a model; none where it has no such part.
pub(crate) fn areas_of(alloc: Global, part: Option<&Json>) -> Result<Areas, ModelFault>
    ensures areas { Answers (spec.areas_of (option_map (λ x. x.now) part.entry)) result }
    ensures few { IfOk result (λ areas. length areas ≤ 50) }
{
    match part {
        Some(collection) => collection_of(alloc, collection),
        None => Ok(Areas::new(alloc)),
    }
}

//! The line of an edge.
ghost use Rattle.std.specs.Prelude.{◌≡◌, ◌∷◌, ◌++◌, [], OnOk, decimal};
ghost use Rattle.std.specs.Fmt.{signed_decimal};
ghost use Rattle.plain_map.specs.Printing.{coordinate_text};
ghost use Rattle.road_lines.specs.Features.{position_text, positions_text, properties_text, geometry_text, feature_text};

use gh_base::{NoMemory, Point, Shape};
use plain_map::{push_coordinate, push_id, push_natural};
use std::alloc::Global;

/// What is told of an edge besides its points.
#[derive(Clone, Copy, Debug)]
pub struct Properties {
    /// Its number.
    pub edge: u32,
    /// The OpenStreetMap id of the way that it is a piece of.
    pub way: i64,
    /// The ids of its towers.
    pub base: i64,
    pub adjacent: i64,
    pub mm: u32,
    /// The limits that its directions open with, in milli-km/h; 0 where none may pass.
    pub forward: u32,
    pub reverse: u32,
}

/// Appends a text.
fn push_text(out: &mut Vec<u8>, text: &[u8]) -> Result<(), NoMemory>
    ensures { OnOk result (out.new.items ≡ out.old.items ++ text.now) }
{
    out.extend_from_slice(text)?;
    Ok(())
}

/// Appends a number behind a text.
fn push_count(alloc: Global, out: &mut Vec<u8>, before: &[u8], n: u32) -> Result<(), NoMemory>
    ensures { OnOk result (out.new.items ≡ out.old.items ++ (before.now ++ decimal n)) }
{
    push_text(out, before)?;
    push_natural(alloc, out, n)
}

/// Appends an id behind a text.
fn push_osm_id(alloc: Global, out: &mut Vec<u8>, before: &[u8], id: &i64) -> Result<(), NoMemory>
    ensures { OnOk result (out.new.items ≡ out.old.items ++ (before.now ++ signed_decimal id.now)) }
{
    push_text(out, before)?;
    push_id(alloc, out, *id)
}

/// Appends properties.
#[tactic(auto, unfolding(crate::specs::Features::properties_text))]
fn push_properties(alloc: Global, out: &mut Vec<u8>, p: &Properties) -> Result<(), NoMemory>
    ensures { OnOk result (out.new.items ≡ out.old.items ++ properties_text p.now) }
{
    push_count(alloc, out, b"{\"edge\":", p.edge)?;
    push_osm_id(alloc, out, b",\"way\":", &p.way)?;
    push_osm_id(alloc, out, b",\"base\":", &p.base)?;
    push_osm_id(alloc, out, b",\"adjacent\":", &p.adjacent)?;
    push_count(alloc, out, b",\"mm\":", p.mm)?;
    push_count(alloc, out, b",\"forward\":", p.forward)?;
    push_count(alloc, out, b",\"reverse\":", p.reverse)?;
    out.push(b'}')?;
    Ok(())
}

/// Appends a coordinate behind a text.
fn push_degrees(
    alloc: Global,
    out: &mut Vec<u8>,
    before: &[u8],
    degrees: &i32,
) -> Result<(), NoMemory>
    ensures { OnOk result (out.new.items ≡ out.old.items ++ (before.now ++ coordinate_text degrees.now)) }
{
    push_text(out, before)?;
    push_coordinate(alloc, out, *degrees)
}

/// Appends a position behind a text.
fn push_position(
    alloc: Global,
    out: &mut Vec<u8>,
    before: &[u8],
    point: &Point,
) -> Result<(), NoMemory>
    ensures { OnOk result (out.new.items ≡ out.old.items ++ (before.now ++ position_text point.now)) }
{
    push_text(out, before)?;
    push_degrees(alloc, out, b"[", &point.lon)?;
    push_degrees(alloc, out, b",", &point.lat)?;
    out.push(b']')?;
    Ok(())
}

/// Appends the positions of a line.
fn push_positions(alloc: Global, out: &mut Vec<u8>, shape: &Shape) -> Result<(), NoMemory>
    ensures { OnOk result (out.new.items ≡ out.old.items ++ positions_text shape.now) }
{
    let mut before = b"[".as_slice();
    for index in 0..shape.len() {
        let point = shape.get(index);
        push_position(alloc, out, before, &point)?;
        before = b",".as_slice();
    }
    out.push(b']')?;
    Ok(())
}

/// Appends a geometry.
#[tactic(auto, unfolding(crate::specs::Features::geometry_text))]
fn push_geometry(alloc: Global, out: &mut Vec<u8>, shape: &Shape) -> Result<(), NoMemory>
    ensures { OnOk result (out.new.items ≡ out.old.items ++ geometry_text shape.now) }
{
    push_text(out, b"{\"type\":\"LineString\",\"coordinates\":")?;
    push_positions(alloc, out, shape)?;
    out.push(b'}')?;
    Ok(())
}

/// Appends a feature, with its newline.
#[tactic(auto, unfolding(crate::specs::Features::feature_text))]
pub(crate) fn push_feature(
    alloc: Global,
    out: &mut Vec<u8>,
    properties: &Properties,
    shape: &Shape,
) -> Result<(), NoMemory>
    ensures { OnOk result (out.new.items ≡ out.old.items ++ (feature_text properties.now shape.now ++ 10 ∷ [])) }
{
    push_text(out, b"{\"type\":\"Feature\",\"properties\":")?;
    push_properties(alloc, out, properties)?;
    push_text(out, b",\"geometry\":")?;
    push_geometry(alloc, out, shape)?;
    push_text(out, b"}\n")?;
    Ok(())
}

//! The texts of nodes and ways.
ghost use Rattle.std.specs.Prelude.{◌≡◌, ◌<◌, ◌∷◌, ◌++◌, ◌^◌, ◌==◌, [], OnOk, codes, map, false, nat_le};
ghost use Rattle.std.specs.Fmt.{decimal, signed_decimal, digits, digit_glyph};
ghost use Rattle.plain_map.specs.Printing.{places_text, dotted, degrees_text, coordinate_text, is_escaped, escape, escaped, tag_text, ref_text, listed, place_text, node_text, way_text};

use gh_base::{NoMemory, OsmNode, OsmTag, OsmWay, Point};
use std::alloc::Global;

/// How many units of a coordinate make a degree.
const UNITS_OF_DEGREE: u32 = 10000000;

/// How many places behind the dot a unit has.
const PLACES: u32 = 7;

/// Appends an id.
pub fn push_id(alloc: Global, out: &mut Vec<u8>, id: i64) -> Result<(), NoMemory>
    ensures { OnOk result (out.new.items ≡ out.old.items ++ signed_decimal id) }
{
    let text = id.to_string(alloc)?;
    out.extend_from_slice(text.as_bytes())?;
    Ok(())
}

/// Appends a number in decimal digits.
pub fn push_natural(alloc: Global, out: &mut Vec<u8>, n: u32) -> Result<(), NoMemory>
    ensures { OnOk result (out.new.items ≡ out.old.items ++ decimal n) }
{
    let text = n.to_string(alloc)?;
    out.extend_from_slice(text.as_bytes())?;
    Ok(())
}

fn push_places(out: &mut Vec<u8>, n: u32) -> Result<(), NoMemory>
    requires { n < 10 ^ 7 }
    ensures { OnOk result (out.new.items ≡ out.old.items ++ places_text 7 n) }
{
    let mut left = n;
    let mut places = PLACES;
    'digits: while left > 0 {
        places -= 1;
        let unit = 10u32.pow(places);
        out.push(b'0' + (left / unit) as u8)?;
        left %= unit;
    }
    Ok(())
}

#[tactic(auto, using(crate::proofs::Digits::dotted_none, crate::proofs::Digits::dotted_some))]
fn push_degrees(alloc: Global, out: &mut Vec<u8>, n: u32) -> Result<(), NoMemory>
    ensures { OnOk result (out.new.items ≡ out.old.items ++ degrees_text n) }
{
    push_natural(alloc, out, n / UNITS_OF_DEGREE)?;
    let part = n % UNITS_OF_DEGREE;
    if part > 0 {
        out.push(b'.')?;
        push_places(out, part)?;
    }
    Ok(())
}

/// Appends a coordinate in degrees, with as few digits as it takes.
pub fn push_coordinate(alloc: Global, out: &mut Vec<u8>, z: i32) -> Result<(), NoMemory>
    ensures { OnOk result (out.new.items ≡ out.old.items ++ coordinate_text z) }
{
    if z < 0 {
        out.push(b'-')?;
    }
    push_degrees(alloc, out, z.unsigned_abs())
}

fn must_escape(b: u8) -> bool
    ensures { result ≡ is_escaped b }
{
    b <= b' ' || b == b'%' || b == b',' || b == b'=' || b == b'@' || b == 0x7f
}

fn hex_digit(n: u8) -> u8
    requires { n < 16 }
    ensures { result ≡ digit_glyph false n }
{
    if n < 10 { b'0' + n } else { b'a' + (n - 10) }
}

#[tactic(auto, using(crate::proofs::Digits::hex_one))]
fn push_hex(out: &mut Vec<u8>, b: u8) -> Result<(), NoMemory>
    ensures { OnOk result (out.new.items ≡ out.old.items ++ digits 16 false b) }
{
    if b < 16 {
        out.push(hex_digit(b))?;
    } else {
        out.push(hex_digit(b / 16))?;
        out.push(hex_digit(b % 16))?;
    }
    Ok(())
}

fn push_escaped(out: &mut Vec<u8>, text: &[u8]) -> Result<(), NoMemory>
    ensures { OnOk result (out.new.items ≡ out.old.items ++ escaped text.now) }
{
    for b in text {
        if must_escape(*b) {
            out.push(b'%')?;
            push_hex(out, *b)?;
            out.push(b'%')?;
        } else {
            out.push(*b)?;
        }
    }
    Ok(())
}

fn push_tag(out: &mut Vec<u8>, tag: &OsmTag) -> Result<(), NoMemory>
    ensures { OnOk result (out.new.items ≡ out.old.items ++ tag_text tag.now) }
{
    push_escaped(out, tag.key.as_bytes())?;
    out.push(b'=')?;
    push_escaped(out, tag.value.as_bytes())
}

fn push_tags(out: &mut Vec<u8>, tags: &[OsmTag]) -> Result<(), NoMemory>
    ensures { OnOk result (out.new.items ≡ out.old.items ++ listed (codes " T") (map tag_text tags.now)) }
{
    let mut lead = b" T".as_slice();
    for tag in tags {
        out.extend_from_slice(lead)?;
        push_tag(out, tag)?;
        lead = b",".as_slice();
    }
    Ok(())
}

fn push_ref(alloc: Global, out: &mut Vec<u8>, id: i64) -> Result<(), NoMemory>
    ensures { OnOk result (out.new.items ≡ out.old.items ++ ref_text id) }
{
    out.push(b'n')?;
    push_id(alloc, out, id)
}

fn push_refs(alloc: Global, out: &mut Vec<u8>, refs: &[i64]) -> Result<(), NoMemory>
    ensures { OnOk result (out.new.items ≡ out.old.items ++ listed (codes " N") (map ref_text refs.now)) }
{
    let mut lead = b" N".as_slice();
    for id in refs {
        out.extend_from_slice(lead)?;
        push_ref(alloc, out, *id)?;
        lead = b",".as_slice();
    }
    Ok(())
}

fn push_field(alloc: Global, out: &mut Vec<u8>, lead: &[u8], z: &i32) -> Result<(), NoMemory>
    ensures { OnOk result (out.new.items ≡ out.old.items ++ (lead.now ++ coordinate_text z.now)) }
{
    out.extend_from_slice(lead)?;
    push_coordinate(alloc, out, *z)
}

fn push_place(alloc: Global, out: &mut Vec<u8>, place: &Point) -> Result<(), NoMemory>
    ensures { OnOk result (out.new.items ≡ out.old.items ++ place_text place.now) }
{
    push_field(alloc, out, b" y", &place.lat)?;
    push_field(alloc, out, b" x", &place.lon)
}

/// Appends the line of a node, with its newline.
#[tactic(auto, unfolding(crate::specs::Printing::node_text))]
pub(crate) fn push_node(alloc: Global, out: &mut Vec<u8>, node: &OsmNode) -> Result<(), NoMemory>
    ensures { OnOk result (out.new.items ≡ out.old.items ++ (node_text node.now ++ 10 ∷ [])) }
{
    out.push(b'n')?;
    push_id(alloc, out, node.id)?;
    push_place(alloc, out, &node.place)?;
    out.push(b'\n')?;
    Ok(())
}

/// Appends the line of a way, with its newline.
#[tactic(auto, unfolding(crate::specs::Printing::way_text))]
pub(crate) fn push_way(alloc: Global, out: &mut Vec<u8>, way: &OsmWay) -> Result<(), NoMemory>
    ensures { OnOk result (out.new.items ≡ out.old.items ++ (way_text way.now ++ 10 ∷ [])) }
{
    out.push(b'w')?;
    push_id(alloc, out, way.id)?;
    push_tags(out, way.tags.as_slice())?;
    push_refs(alloc, out, way.refs.as_slice())?;
    out.push(b'\n')?;
    Ok(())
}

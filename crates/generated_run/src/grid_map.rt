//! The map of a size.
ghost use Rattle.std.specs.Prelude.{◌≡◌, ◌<◌, ◌≤◌, ◌*◌, map, length, All, IfOk, slice_index};
ghost use Rattle.std.specs.List.{range_with_len};
ghost use Rattle.gh_base.specs.declared.map.OsmNode.{OsmNode};
ghost use Rattle.gh_base.specs.Places.{IsOnEarth};
ghost use Rattle.generated_run.specs.Draws.{draw};
ghost use Rattle.generated_run.specs.Maps as spec;

use gh_base::{
    IdList, NoMemory, OsmMap, OsmNode, OsmNodes, OsmTag, OsmWay, OsmWays, Point, TagList, Text,
};
use std::alloc::Global;

/// From a row to the next, and from a column to the next, in 1e-7 degree.
const STEP: i32 = 100_000;

fn id_at(size: u32, row: u32, column: u32) -> i64
    requires size { size ≤ 300 }
    requires row { row ≤ 300 }
    requires column { column ≤ 300 }
    ensures { result ≡ spec.id_at size row column }
{
    i64::from(row * size + column + 1)
}

fn node_at(size: u32, n: u32) -> OsmNode
    requires some { 0 < size }
    requires size { size ≤ 300 }
    requires n { n < size * size }
    ensures node { result ≡ spec.node_at size n }
    ensures on_earth { IsOnEarth result.place }
{
    let row = n / size;
    let column = n % size;
    OsmNode {
        id: id_at(size, row, column),
        place: Point {
            lat: row as i32 * STEP,
            lon: column as i32 * STEP,
        },
    }
}

fn nodes(alloc: Global, size: u32) -> Result<OsmNodes, NoMemory>
    requires some { 0 < size }
    requires size { size ≤ 300 }
    ensures nodes { IfOk result (λ nodes. nodes ≡ map (spec.node_at size) (range_with_len 0 (size * size))) }
    ensures on_earth { IfOk result (λ nodes. All (λ (node : OsmNode). IsOnEarth node.place) nodes) }
{
    let mut nodes = OsmNodes::new(alloc);
    for n in 0..size * size {
        nodes.push(node_at(size, n))?;
    }
    Ok(nodes)
}

/// The class of a way's road, by its draw.
fn class_of(draw: u32) -> &'static str
    ensures { result.now ≡ spec.class_of draw }
{
    if draw == 0 {
        "primary"
    } else if draw == 1 {
        "secondary"
    } else if draw == 2 {
        "tertiary"
    } else {
        "residential"
    }
}

pub(crate) fn text(alloc: Global, of: &str) -> Result<Text, NoMemory>
    ensures { IfOk result (λ text. text ≡ of.now) }
{
    let mut text = Text::new(alloc);
    text.push(of)?;
    Ok(text)
}

/// A node of the way of a number, by its place there.
fn ref_at(size: u32, n: u32, k: u32) -> i64
    requires size { size ≤ 300 }
    requires n { n < 2 * size }
    requires k { k < size }
    ensures { result ≡ spec.ref_at size n k }
{
    if n < size {
        id_at(size, n, k)
    } else {
        id_at(size, k, n - size)
    }
}

/// The nodes of the way of a number, in order.
fn refs_of(alloc: Global, size: u32, n: u32) -> Result<IdList, NoMemory>
    requires size { size ≤ 300 }
    requires n { n < 2 * size }
    ensures { IfOk result (λ refs. refs ≡ spec.refs_of size n) }
{
    let mut refs = IdList::new(alloc);
    for k in 0..size {
        refs.push(ref_at(size, n, k))?;
    }
    Ok(refs)
}

fn way_at(alloc: Global, size: u32, n: u32, drawn: u32) -> Result<OsmWay, NoMemory>
    requires size { size ≤ 300 }
    requires n { n < 2 * size }
    requires drawn { drawn ≡ draw size n }
    ensures { IfOk result (λ way. way ≡ spec.way_at size n) }
{
    let mut tags = TagList::new(alloc);
    tags.push(OsmTag {
        key: text(alloc, "highway")?,
        value: text(alloc, class_of(drawn % 4))?,
    })?;
    Ok(OsmWay {
        id: i64::from(n + 1),
        tags,
        refs: refs_of(alloc, size, n)?,
    })
}

fn ways(alloc: Global, size: u32, draws: &[u32]) -> Result<OsmWays, NoMemory>
    requires size { size ≤ 300 }
    requires draws { draws.now ≡ map (draw size) (range_with_len 0 (length draws.now)) }
    requires enough { 2 * size ≤ length draws.now }
    ensures { IfOk result (λ ways. ways ≡ map (spec.way_at size) (range_with_len 0 (2 * size))) }
{
    let mut ways = OsmWays::new(alloc);
    for n in 0..2 * size {
        ways.push(way_at(alloc, size, n, draws[n as usize])?)?;
    }
    Ok(ways)
}

/// The map of a size, by the size's draws.
#[tactic(auto, unfolding(crate::specs::Maps::map_of))]
pub(crate) fn map_of(alloc: Global, size: u32, draws: &[u32]) -> Result<OsmMap, NoMemory>
    requires some { 0 < size }
    requires size { size ≤ 300 }
    requires draws { draws.now ≡ map (draw size) (range_with_len 0 (length draws.now)) }
    requires enough { 2 * size ≤ length draws.now }
    ensures map { IfOk result (λ made. made ≡ spec.map_of size) }
    ensures on_earth { IfOk result (λ made. All (λ (node : OsmNode). IsOnEarth node.place) made.nodes) }
{
    Ok(OsmMap {
        nodes: nodes(alloc, size)?,
        ways: ways(alloc, size, draws)?,
    })
}

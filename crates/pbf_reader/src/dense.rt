//! Nodes as lists.
ghost use Rattle.std.specs.Prelude.{◌≡◌, IfOk};
ghost use Rattle.std.specs.Option.{option_map};
ghost use Rattle.pbf_wire.specs.Dense.{dense_of, after_tags, tags_fit, nodes_of, dense_with};
ghost use Rattle.pbf_reader.specs.Reading.{Gives};

use crate::deltas::{coordinates, ids};
use crate::fault::{PbfFault, fault};
use crate::lists::list_of;
use crate::nodes::{lats, lons};
use crate::pieces::{join, placed_in};
use crate::runs::{lesser, read_run};
use gh_base::{NoMemory, OsmNode, OsmNodes, PbfKind, Point};
use pbf_wire::{Dense, Piece, Scale};
use std::alloc::Global;

/// One more than the greatest number of 32 bits.
pub(crate) const END_OF_U32: u64 = 1 << 32;

/// The dense nodes in these stretches, as one message at a place, as they are written.
#[tactic(auto, unfolding(pbf_wire::specs::Dense::dense_of))]
pub(crate) fn read_dense(
    alloc: Global,
    bytes: &[u8],
    pieces: &[Piece],
    place: u64,
) -> Result<Dense, NoMemory>
    ensures { IfOk result (λ d. d ≡ dense_of bytes.now pieces.now place) }
{
    let joined = join(alloc, bytes, pieces)?;
    let content = joined.as_slice();
    let run = read_run(alloc, content, 0)?;
    let fields = run.fields.as_slice();
    let ids = list_of(alloc, content, 1, fields)?;
    let lats = list_of(alloc, content, 8, fields)?;
    let lons = list_of(alloc, content, 9, fields)?;
    let tags = list_of(alloc, content, 10, fields)?;
    let bad = lesser(
        run.bad,
        lesser(ids.bad, lesser(lats.bad, lesser(lons.bad, tags.bad))),
    );
    Ok(Dense {
        place,
        ids: ids.values,
        lats: lats.values,
        lons: lons.values,
        tags: tags.values,
        bad: placed_in(pieces, bad),
    })
}

/// What follows the tags of one node, which end with a 0.
#[tactic(auto, using(crate::proofs::Tags::tags_end, crate::proofs::Tags::tags_cut, crate::proofs::Tags::tags_more))]
fn behind_tags(numbers: &[u64]) -> Option<&[u64]>
    ensures { option_map (λ t. t.now) result ≡ after_tags numbers.now }
{
    let mut left = numbers;
    'pairs: loop {
        let Some((key, rest)) = left.split_first() else {
            return None;
        };
        if *key % END_OF_U32 == 0 {
            return Some(rest);
        }
        let Some((_, more)) = rest.split_first() else {
            return None;
        };
        left = more;
    }
}

/// Whether these are the tags of so many nodes.
#[tactic(auto, using(crate::proofs::Tags::next_node, crate::proofs::Tags::no_node, crate::proofs::Tags::end_nodes))]
fn fits_tags(count: usize, numbers: &[u64]) -> bool
    ensures { result ≡ tags_fit count numbers.now }
{
    let mut nodes = count;
    let mut left = numbers;
    'nodes: while nodes > 0 {
        let Some(rest) = behind_tags(left) else {
            return false;
        };
        nodes -= 1;
        left = rest;
    }
    left.is_empty()
}

#[tactic(auto, using(crate::proofs::Fronts::front_more, crate::proofs::Fronts::front_nil))]
fn joined_nodes(
    alloc: Global,
    ids: &[i64],
    lats: &[i32],
    lons: &[i32],
) -> Result<OsmNodes, NoMemory>
    ensures { IfOk result (λ n. n ≡ nodes_of ids.now lats.now lons.now) }
{
    let mut nodes = OsmNodes::new(alloc);
    let mut ids_left = ids;
    let mut lats_left = lats;
    let mut lons_left = lons;
    'nodes: loop {
        let Some((id, more_ids)) = ids_left.split_first() else {
            return Ok(nodes);
        };
        let Some((lat, more_lats)) = lats_left.split_first() else {
            return Ok(nodes);
        };
        let Some((lon, more_lons)) = lons_left.split_first() else {
            return Ok(nodes);
        };
        nodes.push(OsmNode {
            id: *id,
            place: Point {
                lat: *lat,
                lon: *lon,
            },
        })?;
        ids_left = more_ids;
        lats_left = more_lats;
        lons_left = more_lons;
    }
}

/// The nodes that it says.
#[tactic(auto, unfolding(pbf_wire::specs::Dense::dense_with))]
pub(crate) fn made_dense(alloc: Global, scale: &Scale, dense: &Dense) -> Result<OsmNodes, PbfFault>
    ensures { Gives result (dense_with scale.now dense.now) }
{
    let count = dense.ids.len();
    if count != dense.lats.len() || count != dense.lons.len() {
        return Err(fault(dense.place, PbfKind::Uneven));
    }
    if dense.tags.len() != 0 && !fits_tags(count, dense.tags.as_slice()) {
        return Err(fault(dense.place, PbfKind::OddKeys));
    }
    let ids = ids(alloc, dense.place, dense.ids.as_slice())?;
    let lats = coordinates(alloc, dense.place, &lats(scale), dense.lats.as_slice())?;
    let lons = coordinates(alloc, dense.place, &lons(scale), dense.lons.as_slice())?;
    let nodes = joined_nodes(alloc, ids.as_slice(), lats.as_slice(), lons.as_slice())?;
    Ok(nodes)
}

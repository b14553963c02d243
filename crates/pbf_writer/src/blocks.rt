//! The block of a few nodes, and the header block.
ghost use Rattle.std.specs.Prelude.{◌≡◌, IfOk, map};
ghost use Rattle.gh_base.specs.declared.map.OsmNode.{OsmNode};
ghost use Rattle.pbf_wire.specs.Parts.{message_text};
ghost use Rattle.pbf_wire.specs.Writing.{dense_parts, nodes_block, features_text};

use crate::fields::put_deltas;
use gh_base::{NoMemory, OsmNode};
use pbf_wire::put_bytes;
use std::alloc::{AllocError, Global};

fn ids_of(alloc: Global, nodes: &[OsmNode]) -> Result<Vec<i64>, AllocError>
    ensures { IfOk result (λ list. list.items ≡ map (λ (node : OsmNode). node.id) nodes.now) }
{
    nodes.iter().map(|node| node.id).collect(alloc)
}

fn lats_of(alloc: Global, nodes: &[OsmNode]) -> Result<Vec<i64>, AllocError>
    ensures { IfOk result (λ list. list.items ≡ map (λ (node : OsmNode). node.place.lat) nodes.now) }
{
    nodes
        .iter()
        .map(|node| i64::from(node.place.lat))
        .collect(alloc)
}

fn lons_of(alloc: Global, nodes: &[OsmNode]) -> Result<Vec<i64>, AllocError>
    ensures { IfOk result (λ list. list.items ≡ map (λ (node : OsmNode). node.place.lon) nodes.now) }
{
    nodes
        .iter()
        .map(|node| i64::from(node.place.lon))
        .collect(alloc)
}

/// The nodes as DenseNodes.
fn dense(alloc: Global, nodes: &[OsmNode]) -> Result<Vec<u8>, NoMemory>
    ensures { IfOk result (λ bytes. bytes.items ≡ message_text (dense_parts nodes.now)) }
{
    let ids = ids_of(alloc, nodes)?;
    let lats = lats_of(alloc, nodes)?;
    let lons = lons_of(alloc, nodes)?;
    let mut bytes = Vec::new(alloc);
    put_deltas(alloc, &mut bytes, 1, &ids)?;
    put_deltas(alloc, &mut bytes, 8, &lats)?;
    put_deltas(alloc, &mut bytes, 9, &lons)?;
    Ok(bytes)
}

/// The block of these nodes.
#[tactic(auto, unfolding(pbf_wire::specs::Writing::nodes_block, pbf_wire::specs::Writing::block_text))]
pub(crate) fn block_of_nodes(alloc: Global, nodes: &[OsmNode]) -> Result<Vec<u8>, NoMemory>
    ensures { IfOk result (λ bytes. bytes.items ≡ nodes_block nodes.now) }
{
    let mut strings = Vec::new(alloc);
    put_bytes(&mut strings, 1, b"")?;
    let mut group = Vec::new(alloc);
    put_bytes(&mut group, 2, &dense(alloc, nodes)?)?;
    let mut block = Vec::new(alloc);
    put_bytes(&mut block, 1, &strings)?;
    put_bytes(&mut block, 2, &group)?;
    Ok(block)
}

/// The header block: the features that a reader needs.
pub(crate) fn features(alloc: Global) -> Result<Vec<u8>, NoMemory>
    ensures { IfOk result (λ bytes. bytes.items ≡ features_text) }
{
    let mut bytes = Vec::new(alloc);
    put_bytes(&mut bytes, 4, b"OsmSchema-V0.6")?;
    put_bytes(&mut bytes, 4, b"DenseNodes")?;
    Ok(bytes)
}

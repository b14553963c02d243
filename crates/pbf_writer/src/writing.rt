//! A map written to a sink, block by block.
ghost use Rattle.std.specs.Prelude.{◌≡◌, ◌≤◌, ◌↔◌, length, map, All, codes, true, OnOk, OnErr, IfOk, IsErrOf, IsTrue};
ghost use Rattle.std.specs.Io.KnownBytes.{Appends};
ghost use Rattle.gh_base.specs.declared.map.OsmWay.{OsmWay};
ghost use Rattle.gh_base.specs.Causes.{Rose, AppendsFront};
ghost use Rattle.pbf_wire.specs.Writing.{entry_text, blocks_text, nodes_block, ways_block, nodes_parts, ways_parts, fits, pbf_text};

use crate::blobs::entry;
use crate::blocks::{block_of_nodes, features};
use crate::ways::{first_block, fits_alone};
use gh_base::{GiveFault, NoMemory, OsmMap, OsmNode, OsmWay, Sink, give_all};
use std::alloc::Global;

/// The most nodes in a block.
const MOST_NODES: usize = 8000;

/// Gives a blob of a type with this content.
fn send<K: Sink>(alloc: Global, name: &[u8], content: &[u8], sink: &mut K) -> Result<(), GiveFault>
    requires { length name.now ≤ 100 }
    ensures ok { OnOk result (Appends (K.held sink.old) (K.held sink.new) (entry_text name.now content.now)) }
    ensures err { OnErr result (AppendsFront (K.held sink.old) (K.held sink.new) (entry_text name.now content.now)) }
    ensures fault { IsErrOf result GiveFault.WriteFault → Rose (K.faults sink.old) (K.faults sink.new) }
    ensures later { K.faults sink.old ≤ K.faults sink.new }
{
    let bytes = entry(alloc, name, content)?;
    give_all(sink, &bytes)?;
    Ok(())
}

fn write_nodes<K: Sink>(alloc: Global, nodes: &[OsmNode], sink: &mut K) -> Result<(), GiveFault>
    ensures ok { OnOk result (Appends (K.held sink.old) (K.held sink.new) (blocks_text (map nodes_block (nodes_parts nodes.now)))) }
    ensures err { OnErr result (AppendsFront (K.held sink.old) (K.held sink.new) (blocks_text (map nodes_block (nodes_parts nodes.now)))) }
    ensures fault { IsErrOf result GiveFault.WriteFault → Rose (K.faults sink.old) (K.faults sink.new) }
    ensures later { K.faults sink.old ≤ K.faults sink.new }
{
    let mut rest = nodes;
    'parts: while !rest.is_empty() {
        let (part, more) = rest.split_at(MOST_NODES.min(rest.len()));
        let block = block_of_nodes(alloc, part)?;
        send(alloc, b"OSMData", &block, sink)?;
        rest = more;
    }
    Ok(())
}

fn write_ways<K: Sink>(alloc: Global, ways: &[OsmWay], sink: &mut K) -> Result<(), GiveFault>
    ensures ok { OnOk result (Appends (K.held sink.old) (K.held sink.new) (blocks_text (map ways_block (ways_parts ways.now)))) }
    ensures err { OnErr result (AppendsFront (K.held sink.old) (K.held sink.new) (blocks_text (map ways_block (ways_parts ways.now)))) }
    ensures fault { IsErrOf result GiveFault.WriteFault → Rose (K.faults sink.old) (K.faults sink.new) }
    ensures later { K.faults sink.old ≤ K.faults sink.new }
{
    let mut rest = ways;
    'parts: while !rest.is_empty() {
        let (count, block) = first_block(alloc, rest)?;
        send(alloc, b"OSMData", &block, sink)?;
        let (_, more) = rest.split_at(count);
        rest = more;
    }
    Ok(())
}

/// Gives the PBF file of a map to a sink, a blob at a time.
///
/// Each way fits, which `fits_pbf` tells. After `WriteFault`, which comes only where a call of the sink failed, and
/// after `NoMemory` the sink has a front of the file behind its old bytes.
pub fn write_pbf<K: Sink>(alloc: Global, map: &OsmMap, sink: &mut K) -> Result<(), GiveFault>
    requires { All (λ (way : OsmWay). fits way ≡ true) map.now.ways }
    ensures ok { OnOk result (Appends (K.held sink.old) (K.held sink.new) (pbf_text map.now)) }
    ensures err { OnErr result (AppendsFront (K.held sink.old) (K.held sink.new) (pbf_text map.now)) }
    ensures fault { IsErrOf result GiveFault.WriteFault → Rose (K.faults sink.old) (K.faults sink.new) }
    ensures later { K.faults sink.old ≤ K.faults sink.new }
{
    let features = features(alloc)?;
    send(alloc, b"OSMHeader", &features, sink)?;
    write_nodes(alloc, map.nodes.as_slice(), sink)?;
    write_ways(alloc, map.ways.as_slice(), sink)
}

/// Whether each way of a map is written in PBF: its block, holding that way alone, has at most 32 MiB.
pub fn fits_pbf(alloc: Global, map: &OsmMap) -> Result<bool, NoMemory>
    ensures { IfOk result (λ r. IsTrue r ↔ All (λ (way : OsmWay). fits way ≡ true) map.now.ways) }
{
    for way in map.ways.as_slice() {
        if !fits_alone(alloc, way)? {
            return Ok(false);
        }
    }
    Ok(true)
}

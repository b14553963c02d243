//! A plain map written to a sink.
ghost use Rattle.std.specs.Prelude.{◌≡◌, ◌≤◌, ◌++◌, [], map, OnOk, OnErr, IsErrOf};
ghost use Rattle.std.specs.Io.KnownBytes.{Appends};
ghost use Rattle.gh_base.specs.Causes.{Rose, HasCause, AppendsFront};
ghost use Rattle.plain_map.specs.Printing.{node_text, way_text, lines_text, plain_text};
ghost use Rattle.plain_map.specs.Sending.{Sends};

use crate::texts::{push_node, push_way};
use gh_base::{Failed, GiveFault, OsmMap, OsmNode, OsmWay, Sink, give_all};
use std::alloc::Global;

/// How many bytes wait before they are given.
const BLOCK: usize = 65536;

/// Gives what waits, where it is a block or more.
#[tactic(auto, using(crate::proofs::Sent::sends_all, crate::proofs::Sent::sends_none))]
pub fn send_block<K: Sink>(sink: &mut K, waiting: &mut Vec<u8>) -> Result<(), Failed>
    ensures ok { OnOk result (Sends (K.held sink.old) (K.held sink.new) waiting.old.items waiting.new.items) }
    ensures err { OnErr result (AppendsFront (K.held sink.old) (K.held sink.new) waiting.old.items) }
    ensures cause { HasCause (K.faults sink.old) (K.faults sink.new) result }
{
    if waiting.len() < BLOCK {
        return Ok(());
    }
    give_all(sink, waiting)?;
    waiting.clear();
    Ok(())
}

fn print_nodes<K: Sink>(
    alloc: Global,
    nodes: &[OsmNode],
    sink: &mut K,
    waiting: &mut Vec<u8>,
) -> Result<(), GiveFault>
    ensures ok { OnOk result (Sends (K.held sink.old) (K.held sink.new) (waiting.old.items ++ lines_text (map node_text nodes.now)) waiting.new.items) }
    ensures err { OnErr result (AppendsFront (K.held sink.old) (K.held sink.new) (waiting.old.items ++ lines_text (map node_text nodes.now))) }
    ensures fault { IsErrOf result GiveFault.WriteFault → Rose (K.faults sink.old) (K.faults sink.new) }
    ensures later { K.faults sink.old ≤ K.faults sink.new }
{
    for node in nodes {
        push_node(alloc, waiting, node)?;
        send_block(sink, waiting)?;
    }
    Ok(())
}

fn print_ways<K: Sink>(
    alloc: Global,
    ways: &[OsmWay],
    sink: &mut K,
    waiting: &mut Vec<u8>,
) -> Result<(), GiveFault>
    ensures ok { OnOk result (Sends (K.held sink.old) (K.held sink.new) (waiting.old.items ++ lines_text (map way_text ways.now)) waiting.new.items) }
    ensures err { OnErr result (AppendsFront (K.held sink.old) (K.held sink.new) (waiting.old.items ++ lines_text (map way_text ways.now))) }
    ensures fault { IsErrOf result GiveFault.WriteFault → Rose (K.faults sink.old) (K.faults sink.new) }
    ensures later { K.faults sink.old ≤ K.faults sink.new }
{
    for way in ways {
        push_way(alloc, waiting, way)?;
        send_block(sink, waiting)?;
    }
    Ok(())
}

/// Gives the text of a map to a sink.
///
/// After `WriteFault`, which comes only where a call of the sink failed, and after `NoMemory` the sink
/// has a front of the text behind its old bytes.
pub fn print_plain<K: Sink>(alloc: Global, map: &OsmMap, sink: &mut K) -> Result<(), GiveFault>
    ensures ok { OnOk result (Appends (K.held sink.old) (K.held sink.new) (plain_text map.now)) }
    ensures err { OnErr result (AppendsFront (K.held sink.old) (K.held sink.new) (plain_text map.now)) }
    ensures fault { IsErrOf result GiveFault.WriteFault → Rose (K.faults sink.old) (K.faults sink.new) }
    ensures later { K.faults sink.old ≤ K.faults sink.new }
{
    let mut waiting = Vec::new(alloc);
    print_nodes(alloc, map.nodes.as_slice(), sink, &mut waiting)?;
    print_ways(alloc, map.ways.as_slice(), sink, &mut waiting)?;
    give_all(sink, &waiting)?;
    Ok(())
}

//! Roads written to a sink.
ghost use Rattle.std.specs.Prelude.{◌≡◌, ◌≤◌, ◌<◌, ◌++◌, ◌∷◌, [], length, OnOk, OnErr, IsErrOf};
ghost use Rattle.std.specs.Io.KnownBytes.{Appends};
ghost use Rattle.gh_base.specs.Causes.{Rose, AppendsFront};
ghost use Rattle.plain_map.specs.Sending.{Sends};
ghost use Rattle.road_lines.specs.Lines.{id_at, properties_of, line_of, lines_of};

use crate::line::{Properties, push_feature};
use encoded_values::opening_limit;
use gh_base::{EdgeId, GiveFault, IdList, NoMemory, Sink, give_all};
use map_import::Roads;
use plain_map::send_block;
use std::alloc::Global;

/// An id by number.
fn id_at(ids: &IdList, number: u32) -> i64
    requires { number < length ids.now }
    ensures { result ≡ id_at ids.now number }
{
    *ids.get(number as usize)
}

/// What is told of an edge besides its points.
fn properties_of(roads: &Roads, ways: &IdList, edge: EdgeId) -> Properties
    requires ids { length roads.now.ids ≡ length roads.now.graph.lists.places }
    requires ways { length ways.now ≡ length roads.now.graph.lists.edges }
    requires edge { edge.0 < length roads.now.graph.lists.edges }
    ensures { result ≡ properties_of roads.now ways.now edge.0 }
{
    let ends = roads.graph.edge(edge);
    Properties {
        edge: edge.0,
        way: id_at(ways, edge.0),
        base: id_at(&roads.ids, ends.base.0),
        adjacent: id_at(&roads.ids, ends.adjacent.0),
        mm: ends.mm,
        forward: opening_limit(&roads.graph.values(edge, false)),
        reverse: opening_limit(&roads.graph.values(edge, true)),
    }
}

/// Appends the line of an edge, with its newline.
fn push_edge(
    alloc: Global,
    out: &mut Vec<u8>,
    roads: &Roads,
    ways: &IdList,
    edge: EdgeId,
) -> Result<(), NoMemory>
    requires ids { length roads.now.ids ≡ length roads.now.graph.lists.places }
    requires ways { length ways.now ≡ length roads.now.graph.lists.edges }
    requires edge { edge.0 < length roads.now.graph.lists.edges }
    ensures { OnOk result (out.new.items ≡ out.old.items ++ (line_of roads.now ways.now edge.0 ++ 10 ∷ [])) }
{
    let properties = properties_of(roads, ways, edge);
    push_feature(alloc, out, &properties, &roads.graph.geometry(edge))
}

/// Gives the lines of all edges but for what is left waiting.
fn write_edges<K: Sink>(
    alloc: Global,
    roads: &Roads,
    ways: &IdList,
    sink: &mut K,
    waiting: &mut Vec<u8>,
) -> Result<(), GiveFault>
    requires ids { length roads.now.ids ≡ length roads.now.graph.lists.places }
    requires ways { length ways.now ≡ length roads.now.graph.lists.edges }
    ensures ok { OnOk result (Sends (K.held sink.old) (K.held sink.new) (waiting.old.items ++ lines_of roads.now ways.now) waiting.new.items) }
    ensures err { OnErr result (AppendsFront (K.held sink.old) (K.held sink.new) (waiting.old.items ++ lines_of roads.now ways.now)) }
    ensures fault { IsErrOf result GiveFault.WriteFault → Rose (K.faults sink.old) (K.faults sink.new) }
    ensures later { K.faults sink.old ≤ K.faults sink.new }
{
    for number in 0..roads.graph.edge_count() {
        push_edge(alloc, waiting, roads, ways, EdgeId(number))?;
        send_block(sink, waiting)?;
    }
    Ok(())
}

/// Gives a line for each edge of roads to a sink, in order, in pieces of some 64 KiB. `ways` has the id of each edge's way.
///
///     {"type":"Feature","properties":{"edge":0,"way":10,"base":1,"adjacent":2,"mm":1111949,"forward":60000,"reverse":60000},
///      "geometry":{"type":"LineString","coordinates":[[0,0],[0.01,0]]}}
///
/// After `WriteFault`, which comes only where a call of the sink failed, and after `NoMemory` the sink has a front of the
/// lines behind its old bytes.
pub fn write_roads<K: Sink>(
    alloc: Global,
    roads: &Roads,
    ways: &IdList,
    sink: &mut K,
) -> Result<(), GiveFault>
    requires ids { length roads.now.ids ≡ length roads.now.graph.lists.places }
    requires ways { length ways.now ≡ length roads.now.graph.lists.edges }
    ensures ok { OnOk result (Appends (K.held sink.old) (K.held sink.new) (lines_of roads.now ways.now)) }
    ensures err { OnErr result (AppendsFront (K.held sink.old) (K.held sink.new) (lines_of roads.now ways.now)) }
    ensures fault { IsErrOf result GiveFault.WriteFault → Rose (K.faults sink.old) (K.faults sink.new) }
    ensures later { K.faults sink.old ≤ K.faults sink.new }
{
    let mut waiting = Vec::new(alloc);
    write_edges(alloc, roads, ways, sink, &mut waiting)?;
    give_all(sink, &waiting)?;
    Ok(())
}

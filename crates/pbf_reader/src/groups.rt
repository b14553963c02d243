//! A group of nodes and ways.
ghost use Rattle.std.specs.Prelude.{◌≡◌, ◌++◌, IfOk, OnOk};
ghost use Rattle.pbf_wire.specs.Groups.{after, message_in, group_of, message_with, group_with};
ghost use Rattle.pbf_reader.specs.Reading.{Gives};

use crate::dense::{made_dense, read_dense};
use crate::fault::PbfFault;
use crate::nodes::{made_node, read_node};
use crate::pieces::{holds_bytes, pieces};
use crate::runs::{before, lesser, read_run};
use crate::ways::{made_way, read_way};
use gh_base::{NoMemory, OsmMap, OsmNodes, Sequence, Text};
use pbf_wire::{Group, GroupSoFar, Message, Piece, Scale, Spot};
use std::alloc::Global;

/// Adds the message that a field is, where it is one.
#[tactic(auto, unfolding(pbf_wire::specs::Groups::message_in))]
fn add_message(
    alloc: Global,
    out: &mut Group,
    bytes: &[u8],
    dense: &[Piece],
    first: bool,
    spot: &Spot,
) -> Result<(), NoMemory>
    ensures { OnOk result (out.new ≡ after out.old (message_in bytes.now dense.now first spot.now)) }
{
    let at = spot.field.start;
    if holds_bytes(1, spot) {
        let node = read_node(alloc, before(bytes, spot.field.end), at)?;
        out.bad = lesser(out.bad, node.bad);
        out.messages.push(Message::Node(node))
    } else if holds_bytes(3, spot) {
        let way = read_way(alloc, before(bytes, spot.field.end), at)?;
        out.bad = lesser(out.bad, way.bad);
        out.messages.push(Message::Way(way))
    } else if holds_bytes(2, spot) && first {
        let dense = read_dense(alloc, bytes, dense, at as u64)?;
        out.bad = lesser(out.bad, dense.bad);
        out.messages.push(Message::Dense(dense))
    } else {
        Ok(())
    }
}

/// The group from a place to the end, as it is written.
#[tactic(auto, using(crate::proofs::Joins::after_assoc, crate::proofs::Joins::after_none), unfolding(pbf_wire::specs::Groups::group_of))]
pub(crate) fn read_group(alloc: Global, bytes: &[u8], at: usize) -> Result<Group, NoMemory>
    ensures { IfOk result (λ m. m ≡ group_of bytes.now at) }
{
    let run = read_run(alloc, bytes, at)?;
    let fields = run.fields.as_slice();
    let found = pieces(alloc, 2, fields)?;
    let dense = found.as_slice();
    let mut out = Group {
        messages: Sequence::new(alloc),
        bad: None,
    };
    let mut first = true;
    for spot in fields {
        add_message(alloc, &mut out, bytes, dense, first, spot)?;
        first = first && !holds_bytes(2, spot);
    }
    out.bad = lesser(out.bad, run.bad);
    Ok(out)
}

/// These nodes, and more behind them.
fn with_more(nodes: OsmNodes, more: &OsmNodes) -> Result<OsmNodes, NoMemory>
    ensures { IfOk result (λ n. n ≡ nodes ++ more.now) }
{
    let mut items = nodes.into_vec();
    items.extend_from_slice(more.as_slice())?;
    Ok(Sequence::from_vec(items))
}

#[tactic(auto, unfolding(pbf_wire::specs::Groups::message_with))]
fn with_message(
    alloc: Global,
    texts: &[Text],
    scale: &Scale,
    mut made: GroupSoFar,
    message: &Message,
) -> Result<GroupSoFar, PbfFault>
    ensures { Gives result (message_with texts.now scale.now made message.now) }
{
    match message {
        Message::Node(node) => {
            let node = made_node(scale, node)?;
            made.map.nodes.push(node)?;
            Ok(made)
        }
        Message::Dense(dense) => {
            let nodes = made_dense(alloc, scale, dense)?;
            let GroupSoFar { map, dense } = made;
            let dense = with_more(dense, &nodes)?;
            Ok(GroupSoFar { map, dense })
        }
        Message::Way(way) => {
            let way = made_way(alloc, texts, way)?;
            made.map.ways.push(way)?;
            Ok(made)
        }
    }
}

/// A map with a group more.
#[tactic(auto, unfolding(pbf_wire::specs::Groups::group_with))]
pub(crate) fn with_group(
    alloc: Global,
    texts: &[Text],
    scale: &Scale,
    map: OsmMap,
    group: &Group,
) -> Result<OsmMap, PbfFault>
    ensures { Gives result (group_with texts.now scale.now map group.now) }
{
    let mut made = GroupSoFar {
        map,
        dense: OsmNodes::new(alloc),
    };
    let messages = group.messages.as_slice();
    for message in messages {
        made = with_message(alloc, texts, scale, made, message)?;
    }
    let GroupSoFar { map, dense } = made;
    let OsmMap { nodes, ways } = map;
    let nodes = with_more(nodes, &dense)?;
    Ok(OsmMap { nodes, ways })
}

//! The restrictions of a block.
ghost use Rattle.std.specs.Prelude.{◌≡◌, ◌++◌, IfOk, OnOk};
ghost use Rattle.turn_pbf.specs.PbfTurns.{turn_in, group_turns, groups_turns, block_turns};

use crate::found::texts_found;
use crate::written::{read_written, relation_with};
use gh_base::{NoMemory, Text};
use pbf_reader::{before, holds_bytes, join, pieces_under, read_run};
use pbf_wire::Spot;
use std::alloc::Global;
use turn_graph::{Turn, TurnList};
use turn_texts::turn_of;

/// The restriction that a field of a group is, if it is one.
fn turn_in(
    alloc: Global,
    texts: &[Text],
    bytes: &[u8],
    spot: &Spot,
) -> Result<Option<Turn>, NoMemory>
    ensures { IfOk result (λ turn. turn ≡ turn_in texts.now bytes.now spot.now) }
{
    if !holds_bytes(4, spot) {
        return Ok(None);
    }
    let written = read_written(alloc, before(bytes, spot.field.end), spot.field.start)?;
    let Some(relation) = relation_with(alloc, texts, &written)? else {
        return Ok(None);
    };
    Ok(turn_of(&relation))
}

/// Adds the restrictions of the group from a place to the end.
fn add_group(
    alloc: Global,
    turns: &mut TurnList,
    texts: &[Text],
    bytes: &[u8],
    at: usize,
) -> Result<(), NoMemory>
    ensures { OnOk result (turns.new ≡ turns.old ++ group_turns texts.now bytes.now at) }
{
    let run = read_run(alloc, bytes, at)?;
    for spot in run.fields.as_slice() {
        if let Some(turn) = turn_in(alloc, texts, bytes, spot)? {
            turns.push(turn)?;
        }
    }
    Ok(())
}

/// Adds those of the groups among the fields of a block.
fn add_groups(
    alloc: Global,
    turns: &mut TurnList,
    texts: &[Text],
    bytes: &[u8],
    fields: &[Spot],
) -> Result<(), NoMemory>
    ensures { OnOk result (turns.new ≡ turns.old ++ groups_turns texts.now bytes.now fields.now) }
{
    for spot in fields {
        if holds_bytes(2, spot) {
            let group = before(bytes, spot.field.end);
            add_group(alloc, turns, texts, group, spot.field.start)?;
        }
    }
    Ok(())
}

/// Adds those of the block from a place to the end.
#[tactic(auto, unfolding(crate::specs::PbfTurns::block_turns))]
pub(crate) fn add_block(
    alloc: Global,
    turns: &mut TurnList,
    bytes: &[u8],
    at: usize,
) -> Result<(), NoMemory>
    ensures { OnOk result (turns.new ≡ turns.old ++ block_turns bytes.now at) }
{
    let run = read_run(alloc, bytes, at)?;
    let fields = run.fields.as_slice();
    let pieces = pieces_under(alloc, 1, fields)?;
    let table = join(alloc, bytes, pieces.as_slice())?;
    let strings = read_run(alloc, &table, 0)?;
    let found = texts_found(alloc, &table, pieces.as_slice(), strings.fields.as_slice())?;
    let Some(texts) = found else { return Ok(()) };
    add_groups(alloc, turns, texts.as_slice(), bytes, fields)
}

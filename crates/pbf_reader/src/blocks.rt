//! A block: a table of strings, and groups.
ghost use Rattle.std.specs.Prelude.{◌≡◌, IfOk};
ghost use Rattle.std.specs.Option.{option_map};
ghost use Rattle.pbf_wire.specs.Blocks.{groups_of, block_of, text_in, texts_in, scale_of, groups_with, block_with};
ghost use Rattle.pbf_reader.specs.Reading.{Gives};

use crate::dense::END_OF_U32;
use crate::fault::{PbfFault, check_run, fault};
use crate::groups::{read_group, with_group};
use crate::pieces::{holds_bytes, join, pieces, place_of, placed_in, scalar};
use crate::runs::{before, lesser, part, read_run};
use gh_base::{NoMemory, OsmMap, PbfKind, Sequence, Text};
use pbf_wire::{Block, Group, Groups, Piece, Scale, Spot};
use std::alloc::Global;

/// The granularity of a block that doesn't say it, in 1e-9 degree.
const USUAL_GRANULARITY: i32 = 100;

/// The groups among these fields, as they are written.
#[tactic(auto, using(crate::proofs::Joins::joined_more, crate::proofs::Joins::joined_none))]
fn read_groups(alloc: Global, bytes: &[u8], fields: &[Spot]) -> Result<Groups, NoMemory>
    ensures { IfOk result (λ m. m ≡ groups_of bytes.now fields.now) }
{
    let mut out = Groups {
        groups: Sequence::new(alloc),
        bad: None,
    };
    for spot in fields {
        if holds_bytes(2, spot) {
            let group = read_group(alloc, before(bytes, spot.field.end), spot.field.start)?;
            out.bad = lesser(out.bad, group.bad);
            out.groups.push(group)?;
        }
    }
    Ok(out)
}

/// The block from a place to the end, as it is written.
#[tactic(auto, unfolding(pbf_wire::specs::Blocks::block_of))]
fn read_block(alloc: Global, bytes: &[u8], at: usize) -> Result<Block, NoMemory>
    ensures { IfOk result (λ b. b ≡ block_of bytes.now at) }
{
    let run = read_run(alloc, bytes, at)?;
    let fields = run.fields.as_slice();
    let pieces = pieces(alloc, 1, fields)?;
    let table = Sequence::from_vec(join(alloc, bytes, pieces.as_slice())?);
    let strings = read_run(alloc, table.as_slice(), 0)?;
    let groups = read_groups(alloc, bytes, fields)?;
    let granularity = scalar(17, fields);
    let lat_offset = scalar(19, fields);
    let lon_offset = scalar(20, fields);
    let bad = lesser(
        run.bad,
        lesser(placed_in(pieces.as_slice(), strings.bad), groups.bad),
    );
    Ok(Block {
        table,
        pieces,
        strings: strings.fields,
        granularity,
        lat_offset,
        lon_offset,
        groups: groups.groups,
        bad,
    })
}

/// These bytes, where they are text.
#[tactic(auto, using(crate::proofs::Texts::valid_all, crate::proofs::Texts::not_same))]
pub(crate) fn text_of(bytes: &[u8]) -> Option<&str>
    ensures { option_map (λ t. t.now) result ≡ text_in bytes.now }
{
    match str::from_utf8(bytes) {
        Ok(text) => Some(text),
        Err(_) => None,
    }
}

/// The strings of a table.
#[tactic(auto, using(crate::proofs::Fronts::front_more, crate::proofs::Fronts::front_nil))]
pub fn read_texts(
    alloc: Global,
    table: &[u8],
    pieces: &[Piece],
    fields: &[Spot],
) -> Result<Sequence<Text>, PbfFault>
    ensures { Gives result (texts_in table.now pieces.now fields.now) }
{
    let mut texts = Sequence::new(alloc);
    for spot in fields {
        if holds_bytes(1, spot) {
            let Some(found) = text_of(part(table, spot.field.start, spot.field.end)) else {
                let key = place_of(pieces, spot.key as u64);
                return Err(fault(key, PbfKind::BadUtf8));
            };
            let mut text = Text::new(alloc);
            text.push(found)?;
            texts.push(text)?;
        }
    }
    Ok(texts)
}

fn scale(block: &Block) -> Scale
    ensures { result ≡ scale_of block.now }
{
    Scale {
        granularity: match block.granularity {
            None => USUAL_GRANULARITY,
            Some(n) => ((n % END_OF_U32) as u32).cast_signed(),
        },
        lat_offset: block.lat_offset.unwrap_or(0).cast_signed(),
        lon_offset: block.lon_offset.unwrap_or(0).cast_signed(),
    }
}

fn with_groups(
    alloc: Global,
    texts: &[Text],
    scale: &Scale,
    map: OsmMap,
    groups: &[Group],
) -> Result<OsmMap, PbfFault>
    ensures { Gives result (groups_with texts.now scale.now map groups.now) }
{
    let mut made = map;
    for group in groups {
        made = with_group(alloc, texts, scale, made, group)?;
    }
    Ok(made)
}

/// A map with the block in a stretch.
#[tactic(auto, unfolding(pbf_wire::specs::Blocks::block_with))]
pub(crate) fn with_block(
    alloc: Global,
    file: &[u8],
    map: OsmMap,
    piece: Piece,
) -> Result<OsmMap, PbfFault>
    ensures { Gives result (block_with file.now map piece) }
{
    let block = read_block(alloc, before(file, piece.end), piece.start)?;
    check_run(block.bad)?;
    let table = block.table.as_slice();
    let texts = read_texts(
        alloc,
        table,
        block.pieces.as_slice(),
        block.strings.as_slice(),
    )?;
    let groups = block.groups.as_slice();
    with_groups(alloc, texts.as_slice(), &scale(&block), map, groups)
}

//! The block of a few ways, and how many it takes.
ghost use Rattle.std.specs.Prelude.{◌≡◌, ◌<◌, ◌≤◌, ◌++◌, ◌∷◌, [], List, length, take, map, OnOk, IfOk, nat_lt};
ghost use Rattle.std.specs.Int.{cast_unsigned, w64};
ghost use Rattle.gh_base.specs.declared.map.OsmTag.{OsmTag};
ghost use Rattle.gh_base.specs.declared.map.OsmWay.{OsmWay};
ghost use Rattle.pbf_wire.specs.Writing.{index_of, words_of, way_text, ways_block, ways_count, fits};
ghost use Rattle.pbf_writer.specs.Strings.{spelled, grown, IsText};
ghost use Rattle.pbf_writer.specs.Growing.{IsBlockOf, IsWrittenAs, Tried};

use crate::fields::{put_deltas, put_number, put_packed};
use crate::sizes::field_size;
use crate::strings::Strings;
use gh_base::{NoMemory, OsmTag, OsmWay};
use pbf_wire::put_bytes;
use std::alloc::Global;

/// The most ways in a block.
const MOST_WAYS: usize = 8000;

/// How many bytes a block of several ways has at most: 16 MiB.
const LONGEST_BLOCK: u128 = 16777216;

/// How many bytes the block of a way alone has at most: 32 MiB.
const LONGEST_WAY: u128 = 33554432;

/// The places of the keys and values of tags in the table.
#[derive(Drop)]
struct Places {
    keys: Vec<u64>,
    values: Vec<u64>,
}

fn place_tags<'a>(
    alloc: Global,
    strings: &mut Strings<'a>,
    tags: &'a [OsmTag],
) -> Result<Places, NoMemory>
    ensures words { OnOk result (spelled strings.new.words ≡ grown (spelled strings.old.words) (words_of tags.now)) }
    ensures text { OnOk result (IsText strings.old → IsText strings.new) }
    ensures keys { IfOk result (λ places. places.keys.items ≡ map (λ (tag : OsmTag). index_of (spelled strings.new.words) tag.key) tags.now) }
    ensures values { IfOk result (λ places. places.values.items ≡ map (λ (tag : OsmTag). index_of (spelled strings.new.words) tag.value) tags.now) }
{
    let mut keys = Vec::new(alloc);
    let mut values = Vec::new(alloc);
    for tag in tags {
        keys.push(strings.place(tag.key.as_str())?)?;
        values.push(strings.place(tag.value.as_str())?)?;
    }
    Ok(Places { keys, values })
}

#[tactic(auto, using(crate::proofs::Rounds::rounds))]
fn id_bits(way: &OsmWay) -> u64
    ensures { result ≡ cast_unsigned w64 way.now.id }
{
    way.id.cast_unsigned()
}

/// A way, with the places of its keys and values.
#[tactic(auto, unfolding(pbf_wire::specs::Writing::way_text))]
fn way_bytes<'a>(
    alloc: Global,
    strings: &mut Strings<'a>,
    way: &'a OsmWay,
) -> Result<Vec<u8>, NoMemory>
    ensures words { OnOk result (spelled strings.new.words ≡ grown (spelled strings.old.words) (words_of way.now.tags)) }
    ensures text { OnOk result (IsText strings.old → IsText strings.new) }
    ensures bytes { IfOk result (λ bytes. bytes.items ≡ way_text (spelled strings.new.words) way.now) }
{
    let places = place_tags(alloc, strings, way.tags.as_slice())?;
    let mut bytes = Vec::new(alloc);
    put_number(&mut bytes, 1, id_bits(way))?;
    put_packed(alloc, &mut bytes, 2, &places.keys)?;
    put_packed(alloc, &mut bytes, 3, &places.values)?;
    put_deltas(alloc, &mut bytes, 8, way.refs.as_slice())?;
    Ok(bytes)
}

/// A block of ways while it grows.
#[derive(Drop)]
pub(crate) struct WaysBlock<'a> {
    strings: Strings<'a>,
    group: Vec<u8>,
}

impl<'a> WaysBlock<'a> {
    pub(crate) fn new(alloc: Global) -> WaysBlock<'a>
        ensures words { spelled result.strings.words ≡ [] }
        ensures text { result.strings.text.items ≡ [] }
        ensures group { result.group.items ≡ [] }
    {
        WaysBlock {
            strings: Strings::new(alloc),
            group: Vec::new(alloc),
        }
    }

    /// Begins the table with the empty string.
    fn start(&mut self) -> Result<(), NoMemory>
        requires words { spelled self.old.strings.words ≡ [] }
        requires text { self.old.strings.text.items ≡ [] }
        requires group { self.old.group.items ≡ [] }
        ensures { OnOk result (IsBlockOf [] self.new) }
    {
        self.strings.place("")?;
        Ok(())
    }

    fn add(&mut self, alloc: Global, way: &'a OsmWay) -> Result<(), NoMemory>
        ensures { OnOk result ((ways : List OsmWay) → IsBlockOf ways self.old → IsBlockOf (ways ++ way.now ∷ []) self.new) }
    {
        let bytes = way_bytes(alloc, &mut self.strings, way)?;
        put_bytes(&mut self.group, 3, &bytes)?;
        Ok(())
    }

    /// How many bytes the block has.
    fn size(&self) -> u128
        ensures { (ways : List OsmWay) → IsWrittenAs ways self.now → result ≡ length (ways_block ways) }
    {
        u128::from(field_size(1, &self.strings.text)) + u128::from(field_size(2, &self.group))
    }

    /// Adds a way, unless the block would be too long with it. After `false` the block is written as before.
    fn try_add(&mut self, alloc: Global, way: &'a OsmWay) -> Result<bool, NoMemory>
        ensures { IfOk result (λ added. (ways : List OsmWay) → IsBlockOf ways self.old → Tried added ways way.now self.new) }
    {
        let text = self.strings.text.len();
        let group = self.group.len();
        self.add(alloc, way)?;
        if self.size() <= LONGEST_BLOCK {
            return Ok(true);
        }
        self.strings.text.truncate(text);
        self.group.truncate(group);
        Ok(false)
    }

    fn bytes(&self, alloc: Global) -> Result<Vec<u8>, NoMemory>
        ensures { IfOk result (λ bytes. (ways : List OsmWay) → IsWrittenAs ways self.now → bytes.items ≡ ways_block ways) }
    {
        let mut bytes = Vec::new(alloc);
        put_bytes(&mut bytes, 1, &self.strings.text)?;
        put_bytes(&mut bytes, 2, &self.group)?;
        Ok(bytes)
    }
}

/// The first block of these ways, and how many it has.
pub(crate) fn first_block(alloc: Global, ways: &[OsmWay]) -> Result<(usize, Vec<u8>), NoMemory>
    requires { 0 < length ways.now }
    ensures count { IfOk result (λ r. r.0 ≡ ways_count ways.now) }
    ensures some { IfOk result (λ r. 0 < r.0) }
    ensures within { IfOk result (λ r. r.0 ≤ length ways.now) }
    ensures block { IfOk result (λ r. r.1.items ≡ ways_block (take r.0 ways.now)) }
{
    let mut block = WaysBlock::new(alloc);
    block.start()?;
    block.add(alloc, &ways[0])?;
    let most = ways.len().min(MOST_WAYS);
    let mut count = 1;
    'ways: while count < most {
        let added = block.try_add(alloc, &ways[count])?;
        if !added {
            return Ok((count, block.bytes(alloc)?));
        }
        count += 1;
    }
    Ok((count, block.bytes(alloc)?))
}

/// Whether a way is written in PBF.
pub(crate) fn fits_alone(alloc: Global, way: &OsmWay) -> Result<bool, NoMemory>
    ensures { IfOk result (λ r. r ≡ fits way.now) }
{
    let mut block = WaysBlock::new(alloc);
    block.start()?;
    block.add(alloc, way)?;
    Ok(block.size() <= LONGEST_WAY)
}

//! A way.
ghost use Rattle.std.specs.Prelude.{◌≡◌, IfOk};
ghost use Rattle.pbf_wire.specs.Ways.{way_of, text_at, tags_of, way_with};
ghost use Rattle.pbf_reader.specs.Reading.{Gives};

use crate::deltas::{fits_id, ids};
use crate::dense::END_OF_U32;
use crate::fault::{PbfFault, fault};
use crate::lists::list_of;
use crate::pieces::scalar;
use crate::runs::{lesser, read_run};
use gh_base::{NoMemory, OsmTag, OsmWay, PbfKind, TagList, Text};
use pbf_wire::Way;
use std::alloc::Global;

/// The way from a place to the end, as it is written.
#[tactic(auto, unfolding(pbf_wire::specs::Ways::way_of))]
pub(crate) fn read_way(alloc: Global, bytes: &[u8], at: usize) -> Result<Way, NoMemory>
    ensures { IfOk result (λ w. w ≡ way_of bytes.now at) }
{
    let run = read_run(alloc, bytes, at)?;
    let fields = run.fields.as_slice();
    let id = scalar(1, fields);
    let keys = list_of(alloc, bytes, 2, fields)?;
    let values = list_of(alloc, bytes, 3, fields)?;
    let refs = list_of(alloc, bytes, 8, fields)?;
    let bad = lesser(run.bad, lesser(keys.bad, lesser(values.bad, refs.bad)));
    Ok(Way {
        place: at as u64,
        id,
        keys: keys.values,
        values: values.values,
        refs: refs.values,
        bad,
    })
}

/// The string of the table that an index names; a uint32 is the low 32 bits.
pub fn text_of_index(alloc: Global, texts: &[Text], index: u64) -> Result<Option<Text>, NoMemory>
    ensures { IfOk result (λ t. t ≡ text_at texts.now index) }
{
    match texts.get((index % END_OF_U32) as usize) {
        None => Ok(None),
        Some(found) => {
            let mut text = Text::new(alloc);
            text.push(found.as_str())?;
            Ok(Some(text))
        }
    }
}

/// The tags of these keys and values, by their places in the table.
#[tactic(auto, using(crate::proofs::Fronts::front_more, crate::proofs::Fronts::front_nil))]
pub fn made_tags(
    alloc: Global,
    place: u64,
    texts: &[Text],
    keys: &[u64],
    values: &[u64],
) -> Result<TagList, PbfFault>
    ensures { Gives result (tags_of place texts.now keys.now values.now) }
{
    let mut tags = TagList::new(alloc);
    let mut keys_left = keys;
    let mut values_left = values;
    'tags: loop {
        let Some((key, more_keys)) = keys_left.split_first() else {
            return Ok(tags);
        };
        let Some((value, more_values)) = values_left.split_first() else {
            return Ok(tags);
        };
        let Some(key) = text_of_index(alloc, texts, *key)? else {
            return Err(fault(place, PbfKind::BadIndex));
        };
        let Some(value) = text_of_index(alloc, texts, *value)? else {
            return Err(fault(place, PbfKind::BadIndex));
        };
        tags.push(OsmTag { key, value })?;
        keys_left = more_keys;
        values_left = more_values;
    }
}

/// The way that it says.
#[tactic(auto, unfolding(pbf_wire::specs::Ways::way_with))]
pub(crate) fn made_way(alloc: Global, texts: &[Text], way: &Way) -> Result<OsmWay, PbfFault>
    ensures { Gives result (way_with texts.now way.now) }
{
    let Some(id) = way.id else {
        return Err(fault(way.place, PbfKind::Missing));
    };
    if way.keys.len() != way.values.len() {
        return Err(fault(way.place, PbfKind::Uneven));
    }
    let keys = way.keys.as_slice();
    let tags = made_tags(alloc, way.place, texts, keys, way.values.as_slice())?;
    let id = id.cast_signed();
    if !fits_id(id) {
        return Err(fault(way.place, PbfKind::BadId));
    }
    let refs = ids(alloc, way.place, way.refs.as_slice())?;
    Ok(OsmWay { id, tags, refs })
}

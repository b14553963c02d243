//! The fields of a line, word by word.
ghost use Rattle.std.specs.Prelude.{◌≡◌, ◌<◌, ◌≤◌, ◌^◌, ℕ, List, IfOk};
ghost use Rattle.std.specs.Option.{option_map};
ghost use Rattle.gh_base.specs.Parts.{parts_of};
ghost use Rattle.gh_base.specs.Places.{IsWithin};
ghost use Rattle.gh_base.specs.Readings.{Gives};
ghost use Rattle.plain_map.specs.Fields.{behind, coordinate_at, ref_at, refs_of, refs_at, is_skipped, node_with, way_with, IsInRange};

use crate::fault::WordFault;
use crate::tags::read_tags;
use gh_base::{IdList, MOST_LAT, MOST_LON, PlainKind, TagList, first_part, read_decimal, read_id};
use std::alloc::Global;

/// How many places a coordinate may have.
const COORDINATE_PLACES: u8 = 7;

/// What the words of a node said so far.
#[derive(Clone, Copy, Debug)]
pub struct NodeSoFar {
    pub lat: Option<i32>,
    pub lon: Option<i32>,
    pub tagged: bool,
}

/// What the words of a way said so far.
#[derive(Debug, Drop)]
pub struct WaySoFar {
    pub tags: Option<TagList>,
    pub refs: Option<IdList>,
}

/// What follows a letter.
pub fn after_letter(word: &str, letter: char) -> Option<&str>
    requires { letter < 128 }
    ensures { option_map (λ t. t.now) result ≡ behind letter word.now }
{
    word.strip_prefix(letter)
}

#[tactic(auto, unfolding(crate::specs::Fields::coordinate_at))]
fn coordinate(text: &str, most: u32) -> Result<i32, WordFault>
    requires { most < 2 ^ 31 }
    ensures read { Gives result (coordinate_at most text.now) }
    ensures range { IfOk result (IsWithin most) }
{
    let Ok(n) = read_decimal(text.as_bytes(), COORDINATE_PLACES) else {
        return Err(WordFault::Is(PlainKind::Number));
    };
    if n.unsigned_abs() <= u64::from(most) {
        Ok(n as i32)
    } else {
        Err(WordFault::Is(PlainKind::Place))
    }
}

fn reference(text: &str) -> Result<i64, WordFault>
    ensures { Gives result (ref_at (behind 110 text.now)) }
{
    let Some(digits) = after_letter(text, 'n') else {
        return Err(WordFault::Is(PlainKind::Number));
    };
    match read_id(digits.as_bytes()) {
        Some(id) => Ok(id),
        None => Err(WordFault::Is(PlainKind::Number)),
    }
}

#[tactic(auto, using(crate::proofs::Loops::front_more, crate::proofs::Loops::front_nil))]
fn each_ref(alloc: Global, text: &str) -> Result<IdList, WordFault>
    ensures { Gives result (refs_of (parts_of 44 text.now)) }
{
    let mut all = IdList::new(alloc);
    let mut left = Some(text);
    'parts: while let Some(text) = left {
        let (part, after) = first_part(text, ',');
        all.push(reference(part)?)?;
        left = after;
    }
    Ok(all)
}

/// The references between commas, each `n` and an id; an empty text has none.
#[tactic(auto, unfolding(crate::specs::Fields::refs_at))]
pub fn refs(alloc: Global, text: &str) -> Result<IdList, WordFault>
    ensures { Gives result (refs_at text.now) }
{
    if text.is_empty() {
        return Ok(IdList::new(alloc));
    }
    each_ref(alloc, text)
}

/// Whether a word is a field that nothing reads.
pub fn is_passed(word: &str) -> bool
    ensures { result ≡ is_skipped word.now }
{
    matches!(
        word.as_bytes(),
        [b'v' | b'd' | b'c' | b't' | b'i' | b'u', ..]
    )
}

/// The node with a word more.
#[tactic(auto, unfolding(crate::specs::Fields::node_with))]
pub(crate) fn node_word(alloc: Global, s: NodeSoFar, word: &str) -> Result<NodeSoFar, WordFault>
    requires { IsInRange s }
    ensures read { Gives result (node_with s word.now) }
    ensures range { IfOk result IsInRange }
{
    if let Some(text) = after_letter(word, 'y') {
        if s.lat.is_some() {
            return Err(WordFault::Is(PlainKind::Field));
        }
        let lat = Some(coordinate(text, MOST_LAT)?);
        return Ok(NodeSoFar {
            lat,
            lon: s.lon,
            tagged: s.tagged,
        });
    }
    if let Some(text) = after_letter(word, 'x') {
        if s.lon.is_some() {
            return Err(WordFault::Is(PlainKind::Field));
        }
        let lon = Some(coordinate(text, MOST_LON)?);
        return Ok(NodeSoFar {
            lat: s.lat,
            lon,
            tagged: s.tagged,
        });
    }
    if let Some(text) = after_letter(word, 'T') {
        if s.tagged {
            return Err(WordFault::Is(PlainKind::Field));
        }
        let _dropped = read_tags(alloc, text)?;
        return Ok(NodeSoFar {
            lat: s.lat,
            lon: s.lon,
            tagged: true,
        });
    }
    if is_passed(word) {
        Ok(s)
    } else {
        Err(WordFault::Is(PlainKind::Field))
    }
}

/// The way with a word more.
#[tactic(auto, unfolding(crate::specs::Fields::way_with))]
pub(crate) fn way_word(alloc: Global, s: WaySoFar, word: &str) -> Result<WaySoFar, WordFault>
    ensures { Gives result (way_with s word.now) }
{
    if let Some(text) = after_letter(word, 'T') {
        if s.tags.is_some() {
            return Err(WordFault::Is(PlainKind::Field));
        }
        let tags = Some(read_tags(alloc, text)?);
        return Ok(WaySoFar { tags, refs: s.refs });
    }
    if let Some(text) = after_letter(word, 'N') {
        if s.refs.is_some() {
            return Err(WordFault::Is(PlainKind::Field));
        }
        let refs = Some(refs(alloc, text)?);
        return Ok(WaySoFar { tags: s.tags, refs });
    }
    if is_passed(word) {
        Ok(s)
    } else {
        Err(WordFault::Is(PlainKind::Field))
    }
}

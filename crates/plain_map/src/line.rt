//! What a line says.
ghost use Rattle.std.specs.Prelude.{◌≡◌, ◌<◌, ◌+◌, ◌^◌, length, false, None, IfOk, IfSome};
ghost use Rattle.std.specs.Option.{option_map};
ghost use Rattle.gh_base.specs.Parts.{parts_of, parts_left, room};
ghost use Rattle.plain_map.specs.Fields.{IsInRange};
ghost use Rattle.plain_map.specs.Lines.{GivesAt, node_words, way_words, node_line, way_line, item_of, line_at, is_passed, IsItemOnEarth};

use crate::fault::{LineFault, WordFault};
use crate::fields::{NodeSoFar, WaySoFar, after_letter, node_word, way_word};
use gh_base::{
    IdList, OsmNode, OsmWay, PlainKind, Point, TagList, first_part, read_id, valid_text,
};
use std::alloc::Global;

/// An item of a map.
#[derive(Debug, Drop)]
pub enum Item {
    Node(OsmNode),
    Way(OsmWay),
}

fn all_node_words(alloc: Global, words: Option<&str>, byte: u32) -> Result<NodeSoFar, LineFault>
    requires { byte + room (option_map (λ t. t.now) words) < 2 ^ 32 }
    ensures read { GivesAt result (node_words (record { lat = None; lon = None; tagged = false }) byte (parts_left 32 (option_map (λ t. t.now) words.entry))) }
    ensures range { IfOk result IsInRange }
{
    let mut s = NodeSoFar {
        lat: None,
        lon: None,
        tagged: false,
    };
    let mut left = words;
    let mut at = byte;
    'words: while let Some(text) = left {
        let (word, after) = first_part(text, ' ');
        s = match node_word(alloc, s, word) {
            Ok(next) => next,
            Err(WordFault::NoMemory) => return Err(LineFault::NoMemory),
            Err(WordFault::Is(kind)) => return Err(LineFault::At(at, kind)),
        };
        at += word.len() as u32 + 1;
        left = after;
    }
    Ok(s)
}

fn all_way_words(alloc: Global, words: Option<&str>, byte: u32) -> Result<WaySoFar, LineFault>
    requires { byte + room (option_map (λ t. t.now) words) < 2 ^ 32 }
    ensures { GivesAt result (way_words (record { tags = None; refs = None }) byte (parts_left 32 (option_map (λ t. t.now) words.entry))) }
{
    let mut s = WaySoFar {
        tags: None,
        refs: None,
    };
    let mut left = words;
    let mut at = byte;
    'words: while let Some(text) = left {
        let (word, after) = first_part(text, ' ');
        s = match way_word(alloc, s, word) {
            Ok(next) => next,
            Err(WordFault::NoMemory) => return Err(LineFault::NoMemory),
            Err(WordFault::Is(kind)) => return Err(LineFault::At(at, kind)),
        };
        at += word.len() as u32 + 1;
        left = after;
    }
    Ok(s)
}

#[tactic(auto, unfolding(crate::specs::Lines::node_line))]
fn node(alloc: Global, end: u32, digits: &str, words: Option<&str>) -> Result<Item, LineFault>
    requires { length digits.now + 2 + room (option_map (λ t. t.now) words) < 2 ^ 32 }
    ensures read { GivesAt result (node_line end digits.now (parts_left 32 (option_map (λ t. t.now) words.entry))) }
    ensures on_earth { IfOk result IsItemOnEarth }
{
    let Some(id) = read_id(digits.as_bytes()) else {
        return Err(LineFault::At(0, PlainKind::Number));
    };
    let s = all_node_words(alloc, words, digits.len() as u32 + 2)?;
    match (s.lat, s.lon) {
        (Some(lat), Some(lon)) => {
            let place = Point { lat, lon };
            Ok(Item::Node(OsmNode { id, place }))
        }
        _ => Err(LineFault::At(end, PlainKind::Missing)),
    }
}

#[tactic(auto, unfolding(crate::specs::Lines::way_line))]
fn way(alloc: Global, digits: &str, words: Option<&str>) -> Result<Item, LineFault>
    requires { length digits.now + 2 + room (option_map (λ t. t.now) words) < 2 ^ 32 }
    ensures read { GivesAt result (way_line digits.now (parts_left 32 (option_map (λ t. t.now) words.entry))) }
    ensures on_earth { IfOk result IsItemOnEarth }
{
    let Some(id) = read_id(digits.as_bytes()) else {
        return Err(LineFault::At(0, PlainKind::Number));
    };
    let s = all_way_words(alloc, words, digits.len() as u32 + 2)?;
    let tags = s.tags.unwrap_or(TagList::new(alloc));
    let refs = s.refs.unwrap_or(IdList::new(alloc));
    Ok(Item::Way(OsmWay { id, tags, refs }))
}

fn whole_item(alloc: Global, line: &str) -> Result<Item, LineFault>
    requires { length line.now + 2 < 2 ^ 32 }
    ensures read { GivesAt result (item_of (length line.now) (parts_of 32 line.now)) }
    ensures on_earth { IfOk result IsItemOnEarth }
{
    let (first, words) = first_part(line, ' ');
    if let Some(digits) = after_letter(first, 'n') {
        return node(alloc, line.len() as u32, digits, words);
    }
    if let Some(digits) = after_letter(first, 'w') {
        return way(alloc, digits, words);
    }
    Err(LineFault::At(0, PlainKind::Line))
}

fn passes(line: &[u8]) -> bool
    ensures { result ≡ is_passed line.now }
{
    matches!(line, [] | [b'#' | b'r', ..])
}

/// What a line says: an item, or nothing where it is skipped.
#[tactic(auto, unfolding(crate::specs::Lines::line_at))]
pub(crate) fn read_line(alloc: Global, line: &[u8]) -> Result<Option<Item>, LineFault>
    requires { length line.now + 2 < 2 ^ 32 }
    ensures read { GivesAt result (line_at line.now) }
    ensures on_earth { IfOk result (λ item. IfSome item IsItemOnEarth) }
{
    if passes(line) {
        return Ok(None);
    }
    match valid_text(line) {
        Ok(text) => Ok(Some(whole_item(alloc, text)?)),
        Err(at) => Err(LineFault::At(at as u32, PlainKind::Utf8)),
    }
}

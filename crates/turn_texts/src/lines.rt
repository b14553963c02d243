//! The restrictions among the lines of a plain map.
ghost use Rattle.std.specs.Prelude.{◌≡◌, None, IfOk};
ghost use Rattle.std.specs.Option.{option_map};
ghost use Rattle.gh_base.specs.Parts.{parts_of, parts_left};
ghost use Rattle.gh_base.specs.Readings.{Gives};
ghost use Rattle.turn_texts.specs.PlainRelations.{relation_with, relation_words, nothing, relation_by, relation_of, relation_at, is_begun, turn_at, plain_turns};

use crate::members::members;
use crate::relation::{MemberList, Relation, turn_of};
use gh_base::{IdList, NoMemory, PlainKind, TagList, first_bytes, first_part, read_id, valid_text};
use plain_map::{WordFault, after_letter, is_passed, read_tags, refs};
use std::alloc::Global;
use turn_graph::{Turn, TurnList};

/// What the words of a relation said so far.
#[derive(Debug, Drop)]
pub struct RelationSoFar {
    pub tags: Option<TagList>,
    pub refs: Option<IdList>,
    pub members: Option<MemberList>,
}

/// The relation with a word more.
#[tactic(auto, unfolding(crate::specs::PlainRelations::relation_with))]
fn relation_word(alloc: Global, s: RelationSoFar, word: &str) -> Result<RelationSoFar, WordFault>
    ensures { Gives result (relation_with s word.now) }
{
    if let Some(text) = after_letter(word, 'T') {
        if s.tags.is_some() {
            return Err(WordFault::Is(PlainKind::Field));
        }
        let tags = Some(read_tags(alloc, text)?);
        return Ok(RelationSoFar {
            tags,
            refs: s.refs,
            members: s.members,
        });
    }
    if let Some(text) = after_letter(word, 'N') {
        if s.refs.is_some() {
            return Err(WordFault::Is(PlainKind::Field));
        }
        let refs = Some(refs(alloc, text)?);
        return Ok(RelationSoFar {
            tags: s.tags,
            refs,
            members: s.members,
        });
    }
    if let Some(text) = after_letter(word, 'M') {
        if s.members.is_some() {
            return Err(WordFault::Is(PlainKind::Field));
        }
        let members = Some(members(alloc, text)?);
        return Ok(RelationSoFar {
            tags: s.tags,
            refs: s.refs,
            members,
        });
    }
    if is_passed(word) {
        Ok(s)
    } else {
        Err(WordFault::Is(PlainKind::Field))
    }
}

fn all_words(alloc: Global, words: Option<&str>) -> Result<RelationSoFar, WordFault>
    ensures { Gives result
        (relation_words nothing (parts_left 32 (option_map (λ t. t.now) words.entry))) }
{
    let mut s = RelationSoFar {
        tags: None,
        refs: None,
        members: None,
    };
    let mut left = words;
    'words: while let Some(text) = left {
        let (word, after) = first_part(text, ' ');
        s = relation_word(alloc, s, word)?;
        left = after;
    }
    Ok(s)
}

/// The relation that the words of a line say.
fn relation_of(alloc: Global, line: &str) -> Result<Relation, WordFault>
    ensures { Gives result (relation_of (parts_of 32 line.now)) }
{
    let (first, words) = first_part(line, ' ');
    let Some(digits) = after_letter(first, 'r') else {
        return Err(WordFault::Is(PlainKind::Line));
    };
    if read_id(digits.as_bytes()).is_none() {
        return Err(WordFault::Is(PlainKind::Number));
    }
    let s = all_words(alloc, words)?;
    let tags = s.tags.unwrap_or(TagList::new(alloc));
    let members = s.members.unwrap_or(MemberList::new(alloc));
    Ok(Relation { tags, members })
}

/// The relation that a line is.
#[tactic(auto, unfolding(crate::specs::PlainRelations::relation_at))]
fn relation_at(alloc: Global, line: &[u8]) -> Result<Relation, WordFault>
    ensures { Gives result (relation_at line.now) }
{
    match valid_text(line) {
        Ok(text) => relation_of(alloc, text),
        Err(_) => Err(WordFault::Is(PlainKind::Utf8)),
    }
}

fn is_begun(line: &[u8]) -> bool
    ensures { result ≡ is_begun line.now }
{
    matches!(line, [b'r', ..])
}

/// The restriction that a line is, if it is one.
fn turn_at(alloc: Global, line: &[u8]) -> Result<Option<Turn>, NoMemory>
    ensures { IfOk result (λ turn. turn ≡ turn_at line.now) }
{
    if !is_begun(line) {
        return Ok(None);
    }
    match relation_at(alloc, line) {
        Ok(relation) => Ok(turn_of(&relation)),
        Err(WordFault::Is(_kind)) => Ok(None),
        Err(WordFault::NoMemory) => Err(NoMemory),
    }
}

/// The restrictions of a plain map, in order. Each line that is no relation of the form, or no
/// restriction, is passed over.
pub fn read_plain_turns(alloc: Global, bytes: &[u8]) -> Result<TurnList, NoMemory>
    ensures { IfOk result (λ turns. turns ≡ plain_turns bytes.now) }
{
    let mut turns = TurnList::new(alloc);
    let mut left = Some(bytes);
    'lines: while let Some(text) = left {
        let (line, after) = first_bytes(text, b'\n');
        if let Some(turn) = turn_at(alloc, line)? {
            turns.push(turn)?;
        }
        left = after;
    }
    Ok(turns)
}

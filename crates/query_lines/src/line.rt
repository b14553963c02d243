//! What a line asks for.
ghost use Rattle.std.specs.Prelude.{◌≡◌, ◌<◌, ◌^◌, length};
ghost use Rattle.query_lines.specs.Queries as spec;
ghost use Rattle.script_text.specs.LineReading.{Reads};
ghost use Rattle.script_text.specs.Lines.{GivesAt};

use crate::queries::TowerQuery;
use gh_base::{ScriptKind, read_id, valid_text};
use script_text::{LineFault, LineWords, passes};

/// The most queries that are read.
const MOST_QUERIES: usize = 65536;

/// The id of the tower that a word names.
#[tactic(auto, unfolding(crate::specs::Queries::tower_of))]
fn tower(word: &[u8]) -> Option<i64>
    ensures { result ≡ spec.tower_of word.now }
{
    match word {
        [b'n', digits @ ..] => read_id(digits),
        _ => None,
    }
}

/// The next word as a tower.
fn next_tower(words: &mut LineWords<'_>) -> Result<i64, LineFault>
    ensures { Reads (spec.tower words.old) result words.new }
{
    let (at, word) = words.next()?;
    match tower(word.as_bytes()) {
        Some(id) => Ok(id),
        None => Err(LineFault::At(at, ScriptKind::Place)),
    }
}

/// Two towers, and no word more.
#[tactic(auto, unfolding(crate::specs::Queries::query))]
fn query(words: &mut LineWords<'_>) -> Result<TowerQuery, LineFault>
    ensures { Reads (spec.query words.old) result words.new }
{
    let from = next_tower(words)?;
    let to = next_tower(words)?;
    words.end()?;
    Ok(TowerQuery { from, to })
}

/// The query of a line behind so many others, none of a line that is passed over.
#[tactic(auto, unfolding(crate::specs::Queries::query_at))]
pub(crate) fn query_at(line: &[u8], before: usize) -> Result<Option<TowerQuery>, LineFault>
    requires { length line.now < 2 ^ 32 }
    ensures { GivesAt result (spec.query_at before line.now) }
{
    if passes(line) {
        return Ok(None);
    }
    match valid_text(line) {
        Ok(_) if before >= MOST_QUERIES => Err(LineFault::At(0, ScriptKind::TooMany)),
        Ok(text) => Ok(Some(query(&mut LineWords::new(text))?)),
        Err(at) => Err(LineFault::At(at as u32, ScriptKind::Utf8)),
    }
}

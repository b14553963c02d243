//! Tokens of conditions and expressions, over what is left of a text.
ghost use Rattle.std.specs.Prelude.{◌≡◌, ◌≤◌, length};
ghost use Rattle.std.specs.List.{prefix_len};
ghost use Rattle.exact_json.specs.Parsing.{Reads};
ghost use Rattle.model_texts.specs.Tokens as spec;

use exact_json::{Cursor, Stop};
use gh_base::ModelKind;

/// Why a condition is no longer read.
pub(crate) type TextStop = Stop<ModelKind>;

/// Whether a byte is a letter or an underscore.
pub fn begins_word(b: u8) -> bool
    ensures { result ≡ spec.begins_word b }
{
    (b >= b'a' && b <= b'z') || (b >= b'A' && b <= b'Z') || b == b'_'
}

/// Whether a byte is a letter, a digit or an underscore.
pub fn in_word(b: u8) -> bool
    ensures { result ≡ spec.in_word b }
{
    begins_word(b) || b.is_ascii_digit()
}

fn in_number(b: u8) -> bool
    ensures { result ≡ spec.in_number b }
{
    b.is_ascii_digit() || b == b'.'
}

fn is_pair(a: u8, b: u8) -> bool
    ensures { result ≡ spec.is_pair a b }
{
    ((a == b'=' || a == b'!' || a == b'<' || a == b'>') && b == b'=')
        || (a == b'&' && b == b'&')
        || (a == b'|' && b == b'|')
}

fn word_len(bytes: &[u8]) -> usize
    ensures value { result ≡ prefix_len spec.in_word bytes.now }
    ensures within { result ≤ length bytes.now }
{
    let mut n = 0;
    for b in bytes {
        if !in_word(*b) {
            return n;
        }
        n += 1;
    }
    n
}

fn number_len(bytes: &[u8]) -> usize
    ensures value { result ≡ prefix_len spec.in_number bytes.now }
    ensures within { result ≤ length bytes.now }
{
    let mut n = 0;
    for b in bytes {
        if !in_number(*b) {
            return n;
        }
        n += 1;
    }
    n
}

fn token_len(bytes: &[u8]) -> usize
    ensures value { result ≡ spec.token_len bytes.now }
    ensures within { result ≤ length bytes.now }
{
    match bytes {
        [] => 0,
        [b, ..] if begins_word(*b) => word_len(bytes),
        [b, ..] if in_number(*b) => number_len(bytes),
        [a, b, ..] if is_pair(*a, *b) => 2,
        _ => 1,
    }
}

fn after_space(bytes: &[u8]) -> &[u8]
    ensures { result.now ≡ spec.after_space bytes.now }
{
    let mut left = bytes;
    while let [b, rest @ ..] = left {
        if *b != b' ' {
            break;
        }
        left = rest;
    }
    left
}

/// How many bytes are left from the next token on.
#[tactic(auto, unfolding(crate::specs::Tokens::ahead))]
pub(crate) fn ahead(text: &Cursor<'_>) -> usize
    ensures { result ≡ spec.ahead text.now }
{
    after_space(text.rest()).len()
}

/// A fault at the next token, or at the end.
pub(crate) fn unfit(text: &Cursor<'_>, kind: ModelKind) -> TextStop
    ensures { result ≡ Stop.At (spec.ahead text.now) kind }
{
    Stop::At(ahead(text), kind)
}

/// The next token; empty at the end.
#[tactic(auto, unfolding(crate::specs::Tokens::spelling))]
pub(crate) fn peek<'a>(text: &Cursor<'a>) -> &'a [u8]
    ensures { result.now ≡ spec.spelling text.now }
{
    let rest = after_space(text.rest());
    let (token, _) = rest.split_at(token_len(rest));
    token
}

/// Takes the next token.
#[tactic(auto, unfolding(crate::specs::Tokens::next))]
pub(crate) fn advance(text: &mut Cursor<'_>)
    ensures { text.new ≡ spec.next text.old }
{
    let rest = after_space(text.rest());
    let (_, behind) = rest.split_at(token_len(rest));
    text.go_on(behind);
}

#[tactic(auto, unfolding(crate::specs::Tokens::sees))]
pub(crate) fn sees(text: &Cursor<'_>, token: &[u8]) -> bool
    ensures { result ≡ spec.sees token.now text.now }
{
    peek(text) == token
}

/// Takes this token, if it comes next.
#[tactic(auto, unfolding(crate::specs::Tokens::after))]
pub(crate) fn eat(text: &mut Cursor<'_>, token: &[u8]) -> bool
    ensures answer { result ≡ spec.sees token.now text.old }
    ensures left { text.new ≡ spec.after token.now text.old }
{
    if !sees(text, token) {
        return false;
    }
    advance(text);
    true
}

/// Takes this token, or refuses what comes next.
#[tactic(auto, unfolding(crate::specs::Tokens::expect))]
pub(crate) fn expect(text: &mut Cursor<'_>, kind: ModelKind, token: &[u8]) -> Result<(), TextStop>
    ensures { Reads (spec.expect kind token.now text.old) result text.new }
{
    if !sees(text, token) {
        return Err(unfit(text, kind));
    }
    advance(text);
    Ok(())
}

/// Refuses what comes next, if something does.
#[tactic(auto, unfolding(crate::specs::Tokens::finish))]
pub(crate) fn finish(text: &mut Cursor<'_>, kind: ModelKind) -> Result<(), TextStop>
    ensures { Reads (spec.finish kind text.old) result text.new }
{
    if ahead(text) == 0 {
        return Ok(());
    }
    Err(unfit(text, kind))
}

/// The byte, counted from 0, where so many are left; no byte is told beyond the greatest of its type.
pub(crate) fn byte_at(text: &[u8], left: usize) -> u32
    ensures { result ≡ spec.byte_at (length text.now) left }
{
    text.len().saturating_sub(left).min(u32::MAX as usize) as u32
}

//! Strings.
ghost use Rattle.std.specs.Prelude.{◌≡◌, ◌<◌, ◌≤◌, ◌+◌, ◌*◌, ◌-◌, ◌++◌, ◌^◌, ◌⊎◌, ◌==◌, length, true, false, OnOk, OnErr, IfOk, IfErr, encode_utf8};
ghost use Rattle.std.specs.List.{prefix_len};
ghost use Rattle.std.specs.Str.Lossy.{utf8_valid_len};
ghost use Rattle.exact_json.specs.Parsing.{Reads};
ghost use Rattle.exact_json.specs.Tokens.{ReadsPart};
ghost use Rattle.exact_json.specs.Texts as spec;

use crate::cursor::Cursor;
use crate::stop::Stop;
use crate::tokens::{JsonStop, take};
use gh_base::{JsonKind, NoMemory, Text};
use std::alloc::Global;

/// What is taken off the first half of a surrogate pair.
const HIGH_FROM: u32 = 0xd800;

/// What is taken off the second half of a surrogate pair.
const LOW_FROM: u32 = 0xdc00;

/// The first number behind the halves.
const HALVES_END: u32 = 0xe000;

/// The character of the pair of the first halves.
const PAIRS_FROM: u32 = 0x10000;

/// How many second halves there are for each first half.
const SECOND_HALVES: u32 = 1024;

fn is_plain(b: u8) -> bool
    ensures { result ≡ spec.is_plain b }
{
    b >= b' ' && b != b'"' && b != b'\\'
}

fn plain_len(bytes: &[u8]) -> usize
    ensures value { result ≡ prefix_len spec.is_plain bytes.now }
    ensures within { result ≤ length bytes.now }
{
    let mut n = 0;
    for b in bytes {
        if !is_plain(*b) {
            return n;
        }
        n += 1;
    }
    n
}

/// The text that bytes are, or where they stop to be text.
#[tactic(auto, using(crate::proofs::Utf8::valid_all, crate::proofs::Utf8::not_same))]
fn text_of(bytes: &[u8]) -> Result<&str, usize>
    ensures ok { IfOk result (λ text. text.now ≡ bytes.now) }
    ensures valid { OnOk result ((utf8_valid_len bytes.now == length bytes.now) ≡ true) }
    ensures err { IfErr result (λ n. n ≡ utf8_valid_len bytes.now) }
    ensures less { IfErr result (λ n. n < length bytes.now) }
    ensures cut { OnErr result ((utf8_valid_len bytes.now == length bytes.now) ≡ false) }
{
    match str::from_utf8(bytes) {
        Ok(text) => Ok(text),
        Err(e) => Err(e.valid_up_to()),
    }
}

/// The text up to a quote, a backslash, a control character or the end.
#[tactic(auto, unfolding(crate::specs::Texts::plain))]
fn plain<'a>(text: &mut Cursor<'a>) -> Result<&'a str, JsonStop>
    ensures { ReadsPart (spec.plain text.old) result text.new }
{
    let bytes = text.rest();
    let (run, rest) = bytes.split_at(plain_len(bytes));
    match text_of(run) {
        Ok(run) => {
            text.go_on(rest);
            Ok(run)
        }
        Err(valid) => Err(Stop::At(bytes.len() - valid, JsonKind::Utf8)),
    }
}

/// A hexadecimal digit behind a number.
fn hex(text: &mut Cursor<'_>, n: u32) -> Result<u32, JsonStop>
    requires { n < 2 ^ 28 }
    ensures reads { Reads (spec.hex n text.old) result text.new }
    ensures small { IfOk result (λ m. m < 16 * n + 16) }
{
    match text.rest() {
        [] => Err(Stop::At(0, JsonKind::End)),
        [b, rest @ ..] => {
            let Some(digit) = char::from(*b).to_digit(16) else {
                return Err(text.refuse(JsonKind::Byte));
            };
            text.go_on(rest);
            Ok(16 * n + digit)
        }
    }
}

#[tactic(auto, unfolding(crate::specs::Texts::four))]
fn four(text: &mut Cursor<'_>) -> Result<u32, JsonStop>
    ensures reads { Reads (spec.four text.old) result text.new }
    ensures small { IfOk result (λ n. n < 65536) }
{
    let n = hex(text, 0)?;
    let n = hex(text, n)?;
    let n = hex(text, n)?;
    hex(text, n)
}

fn is_high(n: u32) -> bool
    ensures { result ≡ spec.is_high n }
{
    n >= HIGH_FROM && n < LOW_FROM
}

fn is_low(n: u32) -> bool
    ensures { result ≡ spec.is_low n }
{
    n >= LOW_FROM && n < HALVES_END
}

fn scalar(n: u32) -> char
    requires { (n < 55296) ⊎ ((57344 ≤ n) × (n < 1114112)) }
    ensures { result ≡ n }
{
    match char::from_u32(n) {
        Some(c) => c,
        None => unreachable!(),
    }
}

/// This byte of a second escape, whose first began where `start` bytes were left.
fn second(text: &mut Cursor<'_>, start: usize, wanted: u8) -> Result<(), JsonStop>
    ensures { Reads (spec.second start wanted text.old) result text.new }
{
    match text.rest() {
        [] => Err(Stop::At(0, JsonKind::End)),
        [b, rest @ ..] => {
            if *b != wanted {
                return Err(Stop::At(start, JsonKind::Escape));
            }
            text.go_on(rest);
            Ok(())
        }
    }
}

#[tactic(auto, unfolding(crate::specs::Texts::low))]
fn low(text: &mut Cursor<'_>, start: usize, high: u32) -> Result<char, JsonStop>
    requires { (55296 ≤ high) × (high < 56320) }
    ensures { Reads (spec.low start high text.old) result text.new }
{
    second(text, start, b'\\')?;
    second(text, start, b'u')?;
    let n = four(text)?;
    if !is_low(n) {
        return Err(Stop::At(start, JsonKind::Escape));
    }
    Ok(scalar(PAIRS_FROM + (high - HIGH_FROM) * SECOND_HALVES + (n - LOW_FROM)))
}

#[tactic(auto, unfolding(crate::specs::Texts::unicode))]
fn unicode(text: &mut Cursor<'_>, start: usize) -> Result<char, JsonStop>
    ensures { Reads (spec.unicode start text.old) result text.new }
{
    let n = four(text)?;
    if is_high(n) {
        return low(text, start, n);
    }
    if is_low(n) {
        return Err(Stop::At(start, JsonKind::Escape));
    }
    Ok(scalar(n))
}

fn named(b: u8) -> Option<char>
    ensures { result ≡ spec.named b }
{
    match b {
        b'"' | b'\\' | b'/' => Some(char::from(b)),
        b'b' => Some('\u{8}'),
        b'f' => Some('\u{c}'),
        b'n' => Some('\n'),
        b'r' => Some('\r'),
        b't' => Some('\t'),
        _ => None,
    }
}

/// The character of an escape, behind its backslash.
#[tactic(auto, unfolding(crate::specs::Texts::escape))]
fn escape(text: &mut Cursor<'_>, start: usize) -> Result<char, JsonStop>
    ensures { Reads (spec.escape start text.old) result text.new }
{
    let Some(b) = text.peek() else {
        return Err(text.refuse(JsonKind::End));
    };
    if b == b'u' {
        take(text)?;
        return unicode(text, start);
    }
    let Some(c) = named(b) else {
        return Err(text.refuse(JsonKind::Byte));
    };
    take(text)?;
    Ok(c)
}

pub(crate) fn push_char(alloc: Global, out: &mut Text, c: char) -> Result<(), NoMemory>
    ensures { OnOk result (out.new ≡ out.old ++ encode_utf8 c) }
{
    let text = c.to_string(alloc)?;
    out.push(text.as_str())
}

/// A string, behind its first quote.
#[tactic(auto, using(crate::proofs::Turns::one_more, crate::proofs::Turns::no_more), unfolding(crate::specs::Texts::text))]
pub(crate) fn string(alloc: Global, text: &mut Cursor<'_>) -> Result<Text, JsonStop>
    ensures { Reads (spec.text text.old) result text.new }
{
    let mut out = Text::new(alloc);
    for _turn in 0..text.left() {
        out.push(plain(text)?)?;
        let start = text.left();
        match take(text)? {
            b'"' => return Ok(out),
            b'\\' => push_char(alloc, &mut out, escape(text, start)?)?,
            _ => return Err(Stop::At(start, JsonKind::Byte)),
        }
    }
    Err(text.refuse(JsonKind::End))
}

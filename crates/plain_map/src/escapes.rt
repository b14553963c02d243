//! Keys and values with their escapes read.
ghost use Rattle.std.specs.Prelude.{◌≡◌, ◌≤◌, ◌++◌, length, OnOk, encode_utf8};
ghost use Rattle.gh_base.specs.Readings.{Gives};
ghost use Rattle.plain_map.specs.Escapes.{hex_from, scalar_at, text_at};

use crate::fault::WordFault;
use gh_base::{NoMemory, PlainKind, Text, first_part};
use std::alloc::Global;

/// The most hexadecimal digits of an escape.
const MOST_HEX_DIGITS: usize = 6;

fn hex(text: &str) -> Option<u32>
    requires { length text.now ≤ 6 }
    ensures { result ≡ hex_from 0 text.now }
{
    let mut n = 0u32;
    for b in text.as_bytes() {
        n = 16 * n + char::from(*b).to_digit(16)?;
    }
    Some(n)
}

#[tactic(auto, unfolding(crate::specs::Escapes::scalar_at))]
fn scalar(text: &str) -> Result<char, WordFault>
    ensures { Gives result (scalar_at text.now) }
{
    if text.is_empty() || text.len() > MOST_HEX_DIGITS {
        return Err(WordFault::Is(PlainKind::Escape));
    }
    let Some(n) = hex(text) else {
        return Err(WordFault::Is(PlainKind::Escape));
    };
    match char::from_u32(n) {
        Some(c) => Ok(c),
        None => Err(WordFault::Is(PlainKind::Escape)),
    }
}

fn push_char(alloc: Global, out: &mut Text, c: char) -> Result<(), NoMemory>
    ensures { OnOk result (out.new ≡ out.old ++ encode_utf8 c) }
{
    let Ok(text) = c.to_string(alloc) else {
        return Err(NoMemory);
    };
    out.push(text.as_str())
}

/// A key or a value, with its escapes read.
#[tactic(auto, using(crate::proofs::Loops::code_more, crate::proofs::Loops::front_nil), unfolding(crate::specs::Escapes::text_at))]
pub fn unescape(alloc: Global, text: &str) -> Result<Text, WordFault>
    ensures { Gives result (text_at text.now) }
{
    let mut out = Text::new(alloc);
    let mut left = text;
    'codes: loop {
        let (plain, after) = first_part(left, '%');
        out.push(plain)?;
        let Some(after) = after else {
            return Ok(out);
        };
        let (code, after) = first_part(after, '%');
        push_char(alloc, &mut out, scalar(code)?)?;
        let Some(after) = after else {
            return Err(WordFault::Is(PlainKind::Escape));
        };
        left = after;
    }
}

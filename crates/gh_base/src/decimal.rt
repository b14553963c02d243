//! Decimals in texts.
ghost use Rattle.std.specs.Prelude.{◌≡◌, ◌<◌, ◌≤◌, ◌+◌, ◌-◌, ◌^◌, ◌==◌, ◌↔◌, ℕ, length, get_or, position, true, false, Some, None, IsTrue, IfOk, IfErr, OnErr, IfSome, if◌then◌else◌};
ghost use Rattle.std.specs.Char.{is_ascii_digit};
ghost use Rattle.gh_base.specs.Decimals.{decimal_of, split_at_dot, is_minus, IsLongestFront};

use crate::numbers::{has_minus, magnitude_of, read_natural, with_sign};
use crate::parts::find;
use thiserror::Error;

/// The most digits in front of a decimal's dot.
const MOST_WHOLE_DIGITS: usize = 9;

/// A text that is no decimal, and how many bytes of it could still be continued to one.
#[derive(Clone, Copy, Debug, PartialEq, Eq, Error)]
#[error("no decimal, from byte {byte} on")]
pub struct BadDecimal {
    pub byte: u32,
}

/// How many units of the last of so many places make one.
fn units(places: usize) -> u64
    requires { places ≤ 7 }
    ensures value { result ≡ 10 ^ places }
    ensures most { result ≤ 10 ^ 7 }
{
    match places {
        0 => 1,
        1 => 10,
        2 => 100,
        3 => 1000,
        4 => 10000,
        5 => 100000,
        6 => 1000000,
        _ => 10000000,
    }
}

#[tactic(auto, unfolding(crate::specs::Decimals::split_at_dot, crate::specs::Decimals::natural_of))]
fn unsigned_decimal(text: &[u8], places: usize) -> Option<u64>
    requires { places ≤ 7 }
    ensures value { result ≡ split_at_dot places text.now (position (λ b. b == 46) text.now) }
    ensures small { IfSome result (λ n. n < 2 ^ 62) }
{
    match find(text, b'.') {
        None => {
            let n = read_natural(text, MOST_WHOLE_DIGITS)?;
            Some(n * units(places))
        }
        Some(dot) => {
            let (front, _) = text.split_at(dot);
            let (_, rest) = text.split_at(dot + 1);
            let n = read_natural(front, MOST_WHOLE_DIGITS)?;
            let m = read_natural(rest, places)?;
            Some(n * units(places) + m * units(places - rest.len()))
        }
    }
}

#[tactic(auto, unfolding(crate::specs::Decimals::decimal_of))]
fn signed_decimal(text: &[u8], places: usize) -> Option<i64>
    requires { places ≤ 7 }
    ensures { result ≡ decimal_of places text.now }
{
    let n = unsigned_decimal(magnitude_of(text), places)?;
    Some(with_sign(has_minus(text), n))
}

/// How many bytes the sign takes.
fn sign_length(text: &[u8]) -> usize
    ensures value { result ≡ if is_minus text.now then 1 else 0 }
    ensures within { result ≤ length text.now }
{
    match text {
        [b'-', ..] => 1,
        _ => 0,
    }
}

/// Where the digits from a byte on end, of which at most so many count.
fn digits_end(text: &[u8], from: usize, most: usize) -> usize
    requires within { from ≤ length text.now }
    requires small { most ≤ 9 }
    ensures within { result ≤ length text.now }
    ensures least { from ≤ result }
    ensures most { result ≤ from + most }
    ensures digits { (i : ℕ) → from ≤ i → i < result → is_ascii_digit (get_or text.now i 0) ≡ true }
    ensures end { result < length text.now → result < from + most → is_ascii_digit (get_or text.now result 0) ≡ false }
{
    let mut end = from;
    'digits: while end < text.len() && end - from < most {
        if !text[end].is_ascii_digit() {
            break;
        }
        end += 1;
    }
    end
}

/// Whether behind the whole digits a dot begins a fraction.
fn goes_on_at(text: &[u8], places: usize, start: usize, dot: usize) -> bool
    ensures { IsTrue result ↔ (start < dot) × (0 < places) × (dot < length text.now) × (get_or text.now dot 0 ≡ 46) }
{
    start < dot && 0 < places && dot < text.len() && text[dot] == b'.'
}

/// The length of a text's longest front that can still be continued to a decimal.
fn longest_front(text: &[u8], places: usize) -> usize
    requires { places ≤ 7 }
    ensures longest { IsLongestFront places text.now result }
    ensures small { result ≤ 18 }
{
    let start = sign_length(text);
    let dot = digits_end(text, start, MOST_WHOLE_DIGITS);
    if goes_on_at(text, places, start, dot) {
        digits_end(text, dot + 1, places)
    } else {
        dot
    }
}

/// A decimal of at most so many places, in units of the last of them: maybe `-`, one to nine digits, and maybe `.` and one
/// to `places` digits. Refused exactly where the text isn't one; `byte` is then the length of its longest front that can
/// still be continued to one.
pub fn read_decimal(text: &[u8], places: u8) -> Result<i64, BadDecimal>
    requires { places ≤ 7 }
    ensures value { IfOk result (λ v. decimal_of places text.now ≡ Some v) }
    ensures refused { OnErr result (decimal_of places text.now ≡ None) }
    ensures byte { IfErr result (λ bad. IsLongestFront places text.now bad.byte) }
{
    let places = usize::from(places);
    match signed_decimal(text, places) {
        Some(value) => Ok(value),
        None => Err(BadDecimal {
            byte: longest_front(text, places) as u32,
        }),
    }
}

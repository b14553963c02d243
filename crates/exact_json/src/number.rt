//! Numbers.
ghost use Rattle.std.specs.Prelude.{◌≡◌, ◌<◌, ◌≤◌, ◌+◌, ◌*◌, ◌-◌, ◌^◌, length, IfSome, Ok};
ghost use Rattle.std.specs.List.{prefix_len};
ghost use Rattle.std.specs.Char.{is_ascii_digit};
ghost use Rattle.exact_json.specs.Tokens.{ReadsPart};
ghost use Rattle.exact_json.specs.Numbers.{ExponentReads};
ghost use Rattle.exact_json.specs.Parsing.{Reads};
ghost use Rattle.exact_json.specs.Numbers as spec;
ghost use Rattle.exact_json.specs.Decimals as decimals;

use crate::cursor::Cursor;
use crate::stop::Stop;
use crate::tokens::{JsonStop, take};
use crate::value::Decimal;
use gh_base::JsonKind;

/// The digits of a decimal stay below this.
const LIMIT: u64 = 1000000000000000000;

/// The most places of a decimal.
const MOST_PLACES: usize = 18;

/// The most digits of an exponent.
const MOST_EXPONENT_DIGITS: usize = 4;

pub(crate) fn begins_number(b: u8) -> bool
    ensures { result ≡ spec.begins_number b }
{
    b == b'-' || b.is_ascii_digit()
}

fn digits_len(bytes: &[u8]) -> usize
    ensures value { result ≡ prefix_len is_ascii_digit bytes.now }
    ensures within { result ≤ length bytes.now }
{
    let mut n = 0;
    for b in bytes {
        if !b.is_ascii_digit() {
            return n;
        }
        n += 1;
    }
    n
}

/// One digit or more.
#[tactic(auto, unfolding(crate::specs::Numbers::digits))]
fn digits<'a>(text: &mut Cursor<'a>) -> Result<&'a [u8], JsonStop>
    ensures { ReadsPart (spec.digits text.old) result text.new }
{
    let bytes = text.rest();
    let n = digits_len(bytes);
    if n == 0 {
        return Err(text.refuse(if bytes.is_empty() {
            JsonKind::End
        } else {
            JsonKind::Byte
        }));
    }
    let (run, rest) = bytes.split_at(n);
    text.go_on(rest);
    Ok(run)
}

/// The number that digits spell behind `start`, where it is below the limit.
#[tactic(auto, using(crate::proofs::Limits::too_long, crate::proofs::Limits::kept_all))]
fn spelled(start: u64, digits: &[u8]) -> Option<u64>
    requires { start < 10 ^ 18 }
    ensures value { result ≡ decimals.below (decimals.spelled start digits.now) }
    ensures small { IfSome result (λ n. n < 10 ^ 18) }
{
    let mut n = start;
    for b in digits {
        let digit = u64::from(b.saturating_sub(b'0'));
        if 10 * n + digit >= LIMIT {
            return None;
        }
        n = 10 * n + digit;
    }
    Some(n)
}

/// A number with zeros behind it, where it is below the limit.
#[tactic(auto, using(crate::proofs::Limits::one_zero, crate::proofs::Limits::no_zero, crate::proofs::Limits::too_many, crate::proofs::Limits::kept))]
fn with_zeros(start: u64, count: usize) -> Option<u64>
    requires { start < 10 ^ 18 }
    ensures value { result ≡ decimals.below (start * 10 ^ count) }
    ensures small { IfSome result (λ n. n < 10 ^ 18) }
{
    let mut n = start;
    for _turn in 0..count {
        if 10 * n >= LIMIT {
            return None;
        }
        n *= 10;
    }
    Some(n)
}

#[tactic(auto, unfolding(crate::specs::Decimals::exponent_of))]
fn exponent_of(digits: &[u8]) -> Option<u64>
    ensures value { result ≡ decimals.exponent_of digits.now }
    ensures small { IfSome result (λ n. n < 10 ^ 18) }
{
    if digits.len() > MOST_EXPONENT_DIGITS {
        return None;
    }
    let n = spelled(0, digits)?;
    Some(n)
}

fn exactly(negative: bool, n: u64, places: usize) -> Option<Decimal>
    requires { n < 10 ^ 18 }
    ensures { result ≡ decimals.exactly negative n places }
{
    if places > MOST_PLACES {
        return None;
    }
    Some(Decimal {
        negative: negative && n > 0,
        digits: n,
        places: places as u8,
    })
}

fn scaled(negative: bool, n: u64, places: usize, down: bool, e: u64) -> Option<Decimal>
    requires { (n < 10 ^ 18) × (e < 10 ^ 18) × (places < 2 ^ 63) }
    ensures { result ≡ decimals.scaled negative n places down e }
{
    let e = e as usize;
    if down {
        return exactly(negative, n, places + e);
    }
    if e <= places {
        return exactly(negative, n, places - e);
    }
    exactly(negative, with_zeros(n, e - places)?, 0)
}

#[tactic(auto, unfolding(crate::specs::Decimals::decimal_of))]
fn decimal_of(
    negative: bool,
    whole: &[u8],
    fraction: &[u8],
    down: bool,
    exponent: &[u8],
) -> Option<Decimal>
    ensures { result ≡ decimals.decimal_of negative whole.now fraction.now down exponent.now }
{
    let n = spelled(0, whole)?;
    let m = spelled(n, fraction)?;
    let e = exponent_of(exponent)?;
    scaled(negative, m, fraction.len(), down, e)
}

#[tactic(auto, unfolding(crate::specs::Numbers::whole))]
fn whole<'a>(text: &mut Cursor<'a>) -> Result<&'a [u8], JsonStop>
    ensures { ReadsPart (spec.whole text.old) result text.new }
{
    match text.peek() {
        None => Err(text.refuse(JsonKind::End)),
        Some(b'0') => {
            take(text)?;
            Ok(b"0".as_slice())
        }
        Some(_) => digits(text),
    }
}

#[tactic(auto, unfolding(crate::specs::Numbers::fraction))]
fn fraction<'a>(text: &mut Cursor<'a>) -> Result<&'a [u8], JsonStop>
    ensures { ReadsPart (spec.fraction text.old) result text.new }
{
    if text.eat(b'.') {
        return digits(text);
    }
    Ok(b"".as_slice())
}

#[tactic(auto, unfolding(crate::specs::Numbers::letter))]
fn letter(text: &mut Cursor<'_>) -> bool
    ensures { spec.letter text.old ≡ Ok (result, text.new) }
{
    text.eat(b'e') || text.eat(b'E')
}

#[tactic(auto, unfolding(crate::specs::Numbers::minus))]
fn minus(text: &mut Cursor<'_>) -> bool
    ensures { spec.minus text.old ≡ Ok (result, text.new) }
{
    if text.eat(b'-') {
        return true;
    }
    let _plus = text.eat(b'+');
    false
}

#[tactic(auto, unfolding(crate::specs::Numbers::exponent))]
fn exponent<'a>(text: &mut Cursor<'a>) -> Result<(bool, &'a [u8]), JsonStop>
    ensures { ExponentReads (spec.exponent text.old) result text.new }
{
    if !letter(text) {
        return Ok((false, b"".as_slice()));
    }
    let down = minus(text);
    let digits = digits(text)?;
    Ok((down, digits))
}

/// A number, judged at its end.
#[tactic(auto, unfolding(crate::specs::Numbers::number))]
pub(crate) fn number(text: &mut Cursor<'_>) -> Result<Decimal, JsonStop>
    ensures { Reads (spec.number text.old) result text.new }
{
    let start = text.left();
    let negative = text.eat(b'-');
    let a = whole(text)?;
    let b = fraction(text)?;
    let (down, e) = exponent(text)?;
    match decimal_of(negative, a, b, down, e) {
        None => Err(Stop::At(start, JsonKind::TooLong)),
        Some(d) => Ok(d),
    }
}

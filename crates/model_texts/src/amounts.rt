//! The numbers in the texts of models.
ghost use Rattle.std.specs.Prelude.{◌≡◌, ◌≤◌, IfSome, IfOk, IfErr, OnErr, Some, None};
ghost use Rattle.gh_base.specs.Decimals.{decimal_of};
ghost use Rattle.model_texts.specs.Amounts as spec;

use gh_base::{BadDecimal, read_decimal};
use model_eval::Running;

/// What an action does with the running number.
#[derive(Clone, Copy, Debug, PartialEq, Eq)]
pub enum Verb {
    Multiply,
    Limit,
}

/// Places of a number in millionths, and of one in thousandths.
const MILLIONTHS: u8 = 6;

const THOUSANDTHS: u8 = 3;

/// The greatest factor and limit of priority, in millionths.
const MOST_MILLIONTHS: u32 = 10_000_000;

/// The greatest limit of speed, in milli-km/h.
const MOST_SPEED: u32 = 1_000_000;

/// The places that an action's number may have.
pub fn places_of(verb: Verb, running: Running) -> u8
    ensures value { result ≡ spec.places_of verb running }
    ensures few { result ≤ 6 }
{
    match (verb, running) {
        (Verb::Limit, Running::Speed) => THOUSANDTHS,
        _ => MILLIONTHS,
    }
}

/// The greatest value of an action's number, in units of its last place.
pub fn most_of(verb: Verb, running: Running) -> u32
    ensures { result ≡ spec.most_of verb running }
{
    match (verb, running) {
        (Verb::Limit, Running::Speed) => MOST_SPEED,
        _ => MOST_MILLIONTHS,
    }
}

fn natural(value: i64) -> Option<u64>
    ensures { result ≡ spec.natural value }
{
    if value < 0 {
        return None;
    }
    Some(value.unsigned_abs())
}

/// A number from 0 to a greatest.
pub fn within(most: u32, value: i64) -> Option<u32>
    ensures value { result ≡ spec.within most value }
    ensures small { IfSome result (λ n. n ≤ most) }
{
    let n = natural(value)?;
    if n > u64::from(most) {
        return None;
    }
    Some(n as u32)
}

/// What a number is compared with, in thousandths.
#[tactic(auto, unfolding(crate::specs::Amounts::constant_of))]
pub(crate) fn constant(s: &[u8]) -> Option<u64>
    ensures { result ≡ spec.constant_of s.now }
{
    match read_decimal(s, THOUSANDTHS) {
        Ok(value) => natural(value),
        Err(_) => None,
    }
}

/// A factor of an expression, in millionths.
#[tactic(auto, unfolding(crate::specs::Amounts::factor_of))]
pub(crate) fn factor_in(s: &[u8]) -> Option<u32>
    ensures value { result ≡ spec.factor_of s.now }
    ensures small { IfSome result (λ n. n ≤ 10000000) }
{
    match read_decimal(s, MILLIONTHS) {
        Ok(value) => within(MOST_MILLIONTHS, value),
        Err(_) => None,
    }
}

/// A decimal of at most so many places; a text that is none is refused behind its longest front.
pub fn decimal(s: &[u8], places: u8) -> Result<i64, BadDecimal>
    requires { places ≤ 6 }
    ensures value { IfOk result (λ v. decimal_of places s.now ≡ Some v) }
    ensures refused { OnErr result (decimal_of places s.now ≡ None) }
    ensures byte { IfErr result (λ bad. bad.byte ≡ spec.front_of places s.now) }
{
    match read_decimal(s, places) {
        Ok(value) => Ok(value),
        Err(bad) => Err(bad),
    }
}

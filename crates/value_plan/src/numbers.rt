//! The four words of an edge as one number of 128 bits, so that a value may lie across words.
ghost use Rattle.std.specs.Prelude.{◌≡◌, ◌<◌, ◌≤◌, ◌+◌, ◌*◌, ◌/◌, ◌%◌, ◌^◌};
ghost use Rattle.value_plan.specs.Slots.{ChangesOnly, number_of};

use gh_base::{EdgeId, EdgeWords};

/// The number that an edge's words are, the first word lowest.
pub fn number_at<W: EdgeWords>(words: &W, edge: EdgeId) -> u128
    requires { edge.0 < W.edges words.now }
    ensures { result ≡ number_of (W.word_of words.now edge.0) }
{
    let low = two_words(words.word(edge, 0), words.word(edge, 1));
    let high = two_words(words.word(edge, 2), words.word(edge, 3));
    u128::from(high) << 64 | u128::from(low)
}

fn two_words(low: u32, high: u32) -> u64
    ensures { result ≡ low + 2 ^ 32 * high }
{
    u64::from(high) << 32 | u64::from(low)
}

/// Sets the words of an edge so that they are this number.
pub fn put_number<W: EdgeWords>(words: &mut W, edge: EdgeId, number: u128)
    requires { edge.0 < W.edges words.old }
    ensures number { number_of (W.word_of words.new edge.0) ≡ number }
    ensures elsewhere { ChangesOnly edge.0 (W.word_of words.old) (W.word_of words.new) }
    ensures edges { W.edges words.new ≡ W.edges words.old }
{
    words.set_word(edge, 0, low_word(number));
    words.set_word(edge, 1, low_word(number >> 32));
    words.set_word(edge, 2, low_word(number >> 64));
    words.set_word(edge, 3, low_word(number >> 96));
}

fn low_word(number: u128) -> u32
    ensures { result ≡ number % 2 ^ 32 }
{
    (number % (1 << 32)) as u32
}

/// A number with another value in so many of its bits from one on. All other bits stay.
pub fn with_value(number: u128, at: u32, bits: u32, value: u32) -> u128
    requires few { bits ≤ 32 }
    requires inside { at + bits ≤ 128 }
    requires some { 1 ≤ bits }
    requires fits { value < 2 ^ bits }
    ensures value { result / 2 ^ at % 2 ^ bits ≡ value }
    ensures above { result / 2 ^ at / 2 ^ bits ≡ number / 2 ^ at / 2 ^ bits }
    ensures below { result % 2 ^ at ≡ number % 2 ^ at }
{
    let old = (number >> at) % (1 << bits);
    number - (old << at) + (u128::from(value) << at)
}

//! Numbers in texts: natural numbers and ids.
ghost use Rattle.std.specs.Prelude.{◌≡◌, ◌<◌, ◌≤◌, ◌^◌, length, IfSome};
ghost use Rattle.gh_base.specs.Decimals.{digits_from, natural_of, id_of, is_minus, magnitude, signed};

fn digits(bytes: &[u8]) -> Option<u64>
    requires { length bytes.now ≤ 18 }
    ensures value { result ≡ digits_from 0 bytes.now }
    ensures small { IfSome result (λ n. n < 10 ^ length bytes.now) }
{
    let mut n = 0u64;
    for b in bytes {
        if !b.is_ascii_digit() {
            return None;
        }
        n = 10 * n + u64::from(*b - b'0');
    }
    Some(n)
}

/// A natural number of one to `most` digits, and nothing else; None exactly where the text isn't one.
#[tactic(auto, unfolding(crate::specs::Decimals::natural_of))]
pub fn read_natural(text: &[u8], most: usize) -> Option<u64>
    requires { most ≤ 18 }
    ensures value { result ≡ natural_of most text.now }
    ensures small { IfSome result (λ n. n < 10 ^ most) }
{
    if text.is_empty() || text.len() > most {
        return None;
    }
    let n = digits(text)?;
    Some(n)
}

pub(crate) fn has_minus(bytes: &[u8]) -> bool
    ensures { result ≡ is_minus bytes.now }
{
    matches!(bytes, [b'-', ..])
}

pub(crate) fn magnitude_of(bytes: &[u8]) -> &[u8]
    ensures { result.now ≡ magnitude bytes.now }
{
    match bytes {
        [b'-', rest @ ..] => rest,
        _ => bytes,
    }
}

pub(crate) fn with_sign(minus: bool, n: u64) -> i64
    requires { n < 2 ^ 63 }
    ensures { result ≡ signed minus n }
{
    let n = n as i64;
    if minus { -n } else { n }
}

/// An id: maybe a minus, and one to eighteen digits; None exactly where the text isn't one.
#[tactic(auto, unfolding(crate::specs::Decimals::id_of))]
pub fn read_id(text: &[u8]) -> Option<i64>
    ensures { result ≡ id_of text.now }
{
    let n = read_natural(magnitude_of(text), 18)?;
    Some(with_sign(has_minus(text), n))
}

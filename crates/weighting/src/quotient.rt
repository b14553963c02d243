//! Division by numbers whose reciprocals are known.
ghost use Rattle.std.specs.Prelude.{◌≡◌, ◌<◌};
ghost use Rattle.std.specs.Int.{div_ceil};

/// A km/h in milli-km/h.
const MILLI: u64 = 1000;

/// For each number of km/h a guess at the reciprocal of as many milli-km/h, in parts of 2^64.
pub(crate) fn guesses_by_kmh() -> [u64; 256] {
    let mut guesses = [0; 256];
    for kmh in 1..256 {
        guesses[kmh] = u64::MAX / (MILLI * kmh as u64);
    }
    guesses
}

/// How often `by` goes into `x`, rounded up. A product with a guess at the reciprocal of `by` costs much less than a
/// division. The product is tested, and where the guess led astray there is a division.
pub(crate) fn quotient_of(x: u64, by: u64, guess: u64) -> u64
    requires { 0 < by }
    ensures { result ≡ div_ceil x by }
{
    let (_part, whole) = x.carrying_mul(guess, 0);
    let quotient = whole.wrapping_add(1);
    let (product, beyond) = quotient.carrying_mul(by, 0);
    if beyond == 0 && x <= product && product - x < by {
        return quotient;
    }
    x.div_ceil(by)
}

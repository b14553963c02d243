//! The square root.
ghost use Rattle.std.specs.Prelude.{◌≡◌, ◌+◌, ◌*◌, ◌^◌, ◌≤◌, ◌<◌};
ghost use Rattle.geo_math.specs.Lengths.{root};

/// The square root of a number below 2^126, rounded down.
#[tactic(auto, using(crate::proofs::Squares::root_of))]
pub fn isqrt(n: u128) -> u64
    requires { n < 2 ^ 126 }
    ensures below { result * result ≤ n }
    ensures above { n < (result + 1) * (result + 1) }
    ensures value { result ≡ root n }
{
    n.isqrt() as u64
}

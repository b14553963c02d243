//! Numbers among the words.
ghost use Rattle.std.specs.Prelude.{◌≡◌, ◌≤◌, ℕ, IfSome, decimal, Some};
ghost use Rattle.gh_words.specs.Words.{IsFrom, begins_with_zero, number_of};

use gh_base::read_natural;

fn has_leading_zero(text: &[u8]) -> bool
    ensures { result ≡ begins_with_zero text.now }
{
    matches!(text, [b'0', ..])
}

/// The number from `least` to `most` that a word spells. It is the decimal text of exactly these numbers.
pub(crate) fn number_read(word: &str, least: u32, most: u32) -> Option<u32>
    requires some { 1 ≤ least }
    requires few { most ≤ 999 }
    ensures value { result ≡ number_of least most word.now }
    ensures bounds { IfSome result (IsFrom least most) }
    ensures spelled { IfSome result (λ n. word.now ≡ decimal n) }
    ensures each { (n : ℕ) → IsFrom least most n → word.now ≡ decimal n → result ≡ Some n }
{
    if has_leading_zero(word.as_bytes()) {
        return None;
    }
    let n = read_natural(word.as_bytes(), 3)?;
    if u64::from(least) <= n && n <= u64::from(most) {
        Some(n as u32)
    } else {
        None
    }
}

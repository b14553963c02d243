//! The first part of a text, and what is left.
ghost use Rattle.std.specs.Prelude.{◌≡◌, ◌<◌, ◌∷◌, ◌+◌, ◌==◌, length, true, false, IsUtf8, IfSome, IfOk, OnOk, IfErr, OnErr, position};
ghost use Rattle.std.specs.Option.{option_map};
ghost use Rattle.std.specs.Str.Lossy.{utf8_valid_len};
ghost use Rattle.gh_base.specs.Parts.{parts_of, parts_left, room};

/// The first part of a text round an ASCII character, and what follows it.
#[tactic(auto, using(crate::proofs::Cuts::first_of_none, crate::proofs::Cuts::first_of_some))]
pub fn first_part(text: &str, mark: char) -> (&str, Option<&str>)
    requires { mark < 128 }
    ensures parts { parts_of mark text.now ≡ result.0.now ∷ parts_left mark (option_map (λ t. t.now) result.1) }
    ensures text { IsUtf8 result.0.now × IfSome (option_map (λ t. t.now) result.1) IsUtf8 }
    ensures size { length result.0.now + room (option_map (λ t. t.now) result.1) ≡ length text.now }
{
    match text.split_once(mark) {
        None => (text, None),
        Some((first, rest)) => (first, Some(rest)),
    }
}

pub(crate) fn find(bytes: &[u8], mark: u8) -> Option<usize>
    ensures { result ≡ position (λ b. b == mark) bytes.now }
{
    bytes.iter().position(|b| *b == mark)
}

/// The first part of bytes round a byte, and what follows it.
#[tactic(auto, using(crate::proofs::Cuts::one_part, crate::proofs::Cuts::part_of_more))]
pub fn first_bytes(bytes: &[u8], mark: u8) -> (&[u8], Option<&[u8]>)
    ensures parts { parts_of mark bytes.now ≡ result.0.now ∷ parts_left mark (option_map (λ t. t.now) result.1) }
    ensures size { length result.0.now + room (option_map (λ t. t.now) result.1) ≡ length bytes.now }
{
    match find(bytes, mark) {
        None => (bytes, None),
        Some(at) => {
            let (front, _) = bytes.split_at(at);
            let (_, rest) = bytes.split_at(at + 1);
            (front, Some(rest))
        }
    }
}

/// The text that bytes are, or how many of them stand before the first that is no part of a character.
#[tactic(auto, using(crate::proofs::Cuts::valid_all, crate::proofs::Cuts::not_same))]
pub fn valid_text(bytes: &[u8]) -> Result<&str, usize>
    ensures ok { IfOk result (λ text. text.now ≡ bytes.now) }
    ensures valid { OnOk result ((utf8_valid_len bytes.now == length bytes.now) ≡ true) }
    ensures err { IfErr result (λ n. n ≡ utf8_valid_len bytes.now) }
    ensures less { IfErr result (λ n. n < length bytes.now) }
    ensures cut { OnErr result ((utf8_valid_len bytes.now == length bytes.now) ≡ false) }
{
    match str::from_utf8(bytes) {
        Ok(text) => Ok(text),
        Err(e) => Err(e.valid_up_to()),
    }
}

//! Names of actors and profiles.
ghost use Rattle.std.specs.Prelude.{◌≡◌};
ghost use Rattle.std.specs.List.{list_all};
ghost use Rattle.script_text.specs.Names as spec;

/// The most bytes of a name.
const LONGEST_NAME: usize = 16;

fn is_reserved(word: &str) -> bool
    ensures { result ≡ spec.is_reserved word.now }
{
    word == "sync" || word == "profile" || word == "journal" || word == "actor"
}

fn is_name_byte(b: u8) -> bool
    ensures { result ≡ spec.is_name_byte b }
{
    b.is_ascii_lowercase() || b.is_ascii_digit() || b == b'_'
}

fn are_name_bytes(bytes: &[u8]) -> bool
    ensures { result ≡ list_all spec.is_name_byte bytes.now }
{
    bytes.iter().all(|b| is_name_byte(*b))
}

fn is_formed(bytes: &[u8]) -> bool
    ensures { result ≡ spec.is_formed bytes.now }
{
    match bytes {
        [] => false,
        [first, rest @ ..] => {
            first.is_ascii_lowercase() && rest.len() < LONGEST_NAME && are_name_bytes(rest)
        }
    }
}

/// Whether a word is a name: a lower-case letter and up to fifteen lower-case letters, digits and `_`, and none of
/// the words that begin lines of their own.
#[tactic(auto, unfolding(crate::specs::Names::is_name))]
pub(crate) fn is_name(word: &str) -> bool
    ensures { result ≡ spec.is_name word.now }
{
    is_formed(word.as_bytes()) && !is_reserved(word)
}

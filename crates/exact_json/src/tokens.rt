//! The bytes that JSON is read by.
ghost use Rattle.std.specs.Prelude.{◌≡◌};
ghost use Rattle.exact_json.specs.Parsing.{Reads};
ghost use Rattle.exact_json.specs.Tokens as spec;

use crate::cursor::Cursor;
use crate::stop::Stop;
use gh_base::JsonKind;

/// Why a JSON text is no longer read.
pub(crate) type JsonStop = Stop<JsonKind>;

fn is_space(b: u8) -> bool
    ensures { result ≡ spec.is_space b }
{
    b == b' ' || b == b'\n' || b == b'\r' || b == b'\t'
}

/// Goes on behind white space.
pub(crate) fn skip(text: &mut Cursor<'_>)
    ensures { text.new ≡ spec.after_space text.old }
{
    while let [b, rest @ ..] = text.rest() {
        if !is_space(*b) {
            break;
        }
        text.go_on(rest);
    }
}

/// Takes one byte.
pub(crate) fn take(text: &mut Cursor<'_>) -> Result<u8, JsonStop>
    ensures { Reads (spec.take_byte text.old) result text.new }
{
    match text.rest() {
        [] => Err(Stop::At(0, JsonKind::End)),
        [b, rest @ ..] => {
            text.go_on(rest);
            Ok(*b)
        }
    }
}

/// Takes this byte.
pub(crate) fn byte(text: &mut Cursor<'_>, wanted: u8) -> Result<(), JsonStop>
    ensures { Reads (spec.byte wanted text.old) result text.new }
{
    match text.rest() {
        [] => Err(Stop::At(0, JsonKind::End)),
        [b, rest @ ..] => {
            if *b != wanted {
                return Err(text.refuse(JsonKind::Byte));
            }
            text.go_on(rest);
            Ok(())
        }
    }
}

/// Takes these bytes.
pub(crate) fn word(text: &mut Cursor<'_>, wanted: &[u8]) -> Result<(), JsonStop>
    ensures { Reads (spec.word wanted.now text.old) result text.new }
{
    for b in wanted {
        byte(text, *b)?;
    }
    Ok(())
}

/// Whether a comma follows, and not the closing bracket.
pub(crate) fn more(text: &mut Cursor<'_>, close: u8) -> Result<bool, JsonStop>
    ensures { Reads (spec.more close text.old) result text.new }
{
    match text.rest() {
        [] => Err(Stop::At(0, JsonKind::End)),
        [b, rest @ ..] => {
            if *b == b',' {
                text.go_on(rest);
                return Ok(true);
            }
            if *b == close {
                text.go_on(rest);
                return Ok(false);
            }
            Err(text.refuse(JsonKind::Byte))
        }
    }
}

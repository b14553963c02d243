//! Values, read from the left.
ghost use Rattle.std.specs.Prelude.{◌≡◌, ◌<◌, ◌^◌, ◌-◌, length};
ghost use Rattle.exact_json.specs.Parsing.{Reads};
ghost use Rattle.exact_json.specs.Tokens.{after_space};
ghost use Rattle.exact_json.specs.Values.{StopsAt, Answers};
ghost use Rattle.exact_json.specs.Values as spec;

use crate::cursor::Cursor;
use crate::fault::JsonFault;
use crate::number::{begins_number, number};
use crate::stop::Stop;
use crate::texts::string;
use crate::tokens::{JsonStop, byte, more, skip, take, word};
use crate::value::{Json, JsonList, Member, MemberList};
use gh_base::JsonKind;
use std::alloc::Global;

/// The most brackets that are open at once.
const MOST_DEPTH: u32 = 64;

/// What a value can begin with.
#[derive(Clone, Copy, PartialEq, Eq)]
pub(crate) enum First {
    End,
    Null,
    True,
    False,
    Text,
    Array,
    Object,
    Number,
    Other,
}

fn begins(b: Option<u8>) -> First
    ensures { result ≡ spec.first_of b }
{
    match b {
        None => First::End,
        Some(b'n') => First::Null,
        Some(b't') => First::True,
        Some(b'f') => First::False,
        Some(b'"') => First::Text,
        Some(b'[') => First::Array,
        Some(b'{') => First::Object,
        Some(b) if begins_number(b) => First::Number,
        Some(_) => First::Other,
    }
}

#[cycle(value)]
#[tactic(auto, using(crate::proofs::Turns::one_more, crate::proofs::Turns::no_more), unfolding(crate::specs::Values::items))]
fn items(alloc: Global, text: &mut Cursor<'_>, depth: u32) -> Result<JsonList, JsonStop>
    ensures { Reads (spec.items (spec.value_at depth) text.old) result text.new }
{
    let mut found = JsonList::new(alloc);
    for _turn in 0..text.left() {
        skip(text);
        found.push(value(alloc, text, depth)?)?;
        skip(text);
        if !more(text, b']')? {
            return Ok(found);
        }
    }
    Err(text.refuse(JsonKind::End))
}

#[cycle(value)]
#[tactic(auto, unfolding(crate::specs::Values::array))]
fn array(alloc: Global, text: &mut Cursor<'_>, depth: u32) -> Result<Json, JsonStop>
    ensures { Reads (spec.array (spec.value_at depth) text.old) result text.new }
{
    skip(text);
    if text.eat(b']') {
        return Ok(Json::Array(JsonList::new(alloc)));
    }
    Ok(Json::Array(items(alloc, text, depth)?))
}

#[tactic(auto, unfolding(crate::specs::Values::numeral))]
fn numeral(text: &mut Cursor<'_>) -> Result<Json, JsonStop>
    ensures { Reads (spec.numeral text.old) result text.new }
{
    Ok(Json::Number(number(text)?))
}

fn has_key(found: &[Member], key: &str) -> bool
    ensures { result ≡ spec.has_key key.now found.now }
{
    for m in found {
        if m.key.as_str() == key {
            return true;
        }
    }
    false
}

#[cycle(value)]
#[tactic(auto, unfolding(crate::specs::Values::member))]
fn member(
    alloc: Global,
    text: &mut Cursor<'_>,
    depth: u32,
    found: &[Member],
) -> Result<Member, JsonStop>
    ensures { Reads (spec.member (spec.value_at depth) found.now text.old) result text.new }
{
    let start = text.left();
    byte(text, b'"')?;
    let key = string(alloc, text)?;
    if has_key(found, key.as_str()) {
        return Err(Stop::At(start, JsonKind::TwiceKey));
    }
    skip(text);
    byte(text, b':')?;
    skip(text);
    let value = value(alloc, text, depth)?;
    Ok(Member { key, value })
}

#[cycle(value)]
#[tactic(auto, using(crate::proofs::Turns::one_more, crate::proofs::Turns::no_more), unfolding(crate::specs::Values::members))]
fn members(alloc: Global, text: &mut Cursor<'_>, depth: u32) -> Result<MemberList, JsonStop>
    ensures { Reads (spec.members (spec.value_at depth) text.old) result text.new }
{
    let mut found = MemberList::new(alloc);
    for _turn in 0..text.left() {
        skip(text);
        let next = member(alloc, text, depth, found.as_slice())?;
        found.push(next)?;
        skip(text);
        if !more(text, b'}')? {
            return Ok(found);
        }
    }
    Err(text.refuse(JsonKind::End))
}

#[cycle(value)]
#[tactic(auto, unfolding(crate::specs::Values::object))]
fn object(alloc: Global, text: &mut Cursor<'_>, depth: u32) -> Result<Json, JsonStop>
    ensures { Reads (spec.object (spec.value_at depth) text.old) result text.new }
{
    skip(text);
    if text.eat(b'}') {
        return Ok(Json::Object(MemberList::new(alloc)));
    }
    Ok(Json::Object(members(alloc, text, depth)?))
}

#[cycle(value)]
#[tactic(auto, using(crate::proofs::Depths::deeper, crate::proofs::Depths::at_number), unfolding(crate::specs::Values::value_at))]
fn value(alloc: Global, text: &mut Cursor<'_>, depth: u32) -> Result<Json, JsonStop>
    ensures { Reads (spec.value_at depth text.old) result text.new }
{
    match begins(text.peek()) {
        First::Null => {
            word(text, b"null".as_slice())?;
            Ok(Json::Null)
        }
        First::True => {
            word(text, b"true".as_slice())?;
            Ok(Json::Flag(true))
        }
        First::False => {
            word(text, b"false".as_slice())?;
            Ok(Json::Flag(false))
        }
        First::Text => {
            take(text)?;
            Ok(Json::Str(string(alloc, text)?))
        }
        First::Array => {
            if depth == 0 {
                return Err(text.refuse(JsonKind::Depth));
            }
            take(text)?;
            array(alloc, text, depth - 1)
        }
        First::Object => {
            if depth == 0 {
                return Err(text.refuse(JsonKind::Depth));
            }
            take(text)?;
            object(alloc, text, depth - 1)
        }
        First::Number => numeral(text),
        First::Other => Err(text.refuse(JsonKind::Byte)),
        First::End => Err(text.refuse(JsonKind::End)),
    }
}

fn document(alloc: Global, bytes: &[u8]) -> Result<Json, JsonStop>
    ensures { StopsAt result (spec.at_end (spec.value_at 64 (after_space bytes.now))) }
{
    let mut text = Cursor::new(bytes);
    skip(&mut text);
    let value = value(alloc, &mut text, MOST_DEPTH)?;
    skip(&mut text);
    match text.peek() {
        None => Ok(value),
        Some(_) => Err(text.refuse(JsonKind::After)),
    }
}

/// The value that a text is (RFC 8259, in UTF-8 with no byte order mark), or its first fault when it is read
/// from the left. At most 64 brackets are open at once, the keys of an object differ, and a number has at
/// most 18 digits and places, and at most four digits of exponent. `NoMemory` says that there was none.
#[tactic(auto, unfolding(crate::specs::Values::reads))]
pub fn read(alloc: Global, bytes: &[u8]) -> Result<Json, JsonFault>
    requires { length bytes.now < 2 ^ 32 }
    ensures { Answers result bytes.now }
{
    match document(alloc, bytes) {
        Ok(value) => Ok(value),
        Err(Stop::NoMemory) => Err(JsonFault::NoMemory),
        Err(Stop::At(left, kind)) => Err(JsonFault::At {
            byte: bytes.len().saturating_sub(left) as u32,
            kind,
        }),
    }
}

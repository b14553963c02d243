//! The text of a value.
ghost use Rattle.std.specs.Prelude.{◌≡◌, ◌<◌, ◌≤◌, ◌+◌, ◌*◌, ◌-◌, ◌/◌, ◌%◌, ◌++◌, ◌∷◌, ◌^◌, [], map, IfOk, OnOk, decimal, Ok, true};
ghost use Rattle.exact_json.specs.Printed as spec;
ghost use Rattle.exact_json.specs.Values.{reads};
ghost use Rattle.exact_json.specs.Again.{Fits, all_true, is_exact, is_sound, is_sound_member};
ghost use Rattle.std.specs.Str.{is_utf8};

use crate::texts::push_char;
use crate::value::{Decimal, Json, Member};
use gh_base::{NoMemory, Text};
use std::alloc::Global;

/// A decimal is in its range.
#[tactic(auto, using(crate::proofs::Sound::exact_test))]
fn in_range(_number: Decimal)
    ensures { is_exact _number ≡ true }
{}

/// A text is UTF-8.
fn is_text(_text: &str)
    ensures { is_utf8 _text.now ≡ true }
{}

#[cycle(put)]
fn put(alloc: Global, out: &mut Text, value: &Json) -> Result<(), NoMemory>
    ensures text { OnOk result (out.new ≡ out.old ++ spec.printed value.now) }
    ensures sound { OnOk result (is_sound value.now ≡ true) }
{
    match value {
        Json::Null => out.push("null"),
        Json::Flag(true) => out.push("true"),
        Json::Flag(false) => out.push("false"),
        Json::Number(d) => {
            in_range(*d);
            put_decimal(alloc, out, *d)
        }
        Json::Str(t) => {
            is_text(t.as_str());
            put_quoted(alloc, out, t.as_str())
        }
        Json::Array(items) => {
            out.push("[")?;
            put_items(alloc, out, items.as_slice())?;
            out.push("]")
        }
        Json::Object(members) => {
            out.push("{")?;
            put_members(alloc, out, members.as_slice())?;
            out.push("}")
        }
    }
}

#[cycle(put)]
#[tactic(auto, using(crate::proofs::Printing::joins))]
fn put_items(alloc: Global, out: &mut Text, items: &[Json]) -> Result<(), NoMemory>
    ensures text { OnOk result (out.new ≡ out.old ++ spec.joined (map spec.printed items.now)) }
    ensures sound { OnOk result (all_true (map is_sound items.now) ≡ true) }
{
    let [first, rest @ ..] = items else {
        return Ok(());
    };
    put(alloc, out, first)?;
    for item in rest {
        out.push(",")?;
        put(alloc, out, item)?;
    }
    Ok(())
}

#[cycle(put)]
fn put_member(alloc: Global, out: &mut Text, member: &Member) -> Result<(), NoMemory>
    ensures text { OnOk result (out.new ≡ out.old ++ spec.printed_member member.now) }
    ensures sound { OnOk result (is_sound_member member.now ≡ true) }
{
    is_text(member.key.as_str());
    put_quoted(alloc, out, member.key.as_str())?;
    out.push(":")?;
    put(alloc, out, &member.value)
}

#[cycle(put)]
#[tactic(auto, using(crate::proofs::Printing::joins))]
fn put_members(alloc: Global, out: &mut Text, members: &[Member]) -> Result<(), NoMemory>
    ensures text { OnOk result (out.new ≡ out.old ++ spec.joined (map spec.printed_member members.now)) }
    ensures sound { OnOk result (all_true (map is_sound_member members.now) ≡ true) }
{
    let [first, rest @ ..] = members else {
        return Ok(());
    };
    put_member(alloc, out, first)?;
    for member in rest {
        out.push(",")?;
        put_member(alloc, out, member)?;
    }
    Ok(())
}

fn put_ascii(alloc: Global, out: &mut Text, c: char) -> Result<(), NoMemory>
    requires { c < 128 }
    ensures { OnOk result (out.new ≡ out.old ++ c ∷ []) }
{
    let text = c.to_string(alloc)?;
    out.push(text.as_str())
}

fn hex_digit(n: u8) -> char
    requires { n < 16 }
    ensures { result ≡ spec.hex_digit n }
{
    if n < 10 {
        char::from(b'0' + n)
    } else {
        char::from(b'a' + (n - 10))
    }
}

fn put_control(alloc: Global, out: &mut Text, b: u8) -> Result<(), NoMemory>
    requires { b < 32 }
    ensures { OnOk result (out.new ≡ out.old ++ spec.control b) }
{
    out.push("\\u00")?;
    put_ascii(alloc, out, hex_digit(b / 16))?;
    put_ascii(alloc, out, hex_digit(b % 16))
}

#[tactic(auto, using(crate::proofs::Limits::ten_pow, crate::proofs::Printing::fixed_more, crate::proofs::Printing::joins))]
fn put_fixed(alloc: Global, out: &mut Text, places: u32, n: u64) -> Result<(), NoMemory>
    requires { places ≤ 18 }
    ensures { OnOk result (out.new ≡ out.old ++ spec.fixed places n) }
{
    let mut left = places;
    while left > 0 {
        left -= 1;
        let digit = n / 10u64.pow(left) % 10;
        put_ascii(alloc, out, char::from(b'0' + digit as u8))?;
    }
    Ok(())
}

#[tactic(auto, using(crate::proofs::Limits::ten_pow), unfolding(crate::specs::Printed::magnitude))]
fn put_magnitude(alloc: Global, out: &mut Text, n: u64, places: u32) -> Result<(), NoMemory>
    requires { places ≤ 18 }
    ensures { OnOk result (out.new ≡ out.old ++ spec.magnitude n places) }
{
    if places == 0 {
        return out.push_number(u128::from(n));
    }
    out.push_number(u128::from(n / 10u64.pow(places)))?;
    out.push(".")?;
    put_fixed(alloc, out, places, n)
}

#[tactic(auto, unfolding(crate::specs::Printed::decimal_text))]
fn put_decimal(alloc: Global, out: &mut Text, d: Decimal) -> Result<(), NoMemory>
    ensures { OnOk result (out.new ≡ out.old ++ spec.decimal_text d) }
{
    if d.negative {
        out.push("-")?;
    }
    put_magnitude(alloc, out, d.digits, u32::from(d.places))
}

fn put_escaped(alloc: Global, out: &mut Text, c: char) -> Result<(), NoMemory>
    ensures { OnOk result (out.new ≡ out.old ++ spec.escaped_char c) }
{
    if c == '"' || c == '\\' {
        out.push("\\")?;
        return put_ascii(alloc, out, c);
    }
    if c < ' ' {
        return put_control(alloc, out, c as u8);
    }
    push_char(alloc, out, c)
}

fn put_quoted(alloc: Global, out: &mut Text, text: &str) -> Result<(), NoMemory>
    ensures { OnOk result (out.new ≡ out.old ++ spec.quoted text.now) }
{
    out.push("\"")?;
    for c in text.chars() {
        put_escaped(alloc, out, c)?;
    }
    out.push("\"")
}

/// The text of a value: no spaces and no exponents, and only `"`, `\` and what is below 0x20 are escaped. A
/// value with at most 64 brackets open at once, in which the keys of each object differ, is read as itself
/// again from it.
#[tactic(auto, using(crate::proofs::Laws::read_again))]
pub fn print(alloc: Global, value: &Json) -> Result<Text, NoMemory>
    ensures text { IfOk result (λ t. t ≡ spec.printed value.now) }
    ensures again { IfOk result (λ t. Fits 64 value.now → reads t ≡ Ok value.now) }
{
    let mut out = Text::new(alloc);
    put(alloc, &mut out, value)?;
    Ok(out)
}

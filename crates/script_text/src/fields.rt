//! What the words of a command stand for.
ghost use Rattle.std.specs.Prelude.{◌≡◌, ◌≤◌, ◌<◌, ◌^◌, IfSome};
ghost use Rattle.std.specs.Option.{option_map};
ghost use Rattle.gh_base.specs.Parts.{parts_of};
ghost use Rattle.gh_base.specs.Places.{IsPlace, IsWithin};
ghost use Rattle.script_text.specs.Fields as spec;

use gh_base::{MOST_LAT, MOST_LON, Place, Point, first_bytes, read_decimal, read_id, read_natural};

/// How many places a coordinate may have.
const COORDINATE_PLACES: u8 = 7;

/// How many places a speed in km/h may have.
const SPEED_PLACES: u8 = 3;

/// How many digits a whole number may have.
const MOST_DIGITS: usize = 9;

/// The greatest speed, in milli-km/h.
const MOST_SPEED: i64 = 4294967295;

fn behind(bytes: &[u8], letter: u8) -> Option<&[u8]>
    ensures { option_map (λ t. t.now) result ≡ spec.behind letter bytes.now }
{
    match bytes {
        [] => None,
        [b, rest @ ..] => { if *b == letter { Some(rest) } else { None } }
    }
}

#[tactic(auto, unfolding(crate::specs::Fields::coordinate_of))]
fn coordinate(word: &[u8], most: u32) -> Option<i32>
    requires { most < 2 ^ 31 }
    ensures value { result ≡ spec.coordinate_of most word.now }
    ensures range { IfSome result (IsWithin most) }
{
    let z = read_decimal(word, COORDINATE_PLACES).ok()?;
    if z.unsigned_abs() <= u64::from(most) {
        Some(z as i32)
    } else {
        None
    }
}

#[tactic(auto, using(crate::proofs::Parts::no_two))]
fn point(word: &[u8]) -> Option<Place>
    ensures value { result ≡ spec.point_of (parts_of 44 word.now) }
    ensures on_earth { IfSome result IsPlace }
{
    let (lat, after) = first_bytes(word, b',');
    let (lon, after) = first_bytes(after?, b',');
    if after.is_some() {
        return None;
    }
    let lat = coordinate(lat, MOST_LAT)?;
    let lon = coordinate(lon, MOST_LON)?;
    Some(Place::At(Point { lat, lon }))
}

/// `n` and an id, or a latitude and a longitude in degrees with a comma between.
#[tactic(auto, unfolding(crate::specs::Fields::place_of))]
pub(crate) fn place(word: &[u8]) -> Option<Place>
    ensures value { result ≡ spec.place_of word.now }
    ensures on_earth { IfSome result IsPlace }
{
    match behind(word, b'n') {
        Some(digits) => {
            let id = read_id(digits)?;
            Some(Place::Id(id))
        }
        None => point(word),
    }
}

fn direction(sign: &[u8]) -> Option<bool>
    ensures { result ≡ spec.direction_of sign.now }
{
    if sign == b"+".as_slice() {
        return Some(false);
    }
    if sign == b"-".as_slice() {
        return Some(true);
    }
    None
}

/// An edge's number, and behind it `+` along the edge or `-` against it.
#[tactic(auto, unfolding(crate::specs::Fields::edge_of))]
pub(crate) fn edge(word: &[u8]) -> Option<(u32, bool)>
    ensures { result ≡ spec.edge_of word.now }
{
    let (digits, sign) = word.split_at(word.len().saturating_sub(1));
    let reverse = direction(sign)?;
    let n = read_natural(digits, MOST_DIGITS)?;
    Some((n as u32, reverse))
}

fn unsigned(z: i64) -> Option<u32>
    ensures { result ≡ spec.unsigned z }
{
    if z < 0 || z > MOST_SPEED {
        return None;
    }
    Some(z as u32)
}

/// A speed in km/h with at most three places, in milli-km/h.
#[tactic(auto, unfolding(crate::specs::Fields::speed_of))]
pub(crate) fn speed(word: &[u8]) -> Option<u32>
    ensures { result ≡ spec.speed_of word.now }
{
    let z = read_decimal(word, SPEED_PLACES).ok()?;
    unsigned(z)
}

/// A whole number in a range.
#[tactic(auto, unfolding(crate::specs::Fields::count_of))]
pub(crate) fn count(word: &[u8], least: u32, most: u32) -> Option<u32>
    ensures value { result ≡ spec.count_of least most word.now }
    ensures range { IfSome result (λ n. (least ≤ n) × (n ≤ most)) }
{
    let n = read_natural(word, MOST_DIGITS)? as u32;
    if least <= n && n <= most {
        Some(n)
    } else {
        None
    }
}

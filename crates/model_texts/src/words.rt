//! The names and words of conditions and expressions.
ghost use Rattle.std.specs.Prelude.{◌≡◌, ◌<◌, ◌^◌, length, IfSome};
ghost use Rattle.model_texts.specs.Words as spec;

use encoded_values::{road_class_named, surface_named, toll_named};
use gh_base::valid_text;
use model_eval::{Area, FlagName, NumberName, Op, WordName};

/// The truth value of this name.
pub(crate) fn flag(s: &[u8]) -> Option<FlagName>
    ensures { result ≡ spec.flag_of s.now }
{
    if s == b"road_class_link".as_slice() {
        return Some(FlagName::RoadClassLink);
    }
    if s == b"roundabout".as_slice() {
        return Some(FlagName::Roundabout);
    }
    if s == b"car_access".as_slice() {
        return Some(FlagName::CarAccess);
    }
    if s == b"bike_access".as_slice() {
        return Some(FlagName::BikeAccess);
    }
    if s == b"foot_access".as_slice() {
        return Some(FlagName::FootAccess);
    }
    None
}

/// The enum of this name.
pub(crate) fn enum_name(s: &[u8]) -> Option<WordName>
    ensures { result ≡ spec.enum_of s.now }
{
    if s == b"road_class".as_slice() {
        return Some(WordName::RoadClass);
    }
    if s == b"surface".as_slice() {
        return Some(WordName::Surface);
    }
    if s == b"toll".as_slice() {
        return Some(WordName::Toll);
    }
    None
}

/// The number of this name.
pub(crate) fn number_name(s: &[u8]) -> Option<NumberName>
    ensures { result ≡ spec.number_of s.now }
{
    if s == b"lanes".as_slice() {
        return Some(NumberName::Lanes);
    }
    if s == b"max_speed".as_slice() {
        return Some(NumberName::MaxSpeed);
    }
    if s == b"car_speed".as_slice() {
        return Some(NumberName::CarSpeed);
    }
    if s == b"bike_speed".as_slice() {
        return Some(NumberName::BikeSpeed);
    }
    if s == b"foot_speed".as_slice() {
        return Some(NumberName::FootSpeed);
    }
    None
}

/// The operator that compares a number.
pub(crate) fn operator(s: &[u8]) -> Option<Op>
    ensures { result ≡ spec.op_of s.now }
{
    if s == b"==".as_slice() {
        return Some(Op::Eq);
    }
    if s == b"!=".as_slice() {
        return Some(Op::Ne);
    }
    if s == b"<".as_slice() {
        return Some(Op::Lt);
    }
    if s == b"<=".as_slice() {
        return Some(Op::Le);
    }
    if s == b">".as_slice() {
        return Some(Op::Gt);
    }
    if s == b">=".as_slice() {
        return Some(Op::Ge);
    }
    None
}

/// Whether an operator that fits an enum is `==`.
pub(crate) fn equal(s: &[u8]) -> Option<bool>
    ensures { result ≡ spec.equal_of s.now }
{
    if s == b"==".as_slice() {
        return Some(true);
    }
    if s == b"!=".as_slice() {
        return Some(false);
    }
    None
}

/// The place of a word among those of its enum.
#[tactic(auto, using(crate::proofs::TextWords::no_road_class, crate::proofs::TextWords::no_surface, crate::proofs::TextWords::no_toll))]
pub(crate) fn word(name: WordName, s: &[u8]) -> Option<u8>
    ensures { result ≡ spec.word_of name s.now }
{
    let Ok(text) = valid_text(s) else {
        return None;
    };
    match name {
        WordName::RoadClass => road_class_named(text),
        WordName::Surface => surface_named(text),
        WordName::Toll => toll_named(text),
    }
}

fn place(areas: &[Area], id: &[u8]) -> Option<u32>
    requires { length areas.now < 2 ^ 32 }
    ensures value { result ≡ spec.place_from 0 areas.now id.now }
    ensures there { IfSome result (λ n. n < length areas.now) }
{
    let mut n = 0u32;
    for area in areas {
        if area.id.as_bytes() == id {
            return Some(n);
        }
        n += 1;
    }
    None
}

/// The place of the area that stands behind `in_`.
pub(crate) fn area(areas: &[Area], s: &[u8]) -> Option<u32>
    requires { length areas.now < 2 ^ 32 }
    ensures value { result ≡ spec.area_of areas.now s.now }
    ensures there { IfSome result (λ n. n < length areas.now) }
{
    if s.len() < 3 {
        return None;
    }
    let (front, id) = s.split_at(3);
    if front != b"in_".as_slice() {
        return None;
    }
    place(areas, id)
}

//! JSON values by what they are, and the members of objects.
ghost use Rattle.std.specs.Prelude.{◌≡◌};
ghost use Rattle.std.specs.Option.{option_map};
ghost use Rattle.model_parser.specs.Values as spec;

use exact_json::{Decimal, Json, Member};

/// The members of an object.
pub(crate) fn object_of(value: &Json) -> Option<&[Member]>
    ensures { option_map (λ x. x.now) result ≡ spec.object_of value.now }
{
    match value {
        Json::Object(members) => Some(members.as_slice()),
        _ => None,
    }
}

/// The items of an array.
pub(crate) fn array_of(value: &Json) -> Option<&[Json]>
    ensures { option_map (λ x. x.now) result ≡ spec.array_of value.now }
{
    match value {
        Json::Array(items) => Some(items.as_slice()),
        _ => None,
    }
}

/// The text of a string.
pub(crate) fn text_of(value: &Json) -> Option<&str>
    ensures { option_map (λ x. x.now) result ≡ spec.text_of value.now }
{
    match value {
        Json::Str(text) => Some(text.as_str()),
        _ => None,
    }
}

pub(crate) fn number_of(value: &Json) -> Option<Decimal>
    ensures { result ≡ spec.number_of value.now }
{
    match value {
        Json::Number(number) => Some(*number),
        _ => None,
    }
}

pub(crate) fn is_null(value: &Json) -> bool
    ensures { result ≡ spec.is_null value.now }
{
    matches!(value, Json::Null)
}

/// The items of an array; none of anything else.
pub(crate) fn items(value: &Json) -> &[Json]
    ensures { result.now ≡ spec.items value.now }
{
    match array_of(value) {
        Some(items) => items,
        None => &[],
    }
}

/// The value of the member with this key.
pub(crate) fn find<'a>(members: &'a [Member], key: &str) -> Option<&'a Json>
    ensures { option_map (λ x. x.now) result ≡ spec.find key.now members.now }
{
    for member in members {
        if member.key.as_str() == key {
            return Some(&member.value);
        }
    }
    None
}

/// The text of the member with this key.
pub(crate) fn text_at<'a>(members: &'a [Member], key: &str) -> Option<&'a str>
    ensures { option_map (λ x. x.now) result ≡ spec.text_at key.now members.now }
{
    match find(members, key) {
        Some(value) => text_of(value),
        None => None,
    }
}

pub(crate) fn is_array(value: &Json) -> bool
    ensures { result ≡ spec.is_array value.now }
{
    array_of(value).is_some()
}

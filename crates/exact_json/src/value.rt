//! JSON values.
use gh_base::Text;
use sqlite_items::Items;
use std::marker::Model;

/// A number as it was written: `digits` over ten to the power of `places`. `digits` is below 10^18, `places`
/// at most 18, and only a number that isn't 0 is negative.
#[derive(Clone, Copy, Debug, PartialEq, Eq)]
pub struct Decimal {
    pub negative: bool,
    pub digits: u64,
    pub places: u8,
}

impl Model for Decimal {
    ghost use Rattle.exact_json.specs.Decimals.{DecimalValue, IsExact};

    ghost Value = { DecimalValue };

    ghost view = { λ a. record { negative = a.negative; digits = a.digits; places = a.places } };

    ghost inverse = { λ v. record { negative = v.negative; digits = v.digits; places = v.places } };

    ghost invariant = { λ a. IsExact (record { negative = a.negative; digits = a.digits; places = a.places }) };
}

/// The items of an array, in order.
pub type JsonList = Items<Json>;

/// The members of an object, in order.
pub type MemberList = Items<Member>;

/// A JSON value.
#[cycle(json)]
#[derive(Debug, Drop)]
pub enum Json {
    Null,
    Flag(bool),
    Number(Decimal),
    Str(Text),
    Array(JsonList),
    Object(MemberList),
}

/// A member of an object.
#[cycle(json)]
#[derive(Debug, Drop)]
pub struct Member {
    pub key: Text,
    pub value: Json,
}

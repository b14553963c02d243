//! Conditions on what is stored of a directed edge, and on areas.
ghost use Rattle.std.specs.Prelude.{◌≡◌, ◌≤◌, map};
ghost use Rattle.model_eval.specs.Conditions as spec;

use encoded_values::DirValues;
use sqlite_items::{Boxed, Items};

/// A truth value that is stored.
#[derive(Clone, Copy, Debug, PartialEq, Eq)]
pub enum FlagName {
    RoadClassLink,
    Roundabout,
    CarAccess,
    BikeAccess,
    FootAccess,
}

/// A word that is stored by its place.
#[derive(Clone, Copy, Debug, PartialEq, Eq)]
pub enum WordName {
    RoadClass,
    Surface,
    Toll,
}

/// A number that is stored.
#[derive(Clone, Copy, Debug, PartialEq, Eq)]
pub enum NumberName {
    Lanes,
    MaxSpeed,
    CarSpeed,
    BikeSpeed,
    FootSpeed,
}

#[derive(Clone, Copy, Debug, PartialEq, Eq)]
pub enum Op {
    Eq,
    Ne,
    Lt,
    Le,
    Gt,
    Ge,
}

/// The parts of a condition, in order.
pub type TestList = Items<Test>;

/// A condition. An area is named by its place in the model, a word by its place among the words of its
/// kind; a number is compared in thousandths.
#[derive(Debug, Drop)]
pub enum Test {
    True,
    False,
    InArea(u32),
    Flag(FlagName),
    Word {
        name: WordName,
        equal: bool,
        word: u8,
    },
    Compare {
        name: NumberName,
        op: Op,
        value: u64,
    },
    Not(Boxed<Test>),
    And(TestList),
    Or(TestList),
}

/// Thousandths in one.
const THOUSAND: u64 = 1000;

/// The number of areas that a word of bits tells of.
const BITS: u32 = 64;

fn flag_of(name: FlagName, values: &DirValues) -> bool
    ensures { result ≡ spec.flag_of name values.now }
{
    match name {
        FlagName::RoadClassLink => values.road_class_link,
        FlagName::Roundabout => values.roundabout,
        FlagName::CarAccess => values.car_access,
        FlagName::BikeAccess => values.bike_access,
        FlagName::FootAccess => values.foot_access,
    }
}

fn word_of(name: WordName, values: &DirValues) -> u8
    ensures { result ≡ spec.word_of name values.now }
{
    match name {
        WordName::RoadClass => values.road_class,
        WordName::Surface => values.surface,
        WordName::Toll => values.toll,
    }
}

/// A number as it is stored: a missing maximum speed is 255.
pub(crate) fn number_of(name: NumberName, values: &DirValues) -> u8
    ensures { result ≡ spec.number_of name values.now }
{
    match name {
        NumberName::Lanes => values.lanes,
        NumberName::MaxSpeed => values.max_speed,
        NumberName::CarSpeed => values.car_speed,
        NumberName::BikeSpeed => values.bike_speed,
        NumberName::FootSpeed => values.foot_speed,
    }
}

fn compares(op: Op, a: u64, b: u64) -> bool
    ensures { result ≡ spec.compares op a b }
{
    match op {
        Op::Eq => a == b,
        Op::Ne => a != b,
        Op::Lt => a < b,
        Op::Le => a <= b,
        Op::Gt => a > b,
        Op::Ge => a >= b,
    }
}

/// Whether the bit of an area is set.
#[tactic(auto, using(crate::proofs::Bits::no_bit_beyond))]
fn is_set(areas: u64, place: u32) -> bool
    ensures { result ≡ spec.has_bit areas place }
{
    if place >= BITS {
        return false;
    }
    (areas >> place) % 2 == 1
}

/// Whether a condition is true of the values of a directed edge that lies in these areas.
#[cycle(passes)]
pub(crate) fn passes(test: &Test, values: &DirValues, areas: u64) -> bool
    ensures { result ≡ spec.passes values.now areas test.now }
{
    match test {
        Test::True => true,
        Test::False => false,
        Test::InArea(place) => is_set(areas, *place),
        Test::Flag(name) => flag_of(*name, values),
        Test::Word { name, equal, word } => (word_of(*name, values) == *word) == *equal,
        Test::Compare { name, op, value } => {
            compares(*op, THOUSAND * u64::from(number_of(*name, values)), *value)
        }
        Test::Not(inner) => !passes(inner.get(), values, areas),
        Test::And(parts) => all_pass(parts.as_slice(), values, areas),
        Test::Or(parts) => any_passes(parts.as_slice(), values, areas),
    }
}

#[cycle(passes)]
fn all_pass(tests: &[Test], values: &DirValues, areas: u64) -> bool
    ensures { result ≡ spec.all_true (map (spec.passes values.now areas) tests.now) }
{
    for test in tests {
        if !passes(test, values, areas) {
            return false;
        }
    }
    true
}

#[cycle(passes)]
fn any_passes(tests: &[Test], values: &DirValues, areas: u64) -> bool
    ensures { result ≡ spec.any_true (map (spec.passes values.now areas) tests.now) }
{
    for test in tests {
        if passes(test, values, areas) {
            return true;
        }
    }
    false
}

//! The values of a road, read from the words of an edge.
ghost use Rattle.std.specs.Prelude.{◌≡◌, ◌<◌, ◌≤◌, ◌+◌, false};
ghost use Rattle.std.specs.Int.{from_bool};
ghost use Rattle.encoded_values.specs.Values.{Values};
ghost use Rattle.value_plan.specs.Slots.{number_of, value_of};
ghost use Rattle.value_plan.specs.Road.{HoldsAlong, HoldsSome, for_each, shared};

use crate::numbers::number_at;
use encoded_values::DirValues;
use gh_base::{EdgeId, EdgeWords};

// The first bit of each value, of the forward direction where each has one.
const ROAD_CLASS: u32 = 0;

const ROAD_CLASS_LINK: u32 = 4;

const ROUNDABOUT: u32 = 5;

const SURFACE: u32 = 6;

const TOLL: u32 = 10;

const LANES: u32 = 12;

const MAX_SPEED: u32 = 15;

const CAR_ACCESS: u32 = 23;

const BIKE_ACCESS: u32 = 25;

const FOOT_ACCESS: u32 = 27;

const CAR_SPEED: u32 = 29;

const BIKE_SPEED: u32 = 45;

const FOOT_SPEED: u32 = 61;

/// The values of an edge in a direction: those that were put into its words.
pub fn take_values<W: EdgeWords>(words: &W, edge: EdgeId, reverse: bool) -> DirValues
    requires edge { edge.0 < W.edges words.now }
    requires held { HoldsSome (number_of (W.word_of words.now edge.0)) reverse }
    ensures { (values : Values)
        → HoldsAlong (number_of (W.word_of words.now edge.0)) values reverse → result ≡ values }
{
    let number = number_at(words, edge);
    values_in(number, reverse)
}

/// The values that a number holds in a direction.
fn values_in(number: u128, reverse: bool) -> DirValues
    requires { HoldsSome number reverse }
    ensures { (values : Values) → HoldsAlong number values reverse → result ≡ values }
{
    let road_class = shared_value(number, ROAD_CLASS, 4);
    let road_class_link = shared_flag(number, ROAD_CLASS_LINK);
    let roundabout = shared_flag(number, ROUNDABOUT);
    let surface = shared_value(number, SURFACE, 4);
    let toll = shared_value(number, TOLL, 2);
    let lanes = shared_value(number, LANES, 3);
    let max_speed = shared_value(number, MAX_SPEED, 8);
    let car_access = flag(number, CAR_ACCESS, reverse);
    let bike_access = flag(number, BIKE_ACCESS, reverse);
    let foot_access = flag(number, FOOT_ACCESS, reverse);
    let car_speed = speed(number, CAR_SPEED, reverse);
    let bike_speed = speed(number, BIKE_SPEED, reverse);
    let foot_speed = speed(number, FOOT_SPEED, reverse);
    DirValues {
        road_class,
        road_class_link,
        roundabout,
        surface,
        toll,
        lanes,
        max_speed,
        car_access,
        bike_access,
        foot_access,
        car_speed,
        bike_speed,
        foot_speed,
    }
}

/// A value of at most 8 bits that both directions share.
fn shared_value(number: u128, first: u32, bits: u32) -> u8
    requires first { first < 128 }
    requires few { bits ≤ 8 }
    ensures { result ≡ value_of number (shared first bits) false }
{
    ((number >> first) % (1 << bits)) as u8
}

/// A flag that both directions share.
fn shared_flag(number: u128, first: u32) -> bool
    requires { first < 128 }
    ensures { from_bool result ≡ value_of number (shared first 1) false }
{
    (number >> first) % 2 == 1
}

/// The flag of a direction.
fn flag(number: u128, first: u32, reverse: bool) -> bool
    requires { first + 1 < 128 }
    ensures { from_bool result ≡ value_of number (for_each first 1) reverse }
{
    shared_flag(number, if reverse { first + 1 } else { first })
}

/// The speed of a direction.
fn speed(number: u128, first: u32, reverse: bool) -> u8
    requires { first + 8 < 128 }
    ensures { result ≡ value_of number (for_each first 8) reverse }
{
    shared_value(number, if reverse { first + 8 } else { first }, 8)
}

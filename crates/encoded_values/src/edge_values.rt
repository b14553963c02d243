//! Values of one direction, and of both.
ghost use Rattle.std.specs.Prelude.{◌≡◌, ◌≤◌, ◌*◌};
ghost use Rattle.encoded_values.specs.Values.{AreInRange, AreTwoInRange, opening, speed_of};

use gh_base::Vehicle;
use std::marker::Model;

/// The maximum speed that no tag gives.
pub const MISSING_MAX_SPEED: u8 = 255;

/// A km/h in milli-km/h.
const MILLI: u32 = 1000;

/// The values of one direction. Speeds are in km/h; words are their places among the words of their kind.
#[derive(Clone, Copy, Debug, PartialEq, Eq)]
pub struct DirValues {
    pub road_class: u8,
    pub road_class_link: bool,
    pub roundabout: bool,
    pub surface: u8,
    pub toll: u8,
    pub lanes: u8,
    pub max_speed: u8,
    pub car_access: bool,
    pub bike_access: bool,
    pub foot_access: bool,
    pub car_speed: u8,
    pub bike_speed: u8,
    pub foot_speed: u8,
}

impl Model for DirValues {
    ghost use Rattle.encoded_values.specs.Values.{Values, AreInRange};

    ghost Value = { Values };

    ghost use Rattle.encoded_values.specs.Fields.{values_of, fields_of};

    ghost view = { values_of };

    ghost inverse = { fields_of };

    ghost invariant = { λ a. AreInRange (values_of a) };
}

/// The values of both directions.
#[derive(Clone, Copy, Debug, PartialEq, Eq)]
pub struct EdgeValues {
    pub forward: DirValues,
    pub reverse: DirValues,
}

impl Model for EdgeValues {
    ghost use Rattle.encoded_values.specs.Values.{TwoValues, AreAlike};

    ghost Value = { TwoValues };

    ghost view = { λ a. record { forward = a.forward; reverse = a.reverse } };

    ghost inverse = { λ v. record { forward = v.forward; reverse = v.reverse } };

    ghost invariant = { λ a. AreAlike a.forward a.reverse };
}

impl DirValues {
    /// The base speed of a vehicle, in km/h; 0 where it may not pass.
    pub fn speed(&self, vehicle: Vehicle) -> u8
        ensures { result ≡ speed_of vehicle self.now }
    {
        match vehicle {
            Vehicle::Car => self.car_speed,
            Vehicle::Bike => self.bike_speed,
            Vehicle::Foot => self.foot_speed,
        }
    }
}

/// The values of a direction are in their ranges. It reads the fields, where that is known, and does nothing else.
pub fn values_are_in_range(values: &DirValues)
    ensures { AreInRange values.now }
{
    let _max = values.max_speed;
    let _car = values.car_speed;
    let _bike = values.bike_speed;
    let _foot = values.foot_speed;
}

/// The values of both directions are in their ranges, and alike where no direction counts.
pub fn both_are_in_range(values: &EdgeValues)
    ensures { AreTwoInRange values.now }
{
    values_are_in_range(&values.forward);
    values_are_in_range(&values.reverse);
}

/// The traffic limit that a direction opens with, in milli-km/h: that of its fastest vehicle, and 0
/// where none may pass.
pub fn opening_limit(values: &DirValues) -> u32
    ensures { result ≡ opening values.now }
{
    let fastest = values
        .car_speed
        .max(values.bike_speed.max(values.foot_speed));
    MILLI * u32::from(fastest)
}

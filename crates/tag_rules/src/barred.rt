//! The vehicles that a way bars in a direction.
ghost use Rattle.std.specs.Prelude.{⊤, ◌≡◌, ◌||◌, ◌&&◌, [], ◌∷◌, codes, map, Bool};
ghost use Rattle.std.specs.Option.{option_map};
ghost use Rattle.tag_rules.specs.Access.{bars, set_of, set_with, flag_of, is_in, forbids, first_of, access_keys, is_closed_by, is_implied_by, is_roundabout_by, is_against_by};
ghost use Rattle.gh_base.specs.declared.query.Vehicle.TheVariants.{Car, Bike, Foot};

use crate::tags::{has_value, tag_value};
use bitflags::{Flag, Flags, bitflag_items};
use gh_base::{TagList, Vehicle};

/// A set of vehicles.
#[derive(Clone, Copy, Debug, PartialEq, Eq)]
pub(crate) struct Barred(u8);

bitflag_items! {
    impl Barred: u8 {
        const CAR = 1;
        const BIKE = 2;
        const FOOT = 4;
    }
}

impl Flags for Barred {
    type Bits = u8;

    ghost exact = { ⊤ };

    ghost table = { (codes "CAR", 1) ∷ (codes "BIKE", 2) ∷ (codes "FOOT", 4) ∷ [] };

    ghost set_of = { λ b. b.0 };

    fn flags<'a>() -> &'a [Flag<Barred>] {
        Barred::FLAGS
    }

    fn bits(&self) -> u8 {
        self.0
    }

    fn from_bits_retain(bits: u8) -> Barred {
        Barred(bits)
    }
}

/// Whether a value of a key of access forbids.
fn is_forbidden(value: Option<&str>) -> bool
    ensures { result ≡ forbids (option_map (λ t. t.now) value.entry) }
{
    matches!(value, Some("no" | "private"))
}

/// The value of the first of these keys that there is.
fn first_value<'a>(tags: &'a TagList, keys: &[&str]) -> Option<&'a str>
    ensures { option_map (λ t. t.now) result ≡ first_of (map (λ k. k.now) keys.now) tags.now }
{
    for key in keys {
        let value = tag_value(tags, key);
        if value.is_some() {
            return value;
        }
    }
    None
}

/// Whether the tags of access forbid a vehicle.
fn has_no_access(tags: &TagList, vehicle: Vehicle) -> bool
    ensures { result ≡ forbids (first_of (access_keys vehicle) tags.now) }
{
    let keys: &[&str] = match vehicle {
        Vehicle::Car => &["motorcar", "motor_vehicle", "vehicle", "access"],
        Vehicle::Bike => &["bicycle", "vehicle", "access"],
        Vehicle::Foot => &["foot", "access"],
    };
    is_forbidden(first_value(tags, keys))
}

/// Whether a way is a roundabout.
pub(crate) fn is_roundabout(tags: &TagList) -> bool
    ensures { result ≡ is_roundabout_by tags.now }
{
    has_value(tags, "junction", "roundabout")
}

/// Whether a way is closed in a direction, for those that keep to it.
fn is_closed(tags: &TagList, reverse: bool) -> bool
    ensures { result ≡ is_closed_by reverse tags.now }
{
    match tag_value(tags, "oneway") {
        Some("yes" | "true" | "1") => reverse,
        Some("-1" | "reverse") => !reverse,
        Some(_) => false,
        None => reverse && is_implied(tags),
    }
}

/// Whether a way is one-way where no tag says otherwise.
fn is_implied(tags: &TagList) -> bool
    ensures { result ≡ is_implied_by tags.now }
{
    matches!(
        tag_value(tags, "highway"),
        Some("motorway" | "motorway_link")
    ) || is_roundabout(tags)
}

/// Whether the direction of a way bars a vehicle.
fn is_against(tags: &TagList, vehicle: Vehicle, reverse: bool) -> bool
    ensures { result ≡ is_against_by vehicle reverse tags.now }
{
    match vehicle {
        Vehicle::Car => is_closed(tags, reverse),
        Vehicle::Bike => is_closed(tags, reverse) && !has_value(tags, "oneway:bicycle", "no"),
        Vehicle::Foot => false,
    }
}

/// Whether a way bars a vehicle in a direction.
fn is_barred(tags: &TagList, vehicle: Vehicle, reverse: bool) -> bool
    ensures { result ≡ bars vehicle reverse tags.now }
{
    is_against(tags, vehicle, reverse) || has_no_access(tags, vehicle)
}

/// The flag of a vehicle.
fn flag(vehicle: Vehicle) -> Barred
    ensures { result.0 ≡ flag_of vehicle }
{
    match vehicle {
        Vehicle::Car => Barred::CAR,
        Vehicle::Bike => Barred::BIKE,
        Vehicle::Foot => Barred::FOOT,
    }
}

impl Barred {
    /// The set with a vehicle in it, where it is barred.
    fn with(self, vehicle: Vehicle, barred: bool) -> Barred
        ensures { (car bike foot : Bool) → self.0 ≡ set_of car bike foot → result.0 ≡ set_with vehicle barred car bike foot }
    {
        let mut set = self;
        if barred {
            set.insert(flag(vehicle));
        }
        set
    }

    /// The vehicles that a way bars in a direction.
    pub(crate) fn of(tags: &TagList, reverse: bool) -> Barred
        ensures { result.0 ≡ set_of (bars Car reverse tags.now) (bars Bike reverse tags.now) (bars Foot reverse tags.now) }
    {
        Barred::empty()
            .with(Vehicle::Car, is_barred(tags, Vehicle::Car, reverse))
            .with(Vehicle::Bike, is_barred(tags, Vehicle::Bike, reverse))
            .with(Vehicle::Foot, is_barred(tags, Vehicle::Foot, reverse))
    }

    /// Whether a vehicle is barred.
    pub(crate) fn has(self, vehicle: Vehicle) -> bool
        ensures { (car bike foot : Bool) → self.0 ≡ set_of car bike foot → result ≡ is_in vehicle car bike foot }
    {
        self.contains(flag(vehicle))
    }
}

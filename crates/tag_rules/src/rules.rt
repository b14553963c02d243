//! The values of a way, whole.
ghost use Rattle.std.specs.Prelude.{◌≡◌, ◌<◌, ◌↔◌, IsSome};
ghost use Rattle.tag_rules.specs.Access.{bars, set_of};
ghost use Rattle.gh_base.specs.declared.query.Vehicle.TheVariants.{Car, Bike, Foot};
ghost use Rattle.tag_rules.specs.Values.{car_speed_of, free_speed, speed_by, values_in, has_access, values_by, IsUsed};

use crate::barred::{Barred, is_roundabout};
use crate::highways::{Highway, highway_named};
use crate::tables::{lanes, max_speed, surface, toll};
use crate::tags::tag_value;
use encoded_values::{DirValues, EdgeValues, MISSING_MAX_SPEED};
use gh_base::{TagList, Vehicle};

/// The speed of cars that the table and the maximum speed give, in km/h.
fn car_speed(table: u8, max_speed: u8) -> u8
    ensures { result ≡ car_speed_of table max_speed }
{
    if table == 0 || max_speed == MISSING_MAX_SPEED {
        return table;
    }
    let nine_tenths = 9 * u16::from(max_speed) / 10;
    nine_tenths.max(1) as u8
}

/// The speed of a vehicle that may pass, in km/h.
fn speed_where_free(vehicle: Vehicle, highway: Highway, tags: &TagList) -> u8
    ensures { result ≡ free_speed vehicle highway tags.now }
{
    match vehicle {
        Vehicle::Car => car_speed(highway.car, max_speed(tag_value(tags, "maxspeed"))),
        Vehicle::Bike => highway.bike,
        Vehicle::Foot => highway.foot,
    }
}

/// The speed of a vehicle in a direction, in km/h.
fn speed(vehicle: Vehicle, reverse: bool, barred: Barred, highway: Highway, tags: &TagList) -> u8
    requires { barred.0 ≡ set_of (bars Car reverse tags.now) (bars Bike reverse tags.now) (bars Foot reverse tags.now) }
    ensures { result ≡ speed_by vehicle reverse highway tags.now }
{
    if barred.has(vehicle) {
        return 0;
    }
    speed_where_free(vehicle, highway, tags)
}

/// The values of a direction.
fn direction(reverse: bool, highway: Highway, tags: &TagList) -> DirValues
    requires { highway.class < 16 }
    ensures { result ≡ values_in reverse highway tags.now }
{
    let barred = Barred::of(tags, reverse);
    let car_speed = speed(Vehicle::Car, reverse, barred, highway, tags);
    let bike_speed = speed(Vehicle::Bike, reverse, barred, highway, tags);
    let foot_speed = speed(Vehicle::Foot, reverse, barred, highway, tags);
    DirValues {
        road_class: highway.class,
        road_class_link: highway.link,
        roundabout: is_roundabout(tags),
        surface: surface(tag_value(tags, "surface")),
        toll: toll(tag_value(tags, "toll")),
        lanes: lanes(tag_value(tags, "lanes")),
        max_speed: max_speed(tag_value(tags, "maxspeed")),
        car_access: car_speed > 0,
        bike_access: bike_speed > 0,
        foot_access: foot_speed > 0,
        car_speed,
        bike_speed,
        foot_speed,
    }
}

/// Whether some vehicle may pass.
fn is_open(values: &DirValues) -> bool
    ensures { result ≡ has_access values.now }
{
    values.car_access || values.bike_access || values.foot_access
}

/// The values of the edges of a way with these tags; None exactly where no vehicle has a speed above 0
/// in any direction.
#[tactic(auto, using(crate::proofs::Uses::used_by, crate::proofs::Uses::values_used))]
pub fn values_of(tags: &TagList) -> Option<EdgeValues>
    ensures values { result ≡ values_by tags.now }
    ensures used { IsSome result ↔ IsUsed tags.now }
{
    let highway = highway_named(tag_value(tags, "highway")?)?;
    let forward = direction(false, highway, tags);
    let reverse = direction(true, highway, tags);
    if is_open(&forward) || is_open(&reverse) {
        Some(EdgeValues { forward, reverse })
    } else {
        None
    }
}

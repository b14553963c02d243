//! The kinds of roads.
ghost use Rattle.std.specs.Prelude.{◌≡◌, ◌<◌, IfSome, true, false};
ghost use Rattle.tag_rules.specs.Tables.{highway_of};

use encoded_values::RoadClass;

/// A kind of road: its class, whether it is a link, and the speeds of cars, bikes and walkers in km/h.
#[derive(Clone, Copy, Debug, PartialEq, Eq)]
pub(crate) struct Highway {
    pub(crate) class: u8,
    pub(crate) link: bool,
    pub(crate) car: u8,
    pub(crate) bike: u8,
    pub(crate) foot: u8,
}

fn road(class: u8, car: u8, bike: u8, foot: u8) -> Highway
    ensures { result ≡ record { class = class; link = false; car = car; bike = bike; foot = foot } }
{
    Highway {
        class,
        link: false,
        car,
        bike,
        foot,
    }
}

fn link(class: u8, car: u8, bike: u8, foot: u8) -> Highway
    ensures { result ≡ record { class = class; link = true; car = car; bike = bike; foot = foot } }
{
    Highway {
        link: true,
        ..road(class, car, bike, foot)
    }
}

/// The kind of road that a value of `highway` names; None where it names none.
pub(crate) fn highway_named(word: &str) -> Option<Highway>
    ensures row { result ≡ highway_of word.now }
    ensures class_in_range { IfSome result (λ h. h.class < 16) }
{
    Some(match word {
        "motorway" => road(RoadClass::Motorway as u8, 100, 0, 0),
        "motorway_link" => link(RoadClass::Motorway as u8, 70, 0, 0),
        "trunk" => road(RoadClass::Trunk as u8, 70, 18, 5),
        "trunk_link" => link(RoadClass::Trunk as u8, 65, 18, 5),
        "primary" => road(RoadClass::Primary as u8, 65, 18, 5),
        "primary_link" => link(RoadClass::Primary as u8, 60, 18, 5),
        "secondary" => road(RoadClass::Secondary as u8, 60, 18, 5),
        "secondary_link" => link(RoadClass::Secondary as u8, 50, 18, 5),
        "tertiary" => road(RoadClass::Tertiary as u8, 50, 18, 5),
        "tertiary_link" => link(RoadClass::Tertiary as u8, 40, 18, 5),
        "unclassified" => road(RoadClass::Unclassified as u8, 30, 16, 5),
        "residential" => road(RoadClass::Residential as u8, 30, 18, 5),
        "living_street" => road(RoadClass::LivingStreet as u8, 5, 6, 5),
        "service" => road(RoadClass::Service as u8, 20, 12, 5),
        "track" => road(RoadClass::Track as u8, 15, 12, 5),
        "path" => road(RoadClass::Path as u8, 0, 10, 5),
        "footway" => road(RoadClass::Footway as u8, 0, 6, 5),
        "cycleway" => road(RoadClass::Cycleway as u8, 0, 18, 5),
        "pedestrian" => road(RoadClass::Pedestrian as u8, 0, 6, 5),
        "steps" => road(RoadClass::Steps as u8, 0, 0, 2),
        "road" => road(RoadClass::Other as u8, 20, 12, 5),
        _ => return None,
    })
}

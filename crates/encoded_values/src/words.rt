//! The words of values, and their places.
ghost use Rattle.std.specs.Prelude.{◌≡◌};
ghost use Rattle.encoded_values.specs.Words.{road_classes, surfaces, tolls, place_in};

/// The class of a road, by the value of its tag `highway`.
#[derive(Clone, Copy, Debug, PartialEq, Eq)]
pub enum RoadClass {
    Other,
    Motorway,
    Trunk,
    Primary,
    Secondary,
    Tertiary,
    Unclassified,
    Residential,
    LivingStreet,
    Service,
    Track,
    Path,
    Footway,
    Cycleway,
    Pedestrian,
    Steps,
}

/// What is under the wheels.
#[derive(Clone, Copy, Debug, PartialEq, Eq)]
pub enum Surface {
    Missing,
    Paved,
    Asphalt,
    Concrete,
    PavingStones,
    Cobblestone,
    Unpaved,
    Compacted,
    Gravel,
    Ground,
    Dirt,
    Grass,
    Sand,
    Other,
}

/// Who pays.
#[derive(Clone, Copy, Debug, PartialEq, Eq)]
pub enum Toll {
    Missing,
    All,
    No,
}

/// The place of a class of roads by its word, as `LIVING_STREET`; None where there is none of this name.
pub fn road_class_named(word: &str) -> Option<u8>
    ensures { result ≡ place_in road_classes word.now }
{
    let class = match word {
        "OTHER" => RoadClass::Other,
        "MOTORWAY" => RoadClass::Motorway,
        "TRUNK" => RoadClass::Trunk,
        "PRIMARY" => RoadClass::Primary,
        "SECONDARY" => RoadClass::Secondary,
        "TERTIARY" => RoadClass::Tertiary,
        "UNCLASSIFIED" => RoadClass::Unclassified,
        "RESIDENTIAL" => RoadClass::Residential,
        "LIVING_STREET" => RoadClass::LivingStreet,
        "SERVICE" => RoadClass::Service,
        "TRACK" => RoadClass::Track,
        "PATH" => RoadClass::Path,
        "FOOTWAY" => RoadClass::Footway,
        "CYCLEWAY" => RoadClass::Cycleway,
        "PEDESTRIAN" => RoadClass::Pedestrian,
        "STEPS" => RoadClass::Steps,
        _ => return None,
    };
    Some(class as u8)
}

/// The place of a surface by its word, as `PAVING_STONES`; None where there is none of this name.
pub fn surface_named(word: &str) -> Option<u8>
    ensures { result ≡ place_in surfaces word.now }
{
    let surface = match word {
        "MISSING" => Surface::Missing,
        "PAVED" => Surface::Paved,
        "ASPHALT" => Surface::Asphalt,
        "CONCRETE" => Surface::Concrete,
        "PAVING_STONES" => Surface::PavingStones,
        "COBBLESTONE" => Surface::Cobblestone,
        "UNPAVED" => Surface::Unpaved,
        "COMPACTED" => Surface::Compacted,
        "GRAVEL" => Surface::Gravel,
        "GROUND" => Surface::Ground,
        "DIRT" => Surface::Dirt,
        "GRASS" => Surface::Grass,
        "SAND" => Surface::Sand,
        "OTHER" => Surface::Other,
        _ => return None,
    };
    Some(surface as u8)
}

/// The place of a toll by its word, as `ALL`; None where there is none of this name.
pub fn toll_named(word: &str) -> Option<u8>
    ensures { result ≡ place_in tolls word.now }
{
    let toll = match word {
        "MISSING" => Toll::Missing,
        "ALL" => Toll::All,
        "NO" => Toll::No,
        _ => return None,
    };
    Some(toll as u8)
}

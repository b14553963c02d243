//! What single tags say.
ghost use Rattle.std.specs.Prelude.{◌≡◌, ◌<◌, ◌≤◌};
ghost use Rattle.std.specs.Option.{option_map};
ghost use Rattle.tag_rules.specs.Tables.{kmh_of, max_speed_by, lanes_by, surface_by, toll_by};

use encoded_values::{MISSING_MAX_SPEED, Surface, Toll};
use gh_base::read_natural;

/// The millimetres of a mile, and those of a kilometre.
const MILE_MM: u64 = 1609344;

const KILOMETRE_MM: u64 = 1000000;

/// The greatest maximum speed, in km/h.
const GREATEST_MAX_SPEED: u64 = 254;

/// The longest number of a maximum speed, in digits.
const SPEED_DIGITS: usize = 3;

/// What follows miles an hour.
const MPH: &[u8] = b" mph";

/// The km/h that a value of `maxspeed` says, rounded down; None where it says none.
fn kmh(text: &str) -> Option<u64>
    ensures { result ≡ kmh_of text.now }
{
    match text.as_bytes().strip_suffix(MPH) {
        Some(miles) => {
            let n = read_natural(miles, SPEED_DIGITS)?;
            Some(n * MILE_MM / KILOMETRE_MM)
        }
        None => read_natural(text.as_bytes(), SPEED_DIGITS),
    }
}

/// The maximum speed of a value of `maxspeed`, in km/h.
pub(crate) fn max_speed(value: Option<&str>) -> u8
    ensures value { result ≡ max_speed_by (option_map (λ t. t.now) value.entry) }
    ensures some { 1 ≤ result }
{
    match value.and_then(kmh) {
        None | Some(0) => MISSING_MAX_SPEED,
        Some(n) => n.min(GREATEST_MAX_SPEED) as u8,
    }
}

/// The lanes of a value of `lanes`: 1 to 7.
pub(crate) fn lanes(value: Option<&str>) -> u8
    ensures value { result ≡ lanes_by (option_map (λ t. t.now) value.entry) }
    ensures some { 1 ≤ result }
    ensures few { result ≤ 7 }
{
    let Some(text) = value else {
        return 1;
    };
    match read_natural(text.as_bytes(), 1) {
        Some(n) if 1 <= n && n <= 7 => n as u8,
        _ => 1,
    }
}

/// The surface of a value of `surface`.
pub(crate) fn surface(value: Option<&str>) -> u8
    ensures value { result ≡ surface_by (option_map (λ t. t.now) value.entry) }
    ensures in_range { result < 14 }
{
    let Some(word) = value else {
        return Surface::Missing as u8;
    };
    let surface = match word {
        "missing" => Surface::Missing,
        "paved" => Surface::Paved,
        "asphalt" => Surface::Asphalt,
        "concrete" => Surface::Concrete,
        "paving_stones" => Surface::PavingStones,
        "cobblestone" => Surface::Cobblestone,
        "unpaved" => Surface::Unpaved,
        "compacted" => Surface::Compacted,
        "gravel" => Surface::Gravel,
        "ground" => Surface::Ground,
        "dirt" => Surface::Dirt,
        "grass" => Surface::Grass,
        "sand" => Surface::Sand,
        _ => Surface::Other,
    };
    surface as u8
}

/// The toll of a value of `toll`.
pub(crate) fn toll(value: Option<&str>) -> u8
    ensures value { result ≡ toll_by (option_map (λ t. t.now) value.entry) }
    ensures in_range { result < 3 }
{
    let toll = match value {
        None => Toll::Missing,
        Some("yes") => Toll::All,
        Some(_) => Toll::No,
    };
    toll as u8
}

//! What a profile is made of.
ghost use Rattle.std.specs.Prelude.{◌≡◌, IfOk};
ghost use Rattle.weighting.specs.Profiles.{car_profile};

use gh_base::{NoMemory, Sequence, Text, Vehicle};
use model_eval::{CustomModel, no_model};
use std::alloc::Global;

/// The name of the profile that stands where none is declared.
pub const CAR_PROFILE: &str = "car";

/// A vehicle with the model that its queries begin with, under a name.
#[derive(Debug, Drop)]
pub struct Profile {
    pub name: Text,
    pub vehicle: Vehicle,
    pub model: CustomModel,
}

/// Profiles, by number.
pub type Profiles = Sequence<Profile>;

/// The profile that stands where none is declared: of cars, and its model has no statement.
pub fn car_profile(alloc: Global) -> Result<Profile, NoMemory>
    ensures { IfOk result (λ profile. profile ≡ car_profile) }
{
    let mut name = Text::new(alloc);
    name.push(CAR_PROFILE)?;
    Ok(Profile {
        name,
        vehicle: Vehicle::Car,
        model: no_model(alloc),
    })
}

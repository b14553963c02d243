//! A road for trials.
ghost use Rattle.std.specs.Prelude.{◌≡◌, All, length, IfOk};
ghost use Rattle.model_eval.specs.Models.{IsModel};
ghost use Rattle.weighting.specs.declared.profile.Profile.{Profile};

use gh_base::{NoMemory, SureSource};
use map_import::import;
use plain_map::read_plain;
use std::alloc::Global;
use std::test::Fail;
use traffic_core::Ground;
use weighting::{Profiles, car_profile};

/// One road between two towers, where cars go 60 km/h.
const ROAD: &str = "n1 y0 x0\nn2 y0 x1\nw1 Thighway=secondary Nn1,n2\n";

/// One profile, for cars.
fn cars(alloc: Global) -> Result<Profiles, NoMemory>
    ensures one { IfOk result (λ made. length made ≡ 1) }
    ensures models { IfOk result (λ made. All (λ (profile : Profile). IsModel profile.model) made) }
{
    let mut profiles = Profiles::new(alloc);
    profiles.push(car_profile(alloc)?)?;
    Ok(profiles)
}

/// The road, with the profile.
pub(crate) fn road(alloc: Global) -> Result<Ground, Fail>
    ensures { IfOk result (λ made. length made.profiles ≡ 1) }
{
    let mut source = SureSource::new(ROAD.as_bytes(), 4096);
    let map = read_plain(alloc, &mut source)?;
    let roads = import(alloc, &map)?;
    Ok(Ground::new(alloc, roads, cars(alloc)?)?)
}

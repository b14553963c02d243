//! The roads of cars.
ghost use Rattle.std.specs.Prelude.{◌≡◌, ◌<◌, ◌≤◌, ◌*◌, length, ◌↔◌, IsTrue, IfOk, IfErr, IsErrOf, IfSome};
ghost use Rattle.std.specs.List.{IsDistinct};
ghost use Rattle.std.specs.Ordering.{int_eq};
ghost use Rattle.gh_base.specs.Causes.{Rose};
ghost use Rattle.traffic_core.specs.Lands.{AreAsLong};
ghost use Rattle.map_roads.specs.Statuses.{IsMap, MapSays, IsOfCars};
ghost use Rattle.map_roads.specs.Cars.{car_land, size_of, AreCarsIn, AreFewOfPrep, FewSay, IsTooMany};

use crate::maps::read_roads;
use crate::status::{Quantity, Status, Which};
use gh_base::{Files, Form, NoMemory};
use map_import::Roads;
use std::alloc::Global;
use traffic_core::Ground;
use weighting::{Profiles, car_profile};

/// The most labels of landmarks that may be asked for.
pub const MOST_LABELS: u64 = 150_000_000;

/// Roads with the profile of cars alone.
pub fn car_ground(alloc: Global, roads: Roads) -> Result<Ground, NoMemory>
    requires lengths { AreAsLong roads.graph.lists }
    requires ids { length roads.ids ≡ length roads.graph.lists.places }
    requires distinct { IsDistinct int_eq roads.ids }
    ensures { IfOk result (λ made. made ≡ car_land roads) }
{
    let mut profiles = Profiles::new(alloc);
    profiles.push(car_profile(alloc)?)?;
    Ground::new(alloc, roads, profiles)
}

/// Whether so many landmarks have no more labels than may be asked for.
fn are_few_for(roads: &Roads, count: u32) -> bool
    requires { length roads.now.ids ≡ length roads.now.graph.lists.places }
    ensures { IsTrue result ↔ (count * size_of (car_land roads.now) ≤ 150000000) }
{
    let size = roads.graph.node_count() + roads.graph.edge_count();
    u64::from(count) * u64::from(size) <= MOST_LABELS
}

/// Roads with the profile of cars alone, unless so many landmarks have too many labels there.
pub fn cars_of(alloc: Global, roads: Roads, count: u32) -> Result<Ground, Status>
    requires lengths { AreAsLong roads.graph.lists }
    requires ids { length roads.ids ≡ length roads.graph.lists.places }
    requires distinct { IsDistinct int_eq roads.ids }
    ensures cars { IfOk result (λ made. made ≡ car_land roads) }
    ensures few { IfOk result (λ _. count * size_of (car_land roads) ≤ 150000000) }
    ensures many { IfErr result (IsTooMany (count * size_of (car_land roads))) }
{
    if !are_few_for(&roads, count) {
        return Err(Status::TooLarge {
            what: Quantity::Labels,
            limit: MOST_LABELS,
        });
    }
    Ok(car_ground(alloc, roads)?)
}

/// Reads the map of a name into roads with the profile of cars alone, unless so many landmarks
/// have too many labels there.
pub fn read_cars<F: Files>(
    alloc: Global,
    files: &mut F,
    name: &str,
    form: Form,
    count: u32,
) -> Result<Ground, Status>
    ensures cars { IfOk result (λ made. IfSome (F.holds files.old name.now) (λ held.
        AreCarsIn form held made)) }
    ensures there { IfOk result (λ made. 0 < length made.profiles) }
    ensures map { IfOk result (λ _. IfSome (F.holds files.old name.now) (IsMap form)) }
    ensures few { IfOk result (λ _. IfSome (F.holds files.old name.now) (λ held.
        AreFewOfPrep form held count)) }
    ensures err { IfErr result (λ status. IfSome (F.holds files.old name.now)
        (MapSays status form)) }
    ensures labels { IfErr result (λ status. IfSome (F.holds files.old name.now) (λ held.
        FewSay status form held count)) }
    ensures early { IfErr result IsOfCars }
    ensures open { IsErrOf result Status.OpenFault → let mark = F.mark_of files.old name.now in
        Rose (F.failed_brings files.old mark) (F.failed_brings files.new mark) }
    ensures read { IsErrOf result (Status.ReadFault Which.Map) →
        let mark = F.mark_of files.old name.now in
        Rose (F.failed_takes files.old mark) (F.failed_takes files.new mark) }
{
    let roads = read_roads(alloc, files, name, form)?;
    cars_of(alloc, roads, count)
}

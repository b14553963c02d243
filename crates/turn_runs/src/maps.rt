//! A map read once: its roads, the way of each edge, and its turn restrictions.
ghost use Rattle.std.specs.Prelude.{◌≡◌, ◌≤◌, length, IfOk, IfErr, IsErrOf, IfSome};
ghost use Rattle.std.specs.List.{IsDistinct};
ghost use Rattle.std.specs.Ordering.{int_eq};
ghost use Rattle.gh_base.specs.Causes.{Rose};
ghost use Rattle.traffic_core.specs.Lands.{AreAsLong};
ghost use Rattle.map_roads.specs.Statuses.{IsShortMap, MapSays, IsOfReading, IsOfMap};
ghost use Rattle.map_roads.specs.Reading.{AreRoadsAndWays};
ghost use Rattle.turn_runs.specs.Turns.{turns_in};

use crate::turns::read_turns;
use gh_base::{Files, Form, IdList, SureSource, TakeFault, read_whole};
use map_import::Roads;
use map_roads::{Quantity, RoadsAndWays, Status, Which, read_map, roads_and_ways_of};
use std::alloc::Global;
use turn_graph::TurnList;

/// The most bytes of a map: 256 MiB.
const LONGEST_MAP: usize = 268_435_456;

/// How many bytes of a map in memory are moved at a time.
const STEP: usize = 65_536;

/// Roads, the id of each edge's way, and turn restrictions.
#[derive(Drop)]
pub(crate) struct TurnMap {
    pub(crate) roads: Roads,
    pub(crate) ways: IdList,
    pub(crate) turns: TurnList,
}

/// Brings the file of a name and reads it whole. The source goes back whatever comes.
fn bring_bytes<F: Files>(alloc: Global, files: &mut F, name: &str) -> Result<Vec<u8>, Status>
    ensures bytes { IfOk result (λ bytes. IfSome (F.holds files.old name.now)
        (λ held. bytes.items ≡ held)) }
    ensures short { IfOk result (λ bytes. IsShortMap bytes.items) }
    ensures err { IfErr result (λ status. IfSome (F.holds files.old name.now) (λ held.
        (form : Form) → MapSays status form held)) }
    ensures early { IfErr result IsOfReading }
    ensures open { IsErrOf result Status.OpenFault → let mark = F.mark_of files.old name.now in
        Rose (F.failed_brings files.old mark) (F.failed_brings files.new mark) }
    ensures read { IsErrOf result (Status.ReadFault Which.Map) →
        let mark = F.mark_of files.old name.now in
        Rose (F.failed_takes files.old mark) (F.failed_takes files.new mark) }
{
    let Ok(mut source) = files.bring(name) else {
        return Err(Status::OpenFault);
    };
    let read = read_whole(alloc, &mut source, LONGEST_MAP);
    files.take_back(source);
    match read {
        Ok(bytes) => Ok(bytes),
        Err(TakeFault::ReadFault) => Err(Status::ReadFault(Which::Map)),
        Err(TakeFault::NoMemory) => Err(Status::NoMemory),
        Err(TakeFault::TooLong) => Err(Status::TooLarge {
            what: Quantity::Map,
            limit: LONGEST_MAP as u64,
        }),
    }
}

/// The roads and ways of a map's bytes in a form.
fn roads_in(alloc: Global, bytes: &[u8], form: Form) -> Result<RoadsAndWays, Status>
    ensures roads { IfOk result (λ read. AreRoadsAndWays form bytes.now read.roads read.ways) }
    ensures ids { IfOk result
        (λ read. length read.roads.ids ≡ length read.roads.graph.lists.places) }
    ensures many { IfOk result (λ read. length read.ways ≡ length read.roads.graph.lists.edges) }
    ensures err { IfErr result (λ status. MapSays status form bytes.now) }
    ensures early { IfErr result IsOfMap }
    ensures open { IsErrOf result Status.OpenFault → ⊥ }
    ensures read { IsErrOf result (Status.ReadFault Which.Map) → ⊥ }
{
    let mut source = SureSource::new(bytes, STEP);
    let map = read_map(alloc, &mut source, form)?;
    roads_and_ways_of(alloc, &map)
}

/// The roads, ways and restrictions of a map's bytes in a form.
fn turn_map_in(alloc: Global, bytes: &[u8], form: Form) -> Result<TurnMap, Status>
    ensures roads { IfOk result (λ map. AreRoadsAndWays form bytes.now map.roads map.ways) }
    ensures turns { IfOk result (λ map. map.turns ≡ turns_in form bytes.now) }
    ensures ids { IfOk result (λ map. length map.roads.ids ≡ length map.roads.graph.lists.places) }
    ensures many { IfOk result (λ map. length map.ways ≡ length map.roads.graph.lists.edges) }
    ensures err { IfErr result (λ status. MapSays status form bytes.now) }
    ensures early { IfErr result IsOfMap }
    ensures open { IsErrOf result Status.OpenFault → ⊥ }
    ensures read { IsErrOf result (Status.ReadFault Which.Map) → ⊥ }
{
    let RoadsAndWays { roads, ways } = roads_in(alloc, bytes, form)?;
    let turns = read_turns(alloc, bytes, form)?;
    Ok(TurnMap { roads, ways, turns })
}

/// Reads the file of a name once, and of its bytes the roads, ways and restrictions.
pub(crate) fn read_turn_map<F: Files>(
    alloc: Global,
    files: &mut F,
    name: &str,
    form: Form,
) -> Result<TurnMap, Status>
    ensures map { IfOk result (λ map. IfSome (F.holds files.old name.now) (λ held.
        IsShortMap held × AreRoadsAndWays form held map.roads map.ways
        × (map.turns ≡ turns_in form held))) }
    ensures lengths { IfOk result (λ map. AreAsLong map.roads.graph.lists) }
    ensures distinct { IfOk result (λ map. IsDistinct int_eq map.roads.ids) }
    ensures ids { IfOk result (λ map. length map.roads.ids ≡ length map.roads.graph.lists.places) }
    ensures many { IfOk result (λ map. length map.ways ≡ length map.roads.graph.lists.edges) }
    ensures err { IfErr result (λ status. IfSome (F.holds files.old name.now)
        (MapSays status form)) }
    ensures early { IfErr result IsOfMap }
    ensures open { IsErrOf result Status.OpenFault → let mark = F.mark_of files.old name.now in
        Rose (F.failed_brings files.old mark) (F.failed_brings files.new mark) }
    ensures read { IsErrOf result (Status.ReadFault Which.Map) →
        let mark = F.mark_of files.old name.now in
        Rose (F.failed_takes files.old mark) (F.failed_takes files.new mark) }
{
    let bytes = bring_bytes(alloc, files, name)?;
    turn_map_in(alloc, &bytes, form)
}

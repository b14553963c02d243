//! Maps, and their roads.
ghost use Rattle.std.specs.Prelude.{◌≡◌, ◌≤◌, length, All, Ok, IfOk, IfErr, IsErrOf, IfSome};
ghost use Rattle.std.specs.List.{IsDistinct};
ghost use Rattle.std.specs.Ordering.{int_eq};
ghost use Rattle.gh_base.specs.Causes.{Rose};
ghost use Rattle.gh_base.specs.Places.{IsOnEarth};
ghost use Rattle.gh_base.specs.declared.map.OsmNode.{OsmNode};
ghost use Rattle.gh_base.specs.declared.map.OsmMap.{OsmMap};
ghost use Rattle.map_import.specs.Roads.{ways_of_edges};
ghost use Rattle.traffic_core.specs.Lands.{AreAsLong};
ghost use Rattle.map_roads.specs.Statuses.{IsShortMap, ReadsAs, MapSays, IsOfReading, IsOfMap, status_of_plain, status_of_pbf};
ghost use Rattle.map_roads.specs.Reading.{AreRoadsIn, AreRoadsRead, IsRefusedFor};
ghost use Rattle.map_roads.specs.Reading.{AreRoadsAndWays};

use crate::status::{MapFault, Quantity, Status, Which};
use gh_base::{Files, Form, IdList, OsmMap, Source};
use map_import::{ImportFault, Roads, import, ways_of_edges};
use pbf_reader::{PbfFault, read_pbf};
use plain_map::{PlainFault, read_plain};
use std::alloc::Global;

/// The most bytes of a map: 256 MiB.
const LONGEST_MAP: u64 = 268_435_456;

fn status_of_plain(fault: PlainFault) -> Status
    ensures { result ≡ status_of_plain fault }
{
    match fault {
        PlainFault::ReadFault => Status::ReadFault(Which::Map),
        PlainFault::NoMemory => Status::NoMemory,
        PlainFault::TooLong => Status::TooLarge {
            what: Quantity::Map,
            limit: LONGEST_MAP,
        },
        PlainFault::At { line, byte, kind } => {
            Status::BadMap(MapFault::Plain { line, byte, kind })
        }
    }
}

fn status_of_pbf(fault: PbfFault) -> Status
    ensures { result ≡ status_of_pbf fault }
{
    match fault {
        PbfFault::ReadFault => Status::ReadFault(Which::Map),
        PbfFault::NoMemory => Status::NoMemory,
        PbfFault::TooLong => Status::TooLarge {
            what: Quantity::Map,
            limit: LONGEST_MAP,
        },
        PbfFault::At { byte, kind } => Status::BadMap(MapFault::Pbf { byte, kind }),
    }
}

/// Reads a map in a form.
pub fn read_map<S: Source>(alloc: Global, source: &mut S, form: Form) -> Result<OsmMap, Status>
    ensures map { IfOk result (λ map. IfSome (S.left source.old) (λ held.
        IsShortMap held × ReadsAs form held map)) }
    ensures err { IfErr result (λ status. IfSome (S.left source.old) (MapSays status form)) }
    ensures early { IfErr result IsOfReading }
    ensures brought { IsErrOf result Status.OpenFault → ⊥ }
    ensures read { IsErrOf result (Status.ReadFault Which.Map) →
        Rose (S.faults source.old) (S.faults source.new) }
    ensures later { S.faults source.old ≤ S.faults source.new }
    ensures mark { S.mark source.new ≡ S.mark source.old }
    ensures on_earth { IfOk result (λ map. All (λ
        (node : OsmNode). IsOnEarth node.place) map.nodes) }
{
    match form {
        Form::Plain => read_plain(alloc, source).map_err(status_of_plain),
        Form::Pbf => read_pbf(alloc, source).map_err(status_of_pbf),
    }
}

/// Brings and reads the map of a name. The source goes back whatever comes.
fn bring_map<F: Files>(
    alloc: Global,
    files: &mut F,
    name: &str,
    form: Form,
) -> Result<OsmMap, Status>
    ensures map { IfOk result (λ map. IfSome (F.holds files.old name.now) (λ held.
        IsShortMap held × ReadsAs form held map)) }
    ensures err { IfErr result (λ status. IfSome (F.holds files.old name.now)
        (MapSays status form)) }
    ensures early { IfErr result IsOfReading }
    ensures open { IsErrOf result Status.OpenFault → let mark = F.mark_of files.old name.now in
        Rose (F.failed_brings files.old mark) (F.failed_brings files.new mark) }
    ensures read { IsErrOf result (Status.ReadFault Which.Map) →
        let mark = F.mark_of files.old name.now in
        Rose (F.failed_takes files.old mark) (F.failed_takes files.new mark) }
    ensures on_earth { IfOk result (λ map. All (λ
        (node : OsmNode). IsOnEarth node.place) map.nodes) }
{
    let Ok(mut source) = files.bring(name) else {
        return Err(Status::OpenFault);
    };
    let read = read_map(alloc, &mut source, form);
    files.take_back(source);
    read
}

/// The roads of a map.
fn roads_of(alloc: Global, map: &OsmMap) -> Result<Roads, Status>
    requires { All (λ (node : OsmNode). IsOnEarth node.place) map.now.nodes }
    ensures roads { IfOk result (AreRoadsIn map.now) }
    ensures refused { IfErr result (IsRefusedFor map.now) }
{
    match import(alloc, map) {
        Ok(roads) => Ok(roads),
        Err(ImportFault::NoMemory) => Err(Status::NoMemory),
        Err(fault) => Err(Status::BadMap(MapFault::Import(fault))),
    }
}

/// Reads the map of a name and imports it.
pub fn read_roads<F: Files>(
    alloc: Global,
    files: &mut F,
    name: &str,
    form: Form,
) -> Result<Roads, Status>
    ensures map { IfOk result (λ roads. IfSome (F.holds files.old name.now) (λ held.
        IsShortMap held × AreRoadsRead form held roads)) }
    ensures err { IfErr result (λ status. IfSome (F.holds files.old name.now)
        (MapSays status form)) }
    ensures early { IfErr result IsOfMap }
    ensures open { IsErrOf result Status.OpenFault → let mark = F.mark_of files.old name.now in
        Rose (F.failed_brings files.old mark) (F.failed_brings files.new mark) }
    ensures read { IsErrOf result (Status.ReadFault Which.Map) →
        let mark = F.mark_of files.old name.now in
        Rose (F.failed_takes files.old mark) (F.failed_takes files.new mark) }
    ensures lengths { IfOk result (λ roads. AreAsLong roads.graph.lists) }
    ensures ids { IfOk result (λ roads. length roads.ids ≡ length roads.graph.lists.places) }
    ensures distinct { IfOk result (λ roads. IsDistinct int_eq roads.ids) }
{
    let map = match bring_map(alloc, files, name, form) {
        Ok(map) => map,
        Err(status) => return Err(status),
    };
    roads_of(alloc, &map)
}

/// Roads, and the id of each edge's way.
#[derive(Drop)]
pub struct RoadsAndWays {
    pub roads: Roads,
    pub ways: IdList,
}

/// The roads of a map, and the id of each edge's way.
pub fn roads_and_ways_of(alloc: Global, map: &OsmMap) -> Result<RoadsAndWays, Status>
    requires { All (λ (node : OsmNode). IsOnEarth node.place) map.now.nodes }
    ensures roads { IfOk result (λ read. AreRoadsIn map.now read.roads) }
    ensures ways { IfOk result (λ read. read.ways ≡ ways_of_edges map.now) }
    ensures many { IfOk result (λ read. length read.ways ≡ length read.roads.graph.lists.edges) }
    ensures refused { IfErr result (IsRefusedFor map.now) }
{
    let roads = match roads_of(alloc, map) {
        Ok(roads) => roads,
        Err(status) => return Err(status),
    };
    match ways_of_edges(alloc, map) {
        Ok(ways) => Ok(RoadsAndWays { roads, ways }),
        Err(_) => Err(Status::NoMemory),
    }
}

/// Reads the map of a name, imports it, and finds the way of each edge.
pub fn read_roads_and_ways<F: Files>(
    alloc: Global,
    files: &mut F,
    name: &str,
    form: Form,
) -> Result<RoadsAndWays, Status>
    ensures map { IfOk result (λ read. IfSome (F.holds files.old name.now) (λ held.
        IsShortMap held × AreRoadsAndWays form held read.roads read.ways)) }
    ensures err { IfErr result (λ status. IfSome (F.holds files.old name.now)
        (MapSays status form)) }
    ensures early { IfErr result IsOfMap }
    ensures open { IsErrOf result Status.OpenFault → let mark = F.mark_of files.old name.now in
        Rose (F.failed_brings files.old mark) (F.failed_brings files.new mark) }
    ensures read { IsErrOf result (Status.ReadFault Which.Map) →
        let mark = F.mark_of files.old name.now in
        Rose (F.failed_takes files.old mark) (F.failed_takes files.new mark) }
    ensures ids { IfOk result
        (λ read. length read.roads.ids ≡ length read.roads.graph.lists.places) }
    ensures ways { IfOk result (λ read. length read.ways ≡ length read.roads.graph.lists.edges) }
{
    let map = match bring_map(alloc, files, name, form) {
        Ok(map) => map,
        Err(status) => return Err(status),
    };
    roads_and_ways_of(alloc, &map)
}

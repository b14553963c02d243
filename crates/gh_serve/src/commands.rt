//! What a command does with the map of a name.
ghost use Rattle.std.specs.Prelude.{◌≡◌, IfSome};
ghost use Rattle.std.specs.Io.KnownBytes.{Keeps};
ghost use Rattle.gh_base.specs.Causes.{Rose};
ghost use Rattle.gh_serve.specs.Statuses.{IsOfService, IsOfConversion, ScriptSays, LabelsSay};
ghost use Rattle.map_roads.specs.Statuses.{IsOfRoads, IsUnwritten, MapSays};
ghost use Rattle.gh_serve.specs.Serving.{Serves, ServesFront, ServesPart};
ghost use Rattle.gh_serve.specs.Roads.{WritesRoads, WritesRoadsFront, WritesRoadsPart};
ghost use Rattle.gh_serve.specs.Converting.{Converts, ConvertsFront, ConvertsPart, ConversionSays};

use crate::conversion::convert;
use crate::scripts::read_whole_script;
use crate::serving::serve;
use gh_base::{Files, Form, Gate, GiveFault, Sink, Source};
use map_roads::{Status, Which, read_roads, read_roads_and_ways};
use road_lines::write_roads;
use std::alloc::Global;
use std::thread::Threads;

/// Answers a script over the roads of the map of a name.
pub(crate) fn serve_map<R: Threads + Sync, F: Files, I: Source, K: Sink, G: Gate>(
    rt: &R,
    alloc: Global,
    files: &mut F,
    name: &str,
    form: Form,
    script: &mut I,
    out: &mut K,
    gate: &G,
) -> Status
    ensures done { result ≡ Status.Done → IfSome (F.holds files.old name.now) (λ held.
        IfSome (I.left script.old) (λ bytes.
        Serves form held bytes (K.held out.old) (K.held out.new))) }
    ensures map { IfSome (F.holds files.old name.now) (MapSays result form) }
    ensures script { IfSome (I.left script.old) (ScriptSays result) }
    ensures labels { IfSome (F.holds files.old name.now) (λ held.
        IfSome (I.left script.old) (λ bytes. LabelsSay result form held bytes)) }
    ensures statuses { IsOfService result }
    ensures open { result ≡ Status.OpenFault → let mark = F.mark_of files.old name.now in
        Rose (F.failed_brings files.old mark) (F.failed_brings files.new mark) }
    ensures read_map { result ≡ Status.ReadFault Which.Map →
        let mark = F.mark_of files.old name.now in
        Rose (F.failed_takes files.old mark) (F.failed_takes files.new mark) }
    ensures read_script { result ≡ Status.ReadFault Which.Script →
        Rose (I.faults script.old) (I.faults script.new) }
    ensures write { result ≡ Status.WriteFault → Rose (K.faults out.old) (K.faults out.new) }
    ensures front { result ≡ Status.WriteFault → IfSome (F.holds files.old name.now) (λ held.
        IfSome (I.left script.old) (λ bytes.
        ServesFront form held bytes (K.held out.old) (K.held out.new))) }
    ensures part { result ≡ Status.NoMemory → IfSome (F.holds files.old name.now) (λ held.
        IfSome (I.left script.old) (λ bytes.
        ServesPart form held bytes (K.held out.old) (K.held out.new))) }
    ensures nothing { IsUnwritten result → Keeps (K.held out.old) (K.held out.new) }
{
    let roads = match read_roads(alloc, files, name, form) {
        Ok(roads) => roads,
        Err(status) => return status,
    };
    let read = match read_whole_script(alloc, script) {
        Ok(read) => read,
        Err(status) => return status,
    };
    serve(rt, alloc, roads, read, out, gate)
}

/// Writes the map of a name in another form. The source goes back whatever comes.
pub(crate) fn convert_map<F: Files, K: Sink>(
    alloc: Global,
    files: &mut F,
    name: &str,
    form: Form,
    to: Form,
    out: &mut K,
) -> Status
    ensures done { result ≡ Status.Done → IfSome (F.holds files.old name.now) (λ held.
        Converts form to held (K.held out.old) (K.held out.new)) }
    ensures map { IfSome (F.holds files.old name.now) (ConversionSays result form to) }
    ensures statuses { IsOfConversion result }
    ensures open { result ≡ Status.OpenFault → let mark = F.mark_of files.old name.now in
        Rose (F.failed_brings files.old mark) (F.failed_brings files.new mark) }
    ensures read { result ≡ Status.ReadFault Which.Map → let mark = F.mark_of files.old name.now in
        Rose (F.failed_takes files.old mark) (F.failed_takes files.new mark) }
    ensures write { result ≡ Status.WriteFault → Rose (K.faults out.old) (K.faults out.new) }
    ensures front { result ≡ Status.WriteFault → IfSome (F.holds files.old name.now) (λ held.
        ConvertsFront form to held (K.held out.old) (K.held out.new)) }
    ensures part { result ≡ Status.NoMemory → IfSome (F.holds files.old name.now) (λ held.
        ConvertsPart form to held (K.held out.old) (K.held out.new)) }
    ensures nothing { IsUnwritten result → Keeps (K.held out.old) (K.held out.new) }
{
    let Ok(mut source) = files.bring(name) else {
        return Status::OpenFault;
    };
    let status = convert(alloc, &mut source, form, to, out);
    files.take_back(source);
    status
}

/// Writes a line for each edge of the roads of the map of a name.
pub(crate) fn roads_map<F: Files, K: Sink>(
    alloc: Global,
    files: &mut F,
    name: &str,
    form: Form,
    out: &mut K,
) -> Status
    ensures done { result ≡ Status.Done → IfSome (F.holds files.old name.now) (λ held.
        WritesRoads form held (K.held out.old) (K.held out.new)) }
    ensures map { IfSome (F.holds files.old name.now) (MapSays result form) }
    ensures statuses { IsOfRoads result }
    ensures open { result ≡ Status.OpenFault → let mark = F.mark_of files.old name.now in
        Rose (F.failed_brings files.old mark) (F.failed_brings files.new mark) }
    ensures read { result ≡ Status.ReadFault Which.Map → let mark = F.mark_of files.old name.now in
        Rose (F.failed_takes files.old mark) (F.failed_takes files.new mark) }
    ensures write { result ≡ Status.WriteFault → Rose (K.faults out.old) (K.faults out.new) }
    ensures front { result ≡ Status.WriteFault → IfSome (F.holds files.old name.now) (λ held.
        WritesRoadsFront form held (K.held out.old) (K.held out.new)) }
    ensures part { result ≡ Status.NoMemory → IfSome (F.holds files.old name.now) (λ held.
        WritesRoadsPart form held (K.held out.old) (K.held out.new)) }
    ensures nothing { IsUnwritten result → Keeps (K.held out.old) (K.held out.new) }
{
    let read = match read_roads_and_ways(alloc, files, name, form) {
        Ok(read) => read,
        Err(status) => return status,
    };
    match write_roads(alloc, &read.roads, &read.ways, out) {
        Ok(()) => Status::Done,
        Err(GiveFault::NoMemory) => Status::NoMemory,
        Err(GiveFault::WriteFault) => Status::WriteFault,
    }
}

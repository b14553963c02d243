//! What `turns` does with the map of a name.
ghost use Rattle.std.specs.Prelude.{◌≡◌, ◌≤◌, IfSome};
ghost use Rattle.std.specs.Io.KnownBytes.{Keeps};
ghost use Rattle.gh_base.specs.Causes.{Rose};
ghost use Rattle.map_roads.specs.Statuses.{IsUnwritten, MapSays};
ghost use Rattle.map_roads.specs.Written.{Writes, WritesFront};
ghost use Rattle.map_roads.specs.Cars.{FewSay};
ghost use Rattle.query_lines.specs.Lines.{LinesSay, IsOfQueries};
ghost use Rattle.turn_runs.specs.Runs.{IsTurnText};

use crate::answers::TurnAnswers;
use crate::maps::{TurnMap, read_turn_map};
use gh_base::{Files, Form, Sink, Source};
use map_roads::{Status, Which, cars_of, prepare_opening};
use query_lines::answer_lines;
use std::alloc::Global;
use std::thread::Threads;
use turn_graph::TurnTable;

/// Answers query lines by least walks of cars over the map of a name that obey its turn
/// restrictions. At most `count` landmarks guide the searches.
///
/// The file is read once, so map and restrictions are of one text. A line is `route W MM S` and the
/// edges, with the weight in ms, the length in mm and the starts of the search; `noroute S`;
/// `overflow W`, where the least weight is over 9007199254740991; or `nonode ID`. They are written
/// in one piece behind the last. `WriteFault` may leave a front of the text; after any other answer
/// but `Done` nothing is written.
pub fn turns_map<R: Threads + Sync, F: Files, I: Source, K: Sink>(
    rt: &R,
    alloc: Global,
    files: &mut F,
    name: &str,
    form: Form,
    count: u32,
    lines: &mut I,
    out: &mut K,
) -> Status
    requires some { 1 ≤ count }
    requires few { count ≤ 16 }
    ensures done { result ≡ Status.Done → IfSome (F.holds files.old name.now) (λ held.
        IfSome (I.left lines.old) (λ bytes.
        Writes (IsTurnText form held count bytes) (K.held out.old) (K.held out.new))) }
    ensures map { IfSome (F.holds files.old name.now) (MapSays result form) }
    ensures labels { IfSome (F.holds files.old name.now) (λ held. FewSay result form held count) }
    ensures lines { IfSome (I.left lines.old) (LinesSay result) }
    ensures statuses { IsOfQueries result }
    ensures open { result ≡ Status.OpenFault → let mark = F.mark_of files.old name.now in
        Rose (F.failed_brings files.old mark) (F.failed_brings files.new mark) }
    ensures read_map { result ≡ Status.ReadFault Which.Map →
        let mark = F.mark_of files.old name.now in
        Rose (F.failed_takes files.old mark) (F.failed_takes files.new mark) }
    ensures read_lines { result ≡ Status.ReadFault Which.Script →
        Rose (I.faults lines.old) (I.faults lines.new) }
    ensures write { result ≡ Status.WriteFault → Rose (K.faults out.old) (K.faults out.new) }
    ensures front { result ≡ Status.WriteFault → IfSome (F.holds files.old name.now) (λ held.
        IfSome (I.left lines.old) (λ bytes.
        WritesFront (IsTurnText form held count bytes) (K.held out.old) (K.held out.new))) }
    ensures part { result ≡ Status.NoMemory → Keeps (K.held out.old) (K.held out.new) }
    ensures nothing { IsUnwritten result → Keeps (K.held out.old) (K.held out.new) }
{
    let TurnMap { roads, ways, turns } = match read_turn_map(alloc, files, name, form) {
        Ok(map) => map,
        Err(status) => return status,
    };
    let Ok(table) = TurnTable::new(alloc, &turns, &ways, &roads) else {
        return Status::NoMemory;
    };
    let ground = match cars_of(alloc, roads, count) {
        Ok(ground) => ground,
        Err(status) => return status,
    };
    let Ok(made) = prepare_opening(rt, alloc, &ground, count) else {
        return Status::NoMemory;
    };
    let answers = TurnAnswers::new(&ground, &turns, &table, &made, count);
    answer_lines(alloc, &answers, lines, out)
}

//! What `prep` and `check` do with the map of a name.
ghost use Rattle.std.specs.Prelude.{◌≡◌, ◌≤◌, IfSome};
ghost use Rattle.std.specs.Io.KnownBytes.{Keeps};
ghost use Rattle.gh_base.specs.Causes.{Rose};
ghost use Rattle.map_roads.specs.Statuses.{IsUnwritten, MapSays};
ghost use Rattle.prep_runs.specs.Statuses.{IsOfPrep, IsOfCheck};
ghost use Rattle.map_roads.specs.Written.{Writes, WritesFront};
ghost use Rattle.prep_runs.specs.Preps.{IsPrepText, PrepsFront, PrepsPart, PrepSays, IsCheckText, StoreSays};

use crate::cars::{check_store, write_store};
use gh_base::{Files, Form, Sink, Source};
use map_roads::{Status, Which, read_cars, read_roads};
use std::alloc::Global;
use std::thread::Threads;

/// Writes the store of the preparation for cars of the map of a name, with at most `count` landmarks.
pub fn prep_map<R: Threads + Sync, F: Files, K: Sink>(
    rt: &R,
    alloc: Global,
    files: &mut F,
    name: &str,
    form: Form,
    count: u32,
    out: &mut K,
) -> Status
    requires some { 1 ≤ count }
    requires few { count ≤ 16 }
    ensures done { result ≡ Status.Done → IfSome (F.holds files.old name.now) (λ held.
        Writes (IsPrepText form held count) (K.held out.old) (K.held out.new)) }
    ensures map { IfSome (F.holds files.old name.now) (MapSays result form) }
    ensures says { IfSome (F.holds files.old name.now) (λ held. PrepSays result form held count) }
    ensures statuses { IsOfPrep result }
    ensures open { result ≡ Status.OpenFault → let mark = F.mark_of files.old name.now in
        Rose (F.failed_brings files.old mark) (F.failed_brings files.new mark) }
    ensures read { result ≡ Status.ReadFault Which.Map → let mark = F.mark_of files.old name.now in
        Rose (F.failed_takes files.old mark) (F.failed_takes files.new mark) }
    ensures write { result ≡ Status.WriteFault → Rose (K.faults out.old) (K.faults out.new) }
    ensures front { result ≡ Status.WriteFault → IfSome (F.holds files.old name.now) (λ held.
        PrepsFront form held count (K.held out.old) (K.held out.new)) }
    ensures part { result ≡ Status.NoMemory → IfSome (F.holds files.old name.now) (λ held.
        PrepsPart form held count (K.held out.old) (K.held out.new)) }
    ensures nothing { IsUnwritten result → Keeps (K.held out.old) (K.held out.new) }
{
    let ground = match read_cars(alloc, files, name, form, count) {
        Ok(ground) => ground,
        Err(status) => return status,
    };
    write_store(rt, alloc, &ground, count, out)
}

/// Checks a store of a preparation for cars of the map of a name, and tells of it.
pub fn check_map<F: Files, I: Source, K: Sink>(
    alloc: Global,
    files: &mut F,
    name: &str,
    form: Form,
    store: &mut I,
    out: &mut K,
) -> Status
    ensures done { result ≡ Status.Done → IfSome (F.holds files.old name.now) (λ held.
        IfSome (I.left store.old) (λ bytes.
        Writes (IsCheckText form held bytes) (K.held out.old) (K.held out.new))) }
    ensures map { IfSome (F.holds files.old name.now) (MapSays result form) }
    ensures store { IfSome (F.holds files.old name.now) (λ held.
        IfSome (I.left store.old) (λ bytes. StoreSays result form held bytes)) }
    ensures statuses { IsOfCheck result }
    ensures open { result ≡ Status.OpenFault → let mark = F.mark_of files.old name.now in
        Rose (F.failed_brings files.old mark) (F.failed_brings files.new mark) }
    ensures read_map { result ≡ Status.ReadFault Which.Map →
        let mark = F.mark_of files.old name.now in
        Rose (F.failed_takes files.old mark) (F.failed_takes files.new mark) }
    ensures read_store { result ≡ Status.ReadFault Which.Script →
        Rose (I.faults store.old) (I.faults store.new) }
    ensures write { result ≡ Status.WriteFault → Rose (K.faults out.old) (K.faults out.new) }
    ensures front { result ≡ Status.WriteFault → IfSome (F.holds files.old name.now) (λ held.
        IfSome (I.left store.old) (λ bytes.
        WritesFront (IsCheckText form held bytes) (K.held out.old) (K.held out.new))) }
    ensures part { result ≡ Status.NoMemory → Keeps (K.held out.old) (K.held out.new) }
    ensures nothing { IsUnwritten result → Keeps (K.held out.old) (K.held out.new) }
{
    let roads = match read_roads(alloc, files, name, form) {
        Ok(roads) => roads,
        Err(status) => return status,
    };
    check_store(alloc, roads, store, out)
}

//! Stores of preparations for cars at the opening limits: how they are written, and how they are checked.
ghost use Rattle.std.specs.Prelude.{◌≡◌, ◌⊎◌, ◌<◌, ◌≤◌, [], length, IfOk, IfErr, IsErrOf, IfSome, OnOk};
ghost use Rattle.std.specs.List.{IsDistinct};
ghost use Rattle.std.specs.Ordering.{int_eq};
ghost use Rattle.std.specs.Io.KnownBytes.{Appends, Keeps};
ghost use Rattle.gh_base.specs.Causes.{Rose, AppendsFront};
ghost use Rattle.traffic_core.specs.Lands.{AreAsLong};
ghost use Rattle.prep_store.specs.Stores.{IsStored};
ghost use Rattle.traffic_core.specs.Truth.{IsNoPrepAt};
ghost use Rattle.map_roads.specs.Cars.{car_land};
ghost use Rattle.map_roads.specs.Written.{Writes, WritesFront};
ghost use Rattle.map_roads.specs.Statuses.{IsUnwritten};
ghost use Rattle.prep_runs.specs.Statuses.{IsOfChecking, IsOfPreparing, IsOfStore, status_of_store};
ghost use Rattle.prep_runs.specs.Preps.{IsChecked, IsStoreAt, StoreSaysOf, StoresFront, checked_text};

use gh_base::{GiveFault, NoMemory, Sink, Source, Text, give_all};
use landmark_prep::{Made, Prep};
use map_import::Roads;
use map_roads::{Status, Which, car_ground, prepare_opening};
use prep_store::{PrepFault, read_prep, write_prep};
use std::alloc::Global;
use std::thread::Threads;
use traffic_core::Ground;

/// Writes the store of a preparation of the ground at the opening limits, with at most `count` landmarks.
pub(crate) fn write_store<R: Threads + Sync, K: Sink>(
    rt: &R,
    alloc: Global,
    ground: &Ground,
    count: u32,
    out: &mut K,
) -> Status
    requires there { 0 < length ground.now.profiles }
    requires some { 1 ≤ count }
    requires few { count ≤ 16 }
    ensures statuses { IsOfPreparing result }
    ensures none { result ≡ Status.NoLandmark → IsNoPrepAt ground.now [] 0 }
    ensures done { result ≡ Status.Done → Writes (λ text. IsStoreAt count text ground.now)
        (K.held out.old) (K.held out.new) }
    ensures front { result ≡ Status.WriteFault →
        StoresFront count (K.held out.old) (K.held out.new) ground.now }
    ensures part { result ≡ Status.NoMemory →
        StoresFront count (K.held out.old) (K.held out.new) ground.now
        ⊎ Keeps (K.held out.old) (K.held out.new) }
    ensures nothing { IsUnwritten result → Keeps (K.held out.old) (K.held out.new) }
    ensures cause { result ≡ Status.WriteFault → Rose (K.faults out.old) (K.faults out.new) }
{
    match prepare_opening(rt, alloc, ground, count) {
        Ok(Made::Prep(prep)) => match write_prep(alloc, ground, &prep, out) {
            Ok(()) => Status::Done,
            Err(GiveFault::WriteFault) => Status::WriteFault,
            Err(GiveFault::NoMemory) => Status::NoMemory,
        },
        Ok(Made::NoLandmark) => Status::NoLandmark,
        Err(NoMemory) => Status::NoMemory,
    }
}

/// What is told of a preparation that was read.
fn checked_line(alloc: Global, prep: &Prep) -> Result<Text, NoMemory>
    ensures { IfOk result (λ text. text ≡ checked_text prep.now) }
{
    let mut text = Text::new(alloc);
    text.push("prep ")?;
    text.push_number(u128::from(prep.landmark_count()))?;
    text.push(" grain ")?;
    text.push_number(u128::from(prep.grain()))?;
    text.push("\n")?;
    Ok(text)
}

/// Tells of a preparation.
fn tell<K: Sink>(alloc: Global, prep: &Prep, out: &mut K) -> Result<(), GiveFault>
    ensures ok { OnOk result (Appends (K.held out.old) (K.held out.new) (checked_text prep.now)) }
    ensures front { IsErrOf result GiveFault.WriteFault →
        AppendsFront (K.held out.old) (K.held out.new) (checked_text prep.now) }
    ensures kept { IsErrOf result GiveFault.NoMemory → Keeps (K.held out.old) (K.held out.new) }
    ensures fault { IsErrOf result GiveFault.WriteFault → Rose (K.faults out.old) (K.faults out.new) }
{
    let line = checked_line(alloc, prep)?;
    give_all(out, line.as_bytes())?;
    Ok(())
}

const fn status_of_store(fault: PrepFault) -> Status
    ensures { result ≡ status_of_store fault }
{
    match fault {
        PrepFault::ReadFault => Status::ReadFault(Which::Script),
        PrepFault::NoMemory => Status::NoMemory,
        fault => Status::BadPrep(fault),
    }
}

/// Reads a store of a preparation of the ground.
fn read_store<I: Source>(alloc: Global, ground: &Ground, store: &mut I) -> Result<Prep, Status>
    ensures stored { IfOk result (λ prep. IfSome (I.left store.old) (IsStored ground.now prep)) }
    ensures says { IfErr result (λ status. IfSome (I.left store.old) (StoreSaysOf status ground.now)) }
    ensures early { IfErr result IsOfStore }
    ensures read { IsErrOf result (Status.ReadFault Which.Script) →
        Rose (I.faults store.old) (I.faults store.new) }
{
    match read_prep(alloc, ground, store) {
        Ok(prep) => Ok(prep),
        Err(fault) => Err(status_of_store(fault)),
    }
}

/// Reads a store of a preparation of the roads for cars, and tells of it.
pub(crate) fn check_store<I: Source, K: Sink>(
    alloc: Global,
    roads: Roads,
    store: &mut I,
    out: &mut K,
) -> Status
    requires lengths { AreAsLong roads.graph.lists }
    requires ids { length roads.ids ≡ length roads.graph.lists.places }
    requires distinct { IsDistinct int_eq roads.ids }
    ensures statuses { IsOfChecking result }
    ensures says { IfSome (I.left store.old) (StoreSaysOf result (car_land roads)) }
    ensures done { result ≡ Status.Done → IfSome (I.left store.old) (λ bytes.
        Writes (λ text. IsChecked bytes text (car_land roads))
        (K.held out.old) (K.held out.new)) }
    ensures front { result ≡ Status.WriteFault → IfSome (I.left store.old) (λ bytes.
        WritesFront (λ text. IsChecked bytes text (car_land roads))
        (K.held out.old) (K.held out.new)) }
    ensures part { result ≡ Status.NoMemory → Keeps (K.held out.old) (K.held out.new) }
    ensures nothing { IsUnwritten result → Keeps (K.held out.old) (K.held out.new) }
    ensures read { result ≡ Status.ReadFault Which.Script →
        Rose (I.faults store.old) (I.faults store.new) }
    ensures cause { result ≡ Status.WriteFault → Rose (K.faults out.old) (K.faults out.new) }
{
    let Ok(ground) = car_ground(alloc, roads) else {
        return Status::NoMemory;
    };
    let prep = match read_store(alloc, &ground, store) {
        Ok(prep) => prep,
        Err(status) => return status,
    };
    match tell(alloc, &prep, out) {
        Ok(()) => Status::Done,
        Err(GiveFault::WriteFault) => Status::WriteFault,
        Err(GiveFault::NoMemory) => Status::NoMemory,
    }
}

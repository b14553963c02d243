//! The service.
ghost use Rattle.std.specs.Prelude.{◌≡◌, ◌<◌, ◌≤◌, ◌++◌, ℕ, List, [], All, IfOk, OnOk, IsErrOf, length, map};
ghost use Rattle.std.specs.Io.KnownBytes.{Appends};
ghost use Rattle.gh_base.specs.Causes.{Rose, AppendsFront};
ghost use Rattle.script_text.specs.declared.script.Line.{Line};
ghost use Rattle.script_text.specs.Scripts.{IsScript};
ghost use Rattle.script_service.specs.Writing.{BeginsText, Fits, BeginsOrFits, lines_text};
ghost use Rattle.script_service.specs.Actors.{Know, heard_in, parts_in};
ghost use Rattle.script_service.specs.Underway.{AreReady, HasServed, IsCutOff, phase_of};

use crate::actor::{Actor, Heard};
use crate::journal::journal_text;
use crate::memory::Memory;
use crate::threads::run_phase;
use gh_base::{Gate, GiveFault, NoMemory, Sink, Text, give_all};
use script_text::{Line, Names, Script, put_reply};
use std::alloc::Global;
use std::marker::Brand;
use std::thread::Threads;
use traffic_core::Ground;
use traffic_share::{Log, Naming, Seat};

/// Puts what an actor was told in a phase behind a text.
fn put_part(
    alloc: Global,
    out: &mut Text,
    names: &Names,
    phase: &[Line],
    part: &[Heard],
) -> Result<(), NoMemory>
    requires there { All (λ heard. heard.place < length phase.now) part.now }
    requires named { All (λ line. line.actor < length names.now) phase.now }
    ensures { OnOk result (out.new ≡ out.old ++ lines_text names.now (map (heard_in phase.now) part.now)) }
{
    for heard in part {
        let line = &phase[heard.place];
        let name = names.get(line.actor as usize);
        let told = &heard.told;
        put_reply(alloc, out, name.as_str(), line.number, told.at, &told.reply)?;
    }
    Ok(())
}

/// What actors were told in a phase, one behind another.
fn parts_text<J: Naming>(
    alloc: Global,
    names: &Names,
    phase: &[Line],
    actors: &[Actor<'_, '_, J>],
) -> Result<Text, NoMemory>
    requires there { All (λ a. All (λ heard. heard.place < length phase.now) a.part) actors.now }
    requires named { All (λ line. line.actor < length names.now) phase.now }
    ensures { IfOk result (λ text. text ≡ lines_text names.now (parts_in phase.now actors.now)) }
{
    let mut text = Text::new(alloc);
    for actor in actors {
        put_part(alloc, &mut text, names, phase, actor.part())?;
    }
    Ok(text)
}

/// The text of a phase: what its actors were told, actor by actor.
fn phase_text<J: Naming>(
    alloc: Global,
    script: &Script,
    place: usize,
    actors: &[Actor<'_, '_, J>],
) -> Result<Text, NoMemory>
    requires script { IsScript J.land.profiles script.now }
    requires there { place < length script.now.phases }
    requires heard { All (λ a. All (λ heard. heard.place < length (phase_of script.now place)) a.part) actors.now }
    ensures { IfOk result (λ text. text ≡ lines_text script.now.actors (parts_in (phase_of script.now place) actors.now)) }
{
    let phase = script.phases.get(place).as_slice();
    parts_text(alloc, &script.actors, phase, actors)
}

/// Runs a script, phase by phase, and writes the replies of each as it ends.
fn serve_phases<'l, 'g, J: Naming, R: Threads + Sync, K: Sink, G: Gate>(
    rt: &R,
    alloc: Global,
    service: &mut Seat<'l, 'g, J>,
    actors: &mut [Actor<'l, 'g, J>],
    script: &Script,
    out: &mut K,
    gate: &G,
) -> Result<(), GiveFault>
    requires script { IsScript J.land.profiles script.now }
    requires ready { AreReady script.now 0 service.old actors.old }
    requires nothing { service.old.entries ≡ [] }
    requires none { Know J.land [] [] actors.old }
    ensures done { OnOk result (HasServed J.land script.now service.new.entries (length script.now.phases) (K.held out.old) (K.held out.new)) }
    ensures front { IsErrOf result GiveFault.WriteFault →
        IsCutOff J.land script.now (K.held out.old) (K.held out.new) (K.faults out.old) (K.faults out.new) }
    ensures part { IsErrOf result GiveFault.NoMemory →
        (text : List ℕ) × BeginsText J.land script.now text × Appends (K.held out.old) (K.held out.new) text }
    ensures later { OnOk result (K.faults out.old ≤ K.faults out.new) }
{
    for place in 0..script.phases.len() {
        run_phase(rt, alloc, service, actors, script, place, gate)?;
        let text = phase_text(alloc, script, place, actors)?;
        give_all(out, text.as_bytes())?;
    }
    Ok(())
}

/// An actor for each name, with a seat at the log.
pub(crate) fn seat_actors<'l, 'g, J: Naming>(
    alloc: Global,
    log: &'l Log<J>,
    ground: &'g Ground,
    service: &Seat<'l, 'g, J>,
    script: &Script,
) -> Result<Vec<Actor<'l, 'g, J>>, NoMemory>
    requires land { ground.now ≡ J.land }
    requires script { IsScript J.land.profiles script.now }
    requires capacity { length log.now ≡ script.now.capacity }
    requires cells { service.now.cells ≡ log.now }
    requires nothing { service.now.entries ≡ [] }
    ensures ready { IfOk result (λ seats. AreReady script.now 0 service.now seats.items) }
    ensures none { IfOk result (λ seats. Know J.land [] [] seats.items) }
{
    let names = script.actors.len() as u32;
    let mut seats = Vec::new(alloc);
    for actor in 0..names {
        let seat = Seat::new(alloc, log, ground, actor)?;
        let memory = Memory::new(alloc, ground)?;
        seats.push(Actor::new(alloc, seat, memory))?;
    }
    Ok(seats)
}

/// Answers a script with seats at an empty log.
fn serve_at<'l, 'g, J: Naming, R: Threads + Sync, K: Sink, G: Gate>(
    rt: &R,
    alloc: Global,
    log: &'l Log<J>,
    ground: &'g Ground,
    script: &Script,
    out: &mut K,
    gate: &G,
) -> Result<(), GiveFault>
    requires name { ground.now ≡ J.land }
    requires script { IsScript J.land.profiles script.now }
    requires capacity { length log.now ≡ script.now.capacity }
    ensures done { OnOk result ((text : List ℕ) × Fits J.land script.now text × Appends (K.held out.old) (K.held out.new) text) }
    ensures front { IsErrOf result GiveFault.WriteFault →
        IsCutOff J.land script.now (K.held out.old) (K.held out.new) (K.faults out.old) (K.faults out.new) }
    ensures part { IsErrOf result GiveFault.NoMemory →
        (text : List ℕ) × BeginsText J.land script.now text × Appends (K.held out.old) (K.held out.new) text }
{
    let names = script.actors.len() as u32;
    let mut service = Seat::new(alloc, log, ground, names)?;
    let mut actors = seat_actors(alloc, log, ground, &service, script)?;
    serve_phases(rt, alloc, &mut service, &mut actors, script, out, gate)?;
    let journal = journal_text(alloc, &script.actors, ground.profiles(), &service)?;
    give_all(out, journal.as_bytes())?;
    Ok(())
}

/// Answers a script over the roads that its log is named for.
fn serve_over<J: Naming, R: Threads + Sync, K: Sink, G: Gate>(
    rt: &R,
    alloc: Global,
    ground: &Ground,
    script: &Script,
    out: &mut K,
    gate: &G,
) -> Result<(), GiveFault>
    requires name { ground.now ≡ J.land }
    requires script { IsScript J.land.profiles script.now }
    ensures done { OnOk result ((text : List ℕ) × Fits J.land script.now text × Appends (K.held out.old) (K.held out.new) text) }
    ensures front { IsErrOf result GiveFault.WriteFault →
        IsCutOff J.land script.now (K.held out.old) (K.held out.new) (K.faults out.old) (K.faults out.new) }
    ensures part { IsErrOf result GiveFault.NoMemory →
        (text : List ℕ) × BeginsText J.land script.now text × Appends (K.held out.old) (K.held out.new) text }
{
    let log = Log::<J>::new(alloc, script.capacity)?;
    serve_at(rt, alloc, &log, ground, script, out, gate)
}

/// Answers a script over roads: writes the replies phase by phase, and then the journal. The actors of a phase run in threads.
pub fn serve_script<R: Threads + Sync, K: Sink, G: Gate>(
    rt: &R,
    alloc: Global,
    ground: &Ground,
    script: &Script,
    out: &mut K,
    gate: &G,
) -> Result<(), GiveFault>
    requires { IsScript ground.now.profiles script.now }
    // What is written fits the script.
    ensures done { OnOk result ((text : List ℕ) × Fits ground.now script.now text × Appends (K.held out.old) (K.held out.new) text) }
    // After a failed write a front of such a text, or of one that answers the phases so far.
    ensures front { IsErrOf result GiveFault.WriteFault →
        (text : List ℕ) × BeginsOrFits ground.now script.now text × AppendsFront (K.held out.old) (K.held out.new) text }
    // After want of memory whole phases.
    ensures part { IsErrOf result GiveFault.NoMemory →
        (text : List ℕ) × BeginsText ground.now script.now text × Appends (K.held out.old) (K.held out.new) text }
    ensures cause { IsErrOf result GiveFault.WriteFault → Rose (K.faults out.old) (K.faults out.new) }
{
    serve_over::<Brand, R, K, G>(rt, alloc, ground, script, out, gate)
}

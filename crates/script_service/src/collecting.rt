//! A script answered, with its replies kept rather than written.
ghost use Rattle.std.specs.Prelude.{◌≡◌, ◌+◌, ◌++◌, [], IfOk, OnOk, length, map};
ghost use Rattle.std.specs.List.{flat_map};
ghost use Rattle.script_text.specs.Scripts.{IsScript};
ghost use Rattle.script_service.specs.declared.actor.Heard.{Heard};
ghost use Rattle.script_service.specs.Actors.{Acting, Know};
ghost use Rattle.script_service.specs.Collecting.{AreAnswers, HasCollected, HasHanded, heard_by};
ghost use Rattle.script_service.specs.Underway.{AreReady};

use crate::actor::{Actor, Heard};
use crate::serving::seat_actors;
use crate::threads::run_phase;
use gh_base::{Gate, NoMemory};
use script_text::Script;
use std::alloc::Global;
use std::marker::Brand;
use std::thread::Threads;
use traffic_core::Ground;
use traffic_share::{Log, Naming, Seat};

/// What the actors of a script were told, phase by phase, of a phase actor by actor, and how many entries the journal
/// has then.
#[derive(Debug, Drop)]
pub struct Answers {
    pub heard: Vec<Heard>,
    pub entries: u32,
}

/// Moves what actors were told in a phase behind what was told before.
fn hand_over<J: Naming>(
    actors: &mut [Actor<'_, '_, J>],
    heard: &mut Vec<Heard>,
) -> Result<(), NoMemory>
    ensures actors { OnOk result (HasHanded actors.old actors.new) }
    ensures heard { OnOk result (heard.new.items ≡ heard.old.items ++ heard_by actors.old) }
{
    for place in 0..actors.len() {
        actors[place].hand_over(heard)?;
    }
    Ok(())
}

/// Answers a script, phase by phase.
fn collect_phases<'l, 'g, J: Naming, R: Threads + Sync, G: Gate>(
    rt: &R,
    alloc: Global,
    service: &mut Seat<'l, 'g, J>,
    actors: &mut [Actor<'l, 'g, J>],
    script: &Script,
    gate: &G,
) -> Result<Vec<Heard>, NoMemory>
    requires script { IsScript J.land.profiles script.now }
    requires ready { AreReady script.now 0 service.old actors.old }
    requires nothing { service.old.entries ≡ [] }
    requires none { Know J.land [] [] actors.old }
    ensures { IfOk result (λ heard. HasCollected J.land script.now service.new.entries actors.new (length script.now.phases) heard.items) }
{
    let mut heard = Vec::new(alloc);
    for place in 0..script.phases.len() {
        run_phase(rt, alloc, service, actors, script, place, gate)?;
        hand_over(actors, &mut heard)?;
    }
    Ok(heard)
}

/// Answers a script with seats at an empty log.
fn answer_at<'l, 'g, J: Naming, R: Threads + Sync, G: Gate>(
    rt: &R,
    alloc: Global,
    log: &'l Log<J>,
    ground: &'g Ground,
    script: &Script,
    gate: &G,
) -> Result<Answers, NoMemory>
    requires name { ground.now ≡ J.land }
    requires script { IsScript J.land.profiles script.now }
    requires capacity { length log.now ≡ script.now.capacity }
    ensures { IfOk result (AreAnswers J.land script.now) }
{
    let names = script.actors.len() as u32;
    let mut service = Seat::new(alloc, log, ground, names)?;
    let mut actors = seat_actors(alloc, log, ground, &service, script)?;
    let heard = collect_phases(rt, alloc, &mut service, &mut actors, script, gate)?;
    let entries = service.len();
    Ok(Answers { heard, entries })
}

/// Answers a script over the roads that its log is named for.
fn answer_over<J: Naming, R: Threads + Sync, G: Gate>(
    rt: &R,
    alloc: Global,
    ground: &Ground,
    script: &Script,
    gate: &G,
) -> Result<Answers, NoMemory>
    requires name { ground.now ≡ J.land }
    requires script { IsScript J.land.profiles script.now }
    ensures { IfOk result (AreAnswers J.land script.now) }
{
    let log = Log::<J>::new(alloc, script.capacity)?;
    answer_at(rt, alloc, &log, ground, script, gate)
}

/// Answers a script over roads, and keeps the replies: they fit the script with a journal of as many entries. The actors
/// of a phase run in threads.
pub fn answer_script<R: Threads + Sync, G: Gate>(
    rt: &R,
    alloc: Global,
    ground: &Ground,
    script: &Script,
    gate: &G,
) -> Result<Answers, NoMemory>
    requires { IsScript ground.now.profiles script.now }
    ensures { IfOk result (AreAnswers ground.now script.now) }
{
    answer_over::<Brand, R, G>(rt, alloc, ground, script, gate)
}

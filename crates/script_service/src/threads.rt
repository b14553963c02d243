//! The actors of a phase at once.
ghost use Rattle.std.specs.Prelude.{◌≡◌, ◌<◌, ℕ, IfOk, All, IsTrue, false, length, slice_index_or};
ghost use Rattle.script_text.specs.Scripts.{IsScript};
ghost use Rattle.traffic_share.specs.Seats.{HasSameSeat, StartsWith};
ghost use Rattle.script_service.specs.Actors.{Acting, Awaits, CanBeAsked, HasRun, IsTaught, accepted_by};
ghost use Rattle.script_service.specs.Underway.{AreReady, HasPhase};

use crate::actor::Actor;
use crate::crossing::{ground_is_shared, session_is_sent};
use gh_base::{Gate, NoMemory};
use script_text::{Line, Script};
use std::alloc::Global;
use std::thread;
use std::thread::Threads;
use traffic_share::{Naming, Seat};

/// Runs each actor in a thread of its own.
fn run_all<J: Naming, R: Threads + Sync, G: Gate>(
    rt: &R,
    alloc: Global,
    actors: &mut [Actor<'_, '_, J>],
    phase: &[Line],
    gate: &G,
    names: u32,
)
    requires awaits { All (Awaits phase.now) actors.old }
    requires asked { CanBeAsked (length J.land.profiles) names phase.now }
    ensures len { length actors.new ≡ length actors.old }
    ensures run { (i : ℕ) (d : Acting) → i < length actors.old → HasRun J.land phase.now (slice_index_or actors.old i d) (slice_index_or actors.new i d) }
{
    ground_is_shared();
    session_is_sent();
    let count = actors.len().max(1);
    thread::for_each_mut(
        rt,
        actors,
        count,
        &|_, actor: &mut Actor<'_, '_, J>|
            requires { Awaits phase.now actor.now × CanBeAsked (length J.land.profiles) names phase.now }
        { actor.run(rt, alloc, phase, gate, names) },
    );
}

/// The service learns from all seats.
fn collect<'l, 'g, J: Naming>(service: &mut Seat<'l, 'g, J>, actors: &mut [Actor<'l, 'g, J>])
    requires { (i : ℕ) (d : Acting) → i < length actors.old → (slice_index_or actors.old i d).seat.cells ≡ service.old.cells }
    ensures actors { actors.new ≡ actors.old }
    ensures same { HasSameSeat service.old service.new }
    ensures longer { StartsWith service.new.entries service.old.entries }
    ensures each { (i : ℕ) (d : Acting) → i < length actors.old → StartsWith service.new.entries (slice_index_or actors.old i d).seat.entries }
{
    for place in 0..actors.len() {
        actors[place].teach(service);
    }
}

/// All seats learn from the service.
fn share<'l, 'g, J: Naming>(service: &mut Seat<'l, 'g, J>, actors: &mut [Actor<'l, 'g, J>])
    requires { (i : ℕ) (d : Acting) → i < length actors.old → ((slice_index_or actors.old i d).seat.cells ≡ service.old.cells) × StartsWith service.old.entries (slice_index_or actors.old i d).seat.entries }
    ensures service { service.new ≡ service.old }
    ensures len { length actors.new ≡ length actors.old }
    ensures each { (i : ℕ) (d : Acting) → i < length actors.old → IsTaught service.old (slice_index_or actors.old i d) (slice_index_or actors.new i d) }
{
    for place in 0..actors.len() {
        actors[place].learn(service);
    }
}

/// Whether no actor stopped, and their accepted replies together are so many.
fn have_accepted<J: Naming>(actors: &[Actor<'_, '_, J>], count: u32) -> bool
    ensures done { IsTrue result → All (λ a. a.failed ≡ false) actors.now }
    ensures count { IsTrue result → accepted_by actors.now ≡ count }
{
    let mut left = count as usize;
    for actor in actors {
        let Some(less) = left.checked_sub(actor.accepted()) else {
            return false;
        };
        if actor.has_failed() {
            return false;
        }
        left = less;
    }
    left == 0
}

/// The service learns from all seats, and then they from it.
fn gather<'l, 'g, J: Naming>(service: &mut Seat<'l, 'g, J>, actors: &mut [Actor<'l, 'g, J>])
    requires cells { (i : ℕ) (d : Acting) → i < length actors.old → (slice_index_or actors.old i d).seat.cells ≡ service.old.cells }
    ensures same { HasSameSeat service.old service.new }
    ensures longer { StartsWith service.new.entries service.old.entries }
    ensures len { length actors.new ≡ length actors.old }
    ensures each { (i : ℕ) (d : Acting) → i < length actors.old → IsTaught service.new (slice_index_or actors.old i d) (slice_index_or actors.new i d) }
{
    collect(service, actors);
    share(service, actors);
}

/// The phase of a number: all actors run at once, and then all know all that was done. Want of memory where an entry is
/// no reply's.
pub(crate) fn run_phase<'l, 'g, J: Naming, R: Threads + Sync, G: Gate>(
    rt: &R,
    alloc: Global,
    service: &mut Seat<'l, 'g, J>,
    actors: &mut [Actor<'l, 'g, J>],
    script: &Script,
    place: usize,
    gate: &G,
) -> Result<(), NoMemory>
    requires script { IsScript J.land.profiles script.now }
    requires there { place < length script.now.phases }
    requires ready { AreReady script.now place service.old actors.old }
    ensures { IfOk result (λ _. HasPhase J.land script.now place service.old service.new actors.old actors.new) }
{
    let names = script.actors.len() as u32;
    let phase = script.phases.get(place).as_slice();
    let before = service.len();
    run_all(rt, alloc, actors, phase, gate, names);
    gather(service, actors);
    service.list_fits();
    let fresh = service.len() - before;
    if !have_accepted(actors, fresh) {
        return Err(NoMemory);
    }
    Ok(())
}

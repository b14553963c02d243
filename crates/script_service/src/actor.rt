//! An actor: its seat, what it knows, and what it was told in a phase.
ghost use Rattle.std.specs.Prelude.{◌≡◌, ◌++◌, [], length, IfOk, OnOk, All, ◌<◌};
ghost use Rattle.script_text.specs.Scripts.{IsCommand};
ghost use Rattle.script_service.specs.Answering.{is_accepted};
ghost use Rattle.traffic_share.specs.Seats.{HasSameSeat, StartsWith};
ghost use Rattle.script_service.specs.Collecting.{HasHandedOver};
ghost use Rattle.script_service.specs.Actors.{Awaits, CanBeAsked, HasPassed, HasRun, HasRunFirst, IsStill, IsTaught, accepted_of, line_at};

use crate::answering::answer;
use crate::memory::Memory;
use crate::told::Told;
use gh_base::{Gate, NoMemory};
use script_text::{Line, Reply};
use std::alloc::Global;
use std::marker::Model;
use std::thread::Threads;
use traffic_share::{Naming, Seat};

/// What was told of the line of a phase at a place.
#[derive(Debug, Drop)]
pub struct Heard {
    pub place: usize,
    pub told: Told,
}

/// An actor of a script. Where its memory runs out in a phase, it says so.
#[derive(Drop)]
pub struct Actor<'l, 'g, J: Naming> {
    seat: Seat<'l, 'g, J>,
    memory: Memory<J>,
    part: Vec<Heard>,
    failed: bool,
}

impl<'l, 'g, J: Naming> Model for Actor<'l, 'g, J> {
    ghost use Rattle.model_eval.specs.contracts.conditions.Test as e;
    ghost use Rattle.std.specs.Coded.{codes};
    ghost use Rattle.script_service.specs.Actors.{Acting};

    ghost Value = { Acting };

    ghost coded = { Prim.hlevel (codes, e.the_row.coded) };

    ghost view = { λ a. record { seat = a.seat; knows = a.memory; part = a.part.items; failed = a.failed } };
}

/// Whether a reply tells of an entry of its own.
fn is_accepted(reply: &Reply) -> bool
    ensures { result ≡ is_accepted reply.now }
{
    matches!(reply, Reply::Lowered | Reply::Restored | Reply::Published)
}

impl<'l, 'g, J: Naming> Actor<'l, 'g, J> {
    pub fn new(alloc: Global, seat: Seat<'l, 'g, J>, memory: Memory<J>) -> Actor<'l, 'g, J>
        ensures seat { result.seat ≡ seat.entry }
        ensures knows { result.knows ≡ memory }
    {
        Actor {
            seat,
            memory,
            part: Vec::new(alloc),
            failed: false,
        }
    }

    pub fn has_failed(&self) -> bool
        ensures { result ≡ self.now.failed }
    {
        self.failed
    }

    /// What it was told in this phase, in order.
    pub fn part(&self) -> &[Heard]
        ensures { result.now ≡ self.now.part }
    {
        &self.part
    }

    /// Moves what it was told in this phase behind what was told before. After `NoMemory` both are as before.
    pub fn hand_over(&mut self, heard: &mut Vec<Heard>) -> Result<(), NoMemory>
        ensures same { HasHandedOver self.old self.new }
        ensures heard { OnOk result (heard.new.items ≡ heard.old.items ++ self.old.part) }
    {
        heard.append(&mut self.part)?;
        Ok(())
    }

    /// How many replies of this phase tell of an entry of its own.
    pub fn accepted(&self) -> usize
        ensures { result ≡ accepted_of self.now.part }
    {
        self.part
            .iter()
            .filter(|heard| is_accepted(&heard.told.reply))
            .count()
    }

    /// Tells another seat what this one's list has.
    pub fn teach(&mut self, service: &mut Seat<'l, 'g, J>)
        requires { self.old.seat.cells ≡ service.old.cells }
        ensures same { self.new ≡ self.old }
        ensures seat { HasSameSeat service.old service.new }
        ensures longer { StartsWith service.new.entries service.old.entries }
        ensures theirs { StartsWith service.new.entries self.old.seat.entries }
    {
        service.learn(&mut self.seat);
    }

    /// Takes what another list has.
    #[tactic(auto, using(crate::proofs::LongerLists::longer_is))]
    pub fn learn(&mut self, service: &mut Seat<'l, 'g, J>)
        requires cells { self.old.seat.cells ≡ service.old.cells }
        requires begins { StartsWith service.old.entries self.old.seat.entries }
        ensures service { service.new ≡ service.old }
        ensures taught { IsTaught service.old self.old self.new }
    {
        self.seat.learn(service);
    }

    /// Runs its commands of a phase in order. It stops where memory runs out.
    pub fn run<R: Threads + Sync, G: Gate>(
        &mut self,
        rt: &R,
        alloc: Global,
        phase: &[Line],
        gate: &G,
        actors: u32,
    )
        requires awaits { Awaits phase.now self.old }
        requires asked { CanBeAsked (length J.land.profiles) actors phase.now }
        ensures { HasRun J.land phase.now self.old self.new }
    {
        self.part.clear();
        self.failed = self.answer_all(rt, alloc, phase, gate, actors).is_err();
    }

    /// Answers its commands of a phase, behind nothing.
    fn answer_all<R: Threads + Sync, G: Gate>(
        &mut self,
        rt: &R,
        alloc: Global,
        phase: &[Line],
        gate: &G,
        actors: u32,
    ) -> Result<(), NoMemory>
        requires empty { self.old.part ≡ [] }
        requires awaits { Awaits phase.now self.old }
        requires asked { CanBeAsked (length J.land.profiles) actors phase.now }
        ensures still { IsStill phase.now self.old self.new }
        ensures whole { IfOk result (λ _. HasRunFirst J.land phase.now (length phase.now) self.old self.new) }
    {
        for place in 0..phase.len() {
            self.pass(rt, alloc, phase, place, gate)?;
        }
        Ok(())
    }

    /// Answers the line at a place of a phase, if it is its own.
    fn pass<R: Threads + Sync, G: Gate>(
        &mut self,
        rt: &R,
        alloc: Global,
        phase: &[Line],
        place: usize,
        gate: &G,
    ) -> Result<(), NoMemory>
        requires there { place < length phase.now }
        requires heard { All (λ heard. heard.place < length phase.now) self.old.part }
        requires more { (line_at phase.now place).actor ≡ self.old.seat.actor → self.old.seat.last < (line_at phase.now place).number }
        requires asked { IsCommand (length J.land.profiles) (line_at phase.now place).command }
        ensures still { IsStill phase.now self.old self.new }
        ensures passed { IfOk result (λ _. HasPassed J.land phase.now place self.old self.new) }
    {
        let line = &phase[place];
        if line.actor != self.seat.actor() {
            return Ok(());
        }
        gate.before(line.actor, line.number);
        self.seat.catch_up();
        let told = answer(rt, alloc, &mut self.seat, &mut self.memory, line)?;
        gate.after(line.actor, line.number);
        self.part.push(Heard { place, told })?;
        Ok(())
    }
}

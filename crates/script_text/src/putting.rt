//! What a line says, put behind what stood before it.
ghost use Rattle.std.specs.Prelude.{◌≡◌, ◌≢◌, ◌≤◌, ◌<◌, ◌+◌, ◌++◌, ◌∷◌, [], ℕ, length, slice_index, OnOk};
ghost use Rattle.script_text.specs.Lines as spec;
ghost use Rattle.script_text.specs.Scripts.{is_change};
ghost use Rattle.script_text.specs.States.{IsSoFar, IsTally, IsSaid, Counts};

use crate::line::Said;
use crate::script::{Command, Line, Phase};
use crate::so_far::{SoFar, Tally};
use gh_base::{NoMemory, Text};
use std::alloc::Global;
use weighting::Profile;

fn changes_limits(command: &Command) -> bool
    ensures { result ≡ is_change command.now }
{
    match command {
        Command::Lower { .. } => true,
        Command::Restore { .. } => true,
        Command::Publish { .. } => true,
        Command::Model { .. } => false,
        Command::Route { .. } => false,
        Command::Prepare { .. } => false,
    }
}

/// Counts a command, and gives its number among those of its actor.
fn count(tally: &mut Tally, actor: u32, change: bool) -> u32
    requires actor { actor < 16 }
    requires commands { tally.old.commands < 65536 }
    requires changes { tally.old.changes < 65536 }
    requires own { slice_index tally.old.numbers actor < 65536 }
    ensures number { result ≡ slice_index tally.old.numbers actor + 1 }
    ensures counts { Counts tally.old tally.new actor change }
{
    let number = tally.numbers[actor as usize] + 1;
    tally.numbers[actor as usize] = number;
    tally.commands += 1;
    if change {
        tally.changes += 1;
    }
    number
}

#[tactic(auto, using(crate::proofs::Growing::one_more_profile))]
fn put_profile(so_far: &mut SoFar, profile: Profile) -> Result<(), NoMemory>
    requires sound { IsSoFar so_far.old }
    requires said { IsSaid so_far.old (Said.Profile profile) }
    ensures said { OnOk result (so_far.new ≡ spec.with_said so_far.old (Said.Profile profile)) }
    ensures sound { OnOk result (IsSoFar so_far.new) }
{
    so_far.profiles.push(profile)
}

#[tactic(auto, using(crate::proofs::Growing::one_more_actor))]
fn put_actor(so_far: &mut SoFar, name: Text) -> Result<(), NoMemory>
    requires sound { IsSoFar so_far.old }
    requires said { IsSaid so_far.old (Said.Actor name) }
    ensures said { OnOk result (so_far.new ≡ spec.with_said so_far.old (Said.Actor name)) }
    ensures sound { OnOk result (IsSoFar so_far.new) }
{
    so_far.actors.push(name)
}

#[tactic(auto, using(crate::proofs::Growing::one_more_phase))]
fn end_phase(alloc: Global, so_far: &mut SoFar) -> Result<(), NoMemory>
    requires sound { IsSoFar so_far.old }
    ensures said { OnOk result (so_far.new ≡ spec.with_said so_far.old Said.Sync) }
    ensures sound { OnOk result (IsSoFar so_far.new) }
{
    let phase = std::mem::replace(&mut so_far.phase, Phase::new(alloc));
    so_far.done.push(phase)
}

#[tactic(auto, using(crate::proofs::Growing::one_more_command, crate::proofs::Growing::command_counts, crate::proofs::Growing::turns_are_few, crate::proofs::Growing::changes_are_few))]
fn put_command(
    so_far: &mut SoFar,
    tally: &mut Tally,
    actor: u32,
    command: Command,
) -> Result<(), NoMemory>
    requires sound { IsSoFar so_far.old }
    requires counted { IsTally so_far.old tally.old }
    requires said { IsSaid so_far.old (Said.Command actor command) }
    ensures said { OnOk result (so_far.new ≡ spec.with_said so_far.old (Said.Command actor command)) }
    ensures sound { OnOk result (IsSoFar so_far.new) }
    ensures counted { OnOk result (IsTally so_far.new tally.new) }
{
    let number = count(tally, actor, changes_limits(&command));
    so_far.phase.push(Line {
        actor,
        number,
        command,
    })
}

/// Puts what a line says behind what stood before it.
pub(crate) fn put(
    alloc: Global,
    so_far: &mut SoFar,
    tally: &mut Tally,
    said: Said,
) -> Result<(), NoMemory>
    requires sound { IsSoFar so_far.old }
    requires counted { IsTally so_far.old tally.old }
    requires said { IsSaid so_far.old said }
    ensures said { OnOk result (so_far.new ≡ spec.with_said so_far.old said) }
    ensures sound { OnOk result (IsSoFar so_far.new) }
    ensures counted { OnOk result (IsTally so_far.new tally.new) }
{
    match said {
        Said::Nothing => Ok(()),
        Said::Profile(profile) => put_profile(so_far, profile),
        Said::Journal(entries) => {
            so_far.journal = Some(entries);
            Ok(())
        }
        Said::Actor(name) => put_actor(so_far, name),
        Said::Sync => end_phase(alloc, so_far),
        Said::Command { actor, command } => put_command(so_far, tally, actor, command),
    }
}

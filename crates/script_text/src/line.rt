//! What a line says behind those before it.
ghost use Rattle.std.specs.Prelude.{◌≡◌, ◌≤◌, ◌<◌, ◌^◌, ◌||◌, length, IfOk, OnOk, OnErr, [], Ok, ℕ};
ghost use Rattle.script_text.specs.LineReading.{Reads};
ghost use Rattle.script_text.specs.Lines as spec;
ghost use Rattle.script_text.specs.States.{IsSoFar, IsSaid};

use crate::commands::command;
use crate::fault::LineFault;
use crate::headers::{actor_line, actor_place, journal_line, profile_line};
use crate::line_words::LineWords;
use crate::names::is_name;
use crate::script::Command;
use crate::so_far::SoFar;
use gh_base::{ScriptKind, Text, valid_text};
use std::alloc::Global;
use weighting::Profile;

/// The most profiles of a script.
const MOST_PROFILES: usize = 8;

/// The most actors of a script.
const MOST_ACTORS: usize = 16;

/// The most commands of a script.
const MOST_COMMANDS: u32 = 65536;

/// What the first word of a line begins.
#[derive(Clone, Copy, Debug, PartialEq, Eq)]
pub(crate) enum Lead {
    Profile,
    Journal,
    Actor,
    Sync,
    Name,
}

/// What a line says. A line that is skipped says nothing.
#[derive(Debug, Drop)]
pub enum Said {
    Nothing,
    Profile(Profile),
    Journal(u32),
    Actor(Text),
    Sync,
    Command { actor: u32, command: Command },
}

fn lead_of(word: &str) -> Lead
    ensures { result ≡ spec.lead_of word.now }
{
    match word {
        "profile" => Lead::Profile,
        "journal" => Lead::Journal,
        "actor" => Lead::Actor,
        "sync" => Lead::Sync,
        _ => Lead::Name,
    }
}

fn has_begun(so_far: &SoFar) -> bool
    ensures value { result ≡ spec.has_begun so_far.now }
{
    !so_far.done.is_empty() || !so_far.phase.is_empty()
}

/// Refuses a header line behind a command or a `sync`.
fn in_header(so_far: &SoFar) -> Result<(), LineFault>
    ensures read { spec.GivesAt result (spec.in_header so_far.now) }
    ensures early { OnOk result (spec.all_lines so_far.now ≡ []) }
{
    if has_begun(so_far) {
        Err(LineFault::At(0, ScriptKind::Late))
    } else {
        Ok(())
    }
}

/// Refuses one more where there are as many as there may be.
fn room_for(most: usize, count: usize) -> Result<(), LineFault>
    ensures read { spec.GivesAt result (spec.room_for most count) }
    ensures room { OnOk result (count < most) }
{
    if count < most {
        Ok(())
    } else {
        Err(LineFault::At(0, ScriptKind::TooMany))
    }
}

/// Refuses a header line behind a command or a `sync`, and then one more where there are as many as there may be.
#[tactic(auto, unfolding(crate::specs::Lines::header_room))]
fn header_room(so_far: &SoFar, most: usize, count: usize) -> Result<(), LineFault>
    ensures read { spec.GivesAt result (spec.header_room so_far.now most count) }
    ensures early { OnOk result (spec.all_lines so_far.now ≡ []) }
    ensures room { OnOk result (count < most) }
{
    in_header(so_far)?;
    room_for(most, count)
}

#[tactic(auto, unfolding(crate::specs::Lines::profile_said))]
fn profile_said(alloc: Global, words: &mut LineWords<'_>, so_far: &SoFar) -> Result<Said, LineFault>
    ensures read { Reads (spec.profile_said so_far.now words.old) result words.new }
    ensures sound { IfOk result (IsSaid so_far.now) }
{
    header_room(so_far, MOST_PROFILES, so_far.profiles.len())?;
    let profile = profile_line(alloc, words, so_far.profiles.as_slice())?;
    Ok(Said::Profile(profile))
}

#[tactic(auto, unfolding(crate::specs::Lines::journal_said))]
fn journal_said(words: &mut LineWords<'_>, so_far: &SoFar) -> Result<Said, LineFault>
    ensures read { Reads (spec.journal_said so_far.now words.old) result words.new }
    ensures sound { IfOk result (IsSaid so_far.now) }
{
    in_header(so_far)?;
    let entries = journal_line(words, so_far.journal)?;
    Ok(Said::Journal(entries))
}

#[tactic(auto, unfolding(crate::specs::Lines::actor_said))]
fn actor_said(alloc: Global, words: &mut LineWords<'_>, so_far: &SoFar) -> Result<Said, LineFault>
    ensures read { Reads (spec.actor_said so_far.now words.old) result words.new }
    ensures sound { IfOk result (IsSaid so_far.now) }
{
    header_room(so_far, MOST_ACTORS, so_far.actors.len())?;
    let name = actor_line(alloc, words, so_far.actors.as_slice())?;
    Ok(Said::Actor(name))
}

fn sync_said(words: &mut LineWords<'_>) -> Result<Said, LineFault>
    ensures read { Reads (spec.sync_said words.old) result words.new }
    ensures sound { OnOk result (result ≡ Ok Said.Sync) }
{
    words.end()?;
    Ok(Said::Sync)
}

fn stranger(word: &str) -> ScriptKind
    ensures { result ≡ spec.stranger word.now }
{
    if is_name(word) {
        ScriptKind::NoActor
    } else {
        ScriptKind::Word
    }
}

/// A command behind the name of its actor.
#[tactic(auto, unfolding(crate::specs::Lines::command_said))]
fn command_said(
    alloc: Global,
    words: &mut LineWords<'_>,
    so_far: &SoFar,
    commands: u32,
    name: &str,
) -> Result<Said, LineFault>
    requires sound { IsSoFar so_far.now }
    requires counted { commands ≡ length (spec.all_lines so_far.now) }
    ensures read { Reads (spec.command_said so_far.now name.now words.old) result words.new }
    ensures sound { IfOk result (IsSaid so_far.now) }
{
    let Some(actor) = actor_place(so_far.actors.as_slice(), name) else {
        return Err(LineFault::At(0, stranger(name)));
    };
    room_for(MOST_COMMANDS as usize, commands as usize)?;
    let command = command(alloc, words, so_far.profiles.as_slice())?;
    Ok(Said::Command {
        actor: actor as u32,
        command,
    })
}

#[tactic(auto, unfolding(crate::specs::Lines::said_in))]
fn whole_line(
    alloc: Global,
    words: &mut LineWords<'_>,
    so_far: &SoFar,
    commands: u32,
) -> Result<Said, LineFault>
    requires sound { IsSoFar so_far.now }
    requires counted { commands ≡ length (spec.all_lines so_far.now) }
    ensures read { Reads (spec.said_in so_far.now words.old) result words.new }
    ensures sound { IfOk result (IsSaid so_far.now) }
{
    let (_, word) = words.next()?;
    match lead_of(word) {
        Lead::Profile => profile_said(alloc, words, so_far),
        Lead::Journal => journal_said(words, so_far),
        Lead::Actor => actor_said(alloc, words, so_far),
        Lead::Sync => sync_said(words),
        Lead::Name => command_said(alloc, words, so_far, commands, word),
    }
}

/// Whether a line is passed over: it is empty, or begins with `#`.
pub fn passes(line: &[u8]) -> bool
    ensures { result ≡ spec.is_passed line.now }
{
    matches!(line, [] | [b'#', ..])
}

/// What a line says behind those before it, of which so many are commands.
#[tactic(auto, unfolding(crate::specs::Lines::line_at))]
pub(crate) fn read_line(
    alloc: Global,
    so_far: &SoFar,
    commands: u32,
    line: &[u8],
) -> Result<Said, LineFault>
    requires short { length line.now < 2 ^ 32 }
    requires sound { IsSoFar so_far.now }
    requires counted { commands ≡ length (spec.all_lines so_far.now) }
    ensures read { spec.GivesAt result (spec.line_at so_far.now line.now) }
    ensures sound { IfOk result (IsSaid so_far.now) }
    ensures some { OnErr result (0 < length line.now) }
{
    if passes(line) {
        return Ok(Said::Nothing);
    }
    match valid_text(line) {
        Ok(text) => whole_line(alloc, &mut LineWords::new(text), so_far, commands),
        Err(at) => Err(LineFault::At(at as u32, ScriptKind::Utf8)),
    }
}

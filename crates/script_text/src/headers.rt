//! The lines that come before all commands.
ghost use Rattle.std.specs.Prelude.{◌≡◌, ◌≤◌, ◌<◌, ◌^◌, length, Ok, Some, None, MatchResult, IfOk, IfSome, IsUtf8, IsTrue};
ghost use Rattle.std.specs.Str.{bytes_eq};
ghost use Rattle.std.specs.Option.{option_map};
ghost use Rattle.model_eval.specs.Models.{IsModel};
ghost use Rattle.script_text.specs.Commands.{place_in};
ghost use Rattle.script_text.specs.Headers as spec;
ghost use Rattle.script_text.specs.LineReading.{Reads, Stops};
ghost use Rattle.script_text.specs.Names.{is_name};
ghost use Rattle.script_text.specs.Scripts.{IsCapacity, IsProfile};

use crate::commands::{count, declared_place, name};
use crate::fault::LineFault;
use crate::line_words::LineWords;
use crate::model_text::{TextFault, model_in};
use gh_base::{ScriptKind, Text, Vehicle};
use model_eval::{CustomModel, no_model};
use std::alloc::Global;
use weighting::Profile;

/// The most entries of a journal.
const MOST_ENTRIES: u32 = 65536;

fn is_same(actor: &Text, name: &str) -> bool
    ensures { result ≡ bytes_eq actor.now name.now }
{
    actor.as_str() == name
}

/// The number of the actor of a name.
pub(crate) fn actor_place(actors: &[Text], name: &str) -> Option<usize>
    ensures { result ≡ spec.actor_in actors.now name.now }
{
    actors.iter().position(|actor| is_same(actor, name))
}

fn vehicle_of(word: &str) -> Option<Vehicle>
    ensures { result ≡ spec.vehicle_of word.now }
{
    match word {
        "car" => Some(Vehicle::Car),
        "bike" => Some(Vehicle::Bike),
        "foot" => Some(Vehicle::Foot),
        _ => None,
    }
}

fn next_vehicle(words: &mut LineWords<'_>) -> Result<Vehicle, LineFault>
    ensures { Reads (spec.vehicle words.old) result words.new }
{
    let (at, word) = words.next()?;
    match vehicle_of(word) {
        Some(vehicle) => Ok(vehicle),
        None => Err(LineFault::At(at, ScriptKind::Word)),
    }
}

/// The rest of a line as a model.
fn model(alloc: Global, words: &mut LineWords<'_>) -> Result<CustomModel, LineFault>
    ensures read { Reads (spec.model words.old) result words.new }
    ensures model { IfOk result IsModel }
{
    let Some((at, text)) = words.rest() else {
        return Ok(no_model(alloc));
    };
    match model_in(alloc, text.as_bytes()) {
        Ok(model) => Ok(model),
        Err(TextFault::NoMemory) => Err(LineFault::NoMemory),
        Err(TextFault::Is(kind)) => Err(LineFault::At(at, kind)),
    }
}

/// A name that no profile has yet.
fn profile_name<'a>(words: &mut LineWords<'a>, profiles: &[Profile]) -> Result<&'a str, LineFault>
    ensures word { MatchResult result (λ w. spec.new_name (place_in profiles.now) words.old ≡ Ok (w.now, words.new)) (Stops (spec.new_name (place_in profiles.now) words.old)) }
    ensures text { IfOk result (λ w. IsUtf8 w.now) }
    ensures named { IfOk result (λ w. IsTrue (is_name w.now)) }
    ensures new { IfOk result (λ w. place_in profiles.now w.now ≡ None) }
{
    let (at, word) = name(words)?;
    match declared_place(profiles, word) {
        None => Ok(word),
        Some(_) => Err(LineFault::At(at, ScriptKind::Twice)),
    }
}

/// A name that no actor has yet.
fn actor_name<'a>(words: &mut LineWords<'a>, actors: &[Text]) -> Result<&'a str, LineFault>
    ensures word { MatchResult result (λ w. spec.new_name (spec.actor_in actors.now) words.old ≡ Ok (w.now, words.new)) (Stops (spec.new_name (spec.actor_in actors.now) words.old)) }
    ensures text { IfOk result (λ w. IsUtf8 w.now) }
    ensures named { IfOk result (λ w. IsTrue (is_name w.now)) }
    ensures new { IfOk result (λ w. spec.actor_in actors.now w.now ≡ None) }
{
    let (at, word) = name(words)?;
    match actor_place(actors, word) {
        None => Ok(word),
        Some(_) => Err(LineFault::At(at, ScriptKind::Twice)),
    }
}

/// A name, a vehicle, and maybe a model.
#[tactic(auto, unfolding(crate::specs::Headers::profile_line))]
pub(crate) fn profile_line(
    alloc: Global,
    words: &mut LineWords<'_>,
    profiles: &[Profile],
) -> Result<Profile, LineFault>
    ensures read { Reads (spec.profile_line profiles.now words.old) result words.new }
    ensures sound { IfOk result IsProfile }
    ensures new { IfOk result (λ p. place_in profiles.now p.name ≡ None) }
{
    let called = profile_name(words, profiles)?;
    let vehicle = next_vehicle(words)?;
    let model = model(alloc, words)?;
    let mut name = Text::new(alloc);
    name.push(called)?;
    Ok(Profile {
        name,
        vehicle,
        model,
    })
}

/// The most entries of the journal, which is said once.
#[tactic(auto, unfolding(crate::specs::Headers::journal_line))]
pub(crate) fn journal_line(
    words: &mut LineWords<'_>,
    journal: Option<u32>,
) -> Result<u32, LineFault>
    ensures read { Reads (spec.journal_line journal words.old) result words.new }
    ensures sound { IfOk result IsCapacity }
{
    if journal.is_some() {
        return Err(LineFault::At(0, ScriptKind::Twice));
    }
    let entries = count(words, 1, MOST_ENTRIES)?;
    words.end()?;
    Ok(entries)
}

/// A name.
#[tactic(auto, unfolding(crate::specs::Headers::actor_line))]
pub(crate) fn actor_line(
    alloc: Global,
    words: &mut LineWords<'_>,
    actors: &[Text],
) -> Result<Text, LineFault>
    ensures read { Reads (spec.actor_line actors.now words.old) result words.new }
    ensures named { IfOk result (λ a. IsTrue (is_name a)) }
    ensures new { IfOk result (λ a. spec.actor_in actors.now a ≡ None) }
{
    let called = actor_name(words, actors)?;
    words.end()?;
    let mut name = Text::new(alloc);
    name.push(called)?;
    Ok(name)
}

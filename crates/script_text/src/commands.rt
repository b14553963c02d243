//! What an actor asks for.
ghost use Rattle.std.specs.Prelude.{◌≡◌, ◌≤◌, ◌<◌, ◌^◌, length, Ok, Some, MatchResult, MatchOption, IfOk, IfSome, IsUtf8, IsTrue, None, ℕ};
ghost use Rattle.std.specs.Str.{bytes_eq};
ghost use Rattle.script_text.specs.Commands as spec;
ghost use Rattle.script_text.specs.LineReading.{Reads, Stops};
ghost use Rattle.script_text.specs.Names.{is_name};
ghost use Rattle.gh_base.specs.Places.{IsPlace};
ghost use Rattle.script_text.specs.Scripts.{IsCommand};

use crate::fault::LineFault;
use crate::fields;
use crate::line_words::LineWords;
use crate::names::is_name;
use crate::script::Command;
use gh_base::{Place, ScriptKind, Text};
use std::alloc::Global;
use weighting::{CAR_PROFILE, Profile};

/// The most landmarks of a preparation.
const MOST_LANDMARKS: u32 = 16;

/// What the word behind an actor's name asks for.
#[derive(Clone, Copy, Debug, PartialEq, Eq)]
pub(crate) enum Verb {
    Model,
    Route,
    Labels,
    Lower,
    Restore,
    Prepare,
    Publish,
}

fn verb_of(word: &str) -> Option<Verb>
    ensures { result ≡ spec.verb_of word.now }
{
    match word {
        "model" => Some(Verb::Model),
        "route" => Some(Verb::Route),
        "labels" => Some(Verb::Labels),
        "lower" => Some(Verb::Lower),
        "restore" => Some(Verb::Restore),
        "prepare" => Some(Verb::Prepare),
        "publish" => Some(Verb::Publish),
        _ => None,
    }
}

fn is_called(profile: &Profile, name: &str) -> bool
    ensures { result ≡ bytes_eq profile.now.name name.now }
{
    profile.name.as_str() == name
}

/// The number of the profile of a name.
pub(crate) fn declared_place(profiles: &[Profile], name: &str) -> Option<usize>
    ensures { result ≡ spec.place_in profiles.now name.now }
{
    profiles.iter().position(|profile| is_called(profile, name))
}

/// As `declared_place`, with the default where none is declared.
fn profile_place(profiles: &[Profile], name: &str) -> Option<u32>
    requires { length profiles.now ≤ 8 }
    ensures value { result ≡ spec.place_in (spec.with_default profiles.now) name.now }
    ensures range { IfSome result (λ n. n < length (spec.with_default profiles.now)) }
{
    if profiles.is_empty() {
        if CAR_PROFILE == name {
            return Some(0);
        }
        return None;
    }
    let place = declared_place(profiles, name)?;
    Some(place as u32)
}

/// The next word, which has to be a name, with its byte.
pub(crate) fn name<'a>(words: &mut LineWords<'a>) -> Result<(u32, &'a str), LineFault>
    ensures word { MatchResult result (λ p. spec.name words.old ≡ Ok ((p.0, p.1.now), words.new)) (Stops (spec.name words.old)) }
    ensures text { IfOk result (λ p. IsUtf8 p.1.now) }
    ensures named { IfOk result (λ p. IsTrue (is_name p.1.now)) }
{
    let (at, word) = words.next()?;
    if is_name(word) {
        Ok((at, word))
    } else {
        Err(LineFault::At(at, ScriptKind::Name))
    }
}

#[tactic(auto, unfolding(crate::specs::Commands::profile_in))]
fn profile(words: &mut LineWords<'_>, profiles: &[Profile]) -> Result<u32, LineFault>
    requires { length profiles.now ≤ 8 }
    ensures read { Reads (spec.profile_in (spec.with_default profiles.now) words.old) result words.new }
    ensures range { IfOk result (λ n. n < length (spec.with_default profiles.now)) }
{
    let (at, word) = name(words)?;
    match profile_place(profiles, word) {
        Some(place) => Ok(place),
        None => Err(LineFault::At(at, ScriptKind::NoProfile)),
    }
}

fn place(words: &mut LineWords<'_>) -> Result<Place, LineFault>
    ensures read { Reads (spec.place words.old) result words.new }
    ensures on_earth { IfOk result IsPlace }
{
    let (at, word) = words.next()?;
    match fields::place(word.as_bytes()) {
        Some(place) => Ok(place),
        None => Err(LineFault::At(at, ScriptKind::Place)),
    }
}

fn edge(words: &mut LineWords<'_>) -> Result<(u32, bool), LineFault>
    ensures { Reads (spec.edge words.old) result words.new }
{
    let (at, word) = words.next()?;
    match fields::edge(word.as_bytes()) {
        Some(edge) => Ok(edge),
        None => Err(LineFault::At(at, ScriptKind::Number)),
    }
}

fn speed(words: &mut LineWords<'_>) -> Result<u32, LineFault>
    ensures { Reads (spec.speed words.old) result words.new }
{
    let (at, word) = words.next()?;
    match fields::speed(word.as_bytes()) {
        Some(speed) => Ok(speed),
        None => Err(LineFault::At(at, ScriptKind::Number)),
    }
}

/// The next word as a whole number in a range.
pub(crate) fn count(words: &mut LineWords<'_>, least: u32, most: u32) -> Result<u32, LineFault>
    ensures read { Reads (spec.count least most words.old) result words.new }
    ensures range { IfOk result (λ n. (least ≤ n) × (n ≤ most)) }
{
    let (at, word) = words.next()?;
    match fields::count(word.as_bytes(), least, most) {
        Some(count) => Ok(count),
        None => Err(LineFault::At(at, ScriptKind::Number)),
    }
}

fn next_verb(words: &mut LineWords<'_>) -> Result<Verb, LineFault>
    ensures { Reads (spec.verb words.old) result words.new }
{
    let (at, word) = words.next()?;
    match verb_of(word) {
        Some(verb) => Ok(verb),
        None => Err(LineFault::At(at, ScriptKind::Word)),
    }
}

/// The rest of the line as a text.
fn text(alloc: Global, words: &mut LineWords<'_>) -> Result<Text, LineFault>
    ensures read { Reads (spec.text words.old) result words.new }
    ensures short { IfOk result (λ t. length t < 2 ^ 32) }
{
    let mut text = Text::new(alloc);
    if let Some((_, rest)) = words.rest() {
        text.push(rest)?;
    }
    Ok(text)
}

#[tactic(auto, unfolding(crate::specs::Commands::model))]
fn model(
    alloc: Global,
    words: &mut LineWords<'_>,
    profiles: &[Profile],
) -> Result<Command, LineFault>
    requires { length profiles.now ≤ 8 }
    ensures read { Reads (spec.model (spec.with_default profiles.now) words.old) result words.new }
    ensures sound { IfOk result (IsCommand (length (spec.with_default profiles.now))) }
{
    let profile = profile(words, profiles)?;
    let text = text(alloc, words)?;
    Ok(Command::Model { profile, text })
}

#[tactic(auto, unfolding(crate::specs::Commands::route))]
fn route(words: &mut LineWords<'_>, labels: bool) -> Result<Command, LineFault>
    ensures read { Reads (spec.route labels words.old) result words.new }
    ensures sound { IfOk result (λ c. (n : ℕ) → IsCommand n c) }
{
    let from = place(words)?;
    let to = place(words)?;
    words.end()?;
    Ok(Command::Route { from, to, labels })
}

#[tactic(auto, unfolding(crate::specs::Commands::lower))]
fn lower(words: &mut LineWords<'_>) -> Result<Command, LineFault>
    ensures read { Reads (spec.lower words.old) result words.new }
    ensures sound { IfOk result (λ c. (n : ℕ) → IsCommand n c) }
{
    let (edge, reverse) = edge(words)?;
    let speed = speed(words)?;
    words.end()?;
    Ok(Command::Lower {
        edge,
        reverse,
        speed,
    })
}

#[tactic(auto, unfolding(crate::specs::Commands::restore))]
fn restore(words: &mut LineWords<'_>) -> Result<Command, LineFault>
    ensures read { Reads (spec.restore words.old) result words.new }
    ensures sound { IfOk result (λ c. (n : ℕ) → IsCommand n c) }
{
    let (edge, reverse) = edge(words)?;
    let speed = speed(words)?;
    words.end()?;
    Ok(Command::Restore {
        edge,
        reverse,
        speed,
    })
}

#[tactic(auto, unfolding(crate::specs::Commands::prepare))]
fn prepare(words: &mut LineWords<'_>, profiles: &[Profile]) -> Result<Command, LineFault>
    requires { length profiles.now ≤ 8 }
    ensures read { Reads (spec.prepare (spec.with_default profiles.now) words.old) result words.new }
    ensures sound { IfOk result (IsCommand (length (spec.with_default profiles.now))) }
{
    let profile = profile(words, profiles)?;
    let count = count(words, 1, MOST_LANDMARKS)?;
    words.end()?;
    Ok(Command::Prepare { profile, count })
}

#[tactic(auto, unfolding(crate::specs::Commands::publish))]
fn publish(words: &mut LineWords<'_>, profiles: &[Profile]) -> Result<Command, LineFault>
    requires { length profiles.now ≤ 8 }
    ensures read { Reads (spec.publish (spec.with_default profiles.now) words.old) result words.new }
    ensures sound { IfOk result (IsCommand (length (spec.with_default profiles.now))) }
{
    let profile = profile(words, profiles)?;
    words.end()?;
    Ok(Command::Publish { profile })
}

/// A verb, and what it speaks of, to the end of the line.
#[tactic(auto, unfolding(crate::specs::Commands::command_of))]
pub(crate) fn command(
    alloc: Global,
    words: &mut LineWords<'_>,
    profiles: &[Profile],
) -> Result<Command, LineFault>
    requires { length profiles.now ≤ 8 }
    ensures read { Reads (spec.command_of (spec.with_default profiles.now) words.old) result words.new }
    ensures sound { IfOk result (IsCommand (length (spec.with_default profiles.now))) }
{
    match next_verb(words)? {
        Verb::Model => model(alloc, words, profiles),
        Verb::Route => route(words, false),
        Verb::Labels => route(words, true),
        Verb::Lower => lower(words),
        Verb::Restore => restore(words),
        Verb::Prepare => prepare(words, profiles),
        Verb::Publish => publish(words, profiles),
    }
}

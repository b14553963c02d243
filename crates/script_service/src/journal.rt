//! The text of the journal.
ghost use Rattle.std.specs.Prelude.{◌≡◌, ◌++◌, [], IfOk, OnOk, slice_index_or};
ghost use Rattle.script_service.specs.Writing as spec;

use gh_base::{NoMemory, Text};
use script_text::{Names, Noted, put_entry};
use std::alloc::Global;
use traffic_core::{Entry, What};
use traffic_share::{Naming, Seat};
use weighting::Profiles;

/// The most bytes of the journal's first line.
const HEAD_BYTES: usize = 19;

/// The most bytes of an entry's line, where names have sixteen at most.
const LINE_BYTES: usize = 70;

/// What the journal notes of a change.
fn noted_of(what: &What) -> Noted
    ensures { result ≡ spec.noted_of what.now }
{
    match what {
        What::Lower { edge, speed } => Noted::Lower {
            edge: *edge,
            speed: *speed,
        },
        What::Restore { edge, speed } => Noted::Restore {
            edge: *edge,
            speed: *speed,
        },
        What::Publish { prep } => Noted::Publish {
            profile: prep.prep().profile(),
        },
    }
}

/// The name of an actor by number, and nothing past the last.
fn name_of(names: &Names, actor: u32) -> &str
    ensures { result.now ≡ slice_index_or names.now actor [] }
{
    match names.as_slice().get(actor as usize) {
        Some(name) => name.as_str(),
        None => "",
    }
}

/// Puts the line of an entry behind a text.
fn put_line(
    alloc: Global,
    out: &mut Text,
    names: &Names,
    profiles: &Profiles,
    place: u32,
    entry: &Entry,
) -> Result<(), NoMemory>
    ensures { OnOk result (out.new ≡ out.old ++ spec.entry_text names.now profiles.now place entry.now) }
{
    let name = name_of(names, entry.actor);
    let noted = noted_of(&entry.what);
    put_entry(alloc, out, place, name, entry.number, &noted, profiles)
}

/// The text of the journal of a seat: how many entries there are, and a line for each. Its room is taken before its
/// lines are made.
pub(crate) fn journal_text<J: Naming>(
    alloc: Global,
    names: &Names,
    profiles: &Profiles,
    service: &Seat<'_, '_, J>,
) -> Result<Text, NoMemory>
    ensures { IfOk result (λ text. text ≡ spec.journal_text names.now profiles.now service.now.entries) }
{
    let room = HEAD_BYTES + LINE_BYTES * service.len() as usize;
    let mut text = Text::from_string(String::with_capacity(alloc, room)?);
    text.push("journal ")?;
    text.push_number(u128::from(service.len()))?;
    text.push("\n")?;
    for before in 0..service.len() {
        let place = before + 1;
        let entry = service.entry(place);
        put_line(alloc, &mut text, names, profiles, place, entry)?;
    }
    Ok(text)
}

//! Lines of the journal.
ghost use Rattle.std.specs.Prelude.{◌≡◌, ◌++◌, decimal, codes, OnOk, OnErr};
ghost use Rattle.script_text.specs.Entries as spec;
ghost use Rattle.script_text.specs.Replies.{edge_text};

use crate::noted::Noted;
use crate::reply_line::{put_count, put_edge};
use gh_base::{DirEdge, NoMemory, Text};
use std::alloc::Global;
use weighting::Profiles;

/// A word, an edge, and its new limit.
fn put_limit(out: &mut Text, word: &str, edge: DirEdge, speed: u32) -> Result<(), NoMemory>
    ensures { OnOk result (out.new ≡ out.old ++ (word.now ++ (edge_text edge ++ (codes " " ++ decimal speed)))) }
{
    put_edge(out, word, edge)?;
    put_count(out, " ", u128::from(speed))
}

/// The name of a profile by number, and nothing past the last.
fn put_profile(out: &mut Text, profiles: &Profiles, number: u32) -> Result<(), NoMemory>
    ensures { OnOk result (out.new ≡ out.old ++ spec.profile_name profiles.now number) }
{
    match profiles.as_slice().get(number as usize) {
        Some(profile) => out.push(profile.name.as_str()),
        None => Ok(()),
    }
}

fn put_noted(out: &mut Text, noted: &Noted, profiles: &Profiles) -> Result<(), NoMemory>
    ensures { OnOk result (out.new ≡ out.old ++ spec.noted_text profiles.now noted.now) }
{
    match noted {
        Noted::Lower { edge, speed } => put_limit(out, "lower ", *edge, *speed),
        Noted::Restore { edge, speed } => put_limit(out, "restore ", *edge, *speed),
        Noted::Publish { profile } => {
            out.push("publish ")?;
            put_profile(out, profiles, *profile)
        }
    }
}

/// Appends the line `PLACE NAME NUMBER CHANGE` of an entry of the journal, and a newline. After `NoMemory` the text is
/// as before: a half line is never seen.
#[tactic(auto, unfolding(crate::specs::Entries::entry_line))]
pub fn put_entry(
    alloc: Global,
    out: &mut Text,
    place: u32,
    name: &str,
    number: u32,
    noted: &Noted,
    profiles: &Profiles,
) -> Result<(), NoMemory>
    ensures line { OnOk result (out.new ≡ out.old ++ spec.entry_line profiles.now place name.now number noted.now) }
    ensures kept { OnErr result (out.new ≡ out.old) }
{
    let mut line = Text::new(alloc);
    line.push_number(u128::from(place))?;
    line.push(" ")?;
    line.push(name)?;
    put_count(&mut line, " ", u128::from(number))?;
    line.push(" ")?;
    put_noted(&mut line, noted, profiles)?;
    line.push("\n")?;
    out.push(line.as_str())
}

//! Lines of replies.
ghost use Rattle.std.specs.Prelude.{◌≡◌, ◌++◌, decimal, OnOk, OnErr};
ghost use Rattle.script_text.specs.Replies as spec;

use crate::reply::Reply;
use crate::words::{json_word_of, model_word_of, part_word_of};
use gh_base::{DirEdge, Hop, JsonKind, ModelKind, NoMemory, Place3, Text};
use model_check::Speeding;
use std::alloc::Global;

#[tactic(auto, unfolding(crate::specs::Replies::edge_text))]
pub(crate) fn put_edge(out: &mut Text, lead: &str, edge: DirEdge) -> Result<(), NoMemory>
    ensures { OnOk result (out.new ≡ out.old ++ (lead.now ++ spec.edge_text edge)) }
{
    out.push(lead)?;
    out.push_number(u128::from(edge.edge.0))?;
    out.push(if edge.reverse { "-" } else { "+" })
}

/// A space before each edge of a walk, and its number and direction behind it.
pub fn put_hops(out: &mut Text, hops: &[Hop]) -> Result<(), NoMemory>
    ensures { OnOk result (out.new ≡ out.old ++ spec.hops_text hops.now) }
{
    for hop in hops {
        put_edge(out, " ", hop.by)?;
    }
    Ok(())
}

fn put_label(out: &mut Text, label: Option<u64>) -> Result<(), NoMemory>
    ensures { OnOk result (out.new ≡ out.old ++ spec.label_text label) }
{
    match label {
        None => out.push("-"),
        Some(n) => out.push_number(u128::from(n)),
    }
}

fn put_labels(out: &mut Text, labels: &[Option<u64>]) -> Result<(), NoMemory>
    ensures { OnOk result (out.new ≡ out.old ++ spec.labels_text labels.now) }
{
    for label in labels {
        out.push(" ")?;
        put_label(out, *label)?;
    }
    Ok(())
}

/// A word and a number.
pub fn put_count(out: &mut Text, word: &str, count: u128) -> Result<(), NoMemory>
    ensures { OnOk result (out.new ≡ out.old ++ (word.now ++ decimal count)) }
{
    out.push(word)?;
    out.push_number(count)
}

fn put_json_fault(out: &mut Text, byte: u32, kind: JsonKind) -> Result<(), NoMemory>
    ensures { OnOk result (out.new ≡ out.old ++ spec.json_fault_text byte kind) }
{
    put_count(out, "badjson ", u128::from(byte))?;
    out.push(" ")?;
    out.push(json_word_of(kind))
}

fn put_model_fault(out: &mut Text, place: Place3, kind: ModelKind) -> Result<(), NoMemory>
    ensures { OnOk result (out.new ≡ out.old ++ spec.model_fault_text place kind) }
{
    out.push("badmodel ")?;
    out.push(part_word_of(place.part))?;
    put_count(out, " ", u128::from(place.item))?;
    put_count(out, " ", u128::from(place.byte))?;
    out.push(" ")?;
    out.push(model_word_of(kind))
}

fn put_speeding(out: &mut Text, speeding: Speeding) -> Result<(), NoMemory>
    ensures { OnOk result (out.new ≡ out.old ++ spec.speeding_text speeding) }
{
    out.push("speeding ")?;
    out.push(part_word_of(speeding.part))?;
    put_count(out, " ", u128::from(speeding.item))?;
    put_count(out, " ", u128::from(speeding.value))
}

fn put_route(
    out: &mut Text,
    weight: u64,
    mm: u64,
    settled: u32,
    hops: &[Hop],
) -> Result<(), NoMemory>
    ensures { OnOk result (out.new ≡ out.old ++ spec.route_text weight mm settled hops.now) }
{
    put_count(out, "route ", u128::from(weight))?;
    put_count(out, " ", u128::from(mm))?;
    put_count(out, " ", u128::from(settled))?;
    put_hops(out, hops)
}

/// A word, an edge, and its limit before and after.
fn put_change(
    out: &mut Text,
    word: &str,
    edge: DirEdge,
    then: u32,
    now: u32,
) -> Result<(), NoMemory>
    ensures { OnOk result (out.new ≡ out.old ++ (word.now ++ spec.change_text edge then now)) }
{
    put_edge(out, word, edge)?;
    put_count(out, " ", u128::from(then))?;
    put_count(out, " ", u128::from(now))
}

/// What a reply says.
pub fn put_answer(out: &mut Text, reply: &Reply) -> Result<(), NoMemory>
    ensures { OnOk result (out.new ≡ out.old ++ spec.reply_text reply.now) }
{
    match reply {
        Reply::Route {
            weight,
            mm,
            settled,
            hops,
        } => put_route(out, *weight, *mm, *settled, hops.as_slice()),
        Reply::Labels { weight, labels } => {
            put_count(out, "labels ", u128::from(*weight))?;
            put_labels(out, labels.as_slice())
        }
        Reply::NoRoute { settled } => put_count(out, "noroute ", u128::from(*settled)),
        Reply::Overflow { weight } => put_count(out, "overflow ", *weight),
        Reply::NoSnap { point } => put_count(out, "nosnap ", u128::from(*point)),
        Reply::NoNode { id } => {
            out.push("nonode ")?;
            out.push_signed(*id)
        }
        Reply::Taken => out.push("taken"),
        Reply::BadJson { byte, kind } => put_json_fault(out, *byte, *kind),
        Reply::BadModel { place, kind } => put_model_fault(out, *place, *kind),
        Reply::Speeds(speeding) => put_speeding(out, *speeding),
        Reply::Lowered => out.push("lowered"),
        Reply::NotLower { now } => put_count(out, "notlower ", u128::from(*now)),
        Reply::NoSuchEdge => out.push("nosuchedge"),
        Reply::JournalFull => out.push("journalfull"),
        Reply::Restored => out.push("restored"),
        Reply::NotHigher { now } => put_count(out, "nothigher ", u128::from(*now)),
        Reply::OverBase { base } => put_count(out, "overbase ", u128::from(*base)),
        Reply::Prepared { landmarks } => put_count(out, "prepared ", u128::from(*landmarks)),
        Reply::NoLandmark => out.push("nolandmark"),
        Reply::Published => out.push("published"),
        Reply::Nothing => out.push("nothing"),
        Reply::NotInForce { edge, then, now } => {
            put_change(out, "notinforce ", *edge, *then, *now)
        }
    }
}

/// Appends the line `NAME NUMBER AT ANSWER`, where AT is the number of entries that the reply speaks of, and a
/// newline. After `NoMemory` the text is as before: a half line is never seen.
#[tactic(auto, unfolding(crate::specs::Replies::reply_line))]
pub fn put_reply(
    alloc: Global,
    out: &mut Text,
    name: &str,
    number: u32,
    at: u32,
    reply: &Reply,
) -> Result<(), NoMemory>
    ensures line { OnOk result (out.new ≡ out.old ++ spec.reply_line name.now number at reply.now) }
    ensures kept { OnErr result (out.new ≡ out.old) }
{
    let mut line = Text::new(alloc);
    line.push(name)?;
    put_count(&mut line, " ", u128::from(number))?;
    put_count(&mut line, " ", u128::from(at))?;
    line.push(" ")?;
    put_answer(&mut line, reply)?;
    line.push("\n")?;
    out.push(line.as_str())
}

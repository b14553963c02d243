//! What replies come to.
ghost use Rattle.std.specs.Prelude.{◌≡◌, ◌+◌, ◌++◌, ◌<◌, ◌≤◌, ◌^◌, [], IfOk, OnOk, if◌then◌else◌};
ghost use Rattle.std.specs.List.{count_by, sum_by};
ghost use Rattle.script_service.specs.Collecting.{replies_heard};
ghost use Rattle.generated_run.specs.Summaries as spec;

use gh_base::{NoMemory, Text};
use script_service::Heard;
use script_text::Reply;
use std::alloc::Global;

/// The roads, the landmarks of preparations, the queries that were answered with a walk and their weights together, and
/// the entries of the journal.
#[derive(Clone, Copy, Debug, PartialEq, Eq)]
pub struct Summary {
    pub nodes: u32,
    pub edges: u32,
    pub landmarks: u128,
    pub routes: u128,
    pub entries: u32,
    pub weight: u128,
}

fn landmarks_of(reply: &Reply) -> u32
    ensures { result ≡ spec.landmarks_of reply.now }
{
    match reply {
        Reply::Prepared { landmarks } => *landmarks,
        _ => 0,
    }
}

fn is_route(reply: &Reply) -> bool
    ensures { result ≡ spec.is_route reply.now }
{
    matches!(reply, Reply::Route { .. })
}

fn weight_of(reply: &Reply) -> u64
    ensures { result ≡ spec.weight_of reply.now }
{
    match reply {
        Reply::Route { weight, .. } => *weight,
        _ => 0,
    }
}

/// A summary with one reply more.
fn with_reply(summary: Summary, reply: &Reply) -> Summary
    requires landmarks { summary.landmarks + 2 ^ 64 ≤ 2 ^ 128 }
    requires routes { summary.routes + 2 ^ 64 ≤ 2 ^ 128 }
    requires weight { summary.weight + 2 ^ 64 ≤ 2 ^ 128 }
    ensures summary { result ≡ spec.with_reply summary reply.now }
    ensures landmarks { result.landmarks < summary.landmarks + 2 ^ 64 }
    ensures routes { result.routes ≤ summary.routes + 1 }
    ensures weight { result.weight < summary.weight + 2 ^ 64 }
{
    let routes = if is_route(reply) { 1 } else { 0 };
    Summary {
        landmarks: summary.landmarks + u128::from(landmarks_of(reply)),
        routes: summary.routes + routes,
        weight: summary.weight + u128::from(weight_of(reply)),
        ..summary
    }
}

/// What was heard comes to, over so many nodes and edges, with so many entries.
pub(crate) fn summary_by(nodes: u32, edges: u32, heard: &[Heard], entries: u32) -> Summary
    ensures { result ≡ spec.summary_from nodes edges (replies_heard heard.now) entries }
{
    let mut summary = Summary {
        nodes,
        edges,
        landmarks: 0,
        routes: 0,
        entries,
        weight: 0,
    };
    for one in heard {
        summary = with_reply(summary, &one.told.reply);
    }
    summary
}

/// Puts a line behind a text: a name, a space and the number.
fn put_line(out: &mut Text, name: &str, number: u128) -> Result<(), NoMemory>
    ensures { OnOk result (out.new ≡ out.old ++ spec.line_of name.now number) }
{
    out.push(name)?;
    out.push(" ")?;
    out.push_number(number)?;
    out.push("\n")
}

/// The lines of a summary.
pub(crate) fn summary_text(alloc: Global, summary: &Summary) -> Result<Text, NoMemory>
    ensures { IfOk result (λ text. text ≡ spec.summary_text summary.now) }
{
    let mut text = Text::new(alloc);
    put_line(&mut text, "nodes", u128::from(summary.nodes))?;
    put_line(&mut text, "edges", u128::from(summary.edges))?;
    put_line(&mut text, "landmarks", summary.landmarks)?;
    put_line(&mut text, "routes", summary.routes)?;
    put_line(&mut text, "entries", u128::from(summary.entries))?;
    put_line(&mut text, "weight", summary.weight)?;
    Ok(text)
}

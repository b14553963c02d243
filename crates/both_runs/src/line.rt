//! Lines of answers.
ghost use Rattle.std.specs.Prelude.{◌≡◌, ◌++◌, codes, IfOk, OnOk};
ghost use Rattle.both_runs.specs.Lines as spec;

use crate::answer::BothAnswer;
use gh_base::{Hop, NoMemory, Text};
use script_text::{Reply, put_answer, put_count, put_hops};
use std::alloc::Global;

/// A word, and both counts of starts behind it.
fn put_starts(out: &mut Text, word: &str, forward: u32, backward: u32) -> Result<(), NoMemory>
    ensures { OnOk result (out.new ≡ out.old ++ (word.now ++ spec.starts_text forward backward)) }
{
    put_count(out, word, u128::from(forward))?;
    put_count(out, " ", u128::from(backward))
}

fn put_walk(
    out: &mut Text,
    weight: u128,
    mm: u128,
    forward: u32,
    backward: u32,
    hops: &[Hop],
) -> Result<(), NoMemory>
    ensures { OnOk result
        (out.new ≡ out.old ++ spec.both_text weight mm forward backward hops.now) }
{
    put_count(out, "both ", weight)?;
    put_count(out, " ", mm)?;
    put_starts(out, " ", forward, backward)?;
    put_hops(out, hops)
}

/// What an answer says.
fn put_text(out: &mut Text, answer: &BothAnswer) -> Result<(), NoMemory>
    ensures { OnOk result (out.new ≡ out.old ++ spec.answer_text answer.now) }
{
    match answer {
        BothAnswer::NoNode { id } => put_answer(out, &Reply::NoNode { id: *id }),
        BothAnswer::NoRoute { forward, backward } => {
            put_starts(out, "noroute ", *forward, *backward)
        }
        BothAnswer::Overflow { weight } => put_answer(out, &Reply::Overflow { weight: *weight }),
        BothAnswer::Walk {
            weight,
            mm,
            forward,
            backward,
            hops,
        } => put_walk(out, *weight, *mm, *forward, *backward, hops.as_slice()),
    }
}

/// What an answer says, and a newline.
pub(crate) fn line_of(alloc: Global, answer: &BothAnswer) -> Result<Text, NoMemory>
    ensures { IfOk result (λ line. line ≡ spec.answer_text answer.now ++ codes "\n") }
{
    let mut line = Text::new(alloc);
    put_text(&mut line, answer)?;
    line.push("\n")?;
    Ok(line)
}

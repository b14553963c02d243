//! Answers to queries, written in one piece.
ghost use Rattle.std.specs.Prelude.{◌≡◌, IfOk, IfErr, IsErrOf, IfSome};
ghost use Rattle.std.specs.Io.KnownBytes.{Keeps};
ghost use Rattle.gh_base.specs.Causes.{Rose};
ghost use Rattle.map_roads.specs.Statuses.{IsUnwritten};
ghost use Rattle.map_roads.specs.Written.{Writes, WritesFront};
ghost use Rattle.query_lines.specs.Lines.{LinesSay, IsOfLines, IsOfAnswering};
ghost use Rattle.query_lines.specs.Answering.{AreAnswers, IsAnswered};

use crate::queries::TowerQuery;
use crate::reading::read_query_lines;
use gh_base::{Failed, NoMemory, Sink, Source, Text, give_all};
use map_roads::{Status, Which};
use std::alloc::Global;

/// What answers queries.
pub trait Answering {
    ghost use Rattle.std.specs.Prelude.{ℕ, List, IfOk};
    ghost use Rattle.query_lines.specs.declared.queries.TowerQuery.{TowerQuery};

    /// Which lines answer a query, each with its newline.
    ghost right: { Self → TowerQuery → List ℕ → Type 0 };

    /// A line that answers a query.
    fn line(&self, alloc: Global, query: TowerQuery) -> Result<Text, NoMemory>
        ensures { IfOk result (right self.now query) };
}

/// The lines that answer queries, in order.
fn answers_to<A: Answering>(
    alloc: Global,
    answers: &A,
    queries: &[TowerQuery],
) -> Result<Text, NoMemory>
    ensures { IfOk result (AreAnswers (A.right answers.now) queries.now) }
{
    let mut text = Text::new(alloc);
    for query in queries {
        let line = answers.line(alloc, *query)?;
        text.push(line.as_str())?;
    }
    Ok(text)
}

/// Reads query lines, and makes the text that answers them.
fn text_for<A: Answering, I: Source>(
    alloc: Global,
    answers: &A,
    lines: &mut I,
) -> Result<Text, Status>
    ensures text { IfOk result (λ text. IfSome (I.left lines.old) (λ bytes.
        IsAnswered (A.right answers.now) bytes text)) }
    ensures err { IfErr result (λ status. IfSome (I.left lines.old) (LinesSay status)) }
    ensures early { IfErr result IsOfLines }
    ensures read { IsErrOf result (Status.ReadFault Which.Script) →
        Rose (I.faults lines.old) (I.faults lines.new) }
{
    let queries = read_query_lines(alloc, lines)?;
    Ok(answers_to(alloc, answers, queries.as_slice())?)
}

/// Reads query lines, answers them, and writes the text in one piece behind the last answer.
///
/// `WriteFault` may leave a front of the text; after any other answer but `Done` nothing is
/// written.
pub fn answer_lines<A: Answering, I: Source, K: Sink>(
    alloc: Global,
    answers: &A,
    lines: &mut I,
    out: &mut K,
) -> Status
    ensures done { result ≡ Status.Done → IfSome (I.left lines.old) (λ bytes.
        Writes (IsAnswered (A.right answers.now) bytes) (K.held out.old) (K.held out.new)) }
    ensures lines { IfSome (I.left lines.old) (LinesSay result) }
    ensures statuses { IsOfAnswering result }
    ensures read { result ≡ Status.ReadFault Which.Script →
        Rose (I.faults lines.old) (I.faults lines.new) }
    ensures write { result ≡ Status.WriteFault → Rose (K.faults out.old) (K.faults out.new) }
    ensures front { result ≡ Status.WriteFault → IfSome (I.left lines.old) (λ bytes.
        WritesFront (IsAnswered (A.right answers.now) bytes) (K.held out.old) (K.held out.new)) }
    ensures part { result ≡ Status.NoMemory → Keeps (K.held out.old) (K.held out.new) }
    ensures nothing { IsUnwritten result → Keeps (K.held out.old) (K.held out.new) }
{
    let text = match text_for(alloc, answers, lines) {
        Ok(text) => text,
        Err(status) => return status,
    };
    match give_all(out, text.as_bytes()) {
        Ok(()) => Status::Done,
        Err(Failed) => Status::WriteFault,
    }
}

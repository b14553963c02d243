//! Query lines, read from standard input.
ghost use Rattle.std.specs.Prelude.{◌≡◌, Ok, IfOk, IfErr, IsErrOf, IfSome, OnOk};
ghost use Rattle.gh_base.specs.Causes.{Rose};
ghost use Rattle.map_roads.specs.Statuses.{IsShortScript};
ghost use Rattle.query_lines.specs.Lines.{AreQueries, LinesSay, IsOfLines, TellsFault, status_at};
ghost use Rattle.query_lines.specs.Queries.{and_one, queries_of};

use crate::line::query_at;
use crate::queries::{QueryList, TowerQuery};
use gh_base::{NoMemory, Source, first_bytes};
use map_roads::{Status, Which, read_input};
use script_text::LineFault;
use std::alloc::Global;

/// Appends a query where there is one.
fn put(queries: &mut QueryList, found: Option<TowerQuery>) -> Result<(), NoMemory>
    ensures { OnOk result (queries.new ≡ and_one queries.old found) }
{
    match found {
        None => Ok(()),
        Some(query) => queries.push(query),
    }
}

/// How a run ends at a line that isn't read.
fn status_at(line: u32, fault: LineFault) -> Status
    ensures { result ≡ status_at line fault }
{
    match fault {
        LineFault::NoMemory => Status::NoMemory,
        LineFault::At(byte, kind) => Status::BadScript { line, byte, kind },
    }
}

/// The queries that bytes are.
#[tactic(auto, unfolding(crate::specs::Queries::queries_of))]
fn queries_in(alloc: Global, bytes: &[u8]) -> Result<QueryList, Status>
    requires { IsShortScript bytes.now }
    ensures read { IfOk result (λ list. queries_of bytes.now ≡ Ok list) }
    ensures fault { IfErr result (TellsFault (queries_of bytes.now)) }
{
    let mut queries = QueryList::new(alloc);
    let mut number = 1;
    let mut left = Some(bytes);
    'lines: while let Some(text) = left {
        let (line, after) = first_bytes(text, b'\n');
        let found = query_at(line, queries.len()).map_err(|fault| status_at(number, fault))?;
        put(&mut queries, found)?;
        number += 1;
        left = after;
    }
    Ok(queries)
}

/// Reads query lines to the end of their source: at most 16777216 bytes, and at most 65536 queries.
///
/// A line is `nID nID`; empty lines and lines that begin with `#` are passed over. `BadScript` is
/// the first line that isn't in the form, counted from 1, and in it the first byte of the first
/// word that is wrong.
pub fn read_query_lines<I: Source>(alloc: Global, source: &mut I) -> Result<QueryList, Status>
    ensures queries { IfOk result (λ list.
        IfSome (I.left source.old) (λ held. AreQueries held list)) }
    ensures err { IfErr result (λ status. IfSome (I.left source.old) (LinesSay status)) }
    ensures early { IfErr result IsOfLines }
    ensures read { IsErrOf result (Status.ReadFault Which.Script) →
        Rose (I.faults source.old) (I.faults source.new) }
{
    let bytes = read_input(alloc, source)?;
    queries_in(alloc, bytes.as_slice())
}

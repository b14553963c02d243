//! Scripts.
ghost use Rattle.std.specs.Prelude.{◌≡◌, ◌≤◌, length, IfOk, IfErr, IsErrOf, IfSome};
ghost use Rattle.gh_base.specs.Causes.{Rose};
ghost use Rattle.script_text.specs.Scripts.{IsScript};
ghost use Rattle.gh_serve.specs.Statuses.{IsScriptRead, IsOfScript, ScriptSays};

use gh_base::Source;
use map_roads::{Status, Which, read_input};
use script_text::{ScriptFault, ScriptRead, read_script};
use std::alloc::Global;

/// The script that bytes are.
fn parse(alloc: Global, bytes: &[u8]) -> Result<ScriptRead, Status>
    requires { length bytes.now ≤ 16777216 }
    ensures read { IfOk result (IsScriptRead bytes.now) }
    ensures script { IfOk result (λ read. IsScript read.profiles read.script) }
    ensures err { IfErr result (λ status. ScriptSays status bytes.now) }
    ensures early { IfErr result IsOfScript }
    ensures fault { IsErrOf result (Status.ReadFault Which.Script) → ⊥ }
{
    match read_script(alloc, bytes) {
        Ok(read) => Ok(read),
        Err(ScriptFault::NoMemory) => Err(Status::NoMemory),
        Err(ScriptFault::At { line, byte, kind }) => Err(Status::BadScript { line, byte, kind }),
    }
}

/// Reads a script to the end of its source.
pub(crate) fn read_whole_script<I: Source>(
    alloc: Global,
    source: &mut I,
) -> Result<ScriptRead, Status>
    ensures read { IfOk result (λ read. IfSome (I.left source.old)
        (λ held. IsScriptRead held read)) }
    ensures script { IfOk result (λ read. IsScript read.profiles read.script) }
    ensures err { IfErr result (λ status. IfSome (I.left source.old) (ScriptSays status)) }
    ensures early { IfErr result IsOfScript }
    ensures fault { IsErrOf result (Status.ReadFault Which.Script) →
        Rose (I.faults source.old) (I.faults source.new) }
{
    let bytes = match read_input(alloc, source) {
        Ok(bytes) => bytes,
        Err(status) => return Err(status),
    };
    parse(alloc, &bytes)
}

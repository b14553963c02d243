//! The turn restrictions of a map's bytes.
ghost use Rattle.std.specs.Prelude.{◌≡◌, IfOk};
ghost use Rattle.turn_runs.specs.Turns.{turns_in};

use gh_base::{Form, NoMemory};
use std::alloc::Global;
use turn_graph::TurnList;
use turn_pbf::read_pbf_turns;
use turn_texts::read_plain_turns;

/// The restrictions of bytes in a form, in their order. A relation that is none is passed over.
pub fn read_turns(alloc: Global, bytes: &[u8], form: Form) -> Result<TurnList, NoMemory>
    ensures { IfOk result (λ turns. turns ≡ turns_in form bytes.now) }
{
    match form {
        Form::Plain => read_plain_turns(alloc, bytes),
        Form::Pbf => read_pbf_turns(alloc, bytes),
    }
}

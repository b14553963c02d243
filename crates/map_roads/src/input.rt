//! Standard input, read whole.
ghost use Rattle.std.specs.Prelude.{◌≡◌, ◌≤◌, length, IfOk, IfErr, IsErrOf, IfSome};
ghost use Rattle.gh_base.specs.Causes.{Rose};
ghost use Rattle.map_roads.specs.Statuses.{InputSays, IsOfInput};

use crate::status::{Quantity, Status, Which};
use gh_base::{Source, TakeFault, read_whole};
use std::alloc::Global;

/// The most bytes of a script: 16 MiB.
const LONGEST_SCRIPT: usize = 16_777_216;

/// Reads a script, or query lines, to the end of their source: at most 16777216 bytes.
pub fn read_input<I: Source>(alloc: Global, source: &mut I) -> Result<Vec<u8>, Status>
    ensures bytes { IfOk result (λ bytes. IfSome (I.left source.old) (λ held. held ≡ bytes.items)) }
    ensures short { IfOk result (λ bytes. length bytes.items ≤ 16777216) }
    ensures err { IfErr result (λ status. IfSome (I.left source.old) (InputSays status)) }
    ensures early { IfErr result IsOfInput }
    ensures read { IsErrOf result (Status.ReadFault Which.Script) →
        Rose (I.faults source.old) (I.faults source.new) }
{
    match read_whole(alloc, source, LONGEST_SCRIPT) {
        Ok(bytes) => Ok(bytes),
        Err(TakeFault::ReadFault) => Err(Status::ReadFault(Which::Script)),
        Err(TakeFault::NoMemory) => Err(Status::NoMemory),
        Err(TakeFault::TooLong) => Err(Status::TooLarge {
            what: Quantity::Script,
            limit: LONGEST_SCRIPT as u64,
        }),
    }
}

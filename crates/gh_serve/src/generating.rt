//! A run made of a size.
ghost use Rattle.std.specs.Prelude.{◌≡◌, ◌≤◌};
ghost use Rattle.std.specs.Io.KnownBytes.{Keeps};
ghost use Rattle.gh_base.specs.Causes.{Rose};
ghost use Rattle.generated_run.specs.Generating.{Generates, GeneratesFront};
ghost use Rattle.map_roads.specs.Statuses.{IsCalm, IsDoneOrNoMemory, IsOfRun};

use gh_base::{Gate, GiveFault, Sink};
use map_roads::Status;
use std::alloc::Global;
use std::thread::Threads;

/// Makes a map and a script of a size, answers the script over the roads of the map as `serve_script` does, and writes
/// what the replies come to.
///
/// It ends with `Done`, with `WriteFault`, after which a front of such a summary stands behind the sink's old bytes, or
/// with `NoMemory`, after which nothing does.
pub fn generate<R: Threads + Sync, K: Sink, G: Gate>(
    rt: &R,
    alloc: Global,
    size: u32,
    out: &mut K,
    gate: &G,
) -> Status
    requires two { 2 ≤ size }
    requires few { size ≤ 300 }
    ensures statuses { IsOfRun result }
    ensures generated { result ≡ Status.Done → Generates size (K.held out.old) (K.held out.new) }
    ensures generated_complete { IsCalm (K.faults out.old) (K.faults out.new) →
        IsDoneOrNoMemory result }
    ensures front { result ≡ Status.WriteFault →
        GeneratesFront size (K.held out.old) (K.held out.new) }
    ensures part { result ≡ Status.NoMemory → Keeps (K.held out.old) (K.held out.new) }
    ensures write { result ≡ Status.WriteFault → Rose (K.faults out.old) (K.faults out.new) }
{
    match generated_run::generate(rt, alloc, size, out, gate) {
        Ok(()) => Status::Done,
        Err(GiveFault::WriteFault) => Status::WriteFault,
        Err(GiveFault::NoMemory) => Status::NoMemory,
    }
}

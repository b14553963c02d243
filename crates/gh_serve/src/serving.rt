//! Scripts answered over roads.
ghost use Rattle.std.specs.Prelude.{◌≡◌, ◌⊎◌, length, List, ℕ};
ghost use Rattle.std.specs.List.{IsDistinct};
ghost use Rattle.std.specs.Ordering.{int_eq};
ghost use Rattle.std.specs.Io.KnownBytes.{Appends, Keeps};
ghost use Rattle.gh_base.specs.Causes.{Rose, AppendsFront};
ghost use Rattle.script_text.specs.Scripts.{IsScript};
ghost use Rattle.traffic_core.specs.Lands.{AreAsLong, land_of};
ghost use Rattle.script_service.specs.Writing.{BeginsText, Fits, BeginsOrFits};
ghost use Rattle.gh_serve.specs.Labels.{labels_asked};
ghost use Rattle.map_roads.specs.Cars.{size_of};
ghost use Rattle.gh_serve.specs.Statuses.{CountSays, IsOfAnswering};
ghost use Rattle.map_roads.specs.Statuses.{IsOfRun, IsUnwritten};

use crate::labels::are_few;
use gh_base::{Gate, GiveFault, Sink};
use map_import::Roads;
use map_roads::{MOST_LABELS, Quantity, Status};
use script_text::{Script, ScriptRead};
use std::alloc::Global;
use std::thread::Threads;
use traffic_core::Ground;

/// Answers a script over roads: the actors of a phase in threads, phase by phase, and then the journal.
///
/// It ends with `Done`, with `WriteFault`, after which a front of the text stands behind the sink's old bytes, or with
/// `NoMemory`, after which the replies of whole phases stand there.
pub fn serve_script<R: Threads + Sync, K: Sink, G: Gate>(
    rt: &R,
    alloc: Global,
    ground: &Ground,
    script: &Script,
    out: &mut K,
    gate: &G,
) -> Status
    requires { IsScript ground.now.profiles script.now }
    ensures statuses { IsOfRun result }
    ensures done { result ≡ Status.Done →
        (text : List ℕ) × Fits ground.now script.now text
        × Appends (K.held out.old) (K.held out.new) text }
    ensures front { result ≡ Status.WriteFault →
        (text : List ℕ) × BeginsOrFits ground.now script.now text
        × AppendsFront (K.held out.old) (K.held out.new) text }
    ensures part { result ≡ Status.NoMemory →
        (text : List ℕ) × BeginsText ground.now script.now text
        × Appends (K.held out.old) (K.held out.new) text }
    ensures cause { result ≡ Status.WriteFault → Rose (K.faults out.old) (K.faults out.new) }
{
    match script_service::serve_script(rt, alloc, ground, script, out, gate) {
        Ok(()) => Status::Done,
        Err(GiveFault::WriteFault) => Status::WriteFault,
        Err(GiveFault::NoMemory) => Status::NoMemory,
    }
}

/// Answers a script over the roads of a map, under the profiles that it declares, unless it asks for too many labels.
pub(crate) fn serve<R: Threads + Sync, K: Sink, G: Gate>(
    rt: &R,
    alloc: Global,
    roads: Roads,
    read: ScriptRead,
    out: &mut K,
    gate: &G,
) -> Status
    requires lengths { AreAsLong roads.graph.lists }
    requires ids { length roads.ids ≡ length roads.graph.lists.places }
    requires distinct { IsDistinct int_eq roads.ids }
    requires script { IsScript read.profiles read.script }
    ensures statuses { IsOfAnswering result }
    ensures labels { CountSays result
        (labels_asked (size_of (land_of roads read.profiles)) read.script) }
    ensures done { result ≡ Status.Done →
        (text : List ℕ) × Fits (land_of roads read.profiles) read.script text
        × Appends (K.held out.old) (K.held out.new) text }
    ensures front { result ≡ Status.WriteFault →
        (text : List ℕ) × BeginsOrFits (land_of roads read.profiles) read.script text
        × AppendsFront (K.held out.old) (K.held out.new) text }
    ensures part { result ≡ Status.NoMemory → Keeps (K.held out.old) (K.held out.new)
        ⊎ ((text : List ℕ) × BeginsText (land_of roads read.profiles) read.script text
        × Appends (K.held out.old) (K.held out.new) text) }
    ensures nothing { IsUnwritten result → Keeps (K.held out.old) (K.held out.new) }
    ensures cause { result ≡ Status.WriteFault → Rose (K.faults out.old) (K.faults out.new) }
{
    let ScriptRead { profiles, script } = read;
    let size = roads.graph.node_count() + roads.graph.edge_count();
    if !are_few(size, &script) {
        return Status::TooLarge {
            what: Quantity::Labels,
            limit: MOST_LABELS,
        };
    }
    let Ok(ground) = Ground::new(alloc, roads, profiles) else {
        return Status::NoMemory;
    };
    serve_script(rt, alloc, &ground, &script, out, gate)
}

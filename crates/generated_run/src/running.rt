//! A run of a size.
ghost use Rattle.std.specs.Prelude.{◌≡◌, ◌<◌, ◌≤◌, ◌*◌, ◌-◌, All, IfOk, IfErr, OnOk, IsErrOf, length};
ghost use Rattle.std.specs.List.{IsDistinct};
ghost use Rattle.std.specs.Ordering.{int_eq};
ghost use Rattle.std.specs.Io.KnownBytes.{Keeps};
ghost use Rattle.gh_base.specs.Causes.{Rose};
ghost use Rattle.gh_base.specs.declared.map.OsmNode.{OsmNode};
ghost use Rattle.gh_base.specs.Places.{IsOnEarth};
ghost use Rattle.traffic_core.specs.Lands.{AreAsLong, land_of};
ghost use Rattle.generated_run.specs.Generating.{AreRoadsOfSize, Generates, GeneratesFront, IsRunOf};
ghost use Rattle.generated_run.specs.Maps as maps;
ghost use Rattle.generated_run.specs.Scripts as scripts;

use crate::drawing::draws;
use crate::grid_map::map_of;
use crate::scripting::{SCRIPT_DRAWS, profiles, script_of};
use crate::summing::{Summary, summary_by, summary_text};
use gh_base::{Gate, GiveFault, NoMemory, OsmMap, Sink, give_all};
use map_import::{ImportFault, Roads, import};
use script_service::answer_script;
use std::alloc::Global;
use std::thread::Threads;
use traffic_core::Ground;

/// The one fault of an import that nothing can be refused in.
fn want_of_memory(_fault: ImportFault) -> NoMemory
    requires { _fault ≡ ImportFault.NoMemory }
{
    NoMemory
}

/// The roads of the map of a size. Nothing in it can be refused.
fn roads_of(alloc: Global, size: u32, map: &OsmMap) -> Result<Roads, NoMemory>
    requires two { 2 ≤ size }
    requires few { size ≤ 300 }
    requires map { map.now ≡ maps.map_of size }
    requires on_earth { All (λ (node : OsmNode). IsOnEarth node.place) map.now.nodes }
    ensures roads { IfOk result (λ found. AreRoadsOfSize size (land_of found scripts.profiles)) }
    ensures edges { IfOk result (λ found. length found.graph.lists.edges ≡ 2 * size * (size - 1)) }
    ensures lengths { IfOk result (λ found. AreAsLong found.graph.lists) }
    ensures ids { IfOk result (λ found. length found.ids ≡ length found.graph.lists.places) }
    ensures distinct { IfOk result (λ found. IsDistinct int_eq found.ids) }
{
    match import(alloc, map) {
        Ok(roads) => Ok(roads),
        Err(fault) => Err(want_of_memory(fault)),
    }
}

/// What the script of a size comes to over the roads of its map.
fn summary_of<R: Threads + Sync, G: Gate>(
    rt: &R,
    alloc: Global,
    size: u32,
    gate: &G,
) -> Result<Summary, NoMemory>
    requires two { 2 ≤ size }
    requires few { size ≤ 300 }
    ensures { IfOk result (IsRunOf size) }
{
    let draws = draws(alloc, size, 2 * size + SCRIPT_DRAWS)?;
    let map = map_of(alloc, size, &draws)?;
    let roads = roads_of(alloc, size, &map)?;
    let nodes = roads.graph.node_count();
    let edges = roads.graph.edge_count();
    let script = script_of(alloc, size, edges, &draws)?;
    let ground = Ground::new(alloc, roads, profiles(alloc)?)?;
    let answers = answer_script(rt, alloc, &ground, &script, gate)?;
    Ok(summary_by(nodes, edges, &answers.heard, answers.entries))
}

/// Makes a map and a script of a size, answers the script over the roads of the map, and writes what the replies come to.
pub fn generate<R: Threads + Sync, K: Sink, G: Gate>(
    rt: &R,
    alloc: Global,
    size: u32,
    out: &mut K,
    gate: &G,
) -> Result<(), GiveFault>
    requires two { 2 ≤ size }
    requires few { size ≤ 300 }
    // What is written is the summary of a text that fits.
    ensures done { OnOk result (Generates size (K.held out.old) (K.held out.new)) }
    // After a failed write a front of one, after want of memory nothing.
    ensures front { IsErrOf result GiveFault.WriteFault → GeneratesFront size (K.held out.old) (K.held out.new) }
    ensures nothing { IsErrOf result GiveFault.NoMemory → Keeps (K.held out.old) (K.held out.new) }
    ensures cause { IsErrOf result GiveFault.WriteFault → Rose (K.faults out.old) (K.faults out.new) }
{
    let summary = summary_of(rt, alloc, size, gate)?;
    let text = summary_text(alloc, &summary)?;
    give_all(out, text.as_bytes())?;
    Ok(())
}

//! The script of a size.
ghost use Rattle.std.specs.Prelude.{◌≡◌, ◌<◌, ◌≤◌, ◌+◌, ◌*◌, ◌++◌, [], ◌∷◌, map, length, IfOk, OnOk};
ghost use Rattle.std.specs.List.{range_with_len};
ghost use Rattle.script_text.specs.Scripts.{AreProfiles};
ghost use Rattle.generated_run.specs.Draws.{draw};
ghost use Rattle.generated_run.specs.Scripts as spec;

use crate::grid_map::text;
use gh_base::{NoMemory, Place};
use script_text::{Command, Line, Names, Phase, Phases, Script};
use std::alloc::Global;
use weighting::{Profiles, car_profile};

/// The draws of a script: one for each lowering, and two for each route.
pub(crate) const SCRIPT_DRAWS: u32 = 40;

/// How many limits are lowered.
const LOWERINGS: u32 = 8;

/// How many routes are asked for, and how many by each of four actors.
const ROUTES: u32 = 16;

const ROUTES_EACH: u32 = 4;

/// The limit that is set, in milli-km/h.
const LOW_LIMIT: u32 = 10_000;

/// The most entries of the journal: a lowering each, and a publication.
const CAPACITY: u32 = 9;

/// The profile of cars alone, as where no line declares one.
#[tactic(auto, using(script_text::proofs::Models::default_profile))]
pub(crate) fn profiles(alloc: Global) -> Result<Profiles, NoMemory>
    ensures profiles { IfOk result (λ all. all ≡ spec.profiles) }
    ensures sound { IfOk result AreProfiles }
{
    let mut all = Profiles::new(alloc);
    all.push(car_profile(alloc)?)?;
    Ok(all)
}

fn names(alloc: Global) -> Result<Names, NoMemory>
    ensures { IfOk result (λ names. names ≡ spec.names) }
{
    let mut names = Names::new(alloc);
    names.push(text(alloc, "f")?)?;
    names.push(text(alloc, "p")?)?;
    names.push(text(alloc, "s0")?)?;
    names.push(text(alloc, "s1")?)?;
    names.push(text(alloc, "s2")?)?;
    names.push(text(alloc, "s3")?)?;
    Ok(names)
}

fn lowering_at(edges: u32, k: u32, drawn: u32) -> Line
    requires edges { 0 < edges }
    requires k { k < 8 }
    ensures { result ≡ spec.lowering_by edges k drawn }
{
    Line {
        actor: 0,
        number: k + 1,
        command: Command::Lower {
            edge: drawn % edges,
            reverse: false,
            speed: LOW_LIMIT,
        },
    }
}

/// A preparation, beside the lowerings.
fn first_phase(alloc: Global, size: u32, edges: u32, draws: &[u32]) -> Result<Phase, NoMemory>
    requires size { size ≤ 300 }
    requires edges { 0 < edges }
    requires draws { draws.now ≡ map (draw size) (range_with_len 0 (length draws.now)) }
    requires enough { 2 * size + 40 ≤ length draws.now }
    ensures { IfOk result (λ phase. phase ≡ spec.preparing ∷ map (spec.lowering_at size edges) (range_with_len 0 8)) }
{
    let mut phase = Phase::new(alloc);
    phase.push(Line {
        actor: 1,
        number: 1,
        command: Command::Prepare {
            profile: 0,
            count: 4,
        },
    })?;
    for k in 0..LOWERINGS {
        let drawn = draws[(2 * size + k) as usize];
        phase.push(lowering_at(edges, k, drawn))?;
    }
    Ok(phase)
}

/// The publication of what was prepared.
fn second_phase(alloc: Global) -> Result<Phase, NoMemory>
    ensures { IfOk result (λ phase. phase ≡ spec.publishing ∷ []) }
{
    let mut phase = Phase::new(alloc);
    phase.push(Line {
        actor: 1,
        number: 2,
        command: Command::Publish { profile: 0 },
    })?;
    Ok(phase)
}

/// Some node, by a draw.
fn place_by(size: u32, drawn: u32) -> Place
    requires some { 0 < size }
    requires size { size ≤ 300 }
    ensures { result ≡ spec.place_by size drawn }
{
    Place::Id(i64::from(drawn % (size * size) + 1))
}

fn route_at(size: u32, k: u32, start: u32, target: u32) -> Line
    requires some { 0 < size }
    requires size { size ≤ 300 }
    requires k { k < 16 }
    ensures { result ≡ spec.route_by size k start target }
{
    Line {
        actor: k / ROUTES_EACH + 2,
        number: k % ROUTES_EACH + 1,
        command: Command::Route {
            from: place_by(size, start),
            to: place_by(size, target),
            labels: false,
        },
    }
}

/// The routes.
fn third_phase(alloc: Global, size: u32, draws: &[u32]) -> Result<Phase, NoMemory>
    requires some { 0 < size }
    requires size { size ≤ 300 }
    requires draws { draws.now ≡ map (draw size) (range_with_len 0 (length draws.now)) }
    requires enough { 2 * size + 40 ≤ length draws.now }
    ensures { IfOk result (λ phase. phase ≡ map (spec.route_at size) (range_with_len 0 16)) }
{
    let mut phase = Phase::new(alloc);
    let first = 2 * size + LOWERINGS;
    for k in 0..ROUTES {
        let start = draws[(first + 2 * k) as usize];
        let target = draws[(first + 2 * k + 1) as usize];
        phase.push(route_at(size, k, start, target))?;
    }
    Ok(phase)
}

/// The script of a size, by the size's draws, over roads of so many edges.
#[tactic(auto, unfolding(crate::specs::Scripts::script_of))]
pub(crate) fn script_of(
    alloc: Global,
    size: u32,
    edges: u32,
    draws: &[u32],
) -> Result<Script, NoMemory>
    requires some { 0 < size }
    requires size { size ≤ 300 }
    requires edges { 0 < edges }
    requires draws { draws.now ≡ map (draw size) (range_with_len 0 (length draws.now)) }
    requires enough { 2 * size + 40 ≤ length draws.now }
    ensures { IfOk result (λ script. script ≡ spec.script_of size edges) }
{
    let mut phases = Phases::new(alloc);
    phases.push(first_phase(alloc, size, edges, draws)?)?;
    phases.push(second_phase(alloc)?)?;
    phases.push(third_phase(alloc, size, draws)?)?;
    Ok(Script {
        capacity: CAPACITY,
        actors: names(alloc)?,
        phases,
    })
}

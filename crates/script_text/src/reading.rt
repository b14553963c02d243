//! A script, line by line.
ghost use Rattle.std.specs.Prelude.{◌≡◌, ◌≢◌, ◌<◌, ◌^◌, length, Ok, Err, IfOk, IfErr};
ghost use Rattle.script_text.specs.Commands as commands;
ghost use Rattle.script_text.specs.Grammar as spec;
ghost use Rattle.script_text.specs.Scripts.{IsScript, AreProfiles};
ghost use Rattle.script_text.specs.States.{IsSoFar, IsTally, IsSaid};

use crate::fault::{LineFault, ScriptFault};
use crate::line::{Said, read_line};
use crate::putting::put;
use crate::script::{Names, Phase, Phases, Script, ScriptRead};
use crate::so_far::{SoFar, Tally};
use gh_base::{NoMemory, first_bytes};
use std::alloc::Global;
use weighting::{Profiles, car_profile};

/// The profiles that are declared, or the default.
#[tactic(auto, using(crate::proofs::Models::default_profile))]
fn with_default(alloc: Global, profiles: Profiles) -> Result<Profiles, NoMemory>
    requires { AreProfiles profiles }
    ensures value { IfOk result (λ all. all ≡ commands.with_default profiles) }
    ensures some { IfOk result (λ all. 0 < length all) }
    ensures sound { IfOk result AreProfiles }
{
    if !profiles.is_empty() {
        return Ok(profiles);
    }
    let mut all = Profiles::new(alloc);
    all.push(car_profile(alloc)?)?;
    Ok(all)
}

/// The script that stands when all lines are read.
#[tactic(auto, using(crate::proofs::Growing::phases_more, crate::proofs::Growing::changes_are_few))]
fn finish(alloc: Global, so_far: SoFar, tally: &Tally) -> Result<ScriptRead, NoMemory>
    requires sound { IsSoFar so_far }
    requires counted { IsTally so_far tally.now }
    ensures value { IfOk result (λ read. read ≡ spec.script_from so_far) }
    ensures sound { IfOk result (λ read. IsScript read.profiles read.script) }
{
    let SoFar {
        profiles,
        journal,
        actors,
        mut done,
        phase,
    } = so_far;
    done.push(phase)?;
    let profiles = with_default(alloc, profiles)?;
    let capacity = journal.unwrap_or(tally.changes.max(1));
    Ok(ScriptRead {
        profiles,
        script: Script {
            capacity,
            actors,
            phases: done,
        },
    })
}

fn nothing(alloc: Global) -> SoFar
    ensures value { result ≡ spec.nothing }
{
    SoFar {
        profiles: Profiles::new(alloc),
        journal: None,
        actors: Names::new(alloc),
        done: Phases::new(alloc),
        phase: Phase::new(alloc),
    }
}

/// Reads a script of at most 4294967295 bytes.
///
/// `At` is the first line that isn't in the form, counted from 1, and in it the first byte of the first word that is
/// wrong. A script that is read has at least one profile, and at most 8 profiles, 16 actors and 65536 commands.
#[tactic(auto, using(crate::proofs::Growing::nothing_is_sound), unfolding(crate::specs::Grammar::script_of))]
pub fn read_script(alloc: Global, bytes: &[u8]) -> Result<ScriptRead, ScriptFault>
    requires { length bytes.now < 2 ^ 32 }
    ensures read { IfOk result (λ read. spec.script_of bytes.now ≡ Ok read) }
    // The first fault, unless memory ran out.
    ensures fault { IfErr result (λ e. e ≢ ScriptFault.NoMemory → spec.script_of bytes.now ≡ Err e) }
    ensures is_script { IfOk result (λ read. IsScript read.profiles read.script) }
{
    let mut so_far = nothing(alloc);
    let mut tally = Tally {
        commands: 0,
        changes: 0,
        numbers: [0; 16],
    };
    let mut number = 1u64;
    let mut left = Some(bytes);
    'lines: while let Some(text) = left {
        let (line, after) = first_bytes(text, b'\n');
        let said = match read_line(alloc, &so_far, tally.commands, line) {
            Ok(said) => said,
            Err(LineFault::NoMemory) => return Err(ScriptFault::NoMemory),
            Err(LineFault::At(byte, kind)) => {
                return Err(ScriptFault::At {
                    line: number as u32,
                    byte,
                    kind,
                });
            }
        };
        if put(alloc, &mut so_far, &mut tally, said).is_err() {
            return Err(ScriptFault::NoMemory);
        }
        number += 1;
        left = after;
    }
    finish(alloc, so_far, &tally).map_err(|_| ScriptFault::NoMemory)
}

//! The head of a store, and the limits behind it.
ghost use Rattle.std.specs.Prelude.{◌≡◌, ◌*◌, ◌++◌, ◌<◌, ◌≤◌, ◌^◌, length, All, IfOk, IfErr, OnOk};
ghost use Rattle.byteorder.specs.Endian.{big_bytes};
ghost use Rattle.prep_store.specs.Stores.{magic, words, head_text};
ghost use Rattle.prep_store.specs.FirstFaults.{IsCut, FailsInMagic, FailsInProfile, FailsInSizes, FailsInCount, FailsInHead};
ghost use Rattle.prep_store.specs.Readings.{place, Takes, Fails};

use crate::fault::PrepFault;
use crate::units::{read_two, read_u32, read_whole};
use gh_base::{LimitList, Source};
use std::alloc::Global;
use traffic_core::Ground;

/// How a store begins.
const MAGIC: &[u8] = b"GHPREP01";

/// The greatest number of landmarks.
const MOST_LANDMARKS: u32 = 16;

/// What a head says besides the sizes of the roads.
#[derive(Clone, Copy)]
pub(crate) struct Head {
    pub(crate) profile: u32,
    pub(crate) count: u32,
}

/// Reads the first bytes, which tell a store.
fn read_magic<S: Source>(source: &mut S, at: &mut u64) -> Result<(), PrepFault>
    requires { at.old ≤ 2 ^ 62 }
    ensures text { OnOk result (Takes (place S.left S.faults S.mark source.old at.old) (place S.left S.faults S.mark source.new at.new) magic) }
    ensures fails { IfErr result (Fails FailsInMagic (place S.left S.faults S.mark source.old at.old) (place S.left S.faults S.mark source.new at.new)) }
{
    let mut buf = [0; 8];
    read_whole(source, at, &mut buf)?;
    if buf.as_slice() != MAGIC {
        return Err(PrepFault::Magic);
    }
    Ok(())
}

/// Reads a profile of the ground.
fn read_profile<S: Source>(ground: &Ground, source: &mut S, at: &mut u64) -> Result<u32, PrepFault>
    requires { at.old ≤ 2 ^ 62 }
    ensures text { IfOk result (λ profile. Takes (place S.left S.faults S.mark source.old at.old) (place S.left S.faults S.mark source.new at.new) (big_bytes 4 profile)) }
    ensures there { IfOk result (λ profile. profile < length ground.now.profiles) }
    ensures word { IfOk result (λ profile. profile < 2 ^ 32) }
    ensures fails { IfErr result (Fails (FailsInProfile ground.now) (place S.left S.faults S.mark source.old at.old) (place S.left S.faults S.mark source.new at.new)) }
{
    let profile = read_u32(source, at)?;
    if profile as usize >= ground.profiles().len() {
        return Err(PrepFault::Profile { profile });
    }
    Ok(profile)
}

/// Reads the sizes of the ground.
fn read_sizes<S: Source>(ground: &Ground, source: &mut S, at: &mut u64) -> Result<(), PrepFault>
    requires { at.old ≤ 2 ^ 62 }
    ensures text { OnOk result (Takes (place S.left S.faults S.mark source.old at.old) (place S.left S.faults S.mark source.new at.new) (big_bytes 4 (length ground.now.graph.places) ++ big_bytes 4 (length ground.now.graph.edges))) }
    ensures fails { IfErr result (Fails (FailsInSizes ground.now) (place S.left S.faults S.mark source.old at.old) (place S.left S.faults S.mark source.new at.new)) }
{
    let (towers, edges) = read_two(source, at)?;
    let graph = ground.graph();
    if towers != graph.node_count() || edges != graph.edge_count() {
        return Err(PrepFault::Sizes { towers, edges });
    }
    Ok(())
}

/// Reads a number of landmarks.
fn read_count<S: Source>(source: &mut S, at: &mut u64) -> Result<u32, PrepFault>
    requires { at.old ≤ 2 ^ 62 }
    ensures text { IfOk result (λ count. Takes (place S.left S.faults S.mark source.old at.old) (place S.left S.faults S.mark source.new at.new) (big_bytes 4 count)) }
    ensures some { IfOk result (λ count. 1 ≤ count) }
    ensures few { IfOk result (λ count. count ≤ 16) }
    ensures fails { IfErr result (Fails FailsInCount (place S.left S.faults S.mark source.old at.old) (place S.left S.faults S.mark source.new at.new)) }
{
    let count = read_u32(source, at)?;
    if count == 0 || count > MOST_LANDMARKS {
        return Err(PrepFault::Count { count });
    }
    Ok(count)
}

/// Reads the head of a store of a ground.
pub(crate) fn read_head<S: Source>(
    ground: &Ground,
    source: &mut S,
    at: &mut u64,
) -> Result<Head, PrepFault>
    requires { at.old ≤ 2 ^ 60 }
    ensures text { IfOk result (λ head. Takes (place S.left S.faults S.mark source.old at.old) (place S.left S.faults S.mark source.new at.new) (head_text ground.now head.profile head.count)) }
    ensures there { IfOk result (λ head. head.profile < length ground.now.profiles) }
    ensures word { IfOk result (λ head. head.profile < 2 ^ 32) }
    ensures some { IfOk result (λ head. 1 ≤ head.count) }
    ensures few { IfOk result (λ head. head.count ≤ 16) }
    ensures fails { IfErr result (Fails (FailsInHead ground.now) (place S.left S.faults S.mark source.old at.old) (place S.left S.faults S.mark source.new at.new)) }
{
    read_magic(source, at)?;
    let profile = read_profile(ground, source, at)?;
    read_sizes(ground, source, at)?;
    let count = read_count(source, at)?;
    Ok(Head { profile, count })
}

/// Reads two limits for each of so many edges.
pub(crate) fn read_limits<S: Source>(
    alloc: Global,
    source: &mut S,
    at: &mut u64,
    edges: u32,
) -> Result<LimitList, PrepFault>
    requires { at.old ≤ 2 ^ 60 }
    ensures text { IfOk result (λ limits. Takes (place S.left S.faults S.mark source.old at.old) (place S.left S.faults S.mark source.new at.new) (words limits)) }
    ensures long { IfOk result (λ limits. length limits ≡ 2 * edges) }
    ensures each { IfOk result (λ limits. All (λ limit. limit < 2 ^ 32) limits) }
    ensures fails { IfErr result (Fails (IsCut (8 * edges)) (place S.left S.faults S.mark source.old at.old) (place S.left S.faults S.mark source.new at.new)) }
{
    let mut limits = LimitList::new(alloc);
    'limits: for _ in 0..2 * u64::from(edges) {
        limits.push(read_u32(source, at)?)?;
    }
    Ok(limits)
}

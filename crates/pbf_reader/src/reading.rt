//! A file, read whole.
ghost use Rattle.std.specs.Prelude.{◌≡◌, ◌≤◌, All, IfOk, IfSome, OnOk, IsErrOf};
ghost use Rattle.std.specs.Io.KnownBytes.{IsAtEnd};
ghost use Rattle.gh_base.specs.Causes.{Rose};
ghost use Rattle.gh_base.specs.Places.{IsOnEarth};
ghost use Rattle.pbf_wire.specs.Files.{reads};
ghost use Rattle.gh_base.specs.Maps.{IsFileMap};
ghost use Rattle.pbf_reader.specs.Reading.{Gives, Answers};

use crate::blobs::{read_header, with_blob};
use crate::fault::{PbfFault, fault};
use gh_base::{OsmMap, OsmNodes, OsmWays, PbfKind, Source, TakeFault, read_whole};
use std::alloc::Global;

/// The most bytes of a file: 256 MiB.
const LONGEST_FILE: usize = 268435456;

/// The map that these bytes are.
#[tactic(auto, using(crate::proofs::File::start_file, crate::proofs::File::next_blob, crate::proofs::File::end_file, crate::proofs::File::no_blob, crate::proofs::File::bad_header, crate::proofs::File::bad_blob))]
fn parse(alloc: Global, file: &[u8]) -> Result<OsmMap, PbfFault>
    ensures { Gives result (reads file.now) }
{
    let mut map = OsmMap {
        nodes: OsmNodes::new(alloc),
        ways: OsmWays::new(alloc),
    };
    let mut first = true;
    let mut at = 0;
    'blobs: while at < file.len() {
        let header = read_header(alloc, file, first, at)?;
        map = with_blob(alloc, file, map, header)?;
        at = header.end + header.datasize as usize;
        first = false;
    }
    if first {
        return Err(fault(at as u64, PbfKind::NoHeader));
    }
    Ok(map)
}

/// The map that these bytes are, which is one that a file can say.
#[tactic(auto, using(crate::proofs::Kept::is_kept, crate::proofs::Kept::are_on_earth))]
fn parse_map(alloc: Global, file: &[u8]) -> Result<OsmMap, PbfFault>
    ensures read { Gives result (reads file.now) }
    ensures kept { IfOk result IsFileMap }
    ensures on_earth { IfOk result (λ m. All (λ n. IsOnEarth n.place) m.nodes) }
{
    parse(alloc, file)
}

/// Reads a PBF file of at most 268435456 bytes to the end of its source.
///
/// `At` is the first fault of the first blob that has one, in the order in which `specs/` of `pbf_wire` seeks them.
/// `ReadFault` and `TooLong`, whichever is met first, come before any fault of the content.
pub fn read_pbf<S: Source>(alloc: Global, source: &mut S) -> Result<OsmMap, PbfFault>
    // The answer is the map that the source held, or the first fault.
    ensures answer { IfSome (S.left source.old) (Answers 268435456 result) }
    ensures fault { IsErrOf result PbfFault.ReadFault → Rose (S.faults source.old) (S.faults source.new) }
    ensures end { OnOk result (IsAtEnd (S.left source.new)) }
    ensures later { S.faults source.old ≤ S.faults source.new }
    ensures mark { S.mark source.new ≡ S.mark source.old }
    // Also where the source doesn't tell what it holds.
    ensures on_earth { IfOk result (λ m. All (λ n. IsOnEarth n.place) m.nodes) }
    ensures kept { IfOk result IsFileMap }
{
    match read_whole(alloc, source, LONGEST_FILE) {
        Ok(bytes) => parse_map(alloc, &bytes),
        Err(TakeFault::ReadFault) => Err(PbfFault::ReadFault),
        Err(TakeFault::TooLong) => Err(PbfFault::TooLong),
        Err(TakeFault::NoMemory) => Err(PbfFault::NoMemory),
    }
}

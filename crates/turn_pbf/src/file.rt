//! The restrictions of a file, blob by blob.
ghost use Rattle.std.specs.Prelude.{◌≡◌, ◌++◌, ◌+◌, ◌≤◌, length, IfOk, OnOk};
ghost use Rattle.turn_pbf.specs.PbfTurns.{blob_turns, pbf_turns};

use crate::blocks::add_block;
use crate::found::{content_found, header_found};
use gh_base::NoMemory;
use pbf_reader::{before, is_data};
use pbf_wire::BlobHeader;
use std::alloc::Global;
use turn_graph::TurnList;

/// Adds the restrictions of the Blob that a header announces.
#[tactic(auto, unfolding(crate::specs::PbfTurns::blob_turns))]
fn add_blob(
    alloc: Global,
    turns: &mut TurnList,
    file: &[u8],
    header: BlobHeader,
) -> Result<(), NoMemory>
    requires { header.end + header.datasize ≤ length file.now }
    ensures { OnOk result (turns.new ≡ turns.old ++ blob_turns file.now header) }
{
    if !is_data(file, header.name) {
        return Ok(());
    }
    let stop = header.end + header.datasize as usize;
    let Some(piece) = content_found(alloc, file, header.end, stop)? else {
        return Ok(());
    };
    add_block(alloc, turns, before(file, piece.end), piece.start)
}

/// The restrictions of a PBF file, in order. Each relation that isn't of the form, or is no restriction,
/// is passed over.
#[tactic(auto, using(crate::proofs::Blobs::start_blobs, crate::proofs::Blobs::next_blob, crate::proofs::Blobs::end_blobs, crate::proofs::Blobs::no_header))]
pub fn read_pbf_turns(alloc: Global, file: &[u8]) -> Result<TurnList, NoMemory>
    ensures { IfOk result (λ turns. turns ≡ pbf_turns file.now) }
{
    let mut turns = TurnList::new(alloc);
    let mut first = true;
    let mut at = 0;
    'blobs: while at < file.len() {
        let Some(header) = header_found(alloc, file, first, at)? else {
            return Ok(turns);
        };
        add_blob(alloc, &mut turns, file, header)?;
        at = header.end + header.datasize as usize;
        first = false;
    }
    Ok(turns)
}

//! A header block: what a reader must be able to do.
ghost use Rattle.std.specs.Prelude.{◌≡◌, IfOk};
ghost use Rattle.pbf_wire.specs.Headers.{is_known, name_of, features_in, header_block};
ghost use Rattle.pbf_reader.specs.Reading.{Gives};

use crate::blocks::text_of;
use crate::fault::{PbfFault, check_run, fault};
use crate::pieces::holds_bytes;
use crate::runs::{before, part, read_run};
use gh_base::{NoMemory, PbfKind, Text};
use pbf_wire::{Piece, Spot};
use std::alloc::Global;

fn is_known_feature(name: &[u8]) -> bool
    ensures { result ≡ is_known name.now }
{
    name == b"OsmSchema-V0.6".as_slice() || name == b"DenseNodes".as_slice()
}

fn feature_name(alloc: Global, name: &[u8]) -> Result<Text, NoMemory>
    ensures { IfOk result (λ t. t ≡ name_of name.now) }
{
    let mut text = Text::new(alloc);
    match text_of(name) {
        Some(name) => {
            text.push(name)?;
            Ok(text)
        }
        None => Ok(text),
    }
}

fn check_features(alloc: Global, bytes: &[u8], fields: &[Spot]) -> Result<(), PbfFault>
    ensures { Gives result (features_in bytes.now fields.now) }
{
    for spot in fields {
        let name = part(bytes, spot.field.start, spot.field.end);
        if holds_bytes(4, spot) && !is_known_feature(name) {
            let name = feature_name(alloc, name)?;
            return Err(fault(spot.key as u64, PbfKind::Feature { name }));
        }
    }
    Ok(())
}

/// The first fault of the header block in a stretch.
#[tactic(auto, unfolding(pbf_wire::specs::Headers::header_block))]
pub(crate) fn check_header(alloc: Global, file: &[u8], piece: Piece) -> Result<(), PbfFault>
    ensures { Gives result (header_block file.now piece) }
{
    let bytes = before(file, piece.end);
    let run = read_run(alloc, bytes, piece.start)?;
    check_run(run.bad)?;
    check_features(alloc, bytes, run.fields.as_slice())
}

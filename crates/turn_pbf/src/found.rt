//! What a reader of maps reads, or None where it finds a fault.
ghost use Rattle.std.specs.Prelude.{◌≡◌, ◌<◌, ◌≤◌, ◌+◌, length, IfOk, IfSome};
ghost use Rattle.std.specs.Result.{result_ok};
ghost use Rattle.pbf_wire.specs.Ways.{tags_of};
ghost use Rattle.pbf_wire.specs.Blocks.{texts_in};
ghost use Rattle.pbf_wire.specs.Blobs.{header_at, content_at};

use gh_base::{NoMemory, Sequence, TagList, Text};
use pbf_reader::{PbfFault, made_tags, read_content, read_header, read_texts};
use pbf_wire::{BlobHeader, Piece, Spot};
use std::alloc::Global;

/// The tags of these keys and values.
pub(crate) fn tags_found(
    alloc: Global,
    texts: &[Text],
    keys: &[u64],
    values: &[u64],
) -> Result<Option<TagList>, NoMemory>
    ensures { IfOk result (λ tags. tags ≡ result_ok (tags_of 0 texts.now keys.now values.now)) }
{
    match made_tags(alloc, 0, texts, keys, values) {
        Ok(tags) => Ok(Some(tags)),
        Err(PbfFault::NoMemory) => Err(NoMemory),
        Err(PbfFault::At { .. }) => Ok(None),
        Err(PbfFault::ReadFault) => Ok(None),
        Err(PbfFault::TooLong) => Ok(None),
    }
}

/// The strings of a table.
pub(crate) fn texts_found(
    alloc: Global,
    table: &[u8],
    pieces: &[Piece],
    fields: &[Spot],
) -> Result<Option<Sequence<Text>>, NoMemory>
    ensures { IfOk result (λ texts. texts ≡ result_ok (texts_in table.now pieces.now fields.now)) }
{
    match read_texts(alloc, table, pieces, fields) {
        Ok(texts) => Ok(Some(texts)),
        Err(PbfFault::NoMemory) => Err(NoMemory),
        Err(PbfFault::At { .. }) => Ok(None),
        Err(PbfFault::ReadFault) => Ok(None),
        Err(PbfFault::TooLong) => Ok(None),
    }
}

/// Where the content of the Blob between two places stands.
pub(crate) fn content_found(
    alloc: Global,
    file: &[u8],
    start: usize,
    end: usize,
) -> Result<Option<Piece>, NoMemory>
    ensures { IfOk result (λ piece. piece ≡ result_ok (content_at file.now start end)) }
{
    match read_content(alloc, file, start, end) {
        Ok(piece) => Ok(Some(piece)),
        Err(PbfFault::NoMemory) => Err(NoMemory),
        Err(PbfFault::At { .. }) => Ok(None),
        Err(PbfFault::ReadFault) => Ok(None),
        Err(PbfFault::TooLong) => Ok(None),
    }
}

/// The BlobHeader whose length stands at a place.
pub(crate) fn header_found(
    alloc: Global,
    file: &[u8],
    first: bool,
    at: usize,
) -> Result<Option<BlobHeader>, NoMemory>
    requires { at ≤ length file.now }
    ensures header { IfOk result (λ header. header ≡ result_ok (header_at file.now first at)) }
    ensures inside { IfOk result (λ header. IfSome header (λ h. (at < h.end) × (h.end + h.datasize ≤ length file.now))) }
{
    match read_header(alloc, file, first, at) {
        Ok(header) => Ok(Some(header)),
        Err(PbfFault::NoMemory) => Err(NoMemory),
        Err(PbfFault::At { .. }) => Ok(None),
        Err(PbfFault::ReadFault) => Ok(None),
        Err(PbfFault::TooLong) => Ok(None),
    }
}

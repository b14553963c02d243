//! Blobs, and the headers that announce them.
ghost use Rattle.std.specs.Prelude.{◌≡◌, ◌<◌, ◌≤◌, ◌+◌, length, codes, None, IfOk, IfSome};
ghost use Rattle.pbf_wire.specs.Blobs.{header_length, is_named, header_at, is_content, last_content, content_at, blob_with};
ghost use Rattle.pbf_reader.specs.Reading.{Gives};

use crate::blocks::with_block;
use crate::fault::{PbfFault, check_run, fault};
use crate::headers::check_header;
use crate::pieces::{last_of, scalar};
use crate::runs::{before, part, read_run};
use byteorder::{BigEndian, ByteOrder};
use gh_base::{OsmMap, PbfKind};
use pbf_wire::{BlobHeader, Piece, Spot};
use std::alloc::Global;

/// How many bytes the length of a BlobHeader takes.
const LENGTH_BYTES: usize = 4;

/// A BlobHeader has less than 64 KiB.
const END_OF_HEADER: u32 = 65536;

/// A Blob has at most 32 MiB of content, and room for the field's key.
const LONGEST_BLOB: u64 = 33555456;

/// The length of the BlobHeader at a place.
#[tactic(auto, unfolding(pbf_wire::specs::Blobs::header_length))]
fn length_at(file: &[u8], at: usize) -> Result<usize, PbfFault>
    requires { at ≤ length file.now }
    ensures value { Gives result (header_length file.now at) }
    ensures small { IfOk result (λ n. n < 65536) }
{
    let (_, rest) = file.split_at(at);
    if rest.len() < LENGTH_BYTES {
        return Err(fault(file.len() as u64, PbfKind::Truncated));
    }
    let size = BigEndian::read_u32(rest);
    if size >= END_OF_HEADER {
        return Err(fault(at as u64, PbfKind::HeaderTooLong));
    }
    Ok(size as usize)
}

fn is_header(file: &[u8], name: Piece) -> bool
    ensures { result ≡ is_named (codes "OSMHeader") file.now name }
{
    part(file, name.start, name.end) == b"OSMHeader".as_slice()
}

/// Whether the Blob that a header of this name announces has nodes, ways and relations.
pub fn is_data(file: &[u8], name: Piece) -> bool
    ensures { result ≡ is_named (codes "OSMData") file.now name }
{
    part(file, name.start, name.end) == b"OSMData".as_slice()
}

/// The BlobHeader whose length stands at a place.
#[tactic(auto, unfolding(pbf_wire::specs::Blobs::header_at))]
pub fn read_header(
    alloc: Global,
    file: &[u8],
    first: bool,
    at: usize,
) -> Result<BlobHeader, PbfFault>
    requires { at ≤ length file.now }
    ensures header { Gives result (header_at file.now first at) }
    ensures inside { IfOk result (λ h. (at < h.end) × (h.end + h.datasize ≤ length file.now)) }
{
    let size = length_at(file, at)?;
    if file.len() - at < size + LENGTH_BYTES {
        return Err(fault(file.len() as u64, PbfKind::Truncated));
    }
    let start = at + LENGTH_BYTES;
    let end = start + size;
    let run = read_run(alloc, before(file, end), start)?;
    check_run(run.bad)?;
    let fields = run.fields.as_slice();
    let Some(name) = last_of(1, fields) else {
        return Err(fault(start as u64, PbfKind::Missing));
    };
    let Some(datasize) = scalar(3, fields) else {
        return Err(fault(start as u64, PbfKind::Missing));
    };
    if datasize > LONGEST_BLOB {
        return Err(fault(start as u64, PbfKind::BlobTooLong));
    }
    if first && !is_header(file, name) {
        return Err(fault(at as u64, PbfKind::NoHeader));
    }
    if ((file.len() - end) as u64) < datasize {
        return Err(fault(file.len() as u64, PbfKind::Truncated));
    }
    Ok(BlobHeader {
        name,
        datasize,
        end,
    })
}

fn is_blob_content(spot: &Spot) -> bool
    ensures { result ≡ is_content spot.now }
{
    spot.field.wire == 2
        && (spot.field.number == 1 || (3 <= spot.field.number && spot.field.number <= 7))
}

fn last_of_content(fields: &[Spot]) -> Option<Spot>
    ensures value { result ≡ last_content None fields.now }
    ensures small { IfSome result (λ s. s.field.number ≤ 7) }
{
    let mut found = None;
    for spot in fields {
        if is_blob_content(spot) {
            found = Some(*spot);
        }
    }
    found
}

/// Where the content of the Blob between two places stands.
#[tactic(auto, unfolding(pbf_wire::specs::Blobs::content_at))]
pub fn read_content(alloc: Global, file: &[u8], start: usize, end: usize) -> Result<Piece, PbfFault>
    ensures { Gives result (content_at file.now start end) }
{
    let run = read_run(alloc, before(file, end), start)?;
    check_run(run.bad)?;
    let Some(spot) = last_of_content(run.fields.as_slice()) else {
        return Err(fault(start as u64, PbfKind::NoData));
    };
    if spot.field.number != 1 {
        let field = spot.field.number as u32;
        return Err(fault(spot.key as u64, PbfKind::Compressed { field }));
    }
    Ok(Piece {
        start: spot.field.start,
        end: spot.field.end,
    })
}

/// A map with the Blob that a header announces.
#[tactic(auto, unfolding(pbf_wire::specs::Blobs::blob_with))]
pub(crate) fn with_blob(
    alloc: Global,
    file: &[u8],
    map: OsmMap,
    header: BlobHeader,
) -> Result<OsmMap, PbfFault>
    requires { header.end + header.datasize ≤ length file.now }
    ensures { Gives result (blob_with file.now map header) }
{
    let stop = header.end + header.datasize as usize;
    if is_header(file, header.name) {
        let piece = read_content(alloc, file, header.end, stop)?;
        check_header(alloc, file, piece)?;
        Ok(map)
    } else if is_data(file, header.name) {
        let piece = read_content(alloc, file, header.end, stop)?;
        with_block(alloc, file, map, piece)
    } else {
        Ok(map)
    }
}

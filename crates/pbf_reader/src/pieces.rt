//! Scalars, and values of one message that stand in several places, as if their bytes followed each other.
ghost use Rattle.std.specs.Prelude.{◌≡◌, IfOk, None};
ghost use Rattle.pbf_wire.specs.Pieces.{is_bytes, pieces_of, last_piece, joined_of, place_in, placed, scalar_of};

use crate::runs::part;
use gh_base::{NoMemory, Sequence};
use pbf_wire::{Piece, Spot};
use std::alloc::Global;

/// The last varint of a number.
pub fn scalar(number: u64, fields: &[Spot]) -> Option<u64>
    ensures { result ≡ scalar_of number None fields.now }
{
    let mut found = None;
    for spot in fields {
        if spot.field.number == number && spot.field.wire == 0 {
            found = Some(spot.field.value);
        }
    }
    found
}

/// Whether a field holds bytes, under this number.
pub fn holds_bytes(number: u64, spot: &Spot) -> bool
    ensures { result ≡ is_bytes number spot.now }
{
    spot.field.number == number && spot.field.wire == 2
}

/// Where the bytes of a number stand.
pub fn pieces(alloc: Global, number: u64, fields: &[Spot]) -> Result<Sequence<Piece>, NoMemory>
    ensures { IfOk result (λ p. p ≡ pieces_of number fields.now) }
{
    let mut found = Sequence::new(alloc);
    for spot in fields {
        if holds_bytes(number, spot) {
            found.push(Piece {
                start: spot.field.start,
                end: spot.field.end,
            })?;
        }
    }
    Ok(found)
}

/// Where the last bytes of a number stand.
pub(crate) fn last_of(number: u64, fields: &[Spot]) -> Option<Piece>
    ensures { result ≡ last_piece None (pieces_of number fields.now) }
{
    let mut found = None;
    for spot in fields {
        if holds_bytes(number, spot) {
            found = Some(Piece {
                start: spot.field.start,
                end: spot.field.end,
            });
        }
    }
    found
}

/// The bytes of these stretches, one behind another.
pub fn join(alloc: Global, bytes: &[u8], pieces: &[Piece]) -> Result<Vec<u8>, NoMemory>
    ensures { IfOk result (λ v. v.items ≡ joined_of bytes.now pieces.now) }
{
    let mut joined = Vec::new(alloc);
    for piece in pieces {
        joined.extend_from_slice(part(bytes, piece.start, piece.end))?;
    }
    Ok(joined)
}

/// Where a byte of what was joined stands.
pub(crate) fn place_of(pieces: &[Piece], offset: u64) -> u64
    ensures { result ≡ place_in pieces.now offset }
{
    let mut left = offset;
    for piece in pieces {
        let size = piece.end.saturating_sub(piece.start) as u64;
        if left < size {
            return piece.start as u64 + left;
        }
        left -= size;
    }
    left
}

/// Where a key in what was joined stands.
pub(crate) fn placed_in(pieces: &[Piece], offset: Option<u64>) -> Option<u64>
    ensures { result ≡ placed pieces.now offset }
{
    match offset {
        None => None,
        Some(offset) => Some(place_of(pieces, offset)),
    }
}

//! A blob before its header and its length.
ghost use Rattle.std.specs.Prelude.{◌≡◌, ◌≤◌, length, IfOk};
ghost use Rattle.std.specs.Int.{bytes_high_first};
ghost use Rattle.pbf_wire.specs.Writing.{entry_text, header_text, blob_text};

use crate::fields::put_number;
use byteorder::{BigEndian, ByteOrder};
use gh_base::NoMemory;
use pbf_wire::put_bytes;
use std::alloc::Global;

/// The BlobHeader of a type before a Blob of this length.
fn header(alloc: Global, name: &[u8], size: u64) -> Result<Vec<u8>, NoMemory>
    ensures { IfOk result (λ bytes. bytes.items ≡ header_text name.now size) }
{
    let mut bytes = Vec::new(alloc);
    put_bytes(&mut bytes, 1, name)?;
    put_number(&mut bytes, 3, size)?;
    Ok(bytes)
}

/// The length of a header, as it stands before it.
fn length_bytes(length: u32) -> [u8; 4]
    ensures { result ≡ bytes_high_first 4 length }
{
    let mut bytes = [0; 4];
    BigEndian::write_u32(&mut bytes, length);
    bytes
}

/// A Blob with this content, behind its length and its header.
#[tactic(auto, unfolding(pbf_wire::specs::Writing::entry_text))]
pub(crate) fn entry(alloc: Global, name: &[u8], content: &[u8]) -> Result<Vec<u8>, NoMemory>
    requires { length name.now ≤ 100 }
    ensures { IfOk result (λ bytes. bytes.items ≡ entry_text name.now content.now) }
{
    let mut blob = Vec::new(alloc);
    put_bytes(&mut blob, 1, content)?;
    let header = header(alloc, name, blob.len() as u64)?;
    let mut bytes = Vec::new(alloc);
    bytes.extend_from_slice(&length_bytes(header.len() as u32))?;
    bytes.extend_from_slice(&header)?;
    bytes.extend_from_slice(&blob)?;
    Ok(bytes)
}

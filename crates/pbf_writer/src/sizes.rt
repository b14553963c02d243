//! How long fields are.
ghost use Rattle.std.specs.Prelude.{◌≡◌, ◌<◌, ◌≤◌, ◌+◌, ◌^◌, length};
ghost use Rattle.pbf_wire.specs.Put.{varint_bytes, bytes_field};

/// What a byte of a varint holds beside its top bit.
const GROUP: u64 = 128;

#[tactic(auto, using(crate::proofs::Counts::start_count, crate::proofs::Counts::more_count, crate::proofs::Counts::end_count, crate::proofs::Counts::few_count))]
fn varint_size(value: u64) -> u64
    ensures size { result ≡ length (varint_bytes value) }
    ensures most { result ≤ 10 }
{
    let mut size = 1;
    let mut left = value;
    'groups: while left >= GROUP {
        left /= GROUP;
        size += 1;
    }
    size
}

/// How many bytes a field takes that holds these.
#[tactic(auto, unfolding(pbf_wire::specs::Put::bytes_field))]
pub(crate) fn field_size(number: u32, bytes: &[u8]) -> u64
    ensures size { result ≡ length (bytes_field number bytes.now) }
    ensures most { result < 2 ^ 63 + 21 }
{
    varint_size(8 * u64::from(number) + 2) + varint_size(bytes.len() as u64) + bytes.len() as u64
}

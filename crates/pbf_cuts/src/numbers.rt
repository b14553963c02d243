//! The law in numbers, on a file of three blobs.
ghost use Rattle.std.specs.Prelude.{◌≡◌, ◌↔◌, ℕ, ◌<◌, ◌≤◌, take, Err, IsOk};
ghost use Rattle.gh_base.specs.declared.kinds.PbfKind.TheVariants.{Truncated, NoHeader};
ghost use Rattle.pbf_wire.specs.Files.{reads};
ghost use Rattle.pbf_cuts.specs.ThreeBlobs.{three_blobs, IsOneOfThreeEnds};

/// What is read of a file of 143 bytes, whose blobs take 47, 39 and 57 of them, cut at each length. It
/// does nothing when it is called.
pub fn three_blobs_in_numbers()
    ensures empty { reads (take 0 three_blobs) ≡ Err (0, NoHeader) }
    ensures read { (n : ℕ) → n ≤ 143 → IsOk (reads (take n three_blobs)) ↔ IsOneOfThreeEnds n }
    ensures cut { (n : ℕ) → 0 < n → n ≤ 143 → (IsOneOfThreeEnds n → ⊥) →
        reads (take n three_blobs) ≡ Err (n, Truncated) }
{}

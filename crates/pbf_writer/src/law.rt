//! What is written is read again.
ghost use Rattle.std.specs.Prelude.{◌≡◌, Ok};
ghost use Rattle.gh_base.specs.declared.map.OsmMap.{OsmMap};
ghost use Rattle.pbf_wire.specs.Files.{reads};
ghost use Rattle.pbf_wire.specs.Writing.{IsWritable, pbf_text};

/// A law: the file of a map is read as that map, where its ids and references have at most eighteen digits, its places
/// are on the earth, its keys and values are texts and each of its ways fits. It does nothing when it is called.
pub fn files_are_read_again()
    ensures { (m : OsmMap) → IsWritable m → reads (pbf_text m) ≡ Ok m }
{}

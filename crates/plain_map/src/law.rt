//! What is printed is read again.
ghost use Rattle.std.specs.Prelude.{◌≡◌, Ok};
ghost use Rattle.gh_base.specs.declared.map.OsmMap.{OsmMap};
ghost use Rattle.plain_map.specs.Lines.{reads};
ghost use Rattle.plain_map.specs.Printing.{IsPrintable, plain_text};

/// A law: the text of a map is read as that map, where its ids and references have at most eighteen digits, its places
/// are on the earth and its keys and values are texts. It does nothing when it is called.
pub fn maps_are_read_again()
    ensures { (m : OsmMap) → IsPrintable m → reads (plain_text m) ≡ Ok m }
{}

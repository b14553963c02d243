//! The laws. Each function does nothing: what it ensures is the law.
ghost use Rattle.store_laws.specs.Laws.{OneStored, StoredHasNoFault};

/// Bytes are stored for one preparation.
pub fn stores_are_of_one()
    ensures { OneStored }
{}

/// Bytes that are stored for a preparation have no fault, so they are read wherever reading and memory don't fail.
pub fn stores_have_no_fault()
    ensures { StoredHasNoFault }
{}

//! The laws. Each function does nothing: what it ensures is the law.
ghost use Rattle.prep_store.specs.Laws.{EvidenceTellsLabels, StoredIsTrue, StoresAreReadAgain};

/// A list that is evidence tells the labels of its landmark.
pub fn evidence_tells_labels()
    ensures { EvidenceTellsLabels }
{}

/// What bytes are stored for is true over the ground.
pub fn stored_is_true()
    ensures { StoredIsTrue }
{}

/// What is written of a preparation is stored for it.
pub fn stores_are_read_again()
    ensures { StoresAreReadAgain }
{}

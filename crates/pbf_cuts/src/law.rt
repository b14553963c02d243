//! What is read of each front of a file.
ghost use Rattle.pbf_cuts.specs.Cuts.{FrontsAreTold};

/// A law: each front of a file that is read is told apart by where it ends. It does nothing when it is
/// called.
pub fn cuts_are_told()
    ensures { FrontsAreTold }
{}

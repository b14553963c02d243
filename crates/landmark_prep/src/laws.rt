//! The laws. Each function does nothing: what it ensures is the law.
ghost use Rattle.landmark_prep.specs.Laws.{PreparationsAreOne, PlacingsAreOne, PreparedRoadsAreOpen, LandmarksAreTheCount, NodesAreLabelled, PreparationsFit, ActiveLandmarksAreOne};

/// A network has one preparation, which has labels for each node.
pub fn preparations_are_one()
    ensures one { PreparationsAreOne }
    ensures placing { PlacingsAreOne }
    ensures count { LandmarksAreTheCount }
    ensures nodes { NodesAreLabelled }
{}

/// Where a network has a preparation, some hop has a weight.
pub fn prepared_roads_are_open()
    ensures { PreparedRoadsAreOpen }
{}

/// The labels of a preparation fit its network, so its potential is feasible.
pub fn preparations_fit()
    ensures { PreparationsFit }
{}

/// The active landmarks are determined.
pub fn active_landmarks_are_one()
    ensures { ActiveLandmarksAreOne }
{}

//! The laws. Each function does nothing: what it ensures is the law.
ghost use Rattle.walk_rules.specs.Laws.{LeastWalksWeighTheSame, OneLeastWeight, FallsAlongWalks, RisesAlongWalks, FeasibleBoundsAreBelow, WalksStayWithin, EvidenceShowsLeast, ClosedSetsShowNoWalk, ShownLeastIsLeast, ShownNoneIsNone, ToldWeightsShowLeast, ToldWeightsShowNone, OneReach, OneDistance, OneLabel, StartsAreBetweenCounts, StartsAreAllCandidates, WalksTurnRound, TurnedBothWays, LabelsTurnRound};

/// A least weight is unique.
pub fn least_weights_are_unique()
    ensures walks { LeastWalksWeighTheSame }
    ensures weight { OneLeastWeight }
{}

/// A walk ends at a node, and a bound changes along it by no more than its weight.
pub fn bounds_change_by_weights()
    ensures within { WalksStayWithin }
    ensures falls { FallsAlongWalks }
    ensures rises { RisesAlongWalks }
    ensures below { FeasibleBoundsAreBelow }
{}

/// Evidence shows that no walk weighs less, and a closed set that there is none.
pub fn evidence_shows()
    ensures least { EvidenceShowsLeast }
    ensures none { ClosedSetsShowNoWalk }
    ensures shown_least { ShownLeastIsLeast }
    ensures shown_none { ShownNoneIsNone }
{}

/// Least weights that are told give the evidence.
pub fn told_weights_show()
    ensures least { ToldWeightsShowLeast }
    ensures none { ToldWeightsShowNone }
{}

/// A distance has one value, and so has a label.
pub fn distances_are_unique()
    ensures reach { OneReach }
    ensures distance { OneDistance }
    ensures label { OneLabel }
{}

/// The number of starts lies between two counts of candidates.
pub fn starts_are_counted()
    ensures between { StartsAreBetweenCounts }
    ensures all { StartsAreAllCandidates }
{}

/// Over a network that is turned round walks and labels go the other way.
pub fn walks_turn_round()
    ensures both { TurnedBothWays }
    ensures walks { WalksTurnRound }
    ensures labels { LabelsTurnRound }
{}

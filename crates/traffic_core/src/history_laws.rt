//! The laws of histories. Each function does nothing: what it ensures is the law.
ghost use Rattle.traffic_core.specs.HistoryLaws.{OpeningLimits, LimitsChange, OneLimitList, SlotsCover, OneInSlot, NewestIsInSlot, NoneComesBack, StaysInSlot, LeavesWhenAbove};

/// Limits are those of the last entry on each directed edge, and there is one list of them.
pub fn limits_follow_entries()
    ensures opening { OpeningLimits }
    ensures change { LimitsChange }
    ensures one { OneLimitList }
{}

/// What is in a slot, and when it leaves.
pub fn slots_follow_limits()
    ensures cover { SlotsCover }
    ensures one { OneInSlot }
    ensures newest { NewestIsInSlot }
    ensures none { NoneComesBack }
    ensures stays { StaysInSlot }
    ensures leaves { LeavesWhenAbove }
{}

//! Both sides in turn.
ghost use Rattle.std.specs.Prelude.{◌≡◌, ◌≢◌, ◌+◌, ◌-◌, ◌^◌, ◌<◌, ◌≤◌, ◌⊎◌, ℕ, Some, IfOk};
ghost use Rattle.two_way_search.specs.Opposed.{AreOpposed};
ghost use Rattle.two_way_search.specs.Sides.{reduced_by, AreSmall};
ghost use Rattle.two_way_search.specs.Meetings.{MayGoOn, AreUnderway};

use crate::meeting::{Meeting, may_go_on};
use crate::side::Side;
use gh_base::{NoMemory, NodeId, Potential, RoadView};
use std::alloc::Global;

/// Both sides, and the best walk so far.
#[derive(Drop)]
pub struct Sides {
    pub forward: Side,
    pub backward: Side,
    pub met: Option<Meeting>,
}

/// Settles nodes from both ends in turn, until no walk that isn't known is lighter than the best.
pub fn expand_both<V: RoadView, W: RoadView, P: Potential, Q: Potential>(
    alloc: Global,
    out: &mut V,
    back: &mut W,
    ahead: &P,
    behind: &Q,
    start: NodeId,
    target: NodeId,
    first: u128,
    second: u128,
) -> Result<Sides, NoMemory>
    requires start { start.0 < (V.network out.old).nodes }
    requires target { target.0 < (V.network out.old).nodes }
    requires apart { start.0 ≢ target.0 }
    requires first { reduced_by (P.bound ahead.now) (Q.bound behind.now) start.0 ≡ Some first }
    requires second { reduced_by (Q.bound behind.now) (P.bound ahead.now) target.0 ≡ Some second }
    requires asked { AreSmall (P.bound ahead.now) (Q.bound behind.now) start.0 }
    requires asked_back { AreSmall (Q.bound behind.now) (P.bound ahead.now) target.0 }
    requires count { V.starts out.old ≤ 2 ^ 63 }
    requires count_back { W.starts back.old ≤ 2 ^ 63 }
    requires opposed { AreOpposed (V.network out.old) (W.network back.old)
        (P.bound ahead.now) (Q.bound behind.now) start.0 target.0 }
    ensures network { V.network out.new ≡ V.network out.old }
    ensures network_back { W.network back.new ≡ W.network back.old }
    ensures starts { IfOk result (λ sides.
        V.starts out.new ≡ V.starts out.old + sides.forward.settled) }
    ensures starts_back { IfOk result (λ sides.
        W.starts back.new ≡ W.starts back.old + sides.backward.settled) }
    ensures rise { V.starts out.new ≤ V.starts out.old + (V.network out.old).nodes }
    ensures rise_back { W.starts back.new ≤ W.starts back.old + (V.network out.old).nodes }
    ensures sides { IfOk result (λ sides. AreUnderway (V.network out.old) (W.network back.old)
        (P.bound ahead.now) (Q.bound behind.now) start.0 target.0
        sides.forward sides.backward sides.met) }
    ensures ended { IfOk result (λ sides.
        MayGoOn sides.forward.next sides.backward.next sides.met → ⊥) }
{
    let nodes = out.node_count();
    let mut sides = Sides {
        forward: Side::begin(alloc, nodes, start, first)?,
        backward: Side::begin(alloc, nodes, target, second)?,
        met: None,
    };
    'turns: while may_go_on(&sides.forward, &sides.backward, sides.met) {
        sides.take_turn(out, back, ahead, behind, start, target);
    }
    Ok(sides)
}

impl Sides {
    /// The side of the start is the first, and after it the sides take turns.
    fn take_turn<V: RoadView, W: RoadView, P: Potential, Q: Potential>(
        &mut self,
        out: &mut V,
        back: &mut W,
        ahead: &P,
        behind: &Q,
        start: NodeId,
        target: NodeId,
    )
        requires count { V.starts out.old < 2 ^ 64 - 1 }
        requires count_back { W.starts back.old < 2 ^ 64 - 1 }
        requires few { (V.network out.old).nodes < 2 ^ 32 }
        requires opposed { AreOpposed (V.network out.old) (W.network back.old)
            (P.bound ahead.now) (Q.bound behind.now) start.0 target.0 }
        requires sides { AreUnderway (V.network out.old) (W.network back.old)
            (P.bound ahead.now) (Q.bound behind.now) start.0 target.0
            self.old.forward self.old.backward self.old.met }
        requires on { MayGoOn self.old.forward.next self.old.backward.next self.old.met }
        ensures network { V.network out.new ≡ V.network out.old }
        ensures network_back { W.network back.new ≡ W.network back.old }
        ensures starts { V.starts out.new + self.old.forward.settled ≡
            V.starts out.old + self.new.forward.settled }
        ensures starts_back { W.starts back.new + self.old.backward.settled ≡
            W.starts back.old + self.new.backward.settled }
        ensures one { self.new.forward.settled + self.new.backward.settled ≡
            self.old.forward.settled + self.old.backward.settled + 1 }
        ensures sides { AreUnderway (V.network out.old) (W.network back.old)
            (P.bound ahead.now) (Q.bound behind.now) start.0 target.0
            self.new.forward self.new.backward self.new.met }
    {
        if self.forward.settled == self.backward.settled {
            self.met = self
                .forward
                .settle_next(out, ahead, behind, &self.backward.reached, self.met);
        } else {
            self.met = self
                .backward
                .settle_next(back, behind, ahead, &self.forward.reached, self.met);
        }
    }
}

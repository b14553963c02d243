//! The calls of a seat that append: each is refused, with its cause at the list of then, or its entry is the last.
ghost use Rattle.std.specs.Prelude.{◌≡◌, ◌<◌, length, IfOk, OnErr, MatchOption};
ghost use Rattle.traffic_core.specs.declared.entry.What.TheVariants.{Lower, Restore, Publish};
ghost use Rattle.traffic_share.specs.Seats.{entry_of, GrewWithout};
ghost use Rattle.traffic_share.specs.Lowering.{Lowers};
ghost use Rattle.traffic_share.specs.Restoring.{Restores};
ghost use Rattle.traffic_share.specs.Publishing.{Publishes};
ghost use Rattle.weighting.specs.Roads.{opening_of};
ghost use Rattle.traffic_core.specs.History.{limit_after, Covers, IsFirstBelow};
ghost use Rattle.traffic_core.specs.Trips.{along};

use super::Seat;
use crate::replies::{LowerReply, PublishReply, RestoreReply};
use crate::sealed::{Naming, Sealed, TruePrep};
use gh_base::{DirEdge, EdgeId, Limits, NoMemory};
use traffic_core::{Entry, What};
use weighting::Opening;

impl<'l, 'g, J: Naming> Seat<'l, 'g, J> {
    /// Lowers the limit of a directed edge to a speed in milli-km/h, by a command of a number above all before.
    pub fn lower(
        &mut self,
        number: u32,
        edge: u32,
        reverse: bool,
        speed: u32,
    ) -> Result<LowerReply, NoMemory>
        requires { self.old.last < number }
        ensures cells { self.new.cells ≡ self.old.cells }
        ensures actor { self.new.actor ≡ self.old.actor }
        ensures last { self.new.last ≡ number }
        ensures ok { IfOk result (Lowers J.land.graph number (along (record { 0 = edge }) reverse) speed self.old self.new) }
        ensures err { OnErr result (GrewWithout (entry_of self.old number (Lower (along (record { 0 = edge }) reverse) speed)) self.old.entries self.new.entries) }
    {
        self.last = number;
        let by = DirEdge {
            edge: EdgeId(edge),
            reverse,
        };
        if edge >= self.ground().graph().edge_count() {
            return Ok(LowerReply::NoSuchEdge { edge });
        }
        let mine = Sealed::<J>::new(Entry {
            actor: self.actor,
            number,
            what: What::Lower { edge: by, speed },
        });
        'turns: loop {
            let (at, now) = (self.len(), self.limit(by));
            if speed >= now {
                return Ok(LowerReply::NotLower { at, now });
            }
            if self.is_full() {
                return Ok(LowerReply::JournalFull { at });
            }
            if self.offer(&mine)? {
                return Ok(LowerReply::Lowered { at: at + 1 });
            }
        }
    }

    /// Restores the limit of a directed edge to a speed in milli-km/h, at most the limit that it opened with, by a
    /// command of a number above all before.
    pub fn restore(
        &mut self,
        number: u32,
        edge: u32,
        reverse: bool,
        speed: u32,
    ) -> Result<RestoreReply, NoMemory>
        requires { self.old.last < number }
        ensures cells { self.new.cells ≡ self.old.cells }
        ensures actor { self.new.actor ≡ self.old.actor }
        ensures last { self.new.last ≡ number }
        ensures ok { IfOk result (Restores J.land.graph number (along (record { 0 = edge }) reverse) speed self.old self.new) }
        ensures err { OnErr result (GrewWithout (entry_of self.old number (Restore (along (record { 0 = edge }) reverse) speed)) self.old.entries self.new.entries) }
    {
        self.last = number;
        let by = DirEdge {
            edge: EdgeId(edge),
            reverse,
        };
        if edge >= self.ground().graph().edge_count() {
            return Ok(RestoreReply::NoSuchEdge { edge });
        }
        let base = self.opening(by);
        let mine = Sealed::<J>::new(Entry {
            actor: self.actor,
            number,
            what: What::Restore { edge: by, speed },
        });
        'turns: loop {
            let (at, now) = (self.len(), self.limit(by));
            if speed <= now {
                return Ok(RestoreReply::NotHigher { at, now });
            }
            if speed > base {
                return Ok(RestoreReply::OverBase { at, base });
            }
            if self.is_full() {
                return Ok(RestoreReply::JournalFull { at });
            }
            if self.offer(&mine)? {
                return Ok(RestoreReply::Restored { at: at + 1 });
            }
        }
    }

    /// Publishes a preparation for all queries of its profile, by a command of a number above all before.
    pub fn publish(&mut self, number: u32, prep: &TruePrep<J>) -> Result<PublishReply, NoMemory>
        requires { self.old.last < number }
        ensures cells { self.new.cells ≡ self.old.cells }
        ensures actor { self.new.actor ≡ self.old.actor }
        ensures last { self.new.last ≡ number }
        ensures ok { IfOk result (Publishes J.land.graph number prep.now self.old self.new) }
        ensures err { OnErr result (GrewWithout (entry_of self.old number (Publish prep.now)) self.old.entries self.new.entries) }
    {
        self.last = number;
        let mine = Sealed::<J>::new(Entry {
            actor: self.actor,
            number,
            what: What::Publish {
                prep: prep.shared().again()?,
            },
        });
        'turns: loop {
            let at = self.len();
            if let Some(edge) = self.first_below(prep) {
                let (then, now) = (prep.limit(edge), self.limit(edge));
                return Ok(PublishReply::NotInForce {
                    at,
                    edge,
                    then,
                    now,
                });
            }
            if self.is_full() {
                return Ok(PublishReply::JournalFull { at });
            }
            if self.offer(&mine)? {
                return Ok(PublishReply::Published { at: at + 1 });
            }
        }
    }

    /// The first directed edge, forward before reverse, whose limit in a preparation's snapshot is below that after the
    /// list.
    fn first_below(&self, prep: &TruePrep<J>) -> Option<DirEdge>
        ensures { MatchOption result (Covers J.land.graph self.now.entries prep.now) (IsFirstBelow J.land.graph (limit_after J.land.graph self.now.entries) prep.now.snapshot) }
    {
        self.state().first_below(prep.shared().prep().snapshot())
    }

    /// The limit of a directed edge before any entry.
    fn opening(&self, by: DirEdge) -> u32
        requires { by.edge.0 < length J.land.graph.edges }
        ensures { result ≡ opening_of J.land.graph by }
    {
        Opening::new(self.ground().graph()).limit(by)
    }

    /// The limit of a directed edge after the list.
    fn limit(&self, by: DirEdge) -> u32
        requires { by.edge.0 < length J.land.graph.edges }
        ensures { result ≡ limit_after J.land.graph self.now.entries by }
    {
        self.state().limit(by)
    }
}

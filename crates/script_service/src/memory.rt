//! What an actor keeps from one reply to the next.
ghost use Rattle.std.specs.Prelude.{◌≡◌, ◌<◌, ◌^◌, [], List, length, None, Some, IfOk, OnOk, slice_index_or, slice_set};
ghost use Rattle.traffic_core.specs.declared.entry.Entry.{Entry};
ghost use Rattle.route_sessions.specs.Sessions.{IsInForce, reply_to, rule_with};
ghost use Rattle.script_service.specs.Going.{Knows};
ghost use Rattle.script_service.specs.SeatReplies.{left_by};

use gh_base::NoMemory;
use route_sessions::{ModelReply, Session};
use std::alloc::Global;
use std::marker::Model;
use traffic_core::Ground;
use traffic_share::{Naming, PublishReply, TruePrep};

/// The rule of the actor's queries, and the preparation of each profile, by number, that it has made and not published.
/// Contracts see both.
#[derive(Drop)]
pub struct Memory<J: Naming> {
    session: Session,
    held: Vec<Option<TruePrep<J>>>,
}

impl<J: Naming> Model for Memory<J> {
    ghost use Rattle.std.specs.Prelude.{◌≡◌, length};
    ghost use Rattle.route_sessions.specs.Sessions.{IsInForce};
    ghost use Rattle.script_service.specs.Going.{Knowing};
    ghost use Rattle.model_eval.specs.contracts.conditions.Test as e;
    ghost use Rattle.std.specs.Coded.{codes};

    ghost Value = { Knowing };

    ghost coded = { Prim.hlevel (codes, e.the_row.coded) };

    ghost view = { λ m. record { rule = m.session; held = m.held.items } };

    ghost invariant = { λ m. IsInForce J.land.profiles m.session × (length m.held.items ≡ length J.land.profiles) };
}

impl<J: Naming> Memory<J> {
    /// What an actor keeps before its first reply: the first profile without a statement, and no preparation.
    pub fn new(alloc: Global, ground: &Ground) -> Result<Memory<J>, NoMemory>
        requires land { ground.now ≡ J.land }
        requires some { 0 < length J.land.profiles }
        ensures { IfOk result (λ memory. (journal : List Entry) → Knows J.land journal [] memory) }
    {
        let profiles = ground.profiles();
        let session = Session::new(alloc, profiles)?;
        let mut held = Vec::new(alloc);
        for _ in 0..profiles.len() {
            held.push(None)?;
        }
        Ok(Memory { session, held })
    }

    pub fn session(&self) -> &Session
        ensures rule { result.now ≡ self.now.rule }
        ensures in_force { IsInForce J.land.profiles result.now }
    {
        &self.session
    }

    /// Takes a model in JSON as the rule, as `Session::take_model`.
    pub fn take_model(
        &mut self,
        alloc: Global,
        ground: &Ground,
        profile: u32,
        text: &[u8],
    ) -> Result<ModelReply, NoMemory>
        requires land { ground.now ≡ J.land }
        requires profile { profile < length J.land.profiles }
        requires text { length text.now < 2 ^ 32 }
        ensures reply { IfOk result (λ reply. reply ≡ reply_to J.land.profiles profile text.now) }
        ensures rule { OnOk result (self.new ≡ record {
          rule = rule_with J.land.profiles self.old.rule profile text.now;
          held = self.old.held;
        }) }
    {
        self.session
            .take_model(alloc, ground.profiles(), profile, text)
    }

    /// The preparation of a profile that the actor holds.
    pub fn held(&self, profile: u32) -> &Option<TruePrep<J>>
        requires { profile < length J.land.profiles }
        ensures is { result.now ≡ slice_index_or self.now.held profile None }
        // There is a place for each profile.
        ensures each { length self.now.held ≡ length J.land.profiles }
    {
        &self.held[profile as usize]
    }

    /// Holds a preparation of a profile in place of the one before.
    pub fn hold(&mut self, profile: u32, prep: TruePrep<J>)
        requires { profile < length J.land.profiles }
        ensures holds { self.new ≡ record { rule = self.old.rule; held = slice_set self.old.held profile (Some prep) } }
        ensures each { length self.old.held ≡ length J.land.profiles }
    {
        self.held[profile as usize] = Some(prep);
    }

    /// Lets go of the preparation of a profile where it was published.
    pub fn leave(&mut self, profile: u32, reply: &PublishReply)
        requires { profile < length J.land.profiles }
        ensures { self.new ≡ record { rule = self.old.rule; held = left_by self.old.held profile reply.now } }
    {
        if matches!(reply, PublishReply::Published { .. }) {
            self.held[profile as usize] = None;
        }
    }
}

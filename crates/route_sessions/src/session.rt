//! The rule in force for an actor.
ghost use Rattle.std.specs.Prelude.{◌≡◌, ◌<◌, ◌^◌, length, None, IfOk, OnOk, OnErr};
ghost use Rattle.gh_base.specs.Readings.{Gives};
ghost use Rattle.model_eval.specs.Slowing.{offender};
ghost use Rattle.weighting.specs.Profiles.{profile_at};
ghost use Rattle.route_sessions.specs.Sessions as spec;

use exact_json::{JsonFault, JsonKind, read};
use gh_base::{ModelKind, NoMemory, PartFault, Place3};
use model_check::{Speeding, check, plain};
use model_eval::{CustomModel, SlowModel};
use model_parser::{ModelFault, parse_model};
use std::alloc::Global;
use std::marker::Model;
use weighting::Profiles;

/// What a session answers to a model.
#[derive(Clone, Copy, Debug, PartialEq, Eq)]
pub enum ModelReply {
    /// The model is in force.
    Taken,
    /// The text is no JSON: the first fault.
    BadJson { byte: u32, kind: JsonKind },
    /// The JSON is no model: the first fault.
    BadModel { place: Place3, kind: ModelKind },
    /// The model could make the profile faster: the first offender.
    Speeds(Speeding),
}

/// Why a text is no rule.
type RuleFault = PartFault<ModelReply>;

/// The rule in force for an actor. Contracts see the profile, by its number, and the model, which only slows it.
#[derive(Debug, Drop)]
pub struct Session {
    profile: u32,
    model: SlowModel,
}

impl Model for Session {
    ghost use Rattle.model_eval.specs.contracts.conditions.Test as e;
    ghost use Rattle.route_sessions.specs.Sessions.{InForce};
    ghost use Rattle.std.specs.Coded.{codes};

    ghost Value = { InForce };

    ghost coded = { Prim.hlevel (codes, e.the_row.coded) };

    ghost view = { λ a. record { profile = a.profile; model = a.model } };
}

#[tactic(auto, using(crate::proofs::Plain::at_number))]
fn model_of(profiles: &Profiles, profile: u32) -> &CustomModel
    requires { profile < length profiles.now }
    ensures { result.now ≡ (profile_at profiles.now profile).model }
{
    &profiles.get(profile as usize).model
}

/// The slowing model that a text is under a profile's model.
#[tactic(auto, using(crate::proofs::Plain::nothing_offends), unfolding(crate::specs::Sessions::rule_of))]
fn rule(alloc: Global, profile: &CustomModel, text: &[u8]) -> Result<SlowModel, RuleFault>
    requires { length text.now < 2 ^ 32 }
    ensures value { Gives result (spec.rule_of profile.now text.now) }
    ensures slow { IfOk result (λ model. offender profile.now model ≡ None) }
{
    if text.is_empty() {
        return Ok(plain(alloc));
    }
    let json = match read(alloc, text) {
        Ok(json) => json,
        Err(JsonFault::NoMemory) => return Err(RuleFault::NoMemory),
        Err(JsonFault::At { byte, kind }) => {
            return Err(RuleFault::Is(ModelReply::BadJson { byte, kind }));
        }
    };
    let model = match parse_model(alloc, &json) {
        Ok(model) => model,
        Err(ModelFault::NoMemory) => return Err(RuleFault::NoMemory),
        Err(ModelFault::At { place, kind }) => {
            return Err(RuleFault::Is(ModelReply::BadModel { place, kind }));
        }
    };
    match check(profile, model) {
        Ok(slow) => Ok(slow),
        Err(speeding) => Err(RuleFault::Is(ModelReply::Speeds(speeding))),
    }
}

impl Session {
    /// The rule that an actor begins with: the first profile, and no statement.
    #[tactic(auto, using(crate::proofs::Plain::nothing_offends))]
    pub fn new(alloc: Global, profiles: &Profiles) -> Result<Session, NoMemory>
        requires { 0 < length profiles.now }
        ensures first { IfOk result (λ session. session ≡ spec.first_rule) }
        ensures in_force { IfOk result (spec.IsInForce profiles.now) }
    {
        prove!(!profiles.is_empty());
        Ok(Session {
            profile: 0,
            model: plain(alloc),
        })
    }

    /// The number of the profile.
    pub fn profile(&self) -> u32
        ensures { result ≡ self.now.profile }
    {
        self.profile
    }

    pub fn model(&self) -> &SlowModel
        ensures { result.now ≡ self.now.model }
    {
        &self.model
    }

    /// Takes a profile and a model in JSON as the rule; the empty text is the model without a statement.
    ///
    /// `Taken` comes exactly where the text is empty, or is JSON, a model, and slow under the profile. `BadJson` and
    /// `BadModel` name the first fault, `Speeds` the first offender; then, and after `NoMemory`, the rule before stays.
    pub fn take_model(
        &mut self,
        alloc: Global,
        profiles: &Profiles,
        profile: u32,
        text: &[u8],
    ) -> Result<ModelReply, NoMemory>
        requires profile { profile < length profiles.now }
        requires text { length text.now < 2 ^ 32 }
        // Taken, or the first fault, or the first offender.
        ensures reply { IfOk result (λ reply. reply ≡ spec.reply_to profiles.now profile text.now) }
        ensures rule { OnOk result (self.new ≡ spec.rule_with profiles.now self.old profile text.now) }
        ensures in_force { spec.IsInForce profiles.now self.old → spec.IsInForce profiles.now self.new }
        ensures kept { OnErr result (self.new ≡ self.old) }
    {
        match rule(alloc, model_of(profiles, profile), text) {
            Ok(model) => {
                self.profile = profile;
                self.model = model;
                Ok(ModelReply::Taken)
            }
            Err(RuleFault::NoMemory) => Err(NoMemory),
            Err(RuleFault::Is(reply)) => Ok(reply),
        }
    }
}

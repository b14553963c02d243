//! The weight of a directed edge.
ghost use Rattle.std.specs.Prelude.{◌≡◌, ◌*◌, ◌<◌, ◌≤◌, ◌^◌, min, length, option_map, unwrap_or};
ghost use Rattle.std.specs.Option.{option_or};
ghost use Rattle.model_eval.specs.Models.{IsModel};
ghost use Rattle.model_eval.specs.declared.custom_model.Running.TheVariants as running;
ghost use Rattle.weighting.specs.Rules.{rule_of};
ghost use Rattle.weighting.specs.Plain as plain;
ghost use Rattle.weighting.specs.Roads as roads;
ghost use Rattle.weighting.specs.Weights as spec;

use crate::opening::Opening;
use crate::profile::Profile;
use crate::quotient::{guesses_by_kmh, quotient_of};
use base_graph::BaseGraph;
use gh_base::{DirEdge, EdgeId, Limits, Vehicle};
use model_eval::{CustomModel, SlowModel, Statements, areas_of, priority_of, speed_of};
use std::marker::Model;

/// A km/h in milli-km/h.
const MILLI: u32 = 1000;

/// The priority that a run starts from: 1, in millionths.
const FIRST_PRIORITY: u32 = 1_000_000;

/// The ms that a mm takes at 1 milli-km/h.
const MS_FOR_A_MM: u64 = 3600;

/// The millionths in one.
const MILLION: u64 = 1_000_000;

/// The mm for which an influence of 1 s/km counts 1 ms.
const MM_FOR_A_MS: u64 = 1000;

/// What gives roads their weights: a profile, and maybe a query's model, which runs after it. Contracts see
/// the vehicle and the models.
#[derive(Drop)]
pub struct Weighting<'a> {
    profile: &'a Profile,
    query: Option<&'a SlowModel>,
    influence: u32,
    is_idle: bool,
    guesses: [u64; 256],
}

impl<'a> Model for Weighting<'a> {
    ghost use Rattle.weighting.specs.Rules.{Rule};
    ghost use Rattle.model_eval.specs.contracts.conditions.Test as e;
    ghost use Rattle.std.specs.Coded.{codes};

    ghost Value = { Rule };

    ghost coded = { Prim.hlevel (codes, e.the_row.coded) };

    ghost use Rattle.std.specs.Prelude.{◌≡◌, option_map};
    ghost use Rattle.model_eval.specs.Models.{IsModel};
    ghost use Rattle.weighting.specs.Rules.{rule_of};
    ghost use Rattle.weighting.specs.Weights.{influence_by};
    ghost use Rattle.weighting.specs.Plain.{has_no_statement};

    ghost view = { λ a. record { vehicle = a.profile.now.vehicle; profile = a.profile.now.model; query = option_map (λ q. q.now) a.query } };

    ghost invariant = { λ a. let rule = rule_of a.profile.now (option_map (λ q. q.now) a.query) in
        IsModel a.profile.now.model × (a.influence ≡ influence_by rule) × (a.is_idle ≡ has_no_statement rule) };
}

/// A running speed in milli-km/h, and a running priority in millionths.
#[derive(Clone, Copy)]
struct Runs {
    speed: u32,
    priority: u32,
}

/// What a model makes of both running numbers on a directed edge.
fn runs_of(model: &CustomModel, graph: &BaseGraph, edge: DirEdge, before: Runs) -> Runs
    requires model { IsModel model.now }
    requires edge { edge.edge.0 < length graph.now.lists.edges }
    ensures speed { result.speed ≡ spec.run_of running.Speed model.now graph.now.lists edge before.speed }
    ensures priority { result.priority ≡ spec.run_of running.Priority model.now graph.now.lists edge before.priority }
{
    // Most models of most queries have no statement, and this is asked at every hop.
    if model.speed.is_empty() && model.priority.is_empty() {
        return before;
    }
    let values = graph.values(edge.edge, edge.reverse);
    let areas = areas_of(model, graph, edge.edge);
    Runs {
        speed: speed_of(model, &values, areas, before.speed),
        priority: priority_of(model, &values, areas, before.priority),
    }
}

/// Whether there is no statement.
fn has_none(statements: &Statements) -> bool
    ensures { result ≡ plain.has_none statements.now }
{
    statements.is_empty()
}

/// Whether a model has no statement.
fn is_plain(model: &CustomModel) -> bool
    ensures { result ≡ plain.is_plain model.now }
{
    has_none(&model.speed) && has_none(&model.priority)
}

/// Whether a profile with a query's model, or alone, runs no statement.
fn runs_nothing(profile: &Profile, query: Option<&SlowModel>) -> bool
    ensures { result ≡ plain.has_no_statement (rule_of profile.now (option_map (λ q. q.now) query.entry)) }
{
    match query {
        None => is_plain(&profile.model),
        Some(query) => is_plain(&profile.model) && is_plain(query.model()),
    }
}

/// The influence of distance of a profile with a query's model, or alone, in s/km.
fn influence_of(profile: &Profile, query: Option<&SlowModel>) -> u32
    ensures { result ≡ spec.influence_by (rule_of profile.now (option_map (λ q. q.now) query.entry)) }
{
    let own = match query {
        None => None,
        Some(query) => query.model().distance_influence,
    };
    own.or(profile.model.distance_influence).unwrap_or(0)
}

/// The speed that a run starts from, in milli-km/h.
fn first_speed(own: u8, limit: u32) -> u32
    ensures { result ≡ min (1000 * own) limit }
{
    limit.min(MILLI * u32::from(own))
}

/// The ms of so many mm at a speed, rounded up, with a guess at the reciprocal of the speed.
#[tactic(auto, using(crate::proofs::Quotients::plain_time, crate::proofs::Quotients::quotient_within))]
fn plain_time_at(speed: u32, mm: u32, guess: u64) -> u64
    requires { 0 < speed }
    ensures time { result ≡ spec.time_at speed 1000000 mm }
    ensures small { result ≤ 3600 * mm }
{
    quotient_of(MS_FOR_A_MM * u64::from(mm), u64::from(speed), guess)
}

/// The ms of so many mm at a speed, divided by the priority, rounded up.
#[tactic(auto, unfolding(crate::specs::Weights::time_at))]
fn time_at(runs: Runs, mm: u32) -> u64
    requires speed { 0 < runs.speed }
    requires priority { 0 < runs.priority }
    ensures time { result ≡ spec.time_at runs.speed runs.priority mm }
    ensures small { result ≤ 3600000000 * mm }
{
    let work = MS_FOR_A_MM * u64::from(mm) * MILLION;
    let rate = u64::from(runs.speed) * u64::from(runs.priority);
    work.div_ceil(rate)
}

/// The ms of so many mm at an influence of distance in s/km, rounded up.
#[tactic(auto, unfolding(crate::specs::Weights::distance_share))]
fn distance_share(influence: u32, mm: u32) -> u64
    ensures share { result ≡ spec.distance_share influence mm }
    ensures small { result < 2 ^ 60 }
{
    (u64::from(mm) * u64::from(influence)).div_ceil(MM_FOR_A_MS)
}

impl<'a> Weighting<'a> {
    /// A profile with a query's model, or alone. It takes no memory.
    pub fn new(profile: &'a Profile, query: Option<&'a SlowModel>) -> Weighting<'a>
        requires { IsModel profile.now.model }
        ensures { result ≡ rule_of profile.now (option_map (λ q. q.now) query.entry) }
    {
        Weighting {
            profile,
            query,
            influence: influence_of(profile, query),
            is_idle: runs_nothing(profile, query),
            guesses: guesses_by_kmh(),
        }
    }

    /// What the profile's model and then the query's make of both running numbers.
    fn runs(&self, graph: &BaseGraph, edge: DirEdge, start: Runs) -> Runs
        requires { edge.edge.0 < length graph.now.lists.edges }
        ensures speed { result.speed ≡ spec.run_by running.Speed self.now graph.now.lists edge start.speed }
        ensures priority { result.priority ≡ spec.run_by running.Priority self.now graph.now.lists edge start.priority }
    {
        let profile = self.profile;
        let runs = runs_of(&profile.model, graph, edge, start);
        match self.query {
            None => runs,
            Some(query) => runs_of(query.model(), graph, edge, runs),
        }
    }

    fn vehicle(&self) -> Vehicle
        ensures { result ≡ self.now.vehicle }
    {
        let profile = self.profile;
        profile.vehicle
    }

    /// The weight in ms of `mm` mm of a directed edge under a traffic limit in milli-km/h; None where the vehicle may
    /// not pass. Conditions see what is stored, and never the limit. It takes no memory.
    #[tactic(auto, using(crate::proofs::Plain::plain_weight), unfolding(crate::specs::Weights::weight_by, crate::specs::Weights::weight_if))]
    pub fn weight(&self, graph: &BaseGraph, edge: DirEdge, limit: u32, mm: u32) -> Option<u64>
        requires { edge.edge.0 < length graph.now.lists.edges }
        ensures { result ≡ spec.weight_by self.now graph.now.lists edge limit mm }
    {
        let own = graph.values(edge.edge, edge.reverse).speed(self.vehicle());
        let speed = first_speed(own, limit);
        if speed == 0 {
            return None;
        }
        if self.is_idle {
            let guess = self.guesses[usize::from(own)];
            return Some(plain_time_at(speed, mm, guess) + distance_share(self.influence, mm));
        }
        let start = Runs {
            speed,
            priority: FIRST_PRIORITY,
        };
        let runs = self.runs(graph, edge, start);
        if runs.speed == 0 || runs.priority == 0 {
            return None;
        }
        Some(time_at(runs, mm) + distance_share(self.influence, mm))
    }

    /// The weight of a whole directed edge at its own limit.
    pub fn whole_weight<L: Limits>(
        &self,
        graph: &BaseGraph,
        limits: &L,
        edge: DirEdge,
    ) -> Option<u64>
        requires edge { edge.edge.0 < length graph.now.lists.edges }
        requires limits { L.edges limits.now ≡ length graph.now.lists.edges }
        ensures { result ≡ roads.whole_weight self.now (L.limit_of limits.now) graph.now.lists edge }
    {
        self.weight(graph, edge, limits.limit(edge), graph.edge(edge.edge).mm)
    }

    /// Whether a directed edge has a weight at the limit that it opens with.
    fn opens(&self, graph: &BaseGraph, edge: DirEdge) -> bool
        requires { edge.edge.0 < length graph.now.lists.edges }
        ensures { result ≡ roads.opens self.now graph.now.lists edge }
    {
        let opening = Opening::new(graph);
        self.whole_weight(graph, &opening, edge).is_some()
    }

    /// Whether some direction of an edge has a weight at the limit that it opens with.
    pub fn is_usable(&self, graph: &BaseGraph, edge: EdgeId) -> bool
        requires { edge.0 < length graph.now.lists.edges }
        ensures { result ≡ roads.is_usable self.now graph.now.lists edge.0 }
    {
        let forward = DirEdge {
            edge,
            reverse: false,
        };
        let backward = DirEdge {
            edge,
            reverse: true,
        };
        self.opens(graph, forward) || self.opens(graph, backward)
    }
}

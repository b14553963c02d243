//! Answers to queries from tower to tower.
ghost use Rattle.std.specs.Prelude.{◌≡◌, ◌≢◌, ◌≤◌, ◌<◌, length, IfOk};
ghost use Rattle.walk_rules.specs.Potentials.{IsFeasible};
ghost use Rattle.base_graph.specs.Graphs.{IsGraph};
ghost use Rattle.weighting.specs.Roads.{AreOver};
ghost use Rattle.alt_search.specs.Findings.{IfWalk};
ghost use Rattle.turn_graph.specs.Tables.{IsFor, IsTableOf, streets_for};
ghost use Rattle.map_roads.specs.Opening.{opening_network, guide_of, IsGuideOf};
ghost use Rattle.turn_runs.specs.Lines.{IsRightBy, IsRightHere, IsRightTo, IsRight};
ghost use Rattle.turn_runs.specs.Sound.{reply_of};

use alt_search::{FlatPotential, Found};
use base_graph::BaseGraph;
use gh_base::{NoMemory, NodeId, Potential, Text};
use landmark_prep::Made;
use map_roads::{potential_between, walk_mm};
use query_lines::{Answering, TowerQuery};
use script_text::{Reply, put_answer};
use std::alloc::Global;
use std::marker::Model;
use traffic_core::{GREATEST_WEIGHT, Ground};
use turn_graph::{TurnList, TurnTable};
use turn_routes::{search_turns, weighed_roads_are_over};
use weighting::{Opening, Side, WeightView, Weighting};

/// What a finding comes to. Its hops are no more than 32 bits count, so 64 hold their mm.
fn reply_of(graph: &BaseGraph, found: Found) -> Reply
    requires over { IfWalk found (λ hops _ _. AreOver graph.now.lists hops) }
    requires long { IfWalk found (λ hops _ settled. length hops ≤ settled) }
    ensures { result ≡ reply_of graph.now.lists found }
{
    match found {
        Found::NoWalk { settled } => Reply::NoRoute { settled },
        Found::Walk {
            hops,
            weight,
            settled,
        } => {
            if weight > GREATEST_WEIGHT {
                return Reply::Overflow { weight };
            }
            let mm = walk_mm(graph, hops.as_slice());
            Reply::Route {
                weight: weight as u64,
                mm: mm as u64,
                settled,
                hops,
            }
        }
    }
}

/// What answers queries by least walks with no banned turn: the roads of cars, the restrictions of
/// their map, those that count at each tower, and what was made of the roads, which guides searches.
#[derive(Drop)]
pub(crate) struct TurnAnswers<'a> {
    ground: &'a Ground,
    turns: &'a TurnList,
    table: &'a TurnTable<'a>,
    made: &'a Made,
}

impl<'a> Model for TurnAnswers<'a> {
    ghost use Rattle.turn_runs.specs.Lines.{TurnRoads};
    ghost use Rattle.map_roads.specs.Opening.{guide_of};
    ghost use Rattle.turn_runs.specs.Sound.{AreSound};
    ghost use Rattle.model_eval.specs.contracts.conditions.Test as e;
    ghost use Rattle.std.specs.Coded.{codes};

    ghost Value = { TurnRoads };

    ghost coded = { Prim.hlevel (codes, e.the_row.coded) };

    ghost view = { λ a. record {
      land = a.ground.now;
      turns = a.turns.now;
      table = a.table.now;
      guide = guide_of a.made.now;
    } };

    ghost invariant = { λ a. AreSound (record {
      land = a.ground.now;
      turns = a.turns.now;
      table = a.table.now;
      guide = guide_of a.made.now;
    }) };
}

impl<'a> TurnAnswers<'a> {
    pub(crate) fn new(
        ground: &'a Ground,
        turns: &'a TurnList,
        table: &'a TurnTable<'a>,
        made: &'a Made,
        count: u32,
    ) -> TurnAnswers<'a>
        requires graph { IsGraph ground.now.graph }
        requires there { 0 < length ground.now.profiles }
        requires suits { IsFor ground.now.graph table.now }
        requires table { IsTableOf (streets_for ground.now.graph ground.now.ids table.now)
            turns.now table.now }
        requires guides { IsGuideOf ground.now count (guide_of made.now) }
        ensures { result ≡ record {
          land = ground.now;
          turns = turns.now;
          table = table.now;
          guide = guide_of made.now;
        } }
    {
        TurnAnswers {
            ground,
            turns,
            table,
            made,
        }
    }

    /// The reply between two towers by a search that looks ahead by a potential of towers.
    fn reply_by<P: Potential + Drop>(
        &self,
        alloc: Global,
        inner: P,
        from: NodeId,
        to: NodeId,
    ) -> Result<Reply, NoMemory>
        requires from { from.0 < length self.now.land.graph.places }
        requires feasible { IsFeasible (opening_network self.now.land) (P.bound inner) to.0 }
        ensures apart { from.0 ≢ to.0 →
            IfOk result (IsRightBy self.now (P.bound inner) from.0 to.0) }
        ensures here { from.0 ≡ to.0 → IfOk result (IsRightHere from to) }
    {
        weighed_roads_are_over();
        let graph = self.ground.graph();
        let weighting = Weighting::new(self.ground.profile(0), None);
        let limits = Opening::new(graph);
        let view = WeightView::new(graph, &limits, &weighting, Side::Out);
        let found = search_turns(alloc, view, graph, self.table, inner, from, to)?;
        Ok(reply_of(graph, found))
    }

    /// The reply between two towers, where the preparation guides the search, if there is one.
    fn reply_between(&self, alloc: Global, from: NodeId, to: NodeId) -> Result<Reply, NoMemory>
        requires from { from.0 < length self.now.land.graph.places }
        requires to { to.0 < length self.now.land.graph.places }
        ensures { IfOk result (IsRightTo self.now from to) }
    {
        match self.made {
            Made::NoLandmark => self.reply_by(alloc, FlatPotential, from, to),
            Made::Prep(prep) => {
                let potential = potential_between(self.ground, prep, from, to);
                self.reply_by(alloc, potential, from, to)
            }
        }
    }

    /// The reply to a query.
    fn reply(&self, alloc: Global, query: TowerQuery) -> Result<Reply, NoMemory>
        ensures { IfOk result (IsRight self.now query) }
    {
        let Some(from) = self.ground.tower(query.from) else {
            return Ok(Reply::NoNode { id: query.from });
        };
        let Some(to) = self.ground.tower(query.to) else {
            return Ok(Reply::NoNode { id: query.to });
        };
        self.reply_between(alloc, from, to)
    }
}

impl<'a> Answering for TurnAnswers<'a> {
    ghost use Rattle.turn_runs.specs.Lines.{IsLineOf};

    ghost right = { λ roads. IsLineOf roads };

    fn line(&self, alloc: Global, query: TowerQuery) -> Result<Text, NoMemory> {
        let reply = self.reply(alloc, query)?;
        let mut line = Text::new(alloc);
        put_answer(&mut line, &reply)?;
        line.push("\n")?;
        Ok(line)
    }
}

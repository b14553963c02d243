//! Answers to queries by searches from both ends.
ghost use Rattle.std.specs.Prelude.{◌≡◌, ◌<◌, length, IfOk};
ghost use Rattle.map_roads.specs.Opening.{guide_of, IsGuideOf};
ghost use Rattle.both_runs.specs.Lines.{IsRight, IsRightBetween};

use crate::answer::BothAnswer;
use crate::between::answer_by;
use crate::line::line_of;
use alt_search::FlatPotential;
use gh_base::{NoMemory, NodeId, Text};
use landmark_prep::{Made, active_landmarks_are_one, preparations_are_one, preparations_fit};
use map_roads::potential_between;
use query_lines::{Answering, TowerQuery};
use std::alloc::Global;
use std::marker::Model;
use traffic_core::Ground;
use two_way_search::Behind;
use weighting::{no_hop_is_faster, sides_turn_along_edges};

/// Roads, and what was made of them at the opening limits for the first profile, which guides
/// searches. Contracts see the roads and the preparation, if there is one.
#[derive(Drop)]
pub(crate) struct BothEnds<'a> {
    ground: &'a Ground,
    made: &'a Made,
}

impl<'a> Model for BothEnds<'a> {
    ghost use Rattle.both_runs.specs.Guided.{Guided};
    ghost use Rattle.model_eval.specs.contracts.conditions.Test as e;
    ghost use Rattle.std.specs.Coded.{codes};

    ghost Value = { Guided };

    ghost coded = { Prim.hlevel (codes, e.the_row.coded) };

    ghost use Rattle.map_roads.specs.Opening.{guide_of};
    ghost use Rattle.both_runs.specs.Guided.{IsGuided};

    ghost view = { λ ends. record { land = ends.ground.now; guide = guide_of ends.made.now } };

    ghost invariant = { λ ends. IsGuided ends.ground.now (guide_of ends.made.now) };
}

impl<'a> BothEnds<'a> {
    pub(crate) fn new(ground: &'a Ground, made: &'a Made, count: u32) -> BothEnds<'a>
        requires there { 0 < length ground.now.profiles }
        requires guides { IsGuideOf ground.now count (guide_of made.now) }
        ensures { result ≡ record { land = ground.now; guide = guide_of made.now } }
    {
        BothEnds { ground, made }
    }

    /// The answer between two towers.
    fn answer_between(
        &self,
        alloc: Global,
        from: NodeId,
        to: NodeId,
    ) -> Result<BothAnswer, NoMemory>
        requires from { from.0 < length self.now.land.graph.places }
        requires to { to.0 < length self.now.land.graph.places }
        ensures { IfOk result (IsRightBetween self.now.land self.now.guide from.0 to.0) }
    {
        let Made::Prep(prep) = self.made else {
            return answer_by(alloc, self.ground, &FlatPotential, &FlatPotential, from, to);
        };
        preparations_are_one();
        preparations_fit();
        sides_turn_along_edges();
        active_landmarks_are_one();
        no_hop_is_faster();
        // The law of turned sides asks for the facts of the graph.
        self.ground.graph();
        let ahead = potential_between(self.ground, prep, from, to);
        let behind = Behind::new(prep, prep.pick_active(from, to), from);
        answer_by(alloc, self.ground, &ahead, &behind, from, to)
    }

    /// The answer to a query.
    fn answer(&self, alloc: Global, query: TowerQuery) -> Result<BothAnswer, NoMemory>
        ensures { IfOk result (IsRight self.now.land self.now.guide query) }
    {
        let Some(from) = self.ground.tower(query.from) else {
            return Ok(BothAnswer::NoNode { id: query.from });
        };
        let Some(to) = self.ground.tower(query.to) else {
            return Ok(BothAnswer::NoNode { id: query.to });
        };
        self.answer_between(alloc, from, to)
    }
}

impl<'a> Answering for BothEnds<'a> {
    ghost use Rattle.both_runs.specs.Lines.{IsRightLine};

    ghost right = { λ ends query line. IsRightLine ends.land ends.guide query line };

    fn line(&self, alloc: Global, query: TowerQuery) -> Result<Text, NoMemory> {
        let answer = self.answer(alloc, query)?;
        line_of(alloc, &answer)
    }
}

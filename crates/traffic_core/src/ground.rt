//! What queries run over.
ghost use Rattle.std.specs.Prelude.{◌≡◌, ◌<◌, ◌^◌, ℤ, length, All, IfOk, IfSome, IfNone};
ghost use Rattle.std.specs.List.{IsDistinct};
ghost use Rattle.std.specs.Ordering.{int_eq};
ghost use Rattle.gh_base.specs.Places.{IsOnEarth, IsPlace};
ghost use Rattle.model_eval.specs.Models.{IsModel};
ghost use Rattle.weighting.specs.declared.profile.Profile.{Profile};
ghost use Rattle.weighting.specs.Profiles.{profile_at};
ghost use Rattle.traffic_core.specs.Lands.{AreAsLong, IsTower, IsNoTower};
ghost use Rattle.traffic_core.specs.Places.{IsSpot, IsSnapOf};
ghost use Rattle.traffic_core.specs.Spots.{IsOn};

use crate::spot::{Spot, spot_along};
use crate::towers::numbers_of;
use crate::usable::usable_edges;
use base_graph::BaseGraph;
use gh_base::{NoMemory, NodeId, Place, Point};
use location_grid::{EdgeBits, Grid};
use map_import::Roads;
use std::alloc::Global;
use std::collections::HashMap;
use std::marker::Model;
use weighting::{Profile, Profiles};

/// Roads, the id of each of their towers, and profiles, with what finds places on them. Contracts see the
/// roads, the ids and the profiles.
#[derive(Drop)]
pub struct Ground {
    roads: Roads,
    profiles: Profiles,
    numbers: HashMap<i64, u32>,
    grid: Grid,
    usable: Vec<EdgeBits>,
}

impl Model for Ground {
    ghost use Rattle.traffic_core.specs.Lands.{Land};
    ghost use Rattle.model_eval.specs.contracts.conditions.Test as e;
    ghost use Rattle.std.specs.Coded.{codes};

    ghost Value = { Land };

    ghost coded = { Prim.hlevel (codes, e.the_row.coded) };

    ghost use Rattle.std.specs.Ordering.{int_eq};
    ghost use Rattle.std.specs.HashMap.{get};
    ghost use Rattle.traffic_core.specs.Lands.{land_of};
    ghost use Rattle.traffic_core.specs.Grounds.{IsGround};

    ghost view = { λ a. land_of a.roads a.profiles };

    ghost invariant = { λ a. IsGround (land_of a.roads a.profiles) (get int_eq a.numbers) a.grid a.usable.items };
}

impl Ground {
    /// The ground of roads, each of whose edges is as long as its segments together and each of whose towers
    /// has an id of its own, and of at least one profile.
    pub fn new(alloc: Global, roads: Roads, profiles: Profiles) -> Result<Ground, NoMemory>
        requires lengths { AreAsLong roads.graph.lists }
        requires ids { length roads.ids ≡ length roads.graph.lists.places }
        requires distinct { IsDistinct int_eq roads.ids }
        requires some { 0 < length profiles }
        requires models { All (λ (profile : Profile). IsModel profile.model) profiles }
        ensures { IfOk result (λ made. made ≡ record { graph = roads.graph.lists; ids = roads.ids; profiles = profiles }) }
    {
        let numbers = numbers_of(alloc, roads.ids.as_slice())?;
        let grid = Grid::build(alloc, &roads.graph)?;
        let usable = usable_edges(alloc, &roads.graph, profiles.as_slice())?;
        Ok(Ground {
            roads,
            profiles,
            numbers,
            grid,
            usable,
        })
    }

    pub fn graph(&self) -> &BaseGraph
        ensures { result.now.lists ≡ self.now.graph }
    {
        &self.roads.graph
    }

    pub fn profiles(&self) -> &Profiles
        ensures { result.now ≡ self.now.profiles }
    {
        &self.profiles
    }

    pub fn profile(&self, profile: u32) -> &Profile
        requires { profile < length self.now.profiles }
        ensures profile { result.now ≡ profile_at self.now.profiles profile }
        ensures model { IsModel result.now.model }
    {
        self.profiles.get(profile as usize)
    }

    /// The tower of an OpenStreetMap id, or None where no tower has it.
    pub fn tower(&self, id: i64) -> Option<NodeId>
        ensures some { IfSome result (λ node. IsTower self.now id node.0) }
        ensures none { IfNone result (IsNoTower self.now id) }
        ensures there { IfSome result (λ node. node.0 < length self.now.graph.places) }
    {
        match self.numbers.get(&id) {
            None => None,
            Some(number) => Some(NodeId(*number)),
        }
    }

    /// Where a point lies under a profile: on the nearest edge that can be used under the profile alone, or None
    /// where none can be.
    fn snap(&self, profile: u32, point: Point) -> Option<Spot>
        requires profile { profile < length self.now.profiles }
        requires point { IsOnEarth point }
        ensures spot { IsSnapOf self.now profile point result }
        ensures on { IfSome result (IsOn self.now.graph) }
    {
        let graph = &self.roads.graph;
        let usable = &self.usable[profile as usize];
        match self.grid.nearest(graph, point, usable) {
            None => None,
            Some(at) => Some(spot_along(graph, at)),
        }
    }

    /// Where a place lies under a profile, or None where it isn't on the roads.
    pub(crate) fn spot(&self, profile: u32, place: Place) -> Option<Spot>
        requires profile { profile < length self.now.profiles }
        requires place { IsPlace place }
        ensures spot { IsSpot self.now profile place result }
        ensures on { IfSome result (IsOn self.now.graph) }
    {
        match place {
            Place::Id(id) => match self.tower(id) {
                None => None,
                Some(node) => Some(Spot::Tower(node)),
            },
            Place::At(point) => self.snap(profile, point),
        }
    }
}

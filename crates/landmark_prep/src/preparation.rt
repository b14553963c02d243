//! A preparation, and how it is read.
ghost use Rattle.std.specs.Prelude.{◌≡◌, ◌↔◌, ◌<◌, ◌≤◌, IsTrue, length, map};
ghost use Rattle.walk_rules.specs.Distances.{label_at};
ghost use Rattle.landmark_prep.specs.Packing as spec;
ghost use Rattle.landmark_prep.specs.Packing.{unpacked, unpacked_labels, AreParts};
ghost use Rattle.landmark_prep.specs.Preparations.{nodes_of};
ghost use Rattle.landmark_prep.specs.Bounds.{labels_at};

use crate::labels::{LabelTable, in_ms, unpack};
use gh_base::{LimitList, NodeId};
use landmark_choice::Chosen;
use std::marker::Model;

/// Landmarks of a profile at a snapshot of limits, with the distances from them and to them.
///
/// Contracts see it as a `Preparation`: of each landmark two lists by node of `Option`, in ms. They are
/// kept as 16-bit numbers of grains.
#[derive(Drop)]
pub struct Prep {
    profile: u32,
    snapshot: LimitList,
    landmarks: Chosen,
    grain: u64,
    labels: LabelTable,
}

impl Model for Prep {
    ghost use Rattle.std.specs.Prelude.{map};
    ghost use Rattle.landmark_prep.specs.Packing.{unpacked_labels, AreParts};
    ghost use Rattle.landmark_prep.specs.Preparations.{Preparation};

    ghost Value = { Preparation };

    ghost view = { λ prep. record {
      profile = prep.profile;
      snapshot = prep.snapshot;
      landmarks = map (λ node. node.0) prep.landmarks;
      grain = prep.grain;
      labels = map (unpacked_labels prep.grain) prep.labels;
    } };

    ghost invariant = { λ prep. AreParts prep.landmarks prep.grain prep.labels };
}

/// The preparation of these parts. It takes no memory. There are 1 to 16 landmarks, each with two lists
/// in `labels`; all lists have the same length, which is the number of nodes.
pub fn of_parts(
    profile: u32,
    snapshot: LimitList,
    landmarks: Chosen,
    grain: u64,
    labels: LabelTable,
) -> Prep
    requires { AreParts landmarks grain labels }
    ensures { result ≡ record {
      profile = profile;
      snapshot = snapshot;
      landmarks = map (λ node. node.0) landmarks;
      grain = grain;
      labels = map (unpacked_labels grain) labels;
    } }
{
    Prep {
        profile,
        snapshot,
        landmarks,
        grain,
        labels,
    }
}

impl Prep {
    /// Whether another is the same. The snapshots and the labels are compared last.
    pub fn is_same(&self, other: &Prep) -> bool
        ensures { IsTrue result ↔ (self.now ≡ other.now) }
    {
        if self.profile != other.profile || self.grain != other.grain {
            return false;
        }
        if !are_nodes_same(&self.landmarks, &other.landmarks) {
            return false;
        }
        if !are_limits_same(&self.snapshot, &other.snapshot) {
            return false;
        }
        self.labels.is_same(&other.labels)
    }

    /// The profile, by its number.
    pub fn profile(&self) -> u32
        ensures { result ≡ self.now.profile }
    {
        self.profile
    }

    /// The limits at which the profile was prepared, two for each edge.
    pub fn snapshot(&self) -> &LimitList
        ensures { result.now ≡ self.now.snapshot }
    {
        &self.snapshot
    }

    /// The landmarks, in the order of the choice.
    pub fn landmarks(&self) -> &Chosen
        ensures { map (λ node. node.0) result.now ≡ self.now.landmarks }
    {
        &self.landmarks
    }

    /// How many landmarks there are.
    pub fn landmark_count(&self) -> u32
        ensures { result ≡ length self.now.landmarks }
    {
        self.landmarks.len() as u32
    }

    /// The grain of the labels in ms.
    pub fn grain(&self) -> u64
        ensures { result ≡ self.now.grain }
    {
        self.grain
    }

    /// For how many nodes it has labels.
    pub fn node_count(&self) -> u32
        ensures { result ≡ nodes_of self.now.labels }
    {
        self.labels.at(0).from.len() as u32
    }

    /// The number of grains that stands for the distance from a landmark to a node.
    pub(crate) fn grains_from(&self, landmark: u32, node: NodeId) -> u16
        requires landmark { landmark < length self.now.landmarks }
        requires node { node.0 < nodes_of self.now.labels }
        ensures { unpacked self.now.grain result ≡ label_at (labels_at self.now.labels landmark).from node.0 }
    {
        *self.labels.at(landmark).from.get(node.0 as usize)
    }

    /// The number of grains that stands for the distance from a node to a landmark.
    pub(crate) fn grains_to(&self, landmark: u32, node: NodeId) -> u16
        requires landmark { landmark < length self.now.landmarks }
        requires node { node.0 < nodes_of self.now.labels }
        ensures { unpacked self.now.grain result ≡ label_at (labels_at self.now.labels landmark).to node.0 }
    {
        *self.labels.at(landmark).to.get(node.0 as usize)
    }

    /// A number of its grains in ms.
    pub(crate) fn ms(&self, grains: Option<u16>) -> Option<u64>
        ensures { result ≡ spec.in_ms self.now.grain grains }
    {
        in_ms(self.grain, grains)
    }

    /// The distance from a landmark to a node in ms, in whole grains; None where no walk leads there.
    pub fn label_from(&self, landmark: u32, node: NodeId) -> Option<u64>
        requires landmark { landmark < length self.now.landmarks }
        requires node { node.0 < nodes_of self.now.labels }
        ensures { result ≡ label_at (labels_at self.now.labels landmark).from node.0 }
    {
        unpack(&self.labels.at(landmark).from, node, self.grain)
    }

    /// The distance from a node to a landmark in ms, in whole grains; None where no walk leads there.
    pub fn label_to(&self, landmark: u32, node: NodeId) -> Option<u64>
        requires landmark { landmark < length self.now.landmarks }
        requires node { node.0 < nodes_of self.now.labels }
        ensures { result ≡ label_at (labels_at self.now.labels landmark).to node.0 }
    {
        unpack(&self.labels.at(landmark).to, node, self.grain)
    }
}

fn are_nodes_same(nodes: &Chosen, others: &Chosen) -> bool
    ensures { IsTrue result ↔ (nodes.now ≡ others.now) }
{
    nodes.as_slice() == others.as_slice()
}

fn are_limits_same(limits: &LimitList, others: &LimitList) -> bool
    ensures { IsTrue result ↔ (limits.now ≡ others.now) }
{
    limits.as_slice() == others.as_slice()
}

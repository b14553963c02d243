//! Labels as they are kept.
ghost use Rattle.std.specs.Prelude.{◌≡◌, ℕ, ◌↔◌, ◌<◌, ◌≤◌, ◌^◌, [], ◌∷◌, ◌++◌, IsTrue, length, slice_index, OnOk, OnErr};
ghost use Rattle.landmark_prep.specs.Bounds.{over};
ghost use Rattle.landmark_prep.specs.Packing.{packed, unpacked, packed_at, in_ms};

use gh_base::{NoMemory, NodeId, Sequence};
use std::alloc::Global;
use std::marker::Model;

/// The number of grains that stands for no label.
const NO_LABEL: u16 = 65535;

/// The greatest number of grains. A distance of more is cut to it.
const MOST_GRAINS: u64 = 65534;

/// The labels of a landmark, as numbers of grains by node: 65535 is none.
#[derive(Drop)]
pub struct PackedLabels {
    pub from: Sequence<u16>,
    pub to: Sequence<u16>,
}

/// The labels of landmarks, in their order. Contracts see it as that list.
#[derive(Drop)]
pub struct LabelTable {
    rows: Vec<PackedLabels>,
}

impl Model for LabelTable {
    ghost use Rattle.std.specs.Prelude.{List};
    ghost use Rattle.landmark_prep.specs.declared.labels.PackedLabels.{PackedLabels};

    ghost Value = { List PackedLabels };

    ghost view = { λ table. table.rows.items };
}

impl LabelTable {
    /// The empty table. It takes no memory.
    pub fn new(alloc: Global) -> LabelTable
        ensures { result ≡ [] }
    {
        LabelTable {
            rows: Vec::new(alloc),
        }
    }

    /// Appends the labels of one more landmark: from it to each node, and from each node to it. After
    /// `NoMemory` the table is as before.
    pub fn push(&mut self, from: Vec<u16>, to: Vec<u16>) -> Result<(), NoMemory>
        ensures ok { OnOk result (self.new ≡ self.old ++ record { from = from.items; to = to.items } ∷ []) }
        ensures err { OnErr result (self.new ≡ self.old) }
    {
        self.push_labels(PackedLabels {
            from: Sequence::from_vec(from),
            to: Sequence::from_vec(to),
        })
    }

    /// The same, of labels that are together.
    pub(crate) fn push_labels(&mut self, labels: PackedLabels) -> Result<(), NoMemory>
        ensures ok { OnOk result (self.new ≡ self.old ++ labels ∷ []) }
        ensures err { OnErr result (self.new ≡ self.old) }
    {
        self.rows.push(labels).map_err(|_| NoMemory)
    }

    /// Whether another has the same numbers.
    pub(crate) fn is_same(&self, other: &LabelTable) -> bool
        ensures { IsTrue result ↔ (self.now ≡ other.now) }
    {
        if self.rows.len() != other.rows.len() {
            return false;
        }
        for place in 0..self.rows.len() {
            if !are_same(&self.rows[place], &other.rows[place]) {
                return false;
            }
        }
        true
    }

    /// The labels of the landmark at a place.
    pub(crate) fn at(&self, landmark: u32) -> &PackedLabels
        requires { landmark < length self.now }
        ensures { result.now ≡ packed_at self.now landmark }
    {
        &self.rows[landmark as usize]
    }
}

/// Whether two landmarks have the same numbers.
fn are_same(labels: &PackedLabels, other: &PackedLabels) -> bool
    ensures { IsTrue result ↔ (labels.now ≡ other.now) }
{
    labels.from.as_slice() == other.from.as_slice() && labels.to.as_slice() == other.to.as_slice()
}

/// A label as a number of grains.
pub fn pack(label: Option<u64>, grain: u64) -> u16
    requires { 0 < grain }
    ensures { result ≡ packed grain label }
{
    match label {
        None => NO_LABEL,
        Some(label) => (label / grain).min(MOST_GRAINS) as u16,
    }
}

/// How far the second number of grains is over the first: 0 where the first stands for no label, None where only the
/// second does.
#[tactic(auto, using(crate::proofs::InGrains::over_first, crate::proofs::InGrains::over_second, crate::proofs::InGrains::over_both))]
pub(crate) fn grains_over(first: u16, second: u16) -> Option<u16>
    ensures { (grain : ℕ) → in_ms grain result ≡ over (unpacked grain first) (unpacked grain second) }
{
    if first == NO_LABEL {
        return Some(0);
    }
    if second == NO_LABEL {
        return None;
    }
    Some(second.saturating_sub(first))
}

/// A number of grains in ms.
pub(crate) fn in_ms(grain: u64, grains: Option<u16>) -> Option<u64>
    requires { grain ≤ 2 ^ 46 }
    ensures { result ≡ in_ms grain grains }
{
    match grains {
        None => None,
        Some(grains) => Some(grain * u64::from(grains)),
    }
}

/// The label of a node in a row.
pub fn unpack(row: &Sequence<u16>, node: NodeId, grain: u64) -> Option<u64>
    requires node { node.0 < length row.now }
    requires coarse { grain ≤ 2 ^ 46 }
    ensures { result ≡ unpacked grain (slice_index row.now node.0) }
{
    let number = *row.get(node.0 as usize);
    if number == NO_LABEL {
        None
    } else {
        Some(grain * u64::from(number))
    }
}

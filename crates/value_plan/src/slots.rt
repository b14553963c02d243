//! Slots, and the values in them.
ghost use Rattle.std.specs.Prelude.{◌≡◌, ◌<◌, ◌≤◌, ◌+◌, ◌^◌, Bool, not, IsTrue};
ghost use Rattle.value_plan.specs.Slots.{Place, AreApart, ChangesOnly, IsInWords, first_in, value_in, width_of};

use crate::numbers::{number_at, put_number, with_value};
use gh_base::{EdgeId, EdgeWords};
use std::marker::Model;

/// Where a value stands among the bits of an edge. A plan makes it.
#[derive(Clone, Copy, Debug, PartialEq, Eq)]
pub struct Slot {
    first: u32,
    bits: u32,
    directed: bool,
}

impl Model for Slot {
    ghost use Rattle.value_plan.specs.Slots.{Place, IsInWords};

    ghost Value = { Place };

    ghost view = { λ a. record { first = a.first; bits = a.bits; directed = a.directed } };

    ghost inverse = { λ p. record { first = p.first; bits = p.bits; directed = p.directed } };

    ghost invariant = { λ a.
        IsInWords (record { first = a.first; bits = a.bits; directed = a.directed }) };
}

impl Slot {
    pub(crate) fn new(first: u32, bits: u32, directed: bool) -> Slot
        requires some { 1 ≤ bits }
        requires few { bits ≤ 32 }
        requires inside { first + width_of bits directed ≤ 128 }
        ensures { result ≡ record { first = first; bits = bits; directed = directed } }
    {
        Slot {
            first,
            bits,
            directed,
        }
    }

    /// The first bit in a direction.
    fn first_in(&self, reverse: bool) -> u32
        ensures first { result ≡ first_in self.now reverse }
        ensures slot { IsInWords self.now }
        ensures inside { result + self.now.bits ≤ 128 }
    {
        let few = self.bits;
        if self.directed && reverse {
            self.first + few
        } else {
            self.first
        }
    }
}

/// The value of an edge in a slot.
pub fn get<W: EdgeWords>(words: &W, slot: &Slot, edge: EdgeId, reverse: bool) -> u32
    requires { edge.0 < W.edges words.now }
    ensures { result ≡ value_in (W.word_of words.now edge.0) slot.now reverse }
{
    let at = slot.first_in(reverse);
    let number = number_at(words, edge);
    ((number >> at) % (1 << slot.bits)) as u32
}

/// Gives an edge another value in a slot. What shares no bit with the slot stays, as do its other
/// direction and other edges.
pub fn set<W: EdgeWords>(words: &mut W, slot: &Slot, edge: EdgeId, reverse: bool, value: u32)
    requires edge { edge.0 < W.edges words.old }
    requires fits { value < 2 ^ slot.now.bits }
    ensures value { value_in (W.word_of words.new edge.0) slot.now reverse ≡ value }
    ensures others { (other : Place) (turned : Bool) → AreApart slot.now other
        → value_in (W.word_of words.new edge.0) other turned
        ≡ value_in (W.word_of words.old edge.0) other turned }
    ensures turned { IsTrue slot.now.directed
        → value_in (W.word_of words.new edge.0) slot.now (not reverse)
        ≡ value_in (W.word_of words.old edge.0) slot.now (not reverse) }
    ensures elsewhere { ChangesOnly edge.0 (W.word_of words.old) (W.word_of words.new) }
    ensures edges { W.edges words.new ≡ W.edges words.old }
{
    let at = slot.first_in(reverse);
    let number = number_at(words, edge);
    let changed = with_value(number, at, slot.bits, value);
    put_number(words, edge, changed);
}

//! Plans.
ghost use Rattle.std.specs.Prelude.{◌≡◌, ◌<◌, ◌≤◌, ◌+◌, ◌↔◌, [], ◌∷◌, ◌++◌, All, AllPairs, IfOk, OnOk, OnErr, Err};
ghost use Rattle.value_plan.specs.Slots.{AreApart, behind, bits_of, width_of};

use crate::faults::PlanFault;
use crate::slots::Slot;
use gh_base::Sequence;
use std::alloc::Global;
use std::marker::Model;

/// How many bits the four words of an edge have.
const ALL_BITS: u32 = 128;

/// Which bits the values of an edge have. Contracts see the list of the slots, in the order in which
/// they were added. They lie side by side, the first one at bit 0:
///
///     bit   0      4   5         21
///           |class |link|speed + |speed - ...      a value with directions has its bits twice
#[derive(Drop)]
pub struct Plan {
    slots: Sequence<Slot>,
    used: u32,
}

impl Model for Plan {
    ghost use Rattle.std.specs.Prelude.{List};
    ghost use Rattle.value_plan.specs.Slots.{Place, AreSideBySide};

    ghost Value = { List Place };

    ghost view = { λ plan. plan.slots };

    ghost invariant = { λ plan. AreSideBySide plan.slots plan.used };
}

impl Plan {
    /// The plan without a slot. It takes no memory.
    pub fn new(alloc: Global) -> Plan
        ensures { result ≡ [] }
    {
        Plan {
            slots: Sequence::new(alloc),
            used: 0,
        }
    }

    /// The slots in order. No two of them share a bit.
    pub fn slots(&self) -> &[Slot]
        ensures slots { result.now ≡ self.now }
        ensures apart { AllPairs AreApart self.now }
    {
        let _used = self.used;
        self.slots.as_slice()
    }

    /// Adds a slot of so many bits, or of as many for each direction. The name tells readers what it
    /// is for and isn't kept: names needn't differ.
    pub fn add(&mut self, _name: &str, bits: u32, directed: bool) -> Result<Slot, PlanFault>
        requires some { 1 ≤ bits }
        requires few { bits ≤ 32 }
        ensures ok { OnOk result (self.new ≡ self.old ++ behind self.old bits directed ∷ []) }
        ensures slot { IfOk result (λ slot. slot ≡ behind self.old bits directed) }
        ensures apart { IfOk result (λ slot. All (λ other. AreApart other slot) self.old) }
        ensures sum { OnOk result (bits_of self.new ≡ bits_of self.old + width_of bits directed) }
        ensures no_bits { (result ≡ Err PlanFault.NoBits)
            ↔ (128 < bits_of self.old + width_of bits directed) }
        ensures err { OnErr result (self.new ≡ self.old) }
    {
        let width = width_of(bits, directed);
        if width > ALL_BITS - self.used {
            return Err(PlanFault::NoBits);
        }
        let slot = Slot::new(self.used, bits, directed);
        self.slots.push(slot)?;
        self.used += width;
        Ok(slot)
    }
}

/// How many bits a slot takes: twice those of a value where each direction has one.
fn width_of(bits: u32, directed: bool) -> u32
    requires { bits ≤ 32 }
    ensures { result ≡ width_of bits directed }
{
    if directed { 2 * bits } else { bits }
}

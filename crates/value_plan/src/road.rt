//! The values of a road, by the plan of 77 bits.
ghost use Rattle.std.specs.Prelude.{◌≡◌, ◌≢◌, ◌<◌, ◌≤◌, ◌+◌, true, false, Err, IfOk};
ghost use Rattle.encoded_values.specs.Values.{AreInRange, AreTwoInRange};
ghost use Rattle.value_plan.specs.Slots.{ChangesOnly, number_of};
ghost use Rattle.value_plan.specs.Road.{HoldsAlong, road_slots};
ghost use Rattle.value_plan.specs.Packing.{packed_onto, shared_items, access_items, speed_items, road_number};

use crate::faults::PlanFault;
use crate::numbers::put_number;
use crate::packed::Packed;
use crate::plan::Plan;
use encoded_values::{DirValues, EdgeValues, both_are_in_range};
use gh_base::{EdgeId, EdgeWords};
use std::alloc::Global;

/// The plan of a road's values: 77 bits.
pub fn road_plan(alloc: Global) -> Result<Plan, PlanFault>
    ensures plan { IfOk result (λ plan. plan ≡ road_slots) }
    ensures only { result ≢ Err PlanFault.NoBits }
{
    let mut plan = Plan::new(alloc);
    plan.add("road_class", 4, false)?;
    plan.add("road_class_link", 1, false)?;
    plan.add("roundabout", 1, false)?;
    plan.add("surface", 4, false)?;
    plan.add("toll", 2, false)?;
    plan.add("lanes", 3, false)?;
    plan.add("max_speed", 8, false)?;
    plan.add("car_access", 1, true)?;
    plan.add("bike_access", 1, true)?;
    plan.add("foot_access", 1, true)?;
    plan.add("car_speed", 8, true)?;
    plan.add("bike_speed", 8, true)?;
    plan.add("foot_speed", 8, true)?;
    Ok(plan)
}

/// Puts the values of an edge into its words, by the plan of a road's values. Bits beyond it become 0.
pub fn put_values<W: EdgeWords>(words: &mut W, edge: EdgeId, values: &EdgeValues)
    requires { edge.0 < W.edges words.old }
    ensures forward { HoldsAlong (number_of (W.word_of words.new edge.0)) values.now.forward false }
    ensures reverse { HoldsAlong (number_of (W.word_of words.new edge.0)) values.now.reverse true }
    ensures elsewhere { ChangesOnly edge.0 (W.word_of words.old) (W.word_of words.new) }
    ensures edges { W.edges words.new ≡ W.edges words.old }
{
    let number = number_of_values(values);
    put_number(words, edge, number);
}

/// The number that the words of an edge with these values are.
fn number_of_values(values: &EdgeValues) -> u128
    ensures number { result ≡ road_number values.now }
    ensures in_range { AreTwoInRange values.now }
{
    both_are_in_range(values);
    let speeds = speeds_above(Packed::new(), &values.forward, &values.reverse);
    let accesses = accesses_above(speeds, &values.forward, &values.reverse);
    let all = shared_above(accesses, &values.forward);
    all.number
}

/// Values with what is the same in both directions below them.
fn shared_above(rest: Packed, values: &DirValues) -> Packed
    requires in_range { AreInRange values.now }
    requires room { rest.bits + 23 ≤ 128 }
    ensures number { result.number ≡ packed_onto (shared_items values.now) rest.number }
    ensures bits { result.bits ≡ rest.bits + 23 }
{
    rest.above(values.max_speed, 8)
        .above(values.lanes, 3)
        .above(values.toll, 2)
        .above(values.surface, 4)
        .above(u8::from(values.roundabout), 1)
        .above(u8::from(values.road_class_link), 1)
        .above(values.road_class, 4)
}

/// Values with the access of each vehicle below them.
fn accesses_above(rest: Packed, forward: &DirValues, reverse: &DirValues) -> Packed
    requires room { rest.bits + 6 ≤ 128 }
    ensures number { result.number ≡ packed_onto (access_items forward.now reverse.now) rest.number }
    ensures bits { result.bits ≡ rest.bits + 6 }
{
    rest.above(u8::from(reverse.foot_access), 1)
        .above(u8::from(forward.foot_access), 1)
        .above(u8::from(reverse.bike_access), 1)
        .above(u8::from(forward.bike_access), 1)
        .above(u8::from(reverse.car_access), 1)
        .above(u8::from(forward.car_access), 1)
}

/// Values with the speed of each vehicle below them.
fn speeds_above(rest: Packed, forward: &DirValues, reverse: &DirValues) -> Packed
    requires forward { AreInRange forward.now }
    requires reverse { AreInRange reverse.now }
    requires room { rest.bits + 48 ≤ 128 }
    ensures number { result.number ≡ packed_onto (speed_items forward.now reverse.now) rest.number }
    ensures bits { result.bits ≡ rest.bits + 48 }
{
    rest.above(reverse.foot_speed, 8)
        .above(forward.foot_speed, 8)
        .above(reverse.bike_speed, 8)
        .above(forward.bike_speed, 8)
        .above(reverse.car_speed, 8)
        .above(forward.car_speed, 8)
}

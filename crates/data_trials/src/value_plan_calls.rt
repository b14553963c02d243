//! Two edges of four words, and plans over them.
ghost use Rattle.std.specs.Prelude.{◌≡◌, ◌<◌, ◌^◌, if◌then◌else◌};

use encoded_values::{
    DirValues, EdgeValues, MISSING_MAX_SPEED, RoadClass, Surface, Toll, both_are_in_range,
};
use gh_base::{EdgeId, EdgeWords};
use std::test::Fail;
use value_plan::{Plan, PlanFault, Slot, get, put_values, road_plan, set, take_values};

#[derive(Drop)]
struct TwoEdges {
    rows: [[u32; 4]; 2],
}

impl EdgeWords for TwoEdges {
    ghost use Rattle.std.specs.Prelude.{slice_index, slice_index_or, []};

    ghost edges = { λ _. 2 };

    ghost word_of = { λ words edge index. slice_index (slice_index_or words.rows edge []) index };

    fn edge_count(&self) -> u32 {
        2
    }

    fn word(&self, edge: EdgeId, index: u32) -> u32 {
        self.rows[edge.0 as usize][index as usize]
    }

    fn set_word(&mut self, edge: EdgeId, index: u32, word: u32) {
        self.rows[edge.0 as usize][index as usize] = word;
    }
}

const ONE: EdgeId = EdgeId(0);

const OTHER: EdgeId = EdgeId(1);

/// Sets a value that fits the slot.
fn set_one(words: &mut TwoEdges, slot: &Slot, reverse: bool, value: u32)
    requires { value < 2 ^ slot.now.bits }
{
    set(words, slot, ONE, reverse, value);
}

#[test]
fn a_value_is_read_across_words_and_in_its_direction(rt: HostRuntime) -> Result<(), Fail> {
    let mut words = TwoEdges {
        rows: [[0; 4], [u32::MAX; 4]],
    };
    let mut plan = Plan::new(rt.alloc());
    let low = plan.add("low", 31, false)?;
    let speed = plan.add("speed", 20, true)?;
    set_one(&mut words, &low, true, 0x7fff_ffff);
    set_one(&mut words, &speed, false, 0xf_0f0f);
    set_one(&mut words, &speed, true, 0x5_a5a5);
    assert_eq!(rt; get(&words, &low, ONE, false), 0x7fff_ffff);
    assert_eq!(rt; get(&words, &speed, ONE, false), 0xf_0f0f);
    assert_eq!(rt; get(&words, &speed, ONE, true), 0x5_a5a5);
    set_one(&mut words, &speed, false, 0);
    assert_eq!(rt; get(&words, &speed, ONE, false), 0);
    assert_eq!(rt; get(&words, &speed, ONE, true), 0x5_a5a5);
    assert_eq!(rt; get(&words, &speed, OTHER, true), 0xf_ffff);
    Ok(())
}

/// A street of sand that cars may only pass forward, at 50 km/h.
pub fn street() -> EdgeValues {
    let forward = DirValues {
        road_class: RoadClass::Secondary as u8,
        road_class_link: true,
        roundabout: false,
        surface: Surface::Sand as u8,
        toll: Toll::No as u8,
        lanes: 7,
        max_speed: MISSING_MAX_SPEED,
        car_access: true,
        bike_access: true,
        foot_access: true,
        car_speed: 50,
        bike_speed: 18,
        foot_speed: 5,
    };
    let reverse = DirValues {
        road_class: RoadClass::Secondary as u8,
        road_class_link: true,
        roundabout: false,
        surface: Surface::Sand as u8,
        toll: Toll::No as u8,
        lanes: 7,
        max_speed: MISSING_MAX_SPEED,
        car_access: false,
        bike_access: true,
        foot_access: true,
        car_speed: 0,
        bike_speed: 18,
        foot_speed: 5,
    };
    EdgeValues { forward, reverse }
}

/// The values that are read where these were written are these.
fn written_and_read<W: EdgeWords>(
    words: &mut W,
    edge: EdgeId,
    values: &EdgeValues,
    reverse: bool,
) -> DirValues
    requires { edge.0 < W.edges words.old }
    ensures { result ≡ (if reverse then values.now.reverse else values.now.forward) }
{
    both_are_in_range(values);
    put_values(words, edge, values);
    if reverse {
        take_values(words, edge, true)
    } else {
        take_values(words, edge, false)
    }
}

#[test]
fn a_roads_values_are_read_as_they_were_written(rt: HostRuntime) -> Result<(), Fail> {
    let mut words = TwoEdges {
        rows: [[u32::MAX; 4]; 2],
    };
    let values = street();
    let forward = written_and_read(&mut words, ONE, &values, false);
    let reverse = written_and_read(&mut words, ONE, &values, true);
    assert_eq!(rt; forward, values.forward);
    assert_eq!(rt; reverse, values.reverse);
    let plan = road_plan(rt.alloc())?;
    let slots = plan.slots();
    assert_eq!(rt; slots.len(), 13);
    assert_eq!(rt; get(&words, &slots[3], ONE, true), 12);
    assert_eq!(rt; get(&words, &slots[10], ONE, false), 50);
    assert_eq!(rt; get(&words, &slots[10], ONE, true), 0);
    assert_eq!(rt; get(&words, &slots[10], OTHER, true), 255);
    Ok(())
}

#[test]
fn behind_a_roads_values_stand_51_bits_more(rt: HostRuntime) -> Result<(), Fail> {
    let mut plan = road_plan(rt.alloc())?;
    assert_eq!(rt;
        plan.add("too wide", 26, true).err(),
        Some(PlanFault::NoBits)
    );
    plan.add("both directions", 25, true)?;
    assert_eq!(rt;
        plan.add("two bits", 2, false).err(),
        Some(PlanFault::NoBits)
    );
    plan.add("the last bit", 1, false)?;
    assert_eq!(rt;
        plan.add("one more", 1, false).err(),
        Some(PlanFault::NoBits)
    );
    Ok(())
}

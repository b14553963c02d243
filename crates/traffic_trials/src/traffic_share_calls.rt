//! What a seat changes, another finds, and nothing of a change that wanted memory: `bench/seats` refuses it.
ghost use Rattle.std.specs.Prelude.{◌≡◌, length};

use crate::road::road;
use gh_base::NoMemory;
use std::alloc::Global;
use std::marker::Brand;
use std::process::Abort;
use std::test::Fail;
use std::thread::Threads;
use traffic_core::Ground;
use traffic_share::{Log, LowerReply, Naming, PublishReply, RestoreReply, Seat, TruePrep};

const CAR: u32 = 0;

/// How many of three changes were accepted, until one wanted memory: a seat closes a road, restores it, and publishes.
fn accepted<J: Naming>(rt: &impl Abort, seat: &mut Seat<'_, '_, J>, prep: &TruePrep<J>) -> u32
    requires { seat.old.last ≡ 0 }
{
    let Ok(reply) = seat.lower(1, 0, false, 0) else {
        return 0;
    };
    assert_eq!(rt; reply, LowerReply::Lowered { at: 1 });
    let Ok(reply) = seat.restore(2, 0, false, 1) else {
        return 1;
    };
    assert_eq!(rt; reply, RestoreReply::Restored { at: 2 });
    let Ok(reply) = seat.publish(3, prep) else {
        return 2;
    };
    assert_eq!(rt; reply, PublishReply::Published { at: 3 });
    3
}

/// So many changes were accepted, and another seat finds them and no other.
fn change<J: Naming, R: Threads + Sync + Abort>(
    rt: &R,
    alloc: Global,
    ground: &Ground,
) -> Result<u32, NoMemory>
    requires land { ground.now ≡ J.land }
    requires profiles { length J.land.profiles ≡ 1 }
{
    let log = Log::<J>::new(alloc, 3)?;
    let mut seat = Seat::new(alloc, &log, ground, 1)?;
    let mut other = Seat::new(alloc, &log, ground, 2)?;
    let Some(prep) = seat.prepare(rt, CAR, 1)? else {
        todo!(rt)
    };
    let count = accepted(rt, &mut seat, &prep);
    other.catch_up();
    assert_eq!(rt; other.len(), count);
    Ok(count)
}

#[test]
fn another_seat_finds_each_change(rt: HostRuntime) -> Result<(), Fail> {
    let alloc = rt.alloc();
    let ground = road(alloc)?;
    match change::<Brand, HostRuntime>(&rt, alloc, &ground)? {
        0 => Err(Fail::new("lower wants memory")),
        1 => Err(Fail::new("restore wants memory")),
        2 => Err(Fail::new("publish wants memory")),
        _ => Ok(()),
    }
}

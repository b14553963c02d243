//! Two seats of one log, each in a thread of its own, fill one list.
ghost use denote.Param.Send.{IsSync};
ghost use Rattle.std.specs.Prelude.{◌≡◌, ◌<◌, ℕ, length, All, IfOk, slice_index_or};
ghost use Rattle.traffic_core.specs.contracts.ground.Ground.{the_row as ground};
ghost use Rattle.traffic_share.specs.Seats.{Place};

use gh_base::{NoMemory, SureSource};
use map_import::import;
use plain_map::read_plain;
use std::alloc::Global;
use std::marker::Brand;
use std::process::Abort;
use std::test::Fail;
use std::thread;
use std::thread::Threads;
use traffic_core::Ground;
use traffic_share::{Log, Naming, Seat};
use weighting::{Profiles, car_profile};

/// Nine towers in three rows and three columns, on twelve roads where cars go 60 km/h.
const GRID: &str =
    "n1 y0 x0\nn2 y0 x0.01\nn3 y0 x0.02\nn4 y0.01 x0\nn5 y0.01 x0.01\nn6 y0.01 x0.02\nn7 y0.02 x0\nn8 y0.02 x0.01\nn9 y0.02 x0.02\nw10 Thighway=secondary Nn1,n2,n3\nw11 Thighway=secondary Nn4,n5,n6\nw12 Thighway=secondary Nn7,n8,n9\nw13 Thighway=secondary Nn1,n4,n7\nw14 Thighway=secondary Nn2,n5,n8\nw15 Thighway=secondary Nn3,n6,n9\n";

/// The ground of a plain map, with one profile, for cars.
fn ground_of(alloc: Global, map: &str) -> Result<Ground, Fail>
    ensures { IfOk result (λ made. length made.profiles ≡ 1) }
{
    let mut source = SureSource::new(map.as_bytes(), 4096);
    let map = read_plain(alloc, &mut source)?;
    let roads = import(alloc, &map)?;
    let mut profiles = Profiles::new(alloc);
    profiles.push(car_profile(alloc)?)?;
    Ok(Ground::new(alloc, roads, profiles)?)
}

/// Lowers ten roads in one direction to 30 km/h.
fn lower_ten<J: Naming>(seat: &mut Seat<'_, '_, J>, reverse: bool) -> Result<(), NoMemory>
    requires { seat.old.last ≡ 0 }
    ensures { seat.new.cells ≡ seat.old.cells }
{
    for edge in 0..10u32 {
        let _reply = seat.lower(edge + 1, edge, reverse, 30_000)?;
    }
    Ok(())
}

fn is_shared<T: Sync>()
    ensures { IsSync T.row }
{}

/// Threads share the roads, as a fact: the search for `Send` of a seat would not find it inside.
fn ground_is_shared()
    ensures { IsSync ground }
{
    is_shared::<Ground>();
}

/// Seats do so at once, each in a thread of its own: the first forward, and the others in reverse.
fn lower_at_once<J: Naming, R: Threads + Sync>(rt: &R, seats: &mut [Seat<'_, '_, J>])
    requires { All (λ s. s.last ≡ 0) seats.old }
    ensures len { length seats.new ≡ length seats.old }
    ensures cells { (i : ℕ) (d : Place) → i < length seats.old → (slice_index_or seats.new i d).cells ≡ (slice_index_or seats.old i d).cells }
{
    ground_is_shared();
    let count = seats.len().max(1);
    thread::for_each_mut(
        rt,
        seats,
        count,
        &|place, seat: &mut Seat<'_, '_, J>|
            requires { seat.now.last ≡ 0 }
        {
            let _ = lower_ten(seat, place > 0);
        },
    );
}

/// Two seats learn from each other, and then have twenty entries, the same.
fn have_twenty<'l, 'g, J: Naming>(
    rt: &impl Abort,
    one: &mut Seat<'l, 'g, J>,
    two: &mut Seat<'l, 'g, J>,
)
    requires { one.old.cells ≡ two.old.cells }
{
    one.learn(two);
    two.learn(one);
    one.meet(two);
    assert_eq!(rt; one.len(), 20);
    assert_eq!(rt; two.len(), 20);
    for place in 1..=20u32 {
        assert!(rt; one.entry(place).is_same(two.entry(place)));
    }
}

/// Two seats of one log.
fn new_seats<'l, 'g, J: Naming>(
    alloc: Global,
    log: &'l Log<J>,
    ground: &'g Ground,
) -> Result<Vec<Seat<'l, 'g, J>>, NoMemory>
    requires { ground.now ≡ J.land }
    ensures new { IfOk result (λ seats. All (λ s. s.last ≡ 0) seats.items) }
    ensures cells { IfOk result (λ seats. (i : ℕ) (d : Place) → i < length seats.items → (slice_index_or seats.items i d).cells ≡ log.now) }
{
    let mut seats = Vec::new(alloc);
    seats.push(Seat::new(alloc, log, ground, 1)?)?;
    seats.push(Seat::new(alloc, log, ground, 2)?)?;
    Ok(seats)
}

/// Two seats of a new log do so.
fn seat_two<J: Naming, R: Threads + Sync + Abort>(
    rt: &R,
    alloc: Global,
    ground: &Ground,
) -> Result<(), NoMemory>
    requires { ground.now ≡ J.land }
{
    let log = Log::<J>::new(alloc, 20)?;
    let mut seats = new_seats(alloc, &log, ground)?;
    lower_at_once(rt, &mut seats);
    let (Some(mut two), Some(mut one)) = (seats.pop(), seats.pop()) else {
        todo!(rt)
    };
    have_twenty(rt, &mut one, &mut two);
    Ok(())
}

#[test]
fn two_threads_fill_one_list(rt: HostRuntime) -> Result<(), Fail> {
    let alloc = rt.alloc();
    let ground = ground_of(alloc, GRID)?;
    for _ in 0..1000 {
        seat_two::<Brand, HostRuntime>(&rt, alloc, &ground)?;
    }
    Ok(())
}

//! The greatest lengths and feet, worked out by hand. Others are rows of examples/tables.
ghost use Rattle.gh_base.specs.Places.{IsOnEarth};

use geo_math::{Snap, isqrt, project, segment_mm};
use gh_base::Point;

fn at(lat: i32, lon: i32) -> Point
    ensures { IsOnEarth result }
{
    Point {
        lat: lat.clamp(-900_000_000, 900_000_000),
        lon: lon.clamp(-1_800_000_000, 1_800_000_000),
    }
}

#[test]
fn the_latitude_halfway_is_rounded_down_in_the_south(rt: HostRuntime) {
    let a = at(-450_000_002, -1_800_000_000);
    let b = at(-450_000_001, 1_800_000_000);
    assert_eq!(rt; segment_mm(a, b), 28_256_593_107);
}

#[test]
fn the_farthest_points_have_a_length(rt: HostRuntime) {
    let a = at(900_000_000, 1_800_000_000);
    let b = at(-900_000_000, -1_800_000_000);
    assert_eq!(rt; segment_mm(a, b), 44_755_094_794);
}

#[test]
fn a_square_and_its_neighbours(rt: HostRuntime) {
    assert_eq!(rt; isqrt(99), 9);
    assert_eq!(rt; isqrt(100), 10);
    assert_eq!(rt; isqrt(0), 0);
}

#[test]
fn the_widest_triangle_has_a_square(rt: HostRuntime) {
    let foot = project(
        at(0, 1_800_000_000),
        at(-900_000_000, -1_800_000_000),
        at(900_000_000, -1_800_000_000),
    );
    assert!(rt;
        foot == Snap {
            place: 10_007_543_430,
            dist2: 12_960_000_000_000_000_000
        }
    );
}

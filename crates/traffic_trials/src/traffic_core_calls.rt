//! What a state of the roads takes, and when entries are the same.
use crate::road::road;
use gh_base::{DirEdge, EdgeId, NoMemory};
use std::alloc::Global;
use std::test::Fail;
use traffic_core::{Entry, Ground, RoadState, What};

fn closed(edge: u32) -> Entry {
    Entry {
        actor: 0,
        number: 1,
        what: What::Lower {
            edge: DirEdge {
                edge: EdgeId(edge),
                reverse: false,
            },
            speed: 0,
        },
    }
}

/// Whether a state with room for so many entries takes that an edge is closed.
fn takes(alloc: Global, ground: &Ground, room: u32, edge: u32) -> Result<bool, NoMemory> {
    let state = RoadState::with_room(alloc, ground, room)?;
    Ok(state.can_take(&closed(edge)))
}

#[test]
fn a_state_takes_entries_of_its_roads_while_there_is_room(rt: HostRuntime) -> Result<(), Fail> {
    let alloc = rt.alloc();
    let ground = road(alloc)?;
    assert_eq!(rt; takes(alloc, &ground, 1, 0), Ok(true));
    assert_eq!(rt; takes(alloc, &ground, 1, 1), Ok(false));
    assert_eq!(rt; takes(alloc, &ground, 0, 0), Ok(false));
    Ok(())
}

#[test]
fn entries_on_two_edges_differ(rt: HostRuntime) {
    assert!(rt; closed(0).is_same(&closed(0)));
    assert!(rt; !closed(0).is_same(&closed(1)));
}

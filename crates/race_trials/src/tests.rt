//! The races: what comes of each where one actor is held, and that nothing else comes of it where both run free.
use crate::{Hold, Turns};
use gh_base::{MemFiles, MemSink, MemSource};
use gh_serve::{Status, run};
use std::alloc::{AllocError, Global};
use std::thread::Threads;

/// Three towers in a row, 1111949 mm apart, on roads where cars go 60 km/h.
const MAP: &str =
    "n1 y0 x0\nn2 y0 x0.01\nn3 y0 x0.02\nw10 Thighway=secondary Nn1,n2\nw11 Thighway=secondary Nn2,n3\n";

const WORDS: [&str; 5] = ["serve", "--map", "m", "--form", "plain"];

const NONE: [u64; 0] = [];

/// How often each race is run with both actors free.
const ROUNDS: usize = 1000;

/// What comes of a race where these commands are held.
#[derive(Clone, Copy)]
struct Outcome<'a> {
    holds: &'a [Hold],
    text: &'a str,
}

const fn hold(actor: u32, number: u32, answers: u64) -> Hold {
    Hold {
        actor,
        number,
        answers,
    }
}

/// What a run of a script wrote, and nothing where it didn't end well or a command gave up waiting.
fn written<R: Threads + Sync>(
    rt: &R,
    alloc: Global,
    script: &str,
    holds: &[Hold],
) -> Result<Vec<u8>, AllocError> {
    let mut words = Vec::new(alloc);
    for word in &WORDS {
        words.push(String::from_str(alloc, word)?)?;
    }
    let gate = Turns::new(holds);
    let mut files = MemFiles::new("m", MAP.as_bytes(), &NONE, 4096, &NONE);
    let mut source = MemSource::new(script.as_bytes(), 4096, &NONE);
    let mut sink = MemSink::new(alloc, 4096, &NONE);
    let status = run(
        rt,
        alloc,
        words.as_slice(),
        &mut files,
        &mut source,
        &mut sink,
        &gate,
    );
    let mut text = Vec::new(alloc);
    if matches!(status, Status::Done) && !gate.has_given_up() {
        text.extend_from_slice(sink.bytes())?;
    }
    Ok(text)
}

/// How many of the outcomes came where their commands were held.
fn forced<R: Threads + Sync>(
    rt: &R,
    alloc: Global,
    script: &str,
    outcomes: &[Outcome],
) -> Result<usize, AllocError> {
    let mut count = 0usize;
    for outcome in outcomes {
        let text = written(rt, alloc, script, outcome.holds)?;
        if text.as_slice() == outcome.text.as_bytes() {
            count = count.saturating_add(1);
        }
    }
    Ok(count)
}

/// How many runs with both actors free gave one of the outcomes.
fn expected<R: Threads + Sync>(
    rt: &R,
    alloc: Global,
    script: &str,
    outcomes: &[Outcome],
) -> Result<usize, AllocError> {
    let mut count = 0usize;
    for _ in 0..ROUNDS {
        let text = written(rt, alloc, script, &[])?;
        for outcome in outcomes {
            if text.as_slice() == outcome.text.as_bytes() {
                count = count.saturating_add(1);
            }
        }
    }
    Ok(count)
}

/// One lowers the limit, and the other is told that it is as low.
#[test]
fn of_two_equal_lowerings_one_is_accepted(rt: HostRuntime) -> Result<(), AllocError> {
    let script = "actor f\nactor g\nf lower 1+ 30\ng lower 1+ 30\n";
    let outcomes = [
        Outcome {
            holds: &[hold(1, 1, 1)],
            text: "f 1 1 lowered\ng 1 1 notlower 30000\njournal 1\n1 f 1 lower 1+ 30000\n",
        },
        Outcome {
            holds: &[hold(0, 1, 1)],
            text: "f 1 1 notlower 30000\ng 1 1 lowered\njournal 1\n1 g 1 lower 1+ 30000\n",
        },
    ];
    assert_eq!(rt; forced(&rt, rt.alloc(), script, &outcomes)?, outcomes.len());
    assert_eq!(rt; expected(&rt, rt.alloc(), script, &outcomes)?, ROUNDS);
    Ok(())
}

/// One takes the last place of the journal.
#[test]
fn the_last_place_is_taken_once(rt: HostRuntime) -> Result<(), AllocError> {
    let script = "journal 1\nactor f\nactor g\nf lower 0+ 50\ng lower 1+ 30\n";
    let outcomes = [
        Outcome {
            holds: &[hold(1, 1, 1)],
            text: "f 1 1 lowered\ng 1 1 journalfull\njournal 1\n1 f 1 lower 0+ 50000\n",
        },
        Outcome {
            holds: &[hold(0, 1, 1)],
            text: "f 1 1 journalfull\ng 1 1 lowered\njournal 1\n1 g 1 lower 1+ 30000\n",
        },
    ];
    assert_eq!(rt; forced(&rt, rt.alloc(), script, &outcomes)?, outcomes.len());
    assert_eq!(rt; expected(&rt, rt.alloc(), script, &outcomes)?, ROUNDS);
    Ok(())
}

/// A route is asked for before the lowering or behind it.
#[test]
fn a_route_is_before_or_behind_a_lowering(rt: HostRuntime) -> Result<(), AllocError> {
    let script = "actor f\nactor s\nf lower 1+ 30\ns route n1 n3\n";
    let outcomes = [
        Outcome {
            holds: &[hold(1, 1, 1)],
            text: "f 1 1 lowered\ns 1 1 route 200151 2223898 2 0+ 1+\njournal 1\n1 f 1 lower 1+ 30000\n",
        },
        Outcome {
            holds: &[hold(0, 1, 1)],
            text: "f 1 1 lowered\ns 1 0 route 133434 2223898 2 0+ 1+\njournal 1\n1 f 1 lower 1+ 30000\n",
        },
    ];
    assert_eq!(rt; forced(&rt, rt.alloc(), script, &outcomes)?, outcomes.len());
    assert_eq!(rt; expected(&rt, rt.alloc(), script, &outcomes)?, ROUNDS);
    Ok(())
}

/// A publication stands before, between or behind three lowerings.
#[test]
fn a_publication_stands_among_lowerings(rt: HostRuntime) -> Result<(), AllocError> {
    let script =
        "actor p\nactor f\np prepare car 2\nsync\np publish car\nf lower 0+ 40\nf lower 1+ 30\nf lower 1- 20\n";
    let outcomes = [
        Outcome {
            holds: &[hold(1, 1, 2)],
            text: "p 1 0 prepared 2\np 2 1 published\nf 1 2 lowered\nf 2 3 lowered\nf 3 4 lowered\njournal 4\n1 p 2 publish car\n2 f 1 lower 0+ 40000\n3 f 2 lower 1+ 30000\n4 f 3 lower 1- 20000\n",
        },
        Outcome {
            holds: &[hold(0, 2, 1), hold(1, 2, 2)],
            text: "p 1 0 prepared 2\np 2 2 published\nf 1 1 lowered\nf 2 3 lowered\nf 3 4 lowered\njournal 4\n1 f 1 lower 0+ 40000\n2 p 2 publish car\n3 f 2 lower 1+ 30000\n4 f 3 lower 1- 20000\n",
        },
        Outcome {
            holds: &[hold(0, 2, 2), hold(1, 3, 2)],
            text: "p 1 0 prepared 2\np 2 3 published\nf 1 1 lowered\nf 2 2 lowered\nf 3 4 lowered\njournal 4\n1 f 1 lower 0+ 40000\n2 f 2 lower 1+ 30000\n3 p 2 publish car\n4 f 3 lower 1- 20000\n",
        },
        Outcome {
            holds: &[hold(0, 2, 3)],
            text: "p 1 0 prepared 2\np 2 4 published\nf 1 1 lowered\nf 2 2 lowered\nf 3 3 lowered\njournal 4\n1 f 1 lower 0+ 40000\n2 f 2 lower 1+ 30000\n3 f 3 lower 1- 20000\n4 p 2 publish car\n",
        },
    ];
    assert_eq!(rt; forced(&rt, rt.alloc(), script, &outcomes)?, outcomes.len());
    assert_eq!(rt; expected(&rt, rt.alloc(), script, &outcomes)?, ROUNDS);
    Ok(())
}

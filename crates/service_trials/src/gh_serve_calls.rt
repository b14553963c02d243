//! Runs in memory: one that ends well, and how others end.
use gh_base::{FreeGate, Gate, MemFiles, MemSink, MemSource};
use gh_serve::{Status, fault_text, run};
use std::alloc::{AllocError, Global};
use std::sync::atomic::AtomicU64;
use std::sync::atomic::Ordering::SeqCst;
use std::thread;
use std::thread::Threads;

/// Three towers in a row, 1111949 mm apart, on roads where cars go 60 km/h.
const MAP: &str =
    "n1 y0 x0\nn2 y0 x0.01\nn3 y0 x0.02\nw10 Thighway=secondary Nn1,n2\nw11 Thighway=secondary Nn2,n3\n";

const WORDS: [&str; 5] = ["serve", "--map", "m", "--form", "plain"];

const TO_PBF: [&str; 7] = ["convert", "--map", "m", "--form", "plain", "--to", "pbf"];

const NONE: [u64; 0] = [];

const FIRST: [u64; 1] = [1];

const SECOND: [u64; 1] = [2];

/// What a run is given, and which calls of the outside fail.
#[derive(Clone, Copy)]
struct Case<'a> {
    words: &'a [&'a str],
    map: &'a [u8],
    map_fails: &'a [u64],
    script: &'a [u8],
    script_fails: &'a [u64],
    sink_fails: &'a [u64],
    /// The most bytes that a call of a source or of the sink moves.
    step: usize,
}

const fn plain_case<'a>(map: &'a [u8], script: &'a [u8]) -> Case<'a> {
    Case {
        words: &WORDS,
        map,
        map_fails: &NONE,
        script,
        script_fails: &NONE,
        sink_fails: &NONE,
        step: 5,
    }
}

fn owned(alloc: Global, words: &[&str]) -> Result<Vec<String>, AllocError> {
    let mut list = Vec::new(alloc);
    for word in words {
        list.push(String::from_str(alloc, word)?)?;
    }
    Ok(list)
}

/// How a run ended, in the words that a user reads, and what the sink holds.
fn outcome<R: Threads + Sync>(
    rt: &R,
    alloc: Global,
    case: &Case,
) -> Result<(String, Vec<u8>), AllocError> {
    outcome_at(rt, alloc, case, &FreeGate)
}

/// The same with a gate round each command.
fn outcome_at<R: Threads + Sync, G: Gate>(
    rt: &R,
    alloc: Global,
    case: &Case,
    gate: &G,
) -> Result<(String, Vec<u8>), AllocError> {
    let words = owned(alloc, case.words)?;
    let step = case.step.max(1);
    let mut files = MemFiles::new("m", case.map, &NONE, step, case.map_fails);
    let mut script = MemSource::new(case.script, step, case.script_fails);
    let mut sink = MemSink::new(alloc, step, case.sink_fails);
    let status = run(
        rt,
        alloc,
        words.as_slice(),
        &mut files,
        &mut script,
        &mut sink,
        gate,
    );
    let text = match &status {
        Status::Done => String::from_str(alloc, "done")?,
        other => match fault_text(alloc, other) {
            Ok(text) => String::from_str(alloc, text.as_str())?,
            Err(_) => return Err(AllocError),
        },
    };
    let mut held = Vec::new(alloc);
    held.extend_from_slice(sink.bytes())?;
    Ok((text, held))
}

#[test]
fn a_conversion_tells_what_fails_outside_and_writes_nothing(
    rt: HostRuntime,
) -> Result<(), AllocError> {
    let map = MAP.as_bytes();
    let to_pbf = Case {
        words: &TO_PBF,
        ..plain_case(map, b"")
    };
    let cases = [
        (
            Case {
                map_fails: &FIRST,
                ..to_pbf
            },
            "gh: cannot read the map",
        ),
        (
            Case {
                sink_fails: &FIRST,
                ..to_pbf
            },
            "gh: cannot write",
        ),
    ];
    for (case, wanted) in &cases {
        let (text, held) = outcome(&rt, rt.alloc(), case)?;
        assert_eq!(rt; text.as_str(), *wanted);
        assert_eq!(rt; held.len(), 0, "{wanted}");
    }
    Ok(())
}

#[test]
fn what_was_written_before_a_failed_write_stands(rt: HostRuntime) -> Result<(), AllocError> {
    let generated = Case {
        words: &["generate", "--size", "2"],
        sink_fails: &SECOND,
        ..plain_case(b"", b"")
    };
    let (text, held) = outcome(&rt, rt.alloc(), &generated)?;
    assert_eq!(rt; text.as_str(), "gh: cannot write");
    assert_eq!(rt; held.as_slice(), b"nodes".as_slice());
    // Nothing reads the script.
    let roads = Case {
        words: &["roads", "--map", "m", "--form", "plain"],
        script_fails: &FIRST,
        sink_fails: &SECOND,
        ..plain_case(MAP.as_bytes(), b"")
    };
    let (text, held) = outcome(&rt, rt.alloc(), &roads)?;
    assert_eq!(rt; text.as_str(), "gh: cannot write");
    assert_eq!(rt; held.as_slice(), b"{\"typ".as_slice());
    Ok(())
}

/// A sink that takes whole pieces, and whose second call fails, has the replies of the first phase.
#[test]
fn phases_before_a_failed_write_stand(rt: HostRuntime) -> Result<(), AllocError> {
    let script = "actor f\nactor a\nf lower 1+ 30\nsync\na route n1 n3\n";
    let case = Case {
        sink_fails: &SECOND,
        step: 4096,
        ..plain_case(MAP.as_bytes(), script.as_bytes())
    };
    let (text, held) = outcome(&rt, rt.alloc(), &case)?;
    assert_eq!(rt; text.as_str(), "gh: cannot write");
    assert_eq!(rt; held.as_slice(), b"f 1 1 lowered\n".as_slice());
    Ok(())
}

#[test]
fn each_call_of_a_source_that_fails_is_told(rt: HostRuntime) -> Result<(), AllocError> {
    let script = "actor a\na route n1 n3\n";
    let case = Case {
        step: 1,
        ..plain_case(MAP.as_bytes(), script.as_bytes())
    };
    for place in 0..MAP.len() {
        let fails = [place as u64 + 1];
        let map_fails = fails.as_slice();
        let (text, held) = outcome(&rt, rt.alloc(), &Case { map_fails, ..case })?;
        assert_eq!(rt; text.as_str(), "gh: cannot read the map");
        assert_eq!(rt; held.len(), 0);
    }
    for place in 0..script.len() {
        let fails = [place as u64 + 1];
        let script_fails = fails.as_slice();
        let (text, held) = outcome(
            &rt,
            rt.alloc(),
            &Case {
                script_fails,
                ..case
            },
        )?;
        assert_eq!(rt; text.as_str(), "gh: cannot read the script");
        assert_eq!(rt; held.len(), 0);
    }
    Ok(())
}

/// Holds the first actor's first command until the second's first was answered, and the second's second until the
/// first's first was answered.
#[derive(Drop)]
struct Turns {
    by_first: AtomicU64,
    by_second: AtomicU64,
    gave_up: AtomicU64,
}

impl Turns {
    fn wait(&self, answered: &AtomicU64) {
        for _ in 0..100_000_000u64 {
            if answered.load(SeqCst) > 0 {
                return;
            }
            thread::yield_now();
        }
        self.gave_up.fetch_add(1, SeqCst);
    }
}

impl Gate for Turns {
    fn before(&self, actor: u32, number: u32) {
        if actor == 0 && number == 1 {
            self.wait(&self.by_second);
        }
        if actor == 1 && number == 2 {
            self.wait(&self.by_first);
        }
    }

    fn after(&self, actor: u32, _number: u32) {
        if actor == 0 {
            self.by_first.fetch_add(1, SeqCst);
        } else {
            self.by_second.fetch_add(1, SeqCst);
        }
    }
}

#[test]
fn actors_of_a_phase_run_at_once(rt: HostRuntime) -> Result<(), AllocError> {
    let script = "actor s\nactor f\ns route n1 n3\nf lower 0+ 50\nf lower 0+ 40\n";
    let gate = Turns {
        by_first: AtomicU64::new(0),
        by_second: AtomicU64::new(0),
        gave_up: AtomicU64::new(0),
    };
    let case = plain_case(MAP.as_bytes(), script.as_bytes());
    let (text, held) = outcome_at(&rt, rt.alloc(), &case, &gate)?;
    assert_eq!(rt; text.as_str(), "done");
    assert_eq!(rt; gate.gave_up.load(SeqCst), 0);
    let wanted =
        "s 1 1 route 146778 2223898 2 0+ 1+\nf 1 1 lowered\nf 2 2 lowered\njournal 2\n1 f 1 lower 0+ 50000\n2 f 2 lower 0+ 40000\n";
    assert_eq!(rt; held.as_slice(), wanted.as_bytes());
    Ok(())
}

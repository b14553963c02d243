//! A gate that gives turns to the commands of two actors.
use gh_base::Gate;
use std::sync::atomic::AtomicU64;
use std::sync::atomic::Ordering::SeqCst;
use std::thread;

/// How often a command that waits looks whether it may go on. Then it gives up, and goes on.
const MOST_LOOKS: u64 = 100_000_000;

/// A command of an actor that waits until the other actor has answered so many, in the whole run.
#[derive(Clone, Copy)]
pub struct Hold {
    pub actor: u32,
    pub number: u32,
    pub answers: u64,
}

/// The gate: some commands wait, all others go on.
#[derive(Drop)]
pub struct Turns<'a> {
    holds: &'a [Hold],
    by_first: AtomicU64,
    by_second: AtomicU64,
    given_up: AtomicU64,
}

impl<'a> Turns<'a> {
    pub fn new(holds: &'a [Hold]) -> Turns<'a> {
        Turns {
            holds,
            by_first: AtomicU64::new(0),
            by_second: AtomicU64::new(0),
            given_up: AtomicU64::new(0),
        }
    }

    /// Whether a command gave up waiting.
    pub fn has_given_up(&self) -> bool {
        self.given_up.load(SeqCst) > 0
    }

    fn wait(&self, answered: &AtomicU64, wanted: u64) {
        for _ in 0..MOST_LOOKS {
            if answered.load(SeqCst) >= wanted {
                return;
            }
            thread::yield_now();
        }
        self.given_up.fetch_add(1, SeqCst);
    }
}

impl<'a> Gate for Turns<'a> {
    fn before(&self, actor: u32, number: u32) {
        let other = if actor == 0 {
            &self.by_second
        } else {
            &self.by_first
        };
        for hold in self.holds {
            if hold.actor == actor && hold.number == number {
                self.wait(other, hold.answers);
            }
        }
    }

    fn after(&self, actor: u32, _number: u32) {
        let own = if actor == 0 {
            &self.by_first
        } else {
            &self.by_second
        };
        own.fetch_add(1, SeqCst);
    }
}

//! The forms in memory.
ghost use Rattle.std.specs.Prelude.{◌≡◌, ◌≢◌, ◌<◌, ◌≤◌, ◌⊎◌, ◌==◌, ◌↔◌, ◌+◌, ◌-◌, ◌^◌, min, length, [], ℕ, List, Contains, IsErr, IfOk, OnOk, OnErr, Some, None, if◌then◌else◌};
ghost use Rattle.std.specs.Str.{bytes_eq};
ghost use Rattle.std.specs.Io.{ReadsAtMost};
ghost use Rattle.std.specs.Io.KnownBytes.{ReadConsumes, WriteAppends};
ghost use Rattle.gh_base.specs.Causes.{HasCause, Rose, one_more};

use crate::faults::Failed;
use crate::outside::{Files, Gate, Sink, Source};
use std::alloc::Global;

/// A source over bytes, that fails at the calls listed.
#[derive(Drop)]
pub struct MemSource<'a> {
    bytes: &'a [u8],
    step: usize,
    fails: &'a [u64],
    calls: u64,
    faults: u64,
    mark: u8,
    ghost moves: { 0 < step },
}

impl<'a> MemSource<'a> {
    ghost use Rattle.gh_base.specs.Memory.{source_plan};

    /// A source of these bytes, which moves at most `step` of them in a call and fails at the calls of these numbers.
    pub fn new(bytes: &'a [u8], step: usize, fails: &'a [u64]) -> MemSource<'a>
        requires { 0 < step }
        ensures plan { source_plan result ≡ record { step = step; fails = fails.now; calls = 0 } }
        ensures left { ⟦<MemSource<'a> as Source>⟧.left result ≡ Some bytes.now }
        ensures faults { ⟦<MemSource<'a> as Source>⟧.faults result ≡ 0 }
        ensures mark { ⟦<MemSource<'a> as Source>⟧.mark result ≡ 0 }
    {
        MemSource {
            bytes,
            step,
            fails,
            calls: 0,
            faults: 0,
            mark: 0,
        }
    }
}

impl<'a> Source for MemSource<'a> {
    ghost use Rattle.gh_base.specs.Memory.{source_plan, next_call, called};

    ghost left = { λ s. Some s.bytes.now };

    ghost faults = { λ s. s.faults };

    ghost mark = { λ s. s.mark };

    fn take(&mut self, buf: &mut [u8]) -> Result<usize, Failed>
        ensures bound { ReadsAtMost result buf.new }
        ensures bytes { ReadConsumes (Some self.old.bytes.now) (Some self.new.bytes.now) result buf.new }
        ensures cause { HasCause self.old.faults self.new.faults result }
        ensures mark { self.new.mark ≡ self.old.mark }
        // A call that fails counts one fault, and one that goes well counts none.
        ensures counted { OnErr result (self.new.faults ≡ one_more self.old.faults) }
        ensures uncounted { OnOk result (self.new.faults ≡ self.old.faults) }
        // It fails exactly at the calls listed, and else moves as much as it can.
        ensures listed { IsErr result ↔ Contains (source_plan self.old).fails (next_call (source_plan self.old)) }
        ensures most { IfOk result (λ n. n ≡ min (source_plan self.old).step (min (length buf.old) (length self.old.bytes.now))) }
        ensures plan { source_plan self.new ≡ called (source_plan self.old) }
    {
        self.calls = self.calls.saturating_add(1);
        if self.fails.contains(&self.calls) {
            self.faults = self.faults.saturating_add(1);
            return Err(Failed);
        }
        let n = self.step.min(buf.len()).min(self.bytes.len());
        let (front, rest) = self.bytes.split_at(n);
        buf[..n].copy_from_slice(front);
        self.bytes = rest;
        Ok(n)
    }
}

/// A sink that keeps what it is given, and fails at the calls listed.
#[derive(Drop)]
pub struct MemSink<'a> {
    bytes: Vec<u8>,
    step: usize,
    fails: &'a [u64],
    calls: u64,
    faults: u64,
    ghost moves: { 0 < step },
}

impl<'a> MemSink<'a> {
    ghost use Rattle.gh_base.specs.Memory.{sink_plan};

    /// An empty sink, which takes at most `step` bytes in a call and fails at the calls of these numbers, and where no memory is.
    pub fn new(alloc: Global, step: usize, fails: &'a [u64]) -> MemSink<'a>
        requires { 0 < step }
        ensures plan { sink_plan result ≡ record { step = step; fails = fails.now; calls = 0 } }
        ensures held { ⟦<MemSink<'a> as Sink>⟧.held result ≡ Some [] }
        ensures faults { ⟦<MemSink<'a> as Sink>⟧.faults result ≡ 0 }
    {
        MemSink {
            bytes: Vec::new(alloc),
            step,
            fails,
            calls: 0,
            faults: 0,
        }
    }

    /// All that the sink was given.
    pub fn bytes(&self) -> &[u8]
        ensures { ⟦<MemSink<'a> as Sink>⟧.held self.now ≡ Some result.now }
    {
        &self.bytes
    }
}

impl<'a> Sink for MemSink<'a> {
    ghost use Rattle.gh_base.specs.Memory.{sink_plan, next_call, called};

    ghost held = { λ s. Some s.bytes.items };

    ghost faults = { λ s. s.faults };

    fn give(&mut self, piece: &[u8]) -> Result<usize, Failed>
        requires { 0 < length piece.now }
        ensures some { IfOk result (λ n. 0 < n) }
        ensures bound { IfOk result (λ n. n ≤ length piece.now) }
        ensures bytes { WriteAppends (Some self.old.bytes.items) (Some self.new.bytes.items) result piece.now }
        ensures cause { HasCause self.old.faults self.new.faults result }
        // A call that fails counts one fault, and one that goes well counts none.
        ensures counted { OnErr result (self.new.faults ≡ one_more self.old.faults) }
        ensures uncounted { OnOk result (self.new.faults ≡ self.old.faults) }
        // It fails at the calls listed, and else only for want of memory; it takes as much as it can.
        ensures listed { Contains (sink_plan self.old).fails (next_call (sink_plan self.old)) → IsErr result }
        ensures most { IfOk result (λ n. n ≡ min (sink_plan self.old).step (length piece.now)) }
        ensures plan { sink_plan self.new ≡ called (sink_plan self.old) }
    {
        self.calls = self.calls.saturating_add(1);
        let n = self.step.min(piece.len());
        if self.fails.contains(&self.calls) || self.bytes.extend_from_slice(&piece[..n]).is_err() {
            self.faults = self.faults.saturating_add(1);
            return Err(Failed);
        }
        Ok(n)
    }
}

/// One name, which holds bytes.
#[derive(Drop)]
pub struct MemFiles<'a> {
    name: &'a str,
    bytes: &'a [u8],
    fails: &'a [u64],
    step: usize,
    take_fails: &'a [u64],
    calls: u64,
    own_brings: u64,
    other_brings: u64,
    own_takes: u64,
    other_takes: u64,
    ghost moves: { 0 < step },
}

impl<'a> MemFiles<'a> {
    ghost use Rattle.gh_base.specs.Memory.{bring_plan, take_plan, own_name};

    /// A name with these bytes, whose bringing fails at the calls of the numbers `fails`. Its sources move at most `step`
    /// bytes in a call and fail at the calls of the numbers `take_fails`. No other name is there.
    pub fn new(
        name: &'a str,
        bytes: &'a [u8],
        fails: &'a [u64],
        step: usize,
        take_fails: &'a [u64],
    ) -> MemFiles<'a>
        requires { 0 < step }
        ensures name { own_name result ≡ name.now }
        ensures bring_plan { bring_plan result ≡ record { step = step; fails = fails.now; calls = 0 } }
        ensures take_plan { take_plan result ≡ record { step = step; fails = take_fails.now; calls = 0 } }
        ensures holds { ⟦<MemFiles<'a> as Files>⟧.holds result name.now ≡ Some bytes.now }
        ensures others { (other : List ℕ) → other ≢ name.now → ⟦<MemFiles<'a> as Files>⟧.holds result other ≡ None }
        ensures mark { ⟦<MemFiles<'a> as Files>⟧.mark_of result name.now ≡ 1 }
        ensures marks { (other : List ℕ) → other ≢ name.now → ⟦<MemFiles<'a> as Files>⟧.mark_of result other ≡ 0 }
        ensures brings { (m : ℕ) → ⟦<MemFiles<'a> as Files>⟧.failed_brings result m ≡ 0 }
        ensures takes { (m : ℕ) → ⟦<MemFiles<'a> as Files>⟧.failed_takes result m ≡ 0 }
    {
        MemFiles {
            name,
            bytes,
            fails,
            step,
            take_fails,
            calls: 0,
            own_brings: 0,
            other_brings: 0,
            own_takes: 0,
            other_takes: 0,
        }
    }
}

impl<'a> Files for MemFiles<'a> {
    ghost use Rattle.gh_base.specs.Memory.{source_plan, bring_plan, take_plan, own_name, next_call, called, held_by_name, mark_by_name, failed_brings_at, failed_takes_at};

    type Src = MemSource<'a>;

    ghost holds = { λ f n. if bytes_eq n f.name.now then Some f.bytes.now else None };

    ghost mark_of = { λ f n. if bytes_eq n f.name.now then 1 else 0 };

    ghost failed_brings = { λ f m. if m == 1 then f.own_brings else f.other_brings };

    ghost failed_takes = { λ f m. if m == 1 then f.own_takes else f.other_takes };

    fn bring(&mut self, name: &str) -> Result<MemSource<'a>, Failed>
        ensures content { IfOk result (λ s. Some s.bytes.now ≡ held_by_name self.old name.now) }
        ensures marked { IfOk result (λ s. s.mark ≡ mark_by_name self.old name.now) }
        ensures fresh { IfOk result (λ s. s.faults ≡ 0) }
        ensures cause { HasCause (failed_brings_at self.old (mark_by_name self.old name.now)) (failed_brings_at self.new (mark_by_name self.old name.now)) result }
        ensures brings { (m : ℕ) → failed_brings_at self.old m ≤ failed_brings_at self.new m }
        ensures takes { (m : ℕ) → failed_takes_at self.new m ≡ failed_takes_at self.old m }
        ensures kept { (n : List ℕ) → held_by_name self.new n ≡ held_by_name self.old n }
        ensures marks { (n : List ℕ) → mark_by_name self.new n ≡ mark_by_name self.old n }
        // It fails exactly at the calls listed and at a name that isn't there.
        ensures listed { IsErr result ↔ (name.now ≢ own_name self.old) ⊎ Contains (bring_plan self.old).fails (next_call (bring_plan self.old)) }
        ensures source { IfOk result (λ s. source_plan s ≡ take_plan self.old) }
        ensures plan { bring_plan self.new ≡ called (bring_plan self.old) }
        ensures same { (own_name self.new ≡ own_name self.old) × (take_plan self.new ≡ take_plan self.old) }
        // A call that fails counts one fault, of this name's mark alone, and one that goes well counts none.
        ensures counted { OnErr result (failed_brings_at self.new (mark_by_name self.old name.now) ≡ one_more (failed_brings_at self.old (mark_by_name self.old name.now))) }
        ensures others { (m : ℕ) → (m == 1) ≢ (mark_by_name self.old name.now == 1) → failed_brings_at self.new m ≡ failed_brings_at self.old m }
        ensures free { OnOk result ((m : ℕ) → failed_brings_at self.new m ≡ failed_brings_at self.old m) }
    {
        self.calls = self.calls.saturating_add(1);
        if name != self.name {
            self.other_brings = self.other_brings.saturating_add(1);
            return Err(Failed);
        }
        if self.fails.contains(&self.calls) {
            self.own_brings = self.own_brings.saturating_add(1);
            return Err(Failed);
        }
        Ok(MemSource {
            bytes: self.bytes,
            step: self.step,
            fails: self.take_fails,
            calls: 0,
            faults: 0,
            mark: 1,
        })
    }

    fn take_back(&mut self, source: MemSource<'a>)
        ensures failed { 0 < source.entry.faults → Rose (failed_takes_at self.old source.entry.mark) (failed_takes_at self.new source.entry.mark) }
        ensures free { source.entry.faults ≡ 0 → (m : ℕ) → failed_takes_at self.new m ≡ failed_takes_at self.old m }
        ensures later { (m : ℕ) → failed_takes_at self.old m ≤ failed_takes_at self.new m }
        ensures brings { (m : ℕ) → failed_brings_at self.new m ≡ failed_brings_at self.old m }
        ensures kept { (n : List ℕ) → held_by_name self.new n ≡ held_by_name self.old n }
        ensures marks { (n : List ℕ) → mark_by_name self.new n ≡ mark_by_name self.old n }
        // It counts one fault, and it is no bringing.
        ensures once { 0 < source.entry.faults → failed_takes_at self.new source.entry.mark ≡ one_more (failed_takes_at self.old source.entry.mark) }
        ensures others { (m : ℕ) → (m == 1) ≢ (source.entry.mark == 1) → failed_takes_at self.new m ≡ failed_takes_at self.old m }
        ensures plan { bring_plan self.new ≡ bring_plan self.old }
        ensures same { (own_name self.new ≡ own_name self.old) × (take_plan self.new ≡ take_plan self.old) }
    {
        if source.faults > 0 {
            if source.mark == 1 {
                self.own_takes = self.own_takes.saturating_add(1);
            } else {
                self.other_takes = self.other_takes.saturating_add(1);
            }
        }
    }
}

/// A gate that lets all through.
#[derive(Clone, Copy, Debug)]
pub struct FreeGate;

impl Gate for FreeGate {
    fn before(&self, _actor: u32, _number: u32) {}

    fn after(&self, _actor: u32, _number: u32) {}
}

//! Forms in memory that never fail.
ghost use Rattle.std.specs.Prelude.{◌≡◌, ◌≢◌, ◌<◌, ◌≤◌, ◌==◌, ℕ, List, min, length, [], IsOk, IfOk, Some, None, if◌then◌else◌};
ghost use Rattle.std.specs.Str.{bytes_eq};
ghost use Rattle.std.specs.Io.{ReadsAtMost};
ghost use Rattle.std.specs.Io.KnownBytes.{ReadConsumes, WriteAppends};
ghost use Rattle.gh_base.specs.Causes.{HasCause};

use crate::faults::Failed;
use crate::outside::{Files, Sink, Source};

/// A source over bytes that never fails.
#[derive(Drop)]
pub struct SureSource<'a> {
    bytes: &'a [u8],
    step: usize,
    mark: u8,
    ghost moves: { 0 < step },
}

impl<'a> SureSource<'a> {
    ghost use Rattle.gh_base.specs.Memory.{source_step};

    /// A source of these bytes, which moves at most `step` of them in a call.
    pub fn new(bytes: &'a [u8], step: usize) -> SureSource<'a>
        requires { 0 < step }
        ensures step { source_step result ≡ step }
        ensures left { ⟦<SureSource<'a> as Source>⟧.left result ≡ Some bytes.now }
        ensures faults { ⟦<SureSource<'a> as Source>⟧.faults result ≡ 0 }
        ensures mark { ⟦<SureSource<'a> as Source>⟧.mark result ≡ 0 }
    {
        SureSource {
            bytes,
            step,
            mark: 0,
        }
    }
}

impl<'a> Source for SureSource<'a> {
    ghost use Rattle.gh_base.specs.Memory.{source_step};

    ghost left = { λ s. Some s.bytes.now };

    ghost faults = { λ _. 0 };

    ghost mark = { λ s. s.mark };

    fn take(&mut self, buf: &mut [u8]) -> Result<usize, Failed>
        ensures bound { ReadsAtMost result buf.new }
        ensures bytes { ReadConsumes (Some self.old.bytes.now) (Some self.new.bytes.now) result buf.new }
        ensures cause { HasCause 0 0 result }
        ensures mark { self.new.mark ≡ self.old.mark }
        // It moves as much as it can.
        ensures sure { IsOk result }
        ensures most { IfOk result (λ n. n ≡ min (source_step self.old) (min (length buf.old) (length self.old.bytes.now))) }
        ensures step { source_step self.new ≡ source_step self.old }
    {
        let n = self.step.min(buf.len()).min(self.bytes.len());
        let (front, rest) = self.bytes.split_at(n);
        buf[..n].copy_from_slice(front);
        self.bytes = rest;
        Ok(n)
    }
}

/// A sink that keeps no bytes and tells none, so it never fails.
#[derive(Clone, Copy, Debug)]
pub struct SureSink {
    step: usize,
    ghost moves: { 0 < step },
}

impl SureSink {
    ghost use Rattle.gh_base.specs.Memory.{sink_step};

    /// A sink that takes at most `step` bytes in a call.
    pub fn new(step: usize) -> SureSink
        requires { 0 < step }
        ensures step { sink_step result ≡ step }
        ensures held { ⟦<SureSink as Sink>⟧.held result ≡ None }
        ensures faults { ⟦<SureSink as Sink>⟧.faults result ≡ 0 }
    {
        SureSink { step }
    }
}

impl Sink for SureSink {
    ghost use Rattle.gh_base.specs.Memory.{sink_step};

    ghost held = { λ _. None };

    ghost faults = { λ _. 0 };

    fn give(&mut self, piece: &[u8]) -> Result<usize, Failed>
        requires { 0 < length piece.now }
        ensures some { IfOk result (λ n. 0 < n) }
        ensures bound { IfOk result (λ n. n ≤ length piece.now) }
        ensures bytes { WriteAppends None None result piece.now }
        ensures cause { HasCause 0 0 result }
        // It takes as much as it can.
        ensures sure { IsOk result }
        ensures most { IfOk result (λ n. n ≡ min (sink_step self.old) (length piece.now)) }
        ensures step { sink_step self.new ≡ sink_step self.old }
    {
        Ok(self.step.min(piece.len()))
    }
}

/// One name, which holds bytes; all others hold none. Nothing fails.
#[derive(Drop)]
pub struct SureFiles<'a> {
    name: &'a str,
    bytes: &'a [u8],
    step: usize,
    ghost moves: { 0 < step },
}

impl<'a> SureFiles<'a> {
    ghost use Rattle.gh_base.specs.Memory.{files_step};

    /// A name with these bytes, whose sources move at most `step` of them in a call. All other names hold none.
    pub fn new(name: &'a str, bytes: &'a [u8], step: usize) -> SureFiles<'a>
        requires { 0 < step }
        ensures step { files_step result ≡ step }
        ensures holds { ⟦<SureFiles<'a> as Files>⟧.holds result name.now ≡ Some bytes.now }
        ensures others { (other : List ℕ) → other ≢ name.now → ⟦<SureFiles<'a> as Files>⟧.holds result other ≡ Some [] }
        ensures mark { ⟦<SureFiles<'a> as Files>⟧.mark_of result name.now ≡ 1 }
        ensures marks { (other : List ℕ) → other ≢ name.now → ⟦<SureFiles<'a> as Files>⟧.mark_of result other ≡ 0 }
        ensures brings { (m : ℕ) → ⟦<SureFiles<'a> as Files>⟧.failed_brings result m ≡ 0 }
        ensures takes { (m : ℕ) → ⟦<SureFiles<'a> as Files>⟧.failed_takes result m ≡ 0 }
    {
        SureFiles { name, bytes, step }
    }
}

impl<'a> Files for SureFiles<'a> {
    ghost use Rattle.gh_base.specs.Memory.{source_step, files_step, surely_held, sure_mark, sure_faults, sure_failed};

    type Src = SureSource<'a>;

    ghost holds = { λ f n. Some (if bytes_eq n f.name.now then f.bytes.now else []) };

    ghost mark_of = { λ f n. if bytes_eq n f.name.now then 1 else 0 };

    ghost failed_brings = { λ _ _. 0 };

    ghost failed_takes = { λ _ _. 0 };

    fn bring(&mut self, name: &str) -> Result<SureSource<'a>, Failed>
        ensures content { IfOk result (λ s. Some s.bytes.now ≡ surely_held self.old name.now) }
        ensures marked { IfOk result (λ s. s.mark ≡ sure_mark self.old name.now) }
        ensures fresh { IfOk result (λ s. sure_faults s ≡ 0) }
        ensures cause { HasCause 0 0 result }
        ensures brings { (m : ℕ) → sure_failed self.old m ≤ sure_failed self.new m }
        ensures takes { (m : ℕ) → sure_failed self.new m ≡ sure_failed self.old m }
        ensures kept { (n : List ℕ) → surely_held self.new n ≡ surely_held self.old n }
        ensures marks { (n : List ℕ) → sure_mark self.new n ≡ sure_mark self.old n }
        // It never fails.
        ensures sure { IsOk result }
        ensures source { IfOk result (λ s. source_step s ≡ files_step self.old) }
        ensures step { files_step self.new ≡ files_step self.old }
    {
        if name == self.name {
            Ok(SureSource {
                bytes: self.bytes,
                step: self.step,
                mark: 1,
            })
        } else {
            Ok(SureSource {
                bytes: &[],
                step: self.step,
                mark: 0,
            })
        }
    }

    fn take_back(&mut self, _source: SureSource<'a>)
        ensures later { (m : ℕ) → sure_failed self.old m ≤ sure_failed self.new m }
        ensures brings { (m : ℕ) → sure_failed self.new m ≡ sure_failed self.old m }
        ensures kept { (n : List ℕ) → surely_held self.new n ≡ surely_held self.old n }
        ensures marks { (n : List ℕ) → sure_mark self.new n ≡ sure_mark self.old n }
        ensures step { files_step self.new ≡ files_step self.old }
    {}
}

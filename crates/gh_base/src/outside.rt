//! Sources, sinks, files and gates: what a call moves, and when it may fail.
ghost use Rattle.std.specs.Prelude.{◌≡◌, ◌<◌, ◌≤◌, ℕ, List, Option, length, IfOk, OnErr};
ghost use Rattle.std.specs.Io.{ReadsAtMost};
ghost use Rattle.std.specs.Io.KnownBytes.{ReadConsumes, WriteAppends};
ghost use Rattle.gh_base.specs.Causes.{Rose, HasCause};

use crate::faults::Failed;

/// Where bytes come from.
pub trait Source {
    /// The bytes that are left, where the source tells them.
    ghost left: { Self → Option (List ℕ) };

    /// How often a call failed.
    ghost faults: { Self → ℕ };

    /// Which name the source is of. No call changes it.
    ghost mark: { Self → ℕ };

    /// Moves that many of the bytes left into the front of `buf`. 0 is the end.
    fn take(&mut self, buf: &mut [u8]) -> Result<usize, Failed>
        requires { 0 < length buf.old }
        ensures bound { ReadsAtMost result buf.new }
        ensures bytes { ReadConsumes (left self.old) (left self.new) result buf.new }
        ensures cause { HasCause (faults self.old) (faults self.new) result }
        ensures mark { mark self.new ≡ mark self.old };
}

/// Where bytes go to.
pub trait Sink {
    /// The bytes that the sink holds, where it tells them.
    ghost held: { Self → Option (List ℕ) };

    /// How often a call failed.
    ghost faults: { Self → ℕ };

    /// Appends that many bytes of the front of `piece`, at least one.
    fn give(&mut self, piece: &[u8]) -> Result<usize, Failed>
        requires { 0 < length piece.now }
        ensures some { IfOk result (λ n. 0 < n) }
        ensures bound { IfOk result (λ n. n ≤ length piece.now) }
        ensures bytes { WriteAppends (held self.old) (held self.new) result piece.now }
        ensures cause { HasCause (faults self.old) (faults self.new) result };
}

/// Sources by their names.
pub trait Files {
    type Src: Source;

    /// What a name holds, where the object tells it.
    ghost holds: { Self → List ℕ → Option (List ℕ) };

    /// The mark of a name.
    ghost mark_of: { Self → List ℕ → ℕ };

    /// How often a bringing of a name of this mark failed.
    ghost failed_brings: { Self → ℕ → ℕ };

    /// How many sources of this mark came back with a fault.
    ghost failed_takes: { Self → ℕ → ℕ };

    /// The source of a name.
    fn bring(&mut self, name: &str) -> Result<Self::Src, Failed>
        ensures content { IfOk result (λ s. Self.Src.left s ≡ holds self.old name.now) }
        ensures marked { IfOk result (λ s. Self.Src.mark s ≡ mark_of self.old name.now) }
        ensures fresh { IfOk result (λ s. Self.Src.faults s ≡ 0) }
        ensures cause { HasCause (failed_brings self.old (mark_of self.old name.now)) (failed_brings self.new (mark_of self.old name.now)) result }
        ensures brings { (m : ℕ) → failed_brings self.old m ≤ failed_brings self.new m }
        ensures takes { (m : ℕ) → failed_takes self.new m ≡ failed_takes self.old m }
        ensures kept { (n : List ℕ) → holds self.new n ≡ holds self.old n }
        ensures marks { (n : List ℕ) → mark_of self.new n ≡ mark_of self.old n };

    /// Hands a source back.
    fn take_back(&mut self, source: Self::Src)
        ensures failed { 0 < Self.Src.faults source → Rose (failed_takes self.old (Self.Src.mark source)) (failed_takes self.new (Self.Src.mark source)) }
        ensures free { Self.Src.faults source ≡ 0 → (m : ℕ) → failed_takes self.new m ≡ failed_takes self.old m }
        ensures later { (m : ℕ) → failed_takes self.old m ≤ failed_takes self.new m }
        ensures brings { (m : ℕ) → failed_brings self.new m ≡ failed_brings self.old m }
        ensures kept { (n : List ℕ) → holds self.new n ≡ holds self.old n }
        ensures marks { (n : List ℕ) → mark_of self.new n ≡ mark_of self.old n };
}

/// What is called round each command. It changes no answer.
pub trait Gate: Sync {
    fn before(&self, actor: u32, number: u32);

    fn after(&self, actor: u32, number: u32);
}

//! A text given whole.
ghost use Rattle.std.specs.Prelude.{OnOk, OnErr};
ghost use Rattle.std.specs.Io.KnownBytes.{Appends};
ghost use Rattle.gh_base.specs.Causes.{HasCause, AppendsFront};

use crate::faults::Failed;
use crate::outside::Sink;

/// Gives all of a text, piece by piece. After `Failed` the sink has a front of it behind its old bytes.
#[tactic(auto, using(crate::proofs::Given::given_more, crate::proofs::Given::given_some))]
pub fn give_all<K: Sink>(out: &mut K, text: &[u8]) -> Result<(), Failed>
    ensures ok { OnOk result (Appends (K.held out.old) (K.held out.new) text.now) }
    ensures err { OnErr result (AppendsFront (K.held out.old) (K.held out.new) text.now) }
    ensures cause { HasCause (K.faults out.old) (K.faults out.new) result }
{
    let mut done = 0;
    'pieces: while done < text.len() {
        let (_, rest) = text.split_at(done);
        done += out.give(rest)?;
    }
    Ok(())
}

//! The words of the command line.
ghost use Rattle.std.specs.Prelude.{◌≡◌, IfOk, IsErrOf, None, Some};
ghost use Rattle.gh_words.specs.Words.{IsInBounds, asks, asked_by};

use crate::convert::read_convert;
use crate::counted::{read_both, read_prep, read_turns};
use crate::generate::read_generate;
use crate::on_map::{read_check, read_roads, read_serve};
use crate::request::{Request, WordsFault};
use std::alloc::Global;

/// What the words after the program's name ask for. The first word chooses the command; its options stand in any order,
/// each exactly once, as `--map NAME` or `--map=NAME`. `Usage` comes exactly where the words ask for nothing. A size that is
/// asked for is from 2 to 300, a number of landmarks from 1 to 16.
#[tactic(auto, unfolding(crate::specs::Words::asked))]
pub fn read_words<'a>(alloc: Global, words: &'a [String]) -> Result<Request<'a>, WordsFault>
    ensures request { IfOk result (λ r. asks words.entry.now ≡ Some (asked_by r)) }
    ensures bounds { IfOk result IsInBounds }
    ensures usage { IsErrOf result WordsFault.Usage → asks words.entry.now ≡ None }
{
    match words {
        [first, ..] if first.as_str() == "serve" => read_serve(alloc, words),
        [first, ..] if first.as_str() == "convert" => read_convert(alloc, words),
        [first, ..] if first.as_str() == "generate" => read_generate(alloc, words),
        [first, ..] if first.as_str() == "roads" => read_roads(alloc, words),
        [first, ..] if first.as_str() == "prep" => read_prep(alloc, words),
        [first, ..] if first.as_str() == "check" => read_check(alloc, words),
        [first, ..] if first.as_str() == "both" => read_both(alloc, words),
        [first, ..] if first.as_str() == "turns" => read_turns(alloc, words),
        _ => Err(WordsFault::Usage),
    }
}

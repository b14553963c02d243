//! The words of `generate`.
ghost use Rattle.std.specs.Prelude.{◌≡◌, IfOk, IfSome, IsErrOf, map, string_bytes, None, Some};
ghost use Rattle.std.specs.Option.{option_map};
ghost use Rattle.clap.specs.Words.{app_of, found_of, rows_of};
ghost use Rattle.gh_words.specs.Words.{IsInBounds, asked_by, generate_app, generate_asked, generate_in};

use crate::options::{bare_command, find_options, number_given, with_option};
use crate::request::{Request, WordsFault};
use clap::{ArgMatches, Command};
use std::alloc::{AllocError, Global};

/// The command `generate`, which asks for a size alone.
fn generate_command<'a>(alloc: Global) -> Result<Command<'a>, AllocError>
    ensures { IfOk result (λ c. app_of c ≡ generate_app) }
{
    with_option(alloc, bare_command(alloc, "generate"), "size")
}

/// What the options say.
fn generate_given<'a>(matches: &ArgMatches<'a>) -> Option<Request<'a>>
    ensures given { option_map asked_by result ≡ generate_in (rows_of (found_of matches.now)) }
    ensures bounds { IfSome result IsInBounds }
{
    let size = number_given(matches, "size", 2, 300)?;
    Some(Request::Generate { size })
}

/// What the words of `generate` ask for, itself the first of them.
#[tactic(auto, unfolding(crate::specs::Words::generate_asked))]
pub(crate) fn read_generate<'a>(
    alloc: Global,
    words: &'a [String],
) -> Result<Request<'a>, WordsFault>
    ensures request { IfOk result (λ r. generate_asked (map (λ w. string_bytes w) words.entry.now) ≡ Some (asked_by r)) }
    ensures bounds { IfOk result IsInBounds }
    ensures usage { IsErrOf result WordsFault.Usage → generate_asked (map (λ w. string_bytes w) words.entry.now) ≡ None }
{
    let matches = find_options(generate_command(alloc)?, words)?;
    generate_given(&matches).ok_or(WordsFault::Usage)
}

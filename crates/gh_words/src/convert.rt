//! The words of `convert`.
ghost use Rattle.std.specs.Prelude.{◌≡◌, IfOk, IfSome, IsErrOf, map, string_bytes, None, Some};
ghost use Rattle.std.specs.Option.{option_map};
ghost use Rattle.clap.specs.Words.{app_of, found_of, rows_of};
ghost use Rattle.gh_words.specs.Words.{IsInBounds, convert_app, convert_asked, convert_in, asked_by};

use crate::options::{find_options, form_given, map_command, map_given, with_option};
use crate::request::{Request, WordsFault};
use clap::{ArgMatches, Command};
use std::alloc::{AllocError, Global};

/// The command `convert`, which asks for one form more.
fn convert_command<'a>(alloc: Global) -> Result<Command<'a>, AllocError>
    ensures { IfOk result (λ c. app_of c ≡ convert_app) }
{
    let command = map_command(alloc, "convert")?;
    with_option(alloc, command, "to")
}

/// What the options say.
fn convert_given<'a>(matches: &ArgMatches<'a>) -> Option<Request<'a>>
    ensures given { option_map asked_by result ≡ convert_in (rows_of (found_of matches.now)) }
    ensures bounds { IfSome result IsInBounds }
{
    let map = map_given(matches)?;
    let form = form_given(matches, "form")?;
    let to = form_given(matches, "to")?;
    Some(Request::Convert { map, form, to })
}

/// What the words of `convert` ask for, itself the first of them.
#[tactic(auto, unfolding(crate::specs::Words::convert_asked))]
pub(crate) fn read_convert<'a>(
    alloc: Global,
    words: &'a [String],
) -> Result<Request<'a>, WordsFault>
    ensures request { IfOk result (λ r. convert_asked (map (λ w. string_bytes w) words.entry.now) ≡ Some (asked_by r)) }
    ensures bounds { IfOk result IsInBounds }
    ensures usage { IsErrOf result WordsFault.Usage → convert_asked (map (λ w. string_bytes w) words.entry.now) ≡ None }
{
    let matches = find_options(convert_command(alloc)?, words)?;
    convert_given(&matches).ok_or(WordsFault::Usage)
}

//! The words of the commands that ask for a map in a form and for nothing else.
ghost use Rattle.std.specs.Prelude.{◌≡◌, IfOk, IsErrOf, map, string_bytes, None, Some, codes};
ghost use Rattle.std.specs.Option.{option_map};
ghost use Rattle.clap.specs.Words.{found_of, rows_of};
ghost use Rattle.gh_words.specs.Words.{asked_by, check_asked, map_at_in, map_words, roads_asked, serve_asked};
ghost use Rattle.gh_words.specs.Given.{map_at_by};

use crate::options::{find_options, form_given, map_command, map_given};
use crate::request::{Request, WordsFault};
use clap::ArgMatches;
use gh_base::Form;
use std::alloc::Global;

/// Where a map is, and in which form.
#[derive(Clone, Copy, Debug)]
pub(crate) struct MapAt<'a> {
    pub(crate) map: &'a str,
    pub(crate) form: Form,
}

/// What the options of a map say.
pub(crate) fn map_at_given<'a>(matches: &ArgMatches<'a>) -> Option<MapAt<'a>>
    ensures { option_map map_at_by result ≡ map_at_in (rows_of (found_of matches.now)) }
{
    let map = map_given(matches)?;
    let form = form_given(matches, "form")?;
    Some(MapAt { map, form })
}

/// What the words of a command of this name on a map say, itself the first of them.
#[tactic(auto, unfolding(crate::specs::Words::map_words))]
fn read_map_words<'a>(
    alloc: Global,
    name: &'a str,
    words: &'a [String],
) -> Result<MapAt<'a>, WordsFault>
    ensures at { IfOk result (λ at. map_words name.entry.now (map (λ w. string_bytes w) words.entry.now) ≡ Some (map_at_by at)) }
    ensures usage { IsErrOf result WordsFault.Usage → map_words name.entry.now (map (λ w. string_bytes w) words.entry.now) ≡ None }
{
    let matches = find_options(map_command(alloc, name)?, words)?;
    map_at_given(&matches).ok_or(WordsFault::Usage)
}

/// What the words of `serve` ask for.
pub(crate) fn read_serve<'a>(alloc: Global, words: &'a [String]) -> Result<Request<'a>, WordsFault>
    ensures request { IfOk result (λ r. serve_asked (map (λ w. string_bytes w) words.entry.now) ≡ Some (asked_by r)) }
    ensures usage { IsErrOf result WordsFault.Usage → serve_asked (map (λ w. string_bytes w) words.entry.now) ≡ None }
{
    let MapAt { map, form } = read_map_words(alloc, "serve", words)?;
    Ok(Request::Serve { map, form })
}

/// What the words of `roads` ask for.
pub(crate) fn read_roads<'a>(alloc: Global, words: &'a [String]) -> Result<Request<'a>, WordsFault>
    ensures request { IfOk result (λ r. roads_asked (map (λ w. string_bytes w) words.entry.now) ≡ Some (asked_by r)) }
    ensures usage { IsErrOf result WordsFault.Usage → roads_asked (map (λ w. string_bytes w) words.entry.now) ≡ None }
{
    let MapAt { map, form } = read_map_words(alloc, "roads", words)?;
    Ok(Request::Roads { map, form })
}

/// What the words of `check` ask for.
pub(crate) fn read_check<'a>(alloc: Global, words: &'a [String]) -> Result<Request<'a>, WordsFault>
    ensures request { IfOk result (λ r. check_asked (map (λ w. string_bytes w) words.entry.now) ≡ Some (asked_by r)) }
    ensures usage { IsErrOf result WordsFault.Usage → check_asked (map (λ w. string_bytes w) words.entry.now) ≡ None }
{
    let MapAt { map, form } = read_map_words(alloc, "check", words)?;
    Ok(Request::Check { map, form })
}

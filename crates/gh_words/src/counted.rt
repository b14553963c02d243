//! The words of the commands on a map that ask for a number of landmarks.
ghost use Rattle.std.specs.Prelude.{◌≡◌, IfOk, IfSome, IsErrOf, map, string_bytes, None, Some};
ghost use Rattle.std.specs.Option.{option_map};
ghost use Rattle.clap.specs.Words.{app_of, found_of, rows_of};
ghost use Rattle.gh_words.specs.Given.{counted_by};
ghost use Rattle.gh_words.specs.Words.{IsFrom, IsInBounds, asked_by, both_asked, counted_app, counted_in, counted_words, prep_asked, turns_asked};

use crate::on_map::map_at_given;
use crate::options::{find_options, map_command, number_given, with_option};
use crate::request::{Request, WordsFault};
use clap::{ArgMatches, Command};
use gh_base::Form;
use std::alloc::{AllocError, Global};

/// Where a map is, in which form, and a number of landmarks.
#[derive(Clone, Copy, Debug)]
pub(crate) struct CountedMap<'a> {
    pub(crate) map: &'a str,
    pub(crate) form: Form,
    pub(crate) count: u32,
}

/// The command of this name, which asks for a number of landmarks besides a map in a form.
fn counted_command<'a>(alloc: Global, name: &'a str) -> Result<Command<'a>, AllocError>
    ensures { IfOk result (λ c. app_of c ≡ counted_app name.entry.now) }
{
    let command = map_command(alloc, name)?;
    with_option(alloc, command, "count")
}

/// What the options say.
fn counted_given<'a>(matches: &ArgMatches<'a>) -> Option<CountedMap<'a>>
    ensures given { option_map counted_by result ≡ counted_in (rows_of (found_of matches.now)) }
    ensures bounds { IfSome result (λ at. IsFrom 1 16 at.count) }
{
    let at = map_at_given(matches)?;
    let count = number_given(matches, "count", 1, 16)?;
    Some(CountedMap {
        map: at.map,
        form: at.form,
        count,
    })
}

/// What the words of a command of this name say, itself the first of them.
#[tactic(auto, unfolding(crate::specs::Words::counted_words))]
fn read_counted_words<'a>(
    alloc: Global,
    name: &'a str,
    words: &'a [String],
) -> Result<CountedMap<'a>, WordsFault>
    ensures at { IfOk result (λ at. counted_words name.entry.now (map (λ w. string_bytes w) words.entry.now) ≡ Some (counted_by at)) }
    ensures bounds { IfOk result (λ at. IsFrom 1 16 at.count) }
    ensures usage { IsErrOf result WordsFault.Usage → counted_words name.entry.now (map (λ w. string_bytes w) words.entry.now) ≡ None }
{
    let matches = find_options(counted_command(alloc, name)?, words)?;
    counted_given(&matches).ok_or(WordsFault::Usage)
}

/// What the words of `prep` ask for.
pub(crate) fn read_prep<'a>(alloc: Global, words: &'a [String]) -> Result<Request<'a>, WordsFault>
    ensures request { IfOk result (λ r. prep_asked (map (λ w. string_bytes w) words.entry.now) ≡ Some (asked_by r)) }
    ensures bounds { IfOk result IsInBounds }
    ensures usage { IsErrOf result WordsFault.Usage → prep_asked (map (λ w. string_bytes w) words.entry.now) ≡ None }
{
    let CountedMap { map, form, count } = read_counted_words(alloc, "prep", words)?;
    Ok(Request::Prep { map, form, count })
}

/// What the words of `both` ask for.
pub(crate) fn read_both<'a>(alloc: Global, words: &'a [String]) -> Result<Request<'a>, WordsFault>
    ensures request { IfOk result (λ r. both_asked (map (λ w. string_bytes w) words.entry.now) ≡ Some (asked_by r)) }
    ensures bounds { IfOk result IsInBounds }
    ensures usage { IsErrOf result WordsFault.Usage → both_asked (map (λ w. string_bytes w) words.entry.now) ≡ None }
{
    let CountedMap { map, form, count } = read_counted_words(alloc, "both", words)?;
    Ok(Request::Both { map, form, count })
}

/// What the words of `turns` ask for.
pub(crate) fn read_turns<'a>(alloc: Global, words: &'a [String]) -> Result<Request<'a>, WordsFault>
    ensures request { IfOk result (λ r. turns_asked (map (λ w. string_bytes w) words.entry.now) ≡ Some (asked_by r)) }
    ensures bounds { IfOk result IsInBounds }
    ensures usage { IsErrOf result WordsFault.Usage → turns_asked (map (λ w. string_bytes w) words.entry.now) ≡ None }
{
    let CountedMap { map, form, count } = read_counted_words(alloc, "turns", words)?;
    Ok(Request::Turns { map, form, count })
}

//! What the commands share: their options, and how clap finds them.
ghost use Rattle.std.specs.Prelude.{◌≡◌, ◌≢◌, ◌≤◌, IfOk, IfSome, IsErrOf, map, string_bytes, true, None, Some};
ghost use Rattle.std.specs.List.{list_any};
ghost use Rattle.std.specs.Option.{option_map};
ghost use Rattle.clap.specs.Words.{app_of, first_of, found_of, is_simple_and_free, kind_of, rows_of, with_rule};
ghost use Rattle.gh_words.specs.Words.{IsFrom, bare_app, map_app, option_of, found_in, map_in, form_in, number_in, name_of, form_of, is_dashes};

use crate::numbers::number_read;
use crate::request::WordsFault;
use clap::error::ErrorKind;
use clap::{Arg, ArgAction, ArgMatches, Command, Error};
use gh_base::Form;
use std::alloc::{AllocError, Global};

/// The command with one more option, which stands exactly once.
pub(crate) fn with_option<'a>(
    alloc: Global,
    command: Command<'a>,
    name: &'a str,
) -> Result<Command<'a>, AllocError>
    ensures { IfOk result (λ c. app_of c ≡ with_rule (app_of command.entry) (option_of name.entry.now)) }
{
    let option = Arg::new(alloc, name)
        .long(name)
        .required(true)
        .action(ArgAction::Set);
    command.arg(option)
}

/// The command of this name, with no options yet.
pub(crate) fn bare_command<'a>(alloc: Global, name: &'a str) -> Command<'a>
    ensures { app_of result ≡ bare_app name.entry.now }
{
    Command::new(alloc, name)
        .disable_help_flag(true)
        .disable_version_flag(true)
}

/// The command of this name on a map in a form.
pub(crate) fn map_command<'a>(alloc: Global, name: &'a str) -> Result<Command<'a>, AllocError>
    ensures { IfOk result (λ c. app_of c ≡ map_app name.entry.now) }
{
    let command = with_option(alloc, bare_command(alloc, name), "map")?;
    with_option(alloc, command, "form")
}

fn stands_alone(word: &str) -> bool
    ensures { result ≡ is_dashes word.now }
{
    word == "-" || word == "--"
}

fn has_dashes(words: &[String]) -> bool
    ensures { result ≡ list_any is_dashes (map (λ w. string_bytes w) words.now) }
{
    for word in words {
        if stands_alone(word.as_str()) {
            return true;
        }
    }
    false
}

fn fault_of_error(error: &Error) -> WordsFault
    ensures { result ≡ WordsFault.Usage → kind_of error.now ≢ ErrorKind.OutOfMemory }
{
    match error.kind() {
        ErrorKind::OutOfMemory => WordsFault::NoMemory,
        _ => WordsFault::Usage,
    }
}

/// The options that clap finds among the words, the command's name the first of them.
pub(crate) fn find_options<'a>(
    command: Command<'a>,
    words: &'a [String],
) -> Result<ArgMatches<'a>, WordsFault>
    requires { is_simple_and_free (app_of command) ≡ true }
    ensures found { IfOk result (λ m. found_in (app_of command.entry) (map (λ w. string_bytes w) words.entry.now) ≡ Some (rows_of (found_of m))) }
    ensures usage { IsErrOf result WordsFault.Usage → found_in (app_of command.entry) (map (λ w. string_bytes w) words.entry.now) ≡ None }
{
    if has_dashes(words) {
        return Err(WordsFault::Usage);
    }
    match command.try_get_matches_from(words) {
        Ok(matches) => Ok(matches),
        Err(error) => Err(fault_of_error(&error)),
    }
}

/// The value of an option.
pub(crate) fn value_given<'a>(matches: &ArgMatches<'a>, option: &str) -> Option<&'a str>
    ensures { option_map (λ s. s.now) result ≡ first_of option.now (rows_of (found_of matches.now)) }
{
    matches.get_str(option)
}

fn name_read<'a>(name: &'a str) -> Option<&'a str>
    ensures { option_map (λ s. s.now) result ≡ name_of name.entry.now }
{
    if name.is_empty() { None } else { Some(name) }
}

fn form_read(name: &str) -> Option<Form>
    ensures { result ≡ form_of name.now }
{
    if name == "plain" {
        Some(Form::Plain)
    } else if name == "pbf" {
        Some(Form::Pbf)
    } else {
        None
    }
}

/// The map's name, which isn't empty.
pub(crate) fn map_given<'a>(matches: &ArgMatches<'a>) -> Option<&'a str>
    ensures { option_map (λ s. s.now) result ≡ map_in (rows_of (found_of matches.now)) }
{
    name_read(value_given(matches, "map")?)
}

/// The form that an option gives.
pub(crate) fn form_given(matches: &ArgMatches<'_>, option: &str) -> Option<Form>
    ensures { result ≡ form_in option.now (rows_of (found_of matches.now)) }
{
    form_read(value_given(matches, option)?)
}

/// The number from `least` to `most` that an option gives.
pub(crate) fn number_given(
    matches: &ArgMatches<'_>,
    option: &str,
    least: u32,
    most: u32,
) -> Option<u32>
    requires some { 1 ≤ least }
    requires few { most ≤ 999 }
    ensures value { result ≡ number_in option.now least most (rows_of (found_of matches.now)) }
    ensures bounds { IfSome result (IsFrom least most) }
{
    number_read(value_given(matches, option)?, least, most)
}

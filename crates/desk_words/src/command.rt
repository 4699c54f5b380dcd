// The command that `clap` reads, and what it finds in the words.
ghost use Rattle.std.specs.Prelude.{◌≡◌, IfOk, MatchResult, true, false, map, string_bytes};
ghost use Rattle.clap.specs.Words.{app_of, with_rule, matches_of, found_of, rows_of};
ghost use Rattle.desk_words.specs.Words.{action_rule, option_rule, bare_app, desk_app, is_command};
ghost use Rattle.desk_words.specs.declared.words_error.WordsError.TheVariants.{Usage as IsUsage};

use crate::words_error::WordsError;
use clap::error::ErrorKind;
use clap::{Arg, ArgMatches, Command};
use std::alloc::{AllocError, Global};

/// The command's action alone, a required word.
fn action_alone<'a>(alloc: Global) -> Result<Command<'a>, AllocError>
    ensures { IfOk result (λ c. app_of c ≡ with_rule bare_app action_rule) }
{
    let action = Arg::new(alloc, "action").required(true);
    Command::new(alloc, "desk")
        .no_binary_name(true)
        .disable_help_flag(true)
        .disable_version_flag(true)
        .arg(action)
}

/// The command with one more option, which takes one value.
fn with_option<'a>(
    alloc: Global,
    command: Command<'a>,
    name: &'a str,
) -> Result<Command<'a>, AllocError>
    ensures { IfOk result (λ c. app_of c ≡ with_rule (app_of command.entry) (option_rule name.now)) }
{
    let option = Arg::new(alloc, name).long(name);
    command.arg(option)
}

/// The command: an action, and options with one value each. Which option goes with which action is asked later.
fn command<'a>(alloc: Global) -> Result<Command<'a>, AllocError>
    ensures { IfOk result (λ c. app_of c ≡ desk_app) }
{
    let command = action_alone(alloc)?;
    let command = with_option(alloc, command, "labels")?;
    let command = with_option(alloc, command, "nodes")?;
    let command = with_option(alloc, command, "rounds")?;
    let command = with_option(alloc, command, "seed")?;
    let command = with_option(alloc, command, "monday")?;
    let command = with_option(alloc, command, "rev")?;
    let command = with_option(alloc, command, "port")?;
    with_option(alloc, command, "count")
}

/// What `clap` finds in words that are a command.
pub(crate) fn matches_in<'a>(
    alloc: Global,
    words: &'a [String],
) -> Result<ArgMatches<'a>, WordsError>
    ensures { MatchResult result
        (λ m. (is_command (map string_bytes words.now) ≡ true) × (rows_of (found_of m) ≡ matches_of desk_app (map string_bytes words.now)))
        (λ e. e ≡ IsUsage → is_command (map string_bytes words.now) ≡ false) }
{
    let Ok(command) = command(alloc) else {
        return Err(WordsError::Memory);
    };
    match command.try_get_matches_from(words) {
        Ok(matches) => Ok(matches),
        Err(error) => match error.kind() {
            ErrorKind::OutOfMemory => Err(WordsError::Memory),
            _ => Err(WordsError::Usage),
        },
    }
}

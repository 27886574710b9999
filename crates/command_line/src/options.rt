//! The arguments of the command, and the values that `clap` finds in its words.

ghost use Rattle.std.specs.Prelude.{◌≡◌, ◌≢◌, [], map, IfOk, MatchOption, string_bytes};
ghost use Rattle.clap.specs.Words.{IsParsedFrom, app_of, found_of, rows_of, rule_of};
ghost use Rattle.clap.specs.declared.parser.matches.ArgMatches.{ArgMatches};
ghost use Rattle.command_line.specs.Options.{options, desq, faults, rows};
ghost use Rattle.command_line.specs.Arguments.{HasNeeded, rule_for};

use clap::error::ErrorKind;
use clap::{Arg, ArgAction, ArgMatches, Command};
use mine_model::NoMemory;
use std::alloc::Global;

/// An argument of the command.
#[derive(Clone, Copy, Debug)]
pub enum Argument {
    /// An option with one value, `--name VALUE`, without which the words are refused.
    NeededValue(&'static str),
    /// An option with one value.
    Value(&'static str),
    /// An option that stands alone, `--name`.
    Flag(&'static str),
    /// A word by its place, without which the words are refused.
    NeededWord(&'static str),
    /// The words from a place on, any number of them.
    Words(&'static str),
}

/// The arguments of the command, in order.
static ARGUMENTS: [Argument; 18] = [
    Argument::NeededValue("support"),
    Argument::Value("hierarchy"),
    Argument::Flag("weighted"),
    Argument::Value("engine"),
    Argument::Value("workers"),
    Argument::Value("simulate"),
    Argument::Flag("stats"),
    Argument::Value("max-gap"),
    Argument::Value("min-length"),
    Argument::Value("max-length"),
    Argument::Flag("generalize"),
    Argument::Value("generated"),
    Argument::Value("split"),
    Argument::Flag("merge"),
    Argument::Flag("proof"),
    Argument::Value("check"),
    Argument::NeededWord("expression"),
    Argument::Words("file"),
];

/// The argument, as clap takes it.
fn made<'a>(alloc: Global, argument: Argument) -> Arg<'a>
    ensures { rule_of result ≡ rule_for argument }
{
    match argument {
        Argument::NeededValue(name) => Arg::new(alloc, name)
            .long(name)
            .action(ArgAction::Set)
            .required(true),
        Argument::Value(name) => Arg::new(alloc, name).long(name).action(ArgAction::Set),
        Argument::Flag(name) => Arg::new(alloc, name).long(name).action(ArgAction::SetTrue),
        Argument::NeededWord(name) => Arg::new(alloc, name).action(ArgAction::Set).required(true),
        Argument::Words(name) => Arg::new(alloc, name).action(ArgAction::Append),
    }
}

/// The arguments, as clap takes them.
fn all_made<'a>(alloc: Global, arguments: &[Argument]) -> Result<Vec<Arg<'a>>, NoMemory>
    ensures { IfOk result (λ made. map rule_of made.items ≡ map rule_for arguments.now) }
{
    let mut made_so_far = Vec::new(alloc);
    for argument in arguments {
        made_so_far.push(made(alloc, *argument))?;
    }
    Ok(made_so_far)
}

/// The command, as clap takes it.
fn command<'a>(alloc: Global) -> Result<Command<'a>, NoMemory>
    ensures app { IfOk result (λ command. app_of command ≡ desq) }
    ensures needed { IfOk result (λ command. (matches : ArgMatches) → IsParsedFrom command matches
        → HasNeeded (rows_of (found_of matches))) }
{
    let arguments = all_made(alloc, ARGUMENTS.as_slice())?;
    Ok(
        Command::new(alloc, "desq")
            .no_binary_name(true)
            .disable_help_flag(true)
            .args(arguments)?,
    )
}

/// What clap finds in the words. None where it refuses them.
pub(crate) fn taken<'a>(
    alloc: Global,
    words: &'a [String],
) -> Result<Option<ArgMatches<'a>>, NoMemory>
    ensures { IfOk result (λ found. MatchOption found
        (faults (map string_bytes words.now) ≢ [])
        (λ matches. (faults (map string_bytes words.now) ≡ [])
        × (rows_of (found_of matches) ≡ rows (map string_bytes words.now))
        × HasNeeded (rows_of (found_of matches)))) }
{
    match command(alloc)?.try_get_matches_from(words) {
        Ok(matches) => Ok(Some(matches)),
        Err(error) => match error.kind() {
            ErrorKind::OutOfMemory => Err(NoMemory),
            _ => Ok(None),
        },
    }
}

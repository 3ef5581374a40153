//! The command line: which command to run, and with which options. The words are read with clap, which decides what is an
//! option, what is its value and what is the command.
ghost use Rattle.std.specs.Prelude.{◌≡◌, ◌≤◌, ◌<◌, ◌^◌, IfOk, IfSome, List, [], map, option_and_then, codes, string_bytes, ℕ, false};
ghost use Rattle.clap.specs.Words.{IsPlainArg, app_of, fault_of, first_of, found_of, kind_of, rows_of, rule_of};
ghost use Rattle.rig_play.specs.Command.{InBounds, app, command_line_of, command_of, is_set, line_of, number_of, number_option};
ghost use Rattle.rig_play.specs.Options.{HasNumber, HasOptions, IsNumberOption, IsRead};

mod examples;

use clap::error::ErrorKind;
use clap::{Arg, ArgAction, ArgMatches, value_parser};
use rig_scene::limits::MAX_WORKERS;
use std::alloc::{AllocError, Global};

/// The most rigs that [`Command::Rehearse`] makes. The fewest are one.
pub(crate) const MAX_SIZE: usize = 64;

/// A command of the program.
#[derive(Clone, Copy, Debug, PartialEq, Eq)]
pub(crate) enum Command {
    /// Reads the scene of an input, and prints its counts and the reads that are cut.
    Check,
    /// Plays a script of at most one track, and prints what each step gave.
    Eval,
    /// Plays all tracks of a script at once, and prints what each step gave.
    Play,
    /// Reads no input: makes a scene and a script, plays them, and prints one line.
    Rehearse,
}

/// What a command line says. A command ignores the options that it doesn't use.
#[derive(Clone, Copy, Debug, PartialEq, Eq)]
pub(crate) struct CommandLine {
    /// The command to run.
    pub command: Command,
    /// How many workers evaluate, from 1 to [`MAX_WORKERS`]: the number of `--workers`, else 1.
    pub workers: u32,
    /// How many rigs [`Command::Rehearse`] makes, from 1 to [`MAX_SIZE`]: the number of `--size`, else 1.
    pub size: u32,
    /// Whether a full frame prints in which order its operations started and finished: `--trace`.
    pub trace: bool,
}

/// Why there is no command line.
#[derive(Clone, Copy, Debug, PartialEq, Eq)]
pub(crate) enum CommandStop {
    /// Out of memory. Nothing is known of the words.
    NoMemory,
    /// The words aren't a command line.
    Refused,
}

impl Command {
    /// The command of a word.
    fn of_word(word: &str) -> Option<Command>
        ensures { result ≡ command_of word.now }
    {
        match word {
            "check" => Some(Command::Check),
            "eval" => Some(Command::Eval),
            "play" => Some(Command::Play),
            "rehearse" => Some(Command::Rehearse),
            _ => None,
        }
    }
}

/// The option `--name N` with a number from 1 to `most`, which is 1 where it isn't given.
fn number_option<'a>(alloc: Global, name: &'a str, most: usize) -> Arg<'a>
    requires { most < 2 ^ 32 }
    ensures rule { rule_of result ≡ number_option name.now most }
    ensures option { IsNumberOption name.now most result }
    ensures plain { IsPlainArg result × (result.global ≡ false) }
{
    Arg::new(alloc, name)
        .long(name)
        .action(ArgAction::Set)
        .value_parser(value_parser!(u32).range(1..=most as i64))
        .default_value("1")
}

/// The arguments of the program, as clap reads them.
fn definition<'a>(alloc: Global) -> Result<clap::Command<'a>, AllocError>
    ensures app { IfOk result (λ c. app_of c ≡ app) }
    ensures options { IfOk result HasOptions }
{
    let command = Arg::new(alloc, "command").required(true);
    let workers = number_option(alloc, "workers", MAX_WORKERS);
    let size = number_option(alloc, "size", MAX_SIZE);
    let trace = Arg::new(alloc, "trace")
        .long("trace")
        .action(ArgAction::SetTrue);
    clap::Command::new(alloc, "rigplay")
        .disable_help_flag(true)
        .disable_version_flag(true)
        .arg(command)?
        .arg(workers)?
        .arg(size)?
        .arg(trace)
}

/// What an error of clap means: every one but want of memory speaks of the words.
fn stop_of(error: &clap::Error) -> CommandStop
    ensures { result ≡ CommandStop.Refused → kind_of error.now ≡ ErrorKind.OutOfMemory → ⊥ }
{
    match error.kind() {
        ErrorKind::OutOfMemory => CommandStop::NoMemory,
        _ => CommandStop::Refused,
    }
}

/// What clap finds in the words, of which the first is the program's name.
fn matches_in<'a>(alloc: Global, words: &'a [String]) -> Result<ArgMatches<'a>, CommandStop>
    ensures ok { IfOk result (IsRead (map string_bytes words.entry.now)) }
    ensures refused { result ≡ Err CommandStop.Refused → fault_of app (map string_bytes words.entry.now) ≡ [] → ⊥ }
{
    let Ok(definition) = definition(alloc) else {
        return Err(CommandStop::NoMemory);
    };
    match definition.try_get_matches_from(words) {
        Ok(matches) => Ok(matches),
        Err(error) => Err(stop_of(&error)),
    }
}

/// Whether a flag is set.
fn is_set(matches: &ArgMatches, id: &str) -> bool
    ensures { result ≡ is_set id.now (rows_of (found_of matches.now)) }
{
    matches.get_one::<bool>(id).unwrap_or(false)
}

/// The number of an option.
fn number(matches: &ArgMatches, id: &str) -> u32
    requires { (most : ℕ) × (most < 2 ^ 32) × HasNumber id.now most matches.now }
    ensures value { result ≡ number_of id.now (rows_of (found_of matches.now)) }
    ensures bounds { (most : ℕ) → most < 2 ^ 32 → HasNumber id.now most matches.now → (1 ≤ result) × (result ≤ most) }
{
    matches.get_one::<u32>(id).unwrap()
}

/// The command that the matches name.
fn command_in(matches: &ArgMatches) -> Option<Command>
    ensures { result ≡ option_and_then command_of (first_of (codes "command") (rows_of (found_of matches.now))) }
{
    matches.get_str("command").and_then(Command::of_word)
}

/// What the matches say, where they name one of the commands.
fn line_in(matches: &ArgMatches) -> Option<CommandLine>
    requires workers { HasNumber (codes "workers") MAX_WORKERS matches.now }
    requires size { HasNumber (codes "size") MAX_SIZE matches.now }
    ensures line { result ≡ line_of (rows_of (found_of matches.now)) }
    ensures bounds { IfSome result InBounds }
{
    let command = command_in(matches)?;
    Some(CommandLine {
        command,
        workers: number(matches, "workers"),
        size: number(matches, "size"),
        trace: is_set(matches, "trace"),
    })
}

/// What `words` say, of which the first is the program's name.
///
/// # Errors
///
/// [`CommandStop::Refused`] where clap finds a fault with the words, or the command isn't one of [`Command`].
/// [`CommandStop::NoMemory`] where memory is refused.
pub(crate) fn command_line(alloc: Global, words: &[String]) -> Result<CommandLine, CommandStop>
    ensures ok { IfOk result (λ line. command_line_of words.now ≡ Some line) }
    ensures refused { result ≡ Err CommandStop.Refused → command_line_of words.now ≡ None }
    ensures bounds { IfOk result InBounds }
{
    match matches_in(alloc, words) {
        Ok(matches) => line_in(&matches).ok_or(CommandStop::Refused),
        Err(stop) => Err(stop),
    }
}

//! The words of a command line, as clap reads them.
ghost use Rattle.std.specs.Prelude.{◌≡◌, IfOk, IfSome, IsSome, false, map};
ghost use Rattle.clap.specs.Words.{FailsBy, app_of, fault_of, found_of, matches_of, rows_of, rule_of as rule_of_arg, shape_of, subcommand_of, subcommand_rows_of, with_rule};
ghost use Rattle.sb_words.specs.Arguments.{verb_of};
ghost use Rattle.sb_words.specs.Within.{AreWithin};
ghost use Rattle.sb_words.specs.Words.{IsAsked, IsAskedBy, IsAskedOf, command_of, rule_of, starhost, with_commands, with_parts};

use crate::argument::{
    Argument, COMMANDS, COMPACT_PARTS, DUMP_PARTS, JOURNAL_PARTS, REPLAY_PARTS, RUN_PARTS,
    SERVE_PARTS, Unfit, Verb,
};
use crate::fit::first_given;
use crate::help::{ABOUT, EXAMPLES};
use crate::invocation::{Invocation, requested};
use crate::meaning::{VERBS, meaning_of};
use clap::error::ErrorKind;
use clap::{Arg, ArgAction, ArgMatches, Command, Error};
use std::alloc::{AllocError, Global};
use std::convert::AsStr;

/// The meaning of a command line, or the reason of its refusal.
#[derive(Drop)]
pub enum Asked<'a> {
    For(Invocation<'a>),
    /// Its text is what is to be shown.
    Help(Error),
    Version,
    /// clap finds a fault in the words.
    Refused(Error),
    /// A file or an option isn't what it has to be, or doesn't go with another one.
    NotAllowed(Unfit<'a>),
    /// An option stands in front of the command.
    Misplaced(Unfit<'a>),
}

/// Reads the program's name and the words behind it. Error: out of memory.
pub fn read_words<'a, S: AsStr>(alloc: Global, words: &'a [S]) -> Result<Asked<'a>, AllocError>
    ensures asked { IfOk result (IsAsked (map S.text words.now)) }
    ensures within { IfOk result AreWithin }
{
    match matches_in(alloc, words) {
        Ok(matches) => Ok(asked_in(&matches)),
        Err(error) => match error.kind() {
            ErrorKind::DisplayHelp => Ok(Asked::Help(error)),
            ErrorKind::DisplayVersion => Ok(Asked::Version),
            ErrorKind::OutOfMemory => Err(AllocError),
            _ => Ok(Asked::Refused(error)),
        },
    }
}

/// The matches that clap finds in the words.
fn matches_in<'a, S: AsStr>(alloc: Global, words: &'a [S]) -> Result<ArgMatches<'a>, Error>
    ensures kinds { FailsBy (fault_of starhost (map S.text words.now)) result }
    ensures found { IfOk result (λ m. rows_of (found_of m) ≡ matches_of starhost (map S.text words.now)) }
    ensures command { IfOk result (λ m. subcommand_rows_of m ≡ subcommand_of starhost (map S.text words.now)) }
    ensures named { IfOk result (λ m. IfSome (subcommand_rows_of m) (λ c. IsSome (verb_of c.0))) }
{
    program(alloc)?.try_get_matches_from(words)
}

/// The meaning of the matches that clap finds.
fn asked_in<'a>(matches: &ArgMatches<'a>) -> Asked<'a>
    requires { IfSome (subcommand_rows_of matches.now) (λ c. IsSome (verb_of c.0)) }
    ensures asked { IsAskedBy (rows_of (found_of matches.now), subcommand_rows_of matches.now) result }
    ensures within { AreWithin result }
{
    let Some((word, behind)) = matches.subcommand() else {
        return asked_by(Verb::Run, matches);
    };
    if let Some(unfit) = first_given(matches, &RUN_PARTS) {
        return Asked::Misplaced(unfit);
    }
    match meaning_of(word, &VERBS) {
        Some(verb) => asked_by(verb, behind),
        None => unreachable!(),
    }
}

/// The meaning of a command's matches.
fn asked_by<'a>(verb: Verb, matches: &ArgMatches<'a>) -> Asked<'a>
    ensures asked { IsAskedOf verb (rows_of (found_of matches.now)) result }
    ensures within { AreWithin result }
{
    match requested(verb, matches) {
        Ok(asked) => Asked::For(asked),
        Err(unfit) => Asked::NotAllowed(unfit),
    }
}

/// The words that the program has.
fn program<'a>(alloc: Global) -> Result<Command<'a>, AllocError>
    ensures { IfOk result (λ c. app_of c ≡ starhost) }
{
    let command = Command::new(alloc, "starhost")
        .version("0.1")
        .about(ABOUT)
        .after_help(EXAMPLES)
        .disable_help_subcommand(true);
    let run = with_all(alloc, command, &RUN_PARTS)?;
    with_commands(alloc, run, &COMMANDS)
}

/// Adds commands.
fn with_commands<'a>(
    alloc: Global,
    command: Command<'a>,
    verbs: &[Verb],
) -> Result<Command<'a>, AllocError>
    ensures { IfOk result (λ c. app_of c ≡ with_commands (app_of command.entry) verbs.now) }
{
    let mut grown = command;
    for verb in verbs {
        let added = command_of(alloc, *verb)?;
        grown = grown.subcommand(added)?;
    }
    Ok(grown)
}

/// A command with its parts.
fn command_of<'a>(alloc: Global, verb: Verb) -> Result<Command<'a>, AllocError>
    ensures { IfOk result (λ c. shape_of c ≡ command_of verb) }
{
    let command = Command::new(alloc, verb.word()).about(verb.about());
    match verb {
        Verb::Run => with_all(alloc, command, &RUN_PARTS),
        Verb::Serve => with_all(alloc, command, &SERVE_PARTS),
        Verb::Replay => with_all(alloc, command, &REPLAY_PARTS),
        Verb::Dump => with_all(alloc, command, &DUMP_PARTS),
        Verb::Compact => with_all(alloc, command, &COMPACT_PARTS),
        Verb::Journal => with_all(alloc, command, &JOURNAL_PARTS),
        Verb::Parse | Verb::Key => Ok(command),
    }
}

/// Adds parts.
fn with_all<'a>(
    alloc: Global,
    command: Command<'a>,
    parts: &[Argument],
) -> Result<Command<'a>, AllocError>
    ensures { IfOk result (λ c. app_of c ≡ with_parts (app_of command.entry) parts.now) }
{
    let mut grown = command;
    for part in parts {
        grown = with_part(alloc, grown, *part)?;
    }
    Ok(grown)
}

/// Adds a part.
fn with_part<'a>(
    alloc: Global,
    command: Command<'a>,
    part: Argument,
) -> Result<Command<'a>, AllocError>
    ensures { IfOk result (λ c. app_of c ≡ with_rule (app_of command.entry) (rule_of part)) }
{
    command.arg(arg_of(alloc, part))
}

/// An option with a value or without one, or a word behind the command.
fn arg_of<'a>(alloc: Global, part: Argument) -> Arg<'a>
    ensures rule { rule_of_arg result ≡ rule_of part }
    ensures local { result.global ≡ false }
{
    let name = part.name();
    let arg = Arg::new(alloc, name).help(part.help());
    match part {
        Argument::Old | Argument::New | Argument::Action | Argument::Folder => {
            arg.value_name(part.value_name()).required(true)
        }
        Argument::UntilInputEnds => {
            let flag = arg.long(name).help_heading(part.heading());
            flag.action(ArgAction::SetTrue)
        }
        _ => {
            let option = arg.long(name).help_heading(part.heading());
            option.value_name(part.value_name())
        }
    }
}

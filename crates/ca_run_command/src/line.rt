ghost use Rattle.std.specs.Prelude.{◌≡◌, ◌↔◌, ◌<◌, ◌≤◌, Err, None, Some, IfOk, IfSome, false, map};
ghost use Rattle.std.specs.Option.{option_map};
ghost use Rattle.std.specs.String.{string_bytes};
ghost use Rattle.ca_base.specs.declared.limits.TheConstants.{MAX_WORKERS};
ghost use Rattle.ca_run_command.specs.Words as spelled;
ghost use Rattle.ca_run_command.specs.Words.{HasWorkers, command_met};
ghost use Rattle.ca_run_command.specs.declared.command.WordsError.TheVariants as errors;
ghost use Rattle.clap.specs.Words.{app_of, rule_of};
ghost use Rattle.clap.specs.declared.error.kind.ErrorKind.TheVariants as kinds;

use crate::command::{Command, WordsError};
use crate::group::group_named;
use ca_base::Memory;
use ca_base::limits::MAX_WORKERS;
use ca_trace_lex::Stop;
use clap::error::ErrorKind;
use clap::{Arg, ArgAction, ArgMatches, Command as Line};
use std::alloc::Global;

/// The command line: four subcommands, of which one has to be named.
fn command_line<'a>(alloc: Global) -> Result<Line<'a>, Memory>
    ensures { IfOk result (λ line. app_of line ≡ spelled.command_line) }
{
    let line = Line::new(alloc, "ca")
        .no_binary_name(true)
        .subcommand_required(true)
        .subcommand(Line::new(alloc, "script"))?;
    let line = with_text(alloc, line, "race", "workers")?;
    let line = with_text(alloc, line, "alone", "group")?;
    with_text(alloc, line, "make", "seed")
}

/// A command line with one subcommand more, which has an argument with a text.
fn with_text<'a>(
    alloc: Global,
    line: Line<'a>,
    name: &'a str,
    argument: &'a str,
) -> Result<Line<'a>, Memory>
    ensures { IfOk result (λ more. app_of more ≡ spelled.with_text (app_of line.entry) name.now argument.now) }
{
    let command = Line::new(alloc, name).arg(text_of(alloc, argument))?;
    Ok(line.subcommand(command)?)
}

/// An argument of this name that has to be there, with a text.
fn text_of(alloc: Global, name: &str) -> Arg<'_>
    ensures rule { rule_of result ≡ spelled.text_rule name.now }
    ensures local { result.global ≡ false }
{
    Arg::new(alloc, name)
        .long(name)
        .action(ArgAction::Set)
        .required(true)
}

/// What a parse that found no fault says: the command of the subcommand that it met.
fn named(alloc: Global, matches: &ArgMatches) -> Result<Command, WordsError>
    ensures ok { IfOk result (λ command. command_met matches.now ≡ Some command) }
    ensures workers { IfOk result HasWorkers }
    ensures usage { result ≡ Err errors.Usage → command_met matches.now ≡ None }
{
    let Some((name, arguments)) = matches.subcommand() else {
        return Err(WordsError::Usage);
    };
    if name == "script" {
        return Ok(Command::Script);
    }
    if name == "make" {
        return make_with(arguments.get_str("seed"));
    }
    if name == "race" {
        return race_with(arguments.get_str("workers"));
    }
    alone_with(alloc, arguments.get_str("group"))
}

/// The command of a text for the number of workers.
fn race_with(text: Option<&str>) -> Result<Command, WordsError>
    ensures ok { IfOk result (λ command. spelled.race_with (option_map (λ t. t.now) text.entry) ≡ Some command) }
    ensures workers { IfOk result HasWorkers }
    ensures usage { result ≡ Err errors.Usage → spelled.race_with (option_map (λ t. t.now) text.entry) ≡ None }
{
    let Some(text) = text else {
        return Err(WordsError::Usage);
    };
    match workers_named(text) {
        Some(workers) => Ok(Command::Race(workers)),
        None => Err(WordsError::Usage),
    }
}

/// The number of workers that a text names.
fn workers_named(text: &str) -> Option<u32>
    ensures value { result ≡ spelled.workers_named text.now }
    ensures some { IfSome result (λ n. (0 < n) × (n ≤ MAX_WORKERS)) }
{
    let workers: u32 = text.parse().ok()?;
    if workers == 0 || workers > MAX_WORKERS {
        return None;
    }
    Some(workers)
}

/// The command of a seed's text.
fn make_with(text: Option<&str>) -> Result<Command, WordsError>
    ensures ok { IfOk result (λ command. spelled.make_with (option_map (λ t. t.now) text.entry) ≡ Some command) }
    ensures workers { IfOk result HasWorkers }
    ensures usage { result ≡ Err errors.Usage → spelled.make_with (option_map (λ t. t.now) text.entry) ≡ None }
{
    let Some(text) = text else {
        return Err(WordsError::Usage);
    };
    match seed_named(text) {
        Some(seed) => Ok(Command::Make(seed)),
        None => Err(WordsError::Usage),
    }
}

/// The number that a text names.
fn seed_named(text: &str) -> Option<u64>
    ensures { result ≡ spelled.seed_named text.now }
{
    text.parse().ok()
}

/// The command of a group's text.
fn alone_with(alloc: Global, text: Option<&str>) -> Result<Command, WordsError>
    ensures ok { IfOk result (λ command. spelled.alone_with (option_map (λ t. t.now) text.entry) ≡ Some command) }
    ensures workers { IfOk result HasWorkers }
    ensures usage { result ≡ Err errors.Usage → spelled.alone_with (option_map (λ t. t.now) text.entry) ≡ None }
{
    let Some(text) = text else {
        return Err(WordsError::Usage);
    };
    match group_named(alloc, text.as_bytes()) {
        Ok(group) => Ok(Command::Alone(group)),
        Err(Stop::Outside) => Err(WordsError::Usage),
        Err(Stop::Memory) => Err(WordsError::Memory),
    }
}

/// What is answered to words in which a fault of this kind was found.
fn refusal(kind: ErrorKind) -> WordsError
    ensures { result ≡ errors.Memory ↔ kind ≡ kinds.OutOfMemory }
{
    match kind {
        ErrorKind::OutOfMemory => WordsError::Memory,
        _ => WordsError::Usage,
    }
}

/// The command that the words behind the program's name are. `Usage` comes only where they are none. The workers of a race
/// are from 1 to 16.
pub fn command_of(alloc: Global, words: &[String]) -> Result<Command, WordsError>
    ensures ok { IfOk result (λ command. spelled.command_in (map string_bytes words.now) ≡ Some command) }
    ensures workers { IfOk result HasWorkers }
    ensures usage { result ≡ Err errors.Usage → spelled.command_in (map string_bytes words.now) ≡ None }
{
    let line = command_line(alloc)?;
    let matches = match line.try_get_matches_from(words) {
        Ok(matches) => matches,
        Err(error) => return Err(refusal(error.kind())),
    };
    named(alloc, &matches)
}

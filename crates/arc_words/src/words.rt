//! Reads the program's words.
ghost use Rattle.std.specs.Prelude.{ℕ, List, IsErrAnd, ◌≡◌, ◌≤◌, ◌<◌, ◌^◌, ◌⊎◌, IfOk, IfErr, IfSome, MatchResult, false, true, codes, Some, None, map, string_bytes};
ghost use Rattle.clap.specs.Words.{IsAmong, Shape, app_of, found_of, kind_of, one_of, rows_of, rule_of, subcommand_rows_of, with_subcommand};
ghost use Rattle.arc_words.specs.Commands.{alone, arcc_commands, asked, asked_in, asked_of, IsRefused, IsRefusedBy, Refuses, command_named, file_rule, of_file, of_steps, steps_in, steps_rule};
ghost use Rattle.arc_words.specs.Asks.{Asks, AsksHelp, AsksNothing, IsAnswer, IsHelpOrMemory, IsUsageOrMemory};

use crate::request::{Command, Words, WordsFault};
use clap::builder::ValueParser;
use clap::error::ErrorKind;
use clap::{Arg, ArgMatches};
use std::alloc::{AllocError, Global};

/// The words of a heap, where no option says another number.
const HEAP: usize = 1_048_576;

/// The steps of a run, where no option says another number.
const STEPS: u64 = 1_000_000_000;

/// The same in digits, as the help shows it.
const STEPS_SHOWN: &str = "1000000000";

/// The most steps that an option may say.
const MOST_STEPS: u64 = 9_223_372_036_854_775_807;

/// Reads the program's words, of which the first is its own name. All that isn't a command with its
/// options is refused by `Usage`, and a wish for help is answered by `Help`. The first three clauses
/// speak of words of a plain form, the next two of all words, by what clap's definitions say of them.
pub fn words(alloc: Global, words: &[String]) -> Result<Words, WordsFault>
    ensures plain { (command : Command) (file : List ℕ) (steps : ℕ)
        → Asks (map string_bytes words.entry.now) command file steps
        → IsAnswer command file steps result }
    ensures help { AsksHelp (map string_bytes words.entry.now) → IsErrAnd result IsHelpOrMemory }
    ensures usage { AsksNothing (map string_bytes words.entry.now) → IsErrAnd result IsUsageOrMemory }
    ensures said { IfOk result (λ w. asked (map string_bytes words.entry.now) ≡ Some (asked_of w)) }
    ensures refused { IfErr result (IsRefused (map string_bytes words.entry.now)) }
    ensures heap { IfOk result (λ w. w.heap ≡ HEAP) }
    ensures steps { IfOk result (λ w. (1 ≤ w.steps) × (w.steps < 2 ^ 63)) }
    ensures holds { IfOk result (λ w. w.keep_holds ≡ false) }
{
    match reader(alloc)?.try_get_matches_from(words) {
        Ok(matches) => chosen(alloc, &matches),
        Err(error) => Err(refusal(alloc, &error)),
    }
}

/// The commands and their options.
fn reader<'a>(alloc: Global) -> Result<clap::Command<'a>, AllocError>
    ensures { IfOk result (λ r. app_of r ≡ arcc_commands) }
{
    let app = clap::Command::new(alloc, "arcc")
        .about("Compiles Objective-C with automatic reference counting, and runs it")
        .subcommand_required(true);
    let check = with_file(alloc, "check", "Say whether FILE is accepted");
    let app = with_command(app, check)?;
    let run = with_steps(alloc, "run", "Compile FILE and run it");
    let app = with_command(app, run)?;
    let shown = "Compile FILE, run it and show what it prints and which objects end";
    let app = with_command(app, with_steps(alloc, "trace", shown))?;
    with_command(app, with_file(alloc, "code", "List the code of FILE"))
}

/// The program with one command more, if there was memory for that.
fn with_command<'a>(
    app: clap::Command<'a>,
    command: Result<clap::Command<'a>, AllocError>,
) -> Result<clap::Command<'a>, AllocError>
    ensures { (s : Shape) → IfOk command.entry (λ k. app_of k ≡ alone s) → s.is_plain ≡ true
        → IfOk result (λ r. app_of r ≡ with_subcommand (app_of app.entry) s) }
{
    match command {
        Ok(command) => app.subcommand(command),
        Err(error) => {
            // A call: the proof follows each part of what ends with its block.
            drop(app);
            Err(error)
        }
    }
}

/// A command of FILE alone.
fn with_file<'a>(
    alloc: Global,
    name: &'a str,
    about: &'a str,
) -> Result<clap::Command<'a>, AllocError>
    ensures { IfOk result (λ r. app_of r ≡ alone (of_file name.now)) }
{
    clap::Command::new(alloc, name)
        .about(about)
        .arg(file(alloc))
}

/// A command of FILE that makes steps.
fn with_steps<'a>(
    alloc: Global,
    name: &'a str,
    about: &'a str,
) -> Result<clap::Command<'a>, AllocError>
    ensures { IfOk result (λ r. app_of r ≡ alone (of_steps name.now)) }
{
    with_file(alloc, name, about)?.arg(steps(alloc))
}

fn file<'a>(alloc: Global) -> Arg<'a>
    ensures rule { rule_of result ≡ file_rule }
    ensures local { result.global ≡ false }
{
    Arg::new(alloc, "file")
        .value_name("FILE")
        .help("The source")
        .required(true)
}

fn steps<'a>(alloc: Global) -> Arg<'a>
    ensures rule { rule_of result ≡ steps_rule }
    ensures local { result.global ≡ false }
{
    Arg::new(alloc, "steps")
        .long("steps")
        .value_name("N")
        .help("The most steps that the run makes")
        .value_parser(ValueParser::unsigned(1, MOST_STEPS))
        .default_value(STEPS_SHOWN)
}

/// What accepted words say.
fn chosen(alloc: Global, matches: &ArgMatches<'_>) -> Result<Words, WordsFault>
    ensures said { IfOk result (λ w. asked_in (subcommand_rows_of matches.now) ≡ Some (asked_of w)) }
    ensures refused { IfErr result (IsRefusedBy (asked_in (subcommand_rows_of matches.now))) }
    ensures heap { IfOk result (λ w. w.heap ≡ HEAP) }
    ensures steps { IfOk result (λ w. (1 ≤ w.steps) × (w.steps < 2 ^ 63)) }
    ensures holds { IfOk result (λ w. w.keep_holds ≡ false) }
{
    let Some((name, options)) = matches.subcommand() else {
        return Err(WordsFault::Usage);
    };
    let Some(command) = command_of(name) else {
        return Err(WordsFault::Usage);
    };
    let Some(path) = options.get_str("file") else {
        return Err(WordsFault::Usage);
    };
    let Some(steps) = steps_of(options) else {
        return Err(WordsFault::Usage);
    };
    Ok(Words {
        command,
        file: String::from_str(alloc, path)?,
        heap: HEAP,
        steps,
        keep_holds: false,
    })
}

fn command_of(name: &str) -> Option<Command>
    ensures { result ≡ command_named name.now }
{
    match name {
        "check" => Some(Command::Check),
        "run" => Some(Command::Run),
        "trace" => Some(Command::Trace),
        "code" => Some(Command::Code),
        _ => None,
    }
}

/// The number of steps; None is one beyond the limits.
fn steps_of(options: &ArgMatches<'_>) -> Option<u64>
    ensures said { result ≡ steps_in (one_of (codes "steps") (rows_of (found_of options.now))) }
    ensures within { IfSome result (λ n. (1 ≤ n) × (n < 2 ^ 63)) }
{
    match options.try_get_one::<u64>("steps") {
        Ok(Some(steps)) if 1 <= steps && steps <= MOST_STEPS => Some(steps),
        Ok(None) => Some(STEPS),
        _ => None,
    }
}

/// Why words weren't accepted.
fn refusal(alloc: Global, error: &clap::Error) -> WordsFault
    ensures { Refuses (kind_of error.now) result }
{
    match error.kind() {
        ErrorKind::OutOfMemory => WordsFault::Memory,
        ErrorKind::DisplayHelp => match format!(in alloc; "{error}") {
            Ok(text) => WordsFault::Help(text),
            Err(_) => WordsFault::Memory,
        },
        _ => WordsFault::Usage,
    }
}

//! Reads the words of the command line with `clap`.

ghost use Rattle.std.specs.Prelude.{◌≡◌, ◌≢◌, IfOk, IfSome, map, option_and_then};
ghost use Rattle.clap.specs.Words.{app_of, subcommand_rows_of, with_subcommand};
ghost use Rattle.ptu_run.specs.CommandLine.{IsCommandLineInRange, words_command_by, command_line, words_command_of, numbered_line};

use crate::command::Command;
use clap::Arg;
use clap::error::ErrorKind;
use ptu_units::OutOfMemory;
use std::alloc::{AllocError, Global};

// The command line with a subcommand of this name, which has a number N that is required.
fn with_numbered<'a>(
    alloc: Global,
    line: clap::Command<'a>,
    name: &'a str,
) -> Result<clap::Command<'a>, AllocError>
    ensures { IfOk result (λ added. app_of added
        ≡ with_subcommand (app_of line.entry) (numbered_line name.entry.now).top) }
{
    let number = Arg::new(alloc, "N").required(true);
    let numbered = clap::Command::new(alloc, name).arg(number)?;
    line.subcommand(numbered)
}

// The command line.
fn whole_line<'a>(alloc: Global) -> Result<clap::Command<'a>, AllocError>
    ensures { IfOk result (λ line. app_of line ≡ command_line) }
{
    let replay = clap::Command::new(alloc, "replay");
    let show = clap::Command::new(alloc, "show");
    let serve = clap::Command::new(alloc, "serve");
    let slave = clap::Command::new(alloc, "slave");
    let join = clap::Command::new(alloc, "join");
    let pools = clap::Command::new(alloc, "pools");
    let program = clap::Command::new(alloc, "ptpuni")
        .no_binary_name(true)
        .subcommand_required(true)
        .disable_help_subcommand(true);
    let line = program.subcommand(replay)?;
    let line = line.subcommand(show)?;
    let line = with_numbered(alloc, line, "load")?;
    let line = line.subcommand(serve)?;
    let line = line.subcommand(slave)?;
    let line = line.subcommand(join)?;
    let line = with_numbered(alloc, line, "audit")?;
    let line = line.subcommand(pools)?;
    Ok(line)
}

// What matches ask for.
fn command_in(matches: &clap::ArgMatches) -> Option<Command>
    ensures command { result ≡ option_and_then words_command_by (subcommand_rows_of matches.now) }
    ensures range { IfSome result IsCommandLineInRange }
{
    let (name, found) = matches.subcommand()?;
    Command::named(name, found.get_str("N"))
}

// What words ask for that are refused: nothing.
fn unmatched(kind: ErrorKind) -> Result<Option<Command>, OutOfMemory>
    ensures { IfOk result (λ found. (found ≡ None) × (kind ≢ ErrorKind.OutOfMemory)) }
{
    match kind {
        ErrorKind::OutOfMemory => Err(OutOfMemory),
        _ => Ok(None),
    }
}

/// What the words after the program's name ask for, or `None` where the command line does not match
/// them.
///
/// # Errors
/// `OutOfMemory`, while the words are compared with the command line.
pub fn read_words(alloc: Global, words: &[&str]) -> Result<Option<Command>, OutOfMemory>
    ensures command { IfOk result
        (λ found. found ≡ words_command_of (map (λ w. w.now) words.now)) }
    ensures range { IfOk result (λ found. IfSome found IsCommandLineInRange) }
{
    let line = whole_line(alloc)?;
    match line.try_get_matches_from(words) {
        Ok(matches) => Ok(command_in(&matches)),
        Err(error) => unmatched(error.kind()),
    }
}

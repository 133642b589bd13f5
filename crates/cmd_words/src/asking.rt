// From the words of a command line to what they ask for.
ghost use Rattle.std.specs.Prelude.{◌≡◌, IfOk, codes, map};
ghost use Rattle.cmd_options.specs.Terms.{AreWithinRanges};
ghost use Rattle.cmd_words.specs.Asked.{AskFor, AskLenient, AskSource, AskWhy, AsksFor, IsSource, IsFlag, rows_found};

use crate::arguments::{LENIENT, WHY};
use crate::grammar::program;
use crate::line_fault::LineFault;
use crate::reading::{asked, flag_of};
use crate::words::{Source, no_number, source_of, written_by};
use clap::error::ErrorKind;
use clap::{ArgMatches, Error};
use cmd_options::{NoMemory, Options};
use std::alloc::Global;

/// A command line.
#[derive(Drop)]
pub struct CommandLine<'a> {
    /// What it asks for.
    pub asked: Options<'a>,
    /// Whether `--why` is given, which each command takes.
    pub why: bool,
    /// Where the lines are that the command reads.
    pub source: Source<'a>,
    /// Whether `--lenient` is given: these lines may have comments, and be blank, or end with a CR.
    pub lenient: bool,
}

/// What the words of a command line ask for, the program's name first: of the command that they name, each option is what
/// clap's matches have under its name, for these words and the program's grammar, and so are `--why`, the source of its
/// lines and `--lenient`. Each number is within its range.
pub fn command_line<'a>(alloc: Global, words: &'a [&'a str]) -> Result<CommandLine<'a>, LineFault>
    ensures within { IfOk result (λ line. AreWithinRanges line.asked) }
    ensures asked { IfOk result (λ line. AskFor (map (λ word. word.now) words.entry.now) line.asked) }
    ensures why { IfOk result (λ line. AskWhy (map (λ word. word.now) words.entry.now) line.why) }
    ensures source { IfOk result (λ line. AskSource (map (λ word. word.now) words.entry.now) line.source) }
    ensures lenient { IfOk result (λ line. AskLenient (map (λ word. word.now) words.entry.now) line.lenient) }
{
    let matches = match program(alloc)?.try_get_matches_from(words) {
        Ok(matches) => matches,
        Err(fault) => return Err(refused(alloc, fault, words)),
    };
    match matches.subcommand() {
        Some((name, command)) => line_of(alloc, name, command),
        None => Err(LineFault::NoSuchCommand),
    }
}

/// What the words of a command line ask for, as `command_line` says it, without the rest of the line.
pub fn options<'a>(alloc: Global, words: &'a [&'a str]) -> Result<Options<'a>, LineFault>
    ensures within { IfOk result AreWithinRanges }
    ensures asked { IfOk result (AskFor (map (λ word. word.now) words.entry.now)) }
{
    Ok(command_line(alloc, words)?.asked)
}

// The line that names a command. A function of its own: one that owns clap's matches, with so many ways out, would take long
// to prove.
fn line_of<'a>(
    alloc: Global,
    name: &str,
    command: &ArgMatches<'a>,
) -> Result<CommandLine<'a>, LineFault>
    ensures within { IfOk result (λ line. AreWithinRanges line.asked) }
    ensures asked { IfOk result (λ line. AsksFor name.now (rows_found command.now) line.asked) }
    ensures why { IfOk result (λ line. IsFlag (rows_found command.now) (codes "why") line.why) }
    ensures source { IfOk result (λ line. IsSource (rows_found command.now) line.source) }
    ensures lenient { IfOk result (λ line. IsFlag (rows_found command.now) (codes "lenient") line.lenient) }
{
    Ok(CommandLine {
        asked: options_of(alloc, name, command)?,
        why: flag_of(command, WHY),
        source: source_of(alloc, command)?,
        lenient: flag_of(command, LENIENT),
    })
}

// What the command asks for; where a word is no number of its range, the fault says so.
fn options_of<'a>(
    alloc: Global,
    name: &str,
    command: &ArgMatches<'a>,
) -> Result<Options<'a>, LineFault>
    ensures within { IfOk result AreWithinRanges }
    ensures asked { IfOk result (AsksFor name.now (rows_found command.now)) }
{
    match asked(name, command) {
        Err(LineFault::OutOfRange(number)) => {
            let word = command.get_str(number.name).unwrap_or_default();
            Err(no_number(alloc, word, number))
        }
        Ok(asked) if written_by(&asked) == Some("-") => Err(LineFault::OutputToDash),
        asked => asked,
    }
}

// What clap refuses: with a hint where it is a file where text is read.
fn refused(alloc: Global, fault: Error, words: &[&str]) -> LineFault {
    match fault.kind() {
        ErrorKind::UnknownArgument if reads_text(words) => match has_file(alloc, &fault, words) {
            Ok(true) => LineFault::FileForInput(fault),
            Ok(false) => LineFault::from(fault),
            Err(NoMemory) => LineFault::NoMemory,
        },
        _ => LineFault::from(fault),
    }
}

// Whether the command is the one that reads any text, on standard input alone.
fn reads_text(words: &[&str]) -> bool {
    match words.get(1) {
        Some(command) => *command == "tables",
        None => false,
    }
}

// Whether clap's error quotes a word that is no option.
fn has_file(alloc: Global, fault: &Error, words: &[&str]) -> Result<bool, NoMemory> {
    let said = format!(in alloc; "{fault}")?;
    for word in words.iter().skip(2) {
        if !word.starts_with('-') && quotes(alloc, &said, word)? {
            return Ok(true);
        }
    }
    Ok(false)
}

// Whether the text has the word in quotes.
fn quotes(alloc: Global, text: &str, word: &str) -> Result<bool, NoMemory> {
    let quoted = format!(in alloc; "'{word}'")?;
    Ok(text.contains(quoted.as_str()))
}

// From the words of a command line to how it ended.
ghost use Rattle.std.specs.Prelude.{◌≡◌, IfErr};
ghost use Rattle.cmd_words.specs.Terms.{EndsUnread};
ghost use Rattle.cmd_options.specs.Terms.{AreWithinRanges};

use crate::host::{Environment, Host};
use crate::lenient::Lenient;
use crate::likely_lines::{Place, advice};
use crate::line_commands::obeyed_by_source;
use crate::manner::{Manner, Source};
use crate::refusal_reasons::reason_of;
use crate::streams::{Heard, Named, Shared};
use cmd_options::{Ended, NoMemory, Outcome};
use cmd_parts::trunk_path;
use cmd_words::{CommandLine, LineFault, Source as LinesFrom, command_line};
use files::Files;
use std::alloc::Global;
use std::io::{Read, Write};
use system::{Oddity, ProgressTold, Saying, Storage};

/// Does what the words ask for, the program's name first, and answers how it ended. Each end is an
/// `Outcome`: a line that can't be read or is refused too, and a stream that fails. Behind the version stands of which sources
/// the program is.
pub fn obey<S: Environment + Storage, R: Read, W: Write, E: Write>(
    alloc: Global,
    words: Result<Vec<String>, LineFault>,
    sources: &str,
    system: &S,
    input: &mut R,
    answers: &mut W,
    faults: &mut E,
) -> Outcome
    ensures unread { IfErr words (λ fault. EndsUnread fault result) }
{
    let words = match words {
        Ok(words) => words,
        Err(fault) => return fault.told(alloc, answers, faults),
    };
    let words = match joined(alloc, words) {
        Ok(words) => words,
        Err(_) => return Ended::NoMemory.told(faults),
    };
    let line = match line_of(alloc, &words) {
        Ok(line) => line,
        Err(_) => return Ended::NoMemory.told(faults),
    };
    match command_line(alloc, &line) {
        Ok(line) => obeyed_by_source(alloc, &line, system, input, answers, faults),
        Err(fault) => {
            let outcome = unread(alloc, fault, sources, system, answers, faults);
            tell_reason(system, outcome, &Shared::of(faults));
            outcome
        }
    }
}

// What a line is answered that asks for nothing: help, the version, or what is wrong with it.
fn unread<S: Saying + ProgressTold, W: Write, E: Write>(
    alloc: Global,
    fault: LineFault,
    sources: &str,
    system: &S,
    answers: &mut W,
    faults: &mut E,
) -> Outcome {
    let mut answers = Named::of(system, "standard output", answers);
    if fault.is_version() {
        version_told(alloc, fault, sources, &mut answers, faults)
    } else {
        fault.told(alloc, &mut answers, faults)
    }
}

// The version, and behind it of which sources the program is.
fn version_told<W: Write, E: Write>(
    alloc: Global,
    fault: LineFault,
    sources: &str,
    answers: &mut W,
    faults: &mut E,
) -> Outcome {
    let outcome = fault.told(alloc, answers, faults);
    if outcome != Outcome::Accepted {
        return outcome;
    }
    let Ok(line) = format!(in alloc; "sources {sources}\n") else {
        return Ended::NoMemory.told(faults);
    };
    match answers.write_all(line.as_bytes()) {
        Ok(()) => outcome,
        Err(_) => Ended::Stream.told(faults),
    }
}

// Does what a line asks for, over this input, and says what there is to say of how it ended.
pub(crate) fn obeyed<S: Environment + Storage, R: Read, W: Write, E: Write>(
    alloc: Global,
    line: &CommandLine<'_>,
    system: &S,
    input: &mut R,
    answers: &mut W,
    faults: &mut E,
) -> Outcome
    requires { AreWithinRanges line.now.asked }
{
    let manner = Manner::of(&line.asked);
    system.say_all(line.why);
    let shared = Shared::of(faults);
    let mut heard = Heard::of(alloc, input, manner, line, &shared);
    let outcome = taken(alloc, line, system, &mut heard, answers, &shared);
    heard.tell_rest();
    // What input is says more than that its data are invalid.
    if !heard.has_no_lines() {
        tell_reason(system, outcome, &shared);
    }
    tell_refused(alloc, line, &system.files(), heard.beginning(), &shared);
    let oddity = heard.oddity();
    tell_oddities(alloc, line, system, outcome, oddity, &shared);
    outcome
}

// Takes the lines as they are, or leniently.
fn taken<S: Environment + Storage, R: Read, W: Write, E: Write>(
    alloc: Global,
    line: &CommandLine<'_>,
    system: &S,
    heard: &mut R,
    answers: &mut W,
    faults: &Shared<'_, E>,
) -> Outcome
    requires { AreWithinRanges line.now.asked }
{
    let mut said = faults.writer();
    if line.lenient {
        let mut lenient = Lenient::of(heard);
        carried_out(alloc, line, system, &mut lenient, answers, &mut said)
    } else {
        carried_out(alloc, line, system, heard, answers, &mut said)
    }
}

// Does what is asked for; which of the streams fails is remembered.
fn carried_out<S: Environment + Storage, R: Read, W: Write, E: Write>(
    alloc: Global,
    line: &CommandLine<'_>,
    system: &S,
    input: &mut R,
    answers: &mut W,
    faults: &mut E,
) -> Outcome
    requires { AreWithinRanges line.now.asked }
{
    let name = match &line.source {
        LinesFrom::File(path) => path,
        LinesFrom::Standard | LinesFrom::Lines(_) => "standard input",
    };
    let mut host = Host {
        alloc,
        system,
        files: system.files(),
        input: Named::of(system, name, input),
        answers: Named::of(system, "standard output", answers),
        faults: Named::of(system, "standard error", faults),
    };
    host.execute(line.asked)
}

// Where a command failed, says what of it failed, and why.
pub(crate) fn tell_reason<S: Saying, E: Write>(
    system: &S,
    outcome: Outcome,
    faults: &Shared<'_, E>,
) {
    if outcome == Outcome::Failed
        && let Some(reason) = system.reason()
    {
        faults.say(&reason);
    }
}

// Where a ledger or a root was refused, says why.
fn tell_refused<H: Files, E: Write>(
    alloc: Global,
    line: &CommandLine<'_>,
    files: &H,
    of_input: &[u8],
    faults: &Shared<'_, E>,
) {
    // What can't be said for want of memory isn't.
    if faults.has_refused()
        && let Ok(Some(reason)) = reason_of(alloc, files, &line.asked, of_input)
    {
        faults.say(&reason);
    }
}

// Where a command failed or refused something, says what was odd of what it read, and which command to give in its place.
fn tell_oddities<S: Storage + Saying, E: Write>(
    alloc: Global,
    line: &CommandLine<'_>,
    system: &S,
    outcome: Outcome,
    of_input: Option<Oddity>,
    faults: &Shared<'_, E>,
) {
    let manner = Manner::of(&line.asked);
    let is_said = match outcome {
        Outcome::Failed => true,
        Outcome::Refused => line.why || system.tells_terminal(),
        Outcome::Accepted | Outcome::BadLine | Outcome::NoMemory => return,
    };
    if !is_said && manner.source != Source::Lines {
        return;
    }
    if let Some(odd) = system.odd() {
        tell(
            alloc,
            line,
            system,
            Place::File(&odd.name),
            odd.oddity,
            faults,
        );
    } else if let Some(oddity) = of_input {
        tell(alloc, line, system, Place::Input, oddity, faults);
    }
}

fn tell<S: Storage, E: Write>(
    alloc: Global,
    line: &CommandLine<'_>,
    system: &S,
    place: Place<'_>,
    oddity: Oddity,
    faults: &Shared<'_, E>,
) {
    if line.lenient && oddity == Oddity::CarriageReturn {
        return;
    }
    let has_parts = match place {
        Place::File(path) => has_trunk(alloc, &system.files(), path),
        Place::Input => false,
    };
    // What can't be said for want of memory isn't.
    if let Ok(told) = advice(alloc, Manner::of(&line.asked), place, oddity, has_parts) {
        faults.say(&told);
    }
}

// Whether a trunk is in the folder at a path.
fn has_trunk<H: Files>(alloc: Global, files: &H, path: &str) -> bool {
    match trunk_path(alloc, path) {
        // What isn't there is no file, and so not the same as itself.
        Ok(trunk) => files.is_same(&trunk, &trunk),
        Err(_) => false,
    }
}

// The words, where a table behind `--root` that begins with an empty entry is one word with it: clap would take it for an option.
fn joined(alloc: Global, words: Vec<String>) -> Result<Vec<String>, NoMemory> {
    let mut line: Vec<String> = Vec::new(alloc);
    for word in words {
        match line.last_mut() {
            Some(last) if last.as_str() == "--root" && word.starts_with("---") => {
                last.push_str("=")?;
                last.push_str(&word)?;
            }
            _ => line.push(word)?,
        }
    }
    Ok(line)
}

fn line_of(alloc: Global, words: &[String]) -> Result<Vec<&str>, NoMemory> {
    let mut line = Vec::new(alloc);
    for word in words {
        line.push(word.as_str())?;
    }
    Ok(line)
}

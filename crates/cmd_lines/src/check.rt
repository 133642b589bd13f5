// `bb check`: records in, answers out; and lines that another command would take.
ghost use Rattle.std.specs.Prelude.{◌≡◌, ◌⊎◌, IfErr, IfOk};
ghost use Rattle.cmd_lines.specs.Answer.{SaysOfRecord};
ghost use Rattle.cmd_lines.specs.Stream.{AnswersFirst, EndsSaying, WritesFirst, AnswersStream};

use crate::answers::answer;
use crate::{PIECE_BYTES, Sayer, say_lines};
use cmd_options::{Ended, Outcome, told};
use kind_evidence::NoMemory;
use machine_text::Table;
use std::alloc::Global;
use std::io::{Read, Write};
use text::append_number;

/// Who reads what is said beside answers.
#[derive(Clone, Copy, Debug, PartialEq, Eq)]
pub enum Reader {
    /// A script, which reads answers and nothing else.
    Script,
    /// A person at a terminal.
    Person,
}

/// What is said of such a line, before its number and behind it.
#[derive(Drop)]
pub(crate) struct Remark {
    pub(crate) before: &'static [u8],
    pub(crate) behind: &'static [u8],
}

/// Which line was the first that another command would take, so that who mixed two of them up is told.
#[derive(Drop)]
pub(crate) struct Misplaced {
    // how many lines there were
    lines: u64,
    // the number of the first of those, from 1 on
    first: Option<u64>,
}

impl Misplaced {
    /// None was, of no line.
    pub(crate) fn none() -> Misplaced {
        Misplaced {
            lines: 0,
            first: None,
        }
    }

    /// Counts a line.
    pub(crate) fn count(&mut self, is_misplaced: bool) {
        self.lines = self.lines.saturating_add(1);
        if is_misplaced && self.first.is_none() {
            self.first = Some(self.lines);
        }
    }

    /// Says at the end which line it was, if there was one.
    pub(crate) fn tell<E: Write>(
        &self,
        alloc: Global,
        remark: &Remark,
        faults: &mut E,
    ) -> Result<(), Ended>
        ensures { IfErr result (λ e. (e ≡ Ended.NoMemory) ⊎ (e ≡ Ended.Stream)) }
    {
        if let Some(line) = self.first {
            let told = sentence(alloc, remark, line)?;
            faults.write_all(&told)?;
        }
        Ok(())
    }
}

fn sentence(alloc: Global, remark: &Remark, line: u64) -> Result<Vec<u8>, NoMemory> {
    let mut told = Vec::new(alloc);
    told.extend_from_slice(remark.before)?;
    append_number(line, &mut told)?;
    told.extend_from_slice(remark.behind)?;
    Ok(told)
}

// What is said where a line is what `bb decide` reads.
const TABLE_ALONE: Remark = Remark {
    before: b"bb check reads records, and line ",
    behind: b" is a table alone: bb decide looks for its record\n",
};

/// Reads a record a line and prints an answer a line. A last line without newline is read too. A person is told on `faults` at
/// the end which line was the first that is a table alone. What was printed is the answers to the lines of the input, in
/// their order, and each `halts K` and each `never` of them is true of its table. What a failed stream or refused memory
/// ends is said on `faults`: then it is the answers to the first lines, in full where memory was refused.
pub fn cmd_check<R: Read, W: Write, E: Write>(
    alloc: Global,
    reader: Reader,
    input: &mut R,
    answers: &mut W,
    faults: &mut E,
) -> Outcome
    ensures { EndsSaying (AnswersStream SaysOfRecord (R.remaining input.old) (R.remaining input.new)
        (W.contents answers.old) (W.contents answers.new))
        (AnswersFirst SaysOfRecord (R.remaining input.old) (R.remaining input.new)) (W.contents answers.old)
        (W.contents answers.new) result }
{
    told(check_for(alloc, reader, input, answers, faults), faults)
}

// Checks as `cmd_check` does, but answers what ends it early, and doesn't say it.
fn check_for<R: Read, W: Write, E: Write>(
    alloc: Global,
    reader: Reader,
    input: &mut R,
    answers: &mut W,
    faults: &mut E,
) -> Result<Outcome, Ended>
    ensures ok { IfOk result (AnswersStream SaysOfRecord (R.remaining input.old) (R.remaining input.new)
        (W.contents answers.old) (W.contents answers.new)) }
    ensures first { IfErr result (WritesFirst (AnswersFirst SaysOfRecord (R.remaining input.old)
        (R.remaining input.new)) (W.contents answers.old) (W.contents answers.new)) }
    ensures err { IfErr result (λ e. (e ≡ Ended.NoMemory) ⊎ (e ≡ Ended.Stream)) }
{
    let checker = Checker {
        alloc,
        tables: Misplaced::none(),
    };
    let (outcome, checker) = say_lines(alloc, checker, PIECE_BYTES, input, answers)?;
    if reader == Reader::Person && outcome == Outcome::Refused {
        checker.tables.tell(alloc, &TABLE_ALONE, faults)?;
    }
    Ok(outcome)
}

#[derive(Drop)]
struct Checker {
    alloc: Global,
    // the lines that are tables alone
    tables: Misplaced,
}

impl Sayer for Checker {
    ghost use Rattle.std.specs.Prelude.{◌≡◌};
    ghost use Rattle.cmd_options.specs.declared.ended.Ended.TheVariants.{NoMemory as WantsMemory};
    ghost use Rattle.cmd_lines.specs.Answer.{SaysOfRecord};
    ghost use Rattle.cmd_lines.specs.Stream.{SaysAnswer};

    ghost takes = { SaysAnswer SaysOfRecord };

    ghost ends = { λ e. e ≡ WantsMemory };

    fn take_line(&mut self, line: Option<&[u8]>, said: &mut Vec<u8>) -> Result<Outcome, Ended> {
        let outcome = answer(self.alloc, line, said)?;
        self.tables
            .count(outcome == Outcome::Refused && is_table(line));
        Ok(outcome)
    }
}

// Whether a line is a table and nothing else.
fn is_table(line: Option<&[u8]>) -> bool {
    match line {
        Some(text) => Table::parse(text).is_ok(),
        None => false,
    }
}

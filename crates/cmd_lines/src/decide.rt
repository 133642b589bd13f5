// `bb decide`: tables in, records out.
ghost use Rattle.std.specs.Prelude.{◌≡◌, ◌⊎◌, ◌∷◌, [], ◌++◌, List, ℕ, IfErr, IfOk, OnOk};
ghost use Rattle.machine_text.specs.Terms.{table_of};
ghost use Rattle.cert.specs.Terms.{recorded};
ghost use Rattle.cmd_lines.specs.Lines.{lent};
ghost use Rattle.cmd_lines.specs.Answer.{Decides, DecidesCame, DecidesTable, SaysOfTable, printed, table_read};
ghost use Rattle.cmd_lines.specs.Stream.{AnswersFirst, EndsSaying, WritesFirst, AnswersStream};

use crate::answers::append_fault;
use crate::check::{Misplaced, Reader, Remark};
use crate::{PIECE_BYTES, Sayer, say_lines};
use cert::{Decider, Record, RecordFault};
use cmd_options::{Ended, Outcome, told};
use kind_evidence::NoMemory;
use machine_text::{TEXT_BYTES, Table};
use std::alloc::Global;
use std::io::{Read, Write};

// What is said where a line is what `bb check` reads.
const RECORD: Remark = Remark {
    before: b"bb decide reads tables, and line ",
    behind: b" is a record: bb check judges it\n",
};

/// How the table of an answer is printed.
#[derive(Clone, Copy, Debug, PartialEq, Eq)]
pub enum TableText {
    /// In the standard form, in which a pair that halts is `---`.
    Standard,
    /// As it came.
    AsItCame,
}

/// Reads a table a line and prints a record a line, as the decider answers: certified, or undecided. The table of each is
/// printed in the standard form, or as it came. Lines are answered as they come, and a last line without newline is read
/// too. A person is told on `faults` at the end which line was the first that is a record. What was printed is the answers to
/// the lines of the input, in their order. What a failed stream or refused memory ends is said on `faults`: then it is the
/// answers to the first lines, in full where memory was refused.
pub fn cmd_decide<D: Decider, R: Read, W: Write, E: Write>(
    alloc: Global,
    reader: Reader,
    text: TableText,
    decider: &mut D,
    input: &mut R,
    answers: &mut W,
    faults: &mut E,
) -> Outcome
    ensures { EndsSaying (AnswersStream (SaysOfTable D.answers text) (R.remaining input.old) (R.remaining input.new)
        (W.contents answers.old) (W.contents answers.new))
        (AnswersFirst (SaysOfTable D.answers text) (R.remaining input.old) (R.remaining input.new))
        (W.contents answers.old) (W.contents answers.new) result }
{
    told(
        decide_for(alloc, reader, text, decider, input, answers, faults),
        faults,
    )
}

// Decides as `cmd_decide` does, but answers what ends it early, and doesn't say it.
fn decide_for<D: Decider, R: Read, W: Write, E: Write>(
    alloc: Global,
    reader: Reader,
    text: TableText,
    decider: &mut D,
    input: &mut R,
    answers: &mut W,
    faults: &mut E,
) -> Result<Outcome, Ended>
    ensures ok { IfOk result (AnswersStream (SaysOfTable D.answers text) (R.remaining input.old) (R.remaining input.new)
        (W.contents answers.old) (W.contents answers.new)) }
    ensures first { IfErr result (WritesFirst (AnswersFirst (SaysOfTable D.answers text) (R.remaining input.old)
        (R.remaining input.new)) (W.contents answers.old) (W.contents answers.new)) }
    ensures err { IfErr result (λ e. (e ≡ Ended.NoMemory) ⊎ (e ≡ Ended.Stream)) }
{
    let answerer = TableAnswerer {
        alloc,
        text,
        decider,
        records: Misplaced::none(),
    };
    let (outcome, answerer) = say_lines(alloc, answerer, PIECE_BYTES, input, answers)?;
    if reader == Reader::Person && outcome == Outcome::Refused {
        answerer.records.tell(alloc, &RECORD, faults)?;
    }
    Ok(outcome)
}

#[derive(Drop)]
struct TableAnswerer<'a, D> {
    alloc: Global,
    text: TableText,
    decider: &'a mut D,
    // the lines that are records
    records: Misplaced,
}

impl<'a, D: Decider> Sayer for TableAnswerer<'a, D> {
    ghost use Rattle.std.specs.Prelude.{◌≡◌};
    ghost use Rattle.cmd_options.specs.declared.ended.Ended.TheVariants.{NoMemory as WantsMemory};
    ghost use Rattle.cmd_lines.specs.Answer.{SaysOfTable};
    ghost use Rattle.cmd_lines.specs.inside.{KeepsForm};

    ghost takes = { KeepsForm (λ a. a.text) (SaysOfTable D.answers) };

    ghost ends = { λ e. e ≡ WantsMemory };

    fn take_line(&mut self, line: Option<&[u8]>, said: &mut Vec<u8>) -> Result<Outcome, Ended> {
        let outcome = decide_line(self.alloc, self.text, self.decider, line, said)?;
        self.records
            .count(outcome == Outcome::Refused && is_record(line));
        Ok(outcome)
    }
}

/// Appends the record of a line's table, which is none where the line was too long, with a newline; of a
/// text that is no table its fault.
pub fn decide_line<D: Decider>(
    alloc: Global,
    text: TableText,
    decider: &mut D,
    line: Option<&[u8]>,
    out: &mut Vec<u8>,
) -> Result<Outcome, NoMemory>
    ensures { IfOk result (λ o. (answer : List ℕ)
        × Decides (D.answers decider.old) text (lent line.entry) o answer
        × (out.new.items ≡ out.old.items ++ answer ++ 10 ∷ [])) }
{
    let outcome = match line {
        Some(came) => decide_text(alloc, text, decider, came, out)?,
        None => {
            append_fault(RecordFault::TooLong, out)?;
            Outcome::Refused
        }
    };
    out.push(b'\n')?;
    Ok(outcome)
}

// Appends the record of the table that came, or the fault of its text.
fn decide_text<D: Decider>(
    alloc: Global,
    text: TableText,
    decider: &mut D,
    came: &[u8],
    out: &mut Vec<u8>,
) -> Result<Outcome, NoMemory>
    ensures { IfOk result (λ o. (answer : List ℕ)
        × DecidesCame (D.answers decider.old) text came.now (table_read (table_of came.now)) o answer
        × (out.new.items ≡ out.old.items ++ answer)) }
{
    match Table::parse(came) {
        Ok(table) => append_record(alloc, text, decider, came, &table, out),
        Err(fault) => {
            append_fault(RecordFault::BadTable(fault), out)?;
            Ok(Outcome::Refused)
        }
    }
}

// Appends a record of a table, which came so.
fn append_record<D: Decider>(
    alloc: Global,
    text: TableText,
    decider: &mut D,
    came: &[u8],
    t: &Table,
    out: &mut Vec<u8>,
) -> Result<Outcome, NoMemory>
    ensures { IfOk result (λ o. (answer : List ℕ) × DecidesTable (D.answers decider.old) text came.now t.now o answer
        × (out.new.items ≡ out.old.items ++ answer)) }
{
    let record = decider.decide(alloc, t)?;
    append_printed(alloc, text, came, &record.lent(), out)?;
    Ok(Outcome::Accepted)
}

// Appends a record whose table came so.
fn append_printed(
    alloc: Global,
    text: TableText,
    came: &[u8],
    record: &Record<'_>,
    out: &mut Vec<u8>,
) -> Result<(), NoMemory>
    ensures { OnOk result (out.new.items ≡ out.old.items ++ printed text came.now (recorded record.now)) }
{
    match text {
        TableText::Standard => record.write_text(out),
        TableText::AsItCame => append_kept(alloc, came, record, out),
    }
}

// Appends a table as it came, and what follows the table in a record's text.
fn append_kept(
    alloc: Global,
    came: &[u8],
    record: &Record<'_>,
    out: &mut Vec<u8>,
) -> Result<(), NoMemory>
    ensures { OnOk result (out.new.items
        ≡ out.old.items ++ printed TableText.AsItCame came.now (recorded record.now)) }
{
    let mut text = Vec::new(alloc);
    record.write_text(&mut text)?;
    let mut buf = [0; TEXT_BYTES];
    let table_len = record.table.text(&mut buf).len();
    let (_table, behind) = text.split_at(table_len);
    out.extend_from_slice(came)?;
    out.extend_from_slice(behind)
}

// Whether a line is a record.
fn is_record(line: Option<&[u8]>) -> bool {
    match line {
        Some(text) => Record::parse(text).is_ok(),
        None => false,
    }
}

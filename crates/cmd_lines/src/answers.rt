// The answer to a line: what is printed for it, and whether it was accepted.
ghost use Rattle.std.specs.Prelude.{◌≡◌, ◌∷◌, [], ◌++◌, List, ℕ, decimal, OnOk, IfOk, IfSome};
ghost use Rattle.machine_text.specs.Terms.{text_of};
ghost use Rattle.cert.specs.Terms.{IsShownBy, score_by, recorded, read_as};
ghost use Rattle.cmd_lines.specs.Answer.{Answers, AnswersRecord, outcome_shown, ones_text, read_line, verdict_text, text_fault_text, fault_text};
ghost use Rattle.cmd_lines.specs.Lines.{lent};

use cert::{Judged, Record, RecordFault, append_table, judge_on, standing_claims_are_true};
use cmd_options::Outcome;
use kind_evidence::{NoMemory, Verdict};
use machine_text::TextFault;
use std::alloc::Global;
use text::append_number;

/// Appends the answer to a line, which is none where it was too long, with a newline.
pub fn answer(alloc: Global, line: Option<&[u8]>, out: &mut Vec<u8>) -> Result<Outcome, NoMemory>
    ensures { IfOk result (λ o. (answer : List ℕ) × Answers (read_line (lent line.entry)) o answer
        × (out.new.items ≡ out.old.items ++ answer ++ 10 ∷ [])) }
{
    let outcome = match read_line(line) {
        Ok(record) => outcome_shown(&answer_record(alloc, &record, out)?),
        Err(fault) => {
            append_fault(fault, out)?;
            Outcome::Refused
        }
    };
    out.push(b'\n')?;
    Ok(outcome)
}

/// The record of a line, which is none where it was too long.
pub fn read_line(line: Option<&[u8]>) -> Result<Record<'_>, RecordFault>
    ensures { read_as result ≡ read_line (lent line.entry) }
{
    match line {
        Some(text) => Record::parse(text),
        None => Err(RecordFault::TooLong),
    }
}

/// Appends the answer to a record: what its certificate shows, or why it is refused. Gives what it shows, where it stands.
pub fn answer_record(
    alloc: Global,
    r: &Record,
    out: &mut Vec<u8>,
) -> Result<Option<Judged>, NoMemory>
    ensures answer { IfOk result (λ judged. (answer : List ℕ)
        × AnswersRecord (recorded r.now) (outcome_shown judged) answer × (out.new.items ≡ out.old.items ++ answer)) }
    ensures shown { IfOk result (λ judged. IfSome judged (IsShownBy (recorded r.now))) }
{
    standing_claims_are_true();
    // The proof needs that it is a table.
    let _ = r.table.states();
    match judge_on(alloc, r) {
        Ok(judged) => {
            append_shown(r, judged.verdict, out)?;
            Ok(Some(judged))
        }
        Err(refused) => match refused.number() {
            Some(number) => {
                append_named(b"refused ", u64::from(number), out)?;
                Ok(None)
            }
            None => Err(NoMemory),
        },
    }
}

/// Whether a record was accepted, by what its certificate shows.
pub fn outcome_shown(judged: &Option<Judged>) -> Outcome
    ensures { result ≡ outcome_shown judged.now }
{
    match judged {
        Some(_) => Outcome::Accepted,
        None => Outcome::Refused,
    }
}

// Appends a record's table, what is said of it, and the score that the record has, if any.
fn append_shown(r: &Record, verdict: Option<Verdict>, out: &mut Vec<u8>) -> Result<(), NoMemory>
    ensures { OnOk result (out.new.items ≡ out.old.items ++ text_of (recorded r.now).table ++ verdict_text verdict
        ++ ones_text (score_by (recorded r.now).claim)) }
{
    append_table(&r.table, out)?;
    append_verdict(verdict, out)?;
    append_ones(r.certificate.ones(), out)
}

// Appends what is said of a table.
fn append_verdict(verdict: Option<Verdict>, out: &mut Vec<u8>) -> Result<(), NoMemory>
    ensures { OnOk result (out.new.items ≡ out.old.items ++ verdict_text verdict) }
{
    match verdict {
        Some(Verdict::Halts { steps, .. }) => append_named(b" halts ", steps, out),
        Some(Verdict::Never) => out.extend_from_slice(b" never"),
        None => out.extend_from_slice(b" undecided"),
    }
}

// Appends a score, if there is one.
fn append_ones(ones: Option<u64>, out: &mut Vec<u8>) -> Result<(), NoMemory>
    ensures { OnOk result (out.new.items ≡ out.old.items ++ ones_text ones) }
{
    match ones {
        Some(ones) => append_named(b" ones ", ones, out),
        None => Ok(()),
    }
}

/// Appends a fault of a record's text; of a table's text also its own fault, and where that is.
pub fn append_fault(fault: RecordFault, out: &mut Vec<u8>) -> Result<(), NoMemory>
    ensures { OnOk result (out.new.items ≡ out.old.items ++ fault_text fault) }
{
    append_named(b"refused ", u64::from(fault.number()), out)?;
    match fault {
        RecordFault::BadTable(fault) => append_text_fault(fault, out),
        _ => Ok(()),
    }
}

fn append_text_fault(fault: TextFault, out: &mut Vec<u8>) -> Result<(), NoMemory>
    ensures { OnOk result (out.new.items ≡ out.old.items ++ text_fault_text fault) }
{
    append_named(b" ", u64::from(fault.number()), out)?;
    match fault.place() {
        Some(place) => append_named(b" ", place as u64, out),
        None => Ok(()),
    }
}

// Appends a word and a number.
fn append_named(word: &[u8], n: u64, out: &mut Vec<u8>) -> Result<(), NoMemory>
    ensures { OnOk result (out.new.items ≡ out.old.items ++ word.now ++ decimal n) }
{
    out.extend_from_slice(word)?;
    append_number(n, out)
}

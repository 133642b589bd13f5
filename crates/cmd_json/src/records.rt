// `bb check --json` and `bb decide --json`: lines in, an object each out.
ghost use Rattle.std.specs.Prelude.{◌≡◌, ◌⊎◌, ◌∷◌, [], ◌++◌, List, ℕ, IfErr, IfOk, ◌≢◌, string_bytes, Ok, OnOk};
ghost use Rattle.cmd_lines.specs.Terms.{lent, WritesFirst, read_line_table};
ghost use Rattle.cmd_json.specs.Objects.{SaysChecked, AnswersFirstNumbered, AnswersNumbered, Finds, FindsRecord, Refuses, Shows, found, outcome_found, IsDecidedRecord, SaysDecided, decide_object, object_text};
ghost use Rattle.cert.specs.Terms.{IsRefusedBy, record_fault_number, record_fault_text, ending_by, score_by, Recorded, claim_of, read_as, recorded};

use crate::form::number_behind;
use crate::objects::{append_object, check_value, decide_value};
use cert::{Decider, Record, RecordFault, judge, standing_claims_are_true};
use cmd_explain::{refused_words, words_of_refusal};
use cmd_lines::{PIECE_BYTES, Sayer, read_line, say_lines};
use cmd_options::{Ended, Outcome};
use kind_evidence::{Ending, NoMemory, Refused};
use machine_text::Table;
use std::alloc::Global;
use std::io::{Read, Write};

/// Checks as `cmd_check` of `cmd_lines` does, and says each answer as an object of JSON, a line each, with the number
/// of its own line; where it is asked for why, with what is right of a table whose count or score is wrong. Where that ends
/// early, what was printed is the answers to the first lines, in full unless a stream failed.
pub fn check_json_for<R: Read, W: Write>(
    alloc: Global,
    with_why: bool,
    input: &mut R,
    answers: &mut W,
) -> Result<Outcome, Ended>
    ensures ok { IfOk result (AnswersNumbered SaysChecked (R.remaining input.old) (R.remaining input.new)
        (W.contents answers.old) (W.contents answers.new)) }
    ensures first { IfErr result (WritesFirst (AnswersFirstNumbered SaysChecked (R.remaining input.old)
        (R.remaining input.new)) (W.contents answers.old) (W.contents answers.new)) }
    ensures err { IfErr result (λ e. (e ≡ Ended.NoMemory) ⊎ (e ≡ Ended.Stream)) }
{
    let checker = Checker {
        alloc,
        with_why,
        lines: 0,
    };
    let (outcome, _) = say_lines(alloc, checker, PIECE_BYTES, input, answers)?;
    Ok(outcome)
}

#[derive(Drop)]
struct Checker {
    alloc: Global,
    with_why: bool,
    // how many lines there were
    lines: u64,
}

impl Sayer for Checker {
    ghost use Rattle.std.specs.Prelude.{◌≡◌};
    ghost use Rattle.cmd_options.specs.declared.ended.Ended.TheVariants.{NoMemory as WantsMemory};
    ghost use Rattle.cmd_json.specs.Objects.{SaysChecked, SaysNumbered};

    ghost takes = { λ old line o new said. SaysNumbered SaysChecked old.lines line o new.lines said };

    ghost ends = { λ e. e ≡ WantsMemory };

    fn take_line(&mut self, line: Option<&[u8]>, said: &mut Vec<u8>) -> Result<Outcome, Ended> {
        self.lines = number_behind(self.lines);
        Ok(check_json_line(self.alloc, self.with_why, self.lines, line, said)?)
    }
}

/// Appends the object that answers the line of this number, which is none where it was too long, with a newline.
pub fn check_json_line(
    alloc: Global,
    with_why: bool,
    number: u64,
    line: Option<&[u8]>,
    out: &mut Vec<u8>,
) -> Result<Outcome, NoMemory>
    ensures { IfOk result (λ o. (answer : List ℕ) × SaysChecked number (lent line.entry) o answer
        × (out.new.items ≡ out.old.items ++ answer ++ 10 ∷ [])) }
{
    let read = read_line(line);
    let finding = find(alloc, with_why, &read)?;
    let object = check_value(alloc, number, line, &read, &finding)?;
    append_object(alloc, &object, out)?;
    Ok(finding.outcome())
}

/// What is found of a line.
#[derive(Drop)]
pub(crate) enum Finding {
    /// A record that stands: how its table's run ends, nothing where nothing is claimed, and its score, if it has one.
    Shows {
        ending: Option<Ending>,
        ones: Option<u64>,
    },
    /// A line that is refused: for which number, and what that means.
    Refuses {
        number: u16,
        meaning: String,
    },
}

impl Finding {
    /// Whether the line is accepted.
    pub(crate) fn outcome(&self) -> Outcome
        ensures { result ≡ outcome_found (found self.now) }
    {
        match self {
            Finding::Shows { .. } => Outcome::Accepted,
            Finding::Refuses { .. } => Outcome::Refused,
        }
    }
}

/// What is found of a line, by what was read of it; of a record that is refused also what is right, where that is asked
/// for.
pub(crate) fn find(
    alloc: Global,
    with_why: bool,
    read: &Result<Record<'_>, RecordFault>,
) -> Result<Finding, NoMemory>
    ensures { IfOk result (λ f. Finds (read_as read.now) (outcome_found (found f)) (found f)) }
{
    match read {
        Ok(record) => find_record(alloc, with_why, record),
        Err(fault) => fault_found(alloc, *fault),
    }
}

// What is found of a record.
fn find_record(alloc: Global, with_why: bool, r: &Record) -> Result<Finding, NoMemory>
    ensures { IfOk result (λ f. FindsRecord (recorded r.now) (outcome_found (found f)) (found f)) }
{
    standing_claims_are_true();
    // The proof needs that it is a table.
    let _ = r.table.states();
    match judge(alloc, r) {
        Ok(_) => Ok(shown(r)),
        Err(refused) => refusal_found(alloc, with_why, r, refused),
    }
}

/// What is found of a record that stands.
pub(crate) fn shown(r: &Record) -> Finding
    ensures { found result ≡ Shows (ending_by (claim_of r.now.certificate)) (score_by (claim_of r.now.certificate)) }
{
    Finding::Shows {
        ending: r.certificate.ending(),
        ones: r.certificate.ones(),
    }
}

/// What is found of a record that is refused, or for which memory is.
pub(crate) fn refusal_found(
    alloc: Global,
    with_why: bool,
    r: &Record,
    why: Refused,
) -> Result<Finding, NoMemory>
    requires { why ≢ Refused.NoMemory → IsRefusedBy why (recorded r.now) }
    ensures { IfOk result (λ f. FindsRecord (recorded r.now) (outcome_found (found f)) (found f)) }
{
    match why.number() {
        Some(number) => {
            let meaning = meaning_of(alloc, with_why, r, why)?;
            Ok(Finding::Refuses { number, meaning })
        }
        None => Err(NoMemory),
    }
}

// What a refusal means; where it is asked for, what is right of the table.
fn meaning_of(alloc: Global, with_why: bool, r: &Record, why: Refused) -> Result<String, NoMemory> {
    if with_why {
        words_of_refusal(alloc, r, why)
    } else {
        String::from_str(alloc, refused_words(why))
    }
}

/// What is found of a text that is no record.
pub(crate) fn fault_found(alloc: Global, fault: RecordFault) -> Result<Finding, NoMemory>
    ensures { IfOk result (λ f. (outcome_found (found f) ≡ Outcome.Refused)
        × (found f ≡ Refuses (record_fault_number fault) (record_fault_text fault))) }
{
    let number = fault.number();
    let meaning = fault_words(alloc, fault)?;
    Ok(Finding::Refuses { number, meaning })
}

/// What a fault of a text means, in words.
pub(crate) fn fault_words(alloc: Global, fault: RecordFault) -> Result<String, NoMemory>
    ensures { IfOk result (λ words. string_bytes words ≡ record_fault_text fault) }
{
    format!(in alloc; "{fault}")
}

/// Decides as `cmd_decide` of `cmd_lines` does, and says each record, or the fault of a text that is no table, as an
/// object of JSON, a line each, with the number of its own line. Where that ends early, what was
/// printed is the answers to the first lines, in full unless a stream failed.
pub fn decide_json_for<D: Decider, R: Read, W: Write>(
    alloc: Global,
    decider: &mut D,
    input: &mut R,
    answers: &mut W,
) -> Result<Outcome, Ended>
    ensures ok { IfOk result (AnswersNumbered (SaysDecided D.answers) (R.remaining input.old) (R.remaining input.new)
        (W.contents answers.old) (W.contents answers.new)) }
    ensures first { IfErr result (WritesFirst (AnswersFirstNumbered (SaysDecided D.answers) (R.remaining input.old)
        (R.remaining input.new)) (W.contents answers.old) (W.contents answers.new)) }
    ensures err { IfErr result (λ e. (e ≡ Ended.NoMemory) ⊎ (e ≡ Ended.Stream)) }
{
    let answerer = Answerer {
        alloc,
        decider,
        lines: 0,
    };
    let (outcome, _) = say_lines(alloc, answerer, PIECE_BYTES, input, answers)?;
    Ok(outcome)
}

#[derive(Drop)]
struct Answerer<'a, D> {
    alloc: Global,
    decider: &'a mut D,
    // how many lines there were
    lines: u64,
}

impl<'a, D: Decider> Sayer for Answerer<'a, D> {
    ghost use Rattle.std.specs.Prelude.{◌≡◌};
    ghost use Rattle.cmd_options.specs.declared.ended.Ended.TheVariants.{NoMemory as WantsMemory};
    ghost use Rattle.cmd_json.specs.Objects.{SaysDecided, SaysNumbered};

    ghost takes = { λ old line o new said. SaysNumbered (SaysDecided D.answers) old.lines line o new.lines said };

    ghost ends = { λ e. e ≡ WantsMemory };

    fn take_line(&mut self, line: Option<&[u8]>, said: &mut Vec<u8>) -> Result<Outcome, Ended> {
        self.lines = number_behind(self.lines);
        Ok(decide_json_line(self.alloc, self.decider, self.lines, line, said)?)
    }
}

/// Appends the object that answers the line of this number, which is none where it was too long, with a newline.
pub fn decide_json_line<D: Decider>(
    alloc: Global,
    decider: &mut D,
    number: u64,
    line: Option<&[u8]>,
    out: &mut Vec<u8>,
) -> Result<Outcome, NoMemory>
    ensures { IfOk result (λ o. (answer : List ℕ) × SaysDecided D.answers number (lent line.entry) o answer
        × (out.new.items ≡ out.old.items ++ answer ++ 10 ∷ [])) }
{
    match read_line_table(line) {
        Ok(table) => append_decided(alloc, decider, number, line, &table, out),
        Err(fault) => {
            append_object_of(alloc, number, line, &Err(fault), out)?;
            Ok(Outcome::Refused)
        }
    }
}

// The table of a line.
fn read_line_table(line: Option<&[u8]>) -> Result<Table, RecordFault>
    ensures { result ≡ read_line_table (lent line.entry) }
{
    match line {
        Some(text) => match Table::parse(text) {
            Ok(table) => Ok(table),
            Err(fault) => Err(RecordFault::BadTable(fault)),
        },
        None => Err(RecordFault::TooLong),
    }
}

// Appends the object of the record that the decider answers for a table.
fn append_decided<D: Decider>(
    alloc: Global,
    decider: &mut D,
    number: u64,
    line: Option<&[u8]>,
    t: &Table,
    out: &mut Vec<u8>,
) -> Result<Outcome, NoMemory>
    ensures { IfOk result (λ o. (r : Recorded) × IsDecidedRecord (D.answers decider.old) t.now r
        × (o ≡ Outcome.Accepted)
        × (out.new.items ≡ out.old.items ++ object_text (decide_object number (lent line.entry) (Ok r)) ++ 10 ∷ [])) }
{
    standing_claims_are_true();
    let record = decider.decide(alloc, t)?;
    // The proof needs that it is a table.
    let _ = record.table.states();
    append_object_of(alloc, number, line, &Ok(record.lent()), out)?;
    Ok(Outcome::Accepted)
}

fn append_object_of(
    alloc: Global,
    number: u64,
    line: Option<&[u8]>,
    decided: &Result<Record<'_>, RecordFault>,
    out: &mut Vec<u8>,
) -> Result<(), NoMemory>
    ensures { OnOk result (out.new.items
        ≡ out.old.items ++ object_text (decide_object number (lent line.entry) (read_as decided.now)) ++ 10 ∷ []) }
{
    let object = decide_value(alloc, number, line, decided)?;
    append_object(alloc, &object, out)
}

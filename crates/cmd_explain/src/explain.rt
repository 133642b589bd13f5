// `bb explain` and `bb check --why`: records in, what has been shown of them, or why they are refused, out.
ghost use Rattle.std.specs.Prelude.{◌≡◌, ◌⊎◌, ◌∷◌, [], ◌++◌, List, ℕ, IfErr, IfOk, Ok};
ghost use Rattle.cert.specs.Terms.{read_as, recorded};
ghost use Rattle.cmd_lines.specs.Terms.{Answers, AnswersRecord, SaysOfRecord, read_line, AnswersFirst, EndsSaying, WritesFirst, AnswersStream, lent};
ghost use Rattle.cmd_explain.specs.Explained.{AreToldBehind, SaysExplained};
ghost use Rattle.cmd_explain.specs.Why.{TellsWhy};

use crate::closed_sets::{ngram_words, reduction_words};
use crate::columns::{Quantity, append_lists};
use crate::halts_and_loops::{
    backward_words, cycle_words, halting_words, named_words, translated_words,
};
use crate::rules::rule_words;
use cert::{Certificate, Judged, Record, RecordFault, judge};
use cmd_lines::{PIECE_BYTES, Sayer, answer, answer_record, append_fault, read_line, say_lines};
use cmd_options::{Ended, Outcome, told};
use kind_evidence::{NoMemory, Refused, Verdict};
use run::{HaltFinder, HaltsIn, MAX_HALT_STEPS, Reach};
use std::alloc::Global;
use std::io::{Read, Write};

/// Reads a record a line and prints the answer of `bb check` to it, then what its check has shown, in words, then the
/// automata or the words that its certificate holds, in lists, and then an empty line; of a record that is refused the
/// answer alone. A last line without newline is read too. What was printed is what is said to the lines of the input, in
/// their order. What a failed stream or refused memory ends is said on `faults`: then it is what is said to the first
/// lines, in full where memory was refused.
pub fn cmd_explain<R: Read, W: Write, E: Write>(
    alloc: Global,
    input: &mut R,
    answers: &mut W,
    faults: &mut E,
) -> Outcome
    ensures { EndsSaying (AnswersStream SaysExplained (R.remaining input.old) (R.remaining input.new)
        (W.contents answers.old) (W.contents answers.new))
        (AnswersFirst SaysExplained (R.remaining input.old) (R.remaining input.new)) (W.contents answers.old)
        (W.contents answers.new) result }
{
    told(explain_for(alloc, input, answers), faults)
}

// Explains as `cmd_explain` does, but answers what ends it early, and doesn't say it.
fn explain_for<R: Read, W: Write>(
    alloc: Global,
    input: &mut R,
    answers: &mut W,
) -> Result<Outcome, Ended>
    ensures ok { IfOk result (AnswersStream SaysExplained (R.remaining input.old) (R.remaining input.new)
        (W.contents answers.old) (W.contents answers.new)) }
    ensures first { IfErr result (WritesFirst (AnswersFirst SaysExplained (R.remaining input.old)
        (R.remaining input.new)) (W.contents answers.old) (W.contents answers.new)) }
    ensures err { IfErr result (λ e. (e ≡ Ended.NoMemory) ⊎ (e ≡ Ended.Stream)) }
{
    let (outcome, _) = say_lines(alloc, Explainer { alloc }, PIECE_BYTES, input, answers)?;
    Ok(outcome)
}

#[derive(Drop)]
struct Explainer {
    alloc: Global,
}

impl Sayer for Explainer {
    ghost use Rattle.std.specs.Prelude.{◌≡◌};
    ghost use Rattle.cmd_options.specs.declared.ended.Ended.TheVariants.{NoMemory as WantsMemory};
    ghost use Rattle.cmd_explain.specs.Explained.{SaysExplained};
    ghost use Rattle.cmd_lines.specs.Terms.{SaysAnswer};

    ghost takes = { SaysAnswer SaysExplained };

    ghost ends = { λ e. e ≡ WantsMemory };

    fn take_line(&mut self, line: Option<&[u8]>, said: &mut Vec<u8>) -> Result<Outcome, Ended> {
        Ok(explain_line(self.alloc, line, said)?)
    }
}

/// Appends the answer to a line, which is none where it was too long, and an empty line.
pub(crate) fn explain_line(
    alloc: Global,
    line: Option<&[u8]>,
    out: &mut Vec<u8>,
) -> Result<Outcome, NoMemory>
    ensures { IfOk result (λ o. (answer : List ℕ) × SaysExplained (lent line.entry) o answer
        × (out.new.items ≡ out.old.items ++ answer ++ 10 ∷ [])) }
{
    let outcome = explain_read(alloc, &read_line(line), out)?;
    out.push(b'\n')?;
    Ok(outcome)
}

// Appends the answer to what was read, and behind it what has been shown.
fn explain_read(
    alloc: Global,
    read: &Result<Record<'_>, RecordFault>,
    out: &mut Vec<u8>,
) -> Result<Outcome, NoMemory>
    ensures { IfOk result (λ o. (first lines : List ℕ) × Answers (read_as read.now) o first × AreToldBehind o lines
        × (out.new.items ≡ out.old.items ++ first ++ 10 ∷ lines)) }
{
    match read {
        Ok(record) => explain_record(alloc, record, out),
        Err(fault) => {
            append_fault(*fault, out)?;
            out.push(b'\n')?;
            Ok(Outcome::Refused)
        }
    }
}

// Appends the answer to a record, and behind it what has been shown.
fn explain_record(alloc: Global, r: &Record, out: &mut Vec<u8>) -> Result<Outcome, NoMemory>
    ensures { IfOk result (λ o. (first lines : List ℕ) × AnswersRecord (recorded r.now) o first × AreToldBehind o lines
        × (out.new.items ≡ out.old.items ++ first ++ 10 ∷ lines)) }
{
    let Some(judged) = answer_record(alloc, r, out)? else {
        out.push(b'\n')?;
        return Ok(Outcome::Refused);
    };
    let told = told_of(alloc, r, &judged)?;
    out.push(b'\n')?;
    out.extend_from_slice(&told)?;
    out.push(b'\n')?;
    Ok(Outcome::Accepted)
}

// The words for a record that stands, and behind them its lists, without the newline of the last line.
fn told_of(alloc: Global, r: &Record, judged: &Judged) -> Result<Vec<u8>, NoMemory> {
    let words = words_of(alloc, r, judged)?;
    let mut told = Vec::from_slice(alloc, words.as_bytes())?;
    append_lists(alloc, &r.certificate, &mut told)?;
    Ok(told)
}

const COUNTED: &str =
    "Counted automata: two automata read the half tapes, each from far away to the head, and count how often some of \
     their transitions are taken.\nEach context of the head (a state, the symbol read, and the states of both \
     automata) comes with a coset in which the counts lie: they differ by sums of its rows alone.\nThe blank tape \
     is in its coset, and no step leads out of the cosets.\nSo it never halts.";

/// The words for a record that stands, without the newline of the last line.
pub fn words_of(alloc: Global, r: &Record, judged: &Judged) -> Result<String, NoMemory> {
    match &r.certificate {
        Certificate::Halts(_) => judged_words(alloc, judged),
        Certificate::Cycle(e) => cycle_words(alloc, e),
        Certificate::Translated(e) => translated_words(alloc, &r.table, e),
        Certificate::Backward(e) => backward_words(alloc, e),
        Certificate::Ngram(e) => ngram_words(alloc, e),
        Certificate::Far(e) => reduction_words(alloc, e.side(), u64::from(e.size())),
        Certificate::Listed(e) => reduction_words(alloc, e.side(), u64::from(e.size())),
        Certificate::Counted(_) => String::from_str(alloc, COUNTED),
        Certificate::Rules(e) => rule_words(alloc, e),
        Certificate::Named(_) => named_words(alloc, &r.table),
        Certificate::Undecided => String::from_str(alloc, "Nothing is claimed."),
    }
}

// The words for a table that halts, by what its check has shown.
fn judged_words(alloc: Global, judged: &Judged) -> Result<String, NoMemory> {
    match (judged.verdict, judged.halts_on) {
        (Some(Verdict::Halts { steps, ones }), Some(pair)) => {
            halting_words(alloc, steps, ones, pair)
        }
        _ => Ok(String::new(alloc)),
    }
}

/// Checks as `cmd_check` of `cmd_lines` does, and says on `faults` of each record that is refused why it is, on a line with
/// the number of its own (`why_of`). Where that ends early, what was printed is the answers to the first lines, in full
/// unless a stream failed.
pub fn check_why_for<R: Read, W: Write, E: Write>(
    alloc: Global,
    input: &mut R,
    answers: &mut W,
    faults: &mut E,
) -> Result<Outcome, Ended>
    ensures ok { IfOk result (AnswersStream SaysOfRecord (R.remaining input.old) (R.remaining input.new)
        (W.contents answers.old) (W.contents answers.new)) }
    ensures first { IfErr result (WritesFirst (AnswersFirst SaysOfRecord (R.remaining input.old)
        (R.remaining input.new)) (W.contents answers.old) (W.contents answers.new)) }
    ensures err { IfErr result (λ e. (e ≡ Ended.NoMemory) ⊎ (e ≡ Ended.Stream)) }
{
    let checker = WhyChecker {
        alloc,
        lines: 0,
        faults,
    };
    let (outcome, _) = say_lines(alloc, checker, PIECE_BYTES, input, answers)?;
    Ok(outcome)
}

#[derive(Drop)]
struct WhyChecker<'a, E> {
    alloc: Global,
    // how many lines there were
    lines: u64,
    faults: &'a mut E,
}

impl<'a, E: Write> Sayer for WhyChecker<'a, E> {
    ghost use Rattle.std.specs.Prelude.{◌≡◌, ◌⊎◌};
    ghost use Rattle.cmd_options.specs.declared.ended.Ended.TheVariants.{NoMemory as WantsMemory, Stream};
    ghost use Rattle.cmd_lines.specs.Terms.{SaysOfRecord, SaysAnswer};

    ghost takes = { SaysAnswer SaysOfRecord };

    ghost ends = { λ e. (e ≡ WantsMemory) ⊎ (e ≡ Stream) };

    fn take_line(&mut self, line: Option<&[u8]>, said: &mut Vec<u8>) -> Result<Outcome, Ended> {
        let outcome = answer(self.alloc, line, said)?;
        self.lines = self.lines.saturating_add(1);
        if outcome == Outcome::Refused {
            if let Some(words) = why_of(self.alloc, line)? {
                let told = numbered(self.alloc, self.lines, &words)?;
                self.faults.write_all(told.as_bytes())?;
            }
        }
        Ok(outcome)
    }
}

/// Why a line is refused, in words; nothing where its record stands.
pub fn why_of(alloc: Global, line: Option<&[u8]>) -> Result<Option<String>, NoMemory>
    ensures { IfOk result (TellsWhy (read_line (lent line.entry))) }
{
    match read_line(line) {
        Ok(record) => why_of_record(alloc, &record),
        Err(fault) => {
            let words = format!(in alloc; "{fault}")?;
            Ok(Some(words))
        }
    }
}

fn why_of_record(alloc: Global, r: &Record) -> Result<Option<String>, NoMemory>
    ensures { IfOk result (TellsWhy (Ok (recorded r.now))) }
{
    match judge(alloc, r) {
        Ok(_) => Ok(None),
        Err(Refused::NoMemory) => Err(NoMemory),
        Err(why) => {
            let words = words_of_refusal(alloc, r, why)?;
            Ok(Some(words))
        }
    }
}

/// Why a record is refused, in words; of a table that is said to halt, and halts otherwise, when it does, and with how many
/// ones.
pub fn words_of_refusal(alloc: Global, r: &Record, why: Refused) -> Result<String, NoMemory> {
    match right_of_claim(alloc, r)? {
        Some(e) => right_words(alloc, &e),
        None => String::from_str(alloc, refused_words(why)),
    }
}

// When a table halts that is said to, if it does within the limit of records `H`, or in the steps of a late halt.
fn right_of_claim(alloc: Global, r: &Record) -> Result<Option<HaltsIn>, NoMemory> {
    match &r.certificate {
        Certificate::Halts(e) => {
            let most = match e.reach {
                Reach::Early => MAX_HALT_STEPS,
                Reach::Late => e.steps,
            };
            HaltFinder::new(alloc, most).search(&r.table, most)
        }
        _ => Ok(None),
    }
}

fn right_words(alloc: Global, e: &HaltsIn) -> Result<String, NoMemory> {
    let steps = Quantity::of(e.steps, "step");
    let ones = Quantity::of(e.ones.unwrap_or(0), "one");
    format!(in alloc; "it halts after {steps} with {ones}")
}

/// What a refusal means, in words.
pub fn refused_words(why: Refused) -> &'static str {
    match why {
        Refused::Fails => "it doesn't hold for the table",
        Refused::TooLong => "it asks for more than the limit of its kind",
        Refused::TooWide => "it asks for more paths, or larger numbers, than its check keeps",
        Refused::NotSeen => "its run isn't seen to repeat",
        Refused::NoMemory => "memory is refused",
    }
}

// Words of a line, with its number.
fn numbered(alloc: Global, line: u64, words: &str) -> Result<String, NoMemory> {
    format!(in alloc; "line {line}: {words}\n")
}

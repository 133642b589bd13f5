// `bb explain --json`: records in, an object each out, with what has been shown in words.
ghost use Rattle.std.specs.Prelude.{◌≡◌, ◌⊎◌, ◌∷◌, [], ◌++◌, List, ℕ, IfErr, IfOk, option_map, string_bytes};
ghost use Rattle.cert.specs.Terms.{read_as, recorded};
ghost use Rattle.cmd_lines.specs.Terms.{WritesFirst, lent};
ghost use Rattle.cmd_json.specs.Objects.{AreWordsFor, Finds, FindsRecord, found, outcome_found, SaysTold, AnswersFirstNumbered, AnswersNumbered};

use crate::form::number_behind;
use crate::objects::{append_object, explain_value};
use crate::records::{Finding, fault_found, refusal_found, shown};
use cert::{Judged, Record, RecordFault, judge_on, standing_claims_are_true};
use cmd_explain::words_of;
use cmd_lines::{PIECE_BYTES, Sayer, read_line, say_lines};
use cmd_options::{Ended, Outcome};
use kind_evidence::NoMemory;
use std::alloc::Global;
use std::io::{Read, Write};

/// Explains as `cmd_explain` of `cmd_explain` does, and says each answer with its words as an object of JSON, a line
/// each, with the number of its own line. Where that ends early, what was printed is the answers to the first lines, in full
/// unless a stream failed.
pub fn explain_json_for<R: Read, W: Write>(
    alloc: Global,
    input: &mut R,
    answers: &mut W,
) -> Result<Outcome, Ended>
    ensures ok { IfOk result (AnswersNumbered SaysTold (R.remaining input.old) (R.remaining input.new)
        (W.contents answers.old) (W.contents answers.new)) }
    ensures first { IfErr result (WritesFirst (AnswersFirstNumbered SaysTold (R.remaining input.old)
        (R.remaining input.new)) (W.contents answers.old) (W.contents answers.new)) }
    ensures err { IfErr result (λ e. (e ≡ Ended.NoMemory) ⊎ (e ≡ Ended.Stream)) }
{
    let explainer = Explainer { alloc, lines: 0 };
    let (outcome, _) = say_lines(alloc, explainer, PIECE_BYTES, input, answers)?;
    Ok(outcome)
}

#[derive(Drop)]
struct Explainer {
    alloc: Global,
    // how many lines there were
    lines: u64,
}

impl Sayer for Explainer {
    ghost use Rattle.std.specs.Prelude.{◌≡◌};
    ghost use Rattle.cmd_options.specs.declared.ended.Ended.TheVariants.{NoMemory as WantsMemory};
    ghost use Rattle.cmd_json.specs.Objects.{SaysTold, SaysNumbered};

    ghost takes = { λ old line o new said. SaysNumbered SaysTold old.lines line o new.lines said };

    ghost ends = { λ e. e ≡ WantsMemory };

    fn take_line(&mut self, line: Option<&[u8]>, said: &mut Vec<u8>) -> Result<Outcome, Ended> {
        self.lines = number_behind(self.lines);
        Ok(explain_json_line(self.alloc, self.lines, line, said)?)
    }
}

/// Appends the object that answers the line of this number, which is none where it was too long, with a newline.
pub fn explain_json_line(
    alloc: Global,
    number: u64,
    line: Option<&[u8]>,
    out: &mut Vec<u8>,
) -> Result<Outcome, NoMemory>
    ensures { IfOk result (λ o. (answer : List ℕ) × SaysTold number (lent line.entry) o answer
        × (out.new.items ≡ out.old.items ++ answer ++ 10 ∷ [])) }
{
    let read = read_line(line);
    let told = tell(alloc, &read)?;
    let object = explain_value(alloc, number, line, &read, &told.finding, &told.words)?;
    append_object(alloc, &object, out)?;
    Ok(told.finding.outcome())
}

// What is found of a line, and the words for what has been shown of its record.
#[derive(Drop)]
struct Told {
    finding: Finding,
    words: Option<String>,
}

// What is told of a line, by what was read of it.
fn tell(alloc: Global, read: &Result<Record<'_>, RecordFault>) -> Result<Told, NoMemory>
    ensures finds { IfOk result (λ told. Finds (read_as read.now) (outcome_found (found told.finding))
        (found told.finding)) }
    ensures tells { IfOk result (λ told. AreWordsFor (found told.finding) (option_map string_bytes told.words)) }
{
    match read {
        Ok(record) => tell_record(alloc, record),
        Err(fault) => Ok(Told {
            finding: fault_found(alloc, *fault)?,
            words: None,
        }),
    }
}

// What is told of a record: where it stands, what its check has shown.
fn tell_record(alloc: Global, r: &Record) -> Result<Told, NoMemory>
    ensures finds { IfOk result (λ told. FindsRecord (recorded r.now) (outcome_found (found told.finding))
        (found told.finding)) }
    ensures tells { IfOk result (λ told. AreWordsFor (found told.finding) (option_map string_bytes told.words)) }
{
    standing_claims_are_true();
    // The proof needs that it is a table.
    let _ = r.table.states();
    match judge_on(alloc, r) {
        Ok(judged) => Ok(Told {
            finding: shown(r),
            words: Some(words_in_lines(alloc, r, &judged)?),
        }),
        Err(refused) => Ok(Told {
            finding: refusal_found(alloc, false, r, refused)?,
            words: None,
        }),
    }
}

// The words for a record that stands, each line with its newline.
fn words_in_lines(alloc: Global, r: &Record, judged: &Judged) -> Result<String, NoMemory> {
    let mut words = words_of(alloc, r, judged)?;
    words.push('\n')?;
    Ok(words)
}

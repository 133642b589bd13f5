// The objects that are said to lines.
ghost use Rattle.std.specs.Prelude.{◌≡◌, ◌++◌, ◌∷◌, [], false, IfOk, OnOk, option_map, string_bytes};
ghost use Rattle.serde_json.specs.View.{view};
ghost use Rattle.serde_json.specs.Written.{has_float};
ghost use Rattle.text.specs.Terms.{BoundedLine};
ghost use Rattle.cert.specs.Terms.{read_as};
ghost use Rattle.cmd_lines.specs.Terms.{lent};
ghost use Rattle.cmd_json.specs.Objects.{text_value, words_value, found, check_object, check_object_of, code_found, code_read, decide_object, decide_object_of, ending_name, explain_object, explain_object_of, kind_read, meaning_found, meaning_read, number_value, object_text, ones_found, record_read, steps_found, ending_steps, read_table_text, verdict_found, verdict_read};

use crate::form::{append_ascii, text_value};
use crate::records::{Finding, fault_words};
use cert::{Record, RecordFault};
use kind_evidence::{Ending, NoMemory};
use machine_text::TEXT_BYTES;
use serde_json::{Value, json};
use std::alloc::Global;

/// What is read of a line, or made for it.
pub(crate) type Read<'a> = Result<Record<'a>, RecordFault>;

/// The object of `bb check`.
pub(crate) fn check_value(
    alloc: Global,
    number: u64,
    line: Option<&[u8]>,
    read: &Read<'_>,
    finding: &Finding,
) -> Result<Value, NoMemory>
    ensures { IfOk result (λ object. view object
        ≡ check_object number (lent line.entry) (read_as read.now) (found finding.now)) }
{
    let mut kind = kind_value(alloc, read)?;
    let mut meaning = meaning_value(alloc, finding)?;
    let mut table = table_value(alloc, read)?;
    let mut text = line_value(alloc, line)?;
    check_object_of(
        alloc,
        number,
        finding,
        &mut kind,
        &mut meaning,
        &mut table,
        &mut text,
    )
}

// Makes an object of values that are taken out of their places, so that where memory is refused the object alone is let
// go, and not what isn't in it yet. So do the next two.
fn check_object_of(
    alloc: Global,
    number: u64,
    finding: &Finding,
    kind: &mut Value,
    meaning: &mut Value,
    table: &mut Value,
    text: &mut Value,
) -> Result<Value, NoMemory>
    ensures { IfOk result (λ object. view object ≡ check_object_of number (found finding.now) (view kind.old)
        (view meaning.old) (view table.old) (view text.old)) }
{
    let code = code_found(finding);
    let ones = ones_found(finding);
    let steps = steps_found(finding);
    let verdict = verdict_found(finding);
    json!(in alloc; {
        "code": number_value(code),
        "kind": kind.take(),
        "line": number,
        "meaning": meaning.take(),
        "ones": number_value(ones),
        "steps": number_value(steps),
        "table": table.take(),
        "text": text.take(),
        "verdict": verdict
    })
}

/// The object of `bb explain`.
pub(crate) fn explain_value(
    alloc: Global,
    number: u64,
    line: Option<&[u8]>,
    read: &Read<'_>,
    finding: &Finding,
    words: &Option<String>,
) -> Result<Value, NoMemory>
    ensures { IfOk result (λ object. view object
        ≡ explain_object number (lent line.entry) (read_as read.now) (found finding.now)
        (option_map string_bytes words.now)) }
{
    let mut kind = kind_value(alloc, read)?;
    let mut meaning = meaning_value(alloc, finding)?;
    let mut table = table_value(alloc, read)?;
    let mut text = line_value(alloc, line)?;
    let mut words = told_value(alloc, words)?;
    explain_object_of(
        alloc,
        number,
        finding,
        &mut kind,
        &mut meaning,
        &mut table,
        &mut text,
        &mut words,
    )
}

fn explain_object_of(
    alloc: Global,
    number: u64,
    finding: &Finding,
    kind: &mut Value,
    meaning: &mut Value,
    table: &mut Value,
    text: &mut Value,
    words: &mut Value,
) -> Result<Value, NoMemory>
    ensures { IfOk result (λ object. view object ≡ explain_object_of number (found finding.now) (view kind.old)
        (view meaning.old) (view table.old) (view text.old) (view words.old)) }
{
    let code = code_found(finding);
    let ones = ones_found(finding);
    let steps = steps_found(finding);
    let verdict = verdict_found(finding);
    json!(in alloc; {
        "code": number_value(code),
        "kind": kind.take(),
        "line": number,
        "meaning": meaning.take(),
        "ones": number_value(ones),
        "steps": number_value(steps),
        "table": table.take(),
        "text": text.take(),
        "verdict": verdict,
        "words": words.take()
    })
}

/// The object of `bb decide`.
pub(crate) fn decide_value(
    alloc: Global,
    number: u64,
    line: Option<&[u8]>,
    decided: &Read<'_>,
) -> Result<Value, NoMemory>
    ensures { IfOk result (λ object. view object ≡ decide_object number (lent line.entry) (read_as decided.now)) }
{
    let mut kind = kind_value(alloc, decided)?;
    let mut meaning = meaning_read(alloc, decided)?;
    let mut record = record_value(alloc, decided)?;
    let mut table = table_value(alloc, decided)?;
    let mut text = line_value(alloc, line)?;
    decide_object_of(
        alloc,
        number,
        decided,
        &mut kind,
        &mut meaning,
        &mut record,
        &mut table,
        &mut text,
    )
}

fn decide_object_of(
    alloc: Global,
    number: u64,
    decided: &Read<'_>,
    kind: &mut Value,
    meaning: &mut Value,
    record: &mut Value,
    table: &mut Value,
    text: &mut Value,
) -> Result<Value, NoMemory>
    ensures { IfOk result (λ object. view object ≡ decide_object_of number (read_as decided.now) (view kind.old)
        (view meaning.old) (view record.old) (view table.old) (view text.old)) }
{
    let code = code_read(decided);
    let verdict = verdict_read(decided);
    json!(in alloc; {
        "code": number_value(code),
        "kind": kind.take(),
        "line": number,
        "meaning": meaning.take(),
        "record": record.take(),
        "table": table.take(),
        "text": text.take(),
        "verdict": verdict
    })
}

/// Appends the text of an object that has no number but whole ones, with a newline.
pub(crate) fn append_object(
    alloc: Global,
    object: &Value,
    out: &mut Vec<u8>,
) -> Result<(), NoMemory>
    requires { has_float (view object.now) ≡ false }
    ensures { OnOk result (out.new.items ≡ out.old.items ++ object_text (view object.now) ++ 10 ∷ []) }
{
    let text = object.to_string(alloc)?;
    append_ascii(&text, out)?;
    out.push(b'\n')?;
    Ok(())
}

// A number, or null.
fn number_value(number: Option<u64>) -> Value
    ensures { view result ≡ number_value number }
{
    match number {
        Some(number) => Value::from(number),
        None => Value::Null,
    }
}

// A line, or null where it was too long.
fn line_value(alloc: Global, line: Option<&[u8]>) -> Result<Value, NoMemory>
    ensures { IfOk result (λ text. view text ≡ words_value (lent line.entry)) }
{
    match line {
        Some(line) => text_value(alloc, line),
        None => Ok(Value::Null),
    }
}

// What is told, or null.
fn told_value(alloc: Global, words: &Option<String>) -> Result<Value, NoMemory>
    ensures { IfOk result (λ text. view text ≡ words_value (option_map string_bytes words.now)) }
{
    match words {
        Some(words) => text_value(alloc, words.as_bytes()),
        None => Ok(Value::Null),
    }
}

// The letter of a record's kind, or null.
fn kind_value(alloc: Global, read: &Read<'_>) -> Result<Value, NoMemory>
    ensures { IfOk result (λ kind. view kind ≡ words_value (kind_read (read_as read.now))) }
{
    match read {
        Ok(record) => text_value(alloc, record.certificate.letter()),
        Err(_) => Ok(Value::Null),
    }
}

// The text of a record's table, or null.
fn table_value(alloc: Global, read: &Read<'_>) -> Result<Value, NoMemory>
    ensures { IfOk result (λ table. view table ≡ words_value (read_table_text (read_as read.now))) }
{
    match read {
        Ok(record) => {
            let mut buf = [0; TEXT_BYTES];
            text_value(alloc, record.table.text(&mut buf))
        }
        Err(_) => Ok(Value::Null),
    }
}

// The text of a record, or null.
fn record_value(alloc: Global, read: &Read<'_>) -> Result<Value, NoMemory>
    ensures { IfOk result (λ text. view text ≡ words_value (record_read (read_as read.now))) }
{
    match read {
        Ok(record) => {
            let mut text = Vec::new(alloc);
            record.write_text(&mut text)?;
            text_value(alloc, &text)
        }
        Err(_) => Ok(Value::Null),
    }
}

// The word for how a run ends.
fn ending_name(ending: Option<Ending>) -> &'static str
    ensures { result.now ≡ ending_name ending }
{
    match ending {
        Some(Ending::Halts(_)) => "halts",
        Some(Ending::Never) => "never",
        None => "undecided",
    }
}

fn verdict_found(finding: &Finding) -> &'static str
    ensures { result.now ≡ verdict_found (found finding.now) }
{
    match finding {
        Finding::Shows { ending, .. } => ending_name(*ending),
        Finding::Refuses { .. } => "refused",
    }
}

fn steps_found(finding: &Finding) -> Option<u64>
    ensures { result ≡ steps_found (found finding.now) }
{
    match finding {
        Finding::Shows {
            ending: Some(Ending::Halts(steps)),
            ..
        } => Some(*steps),
        _ => None,
    }
}

fn ones_found(finding: &Finding) -> Option<u64>
    ensures { result ≡ ones_found (found finding.now) }
{
    match finding {
        Finding::Shows { ones, .. } => *ones,
        Finding::Refuses { .. } => None,
    }
}

fn code_found(finding: &Finding) -> Option<u64>
    ensures { result ≡ code_found (found finding.now) }
{
    match finding {
        Finding::Shows { .. } => None,
        Finding::Refuses { number, .. } => Some(u64::from(*number)),
    }
}

fn meaning_value(alloc: Global, finding: &Finding) -> Result<Value, NoMemory>
    ensures { IfOk result (λ meaning. view meaning ≡ words_value (meaning_found (found finding.now))) }
{
    match finding {
        Finding::Refuses { meaning, .. } => text_value(alloc, meaning.as_bytes()),
        Finding::Shows { .. } => Ok(Value::Null),
    }
}

fn verdict_read(read: &Read<'_>) -> &'static str
    ensures { result.now ≡ verdict_read (read_as read.now) }
{
    match read {
        Ok(record) => ending_name(record.certificate.ending()),
        Err(_) => "refused",
    }
}

fn code_read(read: &Read<'_>) -> Option<u64>
    ensures { result ≡ code_read (read_as read.now) }
{
    match read {
        Ok(_) => None,
        Err(fault) => Some(u64::from(fault.number())),
    }
}

fn meaning_read(alloc: Global, read: &Read<'_>) -> Result<Value, NoMemory>
    ensures { IfOk result (λ meaning. view meaning ≡ words_value (meaning_read (read_as read.now))) }
{
    match read {
        Ok(_) => Ok(Value::Null),
        Err(fault) => {
            let words = fault_words(alloc, *fault)?;
            text_value(alloc, words.as_bytes())
        }
    }
}

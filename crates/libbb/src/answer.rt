// What is said of a record's text.
ghost use Rattle.std.specs.Prelude.{◌≡◌, ◌∷◌, [], Ok};
ghost use Rattle.machine_text.specs.Terms.{entry_of};
ghost use Rattle.law_turing.specs.Terms.{Never, HaltsWith};
ghost use Rattle.cert.specs.Terms.{Recorded, record_of, kind_text, recorded, claim_of};
ghost use Rattle.libbb.specs.Answer.{TellsOfRead, TellsOfRecord, outcome_alone, flag, shown_answer, refused_answer, unread, unread_table};

use cert::{Certificate, Record, RecordFault, judge, standing_claims_are_true};
use kind_evidence::Verdict;
use machine_text::TextFault;
use std::alloc::Global;

/// The table halts.
pub const HALTS: u32 = 0;

/// The table never halts.
pub const NEVER: u32 = 1;

/// Nothing is claimed of the table.
pub const UNDECIDED: u32 = 2;

/// The text is no record, or its certificate doesn't stand within the limits of its kind.
pub const REFUSED: u32 = 3;

/// Memory was refused.
pub const NO_MEMORY: u32 = 4;

/// What is said of a record's text. A number that an outcome doesn't speak of is 0.
#[repr(C)]
#[derive(Clone, Copy, Debug, PartialEq, Eq)]
pub struct Answer {
    /// The number of steps in which the table halts.
    pub steps: u64,
    /// The ones on its tape then, whether the record says them or not: its score (Radó 1962).
    pub ones: u64,
    /// Where the fault of the table's text is: so many bytes stand before it.
    pub place: u64,
    /// One of the outcomes above.
    pub outcome: u32,
    /// The number of the refusal.
    pub code: u32,
    /// The number of the fault of the table's text, where that is no table.
    pub table_code: u32,
    /// Whether that fault has a place: 1 or 0.
    pub has_place: u32,
    /// Whether the record says the ones: 1 or 0.
    pub has_ones: u32,
    /// The letter of the record's kind, a byte.
    pub kind: u32,
}

/// Judges a record's text. Memory may be refused only where the check of the record's kind takes some.
pub fn check_text(alloc: Global, text: &[u8]) -> Answer
    ensures answers { TellsOfRead (record_of text.now) result }
    ensures halts { result.outcome ≡ 0 → (r : Recorded) × (record_of text.now ≡ Ok r)
        × HaltsWith (entry_of r.table) result.steps result.ones }
    ensures never { result.outcome ≡ 1 → (r : Recorded) × (record_of text.now ≡ Ok r) × Never (entry_of r.table) }
{
    match Record::parse(text) {
        Ok(record) => check_record(alloc, &record),
        Err(fault) => unread(fault),
    }
}

/// Judges a record.
pub fn check_record(alloc: Global, r: &Record) -> Answer
    ensures { TellsOfRecord (recorded r.now) result }
{
    standing_claims_are_true();
    // The proof needs that it is a table.
    let _ = r.table.states();
    let kind = letter(&r.certificate);
    match judge(alloc, r) {
        Ok(verdict) => shown_answer(verdict, r.certificate.ones(), kind),
        Err(refusal) => match refusal.number() {
            Some(number) => refused_answer(u32::from(number), kind),
            None => outcome_alone(NO_MEMORY, kind),
        },
    }
}

// The letter of a certificate's kind.
fn letter(certificate: &Certificate) -> u32
    ensures { kind_text (claim_of certificate.now) ≡ result ∷ [] }
{
    let letter = certificate.letter();
    u32::from(letter[0])
}

// What a certificate that stands shows.
fn shown_answer(verdict: Option<Verdict>, score: Option<u64>, kind: u32) -> Answer
    ensures { result ≡ shown_answer verdict score kind }
{
    match verdict {
        Some(Verdict::Halts { steps, ones }) => Answer {
            steps,
            ones,
            has_ones: flag(score),
            ..outcome_alone(HALTS, kind)
        },
        Some(Verdict::Never) => outcome_alone(NEVER, kind),
        None => outcome_alone(UNDECIDED, kind),
    }
}

/// Whether there is a number: 1 or 0.
pub(crate) fn flag(number: Option<u64>) -> u32
    ensures { result ≡ flag number }
{
    match number {
        Some(_) => 1,
        None => 0,
    }
}

// An outcome alone.
fn outcome_alone(outcome: u32, kind: u32) -> Answer
    ensures { result ≡ outcome_alone outcome kind }
{
    Answer {
        steps: 0,
        ones: 0,
        place: 0,
        outcome,
        code: 0,
        table_code: 0,
        has_place: 0,
        has_ones: 0,
        kind,
    }
}

// Why a certificate is refused, or a text no record.
fn refused_answer(code: u32, kind: u32) -> Answer
    ensures { result ≡ refused_answer code kind }
{
    Answer {
        code,
        ..outcome_alone(REFUSED, kind)
    }
}

// Why a text is no record.
fn unread(fault: RecordFault) -> Answer
    ensures { result ≡ unread fault }
{
    let code = u32::from(fault.number());
    match fault {
        RecordFault::BadTable(fault) => unread_table(code, fault),
        _ => refused_answer(code, 0),
    }
}

// Why a text has no table.
fn unread_table(code: u32, fault: TextFault) -> Answer
    ensures { result ≡ unread_table code fault }
{
    let table_code = u32::from(fault.number());
    match fault.place() {
        Some(place) => Answer {
            table_code,
            has_place: 1,
            place: place as u64,
            ..refused_answer(code, 0)
        },
        None => Answer {
            table_code,
            ..refused_answer(code, 0)
        },
    }
}

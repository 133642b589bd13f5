// `bb report`: a ledger in, its report out; and where ledgers are read from.
ghost use Rattle.std.specs.Prelude.{IfOk, ◌≡◌, ◌^◌, ◌-◌, ℕ, List, IfErr, OnOk, Ok, Err, Option, Result, false};
ghost use Rattle.std.specs.Io.KnownBytes.{Appends};
ghost use Rattle.cmd_ledgers.specs.Merge.{IsLoaded, IsAt, ReportsFrom, SaysWhy, WritesReport};
ghost use Rattle.cmd_options.specs.declared.ended.Outcome.{Outcome as Outcomes};
ghost use Rattle.cmd_options.specs.declared.ended.Ended.{Ended as Ends};
ghost use Rattle.cmd_options.specs.Terms.{EndsTold, PrintsNothing};
ghost use Rattle.cmd_ledgers.specs.LedgerReport.{outcome_by, AreFirstBytes};

use crate::board_report::{ReportForm, write_report};
use crate::reading::load_from;
use cmd_options::{Ended, Outcome, Stopped, ended_by, told};
use files::{Files, Opened};
use kind_evidence::NoMemory;
use ledger::{Board, Left, Status, Unkept};
use std::alloc::Global;
use std::io::{self, Read, Write};

/// Where a ledger is read from.
pub trait LedgerSource {
    ghost use Rattle.std.specs.Prelude.{List, ℕ, IfOk};
    ghost use Rattle.cmd_ledgers.specs.LedgerReport.{AreFirstBytes};

    /// What it is read by.
    type Reader: Read + Drop;

    /// What it may hold.
    ghost reads: { Self → List ℕ → Type 0 };

    /// Opens it, to be read as far as it goes then.
    fn open(&self) -> Result<Opened<Self::Reader>, Ended>
        ensures { IfOk result (λ opened. (text : List ℕ)
            → AreFirstBytes (Self.Reader.remaining opened.reader) opened.length text → reads self.now text) };

    /// What ends a command of which a read of it fails.
    fn failed(&self, fault: &io::Error) -> Ended;
}

// A ledger by its path.
#[derive(Drop)]
pub(crate) struct AtPath<'a, H> {
    pub host: &'a H,
    pub path: &'a str,
}

impl<H: Files> LedgerSource for AtPath<'_, H> {
    ghost use Rattle.cmd_ledgers.specs.Merge.{IsAt};

    type Reader = H::Reader;

    ghost reads = { λ source. IsAt (H.holds source.host.now source.path.now) };

    fn open(&self) -> Result<Opened<H::Reader>, Ended> {
        match self.host.open_to_end(self.path) {
            Ok(file) => Ok(file),
            Err(fault) => Err(self.failed(&fault)),
        }
    }

    fn failed(&self, fault: &io::Error) -> Ended {
        ended_by(fault, Ended::File)
    }
}

// The board of a ledger, and what of it wasn't kept.
pub(crate) fn load_source<S: LedgerSource>(
    alloc: Global,
    source: &S,
) -> Result<(Board, Left), Ended>
    ensures { IfOk result (λ l. IsLoaded (S.reads source.now) l) }
{
    let mut opened = source.open()?;
    match load_from(alloc, &mut opened.reader, opened.length) {
        Ok(loaded) => Ok(loaded),
        Err(Stopped::Failed(fault)) => Err(source.failed(&fault)),
        Err(Stopped::Ended(ended)) => Err(ended),
    }
}

/// Prints the report of the ledger at a path in a form, as far as the file goes when it is opened. With `why`, where
/// not all of it could be kept, says on `faults` why the first line that isn't kept isn't. What ends the command early
/// is said on `faults`: a failed file or stream, a ledger that can't be loaded, or refused memory.
pub fn cmd_report<H: Files, P: ReportForm, W: Write, E: Write>(
    alloc: Global,
    form: &P,
    why: bool,
    path: &str,
    host: &H,
    answers: &mut W,
    faults: &mut E,
) -> Outcome
    ensures { (ended : Result Outcomes Ends) × (said : Option (List ℕ))
        × ReportsFrom (P.is_text form.now) (IsAt (H.holds host.now path.now)) (W.contents answers.old)
        (W.contents answers.new) ended
        × SaysWhy why ended (E.contents faults.old) said × EndsTold ended said (E.contents faults.new) result }
{
    told(
        report_at(alloc, form, why, path, host, answers, faults),
        faults,
    )
}

/// Prints the report of the ledger that a stream has up to its end, as `cmd_report` does that of a file.
pub fn cmd_report_stream<P: ReportForm, R: Read, W: Write, E: Write>(
    alloc: Global,
    form: &P,
    why: bool,
    input: &mut R,
    answers: &mut W,
    faults: &mut E,
) -> Outcome
    ensures { (ended : Result Outcomes Ends) × (said : Option (List ℕ))
        × ReportsFrom (P.is_text form.now) (AreFirstBytes (R.remaining input.old) (2 ^ 64 - 1))
        (W.contents answers.old) (W.contents answers.new) ended
        × SaysWhy why ended (E.contents faults.old) said × EndsTold ended said (E.contents faults.new) result }
{
    told(
        report_stream(alloc, form, why, input, answers, faults),
        faults,
    )
}

// What `cmd_report` does, but that what ends it early isn't said.
fn report_at<H: Files, P: ReportForm, W: Write, E: Write>(
    alloc: Global,
    form: &P,
    why: bool,
    path: &str,
    host: &H,
    answers: &mut W,
    faults: &mut E,
) -> Result<Outcome, Ended>
    ensures reports { ReportsFrom (P.is_text form.now) (IsAt (H.holds host.now path.now))
        (W.contents answers.old) (W.contents answers.new) result }
    ensures says { SaysWhy why result (E.contents faults.old) (E.contents faults.new) }
{
    let (board, left) = load_source(alloc, &AtPath { host, path })?;
    report_loaded(alloc, form, why, &board, &left, answers, faults)
}

// What `cmd_report_stream` does, but that what ends it early isn't said.
fn report_stream<P: ReportForm, R: Read, W: Write, E: Write>(
    alloc: Global,
    form: &P,
    why: bool,
    input: &mut R,
    answers: &mut W,
    faults: &mut E,
) -> Result<Outcome, Ended>
    ensures reports { ReportsFrom (P.is_text form.now) (AreFirstBytes (R.remaining input.old) (2 ^ 64 - 1))
        (W.contents answers.old) (W.contents answers.new) result }
    ensures says { SaysWhy why result (E.contents faults.old) (E.contents faults.new) }
{
    let (board, left) = load_stream(alloc, input, u64::MAX)?;
    report_loaded(alloc, form, why, &board, &left, answers, faults)
}

// The board of the ledger that a stream has in its first bytes, up to a limit, and what of it wasn't kept.
fn load_stream<R: Read>(alloc: Global, input: &mut R, limit: u64) -> Result<(Board, Left), Ended>
    ensures { IfOk result (λ l. IsLoaded (AreFirstBytes (R.remaining input.old) limit) l) }
{
    match load_from(alloc, input, limit) {
        Ok(loaded) => Ok(loaded),
        Err(Stopped::Failed(fault)) => Err(ended_by(&fault, Ended::Stream)),
        Err(Stopped::Ended(ended)) => Err(ended),
    }
}

// Prints the report of a board, and says why something of its ledger wasn't kept, where that is asked for.
fn report_loaded<P: ReportForm, W: Write, E: Write>(
    alloc: Global,
    form: &P,
    why: bool,
    board: &Board,
    left: &Left,
    answers: &mut W,
    faults: &mut E,
) -> Result<Outcome, Ended>
    ensures ok { IfOk result (WritesReport (P.is_text form.now) board.now left.now (W.contents answers.old)
        (W.contents answers.new)) }
    ensures err { IfErr result (λ e. PrintsNothing e (W.contents answers.old) (W.contents answers.new)) }
    ensures says { SaysWhy why result (E.contents faults.old) (E.contents faults.new) }
{
    let reason = reason_for(alloc, why, left)?;
    let outcome = report_board(alloc, form, board, left, answers)?;
    say(&reason, faults)?;
    Ok(outcome)
}

/// Writes the report of a board in a form, and answers how a command ends by it. Where memory is refused, nothing was
/// written.
pub fn report_board<P: ReportForm, W: Write>(
    alloc: Global,
    form: &P,
    board: &Board,
    left: &Left,
    answers: &mut W,
) -> Result<Outcome, Ended>
    ensures ok { IfOk result (WritesReport (P.is_text form.now) board.now left.now (W.contents answers.old)
        (W.contents answers.new)) }
    ensures err { IfErr result (λ e. PrintsNothing e (W.contents answers.old) (W.contents answers.new)) }
{
    // The proof needs that it is a board.
    let _ = board.root();
    write_report(alloc, form, board, left, answers)?;
    Ok(outcome_by(board.status(), left))
}

// What is to be said of why a line wasn't kept; nothing where all was, or that isn't asked for.
fn reason_for(alloc: Global, why: bool, left: &Left) -> Result<Option<String>, NoMemory>
    ensures { IfOk result (λ reason. why ≡ false → reason ≡ None) }
{
    match left {
        Left::From {
            line,
            why: reason,
            ..
        } if why => Ok(Some(reason_line(alloc, *line, reason)?)),
        _ => Ok(None),
    }
}

// Why a line wasn't kept: the refusal number, if there is one, and words.
fn reason_line(alloc: Global, line: u64, reason: &Unkept) -> Result<String, NoMemory> {
    match refusal_number(reason) {
        Some(number) => format!(in alloc; "line {line} isn't kept: {number}, {reason}\n"),
        None => format!(in alloc; "line {line} isn't kept: {reason}\n"),
    }
}

fn refusal_number(why: &Unkept) -> Option<u16> {
    match why {
        Unkept::Unread(fault) => Some(fault.number()),
        Unkept::Unfit(fault) => fault.number(),
        Unkept::Torn | Unkept::Repeated => None,
    }
}

// Says a reason, if there is one.
fn say<E: Write>(reason: &Option<String>, faults: &mut E) -> Result<(), Ended>
    ensures none { reason.now ≡ None → (result ≡ Ok tt) × (E.contents faults.new ≡ E.contents faults.old) }
    ensures ok { OnOk result ((text : List ℕ) × Appends (E.contents faults.old) (E.contents faults.new) text) }
    ensures err { IfErr result (λ e. e ≡ Ended.Stream) }
{
    match reason {
        Some(reason) => {
            faults.write_all(reason.as_bytes())?;
            Ok(())
        }
        None => Ok(()),
    }
}

/// Accepted where a board is complete and all of its ledger was kept.
pub fn outcome_by(status: Status, left: &Left) -> Outcome
    ensures { result ≡ outcome_by status left.now }
{
    match (status, left) {
        (Status::Complete { .. }, Left::Nothing) => Outcome::Accepted,
        _ => Outcome::Refused,
    }
}

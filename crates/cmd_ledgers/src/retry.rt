// `bb retry`: the holdouts of a ledger are tried again, and lines are gathered that it gains.
ghost use Rattle.std.specs.Prelude.{◌≡◌, [], OnErr, OnOk, IfErr, Some, ◌⊎◌, IfOk, List, Option, Result, ℕ};
ghost use Rattle.cmd_ledgers.specs.Retry.{HasGrown, HasPartOf, KeepsInStep, AtSomeTime, ChangesBy, LeavesRetried, LeavesTried, IsTried, AreRetried, MayTry, LeavesLedger, MayBeCut, kept_part, RetriesAt, RetriesLedger, RetriesWhole};
ghost use Rattle.wire.specs.Terms.{IsBegun, grown, kept_text, cut_to};
ghost use Rattle.cert.specs.Terms.{IsShownBy, ending_by, recorded};
ghost use Rattle.ledger.specs.Terms.{IsHoldout, Contents};
ghost use Rattle.cmd_options.specs.declared.ended.Outcome.{Outcome as Outcomes};
ghost use Rattle.cmd_options.specs.declared.ended.Ended.{Ended as Ends};
ghost use Rattle.cmd_options.specs.Terms.{EndsTold, PrintsNothing};
ghost use Rattle.files.specs.Terms.{IsKeptBut};

use crate::board_report::AsLines;
use crate::ledger_report::report_board;
use crate::reading::{cut_off, load_held, open_held};
use cert::{Decided, Decider, Judged, Record};
use cmd_options::{Ended, LedgerFile, Outcome, told};
use files::{Files, Opened, Progress, ledger_at, lock_ledger};
use kind_evidence::NoMemory;
use ledger::{Board, Left};
use machine_text::Table;
use std::alloc::Global;
use std::io::{Read, Write};
use wire::{LedgerOut, Out, append_all, begin};

// Lines of so many bytes are written.
const PIECE_BYTES: usize = 4_096;

/// Appends the lines that are gathered to a ledger; then none are.
pub fn write_lines<L: LedgerOut>(ledger: &mut L, lines: &mut Vec<u8>) -> Result<(), Ended>
    ensures ok { OnOk result ((L.text ledger.new ≡ grown (L.text ledger.old) lines.old.items)
        × (lines.new.items ≡ [])) }
    ensures err { OnErr result (IsBegun (L.text ledger.old) lines.old.items (L.text ledger.new)) }
{
    append_to(ledger, lines)?;
    lines.clear();
    Ok(())
}

/// Appends the lines that are gathered to a ledger where that is due, or where they have 4,096 bytes.
pub fn write_due<L: LedgerOut>(
    ledger: &mut L,
    lines: &mut Vec<u8>,
    is_due: bool,
) -> Result<(), Ended>
    ensures whole { OnOk result (grown (L.text ledger.new) lines.new.items
        ≡ grown (L.text ledger.old) lines.old.items) }
    ensures grown { OnOk result (HasGrown (L.text ledger.old) (L.text ledger.new)) }
    ensures err { OnErr result (IsBegun (L.text ledger.old) lines.old.items (L.text ledger.new)) }
{
    if is_piece(lines, is_due) {
        write_lines(ledger, lines)
    } else {
        Ok(())
    }
}

// Whether lines are to be written.
fn is_piece(lines: &[u8], is_due: bool) -> bool {
    is_due || lines.len() >= PIECE_BYTES
}

/// Carries out the ledger's part of an answer: its cut, and then what is to be appended, whole. A ledger that fails
/// ends the command.
pub fn keep_answer<L: LedgerOut>(out: &Out, ledger: &mut L) -> Result<(), Ended>
    ensures ok { OnOk result (L.text ledger.new ≡ kept_text out.now (L.text ledger.old)) }
    ensures err { IfErr result (λ e. e ≡ Ended.Ledger) }
{
    match begin(out, ledger) {
        Ok(()) => Ok(()),
        Err(_) => Err(Ended::Ledger),
    }
}

// Cuts a ledger to its first bytes.
pub(crate) fn cut_to<L: LedgerOut>(ledger: &mut L, len: u64) -> Result<(), Ended>
    ensures ok { OnOk result (L.text ledger.new ≡ cut_to (Some len) (L.text ledger.old)) }
    ensures err { IfErr result (λ e. e ≡ Ended.Ledger) }
{
    match ledger.cut(len) {
        Ok(()) => Ok(()),
        Err(_) => Err(Ended::Ledger),
    }
}

// Appends all of the bytes to a ledger.
pub(crate) fn append_to<L: LedgerOut>(ledger: &mut L, bytes: &[u8]) -> Result<(), Ended>
    ensures ok { OnOk result (L.text ledger.new ≡ grown (L.text ledger.old) bytes.now) }
    ensures err { IfErr result (λ e. e ≡ Ended.Ledger) }
    ensures begun { OnErr result (IsBegun (L.text ledger.old) bytes.now (L.text ledger.new)) }
{
    match append_all(ledger, bytes) {
        Ok(()) => Ok(()),
        Err(_) => Err(Ended::Ledger),
    }
}

/// Cuts a ledger file, which has to be there, to the bytes that are kept of it, asks the decider for each of its
/// holdouts in the order of their texts, and appends a line for each that is resolved. Then it prints the report:
/// accepted where that says complete. What becomes open stays open. The ledger is locked before it is read; where
/// another process has it locked, nothing is done. What ends the command early is said on `faults`.
pub fn cmd_retry<H: Files, D: Decider, P: Progress, W: Write, E: Write>(
    alloc: Global,
    file: LedgerFile<'_>,
    host: &mut H,
    decider: &mut D,
    progress: &mut P,
    answers: &mut W,
    faults: &mut E,
) -> Outcome
    ensures others { IsKeptBut (H.tells_same host.old) file.entry.path.now (H.holds host.old) (H.holds host.new) }
    ensures retries { (ended : Result Outcomes Ends)
        × RetriesAt (AtSomeTime D D.answers) (H.locks file.entry.path.now)
        (H.tells_same host.old) file.entry.path.now (H.holds host.old) (H.holds host.new)
        (W.contents answers.old) (W.contents answers.new) ended
        × EndsTold ended (E.contents faults.old) (E.contents faults.new) result }
{
    told(
        retry_at(alloc, file, host, decider, progress, answers),
        faults,
    )
}

// Retries as `cmd_retry` does, but answers what ends it early, and doesn't say it.
fn retry_at<H: Files, D: Decider, P: Progress, W: Write>(
    alloc: Global,
    file: LedgerFile<'_>,
    host: &mut H,
    decider: &mut D,
    progress: &mut P,
    answers: &mut W,
) -> Result<Outcome, Ended>
    ensures others { IsKeptBut (H.tells_same host.old) file.entry.path.now (H.holds host.old) (H.holds host.new) }
    ensures retries { RetriesAt (AtSomeTime D D.answers) (H.locks file.entry.path.now)
        (H.tells_same host.old) file.entry.path.now (H.holds host.old) (H.holds host.new)
        (W.contents answers.old) (W.contents answers.new) result }
{
    let _lock = lock_ledger(host, file.path)?;
    let held = open_held(host, file.path)?;
    let mut ledger = ledger_at(host, &file)?;
    let retried = retry_ledger(alloc, held, &mut ledger, decider, progress, answers);
    host.close(file.path, ledger);
    retried
}

/// Cuts a ledger to the bytes that are kept of it, tries its holdouts as `retry_holdouts` does, and prints the report.
/// `held` reads what the ledger holds. What ends it early leaves in the ledger what was resolved before.
pub fn retry_ledger<F: Read + Drop, L: LedgerOut, D: Decider, P: Progress, W: Write>(
    alloc: Global,
    held: Opened<F>,
    ledger: &mut L,
    decider: &mut D,
    progress: &mut P,
    answers: &mut W,
) -> Result<Outcome, Ended>
    ensures retries { IfOk result (RetriesLedger (AtSomeTime D D.answers) (F.remaining held.reader) held.length
        (L.text ledger.old) (L.text ledger.new) (W.contents answers.old) (W.contents answers.new)) }
    ensures silent { IfErr result (λ e. PrintsNothing e (W.contents answers.old) (W.contents answers.new)) }
    ensures leaves { OnErr result (LeavesLedger (LeavesRetried (AtSomeTime D D.answers)) (F.remaining held.reader)
        held.length (L.text ledger.old) (L.text ledger.new)) }
{
    let (mut board, left) = load_held(alloc, held)?;
    retry_loaded(alloc, &mut board, &left, ledger, decider, progress, answers)
}

// Retries from the board of the ledger, and what of it wasn't kept.
fn retry_loaded<L: LedgerOut, D: Decider, P: Progress, W: Write>(
    alloc: Global,
    board: &mut Board,
    left: &Left,
    ledger: &mut L,
    decider: &mut D,
    progress: &mut P,
    answers: &mut W,
) -> Result<Outcome, Ended>
    ensures retries { IfOk result (RetriesWhole (AtSomeTime D D.answers) board.old left.now (L.text ledger.old)
        (L.text ledger.new) (W.contents answers.old) (W.contents answers.new)) }
    ensures silent { IfErr result (λ e. PrintsNothing e (W.contents answers.old) (W.contents answers.new)) }
    ensures leaves { OnErr result (MayBeCut left.now (L.text ledger.old) (L.text ledger.new)
        ⊎ ((new : Contents) × LeavesRetried (AtSomeTime D D.answers) board.old
        (kept_part left.now (L.text ledger.old)) new (L.text ledger.new))) }
{
    cut_off(left, ledger)?;
    retry_holdouts(alloc, board, decider, ledger, progress)?;
    report_board(alloc, &AsLines, board, &Left::Nothing, answers)
}

/// Asks the decider for each holdout of a board, in the order of their texts. What it answers is taken where
/// it has a verdict, and its line is gathered for the ledger in the ledger's version; the lines are written once they are a
/// piece, and at the end, so that a ledger that was in step with the board is so again. Else nothing changes. What ends it
/// early, refused memory or a ledger that failed, leaves what was resolved before; where the ledger failed, that has a
/// beginning of its lines. It is told of the board before each of them.
pub fn retry_holdouts<L: LedgerOut, D: Decider, P: Progress>(
    alloc: Global,
    board: &mut Board,
    decider: &mut D,
    ledger: &mut L,
    progress: &mut P,
) -> Result<(), Ended>
    ensures kept { KeepsInStep result board.old (L.text ledger.old) board.new (L.text ledger.new) }
    ensures order { OnOk result (AreRetried (AtSomeTime D D.answers) board.old (L.text ledger.old) board.new
        (L.text ledger.new)) }
    ensures leaves { OnErr result (LeavesTried (AtSomeTime D D.answers) board.old (L.text ledger.old) board.new
        (L.text ledger.new)) }
{
    let mut lines = Vec::new(alloc);
    for table in board.holdouts()? {
        progress.tell(board);
        retry(alloc, board, decider, &table, &mut lines, ledger, progress)?;
    }
    write_lines(ledger, &mut lines)
}

// Asks the decider for a holdout. The lines that are gathered are written where they are due, and before anything that ends
// it early.
fn retry<L: LedgerOut, D: Decider, P: Progress>(
    alloc: Global,
    board: &mut Board,
    decider: &mut D,
    t: &Table,
    lines: &mut Vec<u8>,
    ledger: &mut L,
    progress: &mut P,
) -> Result<(), Ended>
    requires { IsHoldout board.old.records t.now }
    ensures kept { KeepsInStep result board.old (grown (L.text ledger.old) lines.old.items) board.new
        (grown (L.text ledger.new) lines.new.items) }
    ensures tried { OnOk result (IsTried (AtSomeTime D D.answers) board.old.format t.now board.old.records
        (grown (L.text ledger.old) lines.old.items) board.new.records (grown (L.text ledger.new) lines.new.items)) }
    ensures grown { OnOk result (HasGrown (L.text ledger.old) (L.text ledger.new)) }
    ensures leaves { OnErr result ((whole : Option (List ℕ))
        × MayTry (AtSomeTime D D.answers) board.old.format t.now board.old.records
        (grown (L.text ledger.old) lines.old.items) board.new.records whole
        × HasPartOf whole (L.text ledger.old) (L.text ledger.new)) }
{
    // The proof needs that it is a board.
    let _ = board.root();
    match try_again(alloc, board, decider, t, lines) {
        Ok(()) => write_due(ledger, lines, progress.is_due()),
        Err(_) => {
            write_lines(ledger, lines)?;
            Err(Ended::NoMemory)
        }
    }
}

// Asks the decider for a holdout, and gathers the line of what it answers where that is taken.
fn try_again<D: Decider>(
    alloc: Global,
    board: &mut Board,
    decider: &mut D,
    t: &Table,
    lines: &mut Vec<u8>,
) -> Result<(), NoMemory>
    requires { IsHoldout board.old.records t.now }
    ensures root { board.new.root ≡ board.old.root }
    ensures format { board.new.format ≡ board.old.format }
    ensures tried { OnOk result (IsTried (AtSomeTime D D.answers) board.old.format t.now board.old.records
        (Some lines.old.items) board.new.records (Some lines.new.items)) }
    ensures err { OnErr result ((board.new.records ≡ board.old.records) × (lines.new.items ≡ lines.old.items)) }
{
    let Decided {
        record: made,
        judged,
    } = decider.decide_judged(alloc, t)?;
    let record = Record {
        table: made.table,
        certificate: made.certificate.lent(),
    };
    take(board, &record, judged, lines)
}

// Offers a judged record of a holdout, and gathers its line where it is taken, with its score in version 2.
fn take(board: &mut Board, r: &Record, judged: Judged, lines: &mut Vec<u8>) -> Result<(), NoMemory>
    requires holdout { IsHoldout board.old.records (recorded r.now).table }
    requires shown { IsShownBy (recorded r.now) judged }
    ensures root { board.new.root ≡ board.old.root }
    ensures format { board.new.format ≡ board.old.format }
    ensures changes { OnOk result (ChangesBy board.old.format (ending_by (recorded r.now).claim) (recorded r.now)
        board.old.records (Some lines.old.items) board.new.records (Some lines.new.items)) }
    ensures err { OnErr result ((board.new.records ≡ board.old.records) × (lines.new.items ≡ lines.old.items)) }
{
    match board.offer_judged_line(r, judged, lines) {
        // none is new: that is for an open table alone
        Ok(_) => Ok(()),
        // it is certified, and of a table of the board, so it was memory
        Err(_) => Err(NoMemory),
    }
}

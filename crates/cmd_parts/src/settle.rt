// `bb settle`: open tables are settled, and their lines appended to the ledger, until none is open.
ghost use Rattle.std.specs.Prelude.{◌≡◌, ◌⊎◌, ◌++◌, IfErr, IfSome, OnErr, OnOk, List, ℕ, ◌≤◌, ◌<◌, ◌+◌, ◌^◌, IfOk, IfNone, Option, Some, filter, length};
ghost use Rattle.std.specs.Io.KnownBytes.{Appends};
ghost use Rattle.ledger.specs.Terms.{Contents, IsOpenOn, IsFit, IsLedgerOf, ReadsIn, AreAll};
ghost use Rattle.cmd_ledgers.specs.Terms.{AtSomeTime, LeavesLedger, MayBeCut, kept_part, HasGrown, HasPartOf, StaysInStep, gained};
ghost use Rattle.cmd_options.specs.Terms.{PrintsNothing};
ghost use Rattle.cmd_parts.specs.Settle.{SettlesLedger, SettlesWhole, settled_text, ComesFirst, LeavesSettled, IsOpenBelow, LeavesPart, MaySettle, SettlesMany, SettlesOne, filled_count, with_last};
ghost use Rattle.files.specs.Terms.{IsKeptBut};
ghost use Rattle.cmd_parts.specs.AtPaths.{SettlesAt};
ghost use Rattle.machine_text.specs.Terms.{Packed};
ghost use Rattle.cert.specs.Terms.{IsShownBy, recorded};
ghost use Rattle.wire.specs.Terms.{IsBegun, grown};
ghost use Rattle.cmd_parts.specs.inside.{is_below};

use cert::{Decided, Decider, Judged, Record};
use cmd_ledgers::{cut_off, load_held, open_held, write_due, write_lines};
use cmd_options::{Ended, LedgerFile};
use files::{Files, Opened, Progress, ledger_at, lock_ledger};
use kind_evidence::NoMemory;
use ledger::{Board, Left, Open, Taken, Tally};
use machine_text::Table;
use std::alloc::Global;
use std::io::{Read, Write};
use text::append_number;
use wire::{LedgerOut, append_all};

/// Cuts a ledger to the bytes that are kept of it, and settles its board: the first open table in text order is decided,
/// and its record appended, until no table is open. Then it prints how many tables it settled, and how many holdouts
/// there are. `held` reads what the ledger holds. What ends it early leaves in the ledger what was settled before.
pub fn settle_ledger<F: Read + Drop, L: LedgerOut, D: Decider, P: Progress, W: Write>(
    alloc: Global,
    held: Opened<F>,
    ledger: &mut L,
    decider: &mut D,
    progress: &mut P,
    answers: &mut W,
) -> Result<(), Ended>
    ensures settles { OnOk result (SettlesLedger (AtSomeTime D D.answers) (F.remaining held.reader) held.length
        (L.text ledger.old) (L.text ledger.new) (W.contents answers.old) (W.contents answers.new)) }
    ensures silent { IfErr result (λ e. PrintsNothing e (W.contents answers.old) (W.contents answers.new)) }
    ensures leaves { OnErr result (LeavesLedger (LeavesSettled (AtSomeTime D D.answers) ComesFirst)
        (F.remaining held.reader) held.length (L.text ledger.old) (L.text ledger.new)) }
{
    let (mut board, left) = load_held(alloc, held)?;
    settle_loaded(alloc, &mut board, &left, ledger, decider, progress, answers)
}

// Settles from the board of the ledger, and what of it wasn't kept.
fn settle_loaded<L: LedgerOut, D: Decider, P: Progress, W: Write>(
    alloc: Global,
    board: &mut Board,
    left: &Left,
    ledger: &mut L,
    decider: &mut D,
    progress: &mut P,
    answers: &mut W,
) -> Result<(), Ended>
    ensures settled { OnOk result ((told : List ℕ)
        × SettlesWhole (AtSomeTime D D.answers) board.old left.now (L.text ledger.old) (L.text ledger.new) told
        × Appends (W.contents answers.old) (W.contents answers.new) told) }
    ensures step { OnOk result (IfSome (L.text ledger.old)
        (λ text. ReadsIn board.old.format board.old.root text board.old.records left.now)
        → IfSome (L.text ledger.new) (IsLedgerOf board.new)) }
    ensures silent { IfErr result (λ e. PrintsNothing e (W.contents answers.old) (W.contents answers.new)) }
    ensures leaves { OnErr result (MayBeCut left.now (L.text ledger.old) (L.text ledger.new)
        ⊎ ((new : Contents) × LeavesSettled (AtSomeTime D D.answers) ComesFirst board.old
        (kept_part left.now (L.text ledger.old)) new (L.text ledger.new))) }
{
    cut_off(left, ledger)?;
    let count = settle_board(alloc, board, decider, ledger, progress)?;
    let mut told = Vec::new(alloc);
    append_settled(count, &board.tally(), &mut told)?;
    answers.write_all(&told)?;
    Ok(())
}

// Appends the line that says what was settled.
fn append_settled(count: u64, tally: &Tally, out: &mut Vec<u8>) -> Result<(), NoMemory>
    ensures { OnOk result (out.new.items ≡ out.old.items ++ settled_text count tally.now.holdouts) }
{
    out.extend_from_slice(b"settled ")?;
    append_number(count, out)?;
    out.extend_from_slice(b" holdouts ")?;
    append_number(tally.holdouts, out)?;
    out.extend_from_slice(b"\n")
}

/// Settles a ledger file, which has to be there, as `settle_ledger` does. It is locked before it is read; where another
/// process has it locked, nothing is done. What ends it early leaves in the ledger what was settled before.
pub fn settle_ledger_at<H: Files, D: Decider, P: Progress, W: Write>(
    alloc: Global,
    file: LedgerFile<'_>,
    host: &mut H,
    decider: &mut D,
    progress: &mut P,
    answers: &mut W,
) -> Result<(), Ended>
    ensures others { IsKeptBut (H.tells_same host.old) file.entry.path.now (H.holds host.old) (H.holds host.new) }
    ensures settles { SettlesAt (AtSomeTime D D.answers) (H.locks file.entry.path.now)
        (H.tells_same host.old) file.entry.path.now
        (H.holds host.old) (H.holds host.new) (W.contents answers.old) (W.contents answers.new) result }
{
    let _lock = lock_ledger(host, file.path)?;
    let held = open_held(host, file.path)?;
    let mut ledger = ledger_at(host, &file)?;
    let settled = settle_ledger(alloc, held, &mut ledger, decider, progress, answers);
    host.close(file.path, ledger);
    settled
}

/// Settles a board: while a table is open, asks the decider for the first in text order, puts the record that it
/// answers on the board, a holdout's too, and gathers its line for the ledger in the ledger's version; the lines are written
/// once they are a piece, and at the end. Answers how many tables it settled. What ends it early, refused memory or a ledger
/// that failed, leaves what was settled before; where the ledger failed, that has a beginning of its lines.
pub fn settle_board<L: LedgerOut, D: Decider, P: Progress>(
    alloc: Global,
    board: &mut Board,
    decider: &mut D,
    ledger: &mut L,
    progress: &mut P,
) -> Result<u64, Ended>
    ensures settled { IfOk result (λ k. SettlesMany (AtSomeTime D D.answers) ComesFirst k board.old (L.text ledger.old)
        board.new (L.text ledger.new)) }
    ensures all { OnOk result ((t : Packed) → IsOpenOn board.new t → ⊥) }
    ensures step { OnOk result (StaysInStep board.old (L.text ledger.old) board.new (L.text ledger.new)) }
    ensures leaves { OnErr result (LeavesPart (AtSomeTime D D.answers) ComesFirst board.old (L.text ledger.old)
        board.new (L.text ledger.new)) }
{
    let before = record_count(board);
    let mut lines = Vec::new(alloc);
    while let Some(t) = first_open(board) {
        settle(alloc, board, decider, &t, &mut lines, ledger, progress)?;
        // The proof needs how many records there can be.
        let _ = board.tally();
        progress.tell(board);
    }
    write_lines(ledger, &mut lines)?;
    Ok(record_count(board) - before)
}

/// Settles the open tables of a board that have fewer filled entries than so many, until it has none of them: a round
/// asks the decider for each that there is, and puts its record on the board and its line into the ledger, as
/// `settle_board` does, whose lines are all written at its end; tables that become open by that come in the next round.
/// It takes those of a round in the order of their texts, which no contract says. Answers how many tables it settled. What
/// ends it early leaves what was settled before.
pub fn settle_below<L: LedgerOut, D: Decider, P: Progress>(
    alloc: Global,
    board: &mut Board,
    limit: u64,
    decider: &mut D,
    ledger: &mut L,
    progress: &mut P,
) -> Result<u64, Ended>
    ensures settled { IfOk result (λ k. SettlesMany (AtSomeTime D D.answers) (IsOpenBelow limit) k board.old
        (L.text ledger.old) board.new (L.text ledger.new)) }
    ensures all { OnOk result ((t : Packed) → IsOpenOn board.new t → limit ≤ filled_count t) }
    ensures step { OnOk result (StaysInStep board.old (L.text ledger.old) board.new (L.text ledger.new)) }
    ensures leaves { OnErr result (LeavesPart (AtSomeTime D D.answers) (IsOpenBelow limit) board.old
        (L.text ledger.old) board.new (L.text ledger.new)) }
{
    let before = record_count(board);
    let mut due = open_below(alloc, board, limit)?;
    'rounds: while !due.is_empty() {
        settle_all(alloc, board, limit, &due, decider, ledger, progress)?;
        due = open_below(alloc, board, limit)?;
    }
    Ok(record_count(board) - before)
}

// Settles tables that are due.
fn settle_all<L: LedgerOut, D: Decider, P: Progress>(
    alloc: Global,
    board: &mut Board,
    limit: u64,
    due: &[Table],
    decider: &mut D,
    ledger: &mut L,
    progress: &mut P,
) -> Result<(), Ended>
    requires { AreAll (IsOpenBelow limit board.old) due.now }
    ensures settled { OnOk result (SettlesMany (AtSomeTime D D.answers) (IsOpenBelow limit) (length due.now) board.old
        (L.text ledger.old) board.new (L.text ledger.new)) }
    ensures records { OnOk result (length board.new.records ≡ length board.old.records + length due.now) }
    ensures small { OnOk result (0 < length due.now → length board.new.records < 2 ^ 64) }
    ensures step { OnOk result (StaysInStep board.old (L.text ledger.old) board.new (L.text ledger.new)) }
    ensures leaves { OnErr result (LeavesPart (AtSomeTime D D.answers) (IsOpenBelow limit) board.old
        (L.text ledger.old) board.new (L.text ledger.new)) }
{
    let mut lines = Vec::new(alloc);
    for t in due {
        settle(alloc, board, decider, t, &mut lines, ledger, progress)?;
        // The proof needs how many records there can be.
        let _ = board.tally();
        progress.tell(board);
    }
    write_lines(ledger, &mut lines)
}

// How many records a board has.
fn record_count(board: &Board) -> u64
    ensures { result ≡ length board.now.records }
{
    let tally = board.tally();
    tally.nodes - tally.open_count
}

// The open tables with fewer filled entries than so many, in the order of their texts.
pub(crate) fn open_below(alloc: Global, board: &Board, limit: u64) -> Result<Vec<Table>, NoMemory>
    ensures { IfOk result (λ due. AreAll (IsOpenBelow limit board.now) due.items) }
{
    below(alloc, board.open(), limit)
}

// The tables with fewer filled entries than so many.
fn below(alloc: Global, tables: Open<'_>, limit: u64) -> Result<Vec<Table>, NoMemory>
    ensures { IfOk result (λ found. found.items ≡ filter (is_below limit) tables.entry) }
{
    let mut found = Vec::new(alloc);
    for t in tables {
        if filled_entries(t) < limit {
            found.push(*t)?;
        }
    }
    Ok(found)
}

// How many of a table's entries are filled.
fn filled_entries(t: &Table) -> u64
    ensures { result ≡ filled_count t.now }
{
    2 * u64::from(t.states()) - u64::from(t.undefined_count())
}

// The open table whose text comes first.
fn first_open(board: &Board) -> Option<Table>
    ensures some { IfSome result (ComesFirst board.now) }
    ensures none { IfNone result ((t : Packed) → IsOpenOn board.now t → ⊥) }
{
    match board.open().next() {
        Some(t) => Some(*t),
        None => None,
    }
}

// Settles an open table. The lines that are gathered are written where they are due, and before anything that ends it early.
fn settle<L: LedgerOut, D: Decider, P: Progress>(
    alloc: Global,
    board: &mut Board,
    decider: &mut D,
    t: &Table,
    lines: &mut Vec<u8>,
    ledger: &mut L,
    progress: &mut P,
) -> Result<(), Ended>
    requires { IsOpenOn board.old t.now }
    ensures ok { OnOk result (SettlesOne (AtSomeTime D D.answers) (λ b q. q ≡ t.now) board.old
        (grown (L.text ledger.old) lines.old.items) board.new (grown (L.text ledger.new) lines.new.items)) }
    ensures grown { OnOk result (HasGrown (L.text ledger.old) (L.text ledger.new)) }
    ensures step { OnOk result (StaysInStep board.old (grown (L.text ledger.old) lines.old.items) board.new
        (grown (L.text ledger.new) lines.new.items)) }
    ensures leaves { OnErr result ((whole : Option (List ℕ))
        × MaySettle (AtSomeTime D D.answers) (λ b q. q ≡ t.now) board.old
        (grown (L.text ledger.old) lines.old.items) board.new whole
        × HasPartOf whole (L.text ledger.old) (L.text ledger.new)) }
{
    // The proof needs that it is a board.
    let _ = board.root();
    match decide_next(alloc, board, decider, t, lines) {
        Ok(()) => write_due(ledger, lines, progress.is_due()),
        Err(_) => {
            write_lines(ledger, lines)?;
            Err(Ended::NoMemory)
        }
    }
}

// Asks the decider for an open table, puts its record on the board, and gathers its line.
fn decide_next<D: Decider>(
    alloc: Global,
    board: &mut Board,
    decider: &mut D,
    t: &Table,
    lines: &mut Vec<u8>,
) -> Result<(), NoMemory>
    requires { IsOpenOn board.old t.now }
    ensures ok { OnOk result (SettlesOne (AtSomeTime D D.answers) (λ b q. q ≡ t.now) board.old
        (Some lines.old.items) board.new (Some lines.new.items)) }
    ensures err { OnErr result ((board.new ≡ board.old) × (lines.new.items ≡ lines.old.items)) }
{
    let Decided {
        record: made,
        judged,
    } = decider.decide_judged(alloc, t)?;
    // The parts by their names: the borrow checker's proof has to know of what the record is made.
    let record = Record {
        table: made.table,
        certificate: made.certificate.lent(),
    };
    take(board, &record, judged, lines)
}

// Puts a judged record of an open table on a board, and appends its line, with its score in version 2.
fn take(board: &mut Board, r: &Record, judged: Judged, line: &mut Vec<u8>) -> Result<(), NoMemory>
    requires is_open { IsOpenOn board.old (recorded r.now).table }
    requires shown { IsShownBy (recorded r.now) judged }
    ensures fit { OnOk result (IsFit board.old.root board.old.records (recorded r.now)) }
    ensures ok { OnOk result (board.new ≡ with_last board.old (recorded r.now)) }
    ensures line { OnOk result (line.new.items ≡ line.old.items ++ gained board.old.format (recorded r.now)) }
    ensures err { OnErr result ((board.new ≡ board.old) × (line.new.items ≡ line.old.items)) }
{
    match board.offer_judged_line(r, judged, line) {
        Ok(Taken::New) => Ok(()),
        Ok(Taken::Known) | Ok(Taken::Settled) => unreachable!(),
        // its table is open and it is certified, so it was memory
        Err(_) => Err(NoMemory),
    }
}

// Appends a line to a ledger.
pub(crate) fn append_line<L: LedgerOut>(ledger: &mut L, line: &[u8]) -> Result<(), Ended>
    ensures ok { OnOk result (L.text ledger.new ≡ grown (L.text ledger.old) line.now) }
    ensures err { OnErr result (IsBegun (L.text ledger.old) line.now (L.text ledger.new)) }
{
    match append_all(ledger, line) {
        Ok(()) => Ok(()),
        Err(_) => Err(Ended::Ledger),
    }
}

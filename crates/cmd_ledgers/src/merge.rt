// `bb merge` and `bb carry`: ledgers in, a ledger that is written anew out.
ghost use Rattle.std.specs.Prelude.{◌≡◌, ◌⊎◌, IfOk, IfErr, List, ℕ, Option, Result, ◌++◌, Ok, Err, OnOk};
ghost use Rattle.cmd_options.specs.declared.ended.Outcome.{Outcome as Outcomes};
ghost use Rattle.cmd_options.specs.declared.ended.Ended.{Ended as Ends};
ghost use Rattle.cmd_options.specs.Terms.{EndsTold};
ghost use Rattle.files.specs.Terms.{IsBlank, IsKeptBut};
ghost use Rattle.cmd_ledgers.specs.Merge.{CarriesAt, IsAt, CarriesInto, carried_text, MergesAt, AreMerged, MergesInto, TakesIn, count_text, first_left, merged_text, outcome_of_left, rewritten};
ghost use Rattle.cmd_ledgers.specs.LedgerReport.{AreFirstBytes};

use crate::board_report::append_left;
use crate::ledger_report::{AtPath, LedgerSource, load_source};
use crate::reading::{by_merge, load_of};
use crate::retry::{append_to, cut_to};
use cmd_options::{Carrying, Ended, Merging, Outcome, Stopped, told};
use files::{Files, made_for, put_at};
use kind_evidence::NoMemory;
use ledger::{Board, Left, Tally};
use std::alloc::Global;
use std::io::{Read, Write};
use text::append_number;
use wire::LedgerOut;

/// Writes a ledger as one of version 2, in which each table that halts has its score, and prints how many records it
/// has, and how many of them halt; and `left LINE` where not all of it could be kept. It is read and judged before
/// anything is written. Where a plain file or nothing stands at the path that is to be written, the ledger is made in a
/// file beside it, `.new`, which is then put in its place, so that a program that is killed leaves the old ledger or the
/// new one; after a failure that file is left. Accepted where all was kept. What ends the command early is said on
/// `faults`.
pub fn cmd_carry<H: Files, W: Write, E: Write>(
    alloc: Global,
    carrying: Carrying<'_>,
    host: &mut H,
    answers: &mut W,
    faults: &mut E,
) -> Outcome
    ensures others { IsKeptBut (H.tells_same host.old) carrying.entry.out.now (H.holds host.old) (H.holds host.new) }
    ensures carries { (ended : Result Outcomes Ends)
        × CarriesAt (H.tells_same host.old) carrying.entry.ledger.now carrying.entry.out.now (H.holds host.old)
        (H.holds host.new) (W.contents answers.old) (W.contents answers.new) ended
        × EndsTold ended (E.contents faults.old) (E.contents faults.new) result }
{
    told(carry_at(alloc, carrying, host, answers), faults)
}

// Carries as `cmd_carry` does, but answers what ends it early, and doesn't say it.
fn carry_at<H: Files, W: Write>(
    alloc: Global,
    carrying: Carrying<'_>,
    host: &mut H,
    answers: &mut W,
) -> Result<Outcome, Ended>
    ensures others { IsKeptBut (H.tells_same host.old) carrying.entry.out.now (H.holds host.old) (H.holds host.new) }
    ensures carries { CarriesAt (H.tells_same host.old) carrying.entry.ledger.now carrying.entry.out.now
        (H.holds host.old) (H.holds host.new) (W.contents answers.old) (W.contents answers.new) result }
{
    let (made, tally, left) = carried(alloc, carrying, host)?;
    let said = carried_line(alloc, &tally, &left)?;
    put_at(host, made, carrying.out)?;
    answers.write_all(&said)?;
    Ok(outcome_of_left(&left))
}

// The ledger of version 2 of what a ledger holds, which stands nowhere yet.
fn carried<H: Files>(
    alloc: Global,
    carrying: Carrying<'_>,
    host: &H,
) -> Result<(H::Made, Tally, Left), Ended>
    ensures { IfOk result (λ j. (begun : Option (List ℕ)) × IsBlank begun
        × CarriesInto (IsAt (H.holds host.now carrying.entry.ledger.now)) j.1 j.2 begun (H.Made.text j.0)) }
{
    let mut made = made_for(host, carrying.out, carrying.replace, &[carrying.ledger])?;
    let from = AtPath {
        host,
        path: carrying.ledger,
    };
    let (tally, left) = carry_into(alloc, &from, &mut made)?;
    Ok((made, tally, left))
}

// The line that says what was carried, and that of what wasn't kept.
fn carried_line(alloc: Global, tally: &Tally, left: &Left) -> Result<Vec<u8>, NoMemory>
    ensures { IfOk result (λ said. said.items ≡ carried_text tally.now left.now) }
{
    let mut out = Vec::new(alloc);
    let records = tally.nodes.saturating_sub(tally.open_count);
    append_count(b"carried ", records, &mut out)?;
    append_count(b" halting ", tally.halting, &mut out)?;
    out.extend_from_slice(b"\n")?;
    append_left(left, &mut out)?;
    Ok(out)
}

/// Reads and loads a ledger, and makes another hold what it holds as version 2, whatever it held before. Answers how
/// many tables there are of each kind, and what wasn't kept. Where the first can't be read or loaded, or memory is
/// refused, the other isn't touched.
pub fn carry_into<S: LedgerSource, L: LedgerOut>(
    alloc: Global,
    from: &S,
    ledger: &mut L,
) -> Result<(Tally, Left), Ended>
    ensures ok { IfOk result (λ told. CarriesInto (S.reads from.now) told.0 told.1 (L.text ledger.old)
        (L.text ledger.new)) }
    ensures err { IfErr result (λ e. (ledger.new ≡ ledger.old) ⊎ (e ≡ Ended.Ledger)) }
{
    let (board, left) = load_source(alloc, from)?;
    write_whole(alloc, &board, ledger)?;
    Ok((board.tally(), left))
}

/// Writes the ledger of what two ledgers hold together, and prints how many records, open tables and holdouts
/// that has, and `left LINE` for the first of the two of which not all could be kept. Each of the two is read
/// and judged before the next, and both before anything is written. Where the
/// path that is to be written leads to a plain file or to nothing, the ledger is made in a new file beside that, `.new`, which
/// is then put in its place, so that a program that is killed leaves the old ledger or the new one; after a failure that file
/// is left. Accepted where all was kept. What ends the command early is said on `faults`.
pub fn cmd_merge<H: Files, W: Write, E: Write>(
    alloc: Global,
    merging: Merging<'_>,
    host: &mut H,
    answers: &mut W,
    faults: &mut E,
) -> Outcome
    ensures others { IsKeptBut (H.tells_same host.old) merging.entry.out.now (H.holds host.old) (H.holds host.new) }
    ensures merges { (ended : Result Outcomes Ends)
        × MergesAt (H.tells_same host.old) merging.entry.first.now merging.entry.second.now merging.entry.out.now
        (H.holds host.old) (H.holds host.new) (W.contents answers.old) (W.contents answers.new) ended
        × EndsTold ended (E.contents faults.old) (E.contents faults.new) result }
{
    told(merge_at(alloc, merging, host, answers), faults)
}

// Merges as `cmd_merge` does, but answers what ends it early, and doesn't say it.
fn merge_at<H: Files, W: Write>(
    alloc: Global,
    merging: Merging<'_>,
    host: &mut H,
    answers: &mut W,
) -> Result<Outcome, Ended>
    ensures others { IsKeptBut (H.tells_same host.old) merging.entry.out.now (H.holds host.old) (H.holds host.new) }
    ensures merges { MergesAt (H.tells_same host.old) merging.entry.first.now merging.entry.second.now
        merging.entry.out.now (H.holds host.old) (H.holds host.new) (W.contents answers.old) (W.contents answers.new)
        result }
{
    let (made, tally, left) = merged(alloc, merging, host)?;
    let said = merged_line(alloc, &tally, &left)?;
    put_at(host, made, merging.out)?;
    answers.write_all(&said)?;
    Ok(outcome_of_left(&left))
}

// The ledger of what two hold together, which stands nowhere yet.
fn merged<H: Files>(
    alloc: Global,
    merging: Merging<'_>,
    host: &H,
) -> Result<(H::Made, Tally, Left), Ended>
    ensures { IfOk result (λ j. (begun : Option (List ℕ)) × IsBlank begun
        × MergesInto (IsAt (H.holds host.now merging.entry.first.now))
        (IsAt (H.holds host.now merging.entry.second.now)) j.1 j.2 begun (H.Made.text j.0)) }
{
    let mut made = made_for(
        host,
        merging.out,
        merging.replace,
        &[merging.first, merging.second],
    )?;
    let first = AtPath {
        host,
        path: merging.first,
    };
    let second = AtPath {
        host,
        path: merging.second,
    };
    let (tally, left) = merge_into(alloc, &first, &second, &mut made)?;
    Ok((made, tally, left))
}

// The line that says what the merged ledger holds, and that of what wasn't kept.
fn merged_line(alloc: Global, tally: &Tally, left: &Left) -> Result<Vec<u8>, NoMemory>
    ensures { IfOk result (λ said. said.items ≡ merged_text tally.now left.now) }
{
    let mut out = Vec::new(alloc);
    let records = tally.nodes.saturating_sub(tally.open_count);
    append_count(b"merged ", records, &mut out)?;
    append_count(b" open ", tally.open_count, &mut out)?;
    append_count(b" holdouts ", tally.holdouts, &mut out)?;
    out.extend_from_slice(b"\n")?;
    append_left(left, &mut out)?;
    Ok(out)
}

// Appends a name and a count.
pub(crate) fn append_count(name: &[u8], count: u64, out: &mut Vec<u8>) -> Result<(), NoMemory>
    ensures { OnOk result (out.new.items ≡ out.old.items ++ count_text name.now count) }
{
    out.extend_from_slice(name)?;
    append_number(count, out)
}

/// Joins two ledgers, and makes a third hold the ledger of what they hold together, whatever it held before. Answers
/// how many tables there are of each kind, and what wasn't kept. Where the two aren't merged, or memory is refused, the
/// third isn't touched.
pub fn merge_into<A: LedgerSource, B: LedgerSource, L: LedgerOut>(
    alloc: Global,
    first: &A,
    second: &B,
    ledger: &mut L,
) -> Result<(Tally, Left), Ended>
    ensures ok { IfOk result (λ told. MergesInto (A.reads first.now) (B.reads second.now) told.0 told.1
        (L.text ledger.old) (L.text ledger.new)) }
    ensures err { IfErr result (λ e. (ledger.new ≡ ledger.old) ⊎ (e ≡ Ended.Ledger)) }
{
    let (board, left) = merge_of(alloc, first, second)?;
    write_whole(alloc, &board, ledger)?;
    Ok((board.tally(), left))
}

/// Reads and loads a ledger, then reads another, and takes its records into the board of the first. Answers that
/// board, and what wasn't kept of the first of the two of which not all was. What ends it is of the first ledger,
/// where that can't be read or loaded, else of the second: a header that doesn't read or another root, and only then
/// refused memory.
pub fn merge_of<A: LedgerSource, B: LedgerSource>(
    alloc: Global,
    first: &A,
    second: &B,
) -> Result<(Board, Left), Ended>
    ensures { IfOk result (λ j. AreMerged (A.reads first.now) (B.reads second.now) j) }
{
    let (mut board, first_left) = load_source(alloc, first)?;
    let second_left = take_source(alloc, &mut board, second)?;
    Ok((board, earlier(first_left, second_left)))
}

// What is told as left of two ledgers: of the first, where not all of it was kept.
fn earlier(first: Left, second: Left) -> Left
    ensures { result ≡ first_left first second }
{
    match first {
        Left::Nothing => second,
        Left::From { .. } => first,
    }
}

// Takes the records of a ledger into a board of its root, and answers what wasn't kept of it.
fn take_source<S: LedgerSource>(alloc: Global, board: &mut Board, source: &S) -> Result<Left, Ended>
    ensures { IfOk result (λ left. (text : List ℕ) × S.reads source.now text × TakesIn board.old text left board.new) }
{
    let mut opened = source.open()?;
    match take_from(alloc, board, &mut opened.reader, opened.length) {
        Ok(left) => Ok(left),
        Err(Stopped::Failed(fault)) => Err(source.failed(&fault)),
        Err(Stopped::Ended(ended)) => Err(ended),
    }
}

// Takes the records of the ledger that a reader has in its first bytes.
fn take_from<R: Read>(
    alloc: Global,
    board: &mut Board,
    from: &mut R,
    limit: u64,
) -> Result<Left, Stopped>
    ensures { IfOk result (λ left. (text : List ℕ) × AreFirstBytes (R.remaining from.old) limit text
        × TakesIn board.old text left board.new) }
{
    let root = *board.root();
    let (other, left) = load_of(alloc, root, from, limit)?;
    match board.merge(&other) {
        Ok(()) => Ok(left),
        Err(fault) => Err(Stopped::Ended(by_merge(fault))),
    }
}

// Accepted where all of what was read was kept.
pub(crate) fn outcome_of_left(left: &Left) -> Outcome
    ensures { result ≡ outcome_of_left left.now }
{
    match left {
        Left::Nothing => Outcome::Accepted,
        Left::From { .. } => Outcome::Refused,
    }
}

/// Makes a ledger hold a board's ledger, of version 2, and nothing else. Errors: `NoMemory` where memory is refused for
/// the text, and then the ledger is as it was; `Ledger` where it fails.
pub fn write_whole<L: LedgerOut>(alloc: Global, board: &Board, ledger: &mut L) -> Result<(), Ended>
    ensures ok { OnOk result (L.text ledger.new ≡ rewritten board.now (L.text ledger.old)) }
    ensures err { IfErr result (λ e. (ledger.new ≡ ledger.old) ⊎ (e ≡ Ended.Ledger)) }
{
    let mut text = Vec::new(alloc);
    board.write_ledger(&mut text)?;
    cut_to(ledger, 0)?;
    append_to(ledger, &text)
}

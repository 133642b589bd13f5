// `bb mend`: a damaged ledger in, what can be kept of it out.
ghost use Rattle.std.specs.Prelude.{◌≡◌, ◌+◌, IfErr, OnOk, ◌⊎◌, ◌++◌, List, [], ℕ, IfOk, ◌^◌, ◌-◌, Result};
ghost use Rattle.std.specs.Io.KnownBytes.{Appends};
ghost use Rattle.cmd_options.specs.declared.ended.Ended.TheVariants.{NoMemory as WantsMemory};
ghost use Rattle.cmd_ledgers.specs.inside.{LineMends, MendsBehind};
ghost use Rattle.machine_text.specs.Terms.{Packed, entry_of};
ghost use Rattle.law_tree.specs.Terms.{InOrder};
ghost use Rattle.ledger.specs.Terms.{HasHeader};
ghost use Rattle.cmd_lines.specs.Terms.{AreLines, AreTakenInTurn};
ghost use Rattle.cmd_ledgers.specs.LedgerReport.{AreFirstBytes};
ghost use Rattle.cmd_ledgers.specs.Merge.{IsMended, MendsInto, IsAt, LeavesOut, MendsAt, mended_text, outcome_of_dropped};
ghost use Rattle.cmd_options.specs.declared.ended.Outcome.{Outcome as Outcomes};
ghost use Rattle.cmd_options.specs.declared.ended.Ended.{Ended as Ends};
ghost use Rattle.cmd_options.specs.Terms.{EndsTold};
ghost use Rattle.files.specs.Terms.{IsKeptBut, IsPut};

use crate::{MAX_HEADER_BYTES, begin_reading, write_whole};
use cmd_lines::{LineLoop, LineTaker, read_line};
use cmd_options::{Ended, Mending, Outcome, Stopped, ended_by, told};
use files::{Files, made_for, put_at};
use kind_evidence::NoMemory;
use ledger::{Board, BoardFault, OfferFault, Taken, Tally};
use machine_text::Table;
use std::alloc::Global;
use std::io::{Read, Write};
use text::{append_number, first_line};
use wire::LedgerOut;

/// A board, and how many of the lines that were offered to it weren't taken.
#[derive(Drop)]
pub(crate) struct Mender {
    pub board: Board,
    pub dropped: u64,
}

impl LineTaker for Mender {
    ghost takes = { LineMends };

    ghost ends = { λ e. e ≡ WantsMemory };

    fn take_line(&mut self, line: Option<&[u8]>) -> Result<(), Ended> {
        let record = match read_line(line) {
            Ok(record) => record,
            Err(_) => return self.drop_line(),
        };
        match self.board.offer(&record) {
            Ok(Taken::New | Taken::Settled) => Ok(()),
            Err(OfferFault::NoMemory) => Err(Ended::NoMemory),
            Ok(Taken::Known) | Err(_) => self.drop_line(),
        }
    }
}

impl Mender {
    // Counts a line that wasn't taken.
    fn drop_line(&mut self) -> Result<(), Ended>
        ensures board { self.new.board ≡ self.old.board }
        ensures dropped { OnOk result (self.new.dropped ≡ 1 + self.old.dropped) }
        ensures err { IfErr result (λ e. e ≡ WantsMemory) }
    {
        match self.dropped.checked_add(1) {
            Some(dropped) => {
                self.dropped = dropped;
                Ok(())
            }
            // No memory has so many lines.
            None => Err(Ended::NoMemory),
        }
    }
}

/// Makes a ledger hold, as version 2, what can be kept of the damaged ledger that a reader has in its first bytes, up to a
/// limit, whatever it held before. Answers how many tables there are of each kind, and how many lines weren't taken. The
/// damaged ledger is read to its end before the other is touched.
pub fn mend_into<R: Read, L: LedgerOut>(
    alloc: Global,
    from: &mut R,
    limit: u64,
    ledger: &mut L,
) -> Result<(Tally, u64), Stopped>
    ensures ok { IfOk result (λ told. (text : List ℕ) × AreFirstBytes (R.remaining from.old) limit text
        × MendsInto text told.0 told.1 (L.text ledger.old) (L.text ledger.new)) }
    ensures err { IfErr result (λ e. (ledger.new ≡ ledger.old) ⊎ (e ≡ Stopped.Ended Ended.Ledger)) }
{
    let (board, dropped) = mend_from(alloc, from, limit)?;
    match write_whole(alloc, &board, ledger) {
        Ok(()) => Ok((board.tally(), dropped)),
        Err(ended) => Err(Stopped::Ended(ended)),
    }
}

/// The board of what can be kept of the damaged ledger that a reader has in its first bytes, up to a limit: each line
/// behind its header is offered in turn. Answers how many of them weren't taken, too.
pub fn mend_from<R: Read>(alloc: Global, from: &mut R, limit: u64) -> Result<(Board, u64), Stopped>
    ensures { IfOk result (λ m. (text : List ℕ) × AreFirstBytes (R.remaining from.old) limit text
        × IsMended text m.0 m.1) }
{
    let mut buffer = [0; MAX_HEADER_BYTES];
    let room = limit.min(MAX_HEADER_BYTES as u64) as usize;
    let begun = &mut buffer[..room];
    let (root, len) = begin_reading(from, limit, begun)?;
    let first = behind_header(&begun[..len]);
    mend_behind(alloc, root, first, from, limit - len as u64)
}

// What stands behind the line of the header with which a text begins.
fn behind_header(text: &[u8]) -> &[u8]
    ensures { (root : Packed) (rest : List ℕ) → HasHeader text.now root rest → result.now ≡ rest }
{
    match first_line(text) {
        Some((_, rest)) => rest,
        None => text,
    }
}

// Mends what stands behind the header of a root: first some bytes of it, and then what a reader has.
fn mend_behind<R: Read>(
    alloc: Global,
    root: Table,
    first: &[u8],
    from: &mut R,
    limit: u64,
) -> Result<(Board, u64), Stopped>
    requires { (u : ℕ) × InOrder u (entry_of root) }
    ensures { IfOk result (λ m. (m.0.root ≡ root)
        × ((more : List ℕ) × AreFirstBytes (R.remaining from.old) limit more
        × MendsBehind root (first.now ++ more) m.0.records m.1)) }
{
    let mut mender = mender_of(alloc, root)?;
    // The proof needs that the root is a table.
    let _ = mender.board.root();
    take_all(alloc, first, from, limit, &mut mender)?;
    Ok((mender.board, mender.dropped))
}

// A board of this root to which nothing was offered.
fn mender_of(alloc: Global, root: Table) -> Result<Mender, Ended>
    requires { (u : ℕ) × InOrder u (entry_of root) }
    ensures { IfOk result (λ m. (m.board.root ≡ root) × (m.board.records ≡ []) × (m.dropped ≡ 0)) }
{
    match Board::new(alloc, root) {
        Ok(board) => Ok(Mender { board, dropped: 0 }),
        // The root is in order.
        Err(BoardFault::NotInOrder) => Err(Ended::WrongRoot),
        Err(BoardFault::NoMemory) => Err(Ended::NoMemory),
    }
}

// Offers a board each line of these first bytes and of what a reader has behind them.
fn take_all<R: Read>(
    alloc: Global,
    first: &[u8],
    from: &mut R,
    limit: u64,
    mender: &mut Mender,
) -> Result<(), Stopped>
    ensures { OnOk result ((more : List ℕ) × AreFirstBytes (R.remaining from.old) limit more
        × ((lines : List (List ℕ)) × AreLines (first.now ++ more) lines
        × AreTakenInTurn LineMends mender.old lines mender.new)) }
{
    let mut lines = LineLoop::new(alloc);
    lines.take(first, mender)?;
    lines.take_from(from, limit, mender)?;
    lines.end(mender)?;
    Ok(())
}

// The path under which standard input stands: a file that is read from there isn't written to either.
const STANDARD_INPUT: &str = "/dev/stdin";

/// Writes what can be kept of the damaged ledger at a path, each line that is taken behind its header, as a ledger of version
/// 2, and prints how many records that has, and how many lines weren't taken. The damaged ledger is read to its end before
/// anything is written. Where the path that is to be written leads to a plain file or to nothing, the ledger is made in a new
/// file beside that, `.new`, which is then put in its place; after a failure that file is left. Accepted where each line was
/// taken. What ends the command early is said on `faults`.
pub fn cmd_mend<H: Files, W: Write, E: Write>(
    alloc: Global,
    mending: Mending<'_>,
    host: &mut H,
    answers: &mut W,
    faults: &mut E,
) -> Outcome
    ensures others { IsKeptBut (H.tells_same host.old) mending.entry.out.now (H.holds host.old) (H.holds host.new) }
    ensures mends { (ended : Result Outcomes Ends)
        × MendsAt (IsAt (H.holds host.old mending.entry.ledger.now)) (H.tells_same host.old) mending.entry.out.now
        (H.holds host.old) (H.holds host.new) (W.contents answers.old) (W.contents answers.new) ended
        × EndsTold ended (E.contents faults.old) (E.contents faults.new) result }
{
    told(mend_at(alloc, mending, host, answers), faults)
}

/// Mends as `cmd_mend` does, of the damaged ledger that a stream has up to its end.
pub fn cmd_mend_stream<H: Files, R: Read, W: Write, E: Write>(
    alloc: Global,
    mending: Mending<'_>,
    host: &mut H,
    input: &mut R,
    answers: &mut W,
    faults: &mut E,
) -> Outcome
    ensures others { IsKeptBut (H.tells_same host.old) mending.entry.out.now (H.holds host.old) (H.holds host.new) }
    ensures mends { (ended : Result Outcomes Ends)
        × MendsAt (AreFirstBytes (R.remaining input.old) (2 ^ 64 - 1)) (H.tells_same host.old) mending.entry.out.now
        (H.holds host.old) (H.holds host.new) (W.contents answers.old) (W.contents answers.new) ended
        × EndsTold ended (E.contents faults.old) (E.contents faults.new) result }
{
    told(mend_stream(alloc, mending, host, input, answers), faults)
}

// What `cmd_mend` does, but that what ends it early isn't said.
fn mend_at<H: Files, W: Write>(
    alloc: Global,
    mending: Mending<'_>,
    host: &mut H,
    answers: &mut W,
) -> Result<Outcome, Ended>
    ensures others { IsKeptBut (H.tells_same host.old) mending.entry.out.now (H.holds host.old) (H.holds host.new) }
    ensures mends { MendsAt (IsAt (H.holds host.old mending.entry.ledger.now)) (H.tells_same host.old)
        mending.entry.out.now (H.holds host.old) (H.holds host.new) (W.contents answers.old) (W.contents answers.new)
        result }
{
    let mut made = made_for(host, mending.out, mending.replace, &[mending.ledger])?;
    let (tally, dropped) = mended_file(alloc, mending.ledger, host, &mut made)?;
    put_and_tell(alloc, host, made, mending.out, &tally, dropped, answers)
}

// What `cmd_mend_stream` does, but that what ends it early isn't said.
fn mend_stream<H: Files, R: Read, W: Write>(
    alloc: Global,
    mending: Mending<'_>,
    host: &mut H,
    input: &mut R,
    answers: &mut W,
) -> Result<Outcome, Ended>
    ensures others { IsKeptBut (H.tells_same host.old) mending.entry.out.now (H.holds host.old) (H.holds host.new) }
    ensures mends { MendsAt (AreFirstBytes (R.remaining input.old) (2 ^ 64 - 1)) (H.tells_same host.old)
        mending.entry.out.now (H.holds host.old) (H.holds host.new) (W.contents answers.old) (W.contents answers.new)
        result }
{
    let mut made = made_for(host, mending.out, mending.replace, &[STANDARD_INPUT])?;
    match mend_into(alloc, input, u64::MAX, &mut made) {
        Ok((tally, dropped)) => {
            put_and_tell(alloc, host, made, mending.out, &tally, dropped, answers)
        }
        Err(stopped) => Err(stopped.ended(Ended::Stream)),
    }
}

// Mends the damaged ledger at a path into another.
fn mended_file<H: Files, L: LedgerOut>(
    alloc: Global,
    path: &str,
    host: &H,
    made: &mut L,
) -> Result<(Tally, u64), Ended>
    ensures { IfOk result (λ m. (text : List ℕ) × IsAt (H.holds host.now path.now) text
        × MendsInto text m.0 m.1 (L.text made.old) (L.text made.new)) }
{
    let mut file = match host.open_to_end(path) {
        Ok(file) => file,
        Err(fault) => return Err(ended_by(&fault, Ended::File)),
    };
    match mend_into(alloc, &mut file.reader, file.length, made) {
        Ok(mended) => Ok(mended),
        Err(stopped) => Err(stopped.ended(Ended::File)),
    }
}

// Puts the ledger in its place, and prints how many records it has, and how many lines weren't taken.
fn put_and_tell<H: Files, W: Write>(
    alloc: Global,
    host: &mut H,
    made: H::Made,
    out: &str,
    tally: &Tally,
    dropped: u64,
    answers: &mut W,
) -> Result<Outcome, Ended>
    ensures ok { IfOk result (λ o. IsPut (H.tells_same host.old) out.now (H.Made.text made) (H.holds host.old)
        (H.holds host.new)
        × Appends (W.contents answers.old) (W.contents answers.new) (mended_text tally.now dropped)
        × (o ≡ outcome_of_dropped dropped)) }
    ensures err { IfErr result (λ e. LeavesOut e (H.holds host.old) (H.holds host.new) (W.contents answers.old)
        (W.contents answers.new) (IsPut (H.tells_same host.old) out.now (H.Made.text made) (H.holds host.old)
        (H.holds host.new))) }
{
    let mut said = Vec::new(alloc);
    append_mended(tally, dropped, &mut said)?;
    put_at(host, made, out)?;
    answers.write_all(&said)?;
    Ok(outcome_by(dropped))
}

// Accepted where each line was taken.
fn outcome_by(dropped: u64) -> Outcome
    ensures { result ≡ outcome_of_dropped dropped }
{
    match dropped {
        0 => Outcome::Accepted,
        _ => Outcome::Refused,
    }
}

// Appends the line that says what was mended.
fn append_mended(tally: &Tally, dropped: u64, out: &mut Vec<u8>) -> Result<(), NoMemory>
    ensures { OnOk result (out.new.items ≡ out.old.items ++ mended_text tally.now dropped) }
{
    out.extend_from_slice(b"mended ")?;
    append_number(tally.nodes.saturating_sub(tally.open_count), out)?;
    out.extend_from_slice(b" dropped ")?;
    append_number(dropped, out)?;
    out.extend_from_slice(b"\n")
}

// The report of a board, by its forms and as it is written.
ghost use Rattle.std.specs.Prelude.{◌≡◌, ◌⊎◌, List, ℕ, IfErr, OnOk, ◌++◌, IfOk, ◌∷◌, [], ◌≤◌, codes, take, length, decimal, OnErr};
ghost use Rattle.std.specs.Io.KnownBytes.{Appends};
ghost use Rattle.std.specs.Vec.Iter.{into_iter_items};
ghost use Rattle.machine_text.specs.Terms.{Packed, empty_table, text_of, state_limit};
ghost use Rattle.cert.specs.Terms.{Recorded};
ghost use Rattle.cmd_ledgers.specs.Report.{IsToldOf, line_of, table_lines, Passes, bytes_of_lines, IsTreeReport, TellsRado, IsReport, status_name, greatest_text, verdicts_text, counts_text, head_text, report_text, IsReportIn, Wording, IsTreeReportIn, TellsRadoIn};
ghost use Rattle.cmd_ledgers.specs.LedgerReport.{IsLines, left_text};
ghost use Rattle.law_tree.specs.Terms.{IsComplete};
ghost use Rattle.ledger.specs.Terms.{mark_in, Contents, IsBoard};

use cmd_options::Ended;
use kind_evidence::NoMemory;
use ledger::{Board, Champions, Holdouts, Left, Status, Tally};
use machine_text::{TEXT_BYTES, Table};
use std::alloc::Global;
use std::io::{self, Write};
use std::vec::IntoIter;
use text::append_number;

/// A form in which a report is printed. A report is made first, by what may be refused memory and has
/// nothing to write to; it is then written by what has nothing to take memory from, and can fail for its stream alone.
pub trait ReportForm {
    ghost use Rattle.std.specs.Prelude.{List, ℕ, IfOk, OnOk};
    ghost use Rattle.std.specs.Io.KnownBytes.{Appends};
    ghost use Rattle.machine_text.specs.Terms.{Packed};
    ghost use Rattle.cert.specs.Terms.{Recorded};
    ghost use Rattle.ledger.specs.declared.loading.Left.{Left as LeftOver};
    ghost use Rattle.cmd_ledgers.specs.Report.{IsToldOf};

    /// A report that is made.
    type Made: Drop;

    /// What is printed of a root and its records, and of what wasn't kept of their ledger.
    ghost is_text: { Self → Packed → List Recorded → LeftOver → List ℕ → Type 0 };

    /// The bytes of a report that is made.
    ghost bytes: { Self.Made → List ℕ };

    /// Makes the report of what is told.
    fn make(&self, alloc: Global, told: Told, left: &Left) -> Result<Self::Made, NoMemory>
        ensures { IfOk result (λ made. (root : Packed) (rs : List Recorded) → IsToldOf root rs told
            → is_text self.now root rs left.now (bytes made)) };

    /// Writes a report that is made.
    fn write<W: Write>(&self, made: Self::Made, answers: &mut W) -> io::Result<()>
        ensures { OnOk result (Appends (W.contents answers.old) (W.contents answers.new) (bytes made)) };
}

/// Writes the report of a board in a form. Where memory is refused, nothing was written.
pub fn write_report<P: ReportForm, W: Write>(
    alloc: Global,
    form: &P,
    board: &Board,
    left: &Left,
    answers: &mut W,
) -> Result<(), Ended>
    ensures ok { OnOk result ((text : List ℕ) × P.is_text form.now board.now.root board.now.records left.now text
        × Appends (W.contents answers.old) (W.contents answers.new) text) }
    ensures err { IfErr result (λ e. ((e ≡ Ended.NoMemory) × (answers.new ≡ answers.old)) ⊎ (e ≡ Ended.Stream)) }
{
    write_told(alloc, form, Told::of(board)?, left, answers)
}

/// Writes the report of what is told in a form. Where memory is refused, nothing was written.
pub fn write_told<P: ReportForm, W: Write>(
    alloc: Global,
    form: &P,
    told: Told,
    left: &Left,
    answers: &mut W,
) -> Result<(), Ended>
    ensures ok { OnOk result ((root : Packed) (rs : List Recorded) → IsToldOf root rs told → (text : List ℕ)
        × P.is_text form.now root rs left.now text
        × Appends (W.contents answers.old) (W.contents answers.new) text) }
    ensures err { IfErr result (λ e. ((e ≡ Ended.NoMemory) × (answers.new ≡ answers.old)) ⊎ (e ≡ Ended.Stream)) }
{
    let made = form.make(alloc, told, left)?;
    form.write(made, answers)?;
    Ok(())
}

/// The report as lines, and `left LINE` where not all of a ledger was kept.
#[derive(Clone, Copy, Debug, Drop)]
pub struct AsLines;

impl ReportForm for AsLines {
    ghost use Rattle.cmd_ledgers.specs.LedgerReport.{IsLines};
    ghost use Rattle.cmd_ledgers.specs.Report.{bytes_of_lines};

    type Made = LineReport;

    ghost is_text = { λ form. IsLines };

    ghost bytes = { bytes_of_lines };

    fn make(&self, alloc: Global, told: Told, left: &Left) -> Result<LineReport, NoMemory> {
        line_report(alloc, told, left)
    }

    fn write<W: Write>(&self, made: LineReport, answers: &mut W) -> io::Result<()> {
        write_lines(made, answers)
    }
}

// How many bytes are gathered before they are written.
const PIECE_BYTES: usize = 16_384;

/// The lines of a report, with all the memory that they take.
#[derive(Drop)]
pub struct LineReport {
    // the lines before those of the tables, with room for more
    head: Vec<u8>,
    champions: Champions,
    // the line of the greatest score
    ones: Vec<u8>,
    ones_champions: Champions,
    holdouts: Holdouts,
    // what wasn't kept
    tail: Vec<u8>,
}

// Makes the report of what is told, and `left LINE` where not all of a ledger was kept.
pub(crate) fn line_report(alloc: Global, told: Told, left: &Left) -> Result<LineReport, NoMemory>
    ensures { IfOk result (λ made. (root : Packed) (rs : List Recorded) → IsToldOf root rs told
        → IsLines root rs left.now (bytes_of_lines made)) }
{
    let Told {
        root,
        status,
        tally,
        champions,
        ones_champions,
        holdouts,
    } = told;
    let mut head = Vec::with_capacity(alloc, PIECE_BYTES)?;
    append_head(&root, status, &tally, &mut head)?;
    let mut ones = Vec::new(alloc);
    append_greatest(b"ones", tally.ones, &mut ones)?;
    let mut tail = Vec::new(alloc);
    append_left(left, &mut tail)?;
    Ok(LineReport {
        head,
        champions,
        ones,
        ones_champions,
        holdouts,
        tail,
    })
}

// Writes a report that is made. The whole text never stands in memory.
pub(crate) fn write_lines<W: Write>(made: LineReport, answers: &mut W) -> io::Result<()>
    ensures { OnOk result (Appends (W.contents answers.old) (W.contents answers.new) (bytes_of_lines made)) }
{
    let LineReport {
        head,
        champions,
        ones,
        ones_champions,
        holdouts,
        tail,
    } = made;
    let mut piece = head;
    pass_tables(b"champion", champions, &mut piece, answers)?;
    pass(&ones, &mut piece, answers)?;
    pass_tables(b"ones_champion", ones_champions, &mut piece, answers)?;
    pass_tables(b"holdout", holdouts, &mut piece, answers)?;
    pass(&tail, &mut piece, answers)?;
    answers.write_all(&piece)
}

// Passes on a line for each table.
fn pass_tables<W: Write>(
    name: &[u8],
    tables: IntoIter<Table>,
    piece: &mut Vec<u8>,
    answers: &mut W,
) -> io::Result<()>
    ensures { OnOk result (Passes (W.contents answers.old) piece.old.items (W.contents answers.new) piece.new.items
        (table_lines name.now (into_iter_items tables))) }
{
    for table in tables {
        pass_line(name, &table, piece, answers)?;
    }
    Ok(())
}

// Passes on the line of a table.
fn pass_line<W: Write>(
    name: &[u8],
    t: &Table,
    piece: &mut Vec<u8>,
    answers: &mut W,
) -> io::Result<()>
    ensures { OnOk result (Passes (W.contents answers.old) piece.old.items (W.contents answers.new) piece.new.items
        (line_of name.now (text_of t.now))) }
{
    let mut buf = [0; TEXT_BYTES];
    pass(name, piece, answers)?;
    pass(b" ", piece, answers)?;
    pass(t.text(&mut buf), piece, answers)?;
    pass(b"\n", piece, answers)
}

/// Passes bytes on to a writer by way of a piece in memory: they come behind the piece, or, where it has no room for them,
/// it is written, and they behind it. The piece never grows.
pub fn pass<W: Write>(bytes: &[u8], piece: &mut Vec<u8>, answers: &mut W) -> io::Result<()>
    ensures { OnOk result (Passes (W.contents answers.old) piece.old.items (W.contents answers.new) piece.new.items
        bytes.now) }
{
    if bytes.len() > piece.capacity() - piece.len() {
        answers.write_all(piece.as_slice())?;
        piece.clear();
        return answers.write_all(bytes);
    }
    match piece.extend_from_slice(bytes) {
        Ok(()) => Ok(()),
        Err(_) => unreachable!(),
    }
}

/// Appends which line wasn't kept, where there is one.
pub(crate) fn append_left(left: &Left, out: &mut Vec<u8>) -> Result<(), NoMemory>
    ensures { OnOk result (out.new.items ≡ out.old.items ++ left_text left.now) }
{
    match left {
        Left::Nothing => Ok(()),
        Left::From { line, .. } => {
            out.extend_from_slice(b"left ")?;
            append_number(*line, out)?;
            out.extend_from_slice(b"\n")
        }
    }
}

/// Appends the report of a board: its root, how it stands, how many tables there are of each kind, the greatest
/// recorded number of steps and its champions, the greatest recorded score and its champions, and the holdouts, all in
/// the order of their texts. That of a complete board is a function of its root alone; where that root is the empty
/// table of n states, its best is S(n) and its ones are Σ(n) (Radó 1962). Where memory is refused, `out` is as it was.
#[tactic(auto, using(crate::proofs::TreeReports::tree_report, crate::proofs::TreeReports::tells_rado))]
pub fn report(board: &Board, out: &mut Vec<u8>) -> Result<(), NoMemory>
    ensures ok { OnOk result ((text : List ℕ) × IsReport board.now.root board.now.records text
        × (out.new.items ≡ out.old.items ++ text)) }
    ensures complete { OnOk result (IsComplete board.now.root (mark_in board.now.records) →
        (text : List ℕ) × IsTreeReport board.now.root text × (out.new.items ≡ out.old.items ++ text)) }
    ensures rado { OnOk result (IsComplete board.now.root (mark_in board.now.records) → (n : ℕ) → 1 ≤ n
        → n ≤ state_limit →
        board.now.root ≡ empty_table n → (text : List ℕ) × TellsRado n text × (out.new.items ≡ out.old.items ++ text)) }
    ensures err { OnErr result (out.new.items ≡ out.old.items) }
{
    // The proof needs that it is a board.
    let _ = board.root();
    let len = out.len();
    match append_report(board, out) {
        Ok(()) => Ok(()),
        Err(fault) => {
            out.truncate(len);
            Err(fault)
        }
    }
}

// Appends the report; where memory is refused, a beginning of it.
fn append_report(board: &Board, out: &mut Vec<u8>) -> Result<(), NoMemory>
    ensures ok { OnOk result ((text : List ℕ) × IsReport board.now.root board.now.records text
        × (out.new.items ≡ out.old.items ++ text)) }
    ensures kept { take (length out.old.items) out.new.items ≡ out.old.items }
{
    let (champions, ones_champions, holdouts) = board.champions_and_holdouts()?;
    let tally = board.tally();
    append_head(board.root(), board.status(), &tally, out)?;
    append_tables(b"champion", champions, out)?;
    append_greatest(b"ones", tally.ones, out)?;
    append_tables(b"ones_champion", ones_champions, out)?;
    append_tables(b"holdout", holdouts, out)
}

/// Appends the lines of a report that stand before those of the tables; where memory is refused, a
/// beginning of them.
pub(crate) fn append_head(
    root: &Table,
    status: Status,
    tally: &Tally,
    out: &mut Vec<u8>,
) -> Result<(), NoMemory>
    ensures ok { OnOk result (out.new.items ≡ out.old.items ++ head_text root.now (status_name status) tally.now) }
    ensures kept { take (length out.old.items) out.new.items ≡ out.old.items }
{
    append_table_line(b"root", root, out)?;
    append_line(b"status", status_name(status).as_bytes(), out)?;
    append_counts(tally, out)
}

/// The word for how a board stands.
pub fn status_name(status: Status) -> &'static str
    ensures { result.now ≡ status_name status }
{
    match status {
        Status::Working { .. } => "working",
        Status::Holdouts { .. } => "holdouts",
        Status::Complete { .. } => "complete",
    }
}

// Appends the lines of the counts.
fn append_counts(tally: &Tally, out: &mut Vec<u8>) -> Result<(), NoMemory>
    ensures ok { OnOk result (out.new.items ≡ out.old.items ++ counts_text tally.now) }
    ensures kept { take (length out.old.items) out.new.items ≡ out.old.items }
{
    append_verdict_counts(tally, out)?;
    append_count(b"holdouts", tally.holdouts, out)?;
    append_count(b"open", tally.open_count, out)?;
    append_greatest(b"best", tally.best, out)
}

// Appends the lines of the nodes and of the verdicts.
fn append_verdict_counts(tally: &Tally, out: &mut Vec<u8>) -> Result<(), NoMemory>
    ensures ok { OnOk result (out.new.items ≡ out.old.items ++ verdicts_text tally.now) }
    ensures kept { take (length out.old.items) out.new.items ≡ out.old.items }
{
    append_count(b"nodes", tally.nodes, out)?;
    append_count(b"halting", tally.halting, out)?;
    append_count(b"never", tally.never, out)
}

/// Appends the line of a greatest number; where memory is refused, a beginning of it.
pub(crate) fn append_greatest(
    name: &[u8],
    greatest: Option<u64>,
    out: &mut Vec<u8>,
) -> Result<(), NoMemory>
    ensures ok { OnOk result (out.new.items ≡ out.old.items ++ line_of name.now (greatest_text greatest)) }
    ensures kept { take (length out.old.items) out.new.items ≡ out.old.items }
{
    match greatest {
        Some(greatest) => append_count(name, greatest, out),
        None => append_line(name, b"none", out),
    }
}

// Appends a line for each table.
fn append_tables(name: &[u8], tables: IntoIter<Table>, out: &mut Vec<u8>) -> Result<(), NoMemory>
    ensures ok { OnOk result (out.new.items ≡ out.old.items ++ table_lines name.now (into_iter_items tables)) }
    ensures kept { take (length out.old.items) out.new.items ≡ out.old.items }
{
    for table in tables {
        append_table_line(name, &table, out)?;
    }
    Ok(())
}

// Appends a line of a table.
fn append_table_line(name: &[u8], t: &Table, out: &mut Vec<u8>) -> Result<(), NoMemory>
    ensures ok { OnOk result (out.new.items ≡ out.old.items ++ line_of name.now (text_of t.now)) }
    ensures kept { take (length out.old.items) out.new.items ≡ out.old.items }
{
    let mut buf = [0; TEXT_BYTES];
    append_line(name, t.text(&mut buf), out)
}

// Appends a line of a number.
fn append_count(name: &[u8], n: u64, out: &mut Vec<u8>) -> Result<(), NoMemory>
    ensures ok { OnOk result (out.new.items ≡ out.old.items ++ line_of name.now (decimal n)) }
    ensures kept { take (length out.old.items) out.new.items ≡ out.old.items }
{
    out.extend_from_slice(name)?;
    out.extend_from_slice(b" ")?;
    append_number(n, out)?;
    out.extend_from_slice(b"\n")
}

// Appends a line.
fn append_line(name: &[u8], value: &[u8], out: &mut Vec<u8>) -> Result<(), NoMemory>
    ensures ok { OnOk result (out.new.items ≡ out.old.items ++ line_of name.now value.now) }
    ensures kept { take (length out.old.items) out.new.items ≡ out.old.items }
{
    out.extend_from_slice(name)?;
    out.extend_from_slice(b" ")?;
    out.extend_from_slice(value)?;
    out.extend_from_slice(b"\n")
}

/// All that a report tells, of one board or of several that are told of as one.
#[derive(Drop)]
pub struct Told {
    /// The root of the tree.
    pub root: Table,
    /// How the tree stands.
    pub status: Status,
    /// How many tables there are of each kind, the greatest number of steps and the greatest score.
    pub tally: Tally,
    /// The tables with that number of steps, in the order of their texts.
    pub champions: Champions,
    /// The tables with that score, in the order of their texts.
    pub ones_champions: Champions,
    /// The tables recorded without a verdict, in the order of their texts.
    pub holdouts: Holdouts,
}

impl Told {
    /// What a report tells of a board.
    pub fn of(board: &Board) -> Result<Told, NoMemory>
        ensures { IfOk result (IsToldOf board.now.root board.now.records) }
    {
        let (champions, ones_champions, holdouts) = board.champions_and_holdouts()?;
        Ok(Told {
            root: *board.root(),
            status: board.status(),
            tally: board.tally(),
            champions,
            ones_champions,
            holdouts,
        })
    }
}

/// The report of a complete board, in any wording, is that of its root's tree, and a tree has one: it is a function of
/// the root alone, whatever records, certificates and restarts the board came from. Where that root is the empty table
/// of n states, the best that it tells is S(n), and the ones are Σ(n) (Radó 1962).
pub fn complete_boards_report_their_tree()
    ensures tree { (wording : Wording) (b : Contents) (text : List ℕ) → IsBoard b →
        IsComplete b.root (mark_in b.records) → IsReportIn wording b.root b.records text →
        IsTreeReportIn wording b.root text }
    ensures rado { (wording : Wording) (b : Contents) (n : ℕ) (text : List ℕ) → IsBoard b →
        IsComplete b.root (mark_in b.records) → 1 ≤ n → n ≤ state_limit → b.root ≡ empty_table n →
        IsReportIn wording b.root b.records text → TellsRadoIn wording n text }
    ensures one { (wording : Wording) (root : Packed) (a b : List ℕ) → IsTreeReportIn wording root a →
        IsTreeReportIn wording root b → a ≡ b }
{}

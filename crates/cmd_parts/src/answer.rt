// What is said of a table by a board, of a ledger behind its name, and of parts that haven't come.
ghost use Rattle.std.specs.Prelude.{◌≡◌, ◌++◌, List, ℕ, IfOk, IfSome, OnOk, option_map, ◌<◌, ◌↔◌, Contains, IfNone, IsTrue, IfErr, false};
ghost use Rattle.std.specs.Io.KnownBytes.{Appends};
ghost use Rattle.machine_text.specs.Terms.{text_of, Packed, entry_of};
ghost use Rattle.cert.specs.Terms.{claim_of, recorded};
ghost use Rattle.ledger.specs.Terms.{claim_in, IsOpenOn};
ghost use Rattle.cmd_lines.specs.Terms.{fault_text, read_line_table, lent};
ghost use Rattle.cmd_parts.specs.Look.{SaysByBoard, SaysOpen, SaysUnknown, SaysUnrecorded, ComesOf, ComesOfNone, StaysEntry};
ghost use Rattle.machine_text.specs.declared.table.Sym.{Sym as Symbol};
ghost use Rattle.machine_text.specs.declared.table.Sym.TheVariants.{Zero, One};
ghost use Rattle.cmd_options.specs.Terms.{PrintsNothing};
ghost use Rattle.cmd_parts.specs.inside.Joining.{SaysMissed, SaysMissedFirst, SaysRoot};
ghost use Rattle.cmd_parts.specs.Join.{is_silent, left_line, line_behind};
ghost use Rattle.cmd_parts.specs.Stream.{name_of};

use cert::{Record, RecordFault, append_table};
use cmd_lines::append_fault;
use cmd_options::{Ended, Outcome};
use indexmap::IndexSet;
use kind_evidence::NoMemory;
use ledger::{Board, Left, Open, Records};
use machine_text::{State, Sym, Table};
use std::alloc::Global;
use std::io::Write;
use text::append_number;

// The table of a line, which is none where it was too long.
pub(crate) fn table_of_line(line: Option<&[u8]>) -> Result<Table, RecordFault>
    ensures { result ≡ read_line_table (lent line.entry) }
{
    match line {
        Some(text) => match Table::parse(text) {
            Ok(table) => Ok(table),
            Err(fault) => Err(RecordFault::BadTable(fault)),
        },
        None => Err(RecordFault::TooLong),
    }
}

// Appends why a line has no table.
pub(crate) fn refuse(fault: RecordFault, out: &mut Vec<u8>) -> Result<Outcome, NoMemory>
    ensures { IfOk result (λ o. (o ≡ Outcome.Refused) × (out.new.items ≡ out.old.items ++ fault_text fault)) }
{
    append_fault(fault, out)?;
    Ok(Outcome::Refused)
}

// Appends a table's record on a board; where there is none, whether it is open there.
pub(crate) fn append_by_board(
    board: &Board,
    t: &Table,
    out: &mut Vec<u8>,
) -> Result<Outcome, NoMemory>
    ensures { IfOk result (λ o. (answer : List ℕ) × SaysByBoard board.now t.now o answer
        × (out.new.items ≡ out.old.items ++ answer)) }
{
    match record_on(board, t) {
        Some(record) => {
            record.write_text(out)?;
            Ok(Outcome::Accepted)
        }
        None => append_unrecorded(board, t, out),
    }
}

// Appends that a table is open on a board, or that it isn't.
fn append_unrecorded(board: &Board, t: &Table, out: &mut Vec<u8>) -> Result<Outcome, NoMemory>
    ensures { IfOk result (λ o. (answer : List ℕ) × SaysUnrecorded board.now t.now o answer
        × (out.new.items ≡ out.old.items ++ answer)) }
{
    if board.is_open(t) {
        append_open(t, out)
    } else {
        append_unknown(t, out)
    }
}

// Appends that a table is open.
fn append_open(t: &Table, out: &mut Vec<u8>) -> Result<Outcome, NoMemory>
    ensures { IfOk result (λ o. (answer : List ℕ) × SaysOpen t.now o answer
        × (out.new.items ≡ out.old.items ++ answer)) }
{
    append_table(t, out)?;
    out.extend_from_slice(b" open")?;
    Ok(Outcome::Refused)
}

// Appends that a table is unknown.
pub(crate) fn append_unknown(t: &Table, out: &mut Vec<u8>) -> Result<Outcome, NoMemory>
    ensures { IfOk result (λ o. (answer : List ℕ) × SaysUnknown t.now o answer
        × (out.new.items ≡ out.old.items ++ answer)) }
{
    append_table(t, out)?;
    out.extend_from_slice(b" unknown")?;
    Ok(Outcome::Refused)
}

// The record of a table on a board.
fn record_on<'a>(board: &'a Board, t: &Table) -> Option<Record<'a>>
    ensures claim { option_map (λ r. claim_of r.certificate) result ≡ claim_in board.now.records t.now }
    ensures table { IfSome result (λ r. r.table ≡ t.now) }
{
    if board.is_recorded(t) {
        record_among(board.records(), t)
    } else {
        None
    }
}

// The first record of a table among some.
fn record_among<'a>(records: Records<'a>, t: &Table) -> Option<Record<'a>>
    ensures claim { option_map (λ r. claim_of r.certificate) result ≡ claim_in records.entry t.now }
    ensures table { IfSome result (λ r. r.table ≡ t.now) }
{
    for record in records {
        if record.table == *t {
            return Some(record);
        }
    }
    None
}

// The open table of a trunk of which a table is.
pub(crate) fn root_above(trunk: &Board, t: &Table) -> Option<Table>
    ensures some { IfSome result (λ root. IsOpenOn trunk.now root × ComesOf t.now root) }
    ensures none { IfNone result (ComesOfNone trunk.now t.now) }
{
    root_among(trunk.open(), t)
}

// The first of some tables of which a table is.
fn root_among(roots: Open<'_>, t: &Table) -> Option<Table>
    ensures some { IfSome result (λ root. Contains roots.entry root × ComesOf t.now root) }
    ensures none { IfNone result ((root : Packed) → Contains roots.entry root → ComesOf t.now root → ⊥) }
{
    for root in roots {
        if is_of(t, root) {
            return Some(*root);
        }
    }
    None
}

// Whether a table has each entry of a root, and as many states.
fn is_of(t: &Table, root: &Table) -> bool
    ensures { IsTrue result ↔ ComesOf t.now root.now }
{
    t.states() == root.states() && has_entries(t, root)
}

// Whether a table of as many states has each entry of a root.
fn has_entries(t: &Table, root: &Table) -> bool
    requires { t.now.states ≡ root.now.states }
    ensures { IsTrue result ↔ ComesOf t.now root.now }
{
    for q in 0..root.states() {
        if !has_row(t, root, State(q)) {
            return false;
        }
    }
    true
}

// Whether it has the entries of a state.
fn has_row(t: &Table, root: &Table, q: State) -> bool
    requires own { q.0 < t.now.states }
    requires its { q.0 < root.now.states }
    ensures { IsTrue result ↔ (StaysEntry (entry_of root.now q.0 Zero) (entry_of t.now q.0 Zero)
        × StaysEntry (entry_of root.now q.0 One) (entry_of t.now q.0 One)) }
{
    has_entry(t, root, q, Sym::Zero) && has_entry(t, root, q, Sym::One)
}

// Whether it has the entry at a pair.
fn has_entry(t: &Table, root: &Table, q: State, s: Sym) -> bool
    requires own { q.0 < t.now.states }
    requires its { q.0 < root.now.states }
    ensures { IsTrue result ↔ StaysEntry (entry_of root.now q.0 s) (entry_of t.now q.0 s) }
{
    match root.get(q, s) {
        Some(entry) => t.get(q, s) == Some(entry),
        None => true,
    }
}

// Says which of these roots aren't among those that came, and answers whether all are.
pub(crate) fn says_missing<E: Write>(
    alloc: Global,
    roots: &[Table],
    came: &IndexSet<Table>,
    faults: &mut E,
) -> Result<bool, Ended>
    ensures ok { IfOk result (λ sound. SaysMissed came.now.keys roots.now sound (E.contents faults.old)
        (E.contents faults.new)) }
    ensures first { IfErr result (λ e. SaysMissedFirst came.now.keys roots.now (E.contents faults.old) e
        (E.contents faults.new)) }
{
    let mut are_all = true;
    for root in roots {
        if !looked_for(alloc, root, came, faults)? {
            are_all = false;
        }
    }
    Ok(are_all)
}

// Says where a root isn't among those that came, and answers whether it is.
fn looked_for<E: Write>(
    alloc: Global,
    root: &Table,
    came: &IndexSet<Table>,
    faults: &mut E,
) -> Result<bool, Ended>
    ensures ok { IfOk result (λ sound. SaysRoot came.now.keys root.now sound (E.contents faults.old)
        (E.contents faults.new)) }
    ensures err { IfErr result (λ e. PrintsNothing e (E.contents faults.old) (E.contents faults.new)) }
{
    if has_root(came, root) {
        return Ok(true);
    }
    let name = root_name(alloc, root)?;
    says(alloc, &name, b"missing", faults)
}

// Whether a root is among those that came.
fn has_root(came: &IndexSet<Table>, root: &Table) -> bool
    ensures { IsTrue result ↔ Contains came.now.keys root.now }
{
    came.contains(root)
}

// The name of a part: the text of its root.
pub(crate) fn root_name(alloc: Global, root: &Table) -> Result<Vec<u8>, NoMemory>
    ensures { IfOk result (λ name. name.items ≡ text_of root.now) }
{
    let mut name = Vec::new(alloc);
    append_table(root, &mut name)?;
    Ok(name)
}

// The name of a ledger that has no root.
pub(crate) fn numbered(alloc: Global, number: u64) -> Result<Vec<u8>, NoMemory>
    ensures { IfOk result (λ name. name.items ≡ name_of number) }
{
    let mut name = Vec::new(alloc);
    name.extend_from_slice(b"ledger ")?;
    append_number(number, &mut name)?;
    Ok(name)
}

// Says behind a name which line wasn't kept, where there is one, and answers whether all was.
pub(crate) fn says_left<E: Write>(
    alloc: Global,
    name: &[u8],
    left: &Left,
    faults: &mut E,
) -> Result<bool, Ended>
    ensures ok { IfOk result (λ sound. (sound ≡ is_silent (left_line name.now left.now))
        × Appends (E.contents faults.old) (E.contents faults.new) (left_line name.now left.now)) }
    ensures err { IfErr result (λ e. PrintsNothing e (E.contents faults.old) (E.contents faults.new)) }
{
    match left {
        Left::Nothing => Ok(true),
        Left::From { line, .. } => {
            let mut told = Vec::new(alloc);
            told.extend_from_slice(b"left ")?;
            append_number(*line, &mut told)?;
            says(alloc, name, &told, faults)
        }
    }
}

// Says behind a name what is wrong; so all isn't sound.
pub(crate) fn says<E: Write>(
    alloc: Global,
    name: &[u8],
    what: &[u8],
    faults: &mut E,
) -> Result<bool, Ended>
    ensures ok { IfOk result (λ sound. (sound ≡ false)
        × Appends (E.contents faults.old) (E.contents faults.new) (line_behind name.now what.now)) }
    ensures err { IfErr result (λ e. PrintsNothing e (E.contents faults.old) (E.contents faults.new)) }
{
    let mut line = Vec::new(alloc);
    line.extend_from_slice(name)?;
    line.extend_from_slice(b": ")?;
    line.extend_from_slice(what)?;
    line.extend_from_slice(b"\n")?;
    faults.write_all(&line)?;
    Ok(false)
}

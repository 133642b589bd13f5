// What a worker does to its board, and asks of it.
ghost use Rattle.std.specs.List.{list_any};
ghost use Rattle.std.specs.Prelude.{◌≡◌, ◌<◌, ◌↔◌, ℕ, false, IsTrue, Some, IfSome, IfNone, IfOk, OnOk, OnErr, length};
ghost use Rattle.cert.specs.Terms.{IsShownBy, owned_recorded, recorded};
ghost use Rattle.machine_text.specs.Terms.{entry_of};
ghost use Rattle.law_tree.specs.Terms.{InOrder};
ghost use Rattle.ledger.specs.Terms.{HasScore, same_table};
ghost use Rattle.lease_core.specs.Limits.{work_record_limit};
ghost use Rattle.lease_core.specs.WorkerState.{HasRoot, IsRecordedOn, MayWork, with_table};
ghost use Rattle.lease_core.specs.WorkerRules.{IsFirstOpen, Makes};

use crate::limits::MAX_WORK_RECORDS;
use crate::worker_answers::frame_of;
use cert::{Judged, OwnedRecord, Record};
use indexmap::IndexSet;
use kind_evidence::NoMemory;
use ledger::{Board, Taken};
use machine_text::Table;
use std::alloc::Global;
use wire::{Note, Out};

// Whether a work turn may make one more record.
fn has_few(board: &Board) -> bool
    ensures { IsTrue result ↔ (length board.now.records < work_record_limit) }
{
    let tally = board.tally();
    tally.nodes - tally.open_count < MAX_WORK_RECORDS
}

// The table of which a work turn makes a record, if there is one.
pub(crate) fn next_table(board: &Board) -> Option<Table>
    ensures first { IfSome result (IsFirstOpen board.now) }
    ensures few { IfSome result (λ t. length board.now.records < work_record_limit) }
    ensures none { IfNone result (MayWork (Some board.now) → ⊥) }
{
    if !has_few(board) {
        return None;
    }
    match board.open().next() {
        Some(t) => Some(*t),
        None => None,
    }
}

// Whether a board is of this root.
pub(crate) fn has_root(board: &Option<Board>, t: &Table) -> bool
    ensures root { IsTrue result ↔ HasRoot board.now t.now }
    ensures order { IsTrue result → (u : ℕ) × InOrder u (entry_of t.now) }
{
    match board {
        Some(board) => board.root() == t,
        None => false,
    }
}

// Whether a table has a record on a board.
pub(crate) fn is_recorded(board: &Option<Board>, t: &Table) -> bool
    ensures { IsTrue result ↔ IsRecordedOn board.now t.now }
{
    match board {
        Some(board) => board.is_recorded(t),
        None => false,
    }
}

// Puts a record of its first open table on a board, and answers so.
pub(crate) fn make(
    alloc: Global,
    board: &mut Board,
    made: &OwnedRecord,
    judged: Judged,
) -> Result<Out, NoMemory>
    requires first { IsFirstOpen board.old made.now.table }
    requires few { length board.old.records < work_record_limit }
    requires shown { IsShownBy (owned_recorded made.now) judged }
    ensures ok { IfOk result (λ out. Makes board.old (owned_recorded made.now) out (Some board.new)) }
    ensures err { OnErr result (board.new ≡ board.old) }
{
    // The parts by their names: the borrow checker's proof has to know of what the record is made.
    let r = Record {
        table: made.table,
        certificate: made.certificate.lent(),
    };
    match r.scored(alloc) {
        Ok(scored) => put(alloc, board, &scored, judged),
        Err(_) => Err(NoMemory),
    }
}

// Puts a record that has its score. Its frame comes before the offer, and its line with that: once the board has
// taken the record, nothing may be refused.
fn put(alloc: Global, board: &mut Board, r: &Record, judged: Judged) -> Result<Out, NoMemory>
    requires first { IsFirstOpen board.old r.now.table }
    requires few { length board.old.records < work_record_limit }
    requires shown { IsShownBy (recorded r.now) judged }
    requires scored { HasScore (recorded r.now) }
    ensures ok { IfOk result (λ out. Makes board.old (recorded r.now) out (Some board.new)) }
    ensures err { OnErr result (board.new ≡ board.old) }
{
    // The proof needs that it is a board.
    let _ = board.root();
    let frames = frame_of(alloc, r)?;
    let mut append = Vec::new(alloc);
    match board.offer_judged_line(r, judged, &mut append) {
        Ok(Taken::New) => Ok(Out {
            cut: None,
            append,
            frames,
            note: Note::Quiet,
        }),
        Ok(Taken::Known) | Ok(Taken::Settled) => unreachable!(),
        // its table is open and it is certified, so it was memory
        Err(_) => Err(NoMemory),
    }
}

// Puts a table among those whose records were acknowledged.
#[tactic(auto, unfolding(ledger::specs::Records::same_table))]
pub(crate) fn acknowledge(acknowledged: &mut IndexSet<Table>, t: Table) -> Result<(), NoMemory>
    ensures ok { OnOk result (acknowledged.new.keys ≡ with_table acknowledged.old.keys t) }
    ensures err { OnErr result (acknowledged.new.keys ≡ acknowledged.old.keys) }
    ensures grows { OnErr result (list_any (same_table t) acknowledged.old.keys ≡ false) }
{
    match acknowledged.insert(t) {
        Ok(_) => Ok(()),
        Err(_) => Err(NoMemory),
    }
}

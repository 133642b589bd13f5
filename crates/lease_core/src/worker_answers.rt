// What a frame tells a worker, what its answers are made of, and the laws of workers.
ghost use Rattle.std.specs.Prelude.{Ok, ◌≡◌, ◌≢◌, ◌++◌, ◌∷◌, [], IfOk, OnErr, OnOk, map, take, Result};
ghost use Rattle.wire.specs.Terms.{message_of, said, frames_of, Ask as AskMessage, Done as DoneMessage, Rec as RecMessage, Happening};
ghost use Rattle.lease_core.specs.inside.{AreTidings, AreFirstAcknowledged};
ghost use Rattle.cert.specs.Terms.{recorded};
ghost use Rattle.ledger.specs.Terms.{ledger_text};
ghost use Rattle.lease_core.specs.Limits.{tick_record_limit};
ghost use Rattle.lease_core.specs.WorkerRules.{done_with, Answers, Row};
ghost use Rattle.lease_core.specs.WorkerState.{unacknowledged, WorkerState, SendsOwn, Gains};
ghost use Rattle.wire.specs.declared.node.NodeFault.{NodeFault as Failure};
ghost use Rattle.wire.specs.declared.node.Out.{Out as Answer};
ghost use Rattle.lease_core.specs.Says.{KeepsComplete, IsGrant};

use crate::limits::MAX_TICK_RECORDS;
use cert::{Decider, Record};
use indexmap::IndexSet;
use kind_evidence::NoMemory;
use ledger::Board;
use machine_text::Table;
use std::alloc::Global;
use text::append_number;
use wire::{Msg, decode, encode};

/// The name of a lease as a grant gives it.
#[derive(Clone, Copy, Debug, PartialEq, Eq)]
pub struct LeaseName {
    /// The coordinator's era.
    pub era: u64,
    /// The number of the lease.
    pub number: u64,
}

// What a frame tells a worker, without the frame.
#[derive(Clone, Copy)]
pub(crate) enum Tidings {
    Granted(LeaseName, Table),
    Acknowledged(Table),
    Later,
    Stop,
    // nothing that is for a worker
    Strange,
}

pub(crate) fn tidings_of(frame: &[u8]) -> Tidings
    ensures { AreTidings (message_of frame.now) result }
{
    let message = decode(frame);
    match &message {
        Ok(m) => tidings_by(m),
        Err(_) => Tidings::Strange,
    }
}

fn tidings_by(m: &Msg<'_>) -> Tidings
    ensures { AreTidings (Ok (said m.now)) result }
{
    match m {
        Msg::Grant { era, lease, table } => {
            let name = LeaseName {
                era: *era,
                number: *lease,
            };
            Tidings::Granted(name, *table)
        }
        Msg::Ack(table) => Tidings::Acknowledged(*table),
        Msg::Later(_) => Tidings::Later,
        Msg::Stop => Tidings::Stop,
        Msg::Ask { .. } | Msg::Rec(_) | Msg::Done { .. } => Tidings::Strange,
    }
}

// The ledger of a board.
pub(crate) fn ledger_of(alloc: Global, board: &Board) -> Result<Vec<u8>, NoMemory>
    ensures { IfOk result (λ text. text.items ≡ ledger_text board.now.root board.now.records) }
{
    let mut text = Vec::new(alloc);
    board.write_ledger(&mut text)?;
    Ok(text)
}

// Sends one more message.
pub(crate) fn send(m: &Msg<'_>, frames: &mut Vec<u8>) -> Result<(), NoMemory>
    ensures { OnOk result (frames.new.items ≡ frames.old.items ++ frames_of (said m.now ∷ [])) }
{
    encode(m, frames)
}

// The frame of a record, written where it is lent: the borrow checker's proof covers no copy of it in a message.
#[tactic(auto, unfolding(wire::specs::Message::message_text))]
pub(crate) fn frame_of(alloc: Global, r: &Record) -> Result<Vec<u8>, NoMemory>
    ensures { IfOk result (λ frames. frames.items ≡ frames_of (RecMessage (recorded r.now) ∷ [])) }
{
    let mut frames = Vec::new(alloc);
    frames.extend_from_slice(b"REC ")?;
    r.write_text(&mut frames)?;
    frames.extend_from_slice(b"\n")?;
    Ok(frames)
}

// The place of the first record from a place on whose table isn't among those that were acknowledged.
pub(crate) fn first_due(acknowledged: &IndexSet<Table>, board: &Board, from: usize) -> usize
    requires { AreFirstAcknowledged acknowledged.now.keys board.now.records from }
    ensures { AreFirstAcknowledged acknowledged.now.keys board.now.records result }
{
    // The proof needs how many records there can be.
    let _ = board.tally();
    let mut place = from;
    for r in board.records_from(from) {
        if !acknowledged.contains(&r.table) {
            return place;
        }
        place += 1;
    }
    place
}

// The frames of the first records whose tables aren't among those that were acknowledged, where those before a
// place are.
pub(crate) fn frames_due(
    alloc: Global,
    acknowledged: &IndexSet<Table>,
    board: &Board,
    from: usize,
) -> Result<Vec<u8>, NoMemory>
    requires { AreFirstAcknowledged acknowledged.now.keys board.now.records from }
    ensures ok { IfOk result (λ frames. frames.items
        ≡ frames_of (map RecMessage (take tick_record_limit
        (unacknowledged acknowledged.now.keys board.now.records)))) }
    ensures grows { OnErr result (unacknowledged acknowledged.now.keys board.now.records ≢ []) }
{
    let mut frames = Vec::new(alloc);
    let mut room = MAX_TICK_RECORDS;
    for r in board.records_from(from) {
        if room == 0 {
            return Ok(frames);
        }
        if !acknowledged.contains(&r.table) {
            send(&Msg::Rec(r), &mut frames)?;
            room -= 1;
        }
    }
    Ok(frames)
}

// The frames of a worker that is done with its lease, if it has one, and asks for another.
pub(crate) fn asking(alloc: Global, lease: Option<LeaseName>, id: u32) -> Result<Vec<u8>, NoMemory>
    ensures { IfOk result (λ frames. frames.items ≡ frames_of (done_with lease ++ (AskMessage id ∷ []))) }
{
    let mut frames = Vec::new(alloc);
    if let Some(name) = lease {
        send_done(name, &mut frames)?;
    }
    send_ask(id, &mut frames)?;
    Ok(frames)
}

#[tactic(auto, unfolding(wire::specs::Message::message_text))]
fn send_done(name: LeaseName, frames: &mut Vec<u8>) -> Result<(), NoMemory>
    ensures { OnOk result (frames.new.items ≡ frames.old.items ++ frames_of (DoneMessage name.era name.number ∷ [])) }
{
    frames.extend_from_slice(b"DONE ")?;
    append_number(name.era, frames)?;
    frames.extend_from_slice(b" ")?;
    append_number(name.number, frames)?;
    frames.extend_from_slice(b"\n")
}

#[tactic(auto, unfolding(wire::specs::Message::message_text))]
fn send_ask(id: u32, frames: &mut Vec<u8>) -> Result<(), NoMemory>
    ensures { OnOk result (frames.new.items ≡ frames.old.items ++ frames_of (AskMessage id ∷ [])) }
{
    frames.extend_from_slice(b"ASK ")?;
    append_number(u64::from(id), frames)?;
    frames.extend_from_slice(b"\n")
}

/// Each record that a worker sends is a record of its board.
pub fn workers_send_their_records<D: Decider>()
    ensures { (old new : WorkerState D) (e : Happening) (out : Answer) → Row D.answers old e out new
        → SendsOwn out new.board }
{}

/// A worker appends exactly the lines of the records that its board gains, or the header of a board that it
/// begins.
pub fn workers_append_what_they_gain<D: Decider>()
    ensures { (old new : WorkerState D) (e : Happening) (out : Answer) → Row D.answers old e out new
        → Gains old.board out new.board }
{}

/// Complete is final: whatever happens to a worker but a grant, a complete board stays as it is.
pub fn complete_boards_of_workers_stay<D: Decider>()
    ensures { (old new : WorkerState D) (e : Happening) (answer : Result Answer Failure)
        → Answers D.answers old e answer new →
        (IsGrant e → ⊥) → KeepsComplete old.board new.board }
{}

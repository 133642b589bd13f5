// Frames that are written where there is room for them, and answers of either role.
ghost use Rattle.std.specs.Prelude.{◌≡◌, ◌+◌, ◌<◌, ◌≤◌, ◌∷◌, [], ◌++◌, Some, IfOk, decimal, length, None, OnErr, ◌↔◌, IsTrue};
ghost use Rattle.machine_text.specs.Terms.{text_byte_limit, text_of};
ghost use Rattle.wire.specs.Terms.{frames_of, Ack, Later};
ghost use Rattle.lease_core.specs.CoordinatorRules.{reply_of, IsOverLong, IsBeyondPeers};
ghost use Rattle.wire.specs.declared.node.Note.TheVariants.{Quiet};
ghost use Rattle.lease_core.specs.Says.{Says, NotesRefusal};
ghost use Rattle.cert.specs.Terms.{claim_of, recorded};
ghost use Rattle.ledger.specs.Terms.{IsKnown};

use crate::limits::MAX_PEER_STEPS;
use cert::{Certificate, Record};
use itoa::Buffer;
use kind_evidence::NoMemory;
use leases::Reply;
use ledger::Board;
use machine_text::{TEXT_BYTES, Table};
use run::Reach;
use std::alloc::Global;
use wire::{Note, Out};

/// The most bytes of the frame that answers a worker that asks, with its newline: a word, two numbers and a table.
pub(crate) const GRANT_BYTES: usize = 49 + TEXT_BYTES;

// The frame that says that a table's record is held.
#[tactic(auto, unfolding(wire::specs::Message::message_text))]
pub(crate) fn ack_frame(alloc: Global, table: &Table) -> Result<Vec<u8>, NoMemory>
    ensures { IfOk result (λ frame. frame.items ≡ frames_of (Ack table.now ∷ [])) }
{
    let mut frame = Vec::with_capacity(alloc, GRANT_BYTES)?;
    put(b"ACK ", &mut frame);
    put_table(table, &mut frame);
    put(b"\n", &mut frame);
    Ok(frame)
}

// The frame that says that a worker is to keep a table's record.
#[tactic(auto, unfolding(wire::specs::Message::message_text))]
pub(crate) fn later_frame(alloc: Global, table: &Table) -> Result<Vec<u8>, NoMemory>
    ensures { IfOk result (λ frame. frame.items ≡ frames_of (Later (Some table.now) ∷ [])) }
{
    let mut frame = Vec::with_capacity(alloc, GRANT_BYTES)?;
    put(b"LATER ", &mut frame);
    put_table(table, &mut frame);
    put(b"\n", &mut frame);
    Ok(frame)
}

// Puts the answer's frame where there is room for it.
#[tactic(auto, unfolding(wire::specs::Message::message_text))]
pub(crate) fn put_reply(era: u64, reply: &Reply, frames: &mut Vec<u8>)
    requires none { frames.old.items ≡ [] }
    requires room { 49 + text_byte_limit ≤ frames.old.cap }
    ensures { frames.new.items ≡ frames_of (reply_of era reply.now ∷ []) }
{
    match reply {
        Reply::Stop => put(b"STOP", frames),
        Reply::Later => put(b"LATER", frames),
        Reply::Grant { lease, table } => {
            put(b"GRANT ", frames);
            put_number(era, frames);
            put(b" ", frames);
            put_number(*lease, frames);
            put(b" ", frames);
            put_table(table, frames);
        }
    }
    put(b"\n", frames);
}

fn put_number(n: u64, out: &mut Vec<u8>)
    requires { length out.old.items + 20 ≤ out.old.cap }
    ensures items { out.new.items ≡ out.old.items ++ decimal n }
    ensures length { length out.new.items ≤ length out.old.items + 20 }
    ensures capacity { out.old.cap ≤ out.new.cap }
{
    let mut buffer = Buffer::new();
    put(buffer.format(n).as_bytes(), out);
}

fn put_table(t: &Table, out: &mut Vec<u8>)
    requires { length out.old.items + text_byte_limit ≤ out.old.cap }
    ensures items { out.new.items ≡ out.old.items ++ text_of t.now }
    ensures length { length out.new.items ≤ length out.old.items + text_byte_limit }
    ensures capacity { out.old.cap ≤ out.new.cap }
{
    // The proof needs how many states a table has at most.
    let _ = t.states();
    let mut buf = [0; TEXT_BYTES];
    put(t.text(&mut buf), out);
}

// Puts bytes where there is room for them.
fn put(bytes: &[u8], out: &mut Vec<u8>)
    requires { length out.old.items + length bytes.now ≤ out.old.cap }
    ensures items { out.new.items ≡ out.old.items ++ bytes.now }
    ensures capacity { out.old.cap ≤ out.new.cap }
{
    match out.extend_from_slice(bytes) {
        Ok(()) => {}
        Err(_) => unreachable!(),
    }
}

/// Nothing is sent, and this is noted.
pub fn noted(alloc: Global, note: Note) -> Out
    ensures { Says result None [] [] note }
{
    Out {
        cut: None,
        append: Vec::new(alloc),
        frames: Vec::new(alloc),
        note,
    }
}

/// A refusal is noted by its number. What has none is refused memory: `NoMemory`.
pub fn refused(alloc: Global, number: Option<u16>) -> Result<Out, NoMemory>
    ensures ok { IfOk result (λ out. NotesRefusal number out) }
    ensures err { OnErr result (number ≡ None) }
{
    match number {
        Some(number) => Ok(noted(alloc, Note::Refused(number))),
        None => Err(NoMemory),
    }
}

/// Frames are sent, and no more.
pub fn sent(alloc: Global, frames: Vec<u8>) -> Out
    ensures cut { result.cut ≡ None }
    ensures append { result.append.items ≡ [] }
    ensures frames { result.frames ≡ frames }
    ensures note { result.note ≡ Quiet }
{
    Out {
        cut: None,
        append: Vec::new(alloc),
        frames,
        note: Note::Quiet,
    }
}

// Whether the table has a verdict, or is a holdout and no verdict is offered.
pub(crate) fn is_known(board: &Board, r: &Record<'_>) -> bool
    ensures { IsTrue result ↔ IsKnown board.now.records (recorded r.now) }
{
    match r.certificate.ending() {
        Some(_) => board.verdict(&r.table).is_some(),
        None => board.is_recorded(&r.table),
    }
}

// Whether it is a late halt of more steps than those that are judged for a peer.
pub(crate) fn is_beyond_peers(certificate: &Certificate<'_>) -> bool
    ensures { IsTrue result ↔ IsBeyondPeers (claim_of certificate.now) }
{
    match certificate {
        Certificate::Halts(e) => is_beyond(e.reach, e.steps),
        _ => false,
    }
}

fn is_beyond(reach: Reach, steps: u64) -> bool
    ensures { IsTrue result ↔ IsOverLong reach steps }
{
    match reach {
        Reach::Early => false,
        Reach::Late => steps > MAX_PEER_STEPS,
    }
}

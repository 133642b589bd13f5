// The coordinator: what it answers to an event, over its board and its leases; and its laws.
ghost use Rattle.std.specs.Prelude.{◌≡◌, Ok, Result, ◌≤◌, MatchOption, None, Some, IfOk, List, ℕ};
ghost use Rattle.cert.specs.Terms.{recorded};
ghost use Rattle.wire.specs.Terms.{message_of, Ask, seen, Happening, text_after};
ghost use Rattle.lease_core.specs.CoordinatorRules.{Gives, Coordinating, On};
ghost use Rattle.lease_core.specs.inside.{GivesFrame, GivesMessage, GivesJudged, GivesOffer, GivesDone};
ghost use Rattle.wire.specs.declared.node.NodeFault.{NodeFault as Failure};
ghost use Rattle.wire.specs.declared.node.Out.{Out as Answer};
ghost use Rattle.lease_core.specs.Says.{AcknowledgesRecorded, KeepsComplete, board_of};
ghost use Rattle.machine_text.specs.Terms.{state_limit};
ghost use Rattle.leases.specs.Terms.{AreLeases, Leased};
ghost use Rattle.lease_core.specs.Starts.{Starts, StartsFrom, InStep, started};
ghost use Rattle.lease_core.specs.inside.Begun.{HoldsBoard, coordinator_of, answer_of};

use crate::frames::{
    GRANT_BYTES, ack_frame, is_beyond_peers, is_known, later_frame, noted, put_reply, refused, sent,
};
use crate::starting::{StartFault, begun, begun_from};
use cert::Record;
use kind_evidence::{NoMemory, Refused};
use leases::LeasedBoard;
use ledger::{Board, OfferFault, Taken};
use machine_text::TEXT_BYTES;
use std::alloc::Global;
use std::io::Read;
use std::marker::Model;
use wire::{Event, Msg, Node, NodeFault, Note, Out, decode};

// Room for the line of most records: a table, a letter and some numbers.
const LINE_BYTES: usize = 32 + TEXT_BYTES;

// Where memory is refused, nothing has changed.
pub(crate) fn answer(
    alloc: Global,
    era: u64,
    held: &mut LeasedBoard,
    e: Event<'_>,
) -> Result<Out, NodeFault>
    ensures { Gives era held.old (seen e.entry) result held.new }
{
    match e {
        Event::Frame(frame) => answer_frame(alloc, era, held, frame),
        Event::Tick(moment) => {
            held.tick(moment)?;
            Ok(noted(alloc, Note::Quiet))
        }
        Event::Work => Ok(noted(alloc, Note::Quiet)),
    }
}

fn answer_frame(
    alloc: Global,
    era: u64,
    held: &mut LeasedBoard,
    frame: &[u8],
) -> Result<Out, NodeFault>
    ensures { GivesFrame era held.old (message_of frame.now) result held.new }
{
    match decode(frame) {
        Ok(Msg::Ask { id }) => answer_ask(alloc, era, held, id),
        Ok(Msg::Rec(r)) => answer_record(alloc, held, &r),
        Ok(Msg::Done { era: named, lease }) => answer_done(alloc, named == era, held, lease),
        _ => Ok(noted(alloc, Note::Strange)),
    }
}

// There is room for each answer before the leases change.
fn answer_ask(alloc: Global, era: u64, held: &mut LeasedBoard, id: u32) -> Result<Out, NodeFault>
    ensures { GivesMessage era held.old (Ask id) result held.new }
{
    let mut frames = Vec::with_capacity(alloc, GRANT_BYTES)?;
    let reply = held.ask(id)?;
    put_reply(era, &reply, &mut frames);
    Ok(Out {
        cut: None,
        append: Vec::new(alloc),
        frames,
        note: Note::Quiet,
    })
}

// In the order in which a board judges a record. Of a table of another size nothing is written, and of a record
// that brings nothing new only that it is held. A peer can't have a run of minutes made here.
fn answer_record(alloc: Global, held: &mut LeasedBoard, r: &Record<'_>) -> Result<Out, NodeFault>
    ensures { GivesJudged held.old (recorded r.now) result held.new }
{
    if r.table.states() != held.board().root().states() {
        let out = refused(alloc, OfferFault::WrongSize.number())?;
        return Ok(out);
    }
    if is_known(held.board(), r) {
        let frames = ack_frame(alloc, &r.table)?;
        return Ok(sent(alloc, frames));
    }
    if is_beyond_peers(&r.certificate) {
        let out = refused(alloc, Refused::TooLong.number())?;
        return Ok(out);
    }
    offer_record(alloc, held, r)
}

// The frame comes before the offer, and the line with it: once the board has taken the record, nothing may be refused.
fn offer_record(alloc: Global, held: &mut LeasedBoard, r: &Record<'_>) -> Result<Out, NodeFault>
    requires { r.now.table.states ≡ held.old.board.root.states }
    ensures { GivesOffer held.old (recorded r.now) result held.new }
{
    let mut append = Vec::with_capacity(alloc, LINE_BYTES)?;
    let frames = ack_frame(alloc, &r.table)?;
    match held.offer_line(r, &mut append) {
        Ok(Taken::New | Taken::Settled) => Ok(Out {
            cut: None,
            append,
            frames,
            note: Note::Quiet,
        }),
        Ok(Taken::Known) => Ok(sent(alloc, frames)),
        Err(OfferFault::NotOpen) => {
            let frames = later_frame(alloc, &r.table)?;
            Ok(sent(alloc, frames))
        }
        Err(fault) => Ok(refused(alloc, fault.number())?),
    }
}

fn answer_done(
    alloc: Global,
    is_own: bool,
    held: &mut LeasedBoard,
    lease: u64,
) -> Result<Out, NodeFault>
    ensures { GivesDone is_own lease held.old result held.new }
{
    if is_own && held.done(lease)? {
        Ok(noted(alloc, Note::Quiet))
    } else {
        Ok(noted(alloc, Note::Stale))
    }
}

/// Each table that a coordinator acknowledges, to whatever happens, has a record on its board.
pub fn acknowledged_tables_are_recorded()
    ensures { (old new : Coordinating) (e : Happening) (out : Answer) → On old e (Ok out) new
        → AcknowledgesRecorded out (board_of new.held) }
{}

/// Complete is final: whatever happens to a coordinator, a complete board stays as it is.
pub fn complete_boards_of_coordinators_stay()
    ensures { (old new : Coordinating) (e : Happening) (answer : Result Answer Failure) → On old e answer new →
        KeepsComplete (board_of old.held) (board_of new.held) }
{}

/// Holds the board of a tree, grants its open tables to workers, and takes their records. What it holds
/// stands in a ledger that is in step with it.
#[derive(Drop)]
pub struct Coordinator {
    alloc: Global,
    era: u64,
    held: Option<LeasedBoard>,
    stopped: bool,
}

impl Model for Coordinator {
    ghost use Rattle.std.specs.Prelude.{◌≡◌, None, true};
    ghost use Rattle.lease_core.specs.CoordinatorRules.{Coordinating};

    ghost Value = { Coordinating };

    ghost view = { λ a. record { era = a.era; held = a.held; stopped = a.stopped } };

    ghost invariant = { λ a. a.held ≡ None → a.stopped ≡ true };
}

impl Coordinator {
    /// A coordinator for machines of n states, from the bytes of its ledger. The answer says how many of these
    /// were kept, where not all were, and appends a header where none were; once it is fulfilled (`begin`) the
    /// ledger is in step. `era` tells its leases from those of an earlier run. Where the start is refused, the
    /// coordinator is stopped: `BadHeader` and `WrongRoot` as a board's `load` refuses the bytes, and `NoMemory`
    /// for no bytes that are refused so.
    pub fn start(
        alloc: Global,
        n: u8,
        era: u64,
        ledger: &[u8],
    ) -> (Coordinator, Result<Out, StartFault>)
        requires { (1 ≤ n) × (n ≤ state_limit) }
        ensures starts { Starts n era ledger.now result.0 result.1 }
        ensures step { IfOk result.1 (λ out. InStep result.0 (text_after out ledger.now)) }
    {
        Coordinator::of(alloc, era, begun(alloc, n, ledger))
    }

    /// Starts as `start` does, from a reader of its ledger: of that are read as many bytes as the limit says, or all where
    /// there are fewer, a piece at a time, and it starts as from those bytes. `LedgerFault` where a read fails before; of it and
    /// `NoMemory` the one that is met first.
    pub fn start_from<R: Read>(
        alloc: Global,
        n: u8,
        era: u64,
        from: &mut R,
        limit: u64,
    ) -> (Coordinator, Result<Out, StartFault>)
        requires { (1 ≤ n) × (n ≤ state_limit) }
        ensures { StartsFrom n era (R.remaining from.old) limit (R.remaining from.new) result.0 result.1 }
    {
        Coordinator::of(alloc, era, begun_from(alloc, n, from, limit))
    }

    /// A coordinator that goes on with a board, of whatever root: that of a part of a tree, as it was loaded, say. Its ledger
    /// has to be in step with it. It has no leases yet; `era` tells them from those of an earlier run. `NoMemory` where there is
    /// no room for the board's open tables.
    pub fn holding(alloc: Global, era: u64, board: Board) -> Result<Coordinator, NoMemory>
        ensures { IfOk result (λ new. new ≡ started era board) }
    {
        Ok(Coordinator {
            alloc,
            era,
            held: Some(LeasedBoard::new(alloc, board)?),
            stopped: false,
        })
    }

    // A coordinator of a board, or a stopped one where a start is refused.
    fn of(
        alloc: Global,
        era: u64,
        begun: Result<(LeasedBoard, Out), StartFault>,
    ) -> (Coordinator, Result<Out, StartFault>)
        ensures coordinator { result.0 ≡ coordinator_of era begun }
        ensures answer { result.1 ≡ answer_of begun }
    {
        match begun {
            Ok((held, out)) => {
                let coordinator = Coordinator {
                    alloc,
                    era,
                    held: Some(held),
                    stopped: false,
                };
                (coordinator, Ok(out))
            }
            Err(fault) => {
                let coordinator = Coordinator {
                    alloc,
                    era,
                    held: None,
                    stopped: true,
                };
                (coordinator, Err(fault))
            }
        }
    }

    /// The board on which it has its leases; none where its start was refused.
    pub fn board(&self) -> Option<&Board>
        ensures { MatchOption result (self.now.held ≡ None)
            (λ board. (held : Leased) × (self.now.held ≡ Some held) × (board.now ≡ held.board)
            × AreLeases held.board held.leases) }
    {
        match &self.held {
            Some(held) => Some(held.board()),
            None => None,
        }
    }

    // What it holds is a board.
    fn knows_board(&self)
        ensures { HoldsBoard self.now.held }
    {
        if let Some(held) = &self.held {
            let _ = held.board().root();
        }
    }

    // Answers an event.
    fn handle(&mut self, e: Event<'_>) -> Result<Out, NodeFault>
        ensures { On self.old (seen e.entry) result self.new }
    {
        if self.stopped {
            return Err(NodeFault::Stopped);
        }
        match &mut self.held {
            Some(held) => answer(self.alloc, self.era, held, e),
            None => Err(NodeFault::Stopped),
        }
    }
}

impl Node for Coordinator {
    ghost use Rattle.std.specs.Prelude.{◌≡◌, true};
    ghost use Rattle.lease_core.specs.CoordinatorRules.{On};
    ghost use Rattle.lease_core.specs.Starts.{InStep};
    ghost use Rattle.lease_core.specs.Says.{KeepsComplete, board_of};

    ghost is_stopped = { λ s. s.stopped ≡ true };

    ghost in_step = { λ s text. InStep s text };

    ghost answers = { On };

    ghost keeps_final = { λ old e new. KeepsComplete (board_of old.held) (board_of new.held) };

    fn on(&mut self, e: Event<'_>) -> Result<Out, NodeFault> {
        self.knows_board();
        self.handle(e)
    }

    fn stop(&mut self) {
        self.stopped = true;
    }
}

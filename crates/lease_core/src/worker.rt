// Workers.
ghost use Rattle.std.specs.Prelude.{◌≡◌, IfOk, OnErr, option_map};

use crate::frames::{noted, refused, sent};
use crate::starting::{StartFault, cut_of, loaded};
use crate::worker_answers::{
    LeaseName, Tidings, asking, first_due, frames_due, ledger_of, tidings_of,
};
use crate::worker_turns::{acknowledge, has_root, is_recorded, make, next_table};
use cert::{Decided, Decider, Finder, Finders};
use indexmap::IndexSet;
use kind_evidence::NoMemory;
use ledger::Board;
use machine_text::Table;
use std::alloc::Global;
use std::marker::Model;
use wire::{Event, Node, NodeFault, Note, Out};

/// A node that gets tables from a coordinator, makes the records of their trees that its decider answers, and
/// hands them in. What it answers to each event, `specs/WorkerRules` says.
#[derive(Drop)]
pub struct Worker<D> {
    alloc: Global,
    id: u32,
    decider: D,
    board: Option<Board>,
    lease: Option<LeaseName>,
    acknowledged: IndexSet<Table>,
    // the records before this place are acknowledged
    first_due: usize,
    rests: bool,
    stopped: bool,
}

impl<D> Model for Worker<D> {
    ghost use Rattle.lease_core.specs.WorkerState.{WorkerState, records_on};
    ghost use Rattle.lease_core.specs.inside.{AreFirstAcknowledged};

    ghost Value = { WorkerState D };

    ghost view = { λ a. record {
      id = a.id;
      decider = a.decider;
      board = a.board;
      lease = a.lease;
      acknowledged = a.acknowledged.keys;
      rests = a.rests;
      stopped = a.stopped;
    } };

    ghost invariant = { λ a. AreFirstAcknowledged a.acknowledged.keys (records_on a.board) a.first_due };
}

impl Worker<Finders<Box<dyn Finder>>> {
    ghost use Rattle.wire.specs.Terms.{text_after};
    ghost use Rattle.lease_core.specs.WorkerState.{IsInStep, Starts};

    /// Starts a worker from the text of its ledger: with the board as which that reads, or without a board
    /// where it is empty or torn off within its header. What isn't kept of it is cut off.
    ///
    /// `finders` are asked in their order for each record that it makes, each with `budget` steps.
    /// `BadHeader` where the first line is no header with a table that reads; `WrongRoot` where that table
    /// doesn't name its states in order; `NoMemory` where memory was refused. Then it is stopped.
    pub fn start(
        alloc: Global,
        id: u32,
        ledger: &[u8],
        finders: Vec<Box<dyn Finder>>,
        budget: u64,
    ) -> (Worker<Finders<Box<dyn Finder>>>, Result<Out, StartFault>)
        ensures starts { Starts id (record { finders = finders; budget = budget }) ledger.now result.0 result.1 }
        ensures step { IfOk result.1 (λ out. IsInStep result.0 (text_after out ledger.now)) }
    {
        // Not `Finders::new`: what is proved of a function that is given boxed finders and hands them to one of
        // another crate would depend on the body of that.
        Worker::over(alloc, id, ledger, Finders { finders, budget })
    }
}

impl<D: Drop> Worker<D> {
    ghost use Rattle.wire.specs.Terms.{text_after};
    ghost use Rattle.lease_core.specs.WorkerState.{IsInStep, Starts, at_first};
    ghost use Rattle.std.specs.Prelude.{false};

    /// Starts as `start` does, with any decider, which is asked for each record that the worker makes.
    pub fn over(
        alloc: Global,
        id: u32,
        ledger: &[u8],
        decider: D,
    ) -> (Worker<D>, Result<Out, StartFault>)
        ensures starts { Starts id decider ledger.now result.0 result.1 }
        ensures step { IfOk result.1 (λ out. IsInStep result.0 (text_after out ledger.now)) }
    {
        Worker::started(alloc, id, ledger, decider)
    }

    // Starts a worker with a decider; that its ledger is in step is shown of what this one promises.
    fn started(
        alloc: Global,
        id: u32,
        ledger: &[u8],
        decider: D,
    ) -> (Worker<D>, Result<Out, StartFault>)
        ensures { Starts id decider ledger.now result.0 result.1 }
    {
        match loaded(alloc, ledger) {
            Ok((board, left)) => {
                let mut out = noted(alloc, Note::Quiet);
                out.cut = cut_of(&left);
                (Worker::idle(alloc, id, decider, board), Ok(out))
            }
            Err(fault) => {
                let mut worker = Worker::idle(alloc, id, decider, None);
                worker.stopped = true;
                (worker, Err(fault))
            }
        }
    }

    // A worker without a lease.
    fn idle(alloc: Global, id: u32, decider: D, board: Option<Board>) -> Worker<D>
        ensures { result ≡ at_first id decider board false }
    {
        Worker {
            alloc,
            id,
            decider,
            board,
            lease: None,
            acknowledged: IndexSet::new(alloc),
            first_due: 0,
            rests: false,
            stopped: false,
        }
    }

    /// The worker's board, lent, if it has one.
    pub fn board(&self) -> Option<&Board>
        ensures { option_map (λ b. b.now) result ≡ self.now.board }
    {
        self.board.as_ref()
    }
}

impl<D: Decider + Drop> Worker<D> {
    ghost use Rattle.wire.specs.Terms.{message_of, frames_of, Rec, seen};
    ghost use Rattle.lease_core.specs.WorkerState.{MayWork, HasRoot, IsRecordedOn, records_on, unacknowledged};
    ghost use Rattle.machine_text.specs.Terms.{entry_of};
    ghost use Rattle.law_tree.specs.Terms.{InOrder};
    ghost use Rattle.ledger.specs.Terms.{same_table};
    ghost use Rattle.lease_core.specs.WorkerRules.{Answers, FrameRow, GrantRow, AckRow, TickRow, WorkRow, MayGrowFor, MayGrowAtTick, granted};
    ghost use Rattle.std.specs.List.{list_any};
    ghost use Rattle.std.specs.Prelude.{IsTrue, ◌↔◌, ◌≢◌, ℕ, [], false, map, take};
    ghost use Rattle.lease_core.specs.Limits.{tick_record_limit};

    // A frame came.
    fn on_frame(&mut self, frame: &[u8]) -> Result<Out, NoMemory>
        ensures ok { IfOk result (λ out. FrameRow self.old (message_of frame.now) out self.new) }
        ensures err { OnErr result (self.new ≡ self.old) }
        ensures grows { OnErr result (MayGrowFor self.old (message_of frame.now)) }
    {
        match tidings_of(frame) {
            Tidings::Granted(name, t) => self.on_grant(name, t),
            Tidings::Acknowledged(t) => self.on_ack(t),
            Tidings::Later => Ok(noted(self.alloc, Note::Quiet)),
            Tidings::Stop => {
                self.rests = true;
                Ok(noted(self.alloc, Note::Quiet))
            }
            Tidings::Strange => Ok(noted(self.alloc, Note::Strange)),
        }
    }

    // The worker was granted a table.
    fn on_grant(&mut self, name: LeaseName, t: Table) -> Result<Out, NoMemory>
        ensures ok { IfOk result (λ out. GrantRow self.old name t out self.new) }
        ensures err { OnErr result (self.new ≡ self.old) }
        ensures grows { OnErr result (((u : ℕ) × InOrder u (entry_of t)) × (HasRoot self.old.board t → ⊥)) }
    {
        if has_root(&self.board, &t) {
            self.begin(name);
            return Ok(noted(self.alloc, Note::Quiet));
        }
        match Board::new(self.alloc, t) {
            Ok(board) => {
                let append = ledger_of(self.alloc, &board)?;
                self.first_due = 0;
                self.board = Some(board);
                self.begin(name);
                Ok(Out {
                    cut: Some(0),
                    append,
                    frames: Vec::new(self.alloc),
                    note: Note::Quiet,
                })
            }
            Err(fault) => refused(self.alloc, fault.number()),
        }
    }

    // Begins to work under a lease of this name.
    fn begin(&mut self, name: LeaseName)
        ensures { self.new ≡ granted self.old name self.old.board }
    {
        self.lease = Some(name);
        self.first_due = 0;
        self.acknowledged.clear();
        self.rests = false;
    }

    // A record of this table was acknowledged.
    fn on_ack(&mut self, t: Table) -> Result<Out, NoMemory>
        ensures ok { IfOk result (λ out. AckRow self.old t out self.new) }
        ensures err { OnErr result (self.new ≡ self.old) }
        ensures grows { OnErr result (IsRecordedOn self.old.board t
            × (list_any (same_table t) self.old.acknowledged ≡ false)) }
    {
        if !is_recorded(&self.board, &t) {
            return Ok(noted(self.alloc, Note::Stale));
        }
        acknowledge(&mut self.acknowledged, t)?;
        Ok(noted(self.alloc, Note::Quiet))
    }

    // Time has passed.
    fn on_tick(&mut self) -> Result<Out, NoMemory>
        ensures ok { IfOk result (λ out. TickRow self.old out self.new) }
        ensures err { OnErr result (self.new ≡ self.old) }
        ensures grows { OnErr result (MayGrowAtTick self.old) }
    {
        self.pass_acknowledged();
        self.answer_tick()
    }

    // What it answers to a tick.
    fn answer_tick(&mut self) -> Result<Out, NoMemory>
        ensures ok { IfOk result (λ out. TickRow self.old out self.new) }
        ensures err { OnErr result (self.new ≡ self.old) }
        ensures grows { OnErr result (MayGrowAtTick self.old) }
    {
        if self.rests {
            return Ok(noted(self.alloc, Note::Quiet));
        }
        let due = self.due()?;
        if !due.is_empty() {
            return Ok(sent(self.alloc, due));
        }
        if self.may_work() {
            return Ok(noted(self.alloc, Note::Quiet));
        }
        let frames = asking(self.alloc, self.lease, self.id)?;
        self.lease = None;
        Ok(sent(self.alloc, frames))
    }

    // Passes over the first records, as far as they are acknowledged, so that no later tick looks at them.
    fn pass_acknowledged(&mut self)
        ensures { self.new ≡ self.old }
    {
        if let Some(board) = &self.board {
            self.first_due = first_due(&self.acknowledged, board, self.first_due);
        }
    }

    // The frames of the first records that aren't acknowledged.
    fn due(&self) -> Result<Vec<u8>, NoMemory>
        ensures ok { IfOk result (λ frames. frames.items
            ≡ frames_of (map Rec (take tick_record_limit
            (unacknowledged self.now.acknowledged (records_on self.now.board))))) }
        ensures grows { OnErr result (unacknowledged self.now.acknowledged (records_on self.now.board) ≢ []) }
    {
        match &self.board {
            Some(board) => frames_due(self.alloc, &self.acknowledged, board, self.first_due),
            None => Ok(Vec::new(self.alloc)),
        }
    }

    // Whether a work turn would make a record.
    fn may_work(&self) -> bool
        ensures { IsTrue result ↔ MayWork self.now.board }
    {
        match &self.board {
            Some(board) => next_table(board).is_some(),
            None => false,
        }
    }

    // There is time to work.
    fn on_work(&mut self) -> Result<Out, NoMemory>
        ensures ok { IfOk result (λ out. WorkRow D.answers self.old out self.new) }
        ensures err { OnErr result (self.new ≡ record self.old { decider = self.new.decider }) }
        ensures grows { OnErr result (MayWork self.old.board) }
    {
        let Some(board) = &mut self.board else {
            return Ok(noted(self.alloc, Note::Quiet));
        };
        let Some(t) = next_table(board) else {
            return Ok(noted(self.alloc, Note::Quiet));
        };
        let Decided {
            record: made,
            judged,
        } = self.decider.decide_judged(self.alloc, &t)?;
        make(self.alloc, board, &made, judged)
    }

    // Something happens.
    fn handle(&mut self, e: Event<'_>) -> Result<Out, NodeFault>
        ensures { Answers D.answers self.old (seen e.entry) result self.new }
    {
        if self.stopped {
            return Err(NodeFault::Stopped);
        }
        match e {
            Event::Frame(frame) => Ok(self.on_frame(frame)?),
            Event::Tick(_) => Ok(self.on_tick()?),
            Event::Work => Ok(self.on_work()?),
        }
    }
}

impl<D: Decider + Drop> Node for Worker<D> {
    ghost use Rattle.std.specs.Prelude.{◌≡◌, true};
    ghost use Rattle.lease_core.specs.WorkerState.{IsInStep};
    ghost use Rattle.lease_core.specs.WorkerRules.{Answers};
    ghost use Rattle.lease_core.specs.Says.{KeepsComplete, IsGrant};

    ghost is_stopped = { λ w. w.stopped ≡ true };

    ghost in_step = { IsInStep };

    ghost answers = { Answers D.answers };

    ghost keeps_final = { λ old e new. (IsGrant e → ⊥) → KeepsComplete old.board new.board };

    fn on(&mut self, e: Event<'_>) -> Result<Out, NodeFault> {
        self.handle(e)
    }

    fn stop(&mut self) {
        self.stopped = true;
    }
}

// One core of a pool, and the answers that it waits for; and an id that asked, with its lease (`Asker`).
ghost use Rattle.std.specs.Prelude.{◌≡◌, ◌+◌, ◌-◌, ◌<◌, ◌^◌, cond, ◌≢◌, [], IfErr, None, OnOk, Some, Err, IfOk, IfSome};
ghost use Rattle.peers.specs.Crew.{added, is_none, none, joining, directed, is_ready, with_word, Fulfils, is_word_due, forgiven, heeding, is_awaiting, is_going, is_later, later_at, woken};
ghost use Rattle.peers.specs.Frames.{asks_in, is_ask_sent, is_record_sent, records_in};
ghost use Rattle.wire.specs.Terms.{BrokenOff, Handed, scene, EndsInStep, devices, Faulted, seen};
ghost use Rattle.wire.specs.declared.handing.TurnFault.TheVariants.{LinkFault as Unlinked};
ghost use Rattle.peers.specs.Guard.{is_of, returned_by};
ghost use Rattle.peers.specs.Passing.{BecomesOfIdle, gone_back, is_idle_at, is_spent, or_none};

use crate::guard::Passage;
use crate::guarded::hand_alone;
use crate::hearing::{Sent, sent_as};
use crate::limits::{LEASE_SECONDS, MOST_WAIT_SECONDS};
use std::marker::Model;
use text::Parts;
use wire::{Event, LedgerOut, Link, Node, Note, Out, TurnFault, fulfil};

// How many answers frames wait for.
#[derive(Clone, Copy)]
pub(crate) struct Awaited {
    // by a table, `LATER` or `STOP`
    pub asks: usize,
    // by a word on a record
    pub records: usize,
}

impl Awaited {
    pub fn none() -> Awaited
        ensures { result ≡ none }
    {
        Awaited {
            asks: 0,
            records: 0,
        }
    }

    pub fn is_none(&self) -> bool
        ensures { result ≡ is_none self.now }
    {
        self.asks == 0 && self.records == 0
    }

    // More answers are awaited.
    pub fn add(&mut self, more: Awaited)
        ensures { self.new ≡ added self.old more }
    {
        self.asks = self.asks.saturating_add(more.asks);
        self.records = self.records.saturating_add(more.records);
    }

    fn count(&mut self, sent: Sent)
        requires asks { self.old.asks < 2 ^ 63 + 1 }
        requires records { self.old.records < 2 ^ 63 + 1 }
        ensures asks { self.new.asks ≡ self.old.asks + cond (is_ask_sent sent) 1 0 }
        ensures records { self.new.records ≡ self.old.records + cond (is_record_sent sent) 1 0 }
    {
        match sent {
            Sent::Ask => self.asks += 1,
            Sent::Record => self.records += 1,
            Sent::Other => {}
        }
    }
}

// What the frames of an answer wait for, each with its newline.
pub(crate) fn awaited_in(frames: &[u8]) -> Awaited
    ensures { result ≡ record { asks = asks_in frames.now; records = records_in frames.now } }
{
    let mut parts = Parts::of(b'\n', frames);
    let mut awaited = Awaited::none();
    'parts: while let Some(frame) = parts.next() {
        awaited.count(sent_as(frame));
    }
    awaited
}

/// How a core goes on, as the last answer to an `ASK` of it says.
#[derive(Clone, Copy, Debug, PartialEq, Eq)]
pub enum Course {
    /// Works: a table was granted, or nothing was asked for yet.
    Work,
    /// Asks again later: no table was free.
    Later,
    /// Stops: nothing is left to do.
    Stop,
}

// An id of a peer that asked, and what is known of its lease.
#[derive(Drop)]
pub(crate) struct Asker {
    id: u32,
    // The frame that gives its lease back, as long as it has one.
    returning: Option<Vec<u8>>,
    // How many new records the peer had brought when the lease was granted.
    records: u64,
    // The moment at which the lease was granted, or given back.
    since: u64,
    // For how many seconds it waits once it has given the lease back.
    wait: u64,
}

impl Model for Asker {
    ghost use Rattle.std.specs.Prelude.{option_map};
    ghost use Rattle.peers.specs.Guard.{AskerState};

    ghost Value = { AskerState };

    ghost view = { λ a. record {
      id = a.id;
      returning = option_map (λ frame. frame.items) a.returning;
      records = a.records;
    } };
}

impl Asker {
    // One that was granted a lease.
    pub fn new(id: u32, returning: Vec<u8>, records: u64, moment: u64, wait: u64) -> Asker
        ensures { result ≡ record {
          id = id;
          returning = Some returning.items;
          records = records;
        } }
    {
        Asker {
            id,
            returning: Some(returning),
            records,
            since: moment,
            wait,
        }
    }

    pub fn is_of(&self, id: u32) -> bool
        ensures { result ≡ is_of id self.now }
    {
        self.id == id
    }

    // Whether the peer has brought no new record since the lease was granted.
    pub fn is_idle(&self, records: u64) -> bool
        ensures { result ≡ is_idle_at records self.now }
    {
        self.records == records
    }

    // Whether it gave its lease back, and the peer has brought no new record since that was granted.
    pub fn is_spent(&self, records: u64) -> bool
        ensures { result ≡ is_spent records self.now }
    {
        match &self.returning {
            Some(_) => false,
            None => self.is_idle(records),
        }
    }

    // The frame that gives its lease back; an empty one where it has none.
    pub fn returning(&self) -> &[u8]
        ensures { result.now ≡ or_none self.now.returning }
    {
        match &self.returning {
            Some(frame) => frame,
            None => &[],
        }
    }

    // Whether this is the frame that gives its lease back.
    pub fn is_returned_by(&self, frame: &[u8]) -> bool {
        match &self.returning {
            Some(returning) => returning.as_slice() == frame,
            None => false,
        }
    }

    // Whether it is nothing any more at this moment: its lease brought nothing for more than a minute, or it has waited.
    pub fn is_over(&self, moment: u64, renewed: u64) -> bool {
        let quiet = match &self.returning {
            Some(_) => moment.saturating_sub(self.since.max(renewed)),
            None => return moment.saturating_sub(self.since) >= self.wait,
        };
        quiet > LEASE_SECONDS
    }

    // What becomes of an `ASK` of this id at its place, where the peer has brought no new record since.
    pub fn idle_passage(&self, moment: u64, id: u32, place: usize) -> Passage
        ensures { BecomesOfIdle id place self.now result }
    {
        if self.returning.is_some() {
            Passage::GiveBack { place }
        } else if moment.saturating_sub(self.since) < self.wait {
            Passage::Later
        } else {
            Passage::Ask {
                id,
                place,
                wait: self.wait.saturating_mul(2).min(MOST_WAIT_SECONDS),
            }
        }
    }

    // The lease was given back.
    pub fn give_back(&mut self, moment: u64)
        ensures { self.new ≡ gone_back self.old }
    {
        self.returning = None;
        self.since = moment;
    }

    // Gives its lease back, if it has one: a node is handed the frame that does it.
    pub fn return_lease<N: Node, W: LedgerOut>(
        &self,
        node: &mut N,
        ledger: &mut W,
    ) -> Result<(), TurnFault>
        ensures ok { OnOk result (Handed N.answers (scene node.old (W.text ledger.old) None)
            (returned_by self.now.returning) [] (scene node.new (W.text ledger.new) None)) }
        ensures same { OnOk result (W.failures ledger.new ≡ W.failures ledger.old) }
        ensures err { IfErr result (λ fault. (fault ≢ Unlinked) × BrokenOff N.answers N.is_stopped
            (scene node.old (W.text ledger.old) None) (returned_by self.now.returning) fault []
            (scene node.new (W.text ledger.new) None)) }
        ensures ends { EndsInStep N.in_step result (devices node.old (W.text ledger.old) 0 (W.failures ledger.old))
            (devices node.new (W.text ledger.new) 0 (W.failures ledger.new)) }
    {
        match &self.returning {
            Some(frame) => hand_alone(node, ledger, Event::Frame(frame)),
            None => Ok(()),
        }
    }
}

/// A core of a pool: a worker and its ledger, how many of its frames are unanswered, and how it goes on.
#[derive(Drop)]
pub struct Core<N, W> {
    pub(crate) node: N,
    pub(crate) ledger: W,
    pub(crate) due: Awaited,
    pub(crate) course: Course,
}

impl<N, W> Core<N, W> {
    // A core that joins.
    pub(crate) fn new(node: N, ledger: W) -> Core<N, W>
        ensures { result ≡ joining node ledger }
    {
        Core {
            node,
            ledger,
            due: Awaited::none(),
            course: Course::Work,
        }
    }

    // An `ASK` of it was answered, which says how it goes on.
    pub(crate) fn tell(&mut self, course: Course)
        ensures { self.new ≡ directed course self.old }
    {
        self.due.asks = self.due.asks.saturating_sub(1);
        self.course = course;
    }

    // Goes on as it notes the answer to an `ASK`. Where it doesn't take it, it asks again later: whoever sends such answers
    // isn't asked as fast as they come.
    pub(crate) fn heed(&mut self, note: Note)
        ensures { self.new ≡ heeding note self.old }
    {
        match note {
            Note::Quiet => {}
            Note::Strange | Note::Stale | Note::Refused(_) => self.put_off(),
        }
    }

    // Asks again later, unless it was told to stop.
    fn put_off(&mut self)
        ensures { self.new ≡ record self.old { course = later_at self.old.course } }
    {
        match self.course {
            Course::Work => self.course = Course::Later,
            Course::Later | Course::Stop => {}
        }
    }

    // A word came on one of its records.
    pub(crate) fn count_answered(&mut self)
        ensures { self.new ≡ with_word self.old }
    {
        self.due.records = self.due.records.saturating_sub(1);
    }

    // Tells it to work, where it was told to come later.
    pub(crate) fn wake(&mut self)
        ensures { self.new ≡ woken self.old }
    {
        match self.course {
            Course::Later => self.course = Course::Work,
            Course::Work | Course::Stop => {}
        }
    }

    // Nothing of it counts as unanswered.
    pub(crate) fn forget_due(&mut self)
        ensures { self.new ≡ forgiven self.old }
    {
        self.due = Awaited::none();
    }

    // Whether a frame of it is unanswered.
    pub(crate) fn is_awaiting(&self) -> bool
        ensures { result ≡ is_awaiting self.now }
    {
        !self.due.is_none()
    }

    // Whether a word is due on a record of it.
    pub(crate) fn is_word_due(&self) -> bool
        ensures { result ≡ is_word_due self.now }
    {
        self.due.records != 0
    }

    // Whether it wasn't told to stop.
    pub(crate) fn is_going(&self) -> bool
        ensures { result ≡ is_going self.now }
    {
        match self.course {
            Course::Work | Course::Later => true,
            Course::Stop => false,
        }
    }

    // Whether it was told to come later.
    pub(crate) fn is_later(&self) -> bool
        ensures { result ≡ is_later self.now }
    {
        match self.course {
            Course::Later => true,
            Course::Work | Course::Stop => false,
        }
    }

    // Whether it is to be ticked.
    pub(crate) fn is_ready(&self) -> bool
        ensures { result ≡ is_ready self.now }
    {
        match self.course {
            Course::Work => self.due.is_none(),
            Course::Later | Course::Stop => false,
        }
    }
}

impl<N: Node, W: LedgerOut> Core<N, W> {
    // Hands it an event, and fulfils its answer. Says how many `ASK`s were sent.
    pub(crate) fn hand<L: Link>(
        &mut self,
        event: Event<'_>,
        link: &mut L,
    ) -> Result<(Out, usize), TurnFault>
        ensures ok { IfOk result (λ done. Fulfils N.answers N.is_stopped W.text self.old (seen event.entry) done.0
            self.new (L.sent link.old) (L.sent link.new)) }
        ensures asks { IfOk result (λ done. done.1 ≡ asks_in done.0.frames.items) }
        ensures err { IfErr result (λ fault. Faulted N.answers N.is_stopped
            (scene self.old.node (W.text self.old.ledger) (L.sent link.old)) (seen event.entry) fault
            (scene self.new.node (W.text self.new.ledger) (L.sent link.new))) }
        ensures step { result ≢ Err TurnFault.LedgerFault → IfSome (W.text self.old.ledger) (N.in_step self.old.node)
            → IfSome (W.text self.new.ledger) (N.in_step self.new.node) }
        ensures waiting { L.waiting link.new ≡ L.waiting link.old }
    {
        let out = self.node.on(event)?;
        fulfil(&mut self.node, link, &mut self.ledger, &out)?;
        let awaited = awaited_in(&out.frames);
        self.due.add(awaited);
        Ok((out, awaited.asks))
    }
}

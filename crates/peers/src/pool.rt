// Pools of cores, and their work, where there is time.
ghost use Rattle.std.specs.Prelude.{◌≡◌, ◌≢◌, ◌++◌, ◌∷◌, ◌<◌, [], Err, IfOk, IfErr, OnOk, OnErr, IfSome, length, map, position, replicate, Some, false, true};
ghost use Rattle.std.specs.List.{count_by, list_any};
ghost use Rattle.wire.specs.Terms.{seen};
ghost use Rattle.peers.specs.Crew.{AreInStep, joining, hall, Handed, is_word_due, is_awaiting, is_going, is_later, with_nothing_due, woken, Hears, HearsAll, waits_of, Works, Serves, Ticks, Turns};
ghost use Rattle.peers.specs.Limits.{work_turn_limit};

use crate::limits::MAX_WORK_TURNS;
use crate::pool_core::Core;
use kind_evidence::NoMemory;
use std::alloc::Global;
use std::collections::VecDeque;
use std::marker::Model;
use wire::{Event, LedgerOut, Lines, Link, Node, Out, TurnFault};

/// What has to happen before a pool has more to do.
#[derive(Clone, Copy, Debug, PartialEq, Eq)]
pub enum Waits {
    /// Answers have to come: a frame of some core is unanswered.
    Answers,
    /// Nothing is unanswered, and some core may ask again later.
    Later,
    /// Nothing: each core was told to stop.
    Nothing,
}

// The cores of a pool, and whose frames are unanswered.
#[derive(Drop)]
pub(crate) struct Crew<N, W> {
    pub cores: Vec<Core<N, W>>,
    // The places of those whose `ASK`s are unanswered, the oldest first.
    pub asks: VecDeque<usize>,
    // The place of the core that took the last word on a record. Such words come in runs for one core.
    pub latest: usize,
}

impl<N, W> Model for Crew<N, W> {
    ghost use Rattle.peers.specs.Crew.{ArePlaces, Crewed, IsLatest};

    ghost Value = { Crewed N W };

    ghost view = { λ a. record { cores = a.cores.items; asks = a.asks.items; latest = a.latest } };

    ghost invariant = { λ a. ArePlaces a.asks.items a.cores.items × IsLatest a.latest a.cores.items };
}

impl<N, W> Crew<N, W> {
    pub fn new(alloc: Global) -> Crew<N, W>
        ensures { result ≡ record { cores = []; asks = []; latest = 0 } }
    {
        Crew {
            cores: Vec::new(alloc),
            asks: VecDeque::new(alloc),
            latest: 0,
        }
    }

    // How many cores there are.
    pub fn count(&self) -> usize
        ensures { result ≡ length self.now.cores }
    {
        self.cores.len()
    }

    // Whether a frame of some core is unanswered.
    pub fn is_awaiting(&self) -> bool
        ensures { result ≡ list_any is_awaiting self.now.cores }
    {
        self.cores.iter().any(|core| core.is_awaiting())
    }

    // The place of the first core on whose record a word is due.
    pub fn first_word_due(&self) -> Option<usize>
        ensures first { result ≡ position is_word_due self.now.cores }
        ensures within { IfSome result (λ place. place < length self.now.cores) }
    {
        self.cores.iter().position(|core| core.is_word_due())
    }

    // Whether some core wasn't told to stop.
    pub fn is_going(&self) -> bool
        ensures { result ≡ list_any is_going self.now.cores }
    {
        self.cores.iter().any(|core| core.is_going())
    }

    // How many were told to come later.
    pub fn later_count(&self) -> usize
        ensures { result ≡ count_by is_later self.now.cores }
    {
        self.cores.iter().filter(|core| core.is_later()).count()
    }

    // Tells each core to work that was told to come later.
    pub fn wake(&mut self)
        ensures { self.new ≡ record self.old { cores = map woken self.old.cores } }
    {
        for core in self.cores.iter_mut() {
            core.wake();
        }
    }

    // Nothing that was sent counts as unanswered.
    pub fn forget_due(&mut self)
        ensures { self.new ≡ with_nothing_due self.old }
    {
        self.asks.clear();
        for core in self.cores.iter_mut() {
            core.forget_due();
        }
    }

    // Remembers so many `ASK`s of the core at a place, behind the others.
    fn remember(&mut self, place: usize, count: usize) -> Result<(), NoMemory>
        requires { place < length self.old.cores }
        ensures ok { OnOk result (self.new ≡ record self.old { asks = self.old.asks ++ replicate count place }) }
        ensures cores { self.new.cores ≡ self.old.cores }
    {
        for i in 0..count {
            self.asks.push_back(place)?;
        }
        Ok(())
    }
}

impl<N: Drop, W: Drop> Crew<N, W> {
    // One more core.
    pub fn add(&mut self, node: N, ledger: W) -> Result<(), NoMemory>
        ensures ok { OnOk result (self.new ≡ record self.old
            { cores = self.old.cores ++ (joining node ledger ∷ []) }) }
        ensures err { OnErr result (self.new ≡ self.old) }
    {
        match self.cores.push(Core::new(node, ledger)) {
            Ok(()) => Ok(()),
            Err(_) => Err(NoMemory),
        }
    }
}

impl<N: Node, W: LedgerOut> Crew<N, W> {
    // Hands the core at a place an event, fulfils its answer, and remembers its `ASK`s.
    pub fn hand<L: Link>(
        &mut self,
        place: usize,
        event: Event<'_>,
        link: &mut L,
    ) -> Result<Out, TurnFault>
        requires { place < length self.old.cores }
        ensures handed { Handed N.answers N.is_stopped W.text place (seen event.entry) result
            (hall self.old (L.sent link.old)) (hall self.new (L.sent link.new)) }
        ensures step { result ≢ Err TurnFault.LedgerFault → AreInStep N.in_step W.text self.old.cores
            → AreInStep N.in_step W.text self.new.cores }
        ensures count { length self.new.cores ≡ length self.old.cores }
        ensures waiting { L.waiting link.new ≡ L.waiting link.old }
    {
        let (out, asks) = self.cores[place].hand(event, link)?;
        self.remember(place, asks)?;
        Ok(out)
    }
}

/// Several workers, each with a ledger of its own, over one stream to a coordinator.
#[derive(Drop)]
pub struct Pool<N, W> {
    pub(crate) alloc: Global,
    pub(crate) crew: Crew<N, W>,
    pub(crate) lines: Lines,
}

impl<N, W> Model for Pool<N, W> {
    ghost use Rattle.peers.specs.Crew.{Pooled};

    ghost Value = { Pooled N W };

    ghost view = { λ a. record { crew = a.crew; lines = a.lines } };
}

impl<N, W> Pool<N, W> {
    /// A pool without cores.
    pub fn new(alloc: Global) -> Pool<N, W>
        ensures { result ≡ record {
          crew = record { cores = []; asks = []; latest = 0 };
          lines = record { waiting = []; rest = Some [] };
        } }
    {
        Pool {
            alloc,
            crew: Crew::new(alloc),
            lines: Lines::new(alloc),
        }
    }

    /// What it waits for.
    pub fn waits(&self) -> Waits
        ensures { result ≡ waits_of self.now.crew.cores }
    {
        if self.crew.is_awaiting() {
            Waits::Answers
        } else if self.crew.is_going() {
            Waits::Later
        } else {
            Waits::Nothing
        }
    }

    /// How many of its workers were told to come later.
    pub fn later_count(&self) -> usize
        ensures { result ≡ count_by is_later self.now.crew.cores }
    {
        self.crew.later_count()
    }

    /// Who was told to come later is ticked again by the next `work`.
    pub fn wake(&mut self)
        ensures { self.new ≡ record self.old { crew = record self.old.crew { cores = map woken self.old.crew.cores } } }
    {
        self.crew.wake();
    }

    /// Answers don't come: nothing that was sent counts as unanswered, so it is sent again. An answer that comes all
    /// the same finds no `ASK`, or a later one.
    pub fn forget_due(&mut self)
        ensures { self.new ≡ record self.old { crew = with_nothing_due self.old.crew } }
    {
        self.crew.forget_due();
    }

    /// The connection is another one, as after a fault: nothing that was sent counts as unanswered, and what came of a
    /// line is forgotten.
    pub fn reconnect(&mut self)
        ensures { self.new ≡ record {
          crew = with_nothing_due self.old.crew;
          lines = record { waiting = []; rest = Some [] };
        } }
    {
        self.crew.forget_due();
        self.lines = Lines::new(self.alloc);
    }
}

impl<N: Drop, W: Drop> Pool<N, W> {
    /// One more core: a worker, and its ledger, which is in step with it. Where memory is refused, both are dropped.
    pub fn add(&mut self, node: N, ledger: W) -> Result<(), NoMemory>
        ensures ok { OnOk result (self.new ≡ record self.old {
          crew = record self.old.crew
              { cores = self.old.crew.cores ++ (joining node ledger ∷ []) };
        }) }
        ensures err { OnErr result (self.new ≡ self.old) }
    {
        self.crew.add(node, ledger)
    }
}

impl<N: Node, W: LedgerOut> Pool<N, W> {
    /// Serves each core in its turn: it gets work turns until one's answer has no frames, but `MAX_WORK_TURNS` at most,
    /// and then, where nothing of it is unanswered and it wasn't told to come later or to stop, a tick. Each answer is
    /// fulfilled before anything else happens: its ledger's part first, whole, and then its frames are sent. After a
    /// fault the cores behind the one that brought it weren't served, what was handed over before stands, and the
    /// connection has to be made anew.
    pub fn work<L: Link>(&mut self, link: &mut L) -> Result<(), TurnFault>
        ensures works { Works N.answers N.is_stopped W.text result
            (hall self.old.crew (L.sent link.old)) (hall self.new.crew (L.sent link.new)) }
        ensures lines { self.new.lines ≡ self.old.lines }
        ensures step { result ≢ Err TurnFault.LedgerFault → AreInStep N.in_step W.text self.old.crew.cores
            → AreInStep N.in_step W.text self.new.crew.cores }
        ensures waiting { L.waiting link.new ≡ L.waiting link.old }
    {
        self.crew.work(link)
    }

    /// Takes a piece of what comes from the coordinator. Each line that then is whole goes, in order, to the core to
    /// which it belongs: `GRANT`, `STOP` and `LATER` alone to the one whose `ASK` is the oldest that is unanswered, which
    /// asks again later where it doesn't take it; `ACK` and `LATER` with a table to one after another, as far as one
    /// that has the record. Any other line is dropped, and so is the answer to an `ASK` where none is unanswered. Each
    /// answer is fulfilled before anything else happens, as by `work`. After a fault at a line those behind it are left,
    /// what was handed over before stands, and the connection has to be made anew.
    pub fn hear<L: Link>(&mut self, piece: &[u8], link: &mut L) -> Result<(), TurnFault>
        ensures hears { Hears N.answers N.is_stopped W.text self.old (L.sent link.old) piece.now result
            self.new (L.sent link.new) }
        ensures step { result ≢ Err TurnFault.LedgerFault → AreInStep N.in_step W.text self.old.crew.cores
            → AreInStep N.in_step W.text self.new.crew.cores }
        ensures waiting { L.waiting link.new ≡ L.waiting link.old }
    {
        self.lines.feed(piece)?;
        self.hear_all(link)
    }

    // Hears each line that waits.
    fn hear_all<L: Link>(&mut self, link: &mut L) -> Result<(), TurnFault>
        ensures hears { HearsAll N.answers N.is_stopped W.text self.old.lines.waiting result self.new.lines.waiting
            (hall self.old.crew (L.sent link.old)) (hall self.new.crew (L.sent link.new)) }
        ensures rest { self.new.lines.rest ≡ self.old.lines.rest }
        ensures step { result ≢ Err TurnFault.LedgerFault → AreInStep N.in_step W.text self.old.crew.cores
            → AreInStep N.in_step W.text self.new.crew.cores }
        ensures waiting { L.waiting link.new ≡ L.waiting link.old }
    {
        'lines: while let Some(line) = self.lines.next() {
            self.crew.hear_line(line, link)?;
        }
        Ok(())
    }
}

// The moment of each tick. A worker answers a tick whatever its moment.
const NO_MOMENT: u64 = 0;

// Whether an answer has no frames.
fn is_silent(out: &Out) -> bool
    ensures silent { result ≡ true → out.now.frames.items ≡ [] }
    ensures other { result ≡ false → out.now.frames.items ≢ [] }
{
    out.frames.as_slice().is_empty()
}

impl<N: Node, W: LedgerOut> Crew<N, W> {
    // Hands the core at a place work turns, until one's answer has no frames, but `MAX_WORK_TURNS` at most.
    fn take_turns<L: Link>(&mut self, place: usize, link: &mut L) -> Result<(), TurnFault>
        requires { place < length self.old.cores }
        ensures turns { Turns N.answers N.is_stopped W.text work_turn_limit place result
            (hall self.old (L.sent link.old)) (hall self.new (L.sent link.new)) }
        ensures step { result ≢ Err TurnFault.LedgerFault → AreInStep N.in_step W.text self.old.cores
            → AreInStep N.in_step W.text self.new.cores }
        ensures count { length self.new.cores ≡ length self.old.cores }
        ensures waiting { L.waiting link.new ≡ L.waiting link.old }
    {
        let mut left = MAX_WORK_TURNS;
        'turns: while left > 0 {
            let out = self.hand(place, Event::Work, link)?;
            if is_silent(&out) {
                return Ok(());
            }
            left -= 1;
        }
        Ok(())
    }

    // Ticks the core at a place, where nothing of it is due and it wasn't told to come later or to stop.
    fn tick<L: Link>(&mut self, place: usize, link: &mut L) -> Result<(), TurnFault>
        requires { place < length self.old.cores }
        ensures ticks { Ticks N.answers N.is_stopped W.text place result
            (hall self.old (L.sent link.old)) (hall self.new (L.sent link.new)) }
        ensures step { result ≢ Err TurnFault.LedgerFault → AreInStep N.in_step W.text self.old.cores
            → AreInStep N.in_step W.text self.new.cores }
        ensures count { length self.new.cores ≡ length self.old.cores }
        ensures waiting { L.waiting link.new ≡ L.waiting link.old }
    {
        if self.cores[place].is_ready() {
            self.hand(place, Event::Tick(NO_MOMENT), link)?;
        }
        Ok(())
    }

    // The turns of the core at a place, and then its tick.
    fn serve<L: Link>(&mut self, place: usize, link: &mut L) -> Result<(), TurnFault>
        requires { place < length self.old.cores }
        ensures serves { Serves N.answers N.is_stopped W.text work_turn_limit place result
            (hall self.old (L.sent link.old)) (hall self.new (L.sent link.new)) }
        ensures step { result ≢ Err TurnFault.LedgerFault → AreInStep N.in_step W.text self.old.cores
            → AreInStep N.in_step W.text self.new.cores }
        ensures count { length self.new.cores ≡ length self.old.cores }
        ensures waiting { L.waiting link.new ≡ L.waiting link.old }
    {
        self.take_turns(place, link)?;
        self.tick(place, link)
    }

    // Serves each core in its turn.
    pub fn work<L: Link>(&mut self, link: &mut L) -> Result<(), TurnFault>
        ensures works { Works N.answers N.is_stopped W.text result
            (hall self.old (L.sent link.old)) (hall self.new (L.sent link.new)) }
        ensures step { result ≢ Err TurnFault.LedgerFault → AreInStep N.in_step W.text self.old.cores
            → AreInStep N.in_step W.text self.new.cores }
        ensures count { length self.new.cores ≡ length self.old.cores }
        ensures waiting { L.waiting link.new ≡ L.waiting link.old }
    {
        for place in 0..self.count() {
            self.serve(place, link)?;
        }
        Ok(())
    }
}

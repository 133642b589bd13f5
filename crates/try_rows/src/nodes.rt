// A coordinator or a worker with its ledger, and what happens to it.
use crate::words::{Said, number_of, unread};
use cert::Finders;
use lease_core::{Coordinator, StartFault, Worker};
use ledger::Board;
use machine_text::MAX_STATES;
use run::HaltFinder;
use std::alloc::{AllocError as NoMemory, Global};
use wire::{Event, Node, NodeFault, Note, Out};

// A worker that looks for halting counts.
type HaltWorker = Worker<Finders<HaltFinder>>;

// How many steps it looks at.
const STEPS: u64 = 100;

// One of the two.
#[derive(Drop)]
enum Role {
    Coordinator(Coordinator),
    Worker(HaltWorker),
}

/// A coordinator of so many states, 1 to 7, and of an era, that is started from a ledger.
pub fn coordinator(
    alloc: Global,
    states: u8,
    era: u64,
    ledger: &[u8],
) -> Result<(Coordinator, Result<Out, StartFault>), NoMemory> {
    match Coordinator::start(alloc, states.clamp(1, MAX_STATES), era, ledger) {
        (_, Err(StartFault::NoMemory)) => Err(NoMemory),
        started => Ok(started),
    }
}

// A worker with the id 7.
fn worker(alloc: Global, ledger: &[u8]) -> Result<(HaltWorker, Result<Out, StartFault>), NoMemory> {
    let mut finders = Vec::new(alloc);
    finders.push(HaltFinder::new(alloc, STEPS))?;
    match Worker::over(alloc, 7, ledger, Finders::new(finders, STEPS)) {
        (_, Err(StartFault::NoMemory)) => Err(NoMemory),
        started => Ok(started),
    }
}

/// A node, the ledger that it wrote, and how it is started from that: with a number of states as a coordinator, without
/// as a worker.
#[derive(Drop)]
pub struct Station {
    alloc: Global,
    node: Option<Role>,
    ledger: Vec<u8>,
    states: Option<u8>,
    era: u64,
}

impl Station {
    /// No node yet.
    pub fn new(alloc: Global) -> Station {
        Station {
            alloc,
            node: None,
            ledger: Vec::new(alloc),
            states: None,
            era: 0,
        }
    }

    /// The node's board.
    pub fn board(&self) -> Option<&Board> {
        match &self.node {
            Some(Role::Coordinator(node)) => node.board(),
            Some(Role::Worker(node)) => node.board(),
            None => None,
        }
    }

    /// `ledger`: what the node's ledger holds.
    pub fn say_ledger(&self, said: &mut Said) -> Result<(), NoMemory> {
        said.bytes(&self.ledger)
    }

    /// `coordinator STATES ERA LEDGER`: a coordinator is started.
    pub fn begin_coordinator(
        &mut self,
        states: &str,
        era: &str,
        ledger: &[u8],
        said: &mut Said,
    ) -> Result<(), NoMemory> {
        let (Some(states @ 1..=7), Some(era)) = (number_of(states), number_of(era)) else {
            return unread(said);
        };
        self.states = Some(states as u8);
        self.era = era;
        self.begin(ledger, said)
    }

    /// `worker LEDGER`: a worker is started.
    pub fn begin_worker(&mut self, ledger: &[u8], said: &mut Said) -> Result<(), NoMemory> {
        self.states = None;
        self.begin(ledger, said)
    }

    /// `restart`: the node is started again, in the next era, from the ledger that it wrote.
    pub fn restart(&mut self, said: &mut Said) -> Result<(), NoMemory> {
        let held = self.ledger.as_slice().to_vec(self.alloc)?;
        self.era = self.era.saturating_add(1);
        self.begin(&held, said)
    }

    fn begin(&mut self, ledger: &[u8], said: &mut Said) -> Result<(), NoMemory> {
        let first = match self.states {
            Some(states) => self.put_coordinator(states, ledger)?,
            None => self.put_worker(ledger)?,
        };
        self.ledger.clear();
        self.ledger.extend_from_slice(ledger)?;
        match first {
            Ok(out) => self.answer(&out, said),
            Err(fault) => said.refusal(fault.number()),
        }
    }

    fn put_coordinator(
        &mut self,
        states: u8,
        ledger: &[u8],
    ) -> Result<Result<Out, StartFault>, NoMemory> {
        let (node, first) = coordinator(self.alloc, states, self.era, ledger)?;
        self.node = Some(Role::Coordinator(node));
        Ok(first)
    }

    fn put_worker(&mut self, ledger: &[u8]) -> Result<Result<Out, StartFault>, NoMemory> {
        let (node, first) = worker(self.alloc, ledger)?;
        self.node = Some(Role::Worker(node));
        Ok(first)
    }

    /// `on FRAME`: a frame comes.
    pub fn hear(&mut self, frame: &[u8], said: &mut Said) -> Result<(), NoMemory> {
        self.happen(Event::Frame(frame), said)
    }

    /// `tick N`: it is told the moment.
    pub fn tick(&mut self, moment: &str, said: &mut Said) -> Result<(), NoMemory> {
        match number_of(moment) {
            Some(moment) => self.happen(Event::Tick(moment), said),
            None => unread(said),
        }
    }

    /// `work`: there is time to work.
    pub fn work(&mut self, said: &mut Said) -> Result<(), NoMemory> {
        self.happen(Event::Work, said)
    }

    // An event happens to the node.
    fn happen(&mut self, event: Event<'_>, said: &mut Said) -> Result<(), NoMemory> {
        let answer = match &mut self.node {
            Some(Role::Coordinator(node)) => node.on(event),
            Some(Role::Worker(node)) => node.on(event),
            None => return unread(said),
        };
        match answer {
            Ok(out) => self.answer(&out, said),
            Err(NodeFault::NoMemory) => Err(NoMemory),
            Err(NodeFault::Stopped) => said.text("stopped"),
        }
    }

    /// `stop`: the node answers no more.
    pub fn stop(&mut self, said: &mut Said) -> Result<(), NoMemory> {
        match &mut self.node {
            Some(Role::Coordinator(node)) => node.stop(),
            Some(Role::Worker(node)) => node.stop(),
            None => return unread(said),
        }
        said.text("stopped")
    }

    // Changes the ledger as an answer says, and says it. The event has happened, so that memory refused here is asked for
    // again.
    fn answer(&mut self, out: &Out, said: &mut Said) -> Result<(), NoMemory> {
        if let Some(len) = out.cut {
            self.ledger
                .truncate(usize::try_from(len).unwrap_or(usize::MAX));
        }
        if self.ledger.extend_from_slice(&out.append).is_err() {
            self.ledger.extend_from_slice(&out.append)?;
        }
        say_answer(out, said)
    }
}

// Says what a node answers.
fn say_answer(out: &Out, said: &mut Said) -> Result<(), NoMemory> {
    if let Some(len) = out.cut {
        said.text("cut to")?;
        said.number(len)?;
    }
    if !out.append.is_empty() {
        said.text("appends")?;
        said.bytes(&out.append)?;
    }
    if !out.frames.is_empty() {
        said.text("sends")?;
        said.bytes(&out.frames)?;
    }
    match out.note {
        Note::Quiet => Ok(()),
        Note::Strange => said.text("strange"),
        Note::Stale => said.text("stale"),
        Note::Refused(number) => said.number(u64::from(number)),
    }
}

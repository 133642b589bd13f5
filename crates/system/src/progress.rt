// How far a command is, told on standard error while it goes on: at most once a second by a clock. Where the clock fails, or memory
// is refused, nothing is told.
ghost use Rattle.std.specs.Prelude.{◌≡◌};

use crate::tree_share::{WHOLE, ahead_weight, open_weight};
use cert::{Decided, Decider, OwnedRecord};
use files::Progress;
use kind_evidence::NoMemory;
use ledger::{Board, Tally};
use machine_text::Table;
use std::alloc::Global;
use std::time::{Clock, Duration, Instant};

// The least time between two lines, and for how long lines of a ledger are gathered at most, in milliseconds.
const SECOND: u64 = 1_000;

// How long the rest takes is said once this part of the whole is done.
const SURE_PART: u64 = 20;

/// How it is told how far a command is.
#[derive(Clone, Copy, Debug, PartialEq, Eq)]
pub enum Telling {
    /// Nothing is told.
    Nothing,
    /// By lines.
    Lines,
    /// By one line of a terminal, which is written over.
    OneLine,
}

impl Telling {
    /// How it is told: at a terminal always, and elsewhere by lines, where that is asked for.
    pub fn of(is_asked: bool, is_terminal: bool) -> Telling {
        match (is_terminal, is_asked) {
            (true, _) => Telling::OneLine,
            (false, true) => Telling::Lines,
            (false, false) => Telling::Nothing,
        }
    }
}

/// One who tells it. Whatever else is printed takes the line off the terminal first.
pub trait ProgressTold {
    /// Prints a line, on a terminal over the one before.
    fn show(&self, telling: Telling, line: &str);

    /// Prints the last line, except where the terminal shows something else by now.
    fn finish(&self, telling: Telling, line: &str);

    /// Takes the line off the terminal, if one is there.
    fn clear(&self);

    /// How much is read of the files at these paths, or of those in the folders there, is told so from now on.
    fn tell_reading(&self, telling: Telling, paths: &[&str]);

    /// Nothing of it is told any more.
    fn end_reading(&self);
}

/// Work of which it is told how far it is.
#[derive(Clone, Copy, Debug, PartialEq, Eq)]
pub enum Work {
    /// A tree is settled: how much of it is by Knuth's estimate, how long the rest takes if it goes on so, and how many tables
    /// are recorded, open and holdouts. Where workers connect, it is told how many there are, and how many records come in a
    /// second, in place of the holdouts.
    Tree,
    /// A tree is walked, which is told in the same way; nothing is recorded.
    Walk,
    /// The holdouts that a board had are tried, one after another: the board is told of before each of them.
    Holdouts,
    /// Tables are decided.
    Tables,
    /// So many bytes are read.
    Bytes(u64),
}

// How far it is after so many milliseconds: what is done of the whole, and how many tables there are of each kind.
#[derive(Clone, Copy)]
struct Far {
    milliseconds: u64,
    done: u64,
    records: u64,
    open: u64,
    holdouts: u64,
}

const BEGINNING: Far = Far {
    milliseconds: 0,
    done: 0,
    records: 0,
    open: 1,
    holdouts: 0,
};

// How far some work is, in words.
#[derive(Drop)]
pub(crate) struct Meter {
    alloc: Global,
    pub(crate) telling: Telling,
    work: Work,
    // none where nothing is to be told
    start: Option<Instant>,
    // after how many milliseconds a line was told last; none before the first
    last: Option<u64>,
    // how many holdouts there were; none before the first
    holdouts: Option<u64>,
    // how far it was when a tree was told of first, when it was told last, and now
    first: Far,
    told: Far,
    now: Far,
    // how many workers are connected; none where they don't connect
    workers: Option<usize>,
}

impl Meter {
    // Of some work that begins now.
    pub(crate) fn new<C: Clock>(alloc: Global, telling: Telling, work: Work, clock: &C) -> Meter {
        let start = match telling {
            Telling::Nothing => None,
            Telling::Lines | Telling::OneLine => Instant::now(clock).ok(),
        };
        Meter {
            alloc,
            telling,
            work,
            start,
            last: None,
            holdouts: None,
            first: BEGINNING,
            told: BEGINNING,
            now: BEGINNING,
            workers: None,
        }
    }

    // So many holdouts, tables or bytes more are done with. What is to be said, where it is time for that.
    pub(crate) fn counted<C: Clock>(&mut self, more: u64, clock: &C) -> Option<String> {
        self.now.done = self.now.done.saturating_add(more);
        self.is_due(clock).then_some(())?;
        self.line()
    }

    // A board is so far.
    fn seen<C: Clock>(&mut self, board: &Board, clock: &C) -> Option<String> {
        let tally = board.tally();
        if self.work == Work::Holdouts {
            if self.holdouts.is_some() {
                return self.counted(1, clock);
            }
            self.holdouts = Some(tally.holdouts);
            return None;
        }
        self.is_due_with(&tally, clock).then_some(())?;
        self.settled(open_weight(self.alloc, board).ok()?)
    }

    // A walk of a root's tree is so far.
    fn walked<C: Clock>(
        &mut self,
        root: &Table,
        ahead: &[Table],
        tally: &Tally,
        clock: &C,
    ) -> Option<String> {
        self.is_due_with(tally, clock).then_some(())?;
        self.settled(ahead_weight(self.alloc, root, ahead).ok()?)
    }

    // Of a tree, there are so many tables.
    fn is_due_with<C: Clock>(&mut self, tally: &Tally, clock: &C) -> bool {
        self.now.records = tally.nodes.saturating_sub(tally.open_count);
        (self.now.open, self.now.holdouts) = (tally.open_count, tally.holdouts);
        self.is_due(clock)
    }

    // The open tables of a tree weigh so much together. What is to be said.
    fn settled(&mut self, open_weight: u64) -> Option<String> {
        self.now.done = WHOLE.saturating_sub(open_weight);
        if self.told.milliseconds == 0 {
            self.first = self.now;
        }
        let line = self.line();
        self.told = self.now;
        line
    }

    // What is to be said at the end, where something was said before.
    pub(crate) fn last_line<C: Clock>(&mut self, clock: &C) -> Option<String> {
        self.last?;
        match self.work {
            // The last one is tried too.
            Work::Holdouts => self.now.done = self.now.done.saturating_add(1),
            Work::Tree | Work::Walk if self.now.open == 0 => self.now.done = WHOLE,
            _ => {}
        }
        self.now.milliseconds = self.gone(clock)?;
        self.line()
    }

    // Whether a second has gone by since something was said last.
    fn is_due<C: Clock>(&mut self, clock: &C) -> bool {
        let Some(gone) = self.gone(clock) else {
            return false;
        };
        self.now.milliseconds = gone;
        let is_due = gone.saturating_sub(self.last.unwrap_or(0)) >= SECOND;
        if is_due {
            self.last = Some(gone);
        }
        is_due
    }

    // How many milliseconds have gone by.
    fn gone<C: Clock>(&self, clock: &C) -> Option<u64> {
        let start = self.start?;
        let now = Instant::now(clock).ok()?;
        Some(u64::try_from(now.duration_since(start).as_millis()).unwrap_or(u64::MAX))
    }

    // Behind the time since the start. What can't be said for want of memory isn't.
    fn line(&self) -> Option<String> {
        let time = clock_text(self.alloc, self.now.milliseconds / 1_000).ok()?;
        let told = self.text().ok()?;
        format!(in self.alloc; "{time} {told}").ok()
    }

    fn text(&self) -> Result<String, NoMemory> {
        let (alloc, done) = (self.alloc, self.now.done);
        match self.work {
            Work::Bytes(total) => {
                let part = self.part_text(total)?;
                format!(in alloc; "{part} of {total} bytes read{}", self.rest_text(total)?)
            }
            Work::Holdouts => {
                let total = self.holdouts.unwrap_or(done).max(1);
                let (part, done) = (self.part_text(total)?, done.min(total));
                format!(in alloc;
                    "{part}: {done} of {total} holdouts tried{}",
                    self.rest_text(total)?
                )
            }
            Work::Tables => {
                let rate = a_second(done, self.now.milliseconds);
                format!(in alloc; "{done} tables decided, {rate} a second")
            }
            Work::Tree => self.tree_text("recorded"),
            Work::Walk => self.tree_text("decided"),
        }
    }

    fn tree_text(&self, done: &str) -> Result<String, NoMemory> {
        let (alloc, now) = (self.alloc, self.now);
        let (part, rest) = (self.part_text(WHOLE)?, self.rest_text(WHOLE)?);
        let Far {
            records,
            open,
            holdouts,
            ..
        } = now;
        let Some(workers) = self.workers else {
            return format!(in alloc;
                "{part}{rest}: {records} {done}, {open} open, {holdouts} holdouts"
            );
        };
        let gone = now.milliseconds.saturating_sub(self.told.milliseconds);
        let rate = a_second(records.saturating_sub(self.told.records), gone);
        format!(in alloc;
            "{workers} workers, {part}{rest}: {records} {done}, {rate} a second, {open} open"
        )
    }

    // What is done of the whole in per cent, with one digit behind the point.
    fn part_text(&self, whole: u64) -> Result<String, NoMemory> {
        let thousandths = u128::from(self.now.done.min(whole)) * 1_000 / u128::from(whole.max(1));
        format!(in self.alloc; "{}.{}%", thousandths / 10, thousandths % 10)
    }

    // How long what is left of the whole takes, rounded up, if it goes on so; nothing before enough of it is done, nor where all is.
    fn rest_text(&self, whole: u64) -> Result<String, NoMemory> {
        let done = self.now.done.min(whole);
        let (left, gained) = (whole - done, done.saturating_sub(self.first.done));
        if gained == 0 || left == 0 || done < whole / SURE_PART {
            return Ok(String::new(self.alloc));
        }
        let gone = self
            .now
            .milliseconds
            .saturating_sub(self.first.milliseconds);
        let rest = u128::from(gone) * u128::from(left) / u128::from(gained) / 1_000 + 1;
        let rest = clock_text(self.alloc, u64::try_from(rest).unwrap_or(u64::MAX))?;
        format!(in self.alloc; ", {rest} left")
    }
}

fn a_second(count: u64, milliseconds: u64) -> u128 {
    u128::from(count) * 1_000 / u128::from(milliseconds.max(1))
}

// So many seconds, as hours, minutes and seconds.
fn clock_text(alloc: Global, seconds: u64) -> Result<String, NoMemory> {
    let (hours, minutes) = (seconds / 3_600, seconds / 60 % 60);
    format!(in alloc; "{hours}:{minutes:02}:{:02}", seconds % 60)
}

/// Tells how far some work is.
#[derive(Drop)]
pub struct TimedProgress<'a, S> {
    meter: Meter,
    system: &'a S,
    // since when lines are gathered; none where the clock failed
    gathered: Option<Instant>,
}

impl<'a, S: Clock + ProgressTold> TimedProgress<'a, S> {
    /// Of some work that begins now.
    pub fn new(alloc: Global, telling: Telling, work: Work, system: &'a S) -> TimedProgress<'a, S> {
        TimedProgress {
            meter: Meter::new(alloc, telling, work, system),
            system,
            gathered: Instant::now(system).ok(),
        }
    }

    /// Says how far it has come, if anything was said of that.
    pub fn end(&mut self) {
        if let Some(line) = self.meter.last_line(self.system) {
            self.system.finish(self.meter.telling, &line);
        }
    }

    fn count(&mut self) {
        let line = self.meter.counted(1, self.system);
        self.show(line);
    }

    fn show(&self, line: Option<String>) {
        if let Some(line) = line {
            self.system.show(self.meter.telling, &line);
        }
    }
}

impl<'a, S: Clock + ProgressTold> Progress for TimedProgress<'a, S> {
    fn tell(&mut self, board: &Board) {
        let line = self.meter.seen(board, self.system);
        self.show(line);
    }

    fn tell_walk(&mut self, root: &Table, ahead: &[Table], tally: &Tally) {
        let line = self.meter.walked(root, ahead, tally, self.system);
        self.show(line);
    }

    fn is_due(&mut self) -> bool {
        let now = Instant::now(self.system).ok();
        let is_due = match (self.gathered, now) {
            (Some(since), Some(now)) => now.duration_since(since) >= Duration::from_millis(SECOND),
            // Without a clock nothing is held back.
            _ => true,
        };
        if is_due {
            self.gathered = now;
        }
        is_due
    }

    fn count_workers(&mut self, workers: usize) {
        self.meter.workers = Some(workers);
    }
}

/// A decider that tells how many tables it has decided.
#[derive(Drop)]
pub struct CountedDecider<'a, D, S> {
    decider: &'a mut D,
    progress: TimedProgress<'a, S>,
}

impl<'a, D: Decider, S: Clock + ProgressTold> CountedDecider<'a, D, S> {
    /// One that asks a decider.
    pub fn new(decider: &'a mut D, progress: TimedProgress<'a, S>) -> CountedDecider<'a, D, S>
        ensures { result.decider.now ≡ decider.old }
    {
        CountedDecider { decider, progress }
    }

    /// Says how many it has decided, if anything was said of that.
    pub fn end(&mut self) {
        self.progress.end();
    }
}

impl<'a, D: Decider, S: Clock + ProgressTold> Decider for CountedDecider<'a, D, S> {
    ghost answers = { λ asked p r. D.answers asked.decider.now p r };

    fn decide(&mut self, alloc: Global, t: &Table) -> Result<OwnedRecord, NoMemory> {
        self.progress.count();
        self.decider.decide(alloc, t)
    }

    fn decide_judged(&mut self, alloc: Global, t: &Table) -> Result<Decided, NoMemory> {
        self.progress.count();
        self.decider.decide_judged(alloc, t)
    }
}

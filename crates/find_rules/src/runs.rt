// Runs on blocks from one place to the next, and the places to which they came.
use crate::block::{Times, with_first};
use crate::limits::{MAX_CONTEXT, MAX_REFUSED, MAX_STRETCH, MAX_SWEEP_STEPS};
use crate::records::opposite;
use crate::rules::{Fitting, Name, Rule};
use crate::script::Script;
use crate::sweeps::{Question, Sweep, Sweeper, rule_of_sweep};
use crate::tapes::Form;
use machine_text::{Dir, Table};
use std::alloc::{AllocError as NoMemory, AllocFailed, Global};

// Why a script doesn't go on.
#[derive(Clone, Copy, Debug, PartialEq, Eq, Drop)]
pub(crate) enum Stop {
    // Memory was refused.
    NoMemory,
    // A block would have to have more copies that don't depend on the variable.
    More,
    // How often a block is repeated would have to be a multiple of this.
    Multiple(u64),
    // For another reason.
    Fails,
}

impl From<NoMemory> for Stop {
    fn from(_: NoMemory) -> Stop {
        Stop::NoMemory
    }
}

impl<T: Drop> From<AllocFailed<T>> for Stop {
    fn from(_: AllocFailed<T>) -> Stop {
        Stop::NoMemory
    }
}

// The rules that are known, and what is left of the work.
#[derive(Drop)]
pub(crate) struct BlockRun {
    alloc: Global,
    pub rules: Vec<Rule>,
    // What may become rules together, and is used for the same value of the first variable until then.
    pub guesses: Vec<Rule>,
    sweeper: Sweeper,
    sweeps: Vec<Sweep>,
    // What has no sweep that isn't known.
    refused: Vec<u64>,
    fitting: Fitting,
    // How many places may be gone on from, and how many cells copies have that become a block.
    work: u64,
    cells: u32,
}

impl BlockRun {
    // No rules, and no work. Takes no memory.
    pub fn new(alloc: Global) -> BlockRun {
        BlockRun {
            alloc,
            rules: Vec::new(alloc),
            guesses: Vec::new(alloc),
            sweeper: Sweeper::new(alloc),
            sweeps: Vec::new(alloc),
            refused: Vec::new(alloc),
            fitting: Fitting::new(alloc),
            work: 0,
            cells: 0,
        }
    }

    // No rules again, and so much work; copies of so many cells at least become blocks.
    pub fn restart(&mut self, work: u64, cells: u32) {
        self.rules.clear();
        self.guesses.clear();
        self.sweeps.clear();
        self.refused.clear();
        self.work = work;
        self.cells = cells;
    }

    // So much work again, with the rules that are known.
    pub fn allow(&mut self, work: u64) {
        self.work = work;
    }

    // Has a form be in its normal shape, as tapes are where the script stands.
    pub fn normalize(&self, form: &mut Form, script: &mut Script) -> Result<(), Stop> {
        let values = with_first(Times::growing(0, 1));
        script.start(form, &values)?;
        script.normalize(self.cells)?;
        form.copy_put(&script.tape, &values)?;
        Ok(())
    }

    // Has a script go on to the next place, where its halves are in their normal shapes.
    pub fn advance(&mut self, t: &Table, script: &mut Script) -> Result<(), Stop> {
        self.work = self.work.checked_sub(1).ok_or(Stop::Fails)?;
        if !self.use_any(t, script)? {
            walk(t, script)?;
        }
        script.normalize(self.cells)
    }

    // Uses the last rule that fits, or a new sweep; whether there is one.
    fn use_any(&mut self, t: &Table, script: &mut Script) -> Result<bool, Stop> {
        // A rule may want a multiple, and another one may not.
        let mut multiple = u64::MAX;
        for number in (0..self.rules.len()).rev() {
            match self.use_rule(number, script) {
                Ok(true) => return Ok(true),
                Ok(false) => {}
                Err(Stop::Multiple(count)) => multiple = multiple.min(count),
                Err(stop) => return Err(stop),
            }
        }
        if self.finds_sweep(t, script)? {
            let last = self.rules.len().saturating_sub(1);
            if self.use_rule(last, script)? {
                return Ok(true);
            }
        }
        if self.uses_guess(script)? {
            return Ok(true);
        }
        match script.block(script.tape.side, 0) {
            Some(block) if multiple < u64::MAX && !block.times.is_number() => {
                Err(Stop::Multiple(multiple))
            }
            _ => Ok(false),
        }
    }

    // Uses a rule as often as it goes, if it fits.
    fn use_rule(&mut self, number: usize, script: &mut Script) -> Result<bool, Stop> {
        let Some(rule) = self.rules.get(number) else {
            return Ok(false);
        };
        if !self.fitting.reads(rule, &script.tape)? {
            return Ok(false);
        }
        let Some(values) = self.fitting.values()? else {
            return Ok(false);
        };
        self.fitting
            .apply(rule, &values, Name::Known(number), script)?;
        Ok(true)
    }

    // Uses the first guess that fits for the same value of the first variable; whether there is one. Its number is
    // the one that it has once all of them have become rules.
    fn uses_guess(&mut self, script: &mut Script) -> Result<bool, Stop> {
        let mut values = with_first(Times::growing(0, 1));
        for value in values.iter_mut().skip(1) {
            *value = Times::NEVER;
        }
        for (place, guess) in self.guesses.iter().enumerate() {
            if self.fitting.reads(guess, &script.tape)? && self.fitting.fits(&values) {
                let number = self.rules.len().saturating_add(place);
                self.fitting
                    .apply(guess, &values, Name::Guessed(number), script)?;
                return Ok(true);
            }
        }
        Ok(false)
    }

    // Whether there is a sweep over the block at the head that isn't known; it becomes the last rule.
    fn finds_sweep(&mut self, t: &Table, script: &Script) -> Result<bool, Stop> {
        let side = script.tape.side;
        let block = match script.block(side, 0) {
            Some(block) if !block.is_symbol() => block,
            _ => return Ok(false),
        };
        let asked = Question {
            state: script.tape.state,
            side,
            word: block.word,
            context: script.half(opposite(side)).known_here(MAX_CONTEXT),
        };
        let mark = asked.mark();
        if self.refused.contains(&mark) {
            return Ok(false);
        }
        self.sweeper.work = MAX_SWEEP_STEPS.saturating_add(1);
        let Some(sweep) = self.sweeper.search(t, &asked)? else {
            return self.refuse(mark);
        };
        if self.sweeps.iter().any(|other| other.is_same(&sweep)) {
            return self.refuse(mark);
        }
        self.sweeps.push(sweep)?;
        let rule = rule_of_sweep(self.alloc, t, &sweep, block.word)?;
        self.rules.push(rule)?;
        Ok(true)
    }

    // What was asked for has no new sweep.
    fn refuse(&mut self, mark: u64) -> Result<bool, Stop> {
        if self.refused.len() < MAX_REFUSED {
            self.refused.push(mark)?;
        }
        Ok(false)
    }
}

// Steps to the next place.
fn walk(t: &Table, script: &mut Script) -> Result<(), Stop> {
    let _ = script.expose(script.tape.side, 0)?;
    for _ in 0..MAX_STRETCH {
        script.step(t)?;
        match script.block(script.tape.side, 0) {
            Some(block) if block.is_symbol() => {}
            _ => return Ok(()),
        }
    }
    Err(Stop::Fails)
}

// A place of the run.
#[derive(Clone, Copy, Debug, PartialEq, Eq)]
struct Place {
    // How much of each half stayed since the place before, and whether its end did.
    left: Stayed,
    right: Stayed,
    times: usize,
    count: usize,
}

// How many of the farthest blocks of a half stayed, and whether its end did.
#[derive(Clone, Copy, Debug, PartialEq, Eq)]
pub(crate) struct Stayed {
    pub blocks: usize,
    pub end: bool,
}

impl Stayed {
    fn of(script: &Script, side: Dir) -> Stayed {
        let half = script.half(side);
        Stayed {
            blocks: half.kept,
            end: half.keeps_end,
        }
    }
}

// The places so far.
#[derive(Drop)]
pub(crate) struct Places {
    list: Vec<Place>,
    shapes: Vec<u64>,
    times: Vec<Times>,
    now: Vec<Times>,
}

impl Places {
    // Takes no memory.
    pub fn new(alloc: Global) -> Places {
        Places {
            list: Vec::new(alloc),
            shapes: Vec::new(alloc),
            times: Vec::new(alloc),
            now: Vec::new(alloc),
        }
    }

    pub fn clear(&mut self) {
        self.list.clear();
        self.shapes.clear();
        self.times.clear();
    }

    // The number of the last place.
    pub fn last(&self) -> usize {
        self.list.len().saturating_sub(1)
    }

    // One more place.
    pub fn add(&mut self, script: &Script) -> Result<(), NoMemory> {
        script.tape.list_times(&mut self.now)?;
        self.list.push(Place {
            left: Stayed::of(script, Dir::L),
            right: Stayed::of(script, Dir::R),
            times: self.times.len(),
            count: self.now.len(),
        })?;
        self.shapes.push(script.tape.shape())?;
        self.times.extend_from_slice(&self.now)
    }

    // The shape at a place.
    pub fn shape(&self, number: usize) -> u64 {
        self.shapes.get(number).copied().unwrap_or(0)
    }

    // How often the blocks were repeated at a place.
    pub fn times(&self, number: usize) -> &[Times] {
        let Some(place) = self.list.get(number) else {
            return &[];
        };
        let end = place.times.saturating_add(place.count);
        match self.times.get(place.times..end) {
            Some(times) => times,
            None => &[],
        }
    }

    // Of the places before one those of its shape, the last first, no more than fit.
    pub fn list_alike(
        &self,
        number: usize,
        alike: &mut Vec<usize>,
        most: usize,
    ) -> Result<(), NoMemory> {
        alike.clear();
        let shape = self.shape(number);
        for (before, other) in self.shapes.iter().enumerate().rev() {
            if alike.len() >= most {
                return Ok(());
            }
            if *other == shape && before < number {
                alike.push(before)?;
            }
        }
        Ok(())
    }

    // How much of a half stayed since a place.
    pub fn stayed(&self, side: Dir, since: usize) -> Stayed {
        let mut least = Stayed {
            blocks: usize::MAX,
            end: true,
        };
        for place in self.list.iter().skip(since.saturating_add(1)) {
            let stayed = match side {
                Dir::L => place.left,
                Dir::R => place.right,
            };
            least.blocks = least.blocks.min(stayed.blocks);
            least.end = least.end && stayed.end;
        }
        least
    }
}

// A run from the blank tape, step by step.
ghost use Rattle.std.specs.Prelude.{◌≡◌, ◌+◌, ◌<◌, ◌≤◌, IfOk, OnOk, OnErr};
ghost use Rattle.law_turing.specs.Terms.{written, moved};
ghost use Rattle.tape.specs.Terms.{IsWithinLimit};

use crate::limits::MAX_RUN_STEPS;
use crate::passages::Passages;
use machine_text::{Dir, Entry, State, Sym, Table};
use std::alloc::Global;
use std::marker::Model;
use tape::{NoMemory, Tape};

// So many steps from which on the memory for passages pays.
const MANY_STEPS: u64 = 4_000_000;

/// What a step came to.
#[derive(Clone, Copy, Debug, PartialEq, Eq)]
pub enum Step {
    /// The step was done.
    Went,
    /// The run stands on a halting pair: it halts in `count` steps, of which this is the last.
    Halts { count: u64 },
}

/// A run of a table from the blank tape, at some time of it. It makes at most `MAX_RUN_STEPS` steps.
#[derive(Drop)]
pub struct Runner {
    table: Table,
    steps: u64,
    state: State,
    tape: Tape,
}

impl Model for Runner {
    ghost use Rattle.run.specs.Steps.{RunState, run_state_code, OnRun};

    ghost Value = { RunState };

    ghost coded = { run_state_code };

    ghost use Rattle.run.specs.inside.{run_state_of};

    ghost view = { run_state_of };

    ghost invariant = { λ a. OnRun (run_state_of a) };
}

impl Runner {
    ghost use Rattle.law_turing.specs.Terms.{start, score_of};
    ghost use Rattle.run.specs.Limits.{run_step_limit, window_step_limit};
    ghost use Rattle.run.specs.Steps.{OnRun, StepsTo, RunsTo, IsBetween};
    ghost use Rattle.run.specs.inside.{AdvancesTo};

    /// The run at time 0.
    pub fn new(alloc: Global, t: Table) -> Result<Runner, NoMemory>
        ensures { IfOk result (λ r. r ≡ record { table = t; steps = 0; config = start }) }
    {
        // Opens the invariant of the table: the runner keeps it.
        let _ = t.states();
        Ok(Runner {
            table: t,
            steps: 0,
            state: State(0),
            tape: Tape::new(alloc),
        })
    }

    /// Begins the run of a table anew, in the memory that the runner has.
    pub fn restart(&mut self, t: Table)
        ensures { self.new ≡ record { table = t; steps = 0; config = start } }
    {
        // Opens the invariant of the table: the runner keeps it.
        let _ = t.states();
        self.table = t;
        self.steps = 0;
        self.state = State(0);
        self.tape.clear();
    }

    /// Carries out one step, unless the run stands on a halting pair: then nothing changes, and the
    /// answer is the same again. After an error nothing has changed.
    // Always inlined: called for each step, it takes half as long again.
    #[inline(always)]
    pub fn step(&mut self) -> Result<Step, NoMemory>
        requires { self.old.steps < run_step_limit }
        ensures ok { IfOk result (λ step. StepsTo self.old step self.new) }
        ensures err { OnErr result (self.new ≡ self.old) }
        ensures stands { OnRun self.new }
    {
        let Some(entry) = self.table.get(self.state, self.tape.read()) else {
            return Ok(Step::Halts {
                count: self.steps + 1,
            });
        };
        apply(&mut self.tape, entry)?;
        self.state = entry.next;
        self.steps += 1;
        Ok(Step::Went)
    }

    /// Carries out steps up to time k, which isn't before the time of the runner: `Halts` where the run
    /// halts in at most k steps, and the runner stands at its last time then; otherwise `Went`. After an
    /// error the runner stands at a time between the two.
    // Kept apart from its callers: among their variables the loop would run out of registers.
    #[inline(never)]
    pub fn run_to(&mut self, k: u64) -> Result<Step, NoMemory>
        requires onward { self.old.steps ≤ k }
        requires limit { k ≤ run_step_limit }
        ensures ok { IfOk result (λ step. RunsTo k self.old step self.new) }
        ensures err { OnErr result (IsBetween k self.old self.new) }
        ensures limit { MAX_RUN_STEPS ≡ run_step_limit }
    {
        while self.steps() < k {
            let step = self.advance(k)?;
            if let Step::Halts { count } = step {
                return Ok(Step::Halts { count });
            }
        }
        Ok(Step::Went)
    }

    /// Carries out steps up to time k as `run_to` does, by windows of sixteen cells: what the run does to one is worked out once, and
    /// remembered. A long run that isn't made of sweeps is some ten times as fast so.
    #[inline(never)]
    pub fn run_by_windows(&mut self, k: u64, passages: &mut Passages) -> Result<Step, NoMemory>
        requires passages { passages.old ≡ self.old.table }
        requires onward { self.old.steps ≤ k }
        requires limit { k ≤ window_step_limit }
        ensures ok { IfOk result (λ step. RunsTo k self.old step self.new) }
        ensures err { OnErr result (IsBetween k self.old self.new) }
    {
        while self.steps() < k {
            let step = self.cross(k, passages)?;
            if let Step::Halts { count } = step {
                return Ok(Step::Halts { count });
            }
        }
        Ok(Step::Went)
    }

    /// Carries out steps up to time k as `run_to` does, by windows where there are many of them.
    pub fn run_far(&mut self, alloc: Global, k: u64) -> Result<Step, NoMemory>
        requires onward { self.old.steps ≤ k }
        requires limit { k ≤ window_step_limit }
        ensures ok { IfOk result (λ step. RunsTo k self.old step self.new) }
        ensures err { OnErr result (IsBetween k self.old self.new) }
    {
        if k < MANY_STEPS {
            return self.run_to(k);
        }
        // Opens the invariant of the runner: it stands on the run of a table.
        let _ = self.steps();
        let mut passages = Passages::new(alloc, self.table)?;
        self.run_by_windows(k, &mut passages)
    }

    // Goes through the window in which the run stands, where that ends by time k; else carries out a step, or several.
    #[inline(always)]
    fn cross(&mut self, k: u64, passages: &mut Passages) -> Result<Step, NoMemory>
        requires passages { passages.old ≡ self.old.table }
        requires onward { self.old.steps < k }
        requires limit { k ≤ window_step_limit }
        ensures ok { IfOk result (λ step. AdvancesTo k self.old step self.new) }
        ensures err { OnErr result (self.new ≡ self.old) }
        ensures stands { OnRun self.new }
        ensures passages { passages.new ≡ passages.old }
    {
        let window = self.tape.window();
        match passages.through(self.state, window) {
            Some(passage) if passage.steps as u64 <= k - self.steps => {
                self.tape.cross(window.at, passage.cells, passage.side)?;
                self.steps += passage.steps as u64;
                self.state = passage.state;
                Ok(Step::Went)
            }
            _ => self.advance(k),
        }
    }

    // Carries out one step, or several at once up to time k: those of a state that stays as it is while the head
    // reads one symbol. After an error nothing has changed.
    #[inline(always)]
    fn advance(&mut self, k: u64) -> Result<Step, NoMemory>
        requires onward { self.old.steps < k }
        requires limit { k ≤ run_step_limit }
        ensures ok { IfOk result (λ step. AdvancesTo k self.old step self.new) }
        ensures err { OnErr result (self.new ≡ self.old) }
        ensures stands { OnRun self.new }
    {
        match self.table.get(self.state, self.tape.read()) {
            Some(entry) if entry.next == self.state => {
                self.steps += self.tape.sweep(entry.dir, entry.write, k - self.steps)?;
                Ok(Step::Went)
            }
            _ => self.step(),
        }
    }

    /// How many steps were carried out: the time at which the runner stands.
    #[inline]
    pub fn steps(&self) -> u64
        ensures steps { result ≡ self.now.steps }
        ensures stands { OnRun self.now }
    {
        self.steps
    }

    /// The state at that time.
    #[inline]
    pub fn state(&self) -> State
        ensures { result.0 ≡ self.now.config.state }
    {
        self.state
    }

    /// The score of a run that halts where the runner stands: the ones on its tape once the halting step has written
    /// one. It takes no memory.
    pub fn into_score(mut self) -> u64
        ensures { result ≡ score_of self.config }
    {
        self.tape.write(Sym::One);
        self.tape.ones()
    }

    /// The tape at that time.
    #[inline]
    pub fn tape(&self) -> &Tape
        ensures { result.now ≡ self.now.config.tape }
    {
        &self.tape
    }
}

// Writes and moves as an entry says. After an error the tape is as it was.
#[inline]
fn apply(tape: &mut Tape, e: Entry) -> Result<(), NoMemory>
    requires { IsWithinLimit tape.old.head }
    ensures ok { OnOk result (tape.new ≡ moved (written tape.old e.write) e.dir) }
    ensures err { OnErr result (tape.new ≡ tape.old) }
{
    match e.dir {
        Dir::L => tape.write_left(e.write),
        Dir::R => tape.write_right(e.write),
    }
}

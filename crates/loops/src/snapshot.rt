// A configuration that is kept, to hold later ones against, and how many cells may be compared.
ghost use Rattle.std.specs.Prelude.{◌≡◌, ◌↔◌, ◌+◌, ◌*◌, ◌<◌, ◌≤◌, IsTrue, ◌-ℤ◌, unsigned_abs, IfOk, OnOk, ℤ, pos, ◌+ℤ◌};
ghost use Rattle.std.specs.Bool.{OnTrue, OnFalse};
ghost use Rattle.loops.specs.Limits.{time_limit};
ghost use Rattle.machine_text.specs.Terms.{entry_of};
ghost use Rattle.law_turing.specs.Terms.{Beyond, Farthest, Translated};
ghost use Rattle.run.specs.Terms.{OnRun};
ghost use Rattle.tape.specs.Terms.{IsWithinLimit};

use kind_evidence::NoMemory;
use machine_text::{Dir, State};
use run::Runner;
use std::alloc::Global;
use std::marker::Model;
use tape::Tape;

// How many cells may be compared for each step up to the time at which a configuration is kept. Of random
// tables with loops none was missed for it, nor with 1 in its place; a greater number makes the slowest
// searches slower.
const CELLS_PER_STEP: u64 = 2;

// How many cells may be compared besides, so that loops of the first few steps are seen.
const CELLS_BESIDES: u64 = 16;

// The cells that a search may still compare before it keeps the next configuration. It keeps one whenever
// twice the time has come, and with it begins a new allowance, in proportion to the time: so all the
// allowances of a search together are in proportion to its steps.
#[derive(Clone, Copy)]
pub(crate) struct Allowance {
    cells: u64,
}

impl Allowance {
    // The allowance that begins at a time.
    pub fn at(time: u64) -> Allowance
        requires { time ≤ time_limit }
        ensures { result.cells ≡ CELLS_PER_STEP * time + CELLS_BESIDES }
    {
        Allowance {
            cells: CELLS_PER_STEP * time + CELLS_BESIDES,
        }
    }

    // Takes off the cells from one place to another, both included, if so many are left. If not, nothing is
    // taken off, and they may not be compared.
    pub fn spend(&mut self, first: i64, last: i64) -> bool
        ensures enough { IsTrue result ↔ (unsigned_abs (last -ℤ first) < self.old.cells) }
        ensures spent { OnTrue result (self.new.cells + (unsigned_abs (last -ℤ first) + 1) ≡ self.old.cells) }
        ensures kept { OnFalse result (self.new ≡ self.old) }
    {
        let distance = last.abs_diff(first);
        let enough = distance < self.cells;
        if enough {
            self.cells -= distance + 1;
        }
        enough
    }
}

/// A time of a run, and the configuration at that time.
#[derive(Drop)]
pub(crate) struct Snapshot {
    time: u64,
    state: State,
    tape: Tape,
}

impl Model for Snapshot {
    ghost use Rattle.loops.specs.inside.{Moment, moment_code};

    ghost Value = { Moment };

    ghost coded = { moment_code };

    ghost view = { λ a. record { time = a.time; config = record { state = a.state.0; tape = a.tape } } };
}

impl Snapshot {
    ghost use Rattle.loops.specs.inside.{moment_of, IsMomentOf};

    // Of no run: time 0 on a blank tape. Takes no memory.
    pub fn blank(alloc: Global) -> Snapshot {
        Snapshot {
            time: 0,
            state: State(0),
            tape: Tape::new(alloc),
        }
    }

    // Where a runner stands. Takes memory for its tape.
    pub fn taken(alloc: Global, runner: &Runner) -> Result<Snapshot, NoMemory>
        ensures kept { IfOk result (λ s. s ≡ moment_of runner.now) }
        ensures stands { OnRun runner.now }
    {
        Ok(Snapshot {
            time: runner.steps(),
            state: runner.state(),
            tape: runner.tape().copied(alloc)?,
        })
    }

    // Puts where a runner stands in its place, in the memory that it has where that suffices.
    pub fn retake(&mut self, runner: &Runner) -> Result<(), NoMemory>
        ensures kept { OnOk result (self.new ≡ moment_of runner.now) }
        ensures stands { OnRun runner.now }
    {
        self.time = runner.steps();
        self.state = runner.state();
        self.tape.copy_from(runner.tape())
    }

    #[inline]
    pub fn time(&self) -> u64
        ensures { result ≡ self.now.time }
    {
        self.time
    }

    #[inline]
    pub fn head(&self) -> i64
        ensures { result ≡ self.now.config.tape.head }
    {
        self.tape.head()
    }

    // Whether a runner is in the same state.
    #[inline]
    pub fn has_state_of(&self, runner: &Runner) -> bool
        ensures { IsTrue result ↔ (self.now.config.state ≡ runner.now.config.state) }
    {
        self.state == runner.state()
    }

    // Whether a runner is in the same state at the same place, as mostly it isn't.
    #[inline]
    pub fn meets(&self, runner: &Runner) -> bool
        ensures { IsTrue result ↔ (self.now.config.state ≡ runner.now.config.state)
            × (self.now.config.tape.head ≡ runner.now.config.tape.head) }
    {
        self.has_state_of(runner) && self.head() == runner.tape().head()
    }

    // Whether a runner stands at the same configuration. It goes over all cells that were visited, up to the
    // first that differs.
    pub fn is_same(&self, runner: &Runner) -> bool
        ensures { IsTrue result ↔ (self.now.config ≡ runner.now.config) }
    {
        self.state == runner.state() && self.tape.same(runner.tape())
    }

    // Whether the run has a translated cycle from the snapshot to where a runner stands, on a side. `bound`
    // is the farthest head in between.
    pub fn is_translated(&self, runner: &Runner, bound: i64, side: Dir) -> bool
        requires limit { runner.now.steps ≤ time_limit }
        requires begin { IsMomentOf runner.now.table self.now }
        requires farthest { Farthest (entry_of runner.now.table) side self.now.time runner.now.steps bound }
        ensures { IsTrue result ↔ Translated (entry_of runner.now.table) self.now.time runner.now.steps side }
    {
        let shift = self.shift_to(runner);
        self.state == runner.state()
            && is_onward(side, shift)
            && self.tape.same_half(runner.tape(), bound, shift, side)
    }

    // By how many cells the head of a runner is further to the right.
    fn shift_to(&self, runner: &Runner) -> i64
        requires limit { runner.now.steps ≤ time_limit }
        requires begin { IsMomentOf runner.now.table self.now }
        requires early { self.now.time ≤ runner.now.steps }
        ensures shift { result ≡ runner.now.config.tape.head -ℤ self.now.config.tape.head }
        ensures within { IsWithinLimit result }
        ensures stands { OnRun runner.now }
    {
        // The proof needs that the runner is on its run.
        let _ = runner.steps();
        runner.tape().head() - self.tape.head()
    }
}

// Whether a shift is 0 or leads to a side.
fn is_onward(side: Dir, shift: i64) -> bool
    ensures { IsTrue result ↔ Beyond side (pos 0) shift }
{
    match side {
        Dir::L => shift <= 0,
        Dir::R => 0 <= shift,
    }
}

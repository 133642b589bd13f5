// The cells that a run visits.
ghost use Rattle.std.specs.Prelude.{◌≡◌, ◌≤ℤ◌, ℕ, ◌≤◌, IfOk, OnErr, pos};
ghost use Rattle.machine_text.specs.Terms.{entry_of};
ghost use Rattle.run.specs.Terms.{run_step_limit, RunsTo, IsBetween};
ghost use Rattle.cmd_show.specs.Shown.{IsVisited, AreWithinRuns};

use crate::rows::Times;
use machine_text::Table;
use run::{Runner, Step};
use std::alloc::Global;
use tape::{NoMemory, Tape};

// The cells from one place to another, both included.
#[derive(Clone, Copy, Debug, PartialEq, Eq)]
pub(crate) struct Span {
    pub(crate) first: i64,
    pub(crate) last: i64,
}

impl Span {
    // The one cell under a tape's head.
    pub(crate) fn at_head(tape: &Tape) -> Span {
        let x = tape.head();
        Span { first: x, last: x }
    }

    // How many cells there are.
    pub(crate) fn width(self) -> u64 {
        self.last.abs_diff(self.first).saturating_add(1)
    }

    // Takes in the cells up to a tape's head.
    #[inline]
    pub(crate) fn reach(&mut self, tape: &Tape)
        ensures first_new { tape.now.head ≤ℤ self.old.first → self.new.first ≡ tape.now.head }
        ensures first_same { self.old.first ≤ℤ tape.now.head → self.new.first ≡ self.old.first }
        ensures last_new { self.old.last ≤ℤ tape.now.head → self.new.last ≡ tape.now.head }
        ensures last_same { tape.now.head ≤ℤ self.old.last → self.new.last ≡ self.old.last }
    {
        let x = tape.head();
        if x < self.first {
            self.first = x;
        }
        if x > self.last {
            self.last = x;
        }
    }
}

// Carries out steps up to time k as `Runner::run_to` does, one by one: a span of the cells that the head visited
// takes in those that it visits then.
#[inline(never)]
pub(crate) fn visit(runner: &mut Runner, cells: &mut Span, k: u64) -> Result<Step, NoMemory>
    requires onward { runner.old.steps ≤ k }
    requires limit { k ≤ run_step_limit }
    ensures ok { IfOk result (λ step. RunsTo k runner.old step runner.new) }
    ensures err { OnErr result (IsBetween k runner.old runner.new) }
    ensures visited { (first : ℕ) → IsVisited (entry_of runner.old.table) first runner.old.steps cells.old
        → IsVisited (entry_of runner.new.table) first runner.new.steps cells.new }
{
    'steps: while runner.steps() < k {
        let step = runner.step()?;
        match step {
            Step::Went => cells.reach(runner.tape()),
            Step::Halts { count } => return Ok(Step::Halts { count }),
        }
    }
    Ok(Step::Went)
}

/// The cells that the head of a run visited.
#[derive(Clone, Copy, Debug, PartialEq, Eq)]
pub struct Visits {
    cells: Span,
}

impl Visits {
    /// The cell in which a run starts.
    pub fn at_start() -> Visits
        ensures { result.cells ≡ record { first = pos 0; last = pos 0 } }
    {
        Visits {
            cells: Span { first: 0, last: 0 },
        }
    }

    /// Carries out steps up to time k as `Runner::run_to` does, one by one, and takes in the cells that the head visits then.
    pub fn visit_to(&mut self, runner: &mut Runner, k: u64) -> Result<Step, NoMemory>
        requires onward { runner.old.steps ≤ k }
        requires limit { k ≤ run_step_limit }
        ensures ok { IfOk result (λ step. RunsTo k runner.old step runner.new) }
        ensures visited { (from : ℕ) → IsVisited (entry_of runner.old.table) from runner.old.steps self.old.cells
            → IsVisited (entry_of runner.new.table) from runner.new.steps self.new.cells }
    {
        visit(runner, &mut self.cells, k)
    }

    /// The leftmost one.
    pub fn first(&self) -> i64
        ensures { result ≡ self.now.cells.first }
    {
        self.cells.first
    }

    /// The rightmost one.
    pub fn last(&self) -> i64
        ensures { result ≡ self.now.cells.last }
    {
        self.cells.last
    }
}

// The cells that a run visits from the first to the last of some times, and those between them: no more. It carries out
// the steps up to then.
pub(crate) fn placement(alloc: Global, t: Table, times: Times) -> Result<Span, NoMemory>
    requires { AreWithinRuns times }
{
    let mut runner = Runner::new(alloc, t)?;
    let _first = runner.run_to(times.from)?;
    let mut cells = Span::at_head(runner.tape());
    let _last = visit(&mut runner, &mut cells, times.last())?;
    Ok(cells)
}

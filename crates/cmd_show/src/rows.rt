// The configurations of a run, one after another, and which times are shown.
ghost use Rattle.std.specs.Prelude.{◌≡◌, ◌≤◌, ◌+◌, ◌<◌, IfOk, IfSome};
ghost use Rattle.run.specs.Terms.{run_step_limit};
ghost use Rattle.machine_text.specs.Terms.{state_limit};
ghost use Rattle.cmd_show.specs.Shown.{AreWithinRuns};

use crate::visits::{Span, visit};
use machine_text::{State, Table};
use run::{MAX_RUN_STEPS, Runner};
use std::alloc::Global;
use std::marker::Model;
use tape::{NoMemory, Tape};

// Which times of a run are shown, by numbers of steps: the first is `from`, each later one `every` steps more, as long as
// they are no more than `steps` beyond `from`.
#[derive(Clone, Copy)]
pub(crate) struct Times {
    pub(crate) from: u64,
    pub(crate) steps: u64,
    pub(crate) every: u64,
}

impl Times {
    ghost use Rattle.cmd_show.specs.Shown.{AreWithinRuns, last_time};

    // Times from one on. Those beyond `MAX_RUN_STEPS` are left out, a first one is put there, and `every` is 1 at least.
    pub(crate) fn new(from: u64, steps: u64, every: u64) -> Times
        ensures { AreWithinRuns result }
    {
        let from = from.min(MAX_RUN_STEPS);
        Times {
            from,
            steps: steps.min(MAX_RUN_STEPS - from),
            every: every.max(1).min(MAX_RUN_STEPS + 1),
        }
    }

    // Times in the same part of a run, so many steps from row to row that there are no more than `rows` rows; one at least.
    pub(crate) fn in_rows(self, rows: u64) -> Times
        requires { AreWithinRuns self }
        ensures { AreWithinRuns result }
    {
        Times {
            every: self.steps / rows.max(1) + 1,
            ..self
        }
    }

    // All times up to the last of these.
    pub(crate) fn all(self) -> Times
        requires { AreWithinRuns self }
        ensures { AreWithinRuns result }
    {
        Times {
            from: 0,
            steps: self.last(),
            every: 1,
        }
    }

    // The last time that may be shown.
    pub(crate) fn last(self) -> u64
        requires { AreWithinRuns self }
        ensures last { result ≡ last_time self }
        ensures limit { result ≤ run_step_limit }
    {
        self.from + self.steps
    }
}

// A configuration of a run, which is a row of a picture, or a line; its tape is that of the `Rows` that gave it.
#[derive(Clone, Copy)]
pub(crate) struct Row {
    // from 0 on, downwards
    pub(crate) number: u64,
    // so many steps led to the configuration
    pub(crate) time: u64,
    pub(crate) state: State,
}

// How a run ends: in so many steps, with so many ones.
#[derive(Clone, Copy)]
pub(crate) struct Ending {
    pub(crate) steps: u64,
    pub(crate) ones: u64,
}

// Goes through the configurations of a table's run at some times. Where the run halts, its last configuration is the last
// one, also where its time isn't one of these.
#[derive(Drop)]
pub(crate) struct Rows {
    table: Table,
    times: Times,
    runner: Runner,
    // those that the head has visited: all ones stand in them
    cells: Span,
    // how many rows were given
    number: u64,
    // the time of the next one
    due: u64,
    // the run halts with the next step
    halts: bool,
}

impl Model for Rows {
    ghost use Rattle.std.specs.Prelude.{ℕ};
    ghost use Rattle.cmd_show.specs.inside.{IsGoing};

    // The number of rows that were given.
    ghost Value = { ℕ };

    ghost view = { λ a. a.number };

    ghost invariant = { IsGoing };
}

impl Rows {
    // The rows of a table's run from the blank tape.
    pub(crate) fn new(alloc: Global, t: Table, times: Times) -> Result<Rows, NoMemory>
        requires { AreWithinRuns times }
    {
        let runner = Runner::new(alloc, t)?;
        // Opens the invariant of the runner.
        let _ = runner.steps();
        let cells = Span::at_head(runner.tape());
        Ok(Rows {
            table: t,
            times,
            runner,
            cells,
            number: 0,
            due: times.from,
            halts: false,
        })
    }

    // The next row, if there is one.
    pub(crate) fn next_row(&mut self) -> Result<Option<Row>, NoMemory>
        ensures more { IfOk result (λ row. IfSome row (λ r. self.new ≡ self.old + 1)) }
        ensures limit { IfOk result (λ row. IfSome row (λ r. self.new ≤ run_step_limit + 1)) }
        ensures state { IfOk result (λ row. IfSome row (λ r. r.state.0 < state_limit)) }
    {
        if self.halts || self.due > self.times.last() {
            return Ok(None);
        }
        let _step = visit(&mut self.runner, &mut self.cells, self.due)?;
        let row = Row {
            number: self.number,
            time: self.runner.steps(),
            state: self.runner.state(),
        };
        self.halts = self
            .table
            .get(row.state, self.runner.tape().read())
            .is_none();
        self.number += 1;
        self.due += self.times.every;
        Ok(Some(row))
    }

    // How many rows were given.
    pub(crate) fn number(&self) -> u64
        ensures { result ≤ run_step_limit + run_step_limit + 1 }
    {
        self.number
    }

    // The tape of the row that was given last.
    pub(crate) fn tape(&self) -> &Tape {
        self.runner.tape()
    }

    // The cells that the head has visited up to then.
    pub(crate) fn cells(&self) -> Span {
        self.cells
    }

    // Whether the machine halts with the next step.
    pub(crate) fn halts(&self) -> bool {
        self.halts
    }

    // How the run ends, where the row that was given last is its last one.
    pub(crate) fn ending(self) -> Option<Ending> {
        if !self.halts {
            return None;
        }
        Some(Ending {
            steps: self.runner.steps() + 1,
            ones: self.runner.into_score(),
        })
    }
}

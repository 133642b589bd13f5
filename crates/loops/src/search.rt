// The searches for loops: a run of a table, and what looks at each of its times.
ghost use Rattle.std.specs.Prelude.{◌≡◌, ◌+◌, ◌<◌, ◌≤◌, IfOk, min, IfSome};
ghost use Rattle.loops.specs.Limits.{time_limit};
ghost use Rattle.loops.specs.inside.{ComesTo};
ghost use Rattle.law_turing.specs.Terms.{start};

use crate::limits::MAX_TIME;
use kind_evidence::NoMemory;
use machine_text::Table;
use run::{Runner, Step};
use std::alloc::Global;

// Whether the run comes to time k. If so, the runner then stands there.
pub(crate) fn comes_to(runner: &mut Runner, k: u64) -> Result<bool, NoMemory>
    requires onward { runner.old.steps ≤ k }
    requires limit { k ≤ time_limit }
    ensures { IfOk result (λ came. ComesTo k runner.old came runner.new) }
{
    match runner.run_to(k)? {
        Step::Went => Ok(true),
        Step::Halts { count: _ } => Ok(false),
    }
}

// Whether the run comes to the next time. If so, the runner then stands there.
#[inline]
pub(crate) fn goes_on(runner: &mut Runner) -> Result<bool, NoMemory>
    requires { runner.old.steps < time_limit }
    ensures { IfOk result (λ came. ComesTo (runner.old.steps + 1) runner.old came runner.new) }
{
    match runner.step()? {
        Step::Went => Ok(true),
        Step::Halts { count: _ } => Ok(false),
    }
}

// What looks at a run, time by time, until it finds a loop.
pub(crate) trait Watch: Drop {
    ghost use Rattle.std.specs.Prelude.{◌≡◌, ℕ, ◌+◌, ◌≤◌, IfSome, IfNone, IfOk, OnOk};
    ghost use Rattle.machine_text.specs.Terms.{Packed};
    ghost use Rattle.loops.specs.Limits.{time_limit};

    // A loop that is found.
    type Loop;

    // The search has looked at the run of a table up to just before a time.
    ghost has_seen: { Self → Packed → ℕ → Type 0 };

    // The run of a table has the loop.
    ghost stands: { Self.Loop → Packed → Type 0 };

    // The time at which the loop is seen.
    ghost end: { Self.Loop → ℕ };

    // One that has looked at nothing yet. Takes no memory.
    fn new(alloc: Global) -> Self;

    // Looks at the beginning of a run, in the memory that it has where that suffices.
    fn begin(&mut self, runner: &Runner) -> Result<(), NoMemory>
        requires { runner.now.steps ≡ 0 }
        ensures { OnOk result (has_seen self.new runner.now.table 1) };

    // Looks at the next time of the run.
    fn visit(&mut self, runner: &Runner) -> Result<Option<Self::Loop>, NoMemory>
        requires limit { runner.now.steps ≤ time_limit }
        requires seen { has_seen self.old runner.now.table runner.now.steps }
        ensures found { IfOk result (λ o. IfSome o (λ e. stands e runner.now.table × (end e ≡ runner.now.steps))) }
        ensures seen { IfOk result (λ o. IfNone o (has_seen self.new runner.now.table (runner.now.steps + 1))) };
}

// A search by one that looks at runs. Both are kept from table to table, for their memory.
#[derive(Drop)]
pub(crate) struct Search<W> {
    alloc: Global,
    runner: Option<Runner>,
    watch: W,
}

impl<W: Watch> Search<W> {
    pub fn new(alloc: Global) -> Search<W> {
        Search {
            alloc,
            runner: None,
            watch: W::new(alloc),
        }
    }

    // A loop of the table's run that is seen within so many steps, and by `MAX_TIME`.
    pub fn find(&mut self, t: &Table, steps: u64) -> Result<Option<W::Loop>, NoMemory>
        ensures found { IfOk result (λ o. IfSome o (λ e. W.stands e t.now)) }
        ensures within { IfOk result (λ o. IfSome o (λ e. W.end e ≤ min steps time_limit)) }
    {
        let mut runner = begun(self.alloc, self.runner.take(), t)?;
        self.watch.begin(&runner)?;
        let found = found_within(&mut runner, &mut self.watch, steps.min(MAX_TIME));
        self.runner = Some(runner);
        found
    }
}

// The run of a table at its beginning, in the memory of an earlier one, if there was one.
fn begun(alloc: Global, earlier: Option<Runner>, t: &Table) -> Result<Runner, NoMemory>
    ensures { IfOk result (λ r. r ≡ record { table = t.now; steps = 0; config = start }) }
{
    let Some(mut runner) = earlier else {
        return Runner::new(alloc, *t);
    };
    runner.restart(*t);
    Ok(runner)
}

// A loop of a run, from its beginning up to a time.
fn found_within<W: Watch>(
    runner: &mut Runner,
    watch: &mut W,
    limit: u64,
) -> Result<Option<W::Loop>, NoMemory>
    requires limit { limit ≤ time_limit }
    requires begun { runner.old.steps ≡ 0 }
    requires seen { W.has_seen watch.old runner.old.table 1 }
    ensures found { IfOk result (λ o. IfSome o (λ e. W.stands e runner.old.table)) }
    ensures within { IfOk result (λ o. IfSome o (λ e. W.end e ≤ limit)) }
{
    // What is known of where a runner stands comes with its time.
    let _ = runner.steps();
    for time in 0..limit {
        if !goes_on(runner)? {
            return Ok(None);
        }
        if let Some(found) = watch.visit(runner)? {
            return Ok(Some(found));
        }
    }
    Ok(None)
}

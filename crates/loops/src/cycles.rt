// A run that comes to one configuration twice: its evidence, and the search for it.
ghost use Rattle.std.specs.Prelude.{◌≡◌, ◌↔◌, ◌<◌, ◌≤◌, ◌^◌, ◌++◌, length, take, OnOk, IfOk, IsTrue, min, IfSome};
ghost use Rattle.machine_text.specs.Terms.{entry_of};
ghost use Rattle.law_turing.specs.Terms.{Cycle as IsCycle};
ghost use Rattle.loops.specs.Kinds.{cycle_by, cycle_fields};
ghost use Rattle.loops.specs.Limits.{time_limit};
ghost use Rattle.text.specs.Terms.{spaced};
ghost use Rattle.run.specs.Terms.{OnRun};

use crate::limits::MAX_TIME;
use crate::search::{Search, Watch, comes_to};
use crate::snapshot::{Allowance, Snapshot};
use kind_evidence::{Evidence, NoMemory, Refused, Verdict};
use machine_text::Table;
use run::Runner;
use std::alloc::Global;
use text::{FieldFault, Parts, append_number_field, end_of, next_field, number_in};

/// The claim that a table's run has the same configuration at the times `i` and `j`, of which `i` is the
/// earlier one: state, head and tape are equal. Times are numbers of steps from the blank tape; the limit
/// of `j` is `MAX_TIME`.
#[derive(Clone, Copy, Debug, PartialEq, Eq)]
pub struct Cycle {
    pub i: u64,
    pub j: u64,
}

impl Cycle {
    /// The claim that the fields of a record make: `i j`.
    pub fn read(mut fields: Parts<'_>) -> Result<Cycle, FieldFault>
        ensures { result ≡ cycle_by fields.entry }
    {
        let i = next_field(&mut fields)?;
        let j = next_field(&mut fields)?;
        end_of(fields)?;
        Ok(Cycle {
            i: number_in(i)?,
            j: number_in(j)?,
        })
    }

    /// Appends the fields of a record, each behind a space. Where memory is refused, a beginning of them.
    pub fn append_fields(&self, out: &mut Vec<u8>) -> Result<(), NoMemory>
        ensures ok { OnOk result (out.new.items ≡ out.old.items ++ spaced (cycle_fields self.now)) }
        ensures writable { OnOk result ((self.now.i < 2 ^ 64) × (self.now.j < 2 ^ 64)) }
        ensures kept { take (length out.old.items) out.new.items ≡ out.old.items }
    {
        append_number_field(self.i, out)?;
        append_number_field(self.j, out)
    }
}

impl Evidence for Cycle {
    ghost use Rattle.kind_evidence.specs.declared.verdicts.Verdict.TheVariants.{Never};
    ghost use Rattle.loops.specs.Kinds.{cycle_kind};

    ghost meaning = { cycle_kind.meaning };

    ghost shows = { λ e p. Never };

    fn check(&self, alloc: Global, t: &Table) -> Result<Verdict, Refused> {
        if self.j > MAX_TIME {
            return Err(Refused::TooLong);
        }
        if self.i >= self.j {
            return Err(Refused::Fails);
        }
        if has_cycle(alloc, t, self.i, self.j)? {
            Ok(Verdict::Never)
        } else {
            Err(Refused::Fails)
        }
    }

    ghost law = { cycle_kind.law };
}

// Whether the run of a table has the same configuration at two times.
fn has_cycle(alloc: Global, t: &Table, i: u64, j: u64) -> Result<bool, NoMemory>
    requires order { i < j }
    requires limit { j ≤ time_limit }
    ensures { IfOk result (λ has. IsTrue has ↔ IsCycle (entry_of t.now) i j) }
{
    let mut runner = Runner::new(alloc, *t)?;
    if !comes_to(&mut runner, i)? {
        return Ok(false);
    }
    let begin = Snapshot::taken(alloc, &runner)?;
    if !comes_to(&mut runner, j)? {
        return Ok(false);
    }
    Ok(begin.is_same(&runner))
}

// Keeps the configuration at each power of two of the time, and compares each later one that has the same
// state and head with it.
#[derive(Drop)]
pub(crate) struct CycleWatch {
    kept: Snapshot,
    // What may still be compared with the one that was kept.
    allowance: Allowance,
    // Between what places the head has been: all cells that were visited.
    first: i64,
    last: i64,
}

impl Watch for CycleWatch {
    ghost use Rattle.std.specs.Prelude.{◌<◌};
    ghost use Rattle.machine_text.specs.Terms.{entry_of};
    ghost use Rattle.law_turing.specs.Terms.{Cycle as IsCycle};
    ghost use Rattle.loops.specs.inside.{IsMomentOf};

    type Loop = Cycle;

    ghost has_seen = { λ w p k. IsMomentOf p w.kept × (w.kept.time < k) };

    ghost stands = { λ e p. IsCycle (entry_of p) e.i e.j };

    ghost end = { λ e. e.j };

    fn new(alloc: Global) -> CycleWatch {
        CycleWatch {
            kept: Snapshot::blank(alloc),
            allowance: Allowance::at(0),
            first: 0,
            last: 0,
        }
    }

    fn begin(&mut self, runner: &Runner) -> Result<(), NoMemory> {
        self.first = runner.tape().head();
        self.last = self.first;
        self.keep(runner)
    }

    #[inline]
    fn visit(&mut self, runner: &Runner) -> Result<Option<Cycle>, NoMemory> {
        let head = runner.tape().head();
        self.first = head.min(self.first);
        self.last = head.max(self.last);
        if self.has_come_back(runner) {
            return Ok(Some(Cycle {
                i: self.kept.time(),
                j: runner.steps(),
            }));
        }
        if runner.steps().is_power_of_two() {
            self.keep(runner)?;
        }
        Ok(None)
    }
}

impl CycleWatch {
    ghost use Rattle.std.specs.Prelude.{◌↔◌, IsTrue};
    ghost use Rattle.std.specs.Bool.{OnTrue};
    ghost use Rattle.loops.specs.inside.{moment_of};

    // Keeps where a runner stands, in the memory that it has where that suffices.
    fn keep(&mut self, runner: &Runner) -> Result<(), NoMemory>
        requires { runner.now.steps ≤ time_limit }
        ensures kept { OnOk result (self.new.kept ≡ moment_of runner.now) }
        ensures stands { OnRun runner.now }
    {
        self.allowance = Allowance::at(runner.steps());
        self.kept.retake(runner)
    }

    // Whether a runner stands at the configuration that was kept: no, where the allowance doesn't suffice to
    // compare them.
    #[inline]
    fn has_come_back(&mut self, runner: &Runner) -> bool
        ensures same { OnTrue result (self.new.kept.config ≡ runner.now.config) }
        ensures kept { self.new.kept ≡ self.old.kept }
    {
        self.kept.meets(runner)
            && self.allowance.spend(self.first, self.last)
            && self.kept.is_same(runner)
    }
}

/// Searches cycles.
#[derive(Drop)]
pub struct CycleFinder {
    pub steps: u64,
    search: Search<CycleWatch>,
}

impl CycleFinder {
    /// A finder that carries out so many steps at most, and none beyond `MAX_TIME`.
    pub fn new(alloc: Global, steps: u64) -> CycleFinder
        ensures { result.steps ≡ steps }
    {
        CycleFinder {
            steps,
            search: Search::new(alloc),
        }
    }

    /// A cycle of the table within the finder's steps and the budget; none where it finds none. What it
    /// gives stands, and is within the limit.
    ///
    /// It keeps the configuration at each power of two of the time, and compares each later one that has the
    /// same state and head with it, cell by cell (Brent 1980). With each that it keeps it may compare about
    /// twice as many cells as steps were taken by then, and passes over what would be more: so a search
    /// takes time in proportion to its steps.
    ///
    /// A cycle is seen by the time 2^k + p, where p is its period, 2^k isn't less than p or the time at which
    /// it is entered, and twice 2^k isn't less than all the visited cells times how often a period comes to
    /// the state and head of time 2^k. No contract says what is found or how long it takes.
    pub fn search(&mut self, t: &Table, budget: u64) -> Result<Option<Cycle>, NoMemory>
        ensures found { IfOk result (λ o. IfSome o (λ e. IsCycle (entry_of t.now) e.i e.j)) }
        ensures within { IfOk result (λ o. IfSome o (λ e.
            e.j ≤ min (min self.old.steps budget) time_limit)) }
        ensures same { self.new.steps ≡ self.old.steps }
    {
        self.search.find(t, self.steps.min(budget))
    }
}

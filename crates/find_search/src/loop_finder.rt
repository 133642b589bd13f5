// The search of one run, and what the run did, time by time.
ghost use Rattle.std.specs.Prelude.{◌≡◌, ◌<◌, ◌≤◌, length, IfOk, IfSome, ◌*◌, OnOk};
ghost use Rattle.loops.specs.Terms.{time_limit};
ghost use Rattle.cert.specs.Terms.{IsShownRecord};

use cert::{Decided, OwnedCertificate};
use kind_evidence::NoMemory;
use loops::{Cycle, MAX_TIME, Translated};
use machine_text::{Dir, State, Sym, Table};
use run::{HaltsIn, Runner, Step};
use std::alloc::Global;
use std::cmp::Ordering;

// A time of a run: what its step depends on, and where its head is.
#[derive(Clone, Copy)]
pub(crate) struct Moment {
    pair: Pair,
    pub head: i64,
}

// A state and the symbol that it reads.
#[derive(Clone, Copy, PartialEq, Eq)]
struct Pair {
    state: State,
    read: Sym,
}

impl Moment {
    // The time 0 of a run.
    pub const FIRST: Moment = Moment {
        pair: Pair {
            state: State(0),
            read: Sym::Zero,
        },
        head: 0,
    };

    // The time at which a runner stands.
    #[inline(always)]
    fn of(runner: &Runner) -> Moment {
        Moment {
            pair: Pair {
                state: runner.state(),
                read: runner.tape().read(),
            },
            head: runner.tape().head(),
        }
    }
}

// Carries out steps up to a time, and notes each time before it. It ends with `Halts` where the run does.
pub(crate) fn noted_run(
    runner: &mut Runner,
    moments: &mut [Moment],
    end: u64,
) -> Result<Step, NoMemory>
    requires onward { runner.old.steps ≤ end }
    requires room { end ≤ length moments.old }
    requires limit { end ≤ time_limit }
    ensures { IfOk result (λ step. step ≡ Step.Went → runner.new.steps ≡ end) }
{
    for time in runner.steps()..end {
        moments[time as usize] = Moment::of(runner);
        if let Step::Halts { count } = runner.step()? {
            return Ok(Step::Halts { count });
        }
    }
    Ok(Step::Went)
}

// How many of the last moments repeat in a period, if so many do as are wanted. The first of these is looked at before the
// others: behind a shorter repeat it mostly differs.
pub(crate) fn repeating(moments: &[Moment], period: usize, wanted: usize) -> Option<usize>
    requires { (1 ≤ period) × (period < wanted) }
    ensures { IfSome result (λ count. (wanted ≤ count) × (count ≤ length moments.now)) }
{
    if wanted > moments.len() || !repeats_at(moments, period, wanted - 1) {
        return None;
    }
    let mut count = period;
    'moments: while count < moments.len() && repeats_at(moments, period, count) {
        count += 1;
    }
    (count >= wanted).then_some(count)
}

// Whether the moment so many places before the last one is as that a period later.
fn repeats_at(moments: &[Moment], period: usize, back: usize) -> bool
    requires { (1 ≤ period) × (period ≤ back) × (back < length moments.now) }
{
    let place = moments.len() - 1 - back;
    moments[place].pair == moments[place + period].pair
}

// The place, in a stretch of a run, at which the head is farthest on a side; the first of them.
pub(crate) fn farthest(moments: &[Moment], side: Dir) -> usize
    requires { 1 ≤ length moments.now }
    ensures { result < length moments.now }
{
    let mut best = 0;
    for place in 0..moments.len() {
        if is_past(side, moments[best].head, moments[place].head) {
            best = place;
        }
    }
    best
}

// Whether a head is further on a side than another.
fn is_past(side: Dir, from: i64, head: i64) -> bool {
    match side {
        Dir::L => head < from,
        Dir::R => from < head,
    }
}

// How many periods are tried at a checkpoint. A chance repeat at a run's end may hide the true one.
const MOST_PERIODS: usize = 4;

/// Searches halting, cycles and translated cycles in one run.
#[derive(Drop)]
pub struct LoopFinder {
    alloc: Global,
    // Of which table the run is, and where it stands.
    table: Table,
    runner: Option<Runner>,
    // The times of the run, up to where the runner stands; behind them room.
    moments: Vec<Moment>,
}

impl LoopFinder {
    /// A finder that has run nothing yet. Takes no memory.
    pub fn new(alloc: Global) -> LoopFinder {
        LoopFinder {
            alloc,
            table: Table::empty(1),
            runner: None,
            moments: Vec::new(alloc),
        }
    }

    /// What the run of a table shows within so many steps, and by `MAX_TIME`; none where it finds nothing. It looks for
    /// what repeats at time `first`, at each time four times as late, and at the end. It goes on where it stopped, if that
    /// was in the run of the same table, and not past `first`. What it gives stands; no contract says what is found.
    pub fn search(&mut self, t: &Table, first: u64, steps: u64) -> Result<Option<Decided>, NoMemory>
        ensures { IfOk result (λ o. IfSome o (IsShownRecord t.now)) }
    {
        let limit = steps.max(1).min(MAX_TIME);
        let first = first.max(1).min(limit);
        self.make_room(limit as usize)?;
        let mut runner = self.begun(t, first)?;
        let found = self.found_in(&mut runner, t, first, limit);
        self.runner = Some(runner);
        found
    }

    // Makes room for so many times.
    fn make_room(&mut self, times: usize) -> Result<(), NoMemory>
        ensures { OnOk result (times ≤ length self.new.moments.items) }
    {
        if self.moments.len() < times {
            self.moments.resize(times, Moment::FIRST)?;
        }
        Ok(())
    }

    // The run of a table: the earlier one, if it is of that table and stands at no later time; else at its beginning, in
    // the memory of the earlier one, if there was one.
    fn begun(&mut self, t: &Table, latest: u64) -> Result<Runner, NoMemory>
        ensures early { IfOk result (λ r. r.steps ≤ latest) }
        ensures room { self.new.moments ≡ self.old.moments }
    {
        let earlier = self.runner.take();
        let is_same = self.table == *t;
        self.table = *t;
        let Some(mut runner) = earlier else {
            return Runner::new(self.alloc, *t);
        };
        if !is_same || runner.steps() > latest {
            runner.restart(*t);
        }
        Ok(runner)
    }

    // What is found in a run from where a runner stands.
    fn found_in(
        &mut self,
        runner: &mut Runner,
        t: &Table,
        first: u64,
        limit: u64,
    ) -> Result<Option<Decided>, NoMemory>
        requires some { 1 ≤ first }
        requires first { first ≤ limit }
        requires limit { limit ≤ time_limit }
        requires onward { runner.old.steps ≤ first }
        requires room { limit ≤ length self.old.moments.items }
        ensures { IfOk result (λ o. IfSome o (IsShownRecord t.now)) }
    {
        let mut checkpoint = first;
        'checkpoints: while noted_run(runner, &mut self.moments, checkpoint)? == Step::Went {
            let found = self.repetition(t, checkpoint as usize)?;
            if found.is_some() || checkpoint == limit {
                return Ok(found);
            }
            checkpoint = checkpoint.saturating_mul(4).min(limit);
        }
        self.halting(runner, t)
    }

    // The claim that a run halts where a runner stands, if it stands.
    fn halting(&self, runner: &Runner, t: &Table) -> Result<Option<Decided>, NoMemory>
        ensures { IfOk result (λ o. IfSome o (IsShownRecord t.now)) }
    {
        let halts = HaltsIn::early(runner.steps() + 1, Some(score(runner)));
        Decided::by(self.alloc, t, OwnedCertificate::Halts(halts))
    }

    // What the run repeats up to a time, if that stands.
    fn repetition(&self, t: &Table, time: usize) -> Result<Option<Decided>, NoMemory>
        requires { time ≤ length self.now.moments.items }
        ensures { IfOk result (λ o. IfSome o (IsShownRecord t.now)) }
    {
        let moments = &self.moments[..time];
        let mut longest = 0;
        let mut left = MOST_PERIODS;
        for period in 1..=time / 2 {
            let wanted = (time / 3).max(2 * period).max(longest + 1);
            let Some(count) = repeating(moments, period, wanted) else {
                continue;
            };
            if left == 0 {
                return Ok(None);
            }
            left -= 1;
            if let Some(found) = self.loop_of(t, moments, period)? {
                return Ok(Some(found));
            }
            longest = count;
        }
        Ok(None)
    }

    // The loop of a period with which moments end, if it stands.
    fn loop_of(
        &self,
        t: &Table,
        moments: &[Moment],
        period: usize,
    ) -> Result<Option<Decided>, NoMemory>
        requires some { 1 ≤ period }
        requires twice { 2 * period ≤ length moments.now }
        ensures { IfOk result (λ o. IfSome o (IsShownRecord t.now)) }
    {
        let second = moments.len() - period;
        let first = second - period;
        let side = match moments[second].head.cmp(&moments[first].head) {
            Ordering::Equal => {
                let cycle = Cycle {
                    i: first as u64,
                    j: second as u64,
                };
                return Decided::by(self.alloc, t, OwnedCertificate::Cycle(cycle));
            }
            Ordering::Greater => Dir::R,
            Ordering::Less => Dir::L,
        };
        let i = first + farthest(&moments[first..second], side);
        let translated = Translated {
            i: i as u64,
            j: (i + period) as u64,
            side,
        };
        Decided::by(self.alloc, t, OwnedCertificate::Translated(translated))
    }
}

// The ones that a run which halts where a runner stands leaves: the halting step writes one.
fn score(runner: &Runner) -> u64 {
    let ones = runner.tape().ones();
    match runner.tape().read() {
        Sym::Zero => ones.saturating_add(1),
        Sym::One => ones,
    }
}

// The claim that a table halts, the evidence for it, and the search for it.
ghost use Rattle.std.specs.Prelude.{◌≡◌, ◌≤◌, Some, None, ◌⊎◌, ◌<◌, Err, OnOk, IfOk, IfErr, ℕ, min, IfSome, IfNone};
ghost use Rattle.run.specs.Limits.{late_step_limit};
ghost use Rattle.run.specs.Halts.{IsWithinReach, with_steps, HaltsAsClaimed};
ghost use Rattle.machine_text.specs.Terms.{entry_of};
ghost use Rattle.law_turing.specs.Terms.{HaltsAt, HaltsOn, score_at};

use crate::limits::MAX_LATE_STEPS;
use crate::reach::Reach;
use crate::runner::{Runner, Step};
use kind_evidence::{Evidence, Refused, Verdict};
use machine_text::{Pair, Table};
use std::alloc::Global;
use tape::NoMemory;
use text::FieldFault;

/// The claim that a table halts in so many steps, as many as its reach has, and, where that is claimed too, with so many
/// ones.
#[derive(Clone, Copy, Debug, PartialEq, Eq)]
pub struct HaltsIn {
    pub steps: u64,
    pub ones: Option<u64>,
    /// By which letter that is claimed.
    pub reach: Reach,
}

impl HaltsIn {
    /// The claim of so many steps, of which there are at most `MAX_LATE_STEPS`, and so many ones.
    pub fn of(steps: u64, ones: Option<u64>) -> HaltsIn
        requires { steps ≤ late_step_limit }
        ensures steps { result.steps ≡ steps }
        ensures ones { result.ones ≡ ones }
        ensures reach { IsWithinReach result.reach steps }
    {
        let reach = Reach::of(steps);
        HaltsIn { steps, ones, reach }
    }

    /// The claim by the letter `H`.
    pub fn early(steps: u64, ones: Option<u64>) -> HaltsIn
        ensures { result ≡ record { steps = steps; ones = ones; reach = Reach.Early } }
    {
        let reach = Reach::Early;
        HaltsIn { steps, ones, reach }
    }

    // The claim of so many steps and ones, where the reach has them.
    pub(crate) fn within(reach: Reach, steps: u64, ones: Option<u64>) -> Result<HaltsIn, FieldFault>
        ensures { result ≡ with_steps reach steps ones }
    {
        if reach.has(steps) {
            Ok(HaltsIn { steps, ones, reach })
        } else {
            Err(FieldFault::BadNumber)
        }
    }

    /// A claim of as many steps, with so many ones.
    pub fn with_ones(self, ones: u64) -> HaltsIn
        ensures { result ≡ record { steps = self.steps; ones = Some ones; reach = self.reach } }
    {
        HaltsIn {
            ones: Some(ones),
            ..self
        }
    }

    /// A claim of as many steps that says nothing of the ones.
    pub fn without_ones(self) -> HaltsIn
        ensures { result ≡ record { steps = self.steps; ones = None; reach = self.reach } }
    {
        HaltsIn { ones: None, ..self }
    }
}

/// What comes of a run that halts.
#[derive(Clone, Copy, Debug, PartialEq, Eq)]
pub struct Halted {
    /// The pair on which it does: the state of its last configuration, and the symbol that it reads there.
    pub pair: Pair,
    /// The score: the number of ones on the tape after the halting step, which writes one (Radó 1962).
    pub ones: u64,
}

impl HaltsIn {
    /// Checks the claim in one run, and gives what comes of it. It is refused as `check` refuses it.
    pub fn halted(&self, alloc: Global, t: &Table) -> Result<Halted, Refused>
        ensures within { OnOk result (IsWithinReach self.now.reach self.now.steps) }
        ensures stands { OnOk result (HaltsAsClaimed self.now t.now) }
        ensures pair { IfOk result (λ halted. HaltsOn (entry_of t.now) self.now.steps halted.pair.state.0
            halted.pair.symbol) }
        ensures state { IfOk result (λ halted. halted.pair.state.0 < t.now.states) }
        ensures score { IfOk result (λ halted. halted.ones ≡ score_at (entry_of t.now) self.now.steps) }
        ensures fails { result ≡ Err Refused.Fails → IsWithinReach self.now.reach self.now.steps
            × (HaltsAsClaimed self.now t.now → ⊥) }
        ensures long { result ≡ Err Refused.TooLong → IsWithinReach self.now.reach self.now.steps → ⊥ }
        ensures narrow { result ≡ Err Refused.TooWide → ⊥ }
        ensures seen { result ≡ Err Refused.NotSeen → ⊥ }
        ensures memory { result ≡ Err Refused.NoMemory → IsWithinReach self.now.reach self.now.steps }
    {
        if !self.reach.allows(self.steps) {
            return Err(Refused::TooLong);
        }
        let halted = run_out(alloc, t, self.steps)?;
        match self.ones {
            Some(ones) if ones != halted.ones => Err(Refused::Fails),
            _ => Ok(halted),
        }
    }
}

// What comes of a run that halts in so many steps: a run that doesn't is refused.
fn run_out(alloc: Global, t: &Table, steps: u64) -> Result<Halted, Refused>
    requires { steps ≤ late_step_limit }
    ensures pair { IfOk result (λ halted. HaltsOn (entry_of t.now) steps halted.pair.state.0 halted.pair.symbol) }
    ensures state { IfOk result (λ halted. halted.pair.state.0 < t.now.states) }
    ensures score { IfOk result (λ halted. halted.ones ≡ score_at (entry_of t.now) steps) }
    ensures fails { result ≡ Err Refused.Fails → HaltsAt (entry_of t.now) steps → ⊥ }
    ensures err { IfErr result (λ fault. (fault ≡ Refused.Fails) ⊎ (fault ≡ Refused.NoMemory)) }
{
    let mut runner = Runner::new(alloc, *t)?;
    let step = runner.run_far(alloc, steps)?;
    if step != (Step::Halts { count: steps }) {
        return Err(Refused::Fails);
    }
    // Opens the invariant of the runner: its state is one of the table's.
    let _ = runner.steps();
    let pair = Pair {
        state: runner.state(),
        symbol: runner.tape().read(),
    };
    Ok(Halted {
        pair,
        ones: runner.into_score(),
    })
}

impl Evidence for HaltsIn {
    ghost use Rattle.kind_evidence.specs.declared.verdicts.Verdict.TheVariants.{Halts};
    ghost use Rattle.law_turing.specs.Terms.{score_at};
    ghost use Rattle.run.specs.Halts.{halts_meaning};
    ghost use Rattle.law_turing.proofs.RunLaws.{halts_with};

    ghost meaning = { halts_meaning };

    ghost shows = { λ e p. Halts e.steps (score_at (entry_of p) e.steps) };

    fn check(&self, alloc: Global, t: &Table) -> Result<Verdict, Refused> {
        let halted = self.halted(alloc, t)?;
        Ok(Verdict::Halts {
            steps: self.steps,
            ones: halted.ones,
        })
    }

    ghost law = { λ e p is_table stands. halts_with (entry_of p) e.steps stands.halts };
}

/// Searches the number of steps in which a table halts.
#[derive(Drop)]
pub struct HaltFinder {
    alloc: Global,
    pub steps: u64,
}

impl HaltFinder {
    /// A finder that makes so many steps at most, and none beyond `MAX_LATE_STEPS`.
    pub fn new(alloc: Global, steps: u64) -> HaltFinder
        ensures { result.steps ≡ steps }
    {
        HaltFinder { alloc, steps }
    }

    /// The number of steps in which the table halts, and of the ones then; none where it doesn't halt within the
    /// finder's steps, the budget and the limit.
    pub fn search(&mut self, t: &Table, budget: u64) -> Result<Option<HaltsIn>, NoMemory>
        ensures found { IfOk result (λ o. IfSome o (λ e. HaltsAt (entry_of t.now) e.steps)) }
        ensures score { IfOk result (λ o. IfSome o (λ e. e.ones ≡ Some (score_at (entry_of t.now) e.steps))) }
        ensures within { IfOk result (λ o. IfSome o (λ e. e.steps ≤ min (min self.old.steps budget) late_step_limit)) }
        ensures reach { IfOk result (λ o. IfSome o (λ e. IsWithinReach e.reach e.steps)) }
        ensures none { IfOk result (λ o. IfNone o
            ((k : ℕ) → k ≤ min (min self.old.steps budget) late_step_limit → HaltsAt (entry_of t.now) k → ⊥)) }
        ensures same { self.new.steps ≡ self.old.steps }
    {
        let limit = self.steps.min(budget).min(MAX_LATE_STEPS);
        let mut runner = Runner::new(self.alloc, *t)?;
        let step = runner.run_far(self.alloc, limit)?;
        match step {
            Step::Halts { count } => Ok(Some(HaltsIn::of(count, Some(runner.into_score())))),
            Step::Went => Ok(None),
        }
    }
}

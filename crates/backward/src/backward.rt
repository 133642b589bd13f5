// Backward reasoning: its evidence, and the search for its depth.
ghost use Rattle.std.specs.Prelude.{◌≡◌, ◌<◌, ◌≤◌, ◌^◌, ◌++◌, length, take, OnOk, IfOk, ◌≢◌, ℕ, min, slice_index, EachIndex, IfSome, IfNone};
ghost use Rattle.backward.specs.Kind.{backward_by, backward_fields, IsTooWide};
ghost use Rattle.backward.specs.Limits.{depth_limit};
ghost use Rattle.backward.specs.inside.{SaysDone};
ghost use Rattle.text.specs.Terms.{spaced};
ghost use Rattle.machine_text.specs.Terms.{entry_of};
ghost use Rattle.law_turing.specs.Terms.{Backward as IsBackward};

use crate::limits::MAX_DEPTH;
use crate::paths::PathCounter;
use kind_evidence::{Evidence, Refused, Verdict};
use machine_text::Table;
use run::{Runner, Step};
use std::alloc::Global;
use tape::NoMemory;
use text::{FieldFault, Parts, append_number_field, end_of, next_field, number_in};

/// The claim that a table never halts, since its run does `depth` steps and no configuration whatever of its
/// states comes to a halting pair after exactly so many.
///
/// The limit is `MAX_DEPTH`. The check refuses a claim where some depth up to this one has more than
/// `MAX_PATHS` paths.
#[derive(Clone, Copy, Debug, PartialEq, Eq)]
pub struct Backward {
    pub depth: u64,
}

impl Backward {
    /// The claim that the field of a record makes: `d`.
    pub fn read(mut fields: Parts<'_>) -> Result<Backward, FieldFault>
        ensures { result ≡ backward_by fields.entry }
    {
        let depth = next_field(&mut fields)?;
        end_of(fields)?;
        Ok(Backward {
            depth: number_in(depth)?,
        })
    }

    /// Appends the field of a record behind a space. Where memory is refused, a beginning of it.
    pub fn append_fields(&self, out: &mut Vec<u8>) -> Result<(), NoMemory>
        ensures ok { OnOk result (out.new.items ≡ out.old.items ++ spaced (backward_fields self.now)) }
        ensures writable { OnOk result (self.now.depth < 2 ^ 64) }
        ensures kept { take (length out.old.items) out.new.items ≡ out.old.items }
    {
        append_number_field(self.depth, out)
    }
}

impl Evidence for Backward {
    ghost use Rattle.kind_evidence.specs.declared.verdicts.Verdict.TheVariants.{Never};
    ghost use Rattle.backward.specs.Kind.{backward_kind};

    ghost meaning = { backward_kind.meaning };

    ghost shows = { λ e p. Never };

    // The run is looked at first: a table whose run does fewer steps is refused as false, however wide it is.
    fn check(&self, alloc: Global, t: &Table) -> Result<Verdict, Refused> {
        if self.depth > MAX_DEPTH {
            return Err(Refused::TooLong);
        }
        if !does_steps(alloc, t, self.depth)? {
            return Err(Refused::Fails);
        }
        let mut paths = PathCounter::new(alloc);
        if paths.count(t, self.depth)?.is_err() {
            return Err(Refused::TooWide);
        }
        if paths.counts[self.depth as usize] == 0 {
            Ok(Verdict::Never)
        } else {
            Err(Refused::Fails)
        }
    }

    ghost law = { backward_kind.law };
}

// Whether the run of a table does so many steps.
pub(crate) fn does_steps(alloc: Global, t: &Table, steps: u64) -> Result<bool, NoMemory>
    requires { steps ≤ depth_limit }
    ensures { IfOk result (λ done. SaysDone t.now steps done) }
{
    let mut runner = Runner::new(alloc, *t)?;
    let step = runner.run_to(steps)?;
    Ok(step == Step::Went)
}

// The depths to which a narrow search looks before it goes further.
const FIRST_DEPTHS: [u64; 3] = [3, 6, 12];

/// Searches the least depth at which backward reasoning shows that a table never halts.
#[derive(Drop)]
pub struct BackwardFinder {
    alloc: Global,
    pub depth: u64,
    // Kept from table to table.
    paths: PathCounter,
}

impl BackwardFinder {
    /// A finder that goes back so many steps at most, and none beyond `MAX_DEPTH`.
    pub fn new(alloc: Global, depth: u64) -> BackwardFinder
        ensures { result.depth ≡ depth }
    {
        BackwardFinder {
            alloc,
            depth,
            paths: PathCounter::new(alloc),
        }
    }

    /// The least depth at which the claim stands; none where none stands within the finder's depth and the
    /// budget, or where each that stands would be refused as too wide.
    pub fn search(&mut self, t: &Table, budget: u64) -> Result<Option<Backward>, NoMemory>
        ensures found { IfOk result (λ o. IfSome o (λ e. IsBackward t.now.states (entry_of t.now) e.depth
            × (IsTooWide t.now e.depth → ⊥)
            × (e.depth ≤ min (min self.old.depth budget) depth_limit))) }
        ensures least { IfOk result (λ o. IfSome o
            (λ e. (d : ℕ) → d < e.depth → IsBackward t.now.states (entry_of t.now) d → ⊥)) }
        ensures none { IfOk result (λ o. IfNone o
            ((d : ℕ) → d ≤ min (min self.old.depth budget) depth_limit → IsBackward t.now.states (entry_of t.now) d
            → IsTooWide t.now d)) }
        ensures same { self.new.depth ≡ self.old.depth }
    {
        let limit = self.depth.min(budget).min(MAX_DEPTH);
        if self.paths.count(t, limit)?.is_err() {
            return Ok(None);
        }
        let Some(depth) = first_zero(&self.paths.counts) else {
            return Ok(None);
        };
        let depth = depth as u64;
        if !does_steps(self.alloc, t, depth)? {
            return Ok(None);
        }
        Ok(Some(Backward { depth }))
    }

    /// A depth at which the claim stands, looked for among few paths: to a depth of 3, then 6 and 12, and then as far as
    /// the finder goes back; it gives up where the last depth has more than so many paths. None where it finds none, or
    /// gives up. No contract says what is found.
    pub fn search_narrow(&mut self, t: &Table, paths: u64) -> Result<Option<Backward>, NoMemory>
        ensures found { IfOk result (λ o. IfSome o (λ e. IsBackward t.now.states (entry_of t.now) e.depth
            × (IsTooWide t.now e.depth → ⊥)
            × (e.depth ≤ min self.old.depth depth_limit))) }
        ensures same { self.new.depth ≡ self.old.depth }
    {
        for depth in FIRST_DEPTHS {
            let found = self.search(t, depth)?;
            if found.is_some() {
                return Ok(found);
            }
            // Without a path of this depth there is none of a greater one.
            let last = self.paths.counts.last();
            if last.is_some_and(|count| *count == 0 || *count > paths) {
                return Ok(None);
            }
        }
        self.search(t, u64::MAX)
    }
}

// The first place of a 0.
fn first_zero(counts: &[u64]) -> Option<usize>
    ensures some { IfSome result (λ i. (i < length counts.now) × (slice_index counts.now i ≡ 0)
        × ((k : ℕ) → k < i → slice_index counts.now k ≢ 0)) }
    ensures none { IfNone result (EachIndex counts.now (λ k. slice_index counts.now k ≢ 0)) }
{
    counts.iter().position(|count| *count == 0)
}

// A run that comes to the same configuration moved: its evidence, the search for it, and what that keeps.
ghost use Rattle.std.specs.Prelude.{◌≡◌, ◌<◌, ◌≤◌, IfOk, ◌+◌, OnOk, IfSome, IfNone, ◌↔◌, ◌^◌, ◌++◌, length, take, IsTrue, min};
ghost use Rattle.std.specs.Bool.{OnTrue};
ghost use Rattle.law_turing.specs.Terms.{Beyond, Translated as IsTranslated};
ghost use Rattle.loops.specs.Limits.{time_limit};
ghost use Rattle.loops.specs.inside.{GoesTo};
ghost use Rattle.machine_text.specs.Terms.{entry_of};
ghost use Rattle.loops.specs.Kinds.{translated_by, translated_fields};
ghost use Rattle.text.specs.Terms.{spaced};

use crate::limits::MAX_TIME;
use crate::search::{Search, Watch, comes_to, goes_on};
use crate::snapshot::{Allowance, Snapshot};
use kind_evidence::{Evidence, NoMemory, Refused, Verdict, side_of, side_text};
use machine_text::{Dir, Table};
use run::Runner;
use std::alloc::Global;
use text::{FieldFault, Parts, append_field, append_number_field, end_of, next_field, number_in};

// The farthest head of the times from where a runner stands to just before time j, at which it then
// stands; none where the run doesn't come to time j.
pub(crate) fn farthest_head(runner: &mut Runner, j: u64, side: Dir) -> Result<Option<i64>, NoMemory>
    requires onward { runner.old.steps < j }
    requires limit { j ≤ time_limit }
    ensures { IfOk result (λ bound. GoesTo j side runner.old bound runner.new) }
{
    let mut bound = runner.tape().head();
    for time in runner.steps()..j {
        bound = farther(side, bound, runner.tape().head());
        if !goes_on(runner)? {
            return Ok(None);
        }
    }
    Ok(Some(bound))
}

// The lesser of two heads for the side R, the greater for the side L.
#[inline]
pub(crate) fn farther(side: Dir, a: i64, b: i64) -> i64
    ensures first { Beyond side a b → result ≡ a }
    ensures second { Beyond side b a → result ≡ b }
{
    match side {
        Dir::L => a.max(b),
        Dir::R => a.min(b),
    }
}

// How far a run went on a side, and the last record that was kept. A record is a time at which the head is
// further on that side than ever before.
#[derive(Drop)]
pub(crate) struct Trail {
    side: Dir,
    kept: Snapshot,
    // The farthest head on the other side since that record.
    bound: i64,
    // Where the last record was.
    record: i64,
    // What may still be compared with the record that was kept.
    allowance: Allowance,
}

impl Trail {
    ghost use Rattle.loops.specs.inside.{Follows};

    // One that follows no run yet. Takes no memory.
    pub fn new(alloc: Global, side: Dir) -> Trail {
        Trail {
            side,
            kept: Snapshot::blank(alloc),
            bound: 0,
            record: 0,
            allowance: Allowance::at(0),
        }
    }

    // Begins at where a runner stands, which is taken for the first record, in the memory that it has where
    // that suffices.
    pub fn begin(&mut self, runner: &Runner) -> Result<(), NoMemory>
        requires limit { runner.now.steps ≤ time_limit }
        ensures { OnOk result
            (Follows runner.now.table (runner.now.steps + 1) self.new.side self.new.kept self.new.bound) }
    {
        self.bound = runner.tape().head();
        self.record = self.bound;
        self.allowance = Allowance::at(runner.steps());
        self.kept.retake(runner)?;
        Ok(())
    }

    // Looks at the next time of the run. Gives a translated cycle from the record that was kept to this one.
    // Keeps a record in its place where twice the time has come.
    #[inline]
    pub fn visit(&mut self, runner: &Runner) -> Result<Option<Translated>, NoMemory>
        requires limit { runner.now.steps ≤ time_limit }
        requires follows { Follows runner.now.table runner.now.steps self.old.side self.old.kept self.old.bound }
        ensures found { IfOk result (λ o. IfSome o (λ e. IsTranslated (entry_of runner.now.table) e.i e.j e.side)) }
        ensures now { IfOk result (λ o. IfSome o (λ e. e.j ≡ runner.now.steps)) }
        ensures follows { IfOk result (λ o. IfNone o
            (Follows runner.now.table (runner.now.steps + 1) self.new.side self.new.kept self.new.bound)) }
    {
        let time = runner.steps();
        let head = runner.tape().head();
        if is_past(self.side, self.record, head) {
            if self.has_come_back(runner) {
                return Ok(Some(Translated {
                    i: self.kept.time(),
                    j: time,
                    side: self.side,
                }));
            }
            self.record = head;
            if time / 2 >= self.kept.time() {
                self.kept.retake(runner)?;
                self.bound = head;
                self.allowance = Allowance::at(time);
                return Ok(None);
            }
        }
        self.bound = farther(self.side, self.bound, head);
        Ok(None)
    }

    // Whether there is a translated cycle from the record that was kept to a new record, at which a runner
    // stands: no, where the allowance doesn't suffice to compare them. Beyond a record nothing was visited,
    // so what is compared on either tape are the cells from the bound, or as far from it, to the head.
    fn has_come_back(&mut self, runner: &Runner) -> bool
        requires limit { runner.now.steps ≤ time_limit }
        requires follows { Follows runner.now.table runner.now.steps self.old.side self.old.kept self.old.bound }
        ensures found { OnTrue result
            (IsTranslated (entry_of runner.now.table) self.new.kept.time runner.now.steps self.new.side) }
        ensures kept { self.new.kept ≡ self.old.kept }
        ensures bound { self.new.bound ≡ self.old.bound }
        ensures side { self.new.side ≡ self.old.side }
    {
        self.kept.has_state_of(runner)
            && self.allowance.spend(self.bound, self.kept.head())
            && self.kept.is_translated(runner, self.bound, self.side)
    }
}

// Whether a head is further on a side than the last record.
#[inline]
fn is_past(side: Dir, record: i64, head: i64) -> bool {
    match side {
        Dir::L => head < record,
        Dir::R => record < head,
    }
}

/// The claim that a table's run has, at the times `i` and `j`, of which `i` is the earlier one, the same
/// state and the same tape on a side, but for a shift.
///
/// For the side R the shift, head at `j` less head at `i`, is at least 0, and each cell x at or to the
/// right of the least head of the times from `i` to just before `j` is at time `i` what the cell x + shift
/// is at time `j`. The side L is the mirror image. Neither time need be a record of the head. Times are
/// numbers of steps from the blank tape; the limit of `j` is `MAX_TIME`.
#[derive(Clone, Copy, Debug, PartialEq, Eq)]
pub struct Translated {
    pub i: u64,
    pub j: u64,
    pub side: Dir,
}

impl Translated {
    /// The claim that the fields of a record make: `i j side`.
    pub fn read(mut fields: Parts<'_>) -> Result<Translated, FieldFault>
        ensures { result ≡ translated_by fields.entry }
    {
        let i = next_field(&mut fields)?;
        let j = next_field(&mut fields)?;
        let side = next_field(&mut fields)?;
        end_of(fields)?;
        Ok(Translated {
            i: number_in(i)?,
            j: number_in(j)?,
            side: side_of(side).ok_or(FieldFault::BadNumber)?,
        })
    }

    /// Appends the fields of a record, each behind a space. Where memory is refused, a beginning of them.
    pub fn append_fields(&self, out: &mut Vec<u8>) -> Result<(), NoMemory>
        ensures ok { OnOk result (out.new.items ≡ out.old.items ++ spaced (translated_fields self.now)) }
        ensures writable { OnOk result ((self.now.i < 2 ^ 64) × (self.now.j < 2 ^ 64)) }
        ensures kept { take (length out.old.items) out.new.items ≡ out.old.items }
    {
        append_number_field(self.i, out)?;
        append_number_field(self.j, out)?;
        append_field(side_text(self.side), out)
    }
}

impl Evidence for Translated {
    ghost use Rattle.kind_evidence.specs.declared.verdicts.Verdict.TheVariants.{Never};
    ghost use Rattle.loops.specs.Kinds.{translated_kind};

    ghost meaning = { translated_kind.meaning };

    ghost shows = { λ e p. Never };

    fn check(&self, alloc: Global, t: &Table) -> Result<Verdict, Refused> {
        if self.j > MAX_TIME {
            return Err(Refused::TooLong);
        }
        if self.i >= self.j {
            return Err(Refused::Fails);
        }
        if has_translated(alloc, t, self.i, self.j, self.side)? {
            Ok(Verdict::Never)
        } else {
            Err(Refused::Fails)
        }
    }

    ghost law = { translated_kind.law };
}

// Whether the run of a table has a translated cycle between two times, on a side.
fn has_translated(alloc: Global, t: &Table, i: u64, j: u64, side: Dir) -> Result<bool, NoMemory>
    requires order { i < j }
    requires limit { j ≤ time_limit }
    ensures { IfOk result (λ has. IsTrue has ↔ IsTranslated (entry_of t.now) i j side) }
{
    let mut runner = Runner::new(alloc, *t)?;
    if !comes_to(&mut runner, i)? {
        return Ok(false);
    }
    let begin = Snapshot::taken(alloc, &runner)?;
    let Some(bound) = farthest_head(&mut runner, j, side)? else {
        return Ok(false);
    };
    Ok(begin.is_translated(&runner, bound, side))
}

#[derive(Drop)]
pub(crate) struct TranslatedWatch {
    left: Trail,
    right: Trail,
}

impl Watch for TranslatedWatch {
    ghost use Rattle.machine_text.specs.Terms.{entry_of};
    ghost use Rattle.law_turing.specs.Terms.{Translated as IsTranslated};
    ghost use Rattle.loops.specs.inside.{Follows};

    type Loop = Translated;

    ghost has_seen = { λ w p k.
        Follows p k w.left.side w.left.kept w.left.bound × Follows p k w.right.side w.right.kept w.right.bound };

    ghost stands = { λ e p. IsTranslated (entry_of p) e.i e.j e.side };

    ghost end = { λ e. e.j };

    fn new(alloc: Global) -> TranslatedWatch {
        TranslatedWatch {
            left: Trail::new(alloc, Dir::L),
            right: Trail::new(alloc, Dir::R),
        }
    }

    fn begin(&mut self, runner: &Runner) -> Result<(), NoMemory> {
        self.left.begin(runner)?;
        self.right.begin(runner)
    }

    #[inline]
    fn visit(&mut self, runner: &Runner) -> Result<Option<Translated>, NoMemory> {
        if let Some(found) = self.right.visit(runner)? {
            return Ok(Some(found));
        }
        self.left.visit(runner)
    }
}

/// Searches translated cycles, on both sides at once.
#[derive(Drop)]
pub struct TranslatedFinder {
    pub steps: u64,
    search: Search<TranslatedWatch>,
}

impl TranslatedFinder {
    /// A finder that carries out so many steps at most, and none beyond `MAX_TIME`.
    pub fn new(alloc: Global, steps: u64) -> TranslatedFinder
        ensures { result.steps ≡ steps }
    {
        TranslatedFinder {
            steps,
            search: Search::new(alloc),
        }
    }

    /// A translated cycle of the table within the finder's steps and the budget; none where it finds none.
    /// What it gives stands, and is within the limit.
    ///
    /// It looks at records alone, the times at which the head is further on a side than ever before: a
    /// translated cycle whose shift isn't 0 makes them for ever. It keeps one on each side, the first and
    /// then each that comes at twice the time of the one before, and compares the later ones of the same
    /// state with it, cell by cell from the farthest head in between. With each that it keeps it may compare
    /// about twice as many cells as steps were taken by then, and passes over what would be more: so a
    /// search takes time in proportion to its steps.
    ///
    /// A few times the time at which such a cycle is entered and its period are mostly enough. More are
    /// needed where a period has many records of one state and goes far back: the time of the record that
    /// is kept, twice, is to be no less than the number of the ones times the cells of the other. No
    /// contract says what is found or how long it takes.
    pub fn search(&mut self, t: &Table, budget: u64) -> Result<Option<Translated>, NoMemory>
        ensures found { IfOk result (λ o. IfSome o (λ e. IsTranslated (entry_of t.now) e.i e.j e.side)) }
        ensures within { IfOk result (λ o. IfSome o (λ e.
            e.j ≤ min (min self.old.steps budget) time_limit)) }
        ensures same { self.new.steps ≡ self.old.steps }
    {
        self.search.find(t, self.steps.min(budget))
    }
}

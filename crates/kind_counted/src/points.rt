// The points that are left after a step, and rows taken off one another until one alone has a number in a place.
ghost use Rattle.std.specs.Prelude.{◌≡◌, ◌<◌, IfOk, List, [], ◌∷◌, ◌++◌, IfSome, OnOk, ◌↔◌, ◌+◌, ◌-◌, ◌≤◌, pos, IsTrue, OnErr, slice_index};
ghost use Rattle.std.specs.Int.RustNames.{unsigned_abs};
ghost use Rattle.kind_counted.specs.Limits.{count_limit};
ghost use Rattle.kind_counted.specs.Numbers.{point_of};
ghost use Rattle.kind_counted.specs.inside.Judging.{IsParted, listed, IsSplit, coset_by, AreMoved, AreZeroMembers, AreKeptIn, IsZeroIn, AreZeroAt, IsNegativeAt, IsNegative, AreSumsOf, LiesWithin};
ghost use Rattle.law_machines.specs.Terms.{Point, IsMember};
ghost use Rattle.kind_counted.specs.Items.{coset_of};
ghost use Rattle.kind_counted.specs.Automata.{IsCount};
ghost use Rattle.kind_counted.specs.Pivots.{points};
ghost use Rattle.kind_counted.specs.declared.numbers.Counts.{Counts};

use crate::form::Refused;
use crate::item::Coset;
use crate::limits::MAX_COUNTS;
use crate::numbers::Counts;
use crate::rows::Row;
use crate::used::Used;
use law_machines::Count;
use std::alloc::Global;

// Two rows, of which the first alone has a number in a place.
#[derive(Clone, Copy)]
pub(crate) struct Parted {
    pub carrier: Counts,
    pub other: Counts,
}

// Takes two rows off each other, as in Euclid's algorithm.
pub(crate) fn part(first: &Counts, second: &Counts, place: usize) -> Result<Parted, Refused>
    requires place { place < count_limit }
    requires some { 0 < unsigned_abs (point_of first.now.numbers place) }
    ensures parted { IfOk result (λ p. IsParted (point_of first.now.numbers) (point_of second.now.numbers) place
        (point_of p.carrier.numbers) (point_of p.other.numbers)) }
    ensures large { result ≡ Err Refused.Fails → ⊥ }
{
    let mut carrier = *first;
    let mut other = *second;
    'parting: while other.numbers[place] != 0 {
        let rest = carrier.lessened(&other, place)?;
        carrier = other;
        other = rest;
    }
    Ok(Parted { carrier, other })
}

// The carrier alone has a number in a place, if there is one.
#[derive(Drop)]
pub(crate) struct Split {
    pub carrier: Option<Counts>,
    pub rest: Vec<Counts>,
}

// Takes rows off one another until one alone has a number in a place.
pub(crate) fn split_at(alloc: Global, rows: &[Counts], place: usize) -> Result<Split, Refused>
    requires { place < count_limit }
    ensures split { IfOk result (λ s. IsSplit (listed rows.now) place s.carrier (listed s.rest.items)) }
    ensures large { result ≡ Err Refused.Fails → ⊥ }
{
    let mut split = Split {
        carrier: None,
        rest: Vec::new(alloc),
    };
    for row in rows {
        split.add(row, place)?;
    }
    Ok(split)
}

impl Split {
    // Takes one row more into account.
    fn add(&mut self, row: &Counts, place: usize) -> Result<(), Refused>
        requires place { place < count_limit }
        requires some { IfSome self.old.carrier (λ c. 0 < unsigned_abs (point_of c.numbers place)) }
        ensures added { OnOk result
            ((rows : List Point) → IsSplit rows place self.old.carrier (listed self.old.rest.items) →
            IsSplit (rows ++ point_of row.now.numbers ∷ []) place self.new.carrier (listed self.new.rest.items)) }
        ensures large { result ≡ Err Refused.Fails → ⊥ }
    {
        match self.carrier {
            Some(carrier) => {
                let Parted { carrier, other } = part(&carrier, row, place)?;
                self.carrier = Some(carrier);
                self.rest.push(other)?;
                Ok(())
            }
            None => self.add_first(row, place),
        }
    }

    // Takes one row more into account where there is no carrier yet.
    fn add_first(&mut self, row: &Counts, place: usize) -> Result<(), Refused>
        requires place { place < count_limit }
        requires none { self.old.carrier ≡ None }
        ensures added { OnOk result ((rows : List Point) → IsSplit rows place None (listed self.old.rest.items) →
            IsSplit (rows ++ point_of row.now.numbers ∷ []) place self.new.carrier (listed self.new.rest.items)) }
        ensures large { result ≡ Err Refused.Fails → ⊥ }
    {
        if row.numbers[place] != 0 {
            self.carrier = Some(*row);
            return Ok(());
        }
        self.rest.push(*row)?;
        Ok(())
    }
}

/// The points that are left after a step.
#[derive(Drop)]
pub(crate) struct Points {
    pub base: Counts,
    pub rows: Vec<Counts>,
}

impl Points {
    // The members of a coset, with one more in a count and one less in another.
    pub fn moved(
        alloc: Global,
        k: &Coset,
        more: Option<Count>,
        fewer: Option<Count>,
    ) -> Result<Points, Refused>
        requires more { IsCount more }
        requires fewer { IsCount fewer }
        ensures moved { IfOk result (λ p. AreMoved (coset_of k.now) more fewer (coset_by p.base p.rows.items)) }
        ensures large { result ≡ Err Refused.Fails → ⊥ }
    {
        let rows = rows_of(alloc, k)?;
        let base = k.base.one_more(more)?.one_less(fewer)?;
        Ok(Points { base, rows })
    }

    // The points that are 0 in each count of a range that isn't used at a state; fails if none is.
    pub fn kept(
        self,
        alloc: Global,
        used: &Used,
        state: usize,
        from: usize,
        to: usize,
    ) -> Result<Points, Refused>
        requires range { from ≤ to }
        requires limit { to ≤ count_limit }
        ensures kept { IfOk result
            (λ p. AreKeptIn (coset_by self.base self.rows.items) from to (slice_index used.now.sets.items state)
            (coset_by p.base p.rows.items)) }
        ensures none { result ≡ Err Refused.Fails → (v : Point) → IsMember (coset_by self.base self.rows.items) v →
            IsZeroIn from to (slice_index used.now.sets.items state) v → ⊥ }
    {
        let mut points = self;
        for x in from..to {
            points = points.kept_at(alloc, used, state, x)?;
        }
        Ok(points)
    }

    // The points that are 0 in one count, where that isn't used at a state; fails if none is.
    fn kept_at(
        self,
        alloc: Global,
        used: &Used,
        state: usize,
        place: usize,
    ) -> Result<Points, Refused>
        requires { place < count_limit }
        ensures kept { IfOk result (λ p. AreKeptIn (coset_by self.base self.rows.items) place (place + 1)
            (slice_index used.now.sets.items state) (coset_by p.base p.rows.items)) }
        ensures none { result ≡ Err Refused.Fails → (v : Point) → IsMember (coset_by self.base self.rows.items) v →
            IsZeroIn place (place + 1) (slice_index used.now.sets.items state) v → ⊥ }
    {
        if used.has(state, place) {
            return Ok(self);
        }
        self.zero(alloc, place)
    }

    // Whether some count is the same negative number in all of them.
    pub fn is_negative(&self) -> bool
        ensures { IsTrue result ↔ IsNegative (coset_by self.now.base self.now.rows.items) }
    {
        for x in 0..MAX_COUNTS {
            if self.is_negative_at(x) {
                return true;
            }
        }
        false
    }

    // Whether this count is.
    fn is_negative_at(&self, place: usize) -> bool
        requires { place < count_limit }
        ensures { IsTrue result ↔ IsNegativeAt (coset_by self.now.base self.now.rows.items) place }
    {
        if self.base.numbers[place] >= 0 {
            return false;
        }
        self.is_fixed(place)
    }

    // Whether all rows are 0 in a place.
    fn is_fixed(&self, place: usize) -> bool
        requires { place < count_limit }
        ensures { IsTrue result ↔ AreZeroAt (listed self.now.rows.items) place }
    {
        for row in self.rows.iter() {
            if row.numbers[place] != 0 {
                return false;
            }
        }
        true
    }

    // Whether all of them are members of a coset.
    pub fn check_within(&self, k: &Coset) -> Result<(), Refused>
        ensures within { IfOk result (λ _. LiesWithin (coset_by self.now.base self.now.rows.items) (coset_of k.now)) }
        ensures fails { result ≡ Err Refused.Fails →
            LiesWithin (coset_by self.now.base self.now.rows.items) (coset_of k.now) → ⊥ }
    {
        let apart = self.base.minus(&k.base)?;
        Row::sum_to(&k.rows, &apart)?;
        self.check_rows(k)
    }

    // Whether all rows are sums of those of a coset.
    fn check_rows(&self, k: &Coset) -> Result<(), Refused>
        ensures sums { IfOk result (λ _. AreSumsOf (points k.now.rows.items) (listed self.now.rows.items)) }
        ensures fails { result ≡ Err Refused.Fails →
            AreSumsOf (points k.now.rows.items) (listed self.now.rows.items) → ⊥ }
    {
        for row in self.rows.iter() {
            Row::sum_to(&k.rows, row)?;
        }
        Ok(())
    }

    // The points that are 0 in a place; fails if none is.
    pub fn zero(&self, alloc: Global, place: usize) -> Result<Points, Refused>
        requires { place < count_limit }
        ensures kept { IfOk result
            (λ p. AreZeroMembers (coset_by self.now.base self.now.rows.items) place (coset_by p.base p.rows.items)) }
        ensures none { result ≡ Err Refused.Fails → (v : Point) →
            IsMember (coset_by self.now.base self.now.rows.items) v →
            v place ≡ pos 0 → ⊥ }
    {
        let split = split_at(alloc, &self.rows, place)?;
        zero_of(&self.base, split, place)
    }
}

// The points that are 0 in a place, once one row alone has a number there; fails if none is.
fn zero_of(base: &Counts, split: Split, place: usize) -> Result<Points, Refused>
    requires place { place < count_limit }
    requires some { IfSome split.carrier (λ c. 0 < unsigned_abs (point_of c.numbers place)) }
    ensures kept { IfOk result
        (λ p. (rows : List Counts) → IsSplit (listed rows) place split.carrier (listed split.rest.items) →
        AreZeroMembers (coset_by base.now rows) place (coset_by p.base p.rows.items)) }
    ensures none { result ≡ Err Refused.Fails → (rows : List Counts) →
        IsSplit (listed rows) place split.carrier (listed split.rest.items) →
        (v : Point) → IsMember (coset_by base.now rows) v → v place ≡ pos 0 → ⊥ }
{
    match split.carrier {
        Some(carrier) => Ok(Points {
            base: base.cleared(&carrier, place)?,
            rows: split.rest,
        }),
        None => {
            if base.numbers[place] != 0 {
                return Err(Refused::Fails);
            }
            Ok(Points {
                base: *base,
                rows: split.rest,
            })
        }
    }
}

// The rows of a coset.
fn rows_of(alloc: Global, k: &Coset) -> Result<Vec<Counts>, Refused>
    ensures rows { IfOk result (λ rows. listed rows.items ≡ points k.now.rows.items) }
    ensures memory { OnErr result (result ≡ Err Refused.NoMemory) }
{
    let mut rows = Vec::new(alloc);
    for row in k.rows.iter() {
        rows.push(row.counts)?;
    }
    Ok(rows)
}

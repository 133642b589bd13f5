// A whole number for each count.
ghost use Rattle.std.specs.Prelude.{◌≡◌, ◌↔◌, ℕ, ◌<◌, ◌≤◌, ℤ, pos, ◌-ℤ◌, ◌*ℤ◌, int_div, IsTrue, IfSome, IfNone, IfOk};
ghost use Rattle.std.specs.Int.RustNames.{unsigned_abs};
ghost use Rattle.law_machines.specs.Terms.{less};
ghost use Rattle.kind_counted.specs.Limits.{number_limit, count_limit};
ghost use Rattle.kind_counted.specs.Numbers.{AreSmall, no_numbers, point_of};

use crate::form::Refused;
use crate::limits::{MAX_COUNTS, MAX_NUMBER};
use law_machines::Count;

/// A number for each count.
#[derive(Clone, Copy)]
pub struct Counts {
    pub numbers: [i64; MAX_COUNTS],
    ghost small: { AreSmall numbers },
}

impl Counts {
    ghost use Rattle.std.specs.Prelude.{◌+ℤ◌, set, false};
    ghost use Rattle.law_machines.specs.Terms.{once};
    ghost use Rattle.kind_counted.specs.Automata.{IsCount};
    ghost use Rattle.kind_counted.specs.inside.Judging.{IsCleared, IsLessened};

    // 0 for each count.
    pub(crate) fn zeros() -> Counts
        ensures { result.numbers ≡ no_numbers }
    {
        Counts {
            numbers: [0; MAX_COUNTS],
        }
    }

    // The numbers less so many times others; none where a number gets too large.
    pub(crate) fn less(&self, f: i64, row: &Counts) -> Option<Counts>
        requires { unsigned_abs f ≤ number_limit }
        ensures less { IfSome result
            (λ v. point_of v.numbers ≡ less (point_of self.now.numbers) f (point_of row.now.numbers)) }
    {
        let mut numbers = self.numbers;
        for x in 0..MAX_COUNTS {
            numbers[x] = less_at(self.numbers[x], f, row.numbers[x])?;
        }
        Some(Counts { numbers })
    }

    // What is left once a row is taken off so often that a place is 0.
    pub(crate) fn cleared(&self, row: &Counts, place: usize) -> Result<Counts, Refused>
        requires place { place < count_limit }
        requires some { 0 < unsigned_abs (point_of row.now.numbers place) }
        ensures cleared { IfOk result
            (λ v. IsCleared (point_of self.now.numbers) (point_of row.now.numbers) place (point_of v.numbers)) }
        ensures fails { result ≡ Err Refused.Fails → (q : ℤ) →
            point_of self.now.numbers place ≡ q *ℤ point_of row.now.numbers place → ⊥ }
    {
        match quotient(self.numbers[place], row.numbers[place]) {
            Some(q) => match self.less(q, row) {
                Some(rest) => Ok(rest),
                None => Err(Refused::TooLarge),
            },
            None => Err(Refused::Fails),
        }
    }

    // What is left once a row is taken off so often that a place is smaller than the row's.
    pub(crate) fn lessened(&self, row: &Counts, place: usize) -> Result<Counts, Refused>
        requires place { place < count_limit }
        requires some { 0 < unsigned_abs (point_of row.now.numbers place) }
        ensures lessened { IfOk result
            (λ v. IsLessened (point_of self.now.numbers) (point_of row.now.numbers) place (point_of v.numbers)) }
        ensures large { result ≡ Err Refused.Fails → ⊥ }
    {
        match self.less(rounded(self.numbers[place], row.numbers[place]), row) {
            Some(rest) => Ok(rest),
            None => Err(Refused::TooLarge),
        }
    }

    // The numbers less others.
    pub(crate) fn minus(&self, other: &Counts) -> Result<Counts, Refused>
        ensures minus { IfOk result
            (λ v. (x : ℕ) → point_of v.numbers x ≡ point_of self.now.numbers x -ℤ point_of other.now.numbers x) }
        ensures large { result ≡ Err Refused.Fails → ⊥ }
    {
        match self.less(1, other) {
            Some(rest) => Ok(rest),
            None => Err(Refused::TooLarge),
        }
    }

    // The numbers with one more in a count.
    pub(crate) fn one_more(&self, count: Option<Count>) -> Result<Counts, Refused>
        requires { IsCount count }
        ensures more { IfOk result
            (λ v. (x : ℕ) → point_of v.numbers x ≡ point_of self.now.numbers x +ℤ pos (once count x)) }
        ensures large { result ≡ Err Refused.Fails → ⊥ }
    {
        match count {
            Some(count) => self.with(count.number, self.numbers[count.number] + 1),
            None => Ok(*self),
        }
    }

    // The numbers with one less in a count.
    pub(crate) fn one_less(&self, count: Option<Count>) -> Result<Counts, Refused>
        requires { IsCount count }
        ensures less { IfOk result
            (λ v. (x : ℕ) → point_of v.numbers x ≡ point_of self.now.numbers x -ℤ pos (once count x)) }
        ensures large { result ≡ Err Refused.Fails → ⊥ }
    {
        match count {
            Some(count) => self.with(count.number, self.numbers[count.number] - 1),
            None => Ok(*self),
        }
    }

    // The numbers with another one in a place.
    fn with(&self, place: usize, number: i64) -> Result<Counts, Refused>
        requires { place < count_limit }
        ensures with { IfOk result (λ v. v.numbers ≡ set self.now.numbers place number) }
        ensures large { result ≡ Err Refused.Fails → ⊥ }
    {
        if number < -MAX_NUMBER || number > MAX_NUMBER {
            return Err(Refused::TooLarge);
        }
        let mut numbers = self.numbers;
        numbers[place] = number;
        Ok(Counts { numbers })
    }

    // Whether each number is 0.
    pub(crate) fn is_zero(&self) -> bool
        ensures { IsTrue result ↔ ((x : ℕ) → point_of self.now.numbers x ≡ pos 0) }
    {
        for x in 0..MAX_COUNTS {
            if self.numbers[x] != 0 {
                return false;
            }
        }
        true
    }
}

// A number less so many times another, if it isn't too large.
fn less_at(number: i64, f: i64, other: i64) -> Option<i64>
    requires number { unsigned_abs number ≤ number_limit }
    requires f { unsigned_abs f ≤ number_limit }
    requires other { unsigned_abs other ≤ number_limit }
    ensures is { IfSome result (λ n. n ≡ number -ℤ (f *ℤ other)) }
    ensures small { IfSome result (λ n. unsigned_abs n ≤ number_limit) }
{
    let less = number - f * other;
    if less < -MAX_NUMBER || less > MAX_NUMBER {
        return None;
    }
    Some(less)
}

// How often a number goes into another, if it does without a remainder.
pub(crate) fn quotient(number: i64, divisor: i64) -> Option<i64>
    requires number { unsigned_abs number ≤ number_limit }
    requires divisor { unsigned_abs divisor ≤ number_limit }
    requires some { 0 < unsigned_abs divisor }
    ensures is { IfSome result (λ q. number ≡ q *ℤ divisor) }
    ensures small { IfSome result (λ q. unsigned_abs q ≤ number_limit) }
    ensures none { IfNone result ((q : ℤ) → number ≡ q *ℤ divisor → ⊥) }
{
    if number % divisor != 0 {
        return None;
    }
    Some(number / divisor)
}

// How often a number goes into another, rounded towards 0.
fn rounded(number: i64, divisor: i64) -> i64
    requires number { unsigned_abs number ≤ number_limit }
    requires divisor { unsigned_abs divisor ≤ number_limit }
    requires some { 0 < unsigned_abs divisor }
    ensures is { result ≡ int_div number divisor }
    ensures small { unsigned_abs result ≤ number_limit }
    ensures rest { unsigned_abs (number -ℤ (result *ℤ divisor)) < unsigned_abs divisor }
{
    number / divisor
}

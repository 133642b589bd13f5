// Whole numbers, one for each count, and cosets of lattices: a base and rows.
use crate::limits::{MAX_FOUND_COUNTS, MAX_SIZE};

// A number for each count.
#[derive(Clone, Copy, PartialEq, Eq)]
pub(crate) struct Vector {
    numbers: [i64; MAX_FOUND_COUNTS],
}

// Two vectors, of which the first alone has a number in a place.
#[derive(Clone, Copy)]
pub(crate) struct Parted {
    pub carrier: Vector,
    pub other: Vector,
}

impl Vector {
    // 0 for each count.
    pub fn zeros() -> Vector {
        Vector {
            numbers: [0; MAX_FOUND_COUNTS],
        }
    }

    // The number of a count.
    pub fn at(&self, count: usize) -> i64 {
        match self.numbers.get(count) {
            Some(number) => *number,
            None => 0,
        }
    }

    // With so much more in a count, if there is one.
    pub fn with_more(mut self, count: Option<usize>, more: i64) -> Vector {
        let Some(count) = count else {
            return self;
        };
        if let Some(number) = self.numbers.get_mut(count) {
            *number = number.saturating_add(more);
        }
        self
    }

    // Less so many times another; none where a number gets too large.
    pub fn less(&self, times: i64, other: &Vector) -> Option<Vector> {
        let mut numbers = self.numbers;
        for x in 0..MAX_FOUND_COUNTS {
            let product = times.checked_mul(other.numbers[x])?;
            let number = self.numbers[x].checked_sub(product)?;
            if number.unsigned_abs() > MAX_SIZE {
                return None;
            }
            numbers[x] = number;
        }
        Some(Vector { numbers })
    }

    // With a positive number in a place: as it is, or its negative.
    pub fn positive(&self, place: usize) -> Option<Vector> {
        if self.at(place) >= 0 {
            Some(*self)
        } else {
            Vector::zeros().less(1, self)
        }
    }
}

// Takes two vectors off each other, as in Euclid's algorithm, until the second is 0 in a place.
pub(crate) fn part(first: &Vector, second: &Vector, place: usize) -> Option<Parted> {
    let mut carrier = *first;
    let mut other = *second;
    for _ in 0..128 {
        if other.at(place) == 0 {
            return Some(Parted { carrier, other });
        }
        let times = carrier.at(place).checked_div(other.at(place))?;
        let rest = carrier.less(times, &other)?;
        carrier = other;
        other = rest;
    }
    None
}

// The rows of a coset in echelon form, each in the place of its first number; or those of what is left after a step,
// in any form.
pub(crate) type Rows = [Option<Vector>; MAX_FOUND_COUNTS];

// A base, and all points that are further by whole multiples of the rows.
#[derive(Clone, Copy)]
pub(crate) struct Coset {
    pub base: Vector,
    pub rows: Rows,
}

// What is left of a coset's members.
#[derive(Clone, Copy)]
pub(crate) enum Kept {
    Some(Coset),
    None,
}

impl Coset {
    // The members that are 0 in a count; nothing where a number gets too large.
    pub fn zero(&self, count: usize) -> Option<Kept> {
        let mut rows = self.rows;
        let mut carrier: Option<Vector> = None;
        for k in 0..MAX_FOUND_COUNTS {
            let Some(row) = rows[k] else {
                continue;
            };
            match carrier {
                Some(first) => {
                    let Parted {
                        carrier: next,
                        other,
                    } = part(&first, &row, count)?;
                    carrier = Some(next);
                    rows[k] = Some(other);
                }
                None => {
                    if row.at(count) != 0 {
                        carrier = Some(row);
                        rows[k] = None;
                    }
                }
            }
        }
        let Some(carrier) = carrier else {
            let is_kept = self.base.at(count) == 0;
            return Some(if is_kept {
                Kept::Some(*self)
            } else {
                Kept::None
            });
        };
        if self.base.at(count).checked_rem(carrier.at(count))? != 0 {
            return Some(Kept::None);
        }
        let times = self.base.at(count).checked_div(carrier.at(count))?;
        let base = self.base.less(times, &carrier)?;
        Some(Kept::Some(Coset { base, rows }))
    }

    // Whether some count is the same negative number in all members.
    pub fn is_negative(&self) -> bool {
        for count in 0..MAX_FOUND_COUNTS {
            if self.base.at(count) < 0 && self.is_fixed(count) {
                return true;
            }
        }
        false
    }

    fn is_fixed(&self, count: usize) -> bool {
        for row in &self.rows {
            if let Some(row) = row {
                if row.at(count) != 0 {
                    return false;
                }
            }
        }
        true
    }

    // A coset of the same members, with rows in echelon form; nothing where a number gets too large.
    pub fn in_echelon(&self) -> Option<Coset> {
        let mut coset = Coset {
            base: self.base,
            rows: [None; MAX_FOUND_COUNTS],
        };
        coset.grow_by_rows(&self.rows)?;
        Some(coset)
    }

    // Takes in all members of another; whether it had to grow. Nothing where a number gets too large.
    pub fn grow(&mut self, other: &Coset) -> Option<bool> {
        let apart = other.base.less(1, &self.base)?;
        let by_base = self.grow_by(&apart)?;
        let by_rows = self.grow_by_rows(&other.rows)?;
        Some(by_base || by_rows)
    }

    fn grow_by_rows(&mut self, rows: &Rows) -> Option<bool> {
        let mut has_grown = false;
        for row in rows {
            if let Some(row) = row {
                if self.grow_by(row)? {
                    has_grown = true;
                }
            }
        }
        Some(has_grown)
    }

    // Takes a row in.
    fn grow_by(&mut self, row: &Vector) -> Option<bool> {
        let mut rest = *row;
        let mut has_grown = false;
        for place in 0..MAX_FOUND_COUNTS {
            if rest.at(place) == 0 {
                continue;
            }
            match self.rows[place] {
                Some(old) => {
                    let Parted { carrier, other } = part(&old, &rest, place)?;
                    let carrier = carrier.positive(place)?;
                    has_grown = has_grown || carrier != old;
                    self.rows[place] = Some(carrier);
                    rest = other;
                }
                None => {
                    self.rows[place] = Some(rest.positive(place)?);
                    return Some(true);
                }
            }
        }
        Some(has_grown)
    }
}

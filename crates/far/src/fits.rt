// Whether the numbers of two automata hold what a table asks for.
ghost use Rattle.std.specs.Prelude.{◌≡◌, ◌↔◌, ◌+◌, ◌*◌, ◌<◌, ◌≤◌, ℕ, length, IsTrue};
ghost use Rattle.std.specs.Int.{bit_at};
ghost use Rattle.far.specs.Texts.{has, AreAutomataOf, row_at, target};
ghost use Rattle.far.specs.Limits.{word_bits, pair_limit};
ghost use Rattle.far.specs.inside.Steps.{Gathers, IsPart, last, ReachesIn, HaveStates, FitsEntry, FitsPair, EachFits, KeepsBlank};
ghost use Rattle.machine_text.specs.Terms.{entry_of, symbol_number};
ghost use Rattle.far.specs.inside.Unpacked.{unpacked_of};

use crate::limits::Set;
use crate::unpacked::Unpacked;
use machine_text::{Dir, Entry, State, Sym, Table};

// Whether a number is in a set.
pub(crate) fn has(set: Set, k: usize) -> bool
    requires { k < word_bits }
    ensures { result ≡ has set k }
{
    (set >> k) & 1 == 1
}

// What is in the rows of the members of a set below a number: number j has the row 2j + r.
pub(crate) fn union_over(rows: &[Set], set: Set, r: usize, reach: usize) -> Set
    requires symbol { r < 2 }
    requires reach { reach < word_bits }
    requires rows { 2 * reach ≤ length rows.now }
    ensures { Gathers rows.now set r reach result }
{
    let mut union = 0;
    let mut rest = set;
    let mut from = 0;
    'members: while rest > 0 {
        let gap = least(rest);
        let j = from + gap;
        if j >= reach {
            return union;
        }
        union |= rows[2 * j + r];
        rest = rest >> gap >> 1;
        from = j + 1;
    }
    union
}

// The least member of a set that has one.
fn least(set: Set) -> usize
    requires { 0 < set }
    ensures member { bit_at set result ≡ 1 }
    ensures none { (k : ℕ) → k < result → bit_at set k ≡ 0 }
    ensures limit { result < word_bits }
{
    set.trailing_zeros() as usize
}

// Whether all of a set is in another.
pub(crate) fn is_part(a: Set, b: Set) -> bool
    ensures { IsTrue result ↔ IsPart a b }
{
    a | b == b
}

impl Unpacked {
    // Whether the automata fit a table of their number of states.
    pub(crate) fn fits(&self, t: &Table) -> bool
        requires { self.now.states ≡ t.now.states }
        ensures { IsTrue result ↔ AreAutomataOf (unpacked_of self.now) t.now }
    {
        // The proof needs that the table is one.
        let _ = t.states();
        if !self.keeps_blank() {
            return false;
        }
        self.each_fits(t)
    }

    // Whether the blank tape is kept away from the halt state.
    fn keeps_blank(&self) -> bool
        ensures { IsTrue result ↔ KeepsBlank (unpacked_of self.now) }
    {
        if self.target(0, Sym::Zero) != 0 {
            return false;
        }
        if !has(self.keep, 0) {
            return false;
        }
        if has(self.keep, self.last()) {
            return false;
        }
        self.reaches_in(self.keep, Sym::Zero, self.keep)
    }

    // Whether each state of the second automaton but the halt state has its edges.
    fn each_fits(&self, t: &Table) -> bool
        requires { self.now.states ≡ t.now.states }
        ensures { IsTrue result ↔ EachFits (entry_of t.now) (unpacked_of self.now) (last (unpacked_of self.now)) }
    {
        let states = self.states as usize;
        for j in 0..self.last() {
            if !self.fits_pair(t, j / states, j % states, Sym::Zero) {
                return false;
            }
            if !self.fits_pair(t, j / states, j % states, Sym::One) {
                return false;
            }
        }
        true
    }

    // Whether (q, f) has its edges on a symbol.
    #[tactic(auto, unfolding(crate::specs::inside::Steps::FitsPair))]
    fn fits_pair(&self, t: &Table, q: usize, f: usize, r: Sym) -> bool
        requires states { self.now.states ≡ t.now.states }
        requires first { q < self.now.size }
        requires second { f < self.now.states }
        ensures { IsTrue result ↔ FitsPair (entry_of t.now) (unpacked_of self.now) q f r }
    {
        match t.get(State(f as u8), r) {
            Some(entry) => self.fits_entry(q, f, r, entry),
            None => has(self.row(q, f, r), self.last()),
        }
    }

    // Whether it has those that an entry asks for.
    fn fits_entry(&self, q: usize, f: usize, r: Sym, entry: Entry) -> bool
        requires { HaveStates (unpacked_of self.now) q f entry }
        ensures { IsTrue result ↔ FitsEntry (unpacked_of self.now) q f r entry }
    {
        if !self.fits_ahead(q, f, r, entry) {
            return false;
        }
        if !self.fits_back(q, f, r, entry, Sym::Zero) {
            return false;
        }
        self.fits_back(q, f, r, entry, Sym::One)
    }

    // An entry that moves ahead: the first automaton reads the written symbol.
    fn fits_ahead(&self, q: usize, f: usize, r: Sym, entry: Entry) -> bool
        requires { HaveStates (unpacked_of self.now) q f entry }
        ensures { IsTrue result ↔ (entry.dir ≡ self.now.side
            → IsTrue (has (row_at (unpacked_of self.now) (q * self.now.states + f) r)
            (target (unpacked_of self.now) q entry.write * self.now.states + entry.next.0))) }
    {
        if !is_ahead(entry.dir, self.side) {
            return true;
        }
        let next = self.number(self.target(q, entry.write), entry.next.0 as usize);
        has(self.row(q, f, r), next)
    }

    // An entry that moves back, where the first automaton has read b last: the second reads that again, and
    // then the written symbol.
    fn fits_back(&self, q: usize, f: usize, r: Sym, entry: Entry, b: Sym) -> bool
        requires { HaveStates (unpacked_of self.now) q f entry }
        ensures { IsTrue result ↔ ((entry.dir ≡ self.now.side → ⊥)
            → ReachesIn (unpacked_of self.now) (row_at (unpacked_of self.now) (q * self.now.states + entry.next.0) b)
            entry.write (row_at (unpacked_of self.now) (target (unpacked_of self.now) q b * self.now.states + f) r)) }
    {
        if is_ahead(entry.dir, self.side) {
            return true;
        }
        let read = self.row(q, entry.next.0 as usize, b);
        self.reaches_in(read, entry.write, self.row(self.target(q, b), f, r))
    }

    // Whether what the members of a set reach by a symbol is in a row.
    fn reaches_in(&self, set: Set, s: Sym, row: Set) -> bool
        ensures { IsTrue result ↔ ReachesIn (unpacked_of self.now) set s row }
    {
        if !halts_in(set, row, self.last()) {
            return false;
        }
        is_part(
            union_over(self.rows(), set, symbol_number(s), self.last()),
            row,
        )
    }

    // The edges of (q, f) on a symbol.
    fn row(&self, q: usize, f: usize, r: Sym) -> Set
        requires first { q < self.now.size }
        requires second { f < self.now.states }
        ensures { result ≡ row_at (unpacked_of self.now) (q * self.now.states + f) r }
    {
        self.rows()[2 * self.number(q, f) + symbol_number(r)]
    }

    // The number of (q, f).
    fn number(&self, q: usize, f: usize) -> usize
        requires first { q < self.now.size }
        requires second { f < self.now.states }
        ensures number { result ≡ q * self.now.states + f }
        ensures below { result < last (unpacked_of self.now) }
        ensures limit { result < pair_limit }
    {
        q * self.states as usize + f
    }

    // Where the first automaton goes from q on a symbol.
    fn target(&self, q: usize, s: Sym) -> usize
        requires { q < self.now.size }
        ensures target { result ≡ target (unpacked_of self.now) q s }
        ensures below { result < self.now.size }
    {
        self.delta()[2 * q + symbol_number(s)] as usize
    }
}

// The number of a symbol.
pub(crate) fn symbol_number(s: Sym) -> usize
    ensures number { result ≡ symbol_number s }
    ensures limit { result ≤ 1 }
{
    s as usize
}

// Whether a move is ahead.
pub(crate) fn is_ahead(dir: Dir, side: Dir) -> bool
    ensures { IsTrue result ↔ (dir ≡ side) }
{
    match (dir, side) {
        (Dir::L, Dir::L) | (Dir::R, Dir::R) => true,
        (Dir::L, Dir::R) | (Dir::R, Dir::L) => false,
    }
}

// Whether the halt state, if it is in a set, is in a row too.
fn halts_in(set: Set, row: Set, last: usize) -> bool
    requires { last < word_bits }
    ensures { IsTrue result ↔ (IsTrue (has set last) → IsTrue (has row last)) }
{
    !has(set, last) || has(row, last)
}

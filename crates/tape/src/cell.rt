// A word of 64 cells, the lowest bit leftmost; the cells of a tape, word by word; and whether two tapes hold the same.
ghost use Rattle.std.specs.Prelude.{◌≡◌, ◌≢◌, ◌⊎◌, ℕ, ◌+◌, ◌<◌, ◌≤◌, ◌↔◌, ◌*◌, ◌^◌, length, sum_by, ◌-◌, pos, ◌+ℤ◌, ◌-ℤ◌, slice_index_or, IsTrue};
ghost use Rattle.std.specs.Int.{bit_at};
ghost use Rattle.law_turing.specs.Terms.{Beyond, cell_of};
ghost use Rattle.tape.specs.Cells.{bit_symbol};
ghost use Rattle.tape.specs.inside.{place_numbered, bit_ahead, HasCells, HasAllCells, IsLowest, word_ones};

use crate::tape::Tape;
use machine_text::{Dir, Sym};
use std::cmp::Ordering;

// The number of a place: places are numbered from the least `i64` on.
#[inline]
pub(crate) fn number_of(x: i64) -> u64
    ensures { place_numbered result ≡ x }
{
    x.abs_diff(i64::MIN)
}

// The symbol at a bit.
#[inline]
pub(crate) fn symbol_at(word: u64, bit: u32) -> Sym
    requires { bit < 64 }
    ensures { result ≡ bit_symbol (bit_at word bit) }
{
    if (word >> bit) & 1 == 0 {
        Sym::Zero
    } else {
        Sym::One
    }
}

// The word with a symbol at a bit, and all others as they are.
#[inline]
pub(crate) fn with_symbol(word: u64, bit: u32, s: Sym) -> u64
    requires { bit < 64 }
    ensures here { bit_symbol (bit_at result bit) ≡ s }
    ensures others { (i : ℕ) → i < 64 → i ≢ bit → bit_at result i ≡ bit_at word i }
{
    match s {
        Sym::Zero => word & !(1 << bit),
        Sym::One => word | (1 << bit),
    }
}

// Ones at the bits that are at or beyond a place on a side, in a word whose first place is so numbered.
pub(crate) fn beyond(side: Dir, from: i64, number: u64) -> u64
    ensures { (i : ℕ) → i < 64 → (bit_at result i ≡ 1) ↔ Beyond side from (place_numbered (number + i)) }
{
    let from = number_of(from);
    match side {
        Dir::L if from < number => 0,
        Dir::L => up_to((from - number).min(63) as u32),
        Dir::R => {
            let skipped = from.saturating_sub(number);
            if skipped < 64 { u64::MAX << skipped } else { 0 }
        }
    }
}

// Ones from the lowest bit to this one.
fn up_to(bit: u32) -> u64
    requires { bit < 64 }
    ensures { (i : ℕ) → i < 64 → (bit_at result i ≡ 1) ↔ (i < bit + 1) }
{
    u64::MAX >> (63 - bit)
}

// How many cells of a word hold the symbol of a bit's cell, from that one on towards a side.
pub(crate) fn alike(word: u64, bit: u32, dir: Dir) -> u32
    requires { bit < 64 }
    ensures some { 0 < result }
    ensures inside { HasCells dir bit result }
    ensures alike { (i : ℕ) → i < result → bit_at word (bit_ahead dir bit i) ≡ bit_at word bit }
    ensures all { HasAllCells dir bit result ⊎ (bit_at word (bit_ahead dir bit result) ≢ bit_at word bit) }
{
    let others = differing(word, bit);
    match dir {
        Dir::L => {
            let ahead = others & up_to(bit);
            if ahead == 0 {
                bit + 1
            } else {
                bit - ahead.ilog2()
            }
        }
        Dir::R => {
            let ahead = others >> bit;
            if ahead == 0 {
                64 - bit
            } else {
                ahead.trailing_zeros()
            }
        }
    }
}

// Ones at the bits that differ from one of them.
fn differing(word: u64, bit: u32) -> u64
    requires { bit < 64 }
    ensures { (i : ℕ) → i < 64 → (bit_at result i ≡ 0) ↔ (bit_at word i ≡ bit_at word bit) }
{
    match symbol_at(word, bit) {
        Sym::Zero => word,
        Sym::One => !word,
    }
}

// The word with a symbol in so many cells from a bit on towards a side, and all others as they are.
pub(crate) fn with_symbols(word: u64, bit: u32, dir: Dir, count: u32, s: Sym) -> u64
    requires bit { bit < 64 }
    requires some { 0 < count }
    requires inside { HasCells dir bit count }
    ensures here { (i : ℕ) → i < count → bit_symbol (bit_at result (bit_ahead dir bit i)) ≡ s }
    ensures others { (j : ℕ) → j < 64 → ((i : ℕ) → i < count → j ≢ bit_ahead dir bit i)
        → bit_at result j ≡ bit_at word j }
{
    let cells = up_to(count - 1) << lowest(bit, dir, count);
    match s {
        Sym::Zero => word & !cells,
        Sym::One => word | cells,
    }
}

// The leftmost of so many cells from a bit on towards a side.
fn lowest(bit: u32, dir: Dir, count: u32) -> u32
    requires bit { bit < 64 }
    requires inside { HasCells dir bit count }
    ensures { IsLowest dir bit count result }
{
    match dir {
        Dir::L => bit + 1 - count,
        Dir::R => bit,
    }
}

// The sixteen cells of a word from a bit on.
pub(crate) fn window_at(word: u64, low: u32) -> u64
    requires { low < 64 }
    ensures cells { (i : ℕ) → i < 16 → bit_at result i ≡ bit_at word (low + i) }
    ensures few { result < 65536 }
{
    (word >> low) & 65535
}

// The word with other sixteen cells from a bit on, and all others as they are.
pub(crate) fn with_window(word: u64, low: u32, cells: u64) -> u64
    requires low { low + 16 ≤ 64 }
    requires few { cells < 65536 }
    ensures here { (i : ℕ) → i < 16 → bit_at result (low + i) ≡ bit_at cells i }
    ensures others { (j : ℕ) → j < 64 → ((i : ℕ) → i < 16 → j ≢ low + i) → bit_at result j ≡ bit_at word j }
{
    (word & !(65535 << low)) | (cells << low)
}

impl Tape {
    ghost use Rattle.std.specs.FinSet as set;

    /// How many ones are on the tape. It looks at the visited cells, 64 of them at once, and takes no memory.
    pub fn ones(&self) -> u64
        ensures { result ≡ set.len self.now.ones }
    {
        ones_on(&self.left) + ones_in(self.word) + ones_on(&self.right)
    }
}

// How many ones the words of a side hold. The bound, which each side of a tape keeps, is for the sum to fit.
fn ones_on(side: &[u64]) -> u64
    requires { length side.now ≤ 2 ^ 57 + 1 }
    ensures ones { result ≡ sum_by word_ones side.now }
    ensures few { result ≤ 64 * length side.now }
{
    let mut ones = 0;
    for &word in side {
        ones += ones_in(word);
    }
    ones
}

// How many ones a word holds.
fn ones_in(word: u64) -> u64
    ensures ones { result ≡ word_ones word }
    ensures few { result ≤ 64 }
{
    word.count_ones() as u64
}

impl Tape {
    ghost use Rattle.tape.specs.Cells.{Holds};
    ghost use Rattle.tape.specs.inside.{place_numbered, IsReached, HasOnesWithin};

    /// The symbol at a place.
    pub fn cell(&self, x: i64) -> Sym
        ensures { result ≡ cell_of self.now.ones x }
    {
        let number = number_of(x);
        symbol_at(self.word_at(number / 64), (number % 64) as u32)
    }

    // The word so numbered. It is blank beyond the words that the tape has.
    pub(crate) fn word_at(&self, block: u64) -> u64
        ensures { Holds result self.now.ones (place_numbered (64 * block)) }
    {
        match block.cmp(&self.block) {
            Ordering::Less => at_distance(&self.left, self.block - block),
            Ordering::Equal => self.word,
            Ordering::Greater => at_distance(&self.right, block - self.block),
        }
    }

    // The 64 cells from the place so numbered on: the upper bits of one word and the lower ones of the next.
    fn word_from(&self, number: u64) -> u64
        ensures { Holds result self.now.ones (place_numbered number) }
    {
        let bit = (number % 64) as u32;
        let low = self.word_at(number / 64) >> bit;
        if bit == 0 {
            low
        } else {
            low | (self.word_at(number / 64 + 1) << (64 - bit))
        }
    }

    // The 64 cells from `shift` places to the right of the place so numbered on.
    pub(crate) fn word_shifted(&self, number: u64, shift: i64) -> u64
        ensures { Holds result self.now.ones (place_numbered number +ℤ shift) }
    {
        // Opens the invariant of the tape: its ones stand where heads can have come.
        let _ = &self.block;
        match number.checked_add_signed(shift) {
            Some(number) => self.word_from(number),
            None => 0,
        }
    }

    // The numbers of the first word and of the one after the last: all beyond them is blank.
    pub(crate) fn blocks(&self) -> (u64, u64)
        ensures reached { IsReached self.now.ones }
        ensures bound { result.1 < 2 ^ 58 }
        ensures all { HasOnesWithin self.now.ones (place_numbered (64 * result.0))
            (place_numbered (64 * result.1) -ℤ pos 1) }
    {
        let first = self.block - self.left.len() as u64;
        let end = self.block + self.right.len() as u64 + 1;
        (first, end)
    }
}

// The word so many words from the head's, on a side whose nearest word is the last.
fn at_distance(side: &[u64], distance: u64) -> u64
    requires { 0 < distance }
    ensures visited { distance ≤ length side.now → result ≡ slice_index_or side.now (length side.now - distance) 0 }
    ensures blank { length side.now < distance → result ≡ 0 }
{
    let distance = distance as usize;
    if distance <= side.len() {
        side[side.len() - distance]
    } else {
        0
    }
}

impl Tape {
    ghost use Rattle.tape.specs.Cells.{IsWithinLimit, SameBeyond};
    ghost use Rattle.tape.specs.inside.{OnesWithin, WordWithin, IsReached};

    /// Whether head and cells are those of another tape.
    pub fn same(&self, other: &Tape) -> bool
        ensures { IsTrue result ↔ (self.now ≡ other.now) }
    {
        self.head() == other.head()
            && self.same_half(other, 0, 0, Dir::L)
            && self.same_half(other, 0, 0, Dir::R)
    }

    /// Whether cell x of this tape equals cell x + `shift` of the other, for each x at or beyond `from`
    /// on a side. It takes time for the visited cells of both tapes alone, however large `shift` is.
    pub fn same_half(&self, other: &Tape, from: i64, shift: i64, side: Dir) -> bool
        requires from { IsWithinLimit from }
        requires shift { IsWithinLimit shift }
        ensures { IsTrue result ↔ SameBeyond side from shift self.now.ones other.now.ones }
    {
        self.ones_are_in(other, from, shift, side)
            && other.ones_are_in(self, from.saturating_add(shift), -shift, side)
    }

    // Whether each one of this tape at or beyond `from` on a side has a one of the other `shift` further
    // to the right.
    fn ones_are_in(&self, other: &Tape, from: i64, shift: i64, side: Dir) -> bool
        ensures ones { IsTrue result ↔ OnesWithin side from shift self.now.ones other.now.ones }
        ensures reached { IsReached self.now.ones }
    {
        let (first, end) = self.blocks();
        for block in first..end {
            if !self.word_is_in(other, block, from, shift, side) {
                return false;
            }
        }
        true
    }

    // Whether the ones of the word so numbered alone are in the other tape.
    fn word_is_in(&self, other: &Tape, block: u64, from: i64, shift: i64, side: Dir) -> bool
        requires { block < 2 ^ 58 }
        ensures { IsTrue result ↔ WordWithin side from shift block self.now.ones other.now.ones }
    {
        let number = 64 * block;
        let ones = self.word_at(block) & beyond(side, from, number);
        ones & !other.word_shifted(number, shift) == 0
    }
}

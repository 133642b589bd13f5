// Words of symbols, the longest repetitions among them, and symbols as blocks.
use crate::block::{Block, Times};
use crate::limits::{LEAST_COPIES, LONGEST_WORD};
use machine_text::Sym;
use std::alloc::AllocError as NoMemory;

// A word of up to 63 symbols, the first of them in the lowest bit.
#[derive(Clone, Copy, Debug, PartialEq, Eq)]
pub(crate) struct Word {
    length: u32,
    bits: u64,
}

impl Word {
    pub const EMPTY: Word = Word { length: 0, bits: 0 };

    // The word of one symbol.
    pub fn of(symbol: Sym) -> Word {
        Word {
            length: 1,
            bits: symbol as u64,
        }
    }

    // So many blanks, and no more than fit.
    pub fn blanks(count: u64) -> Word {
        Word {
            length: count.min(u64::from(LONGEST_WORD)) as u32,
            bits: 0,
        }
    }

    // How many symbols it has.
    pub fn length(self) -> u32 {
        self.length
    }

    // The words by their lengths, and those of a length in some order: 1 is that of no symbols, 2 and 3 have one.
    pub fn numbered(number: u64) -> Word {
        let mut word = Word::EMPTY;
        for place in 0..LONGEST_WORD {
            if number >> place.min(63) <= 1 {
                break;
            }
            word = Word {
                length: place.saturating_add(1),
                bits: number & lowest(place.saturating_add(1)),
            };
        }
        word
    }

    // The symbol at a place; a blank past the word's end.
    pub fn symbol(self, place: u32) -> Sym {
        if self.bits >> place.min(63) & 1 == 1 {
            Sym::One
        } else {
            Sym::Zero
        }
    }

    // With this symbol at a place of it.
    pub fn with(self, place: u32, symbol: Sym) -> Word {
        let bit = 1 << place.min(63);
        let bits = match symbol {
            Sym::Zero => self.bits & !bit,
            Sym::One => self.bits | bit,
        };
        Word { bits, ..self }
    }

    // With one more symbol behind it.
    pub fn pushed(self, symbol: Sym) -> Option<Word> {
        self.then(Word::of(symbol))
    }

    // With another one behind it.
    pub fn then(self, other: Word) -> Option<Word> {
        let length = self.length.saturating_add(other.length);
        if length > LONGEST_WORD {
            return None;
        }
        Some(Word {
            length,
            bits: self.bits | other.bits << self.length.min(63),
        })
    }

    // With another one put in at a place.
    pub fn with_word(self, place: u32, other: Word) -> Option<Word> {
        let rest = self.part(place, self.length.saturating_sub(place));
        self.part(0, place).then(other)?.then(rest)
    }

    // So many symbols of it, from a place on.
    pub fn part(self, start: u32, length: u32) -> Word {
        Word {
            length: length.min(LONGEST_WORD),
            bits: self.bits >> start.min(63) & lowest(length),
        }
    }

    // The word so many times, one behind another.
    pub fn power(self, copies: u64) -> Option<Word> {
        if copies > u64::from(LONGEST_WORD) {
            return None;
        }
        let mut whole = Word::EMPTY;
        for _ in 0..copies {
            whole = whole.then(self)?;
        }
        Some(whole)
    }

    // So many of its first symbols come last.
    pub fn turned(self, count: u32) -> Word {
        let rest = self.part(count, self.length.saturating_sub(count));
        match rest.then(self.part(0, count.min(self.length))) {
            Some(word) => word,
            None => self,
        }
    }

    // The shortest word that it repeats.
    pub fn root(self) -> Word {
        for period in 1..self.length {
            if self.repeats(period) {
                return self.part(0, period);
            }
        }
        self
    }

    // Whether it is its first symbols, so many, again and again.
    fn repeats(self, period: u32) -> bool {
        if period == 0 || period > self.length || self.length % period != 0 {
            return false;
        }
        (self.bits >> period.min(63) ^ self.bits) & lowest(self.length - period) == 0
    }

    // How often it is the other one.
    pub fn copies_of(self, other: Word) -> Option<u64> {
        if other.length == 0 || !self.repeats(other.length) {
            return None;
        }
        if self.part(0, other.length) != other {
            return None;
        }
        Some(u64::from(self.length / other.length))
    }

    // With its symbols in the other order.
    pub fn reversed(self) -> Word {
        Word {
            length: self.length,
            bits: self.bits.reverse_bits() >> 64u32.saturating_sub(self.length).min(63),
        }
    }

    // How many symbols are the same from the first on.
    pub fn agreement(self, other: Word) -> u32 {
        let same = (self.bits ^ other.bits).trailing_zeros();
        same.min(self.length).min(other.length)
    }

    // Whether the other one is this one, with something put in.
    pub fn may_grow_to(self, other: Word) -> bool {
        let first = self.agreement(other);
        let last = self.reversed().agreement(other.reversed());
        first.saturating_add(last) >= self.length
    }

    // A number that says which word it is.
    pub fn number(self) -> u64 {
        self.bits
            .wrapping_mul(64)
            .wrapping_add(u64::from(self.length))
    }

    // Whether all its symbols are blanks.
    pub fn is_blank(self) -> bool {
        self.bits == 0
    }
}

// So many of the lowest bits.
fn lowest(count: u32) -> u64 {
    if count > 63 {
        u64::MAX
    } else {
        !(u64::MAX << count)
    }
}

// A repetition: how long its word is, and how often it is there.
#[derive(Clone, Copy, Debug, PartialEq, Eq)]
struct Repetition {
    length: usize,
    copies: usize,
}

impl Repetition {
    fn symbols(self) -> usize {
        self.length.saturating_mul(self.copies)
    }
}

// Symbols as blocks, in their order, in the place of what stood in the list: at each place the longest repetition of a word
// of up to so many symbols, at least `LEAST_COPIES` times, or else a symbol by itself.
pub(crate) fn list_blocks(
    symbols: &[Sym],
    longest: usize,
    blocks: &mut Vec<Block>,
) -> Result<(), NoMemory> {
    blocks.clear();
    let mut at = 0usize;
    for _ in 0..symbols.len() {
        let Some(symbol) = symbols.get(at) else {
            return Ok(());
        };
        let best = longest_repetition(symbols, at, longest);
        match word_at(symbols, at, best.length) {
            Some(word) if best.copies > 0 => {
                blocks.push(Block {
                    word,
                    times: Times::of(best.copies as u64),
                })?;
                at = at.saturating_add(best.symbols());
            }
            _ => {
                blocks.push(Block::symbol(*symbol))?;
                at = at.saturating_add(1);
            }
        }
    }
    Ok(())
}

// The repetition at a place with the most symbols, of the shortest word; none is one with no copies.
fn longest_repetition(symbols: &[Sym], at: usize, longest: usize) -> Repetition {
    let mut best = Repetition {
        length: 0,
        copies: 0,
    };
    for length in 1..=longest {
        let end = length.saturating_mul(LEAST_COPIES).saturating_add(at);
        if end > symbols.len() {
            return best;
        }
        let found = Repetition {
            length,
            copies: (repeated(symbols, at, length) / length).saturating_add(1),
        };
        if found.copies >= LEAST_COPIES && found.symbols() > best.symbols() {
            best = found;
        }
    }
    best
}

// How many symbols from a place on are followed, so many places later, by the same one.
fn repeated(symbols: &[Sym], at: usize, length: usize) -> usize {
    let Some(first) = symbols.get(at..) else {
        return 0;
    };
    let Some(later) = first.get(length..) else {
        return 0;
    };
    let mut same = 0usize;
    for (a, b) in first.iter().zip(later.iter()) {
        if *a != *b {
            break;
        }
        same = same.saturating_add(1);
    }
    same
}

// The word of so many symbols at a place.
fn word_at(symbols: &[Sym], at: usize, length: usize) -> Option<Word> {
    let mut word = Word::EMPTY;
    for symbol in symbols.iter().skip(at).take(length) {
        word = word.pushed(*symbol)?;
    }
    Some(word)
}

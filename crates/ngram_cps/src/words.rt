// Words and local configurations as numbers, and what a move makes of them.
ghost use Rattle.std.specs.Prelude.{◌≤◌, ◌≡◌, ◌<◌, length};
ghost use Rattle.std.specs.Iterator.{at_most};
ghost use Rattle.ngram_cps.specs.Limits.{width_limit};
ghost use Rattle.machine_text.specs.Terms.{state_limit};

use crate::limits::MAX_WIDTH;
use machine_text::{Dir, State, Sym};

// How many words of the greatest width there are.
pub(crate) const WORD_COUNT: usize = 256;

// The width of words that are numbers: their symbols are the binary digits, as they stand on the tape, the
// rightmost the lowest. So their order is that of their texts.
//
// In a move both words about the head lose the symbol at the end from which it moves away, and get one at the
// end to which it moves: the word behind the written one, the word ahead the one that comes into view.
#[derive(Clone, Copy)]
pub(crate) struct Width {
    pub symbols: u8,
    ghost limits: { (1 ≤ symbols) × (symbols ≤ width_limit) },
}

impl Width {
    // The word of ones, the greatest.
    pub fn greatest(self) -> u8 {
        u8::MAX >> (MAX_WIDTH - self.symbols)
    }

    // The symbol at an end of a word.
    pub fn end(self, word: u8, end: Dir) -> Sym {
        let lowest = match end {
            Dir::L => word >> (self.symbols - 1),
            Dir::R => word,
        };
        if lowest & 1 == 0 { Sym::Zero } else { Sym::One }
    }

    // A word without the symbol at an end.
    pub fn without(self, word: u8, end: Dir) -> u8 {
        match end {
            Dir::L => word & !(1 << (self.symbols - 1)),
            Dir::R => word >> 1,
        }
    }

    // What is left of a word, with a symbol at an end.
    pub fn with(self, rest: u8, end: Dir, symbol: Sym) -> u8 {
        match end {
            Dir::L => rest | ((symbol as u8) << (self.symbols - 1)),
            Dir::R => rest << 1 | symbol as u8,
        }
    }
}

// The other direction.
pub(crate) fn opposite(dir: Dir) -> Dir {
    match dir {
        Dir::L => Dir::R,
        Dir::R => Dir::L,
    }
}

// What stands around a head that has moved to a side: the word behind it, and the word ahead but for the
// symbol at its far end. There is a member for each such symbol with which the word may stand there.
#[derive(Clone, Copy)]
pub(crate) struct Arrival {
    pub state: State,
    pub read: Sym,
    pub behind: u8,
    pub rest: u8,
    ghost small: { state.0 < state_limit },
}

impl Arrival {
    // The member with this word on the side to which the head has moved.
    pub fn member(self, side: Dir, ahead: u8) -> Member {
        let (left, right) = match side {
            Dir::L => (ahead, self.behind),
            Dir::R => (self.behind, ahead),
        };
        Member {
            left,
            state: self.state,
            read: self.read,
            right,
        }
    }
}

// An arrival, and the place of the one before it with the same rest of a word ahead.
#[derive(Clone, Copy)]
pub(crate) struct Link {
    pub arrival: Arrival,
    pub earlier: Option<usize>,
}

// The arrivals with one rest of a word ahead, the last first. Each stands before the one that leads to it.
#[derive(Drop)]
pub(crate) struct Chain<'a> {
    pub links: &'a [Link],
    pub last: Option<usize>,
}

impl<'a> Iterator for Chain<'a> {
    type Item = Arrival;

    ghost remaining = { λ s. at_most (length s.links.now) };

    fn next(&mut self) -> Option<Arrival> {
        let place = self.last?;
        let link = self.links.get(place)?;
        self.links = &self.links[..place];
        self.last = link.earlier;
        Some(link.arrival)
    }
}

// What stands around a head. The fields are in the order of the text, so members are ordered as their texts.
#[derive(Clone, Copy, PartialEq, Eq, PartialOrd, Ord)]
pub(crate) struct Member {
    pub left: u8,
    pub state: State,
    pub read: Sym,
    pub right: u8,
    ghost small: { state.0 < state_limit },
}

impl Member {
    // State A on the blank tape.
    pub fn blank() -> Member {
        Member {
            left: 0,
            state: State(0),
            read: Sym::Zero,
            right: 0,
        }
    }

    // The word behind a head that moves in a direction, and the one ahead of it.
    pub fn words(self, dir: Dir) -> (u8, u8) {
        match dir {
            Dir::L => (self.right, self.left),
            Dir::R => (self.left, self.right),
        }
    }

    // A number that no other member has. Those of narrow words are small.
    pub fn number(self) -> usize {
        let pair = 2 * self.state.0 as usize + self.read as usize;
        256 * (16 * self.left as usize + pair) + self.right as usize
    }
}

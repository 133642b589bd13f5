// First automata whose states are words, and which words are tried.
use machine_text::Sym;

// One of its states.
#[derive(Clone, Copy, Debug, PartialEq, Eq, PartialOrd, Ord)]
pub(crate) enum FirstState {
    // what was read last
    Word(Word),
    // a class of states that do the same, by its number
    Class(u32),
}

pub(crate) trait FirstAutomaton {
    // The state of a half tape that is blank.
    fn start(&self) -> FirstState;

    // Where it goes from a state on a symbol; none where that isn't to be.
    fn push(&self, state: FirstState, symbol: Sym) -> Option<FirstState>;
}

/// How the half tape behind the head is read. A state is the word of the last symbols, of at most `length`, and whether
/// all beyond it is blank. Where the last symbols have a period p from `least` to `greatest` over (`times` + 1) p symbols,
/// the last p of them are dropped; of a word that is too long the oldest symbol is.
#[derive(Clone, Copy, Debug, PartialEq, Eq)]
pub struct Words {
    /// The least period that is looked for; 0 is none.
    pub least: u8,
    /// The greatest one.
    pub greatest: u8,
    /// How often a period is kept.
    pub times: u8,
    /// The most symbols of a word: 63, whatever stands here.
    pub length: u8,
}

// The last symbols that were read, the latest in the lowest bit; and whether all beyond them is blank.
#[derive(Clone, Copy, Debug, PartialEq, Eq, PartialOrd, Ord)]
pub(crate) struct Word {
    bits: u64,
    len: u8,
    blank: bool,
}

impl Word {
    // Nothing but blanks.
    pub const EMPTY: Word = Word {
        bits: 0,
        len: 0,
        blank: true,
    };

    // With one more symbol.
    fn longer(self, symbol: Sym) -> Word {
        Word {
            bits: self.bits << 1 | u64::from(symbol == Sym::One),
            len: self.len.saturating_add(1),
            blank: self.blank,
        }
    }

    // Whether its last symbols have a period so many times and once more.
    fn repeats(self, period: u8, times: u8) -> bool {
        let held = u16::from(period) * u16::from(times);
        if period == 0 || held > 63 || held + u16::from(period) > u16::from(self.len) {
            return false;
        }
        (self.bits >> period.min(63) ^ self.bits) & lowest(held as u8) == 0
    }

    // Without its last symbols.
    fn without_last(self, count: u8) -> Word {
        Word {
            bits: self.bits >> count.min(63),
            len: self.len.saturating_sub(count),
            blank: self.blank,
        }
    }

    // The last symbols of a word, where there are more than so many.
    fn last(self, count: u8) -> Word {
        if self.len <= count {
            return self;
        }
        Word {
            bits: self.bits & lowest(count),
            len: count,
            blank: false,
        }
    }
}

impl FirstAutomaton for Words {
    fn start(&self) -> FirstState {
        FirstState::Word(Word::EMPTY)
    }

    fn push(&self, state: FirstState, symbol: Sym) -> Option<FirstState> {
        let FirstState::Word(word) = state else {
            return None;
        };
        if word == Word::EMPTY && symbol == Sym::Zero {
            return Some(state);
        }
        let shrunk = self.shrunk(word.longer(symbol));
        Some(FirstState::Word(shrunk.last(self.length.min(63))))
    }
}

impl Words {
    // Without one period, where the word ends with a repetition.
    fn shrunk(&self, word: Word) -> Word {
        for period in self.least..=self.greatest {
            if word.repeats(period, self.times) {
                return word.without_last(period);
            }
        }
        word
    }
}

// So many of the lowest bits.
fn lowest(count: u8) -> u64 {
    if count > 63 {
        u64::MAX
    } else {
        !(u64::MAX << count)
    }
}

/// How large the automata may grow.
#[derive(Clone, Copy, Debug, PartialEq, Eq)]
pub struct Room {
    /// The most states of the first one.
    pub states: usize,
    /// The most edges of the second, and the most of what waits for edges.
    pub edges: usize,
}

/// Words for the first automaton, and where a try with them ends.
#[derive(Clone, Copy, Debug, PartialEq, Eq)]
pub struct WordStage {
    /// The words.
    pub words: Words,
    /// The room on each side.
    pub room: Room,
}

/// The room of stages that settle many tables at once.
pub const SMALL_ROOM: Room = Room {
    states: 2_000,
    edges: 10_000,
};

/// The room of the others.
pub const LARGE_ROOM: Room = Room {
    states: 5_000,
    edges: 30_000,
};

// The least and the greatest period, how often it is kept, the longest word, and the room.
macro_rules! stage {
    ($least:literal, $greatest:literal, $times:literal, $length:literal, $room:ident) => {
        WordStage {
            words: Words {
                least: $least,
                greatest: $greatest,
                times: $times,
                length: $length,
            },
            room: $room,
        }
    };
}

/// The stages: each is tried on what the ones before it leave.
pub const WORD_STAGES: [WordStage; 11] = [
    stage!(4, 4, 2, 14, SMALL_ROOM),
    stage!(6, 6, 1, 13, SMALL_ROOM),
    stage!(12, 12, 1, 24, SMALL_ROOM),
    stage!(4, 8, 3, 32, LARGE_ROOM),
    stage!(8, 8, 1, 18, LARGE_ROOM),
    stage!(12, 12, 2, 40, LARGE_ROOM),
    stage!(7, 7, 2, 24, LARGE_ROOM),
    stage!(9, 9, 1, 20, LARGE_ROOM),
    stage!(10, 10, 1, 24, LARGE_ROOM),
    stage!(3, 6, 3, 24, LARGE_ROOM),
    stage!(24, 24, 1, 48, LARGE_ROOM),
];

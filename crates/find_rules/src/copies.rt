// What a table does to copies of a word, where each copy more takes longer by a factor: so counters count.
use crate::limits::{COUNTED_COPIES, COUNTED_STEPS, WORDS_BEHIND, WORDS_BEYOND, WORDS_COUNTED};
use crate::words::Word;
use machine_text::{Dir, State, Table};

// The steps may seem to become so many times too many.
const SLACK: u64 = 2;

// The head at the near end of copies of a word, some symbols behind it, and some beyond the copies; all words are read
// from the head on.
#[derive(Clone, Copy, Debug, PartialEq, Eq)]
pub(crate) struct Start {
    pub state: State,
    pub side: Dir,
    pub word: Word,
    pub behind: Word,
    pub beyond: Word,
}

// How the head leaves all these cells, which are read from the symbols behind to those beyond.
#[derive(Clone, Copy, Debug, PartialEq, Eq)]
struct Exit {
    state: State,
    is_far: bool,
    cells: Word,
    steps: u64,
}

impl Exit {
    // Whether another one is in the same way, at another time.
    fn is_like(&self, other: &Exit) -> bool {
        self.state == other.state && self.is_far == other.is_far && self.steps != other.steps
    }

    // Whether what is left becomes longer by something in one place, and the last exit may come in time, if the steps
    // go on to grow by the same factor.
    fn may_lead_to(&self, next: &Exit, place: usize) -> bool {
        let mut expected = next.steps;
        for _ in place.saturating_add(1)..COUNTED_COPIES {
            expected = expected.saturating_mul(next.steps) / self.steps.max(1);
        }
        expected <= COUNTED_STEPS * SLACK && self.cells.may_grow_to(next.cells)
    }
}

// How the head leaves n copies for each n from 2 on: a word stands n - 2 times between two others then.
#[derive(Clone, Copy, Debug, PartialEq, Eq)]
pub(crate) struct Passage {
    pub state: State,
    pub is_far: bool,
    pub first: Word,
    pub word: Word,
    pub last: Word,
}

// How many starts a table of so many states has.
pub(crate) fn count_starts(states: u8) -> u64 {
    u64::from(states) * (2 * WORDS_COUNTED * WORDS_BEHIND * WORDS_BEYOND)
}

impl Start {
    // One of these starts: those with fewer symbols come first.
    pub fn numbered(number: u64, states: u8) -> Start {
        let states = u64::from(states).max(1);
        let side = if number % 2 == 0 { Dir::L } else { Dir::R };
        let (rest, state) = (number / 2 / states, number / 2 % states);
        let (rest, beyond) = (rest / WORDS_BEYOND, rest % WORDS_BEYOND);
        let (word, behind) = (rest / WORDS_BEHIND, rest % WORDS_BEHIND);
        Start {
            state: State(state as u8),
            side,
            // The word of no symbols has the number 1.
            word: Word::numbered(word.saturating_add(2)),
            behind: Word::numbered(behind.saturating_add(1)),
            beyond: Word::numbered(beyond.saturating_add(1)),
        }
    }

    // How the head leaves all numbers of copies, as far as it is seen, if it does so alike and ever later.
    pub fn passage(&self, t: &Table) -> Option<Passage> {
        let mut before = self.exit(t, 1)?;
        let mut exits = [before; COUNTED_COPIES];
        for (place, exit) in exits.iter_mut().enumerate().skip(1) {
            let now = self.exit(t, (place as u64).saturating_add(1))?;
            if !before.is_like(&now) || place > 1 && !before.may_lead_to(&now, place) {
                return None;
            }
            before = now;
            *exit = now;
        }
        if !is_counting(&exits) {
            return None;
        }
        self.pattern(&exits)
    }

    // How the head leaves so many copies.
    fn exit(&self, t: &Table, copies: u64) -> Option<Exit> {
        let copied = self.word.power(copies)?;
        let mut cells = self.behind.reversed().then(copied)?.then(self.beyond)?;
        let mut at = self.behind.length();
        let mut state = self.state;
        for steps in 0..COUNTED_STEPS {
            if state.0 >= t.states() {
                return None;
            }
            let entry = t.get(state, cells.symbol(at))?;
            cells = cells.with(at, entry.write);
            state = entry.next;
            let is_far = entry.dir == self.side;
            let next = if is_far {
                Some(at.saturating_add(1))
            } else {
                at.checked_sub(1)
            };
            match next {
                Some(next) if next < cells.length() => at = next,
                _ => {
                    return Some(Exit {
                        state,
                        is_far,
                        cells,
                        steps,
                    });
                }
            }
        }
        None
    }

    // What is left, where each copy more puts the same word at the same place.
    fn pattern(&self, exits: &[Exit; COUNTED_COPIES]) -> Option<Passage> {
        let [_, two, three, ..] = exits;
        let (state, is_far, left) = (two.state, two.is_far, two.cells);
        for place in 0..=left.length() {
            let word = three.cells.part(place, self.word.length());
            let is_put = exits.iter().skip(1).zip(exits.iter().skip(2)).all(|(before, now)| before
                .cells
                .with_word(place, word)
                == Some(now.cells));
            if is_put {
                return Some(Passage {
                    state,
                    is_far,
                    first: left.part(0, place),
                    word,
                    last: left.part(place, left.length().saturating_sub(place)),
                });
            }
        }
        None
    }

    // Whether another start is this one with more symbols, at the end that the head doesn't leave.
    pub fn covers(&self, is_far: bool, other: &Start) -> bool {
        let is_same_end = if is_far {
            self.beyond == other.beyond
        } else {
            self.behind == other.behind
        };
        is_same_end
            && self.state == other.state
            && self.side == other.side
            && self.word == other.word
            && self.behind.agreement(other.behind) == self.behind.length()
            && self.beyond.agreement(other.beyond) == self.beyond.length()
    }
}

// Whether the time grows by a factor with each copy, as far as it is seen.
fn is_counting(exits: &[Exit; COUNTED_COPIES]) -> bool {
    let [.., three, four, five, six] = exits;
    let first = four.steps.saturating_sub(three.steps);
    let second = five.steps.saturating_sub(four.steps);
    let third = six.steps.saturating_sub(five.steps);
    let least = third.saturating_mul(10);
    second.saturating_mul(10) > first.saturating_mul(13)
        && least > second.saturating_mul(13)
        && least > first.saturating_mul(17)
}

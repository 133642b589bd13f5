// The first automaton in the making: the transitions that were decided, and the table as one side sees it.
ghost use Rattle.std.specs.Prelude.{◌<◌, IfSome, ◌≡◌, ◌≤◌, ℕ, slice_index};

use crate::automata_search::Automaton;
use crate::edges::NodePairs;
use crate::limits::{MAX_MOVES, MAX_SIZE, WIDTH, nodes_of, symbol_of};
use machine_text::{Dir, Entry, State, Sym, Table};

// How many pairs of a state and a symbol there may be, numbered 2 * state + symbol.
pub(crate) const MAX_PAIRS: usize = 2 * WIDTH;

// What the table does at a pair: whether the head goes ahead, what it writes, and the next state.
#[derive(Clone, Copy)]
pub(crate) struct Step {
    pub ahead: bool,
    pub write: Sym,
    pub next: u8,
    ghost small: { next < 8 },
}

// The pairs as they are for one side, and the nodes of those of each kind.
#[derive(Clone, Copy)]
pub(crate) struct SidedTable {
    // by the number of the pair
    pub steps: [Option<Step>; MAX_PAIRS],
    // where the table halts
    pub halting: NodePairs,
    // where the head goes back
    pub returning: NodePairs,
    // where it writes a blank and goes ahead
    pub pushing_zero: NodePairs,
    // where it writes a one and goes ahead
    pub pushing_one: NodePairs,
}

impl SidedTable {
    pub fn new(table: &Table, side: Dir) -> SidedTable {
        let mut sided = SidedTable {
            steps: [None; MAX_PAIRS],
            halting: NodePairs::NONE,
            returning: NodePairs::NONE,
            pushing_zero: NodePairs::NONE,
            pushing_one: NodePairs::NONE,
        };
        for pair in 0..2 * table.states() {
            let state = State(pair / 2);
            let read = symbol_of(pair as usize % 2);
            sided.set(state, read, table.get(state, read), side);
        }
        sided
    }

    // Sets what stands at a pair.
    fn set(&mut self, state: State, read: Sym, entry: Option<Entry>, side: Dir)
        requires state { state.0 < 8 }
        requires next { IfSome entry (λ e. e.next.0 < 8) }
    {
        let nodes = nodes_of(state);
        let Some(entry) = entry else {
            self.halting.add(read, nodes);
            return;
        };
        let ahead = entry.dir == side;
        self.steps[2 * state.0 as usize + read as usize] = Some(Step {
            ahead,
            write: entry.write,
            next: entry.next.0,
        });
        if !ahead {
            self.returning.add(read, nodes);
        } else if entry.write == Sym::Zero {
            self.pushing_zero.add(read, nodes);
        } else {
            self.pushing_one.add(read, nodes);
        }
    }

    // Where the head writes a symbol and goes ahead.
    pub fn pushing(&self, symbol: Sym) -> &NodePairs {
        match symbol {
            Sym::Zero => &self.pushing_zero,
            Sym::One => &self.pushing_one,
        }
    }
}

// A set of transitions, or of states, a bit for each.
pub(crate) type Bits = u32;

// The states are named by numbers, as they are reached. Each has a word by which it was reached first, the last
// symbol in its lowest bit.
#[derive(Clone, Copy)]
pub(crate) struct Transitions {
    named: u8,
    // those that are there
    decided: Bits,
    // those that lead to each state
    sources: [Bits; MAX_SIZE as usize],
    words: [Bits; MAX_SIZE as usize],
    ghost some: { (1 ≤ named) × (named ≤ 16) },
}

impl Transitions {
    // One state, which is left by no symbol but the blank, and then for itself.
    pub const START: Transitions = Transitions {
        named: 1,
        decided: 1,
        sources: [1, 0, 0, 0, 0, 0, 0, 0, 0, 0, 0, 0, 0, 0, 0, 0],
        words: [0; MAX_SIZE as usize],
    };

    // How many states are named.
    pub fn named(&self) -> u8
        ensures named { result ≡ self.now.named }
        ensures some { 1 ≤ result }
        ensures most { result ≤ 16 }
    {
        self.named
    }

    // The transitions that lead to a state.
    pub fn sources(&self, q: usize) -> Bits
        requires { q < 16 }
    {
        self.sources[q]
    }

    // Whether a transition is there.
    pub fn is_decided(&self, number: usize) -> bool
        requires { number < 32 }
    {
        (self.decided >> number) & 1 == 1
    }

    // Whether all transitions of the named states are there.
    pub fn are_all_decided(&self) -> bool {
        self.decided.count_ones() >= 2 * u32::from(self.named)
    }

    // The targets that a transition may have, where so many states may be named: the named ones and the next one.
    pub fn targets(&self, limit: u8) -> Bits {
        if self.named < limit && self.named < MAX_SIZE {
            low_bits(self.named + 1)
        } else {
            low_bits(self.named)
        }
    }

    // Which of some targets a transition should try first: a state that isn't named yet, and then the one whose
    // word has the longest suffix in common with the word that ends by this transition.
    pub fn best_target(&self, number: usize, among: Bits) -> Option<u8>
        requires { number < 32 }
        ensures { IfSome result (λ q. q < 16) }
    {
        if self.named < MAX_SIZE && has_bit(among, self.named) {
            return Some(self.named);
        }
        let word = self.word_after(number);
        let mut best = None;
        let mut longest = 0;
        for q in 0..self.named {
            let common = (self.words[q as usize] ^ word).trailing_zeros();
            if has_bit(among, q) && (best.is_none() || common > longest) {
                best = Some(q);
                longest = common;
            }
        }
        best
    }

    // Gives a transition its target, which is named by that if it wasn't yet.
    pub fn decide(&mut self, number: usize, target: u8)
        requires number { number < 32 }
        requires target { target < 16 }
    {
        if target >= self.named {
            self.words[target as usize] = self.word_after(number);
            self.sources[target as usize] = 0;
            self.named = target + 1;
        }
        self.sources[target as usize] |= 1 << number;
        self.decided |= 1 << number;
    }

    // The word of the state that it leaves, and its symbol.
    fn word_after(&self, number: usize) -> Bits
        requires { number < 32 }
    {
        (self.words[number / 2] << 1) | (number % 2) as Bits
    }

    // The automaton with these transitions, and the others to one more state, if there are others and it may have so
    // many states.
    pub fn automaton(&self, side: Dir, most_states: u8) -> Option<Automaton>
        ensures size { IfSome result (λ a. a.size ≤ most_states) }
    {
        let size = if self.are_all_decided() {
            self.named
        } else {
            self.named + 1
        };
        if size > most_states.min(MAX_SIZE) {
            return None;
        }
        Some(Automaton {
            side,
            size,
            delta: self.delta(size),
        })
    }

    // All transitions of an automaton of this size, those that aren't there to its last state.
    fn delta(&self, size: u8) -> [u8; MAX_MOVES]
        requires some { 1 ≤ size }
        requires most { size ≤ 16 }
        requires named { self.now.named ≤ size }
        ensures states { (k : ℕ) → slice_index result k < size }
        ensures blank { slice_index result 0 ≡ 0 }
    {
        let mut delta = [0; MAX_MOVES];
        for number in 1..2 * size {
            delta[number as usize] = self.target(number).unwrap_or(size - 1);
        }
        delta
    }

    // Where a transition goes.
    fn target(&self, number: u8) -> Option<u8>
        requires { number < 32 }
        ensures { IfSome result (λ q. q < self.now.named) }
    {
        for q in 0..self.named {
            if (self.sources[q as usize] >> number) & 1 == 1 {
                return Some(q);
            }
        }
        None
    }
}

// A bit for each number below this one.
fn low_bits(count: u8) -> Bits
    requires { count < 32 }
{
    (1 << count) - 1
}

// Whether a number is in a set.
fn has_bit(set: Bits, number: u8) -> bool
    requires { number < 32 }
{
    (set >> number) & 1 == 1
}

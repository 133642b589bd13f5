// The share of a tree that is settled, as Knuth estimates the size of trees (1975).
ghost use Rattle.std.specs.Prelude.{◌≤◌, ◌<◌};

use kind_evidence::NoMemory;
use ledger::Board;
use machine_text::{Entry, MAX_STATES, State, Sym, Table};
use run::{MAX_RUN_STEPS, Runner};
use std::alloc::Global;
use tnf::used;

/// A table on the way from a root: which of its pairs have entries, and how many states it uses.
#[derive(Drop)]
pub(crate) struct Way {
    states: u8,
    used: u8,
    undefined: u8,
    defined: [[bool; 2]; MAX_STATES as usize],
}

impl Way {
    /// The way's first table.
    pub fn from(root: &Table) -> Way {
        let mut defined = [[false; 2]; MAX_STATES as usize];
        for q in 0..root.states() {
            for symbol in [Sym::Zero, Sym::One] {
                if let Some(pairs) = defined.get_mut(usize::from(q)) {
                    pairs[place_of(symbol)] = root.get(State(q), symbol).is_some();
                }
            }
        }
        Way {
            states: root.states(),
            used: used(root),
            undefined: root.undefined_count(),
            defined,
        }
    }

    /// Whether it has an entry at a pair.
    pub fn has(&self, state: State, symbol: Sym) -> bool {
        match self.defined.get(usize::from(state.0)) {
            Some(pairs) => pairs[place_of(symbol)],
            None => true,
        }
    }

    /// How many pairs have none.
    pub fn undefined(&self) -> u8 {
        self.undefined
    }

    /// How many children it has, if it halts on a pair without an entry: one at least.
    pub fn child_count(&self) -> u64
        ensures { 1 ≤ result }
    {
        let targets = u64::from(self.states.min(self.used.saturating_add(1)));
        let ways = if self.undefined / 2 == self.states {
            2
        } else {
            4
        };
        (ways * targets).max(1)
    }

    /// Goes on to the child with this entry.
    pub fn go(&mut self, state: State, symbol: Sym, entry: Entry) {
        if let Some(pairs) = self.defined.get_mut(usize::from(state.0)) {
            pairs[place_of(symbol)] = true;
        }
        self.undefined = self.undefined.saturating_sub(1);
        self.used = self.used.max(entry.next.0.saturating_add(1));
    }
}

fn place_of(symbol: Sym) -> usize
    ensures { result < 2 }
{
    match symbol {
        Sym::Zero => 0,
        Sym::One => 1,
    }
}

/// What a root weighs.
pub(crate) const WHOLE: u64 = 1 << 60;

// Of the open tables with equally many missing entries so many are weighed, or some more; where there are twice as many, every
// second one, and so on. Tables with many missing entries are heavy and few, and so each of them is weighed.
const SAMPLE: u64 = 4_096;

// One more than the most entries that a table misses.
const MISSING_COUNTS: usize = 2 * MAX_STATES as usize + 1;

// The most steps in which it is looked for the order in which a table's entries came.
const MAX_STEPS: u64 = 1_000;

/// What the open tables of a board weigh together.
pub(crate) fn open_weight(alloc: Global, board: &Board) -> Result<u64, NoMemory> {
    let root = board.root();
    let counts = open_counts(board);
    let mut seen = [0_u64; MISSING_COUNTS];
    let mut runner = Runner::new(alloc, *root)?;
    let mut weight: u64 = 0;
    for t in board.open() {
        let missing = missing_in(t);
        let stride = counts[missing] / SAMPLE + 1;
        if seen[missing] % stride == 0 {
            let weighed = weight_of(&mut runner, root, t)?;
            weight = weight.saturating_add(weighed.saturating_mul(stride));
        }
        seen[missing] = seen[missing].wrapping_add(1);
    }
    Ok(weight.min(WHOLE))
}

/// What tables of the tree of a root weigh together.
pub(crate) fn ahead_weight(alloc: Global, root: &Table, ahead: &[Table]) -> Result<u64, NoMemory> {
    let mut runner = Runner::new(alloc, *root)?;
    let mut weight: u64 = 0;
    for t in ahead {
        weight = weight.saturating_add(weight_of(&mut runner, root, t)?);
    }
    Ok(weight.min(WHOLE))
}

// How many open tables of a board there are, by how many entries they miss.
fn open_counts(board: &Board) -> [u64; MISSING_COUNTS] {
    let mut counts = [0; MISSING_COUNTS];
    for t in board.open() {
        let missing = missing_in(t);
        counts[missing] = u64::saturating_add(counts[missing], 1);
    }
    counts
}

fn missing_in(t: &Table) -> usize
    ensures { result < 15 }
{
    usize::from(t.undefined_count()).min(MISSING_COUNTS - 1)
}

// What a table of a root's tree weighs: by how many children each table had on the way to it.
fn weight_of(runner: &mut Runner, root: &Table, t: &Table) -> Result<u64, NoMemory> {
    let mut way = Way::from(root);
    let mut weight = WHOLE;
    runner.restart(*t);
    for _ in 0..MAX_STEPS {
        let (state, symbol) = (runner.state(), runner.tape().read());
        if state.0 >= t.states() || runner.steps() >= MAX_RUN_STEPS {
            break;
        }
        let Some(entry) = t.get(state, symbol) else {
            break;
        };
        if !way.has(state, symbol) {
            weight /= way.child_count();
            way.go(state, symbol, entry);
        }
        runner.step()?;
    }
    // In which order the others came wasn't seen.
    for _ in t.undefined_count()..way.undefined() {
        weight /= way.child_count();
    }
    Ok(weight)
}

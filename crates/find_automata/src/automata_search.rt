// The search for automata, depth first: how far it goes, its levels, and what it finds.
ghost use Rattle.std.specs.Prelude.{◌≡◌, ◌*◌, ◌<◌, ◌≤◌, ℕ, slice_index, IfSome, ◌+◌, ◌^◌, length, vec_len};
ghost use Rattle.find_automata.specs.Limits.{largest_size};

use crate::edges::Edges;
use crate::limits::{MAX_MOVES, MAX_SIZE, STATE_NODES, WIDTH, symbol_of};
use crate::transitions::{Bits, SidedTable, Transitions};
use machine_text::{Dir, Table};
use std::alloc::{AllocError as NoMemory, Global};

/// The first automaton of a finite automata reduction: it reads the half tape behind the head, from far away
/// towards the head, and the side says which way is ahead. From state q it goes on `Zero` to `delta[2q]`, on `One`
/// to `delta[2q + 1]`; entries past the last state are 0.
#[derive(Clone, Copy, Debug, PartialEq, Eq)]
pub struct Automaton {
    pub side: Dir,
    pub size: u8,
    pub delta: [u8; MAX_MOVES],
    pub ghost limits: { (1 ≤ size) × (size ≤ largest_size) },
    pub ghost states: { (k : ℕ) → slice_index delta k < size },
    pub ghost blank: { slice_index delta 0 ≡ 0 },
}

#[derive(Drop)]
pub(crate) struct Level {
    first: Transitions,
    edges: Edges,
    // the transition to be decided
    number: usize,
    // and the targets that weren't tried yet
    untried: Bits,
    ghost numbered: { number < 32 },
}

impl Level {
    pub fn new() -> Level {
        Level {
            first: Transitions::START,
            edges: Edges::new(),
            number: 0,
            untried: 0,
        }
    }

    // The root: a first state, to which blanks lead.
    pub fn begin(&mut self, table: &SidedTable) {
        self.first = Transitions::START;
        self.edges.begin();
        self.edges.push(table, 0, 0);
        self.untried = 0;
    }

    // The child of another one, in which its transition has this target.
    pub fn begin_below(&mut self, parent: &Level, table: &SidedTable, target: u8)
        requires { target < 16 }
    {
        let named = parent.first.named();
        self.edges.copy(&parent.edges, named);
        if target >= named {
            self.edges.clear_state(target);
        }
        self.edges.push(table, parent.number, target);
        self.first = parent.first;
        self.first.decide(parent.number, target);
        self.untried = 0;
    }

    // Adds the edges, and says whether these automata will do. Where they don't, and may do with more transitions, the
    // next one is to be decided.
    pub fn suffices(&mut self, table: &SidedTable, limit: u8, most_states: u8) -> bool {
        if !self.edges.close(table, &self.first) {
            return false;
        }
        match self.next_number(table, most_states) {
            Some(number) => {
                self.number = number;
                self.untried = self.first.targets(limit);
                false
            }
            None => true,
        }
    }

    // The first transition that is called and not there; where no state can be added, any that isn't there.
    fn next_number(&self, table: &SidedTable, most_states: u8) -> Option<usize>
        ensures { IfSome result (λ number. number < 32) }
    {
        let pushed = [
            self.edges.pushed(table, symbol_of(0)),
            self.edges.pushed(table, symbol_of(1)),
        ];
        let is_full = self.first.named() >= most_states;
        for number in 0..2 * self.first.named() as usize {
            let called = (pushed[number % 2] >> (WIDTH * (number / 2))) & STATE_NODES != 0;
            if (called || is_full) && !self.first.is_decided(number) {
                return Some(number);
            }
        }
        None
    }

    // The target to be tried next.
    pub fn next_target(&mut self) -> Option<u8>
        ensures { IfSome result (λ q. q < 16) }
    {
        if self.untried == 0 {
            return None;
        }
        let target = self.first.best_target(self.number, self.untried)?;
        self.untried &= !(1 << target);
        Some(target)
    }

    // The automaton, if it may have so many states.
    pub fn automaton(&self, side: Dir, most_states: u8) -> Option<Automaton>
        ensures { IfSome result (λ a. a.size ≤ most_states) }
    {
        self.first.automaton(side, most_states)
    }
}

/// Automata of so many named states, and how many of them are tried.
#[derive(Clone, Copy, Debug, PartialEq, Eq)]
pub struct Stage {
    /// How many states are named: those that are called. One more may follow them, for what is never called.
    pub named: u8,
    /// How many automata are tried on each side, as far as they have grown: these are the nodes of the search tree.
    pub tries: u64,
}

/// The stages, by which small automata come first: each is tried on what the ones before it leave.
pub const STAGES: [Stage; 7] = [
    Stage {
        named: 2,
        tries: 60,
    },
    Stage {
        named: 3,
        tries: 60,
    },
    Stage {
        named: 6,
        tries: 100,
    },
    Stage {
        named: 8,
        tries: 500,
    },
    Stage {
        named: 10,
        tries: 2_000,
    },
    Stage {
        named: 12,
        tries: 4_000,
    },
    Stage {
        named: 15,
        tries: 4_000,
    },
];

/// The budget at which a stage has its own number of tries.
pub const USUAL_BUDGET: u64 = 1_000;

impl Stage {
    /// The stage with its tries in proportion to a budget, rounded up.
    pub fn scaled(self, budget: u64) -> Stage
        ensures named { result.named ≡ self.named }
        ensures enough { self.tries * budget < 2 ^ 64 → self.tries * budget ≤ 1000 * result.tries }
        ensures no_more { 1000 * result.tries < self.tries * budget + 1000 }
    {
        Stage {
            named: self.named,
            tries: self.tries.saturating_mul(budget).div_ceil(USUAL_BUDGET),
        }
    }
}

// The root, and a level below it for each transition.
const LEVELS: usize = MAX_MOVES + 1;

/// Searches first automata of finite automata reductions. It keeps the memory that it needs, and takes no more.
#[derive(Drop)]
pub struct AutomataSearch {
    levels: Vec<Level>,
    depth: usize,
    ghost room: { vec_len levels ≡ 33 },
    ghost within: { depth < 33 },
}

impl AutomataSearch {
    /// A search, with the memory for the largest automata: 140 kilobytes.
    pub fn new(alloc: Global) -> Result<AutomataSearch, NoMemory> {
        let mut levels = Vec::with_capacity(alloc, LEVELS)?;
        for level in 0..LEVELS {
            levels.push(Level::new())?;
        }
        Ok(AutomataSearch { levels, depth: 0 })
    }

    /// An automaton of a table, of so many states at most, by the stages in their order, scaled by a budget; none
    /// where none is found. The stage that comes to as many states as there may be is the last one: first one state
    /// is left for what is never called, and then all are named.
    pub fn find(&mut self, table: &Table, most_states: u8, budget: u64) -> Option<Automaton>
        ensures { IfSome result (λ a. a.size ≤ most_states) }
    {
        for stage in STAGES {
            let stage = stage.scaled(budget);
            if most_states <= 1 || stage.named >= most_states - 1 {
                return self.find_last(table, stage, most_states);
            }
            let found = self.find_in_stage(table, stage, most_states);
            if found.is_some() {
                return found;
            }
        }
        None
    }

    // An automaton by the last stage.
    fn find_last(&mut self, table: &Table, stage: Stage, most_states: u8) -> Option<Automaton>
        ensures { IfSome result (λ a. a.size ≤ most_states) }
    {
        if most_states > 1 {
            let named = most_states - 1;
            let found = self.find_in_stage(table, Stage { named, ..stage }, most_states);
            if found.is_some() {
                return found;
            }
        }
        let named = most_states;
        self.find_in_stage(table, Stage { named, ..stage }, most_states)
    }

    /// An automaton of a table, by one stage: on the right side first, and then on the left.
    pub fn find_in_stage(
        &mut self,
        table: &Table,
        stage: Stage,
        most_states: u8,
    ) -> Option<Automaton>
        ensures { IfSome result (λ a. a.size ≤ most_states) }
    {
        let right = self.find_on(table, Dir::R, stage, most_states);
        if right.is_some() {
            return right;
        }
        self.find_on(table, Dir::L, stage, most_states)
    }

    // An automaton of this side.
    fn find_on(
        &mut self,
        table: &Table,
        side: Dir,
        stage: Stage,
        most_states: u8,
    ) -> Option<Automaton>
        ensures { IfSome result (λ a. a.size ≤ most_states) }
    {
        if most_states == 0 {
            return None;
        }
        let most = most_states.min(MAX_SIZE);
        let sided = SidedTable::new(table, side);
        self.depth = 0;
        self.levels[0].begin(&sided);
        for attempt in 0..stage.tries {
            let level = &mut self.levels[self.depth];
            if level.suffices(&sided, stage.named.min(most), most) {
                return level.automaton(side, most);
            }
            if !self.descend(&sided) {
                return None;
            }
        }
        None
    }

    // Goes on with the next target of the deepest level that has one, and says whether there was any.
    fn descend(&mut self, table: &SidedTable) -> bool {
        for above in 0..LEVELS {
            if let Some(target) = self.levels[self.depth].next_target() {
                return self.go_below(table, target);
            }
            if self.depth == 0 {
                return false;
            }
            self.depth -= 1;
        }
        false
    }

    // Goes one level down, to where the transition has this target. There are no more levels than transitions.
    fn go_below(&mut self, table: &SidedTable, target: u8) -> bool
        requires { target < 16 }
    {
        if self.depth + 1 == LEVELS {
            return false;
        }
        begin_child(&mut self.levels, self.depth, table, target);
        self.depth += 1;
        true
    }
}

// Makes the level below this one its child.
fn begin_child(levels: &mut [Level], depth: usize, table: &SidedTable, target: u8)
    requires depth { depth + 1 < length levels.old }
    requires target { target < 16 }
{
    let (above, below) = levels.split_at_mut(depth + 1);
    below[0].begin_below(&above[depth], table, target);
}

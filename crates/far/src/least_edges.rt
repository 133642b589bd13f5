// The search for automata, and the least second automaton that goes with a first one.
ghost use Rattle.std.specs.Prelude.{◌≡◌, ◌*◌, ◌<◌, ◌≤◌, ℕ, slice_index, min, IfSome, IfOk};
ghost use Rattle.far.specs.Limits.{size_limit, pair_limit, row_limit};
ghost use Rattle.far.specs.Texts.{AreAutomataOf};
ghost use Rattle.far.specs.Claims.{owned_automata};

use crate::limits::{MAX_MOVES, MAX_PAIRS, MAX_ROWS, MAX_SIZE, Set};
use crate::owned::OwnedFar;
use crate::unpacked::Unpacked;
use find_automata::{AutomataSearch, Stage};
use kind_evidence::NoMemory;
use machine_text::{Dir, Entry, State, Sym, Table};
use std::alloc::Global;
use std::marker::Model;

// A first automaton, and of the second the edges that were found so far.
#[derive(Drop)]
pub(crate) struct LeastEdges {
    table: Table,
    side: Dir,
    size: u8,
    delta: [u8; MAX_MOVES],
    rows: [Set; MAX_ROWS],
}

// A transition of the first automaton: from a state on a symbol to a state.
#[derive(Clone, Copy)]
struct Move {
    from: u8,
    read: Sym,
    to: u8,
}

// The most edges that the second automaton can have.
const MAX_EDGES: usize = (MAX_PAIRS + 1) * MAX_ROWS;

impl Model for LeastEdges {
    ghost use Rattle.std.specs.Prelude.{◌<◌, ◌≤◌, ℕ, slice_index};
    ghost use Rattle.far.specs.Limits.{size_limit};
    ghost use Rattle.far.specs.inside.Steps.{Sizes};

    ghost Value = { Sizes };

    ghost view = { λ a. record { states = a.table.states; size = a.size } };

    ghost invariant = { λ a. (1 ≤ a.size) × (a.size ≤ size_limit)
        × ((k : ℕ) → slice_index a.delta k < a.size) };
}

impl LeastEdges {
    // The edges that this first automaton asks for.
    pub fn new(table: &Table, side: Dir, size: u8, delta: [u8; MAX_MOVES]) -> LeastEdges
        requires size { (1 ≤ size) × (size ≤ size_limit) }
        requires states { (k : ℕ) → slice_index delta k < size }
        ensures { result.size ≡ size }
    {
        let mut edges = LeastEdges {
            table: *table,
            side,
            size,
            delta,
            rows: halting_rows(table, size),
        };
        edges.go_ahead();
        edges.grow();
        edges
    }

    // The automata, with what the start of the second reaches by blanks.
    pub fn automata(&self) -> Option<Unpacked> {
        Unpacked::of_numbers(
            self.table.states(),
            self.side,
            self.size,
            self.delta,
            self.rows,
            self.kept(),
        )
    }

    // Adds the edges for all entries that move ahead, which ask for no others.
    fn go_ahead(&mut self)
        ensures { self.new ≡ self.old }
    {
        for pair in 0..2 * self.table.states() {
            self.go_ahead_at(State(pair / 2), symbol_of(pair as usize % 2));
        }
    }

    // Adds those of one pair of the table: the first automaton reads the written symbol.
    fn go_ahead_at(&mut self, state: State, read: Sym)
        requires { state.0 < self.old.states }
        ensures { self.new ≡ self.old }
    {
        let Some(entry) = self.table.get(state, read) else {
            return;
        };
        if entry.dir != self.side {
            return;
        }
        for q in 0..self.size {
            let to = self.delta[2 * q as usize + entry.write as usize];
            let set = 1 << self.number(to, entry.next);
            self.add(self.place(q, state, read), set);
        }
    }

    // Adds all the edges that entries ask for which move back. Each pass adds one at least, until there are no more.
    fn grow(&mut self)
        ensures { self.new ≡ self.old }
    {
        for pass in 0..MAX_EDGES {
            if !self.grow_once() {
                return;
            }
        }
    }

    // Adds those that are asked for by what is there, and says whether there were any.
    fn grow_once(&mut self) -> bool
        ensures { self.new ≡ self.old }
    {
        let mut grew = false;
        for pair in 0..2 * self.table.states() {
            if self.grow_at(State(pair / 2), symbol_of(pair as usize % 2)) {
                grew = true;
            }
        }
        grew
    }

    // Adds those of one pair of the table, for each transition of the first automaton.
    fn grow_at(&mut self, state: State, read: Sym) -> bool
        requires { state.0 < self.old.states }
        ensures { self.new ≡ self.old }
    {
        let Some(entry) = self.table.get(state, read) else {
            return false;
        };
        if entry.dir == self.side {
            return false;
        }
        let mut grew = false;
        for number in 0..2 * self.size {
            let step = Move {
                from: number / 2,
                read: symbol_of(number as usize % 2),
                to: self.delta[number as usize],
            };
            if self.grow_back(step, state, read, entry) {
                grew = true;
            }
        }
        grew
    }

    // The head moves back: the second automaton reads what the first had read last, and then the written symbol.
    fn grow_back(&mut self, step: Move, state: State, read: Sym, entry: Entry) -> bool
        requires from { step.from < self.old.size }
        requires to { step.to < self.old.size }
        requires state { state.0 < self.old.states }
        requires next { entry.next.0 < self.old.states }
        ensures { self.new ≡ self.old }
    {
        let first = self.rows[self.place(step.from, entry.next, step.read)];
        let set = self.reached(first, entry.write);
        self.add(self.place(step.to, state, read), set)
    }

    // Adds to a row, and says whether it grew.
    fn add(&mut self, place: usize, more: Set) -> bool
        requires { place < row_limit }
        ensures { self.new ≡ self.old }
    {
        let row = self.rows[place];
        self.rows[place] = row | more;
        row | more != row
    }

    // What the start reaches by blanks.
    fn kept(&self) -> Set {
        let mut keep = 1;
        for pass in 0..Set::BITS {
            let reached = self.reached(keep, Sym::Zero);
            if reached | keep == keep {
                break;
            }
            keep |= reached;
        }
        keep
    }

    // What the members of a set reach by a symbol.
    fn reached(&self, set: Set, s: Sym) -> Set {
        let last = self.last();
        let mut union = 0;
        let mut rest = set;
        'members: while rest != 0 {
            let j = rest.trailing_zeros() as usize;
            union |= if j < last {
                self.rows[2 * j + s as usize]
            } else {
                1 << last
            };
            rest &= rest - 1;
        }
        union
    }

    // The number of the halt state.
    fn last(&self) -> usize
        ensures { result ≤ pair_limit }
    {
        self.size as usize * self.table.states() as usize
    }

    // The number of a state of the second automaton.
    fn number(&self, q: u8, state: State) -> usize
        requires first { q < self.now.size }
        requires second { state.0 < self.now.states }
        ensures { result < pair_limit }
    {
        q as usize * self.table.states() as usize + state.0 as usize
    }

    // The place of its edges on a symbol.
    fn place(&self, q: u8, state: State, s: Sym) -> usize
        requires first { q < self.now.size }
        requires second { state.0 < self.now.states }
        ensures { result < row_limit }
    {
        2 * self.number(q, state) + s as usize
    }
}

// The rows that have an edge to the halt state where the table halts, and no other.
fn halting_rows(table: &Table, size: u8) -> [Set; MAX_ROWS]
    requires { (1 ≤ size) × (size ≤ size_limit) }
{
    let mut rows = [0; MAX_ROWS];
    let states = table.states() as usize;
    let last = size as usize * states;
    for place in 0..2 * last {
        let state = State((place / 2 % states) as u8);
        if table.get(state, symbol_of(place % 2)).is_none() {
            rows[place] = 1 << last;
        }
    }
    rows
}

// The symbol of a number.
fn symbol_of(number: usize) -> Sym {
    if number == 0 { Sym::Zero } else { Sym::One }
}

/// Searches automata.
#[derive(Drop)]
pub struct FarFinder {
    alloc: Global,
    pub size: u64,
    // made by the first search
    search: Option<AutomataSearch>,
}

impl FarFinder {
    /// A finder that tries first automata of up to so many states; how large they may be at most, its search sees to, and no
    /// contract says.
    pub fn new(alloc: Global, size: u64) -> FarFinder
        ensures { result.size ≡ size }
    {
        FarFinder {
            alloc,
            size,
            search: None,
        }
    }

    /// From where the finder takes its memory.
    pub fn allocator(&self) -> Global {
        self.alloc
    }

    /// Automata of a table, of the finder's size at most; none where it finds none. What it gives stands.
    ///
    /// `find_automata` looks for the first automaton, by stages that a budget of 1,000 runs as they are and others
    /// in proportion. The second one has the least edges that go with it. No contract says what is found or how long
    /// it takes. The first search takes the memory to search in, and each one that of what it finds.
    pub fn search(&mut self, t: &Table, budget: u64) -> Result<Option<OwnedFar>, NoMemory>
        ensures found { IfOk result (λ o. IfSome o (λ e. AreAutomataOf (owned_automata e) t.now)) }
        ensures size { IfOk result (λ o. IfSome o (λ e. (owned_automata e).size ≤ min self.old.size size_limit)) }
        ensures same { self.new.size ≡ self.old.size }
    {
        self.make_ready()?;
        let most = self.most();
        let Some(search) = &mut self.search else {
            return Ok(None);
        };
        let Some(found) = search.find(t, most, budget) else {
            return Ok(None);
        };
        OwnedFar::of_first(self.alloc, &found, t, most)
    }

    /// Looks for automata by one stage of the search.
    pub fn search_in_stage(&mut self, t: &Table, stage: Stage) -> Result<Option<OwnedFar>, NoMemory>
        ensures found { IfOk result (λ o. IfSome o (λ e. AreAutomataOf (owned_automata e) t.now)) }
        ensures size { IfOk result (λ o. IfSome o (λ e. (owned_automata e).size ≤ min self.old.size size_limit)) }
        ensures same { self.new.size ≡ self.old.size }
    {
        self.make_ready()?;
        let most = self.most();
        let Some(search) = &mut self.search else {
            return Ok(None);
        };
        let Some(found) = search.find_in_stage(t, stage, most) else {
            return Ok(None);
        };
        OwnedFar::of_first(self.alloc, &found, t, most)
    }

    // The most states that may be named.
    fn most(&self) -> u8
        ensures { result ≡ min self.now.size size_limit }
    {
        self.size.min(MAX_SIZE as u64) as u8
    }

    // Takes the memory to search in, where there is none yet.
    fn make_ready(&mut self) -> Result<(), NoMemory>
        ensures { self.new.size ≡ self.old.size }
    {
        if self.search.is_none() {
            self.search = Some(AutomataSearch::new(self.alloc)?);
        }
        Ok(())
    }
}

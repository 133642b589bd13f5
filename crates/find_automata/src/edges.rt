// The second automaton in the making: the least edges that the transitions of the first ask for.
ghost use Rattle.std.specs.Prelude.{◌≡◌, ◌*◌, ◌<◌, ◌≤◌};

use crate::limits::{MAX_NODES, MAX_ROWS, Set, WIDTH, has, node_of, place_of, symbol_of};
use crate::transitions::{MAX_PAIRS, SidedTable, Step, Transitions};
use machine_text::Sym;

// The nodes by the symbol.
#[derive(Clone, Copy)]
pub(crate) struct NodePairs {
    zero: Set,
    one: Set,
}

impl NodePairs {
    pub const NONE: NodePairs = NodePairs { zero: 0, one: 0 };

    // The first node on a blank.
    pub const START: NodePairs = NodePairs { zero: 1, one: 0 };

    // The nodes with this symbol.
    pub fn on(&self, symbol: Sym) -> Set {
        match symbol {
            Sym::Zero => self.zero,
            Sym::One => self.one,
        }
    }

    // Adds nodes with this symbol, and says whether there were new ones.
    pub fn add(&mut self, symbol: Sym, nodes: Set) -> bool {
        let before = self.on(symbol);
        let after = before | nodes;
        match symbol {
            Sym::Zero => self.zero = after,
            Sym::One => self.one = after,
        }
        after != before
    }

    // The nodes that both have with one symbol.
    pub fn common(&self, other: &NodePairs) -> Set {
        (self.zero & other.zero) | (self.one & other.one)
    }
}

// More than the edges, pairs and kept nodes that there can be.
const MAX_PASSES: usize = MAX_NODES * (MAX_ROWS + 3) + 1;

// How many rows a state of the first automaton has.
const STATE_ROWS: usize = 2 * WIDTH;

// A pair is called if what is reached from the blank tape needs to know where it leads: only for these the edges that
// go back are there. Where a called pair halts, so may the blank tape.
#[derive(Drop)]
pub(crate) struct Edges {
    // for each node and symbol the nodes to which an edge leads
    rows: [Set; MAX_ROWS],
    called: NodePairs,
    // what the first node reaches by blanks
    keep: Set,
}

impl Edges {
    // No edge, and the first node called on a blank.
    pub fn new() -> Edges {
        Edges {
            rows: [0; MAX_ROWS],
            called: NodePairs::START,
            keep: 1,
        }
    }

    // Makes these the edges of one state that has none.
    pub fn begin(&mut self) {
        self.called = NodePairs::START;
        self.keep = 1;
        self.clear_state(0);
    }

    // Takes over the edges of others, of so many states.
    pub fn copy(&mut self, other: &Edges, named: u8)
        requires { named ≤ 16 }
    {
        self.called = other.called;
        self.keep = other.keep;
        let end = STATE_ROWS * named as usize;
        self.rows[..end].copy_from_slice(&other.rows[..end]);
    }

    // Takes the edges of a state away.
    pub fn clear_state(&mut self, q: u8)
        requires { q < 16 }
    {
        let from = STATE_ROWS * q as usize;
        self.rows[from..from + STATE_ROWS].fill(0);
    }

    // Adds the edges by which the head goes ahead and leaves a transition behind it, to this target.
    pub fn push(&mut self, table: &SidedTable, number: usize, target: u8)
        requires number { number < 32 }
        requires target { target < 16 }
    {
        for pair in 0..MAX_PAIRS {
            if let Some(step) = table.steps[pair] {
                if step.ahead && step.write == symbol_of(number % 2) {
                    let node = node_of(target as usize, step.next);
                    self.rows[STATE_ROWS * (number / 2) + pair] = 1 << node;
                }
            }
        }
    }

    // Adds all that is asked for, and says whether the blank tape is kept from the halting pairs. Each pass adds
    // something, until there is no more.
    pub fn close(&mut self, table: &SidedTable, first: &Transitions) -> bool {
        for pass in 0..MAX_PASSES {
            let kept = self.extend_keep();
            if self.called.common(&table.halting) != 0 {
                return false;
            }
            let grew_on_zero = self.grow_on(Sym::Zero, table, first);
            let grew_on_one = self.grow_on(Sym::One, table, first);
            if !kept && !grew_on_zero && !grew_on_one {
                return true;
            }
        }
        false
    }

    // The nodes of called pairs at which a symbol is written and the head goes ahead.
    pub fn pushed(&self, table: &SidedTable, symbol: Sym) -> Set {
        self.called.common(table.pushing(symbol))
    }

    // Adds to what is kept, and calls it on a blank. A node is looked at once.
    fn extend_keep(&mut self) -> bool {
        let mut rest = self.keep;
        for visit in 0..MAX_NODES {
            if rest == 0 {
                break;
            }
            let node = rest.trailing_zeros() as usize;
            let new = self.rows[place_of(node, Sym::Zero)] & !self.keep;
            self.keep |= new;
            rest = rest & (rest - 1) | new;
        }
        self.called.add(Sym::Zero, self.keep)
    }

    // Adds what the called pairs with this symbol ask for, where the head goes back.
    fn grow_on(&mut self, read: Sym, table: &SidedTable, first: &Transitions) -> bool {
        let mut rest = self.called.on(read) & table.returning.on(read);
        let mut grew = false;
        'nodes: while rest != 0 {
            let node = rest.trailing_zeros() as usize;
            if let Some(step) = table.steps[2 * (node % WIDTH) + read as usize] {
                let sources = first.sources(node / WIDTH);
                if self.grow_back(place_of(node, read), step, sources) {
                    grew = true;
                }
            }
            rest &= rest - 1;
        }
        grew
    }

    // The head goes back over any of the transitions that lead to where it is.
    fn grow_back(&mut self, place: usize, step: Step, sources: u32) -> bool
        requires { place < 256 }
    {
        let mut rest = sources;
        let mut grew = false;
        'sources: while rest != 0 {
            if self.grow_over(place, step, rest.trailing_zeros() as usize) {
                grew = true;
            }
            rest &= rest - 1;
        }
        grew
    }

    // The head goes back over a symbol: the second automaton reads that of the transition, and then the written one.
    fn grow_over(&mut self, place: usize, step: Step, number: usize) -> bool
        requires place { place < 256 }
        requires number { number < 32 }
    {
        let node = node_of(number / 2, step.next);
        let read = symbol_of(number % 2);
        let called_first = self.called.add(read, 1 << node);
        let middle = self.rows[place_of(node, read)];
        let called_then = self.called.add(step.write, middle);
        let row = self.rows[place];
        let after = row | self.reached(middle, step.write);
        self.rows[place] = after;
        called_first || called_then || after != row
    }

    // What the nodes of a set reach by a symbol.
    fn reached(&self, nodes: Set, symbol: Sym) -> Set {
        let mut reached = 0;
        let mut rest = nodes;
        'nodes: while rest != 0 {
            let node = rest.trailing_zeros() as usize;
            reached |= self.rows[place_of(node, symbol)];
            rest &= rest - 1;
        }
        reached
    }
}

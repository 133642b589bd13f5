// How large automata may be, and how their states and transitions are numbered.
ghost use Rattle.std.specs.Prelude.{◌<◌};

use machine_text::{MAX_STATES, State, Sym};

/// The most states of an automaton.
pub const MAX_SIZE: u8 = 16;

/// How many transitions such an automaton has: two for each state q, 2q on `Zero` and 2q + 1 on `One`.
pub const MAX_MOVES: usize = 2 * MAX_SIZE as usize;

// A set of states of the second automaton, a bit for each.
pub(crate) type Set = u128;

// The second automaton's states, its nodes, are pairs of a state of the first and one of the table. Each state of the
// first has so many of them, whether the table has as many states or fewer.
pub(crate) const WIDTH: usize = 8;

pub(crate) const MAX_NODES: usize = WIDTH * MAX_SIZE as usize;

pub(crate) const MAX_ROWS: usize = 2 * MAX_NODES;

const _: () = prove!(MAX_STATES as usize <= WIDTH);

// The nodes of the first automaton's first state.
pub(crate) const STATE_NODES: Set = 0xff;

// A bit for the first node of each state.
const FIRST_NODES: Set = 0x0101_0101_0101_0101_0101_0101_0101_0101;

// The node of a state of the first automaton and one of the table.
pub(crate) fn node_of(q: usize, state: u8) -> usize
    requires first { q < 16 }
    requires second { state < 8 }
    ensures { result < 128 }
{
    WIDTH * q + state as usize
}

// The place of a row: what is reached from a node by a symbol.
pub(crate) fn place_of(node: usize, symbol: Sym) -> usize
    requires { node < 128 }
    ensures { result < 256 }
{
    2 * node + symbol as usize
}

// All nodes of a table's state.
pub(crate) fn nodes_of(state: State) -> Set
    requires { state.0 < 8 }
{
    FIRST_NODES << state.0
}

// Whether a node is in a set.
pub(crate) fn has(set: Set, node: usize) -> bool
    requires { node < 128 }
{
    (set >> node) & 1 == 1
}

// The symbol of a number.
pub(crate) fn symbol_of(number: usize) -> Sym {
    if number == 0 { Sym::Zero } else { Sym::One }
}

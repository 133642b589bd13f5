// How much is looked for.

/// The most counts of both automata together.
pub const MAX_FOUND_COUNTS: usize = 12;

/// The most states of an automaton.
pub const MAX_FOUND_STATES: usize = 40;

// How many steps of a run are looked at.
pub(crate) const STEPS: u64 = 2_000;

// The most beginnings of half tapes that are kept of one side.
pub(crate) const MAX_NODES: usize = 20_000;

// The most transitions that a closing goes back by.
pub(crate) const MAX_EDGES: usize = 2_500;

// No number of a coset is larger while it is looked for.
pub(crate) const MAX_SIZE: u64 = 1 << 40;

// How many symbols behind a beginning of a half tape tell which ones are alike, in the order in which they are tried;
// the head's state counts as one. No more than four.
pub(crate) const WINDOWS: [usize; 3] = [3, 2, 4];

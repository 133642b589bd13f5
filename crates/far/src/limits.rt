// How large automata may be.
use machine_text::MAX_STATES;

/// The most states of the first automaton.
pub const MAX_SIZE: u8 = 16;

/// The most states of the first automaton where the second one's edges are listed.
pub const MAX_LISTED_SIZE: u16 = 4096;

/// A set of states of the second automaton, a bit for each. There are up to 113.
pub type Set = u128;

// How many numbers the largest automata have.
pub(crate) const MAX_MOVES: usize = 2 * MAX_SIZE as usize;

pub(crate) const MAX_PAIRS: usize = MAX_SIZE as usize * MAX_STATES as usize;

pub(crate) const MAX_ROWS: usize = 2 * MAX_PAIRS;

// The most bytes of the size and the three texts of listed automata in a record of 65,000 bytes, but for seven for each
// state of the table.
pub(crate) const MAX_LISTED_BYTES: usize = 64_993;

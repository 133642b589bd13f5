// How large a table may be.

/// The greatest number of states of a table.
pub const MAX_STATES: u8 = 7;

/// The bytes of the longest text, which is that of `MAX_STATES` states: seven a state, less one.
pub const TEXT_BYTES: usize = 7 * MAX_STATES as usize - 1;

// The pairs of a state and a symbol of the largest table.
pub(crate) const MAX_ENTRIES: usize = 2 * MAX_STATES as usize;

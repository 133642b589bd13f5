// How much of a link is received at once.

/// The most bytes that one turn receives.
pub const MAX_PIECE_BYTES: usize = 4096;

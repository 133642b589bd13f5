// The limits of a coordinator and of workers.

/// The most steps of a late halt that a coordinator judges for a peer.
pub const MAX_PEER_STEPS: u64 = 1_000_000_000;

/// A work turn makes no record on a board with so many.
pub const MAX_WORK_RECORDS: u64 = 32;

/// A tick sends so many records at most.
pub const MAX_TICK_RECORDS: usize = 64;

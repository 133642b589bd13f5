// How long a core works at once, and how much a peer may have of a coordinator.

/// The most work turns that a core gets before the next one's turn.
pub const MAX_WORK_TURNS: usize = 4096;

/// The most ids of a peer that have a lease, or wait for one.
pub const MAX_PEER_LEASES: usize = 64;

/// How long a lease lasts by which nothing comes, in seconds.
pub const LEASE_SECONDS: u64 = 60;

/// The longest time for which an id waits that gave back a lease without a new record, in seconds.
pub const MOST_WAIT_SECONDS: u64 = 60;

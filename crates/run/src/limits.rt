// How far runs go.

/// The most steps that one runner makes.
pub const MAX_RUN_STEPS: u64 = 0x4000_0000_0000_0000;

/// The most steps that a record `H` may claim.
pub const MAX_HALT_STEPS: u64 = 100_000_000;

/// The most steps that a record `L` may claim.
pub const MAX_LATE_STEPS: u64 = 10_000_000_000;

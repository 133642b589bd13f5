// How far loops are looked for.

/// The latest time, in steps, that a cycle or a translated cycle may name.
pub const MAX_TIME: u64 = 10_000_000;

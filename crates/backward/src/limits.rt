// How far back backward reasoning goes.

/// The most steps that backward reasoning goes back.
pub const MAX_DEPTH: u64 = 1000;

/// The most paths of one depth that backward reasoning goes through.
pub const MAX_PATHS: u64 = 65_536;

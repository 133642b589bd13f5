// How long records may be.

/// The most bytes of a record's text.
pub const MAX_RECORD_BYTES: usize = 65_000;

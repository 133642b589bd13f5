// How long lines may be.

/// The most bytes of a line, without its newline.
pub const MAX_LINE_BYTES: usize = 65_536;

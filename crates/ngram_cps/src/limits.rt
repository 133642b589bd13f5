// How large position sets may be.

/// The greatest width of words.
pub const MAX_WIDTH: u8 = 8;

/// The most bytes of the three lists together, with their commas.
pub const MAX_LIST_BYTES: usize = 49_152;

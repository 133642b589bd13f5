// How far from its start a tape may be used.

/// The greatest distance from place 0, in cells, at which a head may stand before a move, and the
/// greatest size of the place and the shift that `same_half` takes.
pub const MAX_PLACE: i64 = 1 << 62;

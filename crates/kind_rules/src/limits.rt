// How large rules with induction may be, and their texts.

/// The most bytes of the six texts of a claim together, with the five spaces between them.
pub const MAX_RULE_BYTES: usize = 49_152;

/// The most bytes of a form's text: how long a rule takes that is used without end.
pub(crate) const MAX_FORM_BYTES: usize = 300;

/// The greatest number that may come up.
pub(crate) const MAX_NUMBER: u64 = 1_000_000;

/// The most steps of one move.
pub(crate) const MAX_STEPS: u32 = 10_000;

/// The most steps of the machine in all scripts together.
pub(crate) const MAX_ALL_STEPS: u32 = 2_000_000;

/// The most blocks of a half tape.
pub(crate) const MAX_BLOCKS: usize = 2_000;

/// The most symbols of a word.
pub(crate) const MAX_WORD: u32 = 63;

/// What the last of so many symbols is worth.
pub(crate) const MAX_SYMBOL_WEIGHT: u64 = 4_611_686_018_427_387_904;

/// The most times that a word is taken for a power.
pub(crate) const MAX_COPIES: u32 = 63;

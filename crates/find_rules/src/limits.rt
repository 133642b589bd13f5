// How large what is found may be, and how long it is looked for.

// The most symbols of a word in a record.
pub(crate) const LONGEST_WORD: u32 = 63;

// The most steps of one move in a record.
pub(crate) const LONGEST_MOVE: u64 = 10_000;

// The most tries.
pub(crate) const MAX_TRIES: u64 = 7;

// After how many steps the run is looked at first; each later try goes on to four times as many.
pub(crate) const FIRST_STEPS: u64 = 500;

// The most cells of all tapes that a run keeps at its records, and how many for each step that it may take: a tape that
// grows like a root of the steps needs fewer, one that grows with the steps soon more.
pub(crate) const MAX_KEPT_CELLS: u64 = 8_000_000;

pub(crate) const CELLS_A_STEP: u64 = 16;

// The most records of one side and state between two members of a family.
pub(crate) const MAX_STRIDE: usize = 64;

// How many families of one try are looked at.
pub(crate) const MAX_FAMILIES: usize = 12;

// How many members of a family are tried as the first one.
pub(crate) const MAX_STARTS: u64 = 40;

// The greatest number of members that one turn of a loop may take.
pub(crate) const MAX_SCALE: u64 = 12;

// The least copies of a word that make a block, and the longest word that is looked for, first and then.
pub(crate) const LEAST_COPIES: usize = 4;

pub(crate) const SHORT_WORDS: usize = 12;

pub(crate) const LONG_WORDS: usize = 40;

// How many steps the run so far has for each move that a loop may take; and how many steps of sweeps are tried for a
// loop for each step of the run.
pub(crate) const STEPS_A_MOVE: u64 = 2;

pub(crate) const SWEEP_STEPS: u64 = 10;

// The most symbols of a half tape that are compared.
pub(crate) const MAX_COMPARED: usize = 20_000;

// Of a sweep: the most symbols behind the head, copies of the word, and steps over them.
pub(crate) const MAX_CONTEXT: u32 = 24;

pub(crate) const MAX_COPIES: u64 = 8;

pub(crate) const MAX_SWEEP_STEPS: u64 = 1_000;

// Of nested rules: how often a place is gone on from for each place of the run, and the most blocks of a tape.
pub(crate) const WORK_A_PLACE: u64 = 10;

pub(crate) const MAX_BLOCKS: usize = 200;

// The least copies of a word that become a block there, the longest word, and the most symbols that are put together at
// once.
pub(crate) const NESTED_COPIES: u32 = 3;

pub(crate) const NESTED_WORDS: u32 = 12;

pub(crate) const GATHERED: u32 = 60;

// The most equations that bring a half tape into its normal shape, and the most steps between two places.
pub(crate) const MAX_CHANGES: u64 = 20_000;

pub(crate) const MAX_STRETCH: u64 = 5_000;

// How many questions for a sweep that has no answer are kept in mind.
pub(crate) const MAX_REFUSED: usize = 2_000;

// Of rules that are proved together: how many words are tried for the copies (those of 1 to 4 symbols), for what is
// behind the head (up to 3) and for what is beyond the copies (up to 2).
pub(crate) const WORDS_COUNTED: u64 = 30;

pub(crate) const WORDS_BEHIND: u64 = 15;

pub(crate) const WORDS_BEYOND: u64 = 7;

// Over how many copies the head is followed, and for how many steps.
pub(crate) const COUNTED_COPIES: usize = 6;

pub(crate) const COUNTED_STEPS: u64 = 60_000;

// How many guesses there may be, how often all are tried, and for how many places one is, and all together.
pub(crate) const MAX_JOINT: usize = 900;

pub(crate) const JOINT_ROUNDS: u64 = 40;

pub(crate) const JOINT_PLACES: u64 = 300;

pub(crate) const JOINT_WORK: u64 = 100_000;

// How far apart three places are that are of one rule or family: next to one another among those of their shape, or
// each second or third one.
pub(crate) const MAX_GAP: usize = 3;

// How many guesses of a family are made of one shape; how many rules are tried, and families; how often a guess is
// changed; how many copies of a block are asked for at most, and the greatest multiples of the variables.
pub(crate) const GUESSES: usize = 6;

pub(crate) const MAX_GUESSED_RULES: usize = 3_000;

pub(crate) const MAX_GUESSED_FAMILIES: usize = 400;

pub(crate) const MAX_CHANGED: u64 = 40;

pub(crate) const MAX_LEAST: u64 = 14;

pub(crate) const MAX_RULE_SCALE: u64 = 12;

pub(crate) const MAX_FAMILY_SCALE: u64 = 72;

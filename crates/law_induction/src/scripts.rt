// What rules are made of: blocks, equations and the moves of a script.
use machine_text::Dir;

/// How often: a number, and so many times each of the variables a, b, c, d.
#[derive(Clone, Copy, PartialEq, Eq)]
pub struct Exponent {
    pub ones: u32,
    pub a: u32,
    pub b: u32,
    pub c: u32,
    pub d: u32,
}

/// What stands in place of each of the four variables.
#[derive(Clone, Copy, PartialEq, Eq)]
pub struct Exponents {
    pub a: Exponent,
    pub b: Exponent,
    pub c: Exponent,
    pub d: Exponent,
}

/// A word, and how often it stands one behind another. A word of k symbols is the number whose binary digits are its
/// symbols, the first one last, behind a leading one.
#[derive(Clone, Copy, PartialEq, Eq)]
pub struct Block {
    pub word: u64,
    pub times: Exponent,
}

/// Two rows of blocks that are the same. Words are numbers as in `Block`.
#[derive(Clone, Copy)]
pub enum Equation {
    /// A word e + f times is it e times, and then f times.
    Split(u64, Exponent, Exponent),
    /// A word once is its symbols.
    Spell(u64),
    /// u once and w e times is v e times and u once, where u w is v u.
    Roll(u64, u64, u64, Exponent),
    /// v e times is w k e times, where v is w k times.
    Power(u64, u64, u32, Exponent),
    /// A word no times is nothing.
    Empty(u64),
    /// At a blank end, blanks so many times are nothing.
    Blank(u64, Exponent),
}

/// A line of a script: how it goes on from one form to the next.
#[derive(Clone, Copy)]
pub enum Move {
    /// So many steps of the machine.
    Steps(u32),
    /// The head turns: the cell under it is counted to the other half tape.
    Turn,
    /// An earlier rule by its number, with these for its variables.
    Use(u32, Exponents),
    /// The rule that is being proved, with the same a, and with these for b, c and d.
    Again(Exponent, Exponent, Exponent),
    /// A rule that is proved together with it, by its number, with the same a, and with these for b, c and d.
    Together(u32, Exponent, Exponent, Exponent),
    /// On a half tape, from a place on, the left side of an equation becomes its right side.
    Forth(Dir, u32, Equation),
    /// And its right side becomes its left side.
    Back(Dir, u32, Equation),
}

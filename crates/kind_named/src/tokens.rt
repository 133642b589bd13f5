// The tokens that the two half tapes are made of.
ghost use Rattle.std.specs.Prelude.{◌≡◌, IsTrue, ◌≤◌, ◌∷◌, [], ℕ, List, false, length, drop, IfOk, OnOk};
ghost use Rattle.kind_named.specs.declared.tokens.Beyond.TheVariants.{Blank};
ghost use Rattle.machine_text.specs.declared.table.Sym.{Sym};
ghost use Rattle.kind_named.specs.inside.Tokens.{RopesAdded, RopesBelow, SameLeft, OnlyOpens, EndsWith};
ghost use Rattle.machine_text.specs.Terms.{entry_of};
ghost use Rattle.law_turing.specs.Terms.{Never};
ghost use Rattle.kind_named.specs.Kind.{skelet1};
ghost use Rattle.kind_named.specs.declared.tokens.Beyond.{Beyond};
ghost use Rattle.kind_named.specs.inside.Loop.{RunReaches, Repeats};

use crate::ropes::Ropes;
use crate::run::{GivenUp, round};
use crate::stacks::open_left;
use crate::visit::Answer;

/// A word of a half tape, as it stands on the tape. A list of tokens ends with the one nearest to the head.
#[derive(Clone, Copy)]
pub enum Token {
    /// The word x so many times: 101 on the left, 011 on the right.
    X(u128),
    /// The word x so many times, and a further even number of times that is the same everywhere and isn't known.
    Y(u128),
    /// The word c: 10 on the left, 01 on the right.
    Cut,
    /// A separator by its digit, on the left: 1, 100 and 11 for the digits 0, 1 and 2. The separator of the digit 3,
    /// 1010, is two words c.
    Separator(u8),
    /// A rope by its number: words c x^g, one after another, with g odd in each.
    Rope(usize),
    /// A rope by its number, as it stands on the left after it was read in state C behind an x: 100 x c x^(g - 2) for
    /// each of its words, with g at least 3.
    Wound(usize),
}

/// Where the head goes, from the border between the two half tapes.
#[derive(Clone, Copy)]
pub enum Heading {
    /// To the left, in state D, with 11 behind it.
    Left,
    /// To the right, in state A or C.
    Right(Answer),
}

/// What is to the left of all tokens.
#[derive(Clone, Copy)]
pub enum Beyond {
    /// Blanks alone.
    Blank,
    /// Nothing is known of it: the head never goes there.
    Unknown,
}

impl Beyond {
    /// Whether there are blanks alone.
    pub fn is_blank(self) -> bool
        ensures { IsTrue result → self ≡ Blank }
    {
        matches!(self, Beyond::Blank)
    }
}

// Whether two tokens are the same, and no ropes.
fn is_same(a: Token, b: Token) -> bool
    ensures { IsTrue result → a ≡ b }
{
    match (a, b) {
        (Token::X(n), Token::X(k)) => n == k,
        (Token::Y(n), Token::Y(k)) => n == k,
        (Token::Cut, Token::Cut) => true,
        (Token::Separator(n), Token::Separator(k)) => n == k,
        _ => false,
    }
}

/// Takes these tokens off the end of the left half tape, if they stand there, ropes opened.
pub(crate) fn take_tail(
    ropes: &mut Ropes,
    left: &mut Vec<Token>,
    tail: &[Token],
) -> Result<bool, GivenUp>
    requires left { RopesBelow (length ropes.old) left.old.items }
    requires tail { (n : ℕ) → RopesBelow n tail.now }
    ensures old { RopesAdded ropes.old ropes.new }
    ensures within { OnOk result (RopesBelow (length ropes.new) left.new.items) }
    ensures taken { IfOk result
        (λ yes. IsTrue yes → EndsWith tail.now ropes.old ropes.new left.old.items left.new.items) }
    ensures same { IfOk result (λ yes. yes ≡ false → SameLeft ropes.old ropes.new left.old.items left.new.items) }
{
    let mut rest = tail.len();
    for _ in 0..tail.len() {
        let token = tail[rest - 1];
        if !take_one(ropes, left, token)? {
            left.extend_from_slice(&tail[rest..])?;
            return Ok(false);
        }
        rest -= 1;
    }
    Ok(true)
}

// Takes a token off the end of the left half tape, if it stands there.
fn take_one(ropes: &mut Ropes, left: &mut Vec<Token>, token: Token) -> Result<bool, GivenUp>
    requires { RopesBelow (length ropes.old) left.old.items }
    ensures old { RopesAdded ropes.old ropes.new }
    ensures taken { IfOk result
        (λ yes. IsTrue yes → EndsWith (token ∷ []) ropes.old ropes.new left.old.items left.new.items) }
    ensures same { IfOk result (λ yes. yes ≡ false → SameLeft ropes.old ropes.new left.old.items left.new.items) }
{
    open_left(ropes, left)?;
    let Some(top) = left.pop() else {
        return Ok(false);
    };
    if is_same(top, token) {
        return Ok(true);
    }
    left.push(top)?;
    Ok(false)
}

/// Whether these tokens stand at the end of the left half tape, ropes opened.
pub(crate) fn ends_with(
    ropes: &mut Ropes,
    left: &mut Vec<Token>,
    tail: &[Token],
) -> Result<bool, GivenUp>
    requires left { RopesBelow (length ropes.old) left.old.items }
    requires tail { (n : ℕ) → RopesBelow n tail.now }
    ensures { OnlyOpens result ropes.old ropes.new left.old.items left.new.items }
{
    if take_tail(ropes, left, tail)? {
        left.extend_from_slice(tail)?;
        return Ok(true);
    }
    Ok(false)
}

// The most rounds until the same tokens come again: it takes 53,956.
const MAX_ROUNDS: u64 = 1_000_000;
// How many tokens come again.
const TOKENS: usize = 38;

/// Whether the tokens that come again stand at the end of the left half tape, and do come again. What is beyond them is
/// let go.
pub(crate) fn comes_again(
    ropes: &mut Ropes,
    left: &mut Vec<Token>,
    right: &mut Vec<Token>,
) -> Result<bool, GivenUp>
    requires right { right.old.items ≡ [] }
    requires reaches { (turns : ℕ) × (beyond : Beyond) × RunReaches turns beyond ropes.old left.old.items }
    ensures { IfOk result (λ yes. IsTrue yes → Never (entry_of skelet1)) }
{
    let tokens = repeating();
    if !take_tail(ropes, left, &tokens)? {
        return Ok(false);
    }
    left.clear();
    left.extend_from_slice(&tokens)?;
    let seen = repeats(ropes, left, right, &tokens)?;
    Ok(seen)
}

// Whether the run comes from these tokens, whatever stands beyond them, to the same ones, with something else beyond
// them.
fn repeats(
    ropes: &mut Ropes,
    left: &mut Vec<Token>,
    right: &mut Vec<Token>,
    tokens: &[Token],
) -> Result<bool, GivenUp>
    requires left { left.old.items ≡ tokens.now }
    requires right { right.old.items ≡ [] }
    requires free { (n : ℕ) → RopesBelow n tokens.now }
    ensures { IfOk result (λ yes. IsTrue yes → Repeats tokens.now) }
{
    for _ in 0..MAX_ROUNDS {
        round(ropes, left, right, Beyond::Unknown)?;
        if take_tail(ropes, left, tokens)? {
            return Ok(true);
        }
    }
    Ok(false)
}

// The tokens that come again.
fn repeating() -> [Token; TOKENS]
    ensures { (n : ℕ) → RopesBelow n result }
{
    [
        Token::Separator(2),
        Token::X(15_282),
        Token::Cut,
        Token::X(20_690),
        Token::Separator(0),
        Token::X(15_280),
        Token::Cut,
        Token::X(20_694),
        Token::Separator(0),
        Token::X(15_272),
        Token::Cut,
        Token::X(20_710),
        Token::Separator(0),
        Token::X(15_240),
        Token::Cut,
        Token::X(20_774),
        Token::Separator(0),
        Token::X(15_112),
        Token::Cut,
        Token::X(21_030),
        Token::Separator(0),
        Token::X(14_600),
        Token::Cut,
        Token::X(22_054),
        Token::Separator(0),
        Token::X(12_552),
        Token::Cut,
        Token::X(26_150),
        Token::Separator(0),
        Token::X(4_360),
        Token::Cut,
        Token::X(1),
        Token::Cut,
        Token::X(14_175),
        Token::Separator(2),
        Token::X(1),
        Token::Separator(0),
        Token::X(7_708),
    ]
}

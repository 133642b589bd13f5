// Visits of the left half tape: the head comes from the right, and goes back.
ghost use Rattle.std.specs.Prelude.{◌≡◌, ◌<◌, ◌≤◌, ◌+◌, ◌-◌, ◌%◌, ◌∷◌, [], ℕ, length, IfOk, OnOk, IfSome, IsTrue, Bool};
ghost use Rattle.kind_named.specs.inside.Tokens.{leftward, rightward, separator_left, c_right, rope_right, AreLong, groups_at, RopesAdded, RopesBelow, RopeBelow, BothRopesBelow, TurnsAt, PassesTo, Winds, Leads, IsPlain, Visited};
ghost use Rattle.kind_named.specs.declared.visit.Answer.TheVariants.{A, C};
ghost use Rattle.kind_named.specs.declared.tokens.Heading.TheVariants.{Left, Right};
ghost use Rattle.kind_named.specs.declared.tokens.Token.TheVariants.{X};

use crate::ropes::Ropes;
use crate::run::GivenUp;
use crate::stacks::{open_left, pay, put_left, put_one, put_right};
use crate::steps::{step_left, step_right};
use crate::tokens::{Beyond, Heading, Token};

/// The state in which a visit ends and the head goes right again: each x that it goes over turns it into the other one.
#[derive(Clone, Copy, PartialEq, Eq)]
pub enum Answer {
    A,
    C,
}

impl Answer {
    ghost use Rattle.std.specs.Prelude.{IsTrue};
    ghost use Rattle.kind_named.specs.declared.visit.Answer.TheVariants.{A};
    ghost use Rattle.kind_named.specs.inside.Tokens.{other_answer, turned};

    /// Whether it is A.
    pub fn is_a(self) -> bool
        ensures { IsTrue result → self ≡ A }
    {
        matches!(self, Answer::A)
    }

    /// The other one.
    pub fn other(self) -> Answer
        ensures { result ≡ other_answer self }
    {
        match self {
            Answer::A => Answer::C,
            Answer::C => Answer::A,
        }
    }

    /// After so many words x.
    pub fn turned(self, count: u128) -> Answer
        ensures { result ≡ turned self count }
    {
        if count % 2 == 1 { self.other() } else { self }
    }
}

/// At a word c, which was taken off.
pub(crate) fn at_cut(
    ropes: &mut Ropes,
    left: &mut Vec<Token>,
    right: &mut Vec<Token>,
    answer: Answer,
) -> Result<Heading, GivenUp>
    requires { BothRopesBelow ropes.old left.old.items right.old.items }
    ensures { IfOk result
        (λ heading. PassesTo (λ l r. rightward answer l (c_right r)) heading
        ropes.old ropes.new left.old.items left.new.items right.old.items right.new.items) }
{
    match answer {
        Answer::A => {
            let next = cut_in_a(ropes, left, right)?;
            Ok(Heading::Right(next))
        }
        Answer::C => cut_in_c(ropes, left, right),
    }
}

// The number of a group of an odd number of words x.
fn odd_group(token: Token) -> Option<u128>
    ensures { IfSome result (λ g. (token ≡ X g) × (g % 2 ≡ 1)) }
{
    match token {
        Token::X(g) => { if g % 2 == 1 { Some(g) } else { None } }
        _ => None,
    }
}

// At a word c in A: with an odd group behind it, it is a rope.
fn cut_in_a(
    ropes: &mut Ropes,
    left: &mut Vec<Token>,
    right: &mut Vec<Token>,
) -> Result<Answer, GivenUp>
    requires { BothRopesBelow ropes.old left.old.items right.old.items }
    ensures { IfOk result
        (λ a. PassesTo (λ l r. rightward A l (c_right r)) (Right a)
        ropes.old ropes.new left.old.items left.new.items right.old.items right.new.items) }
{
    let Some(top) = right.pop() else {
        left.push(Token::Cut)?;
        return Ok(Answer::C);
    };
    if let Some(g) = odd_group(top) {
        let i = ropes.group(g)?;
        put_left(ropes, left, Token::Rope(i))?;
        return Ok(Answer::A);
    }
    right.push(top)?;
    left.push(Token::Cut)?;
    Ok(Answer::C)
}

// At a word c in C.
fn cut_in_c(
    ropes: &mut Ropes,
    left: &mut Vec<Token>,
    right: &mut Vec<Token>,
) -> Result<Heading, GivenUp>
    requires { BothRopesBelow ropes.old left.old.items right.old.items }
    ensures { IfOk result
        (λ heading. PassesTo (λ l r. rightward C l (c_right r)) heading
        ropes.old ropes.new left.old.items left.new.items right.old.items right.new.items) }
{
    let Some(top) = right.pop() else {
        return Err(GivenUp::NoRule);
    };
    match top {
        Token::Cut => {
            put_one(ropes, left)?;
            put_left(ropes, left, Token::X(1))?;
            Ok(Heading::Right(Answer::C))
        }
        Token::X(g) => {
            if g == 0 {
                return Err(GivenUp::NoRule);
            }
            put_right(ropes, right, Token::X(g - 1))?;
            right.push(Token::Cut)?;
            put_one(ropes, left)?;
            Ok(Heading::Left)
        }
        Token::Y(g) => {
            if g == 0 {
                return Err(GivenUp::NoRule);
            }
            put_right(ropes, right, Token::Y(g - 1))?;
            right.push(Token::Cut)?;
            put_one(ropes, left)?;
            Ok(Heading::Left)
        }
        _ => Err(GivenUp::NoRule),
    }
}

// The most rules in one visit.
const MAX_RULES: u64 = 1_000_000_000;

// One rule.
fn step(
    ropes: &mut Ropes,
    left: &mut Vec<Token>,
    right: &mut Vec<Token>,
    beyond: Beyond,
    heading: Heading,
) -> Result<Heading, GivenUp>
    requires { BothRopesBelow ropes.old left.old.items right.old.items }
    ensures { IfOk result (λ after. Leads beyond
        (record { ropes = ropes.old; lefts = left.old.items; rights = right.old.items; heading = heading })
        (record { ropes = ropes.new; lefts = left.new.items; rights = right.new.items; heading = after })) }
{
    match heading {
        Heading::Left => {
            let after = step_left(ropes, left, right, beyond)?;
            Ok(after)
        }
        Heading::Right(answer) => {
            let after = step_right(ropes, left, right, answer)?;
            Ok(after)
        }
    }
}

// The answer, once no token is left on the right.
fn ended(heading: Heading, right: &Vec<Token>) -> Option<Answer>
    ensures { IfSome result (λ a. (heading ≡ Right a) × (right.now.items ≡ [])) }
{
    match heading {
        Heading::Left => None,
        Heading::Right(answer) => { if right.is_empty() { Some(answer) } else { None } }
    }
}

/// One visit of the left half tape, and its answer.
pub(crate) fn visit(
    ropes: &mut Ropes,
    left: &mut Vec<Token>,
    right: &mut Vec<Token>,
    beyond: Beyond,
) -> Result<Answer, GivenUp>
    requires sound { BothRopesBelow ropes.old left.old.items right.old.items }
    requires empty { right.old.items ≡ [] }
    ensures empty { IfOk result (λ _. right.new.items ≡ []) }
    ensures visited { IfOk result (λ a. Visited beyond a ropes.old ropes.new left.old.items left.new.items) }
{
    let mut heading = Heading::Left;
    for _ in 0..MAX_RULES {
        if let Some(answer) = ended(heading, right) {
            return Ok(answer);
        }
        heading = step(ropes, left, right, beyond, heading)?;
    }
    Err(GivenUp::TooLong)
}

/// A visit of a separator, which was taken off.
pub(crate) fn at_separator(
    ropes: &mut Ropes,
    left: &mut Vec<Token>,
    digit: u8,
) -> Result<Answer, GivenUp>
    requires { RopesBelow (length ropes.old) left.old.items }
    ensures old { RopesAdded ropes.old ropes.new }
    ensures turns { IfOk result (λ a. TurnsAt digit a ropes.old ropes.new left.old.items left.new.items) }
{
    if digit == 0 {
        open_left(ropes, left)?;
        pay(ropes, left, 1)?;
        left.extend_from_slice(&[Token::Separator(1), Token::X(1)])?;
        return Ok(Answer::A);
    }
    if digit == 1 {
        left.extend_from_slice(&[Token::Separator(2), Token::X(1)])?;
        return Ok(Answer::C);
    }
    if digit == 2 {
        open_left(ropes, left)?;
        at_two(ropes, left)?;
        return Ok(Answer::A);
    }
    Err(GivenUp::NoRule)
}

// A visit of the separator 11, which was taken off, and no rope is before it.
fn at_two(ropes: &Ropes, left: &mut Vec<Token>) -> Result<(), GivenUp>
    requires { RopesBelow (length ropes.now) left.old.items }
    ensures { OnOk result (TurnsAt 2 A ropes.now ropes.now left.old.items left.new.items) }
{
    let Some(top) = left.pop() else {
        return Err(GivenUp::NoRule);
    };
    if let Token::Separator(digit) = top {
        if digit == 0 {
            left.extend_from_slice(&[Token::Cut, Token::X(1)])?;
            return Ok(());
        }
        if digit == 2 {
            left.extend_from_slice(&[Token::Separator(0), Token::Cut, Token::X(1)])?;
            return Ok(());
        }
        return Err(GivenUp::NoRule);
    }
    left.push(top)?;
    pay(ropes, left, 1)?;
    left.extend_from_slice(&[Token::Cut, Token::Cut, Token::X(1)])?;
    Ok(())
}

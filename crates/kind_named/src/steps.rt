// The rules on tokens: each leads the run from one spot to another.
ghost use Rattle.std.specs.Prelude.{◌≡◌, ◌<◌, ◌≤◌, ◌+◌, ◌-◌, ◌%◌, ◌∷◌, [], ℕ, length, IfOk, OnOk, IfSome, IsTrue, Bool};
ghost use Rattle.kind_named.specs.inside.Tokens.{leftward, rightward, separator_left, c_right, rope_right, AreLong, groups_at, RopesAdded, RopesBelow, RopeAndTokensBelow, RopeBelow, BothRopesBelow, TurnsAt, PassesTo, Winds, Leads, IsPlain};
ghost use Rattle.kind_named.specs.declared.tokens.Beyond.{Beyond};
ghost use Rattle.kind_named.specs.declared.visit.Answer.TheVariants.{A, C};
ghost use Rattle.kind_named.specs.declared.tokens.Heading.TheVariants.{Left, Right};
ghost use Rattle.kind_named.specs.declared.tokens.Token.TheVariants.{X};

use crate::ropes::Ropes;
use crate::run::GivenUp;
use crate::stacks::{open_left, open_right, open_wound, pay, put_left, put_right};
use crate::tokens::{Beyond, Heading, Token};
use crate::visit::{Answer, at_cut, at_separator};

// Whether a token has a word on both sides.
fn is_plain(token: Token) -> bool
    ensures { IsTrue result → IsPlain token }
{
    matches!(
        token,
        Token::X(_) | Token::Y(_) | Token::Cut | Token::Rope(_)
    )
}

/// One rule where the head goes to the left. Past the last token it goes on only where there are blanks alone.
pub(crate) fn step_left(
    ropes: &mut Ropes,
    left: &mut Vec<Token>,
    right: &mut Vec<Token>,
    beyond: Beyond,
) -> Result<Heading, GivenUp>
    requires { BothRopesBelow ropes.old left.old.items right.old.items }
    ensures { IfOk result (λ heading. Leads beyond
        (record { ropes = ropes.old; lefts = left.old.items; rights = right.old.items; heading = Left })
        (record { ropes = ropes.new; lefts = left.new.items; rights = right.new.items; heading = heading })) }
{
    let Some(top) = left.pop() else {
        if !beyond.is_blank() {
            return Err(GivenUp::NoRule);
        }
        left.extend_from_slice(&[Token::Separator(0), Token::X(1)])?;
        return Ok(Heading::Right(Answer::C));
    };
    if let Token::Separator(digit) = top {
        let answer = at_separator(ropes, left, digit)?;
        return Ok(Heading::Right(answer));
    }
    if let Token::Wound(i) = top {
        open_wound(ropes, left, i)?;
        return Ok(Heading::Left);
    }
    if !is_plain(top) {
        return Err(GivenUp::NoRule);
    }
    put_right(ropes, right, top)?;
    Ok(Heading::Left)
}

/// One rule where the head goes to the right. `NoRule` where there is no token.
pub(crate) fn step_right(
    ropes: &mut Ropes,
    left: &mut Vec<Token>,
    right: &mut Vec<Token>,
    answer: Answer,
) -> Result<Heading, GivenUp>
    requires { BothRopesBelow ropes.old left.old.items right.old.items }
    ensures { IfOk result (λ heading. (beyond : Beyond) → Leads beyond
        (record { ropes = ropes.old; lefts = left.old.items; rights = right.old.items; heading = Right answer })
        (record { ropes = ropes.new; lefts = left.new.items; rights = right.new.items; heading = heading })) }
{
    let Some(top) = right.pop() else {
        return Err(GivenUp::NoRule);
    };
    match top {
        Token::X(g) => {
            put_left(ropes, left, top)?;
            Ok(Heading::Right(answer.turned(g)))
        }
        Token::Y(g) => {
            put_left(ropes, left, top)?;
            Ok(Heading::Right(answer.turned(g)))
        }
        Token::Cut => {
            let heading = at_cut(ropes, left, right, answer)?;
            Ok(heading)
        }
        Token::Rope(i) => {
            at_rope(ropes, left, right, answer, i)?;
            Ok(Heading::Right(answer))
        }
        _ => Err(GivenUp::NoRule),
    }
}

// At a rope, which was taken off: in A it is passed, in C it is wound behind an x, or opened.
fn at_rope(
    ropes: &mut Ropes,
    left: &mut Vec<Token>,
    right: &mut Vec<Token>,
    answer: Answer,
    i: usize,
) -> Result<(), GivenUp>
    requires sound { BothRopesBelow ropes.old left.old.items right.old.items }
    requires token { i < length ropes.old }
    ensures { OnOk result
        (PassesTo (λ l r. rightward answer l (rope_right (groups_at ropes.old i) r))
        (Right answer) ropes.old ropes.new left.old.items left.new.items right.old.items right.new.items) }
{
    match answer {
        Answer::A => {
            ropes.are_odd();
            put_left(ropes, left, Token::Rope(i))?;
            Ok(())
        }
        Answer::C => {
            open_left(ropes, left)?;
            if ends_with_x(left) && ropes.is_long(i) {
                wind(ropes, left, i)?;
                return Ok(());
            }
            open_right(ropes, right, i)?;
            Ok(())
        }
    }
}

// Whether the last token is a group.
fn ends_with_x(tokens: &[Token]) -> bool {
    matches!(tokens.last(), Some(Token::X(_)))
}

// Puts a long rope before the left half tape that was read in C, behind an x.
fn wind(ropes: &mut Ropes, left: &mut Vec<Token>, i: usize) -> Result<(), GivenUp>
    requires below { RopeAndTokensBelow ropes.old i left.old.items }
    requires long { AreLong (groups_at ropes.old i) }
    ensures old { RopesAdded ropes.old ropes.new }
    ensures winds { OnOk result (Winds (groups_at ropes.old i) ropes.old ropes.new left.old.items left.new.items) }
{
    ropes.are_odd();
    pay(ropes, left, 1)?;
    left.push(Token::Wound(i))?;
    put_left(ropes, left, Token::X(1))?;
    Ok(())
}

// The two stacks of tokens, the nearest one last: what is put before a half tape, and what is taken off it.
ghost use Rattle.std.specs.Prelude.{◌≡◌, ◌≤◌, ◌+◌, ◌-◌, ◌∷◌, [], ℕ, length, IfOk, OnOk, IfSome, IsTrue};
ghost use Rattle.kind_named.specs.inside.Tokens.{RopesAdded, RopeBelow, RopesBelow, RopeAndTokensBelow, Merges, PutsLeft, PutsRight, OnlyOpens, Pays};
ghost use Rattle.kind_named.specs.declared.tokens.Token.TheVariants.{X, Separator, Rope, Wound};

use crate::ropes::{Opened, Ropes, sum};
use crate::run::GivenUp;
use crate::tokens::Token;

// The most ropes that are opened in a row.
const MAX_OPENINGS: u64 = 1_000_000;

// The one token that two groups are.
fn merged(top: Token, token: Token) -> Result<Option<Token>, GivenUp>
    ensures { IfOk result (λ o. IfSome o (λ both. Merges top token both)) }
{
    match (top, token) {
        (Token::X(a), Token::X(b)) => Ok(Some(Token::X(sum(a, b)?))),
        (Token::X(a), Token::Y(b)) => Ok(Some(Token::Y(sum(a, b)?))),
        (Token::Y(a), Token::X(b)) => Ok(Some(Token::Y(sum(a, b)?))),
        (Token::Y(_), Token::Y(_)) => Err(GivenUp::NoRule),
        _ => Ok(None),
    }
}

// Whether a token is no word at all.
fn is_none(token: Token) -> bool
    ensures { IsTrue result → token ≡ X 0 }
{
    matches!(token, Token::X(0))
}

/// Puts a token before the right half tape.
pub(crate) fn put_right(ropes: &Ropes, right: &mut Vec<Token>, token: Token) -> Result<(), GivenUp>
    requires right { RopesBelow (length ropes.now) right.old.items }
    requires token { RopeBelow (length ropes.now) token }
    ensures { OnOk result (PutsRight ropes.now ropes.now token right.old.items right.new.items) }
{
    if is_none(token) {
        return Ok(());
    }
    let Some(top) = right.pop() else {
        right.push(token)?;
        return Ok(());
    };
    match merged(top, token)? {
        Some(both) => right.push(both)?,
        None => {
            right.push(top)?;
            right.push(token)?;
        }
    }
    Ok(())
}

// Puts a token before the left half tape, with no look into a rope there.
fn put_plain(ropes: &Ropes, left: &mut Vec<Token>, token: Token) -> Result<(), GivenUp>
    requires left { RopesBelow (length ropes.now) left.old.items }
    requires token { RopeBelow (length ropes.now) token }
    ensures { OnOk result (PutsLeft ropes.now ropes.now token left.old.items left.new.items) }
{
    let Some(top) = left.pop() else {
        left.push(token)?;
        return Ok(());
    };
    match merged(top, token)? {
        Some(both) => left.push(both)?,
        None => {
            left.push(top)?;
            left.push(token)?;
        }
    }
    Ok(())
}

/// Opens ropes at the end of the left half tape, until its last token is none.
pub(crate) fn open_left(ropes: &mut Ropes, left: &mut Vec<Token>) -> Result<(), GivenUp>
    requires { RopesBelow (length ropes.old) left.old.items }
    ensures { OnlyOpens result ropes.old ropes.new left.old.items left.new.items }
{
    for _ in 0..MAX_OPENINGS {
        if !open_once(ropes, left)? {
            return Ok(());
        }
    }
    Err(GivenUp::TooLong)
}

// Opens a rope at the end of the left half tape once; whether there was one.
fn open_once(ropes: &mut Ropes, left: &mut Vec<Token>) -> Result<bool, GivenUp>
    requires { RopesBelow (length ropes.old) left.old.items }
    ensures { OnlyOpens result ropes.old ropes.new left.old.items left.new.items }
{
    let Some(top) = left.pop() else {
        return Ok(false);
    };
    match top {
        Token::Rope(i) => {
            open_rope(ropes, left, i)?;
            Ok(true)
        }
        Token::Wound(i) => {
            open_wound(ropes, left, i)?;
            Ok(true)
        }
        _ => {
            left.push(top)?;
            Ok(false)
        }
    }
}

// Puts a rope before the left half tape in parts.
fn open_rope(ropes: &mut Ropes, left: &mut Vec<Token>, i: usize) -> Result<(), GivenUp>
    requires { RopeAndTokensBelow ropes.old i left.old.items }
    ensures old { RopesAdded ropes.old ropes.new }
    ensures put { OnOk result (PutsLeft ropes.old ropes.new (Rope i) left.old.items left.new.items) }
{
    match ropes.open(i, false)? {
        Opened::Group(g) => {
            left.extend_from_slice(&[Token::Cut, Token::X(g)])?;
        }
        Opened::Two(a, b) => {
            left.extend_from_slice(&[Token::Rope(a), Token::Rope(b)])?;
        }
    }
    Ok(())
}

// Puts a rope that was read in C before the left half tape in parts.
pub(crate) fn open_wound(ropes: &mut Ropes, left: &mut Vec<Token>, i: usize) -> Result<(), GivenUp>
    requires { RopeAndTokensBelow ropes.old i left.old.items }
    ensures old { RopesAdded ropes.old ropes.new }
    ensures put { OnOk result (PutsLeft ropes.old ropes.new (Wound i) left.old.items left.new.items) }
{
    match ropes.open(i, false)? {
        Opened::Group(g) => {
            let rest = g.saturating_sub(2);
            left.extend_from_slice(&[
                Token::Separator(1),
                Token::X(1),
                Token::Cut,
                Token::X(rest),
            ])?;
        }
        Opened::Two(a, b) => {
            left.extend_from_slice(&[Token::Wound(a), Token::Wound(b)])?;
        }
    }
    Ok(())
}

// Puts a rope before the left half tape: with one that stands there it is one rope.
fn put_rope(ropes: &mut Ropes, left: &mut Vec<Token>, i: usize) -> Result<(), GivenUp>
    requires { RopeAndTokensBelow ropes.old i left.old.items }
    ensures old { RopesAdded ropes.old ropes.new }
    ensures put { OnOk result (PutsLeft ropes.old ropes.new (Rope i) left.old.items left.new.items) }
{
    match left.pop() {
        Some(Token::Rope(before)) => {
            let both = ropes.join(before, i)?;
            left.push(Token::Rope(both))?;
        }
        Some(top) => {
            left.push(top)?;
            left.push(Token::Rope(i))?;
        }
        None => left.push(Token::Rope(i))?,
    }
    Ok(())
}

/// Puts a token before the left half tape.
pub(crate) fn put_left(
    ropes: &mut Ropes,
    left: &mut Vec<Token>,
    token: Token,
) -> Result<(), GivenUp>
    requires left { RopesBelow (length ropes.old) left.old.items }
    requires token { RopeBelow (length ropes.old) token }
    ensures old { RopesAdded ropes.old ropes.new }
    ensures put { OnOk result (PutsLeft ropes.old ropes.new token left.old.items left.new.items) }
{
    match token {
        Token::Rope(i) => put_rope(ropes, left, i),
        Token::X(n) => {
            if n == 0 {
                return Ok(());
            }
            open_left(ropes, left)?;
            put_plain(ropes, left, token)
        }
        Token::Y(_) => {
            open_left(ropes, left)?;
            put_plain(ropes, left, token)
        }
        _ => put_plain(ropes, left, token),
    }
}

/// Takes words x off the end of the left half tape, if its last token has so many.
pub(crate) fn pay(ropes: &Ropes, left: &mut Vec<Token>, count: u128) -> Result<(), GivenUp>
    requires { RopesBelow (length ropes.now) left.old.items }
    ensures { OnOk result (Pays ropes.now count left.old.items left.new.items) }
{
    match left.pop() {
        Some(Token::X(n)) => {
            if count == n {
                return Ok(());
            }
            if n < count {
                return Err(GivenUp::NoRule);
            }
            left.push(Token::X(n - count))?;
            Ok(())
        }
        Some(Token::Y(n)) if count <= n => {
            left.push(Token::Y(n - count))?;
            Ok(())
        }
        _ => Err(GivenUp::NoRule),
    }
}

/// Puts a 1 before the left half tape: behind 10 that is x.
pub(crate) fn put_one(ropes: &mut Ropes, left: &mut Vec<Token>) -> Result<(), GivenUp>
    requires { RopesBelow (length ropes.old) left.old.items }
    ensures old { RopesAdded ropes.old ropes.new }
    ensures put { OnOk result (PutsLeft ropes.old ropes.new (Separator 0) left.old.items left.new.items) }
{
    open_left(ropes, left)?;
    match left.pop() {
        Some(Token::Cut) => {
            put_left(ropes, left, Token::X(1))?;
            Ok(())
        }
        Some(top) => {
            left.push(top)?;
            left.push(Token::Separator(0))?;
            Ok(())
        }
        None => {
            left.push(Token::Separator(0))?;
            Ok(())
        }
    }
}

/// Puts a rope before the right half tape in parts.
pub(crate) fn open_right(ropes: &mut Ropes, right: &mut Vec<Token>, i: usize) -> Result<(), GivenUp>
    requires { RopeAndTokensBelow ropes.old i right.old.items }
    ensures old { RopesAdded ropes.old ropes.new }
    ensures put { OnOk result (PutsRight ropes.old ropes.new (Rope i) right.old.items right.new.items) }
{
    match ropes.open(i, true)? {
        Opened::Group(g) => {
            put_right(ropes, right, Token::X(g))?;
            right.push(Token::Cut)?;
        }
        Opened::Two(a, b) => {
            right.extend_from_slice(&[Token::Rope(b), Token::Rope(a)])?;
        }
    }
    Ok(())
}

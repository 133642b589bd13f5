// Before a jump: what it goes through is taken off the left half tape, as far as visits from the right are passed on.
ghost use Rattle.std.specs.Prelude.{◌≡◌, ◌≤◌, length, IfOk, OnOk, IsTrue};
ghost use Rattle.kind_named.specs.inside.Tokens.{c_left, separator_left, RopesAdded, RopesBelow, OnlyOpens};
ghost use Rattle.kind_named.specs.inside.Sections.{TokensAndSectionsBelow, TakesOff, PutsSeparator};

use crate::glider::glider;
use crate::jump::{Section, periods_of};
use crate::ropes::Ropes;
use crate::run::GivenUp;
use crate::stacks::open_left;
use crate::tokens::{Token, ends_with};
use crate::visit::Answer;

// The most sections of a jump.
const MAX_SECTIONS: u64 = 1_000_000;

// The most separators of a jump. With 16 the run did not come to its repeat in 1.9 * 10^9 rules; with 48 it takes 231
// million.
const MAX_SEPARATORS: u32 = 48;

// Takes one section off the left half tape, where visits of it that are to have the answer `want` are visits of what is
// before it, each with the answer that is returned.
fn gather_one(
    ropes: &mut Ropes,
    left: &mut Vec<Token>,
    taken: &mut Vec<Section>,
    want: Answer,
) -> Result<Option<Answer>, GivenUp>
    requires { TokensAndSectionsBelow ropes.old left.old.items taken.old.items }
    ensures old { RopesAdded ropes.old ropes.new }
    ensures gathers { OnOk result
        (TakesOff (λ l. l) ropes.old ropes.new left.old.items left.new.items taken.old.items taken.new.items) }
{
    let Some(top) = left.pop() else {
        return Ok(None);
    };
    match top {
        Token::X(g) => {
            taken.push(Section::Group(g))?;
            Ok(Some(want.turned(g)))
        }
        Token::Rope(i) => {
            if want.is_a() {
                taken.push(Section::Rope(i))?;
                return Ok(Some(Answer::A));
            }
            left.push(top)?;
            Ok(None)
        }
        Token::Cut => {
            let next = gather_cut(ropes, left, taken, want)?;
            Ok(next)
        }
        Token::Separator(digit) => {
            let next = gather_token(ropes, left, taken, digit, want)?;
            Ok(next)
        }
        _ => {
            left.push(top)?;
            Ok(None)
        }
    }
}

// The answer that a separator gives.
fn is_wanted(digit: u8, want: Answer) -> bool {
    match want {
        Answer::A => digit % 2 == 0,
        Answer::C => digit % 2 == 1,
    }
}

// At a word c, which was taken off: two of them are a separator.
fn gather_cut(
    ropes: &mut Ropes,
    left: &mut Vec<Token>,
    taken: &mut Vec<Section>,
    want: Answer,
) -> Result<Option<Answer>, GivenUp>
    requires { TokensAndSectionsBelow ropes.old left.old.items taken.old.items }
    ensures old { RopesAdded ropes.old ropes.new }
    ensures gathers { OnOk result
        (TakesOff (λ l. c_left l) ropes.old ropes.new left.old.items left.new.items taken.old.items taken.new.items) }
{
    if want.is_a() {
        left.push(Token::Cut)?;
        return Ok(None);
    }
    let Some(top) = left.pop() else {
        taken.push(Section::Cut)?;
        return Ok(Some(Answer::A));
    };
    match top {
        Token::Cut => {
            let next = gather_separator(ropes, left, taken, 3)?;
            Ok(next)
        }
        _ => {
            left.push(top)?;
            taken.push(Section::Cut)?;
            Ok(Some(Answer::A))
        }
    }
}

// At a separator of one token, which was taken off.
fn gather_token(
    ropes: &mut Ropes,
    left: &mut Vec<Token>,
    taken: &mut Vec<Section>,
    digit: u8,
    want: Answer,
) -> Result<Option<Answer>, GivenUp>
    requires { TokensAndSectionsBelow ropes.old left.old.items taken.old.items }
    ensures old { RopesAdded ropes.old ropes.new }
    ensures gathers { OnOk result
        (TakesOff (λ l. separator_left digit l) ropes.old ropes.new left.old.items left.new.items taken.old.items
        taken.new.items) }
{
    if !is_wanted(digit, want) {
        left.push(Token::Separator(digit))?;
        return Ok(None);
    }
    gather_separator(ropes, left, taken, digit)
}

// At a separator, which was taken off: it is a section with the words x before it.
fn gather_separator(
    ropes: &mut Ropes,
    left: &mut Vec<Token>,
    taken: &mut Vec<Section>,
    digit: u8,
) -> Result<Option<Answer>, GivenUp>
    requires { TokensAndSectionsBelow ropes.old left.old.items taken.old.items }
    ensures old { RopesAdded ropes.old ropes.new }
    ensures gathers { OnOk result
        (TakesOff (λ l. separator_left digit l) ropes.old ropes.new left.old.items left.new.items taken.old.items
        taken.new.items) }
{
    open_ropes(ropes, left)?;
    let Some(top) = left.pop() else {
        put_back(ropes, left, digit)?;
        return Ok(None);
    };
    match top {
        Token::X(r) => {
            taken.push(Section::Separator(digit, r))?;
            Ok(Some(wanted(digit, r)))
        }
        _ => {
            left.push(top)?;
            put_back(ropes, left, digit)?;
            Ok(None)
        }
    }
}

// Opens ropes at the end of the left half tape, but none that was read in C: that would be wound up for nothing.
fn open_ropes(ropes: &mut Ropes, left: &mut Vec<Token>) -> Result<(), GivenUp>
    requires { RopesBelow (length ropes.old) left.old.items }
    ensures { OnlyOpens result ropes.old ropes.new left.old.items left.new.items }
{
    if is_rope_last(left) {
        return open_left(ropes, left);
    }
    Ok(())
}

// Whether the last token is a rope.
fn is_rope_last(tokens: &[Token]) -> bool {
    matches!(tokens.last(), Some(Token::Rope(_)))
}

// The answer that is wanted before the words x before a separator.
fn wanted(digit: u8, before: u128) -> Answer {
    let own = if digit == 0 || digit == 3 {
        Answer::C
    } else {
        Answer::A
    };
    own.turned(before)
}

// Puts a separator before the left half tape.
pub(crate) fn put_back(ropes: &Ropes, left: &mut Vec<Token>, digit: u8) -> Result<(), GivenUp>
    requires { RopesBelow (length ropes.now) left.old.items }
    ensures { OnOk result (PutsSeparator digit ropes.now left.old.items left.new.items) }
{
    if digit == 3 {
        left.push(Token::Cut)?;
        left.push(Token::Cut)?;
        return Ok(());
    }
    left.push(Token::Separator(digit))?;
    Ok(())
}

/// Takes sections off the left half tape, as far as visits from the right are passed on, up to `MAX_SEPARATORS`
/// separators. If the glider stands before them, for how many of its periods they can be visited; otherwise 0.
pub(crate) fn gather(
    ropes: &mut Ropes,
    left: &mut Vec<Token>,
    taken: &mut Vec<Section>,
) -> Result<u128, GivenUp>
    requires { TokensAndSectionsBelow ropes.old left.old.items taken.old.items }
    ensures old { RopesAdded ropes.old ropes.new }
    ensures gathers { OnOk result
        (TakesOff (λ l. l) ropes.old ropes.new left.old.items left.new.items taken.old.items taken.new.items) }
{
    let mut want = Answer::A;
    let mut rest = MAX_SEPARATORS;
    for _ in 0..MAX_SECTIONS {
        if rest == 0 {
            return Ok(0);
        }
        let Some(next) = gather_one(ropes, left, taken, want)? else {
            return Ok(0);
        };
        let periods = glides_behind(ropes, left, taken)?;
        if periods > 0 {
            return Ok(periods);
        }
        want = next;
        rest = fewer(rest, taken);
    }
    Err(GivenUp::TooLong)
}

// For how many periods the sections can be visited, if the glider stands before them.
fn glides_behind(
    ropes: &mut Ropes,
    left: &mut Vec<Token>,
    taken: &[Section],
) -> Result<u128, GivenUp>
    requires { RopesBelow (length ropes.old) left.old.items }
    ensures { OnlyOpens result ropes.old ropes.new left.old.items left.new.items }
{
    let periods = periods_of(taken);
    if periods == 0 {
        return Ok(0);
    }
    if ends_with(ropes, left, &glider())? {
        return Ok(periods);
    }
    Ok(0)
}

// One less behind a separator.
fn fewer(rest: u32, taken: &[Section]) -> u32 {
    match taken.last() {
        Some(Section::Separator(_, _)) => rest.saturating_sub(1),
        _ => rest,
    }
}

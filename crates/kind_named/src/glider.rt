// The glider: a row of tokens that moves on by itself, its periods, and jumps of many of them.
ghost use Rattle.std.specs.Prelude.{◌≡◌, ◌++◌, ◌∷◌, [], ◌<◌, ◌≤◌, ◌%◌, length, ℕ, IfOk, OnOk, IsTrue, ◌*◌};
ghost use Rattle.kind_named.specs.inside.Tokens.{groups_at, RopesAdded, RopesBelow};
ghost use Rattle.kind_named.specs.declared.tokens.Token.TheVariants.{X, Cut};
ghost use Rattle.kind_named.specs.inside.Loop.{glider_tokens, glider_gap, glider_block, glider_visits, glider_end, GliderGlides, VisitsOften};
ghost use Rattle.kind_named.specs.declared.jump.Section.TheVariants.{Group, Separator};
ghost use Rattle.kind_named.specs.inside.Sections.{TokensAndSectionsBelow, Glided};

use crate::jump::Section;
use crate::ropes::{Ropes, product};
use crate::run::GivenUp;
use crate::tokens::{Beyond, Token, take_tail};
use crate::visit::visit;
use std::alloc::Global;

/// How many visits a period has.
pub(crate) const VISITS: u128 = 215_779;
/// How many words x of its group a period takes.
pub(crate) const FALL: u128 = 107_892;
/// How many words x are behind it.
pub(crate) const GAP: u128 = 144_243;
// How many tokens it has.
const TOKENS: usize = 35;

/// The glider's tokens before its group.
#[tactic(auto, unfolding(crate::specs::inside::Loop::glider_tokens))]
pub(crate) fn glider() -> [Token; TOKENS]
    ensures is { result ≡ glider_tokens }
    ensures free { (n : ℕ) → RopesBelow n result }
{
    [
        Token::Separator(1),
        Token::X(15_281),
        Token::Cut,
        Token::X(20_691),
        Token::Separator(2),
        Token::X(15_278),
        Token::Cut,
        Token::X(20_696),
        Token::Cut,
        Token::Cut,
        Token::X(15_267),
        Token::Cut,
        Token::X(20_719),
        Token::Separator(2),
        Token::X(15_222),
        Token::Cut,
        Token::X(20_808),
        Token::Cut,
        Token::Cut,
        Token::X(15_043),
        Token::Cut,
        Token::X(21_168),
        Token::Separator(0),
        Token::X(14_324),
        Token::Cut,
        Token::X(22_605),
        Token::Separator(1),
        Token::X(11_449),
        Token::Cut,
        Token::X(28_350),
        Token::Cut,
        Token::X(1),
        Token::Cut,
        Token::X(7_711),
        Token::Cut,
    ]
}

/// Puts the glider in the place of all tokens: its tokens, its group, cc and the gap.
pub(crate) fn put_glider(left: &mut Vec<Token>, group: Token) -> Result<(), GivenUp>
    ensures { OnOk result (left.new.items ≡ glider_tokens ++ group ∷ Cut ∷ Cut ∷ X glider_gap ∷ []) }
{
    left.clear();
    left.extend_from_slice(&glider())?;
    left.extend_from_slice(&[group, Token::Cut, Token::Cut, Token::X(GAP)])?;
    Ok(())
}

/// The rope that a period leaves behind.
#[tactic(auto, unfolding(crate::specs::inside::Loop::glider_block))]
pub(crate) fn block(ropes: &mut Ropes) -> Result<usize, GivenUp>
    ensures old { RopesAdded ropes.old ropes.new }
    ensures block { IfOk result (λ i. (i < length ropes.new) × (groups_at ropes.new i ≡ glider_block)) }
{
    let first = ropes.group(6_153)?;
    let two = with_group(ropes, first, 3_077)?;
    let three = with_group(ropes, two, 601)?;
    let four = with_group(ropes, three, 61_653)?;
    with_group(ropes, four, 144_285)
}

// A rope, and one group more behind it.
fn with_group(ropes: &mut Ropes, i: usize, g: u128) -> Result<usize, GivenUp>
    requires rope { i < length ropes.old }
    requires odd { g % 2 ≡ 1 }
    ensures old { RopesAdded ropes.old ropes.new }
    ensures both { IfOk result
        (λ j. (j < length ropes.new) × (groups_at ropes.new j ≡ groups_at ropes.old i ++ g ∷ [])) }
{
    let last = ropes.group(g)?;
    ropes.join(i, last)
}

// How many tokens stand behind the glider's after a period.
const BEHIND: usize = 14;

/// Whether a period of the glider is as it is said to be.
pub(crate) fn glider_glides(alloc: Global) -> Result<bool, GivenUp>
    ensures { IfOk result (λ yes. IsTrue yes → GliderGlides) }
{
    let mut ropes = Ropes::new(alloc);
    let mut left = Vec::new(alloc);
    let mut right = Vec::new(alloc);
    is_period(&mut ropes, &mut left, &mut right)
}

// Whether the visits of a period lead from the glider, with a group that stands for any even number of words x more, to
// the glider with a smaller group.
fn is_period(
    ropes: &mut Ropes,
    left: &mut Vec<Token>,
    right: &mut Vec<Token>,
) -> Result<bool, GivenUp>
    requires { right.old.items ≡ [] }
    ensures { IfOk result (λ yes. IsTrue yes → GliderGlides) }
{
    put_glider(left, Token::Y(FALL))?;
    if !visit_often(ropes, left, right)? {
        return Ok(false);
    }
    if !take_tail(ropes, left, &glider_end())? {
        return Ok(false);
    }
    let seen = take_tail(ropes, left, &glider())?;
    Ok(seen)
}

// What stands behind the glider's tokens after a period.
#[tactic(auto, unfolding(crate::specs::inside::Loop::glider_end))]
fn glider_end() -> [Token; BEHIND]
    ensures is { result ≡ glider_end }
    ensures free { (n : ℕ) → RopesBelow n result }
{
    [
        Token::Y(0),
        Token::Cut,
        Token::Cut,
        Token::X(144_243),
        Token::Cut,
        Token::X(6_153),
        Token::Cut,
        Token::X(3_077),
        Token::Cut,
        Token::X(601),
        Token::Cut,
        Token::X(61_653),
        Token::Cut,
        Token::X(144_285),
    ]
}

// Visits for a period; whether all are answered by A.
fn visit_often(
    ropes: &mut Ropes,
    left: &mut Vec<Token>,
    right: &mut Vec<Token>,
) -> Result<bool, GivenUp>
    requires left { RopesBelow (length ropes.old) left.old.items }
    requires right { right.old.items ≡ [] }
    ensures { IfOk result
        (λ yes. IsTrue yes → VisitsOften glider_visits ropes.old ropes.new left.old.items left.new.items) }
{
    for _ in 0..VISITS as u64 {
        let answer = visit(ropes, left, right, Beyond::Unknown)?;
        if !answer.is_a() {
            return Ok(false);
        }
    }
    Ok(true)
}

// Takes the last two sections, which are the glider's group and the gap behind it. The words x of its group.
fn take_group(taken: &mut Vec<Section>) -> Result<u128, GivenUp>
    ensures { IfOk result (λ b. taken.old.items ≡ (taken.new.items ++ Group glider_gap ∷ []) ++ Separator 3 b ∷ []) }
{
    let Some(last) = taken.pop() else {
        return Err(GivenUp::NoRule);
    };
    let Section::Separator(digit, group) = last else {
        return Err(GivenUp::NoRule);
    };
    if digit != 3 {
        return Err(GivenUp::NoRule);
    }
    take_gap(taken)?;
    Ok(group)
}

// Takes the last section, which is the gap.
fn take_gap(taken: &mut Vec<Section>) -> Result<(), GivenUp>
    ensures { OnOk result (taken.old.items ≡ taken.new.items ++ Group glider_gap ∷ []) }
{
    let Some(last) = taken.pop() else {
        return Err(GivenUp::NoRule);
    };
    let Section::Group(n) = last else {
        return Err(GivenUp::NoRule);
    };
    if n != GAP {
        return Err(GivenUp::NoRule);
    }
    Ok(())
}

/// The glider goes on by so many periods. How often it is visited.
pub(crate) fn glide(
    ropes: &mut Ropes,
    left: &mut Vec<Token>,
    taken: &mut Vec<Section>,
    periods: u128,
) -> Result<u128, GivenUp>
    requires below { TokensAndSectionsBelow ropes.old left.old.items taken.old.items }
    requires some { 1 ≤ periods }
    requires glides { GliderGlides }
    ensures old { RopesAdded ropes.old ropes.new }
    ensures glided { IfOk result
        (λ t. Glided t ropes.old ropes.new left.old.items left.new.items taken.old.items taken.new.items) }
{
    let group = take_group(taken)?;
    let less = product(periods, FALL)?;
    let visits = product(periods, VISITS)?;
    if group < less {
        return Err(GivenUp::NoRule);
    }
    let rest = group - less;
    if rest % 2 != 0 {
        return Err(GivenUp::NoRule);
    }
    if !take_tail(ropes, left, &glider())? {
        return Err(GivenUp::NoRule);
    }
    let one = block(ropes)?;
    let row = ropes.repeat(one, periods)?;
    put_glider(left, Token::X(rest))?;
    left.push(Token::Rope(row))?;
    Ok(visits)
}

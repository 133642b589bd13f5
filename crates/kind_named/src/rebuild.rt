// After a jump: the sections are put back, each as the visits leave it.
ghost use Rattle.std.specs.Prelude.{◌≡◌, ◌≤◌, ◌<◌, ◌+◌, ◌-◌, ◌/◌, ◌%◌, ℕ, length, IfOk, OnOk, IsTrue, List};
ghost use Rattle.machine_text.specs.declared.table.Sym.{Sym};
ghost use Rattle.kind_named.specs.inside.Tokens.{turned, RopesAdded, Visits, separator_answer, paid, RopesBelow, tokens_left};
ghost use Rattle.kind_named.specs.declared.visit.Answer.TheVariants.{A, C};
ghost use Rattle.kind_named.specs.declared.jump.Section.TheVariants.{Separator};
ghost use Rattle.kind_named.specs.inside.Sections.{SectionRopeBelow, TokensAndSectionsBelow, Rebuilds, PutsSeparator, sections_left};

use crate::gather::put_back;
use crate::jump::Section;
use crate::ropes::{Ropes, sum};
use crate::run::GivenUp;
use crate::stacks::put_left;
use crate::tokens::Token;
use crate::visit::Answer;

// Whether each of so many visits has the answer that is asked.
fn suits(count: u128, given: Answer, asked: Answer) -> bool
    ensures { IsTrue result → 1 ≤ count → given ≡ asked }
{
    count == 0 || given == asked
}

// The answer of a separator.
fn answer_of(digit: u8) -> Answer
    requires { digit ≤ 3 }
    ensures { result ≡ separator_answer digit }
{
    match digit {
        0 => Answer::A,
        1 => Answer::C,
        2 => Answer::A,
        _ => Answer::C,
    }
}

// How many words x so many visits of a separator take.
fn payment(digit: u128, count: u128) -> Result<u128, GivenUp>
    requires { digit ≤ 3 }
    ensures { IfOk result (λ n. n ≡ paid digit count) }
{
    let all = sum(digit, count)?;
    let more = sum(all, 1)?;
    Ok(more / 2 - (digit + 1) / 2)
}

// Puts a section back, where what is before it is visited `inside` times, each time with the answer `given`. How often
// the section is visited, and the answer that it gives. A separator is to be visited `count` times, as planned; that is
// tested.
fn rebuild_one(
    ropes: &mut Ropes,
    left: &mut Vec<Token>,
    section: Section,
    count: u128,
    inside: u128,
    given: Answer,
) -> Result<(u128, Answer), GivenUp>
    requires left { RopesBelow (length ropes.old) left.old.items }
    requires section { SectionRopeBelow (length ropes.old) section }
    ensures old { RopesAdded ropes.old ropes.new }
    ensures rebuilds { IfOk result
        (λ p. Rebuilds section given inside p.1 p.0 ropes.old ropes.new left.old.items left.new.items) }
{
    match section {
        Section::Group(g) => {
            put_left(ropes, left, Token::X(g))?;
            Ok((inside, given.turned(g)))
        }
        Section::Cut => {
            if !suits(inside, given, Answer::A) {
                return Err(GivenUp::NoRule);
            }
            put_left(ropes, left, Token::Cut)?;
            Ok((inside, Answer::C))
        }
        Section::Rope(i) => {
            if !suits(inside, given, Answer::A) {
                return Err(GivenUp::NoRule);
            }
            ropes.are_odd();
            put_left(ropes, left, Token::Rope(i))?;
            Ok((inside, Answer::A))
        }
        Section::Separator(digit, before) => {
            let own = rebuild_separator(ropes, left, digit, before, count, inside, given)?;
            Ok((count, own))
        }
    }
}

// Puts a separator back, with the words x before it.
fn rebuild_separator(
    ropes: &mut Ropes,
    left: &mut Vec<Token>,
    digit: u8,
    before: u128,
    count: u128,
    inside: u128,
    given: Answer,
) -> Result<Answer, GivenUp>
    requires { RopesBelow (length ropes.old) left.old.items }
    ensures old { RopesAdded ropes.old ropes.new }
    ensures rebuilds { IfOk result
        (λ a. Rebuilds (Separator digit before) given inside a count ropes.old ropes.new left.old.items
        left.new.items) }
{
    if digit > 3 {
        return Err(GivenUp::NoRule);
    }
    let own = digit as u128;
    let all = sum(own, count)?;
    let less = payment(own, count)?;
    if inside != all / 4 || less >= before {
        return Err(GivenUp::NoRule);
    }
    let asked = given.turned(before).turned((own + 1) / 2);
    if !suits(inside, asked, Answer::C) {
        return Err(GivenUp::NoRule);
    }
    put_left(ropes, left, Token::X(before - less))?;
    put_back(ropes, left, (all % 4) as u8)?;
    put_left(ropes, left, Token::X(count))?;
    Ok(answer_of(digit))
}

/// Puts all sections back, where what is before them is visited `inside` times, each time with the answer `given`. How
/// often the whole is visited, each time with the answer A.
pub(crate) fn rebuild(
    ropes: &mut Ropes,
    left: &mut Vec<Token>,
    taken: &mut Vec<Section>,
    plan: &mut Vec<u128>,
    inside: u128,
    given: Answer,
) -> Result<u128, GivenUp>
    requires { TokensAndSectionsBelow ropes.old left.old.items taken.old.items }
    ensures within { OnOk result (RopesBelow (length ropes.new) left.new.items) }
    ensures old { RopesAdded ropes.old ropes.new }
    ensures visits { IfOk result
        (λ t. (b : ℕ) (l k : List Sym) → Visits given inside k (tokens_left b ropes.old left.old.items l) →
        Visits A t (sections_left ropes.old taken.old.items k) (tokens_left b ropes.new left.new.items l)) }
{
    let mut n = inside;
    let mut a = given;
    while let Some(section) = taken.pop() {
        let count = planned(section, plan);
        let (m, b) = rebuild_one(ropes, left, section, count, n, a)?;
        n = m;
        a = b;
    }
    if !suits(n, a, Answer::A) {
        return Err(GivenUp::NoRule);
    }
    Ok(n)
}

// How often a section is to be visited, as planned.
fn planned(section: Section, plan: &mut Vec<u128>) -> u128 {
    match section {
        Section::Separator(_, _) => plan.pop().unwrap_or(0),
        _ => 0,
    }
}

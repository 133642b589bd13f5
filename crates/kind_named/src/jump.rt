// A jump: as many visits at once as the separators of the left half tape bear.
ghost use Rattle.std.specs.Prelude.{◌≡◌, ◌<◌, length, ℕ, IfOk, OnOk};
ghost use Rattle.kind_named.specs.inside.Loop.{GliderGlides};
ghost use Rattle.kind_named.specs.inside.Tokens.{RopesBelow, JumpsTo};

use crate::gather::gather;
use crate::glider::{FALL, GAP, VISITS, glide};
use crate::rebuild::rebuild;
use crate::ropes::Ropes;
use crate::run::GivenUp;
use crate::tokens::{Beyond, Token};
use crate::visit::Answer;

/// A section of a left half tape that a jump goes through.
#[derive(Clone, Copy)]
pub enum Section {
    /// The word x so many times.
    Group(u128),
    /// The word c.
    Cut,
    /// A rope by its number.
    Rope(usize),
    /// A separator by its digit, 0 to 3, and how many words x stand before it: these pay for its visits.
    Separator(u8, u128),
}

// More visits than any jump has: some 2^84.
const MANY: u128 = 1 << 120;

// How many visits a separator bears, with so many words x before it, so that one is left.
fn limit(digit: u8, before: u128) -> u128 {
    before
        .saturating_sub(1)
        .saturating_mul(2)
        .saturating_add((digit % 2) as u128)
}

/// For how many periods of the glider the sections can be visited, if the last two are its group and its gap.
pub(crate) fn periods_of(taken: &[Section]) -> u128 {
    let Some((last, rest)) = taken.split_last() else {
        return 0;
    };
    let Some(gap) = rest.last() else {
        return 0;
    };
    let group = glider_group(*last, *gap);
    if group <= FALL || group % 2 == 1 {
        return 0;
    }
    let mut most = MANY;
    for section in rest {
        if let Section::Separator(digit, before) = *section {
            most = most.min(limit(digit, before)).saturating_add(digit as u128) / 4;
        }
    }
    (most / VISITS).min((group - 1) / FALL)
}

// The words x of the glider's group, if the gap is behind it.
fn glider_group(last: Section, gap: Section) -> u128 {
    match (last, gap) {
        (Section::Separator(3, group), Section::Group(GAP)) => group,
        _ => 0,
    }
}

/// How often each separator is to be visited, the nearest one first, if the glider goes on by so many periods.
pub(crate) fn plan_visits(
    taken: &[Section],
    periods: u128,
    plan: &mut Vec<u128>,
) -> Result<(), GivenUp> {
    plan.clear();
    let mut count = nearest_visits(taken, periods);
    for section in taken {
        if let Section::Separator(digit, _) = *section {
            plan.push(count)?;
            count = count.saturating_add(digit as u128) / 4;
        }
    }
    Ok(())
}

// How often the nearest separator is to be visited: as often as all of them bear, or as the periods of the glider,
// which is behind the last of them, ask for.
fn nearest_visits(taken: &[Section], periods: u128) -> u128 {
    let mut count = periods.saturating_mul(VISITS);
    let mut is_glider = periods > 0;
    for section in taken.iter().rev() {
        if let Section::Separator(digit, before) = *section {
            if is_glider {
                is_glider = false;
            } else {
                count = visits_behind(digit, before, count, periods > 0);
            }
        }
    }
    count
}

// How many visits of a separator are so many of what is before it: exactly, or at most as it bears.
fn visits_behind(digit: u8, before: u128, inside: u128, exactly: bool) -> u128 {
    let four = inside.saturating_mul(4);
    if exactly {
        four.saturating_sub(digit as u128)
    } else {
        four.saturating_add(3)
            .saturating_sub(digit as u128)
            .min(limit(digit, before))
    }
}

/// As many visits at once as the separators of the left half tape bear: how many, and what is beyond the tokens then. A
/// jump that goes through the glider forgets what was before it.
pub(crate) fn jump(
    ropes: &mut Ropes,
    left: &mut Vec<Token>,
    taken: &mut Vec<Section>,
    plan: &mut Vec<u128>,
    beyond: Beyond,
) -> Result<(u128, Beyond), GivenUp>
    requires left { RopesBelow (length ropes.old) left.old.items }
    requires glides { GliderGlides }
    ensures { IfOk result (λ p. JumpsTo beyond p.1 p.0 ropes.old ropes.new left.old.items left.new.items) }
{
    taken.clear();
    let periods = gather(ropes, left, taken)?;
    plan_visits(taken, periods, plan)?;
    if periods == 0 {
        let count = rebuild(ropes, left, taken, plan, 0, Answer::A)?;
        return Ok((count, beyond));
    }
    let _ = plan.pop();
    let visits = glide(ropes, left, taken, periods)?;
    let count = rebuild(ropes, left, taken, plan, visits, Answer::A)?;
    Ok((count, Beyond::Unknown))
}

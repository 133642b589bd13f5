// Forms of configurations, rows of blocks, and rules between them.
ghost use Rattle.std.specs.Prelude.{◌≡◌};
ghost use Rattle.law_induction.specs.Terms.{same_side, instance_of, replaced, blocks_eq};
ghost use Rattle.kind_rules.specs.Views.{Yields};

use crate::numbers::substituted;
use crate::running::Stop;
use law_induction::{Block, Exponents};
use machine_text::Dir;
use std::alloc::{AllocError as NoMemory, Global};
use std::collections::VecDeque;

/// The blocks of the two half tapes, those nearest to the head first, the state, and on which half tape the head is.
#[derive(Drop)]
pub struct Form {
    pub left: Vec<Block>,
    pub state: u8,
    pub heading: Dir,
    pub right: Vec<Block>,
}

/// A rule: which ends are open, and the two forms.
#[derive(Drop)]
pub struct Rule {
    pub open_left: bool,
    pub open_right: bool,
    pub from: Form,
    pub to: Form,
}

// Whether two sides are the same.
pub(crate) fn same_side(a: Dir, b: Dir) -> bool
    ensures { result ≡ same_side a b }
{
    match (a, b) {
        (Dir::L, Dir::L) | (Dir::R, Dir::R) => true,
        (Dir::L, Dir::R) | (Dir::R, Dir::L) => false,
    }
}

impl Form {
    ghost use Rattle.std.specs.Prelude.{IfOk};
    ghost use Rattle.law_induction.specs.Terms.{form_eq, form_by};
    ghost use Rattle.kind_rules.specs.Views.{Yields, form_in};

    // A copy.
    pub(crate) fn copied(&self, alloc: Global) -> Result<Form, NoMemory>
        ensures { IfOk result (λ f. form_in f ≡ form_in self.now) }
    {
        let left = Vec::from_slice(alloc, &self.left)?;
        let right = Vec::from_slice(alloc, &self.right)?;
        Ok(Form {
            left,
            state: self.state,
            heading: self.heading,
            right,
        })
    }

    // With others in place of the variables.
    #[tactic(auto, unfolding(law_induction::specs::Rules::form_by))]
    pub(crate) fn by(&self, alloc: Global, by: &Exponents) -> Result<Form, Stop>
        ensures { Yields form_in (form_by by.now (form_in self.now)) result }
    {
        let left = instance(alloc, &self.left, by)?;
        let right = instance(alloc, &self.right, by)?;
        Ok(Form {
            left,
            state: self.state,
            heading: self.heading,
            right,
        })
    }

    // Whether it is another one.
    pub(crate) fn is(&self, other: &Form) -> bool
        ensures { result ≡ form_eq (form_in self.now) (form_in other.now) }
    {
        self.state == other.state
            && same_side(self.heading, other.heading)
            && are_same(&self.left, &other.left)
            && are_same(&self.right, &other.right)
    }
}

/// A form whose half tapes are queues, so that a step takes no longer where they are long.
#[derive(Drop)]
pub(crate) struct Queues {
    pub left: VecDeque<Block>,
    pub state: u8,
    pub heading: Dir,
    pub right: VecDeque<Block>,
}

// Whether two rows are the same.
pub(crate) fn are_same(a: &[Block], b: &[Block]) -> bool
    ensures { result ≡ blocks_eq a.now b.now }
{
    a == b
}

// A row with others in place of the variables.
#[tactic(auto, unfolding(law_induction::specs::Scripts::instance_of))]
pub(crate) fn instance(alloc: Global, blocks: &[Block], by: &Exponents) -> Result<Vec<Block>, Stop>
    ensures { Yields (λ v. v.items) (instance_of by.now blocks.now) result }
{
    let mut row = Vec::new(alloc);
    for block in blocks {
        match substituted(block.times, by) {
            Some(times) => row.push(Block {
                word: block.word,
                times,
            })?,
            None => return Err(Stop::Fails),
        }
    }
    Ok(row)
}

// Blocks in place of others that stand at a place.
#[tactic(auto, unfolding(law_induction::specs::Scripts::replaced))]
pub(crate) fn replaced(
    alloc: Global,
    row: &[Block],
    place: usize,
    old: &[Block],
    new: &[Block],
) -> Result<Vec<Block>, Stop>
    ensures { Yields (λ v. v.items) (replaced place old.now new.now row.now) result }
{
    if place > row.len() {
        return Err(Stop::Fails);
    }
    let rest = &row[place..];
    if !rest.starts_with(old) {
        return Err(Stop::Fails);
    }
    let mut changed = Vec::from_slice(alloc, &row[..place])?;
    changed.extend_from_slice(new)?;
    changed.extend_from_slice(&rest[old.len()..])?;
    Ok(changed)
}

// The search for a closed position set.
ghost use Rattle.std.specs.Prelude.{◌≡◌, ◌≤◌, min, IfSome, IfOk};
ghost use Rattle.ngram_cps.specs.Limits.{width_limit};
ghost use Rattle.ngram_cps.specs.Lists.{AreClosedLists, owned_lists};

use crate::fields::ListTexts;
use crate::least_set::LeastSet;
use crate::limits::{MAX_LIST_BYTES, MAX_WIDTH};
use crate::ngram::{Ngram, OwnedNgram};
use crate::words::Width;
use kind_evidence::NoMemory;
use machine_text::Table;
use std::alloc::Global;

// How many members a search may come to for each step of the budget, all widths together. A width is given up
// where the lists have no room for its members; up to then all the widths have less than 32,000 of them. So
// 1,000 steps are enough for each set that the lists have room for.
const MEMBERS_PER_STEP: u64 = 32;

/// Searches closed position sets.
#[derive(Drop)]
pub struct NgramFinder {
    alloc: Global,
    pub width: u64,
    // Kept from table to table.
    set: LeastSet,
    texts: ListTexts,
}

impl NgramFinder {
    /// A finder of sets of the widths up to this, and of none beyond `MAX_WIDTH`. Takes no memory.
    pub fn new(alloc: Global, width: u64) -> NgramFinder
        ensures { result.width ≡ width }
    {
        NgramFinder {
            alloc,
            width,
            set: LeastSet::new(alloc),
            texts: ListTexts::new(alloc),
        }
    }

    /// From where the finder takes its memory.
    pub fn allocator(&self) -> Global {
        self.alloc
    }

    /// A closed position set of the table within the finder's width; none where it finds none. What it gives
    /// stands, and is within the limits.
    ///
    /// For each width from 1 on it computes the least set that holds the blank tape and that no step leaves,
    /// and gives the first in which no member halts. It gives up a width whose lists would be longer than
    /// `MAX_LIST_BYTES`, and the search once its sets have had 32 members for each step of the budget. The
    /// sets take time in proportion to their members, and what is given is judged once. No contract says
    /// what is found or how long it takes.
    pub fn search(&mut self, t: &Table, budget: u64) -> Result<Option<OwnedNgram>, NoMemory>
        ensures found { IfOk result (λ o. IfSome o (λ e. AreClosedLists (owned_lists e) t.now)) }
        ensures width { IfOk result (λ o. IfSome o (λ e. (owned_lists e).width ≤ min self.old.width width_limit)) }
        ensures same { self.new.width ≡ self.old.width }
    {
        let widest = self.width.min(MAX_WIDTH as u64) as u8;
        let mut members = budget.saturating_mul(MEMBERS_PER_STEP);
        for symbols in 1..=widest {
            let found = self.search_width(t, Width { symbols }, members)?;
            if found.is_some() {
                return Ok(found);
            }
            members = members.saturating_sub(self.set.members.count() as u64);
        }
        Ok(None)
    }

    /// A closed position set of the table of just this width, at most the finder's; none where it finds none. What it
    /// gives stands, and is within the limits. The set has 32 members for each step of the budget at most.
    pub fn search_at(
        &mut self,
        t: &Table,
        width: u64,
        budget: u64,
    ) -> Result<Option<OwnedNgram>, NoMemory>
        ensures found { IfOk result (λ o. IfSome o (λ e. AreClosedLists (owned_lists e) t.now)) }
        ensures width { IfOk result (λ o. IfSome o (λ e. (owned_lists e).width ≡ width)) }
        ensures same { self.new.width ≡ self.old.width }
    {
        if width == 0 || width > self.width.min(MAX_WIDTH as u64) {
            return Ok(None);
        }
        let symbols = width as u8;
        self.search_width(
            t,
            Width { symbols },
            budget.saturating_mul(MEMBERS_PER_STEP),
        )
    }

    // A closed position set of a width, with so many members at most.
    fn search_width(
        &mut self,
        t: &Table,
        width: Width,
        members: u64,
    ) -> Result<Option<OwnedNgram>, NoMemory>
        ensures found { IfOk result (λ o. IfSome o (λ e. AreClosedLists (owned_lists e) t.now)) }
        ensures width { IfOk result (λ o. IfSome o (λ e. (owned_lists e).width ≡ width.symbols)) }
        ensures same { self.new.width ≡ self.old.width }
    {
        // A member and its comma have so many bytes.
        let item = 2 * width.symbols as usize + 3;
        let limit = members.min((MAX_LIST_BYTES / item) as u64) as usize;
        if !self.set.close(t, width, limit)? {
            return Ok(None);
        }
        self.texts.write(&mut self.set, width)?;
        self.checked(t, width)
    }

    // The lists that the texts are, if they are a closed position set.
    fn checked(&self, t: &Table, width: Width) -> Result<Option<OwnedNgram>, NoMemory>
        ensures found { IfOk result (λ o. IfSome o (λ e. AreClosedLists (owned_lists e) t.now)) }
        ensures width { IfOk result (λ o. IfSome o (λ e. (owned_lists e).width ≡ width.symbols)) }
    {
        let ListTexts { left, right, local } = &self.texts;
        if !Ngram::are_short(left, right, local) {
            return Ok(None);
        }
        let Some(lists) = Ngram::new(t.states(), width.symbols, left, right, local) else {
            return Ok(None);
        };
        if !lists.holds(t) {
            return Ok(None);
        }
        Ok(Some(OwnedNgram::of(self.alloc, &lists)?))
    }
}

// The search for counted automata.
ghost use Rattle.std.specs.Prelude.{◌≡◌, ◌+◌, ◌≤◌, min, IfSome, IfOk};
ghost use Rattle.kind_counted.specs.Terms.{owned_coset_texts};
ghost use Rattle.find_counted.specs.Findings.{AreCosetsFound};
ghost use Rattle.find_counted.specs.Limits.{found_count_limit};

use crate::automata::{Automaton, append_automaton, append_cosets};
use crate::closing::Closing;
use crate::half_tapes::{HalfTapes, HalfTree};
use crate::limits::{MAX_FOUND_COUNTS, STEPS, WINDOWS};
use cert::{Finder, OwnedCertificate};
use kind_counted::{CountedCosets, OwnedCosets};
use kind_evidence::{Evidence, NoMemory, Refused};
use machine_text::{Dir, Table};
use std::alloc::Global;

/// Searches counted automata with their cosets.
#[derive(Drop)]
pub struct CountedFinder {
    alloc: Global,
    pub counts: u64,
}

impl CountedFinder {
    /// A finder of automata with up to so many counts together, and no more than `MAX_FOUND_COUNTS`.
    pub fn new(alloc: Global, counts: u64) -> CountedFinder
        ensures { result.counts ≡ counts }
    {
        CountedFinder { alloc, counts }
    }

    /// From where the finder takes its memory.
    pub fn allocator(&self) -> Global {
        self.alloc
    }

    /// Counted automata that stand for a table, with the finder's counts at most; none where it finds none.
    ///
    /// The automata are learned from the half tapes of the run's first 2,000 steps: two beginnings of half tapes are
    /// one state where the same was seen to follow them, and every transition but the first into each state has a
    /// count of its own. By these the least cosets are decided. No contract says what is found or how long it takes.
    pub fn search(&mut self, t: &Table) -> Result<Option<OwnedCosets>, NoMemory>
        ensures found { IfOk result (λ o. IfSome o (λ e. AreCosetsFound t.now (owned_coset_texts e))) }
        ensures counts { IfOk result
            (λ o. IfSome o (λ e. (owned_coset_texts e).left_counts +
            (owned_coset_texts e).right_counts ≤ min self.old.counts found_count_limit)) }
        ensures same { self.new.counts ≡ self.old.counts }
    {
        for window in WINDOWS {
            if let Some(found) = self.search_by(t, window)? {
                return Ok(Some(found));
            }
        }
        Ok(None)
    }

    // What is found by the automata that so many symbols tell.
    fn search_by(&self, t: &Table, window: usize) -> Result<Option<OwnedCosets>, NoMemory>
        ensures found { IfOk result (λ o. IfSome o (λ e. AreCosetsFound t.now (owned_coset_texts e))) }
        ensures counts { IfOk result
            (λ o. IfSome o (λ e. (owned_coset_texts e).left_counts +
            (owned_coset_texts e).right_counts ≤ min self.now.counts found_count_limit)) }
    {
        let Some(mut left) = self.learned(t, Dir::L, window)? else {
            return Ok(None);
        };
        let Some(mut right) = self.learned(t, Dir::R, window)? else {
            return Ok(None);
        };
        let split = left.count(0);
        let end = right.count(split);
        if end < split || end as u64 > self.most() {
            return Ok(None);
        }
        self.closed(t, &left, &right, split as u8, (end - split) as u8)
    }

    // The most counts that are taken.
    fn most(&self) -> u64
        ensures { result ≡ min self.now.counts found_count_limit }
    {
        self.counts.min(MAX_FOUND_COUNTS as u64)
    }

    // The automaton of the half tapes of a side.
    fn learned(&self, t: &Table, side: Dir, window: usize) -> Result<Option<Automaton>, NoMemory> {
        let mut tree = HalfTree::new(self.alloc, side, window)?;
        let mut tapes = HalfTapes::new(self.alloc);
        for time in 0..STEPS {
            if !tree.add(&tapes, time)? || !tapes.step(t)? {
                return Ok(None);
            }
        }
        Automaton::of(self.alloc, &tree, STEPS / 2)
    }

    // The least cosets of two automata, where they stand.
    fn closed(
        &self,
        t: &Table,
        left: &Automaton,
        right: &Automaton,
        left_counts: u8,
        right_counts: u8,
    ) -> Result<Option<OwnedCosets>, NoMemory>
        requires { left_counts + right_counts ≤ min self.now.counts found_count_limit }
        ensures found { IfOk result (λ o. IfSome o (λ e. AreCosetsFound t.now (owned_coset_texts e))) }
        ensures counts { IfOk result
            (λ o. IfSome o (λ e. (owned_coset_texts e).left_counts +
            (owned_coset_texts e).right_counts ≤ min self.now.counts found_count_limit)) }
    {
        let split = left_counts as usize;
        let mut closing = Closing::new(
            self.alloc,
            left,
            right,
            split,
            split + right_counts as usize,
        )?;
        if !closing.close(t)? {
            return Ok(None);
        }
        let mut left_text = Vec::new(self.alloc);
        let mut right_text = Vec::new(self.alloc);
        let mut cosets = Vec::new(self.alloc);
        append_automaton(left, &mut left_text)?;
        append_automaton(right, &mut right_text)?;
        append_cosets(&closing, t, left.states(), right.states(), &mut cosets)?;
        let Ok(claim) = CountedCosets::new(
            t.states(),
            left_counts,
            right_counts,
            &left_text,
            &right_text,
            &cosets,
        ) else {
            return Ok(None);
        };
        match claim.check(self.alloc, t) {
            Ok(_) => Ok(Some(OwnedCosets::of(self.alloc, &claim)?)),
            Err(Refused::NoMemory) => Err(NoMemory),
            Err(_) => Ok(None),
        }
    }
}

impl Finder for CountedFinder {
    fn find(&mut self, t: &Table, _budget: u64) -> Result<Option<OwnedCertificate>, NoMemory> {
        match self.search(t)? {
            Some(found) => Ok(Some(OwnedCertificate::Counted(Box::new(self.alloc, found)?))),
            None => Ok(None),
        }
    }
}

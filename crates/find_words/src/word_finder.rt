// The finder: a first automaton made of words, tried on both sides.
ghost use Rattle.std.specs.Prelude.{◌≡◌, ◌<◌, ◌≤◌, ℕ, slice_index, IfOk, IfSome};
ghost use Rattle.cert.specs.Terms.{IsShownRecord};
ghost use Rattle.far.specs.Terms.{listed_size_limit};
ghost use Rattle.find_words.specs.Findings.{AreFoundOf};

use crate::closing::{Closing, Reduction};
use crate::words::{WORD_STAGES, WordStage};
use crate::writing::append_numbers;
use cert::{Decided, Finder, OwnedCertificate};
use far::{Listed, OwnedFar, OwnedListed};
use find_automata::{Automaton, MAX_MOVES};
use kind_evidence::NoMemory;
use machine_text::{Dir, Table};
use std::alloc::Global;

/// Automata that were found, in the shorter form that they fit.
#[derive(Debug, Drop)]
pub enum FoundAutomata {
    /// The first one has at most 16 states.
    Far(OwnedFar),
    /// The first one has more; the edges of the second are listed.
    Listed(OwnedListed),
}

impl FoundAutomata {
    ghost use Rattle.cert.specs.Terms.{owned_claim};
    ghost use Rattle.find_words.specs.Findings.{claim_found};

    /// The certificate that they are.
    pub fn into_certificate(self, alloc: Global) -> Result<OwnedCertificate, NoMemory>
        ensures { IfOk result (λ c. owned_claim c ≡ claim_found self) }
    {
        Ok(match self {
            FoundAutomata::Far(automata) => OwnedCertificate::Far(Box::new(alloc, automata)?),
            FoundAutomata::Listed(automata) => {
                OwnedCertificate::Listed(Box::new(alloc, automata)?)
            }
        })
    }

    /// The record of a table for which they were found: that has shown that they stand, and nothing is judged.
    pub fn into_decided(self, alloc: Global, t: &Table) -> Result<Decided, NoMemory>
        requires { AreFoundOf t.now self }
        ensures { IfOk result (IsShownRecord t.now) }
    {
        // The proof needs that the texts are within their limits.
        match &self {
            FoundAutomata::Far(automata) => {
                let _ = automata.lent().states();
            }
            FoundAutomata::Listed(automata) => {
                let _ = automata.lent().states();
            }
        }
        Ok(Decided::never(t, self.into_certificate(alloc)?))
    }
}

/// Searches automata whose first one is made of words. It keeps the memory of its tables from call to call.
#[derive(Drop)]
pub struct WordFinder {
    alloc: Global,
    stages: u64,
    closing: Closing,
}

impl WordFinder {
    /// A finder by the first so many of `WORD_STAGES`, that takes its memory from here, and none yet.
    pub fn new(alloc: Global, stages: u64) -> WordFinder {
        WordFinder {
            alloc,
            stages,
            closing: Closing::new(alloc),
        }
    }

    /// Automata of a table by the finder's stages; none where they find none. What it gives stands. No contract says what
    /// is found or how long it takes.
    pub fn search(&mut self, t: &Table) -> Result<Option<FoundAutomata>, NoMemory>
        ensures { IfOk result (λ o. IfSome o (AreFoundOf t.now)) }
    {
        let count = self.stages.min(WORD_STAGES.len() as u64) as usize;
        self.search_by(t, &WORD_STAGES[..count])
    }

    /// Looks for automata by some stages, whichever are the finder's.
    pub fn search_by(
        &mut self,
        t: &Table,
        stages: &[WordStage],
    ) -> Result<Option<FoundAutomata>, NoMemory>
        ensures { IfOk result (λ o. IfSome o (AreFoundOf t.now)) }
    {
        for stage in stages {
            let found = self.search_in_stage(t, *stage)?;
            if found.is_some() {
                return Ok(found);
            }
        }
        Ok(None)
    }

    /// Looks for automata by one stage: first with what is ahead on the right, and then on the left.
    pub fn search_in_stage(
        &mut self,
        t: &Table,
        stage: WordStage,
    ) -> Result<Option<FoundAutomata>, NoMemory>
        ensures { IfOk result (λ o. IfSome o (AreFoundOf t.now)) }
    {
        let right = self.search_on(t, Dir::R, stage)?;
        if right.is_some() {
            return Ok(right);
        }
        self.search_on(t, Dir::L, stage)
    }

    // With what is ahead on this side.
    fn search_on(
        &mut self,
        t: &Table,
        side: Dir,
        stage: WordStage,
    ) -> Result<Option<FoundAutomata>, NoMemory>
        ensures { IfOk result (λ o. IfSome o (AreFoundOf t.now)) }
    {
        if !self.closes(t, side, stage)? {
            return Ok(None);
        }
        let size = self.closing.size();
        if size <= u64::from(far::MAX_SIZE) {
            self.few_states(t, side, size as u8)
        } else if Listed::is_size(size) {
            self.many_states(t, side, size as u16)
        } else {
            Ok(None)
        }
    }

    // Whether the words keep the blank tape from the halting pairs; then those of their states that do the same are one.
    fn closes(&mut self, t: &Table, side: Dir, stage: WordStage) -> Result<bool, NoMemory> {
        let by_words = Reduction {
            table: t,
            side,
            first: &stage.words,
        };
        if !self.closing.close(&by_words, stage.room)? {
            return Ok(false);
        }
        let classes = self.closing.classes(self.alloc, t.states())?;
        let by_classes = Reduction {
            table: t,
            side,
            first: &classes,
        };
        self.closing.close(&by_classes, stage.room)
    }

    // What was closed with a first automaton of few states, if it stands.
    fn few_states(&self, t: &Table, side: Dir, size: u8) -> Result<Option<FoundAutomata>, NoMemory>
        ensures { IfOk result (λ o. IfSome o (AreFoundOf t.now)) }
    {
        let mut targets = Vec::new(self.alloc);
        self.closing.list_targets(&mut targets)?;
        let Some(first) = automaton(side, size, &targets) else {
            return Ok(None);
        };
        let found = OwnedFar::of_first(self.alloc, &first, t, size)?;
        Ok(found.map(FoundAutomata::Far))
    }

    // Looks for automata with any number of states.
    fn many_states(
        &self,
        t: &Table,
        side: Dir,
        size: u16,
    ) -> Result<Option<FoundAutomata>, NoMemory>
        requires many { 17 ≤ size }
        requires limit { size ≤ listed_size_limit }
        ensures { IfOk result (λ o. IfSome o (AreFoundOf t.now)) }
    {
        let mut targets = Vec::new(self.alloc);
        self.closing.list_targets(&mut targets)?;
        let mut delta = Vec::new(self.alloc);
        append_numbers(&targets, &mut delta)?;
        let mut rows = Vec::new(self.alloc);
        self.closing.append_rows(self.alloc, t.states(), &mut rows)?;
        let mut keep = Vec::new(self.alloc);
        self.closing.append_keep(&mut keep)?;
        if !Listed::are_short(t.states(), size, &delta, &rows, &keep) {
            return Ok(None);
        }
        let Some(claim) = Listed::new(t.states(), side, size, &delta, &rows, &keep) else {
            return Ok(None);
        };
        if !claim.holds(self.alloc, t)? {
            return Ok(None);
        }
        let owned = OwnedListed::of(self.alloc, &claim)?;
        Ok(Some(FoundAutomata::Listed(owned)))
    }
}

impl Finder for WordFinder {
    fn find(&mut self, t: &Table, _budget: u64) -> Result<Option<OwnedCertificate>, NoMemory> {
        match self.search(t)? {
            Some(found) => Ok(Some(found.into_certificate(self.alloc)?)),
            None => Ok(None),
        }
    }

    fn find_shown(
        &mut self,
        alloc: Global,
        t: &Table,
        _budget: u64,
    ) -> Result<Option<Decided>, NoMemory> {
        match self.search(t)? {
            Some(found) => Ok(Some(found.into_decided(alloc, t)?)),
            None => Ok(None),
        }
    }
}

// The first automaton of these transitions, if they are those of one of so many states.
fn automaton(side: Dir, size: u8, targets: &[u64]) -> Option<Automaton> {
    if size == 0 || size > far::MAX_SIZE {
        return None;
    }
    let delta = all_targets(targets, size)?;
    if delta[0] != 0 {
        return None;
    }
    Some(Automaton { side, size, delta })
}

// The transitions, each to one of so many states; 0 past the last one.
fn all_targets(targets: &[u64], size: u8) -> Option<[u8; MAX_MOVES]>
    requires { 1 ≤ size }
    ensures { IfSome result (λ delta. (k : ℕ) → slice_index delta k < size) }
{
    let mut delta = [0; MAX_MOVES];
    for k in 0..MAX_MOVES {
        delta[k] = target_at(targets, k, size)?;
    }
    Some(delta)
}

// The transition of this number; 0 past the last one, none where it isn't to a state.
fn target_at(targets: &[u64], k: usize, size: u8) -> Option<u8>
    requires { 1 ≤ size }
    ensures { IfSome result (λ q. q < size) }
{
    let Some(target) = targets.get(k) else {
        return Some(0);
    };
    if *target < u64::from(size) {
        Some(*target as u8)
    } else {
        None
    }
}

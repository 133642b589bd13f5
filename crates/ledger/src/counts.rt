// How many records and tables of each kind a board has, and what it says of the best of a table.
ghost use Rattle.std.specs.Prelude.{◌≡◌, ◌<◌, None, ℕ, Option};
ghost use Rattle.ledger.specs.inside.Counting.{with_shown, greater, HaveRoom};
ghost use Rattle.ledger.specs.inside.Waiting.{counts_without};
ghost use Rattle.law_turing.specs.Terms.{HaltsAt};
ghost use Rattle.law_tree.specs.Terms.{Scores, IsBestOfTable};
ghost use Rattle.ledger.specs.Offers.{IsBound};
ghost use Rattle.ledger.specs.Records.{claim_in};

use crate::board::Board;
use crate::places::Waiting;
use cert::standing_claims_are_true;
use kind_evidence::Ending;
use law_tree::{best_of_closed, child_is_table};
use machine_text::Table;

// How many tables there are of each kind.
/// How many tables of a board there are of each kind.
#[derive(Clone, Copy, Debug, PartialEq, Eq)]
pub struct Tally {
    /// The records and the open tables together.
    pub nodes: u64,
    /// The tables recorded as halting.
    pub halting: u64,
    /// The tables recorded as never halting.
    pub never: u64,
    /// The tables whose record has no verdict.
    pub holdouts: u64,
    /// The open tables.
    pub open_count: u64,
    /// The greatest number of steps recorded of a table that halts, or none where none does.
    pub best: Option<u64>,
    /// The greatest score recorded of a table that halts, the number of ones on its tape then (Radó 1962), or none where
    /// none does.
    pub ones: Option<u64>,
}

// How many records there are of each kind, and the greatest number of steps and the greatest score of those that say
// that their table halts.
#[derive(Clone, Copy)]
pub(crate) struct Counts {
    pub halting: u64,
    pub never: u64,
    pub undecided: u64,
    pub best: Option<u64>,
    pub ones: Option<u64>,
}

impl Counts {
    // The counts of no record.
    pub fn none() -> Counts
        ensures { result ≡ record { halting = 0; never = 0; undecided = 0; best = None; ones = None } }
    {
        Counts {
            halting: 0,
            never: 0,
            undecided: 0,
            best: None,
            ones: None,
        }
    }

    // The counts with one more record, by what it shows and its score.
    pub fn with(self, shown: Option<Ending>, ones: Option<u64>) -> Counts
        requires { HaveRoom self }
        ensures { result ≡ with_shown self shown ones }
    {
        let ones = greater(self.ones, ones);
        match shown {
            None => Counts {
                undecided: self.undecided + 1,
                ones,
                ..self
            },
            Some(Ending::Never) => Counts {
                never: self.never + 1,
                ones,
                ..self
            },
            Some(Ending::Halts(steps)) => Counts {
                halting: self.halting + 1,
                best: greater(self.best, Some(steps)),
                ones,
                ..self
            },
        }
    }

    // The counts without the record that goes where one is taken: that of a holdout.
    pub fn without(self, waiting: Waiting) -> Counts
        requires { waiting ≡ Waiting.Holdout → 0 < self.undecided }
        ensures { result ≡ counts_without waiting self }
    {
        match waiting {
            Waiting::Open { .. } => self,
            Waiting::Holdout => Counts {
                undecided: self.undecided - 1,
                ..self
            },
        }
    }
}

// The greater of two numbers of which either may be missing.
pub(crate) fn greater(a: Option<u64>, b: Option<u64>) -> Option<u64>
    ensures { result ≡ greater a b }
{
    a.max(b)
}

/// What a board says of the best of a table: the greatest number of steps and the greatest score of all its extensions
/// that halt, in tree normal form or not.
#[derive(Clone, Copy, Debug, PartialEq, Eq)]
pub enum Bound {
    /// The table is neither recorded nor open.
    Unknown,
    /// The table has no verdict, or a table of its tree is open or a holdout.
    Open,
    /// The table has a verdict, and no table of its tree is open or a holdout: these are its best number of steps and its
    /// best score, or none where no extension halts.
    Closed {
        best: Option<u64>,
        ones: Option<u64>,
    },
}

impl Board {
    /// What is known of the best of a table. It takes no memory, and as long for each table: one look-up among
    /// the records, and one among the open tables where there is no record. No tree is walked.
    pub fn bound(&self, t: &Table) -> Bound
        ensures stands { IsBound self.now.root self.now.records t.now result }
        ensures best { (best ones : Option ℕ) → result ≡ Bound.Closed best ones → IsBestOfTable HaltsAt t.now best }
        ensures ones { (best ones : Option ℕ) → result ≡ Bound.Closed best ones → IsBestOfTable Scores t.now ones }
    {
        child_is_table();
        standing_claims_are_true();
        best_of_closed();
        // The proof needs that the records are held from the root, and that it is a table.
        let _ = self.root();
        let _ = t.states();
        self.bound_by_count(t)
    }

    // The bound of a table, by what is left in its tree.
    fn bound_by_count(&self, t: &Table) -> Bound
        ensures { IsBound self.now.root self.now.records t.now result }
    {
        let Some(tree) = self.tree_count(t) else {
            return self.bound_unrecorded(t);
        };
        if tree.is_closed() {
            Bound::Closed {
                best: tree.best,
                ones: tree.ones,
            }
        } else {
            Bound::Open
        }
    }

    // The bound of a table without a record.
    fn bound_unrecorded(&self, t: &Table) -> Bound
        requires { claim_in self.now.records t.now ≡ None }
        ensures { IsBound self.now.root self.now.records t.now result }
    {
        if self.is_open(t) {
            Bound::Open
        } else {
            Bound::Unknown
        }
    }
}

// What is kept of the tree of each recorded table, and the chain of its parents.
ghost use Rattle.std.specs.Prelude.{◌≡◌, ◌↔◌, IsTrue, length};
ghost use Rattle.ledger.specs.inside.Counting.{steps_of};
ghost use Rattle.ledger.specs.inside.Waiting.{change_of};
ghost use Rattle.ledger.specs.inside.Trees.{changed_count, first_count, MayChange, AreChanged, CarriesUp};

use crate::counts::greater;
use crate::open_tables::NO_PLACE;
use crate::places::Waiting;
use crate::stored_record::{StoredRecord, kept_number, number_of};
use indexmap::IndexMap;
use kind_evidence::Ending;
use machine_text::Table;
use std::marker::Model;

// How many tables of a table's tree are open, how many are holdouts, and the greatest number of steps and the greatest
// score recorded in it. The table itself is one of its tree.
#[derive(Clone, Copy)]
pub(crate) struct TreeCount {
    pub open_count: u64,
    pub holdouts: u64,
    pub best: Option<u64>,
    pub ones: Option<u64>,
}

// What a record changes in these numbers, for each table in whose tree its own stands.
#[derive(Clone, Copy)]
pub(crate) struct TreeChange {
    // the children that are open now
    pub opened: u64,
    // 1 where its table was open
    pub closed: u64,
    // 1 where its table is a holdout now
    pub undecided: u64,
    // 1 where its table was a holdout
    pub resolved: u64,
    // the steps after which its table halts
    pub steps: Option<u64>,
    // the score with which it does
    pub ones: Option<u64>,
}

impl TreeCount {
    // Whether no table of the tree is open or a holdout.
    pub fn is_closed(&self) -> bool
        ensures { IsTrue result ↔ ((self.now.open_count ≡ 0) × (self.now.holdouts ≡ 0)) }
    {
        self.open_count == 0 && self.holdouts == 0
    }
}

impl TreeChange {
    // By a record that is taken of a waiting table, which shows this, with this score, and opens so many children.
    pub fn of(waiting: Waiting, opened: u64, shown: Option<Ending>, ones: Option<u64>) -> TreeChange
        ensures { result ≡ change_of waiting opened shown ones }
    {
        let (closed, undecided, resolved) = match (waiting, shown) {
            (Waiting::Open { .. }, None) => (1, 1, 0),
            (Waiting::Open { .. }, Some(_)) => (1, 0, 0),
            (Waiting::Holdout, _) => (0, 0, 1),
        };
        TreeChange {
            opened,
            closed,
            undecided,
            resolved,
            steps: steps_of(shown),
            ones,
        }
    }
}

// The number of steps of a verdict that a table halts.
fn steps_of(shown: Option<Ending>) -> Option<u64>
    ensures { result ≡ steps_of shown }
{
    match shown {
        Some(Ending::Halts(steps)) => Some(steps),
        Some(Ending::Never) => None,
        None => None,
    }
}

// The numbers of a tree in 24 bytes: there are as many in memory as records. Tables are counted in four bytes, steps and ones
// in eight: a table may halt later than four bytes can say.
#[derive(Clone, Copy)]
pub(crate) struct StoredCount {
    open_count: u32,
    holdouts: u32,
    // each kept as `small_number` does
    best: u64,
    ones: u64,
}

impl Model for StoredCount {
    ghost use Rattle.ledger.specs.declared.tree_count.TreeCount.{TreeCount};
    ghost use Rattle.ledger.specs.inside.Kept.{kept_number, number_of, kept_back};

    ghost Value = { TreeCount };

    ghost view = { λ a. record {
      open_count = a.open_count;
      holdouts = a.holdouts;
      best = number_of a.best;
      ones = number_of a.ones;
    } };

    ghost inverse = { λ n. record {
      open_count = n.open_count;
      holdouts = n.holdouts;
      best = kept_number n.best;
      ones = kept_number n.ones;
    } };

    ghost inverse_ok = { λ a h i. record {
      open_count = a.open_count;
      holdouts = a.holdouts;
      best = kept_back a.best i;
      ones = kept_back a.ones i;
    } };
}

impl StoredCount {
    // The numbers of an open table: there is nothing else in its tree.
    pub fn first() -> StoredCount
        ensures { result ≡ first_count }
    {
        StoredCount {
            open_count: 1,
            holdouts: 0,
            best: 0,
            ones: 0,
        }
    }

    // The numbers after a change.
    pub fn with(self, change: TreeChange) -> StoredCount
        requires { MayChange self change }
        ensures { result ≡ changed_count change self }
    {
        StoredCount {
            open_count: (self.open_count as u64 + change.opened - change.closed) as u32,
            holdouts: (self.holdouts as u64 + change.undecided - change.resolved) as u32,
            best: kept_number(greater(number_of(self.best), change.steps)),
            ones: kept_number(greater(number_of(self.ones), change.ones)),
        }
    }

    // The numbers.
    pub fn numbers(&self) -> TreeCount
        ensures { result ≡ self.now }
    {
        TreeCount {
            open_count: self.open_count as u64,
            holdouts: self.holdouts as u64,
            best: number_of(self.best),
            ones: number_of(self.ones),
        }
    }
}

// Changes the numbers of the record at a place and of each on its chain. As a child has fewer
// undefined pairs than its parent, there are no more of them than a table has pairs.
pub(crate) fn change_chain(
    records: &mut IndexMap<Table, StoredRecord>,
    from: u32,
    change: TreeChange,
)
    requires { CarriesUp records.old.entries from change }
    ensures changed { AreChanged change records.old.entries from records.new.entries }
    ensures length { length records.new.entries ≡ length records.old.entries }
{
    let mut place = from;
    while place != NO_PLACE {
        match records.get_index_mut(place as usize) {
            Some(stored) => {
                stored.change_tree(change);
                place = stored.parent();
            }
            None => unreachable!(),
        }
    }
}

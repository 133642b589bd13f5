// Where the record of a table stands or is put.
ghost use Rattle.std.specs.Prelude.{◌≡◌, ◌<◌, ◌^◌, ℕ, false, All, Some, IfSome, IfNone, length, option_map, slice_get};
ghost use Rattle.std.specs.Map.{lookup};
ghost use Rattle.cert.specs.Terms.{Recorded, ending_by, HaltsOnPair, claim_of};
ghost use Rattle.ledger.specs.inside.Counting.{is_halting};
ghost use Rattle.ledger.specs.inside.Stored.{records_of, KnowsPair};
ghost use Rattle.ledger.specs.Records.{HasScore, IsHoldout, claim_in, same_table, verdict_in};
ghost use Rattle.ledger.specs.Tally.{HaltsAfter, IsHalting};
ghost use Rattle.ledger.specs.declared.stored_record.StoredRecord.{StoredRecord};
ghost use Rattle.ledger.specs.inside.Waiting.{footing_by, taken_of, IsSlot};

use crate::faults::Taken;
use crate::stored_record::StoredRecord;
use crate::tree_count::{StoredCount, TreeCount};
use cert::Certificate;
use indexmap::IndexMap;
use kind_evidence::Verdict;
use machine_text::{Pair, Table};

// What the record for a table claims of it.
pub(crate) fn certificate_for<'a>(
    records: &'a IndexMap<Table, StoredRecord>,
    t: &Table,
) -> Option<Certificate<'a>>
    ensures { option_map claim_of result ≡ claim_in (records_of records.now.entries) t.now }
{
    match records.get(t) {
        Some(stored) => Some(stored.lent()),
        None => None,
    }
}

// The pair on which a table halts, where it is recorded as halting.
pub(crate) fn pair_for(records: &IndexMap<Table, StoredRecord>, t: &Table) -> Option<Pair>
    requires { All KnowsPair records.now.entries }
    ensures some { IfSome result (λ pair. (k : ℕ) × HaltsAfter (records_of records.now.entries) k t.now
        × HaltsOnPair t.now k pair) }
    ensures none { IfNone result (IsHalting (records_of records.now.entries) t.now → ⊥) }
{
    match records.get(t) {
        Some(stored) => stored.halts_on(),
        None => None,
    }
}

// The recorded verdict on a table, of records that have their scores.
pub(crate) fn verdict_in(records: &IndexMap<Table, StoredRecord>, t: &Table) -> Option<Verdict>
    requires { All HasScore (records_of records.now.entries) }
    ensures { result ≡ verdict_in (records_of records.now.entries) t.now }
{
    match records.get(t) {
        Some(stored) => stored.verdict(t),
        None => None,
    }
}

// The place of a holdout's record.
pub(crate) fn place_of(records: &IndexMap<Table, StoredRecord>, t: &Table) -> usize
    requires { IsHoldout (records_of records.now.entries) t.now }
    ensures place { (r : Recorded) × (slice_get (records_of records.now.entries) result ≡ Some r) × (r.table ≡ t.now)
        × (is_halting r ≡ false) }
    ensures small { result < 2 ^ 63 }
    ensures room { length records.now.entries < 2 ^ 63 }
{
    // The proof needs how long an index can be.
    let _ = records.len();
    match records.get_full(t) {
        Some((place, _, _)) => place,
        None => unreachable!(),
    }
}

// Where a holdout stands in the tree: where its parent's record stands, and the numbers of its tree.
pub(crate) fn place_and_count_of(
    records: &IndexMap<Table, StoredRecord>,
    t: &Table,
) -> (u32, StoredCount)
    requires { IsHoldout (records_of records.now.entries) t.now }
    ensures { (k : StoredRecord) × (lookup (same_table t.now) records.now.entries ≡ Some k)
        × (result ≡ (k.parent, k.tree)) }
{
    match records.get(t) {
        Some(stored) => (stored.parent(), stored.tree()),
        None => unreachable!(),
    }
}

// The numbers of a recorded table's tree.
pub(crate) fn tree_count_of(records: &IndexMap<Table, StoredRecord>, t: &Table) -> Option<TreeCount>
    ensures { result ≡ option_map (λ k. k.tree) (lookup (same_table t.now) records.now.entries) }
{
    match records.get(t) {
        Some(stored) => Some(stored.tree().numbers()),
        None => None,
    }
}

#[derive(Clone, Copy)]
pub(crate) enum Footing {
    // its table has a verdict, or is a holdout and no verdict is offered
    Known,
    // its table is open, or a holdout and a verdict is offered
    Waiting(Waiting),
    // its table is neither
    Elsewhere,
}

// Where a record stands whose table has one.
pub(crate) fn recorded_footing(held: &Certificate, offered: &Certificate) -> Footing
    ensures { result ≡ footing_by (ending_by (claim_of held.now)) (ending_by (claim_of offered.now)) }
{
    match (held.ending(), offered.ending()) {
        (None, Some(_)) => Footing::Waiting(Waiting::Holdout),
        _ => Footing::Known,
    }
}

// A table that waits for a record, or for one with a verdict.
#[derive(Clone, Copy)]
pub(crate) enum Waiting {
    // the record at this place opened it
    Open { opener: u32 },
    Holdout,
}

// The place of a record, that of its parent's record, and the numbers of its table's tree before it is there.
#[derive(Clone, Copy)]
pub(crate) struct Slot {
    pub place: usize,
    pub parent: u32,
    pub tree: StoredCount,
}

impl Waiting {
    // What is answered once a record is taken of it.
    pub fn taken(self) -> Taken
        ensures { result ≡ taken_of self }
    {
        match self {
            Waiting::Open { .. } => Taken::New,
            Waiting::Holdout => Taken::Settled,
        }
    }

    // Where its record is put: behind the last one, or in the place of the holdout's.
    pub fn slot(self, records: &IndexMap<Table, StoredRecord>, t: &Table) -> Slot
        requires { self ≡ Waiting.Holdout → IsHoldout (records_of records.now.entries) t.now }
        ensures is { IsSlot records.now.entries t.now self result }
        ensures few { length records.now.entries < 2 ^ 63 }
    {
        match self {
            Waiting::Open { opener } => Slot {
                place: records.len(),
                parent: opener,
                tree: StoredCount::first(),
            },
            Waiting::Holdout => {
                let (parent, tree) = place_and_count_of(records, t);
                Slot {
                    place: place_of(records, t),
                    parent,
                    tree,
                }
            }
        }
    }
}

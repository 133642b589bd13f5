// The records of a board, one by one, and tables that are selected from them.
ghost use Rattle.std.specs.Prelude.{◌≡◌, drop, ◌++◌, [], IfOk, OnOk, filter_map};
ghost use Rattle.std.specs.List.Sorted.{IsPermutation, IsSorted};
ghost use Rattle.std.specs.List.{cons_option};
ghost use Rattle.std.specs.Vec.Iter.{into_iter_items};
ghost use Rattle.ledger.specs.inside.Stored.{entry_recorded, records_of};
ghost use Rattle.ledger.specs.inside.Counting.{undecided_table, champion_table, ones_champion_table, tables_with, tables_with_ones};
ghost use Rattle.machine_text.specs.Terms.{table_cmp};

use crate::stored_record::StoredRecord;
use cert::Record;
use indexmap::IndexMap;
use indexmap::map::Iter;
use kind_evidence::{Ending, NoMemory};
use machine_text::Table;
use std::alloc::Global;
use std::marker::Model;
use std::vec::IntoIter;

/// An iterator over the records of a board, each lent, in the order in which their tables were taken. It
/// is seen as the list of those that are left.
#[derive(Drop)]
pub struct Records<'a> {
    left: Iter<'a, Table, StoredRecord>,
}

impl<'a> Model for Records<'a> {
    ghost use Rattle.std.specs.Prelude.{List};
    ghost use Rattle.cert.specs.Terms.{Recorded};
    ghost use Rattle.ledger.specs.inside.Stored.{records_of};

    ghost Value = { List Recorded };

    ghost view = { λ a. records_of a.left };
}

impl<'a> Records<'a> {
    ghost use Rattle.ledger.specs.inside.Stored.{records_of};

    // All of a board.
    pub(crate) fn of(records: &'a IndexMap<Table, StoredRecord>) -> Records<'a>
        ensures { result ≡ records_of records.now.entries }
    {
        Records {
            left: records.iter(),
        }
    }

    // The records of a board from a place on.
    pub(crate) fn from_place(
        records: &'a IndexMap<Table, StoredRecord>,
        place: usize,
    ) -> Records<'a>
        ensures { result ≡ drop place (records_of records.now.entries) }
    {
        let parts = records.as_slice().split_at(place.min(records.len()));
        Records {
            left: parts.1.iter(),
        }
    }
}

impl<'a> Iterator for Records<'a> {
    type Item = Record<'a>;

    ghost use Rattle.std.specs.Iterator.{item_count};
    ghost use Rattle.ledger.specs.Records.{GivesRecord};

    ghost next_gives = { GivesRecord };

    ghost remaining = { item_count (λ left. left) };

    fn next(&mut self) -> Option<Record<'a>> {
        let (table, stored) = self.left.next()?;
        Some(Record {
            table: *table,
            certificate: stored.lent(),
        })
    }
}

// The tables of the records with the greatest number of steps, those with the greatest score, both of which are given,
// and those of the records without a verdict, by one pass over the records.
pub(crate) fn listed_tables(
    alloc: Global,
    records: &IndexMap<Table, StoredRecord>,
    best: Option<u64>,
    ones: Option<u64>,
) -> Result<(Vec<Table>, Vec<Table>, Vec<Table>), NoMemory>
    ensures champions { IfOk result (λ found. found.0.items ≡ tables_with best (records_of records.now.entries)) }
    ensures ones_champions { IfOk result (λ found. found.1.items
        ≡ tables_with_ones ones (records_of records.now.entries)) }
    ensures holdouts { IfOk result (λ found. found.2.items
        ≡ filter_map undecided_table (records_of records.now.entries)) }
{
    match (best, ones) {
        (Some(best), Some(ones)) => champion_and_undecided_tables(alloc, records, best, ones),
        // no record says that its table halts
        _ => Ok((
            tables_with(alloc, records, best)?,
            tables_with_ones(alloc, records, ones)?,
            undecided_tables(alloc, records)?,
        )),
    }
}

// The champions and holdouts where there are a greatest number of steps and a greatest score.
fn champion_and_undecided_tables(
    alloc: Global,
    records: &IndexMap<Table, StoredRecord>,
    best: u64,
    ones: u64,
) -> Result<(Vec<Table>, Vec<Table>, Vec<Table>), NoMemory>
    ensures champions { IfOk result (λ found. found.0.items
        ≡ filter_map (champion_table best) (records_of records.now.entries)) }
    ensures ones_champions { IfOk result (λ found. found.1.items
        ≡ filter_map (ones_champion_table ones) (records_of records.now.entries)) }
    ensures holdouts { IfOk result (λ found. found.2.items
        ≡ filter_map undecided_table (records_of records.now.entries)) }
{
    let mut champions = Vec::new(alloc);
    let mut ones_champions = Vec::new(alloc);
    let mut holdouts = Vec::new(alloc);
    for (table, stored) in records.iter() {
        push_some(&mut champions, champion_table(best, table, stored))?;
        push_some(
            &mut ones_champions,
            ones_champion_table(ones, table, stored),
        )?;
        push_some(&mut holdouts, undecided_table(table, stored))?;
    }
    Ok((champions, ones_champions, holdouts))
}

// The tables of the records without a verdict.
pub(crate) fn undecided_tables(
    alloc: Global,
    records: &IndexMap<Table, StoredRecord>,
) -> Result<Vec<Table>, NoMemory>
    ensures { IfOk result (λ found. found.items ≡ filter_map undecided_table (records_of records.now.entries)) }
{
    let mut found = Vec::new(alloc);
    for (table, stored) in records.iter() {
        push_some(&mut found, undecided_table(table, stored))?;
    }
    Ok(found)
}

// The table of a record without a verdict.
fn undecided_table(table: &Table, stored: &StoredRecord) -> Option<Table>
    ensures { result ≡ undecided_table (entry_recorded (table.now, stored.now)) }
{
    if stored.ending().is_none() {
        Some(*table)
    } else {
        None
    }
}

// The tables of the records with the greatest number of steps, which is given.
pub(crate) fn tables_with(
    alloc: Global,
    records: &IndexMap<Table, StoredRecord>,
    best: Option<u64>,
) -> Result<Vec<Table>, NoMemory>
    ensures { IfOk result (λ found. found.items ≡ tables_with best (records_of records.now.entries)) }
{
    match best {
        Some(best) => champion_tables(alloc, records, best),
        None => Ok(Vec::new(alloc)),
    }
}

// The tables of the records of so many steps.
fn champion_tables(
    alloc: Global,
    records: &IndexMap<Table, StoredRecord>,
    best: u64,
) -> Result<Vec<Table>, NoMemory>
    ensures { IfOk result (λ found. found.items ≡ filter_map (champion_table best) (records_of records.now.entries)) }
{
    let mut found = Vec::new(alloc);
    for (table, stored) in records.iter() {
        push_some(&mut found, champion_table(best, table, stored))?;
    }
    Ok(found)
}

// The table of a record, where it says that the table halts in so many steps.
fn champion_table(best: u64, table: &Table, stored: &StoredRecord) -> Option<Table>
    ensures { result ≡ champion_table best (entry_recorded (table.now, stored.now)) }
{
    match stored.ending() {
        Some(Ending::Halts(count)) if count == best => Some(*table),
        _ => None,
    }
}

// The tables of the records with the greatest score, which is given.
pub(crate) fn tables_with_ones(
    alloc: Global,
    records: &IndexMap<Table, StoredRecord>,
    best: Option<u64>,
) -> Result<Vec<Table>, NoMemory>
    ensures { IfOk result (λ found. found.items ≡ tables_with_ones best (records_of records.now.entries)) }
{
    match best {
        Some(best) => ones_champion_tables(alloc, records, best),
        None => Ok(Vec::new(alloc)),
    }
}

// The tables of the records of such a score.
fn ones_champion_tables(
    alloc: Global,
    records: &IndexMap<Table, StoredRecord>,
    best: u64,
) -> Result<Vec<Table>, NoMemory>
    ensures { IfOk result (λ found. found.items
        ≡ filter_map (ones_champion_table best) (records_of records.now.entries)) }
{
    let mut found = Vec::new(alloc);
    for (table, stored) in records.iter() {
        push_some(&mut found, ones_champion_table(best, table, stored))?;
    }
    Ok(found)
}

// The table of a record, where it says that the table halts with this score.
fn ones_champion_table(best: u64, table: &Table, stored: &StoredRecord) -> Option<Table>
    ensures { result ≡ ones_champion_table best (entry_recorded (table.now, stored.now)) }
{
    match stored.lent().ones() {
        Some(ones) if ones == best => Some(*table),
        _ => None,
    }
}

// Appends a table, if there is one.
fn push_some(found: &mut Vec<Table>, table: Option<Table>) -> Result<(), NoMemory>
    ensures { OnOk result (found.new.items ≡ found.old.items ++ cons_option table []) }
{
    if let Some(table) = table {
        found.push(table)?;
    }
    Ok(())
}

// Tables in the order of their texts.
pub(crate) fn sorted_tables(mut tables: Vec<Table>) -> IntoIter<Table>
    ensures same { IsPermutation tables.items (into_iter_items result) }
    ensures sorted { IsSorted table_cmp (into_iter_items result) }
{
    tables.sort_unstable();
    tables.into_iter()
}

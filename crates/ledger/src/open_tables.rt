// The open tables of a board, and those that come of a table that halts on a pair.
ghost use Rattle.std.specs.Prelude.{◌≡◌, ◌↔◌, ◌<◌, ◌≤◌, ◌*◌, ◌^◌, ℕ, Some, Contains, AllPairs, length, ◌≢◌, ◌+◌, ◌⊎◌, IfOk, IsTrue, OnOk, OnErr, None, [], ◌∷◌, filter};
ghost use Rattle.std.specs.BTreeMap.{IsOrdered, keys, ContainsKey, is_at, insert_entry};
ghost use Rattle.std.specs.Ordering.{nat_cmp};
ghost use Rattle.std.specs.declared.cmp.Ordering.TheVariants.{Less};
ghost use Rattle.std.specs.Cmp.Lexicographic.{slice_cmp};
ghost use Rattle.std.specs.Map.{lookup};
ghost use Rattle.machine_text.specs.Terms.{table_cmp, Packed, entry_of, text_of};
ghost use Rattle.law_tree.specs.Terms.{InOrder, IsChildTable};
ghost use Rattle.kind_evidence.specs.declared.verdicts.Ending.TheVariants.{Halts};
ghost use Rattle.cert.specs.Terms.{ending_by, claim_of, recorded, HaltsOnPair, IsPairOf};
ghost use Rattle.ledger.specs.Tally.{AreSoMany};
ghost use Rattle.ledger.specs.inside.Stored.{records_of};
ghost use Rattle.ledger.specs.Records.{claim_in};
ghost use Rattle.ledger.specs.inside.Counting.{others, AreChildrenAt, HasUnrecorded, IsNewChild};
ghost use Rattle.ledger.specs.inside.Waiting.{ClosesTable};

use crate::places::{Waiting, certificate_for};
use crate::stored_record::StoredRecord;
use cert::Record;
use indexmap::IndexMap;
use kind_evidence::NoMemory;
use law_tree::children_listed;
use machine_text::{Pair, Table};
use std::alloc::Global;
use std::collections::BTreeMap;
use std::collections::btree_map::Keys;
use std::marker::Model;
use tnf::{Children, children};

/// An iterator over the open tables of a board, in the order of their texts. It is seen as the list of those that are
/// left.
#[derive(Drop)]
pub struct Open<'a> {
    left: Keys<'a, Table, u32>,
}

impl<'a> Model for Open<'a> {
    ghost use Rattle.std.specs.Prelude.{List};
    ghost use Rattle.machine_text.specs.Terms.{Packed};

    ghost Value = { List Packed };

    ghost view = { λ a. a.left };
}

impl<'a> Open<'a> {
    // All of a map.
    pub(crate) fn of(tables: &'a BTreeMap<Table, u32>) -> Open<'a>
        ensures rest { result ≡ keys tables.now }
        ensures ordered { IsOrdered table_cmp tables.now }
    {
        Open {
            left: tables.keys(),
        }
    }
}

impl<'a> Iterator for Open<'a> {
    type Item = &'a Table;

    ghost use Rattle.std.specs.Iterator.{YieldsFirstRef, item_count};

    ghost next_gives = { YieldsFirstRef (λ left. left) };

    ghost remaining = { item_count (λ left. left) };

    fn next(&mut self) -> Option<&'a Table> {
        self.left.next()
    }
}

// The children of a table in order that halts on a pair, in the order of their texts.
pub(crate) fn children_on(parent: &Table, pair: Pair) -> Children
    requires in_order { (u : ℕ) × InOrder u (entry_of parent.now) }
    requires halts { (k : ℕ) × HaltsOnPair parent.now k pair }
    ensures members { (t : Packed) → Contains result t ↔ IsChildTable parent.now t }
    ensures rising { AllPairs (λ a b. slice_cmp nat_cmp (text_of a) (text_of b) ≡ Less) result }
    ensures most { length result ≤ 4 * parent.now.states }
{
    children_listed();
    // The proof needs that the parent is a table.
    let _ = parent.states();
    children(parent, pair.state, pair.symbol)
}

// How many children a record's table has, which halts on this pair if it is known to.
pub(crate) fn child_count(r: &Record, halts_on: Option<Pair>) -> u64
    requires in_order { (u : ℕ) × InOrder u (entry_of r.now.table) }
    requires pair { IsPairOf (ending_by (claim_of r.now.certificate)) r.now.table halts_on }
    ensures number { AreSoMany (λ t. ((k : ℕ) × (ending_by (claim_of r.now.certificate) ≡ Some (Halts k)))
        × IsChildTable r.now.table t) result }
    ensures small { result < 2 ^ 63 }
{
    // The proof needs that a table has few states.
    let _ = r.table.states();
    match halts_on {
        Some(pair) => counted(children_on(&r.table, pair)),
        None => 0,
    }
}

// How many tables are left.
fn counted(found: Children) -> u64
    requires { length found < 2 ^ 32 }
    ensures { result ≡ length found }
{
    found.count() as u64
}

// The place of what opened the root, which no record has.
pub(crate) const NO_PLACE: u32 = u32::MAX;

// The root alone.
pub(crate) fn only(alloc: Global, root: Table) -> Result<BTreeMap<Table, u32>, NoMemory>
    ensures { IfOk result (λ tables. tables.entries ≡ (root, 4294967295) ∷ []) }
{
    let mut tables = BTreeMap::new(alloc);
    tables.insert(root, NO_PLACE)?;
    Ok(tables)
}

// A record's place as it is kept with the tables that it opens, in four bytes. Where it has none, there is no
// memory for that many records.
pub(crate) fn opener_place(place: usize) -> Result<u32, NoMemory>
    ensures is { IfOk result (λ kept. kept ≡ place) }
    ensures small { IfOk result (λ kept. kept + 1 < 2 ^ 32) }
{
    match u32::try_from(place) {
        Ok(kept) if kept != NO_PLACE => Ok(kept),
        _ => Err(NoMemory),
    }
}

// Refuses memory for so many more open tables beside those that there are, where four bytes don't count them all.
pub(crate) fn opening_room(open_count: usize, opened: u64) -> Result<(), NoMemory>
    ensures { OnOk result (open_count + opened < 2 ^ 32) }
{
    let most = u32::MAX as u64;
    if opened <= most && open_count as u64 <= most - opened {
        Ok(())
    } else {
        Err(NoMemory)
    }
}

// Opens the children of a record's table, which halts on this pair if it is known to: those that have no
// record and aren't open already. The record stands at this place, or will. Where memory is refused, the
// tables are as they were.
pub(crate) fn open_children(
    tables: &mut BTreeMap<Table, u32>,
    records: &IndexMap<Table, StoredRecord>,
    r: &Record,
    place: u32,
    halts_on: Option<Pair>,
) -> Result<(), NoMemory>
    requires in_order { (u : ℕ) × InOrder u (entry_of r.now.table) }
    requires pair { IsPairOf (ending_by (claim_of r.now.certificate)) r.now.table halts_on }
    requires none { others place tables.old.entries ≡ tables.old.entries }
    ensures ok { OnOk result ((q : Packed) → ContainsKey table_cmp tables.new q
        ↔ (ContainsKey table_cmp tables.old q ⊎ IsNewChild (records_of records.now.entries) (recorded r.now) q)) }
    ensures others { others place tables.new.entries ≡ tables.old.entries }
    ensures children { OnOk result (AreChildrenAt place r.now.table tables.new.entries) }
    ensures none { halts_on ≡ None → tables.new.entries ≡ tables.old.entries }
    ensures err { OnErr result (tables.new.entries ≡ tables.old.entries) }
{
    match halts_on {
        Some(pair) => open_all(
            tables,
            records,
            &r.table,
            place,
            children_on(&r.table, pair),
        ),
        None => Ok(()),
    }
}

// Opens those of the children that have no record and aren't the parent.
fn open_all(
    tables: &mut BTreeMap<Table, u32>,
    records: &IndexMap<Table, StoredRecord>,
    parent: &Table,
    place: u32,
    found: Children,
) -> Result<(), NoMemory>
    requires none { others place tables.old.entries ≡ tables.old.entries }
    requires children { (t : Packed) → Contains found t → IsChildTable parent.now t }
    ensures ok { OnOk result ((q : Packed) → ContainsKey table_cmp tables.new q
        ↔ (ContainsKey table_cmp tables.old q ⊎ HasUnrecorded found (records_of records.now.entries) parent.now q)) }
    ensures others { others place tables.new.entries ≡ tables.old.entries }
    ensures children { OnOk result (AreChildrenAt place parent.now tables.new.entries) }
    ensures err { OnErr result (tables.new.entries ≡ tables.old.entries) }
{
    for child in found {
        if let Err(refused) = open_child(tables, records, parent, place, child) {
            close_at(tables, place);
            return Err(refused);
        }
    }
    Ok(())
}

// Opens a child, unless it has a record, is the parent or is open.
fn open_child(
    tables: &mut BTreeMap<Table, u32>,
    records: &IndexMap<Table, StoredRecord>,
    parent: &Table,
    place: u32,
    child: Table,
) -> Result<(), NoMemory>
    ensures ok { OnOk result ((q : Packed) → ContainsKey table_cmp tables.new q
        ↔ (ContainsKey table_cmp tables.old q ⊎ HasUnrecorded (child ∷ []) (records_of records.now.entries) parent.now
        q)) }
    ensures others { others place tables.new.entries ≡ others place tables.old.entries }
    ensures entries { OnOk result ((tables.new.entries ≡ tables.old.entries)
        ⊎ (tables.new.entries ≡ insert_entry table_cmp tables.old.entries child place)) }
{
    if is_unrecorded(records, parent, &child) {
        open_new(tables, child, place)?;
    }
    Ok(())
}

// Opens a table, unless it is open.
fn open_new(tables: &mut BTreeMap<Table, u32>, t: Table, place: u32) -> Result<(), NoMemory>
    ensures ok { OnOk result ((q : Packed) → ContainsKey table_cmp tables.new q
        ↔ (ContainsKey table_cmp tables.old q ⊎ (q ≡ t))) }
    ensures others { others place tables.new.entries ≡ others place tables.old.entries }
    ensures entries { OnOk result ((tables.new.entries ≡ tables.old.entries)
        ⊎ (tables.new.entries ≡ insert_entry table_cmp tables.old.entries t place)) }
{
    // An open table keeps its opener.
    tables.entry(t)?.or_insert(place);
    Ok(())
}

// Takes a table of which a record is taken out of the open ones, where it is one.
pub(crate) fn close(tables: &mut BTreeMap<Table, u32>, t: &Table, waiting: Waiting)
    ensures { ClosesTable waiting t.now tables.old tables.new }
{
    if let Waiting::Open { .. } = waiting {
        tables.remove(t);
    }
}

// Closes what was opened by the record at a place.
fn close_at(tables: &mut BTreeMap<Table, u32>, place: u32)
    ensures { tables.new.entries ≡ others place tables.old.entries }
{
    tables.retain(|_, opened_by| *opened_by != place);
}

// Whether a table has no record and isn't the parent.
fn is_unrecorded(records: &IndexMap<Table, StoredRecord>, parent: &Table, t: &Table) -> bool
    ensures { IsTrue result ↔ ((claim_in (records_of records.now.entries) t.now ≡ None) × (t.now ≢ parent.now)) }
{
    match certificate_for(records, t) {
        Some(_) => false,
        None => *t != *parent,
    }
}

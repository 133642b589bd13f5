// What leases ask of a board, and the children of a table that was recorded.
ghost use Rattle.std.specs.Prelude.{◌≡◌, IfOk, Contains, ◌↔◌, IsTrue, false, ◌+◌, ◌≤◌, ℕ, IsSome, IfSome, length, Some};
ghost use Rattle.machine_text.specs.Terms.{Packed};
ghost use Rattle.ledger.specs.Terms.{IsOpenOn, AreAll, IsHalting};
ghost use Rattle.law_tree.specs.Terms.{IsChildTable};
ghost use Rattle.indexmap.specs.IndexMap.{spare};
ghost use Rattle.indexmap.specs.IndexSet.{spare as spare_of};
ghost use Rattle.leases.specs.Leases.{came_under};
ghost use Rattle.leases.specs.Limits.{child_limit};
ghost use Rattle.leases.specs.inside.{CameOnly, ComesUnder, ComesIn};

use crate::free_tables::FreeTables;
use indexmap::{IndexMap, IndexSet};
use kind_evidence::NoMemory;
use law_tree::children_listed;
use ledger::Board;
use machine_text::Table;
use std::alloc::Global;
use tnf::Children;

// The open tables of a board.
pub(crate) fn open_tables(alloc: Global, board: &Board) -> Result<FreeTables, NoMemory>
    ensures { IfOk result (λ free. (t : Packed) → IsOpenOn board.now t → Contains free.tables t) }
{
    let mut free = FreeTables::new(alloc);
    for t in board.open() {
        free.push(*t)?;
    }
    Ok(free)
}

// Whether any table is open.
pub(crate) fn has_open(board: &Board) -> bool
    ensures some { IsTrue result → ((t : Packed) × IsOpenOn board.now t) }
    ensures none { result ≡ false → (t : Packed) → IsOpenOn board.now t → ⊥ }
{
    match board.open().next() {
        Some(_) => true,
        None => false,
    }
}

// The children of a table that is recorded as halting.
fn children_of(board: &Board, t: &Table) -> Option<Children>
    ensures halting { IsSome result ↔ IsHalting board.now.records t.now }
    ensures all { IfSome result (λ found. AreAll (IsChildTable t.now) found) }
    ensures most { IfSome result (λ found. length found ≤ child_limit) }
{
    children_listed();
    // The proof needs that it is a table.
    let _ = t.states();
    board.children(t)
}

// Puts the children of a table, if it is recorded as halting, among the free ones. There is room for them.
pub(crate) fn free_children(free: &mut FreeTables, board: &Board, t: &Table)
    requires { child_limit ≤ free.old.room }
    ensures more { (q : Packed) → Contains free.old.tables q → Contains free.new.tables q }
    ensures all { (q : Packed) → IsChildTable t.now q → IsHalting board.now.records t.now → Contains free.new.tables q }
{
    match children_of(board, t) {
        Some(found) => free_all(free, found),
        None => {}
    }
}

// Puts tables among the free ones.
fn free_all(free: &mut FreeTables, found: Children)
    requires { length found ≤ free.old.room }
    ensures more { (q : Packed) → Contains free.old.tables q → Contains free.new.tables q }
    ensures all { (q : Packed) → Contains found q → Contains free.new.tables q }
{
    for child in found {
        match free.push(child) {
            Ok(()) => {}
            Err(_) => unreachable!(),
        }
    }
}

// Puts the open children of a table, if it is recorded as halting, under a lease, whose tables these are.
// There is room for them.
pub(crate) fn lease_children(
    came: &mut IndexMap<Table, u64>,
    tables: &mut IndexSet<Table>,
    board: &Board,
    number: u64,
    t: &Table,
)
    requires came { child_limit ≤ spare came.old }
    requires tables { child_limit ≤ spare_of tables.old }
    ensures here { (q : Packed) → IsChildTable t.now q → IsHalting board.now.records t.now → IsOpenOn board.now q
        → came_under came.new.entries q ≡ Some number }
    ensures other { (q : Packed) → (IsChildTable t.now q → ⊥)
        → came_under came.new.entries q ≡ came_under came.old.entries q }
    ensures only { CameOnly board.now number came.old.entries came.new.entries tables.new.keys }
    ensures more { (q : Packed) → Contains tables.old.keys q → Contains tables.new.keys q }
{
    match children_of(board, t) {
        Some(found) => lease_all(came, tables, board, number, found),
        None => {}
    }
}

// Puts those of the tables that are open under a lease.
fn lease_all(
    came: &mut IndexMap<Table, u64>,
    tables: &mut IndexSet<Table>,
    board: &Board,
    number: u64,
    found: Children,
)
    requires came { length found ≤ spare came.old }
    requires tables { length found ≤ spare_of tables.old }
    ensures here { (q : Packed) → Contains found q → IsOpenOn board.now q
        → came_under came.new.entries q ≡ Some number }
    ensures other { (q : Packed) → (Contains found q → ⊥)
        → came_under came.new.entries q ≡ came_under came.old.entries q }
    ensures only { CameOnly board.now number came.old.entries came.new.entries tables.new.keys }
    ensures more { (q : Packed) → Contains tables.old.keys q → Contains tables.new.keys q }
{
    for child in found {
        if board.is_open(&child) {
            lease_one(came, tables, number, child);
        }
    }
}

// Puts a table under a lease.
fn lease_one(
    came: &mut IndexMap<Table, u64>,
    tables: &mut IndexSet<Table>,
    number: u64,
    child: Table,
)
    requires came { 1 ≤ spare came.old }
    requires tables { 1 ≤ spare_of tables.old }
    ensures came { ComesUnder came.old.entries child number came.new.entries }
    ensures tables { ComesIn tables.old.keys child tables.new.keys }
    ensures came_spare { spare came.old ≤ spare came.new + 1 }
    ensures tables_spare { spare_of tables.old ≤ spare_of tables.new + 1 }
{
    match tables.insert(child) {
        Ok(_) => {}
        Err(_) => unreachable!(),
    }
    match came.insert(child, number) {
        Ok(_) => {}
        Err(_) => unreachable!(),
    }
}

// Tables that may be free to be leased, and the first of those that are under none.
ghost use Rattle.std.specs.Prelude.{◌≡◌, Some, IfSome, IfNone, IsTrue, ◌↔◌, Contains, map, ℕ, ◌+◌, ◌<◌, ◌≤◌, [], OnOk, OnErr, IsOk, false, length};
ghost use Rattle.std.specs.Ordering.{is_lt};
ghost use Rattle.machine_text.specs.Terms.{Packed, table_cmp};
ghost use Rattle.ledger.specs.Terms.{IsOpenOn};
ghost use Rattle.leases.specs.Leases.{came_under, while_live, IsFree, IsFirstFree};
ghost use Rattle.leases.specs.inside.{as_lease, as_leases, without, ComesIn, IsOnTop, LosesOnly};

use crate::held_leases::is_numbered;
use crate::live_leases::LiveLeases;
use indexmap::IndexMap;
use kind_evidence::NoMemory;
use law_tree::child_is_table;
use ledger::Board;
use machine_text::Table;
use std::alloc::Global;
use std::cmp::Reverse;
use std::collections::BinaryHeap;
use std::marker::Model;

// The number of the live lease under which a table stands, or none. One lease may be left out.
pub(crate) fn lease_of(
    came: &IndexMap<Table, u64>,
    live: &LiveLeases,
    but: Option<u64>,
    t: &Table,
) -> Option<u64>
    ensures { result ≡ while_live (map as_lease (without but live.now)) (came_under came.now.entries t.now) }
{
    match came.get(t) {
        Some(number) => while_lives(live, but, *number),
        None => None,
    }
}

// A number, if its lease lives and isn't left out.
fn while_lives(live: &LiveLeases, but: Option<u64>, number: u64) -> Option<u64>
    ensures { result ≡ while_live (map as_lease (without but live.now)) (Some number) }
{
    if live.lives(number) && !is_numbered(but, number) {
        Some(number)
    } else {
        None
    }
}

// Whether a table is open and under none.
fn is_free(
    board: &Board,
    came: &IndexMap<Table, u64>,
    live: &LiveLeases,
    but: Option<u64>,
    t: &Table,
) -> bool
    ensures { IsTrue result ↔ IsFree board.now (as_leases (without but live.now) came.now.entries 0 0) t.now }
{
    match lease_of(came, live, but, t) {
        Some(_) => false,
        None => board.is_open(t),
    }
}

// The first open table that is under none. Those before it among the tables that may be free aren't, and are
// taken out. It stays there itself, until it comes under a lease.
pub(crate) fn first_free(
    free: &mut FreeTables,
    board: &Board,
    came: &IndexMap<Table, u64>,
    live: &LiveLeases,
    but: Option<u64>,
) -> Option<Table>
    requires { (q : Packed) → IsFree board.now (as_leases (without but live.now) came.now.entries 0 0) q
        → Contains free.old.tables q }
    ensures kept { (q : Packed) → IsFree board.now (as_leases (without but live.now) came.now.entries 0 0) q
        → Contains free.new.tables q }
    ensures first { IfSome result (λ t. IsFirstFree board.now (as_leases (without but live.now) came.now.entries 0 0)
        t) }
    ensures none { IfNone result ((q : Packed)
        → IsFree board.now (as_leases (without but live.now) came.now.entries 0 0) q → ⊥) }
{
    child_is_table();
    // The proof needs that the open tables are tables.
    let _ = board.root();
    while let Some(t) = free.first() {
        if is_free(board, came, live, but, &t) {
            return Some(t);
        }
        free.pop();
    }
    None
}

// Tables, of which the first in the order of texts comes first. A table may be in it more than once.
#[derive(Drop)]
pub(crate) struct FreeTables {
    heap: BinaryHeap<Reverse<Table>>,
}

impl Model for FreeTables {
    ghost use Rattle.std.specs.Prelude.{◌-◌, map};
    ghost use Rattle.std.specs.BinaryHeap.{heap_items, heap_len, heap_capacity, IsHeap};
    ghost use Rattle.leases.specs.inside.{Free, reverse_cmp};

    ghost Value = { Free };

    ghost view = { λ a. record {
      tables = map (λ r. r.0) (heap_items a.heap);
      room = heap_capacity a.heap - heap_len
          a.heap;
    } };

    ghost invariant = { λ a. IsHeap reverse_cmp (heap_items a.heap) };
}

impl FreeTables {
    // No tables.
    pub fn new(alloc: Global) -> FreeTables
        ensures { result.tables ≡ [] }
    {
        FreeTables {
            heap: BinaryHeap::new(alloc),
        }
    }

    // Makes room for so many more.
    pub fn reserve(&mut self, additional: usize) -> Result<(), NoMemory>
        ensures tables { self.new.tables ≡ self.old.tables }
        ensures ok { OnOk result (additional ≤ self.new.room) }
    {
        self.heap.reserve(additional)
    }

    // Puts a table in. Where there is room, no memory is needed.
    pub fn push(&mut self, t: Table) -> Result<(), NoMemory>
        ensures ok { OnOk result (ComesIn self.old.tables t self.new.tables) }
        ensures err { OnErr result (self.new.tables ≡ self.old.tables) }
        ensures succeeds { 0 < self.old.room → IsOk result }
        ensures room { self.old.room ≤ self.new.room + 1 }
    {
        self.heap.push(Reverse(t))?;
        Ok(())
    }

    // The first table.
    pub fn first(&self) -> Option<Table>
        ensures top { IfSome result (IsOnTop self.now.tables) }
        ensures first { IfSome result (λ t. (q : Packed) → Contains self.now.tables q → is_lt (table_cmp q t) ≡ false) }
        ensures none { IfNone result (self.now.tables ≡ []) }
    {
        let top = self.heap.peek()?;
        Some(top.0)
    }

    // Takes a table out as often as it comes first.
    pub fn drop_first(&mut self, t: &Table)
        ensures { LosesOnly self.old.tables t.now self.new.tables }
    {
        while let Some(first) = self.first() {
            if first != *t {
                return;
            }
            self.pop();
        }
    }

    // Takes the first table out, once.
    pub fn pop(&mut self) -> Option<Table>
        ensures top { IfSome result (IsOnTop self.old.tables) }
        ensures others { IfSome result (λ t. LosesOnly self.old.tables t self.new.tables) }
        ensures fewer { IfSome result (λ t. length self.new.tables < length self.old.tables) }
        ensures none { IfNone result (self.old.tables ≡ []) }
    {
        let top = self.heap.pop()?;
        Some(top.0)
    }
}

// Live leases as they are stored, and where they stand.
ghost use Rattle.std.specs.Prelude.{◌≡◌, ◌≤◌, ◌∷◌, ◌++◌, [], OnOk, false, true, IfNone, IfOk, IfSome, OnErr, map, ◌+◌, nat_le, Contains};
ghost use Rattle.std.specs.VecDeque.{deque_capacity, deque_len};
ghost use Rattle.leases.specs.Leases.{SomeEnds, is_live};
ghost use Rattle.leases.specs.inside.{AreDue, AreNotBefore, RiseByNumber, StandsAt, as_lease, due_of, has_ended, stored_lease, without, is_numbered};
ghost use Rattle.machine_text.specs.Terms.{Packed};
ghost use Rattle.leases.specs.Limits.{lease_time};

use crate::free_tables::FreeTables;
use crate::limits::LEASE_TIME;
use indexmap::IndexSet;
use kind_evidence::NoMemory;
use machine_text::Table;
use std::alloc::Global;
use std::collections::VecDeque;

/// The answer to a worker that asks for a table.
#[derive(Clone, Copy, Debug, PartialEq, Eq)]
pub enum Reply {
    /// No table is open.
    Stop,
    /// Tables are open, but none may be given: each is under a lease, or too many leases live, or no
    /// number is left.
    Later,
    /// A table, under a new lease of this number.
    Grant { lease: u64, table: Table },
}

// The place of the lease of a number, which is looked for at a place first.
pub(crate) fn place_of(leases: &VecDeque<HeldLease>, first: usize, number: u64) -> Option<usize>
    requires { RiseByNumber (map stored_lease leases.now.items) }
    ensures at { IfSome result (StandsAt number (map stored_lease leases.now.items)) }
    ensures none { IfNone result (is_live (map as_lease (map stored_lease leases.now.items)) number ≡ false) }
{
    if is_at(leases, first, number) {
        return Some(first);
    }
    match leases.binary_search_by_key(&number, |lease| lease.number) {
        Ok(place) => Some(place),
        Err(_) => None,
    }
}

// Whether the lease of a number stands at a place.
fn is_at(leases: &VecDeque<HeldLease>, place: usize, number: u64) -> bool
    ensures { result ≡ true → StandsAt number (map stored_lease leases.now.items) place }
{
    match leases.get(place) {
        Some(lease) => lease.number == number,
        None => false,
    }
}

// Takes the lease of a number out, if it is there.
pub(crate) fn take_out(leases: &mut VecDeque<HeldLease>, which: Option<u64>)
    requires { RiseByNumber (map stored_lease leases.old.items) }
    ensures kept { map stored_lease leases.new.items ≡ without which (map stored_lease leases.old.items) }
    ensures len { deque_len leases.new ≤ deque_len leases.old }
    ensures capacity { deque_capacity leases.new ≡ deque_capacity leases.old }
{
    let Some(number) = which else {
        return;
    };
    if let Some(place) = place_of(leases, 0, number) {
        leases.remove(place);
    }
}

// Lists the numbers of the leases that have ended by a moment, and answers the earliest moment at which one of all was given or
// renewed. Memory is refused only where one has ended.
pub(crate) fn list_ended(
    leases: &VecDeque<HeldLease>,
    numbers: &mut Vec<u64>,
    moment: u64,
) -> Result<u64, NoMemory>
    requires rising { RiseByNumber (map stored_lease leases.now.items) }
    requires none { numbers.old.items ≡ [] }
    ensures earliest { IfOk result (λ earliest. AreNotBefore earliest (map stored_lease leases.now.items)) }
    ensures due { IfOk result (λ earliest. AreDue moment (map as_lease (map stored_lease leases.now.items))
        numbers.new.items) }
    ensures err { OnErr result (SomeEnds moment (map as_lease (map stored_lease leases.now.items))) }
{
    let mut earliest = u64::MAX;
    for place in 0..leases.len() {
        let Some(lease) = leases.get(place) else {
            unreachable!()
        };
        list_if_ended(lease, numbers, moment)?;
        earliest = earliest.min(lease.renewed);
    }
    Ok(earliest)
}

// Lists the number of a lease where that has ended by a moment.
fn list_if_ended(lease: &HeldLease, numbers: &mut Vec<u64>, moment: u64) -> Result<(), NoMemory>
    ensures ok { OnOk result (numbers.new.items ≡ numbers.old.items ++ due_of moment (stored_lease lease.now ∷ [])) }
    ensures err { OnErr result (has_ended moment (as_lease (stored_lease lease.now)) ≡ true) }
{
    if is_due(lease.renewed, moment) {
        numbers.push(lease.number)?;
    }
    Ok(())
}

// A live lease: its number, its worker, when it was given or renewed, and the open tables that are under it.
#[derive(Drop)]
pub(crate) struct HeldLease {
    pub number: u64,
    pub id: u32,
    pub renewed: u64,
    pub tables: IndexSet<Table>,
}

// Whether a lease that was given or renewed then has ended by a moment.
pub(crate) fn is_due(renewed: u64, moment: u64) -> bool
    ensures { result ≡ nat_le (renewed + lease_time) moment }
{
    moment >= LEASE_TIME && renewed <= moment - LEASE_TIME
}

// Whether this is the number.
pub(crate) fn is_numbered(which: Option<u64>, number: u64) -> bool
    ensures { result ≡ is_numbered which number }
{
    match which {
        Some(n) => number == n,
        None => false,
    }
}

// A table alone.
pub(crate) fn only(alloc: Global, t: Table) -> Result<IndexSet<Table>, NoMemory>
    ensures { IfOk result (λ tables. tables.keys ≡ t ∷ []) }
{
    let mut tables = IndexSet::new(alloc);
    tables.insert(t)?;
    Ok(tables)
}

// Puts tables among the free ones.
pub(crate) fn free_all(free: &mut FreeTables, tables: &[Table]) -> Result<(), NoMemory>
    ensures more { (q : Packed) → Contains free.old.tables q → Contains free.new.tables q }
    ensures ok { OnOk result ((q : Packed) → Contains tables.now q → Contains free.new.tables q) }
{
    for t in tables {
        free.push(*t)?;
    }
    Ok(())
}

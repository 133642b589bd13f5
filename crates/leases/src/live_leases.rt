// The live leases, each found by its number and by its worker.
ghost use Rattle.std.specs.Prelude.{◌≡◌, ◌<◌, ◌≤◌, ◌∷◌, ◌++◌, [], All, Contains, IfNone, IfOk, IfSome, OnOk, OnErr, false, true, map, length, ℕ};
ghost use Rattle.machine_text.specs.Terms.{Packed};
ghost use Rattle.indexmap.specs.IndexMap.{spare};
ghost use Rattle.leases.specs.Leases.{SomeEnds, is_live};
ghost use Rattle.leases.specs.Limits.{child_limit};
ghost use Rattle.leases.specs.inside.{stored_lease, as_lease, is_numbered, without, are_numbered, without_each, AreDue, AreAmongFree, AreNotAhead, IsOwn, StandsAt, Renews, RenewsOne, HasRoomForChildren, shown};

use crate::children::lease_children;
use crate::free_tables::FreeTables;
use crate::held_leases::{HeldLease, free_all, is_due, list_ended, place_of, take_out};
use crate::limits::MAX_CHILDREN;
use indexmap::IndexMap;
use kind_evidence::NoMemory;
use ledger::Board;
use machine_text::Table;
use std::alloc::Global;
use std::collections::VecDeque;
use std::marker::Model;

// The live leases in the order of their numbers, which is that in which they were given.
#[derive(Drop)]
pub(crate) struct LiveLeases {
    // most of those that end are among the first
    leases: VecDeque<HeldLease>,
    // the number of each worker's lease
    of_worker: IndexMap<u32, u64>,
    // none was given or renewed before this moment
    earliest: u64,
    // where the lease stood that was renewed last: records come in runs
    last: usize,
}

impl Model for LiveLeases {
    ghost use Rattle.std.specs.Prelude.{List, map, nat_eq};
    ghost use Rattle.indexmap.specs.IndexMap.{get as number_of};
    ghost use Rattle.leases.specs.inside.{StoredLease, stored_lease, AreNotBefore, AreOfWorkers, RiseByNumber};

    ghost Value = { List StoredLease };

    ghost view = { λ a. map stored_lease a.leases.items };

    ghost invariant = { λ a. RiseByNumber (map stored_lease a.leases.items)
        × AreOfWorkers (number_of nat_eq a.of_worker) (map stored_lease a.leases.items)
        × AreNotBefore a.earliest (map stored_lease a.leases.items) };
}

impl LiveLeases {
    // No leases.
    pub fn new(alloc: Global) -> LiveLeases
        ensures { result ≡ [] }
    {
        LiveLeases {
            leases: VecDeque::new(alloc),
            of_worker: IndexMap::new(alloc),
            earliest: u64::MAX,
            last: 0,
        }
    }

    // The place of the lease of a number, if it lives.
    fn place(&self, number: u64) -> Option<usize>
        ensures at { IfSome result (StandsAt number self.now) }
        ensures none { IfNone result (is_live (map as_lease self.now) number ≡ false) }
    {
        place_of(&self.leases, self.last, number)
    }

    // Whether a lease of this number lives.
    pub fn lives(&self, number: u64) -> bool
        ensures { result ≡ is_live (map as_lease self.now) number }
    {
        self.place(number).is_some()
    }

    // How many leases there are without this one.
    pub fn len_without(&self, which: Option<u64>) -> usize
        ensures { result ≡ length (without which self.now) }
    {
        let all = self.leases.len();
        let Some(number) = which else {
            return all;
        };
        match self.place(number) {
            Some(_) => all - 1,
            None => all,
        }
    }

    // The number of a worker's lease, if it has one.
    pub fn of_worker(&self, id: u32) -> Option<u64>
        ensures { IsOwn id result self.now }
    {
        self.of_worker.get(&id).copied()
    }

    // The numbers of the leases that have ended by a moment, which live until they are ended. All leases are looked through
    // where one may have ended: at most once for each moment but for those that end. Memory is refused only where there is one.
    pub fn due(&mut self, alloc: Global, moment: u64) -> Result<Vec<u64>, NoMemory>
        ensures same { self.new ≡ self.old }
        ensures ok { IfOk result (λ numbers. AreDue moment (map as_lease self.old) numbers.items) }
        ensures err { OnErr result (SomeEnds moment (map as_lease self.old)) }
    {
        let mut numbers = Vec::new(alloc);
        if is_due(self.earliest, moment) {
            self.earliest = list_ended(&self.leases, &mut numbers, moment)?;
        }
        Ok(numbers)
    }

    // Puts the tables of a lease among the free ones. Memory is refused only where it lives.
    pub fn free_tables_of(&self, which: Option<u64>, free: &mut FreeTables) -> Result<(), NoMemory>
        ensures more { (q : Packed) → Contains free.old.tables q → Contains free.new.tables q }
        ensures ok { OnOk result (AreAmongFree (λ l. is_numbered which l.number) self.now free.new.tables) }
        ensures err { OnErr result (IfSome which (λ n. is_live (map as_lease self.now) n ≡ true)) }
    {
        let Some(number) = which else {
            return Ok(());
        };
        let Some(place) = self.place(number) else {
            return Ok(());
        };
        match self.leases.get(place) {
            Some(lease) => free_all(free, lease.tables.as_slice()),
            None => unreachable!(),
        }
    }

    // Ends a lease.
    pub fn end(&mut self, which: Option<u64>)
        ensures { self.new ≡ without which self.old }
    {
        let Some(number) = which else {
            return;
        };
        let Some(place) = self.place(number) else {
            return;
        };
        let Some(lease) = self.leases.remove(place) else {
            unreachable!()
        };
        self.of_worker.swap_remove(&lease.id);
    }

    // Puts the tables of leases among the free ones. Memory is refused only where one of them lives.
    pub fn free_each(&self, numbers: &[u64], free: &mut FreeTables) -> Result<(), NoMemory>
        ensures more { (q : Packed) → Contains free.old.tables q → Contains free.new.tables q }
        ensures ok { OnOk result (AreAmongFree (λ l. are_numbered numbers.now l.number) self.now free.new.tables) }
        ensures err { OnErr result ((n : ℕ) × Contains numbers.now n × (is_live (map as_lease self.now) n ≡ true)) }
    {
        for number in numbers {
            self.free_tables_of(Some(*number), free)?;
        }
        Ok(())
    }

    // Ends leases.
    pub fn end_each(&mut self, numbers: &[u64])
        ensures { self.new ≡ without_each numbers.now self.old }
    {
        for number in numbers {
            self.end(Some(*number));
        }
    }

    // Puts a new lease of a worker in the place of its own one, if it has one. Its number is the greatest.
    pub fn replace(&mut self, own: Option<u64>, lease: HeldLease) -> Result<(), NoMemory>
        requires last { All (λ l. l.number < lease.number) self.old }
        requires own { IsOwn lease.id own self.old }
        ensures ok { OnOk result (self.new ≡ without own self.old ++ (stored_lease lease ∷ [])) }
        ensures err { OnErr result (self.new ≡ self.old) }
    {
        self.leases.reserve(1)?;
        self.of_worker.reserve(1)?;
        // From here on nothing is refused.
        take_out(&mut self.leases, own);
        match self.of_worker.insert(lease.id, lease.number) {
            Ok(_) => {}
            Err(_) => unreachable!(),
        }
        self.earliest = self.earliest.min(lease.renewed);
        self.leases.push_back_reserved(lease);
        Ok(())
    }

    // Makes room for the children of a table under a lease.
    pub fn make_room(&mut self, number: u64) -> Result<(), NoMemory>
        ensures shown { map shown self.new ≡ map shown self.old }
        ensures ok { OnOk result (HasRoomForChildren number self.new) }
    {
        let Some(place) = self.place(number) else {
            return Ok(());
        };
        self.last = place;
        match self.leases.get_mut(place) {
            Some(lease) => lease.tables.reserve(MAX_CHILDREN),
            None => unreachable!(),
        }
    }

    // Renews a lease, and puts the open children of a table under it in its place. There is room for them.
    pub fn renew(
        &mut self,
        number: u64,
        came: &mut IndexMap<Table, u64>,
        board: &Board,
        moment: u64,
        t: &Table,
    )
        requires lives { is_live (map as_lease self.old) number ≡ true }
        requires room { HasRoomForChildren number self.old }
        requires came { child_limit ≤ spare came.old }
        requires ahead { AreNotAhead moment self.old }
        ensures { RenewsOne board.now t.now number moment self.old self.new came.old.entries came.new.entries }
    {
        let Some(place) = self.place(number) else {
            unreachable!()
        };
        match self.leases.get_mut(place) {
            Some(lease) => renew_lease(lease, came, board, moment, t),
            None => unreachable!(),
        }
    }
}

fn renew_lease(
    lease: &mut HeldLease,
    came: &mut IndexMap<Table, u64>,
    board: &Board,
    moment: u64,
    t: &Table,
)
    requires room { child_limit ≤ (stored_lease lease.old).room }
    requires came { child_limit ≤ spare came.old }
    ensures { Renews board.now t.now moment (stored_lease lease.old) (stored_lease lease.new) came.old.entries
        came.new.entries }
{
    lease.renewed = moment;
    lease.tables.swap_remove(t);
    lease_children(came, &mut lease.tables, board, lease.number, t);
}

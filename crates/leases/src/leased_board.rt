// A board, and the leases on its open tables.
ghost use Rattle.std.specs.Prelude.{◌≡◌, ◌==◌, IfOk, OnOk, OnErr, max, true};

use crate::children::{free_children, has_open, open_tables};
use crate::free_tables::{FreeTables, first_free, lease_of};
use crate::held_leases::{HeldLease, Reply, only};
use crate::limits::{MAX_CHILDREN, may_grant};
use crate::live_leases::LiveLeases;
use cert::Record;
use indexmap::IndexMap;
use kind_evidence::NoMemory;
use law_tree::child_is_table;
use ledger::{Board, OfferFault, Taken};
use machine_text::Table;
use std::alloc::Global;
use std::marker::Model;

/// A board, and the leases on its open tables: each open table is under none or under one live lease.
#[derive(Drop)]
pub struct LeasedBoard {
    alloc: Global,
    board: Board,
    live: LiveLeases,
    // open tables, each with the number of the lease under which it came last, whether or not that lives
    came_under: IndexMap<Table, u64>,
    // the open tables that are under none, and perhaps others
    free: FreeTables,
    moment: u64,
    // the last number that was given, 0 at first
    given: u64,
}

impl Model for LeasedBoard {
    ghost use Rattle.leases.specs.Leases.{Leased, AreLeases};
    ghost use Rattle.leases.specs.inside.{as_leases, AreStored, AreNotAhead};

    ghost Value = { Leased };

    ghost view = { λ a. record { board = a.board; leases = as_leases a.live a.came_under.entries a.moment a.given } };

    ghost invariant = { λ a. (AreLeases a.board (as_leases a.live a.came_under.entries a.moment a.given)
        × AreStored a.board a.live a.came_under.entries a.free.tables) × AreNotAhead a.moment a.live };
}

impl LeasedBoard {
    ghost use Rattle.std.specs.Prelude.{Some, None};
    ghost use Rattle.cert.specs.Terms.{recorded};
    ghost use Rattle.leases.specs.Leases.{LeasesAfter, OffersBoardLine, Asks, AreLeases, SomeEnds, no_leases, is_live, lease_of, ended, ticked, IsDone};

    /// A board without leases, at the moment 0. `NoMemory` where there is no room for its open tables.
    pub fn new(alloc: Global, board: Board) -> Result<LeasedBoard, NoMemory>
        ensures { IfOk result (λ new. new ≡ record { board = board; leases = no_leases }) }
    {
        let free = open_tables(alloc, &board)?;
        Ok(LeasedBoard {
            alloc,
            board,
            live: LiveLeases::new(alloc),
            came_under: IndexMap::new(alloc),
            free,
            moment: 0,
            given: 0,
        })
    }

    /// The board, lent.
    pub fn board(&self) -> &Board
        ensures board { result.now ≡ self.now.board }
        ensures leases { AreLeases self.now.board self.now.leases }
    {
        &self.board
    }

    /// A tick: the moment becomes the greater of itself and `t`, and each lease whose deadline is at most
    /// the moment ends. Memory is refused only where a lease ends, and then nothing has changed.
    pub fn tick(&mut self, t: u64) -> Result<(), NoMemory>
        ensures board { self.new.board ≡ self.old.board }
        ensures ok { OnOk result (self.new.leases ≡ ticked t self.old.leases) }
        ensures err { OnErr result (SomeEnds (max self.old.leases.moment t) self.old.leases.live
            × (self.new.leases ≡ self.old.leases)) }
    {
        let moment = self.moment.max(t);
        let numbers = self.live.due(self.alloc, moment)?;
        self.live.free_each(&numbers, &mut self.free)?;
        self.live.end_each(&numbers);
        self.moment = moment;
        Ok(())
    }

    /// Ends the lease of a number, and answers whether it lived. Memory is refused only where it lived, and
    /// then nothing has changed.
    pub fn done(&mut self, number: u64) -> Result<bool, NoMemory>
        ensures board { self.new.board ≡ self.old.board }
        ensures ok { IfOk result (λ lived. IsDone number self.old.leases lived self.new.leases) }
        ensures err { OnErr result ((is_live self.old.leases.live number ≡ true)
            × (self.new.leases ≡ self.old.leases)) }
    {
        let lived = self.live.lives(number);
        self.end(number)?;
        Ok(lived)
    }

    // Ends the lease of a number, if it lives.
    fn end(&mut self, number: u64) -> Result<(), NoMemory>
        ensures board { self.new.board ≡ self.old.board }
        ensures ok { OnOk result (self.new.leases ≡ ended (λ l. l.number == number) self.old.leases) }
        ensures err { OnErr result ((is_live self.old.leases.live number ≡ true)
            × (self.new.leases ≡ self.old.leases)) }
    {
        self.live.free_tables_of(Some(number), &mut self.free)?;
        self.live.end(Some(number));
        Ok(())
    }

    /// A worker asks. Its own lease ends, if it has one. Then it is answered `Stop` where no table is open;
    /// else, where one more lease may live and some open table is under none, the first such table comes
    /// under a new lease; else `Later`. Where memory was refused, nothing has changed.
    pub fn ask(&mut self, id: u32) -> Result<Reply, NoMemory>
        ensures board { self.new.board ≡ self.old.board }
        ensures ok { IfOk result (λ reply. Asks self.old.board id self.old.leases reply self.new.leases) }
        ensures err { OnErr result (self.new.leases ≡ self.old.leases) }
    {
        // The worker's own lease goes when nothing more can be refused: it makes way for the new one.
        let own = self.live.of_worker(id);
        self.live.free_tables_of(own, &mut self.free)?;
        if !has_open(&self.board) {
            self.live.end(own);
            return Ok(Reply::Stop);
        }
        if !may_grant(self.live.len_without(own), self.given) {
            self.live.end(own);
            return Ok(Reply::Later);
        }
        match first_free(
            &mut self.free,
            &self.board,
            &self.came_under,
            &self.live,
            own,
        ) {
            Some(table) => {
                let lease = self.given + 1;
                let tables = only(self.alloc, table)?;
                self.came_under.reserve(1)?;
                let new = HeldLease {
                    number: lease,
                    id,
                    renewed: self.moment,
                    tables,
                };
                self.live.replace(own, new)?;
                match self.came_under.insert(table, lease) {
                    Ok(_) => {}
                    Err(_) => unreachable!(),
                }
                self.free.drop_first(&table);
                self.given = lease;
                Ok(Reply::Grant { lease, table })
            }
            None => {
                self.live.end(own);
                Ok(Reply::Later)
            }
        }
    }

    /// Offers a record to the board, and appends its line where it is taken, as `Board::offer_line` does. Where it was
    /// taken as `New`, the children that became open come under the lease under which its table stood, or under none,
    /// and that lease is renewed. Where it resolved a holdout, the children are under none. After an error nothing has
    /// changed.
    ///
    /// Room for the children is made before the board is asked, so `NoMemory` may come for any record.
    pub fn offer_line(&mut self, r: &Record, out: &mut Vec<u8>) -> Result<Taken, OfferFault>
        ensures offer { OffersBoardLine (recorded r.now) result self.old.board out.old.items self.new.board
            out.new.items }
        ensures leases { LeasesAfter r.now.table result self.old self.new }
    {
        match lease_of(&self.came_under, &self.live, None, &r.table) {
            Some(number) => self.offer_under(number, r, out),
            None => self.offer_free(r, out),
        }
    }

    // Offers a record of a table that is under none.
    fn offer_free(&mut self, r: &Record, out: &mut Vec<u8>) -> Result<Taken, OfferFault>
        requires { lease_of self.old.leases r.now.table ≡ None }
        ensures offer { OffersBoardLine (recorded r.now) result self.old.board out.old.items self.new.board
            out.new.items }
        ensures leases { LeasesAfter r.now.table result self.old self.new }
    {
        child_is_table();
        // The proof needs that it is a board.
        let _ = self.board.root();
        self.free.reserve(MAX_CHILDREN)?;
        match self.board.offer_line(r, out) {
            Ok(Taken::New) => {
                self.came_under.swap_remove(&r.table);
                free_children(&mut self.free, &self.board, &r.table);
                Ok(Taken::New)
            }
            Ok(Taken::Settled) => {
                free_children(&mut self.free, &self.board, &r.table);
                Ok(Taken::Settled)
            }
            Ok(Taken::Known) => Ok(Taken::Known),
            Err(fault) => Err(fault),
        }
    }

    // Offers a record of a table that is under the live lease of this number.
    fn offer_under(
        &mut self,
        number: u64,
        r: &Record,
        out: &mut Vec<u8>,
    ) -> Result<Taken, OfferFault>
        requires { lease_of self.old.leases r.now.table ≡ Some number }
        ensures offer { OffersBoardLine (recorded r.now) result self.old.board out.old.items self.new.board
            out.new.items }
        ensures leases { LeasesAfter r.now.table result self.old self.new }
    {
        child_is_table();
        // The proof needs that it is a board.
        let _ = self.board.root();
        self.came_under.reserve(MAX_CHILDREN)?;
        self.live.make_room(number)?;
        match self.board.offer_line(r, out) {
            Ok(Taken::New) => {
                self.came_under.swap_remove(&r.table);
                self.live.renew(
                    number,
                    &mut self.came_under,
                    &self.board,
                    self.moment,
                    &r.table,
                );
                Ok(Taken::New)
            }
            // an open table has no record: neither of these comes
            Ok(Taken::Known) => Ok(Taken::Known),
            Ok(Taken::Settled) => Ok(Taken::Settled),
            Err(fault) => Err(fault),
        }
    }
}

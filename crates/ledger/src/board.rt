// Boards: the records of a tree's tables, and the tables that are open.
ghost use Rattle.std.specs.Prelude.{◌≡◌, ℕ, IfSome, IfOk, Err, ◌↔◌, ◌≤◌, Option, Some, IsTrue, drop};
ghost use Rattle.machine_text.specs.Terms.{state_limit, entry_of, empty_table};
ghost use Rattle.law_tree.specs.Terms.{InOrder, Scores, IsBestOfTable, IsChildTable};
ghost use Rattle.kind_evidence.specs.Terms.{IsTrueOf};
ghost use Rattle.law_turing.specs.Terms.{IsRado, HaltsAt};
ghost use Rattle.std.specs.Vec.Iter.{into_iter_items};
ghost use Rattle.ledger.specs.LedgerText.{format_number};
ghost use Rattle.ledger.specs.Records.{IsBoard, IsSigma};
ghost use Rattle.ledger.specs.declared.header.Format.TheVariants.{Two};
ghost use Rattle.ledger.specs.inside.Waiting.{IsFooting};
ghost use Rattle.ledger.specs.Tally.{AreAll, IsChampion, IsGreatestCount, IsGreatestOnes, IsHalting, IsOnesChampion, IsStatus, IsTally};

use crate::counts::{Counts, Tally};
use crate::faults::{BoardFault, OfferFault, Status, Taken};
use crate::header::Format;
use crate::open_tables::{
    Open, child_count, children_on, close, only, open_children, opener_place, opening_room,
};
use crate::places::{
    Footing, Waiting, certificate_for, pair_for, recorded_footing, tree_count_of, verdict_in,
};
use crate::selected::{
    Records, listed_tables, sorted_tables, tables_with, tables_with_ones, undecided_tables,
};
use crate::stored_record::{Judging, StoredRecord};
use crate::tree_count::{TreeChange, TreeCount, change_chain};
use cert::{Record, standing_claims_are_true};
use indexmap::IndexMap;
use kind_evidence::{NoMemory, Verdict};
use law_tree::{best_of_closed, child_is_table, closed_tree, rado_of_complete};
use machine_text::Table;
use std::alloc::Global;
use std::collections::BTreeMap;
use std::marker::Model;
use std::vec::IntoIter;
use tnf::{Children, in_order};

/// An iterator over the holdouts of a board.
pub type Holdouts = IntoIter<Table>;

/// An iterator over the champions of a board, by steps or by scores.
pub type Champions = IntoIter<Table>;

/// The records of a tree's tables, from the tree's root, in the order in which they were taken.
#[derive(Drop)]
pub struct Board {
    alloc: Global,
    root: Table,
    // under their tables, which aren't kept again; with each what is left in its tree
    records: IndexMap<Table, StoredRecord>,
    // exactly the open tables, each with the place of the record that opened it
    open_tables: BTreeMap<Table, u32>,
    // the numbers of the records
    counts: Counts,
    // of its ledger's text
    format: Format,
}

impl Model for Board {
    ghost use Rattle.std.specs.List.{All};
    ghost use Rattle.ledger.specs.inside.Stored.{records_of, KnowsPair};
    ghost use Rattle.ledger.specs.inside.Counting.{IsOpenMapOf, IsCounted};
    ghost use Rattle.ledger.specs.inside.Trees.{IsIndexed};
    ghost use Rattle.ledger.specs.Records.{Contents, IsBoardOf};

    ghost Value = { Contents };

    ghost view = { λ a. record { root = a.root; records = records_of a.records.entries; format = a.format } };

    ghost invariant = { λ a. IsBoardOf a.root (records_of a.records.entries)
        × IsOpenMapOf a.open_tables a.root (records_of a.records.entries)
        × All KnowsPair a.records.entries
        × IsCounted (records_of a.records.entries) a.counts
        × IsIndexed a.root a.records.entries };
}

impl Board {
    ghost use Rattle.std.specs.Prelude.{[], OnErr, IfErr, ◌⊎◌, IsSome};
    ghost use Rattle.law_tree.specs.Terms.{IsOpen};
    ghost use Rattle.cert.specs.Terms.{IsCertified, with_score, recorded};
    ghost use Rattle.ledger.specs.Records.{claim_in, mark_in, verdict_in, IsHoldout};
    ghost use Rattle.ledger.specs.Offers.{KeepsTree, OfferGives, IsRefusedOnly};
    ghost use Rattle.ledger.specs.inside.Counting.{IsOpener};
    ghost use Rattle.ledger.specs.inside.Waiting.{IsUnjudged, IsJudgedSo, IsWhyRefused, WaitsFor, TakesAs, put_by};
    ghost use Rattle.ledger.specs.inside.Trees.{IsTreeCount};

    /// A board of the tree of a root, without records, of version 2. The root must name its states in order.
    pub fn new(alloc: Global, root: Table) -> Result<Board, BoardFault>
        ensures ok { IfOk result (λ board. board ≡ record { root = root; records = []; format = Two }) }
        ensures in_order { IfOk result (λ board. (u : ℕ) × InOrder u (entry_of root)) }
        ensures not_in_order { result ≡ Err BoardFault.NotInOrder → ((u : ℕ) × InOrder u (entry_of root)) → ⊥ }
        ensures memory { result ≡ Err BoardFault.NoMemory → (u : ℕ) × InOrder u (entry_of root) }
    {
        // The proof needs that the root is a table.
        let _ = root.states();
        if !in_order(&root) {
            return Err(BoardFault::NotInOrder);
        }
        let open_tables = only(alloc, root)?;
        Ok(Board {
            alloc,
            root,
            records: IndexMap::new(alloc),
            open_tables,
            counts: Counts::none(),
            format: Format::Two,
        })
    }

    // The board with this version.
    pub(crate) fn in_format(self, format: Format) -> Board
        ensures { result ≡ record { root = self.root; records = self.records; format = format } }
    {
        Board { format, ..self }
    }

    /// The number of the version of its ledger's text: that of the text that was loaded, and 2 of a new board and of
    /// one whose text was torn off within its header. It never changes.
    pub fn format(&self) -> u8
        ensures { result ≡ format_number self.now.format }
    {
        self.format.number()
    }

    /// The version of the board's ledger.
    pub fn version(&self) -> Format
        ensures { result ≡ self.now.format }
    {
        self.format
    }

    /// The root of the tree. Whoever calls it knows that the board is one: its records are held from its root.
    pub fn root(&self) -> &Table
        ensures root { result.now ≡ self.now.root }
        ensures board { IsBoard self.now }
    {
        &self.root
    }

    /// The records, lent, in their order.
    pub fn records(&self) -> Records<'_>
        ensures { result ≡ self.now.records }
    {
        Records::of(&self.records)
    }

    /// The records from a place on, lent, in their order: the first has the place 0. None where there are no
    /// more than that many. It takes the same time for each place.
    pub fn records_from(&self, place: usize) -> Records<'_>
        ensures { result ≡ drop place self.now.records }
    {
        Records::from_place(&self.records, place)
    }

    /// The open tables, in the order of their texts: the root or a child of a table recorded as halting,
    /// without a record of its own.
    pub fn open(&self) -> Open<'_>
        ensures { AreAll (IsOpen self.now.root (mark_in self.now.records)) result }
    {
        child_is_table();
        Open::of(&self.open_tables)
    }

    /// Whether a table is open. It takes time that grows with the logarithm of the board.
    pub fn is_open(&self, t: &Table) -> bool
        ensures { IsTrue result ↔ IsOpen self.now.root (mark_in self.now.records) t.now }
    {
        self.open_tables.contains_key(t)
    }

    /// Whether a table is recorded, with a verdict or as a holdout.
    pub fn is_recorded(&self, t: &Table) -> bool
        ensures { IsTrue result ↔ IsSome (claim_in self.now.records t.now) }
    {
        certificate_for(&self.records, t).is_some()
    }

    /// The holdouts, in the order of their texts: the tables whose record has no verdict.
    pub fn holdouts(&self) -> Result<Holdouts, NoMemory>
        ensures { IfOk result (λ found. AreAll (IsHoldout self.now.records) (into_iter_items found)) }
    {
        child_is_table();
        let tables = undecided_tables(self.alloc, &self.records)?;
        Ok(sorted_tables(tables))
    }

    /// The children of a table that is recorded as halting, in the order of their texts; none where it
    /// isn't so recorded.
    pub fn children(&self, t: &Table) -> Option<Children>
        ensures halting { IsSome result ↔ IsHalting self.now.records t.now }
        ensures all { IfSome result (AreAll (IsChildTable t.now)) }
    {
        child_is_table();
        match pair_for(&self.records, t) {
            Some(pair) => Some(children_on(t, pair)),
            None => None,
        }
    }

    /// How many tables there are of each kind.
    pub fn tally(&self) -> Tally
        ensures { IsTally self.now.root self.now.records result }
    {
        Tally {
            nodes: self.records.len() as u64 + self.open_tables.len() as u64,
            halting: self.counts.halting,
            never: self.counts.never,
            holdouts: self.counts.undecided,
            open_count: self.open_tables.len() as u64,
            best: self.counts.best,
            ones: self.counts.ones,
        }
    }

    /// The tables that are recorded with the greatest number of steps, in the order of their texts.
    pub fn champions(&self) -> Result<Champions, NoMemory>
        ensures { IfOk result (λ found. (best : Option ℕ) → IsGreatestCount self.now.records best →
            AreAll (IsChampion self.now.records best) (into_iter_items found)) }
    {
        child_is_table();
        let tables = tables_with(self.alloc, &self.records, self.counts.best)?;
        Ok(sorted_tables(tables))
    }

    /// The tables that are recorded with the greatest score, in the order of their texts.
    pub fn ones_champions(&self) -> Result<Champions, NoMemory>
        ensures { IfOk result (λ found. (ones : Option ℕ) → IsGreatestOnes self.now.records ones →
            AreAll (IsOnesChampion self.now.records ones) (into_iter_items found)) }
    {
        child_is_table();
        let tables = tables_with_ones(self.alloc, &self.records, self.counts.ones)?;
        Ok(sorted_tables(tables))
    }

    /// The champions by steps, those by scores and the holdouts, as `champions`, `ones_champions` and `holdouts` give
    /// them, by one pass over the records.
    pub fn champions_and_holdouts(&self) -> Result<(Champions, Champions, Holdouts), NoMemory>
        ensures champions { IfOk result (λ found. (best : Option ℕ) → IsGreatestCount self.now.records best →
            AreAll (IsChampion self.now.records best) (into_iter_items found.0)) }
        ensures ones_champions { IfOk result (λ found. (ones : Option ℕ) → IsGreatestOnes self.now.records ones →
            AreAll (IsOnesChampion self.now.records ones) (into_iter_items found.1)) }
        ensures holdouts { IfOk result (λ found. AreAll (IsHoldout self.now.records) (into_iter_items found.2)) }
    {
        child_is_table();
        let counts = self.counts;
        let (champions, ones_champions, holdouts) = listed_tables(
            self.alloc,
            &self.records,
            counts.best,
            counts.ones,
        )?;
        let champions = sorted_tables(champions);
        let ones_champions = sorted_tables(ones_champions);
        let holdouts = sorted_tables(holdouts);
        Ok((champions, ones_champions, holdouts))
    }

    /// How the board stands. Where it is complete, its best is the greatest number of steps of all
    /// extensions of the root that halt, in tree normal form or not; for the empty table of n states that
    /// is Radó's S(n). Its ones are their greatest score, and for the empty table of n states Radó's Σ(n).
    pub fn status(&self) -> Status
        ensures stands { IsStatus self.now.root self.now.records result }
        ensures best { (best ones : Option ℕ) → result ≡ Status.Complete best ones
            → IsBestOfTable HaltsAt self.now.root best }
        ensures ones { (best ones : Option ℕ) → result ≡ Status.Complete best ones
            → IsBestOfTable Scores self.now.root ones }
        ensures rado { (n s : ℕ) (ones : Option ℕ) → 1 ≤ n → n ≤ state_limit → self.now.root ≡ empty_table n
            → result ≡ Status.Complete (Some s) ones → IsRado n s }
        ensures sigma { (n s : ℕ) (best : Option ℕ) → 1 ≤ n → n ≤ state_limit → self.now.root ≡ empty_table n
            → result ≡ Status.Complete best (Some s) → IsSigma n s }
    {
        child_is_table();
        standing_claims_are_true();
        closed_tree();
        best_of_closed();
        rado_of_complete();
        // The proof needs the invariant of the board.
        let _ = &self.root;
        self.standing()
    }

    // Whether tables are open, or there are holdouts, or neither.
    fn standing(&self) -> Status
        ensures { IsStatus self.now.root self.now.records result }
    {
        let open_count = self.open_tables.len() as u64;
        if open_count > 0 {
            return Status::Working { count: open_count };
        }
        let holdout_count = self.counts.undecided;
        if holdout_count > 0 {
            return Status::Holdouts {
                count: holdout_count,
            };
        }
        Status::Complete {
            best: self.counts.best,
            ones: self.counts.ones,
        }
    }

    /// The recorded verdict on a table, which is true of it, with its score where it halts; none where there is none, as
    /// for a holdout.
    pub fn verdict(&self, t: &Table) -> Option<Verdict>
        ensures recorded { result ≡ verdict_in self.now.records t.now }
        ensures is_true { IfSome result (λ v. IsTrueOf v (entry_of t.now)) }
    {
        standing_claims_are_true();
        // The proof needs that it is a table.
        let _ = t.states();
        verdict_in(&self.records, t)
    }

    pub(crate) fn alloc(&self) -> Global {
        self.alloc
    }

    // The numbers of a recorded table's tree.
    pub(crate) fn tree_count(&self, t: &Table) -> Option<TreeCount>
        ensures some { IfSome result (IsTreeCount self.now.root self.now.records t.now) }
        ensures none { IsSome result ↔ IsSome (claim_in self.now.records t.now) }
    {
        // The proof needs the invariant of the board.
        let _ = &self.root;
        tree_count_of(&self.records, t)
    }

    /// Offers a record. It is judged in this order: its table has another number of states than the
    /// root, `WrongSize`; its table has a verdict, or is a holdout and no verdict is offered, `Known`,
    /// whatever its certificate; its table is neither open nor a holdout, `NotOpen`; its certificate
    /// doesn't stand, `Refused`; its table is open, `New`; its table is a holdout, `Settled`. After an
    /// error nothing has changed, and no offer changes a complete board.
    pub fn offer(&mut self, r: &Record) -> Result<Taken, OfferFault>
        ensures gives { OfferGives self.old.root self.old.records (recorded r.now) result self.new.records }
        ensures kept { KeepsTree self.old self.new }
    {
        self.put(r, Judging::Due)
    }

    /// Offers a record that is certified already, as what a decider answers is. It does what `offer` does, but
    /// the certificate isn't judged once more, and so not refused: only a table that halts is run, for its children.
    pub fn offer_certified(&mut self, r: &Record) -> Result<Taken, OfferFault>
        requires { IsCertified (recorded r.now) }
        ensures gives { OfferGives self.old.root self.old.records (recorded r.now) result self.new.records }
        ensures kept { KeepsTree self.old self.new }
        ensures stands { IfErr result (IsRefusedOnly ⊥) }
    {
        self.put(r, Judging::Done)
    }

    // Offers a record, by whether it is yet to be judged.
    pub(crate) fn put(&mut self, r: &Record, judging: Judging) -> Result<Taken, OfferFault>
        requires { IsJudgedSo judging (recorded r.now) }
        ensures gives { OfferGives self.old.root self.old.records (recorded r.now) result self.new.records }
        ensures kept { KeepsTree self.old self.new }
        ensures due { IfErr result (IsRefusedOnly (IsUnjudged judging)) }
    {
        if r.table.states() != self.root.states() {
            return Err(OfferFault::WrongSize);
        }
        let footing = self.footing(r);
        self.put_at(footing, r, judging)
    }

    // Offers a record of as many states that stands there, by whether it is yet to be judged.
    pub(crate) fn put_at(
        &mut self,
        footing: Footing,
        r: &Record,
        judging: Judging,
    ) -> Result<Taken, OfferFault>
        requires size { r.now.table.states ≡ self.old.root.states }
        requires footing { IsFooting self.old.root self.old.records (recorded r.now) footing }
        requires judged { IsJudgedSo judging (recorded r.now) }
        ensures gives { OfferGives self.old.root self.old.records (recorded r.now) result self.new.records }
        ensures kept { KeepsTree self.old self.new }
        ensures due { IfErr result (IsRefusedOnly (IsUnjudged judging)) }
    {
        match footing {
            Footing::Known => Ok(Taken::Known),
            Footing::Elsewhere => Err(OfferFault::NotOpen),
            Footing::Waiting(waiting) => self.take(r, judging, waiting),
        }
    }

    // Where an offered record stands.
    pub(crate) fn footing(&self, r: &Record) -> Footing
        ensures { IsFooting self.now.root self.now.records (recorded r.now) result }
    {
        match certificate_for(&self.records, &r.table) {
            Some(held) => recorded_footing(&held, &r.certificate),
            None => self.unrecorded_footing(&r.table),
        }
    }

    // Where a table without a record stands.
    fn unrecorded_footing(&self, t: &Table) -> Footing
        ensures { ((opener : ℕ) × IsOpen self.now.root (mark_in self.now.records) t.now
            × IsOpener self.now.root self.now.records t.now opener × (result ≡ Footing.Waiting (Waiting.Open opener)))
            ⊎ ((IsOpen self.now.root (mark_in self.now.records) t.now → ⊥) × (result ≡ Footing.Elsewhere)) }
    {
        match self.open_tables.get(t) {
            Some(opener) => Footing::Waiting(Waiting::Open { opener: *opener }),
            None => Footing::Elsewhere,
        }
    }

    // Takes a record of a table that waits for it.
    fn take(&mut self, r: &Record, judging: Judging, waiting: Waiting) -> Result<Taken, OfferFault>
        requires waits { WaitsFor self.old.root self.old.records (recorded r.now) waiting }
        requires judged { IsJudgedSo judging (recorded r.now) }
        ensures ok { IfOk result (λ taken. TakesAs waiting self.old.root self.old.records (recorded r.now) taken
            × (self.new.records ≡ put_by waiting self.old.records (with_score (recorded r.now)))) }
        ensures err { OnErr result (self.new.records ≡ self.old.records) }
        ensures root { self.new.root ≡ self.old.root }
        ensures format { self.new.format ≡ self.old.format }
        ensures refusal { IfErr result (λ f. IsWhyRefused f (recorded r.now)) }
        ensures due { IfErr result (IsRefusedOnly (IsUnjudged judging)) }
    {
        child_is_table();
        let slot = waiting.slot(&self.records, &r.table);
        let stored = StoredRecord::of(self.alloc, r, judging, slot.parent, slot.tree)?;
        let held = Record {
            table: r.table,
            certificate: stored.lent(),
        };
        let pair = stored.halts_on();
        let opened = child_count(&held, pair);
        let shown = held.certificate.ending();
        let score = held.certificate.ones();
        let place = opener_place(slot.place)?;
        opening_room(self.open_tables.len(), opened)?;
        self.records.reserve(1)?;
        open_children(&mut self.open_tables, &self.records, &held, place, pair)?;
        // From here on nothing is refused: there is room for the record.
        match self.records.insert(r.table, stored) {
            Ok(_) => {}
            Err(_) => unreachable!(),
        }
        let change = TreeChange::of(waiting, opened, shown, score);
        change_chain(&mut self.records, place, change);
        close(&mut self.open_tables, &r.table, waiting);
        self.counts = self.counts.without(waiting).with(shown, score);
        Ok(waiting.taken())
    }
}

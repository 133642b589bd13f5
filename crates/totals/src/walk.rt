// A walk of a tree.
ghost use Rattle.std.specs.Prelude.{◌≡◌, ◌∷◌, [], IfOk, ◌↔◌, ◌+◌, ◌<◌, ◌≤◌, ◌++◌, ℕ, List, Contains, AllPairs, IfSome, insert, length, reverse, vec_len, vec_capacity, OnOk, OnErr, Option, Some, Err, IsTrue};
ghost use Rattle.std.specs.List.Sorted.{IsPermutation, IsSorted};
ghost use Rattle.std.specs.Vec.Iter.{into_iter_items};
ghost use Rattle.std.specs.Ordering.{nat_cmp};
ghost use Rattle.std.specs.declared.cmp.Ordering.TheVariants.{Less};
ghost use Rattle.std.specs.Cmp.Lexicographic.{slice_cmp};
ghost use Rattle.machine_text.specs.Terms.{table_cmp, Packed, entry_of, empty_table, text_of, state_limit};
ghost use Rattle.law_tree.specs.Terms.{InOrder, IsChildTable, Scores, IsBestOfTable};
ghost use Rattle.cert.specs.Terms.{HaltsOnPair, Recorded};
ghost use Rattle.totals.specs.inside.{AreOpenedBy, most_children, IsJudgedFor, IsLast, TakesLast};
ghost use Rattle.totals.specs.Totals.{totals_of, WalksOn, WalksOnFor, WalksOnSomehow, IsWalked};
ghost use Rattle.law_turing.specs.Terms.{HaltsAt, IsRado};
ghost use Rattle.ledger.specs.Terms.{IsHoldout, IsSigma, AreAll, IsChampion, IsGreatestCount, IsGreatestOnes, IsOnesChampion, IsStatus, IsTally};

use crate::sums::{MOST_CHILDREN, Sums};
use cert::{Decider, Judged};
use kind_evidence::NoMemory;
use law_tree::{child_is_table, children_listed};
use ledger::{BoardFault, Champions, Holdouts, Status, Tally};
use machine_text::{Pair, Table};
use std::alloc::Global;
use std::marker::Model;
use std::vec::IntoIter;
use tnf::{Children, children, in_order};

// The tables that are left.
pub(crate) fn listed(alloc: Global, tables: IntoIter<Table>) -> Result<Vec<Table>, NoMemory>
    ensures { IfOk result (λ found. found.items ≡ into_iter_items tables) }
{
    let mut found = Vec::new(alloc);
    for table in tables {
        found.push(table)?;
    }
    Ok(found)
}

// A copy of the tables, in the order of their texts.
pub(crate) fn sorted(alloc: Global, tables: &[Table]) -> Result<IntoIter<Table>, NoMemory>
    ensures same { IfOk result (λ found. IsPermutation tables.now (into_iter_items found)) }
    ensures sorted { IfOk result (λ found. IsSorted table_cmp (into_iter_items found)) }
{
    let mut copied = Vec::from_slice(alloc, tables)?;
    copied.sort()?;
    Ok(copied.into_iter())
}

// The table alone.
pub(crate) fn only(alloc: Global, t: Table) -> Result<Vec<Table>, NoMemory>
    ensures { IfOk result (λ found. found.items ≡ t ∷ []) }
{
    let mut found = Vec::new(alloc);
    found.push(t)?;
    Ok(found)
}

// Puts the children of a table ahead, where it is known to halt on a pair; else it has none. How many they are.
pub(crate) fn open_children(ahead: &mut Vec<Table>, t: &Table, halts_on: Option<Pair>) -> u64
    requires in_order { (u : ℕ) × InOrder u (entry_of t.now) }
    requires halts { IfSome halts_on (λ pair. (k : ℕ) × HaltsOnPair t.now k pair) }
    requires room { vec_len ahead.old + most_children ≤ vec_capacity ahead.old }
    ensures opened { (found : List Packed) × (ahead.new.items ≡ ahead.old.items ++ found) × (result ≡ length found)
        × AreOpenedBy t.now halts_on found }
    ensures few { result ≤ most_children }
{
    match halts_on {
        Some(pair) => put_all(ahead, children_on(t, pair)),
        None => 0,
    }
}

// The children of a table in order that halts on a pair.
fn children_on(parent: &Table, pair: Pair) -> Children
    requires in_order { (u : ℕ) × InOrder u (entry_of parent.now) }
    requires halts { (k : ℕ) × HaltsOnPair parent.now k pair }
    ensures members { (t : Packed) → Contains result t ↔ IsChildTable parent.now t }
    ensures rising { AllPairs (λ a b. slice_cmp nat_cmp (text_of a) (text_of b) ≡ Less) result }
    ensures few { length result ≤ most_children }
{
    children_listed();
    // The proof needs that the parent is a table.
    let _ = parent.states();
    children(parent, pair.state, pair.symbol)
}

// Puts all ahead, for which there is room, in their order: the first comes next, so it is the last. How many they are.
fn put_all(ahead: &mut Vec<Table>, found: Children) -> u64
    requires { vec_len ahead.old + length found ≤ vec_capacity ahead.old }
    ensures items { ahead.new.items ≡ ahead.old.items ++ reverse found }
    ensures number { result ≡ length found }
{
    let before = ahead.len();
    for child in found {
        put_at(ahead, before, &child);
    }
    (ahead.len() - before) as u64
}

// Puts a table at a place, for which there is room.
fn put_at(tables: &mut Vec<Table>, place: usize, t: &Table)
    requires place { place ≤ vec_len tables.old }
    requires room { vec_len tables.old < vec_capacity tables.old }
    ensures items { tables.new.items ≡ insert tables.old.items place t.now }
    ensures len { vec_len tables.new ≡ vec_len tables.old + 1 }
    ensures capacity { vec_capacity tables.old ≤ vec_capacity tables.new }
{
    match tables.insert(place, *t) {
        Ok(()) => {}
        Err(_) => unreachable!(),
    }
}

// Takes the last of the tables ahead, which is decided: its children come in its place. After an error nothing has changed.
pub(crate) fn take(
    ahead: &mut Vec<Table>,
    sums: &mut Sums,
    t: &Table,
    judged: &Judged,
) -> Result<(), NoMemory>
    requires in_order { (u : ℕ) × InOrder u (entry_of t.now) }
    requires last { IsLast ahead.old.items t.now }
    requires judged { IsJudgedFor t.now judged.now }
    requires nodes { 1 ≤ (totals_of sums.old).tally.nodes }
    requires open_count { 1 ≤ (totals_of sums.old).tally.open_count }
    ensures takes { OnOk result (TakesLast t.now judged.now ahead.old.items ahead.new.items (totals_of sums.old)
        (totals_of sums.new)) }
    ensures same_ahead { OnErr result (ahead.new.items ≡ ahead.old.items) }
    ensures same_totals { OnErr result (totals_of sums.new ≡ totals_of sums.old) }
{
    sums.make_ready()?;
    ahead.reserve(MOST_CHILDREN as usize)?;
    // From here on nothing is refused: there is room for the table and its children.
    let _ = ahead.pop();
    let children = open_children(ahead, t, judged.halts_on);
    sums.add_one(t, judged.verdict, children);
    Ok(())
}

/// A walk of the tree of a root. It holds the tables that it found and hasn't decided yet, and of those that it decided what
/// a report tells of them, with no record of each.
#[derive(Drop)]
pub struct Walk {
    alloc: Global,
    root: Table,
    // the next is the last
    ahead: Vec<Table>,
    sums: Sums,
}

impl Model for Walk {
    ghost use Rattle.totals.specs.Totals.{totals_of, Walked};
    ghost use Rattle.totals.specs.inside.{IsOfRecords};

    ghost Value = { Walked };

    ghost view = { λ a. record { root = a.root; ahead = a.ahead.items; totals = totals_of a.sums } };

    ghost invariant = { λ a. IsOfRecords (record { root = a.root; ahead = a.ahead.items; totals = totals_of a.sums }) };
}

impl Walk {
    /// A walk that begins at a root, which must name its states in order: nothing is decided.
    pub fn new(alloc: Global, root: Table) -> Result<Walk, BoardFault>
        ensures root { IfOk result (λ walk. walk.root ≡ root) }
        ensures begins { IfOk result (λ walk. IsWalked walk []) }
        ensures not_in_order { result ≡ Err BoardFault.NotInOrder → ((u : ℕ) × InOrder u (entry_of root)) → ⊥ }
    {
        // The proof needs that the root is a table.
        let _ = root.states();
        if !in_order(&root) {
            return Err(BoardFault::NotInOrder);
        }
        let ahead = only(alloc, root)?;
        Ok(Walk {
            alloc,
            root,
            ahead,
            sums: Sums::none(alloc),
        })
    }

    /// The root of the tree. Whoever calls it knows that there are records of which the walk tells.
    pub fn root(&self) -> &Table
        ensures root { result.now ≡ self.now.root }
        ensures walked { (rs : List Recorded) × IsWalked self.now rs }
    {
        // The proof needs the invariant of the walk.
        let _ = &self.sums;
        &self.root
    }

    /// The tables that are found and not decided yet; the next is the last.
    pub fn ahead(&self) -> &[Table]
        ensures { result.now ≡ self.now.ahead }
    {
        &self.ahead
    }

    /// Whether no table is ahead.
    pub fn is_done(&self) -> bool
        ensures { IsTrue result ↔ (self.now.ahead ≡ []) }
    {
        self.ahead.is_empty()
    }

    /// Decides the next table, and finds its children, if it halts. After an error, refused memory or a number that would need
    /// more than 64 bits, nothing has changed.
    pub fn step<D: Decider>(&mut self, decider: &mut D) -> Result<(), NoMemory>
        requires { self.old.ahead ≡ [] → ⊥ }
        ensures goes_on { OnOk result (WalksOn D D.answers self.old 1 self.new) }
        ensures same { OnErr result (self.new ≡ self.old) }
    {
        child_is_table();
        let Some(next) = self.ahead.last() else {
            unreachable!()
        };
        let t = *next;
        let decided = decider.decide_judged(self.alloc, &t)?;
        take(&mut self.ahead, &mut self.sums, &t, &decided.judged)
    }

    /// Walks on by so many tables, or till no table is ahead. After an error it has gone on by some, and may walk on later.
    pub fn walk<D: Decider>(&mut self, decider: &mut D, most: u64) -> Result<(), NoMemory>
        ensures goes_on { OnOk result (WalksOnFor D D.answers self.old most self.new) }
        ensures err { OnErr result (WalksOnSomehow D D.answers self.old self.new) }
    {
        for i in 0..most {
            if self.is_done() {
                return Ok(());
            }
            self.step(decider)?;
        }
        Ok(())
    }

    /// How the tree stands, as one board would that holds the records. Where it is complete, its best is the greatest number
    /// of steps of all extensions of the root that halt, in tree normal form or not; for the empty table of n states that
    /// is Radó's S(n). Its ones are their greatest score, and for the empty table of n states Radó's Σ(n).
    pub fn status(&self) -> Status
        ensures stands { (rs : List Recorded) → IsWalked self.now rs → IsStatus self.now.root rs result }
        ensures best { (best ones : Option ℕ) → result ≡ Status.Complete best ones
            → IsBestOfTable HaltsAt self.now.root best }
        ensures ones { (best ones : Option ℕ) → result ≡ Status.Complete best ones
            → IsBestOfTable Scores self.now.root ones }
        ensures rado { (n s : ℕ) (ones : Option ℕ) → 1 ≤ n → n ≤ state_limit → self.now.root ≡ empty_table n
            → result ≡ Status.Complete (Some s) ones → IsRado n s }
        ensures sigma { (n s : ℕ) (best : Option ℕ) → 1 ≤ n → n ≤ state_limit → self.now.root ≡ empty_table n
            → result ≡ Status.Complete best (Some s) → IsSigma n s }
    {
        // The proof needs the invariant of the walk.
        let _ = &self.sums;
        self.sums.status()
    }

    /// How many tables there are of each kind, as the tally would tell of one board that holds the records.
    pub fn tally(&self) -> Tally
        ensures { (rs : List Recorded) → IsWalked self.now rs → IsTally self.now.root rs result }
    {
        self.sums.tally()
    }

    /// The champions by steps, those by scores and the holdouts, each in the order of their texts, as one board would give
    /// them that holds the records.
    pub fn champions_and_holdouts(&self) -> Result<(Champions, Champions, Holdouts), NoMemory>
        ensures champions { IfOk result (λ found. (rs : List Recorded) → IsWalked self.now rs → (best : Option ℕ) →
            IsGreatestCount rs best → AreAll (IsChampion rs best) (into_iter_items found.0)) }
        ensures ones_champions { IfOk result (λ found. (rs : List Recorded) → IsWalked self.now rs
            → (ones : Option ℕ) →
            IsGreatestOnes rs ones → AreAll (IsOnesChampion rs ones) (into_iter_items found.1)) }
        ensures holdouts { IfOk result (λ found. (rs : List Recorded) → IsWalked self.now rs →
            AreAll (IsHoldout rs) (into_iter_items found.2)) }
    {
        let found = self.sums.champions_and_holdouts(self.alloc)?;
        Ok(found)
    }
}

// What a report tells of some records: how many tables of each kind, the champions, and sums of them.
ghost use Rattle.std.specs.Prelude.{◌≡◌, ◌+◌, ◌<◌, ◌≤◌, ◌^◌, IsTrue, List, ◌∷◌, ◌++◌, [], Some, vec_len, vec_capacity, ℕ, Option, IfOk, OnOk, OnErr};
ghost use Rattle.std.specs.Vec.Iter.{into_iter_items};
ghost use Rattle.machine_text.specs.Terms.{Packed, empty_table, state_limit};
ghost use Rattle.cert.specs.Terms.{Recorded};
ghost use Rattle.ledger.specs.Terms.{IsStatus, IsTally, AreAll, IsChampion, IsGreatestCount, IsGreatestOnes, IsOnesChampion, IsBoardOf, IsHoldout, IsSigma};
ghost use Rattle.totals.specs.Totals.{with_part, champions_of_both, AreTotals, totals_of, totals_with};
ghost use Rattle.totals.specs.inside.{CountsFit, TalliesFit, most_children, tally_of_one, listed_with, HasRoomForOne, HasRoomFor, listed_without, totals_of_none, totals_of_one};
ghost use Rattle.law_turing.specs.Terms.{HaltsAt, IsRado};
ghost use Rattle.law_tree.specs.Terms.{Scores, IsBestOfTable};

use crate::walk::{listed, sorted};
use cert::standing_claims_are_true;
use kind_evidence::{NoMemory, Verdict};
use law_tree::{best_of_closed, child_is_table, closed_tree, rado_of_complete};
use ledger::{Board, Champions, Holdouts, Status, Tally};
use machine_text::{MAX_STATES, Table};
use std::alloc::Global;

/// The greatest number of children of a table.
pub(crate) const MOST_CHILDREN: u64 = 4 * MAX_STATES as u64;

// Whether the numbers can grow by those of one table.
pub(crate) fn counts_fit(tally: &Tally) -> bool
    ensures { IsTrue result → CountsFit tally.now }
{
    const ROOM: u64 = u64::MAX - MOST_CHILDREN;
    tally.nodes <= ROOM
        && tally.open_count <= ROOM
        && tally.halting < u64::MAX
        && tally.never < u64::MAX
        && tally.holdouts < u64::MAX
}

// Of one table alone.
pub(crate) fn tally_of_one(verdict: Option<Verdict>, children: u64) -> Tally
    requires { children ≤ most_children }
    ensures { result ≡ tally_of_one verdict children }
{
    let none = Tally {
        nodes: 1 + children,
        halting: 0,
        never: 0,
        holdouts: 0,
        open_count: children,
        best: None,
        ones: None,
    };
    match verdict {
        None => Tally {
            holdouts: 1,
            ..none
        },
        Some(Verdict::Never) => Tally { never: 1, ..none },
        Some(Verdict::Halts { steps, ones }) => Tally {
            halting: 1,
            best: Some(steps),
            ones: Some(ones),
            ..none
        },
    }
}

// Whether the sums of a tally and a part's need no more than 64 bits.
pub(crate) fn tallies_fit(a: &Tally, b: &Tally) -> bool
    requires nodes { 1 ≤ a.now.nodes }
    requires open_count { 1 ≤ a.now.open_count }
    ensures { IsTrue result → TalliesFit a.now b.now }
{
    let (a, b) = (*a, *b);
    a.nodes - 1 <= u64::MAX - b.nodes
        && a.open_count - 1 <= u64::MAX - b.open_count
        && a.halting <= u64::MAX - b.halting
        && a.never <= u64::MAX - b.never
        && a.holdouts <= u64::MAX - b.holdouts
}

// The tally with that of a part, whose root was counted as open before.
pub(crate) fn with_part(a: &Tally, b: &Tally) -> Tally
    requires nodes { 1 ≤ a.now.nodes }
    requires open_count { 1 ≤ a.now.open_count }
    requires fit { TalliesFit a.now b.now }
    ensures { result ≡ with_part a.now b.now }
{
    Tally {
        nodes: a.nodes - 1 + b.nodes,
        halting: a.halting + b.halting,
        never: a.never + b.never,
        holdouts: a.holdouts + b.holdouts,
        open_count: a.open_count - 1 + b.open_count,
        best: a.best.max(b.best),
        ones: a.ones.max(b.ones),
    }
}

// Whether tables are open, or there are holdouts, or neither.
pub(crate) fn status_by(tally: &Tally) -> Status
    ensures { (root : Packed) (rs : List Recorded) → IsTally root rs tally.now → IsStatus root rs result }
{
    if tally.open_count > 0 {
        return Status::Working {
            count: tally.open_count,
        };
    }
    if tally.holdouts > 0 {
        return Status::Holdouts {
            count: tally.holdouts,
        };
    }
    Status::Complete {
        best: tally.best,
        ones: tally.ones,
    }
}

// Makes the champions those of both lists of records, by the greatest number of each. There is room for them.
pub(crate) fn join_champions(
    tables: &mut Vec<Table>,
    best: Option<u64>,
    more: Vec<Table>,
    best_of_more: Option<u64>,
)
    requires { vec_len tables.old + vec_len more ≤ vec_capacity tables.old }
    ensures { tables.new.items ≡ champions_of_both best tables.old.items best_of_more more.items }
{
    match (best, best_of_more) {
        (_, None) => {}
        (None, Some(_)) => *tables = more,
        (Some(a), Some(b)) => join_by(tables, a, more, b),
    }
}

// Joins champions where each side has a greatest number.
fn join_by(tables: &mut Vec<Table>, best: u64, more: Vec<Table>, best_of_more: u64)
    requires { vec_len tables.old + vec_len more ≤ vec_capacity tables.old }
    ensures { tables.new.items ≡ champions_of_both (Some best) tables.old.items (Some best_of_more) more.items }
{
    if best < best_of_more {
        *tables = more;
    } else if best == best_of_more {
        append(tables, more);
    }
}

// Appends tables, for which there is room.
pub(crate) fn append(tables: &mut Vec<Table>, more: Vec<Table>)
    requires { vec_len tables.old + vec_len more ≤ vec_capacity tables.old }
    ensures { tables.new.items ≡ tables.old.items ++ more.items }
{
    match tables.extend_from_slice(&more) {
        Ok(()) => {}
        Err(_) => unreachable!(),
    }
}

// Makes the champions those with a table more, which has this number, or none. There is room for it.
pub(crate) fn put_champion(tables: &mut Vec<Table>, best: Option<u64>, t: &Table, its: Option<u64>)
    requires { vec_len tables.old < vec_capacity tables.old }
    ensures { tables.new.items ≡ champions_of_both best tables.old.items its (listed_with t.now its) }
{
    match (best, its) {
        (_, None) => {}
        (None, Some(_)) => put_alone(tables, t),
        (Some(a), Some(b)) => put_by(tables, a, t, b),
    }
}

// Puts a table where there is a greatest number.
fn put_by(tables: &mut Vec<Table>, best: u64, t: &Table, its: u64)
    requires { vec_len tables.old < vec_capacity tables.old }
    ensures { tables.new.items ≡ champions_of_both (Some best) tables.old.items (Some its) (t.now ∷ []) }
{
    if best < its {
        put_alone(tables, t);
    } else if best == its {
        put(tables, t);
    }
}

// Makes a table the only one.
fn put_alone(tables: &mut Vec<Table>, t: &Table)
    requires { vec_len tables.old < vec_capacity tables.old }
    ensures { tables.new.items ≡ t.now ∷ [] }
{
    tables.clear();
    put(tables, t);
}

// Puts a table behind the others.
pub(crate) fn put(tables: &mut Vec<Table>, t: &Table)
    requires { vec_len tables.old < vec_capacity tables.old }
    ensures items { tables.new.items ≡ tables.old.items ++ (t.now ∷ []) }
    ensures capacity { vec_capacity tables.old ≤ vec_capacity tables.new }
{
    match tables.push(*t) {
        Ok(()) => {}
        Err(_) => unreachable!(),
    }
}

/// What a report tells of some records, without the records: how many tables there are of each kind, the champions by steps
/// and by scores, and the holdouts.
#[derive(Drop)]
pub struct Sums {
    tally: Tally,
    champions: Vec<Table>,
    ones_champions: Vec<Table>,
    holdouts: Vec<Table>,
}

impl Sums {
    // Of no record: the root is open.
    pub(crate) fn none(alloc: Global) -> Sums
        ensures { totals_of result ≡ totals_of_none }
    {
        let tally = Tally {
            nodes: 1,
            halting: 0,
            never: 0,
            holdouts: 0,
            open_count: 1,
            best: None,
            ones: None,
        };
        Sums {
            tally,
            champions: Vec::new(alloc),
            ones_champions: Vec::new(alloc),
            holdouts: Vec::new(alloc),
        }
    }

    /// The sums of a board.
    pub fn of(alloc: Global, board: &Board) -> Result<Sums, NoMemory>
        ensures { IfOk result (λ sums. AreTotals board.now.root board.now.records (totals_of sums)) }
    {
        let tally = board.tally();
        let (champions, ones_champions, holdouts) = board.champions_and_holdouts()?;
        let champions = listed(alloc, champions)?;
        let ones_champions = listed(alloc, ones_champions)?;
        let holdouts = listed(alloc, holdouts)?;
        Ok(Sums {
            tally,
            champions,
            ones_champions,
            holdouts,
        })
    }

    /// Adds those of a part, whose root was counted as open before. Where memory is refused, or a number of the tally would
    /// need more than 64 bits, nothing changes.
    pub fn add(&mut self, more: Sums) -> Result<(), NoMemory>
        requires nodes { 1 ≤ (totals_of self.old).tally.nodes }
        requires open_count { 1 ≤ (totals_of self.old).tally.open_count }
        ensures ok { OnOk result (totals_of self.new ≡ totals_with (totals_of self.old) (totals_of more)) }
        ensures err { OnErr result (totals_of self.new ≡ totals_of self.old) }
    {
        if !tallies_fit(&self.tally, &more.tally) {
            return Err(NoMemory);
        }
        self.reserve(&more)?;
        // From here on nothing is refused: there is room for the tables.
        self.take(more);
        Ok(())
    }

    // Makes room for the tables of others.
    fn reserve(&mut self, more: &Sums) -> Result<(), NoMemory>
        ensures same { totals_of self.new ≡ totals_of self.old }
        ensures room { OnOk result (HasRoomFor self.new more.now) }
    {
        self.champions.reserve(more.champions.len())?;
        self.ones_champions.reserve(more.ones_champions.len())?;
        self.holdouts.reserve(more.holdouts.len())
    }

    // Takes in those of a part, for whose tables there is room.
    fn take(&mut self, more: Sums)
        requires nodes { 1 ≤ self.old.tally.nodes }
        requires open_count { 1 ≤ self.old.tally.open_count }
        requires fit { TalliesFit self.old.tally more.tally }
        requires room { HasRoomFor self.old more }
        ensures { totals_of self.new ≡ totals_with (totals_of self.old) (totals_of more) }
    {
        let Sums {
            tally: its,
            champions,
            ones_champions,
            holdouts,
        } = more;
        let own = self.tally;
        join_champions(&mut self.champions, own.best, champions, its.best);
        join_champions(&mut self.ones_champions, own.ones, ones_champions, its.ones);
        append(&mut self.holdouts, holdouts);
        self.tally = with_part(&own, &its);
    }

    // Makes room for one table more and its children.
    pub(crate) fn make_ready(&mut self) -> Result<(), NoMemory>
        ensures same { totals_of self.new ≡ totals_of self.old }
        ensures room { OnOk result (HasRoomForOne self.new) }
    {
        if !counts_fit(&self.tally) {
            return Err(NoMemory);
        }
        self.champions.reserve(1)?;
        self.ones_champions.reserve(1)?;
        self.holdouts.reserve(1)
    }

    // Adds an open table that is decided: its verdict, or none, and the number of its children, which are open now.
    pub(crate) fn add_one(&mut self, t: &Table, verdict: Option<Verdict>, children: u64)
        requires room { HasRoomForOne self.old }
        requires children { children ≤ most_children }
        requires nodes { 1 ≤ self.old.tally.nodes }
        requires open_count { 1 ≤ self.old.tally.open_count }
        ensures { totals_of self.new ≡ totals_with (totals_of self.old) (totals_of_one t.now verdict children) }
    {
        let own = self.tally;
        let one = tally_of_one(verdict, children);
        put_champion(&mut self.champions, own.best, t, one.best);
        put_champion(&mut self.ones_champions, own.ones, t, one.ones);
        put_holdout(&mut self.holdouts, t, verdict);
        self.tally = with_part(&own, &one);
    }

    /// How many tables there are of each kind.
    pub fn tally(&self) -> Tally
        ensures { result ≡ (totals_of self.now).tally }
    {
        self.tally
    }

    /// How a board stands that holds such records. Where it is complete, its best is the greatest number of steps of all
    /// extensions of the root that halt, in tree normal form or not; for the empty table of n states that is Radó's S(n). Its
    /// ones are their greatest score, and for the empty table of n states Radó's Σ(n).
    pub fn status(&self) -> Status
        ensures stands { (root : Packed) (rs : List Recorded) → AreTotals root rs (totals_of self.now)
            → IsStatus root rs result }
        ensures best { (root : Packed) (rs : List Recorded) (best ones : Option ℕ) → IsBoardOf root rs
            → AreTotals root rs (totals_of self.now) → result ≡ Status.Complete best ones
            → IsBestOfTable HaltsAt root best }
        ensures ones { (root : Packed) (rs : List Recorded) (best ones : Option ℕ) → IsBoardOf root rs
            → AreTotals root rs (totals_of self.now) → result ≡ Status.Complete best ones
            → IsBestOfTable Scores root ones }
        ensures rado { (root : Packed) (rs : List Recorded) (n s : ℕ) (ones : Option ℕ) → IsBoardOf root rs
            → AreTotals root rs (totals_of self.now) → 1 ≤ n → n ≤ state_limit → root ≡ empty_table n
            → result ≡ Status.Complete (Some s) ones → IsRado n s }
        ensures sigma { (root : Packed) (rs : List Recorded) (n s : ℕ) (best : Option ℕ) → IsBoardOf root rs
            → AreTotals root rs (totals_of self.now) → 1 ≤ n → n ≤ state_limit → root ≡ empty_table n
            → result ≡ Status.Complete best (Some s) → IsSigma n s }
    {
        child_is_table();
        standing_claims_are_true();
        closed_tree();
        best_of_closed();
        rado_of_complete();
        status_by(&self.tally)
    }

    /// The champions by steps, those by scores and the holdouts, each in the order of their texts, as a board gives them that
    /// holds such records.
    pub fn champions_and_holdouts(
        &self,
        alloc: Global,
    ) -> Result<(Champions, Champions, Holdouts), NoMemory>
        ensures champions { IfOk result (λ found. (root : Packed) (rs : List Recorded) → IsBoardOf root rs
            → AreTotals root rs (totals_of self.now) → (best : Option ℕ) → IsGreatestCount rs best
            → AreAll (IsChampion rs best) (into_iter_items found.0)) }
        ensures ones_champions { IfOk result (λ found. (root : Packed) (rs : List Recorded) → IsBoardOf root rs
            → AreTotals root rs (totals_of self.now) → (ones : Option ℕ) → IsGreatestOnes rs ones
            → AreAll (IsOnesChampion rs ones) (into_iter_items found.1)) }
        ensures holdouts { IfOk result (λ found. (root : Packed) (rs : List Recorded) → IsBoardOf root rs
            → AreTotals root rs (totals_of self.now) → AreAll (IsHoldout rs) (into_iter_items found.2)) }
    {
        let champions = sorted(alloc, &self.champions)?;
        let ones_champions = sorted(alloc, &self.ones_champions)?;
        let holdouts = sorted(alloc, &self.holdouts)?;
        Ok((champions, ones_champions, holdouts))
    }
}

// Puts a table among the holdouts, where it has no verdict.
fn put_holdout(holdouts: &mut Vec<Table>, t: &Table, verdict: Option<Verdict>)
    requires { vec_len holdouts.old < vec_capacity holdouts.old }
    ensures { holdouts.new.items ≡ holdouts.old.items ++ listed_without t.now verdict }
{
    match verdict {
        None => put(holdouts, t),
        Some(_) => {}
    }
}

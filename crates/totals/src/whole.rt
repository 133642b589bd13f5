// A trunk and the parts that were added to it, told of together.
ghost use Rattle.std.specs.Prelude.{◌≡◌, ◌≤◌, ◌↔◌, ◌∷◌, ◌++◌, [], Contains, IfErr, OnOk, OnErr, IsTrue, ℕ, List, Option, Some, IfOk};
ghost use Rattle.std.specs.Vec.Iter.{into_iter_items};
ghost use Rattle.indexmap.specs.IndexSet.{spare};
ghost use Rattle.totals.specs.Totals.{totals_of, joined_with, AddGives, IsWhole};
ghost use Rattle.totals.specs.inside.{AddsTotals};
ghost use Rattle.machine_text.specs.Terms.{state_limit, empty_table};
ghost use Rattle.law_turing.specs.Terms.{HaltsAt, IsRado};
ghost use Rattle.law_tree.specs.Terms.{Scores, IsBestOfTable};
ghost use Rattle.ledger.specs.Terms.{Contents, IsHoldout, IsSigma, AreAll, IsChampion, IsGreatestCount, IsGreatestOnes, IsOnesChampion, IsStatus, IsTally};

use crate::sums::Sums;
use indexmap::IndexSet;
use kind_evidence::NoMemory;
use ledger::{Board, Champions, Holdouts, Status, Tally};
use machine_text::Table;
use std::alloc::Global;
use std::marker::Model;

/// Why a part wasn't added to a whole. Nothing changed.
#[derive(Clone, Copy, Debug, PartialEq, Eq)]
pub enum PartFault {
    /// The trunk doesn't leave the part's root open.
    NotOpen,
    /// A part with this root was added before.
    AddedBefore,
    /// Memory was refused, or a number of the tally would need more than 64 bits.
    NoMemory,
}

impl From<NoMemory> for PartFault {
    ghost use Rattle.totals.specs.declared.whole.PartFault.TheVariants.{NoMemory};

    ghost from_gives = { λ _ e. e ≡ NoMemory };

    fn from(_: NoMemory) -> PartFault {
        PartFault::NoMemory
    }
}

// Whether a part with this root was added.
pub(crate) fn has_root(roots: &IndexSet<Table>, root: &Table) -> bool
    ensures { IsTrue result ↔ Contains roots.now.keys root.now }
{
    roots.contains(root)
}

// Adds the root of a part and what is told of it. Where memory is refused, or a number of the tally would need more than
// 64 bits, nothing changes.
pub(crate) fn add_part(
    alloc: Global,
    roots: &mut IndexSet<Table>,
    sums: &mut Sums,
    part: &Board,
) -> Result<(), PartFault>
    requires nodes { 1 ≤ (totals_of sums.old).tally.nodes }
    requires open_count { 1 ≤ (totals_of sums.old).tally.open_count }
    requires fresh { Contains roots.old.keys part.now.root → ⊥ }
    ensures roots { OnOk result (roots.new.keys ≡ roots.old.keys ++ (part.now.root ∷ [])) }
    ensures totals { OnOk result (AddsTotals part.now (totals_of sums.old) (totals_of sums.new)) }
    ensures same_roots { OnErr result (roots.new.keys ≡ roots.old.keys) }
    ensures same_totals { OnErr result (totals_of sums.new ≡ totals_of sums.old) }
    ensures fault { IfErr result (λ fault. fault ≡ PartFault.NoMemory) }
{
    let more = Sums::of(alloc, part)?;
    roots.reserve(1)?;
    sums.add(more)?;
    // From here on nothing is refused: there is room for the root.
    put_root(roots, part.root());
    Ok(())
}

// Adds a root that isn't there, and for which there is room.
fn put_root(roots: &mut IndexSet<Table>, root: &Table)
    requires room { 1 ≤ spare roots.old }
    requires fresh { Contains roots.old.keys root.now → ⊥ }
    ensures { roots.new.keys ≡ roots.old.keys ++ (root.now ∷ []) }
{
    match roots.insert(*root) {
        Ok(_) => {}
        Err(_) => unreachable!(),
    }
}

/// A tree whose records are held in parts: the board of its trunk, and what a report tells of the trunk and of the parts
/// that were added to it, all together. The board of a part isn't kept once it is added.
#[derive(Drop)]
pub struct Whole {
    alloc: Global,
    trunk: Board,
    // of the parts that were added, in their order
    roots: IndexSet<Table>,
    sums: Sums,
}

impl Model for Whole {
    ghost use Rattle.totals.specs.Totals.{totals_of, Collected};
    ghost use Rattle.totals.specs.inside.{IsOfParts};

    ghost Value = { Collected };

    ghost view = { λ a. record { trunk = a.trunk; roots = a.roots.keys; totals = totals_of a.sums } };

    ghost invariant = { λ a. IsOfParts (record { trunk = a.trunk; roots = a.roots.keys; totals = totals_of a.sums }) };
}

impl Whole {
    /// The whole of a trunk, without parts.
    pub fn of(alloc: Global, trunk: Board) -> Result<Whole, NoMemory>
        ensures trunk { IfOk result (λ whole. whole.trunk ≡ trunk) }
        ensures whole { IfOk result (λ whole. IsWhole whole []) }
    {
        // The proof needs that the trunk is a board.
        let _ = trunk.root();
        let sums = Sums::of(alloc, &trunk)?;
        Ok(Whole {
            alloc,
            trunk,
            roots: IndexSet::new(alloc),
            sums,
        })
    }

    /// Adds a part: a board whose root is a table that the trunk leaves open. Parts may be added in any order, each once. It
    /// answers in this order: the trunk doesn't leave the part's root open, `NotOpen`; a part with this root was added
    /// before, `AddedBefore`; memory was refused, or a number of the tally would need more than 64 bits, `NoMemory`. After
    /// an error nothing has changed, and the part may be added later. What is kept of a part are its champions, where they
    /// are those of all, and its holdouts.
    pub fn add(&mut self, part: &Board) -> Result<(), PartFault>
        ensures { AddGives self.old part.now result self.new }
    {
        let its_root = part.root();
        if !self.trunk.is_open(its_root) {
            return Err(PartFault::NotOpen);
        }
        if has_root(&self.roots, its_root) {
            return Err(PartFault::AddedBefore);
        }
        add_part(self.alloc, &mut self.roots, &mut self.sums, part)
    }

    /// The board of the trunk.
    pub fn trunk(&self) -> &Board
        ensures { result.now ≡ self.now.trunk }
    {
        &self.trunk
    }

    /// The root of the tree. Whoever calls it knows that there are parts of which this is the whole.
    pub fn root(&self) -> &Table
        ensures root { result.now ≡ self.now.trunk.root }
        ensures whole { (parts : List Contents) × IsWhole self.now parts }
    {
        // The proof needs the invariant of the whole.
        let _ = &self.roots;
        self.trunk.root()
    }

    /// How the tree stands, as one board would that holds the records of the trunk and of the parts that were added. Where
    /// it is complete, its best is the greatest number of steps of all extensions of the root that halt, in tree normal
    /// form or not; for the empty table of n states that is Radó's S(n). Its ones are their greatest score, and for the
    /// empty table of n states Radó's Σ(n).
    pub fn status(&self) -> Status
        ensures stands { (parts : List Contents) → IsWhole self.now parts →
            IsStatus self.now.trunk.root (joined_with self.now.trunk.records parts) result }
        ensures best { (best ones : Option ℕ) → result ≡ Status.Complete best ones
            → IsBestOfTable HaltsAt self.now.trunk.root best }
        ensures ones { (best ones : Option ℕ) → result ≡ Status.Complete best ones
            → IsBestOfTable Scores self.now.trunk.root ones }
        ensures rado { (n s : ℕ) (ones : Option ℕ) → 1 ≤ n → n ≤ state_limit → self.now.trunk.root ≡ empty_table n
            → result ≡ Status.Complete (Some s) ones → IsRado n s }
        ensures sigma { (n s : ℕ) (best : Option ℕ) → 1 ≤ n → n ≤ state_limit → self.now.trunk.root ≡ empty_table n
            → result ≡ Status.Complete best (Some s) → IsSigma n s }
    {
        // The proof needs the invariant of the whole.
        let _ = &self.roots;
        self.sums.status()
    }

    /// How many tables there are of each kind, as one board's tally would tell that holds all.
    pub fn tally(&self) -> Tally
        ensures { (parts : List Contents) → IsWhole self.now parts →
            IsTally self.now.trunk.root (joined_with self.now.trunk.records parts) result }
    {
        self.sums.tally()
    }

    /// The champions by steps, those by scores and the holdouts of all together, each in the order of their texts, as one
    /// board would give them that holds all.
    pub fn champions_and_holdouts(&self) -> Result<(Champions, Champions, Holdouts), NoMemory>
        ensures champions { IfOk result (λ found. (parts : List Contents) → IsWhole self.now parts → (best : Option ℕ) →
            IsGreatestCount (joined_with self.now.trunk.records parts) best →
            AreAll (IsChampion (joined_with self.now.trunk.records parts) best) (into_iter_items found.0)) }
        ensures ones_champions { IfOk result (λ found. (parts : List Contents) → IsWhole self.now parts
            → (ones : Option ℕ) →
            IsGreatestOnes (joined_with self.now.trunk.records parts) ones →
            AreAll (IsOnesChampion (joined_with self.now.trunk.records parts) ones) (into_iter_items found.1)) }
        ensures holdouts { IfOk result (λ found. (parts : List Contents) → IsWhole self.now parts →
            AreAll (IsHoldout (joined_with self.now.trunk.records parts)) (into_iter_items found.2)) }
    {
        let found = self.sums.champions_and_holdouts(self.alloc)?;
        Ok(found)
    }
}

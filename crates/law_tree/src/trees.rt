// The trees of machines and of tables, the order in which machines name their states, and the best of each.
ghost use Rattle.std.specs.Prelude.{◌≡◌, ◌↔◌, ℕ, ◌+◌, ◌<◌, ◌≤◌, ◌≢◌, max, nat_lt, IsTrue, Contains, AllPairs, Option, Some, ◌⊎◌, None};
ghost use Rattle.std.specs.Ordering.{nat_cmp};
ghost use Rattle.std.specs.declared.cmp.Ordering.TheVariants.{Less};
ghost use Rattle.std.specs.Cmp.Lexicographic.{slice_cmp};
ghost use Rattle.machine_text.specs.declared.table.Entry.{Entry};
ghost use Rattle.law_turing.specs.Terms.{Machine, IsMachine, Extends, HaltsAt, IsRado, Never, HaltsWith};
ghost use Rattle.law_tree.specs.Tree.{IsUsed, InOrder, is_used, used_count, IsChildEntry, IsChild, Precedes, child_entries, empty_machine, InTree, IsDecided, IsGreatestInTree, Scores, IsBest, IsGreatestOfAll, filled, HaltsOn, Attains, IsGreatestOf, greatest_of, IsChildTable, InTableTree, IsDecidedTable, IsBestOfTable, IsGreatestInTables, children_at, Mark, IsTrueMark, AreTrueMarks, AreTrueScores, IsVerdict, IsClosed, IsComplete, IsGreatestRecorded};
ghost use Rattle.machine_text.specs.declared.table.Sym.{Sym as Symbol};
ghost use Rattle.machine_text.specs.Terms.{holes, Packed, IsTable, entry_of, with_entry, tabulated, empty_table, state_limit, text_of};

/// The test of a used state is exact. A machine is in order where the first u of its states pass the test,
/// and no other; then u is their number.
pub fn used_states()
    ensures test { (n q : ℕ) (m : Machine) → IsMachine n m → IsTrue (is_used n m q) ↔ IsUsed m q }
    ensures order { (n u : ℕ) (m : Machine) → IsMachine n m →
        InOrder u m ↔ ((u ≤ n) × ((q : ℕ) → q < n → is_used n m q ≡ nat_lt q u)) }
    ensures number { (n u : ℕ) (m : Machine) → IsMachine n m → InOrder u m → used_count n m ≡ u }
    ensures one { (u v : ℕ) (m : Machine) → InOrder u m → InOrder v m → u ≡ v }
{}

/// A child is a machine of as many states, it extends its parent, and it is in order: its used states are
/// its parent's, and the target of its new entry.
pub fn child_keeps_order()
    ensures machine { (n : ℕ) (m c : Machine) → IsMachine n m → IsChild n m c → IsMachine n c }
    ensures extends { (n : ℕ) (m c : Machine) → IsChild n m c → Extends c m }
    ensures order { (n : ℕ) (m c : Machine) (x : IsChild n m c) → InOrder (max x.used (x.entry.next.0 + 1)) c }
{}

/// The list of the children's entries has exactly those entries, and it rises in the order of their
/// texts; so none stands in it twice.
pub fn child_entries_listed()
    ensures members { (n u : ℕ) (m : Machine) (e : Entry) → IsMachine n m →
        Contains (child_entries n u m) e ↔ IsChildEntry n u m e }
    ensures rising { (n u : ℕ) (m : Machine) → AllPairs Precedes (child_entries n u m) }
    ensures once { (n u : ℕ) (m : Machine) → AllPairs (λ a b. a ≢ b) (child_entries n u m) }
{}

/// Where each machine of the tree halts or never does, the best of all extensions is the greatest in the
/// tree, and there is none where no machine of the tree halts.
pub fn best_of_tree()
    ensures steps { (n u : ℕ) (m : Machine) (b : Option ℕ) → IsMachine n m → InOrder u m → IsDecided n m →
        IsBest HaltsAt n m b ↔ IsGreatestInTree HaltsAt n m b }
    ensures score { (n u : ℕ) (m : Machine) (b : Option ℕ) → IsMachine n m → InOrder u m → IsDecided n m →
        IsBest Scores n m b ↔ IsGreatestInTree Scores n m b }
{}

/// The greatest in the tree of the machine without entries is the greatest of all machines of n states:
/// Radó's S(n), and for scores Σ(n).
pub fn rado_of_tree()
    ensures steps { (n s : ℕ) → 1 ≤ n → IsDecided n empty_machine →
        IsGreatestInTree HaltsAt n empty_machine (Some s) ↔ IsRado n s }
    ensures score { (n s : ℕ) → 1 ≤ n → IsDecided n empty_machine →
        IsGreatestInTree Scores n empty_machine (Some s) ↔ IsGreatestOfAll Scores n s }
{}

/// A child of a machine of a tree stands in the tree.
pub fn child_in_tree()
    ensures { (n : ℕ) (m p t : Machine) → InTree n m p → IsChild n p t → InTree n m t }
{}

/// Each machine of a tree is the child of one machine of the tree at most.
pub fn one_parent()
    ensures { (n : ℕ) (m a b t : Machine) → IsMachine n m → InTree n m a → InTree n m b →
        IsChild n a t → IsChild n b t → a ≡ b }
{}

/// The tree of the one-state machine without entries: it halts at once, its children never do, and so the
/// greatest in the tree is 1.
pub fn tree_of_one_state()
    ensures decided { IsDecided 1 empty_machine }
    ensures greatest { IsGreatestInTree HaltsAt 1 empty_machine (Some 1) }
{}

/// No extension of a machine that never halts does.
pub fn best_of_never()
    ensures steps { (n : ℕ) (m : Machine) → Never m → IsBest HaltsAt n m None }
    ensures score { (n : ℕ) (m : Machine) → Never m → IsBest Scores n m None }
{}

/// A machine in which no pair is undefined never halts, so it has no best.
pub fn best_of_full()
    ensures never { (n : ℕ) (m : Machine) → IsMachine n m → holes n m ≡ 0 → Never m }
    ensures steps { (n : ℕ) (m : Machine) → IsMachine n m → holes n m ≡ 0 → IsBest HaltsAt n m None }
    ensures score { (n : ℕ) (m : Machine) → IsMachine n m → holes n m ≡ 0 → IsBest Scores n m None }
{}

/// A machine that halts on its only undefined pair is its own best.
pub fn best_of_only_pair()
    ensures steps { (n k : ℕ) (m : Machine) → IsMachine n m → holes n m ≤ 1 → HaltsAt m k
        → IsBest HaltsAt n m (Some k) }
    ensures score { (n k s : ℕ) (m : Machine) → IsMachine n m → holes n m ≤ 1 → HaltsWith m k s
        → IsBest Scores n m (Some s) }
{}

/// What the extensions of a machine in order that halts on a pair attain is what it attains itself, and
/// what the extensions of its children attain.
pub fn extensions_by_children()
    ensures steps { (n u k q t : ℕ) (s : Symbol) (m : Machine) → IsMachine n m → InOrder u m → HaltsOn m k q s →
        Attains HaltsAt n m t
        ↔ ((t ≡ k) ⊎ ((e : Entry) × IsChildEntry n u m e × Attains HaltsAt n (filled m q s e) t)) }
    ensures score { (n u k q t : ℕ) (s : Symbol) (m : Machine) → IsMachine n m → InOrder u m → HaltsOn m k q s →
        Attains Scores n m t
        ↔ (HaltsWith m k t ⊎ ((e : Entry) × IsChildEntry n u m e × Attains Scores n (filled m q s e) t)) }
{}

/// The best of a machine in order that halts on a pair is the greatest of its own and of its children's
/// bests.
pub fn best_by_children()
    ensures steps { (n u k q s : ℕ) (r : Symbol) (m : Machine) (b : Entry → Option ℕ) →
        IsMachine n m → InOrder u m → HaltsOn m k q r →
        ((e : Entry) → IsChildEntry n u m e → IsBest HaltsAt n (filled m q r e) (b e)) →
        IsBest HaltsAt n m (Some s) ↔ IsGreatestOf n u m k b s }
    ensures score { (n u k q x s : ℕ) (r : Symbol) (m : Machine) (b : Entry → Option ℕ) →
        IsMachine n m → InOrder u m → HaltsOn m k q r → HaltsWith m k x →
        ((e : Entry) → IsChildEntry n u m e → IsBest Scores n (filled m q r e) (b e)) →
        IsBest Scores n m (Some s) ↔ IsGreatestOf n u m x b s }
{}

/// The best of a tree is the greatest of its root's own and of the bests along the list of the children's entries.
pub fn best_by_list()
    ensures steps { (n u k q : ℕ) (r : Symbol) (m : Machine) (b : Entry → Option ℕ) →
        IsMachine n m → InOrder u m → HaltsOn m k q r →
        ((e : Entry) → IsChildEntry n u m e → IsBest HaltsAt n (filled m q r e) (b e)) →
        IsBest HaltsAt n m (Some (greatest_of k b (child_entries n u m))) }
    ensures score { (n u k q x : ℕ) (r : Symbol) (m : Machine) (b : Entry → Option ℕ) →
        IsMachine n m → InOrder u m → HaltsOn m k q r → HaltsWith m k x →
        ((e : Entry) → IsChildEntry n u m e → IsBest Scores n (filled m q r e) (b e)) →
        IsBest Scores n m (Some (greatest_of x b (child_entries n u m))) }
{}

/// Tables of as many states with one map are one.
pub fn one_table()
    ensures { (p t : Packed) → IsTable p → IsTable t → p.states ≡ t.states → entry_of p ≡ entry_of t → p ≡ t }
{}

/// Every machine within the limit is the map of a table.
pub fn machine_has_table()
    ensures table { (n : ℕ) (m : Machine) → IsMachine n m → n ≤ state_limit → IsTable (tabulated n m) }
    ensures map { (n : ℕ) (m : Machine) → IsMachine n m → n ≤ state_limit → entry_of (tabulated n m) ≡ m }
{}

/// One entry more in a table gives a table, whose map has that pair filled.
pub fn entry_fills()
    ensures table { (p : Packed) (q : ℕ) (s : Symbol) (e : Entry) → IsTable p → q < p.states → e.next.0 < p.states →
        IsTable (with_entry p q s e) }
    ensures map { (p : Packed) (q : ℕ) (s : Symbol) (e : Entry) → IsTable p → q < p.states → e.next.0 < p.states →
        entry_of (with_entry p q s e) ≡ filled (entry_of p) q s e }
{}

/// A child of a table, and so each table of its tree, is a table of as many states, in order. A child of a
/// table of a tree stands in the tree.
pub fn child_is_table()
    ensures child { (p t : Packed) → IsTable p → IsChildTable p t → IsTable t × (t.states ≡ p.states) }
    ensures tree { (p t : Packed) → IsTable p → InTableTree p t → IsTable t × (t.states ≡ p.states) }
    ensures below { (r p t : Packed) → InTableTree r p → IsChildTable p t → InTableTree r t }
    ensures order { (p t : Packed) (u : ℕ) → IsTable p → InOrder u (entry_of p) → InTableTree p t →
        (v : ℕ) × InOrder v (entry_of t) }
{}

/// The list of the children of a table in order that halts on a pair has exactly its children, each once,
/// and it rises in the order of their texts.
pub fn children_listed()
    ensures members { (p t : Packed) (u k q : ℕ) (s : Symbol) → IsTable p → InOrder u (entry_of p)
        → HaltsOn (entry_of p) k q s →
        Contains (children_at p q s) t ↔ IsChildTable p t }
    ensures once { (p : Packed) (u k q : ℕ) (s : Symbol) → IsTable p → InOrder u (entry_of p)
        → HaltsOn (entry_of p) k q s →
        AllPairs (λ a b. a ≢ b) (children_at p q s) }
    ensures rising { (p : Packed) (u k q : ℕ) (s : Symbol) → IsTable p → InOrder u (entry_of p)
        → HaltsOn (entry_of p) k q s →
        AllPairs (λ a b. slice_cmp nat_cmp (text_of a) (text_of b) ≡ Less) (children_at p q s) }
{}

/// Each table of a tree is the child of one table of the tree at most.
pub fn one_parent_table()
    ensures { (p a b t : Packed) → IsTable p → InTableTree p a → InTableTree p b →
        IsChildTable a t → IsChildTable b t → a ≡ b }
{}

/// Where each table of the tree halts or never does, the best of all extensions is the greatest in the
/// tree, and there is none where no table of the tree halts.
pub fn best_of_table()
    ensures steps { (p : Packed) (u : ℕ) (b : Option ℕ) → IsTable p → InOrder u (entry_of p) → IsDecidedTable p →
        IsBestOfTable HaltsAt p b ↔ IsGreatestInTables HaltsAt p b }
    ensures score { (p : Packed) (u : ℕ) (b : Option ℕ) → IsTable p → InOrder u (entry_of p) → IsDecidedTable p →
        IsBestOfTable Scores p b ↔ IsGreatestInTables Scores p b }
{}

/// The best of the empty table of n states is the greatest of all machines of n states: Radó's S(n), and
/// for scores Σ(n). The empty table is in order.
pub fn rado_of_tables()
    ensures table { (n : ℕ) → 1 ≤ n → n ≤ state_limit → IsTable (empty_table n) × InOrder 1 (entry_of (empty_table n)) }
    ensures steps { (n s : ℕ) → 1 ≤ n → n ≤ state_limit → IsBestOfTable HaltsAt (empty_table n) (Some s) ↔ IsRado n s }
    ensures score { (n s : ℕ) → 1 ≤ n → n ≤ state_limit →
        IsBestOfTable Scores (empty_table n) (Some s) ↔ IsGreatestOfAll Scores n s }
{}

/// Two true verdicts on a table are one, so nobody records another number of steps of it.
pub fn one_true_verdict()
    ensures { (t : Packed) (a b : Option Mark) → IsTrueMark t a → IsTrueMark t b → IsVerdict a → IsVerdict b → a ≡ b }
{}

/// Where what is recorded is true, each table of the tree of a closed table has a verdict and is closed.
/// Where no table is open and none is a holdout, each table of the root's tree is closed.
pub fn closed_tree()
    ensures tree { (root p t : Packed) (marks : Packed → Option Mark) → AreTrueMarks marks →
        IsClosed root marks p → InTableTree p t → IsClosed root marks t }
    ensures decided { (root p : Packed) (marks : Packed → Option Mark) → AreTrueMarks marks →
        IsClosed root marks p → IsDecidedTable p }
    ensures complete { (root t : Packed) (marks : Packed → Option Mark) → AreTrueMarks marks →
        IsComplete root marks → InTableTree root t → IsClosed root marks t }
{}

/// Closed means best: where what is recorded is true, the greatest number of steps recorded in the tree of
/// a closed table is the greatest of all its extensions, and there is none where no extension halts. The
/// same holds of scores, where the given ones are true.
pub fn best_of_closed()
    ensures steps { (root p : Packed) (u : ℕ) (marks : Packed → Option Mark) (b : Option ℕ) → AreTrueMarks marks →
        IsTable p → InOrder u (entry_of p) → IsClosed root marks p →
        IsBestOfTable HaltsAt p b ↔ IsGreatestRecorded (λ t k. k) marks p b }
    ensures score { (root p : Packed) (u : ℕ) (marks : Packed → Option Mark) (scores : Packed → ℕ) (b : Option ℕ) →
        AreTrueMarks marks → AreTrueScores marks scores →
        IsTable p → InOrder u (entry_of p) → IsClosed root marks p →
        IsBestOfTable Scores p b ↔ IsGreatestRecorded (λ t k. scores t) marks p b }
{}

/// Complete means S(n): where what is recorded is true, and from the empty table of n states no table is
/// open and none is a holdout, the greatest number of steps recorded in the tree is Radó's S(n), and the
/// greatest score is Σ(n).
pub fn rado_of_complete()
    ensures steps { (n s : ℕ) (marks : Packed → Option Mark) → 1 ≤ n → n ≤ state_limit → AreTrueMarks marks →
        IsComplete (empty_table n) marks →
        IsGreatestRecorded (λ t k. k) marks (empty_table n) (Some s) ↔ IsRado n s }
    ensures score { (n s : ℕ) (marks : Packed → Option Mark) (scores : Packed → ℕ) → 1 ≤ n → n ≤ state_limit →
        AreTrueMarks marks → AreTrueScores marks scores → IsComplete (empty_table n) marks →
        IsGreatestRecorded (λ t k. scores t) marks (empty_table n) (Some s) ↔ IsGreatestOfAll Scores n s }
{}

// Zippers, rules of them, and words that are repeated on a half tape.
ghost use Rattle.std.specs.Prelude.{ℕ, List, [], ◌∷◌, ◌++◌, ◌≡◌, Some, None, suc};
ghost use Rattle.machine_text.specs.declared.table.Sym.{Sym};
ghost use Rattle.machine_text.specs.declared.table.Sym.TheVariants.{Zero};
ghost use Rattle.law_turing.specs.Terms.{Machine, Config, start, from, Never};
ghost use Rattle.law_machines.specs.Zipper.{AtLeft, AtRight, Comes, repeat, SameCells, Zipper, blank_zipper, Describes, steps, Goes};

/// A blank at a far end is the same as nothing, also behind words; and a half tape ahead of the head may be taken
/// for another one of the same cells.
pub fn blank_ends()
    ensures blank { SameCells [] (Zero ∷ []) }
    ensures word { (w l k : List Sym) → SameCells l k → SameCells (w ++ l) (w ++ k) }
    ensures words { (w : List Sym) (n : ℕ) (l k : List Sym) → SameCells l k → SameCells (repeat w n l) (repeat w n k) }
    ensures right { (m : Machine) (q : ℕ) (l r k : List Sym) → SameCells r k → Comes m (AtRight l q r) (AtRight l q k) }
    ensures left { (m : Machine) (q : ℕ) (l r k : List Sym) → SameCells l k → Comes m (AtLeft l q r) (AtLeft k q r) }
{}

/// Where a zipper is a configuration, the zipper after so many steps is the configuration after so many; and
/// where it has none, the run halts before. The blank zipper is the configuration that runs start from.
pub fn zipper_runs()
    ensures some { (m : Machine) (k : ℕ) (z w : Zipper) → steps m k z ≡ Some w → (c : Config) → Describes z c →
        (d : Config) × (from m k c ≡ Some d) × Describes w d }
    ensures none { (m : Machine) (k : ℕ) (z : Zipper) → steps m k z ≡ None → (c : Config) → Describes z c →
        from m k c ≡ None }
    ensures blank { Describes blank_zipper start }
{}

/// A further word may stand first or last; repeated words of one kind may stand in either order; and words of two
/// symbols may be begun with the other one.
pub fn word_repeats()
    ensures last { (w : List Sym) (n : ℕ) (l : List Sym) → repeat w n (w ++ l) ≡ w ++ repeat w n l }
    ensures swapped { (w : List Sym) (n k : ℕ) (l : List Sym) → repeat w n (repeat w k l) ≡ repeat w k (repeat w n l) }
    ensures turned { (a b : Sym) (n : ℕ) (l : List Sym) →
        repeat (a ∷ b ∷ []) n (a ∷ l) ≡ a ∷ repeat (b ∷ a ∷ []) n l }
{}

/// Where the head goes over a word u, in one state before and after, and leaves the word v behind it, it goes over
/// n of them: to the right, and to the left.
pub fn word_sweeps()
    ensures right { (m : Machine) (q : ℕ) (u v : List Sym) →
        ((l r : List Sym) → Comes m (AtRight l q (u ++ r)) (AtRight (v ++ l) q r)) →
        (n : ℕ) (l r : List Sym) → Comes m (AtRight l q (repeat u n r)) (AtRight (repeat v n l) q r) }
    ensures left { (m : Machine) (q : ℕ) (u v : List Sym) →
        ((l r : List Sym) → Comes m (AtLeft (u ++ l) q r) (AtLeft l q (v ++ r))) →
        (n : ℕ) (l r : List Sym) → Comes m (AtLeft (repeat u n l) q r) (AtLeft l q (repeat v n r)) }
{}

/// So many steps of a zipper are a rule, with at least one step where there are any. Rules follow one another,
/// and where one of the two has a step, both together have one.
pub fn rules_follow()
    ensures steps { (m : Machine) (k : ℕ) (z w : Zipper) → steps m k z ≡ Some w → Comes m z w }
    ensures some_steps { (m : Machine) (k : ℕ) (z w : Zipper) → steps m (suc k) z ≡ Some w → Goes m z w }
    ensures weaker { (m : Machine) (z w : Zipper) → Goes m z w → Comes m z w }
    ensures both { (m : Machine) (z w v : Zipper) → Comes m z w → Comes m w v → Comes m z v }
    ensures first { (m : Machine) (z w v : Zipper) → Goes m z w → Comes m w v → Goes m z v }
    ensures second { (m : Machine) (z w v : Zipper) → Comes m z w → Goes m w v → Goes m z v }
{}

/// Never by rules: a row of zippers, to one of which the run from the blank tape comes, and from each of which it
/// goes on to another one. Such a machine never halts.
pub fn rules_never()
    ensures { (m : Machine) (at : ℕ → Zipper) (i : ℕ) → Comes m blank_zipper (at i) →
        ((j : ℕ) → (k : ℕ) × Goes m (at j) (at k)) → Never m }
{}

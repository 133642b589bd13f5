// Why machines never halt: cycles, sets of what can stand on the tape, and backward reasoning.
ghost use Rattle.std.specs.Prelude.{◌≡◌, ℕ, ◌+◌, ℤ, Some, ◌<◌, List, Contains, None, ◌↔◌, suc, [], ◌∷◌, length};
ghost use Rattle.machine_text.specs.declared.table.Dir.{Dir};
ghost use Rattle.law_turing.specs.Run.{Machine, Config, after, IsMachine, next, from};
ghost use Rattle.law_turing.specs.Halting.{Never};
ghost use Rattle.law_turing.specs.NeverHalting.{Cycle, Beyond, Farthest, Translated, Local, IsClosedSet, IsInside, TwoAutomata, Fits, LeadsToHalt, Ends, Backward, Pair, RunsThrough, IsPath, IsWider, AllPaths, Partial, IsNeeded, standing_on, before_step, LeadsTo, level};
ghost use Rattle.machine_text.specs.declared.table.Sym.{Sym};
ghost use Rattle.machine_text.specs.declared.table.Entry.{Entry};

/// A machine whose run comes to one configuration twice never halts.
pub fn cycle_never()
    ensures { (m : Machine) (i j : ℕ) → Cycle m i j → Never m }
{}

/// A machine with a translated cycle never halts. The time need be no record, and the shift may be 0.
pub fn translated_never()
    ensures { (m : Machine) (i j : ℕ) (side : Dir) → Translated m i j side → Never m }
{}

/// The farthest head of some times, one time after another: of one time it is the head; a further head
/// leaves it, or is itself the farthest. There is only one.
pub fn farthest_head()
    ensures first { (m : Machine) (side : Dir) (i : ℕ) (c : Config) → after m i ≡ Some c →
        Farthest m side i (i + 1) c.tape.head }
    ensures same { (m : Machine) (side : Dir) (i j : ℕ) (b : ℤ) (c : Config) → Farthest m side i j b →
        after m j ≡ Some c → Beyond side b c.tape.head → Farthest m side i (j + 1) b }
    ensures farther { (m : Machine) (side : Dir) (i j : ℕ) (b : ℤ) (c : Config) → Farthest m side i j b →
        after m j ≡ Some c → Beyond side c.tape.head b → Farthest m side i (j + 1) c.tape.head }
    ensures one { (m : Machine) (side : Dir) (i j : ℕ) (a b : ℤ) → Farthest m side i j a →
        Farthest m side i j b → a ≡ b }
{}

/// A machine that has a closed position set never halts. Nor does its run from any other tape whose words
/// are in the sets: it goes on for ever, within the sets.
pub fn position_set_never()
    ensures never { (g : ℕ) (m : Machine) (lefts rights : List (List Sym)) (members : List Local) →
        IsClosedSet g m (Contains lefts) (Contains rights) (Contains members) → Never m }
    ensures inside { (g : ℕ) (m : Machine) (lefts rights : List (List Sym)) (members : List Local) →
        IsClosedSet g m (Contains lefts) (Contains rights) (Contains members) → (c : Config) →
        IsInside g (Contains lefts) (Contains rights) (Contains members) c → (k : ℕ) →
        (d : Config) × (from m k c ≡ Some d) × IsInside g (Contains lefts) (Contains rights) (Contains members) d }
{}

/// A machine of n states that finite automata fit never halts, whichever side is ahead. Of every other tape they
/// say as much: a configuration of one of its states that comes to a halting pair leads to the halt state.
pub fn automata_never()
    ensures never { (n : ℕ) (m : Machine) (side : Dir) (a : TwoAutomata) → IsMachine n m → Fits n m side a →
        Never m }
    ensures leads { (n : ℕ) (m : Machine) (side : Dir) (a : TwoAutomata) → IsMachine n m → Fits n m side a →
        (c : Config) → c.state < n → (k : ℕ) (d : Config) → from m k c ≡ Some d → next m d ≡ None →
        LeadsToHalt a side c }
{}

/// A machine whose run does d steps never halts, where no configuration at all of its states comes to a
/// halting pair after exactly d.
pub fn backward_never()
    ensures { (n : ℕ) (m : Machine) (d : ℕ) → IsMachine n m → Backward n m d → Never m }
{}

/// There is a path of depth d exactly where some configuration comes to a halting pair after d steps.
pub fn paths_end()
    ensures { (n : ℕ) (m : Machine) (d : ℕ) →
        ((pairs : List Pair) × IsPath n m d pairs) ↔ ((c : Config) × (c.state < n) × Ends m c d) }
{}

/// The paths of depth 0 are the halting pairs; a deeper path is a pair with an entry before a path that is
/// one shorter. So where a depth has no path, none below it has one.
pub fn path_pairs()
    ensures halting { (n : ℕ) (m : Machine) (pairs : List Pair) →
        IsPath n m 0 pairs ↔ ((p : Pair) × (pairs ≡ p ∷ []) × (p.state < n) × (m p.state p.symbol ≡ None)) }
    ensures deeper { (n : ℕ) (m : Machine) → IsMachine n m → (k : ℕ) (pairs : List Pair) →
        IsPath n m (suc k) pairs →
        (p : Pair) × (later : List Pair) × (e : Entry) × (pairs ≡ p ∷ later) ×
        (p.state < n) × (m p.state p.symbol ≡ Some e) × IsPath n m k later }
{}

/// What a path needs to be known of a configuration: of a halting pair the state and the cell at the head;
/// of a pair before a path also what the path needs, but for the cell that the step writes. The pair can
/// stand there only where its entry leads to what the path needs. What is needed can be had, so it makes
/// the pairs a path.
pub fn path_needs()
    ensures halting { (m : Machine) (p : Pair) → m p.state p.symbol ≡ None → IsNeeded m (standing_on p) (p ∷ []) }
    ensures before { (m : Machine) (p : Pair) (e : Entry) (k : Partial) (pairs : List Pair) →
        m p.state p.symbol ≡ Some e → LeadsTo e k → IsNeeded m k pairs →
        IsNeeded m (before_step p e k) (p ∷ pairs) }
    ensures only { (m : Machine) (p : Pair) (e : Entry) (k : Partial) (pairs : List Pair) →
        m p.state p.symbol ≡ Some e → IsNeeded m k pairs → (c : Config) →
        RunsThrough m (Some c) (p ∷ pairs) → LeadsTo e k }
    ensures path { (n : ℕ) (m : Machine) (d : ℕ) (k : Partial) (pairs : List Pair) → IsNeeded m k pairs →
        k.state < n → length pairs ≡ suc d → IsPath n m d pairs }
{}

/// There are more than so many paths of a depth exactly where a list of all of them, each once, is longer.
pub fn path_count()
    ensures { (n : ℕ) (m : Machine) (k limit : ℕ) (paths : List (List Pair)) → AllPaths n m k paths →
        IsWider n m k limit ↔ (limit < length paths) }
{}

/// The level of depth k, computed pair by pair over partly known tapes, has one item for each path of
/// depth k. So its length tells the width, and backward reasoning stands at a depth that the run reaches
/// exactly where the level is empty. Below an empty level all are empty.
pub fn backward_levels()
    ensures width { (n : ℕ) (m : Machine) → IsMachine n m → (k limit : ℕ) →
        IsWider n m k limit ↔ (limit < length (level n m k)) }
    ensures stands { (n : ℕ) (m : Machine) → IsMachine n m → (d : ℕ) →
        Backward n m d ↔ (((at : Config) × (after m d ≡ Some at)) × (level n m d ≡ [])) }
    ensures below { (n : ℕ) (m : Machine) (k r : ℕ) → level n m k ≡ [] → level n m (k + r) ≡ [] }
{}

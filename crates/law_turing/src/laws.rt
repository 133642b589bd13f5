// The laws of runs that hold for every machine, and of machines that run alike.
ghost use Rattle.std.specs.Prelude.{◌≡◌, ◌↔◌, ℕ, ◌+◌, ◌<◌, ◌≤◌, pos, ◌+ℤ◌, ◌-ℤ◌, ◌≤ℤ◌, Some, None, ℤ};
ghost use Rattle.machine_text.specs.Terms.{Packed, IsTable, entry_of};
ghost use Rattle.law_turing.specs.Run.{IsMachine, Machine, Config, from, after, next, carried_out, symbol_read, Takes, Extends, with_exchanged, opposite, mirrored, IsShifted};
ghost use Rattle.machine_text.specs.declared.table.Entry.{Entry};
ghost use Rattle.law_turing.specs.Halting.{HaltsAt, Never, HaltsWith, score_at, IsRado};
ghost use Rattle.machine_text.specs.declared.table.Dir.{Dir};
ghost use Rattle.law_turing.specs.NeverHalting.{Translated, TwoAutomata, Fits};

/// The map of a table of n states is a machine of n states.
pub fn table_is_machine()
    ensures { (p : Packed) → IsTable p → IsMachine p.states (entry_of p) }
{}

/// A step takes an entry: it writes in one cell, leaves every other as it was, moves the head by one
/// and changes the state. There is a step wherever there is an entry.
pub fn step_by_place()
    ensures step { (m : Machine) (c d : Config) → next m c ≡ Some d → (e : Entry) × Takes m c e d }
    ensures entry { (m : Machine) (c : Config) (e : Entry) → m c.state (symbol_read c.tape) ≡ Some e →
        (next m c ≡ Some (carried_out c e)) × Takes m c e (carried_out c e) }
{}

/// A run goes on from where it stands: i + k steps are i steps, and then k from there.
pub fn run_continues()
    ensures { (m : Machine) (i k : ℕ) (c d : Config) → from m i c ≡ Some d → from m (i + k) c ≡ from m k d }
{}

/// After a halting pair there is nothing.
pub fn halting_ends()
    ensures { (m : Machine) (i j : ℕ) (c d : Config) → from m i c ≡ Some d → next m d ≡ None → i < j →
        from m j c ≡ None }
{}

/// A run that is there at a time was there at each earlier time.
pub fn earlier_times()
    ensures { (m : Machine) (i j : ℕ) (c e : Config) → i ≤ j → from m j c ≡ Some e →
        (d : Config) × (from m i c ≡ Some d) }
{}

/// A machine halts in one number of steps at most, and at one configuration.
pub fn one_count()
    ensures count { (m : Machine) (j k : ℕ) → HaltsAt m j → HaltsAt m k → j ≡ k }
    ensures end { (m : Machine) (j k : ℕ) (s : HaltsAt m j) (t : HaltsAt m k) → s.at ≡ t.at }
{}

/// A run that halts has one score, that of its number of steps, of which it is no more.
pub fn one_score()
    ensures some { (m : Machine) (k : ℕ) → HaltsAt m k → HaltsWith m k (score_at m k) }
    ensures one { (m : Machine) (k s : ℕ) → HaltsWith m k s → s ≡ score_at m k }
    ensures within { (m : Machine) (k : ℕ) → HaltsAt m k → score_at m k ≤ k }
{}

/// A machine never halts exactly where its run is there at each time.
pub fn never_is_always()
    ensures { (m : Machine) → Never m ↔ ((k : ℕ) → (c : Config) × (after m k ≡ Some c)) }
{}

/// What is true of a machine is one: a machine that halts is none that never halts.
pub fn one_verdict()
    ensures { (m : Machine) (k : ℕ) → HaltsAt m k → Never m → ⊥ }
{}

/// The run of a machine of n states from one of these states stays among them.
pub fn states_within()
    ensures { (n : ℕ) (m : Machine) → IsMachine n m → (k : ℕ) (c d : Config) → c.state < n →
        from m k c ≡ Some d → d.state < n }
{}

/// After k steps the head is at most k cells off.
pub fn head_reach()
    ensures { (m : Machine) (k : ℕ) (c d : Config) → from m k c ≡ Some d →
        ((c.tape.head -ℤ pos k) ≤ℤ d.tape.head) × (d.tape.head ≤ℤ (c.tape.head +ℤ pos k)) }
{}

/// An extension runs as its machine does, until that halts.
pub fn extension_runs()
    ensures { (big m : Machine) → Extends big m → (k : ℕ) (c : Config) → after m k ≡ Some c →
        after big k ≡ Some c }
{}

/// No extension of a machine that never halts does.
pub fn extension_never()
    ensures { (big m : Machine) → Extends big m → Never m → Never big }
{}

/// To exchange the names of two states, neither of them the first, keeps the number of steps in which a
/// machine halts, and its score. A machine of n states stays one, where both are among them.
pub fn exchange_keeps()
    ensures machine { (n a b : ℕ) (m : Machine) → a < n → b < n → IsMachine n m →
        IsMachine n (with_exchanged a b m) }
    ensures count { (a b : ℕ) (m : Machine) (k : ℕ) → 0 < a → 0 < b → HaltsAt m k ↔ HaltsAt (with_exchanged a b m) k }
    ensures score { (a b : ℕ) (m : Machine) (k s : ℕ) → 0 < a → 0 < b →
        HaltsWith m k s ↔ HaltsWith (with_exchanged a b m) k s }
{}

/// The mirror image of a machine has as many states, and halts in as many steps, with the same score.
pub fn mirror_keeps()
    ensures machine { (n : ℕ) (m : Machine) → IsMachine n m → IsMachine n (mirrored m) }
    ensures count { (m : Machine) (k : ℕ) → HaltsAt m k ↔ HaltsAt (mirrored m) k }
    ensures score { (m : Machine) (k s : ℕ) → HaltsWith m k s ↔ HaltsWith (mirrored m) k s }
{}

/// What is said of one side of a machine is said of the other side of its mirror image.
pub fn mirror_sides()
    ensures translated { (m : Machine) (i j : ℕ) (side : Dir) →
        Translated m i j side ↔ Translated (mirrored m) i j (opposite side) }
    ensures automata { (n : ℕ) (m : Machine) (side : Dir) (a : TwoAutomata) →
        Fits n m side a ↔ Fits n (mirrored m) (opposite side) a }
{}

/// A run from a configuration whose tape is moved is the run from there, moved.
pub fn shifted_run()
    ensures { (m : Machine) (t : ℤ) (k : ℕ) (c d at : Config) → IsShifted t c d → from m k c ≡ Some at →
        (there : Config) × (from m k d ≡ Some there) × IsShifted t at there }
{}

/// S(1) is 1: a one-state machine halts at its first step, or moves one way for ever (Radó 1962).
pub fn rado_of_one()
    ensures { IsRado 1 1 }
{}

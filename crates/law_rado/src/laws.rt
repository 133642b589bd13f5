// The definitions of `BusyBeaver` say the same as those that the other crates speak of.
ghost use Rattle.std.specs.Prelude.{◌↔◌, ℕ};
ghost use Rattle.law_turing.specs.Terms.{Machine, IsMachine, HaltsAt, IsRado};
ghost use Rattle.law_tree.specs.Terms.{Scores};
ghost use Rattle.ledger.specs.Terms.{IsSigma};
ghost use Rattle.law_rado.specs.BusyBeaver.{TuringMachine, HasStates, HaltsInSteps, HaltsWithOnes, IsS, IsSigmaOf};
ghost use Rattle.law_rado.specs.SameMachine.{IsSameMachine};

/// Each machine can be written in both ways; then it has the same number of states, halts in the same number of steps
/// and with the same score, if at all.
pub fn same_machine_halts()
    ensures there { (t : TuringMachine) → (m : Machine) × IsSameMachine t m }
    ensures back { (m : Machine) → (t : TuringMachine) × IsSameMachine t m }
    ensures states { (t : TuringMachine) (m : Machine) (n : ℕ) → IsSameMachine t m → HasStates n t ↔ IsMachine n m }
    ensures steps { (t : TuringMachine) (m : Machine) (k : ℕ) → IsSameMachine t m → HaltsInSteps t k ↔ HaltsAt m k }
    ensures score { (t : TuringMachine) (m : Machine) (s : ℕ) → IsSameMachine t m → HaltsWithOnes t s ↔ Scores m s }
{}

/// Radó's number is S(n): the greatest number of steps in which a machine of n states halts.
pub fn rado_is_greatest_steps()
    ensures { (n s : ℕ) → IsRado n s ↔ IsS n s }
{}

/// The greatest score of all machines of n states is Σ(n).
pub fn sigma_is_greatest_score()
    ensures { (n s : ℕ) → IsSigma n s ↔ IsSigmaOf n s }
{}

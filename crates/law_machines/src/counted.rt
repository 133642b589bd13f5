// Counted automata, and what they show of a machine.
ghost use Rattle.std.specs.Prelude.{◌≡◌, ℕ, Some};
ghost use Rattle.law_turing.specs.Terms.{Machine, Config, from, Never};
ghost use Rattle.law_machines.specs.Counted.{CountedSystem, CountedStand, IsHeldBy};

use machine_text::{State, Sym};

/// A count, by its number: below `MAX_COUNTS`.
#[derive(Clone, Copy)]
pub struct Count {
    pub number: usize,
}

/// The states of the two automata, the table's state and the symbol that it reads.
#[derive(Clone, Copy, PartialEq, Eq)]
pub struct Local {
    pub left: usize,
    pub state: State,
    pub read: Sym,
    pub right: usize,
}

/// The state that a transition leads to, and its count, if it has one.
#[derive(Clone, Copy)]
pub struct Transition {
    pub to: usize,
    pub count: Option<Count>,
}

/// A machine for which counted automata stand never halts. Nor does its run from any other configuration that
/// they hold: it goes on for ever, and each configuration of it is held.
pub fn counted_never()
    ensures never { (m : Machine) (w : CountedSystem) → CountedStand m w → Never m }
    ensures held { (m : Machine) (w : CountedSystem) → CountedStand m w → (c : Config) → IsHeldBy w c → (k : ℕ) →
        (d : Config) × (from m k c ≡ Some d) × IsHeldBy w d }
{}

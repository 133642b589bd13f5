// The machines whose proofs stand in this crate, which of them a table is, and what is proved of them.
ghost use Rattle.std.specs.Prelude.{◌≡◌, ℕ, true, List, Ok, bytes_eq, ◌↔◌, Some, IsTrue, IfSome};
ghost use Rattle.machine_text.specs.Terms.{Packed, entry_of, IsTable, table_of, text_of};
ghost use Rattle.law_turing.specs.Terms.{Never};
ghost use Rattle.law_machines.specs.declared.machines.ProvedMachine.{ProvedMachine as Proved, ProvedMachine};
ghost use Rattle.law_machines.specs.Tables.{table_text};

use machine_text::{TEXT_BYTES, Table};
use std::fmt;

/// Texts with the same bytes name one table.
pub fn table_by_text()
    ensures { (known : List ℕ) (t : Packed) → table_of known ≡ Ok t → (text : List ℕ) (p : Packed) →
        table_of text ≡ Ok p → bytes_eq text known ≡ true → p ≡ t }
{}

/// A machine whose proof stands in this crate, by its number in Skelet's list (Georgiev 2003).
#[derive(Clone, Copy, Debug, PartialEq, Eq)]
pub enum ProvedMachine {
    /// Parts within parts, as Fibonacci numbers have.
    Skelet10,
    /// A shift overflow counter, the mirror image of Skelet 26 from another state.
    Skelet15,
    /// Lists of numbers that go with a Gray code.
    Skelet17,
    /// A shift overflow counter.
    Skelet26,
    /// A shift overflow counter with one more digit.
    Skelet33,
    /// A shift overflow counter, in all but one entry Skelet 35.
    Skelet34,
    /// A shift overflow counter.
    Skelet35,
}

impl ProvedMachine {
    /// All of them, by their numbers.
    pub const ALL: [ProvedMachine; 7] = [
        ProvedMachine::Skelet10,
        ProvedMachine::Skelet15,
        ProvedMachine::Skelet17,
        ProvedMachine::Skelet26,
        ProvedMachine::Skelet33,
        ProvedMachine::Skelet34,
        ProvedMachine::Skelet35,
    ];

    /// The text of its table.
    #[tactic(auto, unfolding(crate::specs::Tables::table_text))]
    pub fn text(self) -> &'static [u8]
        ensures { result.now ≡ table_text self }
    {
        match self {
            ProvedMachine::Skelet10 => b"1RB0RA_0LC1RA_1RE1LD_1LC0LD_---0RB",
            ProvedMachine::Skelet15 => b"1RB---_1RC1LB_1LD1RE_1LB0LD_1RA0RC",
            ProvedMachine::Skelet17 => b"1RB---_0LC1RE_0LD1LC_1RA1LB_0RB0RA",
            ProvedMachine::Skelet26 => b"1RB1LD_1RC0RB_1LA1RC_1LE0LA_1LC---",
            ProvedMachine::Skelet33 => b"1RB1LC_0RC0RB_1LD0LA_1LE---_1LA1RE",
            ProvedMachine::Skelet34 => b"1RB1LC_0RC0RB_1LD0LA_1LE---_1LA1RA",
            ProvedMachine::Skelet35 => b"1RB1LC_0RC0RB_1LD0LA_1LE---_1LA0LA",
        }
    }

    /// The machine that a table is, if it is one of these. If so, it never halts.
    pub fn of(t: &Table) -> Option<ProvedMachine>
        ensures text { (m : Proved) → (result ≡ Some m) ↔ (text_of t.now ≡ table_text m) }
        ensures never { IfSome result (λ m. Never (entry_of t.now)) }
    {
        let mut buf = [0; TEXT_BYTES];
        let text = t.text(&mut buf);
        for machine in ProvedMachine::ALL {
            if text == machine.text() {
                return Some(machine);
            }
        }
        None
    }
}

impl fmt::Display for ProvedMachine {
    ghost use Rattle.std.specs.Prelude.{Some};
    ghost use Rattle.law_machines.specs.Tables.{machine_name};

    ghost output = { λ machine. Some (machine_name machine) };

    fn fmt<W: fmt::Write>(&self, f: &mut fmt::Formatter<W>) -> fmt::Result {
        f.write_str(match self {
            ProvedMachine::Skelet10 => "Skelet 10",
            ProvedMachine::Skelet15 => "Skelet 15",
            ProvedMachine::Skelet17 => "Skelet 17",
            ProvedMachine::Skelet26 => "Skelet 26",
            ProvedMachine::Skelet33 => "Skelet 33",
            ProvedMachine::Skelet34 => "Skelet 34",
            ProvedMachine::Skelet35 => "Skelet 35",
        })
    }
}

/// Whether a table is one of the machines whose proofs stand in this crate. None of these ever halts.
pub fn is_proved(t: &Table) -> bool
    ensures text { IsTrue result ↔ ((m : Proved) × (text_of t.now ≡ table_text m)) }
    ensures never { IsTrue result → Never (entry_of t.now) }
{
    ProvedMachine::of(t).is_some()
}

/// Each of the machines never halts: the text of each names a table, and a table with that text never does.
pub fn proved_machines_never()
    ensures named { (m : ProvedMachine) → (p : Packed) × (table_of (table_text m) ≡ Ok p) × Never (entry_of p) }
    ensures never { (m : ProvedMachine) (p : Packed) → IsTable p → text_of p ≡ table_text m → Never (entry_of p) }
{}

//! Laws by which machines never halt: rules over half tapes, counted automata, and the proofs of seven machines of
//! Skelet's list. To use a law, call its function: its body is empty.
//!
//! `specs/Zipper`: a zipper is a configuration as two half tapes with the state between them. A rule says that the run
//! comes from each configuration that the one zipper is to one that the other is, in some number of steps. Rules are
//! made of single steps, of words over which the head sweeps, and of one another; a family of zippers from each of
//! which a rule leads to another one keeps a machine from halting: `rules_never`.
//!
//! `specs/Counted`: two automata read the two half tapes and count how often some of their transitions are taken; what
//! can stand around the head comes with a coset, in which the counts then lie. Where no step leads out of the cosets,
//! the machine never halts: `counted_never`.
//!
//! `specs/Tables`: the seven machines by their texts. Each proof is a file in `proofs/`, by the machine's name: with a
//! drawing of what stands on the tape, the rules by which the run leads from one form to another with their numbers of
//! steps, and why the cases are all. `ProvedMachine::of` tells whether a table is one of them.
#![tactic(auto)]

mod counted;
mod machines;
mod zipper;

pub use counted::{Count, Local, Transition, counted_never};
pub use machines::{ProvedMachine, is_proved, proved_machines_never, table_by_text};
pub use zipper::{blank_ends, rules_follow, rules_never, word_repeats, word_sweeps, zipper_runs};

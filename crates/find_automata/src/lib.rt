//! The search for the automata of finite automata reduction (FAR).
//!
//! A deterministic automaton reads the half tape behind the head; where the least second automaton that goes with it
//! keeps the blank tape from all halting pairs, the table never halts. This crate finds such first automata, and proves
//! nothing of them: whoever asks has what is found judged.
//!
//! The first automaton grows on demand. It has the transitions that were decided (`transitions`), the second one the
//! edges that they ask for (`edges`), as far as they are called from the blank tape. Only a transition that is called
//! and not there is branched on, its targets in the order in which they are likely to do. What is never called needs no
//! target: it goes to one more state, which is never left.
//!
//! `specs/Limits` has the sizes.
#![tactic(auto)]

mod automata_search;
mod edges;
mod limits;
mod transitions;

pub use automata_search::{AutomataSearch, Automaton, STAGES, Stage, USUAL_BUDGET};
pub use limits::{MAX_MOVES, MAX_SIZE};

//! The search for the automata of finite automata reduction whose first one is made of words.
//!
//! A state of the first automaton is the word of the symbols that were read last, from which the periods of a
//! repetition are dropped (`words`). Its states are made as the least second automaton asks for them, which has its
//! edges as far as the blank tape asks for those (`closing`, over `edges`). States that do the same become one
//! (`merging`). What is found is written as a claim (`writing`) and given if it stands (`word_finder`).
//!
//! Nothing is promised of what is found, nor of how long it takes. `specs/Findings` says what is so of what is given.
#![tactic(auto)]

mod closing;
mod edges;
mod merging;
mod word_finder;
mod words;
mod writing;

pub use word_finder::{FoundAutomata, WordFinder};
pub use words::{LARGE_ROOM, Room, SMALL_ROOM, WORD_STAGES, WordStage, Words};

//! Finite automata reduction (FAR), in its direct form: evidence that a table never halts.
//!
//! One automaton reads the half tape behind the head, a second one what stands under the head and ahead of it; where
//! the second comes to its halt state on no blank tape, and has the edges that the table asks for, the table never
//! halts. law_turing's `NeverHalting` says so. `specs/Texts` has the automata as numbers, the edges that those
//! describe, and their texts, as tests too; `specs/Claims` those of a claim of either kind; `specs/Kind` what they are
//! in a record and as kinds of certificates; `specs/Limits` the limits.
//!
//! Edges to which a bit each is given are packed, so that a check takes no memory, and the first automaton is small.
//! In a kind of its own the first may be large, and the edges of the second are listed; a state that isn't listed has
//! edges to all. `specs/ListedTexts` has such automata as numbers and lists, and the texts that give them.
//!
//! `specs/inside` is for the crate's own code.
#![tactic(auto)]

mod far;
mod fields;
mod fits;
mod laws;
mod least_edges;
mod limits;
mod listed;
mod listed_fits;
mod listed_reading;
mod listed_unpacked;
mod numbers;
mod owned;
mod unpacked;

pub use far::Far;
pub use laws::{
    automata_are_a_kind, listed_automata_are_a_kind, texts_are_tested, texts_read_back,
};
pub use least_edges::FarFinder;
pub use limits::{MAX_LISTED_SIZE, MAX_SIZE};
pub use listed::Listed;
pub use owned::{OwnedFar, OwnedListed};

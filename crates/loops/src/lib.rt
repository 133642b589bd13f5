//! Cycles and translated cycles: evidence that a table never halts, and searches for it.
//!
//! A run that comes to one configuration twice never halts; nor does one that comes to it again moved, and the same but
//! for cells that the head has left behind. law_turing's `Cycle` and `Translated` say which claims stand, `specs/Kinds`
//! how they are written in a record and what they mean as kinds of certificates, `Limits` how late their times may be.
//! `inside` is for the crate's own code: what a snapshot of a run is (`Moment`), what it means that a run comes to a
//! time (`Arrives`), and from where a trail of a run follows it (`Follows`).
#![tactic(auto)]

mod cycles;
mod laws;
mod limits;
mod search;
mod snapshot;
mod translated;

pub use cycles::{Cycle, CycleFinder};
pub use laws::{cycles_are_a_kind, translated_cycles_are_a_kind};
pub use limits::MAX_TIME;
pub use translated::{Translated, TranslatedFinder};

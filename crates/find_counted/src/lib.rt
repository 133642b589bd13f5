//! The search for counted automata with their cosets (kind `W`).
//!
//! The automata are learned from the half tapes of a run (`half_tapes`, `automata`); by them and by what they count the
//! least cosets are decided, which are closed from the blank tape on (`closing`, over `cosets`). What is found is
//! written, read and judged by `kind_counted`, as any claim is; so nothing is proved of the search but that.
//!
//! `specs/Findings` says what is so of what is given, `specs/Limits` has the most counts.
#![tactic(auto)]

mod automata;
mod closing;
mod cosets;
mod counted_finder;
mod half_tapes;
mod limits;

pub use counted_finder::CountedFinder;
pub use limits::MAX_FOUND_COUNTS;

//! What the program asks for certificates: the finders of all kinds, as a command line asks for them; a hard search,
//! which goes through stages; and the records of a file, which are looked up before any search.
//!
//! Of a file of records the first line of each table that claims something is kept, with its number. A record is judged
//! when its table is looked up, and given if it stands; lines that tell nothing, or don't stand, are counted, and the
//! first is kept. `specs/Known` says so; `specs/inside` is for the code.
//!
//! One run of a table serves three searches: whether it halts, comes to a cycle, or to a translated cycle. What repeats
//! is seen in what the run reads and in which states: a run that goes on for ever in the same way does so with the same
//! pairs of state and symbol, period by period.
#![tactic(auto)]

mod any_finder;
mod known;
mod known_file;
mod loop_finder;
mod stages;
mod telling;

pub use any_finder::{AnyFinder, decider_for};
pub use known::{Known, Refusals, read_known};
pub use known_file::{KnownFile, SavingDecider, Searcher};
pub use loop_finder::LoopFinder;
pub use telling::tell_refusals;

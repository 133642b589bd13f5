//! Runs of a table from the blank tape, and the evidence that one halts.
//!
//! A `Runner` stands at a time of the run; `HaltsIn` is the evidence of a run that halts. `specs/Steps` says where a
//! runner stands, how it steps, and what a run does to sixteen cells, `Halts` how evidence is written, `Limits` how
//! far runs go; `inside` is for the code. What evidence is, `kind_evidence` says.
#![tactic(auto)]

mod halting;
mod limits;
mod passages;
mod reach;
mod runner;

pub use halting::{HaltFinder, Halted, HaltsIn};
pub use kind_evidence::{Ending, Evidence, NoMemory, Refused, Verdict};
pub use limits::{MAX_HALT_STEPS, MAX_LATE_STEPS, MAX_RUN_STEPS};
pub use passages::{Passage, Passages};
pub use reach::{Reach, halts_reads_back};
pub use runner::{Runner, Step};

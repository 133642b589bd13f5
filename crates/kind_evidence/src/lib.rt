//! What is said of a table's run, and what evidence for it is.
//!
//! A verdict says that a table halts in so many steps and with so many ones, or never; `Evidence` is a claim that can
//! be checked and that makes its verdict true. `specs/Verdict` says when a verdict is true of a machine, how the sides
//! of claims are written, what a claim means, and what a kind of claims is by which a table never halts.
#![tactic(auto)]

mod verdicts;

pub use std::alloc::AllocError as NoMemory;
pub use verdicts::{Ending, Evidence, Refused, Verdict, side_of, side_text};

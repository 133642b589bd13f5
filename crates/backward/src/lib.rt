//! Backward reasoning: evidence that a table never halts, and its finder.
//!
//! A path of depth k is a list of k + 1 pairs through which some configuration runs, and whose last pair halts. Where
//! the run from the blank tape does d steps and there is no path of depth d, the table never halts. law_turing's
//! `Backward` says so. `specs/Kind` says when there are more paths than may be gone through, how the depth is written
//! in a record, and what it means as a kind of certificates; `specs/Limits` has the limits as numbers. `specs/inside`
//! is for the crate's own code: what known cells tell of a configuration, which pairs lead to one state, and how many
//! paths go further back than one.
#![tactic(auto)]

mod backward;
mod chains;
mod laws;
mod limits;
mod paths;

pub use backward::{Backward, BackwardFinder};
pub use laws::backward_is_a_kind;
pub use limits::{MAX_DEPTH, MAX_PATHS};

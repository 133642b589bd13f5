//! What a report tells of a tree, the totals: how many tables there are of each kind, the champions and the holdouts.
//! They are kept without the records, of which they tell; so a tree's totals come from those of its trunk and of its
//! parts, or, table by table, from a walk.
//!
//! `specs/Totals` says what the totals of records are, and what they are with those of a part, what a walk holds, and
//! of which records it tells: there is always a list of records that one board would hold, from the walk's root, whose
//! totals these are.
//!
//! A tree in parts is a trunk, which is a board from the tree's root, and parts, each a board from a table that the
//! trunk leaves open. They are told of together as one board that holds all would be, with one part's board in memory
//! at a time. What parts are, and what a whole holds of them, stands there too; `laws` says that a trunk and its parts
//! are held together, and that boards which say the same are told of in the same way. `specs/inside` and `proofs` are
//! for the code alone.
#![tactic(auto)]

mod laws;
mod sums;
mod walk;
mod whole;

pub use laws::{
    boards_that_agree_tell_the_same, many_parts_are_held, parts_are_held, walks_are_put_together,
};
pub use sums::Sums;
pub use walk::Walk;
pub use whole::{PartFault, Whole};

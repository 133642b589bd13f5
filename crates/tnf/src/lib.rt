//! Tree normal form of two-symbol Turing machines: the tables of a tree, from the root down.
//!
//! A tree begins at an empty table (`root`). A table that halts on an undefined pair has `children` (`specs/Children`):
//! that pair gets each entry to a used state or to the first unused one, and to the right where it is the first of all.
//! So each table uses its states in order (`in_order`).
#![tactic(auto)]

mod child_tables;
mod tables;

pub use child_tables::Children;
pub use tables::{children, in_order, root, used};

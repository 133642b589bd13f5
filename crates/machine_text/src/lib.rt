//! Tables of two-symbol Turing machines, and their exact text in the bbchallenge standard format.
//!
//! A table is a finite map from pairs (state, symbol read) to entries (symbol written, direction, next state). A pair
//! without an entry halts. `specs/Packed` says what a table is, `Text` its text, `Limits` their limits; `inside` is for
//! the code.
#![tactic(auto)]

mod grammar;
mod laws;
mod limits;
mod table;

pub use grammar::TextFault;
pub use laws::{maps_have_tables, order_is_of_texts, tables_are_maps};
pub use limits::{MAX_STATES, TEXT_BYTES};
pub use table::{Dir, Entry, Pair, State, Sym, Table};

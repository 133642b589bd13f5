//! A two-sided tape with a head, which grows as the head goes past what was visited.
//!
//! It is kept in words of 64 cells. Contracts see it as law_turing's record `Tape`: where the head stands, and the
//! finite set of places that hold ones. `specs/Cells` adds what it means that two half tapes are the same, what a sweep
//! over like cells is, and what sixteen cells are at once; `Limits` how far a tape may be used. `inside` is for the
//! code alone.
#![tactic(auto)]

mod cell;
mod limits;
mod tape;
mod window;

pub use limits::MAX_PLACE;
pub use tape::{NoMemory, Tape};
pub use window::Window;

//! A board and the leases on its open tables: one that asks gets the first open table that is under none, under a new
//! lease of its own. What becomes open by a record is under the lease of the record's table, which is renewed. A lease
//! ends at its deadline, when its worker asks again or is done.
//!
//! `specs/Leases` says what leases are and how they end, what a worker that asks is answered, and what becomes of the
//! leases when a record is offered; `Limits` how many live, and how long. `inside` is for the code alone.
#![tactic(auto)]

mod children;
mod free_tables;
mod held_leases;
mod leased_board;
mod limits;
mod live_leases;

pub use held_leases::Reply;
pub use leased_board::LeasedBoard;
pub use limits::{LEASE_TIME, MAX_LEASES};

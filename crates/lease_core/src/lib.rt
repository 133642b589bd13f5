//! The two roles of the protocol: a coordinator, which grants the open tables of a board to workers and takes their
//! records, and a worker, which settles the tree below a table that it was granted, and sends the records of its board.
//! Each is a node (`wire`): it answers events and does nothing else.
//!
//! `specs/CoordinatorRules` and `specs/WorkerRules` are the tables of their rules, row by row. `Starts` says what a
//! start makes of a ledger's bytes, `Says` what an answer says, and what holds of all: complete is final; `WorkerState`
//! what a worker is, and what holds of its answers. `Limits` has the limits of both, `inside` is for the code alone.
//! The coordinator's board has leases on its open tables: what these are and how they end, `leases` says.
#![tactic(auto)]

mod coordinator;
mod frames;
mod limits;
mod starting;
mod worker;
mod worker_answers;
mod worker_turns;

pub use coordinator::{
    Coordinator, acknowledged_tables_are_recorded, complete_boards_of_coordinators_stay,
};
pub use leases::{LEASE_TIME, LeasedBoard, MAX_LEASES, Reply};
pub use limits::{MAX_PEER_STEPS, MAX_TICK_RECORDS, MAX_WORK_RECORDS};
pub use starting::StartFault;
pub use worker::Worker;
pub use worker_answers::{
    LeaseName, complete_boards_of_workers_stay, workers_append_what_they_gain,
    workers_send_their_records,
};

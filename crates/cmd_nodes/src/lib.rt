//! The commands of `bb` that serve a tree, over readers, writers and links: `coord`, a coordinator alone, whose
//! workers' frames come on a stream or who connect; `work`, the workers of a process alone; and `run` and `loop`, a
//! coordinator and workers in one process, whose frames stay in memory or go over sockets.
//!
//! `specs/Faults` says when a worker gives up. `specs/Moving` says which frames of a link are lost on purpose, and what
//! has become of bytes that were to be moved from one end of a link to the other. `specs/Served` says what happens to a
//! worker in a round, from what a coordinator was begun and to which board it came, and what it was told and told
//! others over connections. `specs/Settled` says what it holds in the end, and what its ledger does. `specs/inside` is
//! for the code.
#![tactic(auto)]

mod answerer;
mod calling;
mod coord;
mod couriers;
mod held_ledger;
mod links;
mod listening;
mod rounds;
mod run_command;

pub use calling::{CoordinatorCaller, Destination, work_at, work_between};
pub use coord::{begin_ledger, cmd_coord};
pub use couriers::{Losses, deliver, move_all};
pub use held_ledger::{MaybeLedger, NoLedger, by_start};
pub use links::{Admission, Network, SocketPair, Sockets, Streams, connected};
pub use listening::{Serving, ServingPart, serve_part, serve_tree};
pub use rounds::work;
pub use run_command::{Run, cmd_loop, cmd_run};

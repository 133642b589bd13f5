//! The system as the commands see it: its files, its clock, and the sockets of a coordinator and of a worker's process.
//! What fails is remembered with its name, and what is read is watched. How far a long run is, is told while it goes
//! on: at most once a second, by lines, or by a line of a terminal, which is gone when something else is printed.
//!
//! What the system does no contract can say; `files` and `cmd_nodes` have what commands ask of it, `peers` what is
//! asked of sockets: that each byte that came is handed over once and in its order, under the place of its connection,
//! and that bytes said to be sent are. Who may come is said by `peers::Guest`; here stands how long one is waited for,
//! how many there are at once, and in which turn each is read.
#![tactic(auto)]

mod coordinator_socket;
mod disk;
mod disk_files;
mod disk_ledger;
mod guests;
mod listening;
mod named;
mod peer_sockets;
mod places;
mod progress;
mod system;
mod tree_share;
mod watched_files;

pub use coordinator_socket::{CoordinatorStream, SocketCaller};
pub use disk::Disk;
pub use disk_files::FileLock;
pub use disk_ledger::{DiskLedger, Storage};
pub use named::{Failures, NamedFile, NamedSocket};
pub use peer_sockets::{PeerSockets, Socket};
pub use progress::{CountedDecider, ProgressTold, Telling, TimedProgress, Work};
pub use system::System;
pub use watched_files::{FirstBytes, Odd, Oddity, Packing, Saying, Watch, WatchedFile, oddity_of};

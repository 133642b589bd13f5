//! What stands between a node and the world: the lines of a stream and the messages that they are, a node's link and
//! its ledger, and the engine that runs it.
//!
//! `specs/Message` says what messages say, their text, and how faults are told, `Limits` how much comes at once,
//! `Fulfilled` what the lines of a stream are, however it is cut, and what links and ledgers hold, in memory too.
//!
//! A [`Node`] answers events, and does nothing else: each answer says what to cut from its ledger, what to append, and
//! which frames to send. `begin`, `fulfil`, `hand_piece` and `turn` fulfil answers, the ledger's part first, the last
//! two those to all lines of a piece together. `inside` is for the code.
#![tactic(auto)]

mod engine;
mod handing;
mod laws;
mod limits;
mod lines;
mod memory;
mod messages;
mod node;

pub use engine::{Fault, LedgerOut, Link, begin, hand_piece, turn};
pub use handing::{Turn, TurnFault, append_all, fulfil};
pub use kind_evidence::NoMemory;
pub use laws::{begun_lines_go_on, messages_come_through, messages_read_back, pieces_concatenate};
pub use limits::MAX_PIECE_BYTES;
pub use lines::{Line, Lines};
pub use memory::{MemLedger, MemLink};
pub use messages::{Msg, MsgFault, decode, encode};
pub use node::{Event, Node, NodeFault, Note, Out};

//! A coordinator and its workers over streams. The peers of a coordinator: what comes from each is cut into lines,
//! which a node is handed in their order, and what the node answers goes to the peer that asked, and to no other. And
//! several workers in one process, over one stream to a coordinator.
//!
//! `specs/Guard` says what of a peer's lines the node is handed, `Passing` what a guard does to a line, `Peers` what
//! is known of a peer, and of a node behind its guard, `Served` what comes from outside, and what becomes of a node,
//! its ledger and its peers, `Sent` what is sent to whom, and what the node hears. [`Connections`] is all that is
//! asked of the world outside; [`serve`] takes what comes from them and sends what is answered. It knows of no socket.
//!
//! A [`Pool`] has cores, each a worker and its ledger. The coordinator answers the frames of a stream in their order,
//! so the answer to an `ASK` is for the core whose `ASK` is the oldest that is unanswered, and the word on a record,
//! `ACK` or `LATER` with its table, is for a core that has it. `specs/Crew` says what it is that a core is handed an
//! event, what is made of the lines that come, what the pool waits for, and its work, `Frames` what frames are for,
//! `Limits` how long a core works at once.
//!
//! A [`Guest`] is one who has connected and hasn't shown yet that it has the token: `specs/Guest` has the handshake,
//! and the sums by which each side shows that.
#![tactic(auto)]

mod guard;
mod guarded;
mod guest;
mod hearing;
mod laws;
mod limits;
mod peer;
mod peers;
mod pool;
mod pool_core;
mod serving;

pub use guard::{Dismissal, Dismissed, Guard};
pub use guarded::{Conduct, Guarded};
pub use guest::{
    Digits, Guest, Heard, MAX_GUEST_BYTES, Refusal, Role, greeted, is_answer, letter, nonce_of,
};
pub use laws::{
    answers_follow, guards_decide, guards_let_through, letters_say_messages, peers_keep_apart,
};
pub use limits::{LEASE_SECONDS, MAX_PEER_LEASES, MAX_WORK_TURNS, MOST_WAIT_SECONDS};
pub use peer::{Outbox, Peer};
pub use peers::Peers;
pub use pool::{Pool, Waits};
pub use pool_core::{Core, Course};
pub use serving::{Arrival, Connections, flush, serve, take_arrival};

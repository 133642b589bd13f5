//! The commands of `bb` that cut a tree into ledgers, settle these, and report on all of them together: `split`,
//! `settle` and `join`, of a folder or of a stream; `look`, what a ledger or a folder has recorded of given tables;
//! and `walk`, which walks a tree to its end in one process and reports on it, without keeping a record or a ledger.
//!
//! `specs/Settle` says what becomes of a board and its ledger while open tables are settled, what a ledger is that is
//! settled whole, what is printed of a walk, and what a tree is that is split into a trunk and its parts; `specs/Join`
//! what is gathered and told of them together, `specs/AtPaths` what all that is where files stand. `specs/Stream` says
//! which ledgers a text has, and what is told of them. `specs/Look` says what is said of a table by a board and by a
//! folder. `specs/inside` and `proofs` are for the code alone.
#![tactic(auto)]

mod answer;
mod folder;
mod join;
mod join_stream;
mod ledger_loop;
mod look;
mod part_files;
mod settle;
mod split;
mod walk;

pub use folder::{Folder, FolderAt, begin_part, begin_parts, part_path, trunk_path};
pub use join::{cmd_join, gather, join_into, join_parts, open_tables, tell_whole};
pub use join_stream::cmd_join_stream;
pub use look::{look_at, look_in};
pub use part_files::{Collector, Nowhere, OneLedger, PartLedgers, PartsAt, Written};
pub use settle::{settle_below, settle_board, settle_ledger, settle_ledger_at};
pub use split::{cmd_split, grow_trunk, split_off};
pub use walk::cmd_walk;

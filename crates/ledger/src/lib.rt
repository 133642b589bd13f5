//! Boards: the records held of a tree's tables, from its root.
//!
//! A board holds a record only where its table was open, and where its certificate stands: so each verdict on it is
//! true, whatever calls made it. A record of a table that halts is held with its score, even if offered without.
//! `specs/Records` says which lists a board may hold, `Lists` what is held of a list, `Offers` what an offer does,
//! `Merging` what two boards come to, `Tally` how many tables are of a kind, `Faults` why calls are refused.
//!
//! A board's ledger is a text: a header with version and root, and a line for each record. `LedgerText` says what
//! lines a version has, and as which records a text is read, also where it is spoilt, `Loading` and `Reading` what a
//! loader holds of it, `Limits` how much it keeps. `inside` is for the code.
#![tactic(auto)]

mod board;
mod body;
mod counts;
mod faults;
mod header;
mod laws;
mod lines;
mod loading;
mod merge;
mod open_tables;
mod places;
mod selected;
mod stored_record;
mod tree_count;

pub use board::{Board, Champions, Holdouts};
pub use counts::{Bound, Tally};
pub use faults::{BoardFault, LoadFault, MergeFault, OfferFault, Status, Taken};
pub use header::{Format, append_header, peek_root};
pub use laws::{
    answered_records_are_held, beginnings_load, complete_boards_hold_the_tree, complete_is_final,
    kept_bytes_load, ledgers_grow, ledgers_load_whole, ledgers_read_as_one, ledgers_read_longest,
    merges_agree, offers_are_held, trees_are_told_once, versions_read_apart,
};
pub use loading::{FeedStop, Left, Loader, ReadStop, Unkept};
pub use open_tables::Open;
pub use selected::Records;

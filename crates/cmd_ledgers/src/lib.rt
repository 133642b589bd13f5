//! The commands of `bb` that read ledgers, over readers, writers and files: `report`, `retry`, `merge`, `carry` and
//! `mend`.
//!
//! `specs/Report` is the report of a board, what it tells before it is printed, and what is printed where a tree is
//! settled. `specs/LedgerReport` is what is printed for a ledger's text, and how that is read. `specs/Merge` is two
//! ledgers that are merged, one that is written as version 2, what is kept of the lines of a damaged one, and what all
//! that comes to where files stand. `specs/Retry` is a ledger that is gone on with where it stands, and what becomes
//! of its holdouts. `specs/inside` is for the code alone.
#![tactic(auto)]

mod board_report;
mod ledger_report;
mod mend;
mod merge;
mod reading;
mod retry;

pub use board_report::{
    AsLines, LineReport, ReportForm, Told, complete_boards_report_their_tree, pass, report,
    status_name, write_report, write_told,
};
pub use ledger_report::{LedgerSource, cmd_report, cmd_report_stream, outcome_by, report_board};
pub use mend::{cmd_mend, cmd_mend_stream, mend_from, mend_into};
pub use merge::{carry_into, cmd_carry, cmd_merge, merge_into, merge_of, write_whole};
pub use reading::{
    MAX_HEADER_BYTES, begin_reading, by_load, cut_off, load_from, load_held, open_held,
};
pub use retry::{cmd_retry, keep_answer, retry_holdouts, retry_ledger, write_due, write_lines};

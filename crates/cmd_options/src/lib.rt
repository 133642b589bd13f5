//! What a command line asks for, and how a command ends.
//!
//! `specs/Ranges` has the ranges of the options' numbers, `specs/Outcome` the exit statuses, `specs/Ends` what an error
//! of the system ends a command by, `specs/Kinds` what the kinds of certificates are called.
#![tactic(auto)]

mod ended;
mod kinds;
mod options;
mod version;
mod writing;

pub use ended::{Ended, Outcome, Stopped, ended_by, told};
pub use kinds::{COUNT, DEPTH, FAR, GRAM, LETTERS, REACH_NAMES, REACHES, RULES, WORDS, kind_label};
pub use options::{
    Beginning, Carrying, Checking, Deciding, Drawing, Explaining, Joining, LedgerSettling,
    Listening, Listing, Looking, Mending, Merging, Options, Paging, PartCoordinating, Reporting,
    Retrying, Saving, Search, Settling, Showing, Splitting, Walking, Working,
};
pub use std::alloc::AllocError as NoMemory;
pub use version::{Number, VERSION, release};
pub use writing::{Durability, LedgerFile, write_in_full};

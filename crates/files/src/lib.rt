//! Where the files stand that a command line names.
//!
//! `Files` is what commands see of them. `specs/Paths` has what is known to stand at paths, how that changes, and what
//! is read of it.
#![tactic(auto)]

mod files;
mod opened;

pub use cmd_options::ended_by;
pub use files::{Files, Progress, lock_ledger};
pub use opened::{Held, Opened, held_at, ledger_at, made_for, put_at};

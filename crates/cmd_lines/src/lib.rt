//! The commands of `bb` that answer a stream of lines, over readers and writers: `check`, `decide` and `tables`, and
//! the loop over lines that other commands use too.
//!
//! `specs/Lines` says which lines a text has that comes in pieces, and that a taker takes them one after another and
//! remembers what came before. `specs/Stream` is what is said to them then, and where that ended early. `specs/Answer`
//! is the answer to a line of `bb check` and of `bb decide`. `specs/Listed` says which tables stand in a text, and what
//! `bb tables` prints of them. `specs/inside` and `proofs` are for the code alone.
#![tactic(auto)]

mod answers;
mod check;
mod decide;
mod line_loop;
mod list;
mod normal;
mod said;

pub use answers::{answer, answer_record, append_fault, outcome_shown, read_line};
pub use check::{Reader, cmd_check};
pub use decide::{TableText, cmd_decide, decide_line};
pub use line_loop::{LineLoop, LineTaker, Sayer};
pub use list::cmd_tables;
pub use normal::normal_form;
pub use said::{PIECE_BYTES, say_lines};

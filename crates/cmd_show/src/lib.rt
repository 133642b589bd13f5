//! Runs as text and as space-time pictures: `bb show` and `bb draw` read a table or a record a line.
//!
//! `specs/Shown` says what is printed, whole lines alone, what ends it early, and which cells a run visits.
//! `specs/Drawn` says which table a line asks for, and what is said where each picture is a file, with its path, and
//! where one goes to a stream, and what a whole picture of a table is. `specs/inside` is for the code.
//!
//! `Rows` goes through a run, from one time that is shown to the next; `Visits` keeps the cells that its head visits;
//! a `Layout` says which cells each line has. In pictures time goes downwards, cells to the right, ones are dark. A
//! `View` says which cells are drawn and how many share a column, `Times` which times, `Pixels` how large.
#![tactic(auto)]

mod document;
mod draw;
mod lines;
mod picture_rows;
mod printer;
mod rows;
mod show;
mod view;
mod visits;

pub use draw::cmd_draw;
pub use printer::append_shown;
pub use show::{cmd_show, table_asked};
pub use view::paths_are_apart;
pub use visits::Visits;

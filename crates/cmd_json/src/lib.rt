//! Reports of boards, and answers to lines, as JSON.
//!
//! `specs/Forms` says which object is reported of a root and its records, and that the report is the text of that
//! object without a space, and a newline. `specs/Objects` says which object is said to a line of `bb check`, `bb
//! decide` and `bb explain`, and that it is said to each line of a stream by its number. The crate stands alone, so
//! that little else loads `serde_json`.
#![tactic(auto)]

mod form;
mod objects;
mod records;
mod report;
mod told;

pub use form::LinesOrJson;
pub use records::{check_json_for, check_json_line, decide_json_for, decide_json_line};
pub use report::report_json;
pub use told::{explain_json_for, explain_json_line};

//! Texts as rows of bytes: cut at a byte, parts between separators, lines of a stream that comes in pieces, numbers in
//! decimal, and the fields of records.
//!
//! `specs/Fields` says where a text is cut, what its parts are, which texts are numbers, how fields are written, what
//! a line is, and what is kept of one that is longer than the limit; `Limits` how long lines and fields may be.
//! `inside` is for the code alone.
#![tactic(auto)]

mod fields;
mod limits;
mod parts;

pub use fields::{
    FieldFault, append_field, append_number, append_number_field, decimal_value, end_of,
    fields_are_parts, next_field, number_in,
};
pub use limits::MAX_LINE_BYTES;
pub use parts::{Cutter, Parts, cut, cut_at, first_line};

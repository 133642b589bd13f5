//! Closed position sets (n-gram CPS): evidence that a table never halts.
//!
//! Three sorted lists in text: words that may stand on the left of a head, words that may stand on the right, and
//! local configurations that may stand around it. Where they hold the blank tape, and no step of the table leaves
//! them, the table never halts: from the blank tape, and from any other whose words are all among them. law_turing's
//! `NeverHalting` says so; `specs/Words` adds what a list is, `Lists` when three lists are a closed position set of a
//! table, and which a claim holds, `Kind` how they are written in a record and what they mean as a kind of
//! certificates, `Limits` how large they may be. `inside` is for the crate's own code.
//!
//! `Ngram` borrows its lists and judges them where they stand, without memory. `OwnedNgram` keeps the text of its
//! lists. `NgramFinder` searches lists; what it computes (`least_set`) isn't trusted but judged.
#![tactic(auto)]

mod closure;
mod fields;
mod finder;
mod laws;
mod least_set;
mod limits;
mod lists;
mod ngram;
mod words;

pub use finder::NgramFinder;
pub use laws::{list_texts_are_high, lists_are_tested, position_sets_are_a_kind};
pub use limits::{MAX_LIST_BYTES, MAX_WIDTH};
pub use ngram::{Ngram, OwnedNgram};

//! Records: a table with a certificate for it, their exact text, and their judgement.
//!
//! A record says of a table that it halts in so many steps, that it never halts, or that nothing is claimed.
//! `specs/Claim` says what each certificate claims, when that stands, and for which reasons a table never halts;
//! `specs/Kinds` what those of the code claim; `specs/Certified` when a record is certified and why it is refused.
//! `specs/Grammar` is the grammar of the text, `specs/Limits` how long it may be. How a claim is checked, read and
//! written is in the crate of its kind.
//!
//! Crates above cite what is so of all claims: that one halts, never does, or says nothing.
#![tactic(auto)]

mod certificate;
mod finder;
mod judgement;
mod limits;
mod record;

pub use certificate::{Certificate, OwnedCertificate};
pub use finder::{Decider, Finder, Finders, decide, decide_judged};
pub use judgement::{
    Decided, Judged, certified_claims_are_writable, judge, judge_on, record_texts_are_lines,
    records_parse_back, scores_leave_claims, standing_claims_are_true,
};
pub use kind_evidence::NoMemory;
pub use limits::MAX_RECORD_BYTES;
pub use record::{OwnedRecord, Record, RecordFault, append_table};

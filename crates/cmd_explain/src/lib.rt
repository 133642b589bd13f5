//! `bb explain`: what the check of a record has shown, in words.
//!
//! `specs/Explained` is what is said to a line: the answer of `bb check`, and behind it lines that only show; with
//! `--run`, how the run of a table without a certificate goes; with `--dot`, the automata of a record in the language
//! of Graphviz. `specs/Why` says that reasons for a refusal are told of what is refused, and of nothing that stands.
//! `specs/inside` is for the code.
//!
//! The words of each kind of certificates are in `halts_and_loops`, `closed_sets` and `rules`; lists of automata or
//! words are cells in `columns`.
#![tactic(auto)]

mod automata;
mod closed_sets;
mod columns;
mod explain;
mod forms;
mod halts_and_loops;
mod rules;
mod seen;

pub use automata::explain_dot_for;
pub use explain::{check_why_for, cmd_explain, refused_words, why_of, words_of, words_of_refusal};
pub use seen::explain_run_for;

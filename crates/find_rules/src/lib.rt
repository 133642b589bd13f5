//! The search for rules with induction (kind `R`).
//!
//! `RuleFinder` looks at a run from the blank tape where it goes to a new cell (`recorded_run`). Tapes there, of one
//! side and state, whose blocks grow by constants make a family (`family`). From its form the run goes on over blocks
//! (`proving`): over a block by a sweep, which is a rule with its proof by induction (`sweeps`), or else a copy is
//! taken out of it. What is done is written down as a script (`script`, over `tapes`, `block` and `words`), by
//! equations (`equations`), which at last have the tape be the family's next one (`arriving`).
//!
//! `NestedFinder` runs on blocks from the blank tape on (`runs`), by all rules that are known and fit (`rules`), with
//! each half in one shape. Of what comes again it guesses rules (`chain`) and families (`nested_family`), and proves
//! them by such runs (`records` writes what is found). For counters it first guesses what the table does to copies of a
//! word (`copies`), as rules that are proved together (`joint_rules`).
//!
//! Nothing is promised of what is found, nor of how long it takes: it is judged as any record is.
#![tactic(auto)]

mod arriving;
mod block;
mod chain;
mod copies;
mod equations;
mod family;
mod joint_rules;
mod limits;
mod nested_family;
mod nested_finder;
mod proving;
mod recorded_run;
mod records;
mod rule_finder;
mod rules;
mod runs;
mod script;
mod sweeps;
mod tapes;
mod words;

pub use nested_finder::NestedFinder;
pub use rule_finder::RuleFinder;

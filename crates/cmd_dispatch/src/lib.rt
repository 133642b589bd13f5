//! From the words of a command line to what they ask for, done: `obey`. `specs/Does` has all commands, `specs/Lines`
//! those of lines, `specs/Ledgers` those of ledgers, `specs/Nodes` those of trees.
#![tactic(auto)]

mod host;
mod ledger_commands;
mod lenient;
mod likely_lines;
mod line_commands;
mod manner;
mod node_commands;
mod obeying;
mod refusal_reasons;
mod streams;
mod walk_command;
mod work_command;

pub use host::{Commands, Environment, Host};
pub use obeying::obey;

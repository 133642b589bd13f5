//! The words of a command line, read by clap. What loads clap is slow to check, so the crate is as small as will do.
//!
//! `specs/Asked` says what the words ask for, what clap gives of an option, and how a command line ends that asks for
//! nothing. The ranges of the options' numbers are in `cmd_options`.
#![tactic(auto)]

mod arguments;
mod asking;
mod commands;
mod coordinating;
mod grammar;
mod help;
mod line_fault;
mod reading;
mod words;

pub use asking::{CommandLine, command_line, options};
pub use line_fault::LineFault;
pub use words::Source;

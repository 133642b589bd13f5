//! Machines that have a proof of their own, as a kind of evidence.
//!
//! No general kind settles eight tables of five states. Of seven the crate `law_machines` proves that they never halt,
//! each by a proof of its own; of the eighth, Skelet 1, `never_halts` sees it by following its run until it repeats. A
//! claim names no more than the table. `specs/Kind` says when it stands, and what kind of claims it is.
//!
//! Skelet 1 is `1RB1RD_1LC0RC_1RA1LD_0RE0LB_---1RC` (Georgiev 2003; Ligocki and Kropitz 2023 found that it repeats).
//! Its run is followed in words, not in cells. The half tape left of the head is a row of tokens: groups of the word x
//! (101), the word c (10), separators, which count visits from the right like the digits of a number, and ropes, rows
//! of groups that are handled as one. A rule says what a few steps of the machine make of the tokens at the head; a
//! visit goes from the right end into the tokens and back. A jump makes all visits at once that the separators bear,
//! and pays for them with words x; the glider, a row of tokens that moves on by itself, goes over any number of its
//! periods at once.
//!
//! Each rule is proved, and each test on which a jump rests is made when it is made: where one fails, nothing is seen
//! of the machine. `specs/inside` is for the crate's own code: `Tokens` says what ropes and tokens mean, and what
//! visits and jumps do, `Sections` what sections of the left half tape are, `Loop` what a period of the glider and a
//! round do.
#![tactic(auto)]

mod gather;
mod glider;
mod jump;
mod named;
mod rebuild;
mod ropes;
mod run;
mod stacks;
mod steps;
mod tokens;
mod visit;

pub use named::{Named, NamedFinder, is_skelet1, named_tables_are_a_kind, never_halts};
pub use run::{GivenUp, MainRun, TURNS};

//! What S(n) and Σ(n) are (`specs/BusyBeaver`), and that they are what the other crates speak of, for machines that are
//! the same (`specs/SameMachine`), as contracts of functions with empty bodies.
#![tactic(auto)]

mod laws;

pub use laws::{rado_is_greatest_steps, same_machine_halts, sigma_is_greatest_score};

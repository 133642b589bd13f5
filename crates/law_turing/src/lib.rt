//! What a two-symbol Turing machine does (`specs/Run`, `Halting`), and why it never halts (`NeverHalting`). To use a
//! law, call its function: its body is empty.
#![tactic(auto)]

mod laws;
mod never;

pub use laws::{
    earlier_times, exchange_keeps, extension_never, extension_runs, halting_ends, head_reach,
    mirror_keeps, mirror_sides, never_is_always, one_count, one_score, one_verdict, rado_of_one,
    run_continues, shifted_run, states_within, step_by_place, table_is_machine,
};
pub use never::{
    automata_never, backward_levels, backward_never, cycle_never, farthest_head, path_count,
    path_needs, path_pairs, paths_end, position_set_never, translated_never,
};

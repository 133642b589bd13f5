//! Tree normal form of two-symbol Turing machines: definitions in `specs/`, and their laws as contracts of functions
//! with empty bodies. To use a law, call its function.
//!
//! A machine in tree normal form uses its states in order. Where its run halts on an undefined pair and another pair
//! is undefined too, its children fill that pair: with a used state or the first unused one as the target, and to the
//! right where it is the first entry of all. The best of a machine is the greatest number of steps, or score, of all
//! its extensions, in tree normal form or not. `specs/Tree` says so of machines and of tables. The main law is that
//! the greatest over the tree is the best: `best_of_tree`, `best_of_table` and, from what is recorded of the tables,
//! `best_of_closed`.
#![tactic(auto)]

mod trees;

pub use trees::{
    best_by_children, best_by_list, best_of_closed, best_of_full, best_of_never, best_of_only_pair,
    best_of_table, best_of_tree, child_entries_listed, child_in_tree, child_is_table,
    child_keeps_order, children_listed, closed_tree, entry_fills, extensions_by_children,
    machine_has_table, one_parent, one_parent_table, one_table, one_true_verdict, rado_of_complete,
    rado_of_tables, rado_of_tree, tree_of_one_state, used_states,
};

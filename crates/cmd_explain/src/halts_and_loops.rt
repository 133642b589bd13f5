// What is told of tables that halt, of loops, of backward reasoning, and of tables with a proof of their own.
use crate::columns::{Interval, Quantity, ahead, side_behind};
use backward::Backward;
use kind_evidence::NoMemory;
use law_machines::ProvedMachine;
use loops::{Cycle, Translated};
use machine_text::{Dir, Pair, State, Sym, Table};
use run::{MAX_RUN_STEPS, Runner};
use std::alloc::Global;

/// The words for a depth of backward reasoning.
pub(crate) fn backward_words(alloc: Global, e: &Backward) -> Result<String, NoMemory> {
    let steps = Quantity::of(e.depth, "step");
    format!(in alloc;
        "No configuration whatever, be its tape as it may, comes to a pair without an entry after exactly {steps}: back \
         from these pairs, every path ends before.\nThe run makes {steps}, so a run that halted would have passed such \
         a configuration.\nSo it never halts."
    )
}

/// The words for a cycle.
pub(crate) fn cycle_words(alloc: Global, e: &Cycle) -> Result<String, NoMemory> {
    let from = e.i;
    let period = Interval::of(e.j.saturating_sub(e.i), "step");
    format!(in alloc;
        "From step {from} on, every {period} the configuration is the same: the state, the tape, and the place of the \
         head.\nSo it never halts."
    )
}

/// The words for a translated cycle. The table is run again to see how far it is shifted.
pub(crate) fn translated_words(
    alloc: Global,
    t: &Table,
    e: &Translated,
) -> Result<String, NoMemory> {
    let from = e.i;
    let period = Interval::of(e.j.saturating_sub(e.i), "step");
    let begin = head_at(alloc, t, e.i)?;
    let end = head_at(alloc, t, e.j)?;
    let shift = shift_words(alloc, e.side, begin.abs_diff(end))?;
    let behind = side_behind(e.side);
    format!(in alloc;
        "From step {from} on, every {period} the configuration is the same {shift}for cells on the {behind}, to which the \
         head never comes back.\nSo it never halts."
    )
}

// Where the head of a run is at a time.
fn head_at(alloc: Global, t: &Table, time: u64) -> Result<i64, NoMemory> {
    let mut runner = Runner::new(alloc, *t)?;
    runner.run_to(time.min(MAX_RUN_STEPS))?;
    Ok(runner.tape().head())
}

// How the configuration differs.
fn shift_words(alloc: Global, side: Dir, shift: u64) -> Result<String, NoMemory> {
    if shift == 0 {
        return String::from_str(alloc, "but ");
    }
    let cells = Quantity::of(shift, "cell");
    let ahead = ahead(side);
    format!(in alloc; "but for a shift of {cells} to the {ahead} and ")
}

/// The words for a table that halts in so many steps, with so many ones, on a pair.
pub(crate) fn halting_words(
    alloc: Global,
    steps: u64,
    ones: u64,
    pair: Pair,
) -> Result<String, NoMemory> {
    let steps = Quantity::of(steps, "step");
    let ones = Quantity::of(ones, "one");
    let state = letter_of_state(pair.state);
    let symbol = digit_of(pair.symbol);
    format!(in alloc;
        "It halts after {steps}, the halting step counted, with {ones} on its tape.\nIt halts in state {state} on the \
         symbol {symbol}, for which it has no entry."
    )
}

/// The letter of a state.
pub(crate) fn letter_of_state(state: State) -> &'static str {
    match state.0 {
        0 => "A",
        1 => "B",
        2 => "C",
        3 => "D",
        4 => "E",
        5 => "F",
        6 => "G",
        // No table has more states.
        _ => "",
    }
}

/// A symbol as it stands on the tape.
pub(crate) fn digit_of(symbol: Sym) -> &'static str {
    match symbol {
        Sym::Zero => "0",
        Sym::One => "1",
    }
}

const SKELET1: &str =
    "It is Skelet 1, a counter to the base 4 on a tape of words 101 and 10 that throws what it has counted to the \
     right.\nIts run was followed, by rules that are proved in crates/kind_named, until it was seen to repeat.\n\
     So it never halts.";

const COUNTER: &str =
    "a shift overflow counter, two binary counters on both sides of the head, of which the right one overflows into \
     the left one";

/// The words for a table with a proof of its own.
pub(crate) fn named_words(alloc: Global, t: &Table) -> Result<String, NoMemory> {
    match ProvedMachine::of(t) {
        Some(machine) => proved_words(alloc, machine),
        None => String::from_str(alloc, SKELET1),
    }
}

fn proved_words(alloc: Global, machine: ProvedMachine) -> Result<String, NoMemory> {
    let form = machine_form(machine);
    let file = proof_file(machine);
    format!(in alloc;
        "It is {machine}, which has a proof of its own: {form}.\nThe proof stands in {file}.\nSo it never halts."
    )
}

// What its configurations look like.
fn machine_form(machine: ProvedMachine) -> &'static str {
    match machine {
        ProvedMachine::Skelet10 => {
            "again and again its tape is 1 1 (11)^k 0^k 10, with the head in state E on the second one, for k = 1, 2, 3 and so on"
        }
        ProvedMachine::Skelet17 => {
            "its tape is a list of numbers, each a group of so many words 10, with a one between two groups; their \
             parities are the digits of a Gray code"
        }
        _ => COUNTER,
    }
}

// Where its proof stands.
fn proof_file(machine: ProvedMachine) -> &'static str {
    match machine {
        ProvedMachine::Skelet10 => "crates/law_machines/proofs/Skelet10.antt",
        ProvedMachine::Skelet15 => "crates/law_machines/proofs/Skelet15.antt",
        ProvedMachine::Skelet17 => "crates/law_machines/proofs/Skelet17.antt",
        ProvedMachine::Skelet26 => "crates/law_machines/proofs/Skelet26.antt",
        ProvedMachine::Skelet33 => "crates/law_machines/proofs/Skelet33.antt",
        ProvedMachine::Skelet34 => "crates/law_machines/proofs/Skelet34.antt",
        ProvedMachine::Skelet35 => "crates/law_machines/proofs/Skelet35.antt",
    }
}

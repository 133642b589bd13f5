// What the board of a node says.
use crate::records::say_verdict;
use crate::words::{Said, say_table, table_of, unread};
use ledger::{Board, Bound, Status, Tally};
use machine_text::Table;
use std::alloc::AllocError as NoMemory;

/// What a board says by the name of a call.
pub fn say_of(board: &Board, name: &str, rest: &str, said: &mut Said) -> Result<(), NoMemory> {
    match name {
        "status" => say_status(board.status(), said),
        "tally" => say_tally(board.tally(), said),
        "open" => say_open(board, said),
        _ => match table_of(rest) {
            Some(table) => say_of_table(board, name, &table, said),
            None => unread(said),
        },
    }
}

// What a board says of a table.
fn say_of_table(board: &Board, name: &str, t: &Table, said: &mut Said) -> Result<(), NoMemory> {
    match name {
        "verdict" => say_verdict(board.verdict(t), said),
        "bound" => say_bound(board.bound(t), said),
        "known" if board.is_open(t) => said.text("open"),
        "known" if board.is_recorded(t) => said.text("recorded"),
        "known" => said.text("no"),
        _ => said.text("there is no such call"),
    }
}

fn say_bound(bound: Bound, said: &mut Said) -> Result<(), NoMemory> {
    match bound {
        Bound::Unknown => said.text("unknown"),
        Bound::Open => said.text("open"),
        Bound::Closed { best, ones } => {
            said.text("closed")?;
            said.perhaps(best)?;
            said.perhaps(ones)
        }
    }
}

fn say_status(status: Status, said: &mut Said) -> Result<(), NoMemory> {
    match status {
        Status::Working { count } => {
            said.text("working")?;
            said.number(count)
        }
        Status::Holdouts { count } => {
            said.text("holdouts")?;
            said.number(count)
        }
        Status::Complete { best, ones } => {
            said.text("complete")?;
            said.perhaps(best)?;
            said.perhaps(ones)
        }
    }
}

fn say_tally(tally: Tally, said: &mut Said) -> Result<(), NoMemory> {
    said.number(tally.nodes)?;
    said.number(tally.halting)?;
    said.number(tally.never)?;
    said.number(tally.holdouts)?;
    said.number(tally.open_count)?;
    said.perhaps(tally.best)?;
    said.perhaps(tally.ones)
}

fn say_open(board: &Board, said: &mut Said) -> Result<(), NoMemory> {
    for table in board.open() {
        say_table(table, said)?;
    }
    Ok(())
}

//! Keeps the rows of `data/`, of calls of which no clause says what comes: what finders find, what both roles answer as
//! events come one after another, devices that fail, and that a tape in words is as a plain one. Each file begins with
//! the words of its calls.
//!
//! A file of rows has one on each line, `CALL = ANSWER`; lines that are empty or begin with `#` say nothing. The
//! program makes the calls in their order and stops at the first that is answered otherwise, also where a row can't be
//! read. A call that is refused memory is made again, so that the same has to come of it whichever one request is
//! refused: `stress/refused.py --calls` has `calls.rows` and `free.rows` kept so, and `stress/roles.py` hands events to
//! nodes by standard input.
#![tactic(auto)]

mod boards;
mod devices;
mod finding;
mod keeping;
mod nodes;
mod records;
mod tapes;
mod words;

use keeping::keep;
use std::io;
use std::process::ExitCode;
use words::Desk;

fn main(rt: HostRuntime) -> io::Result<ExitCode> {
    keep(&rt, &mut Desk::new(rt.alloc()))
}

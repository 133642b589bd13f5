// Rows that are kept, or told.
use crate::words::Said;
use std::alloc::{AllocError as NoMemory, Global};
use std::io::{self, BufRead, BufReader, Write};
use std::process::ExitCode;
use std::{env, fs};

// How often a call is made: one request is refused in all.
const TIMES: u32 = 3;

/// Makes the calls that rows name.
pub trait Caller {
    /// Makes a call, by its name and what stands behind that, and says what came of it. Where memory is refused, it is
    /// called again.
    fn call(&mut self, name: &str, rest: &str, said: &mut Said) -> Result<(), NoMemory>;
}

/// Keeps the rows of the files that the command line names, and prints how many each has; at the first row that isn't
/// kept it prints that and fails. With no file it makes the calls of standard input, a call a line, and prints what
/// comes of each.
pub fn keep<C: Caller>(rt: &HostRuntime, caller: &mut C) -> io::Result<ExitCode> {
    let mut said = room(rt.alloc())?;
    let names = names(rt)?;
    for name in &names {
        if !are_kept(rt, caller, &mut said, name.as_str())? {
            return Ok(ExitCode::FAILURE);
        }
    }
    if names.is_empty() {
        tell(rt, caller, &mut said)?;
    }
    Ok(ExitCode::SUCCESS)
}

// Room for what is said, where memory may be refused once.
fn room(alloc: Global) -> Result<Said, NoMemory> {
    match Said::new(alloc) {
        Ok(said) => Ok(said),
        Err(_) => Said::new(alloc),
    }
}

// The names of the command line, where memory may be refused once.
fn names(rt: &HostRuntime) -> io::Result<Vec<String>> {
    match words(rt) {
        Ok(names) => Ok(names),
        Err(_) => words(rt),
    }
}

// The words behind the program's own name.
fn words(rt: &HostRuntime) -> io::Result<Vec<String>> {
    let mut words = Vec::new(rt.alloc());
    for word in env::args(rt)?.skip(1) {
        words.push(word)?;
    }
    Ok(words)
}

// Whether all rows of a file are kept; prints how many there are, or the first that isn't.
fn are_kept<C: Caller>(
    rt: &HostRuntime,
    caller: &mut C,
    said: &mut Said,
    name: &str,
) -> io::Result<bool> {
    let text = match fs::read_to_string(rt, name) {
        Ok(text) => text,
        Err(_) => fs::read_to_string(rt, name)?,
    };
    let mut count = 0u64;
    for line in text.as_str().split('\n') {
        if line.is_empty() || line.starts_with('#') {
            continue;
        }
        if !is_kept(caller, said, line) {
            println!(rt; "{name}: {line}\nbut there came:")?;
            write_line(rt, said.as_bytes())?;
            return Ok(false);
        }
        count = count.saturating_add(1);
    }
    println!(rt; "{name}: {count} rows are kept")?;
    Ok(true)
}

// Makes the call of a row, and says whether its answer comes.
fn is_kept<C: Caller>(caller: &mut C, said: &mut Said, line: &str) -> bool {
    match line.split_once(" = ") {
        Some((call, answer)) => {
            make(caller, call, said);
            said.as_bytes() == answer.as_bytes()
        }
        None => {
            said.clear();
            let _ = said.text("no answer stands in the row");
            false
        }
    }
}

// Makes a call, again where it is refused memory.
fn make<C: Caller>(caller: &mut C, call: &str, said: &mut Said) {
    let (name, rest) = match call.split_once(' ') {
        Some(parts) => parts,
        None => (call, ""),
    };
    for _ in 0..TIMES {
        said.clear();
        if caller.call(name, rest, said).is_ok() {
            return;
        }
    }
    said.clear();
    let _ = said.text("refused memory");
}

// Makes the calls of standard input.
fn tell<C: Caller>(rt: &HostRuntime, caller: &mut C, said: &mut Said) -> io::Result<()> {
    for line in BufReader::new(rt.alloc(), rt.stdin())?.lines(rt.alloc()) {
        make(caller, line?.as_str(), said);
        write_line(rt, said.as_bytes())?;
    }
    Ok(())
}

fn write_line(rt: &HostRuntime, line: &[u8]) -> io::Result<()> {
    let mut out = rt.stdout();
    out.write_all(line)?;
    out.write_all(b"\n")
}

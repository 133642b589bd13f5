//! Keeps the rows of `data/`: commands over given streams and files in memory, by the functions that other programs
//! call, and what words ask for. A row is a case as `stress/cases.py` says it, of which a few lines are read here:
//! files, commands, standard input, both outputs, the exit status and what the words ask for. `stress/cases.py` plays
//! the same rows, and all others, with the built program.
#![tactic(auto)]

mod commands;
mod mem_files;
mod playing;

use playing::Playing;
use std::process::ExitCode;
use std::{fs, io};

fn main(rt: HostRuntime) -> io::Result<ExitCode> {
    let mut is_kept = true;
    for name in ["rows.case", "asked.case"] {
        let text = fs::read_to_string(&rt, name)?;
        let mut playing = Playing::new(rt.alloc(), name);
        is_kept &= playing.play(&text, &mut rt.stdout())?;
    }
    Ok(if is_kept {
        ExitCode::SUCCESS
    } else {
        ExitCode::FAILURE
    })
}

//! `bb`, a verified tool for the busy beaver problem: `main` hands the words of the command line, the streams and the
//! system's files and sockets to `obey` (`cmd_dispatch`). The words are read in `cmd_words`; what the commands do
//! stands in the other crates whose names begin with `cmd_`.
#![tactic(auto)]

mod built;

use built::SOURCES;
use cmd_dispatch::obey;
pub use cmd_json::report_json;
pub use cmd_ledgers::{cmd_carry, cmd_merge, cmd_report, cmd_retry, report};
pub use cmd_lines::{cmd_check, cmd_decide};
pub use cmd_nodes::{Run, cmd_coord, cmd_loop, cmd_run};
pub use cmd_options::Options;
pub use cmd_words::{LineFault, options};
use std::env;
use std::process::ExitCode;
use system::{Failures, System, Watch};

fn main(rt: HostRuntime) -> ExitCode {
    let failures = Failures::new(rt.alloc());
    let watch = Watch::new();
    let outcome = obey(
        rt.alloc(),
        words_of(&rt),
        SOURCES,
        &System::of(&rt, &failures, &watch),
        &mut rt.stdin(),
        &mut rt.stdout(),
        &mut rt.stderr(),
    );
    ExitCode::from(outcome.status())
}

// The words of the command line.
fn words_of(rt: &HostRuntime) -> Result<Vec<String>, LineFault> {
    let mut words = Vec::new(rt.alloc());
    for word in env::args(rt)? {
        words.push(word)?;
    }
    Ok(words)
}

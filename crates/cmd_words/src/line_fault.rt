// Why a command line asks for nothing, and the answer to it.
ghost use Rattle.cmd_words.specs.Asked.{EndsUnread};

use clap::Error;
use clap::error::ErrorKind;
use cmd_options::{Ended, NoMemory, Number, Outcome};
use std::alloc::{AllocFailed, Global};
use std::io::{self, Write};
use thiserror::Error as Fault;

/// Why there are no options: clap refused the words (also for a file where text is read on standard input) or was asked for
/// help or the version; a word is no number of the range where one belongs, but a path or another text; a file is given in
/// place of a line, or a record in several words; the one ledger of a stream was asked for; a coordinator would listen where anyone may come, has no tree, or
/// is to wait for the disk without a ledger; a word isn't text; clap let through what it should have refused (two sources of
/// lines, another command); known records would be read from standard input; a file that is written would be `-`; or memory was
/// refused.
#[derive(Debug, Drop, Fault)]
pub enum LineFault {
    #[error("{0}")]
    Refused(Error),
    #[error("{0}\nA number belongs there, and that is a path: a ledger is named as FILE where the command has one, \
else behind --ledger.\n")]
    PathForNumber(String),
    #[error("{0}")]
    NoNumber(String),
    #[error("{0}\nThe text is read on standard input: a file is given as in `bb tables < FILE`.\n")]
    FileForInput(Error),
    #[error("error: the arguments are tables or records, a line each: a file of them is given by --input FILE, or on standard input\n")]
    FileForLine,
    #[error("error: a record is one argument, in quotes, as '1RB1LB_1LA--- H 6 4'\n")]
    Unquoted,
    #[error("error: lines are arguments or in the file of --input, not both\n")]
    TwoSources,
    #[error("error: --ledger needs a folder: of standard input (`-`) no one ledger is written\n")]
    LedgerOfStream,
    #[error("refused 607: other computers can reach that address: --token FILE says who may come, --open lets anyone in\n")]
    OpenToAll,
    #[error("error: `bb coord` takes a number of states, 1 to 7, or, with --listen and without --ledger, the ledger of a part\n")]
    NoTree,
    #[error("error: --sync is of a ledger, which --ledger FILE names\n")]
    SyncOfNothing,
    #[error("error: a word of the command line isn't UTF-8\n")]
    NotText,
    #[error("error: no such command\n")]
    NoSuchCommand,
    #[error("error: a number is out of its range\n")]
    OutOfRange(Number),
    #[error("error: --known takes a file, not standard input (a file of that name is ./-)\n")]
    KnownFromInput,
    #[error("error: nothing is written to `-` (a file of that name is ./-)\n")]
    OutputToDash,
    #[error("refused memory\n")]
    NoMemory,
}

impl LineFault {
    /// Whether the version was asked for.
    pub fn is_version(&self) -> bool {
        match self {
            LineFault::Refused(refused) => refused.kind() == ErrorKind::DisplayVersion,
            _ => false,
        }
    }

    /// Writes it, help and the version to `answers`, all else to `faults`, and answers how the command line
    /// ended: `Accepted` after help or the version, `BadLine` after another fault, `NoMemory` or `Failed`
    /// where memory is refused or the stream fails.
    pub fn told<W: Write, E: Write>(self, alloc: Global, answers: &mut W, faults: &mut E) -> Outcome
        ensures { EndsUnread self result }
    {
        let is_answer = match &self {
            LineFault::Refused(refused) => !refused.use_stderr(),
            LineFault::PathForNumber(_)
            | LineFault::NoNumber(_)
            | LineFault::FileForInput(_)
            | LineFault::FileForLine
            | LineFault::Unquoted
            | LineFault::TwoSources
            | LineFault::LedgerOfStream
            | LineFault::OpenToAll
            | LineFault::NoTree
            | LineFault::SyncOfNothing
            | LineFault::NotText
            | LineFault::NoSuchCommand
            | LineFault::OutOfRange(_)
            | LineFault::KnownFromInput
            | LineFault::OutputToDash => false,
            LineFault::NoMemory => return Ended::NoMemory.told(faults),
        };
        let Ok(text) = format!(in alloc; "{self}") else {
            return Ended::NoMemory.told(faults);
        };
        let written = if is_answer {
            answers.write_all(text.as_bytes())
        } else {
            faults.write_all(text.as_bytes())
        };
        match written {
            Ok(()) if is_answer => Outcome::Accepted,
            Ok(()) => Outcome::BadLine,
            Err(_) => Ended::Stream.told(faults),
        }
    }
}

impl From<Error> for LineFault {
    fn from(fault: Error) -> LineFault {
        if fault.kind() == ErrorKind::OutOfMemory {
            LineFault::NoMemory
        } else {
            LineFault::Refused(fault)
        }
    }
}

// Reading the words fails where one isn't text, or for memory.
impl From<io::Error> for LineFault {
    fn from(fault: io::Error) -> LineFault {
        if fault.kind() == io::ErrorKind::OutOfMemory {
            LineFault::NoMemory
        } else {
            LineFault::NotText
        }
    }
}

impl From<NoMemory> for LineFault {
    fn from(_: NoMemory) -> LineFault {
        LineFault::NoMemory
    }
}

impl<T: Drop> From<AllocFailed<T>> for LineFault {
    fn from(_: AllocFailed<T>) -> LineFault {
        LineFault::NoMemory
    }
}

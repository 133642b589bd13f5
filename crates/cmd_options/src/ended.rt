// How a command ended, and what ends it before its work is done.
ghost use Rattle.std.specs.Prelude.{◌≡◌, ◌⊎◌};
ghost use Rattle.cmd_options.specs.Outcome.{status_of, ended_text, outcome_of};
ghost use Rattle.cmd_options.specs.Ends.{end_when, IsTold, EndsTold, end_by};

use crate::writing::write_in_full;
use std::alloc::AllocError as NoMemory;
use std::io::{self, ErrorKind, Write};

/// How a command ended, the gravest last: where several hold, the gravest stands.
#[derive(Clone, Copy, Debug, PartialEq, Eq, PartialOrd, Ord)]
pub enum Outcome {
    /// All was accepted.
    Accepted,
    /// A line was refused.
    Refused,
    /// The command line was refused.
    BadLine,
    /// Memory was refused.
    NoMemory,
    /// A stream or a file failed.
    Failed,
}

impl Outcome {
    /// The exit status.
    pub fn status(self) -> u8
        ensures { result ≡ status_of self }
    {
        match self {
            Outcome::Accepted => 0,
            Outcome::Refused => 1,
            Outcome::BadLine => 2,
            Outcome::NoMemory => 3,
            Outcome::Failed => 4,
        }
    }
}

/// What ends a command that reads before its work is done.
#[derive(Debug, Drop)]
pub enum Stopped {
    /// A read failed.
    Failed(io::Error),
    /// Anything else.
    Ended(Ended),
}

impl Stopped {
    /// What ends a command by it; `otherwise` where a read failed for which memory wasn't refused.
    pub fn ended(self, otherwise: Ended) -> Ended
        ensures { result ≡ end_when self otherwise }
    {
        match self {
            Stopped::Failed(fault) => ended_by(&fault, otherwise),
            Stopped::Ended(ended) => ended,
        }
    }
}

impl From<Ended> for Stopped {
    ghost use Rattle.std.specs.Prelude.{◌≡◌};
    ghost use Rattle.cmd_options.specs.declared.ended.Stopped.TheVariants.{Ended as EndedBy};

    ghost from_gives = { λ ended e. e ≡ EndedBy ended };

    fn from(ended: Ended) -> Stopped {
        Stopped::Ended(ended)
    }
}

impl From<NoMemory> for Stopped {
    ghost use Rattle.std.specs.Prelude.{◌≡◌};
    ghost use Rattle.cmd_options.specs.declared.ended.Ended.TheVariants.{NoMemory};
    ghost use Rattle.cmd_options.specs.declared.ended.Stopped.TheVariants.{Ended as EndedBy};

    ghost from_gives = { λ _ e. e ≡ EndedBy NoMemory };

    fn from(_: NoMemory) -> Stopped {
        Stopped::Ended(Ended::NoMemory)
    }
}

/// What ends a command before its work is done.
#[derive(Clone, Copy, Debug, PartialEq, Eq)]
pub enum Ended {
    /// A ledger has no header with a readable root.
    BadHeader,
    /// A ledger's root doesn't name its states in order, or is another than is asked for.
    WrongRoot,
    /// A table that would be decided in a trunk has a part already.
    HasPart,
    /// A ledger that is to be written anew is the trunk or a part of the folder that is read.
    OutInFolder,
    /// A stream failed.
    Stream,
    /// A ledger that is written couldn't be opened, read, cut or appended to.
    Ledger,
    /// Another file couldn't be opened or read.
    File,
    /// Another process writes the ledger that is to be written.
    Locked,
    /// Memory was refused.
    NoMemory,
}

impl Ended {
    // The line that says so, with its newline.
    fn line(self) -> &'static [u8]
        ensures { result.now ≡ ended_text self }
    {
        match self {
            Ended::BadHeader => b"refused 404\n",
            Ended::WrongRoot => b"refused 405\n",
            Ended::HasPart =>
                b"refused 407: a table that would be decided in the trunk has a part\n",
            Ended::OutInFolder => b"refused 408: OUT is a ledger of the folder\n",
            Ended::Stream => b"refused 603\n",
            Ended::Ledger => b"refused 604\n",
            Ended::File => b"refused 605\n",
            Ended::Locked => b"refused 606: another process writes the ledger\n",
            Ended::NoMemory => b"refused memory\n",
        }
    }

    /// How a command ends by it.
    pub fn outcome(self) -> Outcome
        ensures { result ≡ outcome_of self }
    {
        match self {
            Ended::BadHeader | Ended::WrongRoot | Ended::HasPart | Ended::OutInFolder => {
                Outcome::Refused
            }
            Ended::Stream | Ended::Ledger | Ended::File | Ended::Locked => Outcome::Failed,
            Ended::NoMemory => Outcome::NoMemory,
        }
    }

    /// Says why a command ended, on a line; where that can't be said either, a stream has failed.
    pub fn told<E: Write>(self, faults: &mut E) -> Outcome
        ensures { IsTold self (E.contents faults.old) (E.contents faults.new) result }
    {
        match write_in_full(self.line(), faults) {
            Ok(()) => self.outcome(),
            Err(_) => Outcome::Failed,
        }
    }
}

impl From<NoMemory> for Ended {
    ghost use Rattle.std.specs.Prelude.{◌≡◌};
    ghost use Rattle.cmd_options.specs.declared.ended.Ended.TheVariants.{NoMemory};

    ghost from_gives = { λ _ e. e ≡ NoMemory };

    fn from(_: NoMemory) -> Ended {
        Ended::NoMemory
    }
}

// A stream's fault.
impl From<io::Error> for Ended {
    ghost use Rattle.std.specs.Prelude.{◌≡◌};
    ghost use Rattle.cmd_options.specs.declared.ended.Ended.TheVariants.{Stream};

    ghost from_gives = { λ _ e. e ≡ Stream };

    fn from(_: io::Error) -> Ended {
        Ended::Stream
    }
}

/// What ends a command by an error: refused memory, or else what it is an error of.
#[tactic(auto, unfolding(crate::specs::Ends::end_by))]
pub fn ended_by(fault: &io::Error, otherwise: Ended) -> Ended
    ensures is { result ≡ end_by fault.now otherwise }
    ensures either { (result ≡ Ended.NoMemory) ⊎ (result ≡ otherwise) }
{
    match fault.kind() {
        ErrorKind::OutOfMemory => Ended::NoMemory,
        _ => otherwise,
    }
}

/// How a command ended; what ended it early is said on `faults`.
pub fn told<E: Write>(ended: Result<Outcome, Ended>, faults: &mut E) -> Outcome
    ensures { EndsTold ended (E.contents faults.old) (E.contents faults.new) result }
{
    match ended {
        Ok(outcome) => outcome,
        Err(ended) => ended.told(faults),
    }
}

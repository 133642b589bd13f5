// A ledger that is read when a coordinator starts, or none, and what ends a command by a fault of a node.
ghost use Rattle.std.specs.Prelude.{◌≡◌};
ghost use Rattle.cmd_nodes.specs.Faults.{ended_by_start, ended_by_turn, ended_in_memory};

use cmd_options::{Ended, ended_by};
use lease_core::StartFault;
use std::io::{self, Read};
use wire::{Fault, LedgerOut, NodeFault, TurnFault};

/// A ledger that nobody reads: it takes all that is appended and keeps nothing.
#[derive(Clone, Copy, Debug, Drop)]
pub struct NoLedger;

impl LedgerOut for NoLedger {
    ghost use Rattle.std.specs.Prelude.{None};

    ghost text = { λ l. None };

    ghost failures = { λ l. 0 };

    fn cut(&mut self, _len: u64) -> Result<(), Fault> {
        Ok(())
    }

    fn append(&mut self, bytes: &[u8]) -> Result<usize, Fault> {
        Ok(bytes.len())
    }
}

/// A ledger, or none: that takes all that is appended, and keeps nothing.
#[derive(Drop)]
pub enum MaybeLedger<L> {
    /// There is none.
    Nothing,
    /// There is this one.
    Kept(L),
}

impl<L: LedgerOut> LedgerOut for MaybeLedger<L> {
    ghost use Rattle.cmd_nodes.specs.Served.{failures_kept, text_kept};

    ghost text = { text_kept L.text };

    ghost failures = { failures_kept L.failures };

    fn cut(&mut self, len: u64) -> Result<(), Fault> {
        match self {
            MaybeLedger::Nothing => Ok(()),
            MaybeLedger::Kept(ledger) => ledger.cut(len),
        }
    }

    fn append(&mut self, bytes: &[u8]) -> Result<usize, Fault> {
        match self {
            MaybeLedger::Nothing => Ok(bytes.len()),
            MaybeLedger::Kept(ledger) => ledger.append(bytes),
        }
    }
}

// A reader of a ledger, and what ends a command where a read of it failed: a start says of its ledger's fault no more
// than that there is one.
#[derive(Drop)]
pub(crate) struct HeldLedger<F> {
    reader: F,
    fault: Option<Ended>,
}

impl<F: Read> HeldLedger<F> {
    pub fn of(reader: F) -> HeldLedger<F>
        ensures { result.reader ≡ reader }
    {
        HeldLedger {
            reader,
            fault: None,
        }
    }

    // What ends the command, if a read failed.
    pub fn fault(&self) -> Option<Ended> {
        self.fault
    }
}

impl<F: Read> Read for HeldLedger<F> {
    ghost remaining = { λ held. F.remaining held.reader };

    fn read(&mut self, buf: &mut [u8]) -> io::Result<usize> {
        let answer = self.reader.read(buf);
        if let Err(fault) = &answer {
            self.fault = Some(ended_by(fault, Ended::Ledger));
        }
        answer
    }
}

/// What ends a command where the start of a node is refused.
pub fn by_start(fault: StartFault) -> Ended
    ensures { result ≡ ended_by_start fault }
{
    match fault {
        StartFault::BadHeader => Ended::BadHeader,
        StartFault::WrongRoot => Ended::WrongRoot,
        StartFault::LedgerFault => Ended::Ledger,
        StartFault::NoMemory => Ended::NoMemory,
    }
}

// A turn isn't fulfilled. A node is stopped where its ledger has failed.
pub(crate) fn by_turn(fault: TurnFault) -> Ended
    ensures { result ≡ ended_by_turn fault }
{
    match fault {
        TurnFault::LinkFault => Ended::Stream,
        TurnFault::LedgerFault | TurnFault::Node(NodeFault::Stopped) => Ended::Ledger,
        TurnFault::Node(NodeFault::NoMemory) | TurnFault::NoMemory => Ended::NoMemory,
    }
}

// What ends a node over a link in memory, which fails where memory is refused.
pub(crate) fn in_memory(fault: TurnFault) -> Ended
    ensures { result ≡ ended_in_memory fault }
{
    match fault {
        TurnFault::LinkFault => Ended::NoMemory,
        fault => by_turn(fault),
    }
}

// How a node starts from its ledger, and why it doesn't.
ghost use Rattle.std.specs.Prelude.{◌≡◌, ◌≤◌, ℕ, List, [], length, IfOk, Ok, Err, OnErr};
ghost use Rattle.lease_core.specs.Starts.{cut_of, Begins, header_due, kept_bytes};
ghost use Rattle.machine_text.specs.Terms.{state_limit, Packed, empty_table};
ghost use Rattle.ledger.specs.Terms.{LoadGives, StandsAfter};
ghost use Rattle.lease_core.specs.inside.Begun.{BeginsSo, BeginsFrom};
ghost use Rattle.lease_core.specs.WorkerState.{Loads};

use kind_evidence::NoMemory;
use law_tree::rado_of_tables;
use leases::LeasedBoard;
use ledger::{Board, Left, LoadFault, Loader, ReadStop, append_header, peek_root};
use machine_text::Table;
use std::alloc::Global;
use std::error::Error;
use std::fmt;
use std::io::Read;
use tnf::root;
use wire::{Note, Out};

/// To how many bytes a ledger is cut: to those that are kept, where not all are.
pub fn cut_of(left: &Left) -> Option<u64>
    ensures { result ≡ cut_of left.now }
{
    match left {
        Left::Nothing => None,
        Left::From { kept, .. } => Some(*kept),
    }
}

/// Why a node wasn't started. It is stopped.
#[derive(Clone, Copy, Debug, PartialEq, Eq)]
pub enum StartFault {
    /// The first line of its ledger is no header with a table that reads.
    BadHeader,
    /// The ledger's header is of another root, or of a table that doesn't name its states in order.
    WrongRoot,
    /// The ledger couldn't be read.
    LedgerFault,
    /// Memory was refused.
    NoMemory,
}

impl StartFault {
    ghost use Rattle.lease_core.specs.Starts.{start_fault_number};

    /// The refusal number: 404, 405, 604; none where memory was refused.
    pub fn number(&self) -> Option<u16>
        ensures { result ≡ start_fault_number self.now }
    {
        match self {
            StartFault::BadHeader => Some(404),
            StartFault::WrongRoot => Some(405),
            StartFault::LedgerFault => Some(604),
            StartFault::NoMemory => None,
        }
    }
}

impl fmt::Display for StartFault {
    ghost use Rattle.std.specs.Prelude.{Some};
    ghost use Rattle.lease_core.specs.Starts.{start_fault_text};

    ghost output = { λ fault. Some (start_fault_text fault) };

    fn fmt<W: fmt::Write>(&self, f: &mut fmt::Formatter<W>) -> fmt::Result {
        match self {
            StartFault::BadHeader => f.write_str("the ledger has no header with a table"),
            StartFault::WrongRoot => f.write_str("the ledger is of another root"),
            StartFault::LedgerFault => f.write_str("the ledger can't be read"),
            StartFault::NoMemory => f.write_str("out of memory"),
        }
    }
}

impl Error for StartFault {}

impl From<LoadFault> for StartFault {
    ghost use Rattle.lease_core.specs.Starts.{start_fault_of};

    ghost from_gives = { λ f e. e ≡ start_fault_of f };

    fn from(fault: LoadFault) -> StartFault {
        match fault {
            LoadFault::BadHeader => StartFault::BadHeader,
            LoadFault::WrongRoot => StartFault::WrongRoot,
            LoadFault::NoMemory => StartFault::NoMemory,
        }
    }
}

impl From<ReadStop> for StartFault {
    ghost use Rattle.lease_core.specs.Starts.{start_fault_of_stop};

    ghost from_gives = { λ stop e. e ≡ start_fault_of_stop stop };

    fn from(stop: ReadStop) -> StartFault {
        match stop {
            ReadStop::Failed(_) => StartFault::LedgerFault,
            ReadStop::NoMemory => StartFault::NoMemory,
        }
    }
}

impl From<NoMemory> for StartFault {
    ghost use Rattle.lease_core.specs.declared.starting.StartFault.TheVariants.{NoMemory};

    ghost from_gives = { λ _ e. e ≡ NoMemory };

    fn from(_: NoMemory) -> StartFault {
        StartFault::NoMemory
    }
}

// The board of a ledger's bytes, without leases, and the answer of the start.
pub(crate) fn begun(alloc: Global, n: u8, ledger: &[u8]) -> Result<(LeasedBoard, Out), StartFault>
    requires { (1 ≤ n) × (n ≤ state_limit) }
    ensures { BeginsSo n ledger.now result }
{
    let mut loader = empty_loader(alloc, n);
    match loader.feed(ledger) {
        Ok(()) => begun_by(alloc, loader),
        Err(_) => Err(StartFault::NoMemory),
    }
}

// Begins from what a reader gives of a ledger, no more than so many bytes.
pub(crate) fn begun_from<R: Read>(
    alloc: Global,
    n: u8,
    from: &mut R,
    limit: u64,
) -> Result<(LeasedBoard, Out), StartFault>
    requires { (1 ≤ n) × (n ≤ state_limit) }
    ensures { BeginsFrom n (R.remaining from.old) limit (R.remaining from.new) result }
{
    let mut loader = empty_loader(alloc, n);
    match loader.feed_from(from, limit) {
        Ok(()) => begun_by(alloc, loader),
        Err(stop) => Err(StartFault::from(stop)),
    }
}

// A loader of the tree of n states, before the first byte.
fn empty_loader(alloc: Global, n: u8) -> Loader
    requires { (1 ≤ n) × (n ≤ state_limit) }
    ensures root { result.root ≡ empty_table n }
    ensures stands { StandsAfter result [] }
{
    rado_of_tables();
    Loader::new(alloc, root(n))
}

// Begins from what a loader was fed.
fn begun_by(alloc: Global, loader: Loader) -> Result<(LeasedBoard, Out), StartFault>
    ensures { (n : ℕ) (text : List ℕ) → loader.root ≡ empty_table n → StandsAfter loader text → BeginsSo n text result }
{
    let bytes = loader.bytes();
    match loader.finish() {
        Ok((board, left)) => {
            let out = first_answer(alloc, board.root(), bytes, &left)?;
            let held = LeasedBoard::new(alloc, board)?;
            Ok((held, out))
        }
        Err(fault) => Err(StartFault::from(fault)),
    }
}

// The answer of a start from so many bytes: a cut where not all were kept, a header where none were.
fn first_answer(alloc: Global, root: &Table, bytes: u64, left: &Left) -> Result<Out, NoMemory>
    ensures { IfOk result (λ out. (text : List ℕ) → bytes ≡ length text → Begins root.now text left.now out) }
{
    let cut = cut_of(left);
    let mut append = Vec::new(alloc);
    if cut.unwrap_or(bytes) == 0 {
        append_header(root, &mut append)?;
    }
    Ok(Out {
        cut,
        append,
        frames: Vec::new(alloc),
        note: Note::Quiet,
    })
}

// The board as which a ledger reads, if it has a root, and what of the ledger isn't kept.
pub(crate) fn loaded(alloc: Global, ledger: &[u8]) -> Result<(Option<Board>, Left), StartFault>
    ensures { Loads ledger.now result }
{
    match peek_root(ledger)? {
        Some(root) => {
            let (board, left) = Board::load(alloc, root, ledger)?;
            Ok((Some(board), left))
        }
        None => Ok((None, Left::of_torn(ledger))),
    }
}

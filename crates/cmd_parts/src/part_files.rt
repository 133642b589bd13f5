// Where the ledgers of a trunk and its parts are read, and where the one ledger of them goes.
ghost use Rattle.std.specs.Prelude.{◌≡◌, List, ℕ, IfOk, IfSome, ◌≤◌, OnOk, drop, length};
ghost use Rattle.cmd_parts.specs.Join.{IsMetIn, IsReadAt, record_lines};
ghost use Rattle.ledger.specs.declared.loading.Left.{Left as LeftOver};
ghost use Rattle.cmd_parts.specs.inside.Joining.{IsFound, IsPicked};

use crate::part_path;
use cmd_ledgers::load_from;
use cmd_options::{Ended, Stopped, ended_by};
use files::{Files, Opened};
use kind_evidence::NoMemory;
use ledger::{Board, append_header};
use machine_text::Table;
use std::alloc::Global;
use std::io::{ErrorKind, Read};
use wire::{LedgerOut, append_all};

/// Where the ledgers of a trunk and its parts are read, each by its path.
pub trait PartLedgers {
    ghost use Rattle.std.specs.Prelude.{ℕ, Bool, IfOk, List, Option, option_map};

    type File: Read + Drop;

    /// What may be found at a path: nothing; or a ledger, with what its reader has, where that is known, and its length.
    ghost finds: { Self → List ℕ → Option (Option (List ℕ) × ℕ) → Type 0 };

    /// What may be told of a path: whether the ledger there is the one that is to be written.
    ghost tells_written: { Self → List ℕ → Bool → Type 0 };

    /// Opens the ledger at a path; none where nothing is there. Errors: `File` where it can't be opened, `NoMemory`.
    fn open(&self, path: &str) -> Result<Option<Opened<Self::File>>, Ended>
        ensures { IfOk result (λ found. finds self.now path.now (option_map (λ file.
            (Self.File.remaining file.reader, file.length)) found)) };

    /// Whether a folder stands at a path.
    fn is_folder(&self, path: &str) -> bool;

    /// Whether the ledger at a path is the one that is to be written, or would be lost where that is made. Errors: a link there
    /// that can't be followed, refused memory.
    fn is_written(&self, path: &str) -> Result<bool, Ended>
        ensures { IfOk result (tells_written self.now path.now) };
}

/// The files of a host.
#[derive(Drop)]
pub struct PartsAt<'a, H> {
    pub host: &'a H,
    /// The one ledger that is written, if one is.
    pub written: Option<Written<'a>>,
}

/// A ledger that is written while others are read.
#[derive(Clone, Copy, Debug)]
pub struct Written<'a> {
    /// The path of the ledger.
    pub out: &'a str,
    /// The name that is removed where it is made, if one is.
    pub removed: Option<&'a str>,
}

impl<H: Files> PartLedgers for PartsAt<'_, H> {
    ghost use Rattle.std.specs.Prelude.{◌≡◌, IfSome, false};
    ghost use Rattle.cmd_parts.specs.AtPaths.{finds_at};

    type File = H::Reader;

    ghost finds = { λ parts. finds_at (H.holds parts.host.now) };

    // What isn't the ledger that is written doesn't stand at its path.
    ghost tells_written = { λ parts path told. told ≡ false
        → IfSome parts.written (λ written. H.tells_same parts.host.now written.out.now path false) };

    fn open(&self, path: &str) -> Result<Option<Opened<H::Reader>>, Ended> {
        match self.host.open_to_end(path) {
            Ok(file) => Ok(Some(file)),
            Err(fault) if fault.kind() == ErrorKind::NotFound => Ok(None),
            Err(fault) => Err(ended_by(&fault, Ended::File)),
        }
    }

    fn is_folder(&self, path: &str) -> bool {
        self.host.is_folder(path)
    }

    fn is_written(&self, path: &str) -> Result<bool, Ended> {
        let Some(Written { out, removed }) = self.written else {
            return Ok(false);
        };
        if self.host.is_same(out, path) {
            return Ok(true);
        }
        match removed {
            Some(name) => is_lost(self.host, path, name),
            None => Ok(false),
        }
    }
}

// Whether the ledger at a path would be lost with a name.
fn is_lost<H: Files>(host: &H, path: &str, name: &str) -> Result<bool, Ended> {
    match host.leads_to(path, name) {
        Ok(told) => Ok(told),
        Err(fault) => Err(ended_by(&fault, Ended::File)),
    }
}

// The board of the ledger at a path, which has to be there.
pub(crate) fn board_at<S: PartLedgers>(alloc: Global, parts: &S, path: &str) -> Result<Board, Ended>
    ensures { IfOk result (λ b. (left : LeftOver) × IsReadAt (S.finds parts.now) path.now b left) }
{
    match parts.open(path)? {
        Some(mut file) => match load_from(alloc, &mut file.reader, file.length) {
            Ok((board, _)) => Ok(board),
            Err(Stopped::Failed(fault)) => Err(ended_by(&fault, Ended::File)),
            Err(Stopped::Ended(ended)) => Err(ended),
        },
        None => Err(Ended::File),
    }
}

// The part of a root in a folder, where one is there and has that root.
pub(crate) fn part_at<S: PartLedgers>(
    alloc: Global,
    parts: &S,
    folder: &str,
    root: &Table,
) -> Result<Option<Board>, Ended>
    ensures { IfOk result (IsFound (S.finds parts.now) folder.now root.now) }
{
    let path = part_path(alloc, folder, root)?;
    match parts.open(&path)? {
        Some(file) => part_in(alloc, file, root),
        None => Ok(None),
    }
}

// The part of a root that an opened ledger holds.
fn part_in<F: Read + Drop>(
    alloc: Global,
    mut file: Opened<F>,
    root: &Table,
) -> Result<Option<Board>, Ended>
    ensures met { IfOk result (λ found. (path : List ℕ) → (wrong : List ℕ)
        × IsMetIn (F.remaining file.reader) file.length path root.now found wrong) }
    ensures root { IfOk result (λ found. IfSome found (λ part. part.root ≡ root.now)) }
{
    match load_from(alloc, &mut file.reader, file.length) {
        Ok((part, _left)) => Ok(with_root(part, root)),
        Err(Stopped::Ended(Ended::BadHeader)) => Ok(None),
        Err(Stopped::Ended(Ended::WrongRoot)) => Ok(None),
        Err(Stopped::Ended(ended)) => Err(ended),
        Err(Stopped::Failed(fault)) => Err(ended_by(&fault, Ended::File)),
    }
}

// A board, where it has this root.
fn with_root(part: Board, root: &Table) -> Option<Board>
    ensures { IsPicked part root.now result }
{
    if *part.root() == *root {
        Some(part)
    } else {
        None
    }
}

/// Where the one ledger of a trunk and its parts goes, board for board.
pub trait Collector {
    ghost use Rattle.std.specs.Prelude.{◌≡◌, ◌++◌, List, ℕ, Option, OnOk};
    ghost use Rattle.cert.specs.Terms.{Recorded};
    ghost use Rattle.ledger.specs.Terms.{ledger_text};
    ghost use Rattle.wire.specs.Terms.{grown};
    ghost use Rattle.cmd_parts.specs.Join.{record_lines};

    /// The ledger's text, where it is known.
    ghost text: { Self → Option (List ℕ) };

    /// Which records it may have counted.
    ghost counts: { Self → List Recorded → Type 0 } = { λ collector rs. Unit {0} };

    /// Begins with the ledger of the trunk. Errors: `NoMemory`, or `Ledger` where it fails.
    fn begin(&mut self, alloc: Global, trunk: &Board) -> Result<(), Ended>
        ensures ok { OnOk result (text self.new ≡ grown (text self.old)
            (ledger_text trunk.now.root trunk.now.records)) }
        ensures counts { OnOk result (counts self.new trunk.now.records) };

    /// Adds the lines of a part. Errors: the same.
    fn add(&mut self, alloc: Global, part: &Board) -> Result<(), Ended>
        ensures ok { OnOk result (text self.new ≡ grown (text self.old) (record_lines part.now.records)) }
        ensures counts { OnOk result ((rs : List Recorded) → counts self.old rs
            → counts self.new (rs ++ part.now.records)) };
}

/// There is no such ledger.
#[derive(Clone, Copy, Debug, Drop)]
pub struct Nowhere;

impl Collector for Nowhere {
    ghost use Rattle.std.specs.Prelude.{None};

    ghost text = { λ nowhere. None };

    fn begin(&mut self, _alloc: Global, _trunk: &Board) -> Result<(), Ended> {
        Ok(())
    }

    fn add(&mut self, _alloc: Global, _part: &Board) -> Result<(), Ended> {
        Ok(())
    }
}

/// The ledger to which all is appended.
#[derive(Drop)]
pub struct OneLedger<L> {
    pub ledger: L,
}

impl<L: LedgerOut> Collector for OneLedger<L> {
    ghost text = { λ one. L.text one.ledger };

    fn begin(&mut self, alloc: Global, trunk: &Board) -> Result<(), Ended> {
        let mut text = Vec::new(alloc);
        trunk.write_ledger(&mut text)?;
        match append_all(&mut self.ledger, &text) {
            Ok(()) => Ok(()),
            Err(_) => Err(Ended::Ledger),
        }
    }

    fn add(&mut self, alloc: Global, part: &Board) -> Result<(), Ended> {
        let (text, header) = text_and_header(alloc, part)?;
        match append_all(&mut self.ledger, &text[header..]) {
            Ok(()) => Ok(()),
            Err(_) => Err(Ended::Ledger),
        }
    }
}

// A board's ledger, and how long its header is.
fn text_and_header(alloc: Global, board: &Board) -> Result<(Vec<u8>, usize), NoMemory>
    ensures within { IfOk result (λ made. made.1 ≤ length made.0.items) }
    ensures lines { IfOk result (λ made. drop made.1 made.0.items ≡ record_lines board.now.records) }
{
    let mut text = Vec::new(alloc);
    append_header(board.root(), &mut text)?;
    let header = text.as_slice().len();
    text.clear();
    board.write_ledger(&mut text)?;
    Ok((text, header))
}

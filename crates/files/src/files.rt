// Where the files stand that a command line names, and to whom it is told how far a tree is settled.
ghost use Rattle.std.specs.Prelude.{IfOk, Ok, Some};

use crate::opened::Opened;
use cmd_options::{Ended, LedgerFile};
use ledger::{Board, Tally};
use machine_text::Table;
use std::alloc::AllocError as NoMemory;
use std::io::{self, Read};
use wire::LedgerOut;

/// What is told, record for record, how far a tree is settled or walked. Nothing hangs on what is told, and no contract speaks of it.
pub trait Progress {
    /// A board is so far.
    fn tell(&mut self, board: &Board);

    /// A walk of a root's tree is so far: these tables are ahead, and so many there are of each kind.
    fn tell_walk(&mut self, _root: &Table, _ahead: &[Table], _tally: &Tally) {}

    /// Whether lines that are gathered are to be written now, though they are few, since so much time has passed that a
    /// process that is killed would lose much with them. Without a clock it never is.
    fn is_due(&mut self) -> bool {
        false
    }

    /// So many workers are connected.
    fn count_workers(&mut self, _workers: usize) {}
}

/// Where the files stand that a command line names.
///
/// What is written goes into a handle, which has what is known of its text; it comes to stand at a path where the handle
/// is put there or closed. So nothing can change at any other path.
pub trait Files {
    ghost use Rattle.std.specs.Prelude.{◌≡◌, Bool, List, ℕ, Option, Result, IfOk, OnOk, OnErr, IfErr};
    ghost use Rattle.std.specs.IoError.{error_kind};
    ghost use Rattle.std.specs.declared.io.ErrorKind.TheVariants.{NotFound};
    ghost use Rattle.cmd_options.specs.declared.ended.Ended.{Ended};
    ghost use Rattle.files.specs.Paths.{Known, IsBlank, IsKept, IsKeptBut, IsLedgerAt, IsMissing, IsOpenedOn, IsPut, IsToldStill};

    /// What is known to stand at a path.
    ghost holds: { Self → List ℕ → Known };

    /// What may be told of two paths: whether they are those of one file.
    ghost tells_same: { Self → List ℕ → List ℕ → Bool → Type 0 };

    /// What may come of locking the ledger at a path: it is locked by this, or another process has it locked; or it
    /// can't be locked, which ends a command so.
    ghost locks: { List ℕ → Result (Option Self.Lock) Ended → Type 0 };

    /// What a file is read by.
    type Reader: Read + Drop;

    /// Opens the file at a path, to be read from its first byte as far as it goes now; a device has nothing to be read.
    fn open(&self, path: &str) -> io::Result<Opened<Self::Reader>>
        ensures ok { IfOk result (λ o. IsOpenedOn (holds self.now path.now) (Self.Reader.remaining o.reader) o.length) }
        ensures missing { IfErr result (λ e. error_kind e ≡ NotFound → IsMissing (holds self.now path.now)) };

    /// Opens what is only read, which is no plain file perhaps: whatever comes until its end.
    fn open_to_end(&self, path: &str) -> io::Result<Opened<Self::Reader>>
        ensures ok { IfOk result (λ o. IsOpenedOn (holds self.now path.now) (Self.Reader.remaining o.reader) o.length) }
        ensures missing { IfErr result (λ e. error_kind e ≡ NotFound → IsMissing (holds self.now path.now)) };

    /// Whether a folder stands at a path.
    fn is_folder(&self, path: &str) -> bool;

    /// Whether two paths are those of one file.
    fn is_same(&self, one: &str, other: &str) -> bool
        ensures { tells_same self.now one.now other.now result };

    /// Whether a symbolic link at a path leads to a name. Errors: links that can't be followed to an end, refused memory.
    fn leads_to(&self, path: &str, name: &str) -> io::Result<bool>;

    /// A ledger that is cut and appended to where it stands.
    type Ledger: LedgerOut + Drop;

    /// Opens the ledger at a path, which is created where it isn't there, once it is written to.
    fn ledger(&mut self, file: &LedgerFile<'_>) -> io::Result<Self::Ledger>
        ensures ok { IfOk result (λ l. IsLedgerAt (holds self.old file.now.path.now) (Self.Ledger.text l)) }
        ensures others { OnOk result (IsKeptBut (tells_same self.old) file.now.path.now (holds self.old)
            (holds self.new)) }
        ensures tells { IsToldStill (tells_same self.old) (tells_same self.new) }
        ensures err { OnErr result (IsKept (holds self.old) (holds self.new)) };

    /// Lets the ledger go that was opened at a path.
    fn close(&mut self, path: &str, ledger: Self::Ledger)
        ensures tells { IsToldStill (tells_same self.old) (tells_same self.new) }
        ensures put { IsPut (tells_same self.old) path.now (Self.Ledger.text ledger) (holds self.old)
            (holds self.new) };

    /// Makes sure that there is a file at a path: where there is none, an empty one.
    fn create(&mut self, path: &str) -> io::Result<()>
        ensures ok { OnOk result ((text : Option (List ℕ)) × IsLedgerAt (holds self.old path.now) text
            × IsPut (tells_same self.old) path.now text (holds self.old) (holds self.new)) }
        ensures tells { IsToldStill (tells_same self.old) (tells_same self.new) }
        ensures err { OnErr result (IsKept (holds self.old) (holds self.new)) };

    /// A file that is made, and stands nowhere yet.
    type Made: LedgerOut + Drop;

    /// Begins a file that is to be put at a path, while those at these paths are read. It can't be written to where a file
    /// that isn't empty, or a link, is at the path already, unless it is to replace that.
    fn make(&self, file: &LedgerFile<'_>, replace: bool, read: &[&str]) -> io::Result<Self::Made>
        ensures { IfOk result (λ made. IsBlank (Self.Made.text made)) };

    /// The name that is removed where a file is made, if one is.
    fn removed_by(&self, made: &Self::Made) -> Result<Option<String>, NoMemory>;

    /// Puts a file that was made at a path, in place of what stands there, at once; where that was asked for, once it is on
    /// the disk.
    fn put(&mut self, made: Self::Made, path: &str) -> io::Result<()>
        ensures ok { OnOk result (IsPut (tells_same self.old) path.now (Self.Made.text made) (holds self.old)
            (holds self.new)) }
        ensures tells { IsToldStill (tells_same self.old) (tells_same self.new) }
        ensures err { OnErr result (IsKept (holds self.old) (holds self.new)) };

    /// By what a ledger is locked. It is locked until this is let go; a lock of nothing comes where nothing can be locked.
    type Lock: Drop;

    /// Locks the ledger file at a path without waiting; none where another process has it locked. Where no plain file is
    /// there that can be written, or its file system knows no locks, there is nothing to lock.
    fn lock(&self, path: &str) -> Result<Option<Self::Lock>, Ended>
        ensures { locks path.now result };

    /// Makes a folder where there is none at the path.
    fn make_folder(&mut self, path: &str) -> io::Result<()>
        ensures kept { IsKept (holds self.old) (holds self.new) }
        ensures tells { IsToldStill (tells_same self.old) (tells_same self.new) };

    /// Remembers that a command fails by the file at a path, and why.
    fn remember(&self, _path: &str, _why: &'static str) {}

    /// Whether standard error is shown on a terminal.
    fn tells_terminal(&self) -> bool {
        false
    }
}

/// Locks a ledger for writing; `Locked` where another process has it locked.
pub fn lock_ledger<H: Files>(host: &H, path: &str) -> Result<H::Lock, Ended>
    ensures { IfOk result (λ lock. H.locks path.now (Ok (Some lock))) }
{
    match host.lock(path)? {
        Some(lock) => Ok(lock),
        None => Err(Ended::Locked),
    }
}

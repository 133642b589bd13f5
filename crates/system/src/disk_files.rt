// The disk as commands have it (`Files`): files that are opened, locked, made and put at their paths.
use crate::disk::{Disk, Place};
use crate::disk_ledger::DiskLedger;
use crate::watched_files::WatchedFile;
use cmd_options::{Ended, LedgerFile, ended_by};
use files::{Files, Opened};
use std::alloc::AllocError as NoMemory;
use std::fs::{self, OpenFile, TryLockError};
use std::io::{self, ErrorKind, IsTerminal};

/// By what a ledger file is locked: the open file, or nothing where there is nothing to lock.
#[derive(Drop)]
pub struct FileLock {
    file: Option<fs::File>,
}

/// What stands at a path isn't known: other processes write there too.
impl<'a> Files for Disk<'a> {
    ghost use Rattle.std.specs.Prelude.{⊤};
    ghost use Rattle.files.specs.Terms.{Unknown};

    ghost holds = { λ files path. Unknown };

    ghost tells_same = { λ files one other told. ⊤ };

    ghost locks = { λ path locked. ⊤ };

    type Reader = WatchedFile<'a>;

    fn open(&self, path: &str) -> io::Result<Opened<WatchedFile<'a>>> {
        let reader = self.opened(path)?;
        let length = reader.metadata()?.len();
        Ok(Opened { reader, length })
    }

    fn open_to_end(&self, path: &str) -> io::Result<Opened<WatchedFile<'a>>> {
        let reader = self.opened(path)?;
        let found = reader.metadata()?;
        // What is no plain file says nothing of how much comes.
        let length = if found.is_file() {
            found.len()
        } else {
            u64::MAX
        };
        Ok(Opened { reader, length })
    }

    fn is_folder(&self, path: &str) -> bool {
        fs::metadata(self.rt, path).is_ok_and(|found| found.is_dir())
    }

    fn is_same(&self, one: &str, other: &str) -> bool {
        self.leads_alike(one, other)
    }

    fn leads_to(&self, path: &str, name: &str) -> io::Result<bool> {
        let end = self.end_of(path)?;
        Ok(end.as_str() != path && self.leads_alike(&end, name))
    }

    type Ledger = DiskLedger<'a>;

    fn ledger(&mut self, file: &LedgerFile<'_>) -> io::Result<DiskLedger<'a>> {
        let path = file.path.to_string(self.rt.alloc())?;
        Ok(DiskLedger::in_place(*self, path, file.durability))
    }

    fn close(&mut self, _path: &str, _ledger: DiskLedger<'a>) {}

    fn create(&mut self, path: &str) -> io::Result<()> {
        let _ = self.go_on(path)?;
        Ok(())
    }

    type Made = DiskLedger<'a>;

    fn make(
        &self,
        file: &LedgerFile<'_>,
        replace: bool,
        read: &[&str],
    ) -> io::Result<DiskLedger<'a>> {
        let place = Place::of(self, file.path, read)?;
        Ok(DiskLedger::made(*self, place, file.durability, replace))
    }

    fn removed_by(&self, made: &DiskLedger<'a>) -> Result<Option<String>, NoMemory> {
        match made.new_file() {
            Some(path) => Ok(Some(path.to_string(self.rt.alloc())?)),
            None => Ok(None),
        }
    }

    fn put(&mut self, made: DiskLedger<'a>, _path: &str) -> io::Result<()> {
        made.put()
    }

    type Lock = FileLock;

    fn lock(&self, path: &str) -> Result<Option<FileLock>, Ended> {
        let Some(file) = self.lockable(path) else {
            return Ok(Some(FileLock { file: None }));
        };
        match file.try_lock() {
            Ok(()) if self.is_at(&file, path) => Ok(Some(FileLock { file: Some(file) })),
            // Where it could be locked, the one that held it has put another file in its place.
            Ok(()) | Err(TryLockError::WouldBlock) => {
                let fault = io::Error::from(ErrorKind::ResourceBusy);
                self.failures.remember(path, &fault);
                Ok(None)
            }
            Err(TryLockError::Error(fault)) if has_no_locks(&fault) => {
                Ok(Some(FileLock { file: None }))
            }
            Err(TryLockError::Error(fault)) => {
                self.failures.remember(path, &fault);
                Err(ended_by(&fault, Ended::Ledger))
            }
        }
    }

    fn make_folder(&mut self, path: &str) -> io::Result<()> {
        self.noted(path, fs::create_dir_all(self.rt, path))
    }

    fn remember(&self, path: &str, why: &'static str) {
        self.failures.remember(path, &io::Error::other(why));
    }

    fn tells_terminal(&self) -> bool {
        self.rt.stderr().is_terminal()
    }
}

// Whether a file system knows no locks.
fn has_no_locks(fault: &io::Error) -> bool {
    fault.kind() == ErrorKind::Unsupported
}

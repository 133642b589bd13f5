// A ledger of the disk, what is cut off it, and where what a command reads and writes is kept.
ghost use Rattle.std.specs.Prelude.{◌≡◌, ◌≢◌, ◌≤◌, IfOk, length};

use crate::disk::{Disk, Place};
use crate::named::NamedFile;
use arrayvec::ArrayString;
use cmd_options::Durability;
use files::Files;
use std::io::{self, ErrorKind, Read, Write};
use wire::{Fault, LedgerOut};

/// A system whose files are at hand.
pub trait Storage {
    /// The files that a command line names.
    type Files: Files + Drop;

    /// Hands out the files.
    fn files(&self) -> Self::Files;
}

// What is put behind the path of a ledger to name the file in which what is cut off it is kept.
const CUT_SUFFIX: &str = ".cut";

// The most bytes of that file's path. It is made without memory: a ledger that wants some has no way to say so.
const MAX_PATH_BYTES: usize = 8_192;

// How many bytes are read at once.
const PIECE: usize = 4_096;

/// Appends what stands behind the first bytes of the ledger at a path to the file beside it, `.cut`, and waits for the disk,
/// unless that is a torn last line alone: what a process that was killed leaves of its last line is no loss. Fails where the
/// name leads to the ledger itself.
pub(crate) fn keep_cut(disk: &Disk<'_>, path: &str, len: u64) -> io::Result<()> {
    if !has_line_behind(disk, path, len)? {
        return Ok(());
    }
    let Some(kept_at) = cut_path(path) else {
        return Err(unfit(disk, path));
    };
    if disk.leads_alike(path, &kept_at) {
        // What leads to the ledger would be cut with it.
        return Err(unfit(disk, &kept_at));
    }
    let count = copy_behind(disk, path, len, &kept_at)?;
    disk.tell_cut(path, count, &kept_at);
    Ok(())
}

// The path of the file in which what is cut off a ledger is kept; none where it is too long.
fn cut_path(path: &str) -> Option<ArrayString<MAX_PATH_BYTES>> {
    let mut kept_at = ArrayString::new();
    if kept_at.try_push_str(path).is_ok() && kept_at.try_push_str(CUT_SUFFIX).is_ok() {
        Some(kept_at)
    } else {
        None
    }
}

// What fails where nothing can be kept at a path, which is remembered.
fn unfit(disk: &Disk<'_>, path: &str) -> io::Error {
    let fault = io::Error::from(ErrorKind::InvalidInput);
    disk.failures.remember(path, &fault);
    fault
}

// Whether a line ends behind the first bytes of a file, which need not be there.
fn has_line_behind(disk: &Disk<'_>, path: &str, len: u64) -> io::Result<bool> {
    let mut file = match disk.opened(path) {
        Ok(file) => file,
        Err(fault) if fault.kind() == ErrorKind::NotFound => return Ok(false),
        Err(fault) => return Err(fault),
    };
    skip(&mut file, len)?;
    let mut buffer = [0; PIECE];
    for _ in 0..u64::MAX {
        let count = file.read(&mut buffer)?;
        if count == 0 {
            break;
        }
        if buffer[..count].contains(&b'\n') {
            return Ok(true);
        }
    }
    Ok(false)
}

// Reads so many bytes.
fn skip<R: Read>(from: &mut R, len: u64) -> io::Result<()> {
    let mut buffer = [0; PIECE];
    let mut left = len;
    for _ in 0..u64::MAX {
        if left == 0 {
            break;
        }
        let room = left.min(PIECE as u64) as usize;
        let count = from.read(&mut buffer[..room])?;
        if count == 0 {
            break;
        }
        left = left.saturating_sub(count as u64);
    }
    Ok(())
}

// Appends what stands behind the first bytes of a file to another, and answers how many bytes that was.
fn copy_behind(disk: &Disk<'_>, path: &str, len: u64, to: &str) -> io::Result<u64> {
    let mut file = disk.opened(path)?;
    skip(&mut file, len)?;
    let mut kept = disk.go_on(to)?;
    let mut buffer = [0; PIECE];
    let mut copied: u64 = 0;
    for _ in 0..u64::MAX {
        let count = file.read(&mut buffer)?;
        if count == 0 {
            break;
        }
        kept.write_all(&buffer[..count])?;
        copied = copied.saturating_add(count as u64);
    }
    kept.wait()?;
    Ok(copied)
}

// Where a ledger is written.
#[derive(Drop)]
enum Site {
    // Where it is, or is to be.
    InPlace { path: String },
    // At a place from which it is put at its path, where something may be there already that it replaces.
    Made { place: Place, replace: bool },
}

/// A ledger of the disk. Its file is opened by the first cut or the first bytes that are appended, so that a ledger that needs
/// neither may be one that can't be written. What is appended was handed to the system when the call returns, and is on the disk
/// then where that is asked for; one that is made stands nowhere, and is on the disk once it is put at its path.
///
/// What is cut off a ledger, save a torn last line, is first appended to the file beside it, `.cut`; where that can't be written,
/// the cut fails and the ledger is as it was.
#[derive(Drop)]
pub struct DiskLedger<'a> {
    disk: Disk<'a>,
    site: Site,
    durability: Durability,
    // none before it is opened
    file: Option<NamedFile<'a>>,
    failures: u64,
}

impl<'a> DiskLedger<'a> {
    // The ledger at a path, which goes on.
    pub(crate) fn in_place(disk: Disk<'a>, path: String, durability: Durability) -> DiskLedger<'a> {
        DiskLedger::at(disk, Site::InPlace { path }, durability)
    }

    // A file that is made at a place, and put in place of what is there already where that is asked for.
    pub(crate) fn made(
        disk: Disk<'a>,
        place: Place,
        durability: Durability,
        replace: bool,
    ) -> DiskLedger<'a> {
        DiskLedger::at(disk, Site::Made { place, replace }, durability)
    }

    fn at(disk: Disk<'a>, site: Site, durability: Durability) -> DiskLedger<'a> {
        DiskLedger {
            disk,
            site,
            durability,
            file: None,
            failures: 0,
        }
    }

    // The path of the new file in which it is made; none where there is none.
    pub(crate) fn new_file(&self) -> Option<&str> {
        match &self.site {
            Site::Made { place, .. } => place.made(),
            Site::InPlace { .. } => None,
        }
    }

    // Puts one that is made in its place.
    pub(crate) fn put(&self) -> io::Result<()> {
        match &self.site {
            Site::Made { place, .. } => place.put(&self.disk, self.durability),
            Site::InPlace { .. } => Ok(()),
        }
    }

    // The file, opened. Where it is made, what is at its place already stays, unless it is to be replaced.
    fn opened(&self) -> io::Result<NamedFile<'a>> {
        match &self.site {
            Site::InPlace { path } => self.disk.go_on(path),
            Site::Made { place, replace } => place.begun(&self.disk, *replace),
        }
    }

    // Opens the file where it isn't open yet.
    fn open(&mut self) -> io::Result<()>
        ensures { self.new.failures ≡ self.old.failures }
    {
        if self.file.is_none() {
            self.file = Some(self.opened()?);
        }
        Ok(())
    }

    // Cuts the ledger, which is opened for it; what is cut off is kept. Of one that was made just now nothing is cut off.
    fn cut_open(&mut self, len: u64) -> io::Result<()>
        ensures { self.new.failures ≡ self.old.failures }
    {
        let is_blank = match &self.site {
            Site::InPlace { path } => {
                keep_cut(&self.disk, path, len)?;
                false
            }
            Site::Made { .. } => self.file.is_none(),
        };
        self.open()?;
        match &self.file {
            Some(file) if !is_blank => {
                file.cut(len)?;
                wait_for_disk(file, &self.site, self.durability)
            }
            _ => Ok(()),
        }
    }

    // Appends a beginning of these bytes to the ledger, which is opened for it.
    fn append_open(&mut self, bytes: &[u8]) -> io::Result<usize>
        ensures failures { self.new.failures ≡ self.old.failures }
        ensures count { IfOk result (λ n. n ≤ length bytes.now) }
    {
        self.open()?;
        let Some(file) = &mut self.file else {
            return Ok(0);
        };
        let count = file.write(bytes)?;
        wait_for_disk(file, &self.site, self.durability)?;
        Ok(count)
    }

    // Counts a failure.
    fn fail(&mut self) -> Fault
        ensures { self.old.failures ≢ self.new.failures }
    {
        self.failures = self.failures.wrapping_add(1);
        Fault
    }
}

// Waits for the disk, where that is asked for of what is appended.
fn wait_for_disk(file: &NamedFile<'_>, site: &Site, durability: Durability) -> io::Result<()> {
    match (site, durability) {
        (Site::InPlace { .. }, Durability::Disk) => file.wait(),
        _ => Ok(()),
    }
}

impl LedgerOut for DiskLedger<'_> {
    ghost use Rattle.std.specs.Prelude.{None};

    ghost text = { λ l. None };

    ghost failures = { λ l. l.failures };

    fn cut(&mut self, len: u64) -> Result<(), Fault> {
        match self.cut_open(len) {
            Ok(()) => Ok(()),
            Err(_) => Err(self.fail()),
        }
    }

    fn append(&mut self, bytes: &[u8]) -> Result<usize, Fault> {
        match self.append_open(bytes) {
            Ok(count) if count > 0 || bytes.is_empty() => Ok(count),
            _ => Err(self.fail()),
        }
    }
}

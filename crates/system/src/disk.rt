// The calls of the file system, and where a file is made that is put at a path.
use crate::named::{Failures, NamedFile};
use crate::watched_files::{FirstBytes, Watch, WatchedFile};
use cmd_options::Durability;
use std::fs::{self, Files, OpenFile, OpenOptions};
use std::io::{self, ErrorKind, Write};
use std::os::unix::fs::MetadataExt;

// What is put behind a path to name the file that is made beside it.
const NEW_SUFFIX: &str = ".new";

// How often that is put behind it at most, where what is read has such a name.
const MOST_SUFFIXES: u32 = 8;

// Where a file is made that is to be put at a path.
#[derive(Drop)]
pub(crate) enum Place {
    // In a new file beside the one that its path leads to, in whose place it is then put.
    Beside {
        // The path as it was given.
        path: String,
        // The path of the new file.
        made: String,
        // The path in whose place it is put.
        end: String,
    },
    // Over what stands there, which is no plain file.
    Over {
        // The path of what stands there.
        path: String,
    },
}

impl Place {
    // Where the file at a path is made: in a new file beside the one to which the path's links lead, whose name is none of
    // those that are read; over a device. Fails where the links lead nowhere, or each such name is read.
    pub(crate) fn of(disk: &Disk<'_>, path: &str, read: &[&str]) -> io::Result<Place> {
        let end = disk.end_of(path)?;
        let is_replaceable = disk.is_replaceable(&end);
        let path = path.to_string(disk.rt.alloc())?;
        if !is_replaceable {
            return Ok(Place::Over { path });
        }
        let made = new_name(disk, &end, read)?;
        Ok(Place::Beside { path, made, end })
    }

    // The path of the new file; none where there is none.
    pub(crate) fn made(&self) -> Option<&str> {
        match self {
            Place::Beside { made, .. } => Some(made),
            Place::Over { .. } => None,
        }
    }

    // Begins the file, of which nothing stands at its path yet; what is there already stays, unless it is to be replaced.
    pub(crate) fn begun<'a>(&self, disk: &Disk<'a>, replace: bool) -> io::Result<NamedFile<'a>> {
        if !replace {
            self.refuse_taken(disk)?;
        }
        match self {
            Place::Beside { made, .. } => disk.anew(made),
            Place::Over { path } => disk.over(path),
        }
    }

    // Fails where a new file would take the place of something that is there: of a file that isn't empty, or of a link. Over a
    // device nothing is lost.
    fn refuse_taken(&self, disk: &Disk<'_>) -> io::Result<()> {
        match self {
            Place::Beside { path, .. } if disk.is_taken(path) => {
                let fault = io::Error::other(
                    "it is there already, and is replaced only with --replace",
                );
                disk.failures.remember(path, &fault);
                Err(fault)
            }
            _ => Ok(()),
        }
    }

    // Puts a file that was made beside its place there; once it is on the disk, where that is asked for: then a power cut
    // leaves one of the two there.
    pub(crate) fn put(&self, disk: &Disk<'_>, durability: Durability) -> io::Result<()> {
        match self {
            Place::Beside { made, end, .. } => {
                if durability == Durability::Disk {
                    disk.sync(made)?;
                }
                disk.rename(made, end)
            }
            Place::Over { .. } => Ok(()),
        }
    }
}

// A name beside a path that none of what is read has.
fn new_name(disk: &Disk<'_>, end: &str, read: &[&str]) -> io::Result<String> {
    let mut made = String::new(disk.rt.alloc());
    made.push_str(end)?;
    made.push_str(NEW_SUFFIX)?;
    for _ in 0..MOST_SUFFIXES {
        if !is_read(disk, &made, read) {
            return Ok(made);
        }
        made.push_str(NEW_SUFFIX)?;
    }
    let fault = io::Error::from(ErrorKind::AlreadyExists);
    disk.failures.remember(end, &fault);
    Err(fault)
}

// Whether a path leads to a file that is read.
fn is_read(disk: &Disk<'_>, path: &str, read: &[&str]) -> bool {
    for other in read {
        if disk.leads_alike(path, other) {
            return true;
        }
    }
    false
}

// The most links that a path leads through.
const MOST_LINKS: u32 = 40;

/// The files of the system that the program was given: what fails is remembered, and what is read is watched.
#[derive(Clone, Copy)]
pub struct Disk<'a> {
    pub(crate) rt: &'a HostRuntime,
    pub(crate) failures: &'a Failures,
    pub(crate) watch: &'a Watch,
}

impl<'a> Disk<'a> {
    // Remembers why something at a path failed.
    pub(crate) fn noted<T>(&self, path: &str, done: io::Result<T>) -> io::Result<T> {
        if let Err(fault) = &done {
            self.failures.remember(path, fault);
        }
        done
    }

    fn named(&self, file: fs::File, path: &str) -> NamedFile<'a> {
        NamedFile {
            file,
            path: path.to_string(self.rt.alloc()).ok(),
            failures: self.failures,
        }
    }

    // Opens the file at a path to be read.
    pub(crate) fn opened(&self, path: &str) -> io::Result<WatchedFile<'a>> {
        let file = self.noted(path, fs::open(self.rt, path))?;
        Ok(WatchedFile {
            file: self.named(file, path),
            rt: self.rt,
            watch: self.watch,
            come: 0,
            beginning: FirstBytes::none(),
        })
    }

    // Whether two paths lead to one file.
    pub(crate) fn leads_alike(&self, one: &str, other: &str) -> bool {
        match (fs::metadata(self.rt, one), fs::metadata(self.rt, other)) {
            (Ok(one), Ok(other)) => one.dev() == other.dev() && one.ino() == other.ino(),
            _ => false,
        }
    }

    // Where a symbolic link at a path leads; none where there is no link.
    fn link_at(&self, path: &str) -> io::Result<Option<String>> {
        match fs::symlink_metadata(self.rt, path) {
            Ok(found) if found.is_symlink() => {
                let to = self.rt.read_link(self.rt.alloc(), path)?;
                Ok(Some(beside(self.rt, path, to.as_str())?))
            }
            Ok(_) => Ok(None),
            Err(fault) if fault.kind() == ErrorKind::NotFound => Ok(None),
            Err(fault) => Err(fault),
        }
    }

    // The path to which the symbolic links of a path lead; nothing need stand there.
    pub(crate) fn end_of(&self, path: &str) -> io::Result<String> {
        let mut end = path.to_string(self.rt.alloc())?;
        for _ in 0..MOST_LINKS {
            match self.noted(path, self.link_at(&end))? {
                Some(next) => end = next,
                None => return Ok(end),
            }
        }
        self.noted(path, Err(io::Error::from(ErrorKind::InvalidInput)))
    }

    // Whether another file may be put in the place of what stands at a path: there is a plain file, or nothing.
    pub(crate) fn is_replaceable(&self, path: &str) -> bool {
        match fs::symlink_metadata(self.rt, path) {
            Ok(found) => found.is_file(),
            Err(fault) => fault.kind() == ErrorKind::NotFound,
        }
    }

    // Whether a link is at a path, or a plain file that isn't empty: what would be lost if another file were put there.
    pub(crate) fn is_taken(&self, path: &str) -> bool {
        match fs::symlink_metadata(self.rt, path) {
            Ok(found) => found.is_symlink() || (found.is_file() && found.len() > 0),
            Err(_) => false,
        }
    }

    // Opens the file at a path to go on with it; it is created where it isn't there.
    pub(crate) fn go_on(&self, path: &str) -> io::Result<NamedFile<'a>> {
        let mut asked = OpenOptions::new();
        asked.append(true).create(true);
        let opened = self.noted(path, asked.open(self.rt, path))?;
        Ok(self.named(opened, path))
    }

    // Opens what stands at a path, emptied, to be written over: a device has nothing to be emptied of.
    pub(crate) fn over(&self, path: &str) -> io::Result<NamedFile<'a>> {
        let mut asked = OpenOptions::new();
        asked.write(true).truncate(true).create(true);
        let opened = self.noted(path, asked.open(self.rt, path))?;
        Ok(self.named(opened, path))
    }

    // Makes a new file at a path. A name that stands there is removed first: what it named isn't written to.
    pub(crate) fn anew(&self, path: &str) -> io::Result<NamedFile<'a>> {
        match fs::remove_file(self.rt, path) {
            Err(fault) if fault.kind() != ErrorKind::NotFound => {
                return self.noted(path, Err(fault));
            }
            _ => {}
        }
        let mut asked = OpenOptions::new();
        asked.append(true).create_new(true);
        let opened = self.noted(path, asked.open(self.rt, path))?;
        Ok(self.named(opened, path))
    }

    // Waits until what was written to the file at a path is on the disk.
    pub(crate) fn sync(&self, path: &str) -> io::Result<()> {
        let file = self.noted(path, fs::open(self.rt, path))?;
        self.noted(path, file.sync_all())
    }

    // Puts a file in the place of what stands at another path, at once.
    pub(crate) fn rename(&self, from: &str, to: &str) -> io::Result<()> {
        self.noted(to, fs::rename(self.rt, from, to))
    }

    // The plain file at a path, open for writing; none where there is none, or it can't be written.
    pub(crate) fn lockable(&self, path: &str) -> Option<fs::File> {
        let found = fs::metadata(self.rt, path).ok()?;
        if !found.is_file() {
            return None;
        }
        OpenOptions::new().append(true).open(self.rt, path).ok()
    }

    // Whether it is this file that stands at a path.
    pub(crate) fn is_at(&self, file: &fs::File, path: &str) -> bool {
        match (file.metadata(), fs::metadata(self.rt, path)) {
            (Ok(held), Ok(found)) => held.dev() == found.dev() && held.ino() == found.ino(),
            _ => false,
        }
    }

    // Says on a terminal that so many bytes were cut off the ledger at a path, and where they are.
    pub(crate) fn tell_cut(&self, path: &str, count: u64, kept_at: &str) {
        // Nothing hangs on whether it can be said.
        self.watch.clear(self.rt);
        let _ = writeln!(
            self.rt.stderr(),
            "{path}: {count} bytes were cut off, and are kept in {kept_at}"
        );
    }
}

// What a link at a path leads to: its text is a path from the folder of the link, unless it begins at the root.
fn beside(rt: &HostRuntime, path: &str, to: &str) -> io::Result<String> {
    let mut end = String::new(rt.alloc());
    if !to.starts_with('/')
        && let Some((folder, _)) = path.rsplit_once('/')
    {
        end.push_str(folder)?;
        end.push_str("/")?;
    }
    end.push_str(to)?;
    Ok(end)
}

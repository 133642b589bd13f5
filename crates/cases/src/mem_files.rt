// Files in memory.
use crate::playing::FileText;
use cmd_options::{Ended, LedgerFile};
use files::{Files, Opened};
use std::alloc::{AllocError as NoMemory, Global};
use std::io::{self, ErrorKind, Read};
use wire::MemLedger;

/// Files in memory, by their names.
#[derive(Drop)]
pub struct MemFiles {
    alloc: Global,
    files: Vec<FileText>,
}

/// What a file held when it was opened.
#[derive(Drop)]
pub struct MemReader {
    text: Vec<u8>,
    read: usize,
}

impl Read for MemReader {
    fn read(&mut self, buf: &mut [u8]) -> io::Result<usize> {
        let rest = self.text.get(self.read..).unwrap_or(&[]);
        let count = rest.len().min(buf.len());
        buf[..count].copy_from_slice(&rest[..count]);
        self.read = self.read.saturating_add(count);
        Ok(count)
    }
}

impl MemFiles {
    pub fn new(alloc: Global) -> MemFiles {
        MemFiles {
            alloc,
            files: Vec::new(alloc),
        }
    }

    /// What a file holds; none where there is none.
    pub fn text_at(&self, path: &str) -> Option<&[u8]> {
        let file = self.files.iter().find(|file| file.path.as_str() == path)?;
        Some(file.text.as_slice())
    }

    /// Puts a file at a path, in place of what stands there.
    pub fn put_text(&mut self, path: &str, text: &[u8]) -> Result<(), NoMemory> {
        let text = text.to_vec(self.alloc)?;
        for file in self.files.iter_mut() {
            if file.path.as_str() == path {
                file.text = text;
                return Ok(());
            }
        }
        let path = path.to_string(self.alloc)?;
        self.files.push(FileText { path, text })?;
        Ok(())
    }
}

impl Files for MemFiles {
    ghost use Rattle.std.specs.Prelude.{⊤};
    ghost use Rattle.files.specs.Terms.{Unknown};

    ghost holds = { λ files path. Unknown };

    ghost tells_same = { λ files one other told. ⊤ };

    ghost locks = { λ path locked. ⊤ };

    type Reader = MemReader;

    fn open(&self, path: &str) -> io::Result<Opened<MemReader>> {
        match self.text_at(path) {
            Some(text) => Ok(Opened {
                length: text.len() as u64,
                reader: MemReader {
                    text: text.to_vec(self.alloc)?,
                    read: 0,
                },
            }),
            None => Err(io::Error::from(ErrorKind::NotFound)),
        }
    }

    fn open_to_end(&self, path: &str) -> io::Result<Opened<MemReader>> {
        self.open(path)
    }

    fn is_folder(&self, _path: &str) -> bool {
        false
    }

    fn is_same(&self, one: &str, other: &str) -> bool {
        one == other
    }

    fn leads_to(&self, _path: &str, _name: &str) -> io::Result<bool> {
        Ok(false)
    }

    type Ledger = MemLedger;

    fn ledger(&mut self, file: &LedgerFile<'_>) -> io::Result<MemLedger> {
        let held = self.text_at(file.path).unwrap_or(&[]);
        Ok(MemLedger::holding(held.to_vec(self.alloc)?))
    }

    // Where memory is refused, the row differs.
    fn close(&mut self, path: &str, ledger: MemLedger) {
        let _ = self.put_text(path, ledger.text());
    }

    fn create(&mut self, path: &str) -> io::Result<()> {
        if self.text_at(path).is_none() {
            self.put_text(path, &[])?;
        }
        Ok(())
    }

    type Made = MemLedger;

    fn make(
        &self,
        _file: &LedgerFile<'_>,
        _replace: bool,
        _read: &[&str],
    ) -> io::Result<MemLedger> {
        Ok(MemLedger::new(self.alloc))
    }

    fn removed_by(&self, _made: &MemLedger) -> Result<Option<String>, NoMemory> {
        Ok(None)
    }

    fn put(&mut self, made: MemLedger, path: &str) -> io::Result<()> {
        Ok(self.put_text(path, made.text())?)
    }

    type Lock = ();

    fn lock(&self, _path: &str) -> Result<Option<()>, Ended> {
        Ok(Some(()))
    }

    fn make_folder(&mut self, _path: &str) -> io::Result<()> {
        Ok(())
    }
}

// Files that are open to be read, and ledgers that are written.
ghost use Rattle.std.specs.Prelude.{◌≡◌, IfOk, OnErr, OnOk};
ghost use Rattle.files.specs.Paths.{IsLedgerOn, held_bytes, IsBlank, IsKept, IsKeptBut, IsLedgerAt, IsPut, IsToldStill};

use crate::files::Files;
use cmd_options::{Ended, LedgerFile, ended_by};
use std::io::{self, ErrorKind, Read};

/// A file that was opened, and how many bytes it then had.
#[derive(Drop)]
pub struct Opened<R> {
    pub reader: R,
    pub length: u64,
}

/// What a ledger holds that need not be there: the bytes of its file, or none.
#[derive(Drop)]
pub enum Held<R> {
    /// There is no file.
    Nothing,
    /// There is this file.
    File(R),
}

impl<R: Read> Read for Held<R> {
    ghost use Rattle.files.specs.Paths.{held_bytes};

    ghost remaining = { held_bytes R.remaining };

    fn read(&mut self, buf: &mut [u8]) -> io::Result<usize> {
        match self {
            Held::Nothing => Ok(0),
            Held::File(file) => file.read(buf),
        }
    }
}

/// What the ledger at a path holds; nothing where its file isn't there.
pub fn held_at<H: Files>(host: &H, path: &str) -> io::Result<Opened<Held<H::Reader>>>
    ensures { IfOk result (λ o. IsLedgerOn (H.holds host.now path.now) (held_bytes H.Reader.remaining o.reader)
        o.length) }
{
    match host.open(path) {
        Ok(file) => Ok(Opened {
            reader: Held::File(file.reader),
            length: file.length,
        }),
        Err(fault) if fault.kind() == ErrorKind::NotFound => Ok(Opened {
            reader: Held::Nothing,
            length: 0,
        }),
        Err(fault) => Err(fault),
    }
}

/// Opens a ledger to go on with it, as `Files::ledger` does.
pub fn ledger_at<H: Files>(host: &mut H, file: &LedgerFile<'_>) -> Result<H::Ledger, Ended>
    ensures ok { IfOk result (λ l. IsLedgerAt (H.holds host.old file.now.path.now) (H.Ledger.text l)) }
    ensures others { IsKeptBut (H.tells_same host.old) file.now.path.now (H.holds host.old) (H.holds host.new) }
    ensures tells { IsToldStill (H.tells_same host.old) (H.tells_same host.new) }
    ensures err { OnErr result (IsKept (H.holds host.old) (H.holds host.new)) }
{
    match host.ledger(file) {
        Ok(ledger) => Ok(ledger),
        Err(fault) => Err(ended_by(&fault, Ended::Ledger)),
    }
}

/// Begins a new ledger, to be put at a path once it is on the disk, in place of what is there if that is to be replaced, while
/// those at these paths are read.
pub fn made_for<H: Files>(
    host: &H,
    out: &str,
    replace: bool,
    read: &[&str],
) -> Result<H::Made, Ended>
    ensures { IfOk result (λ made. IsBlank (H.Made.text made)) }
{
    match host.make(&LedgerFile::on_disk(out), replace, read) {
        Ok(made) => Ok(made),
        Err(fault) => Err(ended_by(&fault, Ended::Ledger)),
    }
}

/// Puts a ledger that was made at a path, in place of what stands there.
pub fn put_at<H: Files>(host: &mut H, made: H::Made, out: &str) -> Result<(), Ended>
    ensures ok { OnOk result (IsPut (H.tells_same host.old) out.now (H.Made.text made) (H.holds host.old)
        (H.holds host.new)) }
    ensures tells { IsToldStill (H.tells_same host.old) (H.tells_same host.new) }
    ensures err { OnErr result (IsKept (H.holds host.old) (H.holds host.new)) }
{
    match host.put(made, out) {
        Ok(()) => Ok(()),
        Err(fault) => Err(ended_by(&fault, Ended::Ledger)),
    }
}

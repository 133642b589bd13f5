// Bytes and ledger files that are written.
ghost use Rattle.std.specs.Prelude.{◌≡◌, OnOk, OnErr};
ghost use Rattle.std.specs.Io.KnownBytes.{Appends};
ghost use Rattle.cmd_options.specs.Ends.{IsCutShort};

use std::io::{self, ErrorKind, Write};

/// How far the lines of a ledger have come when they count as written.
#[derive(Clone, Copy, Debug, PartialEq, Eq)]
pub enum Durability {
    /// The system has them: they outlive the process.
    System,
    /// Lines are on the disk: they outlive a power cut.
    Disk,
}

/// A ledger file that is written.
#[derive(Clone, Copy, Debug, PartialEq, Eq)]
pub struct LedgerFile<'a> {
    /// The ledger's path.
    pub path: &'a str,
    /// How far a line of it has come when it counts as written.
    pub durability: Durability,
}

impl<'a> LedgerFile<'a> {
    /// The file at a path, whose lines count as written when the system has them.
    pub const fn at(path: &'a str) -> LedgerFile<'a>
        ensures path { result.path ≡ path.entry }
        ensures durability { result.durability ≡ Durability.System }
    {
        LedgerFile {
            path,
            durability: Durability::System,
        }
    }

    /// The file at a path, whose lines count as written once they are on the disk.
    pub const fn on_disk(path: &'a str) -> LedgerFile<'a>
        ensures path { result.path ≡ path.entry }
        ensures durability { result.durability ≡ Durability.Disk }
    {
        LedgerFile {
            path,
            durability: Durability::Disk,
        }
    }
}

/// Writes all of these bytes, in as many calls as that takes, as `write_all` does; behind an error some of them, from a place
/// on, aren't written.
pub fn write_in_full<W: Write>(bytes: &[u8], stream: &mut W) -> io::Result<()>
    ensures ok { OnOk result (Appends (W.contents stream.old) (W.contents stream.new) bytes.now) }
    ensures err { OnErr result (IsCutShort bytes.now (W.contents stream.old) (W.contents stream.new)) }
{
    let mut left = bytes;
    'calls: for _ in 0..u64::MAX {
        if left.is_empty() {
            return Ok(());
        }
        let count = match stream.write(left) {
            Ok(0) => return Err(io::Error::from(ErrorKind::WriteZero)),
            Ok(count) => count,
            Err(fault) if fault.kind() == ErrorKind::Interrupted => continue,
            Err(fault) => return Err(fault),
        };
        left = &left[count..];
    }
    if left.is_empty() {
        Ok(())
    } else {
        Err(io::Error::from(ErrorKind::Interrupted))
    }
}

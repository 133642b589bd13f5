// What is said of refused lines.
ghost use Rattle.std.specs.Prelude.{◌≡◌, ◌⊎◌, ◌++◌, IfErr, OnOk};
ghost use Rattle.std.specs.Io.KnownBytes.{Appends};
ghost use Rattle.find_search.specs.Known.{count_behind, first_refused, refusals_line, refusals_text};

use crate::known::Refusals;
use cmd_options::{Ended, NoMemory};
use std::alloc::Global;
use std::io::Write;
use text::append_number;

/// Says how many lines of the file at a path were refused, and which was the first; nothing where none was.
pub fn tell_refusals<E: Write>(
    alloc: Global,
    path: &str,
    refused: Refusals,
    faults: &mut E,
) -> Result<(), Ended>
    ensures ok { OnOk result (Appends (E.contents faults.old) (E.contents faults.new)
        (refusals_text path.now refused)) }
    ensures err { IfErr result (λ e. (e ≡ Ended.NoMemory) ⊎ (e ≡ Ended.Stream)) }
{
    let mut line = Vec::new(alloc);
    append_refusals(path, refused, &mut line)?;
    faults.write_all(&line)?;
    Ok(())
}

// Appends what is said.
fn append_refusals(path: &str, refused: Refusals, out: &mut Vec<u8>) -> Result<(), NoMemory>
    ensures { OnOk result (out.new.items ≡ out.old.items ++ refusals_text path.now refused) }
{
    match refused.first {
        Some(first) => append_line(path, refused.count, first, out),
        None => Ok(()),
    }
}

// Appends the line that says how many there are, and which is the first.
fn append_line(path: &str, count: u64, first: u64, out: &mut Vec<u8>) -> Result<(), NoMemory>
    ensures { OnOk result (out.new.items ≡ out.old.items ++ refusals_line path.now count first) }
{
    append_count(path, count, out)?;
    append_first(first, out)
}

// Appends a path, and a number behind it.
fn append_count(path: &str, count: u64, out: &mut Vec<u8>) -> Result<(), NoMemory>
    ensures { OnOk result (out.new.items ≡ out.old.items ++ count_behind path.now count) }
{
    out.extend_from_slice(path.as_bytes())?;
    out.extend_from_slice(b": ")?;
    append_number(count, out)
}

// Appends which is the first.
fn append_first(first: u64, out: &mut Vec<u8>) -> Result<(), NoMemory>
    ensures { OnOk result (out.new.items ≡ out.old.items ++ first_refused first) }
{
    out.extend_from_slice(b" refused, the first in line ")?;
    append_number(first, out)?;
    out.extend_from_slice(b"\n")
}

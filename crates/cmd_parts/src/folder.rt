// A folder of ledgers, one for each part of a tree.
ghost use Rattle.std.specs.Prelude.{◌≡◌, ◌⊎◌, ℕ, List, codes, IfOk, None, OnErr, OnOk, Some, string_bytes};
ghost use Rattle.machine_text.specs.Terms.{Packed, text_of};
ghost use Rattle.ledger.specs.Terms.{IsOpenOn, AreAll};
ghost use Rattle.files.specs.Terms.{IsToldStill};
ghost use Rattle.cmd_parts.specs.AtPaths.{AreBegunAt, IsBegunAt, IsPartBegun, IsSizeAt, LeavesPartAt, LeavesPartsAt};
ghost use Rattle.cmd_parts.specs.Settle.{LeavesBegun, begun_part, path_within};
ghost use Rattle.wire.specs.Terms.{IsBegun, shortened};

use cmd_options::{Durability, Ended, LedgerFile, ended_by};
use files::{Files, held_at, ledger_at};
use kind_evidence::NoMemory;
use ledger::{Board, append_header};
use machine_text::{TEXT_BYTES, Table};
use std::alloc::Global;
use wire::{LedgerOut, append_all};

// The name of the trunk's ledger.
pub(crate) const TRUNK: &str = "trunk";

/// A folder of ledgers, one for each part of a tree.
pub trait Folder {
    ghost use Rattle.std.specs.Prelude.{Bool, Result};
    ghost use Rattle.machine_text.specs.Terms.{Packed};
    ghost use Rattle.cmd_options.specs.declared.ended.Ended.{Ended};

    /// What may come of looking for the part of a root: whether it is there, or what ends a command that can't see it.
    ghost sees: { Self → Packed → Result Bool Ended → Type 0 };

    /// Whether the ledger of the part of a root is there and holds something.
    fn has(&self, root: &Table) -> Result<bool, Ended>
        ensures { sees self.now root.now result };
}

/// The folder at a path of a host.
#[derive(Drop)]
pub struct FolderAt<'a, H> {
    pub alloc: Global,
    pub host: &'a H,
    pub path: &'a str,
}

impl<H: Files> Folder for FolderAt<'_, H> {
    ghost use Rattle.machine_text.specs.Terms.{text_of};
    ghost use Rattle.cmd_parts.specs.AtPaths.{SeesAt};
    ghost use Rattle.cmd_parts.specs.Settle.{path_within};

    ghost sees = { λ folder root. SeesAt (H.holds folder.host.now (path_within folder.path.now (text_of root))) };

    fn has(&self, root: &Table) -> Result<bool, Ended> {
        let path = part_path(self.alloc, self.path, root)?;
        Ok(bytes_at(self.host, &path)? > 0)
    }
}

/// Begins a part in a folder for each open table of a board, in the order of their texts.
pub fn begin_parts<H: Files>(
    alloc: Global,
    board: &Board,
    folder: &str,
    host: &mut H,
) -> Result<(), Ended>
    ensures ok { OnOk result ((roots : List Packed) × AreAll (IsOpenOn board.now) roots
        × AreBegunAt (H.tells_same host.old) folder.now roots (H.holds host.old) (H.holds host.new)) }
    ensures leaves { OnErr result ((roots : List Packed) × AreAll (IsOpenOn board.now) roots
        × LeavesPartsAt (H.tells_same host.old) folder.now roots (H.holds host.old) (H.holds host.new)) }
{
    for root in board.open() {
        begin_part_in(alloc, folder, root, host)?;
    }
    Ok(())
}

// Makes sure that the ledger of the part of a root begins with its header.
fn begin_part_in<H: Files>(
    alloc: Global,
    folder: &str,
    root: &Table,
    host: &mut H,
) -> Result<(), Ended>
    ensures ok { OnOk result (IsBegunAt (H.tells_same host.old) folder.now root.now (H.holds host.old)
        (H.holds host.new)) }
    ensures leaves { OnErr result (LeavesPartAt (H.tells_same host.old) (path_within folder.now (text_of root.now))
        root.now (H.holds host.old) (H.holds host.new)) }
    ensures tells { IsToldStill (H.tells_same host.old) (H.tells_same host.new) }
{
    let path = part_path(alloc, folder, root)?;
    begin_part_at(alloc, &path, root, host)
}

// Begins a part at its path.
fn begin_part_at<H: Files>(
    alloc: Global,
    path: &str,
    root: &Table,
    host: &mut H,
) -> Result<(), Ended>
    ensures ok { OnOk result (IsPartBegun (H.tells_same host.old) path.now root.now (H.holds host.old)
        (H.holds host.new)) }
    ensures leaves { OnErr result (LeavesPartAt (H.tells_same host.old) path.now root.now (H.holds host.old)
        (H.holds host.new)) }
    ensures tells { IsToldStill (H.tells_same host.old) (H.tells_same host.new) }
{
    let bytes = bytes_at(host, path)?;
    let file = LedgerFile {
        path,
        durability: Durability::System,
    };
    let mut ledger = ledger_at(host, &file)?;
    let begun = begin_part(alloc, root, bytes, &mut ledger);
    host.close(path, ledger);
    begun
}

/// Begins the ledger of a part that has so many bytes: where they are fewer than its header has, that is written in
/// their place; else it is left as it is.
pub fn begin_part<L: LedgerOut>(
    alloc: Global,
    root: &Table,
    bytes: u64,
    ledger: &mut L,
) -> Result<(), Ended>
    ensures ok { OnOk result (L.text ledger.new ≡ begun_part root.now bytes (L.text ledger.old)) }
    ensures leaves { OnErr result (LeavesBegun root.now bytes (L.text ledger.old) (L.text ledger.new)) }
{
    let mut header = Vec::new(alloc);
    append_header(root, &mut header)?;
    if bytes < header.len() as u64 {
        write_over(ledger, &header)
    } else {
        Ok(())
    }
}

// Makes a ledger hold these bytes alone.
fn write_over<L: LedgerOut>(ledger: &mut L, bytes: &[u8]) -> Result<(), Ended>
    ensures known { OnOk result ((text : List ℕ) → L.text ledger.old ≡ Some text → L.text ledger.new ≡ Some bytes.now) }
    ensures unknown { OnOk result (L.text ledger.old ≡ None → L.text ledger.new ≡ None) }
    ensures err { OnErr result ((L.text ledger.new ≡ L.text ledger.old)
        ⊎ IsBegun (shortened 0 (L.text ledger.old)) bytes.now (L.text ledger.new)) }
{
    match ledger.cut(0) {
        Ok(()) => match append_all(ledger, bytes) {
            Ok(()) => Ok(()),
            Err(_) => Err(Ended::Ledger),
        },
        Err(_) => Err(Ended::Ledger),
    }
}

// How many bytes the file at a path has; none where it isn't there.
fn bytes_at<H: Files>(host: &H, path: &str) -> Result<u64, Ended>
    ensures { IfOk result (IsSizeAt (H.holds host.now path.now)) }
{
    match held_at(host, path) {
        Ok(held) => Ok(held.length),
        Err(fault) => Err(ended_by(&fault, Ended::Ledger)),
    }
}

/// The path of the ledger of the part of a root in a folder.
pub fn part_path(alloc: Global, folder: &str, root: &Table) -> Result<String, NoMemory>
    ensures { IfOk result (λ path. string_bytes path ≡ path_within folder.now (text_of root.now)) }
{
    // The proof needs that it is a table.
    let _ = root.states();
    let mut buffer = [0; TEXT_BYTES];
    match str::from_utf8(root.text(&mut buffer)) {
        Ok(name) => path_within(alloc, folder, name),
        Err(_) => unreachable!(),
    }
}

/// The path of the trunk's ledger in a folder.
pub fn trunk_path(alloc: Global, folder: &str) -> Result<String, NoMemory>
    ensures { IfOk result (λ path. string_bytes path ≡ path_within folder.now (codes "trunk")) }
{
    path_within(alloc, folder, TRUNK)
}

// The path of a ledger in a folder.
pub(crate) fn path_within(alloc: Global, folder: &str, name: &str) -> Result<String, NoMemory>
    ensures { IfOk result (λ path. string_bytes path ≡ path_within folder.now name.now) }
{
    let mut path = String::new(alloc);
    path.push_str(folder)?;
    path.push_str("/")?;
    path.push_str(name)?;
    path.push_str(".ledger")?;
    Ok(path)
}

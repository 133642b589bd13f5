// A ledger that is loaded and summed up as it is read, and lists of sums.
ghost use Rattle.std.specs.Prelude.{IfOk, ◌≡◌, ℕ, ◌+◌, ◌^◌, ◌<◌, List, OnOk, length, ◌++◌};
ghost use Rattle.cmd_page.specs.Page.{IsSumOf, IsSummedBehind, IsSummedFrom, line_text, AreListLines, IsListLine, IsListSum};
ghost use Rattle.machine_text.specs.Terms.{entry_of, text_of};
ghost use Rattle.law_tree.specs.Terms.{InOrder};
ghost use Rattle.ledger.specs.Terms.{HasHeader};
ghost use Rattle.cmd_ledgers.specs.Terms.{AreFirstBytes};
ghost use Rattle.cmd_page.specs.inside.{FeedsBoth};
ghost use Rattle.hex.specs.Hex.{encode_lower};
ghost use Rattle.sha2.specs.Sha256.{sha256};
ghost use Rattle.cmd_parts.specs.Terms.{path_within};

use cmd_ledgers::{MAX_HEADER_BYTES, begin_reading, by_load};
use cmd_options::{Ended, Stopped, ended_by};
use cmd_parts::{PartLedgers, part_path, trunk_path};
use hex::encode_to_slice;
use ledger::{Board, Left, Loader};
use machine_text::{TEXT_BYTES, Table};
use sha2::{Digest, Sha256};
use std::alloc::{AllocError as NoMemory, Global};
use std::io::{self, Read};

/// The SHA-256 of the bytes that a reader has, so many of them or all that it has where these are fewer. An error is
/// that of a read that failed.
pub fn sum_of<R: Read>(from: &mut R, limit: u64) -> io::Result<[u8; 32]>
    ensures { IfOk result (IsSumOf (R.remaining from.old) limit) }
{
    let mut hasher = Sha256::new();
    let mut buf = [0; PIECE_BYTES];
    let mut left = limit;
    'pieces: while left > 0 {
        let room = left.min(PIECE_BYTES as u64) as usize;
        let piece = &mut buf[..room];
        let count = from.read(piece)?;
        if count == 0 {
            return Ok(hasher.finalize());
        }
        hasher.update(&piece[..count]);
        left -= count as u64;
    }
    Ok(hasher.finalize())
}

// How many bytes are read at once, at most.
pub(crate) const PIECE_BYTES: usize = 16_384;

// The board of the ledger that a reader has in its first bytes, what of it wasn't kept, and the SHA-256 of these very bytes.
pub(crate) fn load_summed<R: Read>(
    alloc: Global,
    from: &mut R,
    limit: u64,
) -> Result<(Board, Left, [u8; 32]), Stopped>
    ensures { IfOk result (λ l. IsSummedFrom (R.remaining from.old) limit l.0 l.1 l.2) }
{
    let mut buffer = [0; MAX_HEADER_BYTES];
    let room = limit.min(MAX_HEADER_BYTES as u64) as usize;
    let begun = &mut buffer[..room];
    let (root, len) = begin_reading(from, limit, begun)?;
    load_behind(alloc, root, &begun[..len], from, limit - len as u64)
}

// Loads and sums up a ledger whose first bytes, which have the header of this root, were read.
fn load_behind<R: Read>(
    alloc: Global,
    root: Table,
    first: &[u8],
    from: &mut R,
    limit: u64,
) -> Result<(Board, Left, [u8; 32]), Stopped>
    requires order { (u : ℕ) × InOrder u (entry_of root) }
    requires header { (rest : List ℕ) × HasHeader first.now root rest }
    requires small { length first.now + limit < 2 ^ 64 }
    ensures { IfOk result (λ l. (l.0.root ≡ root)
        × IsSummedBehind root first.now (R.remaining from.old) limit l.0 l.1 l.2) }
{
    let mut loader = Loader::new(alloc, root);
    let mut hasher = Sha256::new();
    feed_both(&mut loader, &mut hasher, first)?;
    feed_all(&mut loader, &mut hasher, from, limit)?;
    match loader.finish() {
        Ok((board, left)) => Ok((board, left, hasher.finalize())),
        Err(fault) => Err(Stopped::Ended(by_load(fault))),
    }
}

// Feeds a piece to a loader and to a hasher.
fn feed_both(loader: &mut Loader, hasher: &mut Sha256, piece: &[u8]) -> Result<(), Stopped>
    requires { loader.old.bytes + length piece.now < 2 ^ 64 }
    ensures { OnOk result (FeedsBoth loader.old hasher.old piece.now loader.new hasher.new) }
{
    hasher.update(piece);
    match loader.feed(piece) {
        Ok(()) => Ok(()),
        Err(_) => Err(Stopped::Ended(Ended::NoMemory)),
    }
}

// Feeds to both what a reader has in its first bytes, piece by piece.
fn feed_all<R: Read>(
    loader: &mut Loader,
    hasher: &mut Sha256,
    from: &mut R,
    limit: u64,
) -> Result<(), Stopped>
    requires { loader.old.bytes + limit < 2 ^ 64 }
    ensures { OnOk result ((more : List ℕ) × AreFirstBytes (R.remaining from.old) limit more
        × FeedsBoth loader.old hasher.old more loader.new hasher.new) }
{
    let mut buf = [0; PIECE_BYTES];
    let mut left = limit;
    'pieces: while left > 0 {
        let room = left.min(PIECE_BYTES as u64) as usize;
        let piece = &mut buf[..room];
        let count = match from.read(piece) {
            Ok(count) => count,
            Err(fault) => return Err(Stopped::Failed(fault)),
        };
        if count == 0 {
            return Ok(());
        }
        feed_both(loader, hasher, &piece[..count])?;
        left -= count as u64;
    }
    Ok(())
}

/// Appends a sum as 64 hexadecimal digits, with lower case letters.
pub fn append_hex(sum: &[u8; 32], out: &mut Vec<u8>) -> Result<(), NoMemory>
    ensures { OnOk result (out.new.items ≡ out.old.items ++ encode_lower sum.now) }
{
    let mut digits = [0; 64];
    match encode_to_slice(sum.as_slice(), &mut digits) {
        Ok(()) => out.extend_from_slice(&digits),
        Err(_) => unreachable!(),
    }
}

/// Appends the line of a file of this sum and name, as `sha256sum` prints it.
pub fn append_line(sum: &[u8; 32], name: &[u8], out: &mut Vec<u8>) -> Result<(), NoMemory>
    ensures { OnOk result (out.new.items ≡ out.old.items ++ line_text sum.now name.now) }
{
    append_hex(sum, out)?;
    out.extend_from_slice(b"  ")?;
    out.extend_from_slice(name)?;
    out.extend_from_slice(b"\n")
}

/// The SHA-256 of a list of lines.
pub fn sum_of_list(list: &[u8]) -> [u8; 32]
    ensures { result ≡ sha256 list.now }
{
    Sha256::digest(list)
}

// What the name of a ledger's file ends with.
const ENDING: &[u8] = b".ledger";

// The SHA-256 of the list of a folder's ledgers: the parts of these roots, and then the trunk.
pub(crate) fn list_sum<S: PartLedgers>(
    alloc: Global,
    folder: &str,
    parts: &S,
    roots: &[Table],
) -> Result<[u8; 32], Ended>
    ensures { IfOk result (IsListSum (S.finds parts.now) folder.now roots.now) }
{
    let mut list = Vec::new(alloc);
    append_parts(alloc, folder, parts, roots, &mut list)?;
    append_ledger(
        alloc,
        parts,
        &trunk_path(alloc, folder)?,
        b"trunk",
        &mut list,
    )?;
    Ok(sum_of_list(&list))
}

// Appends the lines of the parts of these roots.
fn append_parts<S: PartLedgers>(
    alloc: Global,
    folder: &str,
    parts: &S,
    roots: &[Table],
    list: &mut Vec<u8>,
) -> Result<(), Ended>
    ensures { OnOk result ((lines : List ℕ) × AreListLines (S.finds parts.now) folder.now roots.now lines
        × (list.new.items ≡ list.old.items ++ lines)) }
{
    for root in roots {
        append_part(alloc, folder, parts, root, list)?;
    }
    Ok(())
}

// Appends the line of the part of a root.
fn append_part<S: PartLedgers>(
    alloc: Global,
    folder: &str,
    parts: &S,
    root: &Table,
    list: &mut Vec<u8>,
) -> Result<(), Ended>
    ensures { OnOk result ((line : List ℕ)
        × IsListLine (S.finds parts.now) (path_within folder.now (text_of root.now)) (text_of root.now) line
        × (list.new.items ≡ list.old.items ++ line)) }
{
    let mut buffer = [0; TEXT_BYTES];
    let path = part_path(alloc, folder, root)?;
    append_ledger(alloc, parts, &path, root.text(&mut buffer), list)
}

// Appends the line of the ledger at a path, where it is there.
fn append_ledger<S: PartLedgers>(
    alloc: Global,
    parts: &S,
    path: &str,
    name: &[u8],
    list: &mut Vec<u8>,
) -> Result<(), Ended>
    ensures { OnOk result ((line : List ℕ) × IsListLine (S.finds parts.now) path.now name.now line
        × (list.new.items ≡ list.old.items ++ line)) }
{
    let Some(mut file) = parts.open(path)? else {
        return Ok(());
    };
    let sum = match sum_of(&mut file.reader, file.length) {
        Ok(sum) => sum,
        Err(fault) => return Err(ended_by(&fault, Ended::File)),
    };
    let mut whole = Vec::new(alloc);
    whole.extend_from_slice(name)?;
    whole.extend_from_slice(ENDING)?;
    append_line(&sum, &whole, list)?;
    Ok(())
}

// A ledger that is read, from its first byte up to a limit, and gone on with.
ghost use Rattle.std.specs.Prelude.{◌≡◌, ◌≢◌, ◌↔◌, ℕ, ◌+◌, ◌^◌, ◌<◌, ◌≤◌, ◌++◌, List, IfOk, IfErr, IsTrue, OnOk, length, min, take, OnErr};
ghost use Rattle.std.specs.Io.KnownBytes.{Consumes, IsAtEnd};
ghost use Rattle.cmd_ledgers.specs.LedgerReport.{ended_by_load, ended_by_merge, AreFirstBytes, BeginsWithRoot, EndsBehindHeader, EndsReading, IsLoadedFrom};
ghost use Rattle.text.specs.Terms.{HasNoNewline};
ghost use Rattle.machine_text.specs.Terms.{entry_of};
ghost use Rattle.law_tree.specs.Terms.{InOrder};
ghost use Rattle.ledger.specs.Terms.{header_byte_limit, HasHeader, ReadsIn, IsFed};
ghost use Rattle.cmd_ledgers.specs.inside.{BeginsReading};
ghost use Rattle.files.specs.Terms.{IsOpenedOn};
ghost use Rattle.cmd_ledgers.specs.Retry.{MayBeCut, kept_part};

use cmd_options::{Ended, Stopped, ended_by};
use files::{Files, Opened};
use ledger::{Board, Left, LoadFault, Loader, MergeFault, ReadStop, peek_root};
use machine_text::Table;
use std::alloc::Global;
use std::io::{self, Read};
use text::first_line;
use wire::LedgerOut;

/// What ends a command whose ledger can't be loaded.
pub fn by_load(fault: LoadFault) -> Ended
    ensures { result ≡ ended_by_load fault }
{
    match fault {
        LoadFault::BadHeader => Ended::BadHeader,
        LoadFault::WrongRoot => Ended::WrongRoot,
        LoadFault::NoMemory => Ended::NoMemory,
    }
}

// Two boards can't be merged.
pub(crate) fn by_merge(fault: MergeFault) -> Ended
    ensures { result ≡ ended_by_merge fault }
{
    match fault {
        MergeFault::WrongRoot => Ended::WrongRoot,
        MergeFault::NoMemory => Ended::NoMemory,
    }
}

/// More bytes than a ledger's header has.
pub const MAX_HEADER_BYTES: usize = 64;

/// The board of the ledger that a reader has in its first bytes, with the root that it names, and what of it wasn't
/// kept. No more than a piece of the text is in memory.
pub fn load_from<R: Read>(alloc: Global, from: &mut R, limit: u64) -> Result<(Board, Left), Stopped>
    ensures ok { IfOk result (λ l. IsLoadedFrom (R.remaining from.old) limit l.0 l.1) }
    ensures err { IfErr result (EndsReading (R.remaining from.old) limit) }
{
    let mut buffer = [0; MAX_HEADER_BYTES];
    let room = limit.min(MAX_HEADER_BYTES as u64) as usize;
    let begun = &mut buffer[..room];
    let (root, len) = begin_reading(from, limit, begun)?;
    load_behind(alloc, root, &begun[..len], from, limit - len as u64)
}

/// Loads a ledger that has to be of a root.
pub(crate) fn load_of<R: Read>(
    alloc: Global,
    root: Table,
    from: &mut R,
    limit: u64,
) -> Result<(Board, Left), Stopped>
    requires { (u : ℕ) × InOrder u (entry_of root) }
    ensures { IfOk result (λ l. (l.0.root ≡ root) × IsLoadedFrom (R.remaining from.old) limit l.0 l.1) }
{
    let mut buffer = [0; MAX_HEADER_BYTES];
    let room = limit.min(MAX_HEADER_BYTES as u64) as usize;
    let begun = &mut buffer[..room];
    let (found, len) = begin_reading(from, limit, begun)?;
    if found != root {
        return Err(Stopped::Ended(Ended::WrongRoot));
    }
    load_behind(alloc, root, &begun[..len], from, limit - len as u64)
}

/// Reads the first bytes of a ledger into a buffer, which has room for `MAX_HEADER_BYTES` of them or for all up to the
/// limit. Answers the root that they name, and how many they are: its header is among them. It never wants memory.
pub fn begin_reading<R: Read>(
    from: &mut R,
    limit: u64,
    buffer: &mut [u8],
) -> Result<(Table, usize), Stopped>
    requires { length buffer.old ≡ min limit header_byte_limit }
    ensures ok { IfOk result (λ b. (b.1 ≤ length buffer.new)
        × BeginsWithRoot (R.remaining from.old) (R.remaining from.new) limit (take b.1 buffer.new) b.0) }
    ensures err { IfErr result (EndsReading (R.remaining from.old) limit) }
    ensures memory { IfErr result (λ e. e ≢ Stopped.Ended Ended.NoMemory) }
{
    let len = match fill(from, limit, buffer) {
        Ok(len) => len,
        Err(fault) => return Err(Stopped::Failed(fault)),
    };
    match peek_root(&buffer[..len]) {
        Ok(Some(root)) => Ok((root, len)),
        Ok(None) => Err(Stopped::Ended(Ended::BadHeader)),
        Err(fault) => Err(Stopped::Ended(by_load(fault))),
    }
}

// Reads bytes into a buffer, until they have a newline or there are no more of them or no more room.
fn fill<R: Read>(from: &mut R, limit: u64, buffer: &mut [u8]) -> io::Result<usize>
    requires { length buffer.old ≡ min limit header_byte_limit }
    ensures within { IfOk result (λ len. len ≤ length buffer.new) }
    ensures ok { IfOk result (λ len. BeginsReading (R.remaining from.old) (R.remaining from.new) limit
        (take len buffer.new)) }
{
    let mut len = 0;
    while len < buffer.len() && !has_newline(&buffer[..len]) {
        let count = read_behind(from, buffer, len)?;
        if count == 0 {
            return Ok(len);
        }
        len += count;
    }
    Ok(len)
}

// Reads once, behind the first bytes of a buffer.
fn read_behind<R: Read>(from: &mut R, buffer: &mut [u8], len: usize) -> io::Result<usize>
    requires { len < length buffer.old }
    ensures within { IfOk result (λ count. len + count ≤ length buffer.old) }
    ensures ok { IfOk result (λ count. (more : List ℕ) × Consumes (R.remaining from.old) (R.remaining from.new) more
        × (take (len + count) buffer.new ≡ take len buffer.old ++ more)) }
    ensures end { IfOk result (λ count. count ≡ 0 → IsAtEnd (R.remaining from.new)) }
{
    from.read(&mut buffer[len..])
}

// Whether there is a newline among bytes.
fn has_newline(bytes: &[u8]) -> bool
    ensures { IsTrue result ↔ (HasNoNewline bytes.now → ⊥) }
{
    match first_line(bytes) {
        Some(_) => true,
        None => false,
    }
}

// The board of a ledger whose first bytes, which have the header of this root, were read, and what of it wasn't kept.
fn load_behind<R: Read>(
    alloc: Global,
    root: Table,
    first: &[u8],
    from: &mut R,
    limit: u64,
) -> Result<(Board, Left), Stopped>
    requires order { (u : ℕ) × InOrder u (entry_of root) }
    requires header { (rest : List ℕ) × HasHeader first.now root rest }
    requires small { length first.now + limit < 2 ^ 64 }
    ensures ok { IfOk result (λ l. (l.0.root ≡ root)
        × ((more : List ℕ) × AreFirstBytes (R.remaining from.old) limit more
        × ReadsIn l.0.format root (first.now ++ more) l.0.records l.1)) }
    ensures err { IfErr result EndsBehindHeader }
{
    let mut loader = Loader::new(alloc, root);
    match feed_all(&mut loader, first, from, limit) {
        Ok(()) => match loader.finish() {
            Ok(loaded) => Ok(loaded),
            Err(fault) => Err(Stopped::Ended(by_load(fault))),
        },
        Err(stopped) => Err(stopped),
    }
}

// Feeds a loader first bytes, and then what a reader has behind them.
fn feed_all<R: Read>(
    loader: &mut Loader,
    first: &[u8],
    from: &mut R,
    limit: u64,
) -> Result<(), Stopped>
    requires { loader.old.bytes + length first.now + limit < 2 ^ 64 }
    ensures ok { OnOk result ((more : List ℕ) × AreFirstBytes (R.remaining from.old) limit more
        × IsFed loader.old (first.now ++ more) loader.new) }
    ensures err { IfErr result EndsBehindHeader }
{
    match loader.feed(first) {
        Ok(()) => match loader.feed_from(from, limit) {
            Ok(()) => Ok(()),
            Err(ReadStop::Failed(fault)) => Err(Stopped::Failed(fault)),
            Err(ReadStop::NoMemory) => Err(Stopped::Ended(Ended::NoMemory)),
        },
        Err(_) => Err(Stopped::Ended(Ended::NoMemory)),
    }
}

/// Opens the ledger at a path, which has to be there, to be read before it is gone on with.
pub fn open_held<H: Files>(host: &H, path: &str) -> Result<Opened<H::Reader>, Ended>
    ensures { IfOk result (λ held. IsOpenedOn (H.holds host.now path.now)
        (H.Reader.remaining held.reader) held.length) }
{
    match host.open(path) {
        Ok(held) => Ok(held),
        Err(fault) => Err(ended_by(&fault, Ended::Ledger)),
    }
}

/// The board of what a ledger holds that is gone on with, and what of it wasn't kept.
pub fn load_held<F: Read + Drop>(alloc: Global, held: Opened<F>) -> Result<(Board, Left), Ended>
    ensures { IfOk result (λ l. IsLoadedFrom (F.remaining held.reader) held.length l.0 l.1) }
{
    let mut held = held;
    match load_from(alloc, &mut held.reader, held.length) {
        Ok(loaded) => Ok(loaded),
        Err(Stopped::Failed(fault)) => Err(ended_by(&fault, Ended::Ledger)),
        Err(Stopped::Ended(ended)) => Err(ended),
    }
}

/// Cuts a ledger to what was kept of it.
pub fn cut_off<L: LedgerOut>(left: &Left, ledger: &mut L) -> Result<(), Ended>
    ensures ok { OnOk result (L.text ledger.new ≡ kept_part left.now (L.text ledger.old)) }
    ensures err { OnErr result (MayBeCut left.now (L.text ledger.old) (L.text ledger.new)) }
{
    let cut = match left {
        Left::Nothing => Ok(()),
        Left::From { kept, .. } => ledger.cut(*kept),
    };
    match cut {
        Ok(()) => Ok(()),
        Err(_) => Err(Ended::Ledger),
    }
}

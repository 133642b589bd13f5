// `bb split`: a trunk, and a ledger for each table that it leaves open.
ghost use Rattle.std.specs.Prelude.{◌≡◌, ◌⊎◌, ◌≤◌, ℕ, All, List, IfOk, IfSome, Ok, OnErr, OnOk, false, length, ◌++◌, IfErr, Result, Some, codes};
ghost use Rattle.std.specs.Io.KnownBytes.{Appends};
ghost use Rattle.machine_text.specs.Terms.{state_limit, Packed, empty_table};
ghost use Rattle.ledger.specs.Terms.{IsOpenOn, IsLedgerOf, LoadGives, StandsAfter, AreAll, IsTally};
ghost use Rattle.cmd_ledgers.specs.Terms.{AreFirstBytes, AtSomeTime, kept_part};
ghost use Rattle.cmd_parts.specs.Settle.{IsOpenBelow, SettlesMany, filled_count, GrowsTrunk, LeavesGrown, LeavesTrunk, begun_trunk, due_header, kept_size, path_within, split_text};
ghost use Rattle.wire.specs.Terms.{IsBegun};
ghost use Rattle.ledger.specs.declared.counts.Tally.{Tally as Counted};
ghost use Rattle.cmd_options.specs.declared.ended.Outcome.{Outcome as Outcomes};
ghost use Rattle.cmd_options.specs.declared.ended.Outcome.TheVariants.{Accepted};
ghost use Rattle.cmd_options.specs.declared.ended.Ended.{Ended as Ends};
ghost use Rattle.cmd_options.specs.Terms.{EndsTold, PrintsNothing};
ghost use Rattle.files.specs.Terms.{IsKept, IsToldStill};
ghost use Rattle.cmd_parts.specs.AtPaths.{AreBegunAt, GrowsAt, IsCreated, LeavesPartsAt, LeavesSplit, LeavesTrunkAt, SplitsAt, SplitsTree};

use crate::folder::{Folder, FolderAt, TRUNK, begin_parts, path_within};
use crate::settle::{append_line, open_below, settle_below};
use cert::Decider;
use cmd_ledgers::{by_load, cut_off, open_held};
use cmd_options::{Durability, Ended, LedgerFile, Outcome, Splitting, ended_by, told};
use files::{Files, Opened, Progress, ledger_at, lock_ledger};
use kind_evidence::NoMemory;
use law_tree::rado_of_tables;
use ledger::{Board, Left, Loader, ReadStop, Tally, append_header};
use machine_text::Table;
use std::alloc::Global;
use std::io::{Read, Write};
use text::append_number;
use tnf::root;
use wire::LedgerOut;

/// Grows the trunk of the tree of n states. Its ledger is cut to the bytes that are kept of it, and gains a header
/// where none are; then the open tables that have fewer filled entries than so many are settled, as `settle_below`
/// does. `held` reads what the ledger holds. Where one of those that are open at first has a part in the folder, nothing is
/// done, and that is `HasPart`.
pub fn grow_trunk<F: Read + Drop, G: Folder, L: LedgerOut, D: Decider, P: Progress>(
    alloc: Global,
    n: u8,
    mut held: Opened<F>,
    limit: u64,
    folder: &G,
    decider: &mut D,
    ledger: &mut L,
    progress: &mut P,
) -> Result<Board, Ended>
    requires { (1 ≤ n) × (n ≤ state_limit) }
    ensures grows { IfOk result (λ board. GrowsTrunk (λ t. G.sees folder.now t (Ok false))
        (AtSomeTime D D.answers) n limit
        (F.remaining held.reader) held.length (L.text ledger.old) board (L.text ledger.new)) }
    ensures root { IfOk result (λ board. board.root ≡ empty_table n) }
    ensures all { IfOk result (λ board. (t : Packed) → IsOpenOn board t → limit ≤ filled_count t) }
    ensures leaves { OnErr result (LeavesTrunk (λ t. G.sees folder.now t (Ok false)) (AtSomeTime D D.answers) n limit
        (F.remaining held.reader) held.length (L.text ledger.old) (L.text ledger.new)) }
{
    let (mut board, left, bytes) = load_tree(alloc, n, &mut held.reader, held.length)?;
    refuse_parts(alloc, &board, limit, folder)?;
    grow(
        alloc, &mut board, &left, bytes, limit, decider, ledger, progress,
    )?;
    Ok(board)
}

// The board of the trunk's ledger that a reader has in its first bytes, what of it wasn't kept, and how many bytes it
// has.
fn load_tree<R: Read>(
    alloc: Global,
    n: u8,
    from: &mut R,
    limit: u64,
) -> Result<(Board, Left, u64), Ended>
    requires { (1 ≤ n) × (n ≤ state_limit) }
    ensures { IfOk result (λ l. (text : List ℕ) × AreFirstBytes (R.remaining from.old) limit text
        × (l.2 ≡ length text) × LoadGives (empty_table n) text (Ok (l.0, l.1))) }
{
    rado_of_tables();
    let mut loader = Loader::new(alloc, root(n));
    match loader.feed_from(from, limit) {
        Ok(()) => finished(loader),
        Err(ReadStop::Failed(fault)) => Err(ended_by(&fault, Ended::Ledger)),
        Err(ReadStop::NoMemory) => Err(Ended::NoMemory),
    }
}

// The board of what a loader was fed.
fn finished(loader: Loader) -> Result<(Board, Left, u64), Ended>
    ensures { (text : List ℕ) → StandsAfter loader text
        → IfOk result (λ l. (l.2 ≡ length text) × LoadGives loader.root text (Ok (l.0, l.1))) }
{
    let bytes = loader.bytes();
    match loader.finish() {
        Ok((board, left)) => Ok((board, left, bytes)),
        Err(fault) => Err(by_load(fault)),
    }
}

// Refuses where the folder has a part of an open table that has fewer filled entries than so many.
fn refuse_parts<G: Folder>(
    alloc: Global,
    board: &Board,
    limit: u64,
    folder: &G,
) -> Result<(), Ended>
    ensures { OnOk result ((t : Packed) → IsOpenBelow limit board.now t → G.sees folder.now t (Ok false)) }
{
    let due = open_below(alloc, board, limit)?;
    refuse_parts_of(&due, folder)
}

// Refuses where the folder has a part of one of these tables.
fn refuse_parts_of<G: Folder>(tables: &[Table], folder: &G) -> Result<(), Ended>
    ensures { OnOk result (All (λ t. G.sees folder.now t (Ok false)) tables.now) }
{
    for t in tables {
        if folder.has(t)? {
            return Err(Ended::HasPart);
        }
    }
    Ok(())
}

// Grows a trunk from the board of its ledger.
fn grow<L: LedgerOut, D: Decider, P: Progress>(
    alloc: Global,
    board: &mut Board,
    left: &Left,
    bytes: u64,
    limit: u64,
    decider: &mut D,
    ledger: &mut L,
    progress: &mut P,
) -> Result<(), Ended>
    ensures settled { OnOk result ((k : ℕ) × SettlesMany (AtSomeTime D D.answers) (IsOpenBelow limit) k board.old
        (begun_trunk board.old.root bytes left.now (L.text ledger.old)) board.new (L.text ledger.new)) }
    ensures all { OnOk result ((t : Packed) → IsOpenOn board.new t → limit ≤ filled_count t) }
    ensures step { OnOk result (IfSome (begun_trunk board.old.root bytes left.now (L.text ledger.old))
        (IsLedgerOf board.old) → IfSome (L.text ledger.new) (IsLedgerOf board.new)) }
    ensures leaves { OnErr result (LeavesGrown (AtSomeTime D D.answers) limit board.old bytes left.now
        (L.text ledger.old) (L.text ledger.new)) }
{
    begin_trunk(alloc, board.root(), left, bytes, ledger)?;
    settle_below(alloc, board, limit, decider, ledger, progress)?;
    Ok(())
}

// Cuts a trunk's ledger to what is kept of it, and appends a header where nothing is.
fn begin_trunk<L: LedgerOut>(
    alloc: Global,
    root: &Table,
    left: &Left,
    bytes: u64,
    ledger: &mut L,
) -> Result<(), Ended>
    ensures ok { OnOk result (L.text ledger.new ≡ begun_trunk root.now bytes left.now (L.text ledger.old)) }
    ensures err { OnErr result ((L.text ledger.new ≡ L.text ledger.old)
        ⊎ IsBegun (kept_part left.now (L.text ledger.old)) (due_header root.now (kept_size bytes left.now))
        (L.text ledger.new)) }
{
    let mut header = Vec::new(alloc);
    if kept_size(left, bytes) == 0 {
        append_header(root, &mut header)?;
    }
    cut_off(left, ledger)?;
    append_line(ledger, &header)
}

// How much is kept of a ledger of so many bytes.
fn kept_size(left: &Left, bytes: u64) -> u64
    ensures { result ≡ kept_size bytes left.now }
{
    match left {
        Left::Nothing => bytes,
        Left::From { kept, .. } => *kept,
    }
}

/// Splits a tree into ledgers in a folder, which is made where it isn't there. The trunk, `trunk.ledger`, is locked while
/// it is written, and grown: its open tables with few filled entries are settled. Then a part is begun for each table
/// that it leaves open: a ledger under the table's text, unless there is one with as many bytes as its header. It prints
/// how many records the trunk has, and how many parts there are. What ends the command early is said on `faults`; it leaves
/// the trunk as it was, begun or grown in part, and of the parts the first begun, where the trunk is grown. It can be given
/// again, and only adds what is missing. A table that has a part isn't settled in the trunk: that is `HasPart`.
pub fn cmd_split<H: Files, D: Decider, P: Progress, W: Write, E: Write>(
    alloc: Global,
    splitting: &Splitting<'_>,
    host: &mut H,
    decider: &mut D,
    progress: &mut P,
    answers: &mut W,
    faults: &mut E,
) -> Outcome
    requires { (1 ≤ splitting.now.states) × (splitting.now.states ≤ state_limit) }
    ensures { (ended : Result Outcomes Ends)
        × SplitsAt (AtSomeTime D D.answers) (H.locks (path_within splitting.now.folder.now (codes "trunk")))
        (H.tells_same host.old) splitting.now.states splitting.now.filled
        splitting.now.folder.now (H.holds host.old) (H.holds host.new) (W.contents answers.old)
        (W.contents answers.new) ended
        × EndsTold ended (E.contents faults.old) (E.contents faults.new) result }
{
    told(
        split_in(alloc, splitting, host, decider, progress, answers),
        faults,
    )
}

// Splits as `cmd_split` does, but answers what ends it early, and doesn't say it.
fn split_in<H: Files, D: Decider, P: Progress, W: Write>(
    alloc: Global,
    splitting: &Splitting<'_>,
    host: &mut H,
    decider: &mut D,
    progress: &mut P,
    answers: &mut W,
) -> Result<Outcome, Ended>
    requires { (1 ≤ splitting.now.states) × (splitting.now.states ≤ state_limit) }
    ensures splits { IfOk result (λ o. (o ≡ Accepted)
        × ((lock : H.Lock) × H.locks (path_within splitting.now.folder.now (codes "trunk")) (Ok (Some lock)))
        × SplitsTree (AtSomeTime D D.answers) (H.tells_same host.old) splitting.now.states splitting.now.filled
        splitting.now.folder.now (H.holds host.old) (H.holds host.new) (W.contents answers.old)
        (W.contents answers.new)) }
    ensures silent { IfErr result (λ e. PrintsNothing e (W.contents answers.old) (W.contents answers.new)) }
    ensures leaves { OnErr result (LeavesSplit (AtSomeTime D D.answers)
        (H.locks (path_within splitting.now.folder.now (codes "trunk"))) (H.tells_same host.old) splitting.now.states
        splitting.now.filled splitting.now.folder.now (H.holds host.old) (H.holds host.new)) }
{
    let path = path_within(alloc, splitting.folder, TRUNK)?;
    begin_folder(host, splitting.folder, &path)?;
    let _lock = lock_ledger(host, &path)?;
    let trunk = grown_trunk(alloc, splitting, host, &path, decider, progress)?;
    split_off(alloc, &trunk, splitting.folder, host, answers)?;
    Ok(Outcome::Accepted)
}

// The trunk, grown, whose ledger is locked.
fn grown_trunk<H: Files, D: Decider, P: Progress>(
    alloc: Global,
    splitting: &Splitting<'_>,
    host: &mut H,
    path: &str,
    decider: &mut D,
    progress: &mut P,
) -> Result<Board, Ended>
    requires { (1 ≤ splitting.now.states) × (splitting.now.states ≤ state_limit) }
    ensures root { IfOk result (λ board. board.root ≡ empty_table splitting.now.states) }
    ensures grows { IfOk result (GrowsAt (AtSomeTime D D.answers)
        (H.tells_same host.old) splitting.now.states splitting.now.filled splitting.now.folder.now path.now
        (H.holds host.old) (H.holds host.new)) }
    ensures leaves { OnErr result (LeavesTrunkAt (AtSomeTime D D.answers)
        (H.tells_same host.old) splitting.now.states splitting.now.filled splitting.now.folder.now path.now
        (H.holds host.old) (H.holds host.new)) }
    ensures tells { IsToldStill (H.tells_same host.old) (H.tells_same host.new) }
{
    let held = open_held(host, path)?;
    let file = LedgerFile {
        path,
        durability: Durability::System,
    };
    let mut ledger = ledger_at(host, &file)?;
    let folder = FolderAt {
        alloc,
        host: &*host,
        path: splitting.folder,
    };
    let limit = u64::from(splitting.filled);
    let grown = grow_trunk(
        alloc,
        splitting.states,
        held,
        limit,
        &folder,
        decider,
        &mut ledger,
        progress,
    );
    host.close(path, ledger);
    grown
}

/// Begins a part for each open table of a trunk, in the order of their texts, and tells how many there are.
pub fn split_off<H: Files, W: Write>(
    alloc: Global,
    trunk: &Board,
    folder: &str,
    host: &mut H,
    answers: &mut W,
) -> Result<(), Ended>
    ensures begun { OnOk result ((roots : List Packed) × AreAll (IsOpenOn trunk.now) roots
        × AreBegunAt (H.tells_same host.old) folder.now roots (H.holds host.old) (H.holds host.new)) }
    ensures told { OnOk result ((tally : Counted) × IsTally trunk.now.root trunk.now.records tally
        × Appends (W.contents answers.old) (W.contents answers.new) (split_text tally)) }
    ensures leaves { OnErr result ((roots : List Packed) × AreAll (IsOpenOn trunk.now) roots
        × LeavesPartsAt (H.tells_same host.old) folder.now roots (H.holds host.old) (H.holds host.new)) }
    ensures err { IfErr result (λ e. PrintsNothing e (W.contents answers.old) (W.contents answers.new)) }
{
    begin_parts(alloc, trunk, folder, host)?;
    let mut told = Vec::new(alloc);
    append_split(&trunk.tally(), &mut told)?;
    answers.write_all(&told)?;
    Ok(())
}

// Makes a folder where there is none, and the file of the trunk in it.
fn begin_folder<H: Files>(host: &mut H, folder: &str, trunk: &str) -> Result<(), Ended>
    ensures ok { OnOk result (IsCreated (H.tells_same host.old) trunk.now (H.holds host.old) (H.holds host.new)) }
    ensures err { OnErr result (IsKept (H.holds host.old) (H.holds host.new)) }
    ensures tells { IsToldStill (H.tells_same host.old) (H.tells_same host.new) }
{
    if let Err(fault) = host.make_folder(folder) {
        return Err(ended_by(&fault, Ended::Ledger));
    }
    match host.create(trunk) {
        Ok(()) => Ok(()),
        Err(fault) => Err(ended_by(&fault, Ended::Ledger)),
    }
}

// Appends the line that says how a tree is split.
fn append_split(tally: &Tally, out: &mut Vec<u8>) -> Result<(), NoMemory>
    ensures { OnOk result (out.new.items ≡ out.old.items ++ split_text tally.now) }
{
    out.extend_from_slice(b"trunk ")?;
    append_number(tally.nodes.saturating_sub(tally.open_count), out)?;
    out.extend_from_slice(b" parts ")?;
    append_number(tally.open_count, out)?;
    out.extend_from_slice(b"\n")
}

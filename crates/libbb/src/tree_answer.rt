// What is said of a ledger's text.
ghost use Rattle.std.specs.Prelude.{◌≡◌, ℕ, List};
ghost use Rattle.machine_text.specs.Terms.{entry_of};
ghost use Rattle.law_turing.specs.Terms.{IsRado};
ghost use Rattle.law_tree.specs.Terms.{InOrder};
ghost use Rattle.ledger.specs.Terms.{HasHeader, IsSigma};
ghost use Rattle.libbb.specs.Answer.{flag, or_zero};
ghost use Rattle.libbb.specs.TreeAnswer.{IsEmptyRoot, Reports, TellsOf, unkept_code, unkept_line, unkept_why, status_number, told, no_tree, why_code, why_number};

use crate::answer::flag;
use ledger::{Board, Left, LoadFault, Status, Tally, Unkept, peek_root};
use machine_text::Table;
use std::alloc::Global;

/// No table is open and none is a holdout.
pub const COMPLETE: u32 = 0;

/// No table is open, but there are holdouts.
pub const HOLDOUTS: u32 = 1;

/// Tables are open.
pub const WORKING: u32 = 2;

/// The text has no header of a ledger, or one of a root that doesn't name its states in order.
pub const REFUSED: u32 = 3;

/// Memory was refused.
pub const NO_MEMORY: u32 = 4;

/// How the board of a ledger's text stands. A number that an outcome doesn't speak of is 0.
#[repr(C)]
#[derive(Clone, Copy, Debug, PartialEq, Eq)]
pub struct TreeAnswer {
    /// The records and the open tables together.
    pub nodes: u64,
    /// The tables recorded as halting.
    pub halting: u64,
    /// The tables recorded as never halting.
    pub never: u64,
    /// The tables whose record has no verdict.
    pub holdouts: u64,
    /// The open tables.
    pub open_count: u64,
    /// The greatest number of steps recorded of a table that halts.
    pub best: u64,
    /// The greatest score recorded of a table that halts (Radó 1962).
    pub ones: u64,
    /// The number of the first line that wasn't kept, from 1 on; 0 where all of the text was.
    pub left_line: u64,
    /// One of the outcomes above.
    pub outcome: u32,
    /// The number of the refusal.
    pub code: u32,
    /// The number of states of the root.
    pub states: u32,
    /// Whether the root is the empty table, with which the tree of all machines of its states begins: 1 or 0.
    pub is_whole: u32,
    /// Whether a table is recorded as halting, so that there is a best: 1 or 0.
    pub has_best: u32,
    /// Whether there is a greatest score: 1 or 0.
    pub has_ones: u32,
    /// Why that line wasn't kept: 1 where it has no end, 2 where it is no record, 3 where it wasn't taken, 4 where its
    /// table was recorded.
    pub left_why: u32,
    /// The number of the refusal of that line.
    pub left_code: u32,
}

/// Reports a ledger's text. Where it is complete and its root is the empty table, its best is S(n) and its ones are Σ(n),
/// of the number of states.
pub fn report_text(alloc: Global, text: &[u8]) -> TreeAnswer
    ensures reports { Reports text.now result }
    ensures rado { result.outcome ≡ 0 → result.is_whole ≡ 1 → result.has_best ≡ 1
        → IsRado result.states result.best }
    ensures sigma { result.outcome ≡ 0 → result.is_whole ≡ 1 → result.has_ones ≡ 1
        → IsSigma result.states result.ones }
{
    match peek_root(text) {
        Ok(Some(root)) => report_of(alloc, root, text),
        Ok(None) => refused(LoadFault::BadHeader),
        Err(fault) => refused(fault),
    }
}

// Reports the text of the ledger of a root.
fn report_of(alloc: Global, root: Table, text: &[u8]) -> TreeAnswer
    requires order { (u : ℕ) × InOrder u (entry_of root) }
    requires header { (rest : List ℕ) × HasHeader text.now root rest }
    ensures reports { Reports text.now result }
    ensures rado { result.outcome ≡ 0 → result.is_whole ≡ 1 → result.has_best ≡ 1
        → IsRado result.states result.best }
    ensures sigma { result.outcome ≡ 0 → result.is_whole ≡ 1 → result.has_ones ≡ 1
        → IsSigma result.states result.ones }
{
    match Board::load(alloc, root, text) {
        Ok((board, left)) => tell(&board, &left),
        Err(fault) => refused(fault),
    }
}

/// How a board stands, and what wasn't kept of its ledger.
pub(crate) fn tell(board: &Board, left: &Left) -> TreeAnswer
    ensures tells { TellsOf board.now.root board.now.records left.now result }
    ensures rado { result.outcome ≡ 0 → result.is_whole ≡ 1 → result.has_best ≡ 1
        → IsRado result.states result.best }
    ensures sigma { result.outcome ≡ 0 → result.is_whole ≡ 1 → result.has_ones ≡ 1
        → IsSigma result.states result.ones }
{
    let root = board.root();
    let states = root.states();
    let is_whole = whole(root);
    told(
        u32::from(states),
        is_whole,
        board.status(),
        &board.tally(),
        left,
    )
}

// Whether a root is the empty table.
fn whole(root: &Table) -> u32
    ensures { IsEmptyRoot root.now result }
{
    if *root == Table::empty(root.states()) {
        1
    } else {
        0
    }
}

fn told(states: u32, is_whole: u32, status: Status, tally: &Tally, left: &Left) -> TreeAnswer
    ensures { result ≡ told states is_whole status tally.now left.now }
{
    TreeAnswer {
        nodes: tally.nodes,
        halting: tally.halting,
        never: tally.never,
        holdouts: tally.holdouts,
        open_count: tally.open_count,
        best: or_zero(tally.best),
        ones: or_zero(tally.ones),
        left_line: unkept_line(left),
        outcome: status_number(status),
        code: 0,
        states,
        is_whole,
        has_best: flag(tally.best),
        has_ones: flag(tally.ones),
        left_why: unkept_why(left),
        left_code: unkept_code(left),
    }
}

/// Why there is no board.
pub(crate) fn refused(fault: LoadFault) -> TreeAnswer
    ensures header { fault ≡ LoadFault.BadHeader → result ≡ no_tree 3 404 }
    ensures root { fault ≡ LoadFault.WrongRoot → result ≡ no_tree 3 405 }
    ensures memory { fault ≡ LoadFault.NoMemory → result ≡ no_tree 4 0 }
{
    match fault.number() {
        Some(code) => no_tree(REFUSED, u32::from(code)),
        None => no_tree(NO_MEMORY, 0),
    }
}

fn no_tree(outcome: u32, code: u32) -> TreeAnswer
    ensures { result ≡ no_tree outcome code }
{
    TreeAnswer {
        nodes: 0,
        halting: 0,
        never: 0,
        holdouts: 0,
        open_count: 0,
        best: 0,
        ones: 0,
        left_line: 0,
        outcome,
        code,
        states: 0,
        is_whole: 0,
        has_best: 0,
        has_ones: 0,
        left_why: 0,
        left_code: 0,
    }
}

fn status_number(status: Status) -> u32
    ensures { result ≡ status_number status }
{
    match status {
        Status::Complete { .. } => COMPLETE,
        Status::Holdouts { .. } => HOLDOUTS,
        Status::Working { .. } => WORKING,
    }
}

fn or_zero(number: Option<u64>) -> u64
    ensures { result ≡ or_zero number }
{
    match number {
        Some(number) => number,
        None => 0,
    }
}

fn unkept_line(left: &Left) -> u64
    ensures { result ≡ unkept_line left.now }
{
    match left {
        Left::Nothing => 0,
        Left::From { line, .. } => *line,
    }
}

fn unkept_why(left: &Left) -> u32
    ensures { result ≡ unkept_why left.now }
{
    match left {
        Left::Nothing => 0,
        Left::From { why, .. } => why_number(why),
    }
}

fn unkept_code(left: &Left) -> u32
    ensures { result ≡ unkept_code left.now }
{
    match left {
        Left::Nothing => 0,
        Left::From { why, .. } => why_code(why),
    }
}

fn why_number(why: &Unkept) -> u32
    ensures { result ≡ why_number why.now }
{
    match why {
        Unkept::Torn => 1,
        Unkept::Unread(_) => 2,
        Unkept::Unfit(_) => 3,
        Unkept::Repeated => 4,
    }
}

fn why_code(why: &Unkept) -> u32
    ensures { result ≡ why_code why.now }
{
    match why {
        Unkept::Unread(fault) => u32::from(fault.number()),
        Unkept::Unfit(fault) => match fault.number() {
            Some(code) => u32::from(code),
            None => 0,
        },
        Unkept::Torn | Unkept::Repeated => 0,
    }
}

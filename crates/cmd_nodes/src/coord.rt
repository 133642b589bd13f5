// `bb coord`: a coordinator over two streams and a ledger, and the report of its board.
ghost use Rattle.std.specs.Prelude.{◌≡◌, ◌⊎◌, IfErr, IfOk, IfSome, ◌≤◌, None, OnOk, Result};
ghost use Rattle.cmd_nodes.specs.inside.{ReportsBoard, KeepsStep, StartsInStep, StartsPart};
ghost use Rattle.machine_text.specs.Terms.{state_limit};
ghost use Rattle.wire.specs.Terms.{kept_text};
ghost use Rattle.wire.specs.declared.node.Out.{Out as Answer};
ghost use Rattle.lease_core.specs.Terms.{InStep};
ghost use Rattle.ledger.specs.Terms.{IsBoard, IsStatus};
ghost use Rattle.ledger.specs.declared.faults.Status.{Status as BoardStatus};
ghost use Rattle.cmd_ledgers.specs.Terms.{outcome_by};
ghost use Rattle.cmd_options.specs.Terms.{EndsTold};
ghost use Rattle.cmd_options.specs.declared.ended.Ended.{Ended as Ends};
ghost use Rattle.cmd_options.specs.declared.ended.Outcome.{Outcome as Outcomes};
ghost use Rattle.cmd_nodes.specs.Served.{Becomes, IsBegunFrom, IsBegunWith};
ghost use Rattle.cmd_nodes.specs.Settled.{CoordinatesTree, IsOfLedger, IsServedBoard};

use crate::held_ledger::{HeldLedger, by_start, by_turn};
use crate::links::Streams;
use cmd_ledgers::{ReportForm, cut_off, keep_answer, load_held, outcome_by, write_report};
use cmd_options::{Beginning, Ended, Outcome, ended_by, told};
use files::Opened;
use lease_core::{Coordinator, StartFault};
use ledger::{Board, Left};
use std::alloc::Global;
use std::io::{self, BufWriter, Read, Write};
use wire::{LedgerOut, Lines, Link, Node, Out, Turn, turn};

// Prints the report of a coordinator's board, and answers by how that stands. Where memory is refused, nothing was
// printed.
pub(crate) fn report_board<P: ReportForm, W: Write>(
    alloc: Global,
    form: &P,
    node: &Coordinator,
    answers: &mut W,
) -> Result<Outcome, Ended>
    ensures ok { IfOk result (λ o. IfSome node.now.held (λ held.
        ReportsBoard (P.is_text form.now) held.board (W.contents answers.old) (W.contents answers.new) o)) }
    ensures err { IfErr result (λ e. (W.contents answers.new ≡ W.contents answers.old) ⊎ (e ≡ Ended.Stream)) }
{
    match node.board() {
        Some(board) => report_of(alloc, form, board, answers),
        None => Ok(Outcome::Refused),
    }
}

// Reports a board.
fn report_of<P: ReportForm, W: Write>(
    alloc: Global,
    form: &P,
    board: &Board,
    answers: &mut W,
) -> Result<Outcome, Ended>
    ensures ok { IfOk result
        (ReportsBoard (P.is_text form.now) board.now (W.contents answers.old) (W.contents answers.new)) }
    ensures err { IfErr result (λ e. (W.contents answers.new ≡ W.contents answers.old) ⊎ (e ≡ Ended.Stream)) }
{
    // The proof needs that it is a board.
    let _ = board.root();
    write_report(alloc, form, board, &Left::Nothing, answers)?;
    Ok(outcome_by(board.status(), &Left::Nothing))
}

/// Begins a coordinator from what a ledger holds, and answers the frames of `input`, a line each, until it ends:
/// what is new stands in the ledger before a frame says so. `held` reads what the ledger holds. Accepted where
/// the board is complete at the end. What ends the command early is said on `faults`.
pub fn cmd_coord<F: Read + Drop, L: LedgerOut, R: Read, W: Write, E: Write>(
    alloc: Global,
    beginning: Beginning,
    held: io::Result<Opened<F>>,
    ledger: &mut L,
    input: &mut R,
    answers: &mut W,
    faults: &mut E,
) -> Outcome
    requires { (1 ≤ beginning.states) × (beginning.states ≤ state_limit) }
    ensures { (ended : Result Outcomes Ends)
        × IfOk ended (CoordinatesTree beginning.states
        (IsServedBoard beginning.states beginning.era F.remaining held (L.text ledger.old) (L.text ledger.new)))
        × EndsTold ended (E.contents faults.old) (E.contents faults.new) result }
{
    told(
        coordinate(alloc, beginning, held, ledger, input, answers),
        faults,
    )
}

// Coordinates as `cmd_coord` does, but answers what ends it early, and doesn't say it.
fn coordinate<F: Read + Drop, L: LedgerOut, R: Read, W: Write>(
    alloc: Global,
    beginning: Beginning,
    held: io::Result<Opened<F>>,
    ledger: &mut L,
    input: &mut R,
    answers: &mut W,
) -> Result<Outcome, Ended>
    requires { (1 ≤ beginning.states) × (beginning.states ≤ state_limit) }
    ensures { IfOk result (CoordinatesTree beginning.states
        (IsServedBoard beginning.states beginning.era F.remaining held (L.text ledger.old) (L.text ledger.new))) }
{
    let mut node = start_coordinator(alloc, beginning, held, ledger)?;
    serve(alloc, &mut node, ledger, input, answers)?;
    Ok(outcome_of(&node))
}

// A coordinator whose ledger is in step with it.
pub(crate) fn start_coordinator<F: Read + Drop, L: LedgerOut>(
    alloc: Global,
    beginning: Beginning,
    held: io::Result<Opened<F>>,
    ledger: &mut L,
) -> Result<Coordinator, Ended>
    requires { (1 ≤ beginning.states) × (beginning.states ≤ state_limit) }
    ensures begins { IfOk result (IsBegunFrom beginning.states beginning.era F.remaining held) }
    ensures step { IfOk result (StartsInStep F.remaining held (L.text ledger.old) (L.text ledger.new)) }
{
    match held {
        Ok(opened) => start(alloc, beginning, opened, ledger),
        Err(fault) => Err(ended_by(&fault, Ended::Ledger)),
    }
}

// From a ledger as far as it went when it was opened.
fn start<F: Read + Drop, L: LedgerOut>(
    alloc: Global,
    beginning: Beginning,
    opened: Opened<F>,
    ledger: &mut L,
) -> Result<Coordinator, Ended>
    requires { (1 ≤ beginning.states) × (beginning.states ≤ state_limit) }
    ensures begins { IfOk result
        (IsBegunWith beginning.states beginning.era (F.remaining opened.reader) opened.length) }
    ensures step { IfOk result (λ node. IsOfLedger (F.remaining opened.reader) opened.length (L.text ledger.old)
        → IfSome (L.text ledger.new) (InStep node)) }
{
    let Opened { reader, length } = opened;
    let mut held = HeldLedger::of(reader);
    let (node, first) = Coordinator::start_from(
        alloc,
        beginning.states,
        beginning.era,
        &mut held,
        length,
    );
    begin_ledger(first, held.fault(), ledger)?;
    Ok(node)
}

// A coordinator of the board that a ledger has, of whatever root its header names. The ledger is cut to what is kept of it, and
// so is in step.
pub(crate) fn start_part<F: Read + Drop, L: LedgerOut>(
    alloc: Global,
    era: u64,
    held: Opened<F>,
    ledger: &mut L,
) -> Result<Coordinator, Ended>
    ensures { IfOk result
        (StartsPart era (F.remaining held.reader) held.length (L.text ledger.old) (L.text ledger.new)) }
{
    let (board, left) = load_held(alloc, held)?;
    cut_off(&left, ledger)?;
    match Coordinator::holding(alloc, era, board) {
        Ok(node) => Ok(node),
        Err(_) => Err(Ended::NoMemory),
    }
}

/// Does to a ledger what a node asks for when it has started: `BadHeader` or `WrongRoot` where that was refused so, `fault`
/// where a read of the ledger came to that, `Ledger` where it fails.
pub fn begin_ledger<L: LedgerOut>(
    first: Result<Out, StartFault>,
    fault: Option<Ended>,
    ledger: &mut L,
) -> Result<(), Ended>
    ensures { OnOk result ((out : Answer) × (first ≡ Ok out)
        × (L.text ledger.new ≡ kept_text out (L.text ledger.old))) }
{
    match first {
        Ok(out) => keep_answer(&out, ledger),
        Err(refused) => Err(fault.unwrap_or(by_start(refused))),
    }
}

// Answers what comes, to the end of the input. What was answered before a fault is sent all the same.
fn serve<N: Node, L: LedgerOut, R: Read, W: Write>(
    alloc: Global,
    node: &mut N,
    ledger: &mut L,
    input: &mut R,
    answers: &mut W,
) -> Result<(), Ended>
    ensures became { OnOk result (Becomes N.answers node.old node.new) }
    ensures step { OnOk result (KeepsStep N.in_step node.old node.new (L.text ledger.old) (L.text ledger.new)) }
{
    let Ok(mut output) = BufWriter::new(alloc, answers) else {
        return Err(Ended::NoMemory);
    };
    let turned = take_turns(alloc, node, ledger, input, &mut output);
    // What was answered before a fault is sent all the same.
    output.flush()?;
    turned
}

fn take_turns<N: Node, L: LedgerOut, R: Read, W: Write>(
    alloc: Global,
    node: &mut N,
    ledger: &mut L,
    input: &mut R,
    output: &mut W,
) -> Result<(), Ended>
    ensures became { OnOk result (Becomes N.answers node.old node.new) }
    ensures step { OnOk result (KeepsStep N.in_step node.old node.new (L.text ledger.old) (L.text ledger.new)) }
{
    let mut lines = Lines::new(alloc);
    let mut link = Streams::of(input, output);
    for _ in 0..u64::MAX {
        if take_turn(node, &mut lines, &mut link, ledger)? == Turn::End {
            break;
        }
    }
    Ok(())
}

fn take_turn<N: Node, K: Link, L: LedgerOut>(
    node: &mut N,
    lines: &mut Lines,
    link: &mut K,
    ledger: &mut L,
) -> Result<Turn, Ended>
    ensures became { OnOk result (Becomes N.answers node.old node.new) }
    ensures step { OnOk result (KeepsStep N.in_step node.old node.new (L.text ledger.old) (L.text ledger.new)) }
{
    match turn(node, lines, link, ledger) {
        Ok(turned) => Ok(turned),
        Err(fault) => Err(by_turn(fault)),
    }
}

// Accepted where a coordinator's board is complete.
pub(crate) fn outcome_of(node: &Coordinator) -> Outcome
    ensures board { IfSome node.now.held (λ held. IsBoard held.board) }
    ensures stands { IfSome node.now.held (λ held. (status : BoardStatus)
        × IsStatus held.board.root held.board.records status × (result ≡ outcome_by status Left.Nothing)) }
    ensures none { node.now.held ≡ None → result ≡ Outcome.Refused }
{
    match node.board() {
        Some(board) => {
            // The proof needs that it is a board.
            let _ = board.root();
            outcome_by(board.status(), &Left::Nothing)
        }
        None => Outcome::Refused,
    }
}

// `bb run` and `bb loop`: a coordinator and workers in one process, and then the report.
ghost use Rattle.std.specs.Prelude.{◌≤◌, List, ℕ, Option, Result, ◌≡◌, ◌⊎◌, All, IfOk, OnOk, map};
ghost use Rattle.machine_text.specs.Terms.{state_limit};
ghost use Rattle.cmd_options.specs.Terms.{EndsTold};
ghost use Rattle.cmd_options.specs.declared.ended.Ended.{Ended as Ends};
ghost use Rattle.cmd_options.specs.declared.ended.Outcome.{Outcome as Outcomes};
ghost use Rattle.cmd_ledgers.specs.Terms.{SettlesTree, TellsTree};
ghost use Rattle.cmd_nodes.specs.Settled.{IsRunBoard};
ghost use Rattle.cmd_nodes.specs.Served.{HasTakenRounds};
ghost use Rattle.cmd_nodes.specs.inside.{IsServed, IsSettled};

use crate::coord::{report_board, start_coordinator};
use crate::couriers::{Couriers, InMemory, OverSockets};
use crate::links::Sockets;
use crate::rounds::{Station, run_rounds};
use cmd_ledgers::ReportForm;
use cmd_options::{Beginning, Ended, Outcome, Settling, told};
use files::{Opened, Progress};
use lease_core::Coordinator;
use std::alloc::Global;
use std::io::{self, Read, Write};
use wire::{LedgerOut, Node};

/// Does what `cmd_run` does, but that the frames of each worker go over a connection of its own, and that none is lost.
/// A socket that fails ends it as a stream does.
#[tactic(auto, using(cmd_ledgers::proofs::TreeReports::tells))]
pub fn cmd_loop<
    P: ReportForm,
    F: Read + Drop,
    L: LedgerOut,
    N: Node + Drop,
    S: Sockets,
    G: Progress,
    W: Write,
    E: Write,
>(
    alloc: Global,
    run: Run<'_, P, N>,
    sockets: &S,
    held: io::Result<Opened<F>>,
    ledger: &mut L,
    progress: &mut G,
    answers: &mut W,
    faults: &mut E,
) -> Outcome
    requires { (1 ≤ run.settling.now.states) × (run.settling.now.states ≤ state_limit) }
    ensures tells { TellsTree (P.is_text run.entry.form.now) run.entry.settling.now.states
        (IsRunBoard N.answers run.entry.settling.now run.entry.workers.items F.remaining held (L.text ledger.old)
        (L.text ledger.new)) (W.contents answers.old) (W.contents answers.new) result }
    ensures ends { (ended : Result Outcomes Ends) × (said : Option (List ℕ))
        × SettlesTree (P.is_text run.entry.form.now) run.entry.settling.now.states
        (IsRunBoard N.answers run.entry.settling.now run.entry.workers.items F.remaining held (L.text ledger.old)
        (L.text ledger.new)) (W.contents answers.old) (W.contents answers.new) ended
        × EndsTold ended said (E.contents faults.new) result }
{
    let couriers = OverSockets { sockets };
    told(
        settle(alloc, run, &couriers, held, ledger, progress, answers),
        faults,
    )
}

/// What is run.
#[derive(Drop)]
pub struct Run<'a, P, N> {
    /// How the tree is settled.
    pub settling: &'a Settling<'a>,
    /// The form of the report.
    pub form: &'a P,
    /// The workers, which were started from empty ledgers.
    pub workers: Vec<N>,
}

/// Settles the tree of the empty table by a coordinator and workers, and prints the report in a form. The
/// coordinator's board begins with what `held` reads, and its records go to `ledger`. Accepted where the board is
/// complete at the end. How far it is goes to `progress`; what ends the command early is said on `faults`.
#[tactic(auto, using(cmd_ledgers::proofs::TreeReports::tells))]
pub fn cmd_run<
    P: ReportForm,
    F: Read + Drop,
    L: LedgerOut,
    N: Node + Drop,
    G: Progress,
    W: Write,
    E: Write,
>(
    alloc: Global,
    run: Run<'_, P, N>,
    held: io::Result<Opened<F>>,
    ledger: &mut L,
    progress: &mut G,
    answers: &mut W,
    faults: &mut E,
) -> Outcome
    requires { (1 ≤ run.settling.now.states) × (run.settling.now.states ≤ state_limit) }
    ensures tells { TellsTree (P.is_text run.entry.form.now) run.entry.settling.now.states
        (IsRunBoard N.answers run.entry.settling.now run.entry.workers.items F.remaining held (L.text ledger.old)
        (L.text ledger.new)) (W.contents answers.old) (W.contents answers.new) result }
    ensures ends { (ended : Result Outcomes Ends) × (said : Option (List ℕ))
        × SettlesTree (P.is_text run.entry.form.now) run.entry.settling.now.states
        (IsRunBoard N.answers run.entry.settling.now run.entry.workers.items F.remaining held (L.text ledger.old)
        (L.text ledger.new)) (W.contents answers.old) (W.contents answers.new) ended
        × EndsTold ended said (E.contents faults.new) result }
{
    let couriers = InMemory {
        lose: run.settling.lose,
    };
    told(
        settle(alloc, run, &couriers, held, ledger, progress, answers),
        faults,
    )
}

// A coordinator that is settled by its workers, and its report.
pub(crate) fn settle<
    P: ReportForm,
    F: Read + Drop,
    L: LedgerOut,
    N: Node + Drop,
    Y: Couriers,
    G: Progress,
    W: Write,
>(
    alloc: Global,
    run: Run<'_, P, N>,
    couriers: &Y,
    held: io::Result<Opened<F>>,
    ledger: &mut L,
    progress: &mut G,
    answers: &mut W,
) -> Result<Outcome, Ended>
    requires { (1 ≤ run.settling.now.states) × (run.settling.now.states ≤ state_limit) }
    ensures { SettlesTree (P.is_text run.entry.form.now) run.entry.settling.now.states
        (IsRunBoard N.answers run.entry.settling.now run.entry.workers.items F.remaining held (L.text ledger.old)
        (L.text ledger.new)) (W.contents answers.old) (W.contents answers.new) result }
{
    let beginning = Beginning {
        states: run.settling.states,
        era: 1,
    };
    let mut node = start_coordinator(alloc, beginning, held, ledger)?;
    let form = run.form;
    run_workers(alloc, run, couriers, &mut node, ledger, progress)?;
    report_board(alloc, form, &node, answers)
}

// The rounds alone.
fn run_workers<P, L: LedgerOut, N: Node + Drop, Y: Couriers, G: Progress>(
    alloc: Global,
    run: Run<'_, P, N>,
    couriers: &Y,
    node: &mut Coordinator,
    ledger: &mut L,
    progress: &mut G,
) -> Result<(), Ended>
    ensures served { OnOk result (IsServed node.old node.new (L.text ledger.old) (L.text ledger.new)) }
    ensures ends { OnOk result (IsSettled node.new
        ⊎ All (HasTakenRounds N.answers run.entry.settling.now.rounds) run.entry.workers.items) }
{
    let settling = run.settling;
    let mut stations = stations(alloc, run.workers, couriers)?;
    run_rounds(node, ledger, &mut stations, settling.rounds, progress)
}

// Each worker with a link of its own.
fn stations<N: Node + Drop, Y: Couriers>(
    alloc: Global,
    workers: Vec<N>,
    couriers: &Y,
) -> Result<Vec<Station<N, Y::Courier>>, Ended>
    ensures { IfOk result (λ stations. map (λ station. station.worker) stations.items ≡ workers.items) }
{
    let base = couriers.begin()?;
    let mut stations = Vec::new(alloc);
    for worker in workers {
        let station = Station::new(alloc, worker, couriers.courier(&base)?);
        if stations.push(station).is_err() {
            return Err(Ended::NoMemory);
        }
    }
    Ok(stations)
}

// Rounds of a coordinator and workers in one process.
ghost use Rattle.std.specs.Prelude.{◌≡◌, ◌≢◌, List, [], Ok, Err, IfErr, IfSome, OnOk, ◌⊎◌, true, false};
ghost use Rattle.cmd_nodes.specs.Served.{events_of_round, AnswersRound, TakesRound, Becomes, TakesRounds, NoneOpen};
ghost use Rattle.wire.specs.Terms.{BrokenOff, Faulted, Handed, fulfilled, scene, Happening, seen};
ghost use Rattle.wire.specs.declared.node.Out.{Out as Answer};
ghost use Rattle.cmd_nodes.specs.inside.{IsServed, KeepsStep, EachBecomes, IsSettled};

use crate::couriers::Courier;
use crate::held_ledger::{NoLedger, by_turn, in_memory};
use cmd_ledgers::keep_answer;
use cmd_options::Ended;
use files::Progress;
use lease_core::Coordinator;
use ledger::{Board, Status};
use std::alloc::Global;
use wire::{Event, LedgerOut, Lines, Link, MemLink, Node, TurnFault, fulfil, turn};

// How many work turns a worker gets in a round.
const WORK_TURNS: u32 = 8;

/// Hands a worker what happens to it in a round, each event once the answer to the one before is fulfilled, the
/// ledger's part of it first. A fault ends that.
pub fn work<N: Node, L: Link, W: LedgerOut>(
    node: &mut N,
    round: u64,
    link: &mut L,
    ledger: &mut W,
) -> Result<(), TurnFault>
    ensures ok { OnOk result (Handed N.answers (scene node.old (W.text ledger.old) (L.sent link.old))
        (events_of_round round) [] (scene node.new (W.text ledger.new) (L.sent link.new))) }
    ensures err { IfErr result (λ fault. (left : List Happening)
        × BrokenOff N.answers N.is_stopped (scene node.old (W.text ledger.old) (L.sent link.old))
        (events_of_round round) fault left (scene node.new (W.text ledger.new) (L.sent link.new))) }
    ensures step { result ≢ Err TurnFault.LedgerFault → IfSome (W.text ledger.old) (N.in_step node.old)
        → IfSome (W.text ledger.new) (N.in_step node.new) }
{
    let mut left = WORK_TURNS;
    'turns: while left > 0 {
        handle(node, Event::Work, link, ledger)?;
        left -= 1;
    }
    handle(node, Event::Tick(round), link, ledger)
}

// Hands a node an event, and fulfils its answer.
fn handle<N: Node, L: Link, W: LedgerOut>(
    node: &mut N,
    event: Event<'_>,
    link: &mut L,
    ledger: &mut W,
) -> Result<(), TurnFault>
    ensures ok { OnOk result ((out : Answer) × N.answers node.old (seen event.entry) (Ok out) node.new
        × (scene node.new (W.text ledger.new) (L.sent link.new)
        ≡ fulfilled out node.new (scene node.old (W.text ledger.old) (L.sent link.old)))) }
    ensures err { IfErr result (λ fault. Faulted N.answers N.is_stopped
        (scene node.old (W.text ledger.old) (L.sent link.old)) (seen event.entry) fault
        (scene node.new (W.text ledger.new) (L.sent link.new))) }
    ensures step { result ≢ Err TurnFault.LedgerFault → IfSome (W.text ledger.old) (N.in_step node.old)
        → IfSome (W.text ledger.new) (N.in_step node.new) }
{
    let out = node.on(event)?;
    fulfil(node, link, ledger, &out)
}

// A worker, whose ledger nobody reads, both ends of its link with the coordinator, which are in memory, and what delivers
// frames from one to the other. The worker is any node: what is proved of a type that keeps boxed finders would depend
// on the bodies of its calls.
#[derive(Drop)]
pub(crate) struct Station<N, Y> {
    worker: N,
    ledger: NoLedger,
    near: LinkEnd,
    far: LinkEnd,
    courier: Y,
}

// One end of a link, and the lines that came to it.
#[derive(Drop)]
struct LinkEnd {
    link: MemLink,
    lines: Lines,
}

impl LinkEnd {
    fn new(alloc: Global) -> LinkEnd {
        LinkEnd {
            link: MemLink::new(alloc),
            lines: Lines::new(alloc),
        }
    }

    // Hands all that waits to a node, and fulfils what it answers.
    fn serve<N: Node, L: LedgerOut>(
        &mut self,
        node: &mut N,
        ledger: &mut L,
    ) -> Result<(), TurnFault>
        ensures became { OnOk result (Becomes N.answers node.old node.new) }
        ensures step { OnOk result (KeepsStep N.in_step node.old node.new (L.text ledger.old) (L.text ledger.new)) }
    {
        for _ in 0..u64::MAX {
            if self.link.waiting().is_empty() {
                break;
            }
            turn(node, &mut self.lines, &mut self.link, ledger)?;
        }
        Ok(())
    }
}

impl<N: Node, Y: Courier> Station<N, Y> {
    // A worker that was started from an empty ledger.
    pub fn new(alloc: Global, worker: N, courier: Y) -> Station<N, Y>
        ensures { result.worker ≡ worker }
    {
        Station {
            worker,
            ledger: NoLedger,
            near: LinkEnd::new(alloc),
            far: LinkEnd::new(alloc),
            courier,
        }
    }

    // A worker's part of a round: it works, its frames go to the coordinator, and the answers come back.
    pub fn take_round<L: LedgerOut>(
        &mut self,
        round: u64,
        coordinator: &mut Coordinator,
        ledger: &mut L,
    ) -> Result<(), Ended>
        ensures served { OnOk result
            (IsServed coordinator.old coordinator.new (L.text ledger.old) (L.text ledger.new)) }
        ensures taken { OnOk result (TakesRound N.answers round self.old.worker self.new.worker) }
    {
        self.work_for(round)?;
        self.courier
            .to_coordinator(&mut self.near.link, &mut self.far.link)?;
        serve_coordinator(&mut self.far, coordinator, ledger)?;
        self.courier
            .to_worker(&mut self.far.link, &mut self.near.link)?;
        match self.near.serve(&mut self.worker, &mut self.ledger) {
            Ok(()) => Ok(()),
            Err(_) => Err(Ended::NoMemory),
        }
    }

    // The worker works, and is told the round. All that is its own is in memory.
    fn work_for(&mut self, round: u64) -> Result<(), Ended>
        ensures { OnOk result (AnswersRound N.answers round self.old.worker self.new.worker) }
    {
        match work(
            &mut self.worker,
            round,
            &mut self.near.link,
            &mut self.ledger,
        ) {
            Ok(()) => Ok(()),
            Err(_) => Err(Ended::NoMemory),
        }
    }
}

// Hands a coordinator all that waits.
fn serve_coordinator<L: LedgerOut>(
    far: &mut LinkEnd,
    coordinator: &mut Coordinator,
    ledger: &mut L,
) -> Result<(), Ended>
    ensures { OnOk result (IsServed coordinator.old coordinator.new (L.text ledger.old) (L.text ledger.new)) }
{
    match far.serve(coordinator, ledger) {
        Ok(()) => Ok(()),
        Err(fault) => Err(in_memory(fault)),
    }
}

// Runs rounds, numbered from 1, until no table is open or so many were run. A round is a tick of the
// coordinator, and then each worker's part.
pub(crate) fn run_rounds<N: Node, Y: Courier, L: LedgerOut, P: Progress>(
    coordinator: &mut Coordinator,
    ledger: &mut L,
    stations: &mut Vec<Station<N, Y>>,
    rounds: u64,
    progress: &mut P,
) -> Result<(), Ended>
    ensures served { OnOk result (IsServed coordinator.old coordinator.new (L.text ledger.old) (L.text ledger.new)) }
    ensures ends { OnOk result (IsSettled coordinator.new
        ⊎ EachBecomes (TakesRounds N.answers rounds) stations.old.items stations.new.items) }
{
    for before in 0..rounds {
        if is_settled(coordinator) {
            return Ok(());
        }
        run_round(coordinator, ledger, stations, before + 1)?;
        if let Some(board) = coordinator.board() {
            progress.tell(board);
        }
    }
    Ok(())
}

fn run_round<N: Node, Y: Courier, L: LedgerOut>(
    coordinator: &mut Coordinator,
    ledger: &mut L,
    stations: &mut Vec<Station<N, Y>>,
    round: u64,
) -> Result<(), Ended>
    ensures served { OnOk result (IsServed coordinator.old coordinator.new (L.text ledger.old) (L.text ledger.new)) }
    ensures taken { OnOk result (EachBecomes (TakesRound N.answers round) stations.old.items stations.new.items) }
{
    tick(coordinator, ledger, round)?;
    for station in stations.iter_mut() {
        station.take_round(round, coordinator, ledger)?;
    }
    Ok(())
}

// Tells a coordinator the round.
fn tick<L: LedgerOut>(
    coordinator: &mut Coordinator,
    ledger: &mut L,
    round: u64,
) -> Result<(), Ended>
    ensures { OnOk result (IsServed coordinator.old coordinator.new (L.text ledger.old) (L.text ledger.new)) }
{
    match coordinator.on(Event::Tick(round)) {
        Ok(out) => keep_answer(&out, ledger),
        Err(fault) => Err(by_turn(TurnFault::Node(fault))),
    }
}

// Whether no table of its board is open.
pub(crate) fn is_settled(coordinator: &Coordinator) -> bool
    ensures settled { result ≡ true → IsSettled coordinator.now }
    ensures open { result ≡ false → IsSettled coordinator.now → ⊥ }
{
    match coordinator.board() {
        Some(board) => has_none_open(board),
        None => true,
    }
}

fn has_none_open(board: &Board) -> bool
    ensures none { result ≡ true → NoneOpen board.now }
    ensures some { result ≡ false → NoneOpen board.now → ⊥ }
{
    match board.status() {
        Status::Working { .. } => false,
        Status::Holdouts { .. } | Status::Complete { .. } => true,
    }
}

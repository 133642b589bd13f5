// `bb coord --listen`: a coordinator whose workers connect, and then the report.
ghost use Rattle.std.specs.Prelude.{◌≡◌, ◌≤◌, [], None, IfOk, OnErr, OnOk};
ghost use Rattle.machine_text.specs.Terms.{state_limit, empty_table};
ghost use Rattle.cmd_ledgers.specs.Terms.{SettlesTree};
ghost use Rattle.lease_core.specs.Terms.{Coordinating, On};
ghost use Rattle.peers.specs.Terms.{TakesAsBefore, Served, served, unheard};
ghost use Rattle.cmd_nodes.specs.Served.{HasListened, Listens, ListensFrom, ListensUntil, traffic, IsBegunFrom};
ghost use Rattle.cmd_nodes.specs.Settled.{IsBegunOfPart, IsSettledBoard, SettlesPart};
ghost use Rattle.cmd_nodes.specs.inside.{IsServed, IsSettled};

use crate::coord::{report_board, start_coordinator, start_part};
use crate::held_ledger::by_turn;
use crate::rounds::is_settled;
use cmd_ledgers::ReportForm;
use cmd_options::{Beginning, Ended, Outcome};
use files::{Opened, Progress};
use lease_core::Coordinator;
use peers::{Conduct, Connections, Guarded, Peers, serve};
use std::alloc::Global;
use std::io::{self, Read, Write};
use wire::LedgerOut;

// How many bytes of a peer are taken at once: some more than an honest one has ready, so that one who sends without a pause
// gets no larger share of the coordinator.
const PIECE_BYTES: usize = 2_048;

// How long a coordinator whose tree is settled waits for workers to ask, so that each is told to stop, in seconds.
const LINGER_SECONDS: u64 = 5;

/// How a coordinator serves workers that connect.
#[derive(Drop)]
pub struct Serving<'a, P> {
    /// How it is begun.
    pub beginning: Beginning,
    /// The form of the report.
    pub form: &'a P,
    /// What it takes from them.
    pub conduct: Conduct,
}

/// Settles the tree of the empty table by a coordinator and workers that connect, and prints the report in a form: once no
/// table is open, and each worker is gone or 5 seconds are over. The coordinator's board begins with what `held` reads, and its
/// records go to `ledger`, each before it is acknowledged. Accepted where the board is complete at the end. How far it is goes
/// to `progress`.
///
/// Whatever comes over the connections is answered as the coordinator answers, and those that asked are sent as much of the
/// answers as they take; nothing else is sent. So it is until this ends, early too, but for what came last then.
pub fn serve_tree<
    P: ReportForm,
    F: Read + Drop,
    L: LedgerOut,
    K: Connections,
    G: Progress,
    W: Write,
>(
    alloc: Global,
    serving: Serving<'_, P>,
    held: io::Result<Opened<F>>,
    ledger: &mut L,
    connections: &mut K,
    progress: &mut G,
    answers: &mut W,
) -> Result<Outcome, Ended>
    requires { (1 ≤ serving.beginning.states) × (serving.beginning.states ≤ state_limit) }
    ensures settles { SettlesTree (P.is_text serving.entry.form.now) serving.entry.beginning.states
        (IsSettledBoard serving.entry.beginning.states serving.entry.beginning.era F.remaining held
        serving.entry.conduct (K.takes connections.old) (L.text ledger.old) (L.text ledger.new)
        (traffic (K.arrived connections.old) (K.sent connections.old))
        (traffic (K.arrived connections.new) (K.sent connections.new)))
        (W.contents answers.old) (W.contents answers.new) result }
    ensures early { OnErr result (ListensUntil
        (IsBegunFrom serving.entry.beginning.states serving.entry.beginning.era F.remaining held)
        serving.entry.conduct (K.takes connections.old)
        (traffic (K.arrived connections.old) (K.sent connections.old))
        (traffic (K.arrived connections.new) (K.sent connections.new))) }
{
    let node = start_coordinator(alloc, serving.beginning, held, ledger)?;
    let Serving { form, conduct, .. } = serving;
    let guarded = serve_connected(alloc, node, conduct, ledger, connections, progress)?;
    let last = guarded.node();
    report_board(alloc, form, last, answers)
}

/// How a coordinator serves workers that connect, where it goes on with the ledger of a part.
#[derive(Drop)]
pub struct ServingPart<'a, P> {
    /// What tells its leases from those of an earlier run.
    pub era: u64,
    /// The form of the report.
    pub form: &'a P,
    /// What it takes from workers.
    pub conduct: Conduct,
}

/// Goes on with a ledger, as `bb split` begins one for each part, by a coordinator and workers that connect, and prints the
/// report of its board in a form, as `serve_tree` does of a whole tree: the root is the one that the ledger's header names.
/// `held` reads what the ledger holds, which is cut to what is kept of it. Accepted where the board is complete at the end.
pub fn serve_part<
    P: ReportForm,
    F: Read + Drop,
    L: LedgerOut,
    K: Connections,
    G: Progress,
    W: Write,
>(
    alloc: Global,
    serving: ServingPart<'_, P>,
    held: Opened<F>,
    ledger: &mut L,
    connections: &mut K,
    progress: &mut G,
    answers: &mut W,
) -> Result<Outcome, Ended>
    ensures settles { SettlesPart (P.is_text serving.entry.form.now) serving.entry.era (F.remaining held.reader)
        held.length serving.entry.conduct (K.takes connections.old)
        (traffic (K.arrived connections.old) (K.sent connections.old))
        (traffic (K.arrived connections.new) (K.sent connections.new))
        (L.text ledger.old) (L.text ledger.new) (W.contents answers.old) (W.contents answers.new) result }
    ensures early { OnErr result (ListensUntil
        (IsBegunOfPart serving.entry.era (F.remaining held.reader) held.length) serving.entry.conduct
        (K.takes connections.old)
        (traffic (K.arrived connections.old) (K.sent connections.old))
        (traffic (K.arrived connections.new) (K.sent connections.new))) }
{
    let node = start_part(alloc, serving.era, held, ledger)?;
    let ServingPart { form, conduct, .. } = serving;
    let guarded = serve_connected(alloc, node, conduct, ledger, connections, progress)?;
    let last = guarded.node();
    report_board(alloc, form, last, answers)
}

// Serves workers that connect with a coordinator, behind a guard for each.
fn serve_connected<L: LedgerOut, K: Connections, G: Progress>(
    alloc: Global,
    node: Coordinator,
    conduct: Conduct,
    ledger: &mut L,
    connections: &mut K,
    progress: &mut G,
) -> Result<Guarded<Coordinator>, Ended>
    ensures served { IfOk result (λ guarded. IsServed node guarded.node (L.text ledger.old) (L.text ledger.new)) }
    ensures settled { IfOk result (λ guarded. IsSettled guarded.node) }
    ensures listened { IfOk result (λ guarded. HasListened conduct (K.takes connections.old) node guarded.node
        (L.text ledger.new)
        (traffic (K.arrived connections.old) (K.sent connections.old))
        (traffic (K.arrived connections.new) (K.sent connections.new))) }
    ensures early { OnErr result (ListensFrom On (K.takes connections.old)
        (served (unheard conduct node) (L.text ledger.old) [])
        (traffic (K.arrived connections.old) (K.sent connections.old))
        (traffic (K.arrived connections.new) (K.sent connections.new))) }
{
    let mut guarded = Guarded::new(alloc, node, conduct);
    serve_workers(alloc, &mut guarded, ledger, connections, progress)?;
    Ok(guarded)
}

// Takes what comes, until the tree is settled and nobody is left to be told. `Stream` where that doesn't end.
fn serve_workers<L: LedgerOut, K: Connections, G: Progress>(
    alloc: Global,
    node: &mut Guarded<Coordinator>,
    ledger: &mut L,
    connections: &mut K,
    progress: &mut G,
) -> Result<(), Ended>
    ensures served { OnOk result (IsServed node.old.node node.new.node (L.text ledger.old) (L.text ledger.new)) }
    ensures settled { OnOk result (IsSettled node.new.node) }
    ensures listens { OnOk result ((new : Served Coordinating) × (new.node ≡ node.new)
        × (new.text ≡ L.text ledger.new)
        × Listens On (K.takes connections.old) (served node.old (L.text ledger.old) []) new None
        (traffic (K.arrived connections.old) (K.sent connections.old))
        (traffic (K.arrived connections.new) (K.sent connections.new))) }
    ensures early { OnErr result (ListensFrom On (K.takes connections.old) (served node.old (L.text ledger.old) [])
        (traffic (K.arrived connections.old) (K.sent connections.old))
        (traffic (K.arrived connections.new) (K.sent connections.new))) }
{
    let mut piece = vec![in alloc; 0; PIECE_BYTES]?;
    let mut peers = Peers::new(alloc);
    let mut settled = None;
    for _ in 0..u64::MAX {
        if is_settled(node.node()) && (peers.count() == 0 || is_over(node, &mut settled)) {
            return Ok(());
        }
        serve_once(connections, &mut piece, &mut peers, node, ledger)?;
        progress.count_workers(peers.count());
        if let Some(board) = node.node().board() {
            progress.tell(board);
        }
    }
    Err(Ended::Stream)
}

// Takes what comes next to a coordinator.
fn serve_once<L: LedgerOut, K: Connections>(
    connections: &mut K,
    piece: &mut [u8],
    peers: &mut Peers,
    node: &mut Guarded<Coordinator>,
    ledger: &mut L,
) -> Result<(), Ended>
    ensures served { OnOk result (IsServed node.old.node node.new.node (L.text ledger.old) (L.text ledger.new)) }
    ensures listens { OnOk result (Listens On (K.takes connections.old)
        (served node.old (L.text ledger.old) peers.old) (served node.new (L.text ledger.new) peers.new) None
        (traffic (K.arrived connections.old) (K.sent connections.old))
        (traffic (K.arrived connections.new) (K.sent connections.new))) }
    ensures early { OnErr result (ListensFrom On (K.takes connections.old)
        (served node.old (L.text ledger.old) peers.old)
        (traffic (K.arrived connections.old) (K.sent connections.old))
        (traffic (K.arrived connections.new) (K.sent connections.new))) }
    ensures takes { TakesAsBefore (K.takes connections.old) (K.takes connections.new) }
{
    match serve(connections, piece, peers, node, ledger) {
        Ok(()) => Ok(()),
        Err(fault) => Err(by_turn(fault)),
    }
}

// Whether workers were waited for long enough, since this was asked first.
fn is_over<N>(node: &Guarded<N>, settled: &mut Option<u64>) -> bool {
    let now = node.moment();
    let since = *settled.get_or_insert(now);
    now.saturating_sub(since) >= LINGER_SECONDS
}

// `bb run`, `bb loop` and `bb coord`, and the token that a coordinator and its workers have.
ghost use Rattle.std.specs.Prelude.{IfOk, ◌≡◌, None, Some, vec_len};
ghost use Rattle.cmd_dispatch.specs.Nodes.{IsTokenAt, LeavesUnbegun, RunsOver, RunsWith, IsConductOf, ServesBegun, ServesKept, ServesOver};
ghost use Rattle.files.specs.Terms.{held_bytes};
ghost use Rattle.cmd_json.specs.Terms.{IsText, form_of};
ghost use Rattle.cmd_ledgers.specs.Terms.{SettlesTree};
ghost use Rattle.cmd_nodes.specs.Terms.{IsRunBoard, traffic};
ghost use Rattle.cmd_options.specs.Terms.{IsBeginning, IsSettling};
ghost use Rattle.cmd_dispatch.specs.Lines.{OnceLeaving, ToldApart, output_of};

use crate::host::{Commands, Environment, Host, KnownRecords};
use crate::ledger_commands::{Kept, nothing};
use crate::walk_command::Late;
use cert::Finders;
use cmd_json::LinesOrJson;
use cmd_ledgers::open_held;
use cmd_nodes::{
    Admission, MaybeLedger, Network, Run, Serving, ServingPart, by_start, cmd_coord, cmd_loop,
    cmd_run, serve_part, serve_tree,
};
use cmd_options::{
    Beginning, Ended, LedgerFile, Listening, Options, Outcome, PartCoordinating, Search, Settling,
    ended_by,
};
use files::{Files, Opened, Progress, ledger_at, lock_ledger};
use find_search::{AnyFinder, decider_for};
use lease_core::Worker;
use peers::{Conduct, Connections};
use std::alloc::Global;
use std::io::{self, Read, Write};
use system::Work;
use wire::{LedgerOut, Node, Out};

// How many bytes a token has at least.
const FEWEST_BYTES: usize = 16;

/// The token in a file, without a newline at its end; none where no file is named. `File` where it can't be read, or is too
/// short.
pub(crate) fn token_of<H: Network>(host: &H, path: Option<&str>) -> Result<Option<Vec<u8>>, Ended>
    ensures { IfOk result (IsTokenAt path.entry) }
{
    let Some(path) = path else {
        return Ok(None);
    };
    let mut token = match host.token_at(path) {
        Ok(token) => token,
        Err(fault) => return Err(ended_by(&fault, Ended::File)),
    };
    if token.ends_with(b"\n") {
        let _ = token.pop();
    }
    if token.len() < FEWEST_BYTES {
        host.remember_loss(path, "a token has at least 16 bytes");
        return Err(Ended::File);
    }
    Ok(Some(token))
}

/// A worker that asks all finders.
pub(crate) type SearchingWorker<'a> = Worker<Finders<AnyFinder<'a>>>;

// What frames go over between the coordinator of a run and its workers.
#[derive(Clone, Copy, Debug, PartialEq, Eq)]
pub(crate) enum Links {
    // Queues of this process: `bb run`.
    InProcess,
    // Connections of this computer: `bb loop`.
    Sockets,
}

// How a tree is settled, and over what.
#[derive(Clone, Copy)]
struct Running<'a> {
    settling: &'a Settling<'a>,
    links: Links,
}

impl<S: Environment, H: Files, R: Read, W: Write, E: Write> Host<'_, S, H, R, W, E> {
    // `bb coord`, over the input and the answers.
    pub(crate) fn coord(
        &mut self,
        beginning: Beginning,
        ledger: Option<LedgerFile<'_>>,
    ) -> Result<Outcome, Ended>
        requires { IsBeginning beginning }
        ensures { ⟦<Self as Commands>⟧.does (Options.Coord beginning ledger.entry None) self.old self.new result }
    {
        match ledger {
            Some(file) => self.coord_kept(beginning, file),
            None => {
                let held = nothing::<H::Reader>();
                let mut ledger: MaybeLedger<H::Ledger> = MaybeLedger::Nothing;
                Ok(cmd_coord(
                    self.alloc,
                    beginning,
                    held,
                    &mut ledger,
                    &mut self.input,
                    &mut self.answers,
                    &mut self.faults,
                ))
            }
        }
    }

    // With a ledger.
    #[tactic(auto, using(crate::proofs::HostedCommands::written))]
    fn coord_kept(&mut self, beginning: Beginning, file: LedgerFile<'_>) -> Result<Outcome, Ended>
        requires { IsBeginning beginning }
        ensures { ⟦<Self as Commands>⟧.does (Options.Coord beginning (Some file.entry) None) self.old self.new result }
    {
        let Kept {
            held,
            mut ledger,
            lock: _lock,
        } = Kept::at(&mut self.files, file)?;
        let outcome = cmd_coord(
            self.alloc,
            beginning,
            held,
            &mut ledger,
            &mut self.input,
            &mut self.answers,
            &mut self.faults,
        );
        self.files.close(file.path, ledger);
        Ok(outcome)
    }

    // `bb run` and `bb loop`.
    #[tactic(auto, using(crate::proofs::HostedCommands::with_workers))]
    pub(crate) fn run(
        &mut self,
        known: KnownRecords<'_>,
        links: Links,
        settling: &Settling<'_>,
        ledger: Option<LedgerFile<'_>>,
    ) -> Result<Outcome, Ended>
        requires { IsSettling settling.now }
        ensures { ⟦<Self as Commands>⟧.does (Options.Run settling.now ledger.entry) self.old self.new result }
    {
        let workers = workers_of(self.alloc, known, settling)?;
        let late = Late::new(self.alloc)?;
        let running = Running { settling, links };
        match ledger {
            Some(file) => self.run_kept(running, workers, late, file),
            None => Ok(self.run_alone(running, workers, late)),
        }
    }

    // With a ledger.
    #[tactic(auto, using(crate::proofs::HostedCommands::ran_kept))]
    fn run_kept<N: Node + Drop>(
        &mut self,
        running: Running<'_>,
        workers: Vec<N>,
        late: Late,
        file: LedgerFile<'_>,
    ) -> Result<Outcome, Ended>
        requires { IsSettling running.settling.now }
        ensures { OnceLeaving (RunsWith N.answers (held_bytes H.Reader.remaining) (H.tells_same self.old.files)
            (H.holds self.old.files) (H.holds self.new.files) running.entry.settling.now workers.items
            (Some file.entry) (output_of W.contents E.contents self.old self.new))
            (LeavesUnbegun (H.tells_same self.old.files) (H.holds self.old.files) (H.holds self.new.files)
            (Some file.entry)) (output_of W.contents E.contents self.old self.new) result }
    {
        let Kept {
            held,
            mut ledger,
            lock: _lock,
        } = Kept::at(&mut self.files, file)?;
        let outcome = self.run_over(running, workers, late, held, &mut ledger);
        self.files.close(file.path, ledger);
        Ok(outcome)
    }

    // Without one.
    #[tactic(auto, using(crate::proofs::HostedCommands::ran_alone))]
    fn run_alone<N: Node + Drop>(
        &mut self,
        running: Running<'_>,
        workers: Vec<N>,
        late: Late,
    ) -> Outcome
        requires { IsSettling running.settling.now }
        ensures { RunsWith N.answers (held_bytes H.Reader.remaining) (H.tells_same self.old.files)
            (H.holds self.old.files) (H.holds self.new.files) running.entry.settling.now workers.items None
            (output_of W.contents E.contents self.old self.new) result }
    {
        let held = nothing::<H::Reader>();
        let mut ledger: MaybeLedger<H::Ledger> = MaybeLedger::Nothing;
        self.run_over(running, workers, late, held, &mut ledger)
    }

    // Settles the tree with some workers, over what a ledger held.
    fn run_over<N: Node + Drop, F: Read + Drop, L: LedgerOut>(
        &mut self,
        running: Running<'_>,
        workers: Vec<N>,
        mut late: Late,
        held: io::Result<Opened<F>>,
        ledger: &mut L,
    ) -> Outcome
        requires { IsSettling running.settling.now }
        ensures files { self.new.files ≡ self.old.files }
        ensures runs { RunsOver N.answers F.remaining running.entry.settling.now workers.items held
            (L.text ledger.old) (L.text ledger.new) (output_of W.contents E.contents self.old self.new) result }
    {
        let mut progress = self.progress(running.settling.progress, Work::Tree);
        let outcome = self.run_by(running, workers, held, ledger, &mut progress, &mut late);
        progress.end();
        late.say(outcome, &mut self.faults)
    }

    // Settles it over links of this kind; what is to be said at the end is kept.
    fn run_by<N: Node + Drop, F: Read + Drop, L: LedgerOut, G: Progress>(
        &mut self,
        running: Running<'_>,
        workers: Vec<N>,
        held: io::Result<Opened<F>>,
        ledger: &mut L,
        progress: &mut G,
        late: &mut Late,
    ) -> Outcome
        requires { IsSettling running.settling.now }
        ensures files { self.new.files ≡ self.old.files }
        ensures runs { ToldApart (SettlesTree (IsText (form_of running.entry.settling.now.json))
            running.entry.settling.now.states (IsRunBoard N.answers running.entry.settling.now workers.items
            F.remaining held (L.text ledger.old) (L.text ledger.new)) (W.contents self.old.answers)
            (W.contents self.new.answers)) result }
    {
        let form = LinesOrJson::of(running.settling.json);
        let run = Run {
            settling: running.settling,
            form: &form,
            workers,
        };
        let (alloc, answers, words) = (self.alloc, &mut self.answers, &mut late.words);
        match running.links {
            Links::InProcess => cmd_run(alloc, run, held, ledger, progress, answers, words),
            Links::Sockets => {
                cmd_loop(
                    alloc,
                    run,
                    self.system,
                    held,
                    ledger,
                    progress,
                    answers,
                    words,
                )
            }
        }
    }
}

// So many workers, with the ids from 1 on, each started from an empty ledger.
fn workers_of<'a>(
    alloc: Global,
    known: KnownRecords<'a>,
    settling: &Settling<'_>,
) -> Result<Vec<SearchingWorker<'a>>, Ended>
    ensures { IfOk result (λ workers. vec_len workers ≡ settling.now.workers) }
{
    let mut workers = Vec::new(alloc);
    for place in 0..u32::from(settling.workers) {
        let (worker, _) = worker_of(alloc, known, &settling.search, place + 1, b"")?;
        if workers.push(worker).is_err() {
            return Err(Ended::NoMemory);
        }
    }
    Ok(workers)
}

// A worker that is started from what its ledger holds, and what it asks for then.
pub(crate) fn worker_of<'a>(
    alloc: Global,
    known: KnownRecords<'a>,
    search: &Search<'_>,
    id: u32,
    held: &[u8],
) -> Result<(SearchingWorker<'a>, Out), Ended> {
    let finders = decider_for(alloc, known, search)?;
    let (worker, started) = Worker::over(alloc, id, held, finders);
    match started {
        Ok(first) => Ok((worker, first)),
        Err(fault) => Err(by_start(fault)),
    }
}

// How a coordinator of a tree begins and listens, and how it hears those that come.
#[derive(Clone, Copy)]
struct Served<'a> {
    beginning: Beginning,
    listening: Listening<'a>,
    conduct: Conduct,
}

impl<S: Environment, H: Files, R: Read, W: Write, E: Write> Host<'_, S, H, R, W, E> {
    // Of the tree of the empty table.
    pub(crate) fn serve(
        &mut self,
        beginning: Beginning,
        ledger: Option<LedgerFile<'_>>,
        listening: Listening<'_>,
    ) -> Result<Outcome, Ended>
        requires { IsBeginning beginning }
        ensures { ⟦<Self as Commands>⟧.does (Options.Coord beginning ledger.entry (Some listening.entry)) self.old
            self.new result }
    {
        let (mut connections, conduct) = listened(self.system, &listening)?;
        let served = Served {
            beginning,
            listening,
            conduct,
        };
        match ledger {
            Some(file) => self.serve_kept(served, file, &mut connections),
            None => self.serve_alone(served, &mut connections),
        }
    }

    // Of a part, whose ledger has to be there.
    #[tactic(auto, using(crate::proofs::HostedCommands::continued))]
    pub(crate) fn serve_ledger(
        &mut self,
        coordinating: PartCoordinating<'_>,
    ) -> Result<Outcome, Ended>
        ensures { ⟦<Self as Commands>⟧.does (Options.CoordPart coordinating.entry) self.old self.new result }
    {
        let (file, listening) = (coordinating.file, coordinating.listening);
        let (mut connections, conduct) = listened(self.system, &listening)?;
        let _lock = lock_ledger(&self.files, file.path)?;
        let held = open_held(&self.files, file.path)?;
        let mut ledger = ledger_at(&mut self.files, &file)?;
        let form = LinesOrJson::of(listening.json);
        let serving = ServingPart {
            era: coordinating.era,
            form: &form,
            conduct,
        };
        let mut progress = self.progress(listening.progress, Work::Tree);
        let ended = serve_part(
            self.alloc,
            serving,
            held,
            &mut ledger,
            &mut connections,
            &mut progress,
            &mut self.answers,
        );
        progress.end();
        self.files.close(file.path, ledger);
        ended
    }

    // With a ledger.
    #[tactic(auto, using(crate::proofs::HostedCommands::served_kept))]
    fn serve_kept<K: Connections>(
        &mut self,
        served: Served<'_>,
        file: LedgerFile<'_>,
        connections: &mut K,
    ) -> Result<Outcome, Ended>
        requires { IsBeginning served.beginning }
        ensures { ServesBegun (held_bytes H.Reader.remaining) K.takes (λ c. traffic (K.arrived c) (K.sent c))
            (H.tells_same self.old.files) (H.holds self.old.files) (H.holds self.new.files) served.entry.beginning
            (Some file.entry) served.entry.listening served.entry.conduct connections.old connections.new
            (output_of W.contents E.contents self.old self.new) result }
    {
        let Kept {
            held,
            mut ledger,
            lock: _lock,
        } = Kept::at(&mut self.files, file)?;
        let ended = self.serve_over(served, held, &mut ledger, connections);
        self.files.close(file.path, ledger);
        ended
    }

    // Without one.
    #[tactic(auto, using(crate::proofs::HostedCommands::served_alone))]
    fn serve_alone<K: Connections>(
        &mut self,
        served: Served<'_>,
        connections: &mut K,
    ) -> Result<Outcome, Ended>
        requires { IsBeginning served.beginning }
        ensures { ServesKept (held_bytes H.Reader.remaining) K.takes (λ c. traffic (K.arrived c) (K.sent c))
            (H.tells_same self.old.files) (H.holds self.old.files) (H.holds self.new.files) served.entry.beginning
            None served.entry.listening served.entry.conduct connections.old connections.new
            (output_of W.contents E.contents self.old self.new) result }
    {
        let held = nothing::<H::Reader>();
        let mut ledger: MaybeLedger<H::Ledger> = MaybeLedger::Nothing;
        self.serve_over(served, held, &mut ledger, connections)
    }

    // Over what a ledger held.
    fn serve_over<F: Read + Drop, L: LedgerOut, K: Connections>(
        &mut self,
        served: Served<'_>,
        held: io::Result<Opened<F>>,
        ledger: &mut L,
        connections: &mut K,
    ) -> Result<Outcome, Ended>
        requires { IsBeginning served.beginning }
        ensures files { self.new.files ≡ self.old.files }
        ensures serves { ServesOver F.remaining K.takes (λ c. traffic (K.arrived c) (K.sent c))
            served.entry.beginning served.entry.listening served.entry.conduct connections.old connections.new held
            (L.text ledger.old) (L.text ledger.new) (output_of W.contents E.contents self.old self.new) result }
    {
        let form = LinesOrJson::of(served.listening.json);
        let serving = Serving {
            beginning: served.beginning,
            form: &form,
            conduct: served.conduct,
        };
        let mut progress = self.progress(served.listening.progress, Work::Tree);
        let ended = serve_tree(
            self.alloc,
            serving,
            held,
            ledger,
            connections,
            &mut progress,
            &mut self.answers,
        );
        progress.end();
        ended
    }
}

// Listens, and how those that come are heard: who showed the token may hand in holdouts.
fn listened<S: Network>(
    system: &S,
    listening: &Listening<'_>,
) -> Result<(S::Connections, Conduct), Ended>
    ensures { IfOk result (λ r. IsConductOf listening.now r.1) }
{
    let admission = Admission {
        token: token_of(system, listening.token)?,
        per_address: listening.per_address,
    };
    let conduct = Conduct {
        takes_holdouts: listening.accept_holdouts || admission.token.is_some(),
    };
    let connections = system.listen_at(listening.address, admission)?;
    Ok((connections, conduct))
}

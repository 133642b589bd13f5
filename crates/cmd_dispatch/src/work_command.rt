// `bb work`: the workers of a process, their ids and their ledgers, and the coordinator that they call.
ghost use Rattle.cmd_options.specs.Terms.{IsWorking};
ghost use Rattle.cmd_dispatch.specs.Lines.{input_of, output_of};
ghost use Rattle.cmd_dispatch.specs.Nodes.{WorksAt, WorksFor};

use crate::host::{Commands, Environment, Host, KnownRecords};
use crate::ledger_commands::{Kept, nothing};
use crate::node_commands::{SearchingWorker, token_of, worker_of};
use cmd_ledgers::keep_answer;
use cmd_nodes::{Destination, MaybeLedger, work_at, work_between};
use cmd_options::{Ended, LedgerFile, Options, Outcome, Working, ended_by};
use files::{Files, Held, Opened};
use peers::Pool;
use std::alloc::Global;
use std::io::{self, Read, Write};
use std::time::Clock;
use wire::{LedgerOut, Node};

// The workers of a process, each with its ledger, and the locks of these.
#[derive(Drop)]
struct Workers<'a, H: Files> {
    pool: Pool<SearchingWorker<'a>, MaybeLedger<H::Ledger>>,
    locks: Vec<H::Lock>,
}

impl<S: Environment, H: Files, R: Read, W: Write, E: Write> Host<'_, S, H, R, W, E> {
    // `bb work`.
    pub(crate) fn work(
        &mut self,
        known: KnownRecords<'_>,
        working: &Working<'_>,
    ) -> Result<Outcome, Ended>
        requires { IsWorking working.now }
        ensures { ⟦<Self as Commands>⟧.does (Options.Work working.now) self.old self.new result }
    {
        let token = token_of(self.system, working.token)?;
        let Workers {
            mut pool,
            locks: _locks,
        } = workers_of(self.alloc, self.system, known, working, &mut self.files)?;
        self.work_for(working, &token, &mut pool)
    }

    // For the coordinator at an address, or for the one whose frames come on the input.
    fn work_for<N: Node, L: LedgerOut>(
        &mut self,
        working: &Working<'_>,
        token: &Option<Vec<u8>>,
        pool: &mut Pool<N, L>,
    ) -> Result<Outcome, Ended>
        ensures { WorksFor S.Caller.calls working.now working.now.connect (input_of R.remaining self.old self.new)
            (output_of W.contents E.contents self.old self.new) result }
    {
        match working.connect {
            Some(address) => {
                let to = coordinator_at(address, token);
                work_called(
                    self.alloc,
                    pool,
                    self.system,
                    to,
                    working.tries,
                    &mut self.faults,
                )
            }
            None => work_between(
                self.alloc,
                pool,
                &mut self.input,
                &mut self.answers,
                self.system,
            ),
        }
    }
}

// For one that is called.
#[tactic(auto, using(crate::proofs::HostedCommands::worked_at))]
fn work_called<N: Node, L: LedgerOut, S: Environment, E: Write>(
    alloc: Global,
    pool: &mut Pool<N, L>,
    system: &S,
    to: Destination<'_>,
    tries: u64,
    faults: &mut E,
) -> Result<Outcome, Ended>
    ensures { WorksAt S.Caller.calls tries result }
{
    if system.tells_terminal() {
        // Nothing hangs on whether it can be said.
        let _ = writeln!(faults, "connecting with {}", to.address);
    }
    let mut caller = system.caller();
    work_at(alloc, pool, system, &mut caller, to, tries)
}

// A coordinator at an address, to which this token is shown. A function of its own, since both are lent for as long here.
fn coordinator_at<'a>(address: &'a str, token: &'a Option<Vec<u8>>) -> Destination<'a> {
    let token = token.as_deref();
    Destination { address, token }
}

// All workers of the process, with ids that follow one another.
fn workers_of<'a, C: Clock, H: Files>(
    alloc: Global,
    clock: &C,
    known: KnownRecords<'a>,
    working: &Working<'_>,
    files: &mut H,
) -> Result<Workers<'a, H>, Ended>
    requires { IsWorking working.now }
{
    let first_id = match working.first_id {
        Some(id) => id,
        None => drawn_id(clock)?,
    };
    let mut workers = Workers {
        pool: Pool::new(alloc),
        locks: Vec::new(alloc),
    };
    for place in 0..u32::from(working.workers) {
        let path = ledger_path(alloc, working, place)?;
        let id = first_id.saturating_add(place);
        add_worker(
            alloc,
            &mut workers,
            known,
            working,
            files,
            id,
            path.as_deref(),
        )?;
    }
    Ok(workers)
}

// A worker, started from its ledger, where it has one.
fn add_worker<'a, H: Files>(
    alloc: Global,
    workers: &mut Workers<'a, H>,
    known: KnownRecords<'a>,
    working: &Working<'_>,
    files: &mut H,
    id: u32,
    path: Option<&str>,
) -> Result<(), Ended> {
    let file = match (path, working.ledger) {
        (Some(path), Some(ledger)) => Some(LedgerFile { path, ..ledger }),
        _ => None,
    };
    let (held, mut ledger, lock) = kept_in(files, file)?;
    let text = text_of(alloc, held)?;
    let (worker, first) = worker_of(alloc, known, &working.search, id, &text)?;
    keep_answer(&first, &mut ledger)?;
    if let Some(lock) = lock
        && workers.locks.push(lock).is_err()
    {
        return Err(Ended::NoMemory);
    }
    Ok(workers.pool.add(worker, ledger)?)
}

// What the ledger of a worker holds, and the ledger with its lock; or none.
fn kept_in<H: Files>(
    files: &mut H,
    file: Option<LedgerFile<'_>>,
) -> Result<
    (
        io::Result<Opened<Held<H::Reader>>>,
        MaybeLedger<H::Ledger>,
        Option<H::Lock>,
    ),
    Ended,
> {
    let Some(file) = file else {
        return Ok((nothing::<H::Reader>(), MaybeLedger::Nothing, None));
    };
    let Kept { held, ledger, lock } = Kept::at(files, file)?;
    Ok((held, MaybeLedger::Kept(ledger), Some(lock)))
}

// All that a ledger holds.
fn text_of<F: Read + Drop>(
    alloc: Global,
    held: io::Result<Opened<Held<F>>>,
) -> Result<Vec<u8>, Ended> {
    let mut text = Vec::new(alloc);
    match held {
        Ok(Opened { mut reader, .. }) => match reader.read_to_end(&mut text) {
            Ok(_) => Ok(text),
            Err(fault) => Err(ended_by(&fault, Ended::Ledger)),
        },
        Err(fault) => Err(ended_by(&fault, Ended::Ledger)),
    }
}

// The path of the ledger of the worker at a place: that which is asked for where it is the only one, and the same with its
// number where there are several.
fn ledger_path(alloc: Global, working: &Working<'_>, place: u32) -> Result<Option<String>, Ended> {
    let Some(ledger) = working.ledger else {
        return Ok(None);
    };
    let path = if working.workers == 1 {
        ledger.path.to_string(alloc)?
    } else {
        format!(in alloc; "{}.{}", ledger.path, place.saturating_add(1))?
    };
    Ok(Some(path))
}

// An id by the clock, so that two processes that are begun at different moments hardly have the same: 64 ids each, below
// 4,294,967,232.
fn drawn_id<C: Clock>(clock: &C) -> Result<u32, Ended> {
    let moment = clock.since_1970()?;
    let ticks = moment.as_nanos() / 1_000 % (1 << 25);
    Ok(u32::try_from(ticks * 64 + 64).unwrap_or(64))
}

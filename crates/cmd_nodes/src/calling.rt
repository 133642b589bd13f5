// `bb work`: the workers of a process, over a stream to their coordinator.
ghost use Rattle.std.specs.Prelude.{◌≡◌, ◌≢◌, ◌≤◌, ◌+◌, Ok, IfErr, IfOk, OnOk};
ghost use Rattle.peers.specs.Terms.{capped_sum, waits_of};
ghost use Rattle.cmd_nodes.specs.Faults.{EndsTalk, GivesUp, HasCalled, IsOwnFault};

use crate::answerer::{Answered, Answerer};
use crate::held_ledger::in_memory;
use crate::links::{Network, TwoStreams};
use cmd_options::{Ended, Outcome};
use kind_evidence::NoMemory;
use peers::{Pool, Waits};
use std::alloc::Global;
use std::io::{self, ErrorKind, Read, Write};
use std::thread;
use std::time::{Clock, Duration, Instant};
use wire::{LedgerOut, MAX_PIECE_BYTES, MemLink, Node, TurnFault};

// The longest pause, in milliseconds.
const MOST_MILLISECONDS: u64 = 1_000;

// Pauses of a millisecond at first, each twice as long as the one before it while as many workers come again for nothing, and
// at most a second.
#[derive(Drop)]
pub(crate) struct Pause<'a, C> {
    clock: &'a C,
    start: Instant,
    milliseconds: u64,
    // how many workers came again the last time
    woken: usize,
}

impl<'a, C: Clock> Pause<'a, C> {
    pub fn new(clock: &'a C) -> io::Result<Pause<'a, C>> {
        Ok(Pause {
            clock,
            start: Instant::now(clock)?,
            milliseconds: 1,
            woken: 0,
        })
    }

    // Whether it is over.
    pub fn is_over(&self) -> io::Result<bool> {
        Ok(self.rest()? == Duration::ZERO)
    }

    // Waits for its end.
    pub fn wait(&self) -> io::Result<()> {
        thread::sleep(self.clock, self.rest()?);
        Ok(())
    }

    // Whether none is longer.
    pub fn is_longest(&self) -> bool {
        self.milliseconds == MOST_MILLISECONDS
    }

    // The next one begins, after so many workers came again.
    pub fn begin(&mut self, woken: usize) -> io::Result<()> {
        self.milliseconds = if woken > 0 && woken == self.woken {
            self.milliseconds.saturating_mul(2).min(MOST_MILLISECONDS)
        } else {
            1
        };
        self.woken = woken;
        self.start = Instant::now(self.clock)?;
        Ok(())
    }

    fn rest(&self) -> io::Result<Duration> {
        let gone = Instant::now(self.clock)?.duration_since(self.start);
        Ok(Duration::from_millis(self.milliseconds).saturating_sub(gone))
    }
}

/// Where a coordinator is called.
#[derive(Clone, Copy)]
pub struct Destination<'a> {
    /// The address at which it listens.
    pub address: &'a str,
    /// The token that it has to show, and is shown; none where it may be any.
    pub token: Option<&'a [u8]>,
}

/// One who calls coordinators, and counts how often.
pub trait CoordinatorCaller {
    ghost use Rattle.std.specs.Prelude.{◌≡◌, ℕ};
    ghost use Rattle.peers.specs.Terms.{capped_sum};

    type Stream: Read + Write + Drop;

    /// A count of its calls, as far as 64 bits go.
    ghost calls: { Self → ℕ };

    /// A connection with a coordinator. A read for which nothing comes for long ends with `WouldBlock`, and so does a write for
    /// which nothing is taken.
    fn call(&mut self, to: Destination<'_>) -> io::Result<Self::Stream>
        ensures { calls self.new ≡ capped_sum (calls self.old) 1 };
}

// The longest wait before it is tried again to connect, in seconds.
const MOST_SECONDS: u64 = 60;

// What came of a call.
#[derive(Clone, Copy, Debug, PartialEq, Eq)]
enum Called {
    // Each worker was told to stop.
    Stopped,
    // The connection was lost before that, after a coordinator had answered.
    Lost,
    // No coordinator answered.
    Unanswered,
}

/// Works for the coordinator whose frames come on `input`, and to whom those of the workers go by `output`. Accepted once
/// each worker was told to stop; `Stream` where a stream ends or fails before that.
pub fn work_between<N: Node, L: LedgerOut, R: Read, W: Write, H: Network + Clock>(
    alloc: Global,
    pool: &mut Pool<N, L>,
    input: &mut R,
    output: &mut W,
    host: &H,
) -> Result<Outcome, Ended>
    ensures ok { IfOk result (λ o. (o ≡ Outcome.Accepted) × (waits_of pool.new.crew.cores ≡ Waits.Nothing)) }
    ensures err { IfErr result EndsTalk }
{
    let mut stream = TwoStreams { input, output };
    converse(alloc, pool, &mut stream, host)?;
    Ok(Outcome::Accepted)
}

/// Works for a coordinator. A connection that can't be had, or is lost, is tried again after 1, 2, 4 seconds and so on, at most
/// a minute, and so is one with something that isn't that coordinator. Accepted once each worker was told to stop; `Stream`
/// where so many in a row found none, and no sooner than after so many calls.
pub fn work_at<N: Node, L: LedgerOut, H: Network + Clock, K: CoordinatorCaller>(
    alloc: Global,
    pool: &mut Pool<N, L>,
    host: &H,
    caller: &mut K,
    to: Destination<'_>,
    tries: u64,
) -> Result<Outcome, Ended>
    ensures ok { IfOk result (λ o. (o ≡ Outcome.Accepted) × (waits_of pool.new.crew.cores ≡ Waits.Nothing)) }
    ensures called { IfOk result (λ _. HasCalled (K.calls caller.old) (K.calls caller.new)) }
    ensures err { IfErr result (GivesUp tries (K.calls caller.old) (K.calls caller.new)) }
{
    let mut failed: u64 = 0;
    for made in 0..u64::MAX {
        let called = call_once(alloc, pool, host, caller, to)?;
        if called == Called::Stopped {
            return Ok(Outcome::Accepted);
        }
        failed = failed_by(called, failed);
        if failed >= tries {
            return Err(Ended::Stream);
        }
        let wait = wait_after(failed);
        host.tell_again(wait);
        thread::sleep(host, wait);
    }
    Err(Ended::Stream)
}

// How many tries in a row have failed with one more: it is the first one where a coordinator had answered.
fn failed_by(called: Called, failed: u64) -> u64
    ensures { result ≤ failed + 1 }
{
    match called {
        Called::Stopped | Called::Lost => 1,
        Called::Unanswered => failed.saturating_add(1),
    }
}

// Calls what listens at an address once, and works as long as a coordinator answers there.
fn call_once<N: Node, L: LedgerOut, H: Network + Clock, K: CoordinatorCaller>(
    alloc: Global,
    pool: &mut Pool<N, L>,
    host: &H,
    caller: &mut K,
    to: Destination<'_>,
) -> Result<Called, Ended>
    ensures stopped { result ≡ Ok Called.Stopped → waits_of pool.new.crew.cores ≡ Waits.Nothing }
    ensures count { K.calls caller.new ≡ capped_sum (K.calls caller.old) 1 }
    ensures err { IfErr result IsOwnFault }
{
    let Ok(stream) = caller.call(to) else {
        return Ok(Called::Unanswered);
    };
    pool.reconnect();
    let mut answered = Answered::over(alloc, stream);
    match converse(alloc, pool, &mut answered, host) {
        Ok(()) => Ok(Called::Stopped),
        Err(Ended::Stream) => Ok(lost(alloc, host, to.address, &answered)?),
        Err(ended) => Err(ended),
    }
}

// What came of a call whose connection is lost. The host remembers why.
fn lost<H: Network, S>(
    alloc: Global,
    host: &H,
    address: &str,
    answered: &Answered<S>,
) -> Result<Called, NoMemory>
    ensures { IfOk result (λ called. called ≢ Called.Stopped) }
{
    match answered.answerer() {
        Answerer::Coordinator => {
            host.remember_loss(address, loss_of(answered, "the connection was lost"));
            Ok(Called::Lost)
        }
        Answerer::Nobody => {
            host.remember_loss(
                address,
                loss_of(answered, "the connection was lost before anything came"),
            );
            Ok(Called::Unanswered)
        }
        Answerer::Stranger if answered.line().starts_with(b"bb ") => {
            host.remember_loss(address, "it wants to see a token (--token)");
            Ok(Called::Unanswered)
        }
        Answerer::Stranger => {
            let line = shown(alloc, answered.line())?;
            let told = format!(in alloc; "no coordinator, it says `{line}`")?;
            host.remember_loss(address, &told);
            Ok(Called::Unanswered)
        }
    }
}

// What is said of a lost connection: behind a holdout what a user can do.
fn loss_of<S>(answered: &Answered<S>, otherwise: &'static str) -> &'static str {
    if answered.has_holdout() {
        "the connection was lost behind a record of a holdout, which the coordinator may not take: a token, \
--accept-holdouts there, or a longer search here (--hard) helps"
    } else {
        otherwise
    }
}

// A line as a terminal can show it.
fn shown(alloc: Global, line: &[u8]) -> Result<String, NoMemory> {
    let mut text = String::new(alloc);
    for byte in line {
        let character = if byte.is_ascii_graphic() || *byte == b' ' {
            char::from(*byte)
        } else {
            '?'
        };
        text.push(character)?;
    }
    Ok(text)
}

// How long it is waited after so many tries in a row that failed.
fn wait_after(failed: u64) -> Duration {
    let mut seconds: u64 = 1;
    for _ in 1..failed.min(MOST_SECONDS) {
        seconds = seconds.saturating_mul(2).min(MOST_SECONDS);
    }
    Duration::from_secs(seconds)
}

// Works over a stream, until each worker is told to stop. `Stream` where the stream is lost before that, or the clock fails.
fn converse<N: Node, L: LedgerOut, S: Read + Write, H: Network + Clock>(
    alloc: Global,
    pool: &mut Pool<N, L>,
    stream: &mut S,
    host: &H,
) -> Result<(), Ended>
    ensures ok { OnOk result (waits_of pool.new.crew.cores ≡ Waits.Nothing) }
    ensures err { IfErr result EndsTalk }
{
    let mut link = MemLink::new(alloc);
    let mut pause = Pause::new(host)?;
    for _ in 0..u64::MAX {
        if pause.is_over()? {
            pause.begin(pool.later_count())?;
            pool.wake();
        }
        kept(pool.work(&mut link))?;
        stream.write_all(link.sent())?;
        stream.flush()?;
        link.clear_sent();
        match pool.waits() {
            Waits::Nothing => return Ok(()),
            Waits::Later => {
                host.tell_idle(pause.is_longest());
                pause.wait()?;
            }
            Waits::Answers => hear(pool, stream, &mut link)?,
        }
    }
    Err(Ended::Stream)
}

// Takes what came from the coordinator. `Stream` where the stream has ended or failed.
fn hear<N: Node, L: LedgerOut, S: Read>(
    pool: &mut Pool<N, L>,
    stream: &mut S,
    link: &mut MemLink,
) -> Result<(), Ended>
    ensures { IfErr result EndsTalk }
{
    let mut piece = [0; MAX_PIECE_BYTES];
    match stream.read(&mut piece) {
        Ok(0) => Err(Ended::Stream),
        Ok(count) => kept(pool.hear(&piece[..count], link)),
        // What was sent is sent again: an answer may be lost, or the coordinator be busy.
        Err(fault) if has_waited(&fault) => {
            pool.forget_due();
            Ok(())
        }
        Err(_) => Err(Ended::Stream),
    }
}

// Whether nothing came for a while.
fn has_waited(fault: &io::Error) -> bool {
    matches!(
        fault.kind(),
        ErrorKind::WouldBlock | ErrorKind::TimedOut | ErrorKind::Interrupted
    )
}

// The link of a pool is in memory.
fn kept(done: Result<(), TurnFault>) -> Result<(), Ended>
    ensures { IfErr result IsOwnFault }
{
    match done {
        Ok(()) => Ok(()),
        Err(fault) => Err(in_memory(fault)),
    }
}

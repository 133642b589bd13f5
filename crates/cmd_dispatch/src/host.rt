// `Host`: the clock, sockets, files and streams that commands have; and which command does what a command line asks for.
ghost use Rattle.std.specs.Prelude.{◌≡◌, None};
ghost use Rattle.cmd_options.specs.Terms.{AreWithinRanges};
ghost use Rattle.find_search.specs.Terms.{known_in};
ghost use Rattle.cmd_dispatch.specs.Does.{DoesAsked, DoesKnowing};

use crate::node_commands::Links;
use cert::{Decider, Finders};
use cmd_nodes::{Network, Sockets};
use cmd_options::{Ended, Options, Outcome, told};
use files::Files;
use find_search::{AnyFinder, KnownFile, SavingDecider};
use lease_core::Worker;
use std::alloc::Global;
use std::io::{Read, Write};
use std::time::Clock;
use system::{ProgressTold, Saying, Telling, TimedProgress, Work};
use wire::Node;

// Records that were found elsewhere, if any are asked for.
pub(crate) type KnownRecords<'a> = Option<&'a KnownFile<'a>>;

/// What a command meets beside files and streams: a clock, sockets and a terminal.
pub trait Environment: Saying + Clock + Sockets + Network + ProgressTold {}

impl<S: Saying + Clock + Sockets + Network + ProgressTold> Environment for S {}

/// What a command meets.
#[derive(Drop)]
pub struct Host<'a, S, H, R, W, E> {
    /// Memory.
    pub alloc: Global,
    /// The clock, the sockets and the terminal.
    pub system: &'a S,
    /// The files that are named.
    pub files: H,
    /// What is read.
    pub input: R,
    /// Where the answer goes.
    pub answers: W,
    /// Where it goes what ends a command early.
    pub faults: E,
}

/// What each command does.
pub trait Commands {
    ghost use Rattle.std.specs.Prelude.{Result};
    ghost use Rattle.cmd_options.specs.declared.ended.Ended.{Ended};
    ghost use Rattle.cmd_options.specs.declared.options.Options.{Options};
    ghost use Rattle.cmd_options.specs.declared.ended.Outcome.{Outcome};

    /// The one that is asked for, from what it meets to what it leaves, and how it ends.
    ghost does: { Options → Self → Self → Result Outcome Ended → Type 0 };
}

impl<S: Environment, H: Files, R: Read, W: Write, E: Write> Commands for Host<'_, S, H, R, W, E> {
    ghost use Rattle.cmd_nodes.specs.Terms.{traffic};
    ghost use Rattle.files.specs.Terms.{held_bytes};
    ghost use Rattle.cmd_dispatch.specs.Does.{DoesCommand};
    ghost use Rattle.cmd_dispatch.specs.Lines.{input_of, output_of, answers_counted};

    ghost does = { λ asked old new ended. DoesCommand (record {
      tells = H.tells_same;
      holds = H.holds;
      locks = H.locks;
      remaining = held_bytes H.Reader.remaining;
      answers = ⟦<Finders<AnyFinder<'static>> as Decider>⟧.answers;
      counted = answers_counted S ⟦<Finders<AnyFinder<'static>> as Decider>⟧.answers;
      saved = ⟦<SavingDecider<Finders<AnyFinder<'static>>, H::Ledger> as Decider>⟧.answers;
      replies = ⟦<Worker<Finders<AnyFinder<'static>>> as Node>⟧.answers;
      takes = S.Connections.takes;
      passed = λ c. traffic (S.Connections.arrived c) (S.Connections.sent c);
      calls = S.Caller.calls;
    }) asked old.files new.files (input_of R.remaining old new) (output_of W.contents E.contents old new) ended };
}

impl<'a, S: Environment, H, R, W, E> Host<'a, S, H, R, W, E> {
    // Who tells how far some work is that begins now: at a terminal always, and elsewhere where that is asked for.
    pub(crate) fn progress(&self, is_asked: bool, work: Work) -> TimedProgress<'a, S> {
        let telling = Telling::of(is_asked, self.system.tells_terminal());
        TimedProgress::new(self.alloc, telling, work, self.system)
    }

    // How much is read of the files at these paths is told so from now on.
    pub(crate) fn tell_reading(&self, is_asked: bool, paths: &[&str]) {
        let telling = Telling::of(is_asked, self.system.tells_terminal());
        self.system.tell_reading(telling, paths);
    }
}

impl<S: Environment, H: Files, R: Read, W: Write, E: Write> Host<'_, S, H, R, W, E> {
    /// Does what is asked for. Each end is an `Outcome`: want of memory and a stream or a file that fails too.
    pub fn execute(&mut self, asked: Options<'_>) -> Outcome
        requires { AreWithinRanges asked }
        ensures { DoesAsked ⟦<Self as Commands>⟧.does E.contents asked.entry self.old self.new result }
    {
        match KnownFile::asked(self.alloc, &asked, &self.files) {
            Ok(known) => self.executed(known, asked),
            Err(ended) => ended.told(&mut self.faults),
        }
    }

    // Does it, where known records are read if any are asked for.
    fn executed(&mut self, known: Option<KnownFile<'_>>, asked: Options<'_>) -> Outcome
        requires within { AreWithinRanges asked }
        requires known { known_in asked ≡ None → known ≡ None }
        ensures { DoesKnowing ⟦<Self as Commands>⟧.does E.contents asked.entry self.old self.new result }
    {
        let ended = self.done(known.as_ref(), asked);
        tell_refused(self.alloc, &known, &mut self.faults);
        told(ended, &mut self.faults)
    }

    // Each command, by what it is asked for.
    fn done(&mut self, known: KnownRecords<'_>, asked: Options<'_>) -> Result<Outcome, Ended>
        requires { AreWithinRanges asked }
        ensures { ⟦<Self as Commands>⟧.does asked.entry self.old self.new result }
    {
        match asked {
            Options::Check(checking) => self.check(checking),
            Options::Decide(deciding) => self.decide(known, &deciding),
            Options::Explain(explaining) => self.explain(explaining),
            Options::Show(showing) => self.show(&showing),
            Options::Tables(listing) => self.tables(&listing),
            Options::Draw(drawing) => self.draw(&drawing),
            Options::Page(paging) => self.page(&paging),
            Options::Coord {
                beginning,
                ledger,
                listening,
            } => match listening {
                Some(listening) => self.serve(beginning, ledger, listening),
                None => self.coord(beginning, ledger),
            },
            Options::CoordPart(coordinating) => self.serve_ledger(coordinating),
            Options::Work(working) => self.work(known, &working),
            Options::Run { settling, ledger } => {
                self.run(known, Links::InProcess, &settling, ledger)
            }
            Options::Loop { settling, ledger } => {
                self.run(known, Links::Sockets, &settling, ledger)
            }
            Options::Walk(walking) => self.walk(known, &walking),
            Options::Retry(retrying) => self.retry(known, &retrying),
            Options::Merge(merging) => self.merge(merging),
            Options::Carry(carrying) => self.carry(carrying),
            Options::Mend(mending) => self.mend(mending),
            Options::Report(reporting) => self.report(&reporting),
            Options::Split(splitting) => self.split(known, &splitting),
            Options::Settle(settling) => self.settle(known, &settling),
            Options::Join(joining) => self.join(&joining),
            Options::Look(looking) => self.look(&looking),
        }
    }
}

// Says what was refused of known records, where there are any.
fn tell_refused<E: Write>(alloc: Global, known: &Option<KnownFile<'_>>, faults: &mut E)
    ensures { known.now ≡ None → E.contents faults.new ≡ E.contents faults.old }
{
    if let Some(known) = known {
        known.tell(alloc, faults);
    }
}

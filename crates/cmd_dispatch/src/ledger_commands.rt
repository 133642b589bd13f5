// `bb retry`, `bb merge`, `bb carry`, `bb mend`, `bb report`, `bb split`, `bb settle`, `bb join` and `bb look`, and the ledger of a node (`Kept`).
ghost use Rattle.std.specs.Prelude.{IfOk, OnErr, ◌^◌, ◌-◌, ◌≡◌};
ghost use Rattle.files.specs.Terms.{held_bytes, IsToldStill};
ghost use Rattle.cmd_dispatch.specs.Nodes.{IsMadeSure, IsNothing, IsOpenedIn};
ghost use Rattle.cmd_ledgers.specs.Terms.{IsAt, AreFirstBytes};
ghost use Rattle.cmd_dispatch.specs.Lines.{output_of, input_of};
ghost use Rattle.cmd_dispatch.specs.Ledgers.{ReportsOf, JoinsFolder, JoinsRead};
ghost use Rattle.cmd_options.specs.Terms.{IsSplitting};

use crate::host::{Commands, Environment, Host, KnownRecords};
use crate::walk_command::Late;
use cmd_json::LinesOrJson;
use cmd_ledgers::{
    cmd_carry, cmd_mend, cmd_mend_stream, cmd_merge, cmd_report, cmd_report_stream, cmd_retry,
};
use cmd_options::{
    Carrying, Ended, Joining, LedgerFile, LedgerSettling, Looking, Mending, Merging, Options,
    Outcome, Reporting, Retrying, Splitting,
};
use cmd_parts::{cmd_join, cmd_join_stream, cmd_split, look_at, settle_ledger_at};
use files::{Files, Held, Opened, held_at, ledger_at, lock_ledger};
use find_search::decider_for;
use std::io::{self, ErrorKind, Read, Write};
use system::Work;

// The ledger of a node, locked for as long as it is written, and what it held.
#[derive(Drop)]
pub(crate) struct Kept<H: Files> {
    pub held: io::Result<Opened<Held<H::Reader>>>,
    pub ledger: H::Ledger,
    pub lock: H::Lock,
}

impl<H: Files> Kept<H> {
    // In a file, which is begun where it isn't there.
    #[tactic(auto, using(crate::proofs::HostedCommands::opened_in, crate::proofs::HostedCommands::made_still))]
    pub fn at(files: &mut H, file: LedgerFile<'_>) -> Result<Kept<H>, Ended>
        ensures opened { IfOk result (λ kept. IsOpenedIn (held_bytes H.Reader.remaining) (H.tells_same files.old)
            (H.holds files.old) (H.holds files.new) file.entry kept.held (H.Ledger.text kept.ledger)) }
        ensures tells { IsToldStill (H.tells_same files.old) (H.tells_same files.new) }
        ensures err { OnErr result (IsMadeSure (H.tells_same files.old) file.entry.path.now (H.holds files.old)
            (H.holds files.new)) }
    {
        let lock = lock_begun(files, file.path)?;
        let held = held_at(files, file.path);
        let ledger = ledger_at(files, &file)?;
        Ok(Kept { held, ledger, lock })
    }
}

// What is held where no ledger is kept.
pub(crate) fn nothing<F: Read + Drop>() -> io::Result<Opened<Held<F>>>
    ensures { IsNothing (held_bytes F.remaining) result }
{
    Ok(Opened {
        reader: Held::Nothing,
        length: 0,
    })
}

// Locks a ledger that is begun where it isn't there, so that no two begin it.
fn lock_begun<H: Files>(files: &mut H, path: &str) -> Result<H::Lock, Ended>
    ensures made { IsMadeSure (H.tells_same files.old) path.now (H.holds files.old) (H.holds files.new) }
    ensures tells { IsToldStill (H.tells_same files.old) (H.tells_same files.new) }
{
    if let Err(fault) = files.open(path)
        && fault.kind() == ErrorKind::NotFound
    {
        // Where it can't be made, that is said when a line is to be written.
        let _ = files.create(path);
    }
    lock_ledger(files, path)
}

// In place of a ledger's path: it is read from the input.
pub(crate) const STANDARD_INPUT: &str = "-";

impl<S: Environment, H: Files, R: Read, W: Write, E: Write> Host<'_, S, H, R, W, E> {
    // `bb retry`, over a ledger that has to be there.
    pub(crate) fn retry(
        &mut self,
        known: KnownRecords<'_>,
        retrying: &Retrying<'_>,
    ) -> Result<Outcome, Ended>
        ensures { ⟦<Self as Commands>⟧.does (Options.Retry retrying.now) self.old self.new result }
    {
        let mut decider = decider_for(self.alloc, known, &retrying.search)?;
        let mut late = Late::new(self.alloc)?;
        let mut progress = self.progress(retrying.progress, Work::Holdouts);
        let outcome = cmd_retry(
            self.alloc,
            retrying.file,
            &mut self.files,
            &mut decider,
            &mut progress,
            &mut self.answers,
            &mut late.words,
        );
        progress.end();
        Ok(late.say(outcome, &mut self.faults))
    }

    // `bb merge`.
    pub(crate) fn merge(&mut self, merging: Merging<'_>) -> Result<Outcome, Ended>
        ensures { ⟦<Self as Commands>⟧.does (Options.Merge merging.entry) self.old self.new result }
    {
        let _lock = lock_ledger(&self.files, merging.out)?;
        self.tell_reading(merging.progress, &[merging.first, merging.second]);
        let (files, answers, faults) = (&mut self.files, &mut self.answers, &mut self.faults);
        let outcome = cmd_merge(self.alloc, merging, files, answers, faults);
        self.system.end_reading();
        Ok(outcome)
    }

    // `bb carry`.
    pub(crate) fn carry(&mut self, carrying: Carrying<'_>) -> Result<Outcome, Ended>
        ensures { ⟦<Self as Commands>⟧.does (Options.Carry carrying.entry) self.old self.new result }
    {
        let _lock = lock_ledger(&self.files, carrying.out)?;
        self.tell_reading(carrying.progress, &[carrying.ledger]);
        let (files, answers, faults) = (&mut self.files, &mut self.answers, &mut self.faults);
        let outcome = cmd_carry(self.alloc, carrying, files, answers, faults);
        self.system.end_reading();
        Ok(outcome)
    }

    // `bb mend`, of a file or of the input.
    pub(crate) fn mend(&mut self, mending: Mending<'_>) -> Result<Outcome, Ended>
        ensures { ⟦<Self as Commands>⟧.does (Options.Mend mending.entry) self.old self.new result }
    {
        let _lock = lock_ledger(&self.files, mending.out)?;
        if mending.ledger == STANDARD_INPUT {
            return Ok(cmd_mend_stream(
                self.alloc,
                mending,
                &mut self.files,
                &mut self.input,
                &mut self.answers,
                &mut self.faults,
            ));
        }
        self.tell_reading(mending.progress, &[mending.ledger]);
        let (files, answers, faults) = (&mut self.files, &mut self.answers, &mut self.faults);
        let outcome = cmd_mend(self.alloc, mending, files, answers, faults);
        self.system.end_reading();
        Ok(outcome)
    }

    // `bb report`, of a file or of the input.
    pub(crate) fn report(&mut self, reporting: &Reporting<'_>) -> Result<Outcome, Ended>
        ensures { ⟦<Self as Commands>⟧.does (Options.Report reporting.now) self.old self.new result }
    {
        if reporting.file == STANDARD_INPUT {
            return Ok(self.report_read(reporting));
        }
        Ok(self.report_file(reporting))
    }

    // Of the input.
    fn report_read(&mut self, reporting: &Reporting<'_>) -> Outcome
        ensures files { self.new.files ≡ self.old.files }
        ensures reports { ReportsOf (AreFirstBytes (R.remaining self.old.input) (2 ^ 64 - 1)) reporting.now
            (output_of W.contents E.contents self.old self.new) result }
    {
        let form = LinesOrJson::of(reporting.json);
        let (input, answers, faults) = (&mut self.input, &mut self.answers, &mut self.faults);
        cmd_report_stream(self.alloc, &form, reporting.why, input, answers, faults)
    }

    // Of a file; how far the reading is, is told where that is wanted.
    fn report_file(&mut self, reporting: &Reporting<'_>) -> Outcome
        ensures files { self.new.files ≡ self.old.files }
        ensures reports { ReportsOf (IsAt (H.holds self.old.files reporting.now.file.now)) reporting.now
            (output_of W.contents E.contents self.old self.new) result }
    {
        let form = LinesOrJson::of(reporting.json);
        self.tell_reading(reporting.progress, &[reporting.file]);
        let (answers, faults) = (&mut self.answers, &mut self.faults);
        let outcome = cmd_report(
            self.alloc,
            &form,
            reporting.why,
            reporting.file,
            &self.files,
            answers,
            faults,
        );
        self.system.end_reading();
        outcome
    }
}

impl<S: Environment, H: Files, R: Read, W: Write, E: Write> Host<'_, S, H, R, W, E> {
    // `bb split`.
    pub(crate) fn split(
        &mut self,
        known: KnownRecords<'_>,
        splitting: &Splitting<'_>,
    ) -> Result<Outcome, Ended>
        requires { IsSplitting splitting.now }
        ensures { ⟦<Self as Commands>⟧.does (Options.Split splitting.now) self.old self.new result }
    {
        let mut decider = decider_for(self.alloc, known, &splitting.search)?;
        let mut late = Late::new(self.alloc)?;
        let mut progress = self.progress(splitting.progress, Work::Tree);
        let outcome = cmd_split(
            self.alloc,
            splitting,
            &mut self.files,
            &mut decider,
            &mut progress,
            &mut self.answers,
            &mut late.words,
        );
        progress.end();
        Ok(late.say(outcome, &mut self.faults))
    }

    // `bb settle`.
    pub(crate) fn settle(
        &mut self,
        known: KnownRecords<'_>,
        settling: &LedgerSettling<'_>,
    ) -> Result<Outcome, Ended>
        ensures { ⟦<Self as Commands>⟧.does (Options.Settle settling.now) self.old self.new result }
    {
        let mut decider = decider_for(self.alloc, known, &settling.search)?;
        let mut progress = self.progress(settling.progress, Work::Tree);
        let ended = settle_ledger_at(
            self.alloc,
            settling.file,
            &mut self.files,
            &mut decider,
            &mut progress,
            &mut self.answers,
        );
        progress.end();
        ended?;
        Ok(Outcome::Accepted)
    }

    // `bb join`, of a folder or of the input.
    pub(crate) fn join(&mut self, joining: &Joining<'_>) -> Result<Outcome, Ended>
        ensures { ⟦<Self as Commands>⟧.does (Options.Join joining.now) self.old self.new result }
    {
        if joining.folder == STANDARD_INPUT {
            return Ok(self.join_read(joining));
        }
        Ok(self.join_folder(joining))
    }

    // `bb look`, in a ledger or in a folder.
    pub(crate) fn look(&mut self, looking: &Looking<'_>) -> Result<Outcome, Ended>
        ensures { ⟦<Self as Commands>⟧.does (Options.Look looking.now) self.old self.new result }
    {
        self.tell_reading(looking.progress, &[looking.path]);
        let (input, answers, faults) = (&mut self.input, &mut self.answers, &mut self.faults);
        let ended = look_at(self.alloc, looking, &self.files, input, answers, faults);
        self.system.end_reading();
        ended
    }

    // Of the input.
    fn join_read(&mut self, joining: &Joining<'_>) -> Outcome
        ensures files { self.new.files ≡ self.old.files }
        ensures joins { JoinsRead joining.now (input_of R.remaining self.old self.new)
            (output_of W.contents E.contents self.old self.new) result }
    {
        let form = LinesOrJson::of(joining.json);
        cmd_join_stream(
            self.alloc,
            &form,
            &mut self.input,
            &mut self.answers,
            &mut self.faults,
        )
    }

    // Of a folder; how far the reading is, is told where that is wanted.
    #[tactic(auto, using(crate::proofs::HostedCommands::joined))]
    fn join_folder(&mut self, joining: &Joining<'_>) -> Outcome
        ensures { JoinsFolder H.locks (H.tells_same self.old.files) joining.now (H.holds self.old.files)
            (H.holds self.new.files) (output_of W.contents E.contents self.old self.new) result }
    {
        let form = LinesOrJson::of(joining.json);
        self.tell_reading(joining.progress, &[joining.folder]);
        let (files, answers, faults) = (&mut self.files, &mut self.answers, &mut self.faults);
        let outcome = cmd_join(self.alloc, &form, joining, files, answers, faults);
        self.system.end_reading();
        outcome
    }
}

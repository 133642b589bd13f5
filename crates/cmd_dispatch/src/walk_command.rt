// `bb walk`, by either decider, the file to which it saves records, and what is said once its progress has ended.
ghost use Rattle.std.specs.Prelude.{◌≡◌, ◌⊎◌, IfNone, IfOk, OnErr};
ghost use Rattle.cmd_json.specs.Terms.{IsText, form_of};
ghost use Rattle.cmd_ledgers.specs.Terms.{TellsTree};
ghost use Rattle.cmd_options.specs.Terms.{IsWalking};
ghost use Rattle.files.specs.Terms.{IsKeptBut};
ghost use Rattle.cmd_parts.specs.Terms.{IsWalkedBoard, WalksTree};
ghost use Rattle.cmd_dispatch.specs.Lines.{Once, OnceSaved, ToldApart, output_of};
ghost use Rattle.cmd_dispatch.specs.Nodes.{IsRootOf, WalksBy};

use crate::host::{Commands, Environment, Host, KnownRecords};
use cert::{Decider, Finders};
use cmd_json::LinesOrJson;
use cmd_options::{
    Durability, Ended, LedgerFile, NoMemory, Options, Outcome, Saving, Walking, ended_by,
};
use cmd_parts::cmd_walk;
use files::{Files, ledger_at, lock_ledger};
use find_search::{AnyFinder, SavingDecider, decider_for};
use machine_text::Table;
use std::alloc::Global;
use std::io::{self, Read, Write};
use std::time::Clock;
use system::{ProgressTold, TimedProgress, Work};
use tnf::root;
use wire::append_all;

// More bytes than a line has that says what ended a command: to say that memory was refused takes none.
const ROOM_BYTES: usize = 256;

// What a command says at its end, kept until the line that tells how far it is has ended.
#[derive(Drop)]
pub(crate) struct Late {
    pub words: Vec<u8>,
}

impl Late {
    pub fn new(alloc: Global) -> Result<Late, NoMemory> {
        let mut words = Vec::new(alloc);
        words.reserve(ROOM_BYTES)?;
        Ok(Late { words })
    }

    // Says it. Where that can't be done, a stream has failed.
    pub fn say<E: Write>(&self, outcome: Outcome, faults: &mut E) -> Outcome
        ensures { (result ≡ outcome) ⊎ (result ≡ Outcome.Failed) }
    {
        if !self.words.is_empty() && faults.write_all(&self.words).is_err() {
            return Outcome::Failed;
        }
        outcome
    }
}

// What a ledger begins with.
const HEADER: &[u8] = b"bb-ledger";

// How many bytes are read at once.
const PIECE: usize = 4_096;

impl<S: Environment, H: Files, R: Read, W: Write, E: Write> Host<'_, S, H, R, W, E> {
    // `bb walk`.
    #[tactic(auto, using(crate::proofs::HostedCommands::found_or_saved))]
    pub(crate) fn walk(
        &mut self,
        known: KnownRecords<'_>,
        walking: &Walking<'_>,
    ) -> Result<Outcome, Ended>
        requires { IsWalking walking.now }
        ensures { ⟦<Self as Commands>⟧.does (Options.Walk walking.now) self.old self.new result }
    {
        let root = root_of(walking)?;
        match walking.saving {
            None => self.walk_found(known, walking, root),
            Some(saving) => self.walk_saved(known, walking, saving, root),
        }
    }

    // Keeps no record.
    fn walk_found(
        &mut self,
        known: KnownRecords<'_>,
        walking: &Walking<'_>,
        root: Table,
    ) -> Result<Outcome, Ended>
        requires within { IsWalking walking.now }
        requires root { IsRootOf walking.now root }
        ensures files { self.new.files ≡ self.old.files }
        ensures walks { Once (WalksBy ⟦<Finders<AnyFinder<'static>> as Decider>⟧.answers walking.now
            (output_of W.contents E.contents self.old self.new)) (output_of W.contents E.contents self.old self.new)
            result }
    {
        let mut finders = decider_for(self.alloc, known, &walking.search)?;
        let progress = self.progress(walking.progress, Work::Walk);
        let (outcome, late) = walk_by(
            self.alloc,
            walking,
            root,
            &mut finders,
            progress,
            &mut self.answers,
        )?;
        Ok(late.say(outcome, &mut self.faults))
    }

    // Saves the dear ones.
    fn walk_saved(
        &mut self,
        known: KnownRecords<'_>,
        walking: &Walking<'_>,
        saving: Saving<'_>,
        root: Table,
    ) -> Result<Outcome, Ended>
        requires within { IsWalking walking.now }
        requires root { IsRootOf walking.now root }
        ensures saves { IsKeptBut (H.tells_same self.old.files) saving.entry.path.now (H.holds self.old.files)
            (H.holds self.new.files) }
        ensures walks { OnceSaved (WalksBy
            ⟦<SavingDecider<Finders<AnyFinder<'static>>, H::Ledger> as Decider>⟧.answers walking.now
            (output_of W.contents E.contents self.old self.new)) (output_of W.contents E.contents self.old self.new)
            result }
    {
        let finders = decider_for(self.alloc, known, &walking.search)?;
        let (_lock, saved) = opened(&mut self.files, saving.path)?;
        let mut decider = SavingDecider::new(finders, saving.dear, saved);
        let progress = self.progress(walking.progress, Work::Walk);
        let (outcome, late) = walk_by(
            self.alloc,
            walking,
            root,
            &mut decider,
            progress,
            &mut self.answers,
        )?;
        if decider.has_failed() {
            return Err(Ended::Ledger);
        }
        Ok(late.say(outcome, &mut self.faults))
    }
}

// Walks by a decider, and tells how far it is. How it ended, and what is to be said then.
fn walk_by<D: Decider, S: Clock + ProgressTold, W: Write>(
    alloc: Global,
    walking: &Walking<'_>,
    root: Table,
    decider: &mut D,
    mut progress: TimedProgress<'_, S>,
    answers: &mut W,
) -> Result<(Outcome, Late), Ended>
    requires within { IsWalking walking.now }
    requires root { IsRootOf walking.now root }
    ensures walks { IfOk result (λ r. ToldApart (WalksTree (IsText (form_of walking.now.json)) root
        (IsWalkedBoard D D.answers) (W.contents answers.old) (W.contents answers.new)) r.0
        × IfNone walking.now.root (TellsTree (IsText (form_of walking.now.json)) walking.now.states
        (IsWalkedBoard D D.answers) (W.contents answers.old) (W.contents answers.new) r.0)) }
    ensures err { OnErr result (W.contents answers.new ≡ W.contents answers.old) }
{
    let mut late = Late::new(alloc)?;
    let outcome = cmd_walk(
        alloc,
        &LinesOrJson::of(walking.json),
        root,
        decider,
        &mut progress,
        answers,
        &mut late.words,
    );
    progress.end();
    Ok((outcome, late))
}

// The file to which records are saved, locked; a last line that isn't whole stays one of its own. A walk is long: that the file
// can't be written is said before it begins.
#[tactic(auto, using(crate::proofs::HostedCommands::kept_then))]
fn opened<H: Files>(files: &mut H, path: &str) -> Result<(H::Lock, H::Ledger), Ended>
    ensures { IsKeptBut (H.tells_same files.old) path.now (H.holds files.old) (H.holds files.new) }
{
    if let Err(fault) = files.create(path) {
        return Err(ended_by(&fault, Ended::Ledger));
    }
    let lock = lock_ledger(files, path)?;
    let saved = saved_at(files, path)?;
    if saved == Saved::Ledger {
        files.remember(path, "it is a ledger: records are saved to another file");
        return Err(Ended::Ledger);
    }
    let file = LedgerFile {
        path,
        durability: Durability::System,
    };
    let mut ledger = ledger_at(files, &file)?;
    if saved == Saved::Torn && append_all(&mut ledger, b"\n").is_err() {
        return Err(Ended::Ledger);
    }
    Ok((lock, ledger))
}

// What the file at a path has, to which records are saved.
#[derive(Clone, Copy, Debug, PartialEq, Eq)]
enum Saved {
    Lines,
    // The last line isn't whole.
    Torn,
    Ledger,
}

fn saved_at<H: Files>(files: &H, path: &str) -> Result<Saved, Ended> {
    let saved = match files.open(path) {
        Ok(mut file) => saved_in(&mut file.reader),
        Err(fault) => Err(fault),
    };
    match saved {
        Ok(saved) => Ok(saved),
        Err(fault) => Err(ended_by(&fault, Ended::Ledger)),
    }
}

fn saved_in<R: Read>(from: &mut R) -> io::Result<Saved> {
    let mut buffer = [0; PIECE];
    let mut last = b'\n';
    for turn in 0..u64::MAX {
        let count = from.read(&mut buffer)?;
        let piece = &buffer[..count];
        if turn == 0 && piece.starts_with(HEADER) {
            return Ok(Saved::Ledger);
        }
        match piece.last() {
            Some(byte) => last = *byte,
            None => break,
        }
    }
    Ok(if last == b'\n' {
        Saved::Lines
    } else {
        Saved::Torn
    })
}

// The root of the tree: the table that is asked for, which has so many states, or the empty table.
fn root_of(walking: &Walking<'_>) -> Result<Table, Ended>
    requires { IsWalking walking.now }
    ensures { IfOk result (IsRootOf walking.now) }
{
    let Some(text) = walking.root else {
        return Ok(root(walking.states));
    };
    match Table::parse(text.as_bytes()) {
        Ok(table) if table.states() == walking.states => Ok(table),
        _ => Err(Ended::WrongRoot),
    }
}

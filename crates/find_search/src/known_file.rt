// The file of records that were found elsewhere, and what was dear to find, saved.
ghost use Rattle.std.specs.Prelude.{◌≡◌, None, Ok};
ghost use Rattle.find_search.specs.Known.{known_in};

use crate::{Known, read_known, tell_refusals};
use cert::{Decided, Decider, OwnedRecord};
use cmd_options::{Ended, Options, ended_by};
use files::Files;
use kind_evidence::NoMemory;
use machine_text::Table;
use std::alloc::Global;
use std::cell::RefCell;
use std::io::Write;
use wire::{LedgerOut, append_all};

/// The file of records that were found elsewhere, read to its end. All finders of a command look tables up in it, each
/// worker's too.
#[derive(Drop)]
pub struct KnownFile<'a> {
    path: &'a str,
    pub(crate) known: RefCell<Known>,
}

impl<'a> KnownFile<'a> {
    /// The one that is asked for; none where none is. Errors: `File` where it can't be read, or has lines and none of them is a
    /// record that claims something, as a compressed file has, `NoMemory`.
    pub fn asked<H: Files>(
        alloc: Global,
        asked: &Options<'a>,
        files: &H,
    ) -> Result<Option<KnownFile<'a>>, Ended>
        ensures { known_in asked.now ≡ None → result ≡ Ok None }
    {
        let Some(path) = path_in(asked) else {
            return Ok(None);
        };
        let mut file = match files.open_to_end(path) {
            Ok(file) => file,
            Err(fault) => return Err(ended_by(&fault, Ended::File)),
        };
        match read_known(alloc, &mut file.reader, file.length) {
            Ok(known) if known.tells_nothing() => {
                files.remember(path, "none of its lines is a record");
                Err(Ended::File)
            }
            Ok(known) => Ok(Some(KnownFile {
                path,
                known: RefCell::new(known),
            })),
            Err(stopped) => Err(stopped.ended(Ended::File)),
        }
    }

    // Whether something is known of a table.
    pub(crate) fn has(&self, t: &Table) -> bool {
        match self.known.try_borrow() {
            Ok(known) => known.has(t),
            Err(_) => false,
        }
    }

    /// Says what was refused of it. Nothing hangs on whether that can be said.
    pub fn tell<E: Write>(&self, alloc: Global, faults: &mut E) {
        if let Ok(known) = self.known.try_borrow() {
            let _ = tell_refusals(alloc, self.path, known.refused(), faults);
        }
    }
}

// Where a command that searches for certificates is to look first.
fn path_in<'a>(asked: &Options<'a>) -> Option<&'a str>
    ensures { result ≡ known_in asked.now }
{
    match asked {
        Options::Decide(deciding) => deciding.search.known,
        Options::Retry(retrying) => retrying.search.known,
        Options::Run { settling, .. } | Options::Loop { settling, .. } => settling.search.known,
        Options::Split(splitting) => splitting.search.known,
        Options::Settle(settling) => settling.search.known,
        Options::Walk(walking) => walking.search.known,
        Options::Work(working) => working.search.known,
        Options::Check(_)
        | Options::Explain(_)
        | Options::Show(_)
        | Options::Tables(_)
        | Options::Draw(_)
        | Options::Coord { .. }
        | Options::CoordPart(_)
        | Options::Merge(_)
        | Options::Carry(_)
        | Options::Mend(_)
        | Options::Report(_)
        | Options::Page(_)
        | Options::Join(_)
        | Options::Look(_) => None,
    }
}

/// One who can tell what it took to find a record.
pub trait Searcher {
    /// Whether a look-up would have saved time on the record that was answered last: it wasn't looked up, and another search
    /// than the first ones found it, or it says more than so many steps.
    fn was_dear(&self, record: &OwnedRecord, dear: u64) -> bool;
}

/// A decider whose answers are appended to a file, each as it is found, where a look-up would have saved time on them.
#[derive(Drop)]
pub struct SavingDecider<D, L> {
    decider: D,
    dear: u64,
    saved: L,
    has_failed: bool,
}

impl<D: Decider + Searcher, L: LedgerOut> SavingDecider<D, L> {
    /// One that saves records of more than so many steps, and those of later searches.
    pub fn new(decider: D, dear: u64, saved: L) -> SavingDecider<D, L>
        ensures { result.decider ≡ decider }
    {
        SavingDecider {
            decider,
            dear,
            saved,
            has_failed: false,
        }
    }

    /// Whether the file has failed. Then memory was said to be refused, so that whoever asks stops.
    pub fn has_failed(&self) -> bool {
        self.has_failed
    }

    // Appends the line of a record, where it was dear.
    fn save(&mut self, alloc: Global, record: &OwnedRecord) -> Result<(), NoMemory> {
        if !self.decider.was_dear(record, self.dear) {
            return Ok(());
        }
        let mut line = Vec::new(alloc);
        record.lent().write_text(&mut line)?;
        line.push(b'\n')?;
        if append_all(&mut self.saved, &line).is_err() {
            self.has_failed = true;
            return Err(NoMemory);
        }
        Ok(())
    }
}

impl<D: Decider + Searcher, L: LedgerOut> Decider for SavingDecider<D, L> {
    ghost answers = { λ asked p r. D.answers asked.decider p r };

    fn decide(&mut self, alloc: Global, t: &Table) -> Result<OwnedRecord, NoMemory> {
        let record = self.decider.decide(alloc, t)?;
        self.save(alloc, &record)?;
        Ok(record)
    }

    fn decide_judged(&mut self, alloc: Global, t: &Table) -> Result<Decided, NoMemory> {
        let decided = self.decider.decide_judged(alloc, t)?;
        self.save(alloc, &decided.record)?;
        Ok(decided)
    }
}

// The finders that the command line can ask for.
ghost use Rattle.std.specs.Prelude.{◌≡◌, IfErr};

use crate::known_file::{KnownFile, Searcher};
use crate::stages::HardFinder;
use backward::BackwardFinder;
use cert::{Decided, Finder, Finders, OwnedCertificate, OwnedRecord};
use cmd_options::{Ended, LETTERS, Search};
use far::FarFinder;
use find_counted::CountedFinder;
use find_rules::RuleFinder;
use find_words::WordFinder;
use kind_evidence::NoMemory;
use loops::{CycleFinder, TranslatedFinder};
use machine_text::Table;
use ngram_cps::NgramFinder;
use run::HaltFinder;
use std::alloc::Global;

/// A finder of any kind, so that a list of them needs no boxes.
#[derive(Drop)]
pub enum AnyFinder<'a> {
    Known(&'a KnownFile<'a>),
    Halts(HaltFinder),
    Cycle(CycleFinder),
    Translated(TranslatedFinder),
    Backward(BackwardFinder),
    Ngram(NgramFinder),
    Far(FarFinder),
    Listed(WordFinder),
    Counted(CountedFinder),
    Rules(RuleFinder),
    Hard(HardFinder),
}

impl Finder for AnyFinder<'_> {
    fn find(&mut self, t: &Table, budget: u64) -> Result<Option<OwnedCertificate>, NoMemory> {
        match self {
            AnyFinder::Known(file) => match file.known.try_borrow_mut() {
                Ok(mut known) => known.find(t, budget),
                Err(_) => Ok(None),
            },
            AnyFinder::Halts(finder) => finder.find(t, budget),
            AnyFinder::Cycle(finder) => finder.find(t, budget),
            AnyFinder::Translated(finder) => finder.find(t, budget),
            AnyFinder::Backward(finder) => finder.find(t, budget),
            AnyFinder::Ngram(finder) => finder.find(t, budget),
            AnyFinder::Far(finder) => finder.find(t, budget),
            AnyFinder::Listed(finder) => finder.find(t, budget),
            AnyFinder::Counted(finder) => finder.find(t, budget),
            AnyFinder::Rules(finder) => finder.find(t, budget),
            AnyFinder::Hard(finder) => finder.find(t, budget),
        }
    }

    fn find_shown(
        &mut self,
        alloc: Global,
        t: &Table,
        budget: u64,
    ) -> Result<Option<Decided>, NoMemory> {
        match self {
            AnyFinder::Known(file) => match file.known.try_borrow_mut() {
                Ok(mut known) => known.find_shown(alloc, t, budget),
                Err(_) => Ok(None),
            },
            AnyFinder::Halts(finder) => finder.find_shown(alloc, t, budget),
            AnyFinder::Cycle(finder) => finder.find_shown(alloc, t, budget),
            AnyFinder::Translated(finder) => finder.find_shown(alloc, t, budget),
            AnyFinder::Backward(finder) => finder.find_shown(alloc, t, budget),
            AnyFinder::Ngram(finder) => finder.find_shown(alloc, t, budget),
            AnyFinder::Far(finder) => finder.find_shown(alloc, t, budget),
            AnyFinder::Listed(finder) => finder.find_shown(alloc, t, budget),
            AnyFinder::Counted(finder) => finder.find_shown(alloc, t, budget),
            AnyFinder::Rules(finder) => finder.find_shown(alloc, t, budget),
            AnyFinder::Hard(finder) => finder.find_shown(alloc, t, budget),
        }
    }
}

impl Searcher for Finders<AnyFinder<'_>> {
    fn was_dear(&self, record: &OwnedRecord, dear: u64) -> bool {
        let mut is_late = is_of_later_kind(&record.certificate);
        for finder in &self.finders {
            match finder {
                AnyFinder::Known(file) if file.has(&record.table) => return false,
                AnyFinder::Hard(finder) => is_late = finder.was_late(),
                _ => {}
            }
        }
        match &record.certificate {
            OwnedCertificate::Undecided => false,
            OwnedCertificate::Halts(halts) => is_late || halts.steps > dear,
            OwnedCertificate::Cycle(cycle) => is_late || cycle.j > dear,
            OwnedCertificate::Translated(translated) => is_late || translated.j > dear,
            _ => is_late,
        }
    }
}

// Whether a certificate is of a kind that neither runs nor backward reasoning find.
fn is_of_later_kind(certificate: &OwnedCertificate) -> bool {
    !matches!(
        certificate,
        OwnedCertificate::Halts(_)
            | OwnedCertificate::Cycle(_)
            | OwnedCertificate::Translated(_)
            | OwnedCertificate::Backward(_)
    )
}

// What is known; then those of the kinds, in the order of their letters, or the one that goes through the stages, where
// the search is hard.
fn all_finders<'a>(
    alloc: Global,
    known: Option<&'a KnownFile<'a>>,
    search: &Search<'_>,
) -> Result<Vec<AnyFinder<'a>>, NoMemory> {
    let mut finders = Vec::new(alloc);
    if let Some(known) = known {
        finders.push(AnyFinder::Known(known))?;
    }
    if search.hard {
        finders.push(AnyFinder::Hard(HardFinder::new(alloc, search.long_run)?))?;
        return Ok(finders);
    }
    for letter in LETTERS {
        if let Some(finder) = finder_of(alloc, *letter, search) {
            finders.push(finder)?;
        }
    }
    Ok(finders)
}

// What looks for certificates of the kind of a letter; nothing does for those that claim nothing.
fn finder_of<'a>(alloc: Global, letter: u8, search: &Search<'_>) -> Option<AnyFinder<'a>> {
    let steps = search.steps;
    match letter {
        b'H' => Some(AnyFinder::Halts(HaltFinder::new(alloc, steps))),
        // The run for `H` goes on to late halts.
        b'L' => None,
        b'C' => Some(AnyFinder::Cycle(CycleFinder::new(alloc, steps))),
        b'T' => Some(AnyFinder::Translated(TranslatedFinder::new(alloc, steps))),
        b'B' => Some(AnyFinder::Backward(BackwardFinder::new(alloc, search.depth))),
        b'N' => Some(AnyFinder::Ngram(NgramFinder::new(alloc, search.gram))),
        b'F' => Some(AnyFinder::Far(FarFinder::new(alloc, search.far))),
        b'A' => Some(AnyFinder::Listed(WordFinder::new(alloc, search.words))),
        // Without counts there are automata too, but 0 asks for none.
        b'W' if search.count == 0 => None,
        b'W' => Some(AnyFinder::Counted(CountedFinder::new(alloc, search.count))),
        b'R' if search.rules == 0 => None,
        b'R' => Some(AnyFinder::Rules(RuleFinder::new(alloc, search.rules))),
        // A hard search alone looks tables up: of one of them the check takes half a minute.
        b'P' => None,
        _ => None,
    }
}

/// What decides tables by what is known, and then by the finders that are asked for.
pub fn decider_for<'a>(
    alloc: Global,
    known: Option<&'a KnownFile<'a>>,
    search: &Search<'_>,
) -> Result<Finders<AnyFinder<'a>>, Ended>
    ensures { IfErr result (λ e. e ≡ Ended.NoMemory) }
{
    let finders = all_finders(alloc, known, search)?;
    Ok(Finders::new(finders, search.steps))
}

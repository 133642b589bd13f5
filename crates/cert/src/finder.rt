// Finders, which look for certificates, and how what they find becomes a record that is certified.
ghost use Rattle.std.specs.Prelude.{◌≡◌, IfOk};
ghost use Rattle.cert.specs.Certified.{Answered, IsCertified, IsShownBy};
ghost use Rattle.cert.specs.Kinds.{owned_claim, owned_recorded};

use crate::certificate::OwnedCertificate;
use crate::judgement::{Decided, Judged};
use crate::record::OwnedRecord;
use backward::BackwardFinder;
use far::FarFinder;
use kind_evidence::NoMemory;
use loops::{CycleFinder, TranslatedFinder};
use machine_text::Table;
use ngram_cps::NgramFinder;
use run::HaltFinder;
use std::alloc::Global;

/// Looks for a certificate for a table. What `find` gives need not stand; what `find_shown` gives was judged.
pub trait Finder: Drop {
    ghost use Rattle.std.specs.Prelude.{ℕ, ⊤, Option, IfOk, option_map};
    ghost use Rattle.machine_text.specs.Terms.{Packed};
    ghost use Rattle.cert.specs.Certified.{ComesOfClaim};
    ghost use Rattle.cert.specs.Claim.{Claim};
    ghost use Rattle.cert.specs.Kinds.{owned_claim};

    /// What it may give for a table with a budget: a claim, or none. A finder that doesn't say may give anything.
    ghost gives: { Self → Packed → ℕ → Option Claim → Type 0 } = { λ _ _ _ _. ⊤ };

    /// A certificate for the table, or none. `budget` is a number of steps by which it bounds its work.
    /// After `NoMemory` it can be asked again.
    fn find(&mut self, t: &Table, budget: u64) -> Result<Option<OwnedCertificate>, NoMemory>
        ensures { IfOk result (λ o. gives self.old t.now budget (option_map owned_claim o)) };

    /// What comes of what it may give for the table: a record that is certified and what it shows, if that claims something
    /// and stands. A finder that has shown what it finds needn't have it judged again.
    fn find_shown(
        &mut self,
        alloc: Global,
        t: &Table,
        budget: u64,
    ) -> Result<Option<Decided>, NoMemory>
        ensures { IfOk result (λ o. (given : Option Claim) × gives self.old t.now budget given
            × ComesOfClaim t.now given o) }
    {
        match self.find(t, budget)? {
            Some(certificate) => Decided::by(alloc, t, certificate),
            None => Ok(None),
        }
    }
}

// Finders of several kinds stand boxed in one list.
impl Finder for Box<dyn Finder> {
    ghost gives = { λ b p budget claim. (Finder-box b).gives b.value p budget claim };

    fn find(&mut self, t: &Table, budget: u64) -> Result<Option<OwnedCertificate>, NoMemory> {
        (**self).find(t, budget)
    }

    fn find_shown(
        &mut self,
        alloc: Global,
        t: &Table,
        budget: u64,
    ) -> Result<Option<Decided>, NoMemory> {
        (**self).find_shown(alloc, t, budget)
    }
}

impl Finder for HaltFinder {
    fn find(&mut self, t: &Table, budget: u64) -> Result<Option<OwnedCertificate>, NoMemory> {
        Ok(self.search(t, budget)?.map(OwnedCertificate::Halts))
    }
}

impl Finder for CycleFinder {
    fn find(&mut self, t: &Table, budget: u64) -> Result<Option<OwnedCertificate>, NoMemory> {
        Ok(self.search(t, budget)?.map(OwnedCertificate::Cycle))
    }
}

impl Finder for TranslatedFinder {
    fn find(&mut self, t: &Table, budget: u64) -> Result<Option<OwnedCertificate>, NoMemory> {
        Ok(self.search(t, budget)?.map(OwnedCertificate::Translated))
    }
}

impl Finder for BackwardFinder {
    fn find(&mut self, t: &Table, budget: u64) -> Result<Option<OwnedCertificate>, NoMemory> {
        Ok(self.search(t, budget)?.map(OwnedCertificate::Backward))
    }
}

impl Finder for NgramFinder {
    fn find(&mut self, t: &Table, budget: u64) -> Result<Option<OwnedCertificate>, NoMemory> {
        match self.search(t, budget)? {
            Some(lists) => Ok(Some(OwnedCertificate::Ngram(Box::new(self.allocator(), lists)?))),
            None => Ok(None),
        }
    }
}

impl Finder for FarFinder {
    fn find(&mut self, t: &Table, budget: u64) -> Result<Option<OwnedCertificate>, NoMemory> {
        match self.search(t, budget)? {
            Some(automata) => Ok(Some(OwnedCertificate::Far(Box::new(
                self.allocator(),
                automata,
            )?))),
            None => Ok(None),
        }
    }
}

/// A record of the table with the first certificate that is accepted of those that the finders give, asked in
/// their order; undecided where none does. Each certificate is judged, whatever finder gave it, and none
/// that is refused or claims nothing is taken. Memory that is refused to a finder or to a judgement is
/// passed on; then the finders' scratch may have changed.
pub fn decide<F: Finder>(
    alloc: Global,
    finders: &mut [F],
    t: &Table,
    budget: u64,
) -> Result<OwnedRecord, NoMemory>
    ensures table { IfOk result (λ r. r.table ≡ t.now) }
    ensures certified { IfOk result (λ r. IsCertified (owned_recorded r)) }
    ensures order { IfOk result (λ r. Answered (λ f claim. F.gives f t.now budget claim) t.now finders.old
        (owned_claim r.certificate)) }
{
    let decided = decide_judged(alloc, finders, t, budget)?;
    Ok(decided.record)
}

/// Decides as `decide` does, and answers what was judged with the record, so that nothing is run or judged twice.
pub fn decide_judged<F: Finder>(
    alloc: Global,
    finders: &mut [F],
    t: &Table,
    budget: u64,
) -> Result<Decided, NoMemory>
    ensures table { IfOk result (λ d. d.record.table ≡ t.now) }
    ensures shown { IfOk result (λ d. IsShownBy (owned_recorded d.record) d.judged) }
    ensures order { IfOk result (λ d. Answered (λ f claim. F.gives f t.now budget claim) t.now finders.old
        (owned_claim d.record.certificate)) }
{
    for finder in finders.iter_mut() {
        if let Some(decided) = finder.find_shown(alloc, t, budget)? {
            return Ok(decided);
        }
    }
    Ok(Decided {
        record: OwnedRecord {
            table: *t,
            certificate: OwnedCertificate::Undecided,
        },
        judged: Judged {
            verdict: None,
            halts_on: None,
        },
    })
}

/// Answers a table by a record of it that is certified, or undecided.
pub trait Decider {
    ghost use Rattle.std.specs.Prelude.{◌≡◌, IfOk};
    ghost use Rattle.machine_text.specs.Terms.{Packed};
    ghost use Rattle.cert.specs.Certified.{IsCertified, IsShownBy};
    ghost use Rattle.cert.specs.Claim.{Recorded};
    ghost use Rattle.cert.specs.Kinds.{owned_recorded};

    /// What it may answer for a table: who takes a record for its answer has to have asked. A decider that
    /// promises nothing of what it answers may answer anything that is certified.
    ghost answers: { Self → Packed → Recorded → Type 0 };

    /// A record of the table. After `NoMemory` the decider can be asked again.
    fn decide(&mut self, alloc: Global, t: &Table) -> Result<OwnedRecord, NoMemory>
        ensures table { IfOk result (λ r. r.table ≡ t.now) }
        ensures certified { IfOk result (λ r. IsCertified (owned_recorded r)) }
        ensures answers { IfOk result (λ r. answers self.old t.now (owned_recorded r)) };

    /// A record as `decide` answers it, with what was judged, so that who takes it needn't judge it again.
    fn decide_judged(&mut self, alloc: Global, t: &Table) -> Result<Decided, NoMemory>
        ensures table { IfOk result (λ d. d.record.table ≡ t.now) }
        ensures shown { IfOk result (λ d. IsShownBy (owned_recorded d.record) d.judged) }
        ensures answers { IfOk result (λ d. answers self.old t.now (owned_recorded d.record)) };
}

/// Finders in the order in which they are asked, with the budget that each is given.
#[derive(Drop)]
pub struct Finders<F> {
    /// The finders, the first of which is asked first.
    pub finders: Vec<F>,
    /// For how many steps each is asked.
    pub budget: u64,
}

impl<F: Finder> Finders<F> {
    /// Finders in the order in which they are asked, with a budget in steps.
    pub fn new(finders: Vec<F>, budget: u64) -> Finders<F>
        ensures finders { result.finders ≡ finders }
        ensures budget { result.budget ≡ budget }
    {
        Finders { finders, budget }
    }
}

impl<F: Finder> Decider for Finders<F> {
    ghost use Rattle.cert.specs.Certified.{Answered};

    /// What comes of asking all of them in their order, each with the whole budget.
    ghost answers = { λ asked p r. Answered (λ f claim. F.gives f p asked.budget claim) p asked.finders.items r.claim };

    fn decide(&mut self, alloc: Global, t: &Table) -> Result<OwnedRecord, NoMemory> {
        decide(alloc, &mut self.finders, t, self.budget)
    }

    fn decide_judged(&mut self, alloc: Global, t: &Table) -> Result<Decided, NoMemory> {
        decide_judged(alloc, &mut self.finders, t, self.budget)
    }
}

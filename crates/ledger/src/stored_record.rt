// A record as a board stores it, under its table.
ghost use Rattle.std.specs.Prelude.{◌≡◌, IfOk, IfSome, IfErr, OnOk};
ghost use Rattle.ledger.specs.inside.Kept.{IsSmall, kept_number, number_of, kept_certificate, kept_pair, kept_parent};
ghost use Rattle.cert.specs.Terms.{ending_by, shown_by, claim_of, owned_claim, recorded, IsCertified, IsPairOf, IsShownBy, scored};
ghost use Rattle.ledger.specs.Records.{HasScore};
ghost use Rattle.ledger.specs.inside.Trees.{changed_count, MayChange};
ghost use Rattle.ledger.specs.Offers.{IsRefusedOnly};
ghost use Rattle.ledger.specs.inside.Waiting.{IsUnjudged, IsJudgedSo, IsWhyRefused};
ghost use Rattle.ledger.specs.inside.Stored.{entry_recorded};

use crate::faults::OfferFault;
use crate::tree_count::{StoredCount, TreeChange};
use backward::Backward;
use cert::{Certificate, Judged, OwnedCertificate, Record, judge_on};
use kind_evidence::{Ending, NoMemory, Refused, Verdict};
use loops::{Cycle, Translated};
use machine_text::{Dir, Pair, Table};
use run::{HaltsIn, Reach};
use std::alloc::Global;
use std::marker::Model;

// The number that is kept as one more, or as 0 where there is none.
pub(crate) fn number_of(kept: u64) -> Option<u64>
    ensures is { result ≡ number_of kept }
    ensures small { IsSmall result }
{
    if kept == 0 { None } else { Some(kept - 1) }
}

// As what a number is kept.
pub(crate) fn kept_number(number: Option<u64>) -> u64
    requires { IsSmall number }
    ensures { result ≡ kept_number number }
{
    match number {
        Some(number) => number + 1,
        None => 0,
    }
}

// A certificate, the pair on which its table halts, and the place of the record of the table's parent. Nearly all
// certificates are of four kinds, of few numbers that have room in four bytes: these stand here, and every other in a
// box. The fields stand in an order that leaves no gaps.
#[derive(Drop)]
pub(crate) enum Kept {
    Halts {
        on: Pair,
        parent: u32,
        steps: u32,
        ones: u32,
    },
    Cycle {
        parent: u32,
        i: u32,
        j: u32,
    },
    Translated {
        side: Dir,
        parent: u32,
        i: u32,
        j: u32,
    },
    Backward {
        parent: u32,
        depth: u32,
    },
    Undecided {
        parent: u32,
    },
    Boxed {
        on: Option<Pair>,
        parent: u32,
        certificate: Box<OwnedCertificate>,
    },
}

impl Kept {
    // A certificate with its pair and its parent's place, as small as it may be.
    pub fn of(
        alloc: Global,
        certificate: OwnedCertificate,
        on: Option<Pair>,
        parent: u32,
    ) -> Result<Kept, NoMemory>
        ensures certificate { IfOk result (λ kept. kept_certificate kept ≡ certificate) }
        ensures pair { IfOk result (λ kept. kept_pair kept ≡ on) }
        ensures parent { IfOk result (λ kept. kept_parent kept ≡ parent) }
    {
        match small(&certificate, on, parent) {
            Some(kept) => Ok(kept),
            None => Ok(Kept::Boxed {
                on,
                parent,
                certificate: Box::new(alloc, certificate)?,
            }),
        }
    }

    // How its table's run ends by the certificate; nothing where nothing is claimed.
    pub fn ending(&self) -> Option<Ending>
        ensures { result ≡ ending_by (owned_claim (kept_certificate self.now)) }
    {
        match self {
            Kept::Halts { steps, .. } => Some(Ending::Halts(*steps as u64)),
            Kept::Undecided { .. } => None,
            Kept::Boxed { certificate, .. } => certificate.ending(),
            _ => Some(Ending::Never),
        }
    }

    // The certificate, lent.
    pub fn lent(&self) -> Certificate<'_>
        ensures { claim_of result ≡ owned_claim (kept_certificate self.now) }
    {
        match self {
            Kept::Halts { steps, ones, .. } => {
                Certificate::Halts(HaltsIn::early(*steps as u64, Some(*ones as u64)))
            }
            Kept::Cycle { i, j, .. } => Certificate::Cycle(Cycle {
                i: *i as u64,
                j: *j as u64,
            }),
            Kept::Translated { side, i, j, .. } => Certificate::Translated(Translated {
                i: *i as u64,
                j: *j as u64,
                side: *side,
            }),
            Kept::Backward { depth, .. } => Certificate::Backward(Backward {
                depth: *depth as u64,
            }),
            Kept::Undecided { .. } => Certificate::Undecided,
            Kept::Boxed { certificate, .. } => certificate.lent(),
        }
    }

    // The pair on which its table halts.
    pub fn halts_on(&self) -> Option<Pair>
        ensures { result ≡ kept_pair self.now }
    {
        match self {
            Kept::Halts { on, .. } => Some(*on),
            Kept::Boxed { on, .. } => *on,
            _ => None,
        }
    }

    // Where the record of its table's parent stands.
    pub fn parent(&self) -> u32
        ensures { result ≡ kept_parent self.now }
    {
        match self {
            Kept::Halts { parent, .. }
            | Kept::Cycle { parent, .. }
            | Kept::Translated { parent, .. }
            | Kept::Backward { parent, .. }
            | Kept::Undecided { parent }
            | Kept::Boxed { parent, .. } => *parent,
        }
    }
}

// A certificate with its pair and its parent's place without a box, where there is room for its numbers.
fn small(certificate: &OwnedCertificate, on: Option<Pair>, parent: u32) -> Option<Kept>
    ensures certificate { IfSome result (λ kept. kept_certificate kept ≡ certificate.now) }
    ensures pair { IfSome result (λ kept. kept_pair kept ≡ on) }
    ensures parent { IfSome result (λ kept. kept_parent kept ≡ parent) }
{
    match (certificate, on) {
        (OwnedCertificate::Halts(evidence), Some(on)) if evidence.reach == Reach::Early => {
            Some(Kept::Halts {
                on,
                parent,
                steps: small_number(evidence.steps)?,
                ones: small_number(evidence.ones?)?,
            })
        }
        (OwnedCertificate::Cycle(evidence), None) => Some(Kept::Cycle {
            parent,
            i: small_number(evidence.i)?,
            j: small_number(evidence.j)?,
        }),
        (OwnedCertificate::Translated(evidence), None) => Some(Kept::Translated {
            side: evidence.side,
            parent,
            i: small_number(evidence.i)?,
            j: small_number(evidence.j)?,
        }),
        (OwnedCertificate::Backward(evidence), None) => Some(Kept::Backward {
            parent,
            depth: small_number(evidence.depth)?,
        }),
        (OwnedCertificate::Undecided, None) => Some(Kept::Undecided { parent }),
        _ => None,
    }
}

// A number that has room in four bytes.
fn small_number(number: u64) -> Option<u32>
    ensures { IfSome result (λ kept. kept ≡ number) }
{
    u32::try_from(number).ok()
}

// A certificate, with its table's score where it says that this halts, and the pair on which it halts: so the score
// and the children of the table are known without another run. The place of the parent's record, of the root nowhere, and the
// numbers of the tree stand with it, so that what is left of the tree is known without a walk.
#[derive(Drop)]
pub(crate) struct StoredRecord {
    kept: Kept,
    tree: StoredCount,
}

impl Model for StoredRecord {
    ghost use Rattle.ledger.specs.inside.Kept.{Stored, kept_certificate, kept_pair, kept_parent};

    ghost Value = { Stored };

    ghost view = { λ a. record {
      certificate = kept_certificate a.kept;
      halts_on = kept_pair a.kept;
      parent = kept_parent a.kept;
      tree = a.tree;
    } };
}

// Whether a record is yet to be judged.
#[derive(Clone, Copy)]
pub(crate) enum Judging {
    // nothing is known of its certificate
    Due,
    // it is certified
    Done,
    // it was judged, with this outcome
    Seen(Judged),
}

impl StoredRecord {
    // The certificate of a record, once it is judged, with the score that was found of its table if it halts, and with
    // what is stored of the table.
    pub fn of(
        alloc: Global,
        r: &Record,
        judging: Judging,
        parent: u32,
        tree: StoredCount,
    ) -> Result<StoredRecord, OfferFault>
        requires { IsJudgedSo judging (recorded r.now) }
        ensures certified { OnOk result (IsCertified (recorded r.now)) }
        ensures claim { IfOk result (λ stored. owned_claim stored.certificate
            ≡ scored r.now.table (claim_of r.now.certificate)) }
        ensures pair { IfOk result (λ stored. IsPairOf (ending_by (owned_claim stored.certificate)) r.now.table
            stored.halts_on) }
        ensures parent { IfOk result (λ stored. stored.parent ≡ parent) }
        ensures tree { IfOk result (λ stored. stored.tree ≡ tree) }
        ensures refusal { IfErr result (λ f. IsWhyRefused f (recorded r.now)) }
        ensures due { IfErr result (IsRefusedOnly (IsUnjudged judging)) }
    {
        let judged = judged_as(alloc, r, judging)?;
        let certificate = OwnedCertificate::of(alloc, &r.certificate)?.with_score(judged.verdict);
        Ok(StoredRecord {
            kept: Kept::of(alloc, certificate, judged.halts_on, parent)?,
            tree,
        })
    }

    // How its table's run ends; nothing where nothing is claimed.
    pub fn ending(&self) -> Option<Ending>
        ensures { result ≡ ending_by (owned_claim self.now.certificate) }
    {
        self.kept.ending()
    }

    // The certificate, lent.
    pub fn lent(&self) -> Certificate<'_>
        ensures { claim_of result ≡ owned_claim self.now.certificate }
    {
        self.kept.lent()
    }

    // The pair on which its table halts.
    pub fn halts_on(&self) -> Option<Pair>
        ensures { result ≡ self.now.halts_on }
    {
        self.kept.halts_on()
    }

    // Where the record of its table's parent stands.
    pub fn parent(&self) -> u32
        ensures { result ≡ self.now.parent }
    {
        self.kept.parent()
    }

    // The numbers of its table's tree.
    pub fn tree(&self) -> StoredCount
        ensures { result ≡ self.now.tree }
    {
        self.tree
    }

    // Changes these numbers.
    pub fn change_tree(&mut self, change: TreeChange)
        requires { MayChange self.old.tree change }
        ensures { self.new ≡ record self.old { tree = changed_count change self.old.tree } }
    {
        self.tree = self.tree.with(change);
    }

    // The verdict that its certificate shows of its table, with whose score it is stored.
    pub fn verdict(&self, t: &Table) -> Option<Verdict>
        requires { HasScore (entry_recorded (t.now, self.now)) }
        ensures { result ≡ shown_by (owned_claim self.now.certificate) t.now }
    {
        match self.ending() {
            Some(Ending::Halts(steps)) => match self.lent().ones() {
                Some(ones) => Some(Verdict::Halts { steps, ones }),
                None => unreachable!(),
            },
            Some(Ending::Never) => Some(Verdict::Never),
            None => None,
        }
    }
}

// What a record's certificate shows, where it stands.
pub(crate) fn judged_as(alloc: Global, r: &Record, judging: Judging) -> Result<Judged, OfferFault>
    requires { IsJudgedSo judging (recorded r.now) }
    ensures shown { IfOk result (IsShownBy (recorded r.now)) }
    ensures refusal { IfErr result (λ f. IsWhyRefused f (recorded r.now)) }
    ensures due { IfErr result (IsRefusedOnly (IsUnjudged judging)) }
{
    match judging {
        Judging::Due => judged(alloc, r),
        Judging::Done => certified(alloc, r),
        Judging::Seen(judged) => Ok(judged),
    }
}

// What a record's certificate shows, once it is judged.
fn judged(alloc: Global, r: &Record) -> Result<Judged, OfferFault>
    ensures shown { IfOk result (IsShownBy (recorded r.now)) }
    ensures refusal { IfErr result (λ f. IsWhyRefused f (recorded r.now)) }
    ensures due { IfErr result (IsRefusedOnly (IsUnjudged Judging.Due)) }
{
    match judge_on(alloc, r) {
        Ok(judged) => Ok(judged),
        Err(Refused::NotSeen | Refused::NoMemory) => Err(OfferFault::NoMemory),
        Err(refused) => Err(OfferFault::Refused(refused)),
    }
}

// What a certificate shows that is known to stand: only a table that halts is run, for its score and its children.
fn certified(alloc: Global, r: &Record) -> Result<Judged, OfferFault>
    requires { IsCertified (recorded r.now) }
    ensures shown { IfOk result (IsShownBy (recorded r.now)) }
    ensures refusal { IfErr result (λ f. IsWhyRefused f (recorded r.now)) }
    ensures due { IfErr result (IsRefusedOnly ⊥) }
{
    match r.certificate.ending() {
        Some(Ending::Halts(_)) => match judge_on(alloc, r) {
            Ok(judged) => Ok(judged),
            Err(_) => Err(OfferFault::NoMemory),
        },
        Some(Ending::Never) => Ok(Judged {
            verdict: Some(Verdict::Never),
            halts_on: None,
        }),
        None => Ok(Judged {
            verdict: None,
            halts_on: None,
        }),
    }
}

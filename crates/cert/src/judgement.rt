// Whether a record's certificate stands, and records that are certified.
ghost use Rattle.std.specs.Prelude.{◌≡◌, ◌≢◌, ◌⊎◌, Ok, Err, None, Some, OnOk, IfOk, IfErr, MatchOption, IfSome, All, option_map};
ghost use Rattle.cert.specs.Claim.{NoClaim, TakesMemory, ending_by, shown_by, Claim, Recorded, IsWritable, IsMadeFor, Stands};
ghost use Rattle.cert.specs.Certified.{IsCertified, IsRefusedBy, IsPairOf, ComesOfClaim, IsPassedOver, ShowsVerdict, IsShownBy, with_score, GetsScore, scored, unscored, without_score};
ghost use Rattle.cert.specs.Kinds.{claim_of, recorded, owned_claim, owned_recorded};
ghost use Rattle.machine_text.specs.Terms.{Packed, IsTable, entry_of};
ghost use Rattle.kind_evidence.specs.Terms.{IsTrueOf, ending_of};
ghost use Rattle.cert.specs.Grammar.{record_of, record_text};

use crate::certificate::{Certificate, OwnedCertificate};
use crate::record::{OwnedRecord, Record};
use kind_evidence::{Evidence, NoMemory, Refused, Verdict};
use machine_text::{Pair, Table};
use std::alloc::Global;

/// What a certificate that stands shows of its table.
#[derive(Clone, Copy, Debug, PartialEq, Eq)]
pub struct Judged {
    /// The verdict; none where nothing is claimed.
    pub verdict: Option<Verdict>,
    /// The pair on which the table halts, where the verdict is that it does.
    pub halts_on: Option<Pair>,
}

/// Checks a record's certificate: the verdict that it shows of the table, or none where nothing is claimed.
/// Neither that nor the check of position sets or of automata of few states takes memory. `Fails` where it doesn't
/// stand, `TooLong` and `TooWide` where it asks for more than the limits of its kind, `NotSeen` where its check ends
/// without an answer, `NoMemory` where memory is refused. Counted automata are `TooWide` where their numbers overflow,
/// which says nothing of whether they stand.
pub fn judge(alloc: Global, r: &Record) -> Result<Option<Verdict>, Refused>
    ensures ok { IfOk result (λ v. IsCertified (recorded r.now)
        × (v ≡ shown_by (claim_of r.now.certificate) r.now.table)) }
    ensures refused { IfErr result (λ f. f ≢ Refused.NoMemory → IsRefusedBy f (recorded r.now)) }
    ensures memory { IfErr result (λ f. f ≡ Refused.NoMemory → TakesMemory (claim_of r.now.certificate) r.now.table) }
    ensures undecided { claim_of r.now.certificate ≡ NoClaim → result ≡ Ok None }
{
    match judge_on(alloc, r) {
        Ok(judged) => Ok(judged.verdict),
        Err(fault) => Err(fault),
    }
}

/// Checks as `judge` does, and answers the pair on which the table halts too: a table that is claimed to halt is run
/// once.
pub fn judge_on(alloc: Global, r: &Record) -> Result<Judged, Refused>
    ensures certified { OnOk result (IsCertified (recorded r.now)) }
    ensures verdict { IfOk result (λ judged. judged.verdict ≡ shown_by (claim_of r.now.certificate) r.now.table) }
    ensures pair { IfOk result (λ judged. IsPairOf (ending_by (claim_of r.now.certificate)) r.now.table
        judged.halts_on) }
    ensures refused { IfErr result (λ f. f ≢ Refused.NoMemory → IsRefusedBy f (recorded r.now)) }
    ensures memory { IfErr result (λ f. f ≡ Refused.NoMemory → TakesMemory (claim_of r.now.certificate) r.now.table) }
    ensures undecided { claim_of r.now.certificate ≡ NoClaim
        → result ≡ Ok (record { verdict = None; halts_on = None }) }
{
    match &r.certificate {
        Certificate::Halts(evidence) => {
            let halted = evidence.halted(alloc, &r.table)?;
            Ok(Judged {
                verdict: Some(Verdict::Halts {
                    steps: evidence.steps,
                    ones: halted.ones,
                }),
                halts_on: Some(halted.pair),
            })
        }
        Certificate::Cycle(evidence) => checked(evidence, alloc, &r.table),
        Certificate::Translated(evidence) => checked(evidence, alloc, &r.table),
        Certificate::Backward(evidence) => checked(evidence, alloc, &r.table),
        Certificate::Ngram(evidence) => checked(evidence, alloc, &r.table),
        Certificate::Far(evidence) => checked(evidence, alloc, &r.table),
        Certificate::Listed(evidence) => checked(evidence, alloc, &r.table),
        Certificate::Counted(evidence) => checked(evidence, alloc, &r.table),
        Certificate::Rules(evidence) => checked(evidence, alloc, &r.table),
        Certificate::Named(evidence) => checked(evidence, alloc, &r.table),
        Certificate::Undecided => Ok(Judged {
            verdict: None,
            halts_on: None,
        }),
    }
}

// What evidence of any kind shows of a table, with no pair.
fn checked<E: Evidence>(evidence: &E, alloc: Global, t: &Table) -> Result<Judged, Refused>
    ensures ok { IfOk result (λ judged. judged
        ≡ record { verdict = Some (E.shows evidence.now t.now); halts_on = None }) }
    ensures certified { OnOk result ((E.meaning evidence.now).within × (E.meaning evidence.now).stands t.now
        × ((E.meaning evidence.now).wide t.now → ⊥)) }
    ensures fails { result ≡ Err Refused.Fails → (E.meaning evidence.now).within
        × ((E.meaning evidence.now).wide t.now → ⊥) × ((E.meaning evidence.now).stands t.now → ⊥) }
    ensures long { result ≡ Err Refused.TooLong → (E.meaning evidence.now).within → ⊥ }
    ensures wide { result ≡ Err Refused.TooWide → (E.meaning evidence.now).within
        × ((E.meaning evidence.now).wide t.now ⊎ (E.meaning evidence.now).overflows t.now) }
    ensures unseen { result ≡ Err Refused.NotSeen → (E.meaning evidence.now).unseen t.now }
    ensures memory { result ≡ Err Refused.NoMemory → (E.meaning evidence.now).takes_memory t.now }
{
    let verdict = evidence.check(alloc, t)?;
    Ok(Judged {
        verdict: Some(verdict),
        halts_on: None,
    })
}

/// A record that is certified, with what its certificate shows of the table.
#[derive(Drop)]
pub struct Decided {
    /// The record.
    pub record: OwnedRecord,
    /// What it shows: who takes the record needn't judge it again.
    pub judged: Judged,
}

impl Decided {
    ghost use Rattle.kind_evidence.specs.declared.verdicts.Ending.TheVariants.{Never};

    /// What comes of a certificate for a table: it is judged, and taken if it claims something and stands.
    pub fn by(
        alloc: Global,
        t: &Table,
        certificate: OwnedCertificate,
    ) -> Result<Option<Decided>, NoMemory>
        ensures { IfOk result (λ o. ComesOfClaim t.now (Some (owned_claim certificate)) o) }
    {
        let record = OwnedRecord {
            table: *t,
            certificate,
        };
        match judged_of(alloc, &record)? {
            Some(judged) => Ok(Some(Decided { record, judged })),
            None => Ok(None),
        }
    }

    /// A record by which the table never halts, of a certificate that whoever found it has shown: nothing is judged.
    pub fn never(t: &Table, certificate: OwnedCertificate) -> Decided
        requires never { ending_by (owned_claim certificate) ≡ Some Never }
        requires certified { IsCertified (record { table = t.now; claim = owned_claim certificate }) }
        ensures { ComesOfClaim t.now (Some (owned_claim certificate)) (Some result) }
    {
        Decided {
            record: OwnedRecord {
                table: *t,
                certificate,
            },
            judged: Judged {
                verdict: Some(Verdict::Never),
                halts_on: None,
            },
        }
    }

    /// Gives the record its table's score, where it says that the table halts: nothing is run.
    pub fn scored(self) -> Decided
        requires { IsShownBy (owned_recorded self.record) self.judged }
        ensures record { owned_recorded result.record ≡ with_score (owned_recorded self.record) }
        ensures shown { IsShownBy (owned_recorded result.record) result.judged }
    {
        Decided {
            record: OwnedRecord {
                table: self.record.table,
                certificate: self.record.certificate.with_score(self.judged.verdict),
            },
            judged: self.judged,
        }
    }
}

// What a record shows, if it claims something and that stands.
fn judged_of(alloc: Global, r: &OwnedRecord) -> Result<Option<Judged>, NoMemory>
    ensures { IfOk result (λ o. MatchOption o (IsPassedOver r.now.table (Some (owned_claim r.now.certificate)))
        (λ judged. IsShownBy (owned_recorded r.now) judged
        × ShowsVerdict r.now.table (Some (owned_claim r.now.certificate)))) }
{
    // The parts by their names: the borrow checker's proof has to know of what the record is made.
    let record = Record {
        table: r.table,
        certificate: r.certificate.lent(),
    };
    match judge_on(alloc, &record) {
        Ok(judged) => Ok(judged.verdict.is_some().then_some(judged)),
        Err(Refused::NotSeen | Refused::NoMemory) => Err(NoMemory),
        Err(_) => Ok(None),
    }
}

/// A claim that stands makes its verdict true of the table.
pub fn standing_claims_are_true()
    ensures { (c : Claim) (p : Packed) → IsTable p → Stands c p → IfSome (shown_by c p) (λ v. IsTrueOf v (entry_of p)) }
{}

/// The numbers of a claim that is certified have at most 64 bits, and its lists and automata are made for the table's states.
pub fn certified_claims_are_writable()
    ensures writable { (r : Recorded) → IsCertified r → IsWritable r.claim }
    ensures made { (r : Recorded) → IsCertified r → IsMadeFor r.claim r.table.states }
{}

/// Reading the text of a record gives the record again.
pub fn records_parse_back()
    ensures { (r : Recorded) → IsTable r.table → IsWritable r.claim → IsMadeFor r.claim r.table.states
        → record_of (record_text r) ≡ Ok r }
{}

/// The text of a record is one line: it has no newline.
pub fn record_texts_are_lines()
    ensures { (r : Recorded) → IsTable r.table → IsWritable r.claim → All (λ byte. byte ≢ 10) (record_text r) }
{}

/// A score is no part of how a run ends: a claim ends as its verdict does, also with the table's score or without one,
/// and shows the same. What is certified stays so with its score, and without.
pub fn scores_leave_claims()
    ensures ends { (c : Claim) (p : Packed) → option_map ending_of (shown_by c p) ≡ ending_by c }
    ensures scored { (p : Packed) (c : Claim) → (ending_by (scored p c) ≡ ending_by c)
        × (shown_by (scored p c) p ≡ shown_by c p) }
    ensures unscored { (c : Claim) → ending_by (unscored c) ≡ ending_by c }
    ensures again { (p : Packed) (c : Claim) → (scored p (scored p c) ≡ scored p c)
        × (scored p (unscored c) ≡ scored p c) }
    ensures certified { (r : Recorded) → IsCertified r → IsCertified (with_score r) × IsCertified (without_score r) }
    ensures found { (r s : Recorded) → GetsScore r s → IsCertified r → s ≡ with_score r }
{}

// Certificates, borrowed and owned.
ghost use Rattle.std.specs.Prelude.{◌≡◌, ◌≤◌, ◌++◌, take, length, IfOk, OnOk};
ghost use Rattle.cert.specs.Grammar.{undecided_by};
ghost use Rattle.machine_text.specs.Terms.{state_limit};
ghost use Rattle.text.specs.Terms.{made_of};
ghost use Rattle.cert.specs.Kinds.{claim_of};

use backward::Backward;
use far::{Far, Listed, OwnedFar, OwnedListed};
use kind_counted::{CountedCosets, OwnedCosets};
use kind_evidence::{Ending, NoMemory, Verdict};
use kind_named::Named;
use kind_rules::{OwnedRules, Rules};
use loops::{Cycle, Translated};
use ngram_cps::{Ngram, OwnedNgram};
use run::{HaltsIn, Reach};
use std::alloc::Global;
use text::{FieldFault, Parts, end_of, next_field};

/// What is put forward for a table.
#[derive(Clone, Copy, Debug, PartialEq, Eq)]
pub enum Certificate<'a> {
    /// `H k s`, and `L k s` where k is above 100,000,000: it halts in k steps, with s ones on its tape then; `H k` and `L k` say
    /// nothing of the ones.
    Halts(HaltsIn),
    /// `C i j`: the same configuration at the times i and j.
    Cycle(Cycle),
    /// `T i j side`: the same at the times i and j, but for a shift and for what lies behind.
    Translated(Translated),
    /// `B d`: no configuration comes to a halting pair after exactly d steps.
    Backward(Backward),
    /// `N g L R C`: a closed position set of width g, its three lists borrowed from the record's text.
    Ngram(Ngram<'a>),
    /// `F side m delta rows keep`: two automata, a first one of m states, by which it never halts; their numbers are
    /// borrowed from the record's text.
    Far(Far<'a>),
    /// `A side m delta rows keep`: the same, where the first one may be large and the edges of the second are listed; three
    /// texts, borrowed from the record's.
    Listed(Listed<'a>),
    /// `W i j left right cosets`: two automata of i and j counts, and the cosets in which the counts lie, by which it never
    /// halts; three texts, borrowed from the record's.
    Counted(CountedCosets<'a>),
    /// `R rules family first begin next loop`: rules with induction, by which its run comes to the forms of a family again and
    /// again; six texts, borrowed from the record's.
    Rules(Rules<'a>),
    /// `P`: the table is one of those that have a proof of their own that they never halt.
    Named(Named),
    /// `U`: nothing is claimed.
    Undecided,
}

/// A certificate that keeps its own texts. Lists and automata stand in a box, so that records of the
/// other kinds are small.
#[derive(Drop, Debug)]
pub enum OwnedCertificate {
    Halts(HaltsIn),
    Cycle(Cycle),
    Translated(Translated),
    Backward(Backward),
    Ngram(Box<OwnedNgram>),
    Far(Box<OwnedFar>),
    Listed(Box<OwnedListed>),
    Counted(Box<OwnedCosets>),
    Rules(Box<OwnedRules>),
    Named(Named),
    Undecided,
}

impl<'a> Certificate<'a> {
    ghost use Rattle.cert.specs.Claim.{NeverClaim, reason_by};
    ghost use Rattle.cert.specs.Kinds.{claim_of};
    ghost use Rattle.cert.specs.Grammar.{claim_from};

    // The certificate of the parts behind a table of so many states.
    pub(crate) fn read(states: u8, mut parts: Parts<'a>) -> Result<Certificate<'a>, FieldFault>
        requires { (1 ≤ states) × (states ≤ state_limit) }
        ensures { made_of claim_of result ≡ claim_from states parts.entry }
    {
        let letter = next_field(&mut parts)?;
        if letter == b"H".as_slice() {
            Ok(Certificate::Halts(HaltsIn::read(Reach::Early, parts)?))
        } else if letter == b"L".as_slice() {
            Ok(Certificate::Halts(HaltsIn::read(Reach::Late, parts)?))
        } else if letter == b"U".as_slice() {
            undecided(parts)
        } else {
            Certificate::never(states, letter, parts)
        }
    }

    // The certificate of the fields behind a kind's letter, by which a table never halts.
    fn never(states: u8, letter: &[u8], fields: Parts<'a>) -> Result<Certificate<'a>, FieldFault>
        requires { (1 ≤ states) × (states ≤ state_limit) }
        ensures { made_of claim_of result ≡ made_of NeverClaim (reason_by states letter.now fields.entry) }
    {
        if letter == b"C".as_slice() {
            Ok(Certificate::Cycle(Cycle::read(fields)?))
        } else if letter == b"T".as_slice() {
            Ok(Certificate::Translated(Translated::read(fields)?))
        } else if letter == b"B".as_slice() {
            Ok(Certificate::Backward(Backward::read(fields)?))
        } else if letter == b"N".as_slice() {
            Ok(Certificate::Ngram(Ngram::read(states, fields)?))
        } else if letter == b"F".as_slice() {
            Ok(Certificate::Far(Far::read(states, fields)?))
        } else if letter == b"A".as_slice() {
            Ok(Certificate::Listed(Listed::read(states, fields)?))
        } else if letter == b"W".as_slice() {
            Ok(Certificate::Counted(CountedCosets::read(states, fields)?))
        } else if letter == b"R".as_slice() {
            Ok(Certificate::Rules(Rules::read(states, fields)?))
        } else if letter == b"P".as_slice() {
            Ok(Certificate::Named(Named::read(fields)?))
        } else {
            Err(FieldFault::BadKind)
        }
    }
}

impl Certificate<'_> {
    ghost use Rattle.cert.specs.Claim.{IsWritable, ending_by, score_by};
    ghost use Rattle.cert.specs.Grammar.{claim_text, kind_text};
    ghost use Rattle.cert.specs.Kinds.{claim_of};

    /// How its table's run ends by it; nothing where nothing is claimed. Whether it stands isn't looked at.
    pub fn ending(&self) -> Option<Ending>
        ensures { result ≡ ending_by (claim_of self.now) }
    {
        match self {
            Certificate::Halts(evidence) => Some(Ending::Halts(evidence.steps)),
            Certificate::Undecided => None,
            _ => Some(Ending::Never),
        }
    }

    /// The score that it claims, if it claims one: a number of ones (Radó 1962).
    pub fn ones(&self) -> Option<u64>
        ensures { result ≡ score_by (claim_of self.now) }
    {
        match self {
            Certificate::Halts(evidence) => evidence.ones,
            _ => None,
        }
    }

    // Appends its text, from its kind on; where memory is refused, a beginning of it.
    pub(crate) fn append_text(&self, out: &mut Vec<u8>) -> Result<(), NoMemory>
        ensures ok { OnOk result (out.new.items ≡ out.old.items ++ claim_text (claim_of self.now)) }
        ensures writable { OnOk result (IsWritable (claim_of self.now)) }
        ensures kept { take (length out.old.items) out.new.items ≡ out.old.items }
    {
        out.extend_from_slice(self.letter())?;
        match self {
            Certificate::Halts(evidence) => evidence.append_fields(out),
            Certificate::Cycle(evidence) => evidence.append_fields(out),
            Certificate::Translated(evidence) => evidence.append_fields(out),
            Certificate::Backward(evidence) => evidence.append_fields(out),
            Certificate::Ngram(evidence) => evidence.append_fields(out),
            Certificate::Far(evidence) => evidence.append_fields(out),
            Certificate::Listed(evidence) => evidence.append_fields(out),
            Certificate::Counted(evidence) => evidence.append_fields(out),
            Certificate::Rules(evidence) => evidence.append_fields(out),
            Certificate::Named(evidence) => evidence.append_fields(out),
            Certificate::Undecided => Ok(()),
        }
    }

    /// The letter of its kind: one byte.
    pub fn letter(&self) -> &'static [u8]
        ensures letter { result.now ≡ kind_text (claim_of self.now) }
        ensures one { length result.now ≡ 1 }
    {
        match self {
            Certificate::Halts(evidence) => evidence.reach.letter(),
            Certificate::Cycle(_) => b"C",
            Certificate::Translated(_) => b"T",
            Certificate::Backward(_) => b"B",
            Certificate::Ngram(_) => b"N",
            Certificate::Far(_) => b"F",
            Certificate::Listed(_) => b"A",
            Certificate::Counted(_) => b"W",
            Certificate::Rules(_) => b"R",
            Certificate::Named(_) => b"P",
            Certificate::Undecided => b"U",
        }
    }
}

impl OwnedCertificate {
    ghost use Rattle.machine_text.specs.Terms.{Packed};
    ghost use Rattle.cert.specs.Claim.{ending_by, shown_by};
    ghost use Rattle.cert.specs.Kinds.{claim_of, owned_claim};
    ghost use Rattle.cert.specs.Certified.{scored};

    /// A copy of a certificate.
    pub fn of(alloc: Global, certificate: &Certificate) -> Result<OwnedCertificate, NoMemory>
        ensures { IfOk result (λ owned. owned_claim owned ≡ claim_of certificate.now) }
    {
        Ok(match *certificate {
            Certificate::Halts(evidence) => OwnedCertificate::Halts(evidence),
            Certificate::Cycle(evidence) => OwnedCertificate::Cycle(evidence),
            Certificate::Translated(evidence) => OwnedCertificate::Translated(evidence),
            Certificate::Backward(evidence) => OwnedCertificate::Backward(evidence),
            Certificate::Ngram(evidence) => {
                OwnedCertificate::Ngram(Box::new(alloc, OwnedNgram::of(alloc, &evidence)?)?)
            }
            Certificate::Far(evidence) => {
                OwnedCertificate::Far(Box::new(alloc, OwnedFar::of(alloc, &evidence)?)?)
            }
            Certificate::Listed(evidence) => {
                OwnedCertificate::Listed(Box::new(alloc, OwnedListed::of(alloc, &evidence)?)?)
            }
            Certificate::Counted(evidence) => {
                OwnedCertificate::Counted(Box::new(alloc, OwnedCosets::of(alloc, &evidence)?)?)
            }
            Certificate::Rules(evidence) => {
                OwnedCertificate::Rules(Box::new(alloc, OwnedRules::of(alloc, &evidence)?)?)
            }
            Certificate::Named(evidence) => OwnedCertificate::Named(evidence),
            Certificate::Undecided => OwnedCertificate::Undecided,
        })
    }

    /// How its table's run ends by it; nothing where nothing is claimed. Lists and automata aren't unpacked.
    pub fn ending(&self) -> Option<Ending>
        ensures { result ≡ ending_by (owned_claim self.now) }
    {
        match self {
            OwnedCertificate::Halts(evidence) => Some(Ending::Halts(evidence.steps)),
            OwnedCertificate::Undecided => None,
            _ => Some(Ending::Never),
        }
    }

    /// With the verdict that it was found to show, the certificate of a table that halts has that table's score; every
    /// other stays as it is.
    pub fn with_score(self, shown: Option<Verdict>) -> OwnedCertificate
        ensures { (p : Packed) → shown ≡ shown_by (owned_claim self) p
            → owned_claim result ≡ scored p (owned_claim self) }
    {
        match (self, shown) {
            (OwnedCertificate::Halts(evidence), Some(Verdict::Halts { ones, .. })) => {
                OwnedCertificate::Halts(evidence.with_ones(ones))
            }
            (certificate, _) => certificate,
        }
    }

    /// The certificate, lent.
    pub fn lent(&self) -> Certificate<'_>
        ensures { claim_of result ≡ owned_claim self.now }
    {
        match self {
            OwnedCertificate::Halts(evidence) => Certificate::Halts(*evidence),
            OwnedCertificate::Cycle(evidence) => Certificate::Cycle(*evidence),
            OwnedCertificate::Translated(evidence) => Certificate::Translated(*evidence),
            OwnedCertificate::Backward(evidence) => Certificate::Backward(*evidence),
            OwnedCertificate::Ngram(evidence) => Certificate::Ngram(evidence.lent()),
            OwnedCertificate::Far(evidence) => Certificate::Far(evidence.lent()),
            OwnedCertificate::Listed(evidence) => Certificate::Listed(evidence.lent()),
            OwnedCertificate::Counted(evidence) => Certificate::Counted(evidence.lent()),
            OwnedCertificate::Rules(evidence) => Certificate::Rules(evidence.lent()),
            OwnedCertificate::Named(evidence) => Certificate::Named(*evidence),
            OwnedCertificate::Undecided => Certificate::Undecided,
        }
    }
}

// Where nothing is claimed there are no fields.
fn undecided(fields: Parts<'_>) -> Result<Certificate<'static>, FieldFault>
    ensures { made_of claim_of result ≡ undecided_by fields.entry }
{
    end_of(fields)?;
    Ok(Certificate::Undecided)
}

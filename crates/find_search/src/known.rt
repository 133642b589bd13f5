// What is known of tables by the records of a text, and lines that tell nothing.
ghost use Rattle.std.specs.Prelude.{◌≡◌, false, IsTrue, IfOk, Some, OnErr, OnOk, is_none, option_map};
ghost use Rattle.find_search.specs.Known.{no_refusals, with_number, IsGiven, IsLookedUp, known_of, some_claim, IsKnownBy};
ghost use Rattle.cert.specs.Terms.{IsPassedOver, ShowsVerdict, owned_claim, recorded};
ghost use Rattle.machine_text.specs.Terms.{Packed};
ghost use Rattle.cmd_lines.specs.Terms.{read_line, lent};
ghost use Rattle.cmd_options.specs.declared.ended.Ended.TheVariants.{NoMemory as WantsMemory};
ghost use Rattle.find_search.specs.inside.{IsNews, LineTells, RecordKept};

use cert::{Certificate, Finder, OwnedCertificate, Record, judge};
use cmd_lines::{LineLoop, LineTaker, read_line};
use cmd_options::{Ended, Stopped};
use kind_evidence::{NoMemory, Refused};
use machine_text::Table;
use std::alloc::Global;
use std::collections::BTreeMap;
use std::io::Read;

/// How many lines were refused, and the number of the first of them; the first line of a text is 1.
#[derive(Clone, Copy, Debug, PartialEq, Eq)]
pub struct Refusals {
    /// How many.
    pub count: u64,
    /// The first; none where none was refused.
    pub first: Option<u64>,
}

impl Refusals {
    /// None yet.
    pub(crate) const fn none() -> Refusals
        ensures { result ≡ no_refusals }
    {
        Refusals {
            count: 0,
            first: None,
        }
    }

    /// The refusals and a line more, by its number.
    pub(crate) fn with_number(self, line: u64) -> Refusals
        ensures { result ≡ with_number self line }
    {
        let first = match self.first {
            Some(first) if first < line => first,
            _ => line,
        };
        Refusals {
            count: self.count.saturating_add(1),
            first: Some(first),
        }
    }
}

// The certificate of a line's record, and the line's number.
#[derive(Drop)]
pub(crate) struct Told {
    pub line: u64,
    pub certificate: OwnedCertificate,
}

impl Told {
    // Whether that claims something of a table, and stands.
    pub fn stands(&self, alloc: Global, t: &Table) -> Result<bool, NoMemory>
        ensures stands { IfOk result
            (λ stands. IsTrue stands → ShowsVerdict t.now (Some (owned_claim self.now.certificate))) }
        ensures passed { IfOk result
            (λ stands. stands ≡ false → IsPassedOver t.now (Some (owned_claim self.now.certificate))) }
    {
        // The parts by their names: the borrow checker's proof has to know of what the record is made.
        let record = Record {
            table: *t,
            certificate: self.certificate.lent(),
        };
        match judge(alloc, &record) {
            Ok(verdict) => Ok(verdict.is_some()),
            Err(Refused::NotSeen | Refused::NoMemory) => Err(NoMemory),
            Err(_) => Ok(false),
        }
    }
}

/// Certificates that were found elsewhere, by their tables, and which lines were refused.
#[derive(Drop)]
pub struct Known {
    alloc: Global,
    told: BTreeMap<Table, Told>,
    // how many lines were taken
    lines: u64,
    refused: Refusals,
}

impl Known {
    ghost use Rattle.std.specs.Prelude.{None};

    // Nothing is known yet.
    pub(crate) fn new(alloc: Global) -> Known
        ensures known { (p : Packed) → known_of result p ≡ None }
        ensures lines { result.lines ≡ 0 }
        ensures refused { result.refused ≡ no_refusals }
    {
        Known {
            alloc,
            told: BTreeMap::new(alloc),
            lines: 0,
            refused: Refusals::none(),
        }
    }

    /// The lines that were refused: those that told nothing when they were read, and those whose record was looked up
    /// and doesn't stand.
    pub fn refused(&self) -> Refusals
        ensures { result ≡ self.now.refused }
    {
        self.refused
    }

    // Whether there were lines, and each was refused.
    pub(crate) fn tells_nothing(&self) -> bool {
        self.told.is_empty() && self.refused.first.is_some()
    }

    /// What is known of a table, where it stands. Where it doesn't, its line is refused, and nothing is known of the
    /// table from then on. Where memory is refused nothing changes.
    pub fn look_up(&mut self, t: &Table) -> Result<Option<OwnedCertificate>, NoMemory>
        ensures given { IfOk result (λ o. IsGiven (known_of self.old t.now) t.now (option_map owned_claim o)) }
        ensures changes { IfOk result (λ o. IsLookedUp self.old t.now (option_map owned_claim o) self.new) }
        ensures err { OnErr result (self.new ≡ self.old) }
    {
        let Some(told) = self.told.get(t) else {
            return Ok(None);
        };
        if told.stands(self.alloc, t)? {
            return Ok(Some(OwnedCertificate::of(self.alloc, &told.certificate.lent())?));
        }
        let line = told.line;
        self.told.remove(t);
        self.refused = self.refused.with_number(line);
        Ok(None)
    }

    // Whether something is known of a table.
    pub(crate) fn has(&self, t: &Table) -> bool {
        self.told.contains_key(t)
    }

    // The record of a line, where that tells something: it claims something, and nothing is known of its table.
    fn news<'a>(&self, line: Option<&'a [u8]>) -> Option<Record<'a>>
        ensures { IsNews (known_of self.now) (read_line (lent line.entry)) (option_map recorded result) }
    {
        let Ok(found) = read_line(line) else {
            return None;
        };
        if claims_nothing(&found) || self.told.contains_key(&found.table) {
            return None;
        }
        Some(found)
    }

    // Keeps what the record of the last line claims of its table.
    fn keep(&mut self, found: &Record<'_>) -> Result<(), NoMemory>
        ensures { OnOk result (RecordKept self.old (recorded found.now) self.new) }
    {
        let told = Told {
            line: self.lines,
            certificate: OwnedCertificate::of(self.alloc, &found.certificate)?,
        };
        self.told.insert(found.table, told)?;
        Ok(())
    }
}

impl LineTaker for Known {
    ghost takes = { LineTells };

    ghost ends = { λ e. e ≡ WantsMemory };

    fn take_line(&mut self, line: Option<&[u8]>) -> Result<(), Ended> {
        self.lines = self.lines.saturating_add(1);
        match self.news(line) {
            Some(found) => Ok(self.keep(&found)?),
            None => {
                self.refused = self.refused.with_number(self.lines);
                Ok(())
            }
        }
    }
}

impl Finder for Known {
    ghost gives = { λ known p budget claim. IsGiven (known_of known p) p claim };

    fn find(&mut self, t: &Table, budget: u64) -> Result<Option<OwnedCertificate>, NoMemory> {
        self.look_up(t)
    }
}

// Whether a record is one that claims nothing.
fn claims_nothing(found: &Record<'_>) -> bool
    ensures { result ≡ is_none (some_claim (recorded found.now).claim) }
{
    match found.certificate {
        Certificate::Undecided => true,
        _ => false,
    }
}

/// What is known by the first bytes of a reader, so many bytes at most: of each table the claim of the first line that
/// is a record of it and claims something; the other lines are refused. A line of over 65,000 bytes is no record.
/// Nothing is judged.
pub fn read_known<R: Read>(alloc: Global, from: &mut R, limit: u64) -> Result<Known, Stopped>
    ensures { IfOk result (IsKnownBy (R.remaining from.old) limit) }
{
    let mut known = Known::new(alloc);
    let mut lines = LineLoop::new(alloc);
    lines.take_from(from, limit, &mut known)?;
    lines.end(&mut known)?;
    Ok(known)
}

// What looks for certificates and for automata.
use crate::words::{Said, number_of, parted, table_of, unread};
use backward::BackwardFinder;
use cert::{Certificate, Finder, OwnedCertificate, OwnedRecord, Record, decide};
use far::FarFinder;
use find_automata::{AutomataSearch, STAGES, Stage};
use find_counted::CountedFinder;
use find_rules::RuleFinder;
use find_words::WordFinder;
use kind_evidence::{Evidence, NoMemory, side_text};
use loops::{CycleFinder, TranslatedFinder};
use machine_text::Table;
use ngram_cps::NgramFinder;
use run::HaltFinder;
use std::alloc::Global;
use text::Parts;

// A finder of one kind.
#[derive(Drop)]
pub enum Seeker {
    Halts(HaltFinder),
    Cycle(CycleFinder),
    Translated(TranslatedFinder),
    Backward(BackwardFinder),
    Ngram(NgramFinder),
    Far(FarFinder),
    Listed(WordFinder),
    Counted(CountedFinder),
    Rules(RuleFinder),
}

impl Seeker {
    // The finder of the kind with this letter, with its limit.
    fn new(alloc: Global, kind: u8, limit: u64) -> Option<Seeker> {
        match kind {
            b'H' => Some(Seeker::Halts(HaltFinder::new(alloc, limit))),
            b'C' => Some(Seeker::Cycle(CycleFinder::new(alloc, limit))),
            b'T' => Some(Seeker::Translated(TranslatedFinder::new(alloc, limit))),
            b'B' => Some(Seeker::Backward(BackwardFinder::new(alloc, limit))),
            b'N' => Some(Seeker::Ngram(NgramFinder::new(alloc, limit))),
            b'F' => Some(Seeker::Far(FarFinder::new(alloc, limit))),
            b'A' => Some(Seeker::Listed(WordFinder::new(alloc, limit))),
            b'W' => Some(Seeker::Counted(CountedFinder::new(alloc, limit))),
            b'R' => Some(Seeker::Rules(RuleFinder::new(alloc, limit))),
            _ => None,
        }
    }
}

impl Finder for Seeker {
    fn find(&mut self, t: &Table, budget: u64) -> Result<Option<OwnedCertificate>, NoMemory> {
        match self {
            Seeker::Halts(finder) => finder.find(t, budget),
            Seeker::Cycle(finder) => finder.find(t, budget),
            Seeker::Translated(finder) => finder.find(t, budget),
            Seeker::Backward(finder) => finder.find(t, budget),
            Seeker::Ngram(finder) => finder.find(t, budget),
            Seeker::Far(finder) => finder.find(t, budget),
            Seeker::Listed(finder) => finder.find(t, budget),
            Seeker::Counted(finder) => finder.find(t, budget),
            Seeker::Rules(finder) => finder.find(t, budget),
        }
    }
}

/// The finder that is asked, with the letter of its kind and its limit.
#[derive(Drop)]
pub struct Finding {
    kind: u8,
    limit: u64,
    // the finder; none before the first
    seekers: Vec<Seeker>,
}

impl Finding {
    /// No finder yet.
    pub fn new(alloc: Global) -> Finding {
        Finding {
            kind: 0,
            limit: 0,
            seekers: Vec::new(alloc),
        }
    }

    /// `finder KIND LIMIT`: a finder that is asked from here on, for many tables.
    pub fn begin(&mut self, alloc: Global, rest: &str, said: &mut Said) -> Result<(), NoMemory> {
        let (kind, limit) = parted(rest);
        let ([kind], Some(limit)) = (kind.as_bytes(), number_of(limit)) else {
            return unread(said);
        };
        let Some(seeker) = Seeker::new(alloc, *kind, limit) else {
            return unread(said);
        };
        self.seekers.clear();
        self.seekers.push(seeker)?;
        self.kind = *kind;
        self.limit = limit;
        said.text("begun")
    }

    /// `find BUDGET TABLE`: the record of what the finder gives, `U` where nothing stands; a new finder must give the same.
    /// By `seek` instead, of what kind and how large it is.
    pub fn find(
        &mut self,
        alloc: Global,
        rest: &str,
        is_short: bool,
        said: &mut Said,
    ) -> Result<(), NoMemory> {
        let (budget, text) = parted(rest);
        let anew = Seeker::new(alloc, self.kind, self.limit);
        let (Some(budget), Some(table), Some(mut anew)) = (number_of(budget), table_of(text), anew)
        else {
            return unread(said);
        };
        let afresh = match anew.find(&table, budget)? {
            Some(certificate) => certificate,
            None => OwnedCertificate::Undecided,
        };
        let record = decide(alloc, &mut self.seekers, &table, budget)?;
        if afresh.lent() != record.certificate.lent() {
            return said.text("another certificate than a new finder's");
        }
        if is_short {
            return say_short(alloc, &record, said);
        }
        say_record(alloc, &record, said)
    }
}

fn say_record(alloc: Global, record: &OwnedRecord, said: &mut Said) -> Result<(), NoMemory> {
    // The parts by their names: the borrow checker's proof has to know of what the record is made.
    let lent = Record {
        table: record.table,
        certificate: record.certificate.lent(),
    };
    let mut out = Vec::new(alloc);
    lent.write_text(&mut out)?;
    said.bytes(&out)
}

// Says of what kind a record is and how large: all that is known beforehand of what many a finder gives.
fn say_short(alloc: Global, record: &OwnedRecord, said: &mut Said) -> Result<(), NoMemory> {
    match record.certificate.lent() {
        Certificate::Halts(claim) => {
            said.text("H")?;
            said.number(claim.steps)
        }
        Certificate::Cycle(_) => said.text("C"),
        Certificate::Translated(claim) => {
            said.text("T")?;
            said.bytes(side_text(claim.side))
        }
        Certificate::Backward(claim) => {
            said.text("B")?;
            said.number(claim.depth)
        }
        Certificate::Ngram(lists) => {
            said.text("N")?;
            said.number(lists.width() as u64)?;
            said.number(lists.left().len() as u64)?;
            said.number(lists.right().len() as u64)?;
            said.number(lists.local().len() as u64)
        }
        Certificate::Far(automata) => {
            said.text("F")?;
            said.number(u64::from(automata.size()))
        }
        Certificate::Listed(automata) => {
            said.text("A")?;
            said.number(u64::from(automata.size()))
        }
        Certificate::Counted(claim) => {
            let mut fields = Vec::new(alloc);
            claim.append_fields(&mut fields)?;
            say_counts(&fields, said)
        }
        Certificate::Rules(_) => said.text("R"),
        Certificate::Named(_) => said.text("P"),
        Certificate::Undecided => said.text("U"),
    }
}

// Says how many counts the two automata of counted ones have, by their fields.
fn say_counts(fields: &[u8], said: &mut Said) -> Result<(), NoMemory> {
    let mut parts = Parts::of(b' ', fields.strip_prefix(b" ").unwrap_or(&[]));
    said.text("W")?;
    for _ in 0..2 {
        said.bytes(parts.next().unwrap_or(&[]))?;
    }
    Ok(())
}

/// `automaton MOST TABLE`: the size of the first automaton that is found, of at most so many states; by `stage` instead of one
/// stage with so many named states, which tries all, of at most 16.
pub fn say_automaton(
    alloc: Global,
    rest: &str,
    is_staged: bool,
    said: &mut Said,
) -> Result<(), NoMemory> {
    let (number, text) = parted(rest);
    let (Some(number @ 0..=255), Some(table)) = (number_of(number), table_of(text)) else {
        return unread(said);
    };
    let mut search = AutomataSearch::new(alloc)?;
    let found = if is_staged {
        let stage = Stage {
            named: number as u8,
            tries: u64::MAX,
        };
        search.find_in_stage(&table, stage, 16)
    } else {
        search.find(&table, number as u8, 1_000)
    };
    match found {
        Some(automaton) => said.number(u64::from(automaton.size)),
        None => said.text("none"),
    }
}

/// `scaled BUDGET`: how often the first stage tries with a budget.
pub fn say_scaled(rest: &str, said: &mut Said) -> Result<(), NoMemory> {
    match number_of(rest) {
        Some(budget) => said.number(STAGES[0].scaled(budget).tries),
        None => unread(said),
    }
}

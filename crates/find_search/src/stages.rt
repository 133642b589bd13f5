// The stages of a hard search: each is asked of what the ones before it leave.
ghost use Rattle.std.specs.Prelude.{IfOk, IfSome};
ghost use Rattle.cert.specs.Terms.{IsShownRecord};

use crate::loop_finder::LoopFinder;
use backward::BackwardFinder;
use cert::{Decided, Finder, OwnedCertificate};
use far::{FarFinder, OwnedFar};
use find_automata::Stage as Automata;
use find_counted::CountedFinder;
use find_rules::{NestedFinder, RuleFinder};
use find_words::{SMALL_ROOM, WORD_STAGES, WordFinder, WordStage, Words};
use kind_evidence::NoMemory;
use kind_named::{Named, NamedFinder};
use kind_rules::OwnedRules;
use law_machines::ProvedMachine;
use loops::{CycleFinder, MAX_TIME, TranslatedFinder};
use machine_text::Table;
use run::{HaltFinder, MAX_HALT_STEPS};
use std::alloc::Global;

// The text of Skelet 1's table.
const SKELET_1: &[u8] = b"1RB1RD_1LC0RC_1RA1LD_0RE0LB_---1RC";

// The tables that have a proof of their own. A hard search asks of each table whether it is one of them, and hardly one is:
// tables are compared in a tenth of the time that their texts take.
#[derive(Drop)]
pub(crate) struct NamedTables {
    tables: Vec<Table>,
}

impl NamedTables {
    // All of them.
    pub fn new(alloc: Global) -> Result<NamedTables, NoMemory> {
        let mut tables = Vec::new(alloc);
        for machine in ProvedMachine::ALL {
            if let Ok(table) = Table::parse(machine.text()) {
                tables.push(table)?;
            }
        }
        if let Ok(table) = Table::parse(SKELET_1) {
            tables.push(table)?;
        }
        Ok(NamedTables { tables })
    }

    // The claim, if a table is one of them.
    pub fn claim(&self, t: &Table) -> Option<Named> {
        if self.tables.contains(t) {
            NamedFinder.search(t)
        } else {
            None
        }
    }
}

// What a stage looks for.
#[derive(Clone, Copy)]
pub(crate) enum Stage {
    // A table with a proof of its own.
    Names,
    // Halting, a cycle or a translated cycle in one run of so many steps, which looks for what repeats from time
    // `first` on.
    Loops { first: u64, steps: u64 },
    // Backward reasoning among so many paths of a depth.
    Backward { paths: u64 },
    // Automata whose first one is made from words.
    Words(WordStage),
    // Automata by the stages of the words that are known, from the third on: the first two stand further ahead.
    FurtherWords,
    // Automata of few states, with the tries of a budget of 1,000.
    Automata(Automata),
    // Halting within the steps that the search asks for.
    Halting,
    // A cycle, and a translated cycle, as late as a claim may say.
    Cycles,
    TranslatedCycles,
    // Counted automata of at most so many counts.
    Counted,
    // Rules with induction, in so many tries.
    Rules { tries: u64 },
    // Rules with induction that use one another, in a run of so many places on blocks of so many cells at least.
    NestedRules { cells: u32, places: u64 },
    // Such a run by rules of counters, which are proved together first.
    Counters { cells: u32, places: u64 },
}

// Backward reasoning goes so far.
pub(crate) const DEPTH: u64 = 20;

// Automata of few states have as many at most.
pub(crate) const LARGEST: u64 = 16;

// Counted automata have so many counts together at most.
pub(crate) const COUNTS: u64 = 12;

// Words with one period that is kept once or more, and so many symbols at most.
macro_rules! words {
    ($period:literal, $times:literal, $length:literal) => {
        Stage::Words(WordStage {
            words: Words {
                least: $period,
                greatest: $period,
                times: $times,
                length: $length,
            },
            room: SMALL_ROOM,
        })
    };
}

macro_rules! automata {
    ($named:literal, $tries:literal) => {
        Stage::Automata(Automata {
            named: $named,
            tries: $tries,
        })
    };
}

// So many stages are the first ones: they settle nearly all tables, each in less time than a look-up among many records
// of such tables would save.
pub(crate) const FIRST_STAGES: usize = 8;

// The stages, in their order.
pub(crate) const STAGES: [Stage; 23] = [
    Stage::Names,
    Stage::Loops {
        first: 50,
        steps: 200,
    },
    Stage::Backward { paths: 60 },
    Stage::Loops {
        first: 800,
        steps: 800,
    },
    words!(2, 1, 4),
    words!(2, 2, 7),
    words!(4, 2, 14),
    words!(6, 1, 13),
    Stage::Loops {
        first: 20_000,
        steps: 20_000,
    },
    Stage::Rules { tries: 4 },
    Stage::FurtherWords,
    automata!(12, 2_000),
    automata!(8, 2_000),
    automata!(10, 2_000),
    automata!(15, 4_000),
    Stage::Rules { tries: 7 },
    Stage::NestedRules {
        cells: 4,
        places: 4_000,
    },
    Stage::Halting,
    Stage::Cycles,
    Stage::TranslatedCycles,
    Stage::Counted,
    Stage::NestedRules {
        cells: 8,
        places: 4_000,
    },
    Stage::Counters {
        cells: 8,
        places: 500,
    },
];

/// What the stages ask. One of each kind serves all of its stages.
#[derive(Drop)]
pub struct HardFinder {
    alloc: Global,
    named: NamedTables,
    loops: LoopFinder,
    backward: BackwardFinder,
    words: WordFinder,
    automata: FarFinder,
    halting: HaltFinder,
    cycle: CycleFinder,
    translated: TranslatedFinder,
    counted: CountedFinder,
    rules: RuleFinder,
    nested: NestedFinder,
    // whether what was found last was found behind the first stages
    was_late: bool,
}

impl HardFinder {
    /// One whose stage of halting runs a table for `long_run` steps at most.
    pub fn new(alloc: Global, long_run: u64) -> Result<HardFinder, NoMemory> {
        Ok(HardFinder {
            alloc,
            named: NamedTables::new(alloc)?,
            loops: LoopFinder::new(alloc),
            backward: BackwardFinder::new(alloc, DEPTH),
            // The stages name their words themselves.
            words: WordFinder::new(alloc, 0),
            automata: FarFinder::new(alloc, LARGEST),
            halting: HaltFinder::new(alloc, long_run),
            cycle: CycleFinder::new(alloc, MAX_TIME),
            translated: TranslatedFinder::new(alloc, MAX_TIME),
            counted: CountedFinder::new(alloc, COUNTS),
            // The stages say how many tries it has.
            rules: RuleFinder::new(alloc, 0),
            nested: NestedFinder::new(alloc),
            was_late: false,
        })
    }

    // Whether what it found last was found behind the first stages.
    pub(crate) fn was_late(&self) -> bool {
        self.was_late
    }

    // What a stage finds, judged: loops and automata from words are as they are found.
    fn ask(&mut self, stage: Stage, t: &Table, budget: u64) -> Result<Option<Decided>, NoMemory>
        ensures { IfOk result (λ o. IfSome o (IsShownRecord t.now)) }
    {
        let found = match stage {
            Stage::Names => self.named.claim(t).map(OwnedCertificate::Named),
            Stage::Loops { first, steps } => return self.loops.search(t, first, steps),
            Stage::Backward { paths } => self.ask_backwards(t, paths)?,
            Stage::Words(stage) => return self.ask_for_words(t, &[stage]),
            Stage::FurtherWords => return self.ask_for_words(t, &WORD_STAGES[2..]),
            Stage::Automata(stage) => self.ask_for_automata(t, stage, budget)?,
            Stage::Halting => self.halting.find(t, MAX_HALT_STEPS)?,
            Stage::Cycles => self.cycle.find(t, MAX_TIME)?,
            Stage::TranslatedCycles => self.translated.find(t, MAX_TIME)?,
            Stage::Counted => self.counted.find(t, budget)?,
            Stage::Rules { tries } => boxed_rules(self.alloc, self.rules.search_by(t, tries)?)?,
            Stage::NestedRules { cells, places } => {
                boxed_rules(self.alloc, self.nested.search(t, cells, places)?)?
            }
            Stage::Counters { cells, places } => {
                let found = self.nested.search_counters(t, cells, places)?;
                boxed_rules(self.alloc, found)?
            }
        };
        match found {
            Some(certificate) => Decided::by(self.alloc, t, certificate),
            None => Ok(None),
        }
    }

    // What backward reasoning shows.
    fn ask_backwards(
        &mut self,
        t: &Table,
        paths: u64,
    ) -> Result<Option<OwnedCertificate>, NoMemory> {
        let found = self.backward.search_narrow(t, paths)?;
        Ok(found.map(OwnedCertificate::Backward))
    }

    // What automata from words show.
    fn ask_for_words(
        &mut self,
        t: &Table,
        stages: &[WordStage],
    ) -> Result<Option<Decided>, NoMemory>
        ensures { IfOk result (λ o. IfSome o (IsShownRecord t.now)) }
    {
        match self.words.search_by(t, stages)? {
            Some(found) => Ok(Some(found.into_decided(self.alloc, t)?)),
            None => Ok(None),
        }
    }

    // What automata of few states show.
    fn ask_for_automata(
        &mut self,
        t: &Table,
        stage: Automata,
        budget: u64,
    ) -> Result<Option<OwnedCertificate>, NoMemory> {
        let found = self.automata.search_in_stage(t, stage.scaled(budget))?;
        boxed_automata(self.alloc, found)
    }
}

impl Finder for HardFinder {
    fn find(&mut self, t: &Table, budget: u64) -> Result<Option<OwnedCertificate>, NoMemory> {
        let found = self.find_shown(self.alloc, t, budget)?;
        Ok(found.map(|decided| decided.record.certificate))
    }

    fn find_shown(
        &mut self,
        _alloc: Global,
        t: &Table,
        budget: u64,
    ) -> Result<Option<Decided>, NoMemory> {
        for (place, stage) in STAGES.iter().enumerate() {
            if let Some(decided) = self.ask(*stage, t, budget)? {
                self.was_late = place >= FIRST_STAGES;
                return Ok(Some(decided));
            }
        }
        Ok(None)
    }
}

fn boxed_automata(
    alloc: Global,
    found: Option<OwnedFar>,
) -> Result<Option<OwnedCertificate>, NoMemory> {
    match found {
        Some(automata) => Ok(Some(OwnedCertificate::Far(Box::new(alloc, automata)?))),
        None => Ok(None),
    }
}

fn boxed_rules(
    alloc: Global,
    found: Option<OwnedRules>,
) -> Result<Option<OwnedCertificate>, NoMemory> {
    match found {
        Some(rules) => Ok(Some(OwnedCertificate::Rules(Box::new(alloc, rules)?))),
        None => Ok(None),
    }
}

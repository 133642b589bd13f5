// The finder of rules with rules in them, for a run on blocks that learns as it goes.
use crate::chain::Chain;
use crate::joint_rules::JointRules;
use crate::limits::{
    GUESSES, MAX_BLOCKS, MAX_GAP, MAX_GUESSED_FAMILIES, MAX_GUESSED_RULES, WORK_A_PLACE,
};
use crate::nested_family::{Growth, NestedFamily};
use crate::records::write_fields;
use crate::runs::{BlockRun, Places, Stop};
use crate::script::Script;
use kind_evidence::NoMemory;
use kind_rules::{OwnedRules, Rules};
use machine_text::{Dir, State, Table};
use std::alloc::Global;
use text::Parts;

/// Searches rules with induction whose proofs use one another: it runs a table on blocks, and guesses rules and
/// families of what comes again. It keeps the memory of its tables from call to call.
#[derive(Drop)]
pub struct NestedFinder {
    alloc: Global,
    run: BlockRun,
    main: Script,
    places: Places,
    alike: Vec<usize>,
    chain: Chain,
    joint: JointRules,
    family: NestedFamily,
    // What was guessed of rules, and how many; the same of families, each with its shape.
    rules_guessed: Vec<u64>,
    families_guessed: Vec<(u64, u64)>,
    fields: Vec<u8>,
}

impl NestedFinder {
    /// A finder that takes its memory from here, and none yet.
    pub fn new(alloc: Global) -> NestedFinder {
        NestedFinder {
            alloc,
            run: BlockRun::new(alloc),
            main: Script::new(alloc),
            places: Places::new(alloc),
            alike: Vec::new(alloc),
            chain: Chain::new(alloc),
            joint: JointRules::new(alloc),
            family: NestedFamily::new(alloc),
            rules_guessed: Vec::new(alloc),
            families_guessed: Vec::new(alloc),
            fields: Vec::new(alloc),
        }
    }

    /// Rules for a table, within so many places of a run on blocks: where the head meets a block, or the end of the
    /// tape. Copies of a word of so many cells at least become a block. None where it finds none. What it gives is
    /// still to be judged: no contract says what is found or how long it takes.
    pub fn search(
        &mut self,
        t: &Table,
        cells: u32,
        places: u64,
    ) -> Result<Option<OwnedRules>, NoMemory> {
        self.run.restart(0, cells);
        self.go(t, places)
    }

    /// Searches likewise by rules of counters, which are proved together first; none where there are none of these.
    pub fn search_counters(
        &mut self,
        t: &Table,
        cells: u32,
        places: u64,
    ) -> Result<Option<OwnedRules>, NoMemory> {
        self.run.restart(0, cells);
        if !self.joint.learn(t, &mut self.run)? {
            return Ok(None);
        }
        self.go(t, places)
    }

    // Goes from place to place, by what is known, until there is a family.
    fn go(&mut self, t: &Table, places: u64) -> Result<Option<OwnedRules>, NoMemory> {
        self.run.allow(places.saturating_mul(WORK_A_PLACE));
        self.main.restart(State(0), Dir::R);
        self.places.clear();
        self.rules_guessed.clear();
        self.families_guessed.clear();
        for _ in 0..places {
            match self.goes_on(t) {
                Ok(false) => {}
                Ok(true) => return self.written(t),
                Err(Stop::NoMemory) => return Err(NoMemory),
                Err(_) => return Ok(None),
            }
        }
        Ok(None)
    }

    // Goes on to the next place; whether a family is found there.
    fn goes_on(&mut self, t: &Table) -> Result<bool, Stop> {
        self.main.tape.left.watch();
        self.main.tape.right.watch();
        self.run.advance(t, &mut self.main)?;
        self.main.flush()?;
        self.main.text.clear();
        if self.main.tape.len() > MAX_BLOCKS {
            return Err(Stop::Fails);
        }
        self.places.add(&self.main)?;
        let last = self.places.last();
        if self.places.times(last).is_empty() {
            return Ok(false);
        }
        let most = MAX_GAP.saturating_mul(2);
        self.places.list_alike(last, &mut self.alike, most)?;
        self.guess_rules(t)?;
        let tape = &self.main.tape;
        if tape.left.keeps_end && tape.right.keeps_end {
            return Ok(false);
        }
        Ok(self.guesses_families(t)?)
    }

    // The last place and two before it of its shape, so far apart.
    fn three(&self, gap: usize) -> Option<[usize; 3]> {
        let second = *self.alike.get(gap.checked_sub(1)?)?;
        let first = *self.alike.get(gap.saturating_mul(2).checked_sub(1)?)?;
        Some([first, second, self.places.last()])
    }

    // Guesses rules of what is done twice, until one has a proof.
    fn guess_rules(&mut self, t: &Table) -> Result<(), NoMemory> {
        for gap in 1..=MAX_GAP {
            let Some(numbers) = self.three(gap) else {
                return Ok(());
            };
            if self.guesses_rule(t, numbers)? {
                return Ok(());
            }
        }
        Ok(())
    }

    fn guesses_rule(&mut self, t: &Table, numbers: [usize; 3]) -> Result<bool, NoMemory> {
        let [_, second, last] = numbers;
        if !self.chain.read(&self.places, &self.main.tape, numbers)? {
            return Ok(false);
        }
        let known = self.chain.mark(true);
        let guess = self.chain.mark(false);
        let guessed = &mut self.rules_guessed;
        if guessed.len() >= MAX_GUESSED_RULES
            || guessed.iter().any(|mark| *mark == known || *mark == guess)
        {
            return Ok(false);
        }
        let most = last
            .saturating_sub(second)
            .saturating_mul(3)
            .saturating_add(40);
        let is_proved = self.chain.prove(t, &mut self.run, most as u64)?;
        self.rules_guessed
            .push(if is_proved { known } else { guess })?;
        Ok(is_proved)
    }

    // Guesses families of three places, until one has a loop and a beginning; whether one has.
    fn guesses_families(&mut self, t: &Table) -> Result<bool, NoMemory> {
        for gap in 1..=MAX_GAP {
            let Some(numbers) = self.three(gap) else {
                return Ok(false);
            };
            for growth in [Growth::BySteps, Growth::InDirection, Growth::Apart] {
                if self.guesses_family(t, numbers, growth)? {
                    return Ok(true);
                }
            }
        }
        Ok(false)
    }

    fn guesses_family(
        &mut self,
        t: &Table,
        numbers: [usize; 3],
        growth: Growth,
    ) -> Result<bool, NoMemory> {
        let [_, second, last] = numbers;
        if !self.family.read(&self.places, numbers, growth)? {
            return Ok(false);
        }
        let shape = self.places.shape(last);
        let mark = self.family.mark(shape);
        if !self.is_new_family(shape, mark) {
            return Ok(false);
        }
        self.families_guessed.push((shape, mark))?;
        let most = last
            .saturating_sub(second)
            .saturating_mul(3)
            .saturating_add(150);
        let tape = &self.main.tape;
        if !self.family.prove(t, &mut self.run, tape, most as u64)? {
            return Ok(false);
        }
        let most = last.saturating_add(2) as u64;
        self.family.has_beginning(t, &mut self.run, most)
    }

    // Whether a family wasn't guessed, and few others of its shape.
    fn is_new_family(&self, shape: u64, mark: u64) -> bool {
        let guessed = &self.families_guessed;
        let of_shape = guessed.iter().filter(|guess| guess.0 == shape).count();
        guessed.len() < MAX_GUESSED_FAMILIES
            && of_shape < GUESSES
            && !guessed.iter().any(|guess| guess.1 == mark)
    }

    // The rules of the family that was found.
    fn written(&mut self, t: &Table) -> Result<Option<OwnedRules>, NoMemory> {
        write_fields(self.alloc, &self.run.rules, &self.family, &mut self.fields)?;
        match Rules::read(t.states(), Parts::of(b' ', &self.fields)) {
            Ok(rules) => Ok(Some(OwnedRules::of(self.alloc, &rules)?)),
            Err(_) => Ok(None),
        }
    }
}

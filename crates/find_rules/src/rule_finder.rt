// The finder: families of a run, and rules for them.
use crate::family::{MEMBERS, Shapes, earlier_members, may_be_family, member};
use crate::limits::{
    FIRST_STEPS, LONG_WORDS, MAX_FAMILIES, MAX_STARTS, MAX_STRIDE, MAX_TRIES, SHORT_WORDS,
};
use crate::proving::{Prover, next_scale};
use crate::recorded_run::{RecordedRun, TapeRecord};
use crate::runs::Stop;
use crate::tapes::Half;
use cert::{Finder, OwnedCertificate};
use kind_evidence::NoMemory;
use kind_rules::{OwnedRules, Rules};
use machine_text::{Dir, State, Table};
use std::alloc::Global;
use text::Parts;

// The multiples of a stride that are looked at.
const MULTIPLES: [usize; 5] = [1, 2, 3, 4, 6];

// Records that may be a family's: so far apart, of a state and a side.
#[derive(Clone, Copy, Debug, PartialEq, Eq, PartialOrd, Ord)]
struct Track {
    stride: usize,
    side: Dir,
    state: State,
}

/// Searches rules with induction. It keeps the memory of its tables from call to call.
#[derive(Drop)]
pub struct RuleFinder {
    alloc: Global,
    tries: u64,
    run: RecordedRun,
    tracks: Vec<Track>,
    list: Vec<TapeRecord>,
    shapes: Shapes,
    form: Half,
    prover: Prover,
}

impl RuleFinder {
    /// A finder with so many tries: in each a run is looked at, after 500 steps in the first one, after four times as many
    /// in each that follows, 2,048,000 in the seventh, which is the last; and 0 asks for nothing. It takes its memory from
    /// here, and none yet.
    pub fn new(alloc: Global, tries: u64) -> RuleFinder {
        RuleFinder {
            alloc,
            tries,
            run: RecordedRun::new(alloc),
            tracks: Vec::new(alloc),
            list: Vec::new(alloc),
            shapes: Shapes::new(alloc),
            form: Half::new(alloc),
            prover: Prover::new(alloc),
        }
    }

    /// Rules for a table, within the finder's tries; none where it finds none. What it gives is still to be judged: no
    /// contract says what is found or how long it takes.
    pub fn search(&mut self, t: &Table) -> Result<Option<OwnedRules>, NoMemory> {
        self.search_by(t, self.tries)
    }

    /// Rules for a table as `search` gives them, within so many tries, whichever are the finder's.
    pub fn search_by(&mut self, t: &Table, tries: u64) -> Result<Option<OwnedRules>, NoMemory> {
        self.run.restart();
        let mut time = FIRST_STEPS;
        for _ in 0..tries.min(MAX_TRIES) {
            if !self.run.run_to(t, time)? {
                return Ok(None);
            }
            if self.finds(t)? {
                return self.written(t);
            }
            time = time.saturating_mul(4);
        }
        Ok(None)
    }

    // The rules that were written.
    fn written(&self, t: &Table) -> Result<Option<OwnedRules>, NoMemory> {
        match Rules::read(t.states(), Parts::of(b' ', &self.prover.fields)) {
            Ok(rules) => Ok(Some(OwnedRules::of(self.alloc, &rules)?)),
            Err(_) => Ok(None),
        }
    }

    // Whether rules are found for a family of the run so far; then they are written.
    fn finds(&mut self, t: &Table) -> Result<bool, NoMemory> {
        self.list_tracks(t)?;
        for k in 0..MAX_FAMILIES {
            let Some(track) = self.tracks.get(k).copied() else {
                return Ok(false);
            };
            if self.finds_by(t, track, SHORT_WORDS)? || self.finds_by(t, track, LONG_WORDS)? {
                return Ok(true);
            }
        }
        Ok(false)
    }

    // Lists the tracks of the run so far, the least strides first.
    fn list_tracks(&mut self, t: &Table) -> Result<(), NoMemory> {
        self.tracks.clear();
        for number in 0..t.states() {
            for side in [Dir::L, Dir::R] {
                self.run.list(State(number), side, &mut self.list)?;
                self.add_tracks(State(number), side)?;
            }
        }
        self.tracks.sort_unstable();
        Ok(())
    }

    // Adds the tracks of the records in the list: that of the least stride, and multiples of it.
    fn add_tracks(&mut self, state: State, side: Dir) -> Result<(), NoMemory> {
        for least in 1..=MAX_STRIDE {
            if !may_be_family(&self.list, least) {
                continue;
            }
            for multiple in MULTIPLES {
                let stride = least.saturating_mul(multiple);
                if may_be_family(&self.list, stride) {
                    self.tracks.push(Track {
                        stride,
                        side,
                        state,
                    })?;
                }
            }
            return Ok(());
        }
        Ok(())
    }

    // Whether rules are found for the family of a track, with words of up to so many symbols.
    fn finds_by(&mut self, t: &Table, track: Track, longest: usize) -> Result<bool, NoMemory> {
        let stride = track.stride;
        self.run.list(track.state, track.side, &mut self.list)?;
        if !self.shapes.read(&self.run, &self.list, stride, longest)? {
            return Ok(false);
        }
        let earlier = earlier_members(&self.list, stride, self.shapes.room_before());
        self.shapes.put_earlier(earlier as u64, &mut self.form)?;
        let mut back = earlier.saturating_add(MEMBERS - 1);
        let mut scale = 1;
        for _ in 0..MAX_STARTS {
            let Some(record) = member(&self.list, stride, back) else {
                return Ok(false);
            };
            match self.prove(t, scale, &record) {
                Ok(()) => return Ok(true),
                Err(Stop::NoMemory) => return Err(NoMemory),
                Err(Stop::Fails) => return Ok(false),
                Err(Stop::Multiple(count)) => match next_scale(scale, count) {
                    Some(more) => scale = more,
                    None => return Ok(false),
                },
                Err(Stop::More) => {
                    if back == 0 {
                        return Ok(false);
                    }
                    back = back.saturating_sub(1);
                    self.form.go_on();
                }
            }
        }
        Ok(false)
    }

    // Writes rules for the family of the form, from the member at a record on.
    fn prove(&mut self, t: &Table, scale: u64, record: &TapeRecord) -> Result<(), Stop> {
        let behind = self.run.behind(record);
        let effort = self.run.time();
        self.prover
            .prove(t, &self.form, scale, record, behind, effort)
    }
}

impl Finder for RuleFinder {
    fn find(&mut self, t: &Table, _budget: u64) -> Result<Option<OwnedCertificate>, NoMemory> {
        match self.search(t)? {
            Some(rules) => Ok(Some(OwnedCertificate::Rules(Box::new(self.alloc, rules)?))),
            None => Ok(None),
        }
    }
}

// Records that are judged, and of Skelet 1 whether its run is seen to repeat.
use crate::words::{Said, number_of, parted, table_of, unread};
use cert::{Record, judge};
use kind_evidence::{NoMemory, Verdict};
use kind_named::{GivenUp, never_halts};
use std::alloc::Global;

/// `judge RECORD`: the verdict, or the number of the refusal.
pub fn say_judged(alloc: Global, text: &str, said: &mut Said) -> Result<(), NoMemory> {
    let record = match Record::parse(text.as_bytes()) {
        Ok(record) => record,
        Err(fault) => return said.number(u64::from(fault.number())),
    };
    match judge(alloc, &record) {
        Ok(verdict) => say_verdict(verdict, said),
        Err(refused) => said.refusal(refused.number()),
    }
}

/// Says a verdict; where nothing is claimed, `undecided`.
pub fn say_verdict(verdict: Option<Verdict>, said: &mut Said) -> Result<(), NoMemory> {
    match verdict {
        Some(Verdict::Halts { steps, ones }) => {
            said.text("halts")?;
            said.number(steps)?;
            said.number(ones)
        }
        Some(Verdict::Never) => said.text("never"),
        None => said.text("undecided"),
    }
}

/// `repeats TURNS TABLE`: whether the table is Skelet 1's, and its run is seen to repeat after so many turns.
pub fn say_repeats(alloc: Global, rest: &str, said: &mut Said) -> Result<(), NoMemory> {
    let (turns, text) = parted(rest);
    let (Some(turns), Some(table)) = (number_of(turns), table_of(text)) else {
        return unread(said);
    };
    match never_halts(alloc, &table, turns) {
        Ok(true) => said.text("never"),
        Ok(false) => said.text("not seen"),
        Err(GivenUp::NoMemory) => Err(NoMemory),
        Err(_) => said.text("too far"),
    }
}

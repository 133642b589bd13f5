// How late a run halts, and the claim that it halts as the fields of a record.
ghost use Rattle.std.specs.Prelude.{◌≡◌, ◌≤◌, ◌↔◌, IsTrue, ◌++◌, length, take, OnOk, Ok};
ghost use Rattle.run.specs.Limits.{late_step_limit};
ghost use Rattle.run.specs.Halts.{IsInReach, IsWithinReach, reach_letter, AreShort, halts_by, halts_fields};
ghost use Rattle.text.specs.Terms.{spaced, AreFields};
ghost use Rattle.run.specs.declared.halting.HaltsIn.{HaltsIn};

use crate::halting::HaltsIn;
use crate::limits::{MAX_HALT_STEPS, MAX_LATE_STEPS};
use kind_evidence::NoMemory;
use text::{FieldFault, Parts, append_number_field, end_of, next_field, number_in};

/// How late a run halts.
#[derive(Clone, Copy, Debug, PartialEq, Eq)]
pub enum Reach {
    /// `H`: in at most `MAX_HALT_STEPS` steps.
    Early,
    /// `L`: in more than those, and in at most `MAX_LATE_STEPS`.
    Late,
}

impl Reach {
    /// The reach of a number of steps.
    pub fn of(steps: u64) -> Reach
        requires { steps ≤ late_step_limit }
        ensures { IsWithinReach result steps }
    {
        if steps <= MAX_HALT_STEPS {
            Reach::Early
        } else {
            Reach::Late
        }
    }

    /// The letter of its records.
    pub fn letter(self) -> &'static [u8]
        ensures { result.now ≡ reach_letter self }
    {
        match self {
            Reach::Early => b"H",
            Reach::Late => b"L",
        }
    }

    // Whether a record may say so many steps.
    pub(crate) fn has(self, steps: u64) -> bool
        ensures { IsTrue result ↔ IsInReach self steps }
    {
        match self {
            Reach::Early => true,
            Reach::Late => steps > MAX_HALT_STEPS,
        }
    }

    // Whether so many steps are carried out.
    pub(crate) fn allows(self, steps: u64) -> bool
        ensures { IsTrue result ↔ IsWithinReach self steps }
    {
        match self {
            Reach::Early => steps <= MAX_HALT_STEPS,
            Reach::Late => steps > MAX_HALT_STEPS && steps <= MAX_LATE_STEPS,
        }
    }
}

impl HaltsIn {
    /// The claim that the fields of a record make: `k`, or `k s` with the score.
    pub fn read(reach: Reach, mut fields: Parts<'_>) -> Result<HaltsIn, FieldFault>
        ensures { result ≡ halts_by reach fields.entry }
    {
        let steps = next_field(&mut fields)?;
        let Some(ones) = fields.next() else {
            return HaltsIn::within(reach, number_in(steps)?, None);
        };
        end_of(fields)?;
        HaltsIn::within(reach, number_in(steps)?, Some(number_in(ones)?))
    }

    /// Appends the fields of a record, each behind a space. Where memory is refused, a beginning of them; nothing of a claim that
    /// its letter can't say, which none is that was read, searched or made by `of`.
    pub fn append_fields(&self, out: &mut Vec<u8>) -> Result<(), NoMemory>
        ensures ok { OnOk result (out.new.items ≡ out.old.items ++ spaced (halts_fields self.now)) }
        ensures writable { OnOk result (AreShort self.now) }
        ensures kept { take (length out.old.items) out.new.items ≡ out.old.items }
    {
        if !self.reach.has(self.steps) {
            return Err(NoMemory);
        }
        append_number_field(self.steps, out)?;
        match self.ones {
            Some(ones) => append_number_field(ones, out),
            None => Ok(()),
        }
    }
}

/// The fields of a table that halts, whose numbers of steps and of ones have 64 bits, read back.
pub fn halts_reads_back()
    ensures back { (e : HaltsIn) → AreShort e → halts_by e.reach (halts_fields e) ≡ Ok e }
    ensures fields { (e : HaltsIn) → AreShort e → AreFields (halts_fields e) }
{}

// Tables with a proof of their own: the evidence, its check and its finder.
ghost use Rattle.std.specs.Prelude.{◌≡◌, ◌≢◌, ◌↔◌, Ok, Err, false, IfOk, IsTrue, bytes_eq, ◌++◌, length, take, OnOk, OnErr, is_some};
ghost use Rattle.machine_text.specs.Terms.{entry_of};
ghost use Rattle.law_turing.specs.Terms.{Never};
ghost use Rattle.kind_named.specs.Kind.{skelet1, skelet1_text, named_by, named_fields, IsNamed, named_kind};
ghost use Rattle.kind_named.specs.declared.run.GivenUp.TheVariants as fault;
ghost use Rattle.text.specs.Terms.{spaced};
ghost use Rattle.kind_evidence.specs.Terms.{IsKind};

use crate::run::{GivenUp, MainRun, TURNS};
use kind_evidence::{Evidence, NoMemory, Refused, Verdict};
use law_machines::is_proved;
use machine_text::{TEXT_BYTES, Table};
use std::alloc::Global;
use text::{FieldFault, Parts, end_of};

/// Whether a table is that of Skelet 1, and its run is seen to repeat for ever after so many turns. If so, it never
/// halts. With `TURNS` it is seen so, which was tried, not proved; that takes some 25 seconds and 80 megabytes. Any other
/// table is answered at once. Where the run can't be followed so far by the rules, nothing is seen of it. An error says
/// nothing of the table: memory was refused (`NoMemory`), a number got to 2^128 (`TooLarge`), or a loop to its limit
/// (`TooLong`).
pub fn never_halts(alloc: Global, t: &Table, turns: u64) -> Result<bool, GivenUp>
    ensures never { IfOk result (λ yes. IsTrue yes → Never (entry_of t.now)) }
    ensures other { t.now ≢ skelet1 → result ≡ Ok false }
    ensures rule { result ≡ Err fault.NoRule → ⊥ }
{
    if !is_skelet1(t) {
        return Ok(false);
    }
    match repeats_after(alloc, turns) {
        Ok(seen) => Ok(seen),
        Err(GivenUp::NoRule) => Ok(false),
        Err(fault) => Err(fault),
    }
}

/// Whether a table is that of Skelet 1.
pub fn is_skelet1(t: &Table) -> bool
    ensures { IsTrue result ↔ (t.now ≡ skelet1) }
{
    let mut buf = [0; TEXT_BYTES];
    let text = t.text(&mut buf);
    is_its_text(text)
}

// Whether a text is that of its table.
fn is_its_text(text: &[u8]) -> bool
    ensures { result ≡ bytes_eq text.now skelet1_text }
{
    text == b"1RB1RD_1LC0RC_1RA1LD_0RE0LB_---1RC".as_slice()
}

// Whether the run is seen to repeat after so many turns.
fn repeats_after(alloc: Global, turns: u64) -> Result<bool, GivenUp>
    ensures { IfOk result (λ yes. IsTrue yes → Never (entry_of skelet1)) }
{
    let mut run = MainRun::start(alloc)?;
    for _ in 0..turns {
        run = run.turn()?;
    }
    let seen = run.repeats()?;
    Ok(seen)
}

/// The claim that a table is one of those that have a proof of their own, by which it never halts.
#[derive(Clone, Copy, Debug, PartialEq, Eq)]
pub struct Named;

impl Named {
    /// The claim that no fields of a record make.
    pub fn read(fields: Parts<'_>) -> Result<Named, FieldFault>
        ensures { result ≡ named_by fields.entry }
    {
        end_of(fields)?;
        Ok(Named)
    }

    /// Appends the fields of a record: there are none.
    pub fn append_fields(&self, out: &mut Vec<u8>) -> Result<(), NoMemory>
        ensures ok { OnOk result (out.new.items ≡ out.old.items ++ spaced (named_fields self.now)) }
        ensures kept { take (length out.old.items) out.new.items ≡ out.old.items }
    {
        let _ = out;
        Ok(())
    }
}

impl Evidence for Named {
    ghost use Rattle.kind_evidence.specs.declared.verdicts.Verdict.TheVariants.{Never as NeverHalts};
    ghost use Rattle.kind_named.specs.Kind.{named_kind};

    ghost meaning = { named_kind.meaning };

    ghost shows = { λ e p. NeverHalts };

    // For Skelet 1 its run is followed, which takes half a minute. That it is seen to repeat within `TURNS` was tried, not
    // proved; where it weren't, nothing would be known of the table.
    fn check(&self, alloc: Global, t: &Table) -> Result<Verdict, Refused> {
        if is_proved(t) {
            return Ok(Verdict::Never);
        }
        if !is_skelet1(t) {
            return Err(Refused::Fails);
        }
        match never_halts(alloc, t, TURNS) {
            Ok(true) => Ok(Verdict::Never),
            Err(GivenUp::NoMemory) => Err(Refused::NoMemory),
            _ => Err(Refused::NotSeen),
        }
    }

    ghost law = { named_kind.law };
}

/// Looks tables up among those that have a proof of their own.
#[derive(Clone, Copy, Debug)]
pub struct NamedFinder;

impl NamedFinder {
    /// The claim, if the table is one of these. Nothing is run.
    pub fn search(&self, t: &Table) -> Option<Named>
        ensures { IsTrue (is_some result) ↔ IsNamed t.now }
    {
        (is_proved(t) || is_skelet1(t)).then_some(Named)
    }
}

/// Tables with a proof of their own are a kind: where a claim stands the table never halts.
pub fn named_tables_are_a_kind()
    ensures { IsKind named_kind }
{}

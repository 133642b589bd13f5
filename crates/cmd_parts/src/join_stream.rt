// `bb join -`: a trunk and its parts in one stream.
ghost use Rattle.std.specs.Prelude.{IfErr, IfOk, ◌≡◌, [], List, ℕ, None, Some, OnOk, true, false, Option, Result};
ghost use Rattle.std.specs.Io.KnownBytes.{Appends};
ghost use Rattle.cmd_ledgers.specs.Terms.{EndsLedger};
ghost use Rattle.cmd_parts.specs.Stream.{IsLoadedAs, JoinsStream};
ghost use Rattle.indexmap.specs.IndexSet.{insert_key};
ghost use Rattle.ledger.specs.Terms.{same_table};
ghost use Rattle.cmd_options.specs.Terms.{PrintsNothing, EndsTold};
ghost use Rattle.cmd_parts.specs.inside.Joining.{AddsBoard, AddsLedger, AddsPart, BeginsTrunk, Joins, SaysAdding};
ghost use Rattle.cmd_options.specs.declared.ended.Outcome.{Outcome as Outcomes};
ghost use Rattle.cmd_options.specs.declared.ended.Ended.{Ended as Ends};

use crate::answer::{numbered, root_name, says, says_left, says_missing};
use crate::ledger_loop::{LedgerTaker, take_ledgers};
use crate::{open_tables, tell_whole};
use cmd_ledgers::{ReportForm, by_load};
use cmd_options::{Ended, Outcome, told};
use indexmap::IndexSet;
use ledger::{Board, Left, peek_root};
use machine_text::Table;
use std::alloc::Global;
use std::io::{Read, Write};
use totals::{PartFault, Whole};

// The board of a ledger's text, with the root that it names, and what of it wasn't kept.
pub(crate) fn load(alloc: Global, text: &[u8]) -> Result<(Board, Left), Ended>
    ensures ok { IfOk result (λ l. IsLoadedAs text.now l.0 l.1) }
    ensures err { IfErr result (EndsLedger text.now) }
{
    match peek_root(text) {
        Ok(Some(root)) => match Board::load(alloc, root, text) {
            Ok(loaded) => Ok(loaded),
            Err(fault) => Err(by_load(fault)),
        },
        Ok(None) => Err(Ended::BadHeader),
        Err(fault) => Err(by_load(fault)),
    }
}

// The trunk that has come first, with the parts that were added to it.
#[derive(Drop)]
pub(crate) struct Joiner {
    alloc: Global,
    // none before the trunk
    pub whole: Option<Whole>,
    // the roots of the parts that were added
    pub came: IndexSet<Table>,
    // that of the next ledger, from 1 on
    number: u64,
    // whether nothing was wrong
    pub is_sound: bool,
}

impl Joiner {
    // Before the first ledger.
    pub fn new(alloc: Global) -> Joiner
        ensures whole { result.whole ≡ None }
        ensures came { result.came.keys ≡ [] }
    {
        Joiner {
            alloc,
            whole: None,
            came: IndexSet::new(alloc),
            number: 1,
            is_sound: true,
        }
    }

    // Takes the trunk.
    fn begin<E: Write>(&mut self, text: &[u8], faults: &mut E) -> Result<(), Ended>
        ensures ok { OnOk result ((said : List ℕ) × BeginsTrunk self.old text.now self.new said
            × Appends (E.contents faults.old) (E.contents faults.new) said) }
        ensures err { IfErr result (λ e. PrintsNothing e (E.contents faults.old) (E.contents faults.new)) }
    {
        let (trunk, left) = load(self.alloc, text)?;
        let whole = Whole::of(self.alloc, trunk)?;
        self.is_sound = says_left(self.alloc, b"trunk", &left, faults)?;
        self.whole = Some(whole);
        self.number = 2;
        Ok(())
    }

    // Takes a part of what has come before.
    fn add<E: Write>(&mut self, mut whole: Whole, text: &[u8], faults: &mut E) -> Result<(), Ended>
        ensures ok { OnOk result ((said : List ℕ) × AddsLedger self.old whole text.now self.new said
            × Appends (E.contents faults.old) (E.contents faults.new) said) }
        ensures err { IfErr result (λ e. PrintsNothing e (E.contents faults.old) (E.contents faults.new)) }
    {
        let (alloc, number) = (self.alloc, self.number);
        let Some(next) = number.checked_add(1) else {
            // No stream has so many ledgers.
            return Err(Ended::NoMemory);
        };
        let is_sound = add_part(alloc, number, text, &mut whole, &mut self.came, faults)?;
        self.number = next;
        self.is_sound = self.is_sound && is_sound;
        self.whole = Some(whole);
        Ok(())
    }
}

impl LedgerTaker for Joiner {
    ghost takes = { Joins };

    fn take_ledger<E: Write>(&mut self, text: &[u8], faults: &mut E) -> Result<(), Ended> {
        match self.whole.take() {
            Some(whole) => self.add(whole, text, faults),
            None => self.begin(text, faults),
        }
    }
}

// Adds the part whose text has come, and answers whether nothing was wrong.
fn add_part<E: Write>(
    alloc: Global,
    number: u64,
    text: &[u8],
    whole: &mut Whole,
    came: &mut IndexSet<Table>,
    faults: &mut E,
) -> Result<bool, Ended>
    ensures ok { IfOk result (λ sound. SaysAdding
        (AddsPart number text.now whole.old came.old.keys whole.new came.new.keys) sound
        (E.contents faults.old) (E.contents faults.new)) }
    ensures err { IfErr result (λ e. PrintsNothing e (E.contents faults.old) (E.contents faults.new)) }
{
    match load(alloc, text) {
        Ok((part, left)) => add_board(alloc, &part, &left, whole, came, faults),
        Err(Ended::BadHeader) => says(alloc, &numbered(alloc, number)?, b"refused 404", faults),
        Err(Ended::WrongRoot) => says(alloc, &numbered(alloc, number)?, b"refused 405", faults),
        // Nothing else keeps a text from being loaded.
        Err(_) => Err(Ended::NoMemory),
    }
}

// Adds the board of a part.
fn add_board<E: Write>(
    alloc: Global,
    part: &Board,
    left: &Left,
    whole: &mut Whole,
    came: &mut IndexSet<Table>,
    faults: &mut E,
) -> Result<bool, Ended>
    ensures ok { IfOk result (λ sound. SaysAdding
        (AddsBoard part.now left.now whole.old came.old.keys whole.new came.new.keys) sound
        (E.contents faults.old) (E.contents faults.new)) }
    ensures err { IfErr result (λ e. PrintsNothing e (E.contents faults.old) (E.contents faults.new)) }
{
    let name = root_name(alloc, part.root())?;
    match whole.add(part) {
        Ok(()) => {
            put_root(came, part.root())?;
            says_left(alloc, &name, left, faults)
        }
        Err(PartFault::NotOpen) => says(alloc, &name, b"not under the trunk", faults),
        Err(PartFault::AddedBefore) => says(alloc, &name, b"added before", faults),
        Err(PartFault::NoMemory) => Err(Ended::NoMemory),
    }
}

// Puts a root among those that came.
fn put_root(came: &mut IndexSet<Table>, root: &Table) -> Result<(), Ended>
    ensures { OnOk result (came.new.keys ≡ insert_key same_table came.old.keys root.now) }
{
    match came.insert(*root) {
        Ok(_) => Ok(()),
        Err(_) => Err(Ended::NoMemory),
    }
}

/// Prints the report of the trunk and of the parts that a stream has one behind the other up to its end, in a form:
/// that of one ledger that holds the records of all. The trunk comes first, its parts in any order; a line that begins
/// as a header does begins the next ledger, and one of them is in memory at a time. A part that doesn't come counts as
/// an open table. What is wrong with a ledger is said on `faults`: that a part is none of the trunk, came before or has
/// a line that isn't kept, behind its root; that it has no root, behind its number; and which parts are missing.
/// Accepted where the report says complete and nothing was wrong. What ends the command early is said on `faults` too.
pub fn cmd_join_stream<P: ReportForm, R: Read, W: Write, E: Write>(
    alloc: Global,
    form: &P,
    input: &mut R,
    answers: &mut W,
    faults: &mut E,
) -> Outcome
    ensures { (ended : Result Outcomes Ends) × (warned : Option (List ℕ))
        × JoinsStream (P.is_text form.now) (R.remaining input.old) (R.remaining input.new) (W.contents answers.old)
        (W.contents answers.new) (E.contents faults.old) warned ended
        × EndsTold ended warned (E.contents faults.new) result }
{
    told(join_stream(alloc, form, input, answers, faults), faults)
}

// What `cmd_join_stream` does, but that what ends it early isn't said.
fn join_stream<P: ReportForm, R: Read, W: Write, E: Write>(
    alloc: Global,
    form: &P,
    input: &mut R,
    answers: &mut W,
    faults: &mut E,
) -> Result<Outcome, Ended>
    ensures { JoinsStream (P.is_text form.now) (R.remaining input.old) (R.remaining input.new) (W.contents answers.old)
        (W.contents answers.new) (E.contents faults.old) (E.contents faults.new) result }
{
    let mut joiner = Joiner::new(alloc);
    take_ledgers(alloc, input, &mut joiner, faults)?;
    let Joiner {
        whole,
        came,
        is_sound,
        ..
    } = joiner;
    let Some(whole) = whole else {
        // A stream has one ledger at least.
        return Err(Ended::NoMemory);
    };
    let roots = open_tables(alloc, whole.trunk())?;
    let are_all = says_missing(alloc, &roots, &came, faults)?;
    let both = are_both(is_sound, are_all);
    tell_whole(alloc, form, &whole, both, answers)
}

// Whether nothing is wrong with the ledgers that came, and all came.
fn are_both(is_sound: bool, are_all: bool) -> bool
    ensures sound { is_sound ≡ true → result ≡ are_all }
    ensures neither { is_sound ≡ false → result ≡ false }
{
    is_sound && are_all
}

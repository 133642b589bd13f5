// From the pieces of a stream to its ledgers, and who takes them.
ghost use Rattle.std.specs.Prelude.{◌↔◌, IsTrue, ◌≡◌, ◌++◌, ◌∷◌, [], List, ℕ, Option, IfErr, OnOk};
ghost use Rattle.cmd_parts.specs.Stream.{IsHead};
ghost use Rattle.cmd_options.specs.Terms.{PrintsNothing};
ghost use Rattle.cmd_parts.specs.inside.Joining.{CutsBefore, HasTaken, HasTakenLedgers, TakesAll, TakesFirstLedgers, TakesMoreLedgers, TakesLedgers};

use cmd_options::{Ended, ended_by};
use std::alloc::Global;
use std::io::{Read, Write};
use text::cut;

// Whether a text begins as a header does, in a version.
pub(crate) fn is_head(text: &[u8]) -> bool
    ensures { IsTrue result ↔ IsHead text.now }
{
    text.starts_with(b"bb-ledger 1 ") || text.starts_with(b"bb-ledger 2 ")
}

// Takes one ledger's text after another, remembers what it has to of them, and says something to each.
pub(crate) trait LedgerTaker {
    ghost use Rattle.std.specs.Prelude.{List, ℕ, IfErr, OnOk};
    ghost use Rattle.std.specs.Io.KnownBytes.{Appends};
    ghost use Rattle.cmd_options.specs.Terms.{PrintsNothing};

    // What may be remembered once a ledger was taken, and what is said to it.
    ghost takes: { Self → List ℕ → Self → List ℕ → Type 0 };

    // Takes a ledger.
    fn take_ledger<E: Write>(&mut self, text: &[u8], faults: &mut E) -> Result<(), Ended>
        ensures ok { OnOk result ((said : List ℕ) × takes self.old text.now self.new said
            × Appends (E.contents faults.old) (E.contents faults.new) said) }
        ensures err { IfErr result (λ e. PrintsNothing e (E.contents faults.old) (E.contents faults.new)) };
}

// How many bytes are read at once, at most.
const PIECE_BYTES: usize = 16_384;

// The ledger that has come last, as far as it has.
#[derive(Drop)]
pub(crate) struct LedgerLoop {
    // its whole lines
    before: Vec<u8>,
    // the line that is begun
    line: Vec<u8>,
}

// Takes the ledgers of a stream, read to its end; one of them is in memory at a time.
pub(crate) fn take_ledgers<R: Read, T: LedgerTaker, E: Write>(
    alloc: Global,
    input: &mut R,
    taker: &mut T,
    faults: &mut E,
) -> Result<(), Ended>
    ensures ok { OnOk result (TakesLedgers T.takes taker.old taker.new (R.remaining input.old) (R.remaining input.new)
        (E.contents faults.old) (E.contents faults.new)) }
    ensures first { IfErr result (λ e. TakesFirstLedgers T.takes taker.old (R.remaining input.old)
        (R.remaining input.new) (E.contents faults.old) e (E.contents faults.new)) }
{
    let mut ledgers = LedgerLoop::new(alloc);
    let mut buf = [0; PIECE_BYTES];
    for _ in 0..u64::MAX {
        let count = match input.read(&mut buf) {
            Ok(count) => count,
            Err(fault) => return Err(ended_by(&fault, Ended::Stream)),
        };
        if count == 0 {
            ledgers.end(taker, faults)?;
            return Ok(());
        }
        ledgers.take(&buf[..count], taker, faults)?;
    }
    // No stream has so many pieces.
    Err(Ended::Stream)
}

impl LedgerLoop {
    // Before the first byte.
    fn new(alloc: Global) -> LedgerLoop
        ensures before { result.before.items ≡ [] }
        ensures line { result.line.items ≡ [] }
    {
        LedgerLoop {
            before: Vec::new(alloc),
            line: Vec::new(alloc),
        }
    }

    // Takes the next piece: each ledger behind which a line with another one's beginning ends in it.
    fn take<T: LedgerTaker, E: Write>(
        &mut self,
        piece: &[u8],
        taker: &mut T,
        faults: &mut E,
    ) -> Result<(), Ended>
        ensures ok { OnOk result (TakesMoreLedgers T.takes piece.now self.old.before.items self.old.line.items taker.old
            (E.contents faults.old) self.new.before.items self.new.line.items taker.new (E.contents faults.new)) }
        ensures first { IfErr result (λ e. (start : T) (begun : Option (List ℕ)) (text : List ℕ)
            → HasTaken T.takes start begun text self.old.before.items self.old.line.items taker.old
            (E.contents faults.old)
            → HasTakenLedgers T.takes start begun (text ++ piece.now) e (E.contents faults.new)) }
    {
        let mut left = piece;
        'lines: loop {
            let (line, rest) = cut(left);
            self.line.extend_from_slice(line)?;
            let Some(rest) = rest else {
                return Ok(());
            };
            self.cut_before_line(taker, faults)?;
            self.keep_line()?;
            left = rest;
        }
    }

    // At the end of the stream: takes the last ledger, and the one before it where that isn't taken yet.
    fn end<T: LedgerTaker, E: Write>(&mut self, taker: &mut T, faults: &mut E) -> Result<(), Ended>
        ensures ok { OnOk result ((start : T) (begun : Option (List ℕ)) (text : List ℕ)
            → HasTaken T.takes start begun text self.old.before.items self.old.line.items taker.old
            (E.contents faults.old)
            → TakesAll T.takes start begun text taker.new (E.contents faults.new)) }
        ensures first { IfErr result (λ e. (start : T) (begun : Option (List ℕ)) (text : List ℕ)
            → HasTaken T.takes start begun text self.old.before.items self.old.line.items taker.old
            (E.contents faults.old)
            → HasTakenLedgers T.takes start begun text e (E.contents faults.new)) }
    {
        self.cut_before_line(taker, faults)?;
        self.before.extend_from_slice(&self.line)?;
        taker.take_ledger(&self.before, faults)
    }

    // Takes the lines that are kept, where the next one begins another ledger.
    fn cut_before_line<T: LedgerTaker, E: Write>(
        &mut self,
        taker: &mut T,
        faults: &mut E,
    ) -> Result<(), Ended>
        ensures ok { OnOk result (CutsBefore T.takes self.old.before.items self.old.line.items taker.old
            (E.contents faults.old) self.new.before.items taker.new (E.contents faults.new)) }
        ensures err { IfErr result (λ e. PrintsNothing e (E.contents faults.old) (E.contents faults.new)) }
        ensures line { self.new.line.items ≡ self.old.line.items }
    {
        if is_head(&self.line) && !self.before.is_empty() {
            taker.take_ledger(&self.before, faults)?;
            self.before.clear();
        }
        Ok(())
    }

    // Keeps the line, whose newline has come, and begins the next one.
    fn keep_line(&mut self) -> Result<(), Ended>
        ensures before { OnOk result (self.new.before.items ≡ self.old.before.items ++ self.old.line.items ++ 10 ∷ []) }
        ensures line { OnOk result (self.new.line.items ≡ []) }
    {
        self.before.extend_from_slice(&self.line)?;
        self.before.extend_from_slice(b"\n")?;
        self.line.clear();
        Ok(())
    }
}

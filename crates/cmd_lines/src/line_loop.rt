// From the pieces of a text to its lines, and who takes them or says something to them.
ghost use Rattle.std.specs.Prelude.{◌≡◌, ◌↔◌, List, ℕ, [], Some, false, IfErr, OnErr, OnOk};
ghost use Rattle.cmd_lines.specs.Lines.{AreLines, AreTakenInTurn, HasTakenFirst, HasTakenLines, IsReadWhole, StopsTaking, StopsTakingFrom, TakesFirst, TakesMore};

use cmd_options::{Ended, Outcome, Stopped};
use std::alloc::Global;
use std::io::Read;
use std::marker::Model;
use text::{Cutter, cut};

/// Takes one line after another, and remembers what it has to of them.
pub trait LineTaker {
    ghost use Rattle.std.specs.Prelude.{OnErr, OnOk, IfErr};
    ghost use Rattle.text.specs.Terms.{BoundedLine};
    ghost use Rattle.cmd_options.specs.declared.ended.Ended.{Ended as End};
    ghost use Rattle.cmd_lines.specs.Lines.{lent};

    /// What may be remembered once a line was taken, which is none where it was too long.
    ghost takes: { Self → BoundedLine → Self → Type 0 };

    /// What may be left of what was remembered, where the taking ended at a line.
    ghost leaves: { Self → Self → Type 0 } = { λ old new. Unit {0} };

    /// What may end the taking.
    ghost ends: { End → Type 0 };

    /// Takes a line.
    fn take_line(&mut self, line: Option<&[u8]>) -> Result<(), Ended>
        ensures ok { OnOk result (takes self.old (lent line.entry) self.new) }
        ensures left { OnErr result (leaves self.old self.new) }
        ensures err { IfErr result ends };
}

/// Takes one line after another, remembers what it has to of them, and says something to each.
pub trait Sayer {
    ghost use Rattle.std.specs.Prelude.{◌≡◌, ◌++◌, List, ℕ, IfErr, IfOk};
    ghost use Rattle.text.specs.Terms.{BoundedLine};
    ghost use Rattle.cmd_options.specs.declared.ended.Ended.{Ended as End};
    ghost use Rattle.cmd_options.specs.declared.ended.Outcome.{Outcome as How};
    ghost use Rattle.cmd_lines.specs.Lines.{lent};

    /// What may be said to a line, which is none where it was too long, how it is taken, and what is remembered then.
    ghost takes: { Self → BoundedLine → How → Self → List ℕ → Type 0 };

    /// What may end the taking.
    ghost ends: { End → Type 0 };

    /// Takes a line, and appends the answer to it, whole lines or nothing. What it appended before an error isn't used.
    fn take_line(&mut self, line: Option<&[u8]>, said: &mut Vec<u8>) -> Result<Outcome, Ended>
        ensures ok { IfOk result (λ o. (more : List ℕ) × takes self.old (lent line.entry) o self.new more
            × (said.new.items ≡ said.old.items ++ more)) }
        ensures err { IfErr result ends };
}

// How many bytes are read at once, at most.
const PIECE_BYTES: usize = 16_384;

/// The line that was begun of a text that comes in pieces. No more is kept of it than a line may have.
#[derive(Drop)]
pub struct LineLoop {
    cutter: Cutter,
}

impl Model for LineLoop {
    ghost use Rattle.text.specs.Terms.{BoundedLine};

    ghost Value = { BoundedLine };

    ghost view = { λ a. a.cutter };
}

impl LineLoop {
    /// Before the first byte of a text.
    pub fn new(alloc: Global) -> LineLoop
        ensures { result ≡ Some [] }
    {
        LineLoop {
            cutter: Cutter::new(alloc),
        }
    }

    /// Takes the next piece of the text: each line whose newline is in it.
    pub fn take<T: LineTaker>(&mut self, piece: &[u8], taker: &mut T) -> Result<(), Ended>
        ensures ok { OnOk result (TakesMore T.takes piece.now self.old taker.old self.new taker.new) }
        ensures first { OnErr result (TakesFirst T.takes T.leaves piece.now self.old taker.old taker.new) }
        ensures err { IfErr result (StopsTaking T.ends) }
    {
        let mut left = piece;
        'lines: loop {
            let (line, rest) = cut(left);
            self.cutter.take(line)?;
            let Some(rest) = rest else {
                return Ok(());
            };
            self.end_line(taker)?;
            left = rest;
        }
    }

    /// Takes what a reader has as the next pieces of the text: so many bytes of it, or all where these are fewer. A piece of
    /// it is in memory at a time.
    pub fn take_from<T: LineTaker, R: Read>(
        &mut self,
        from: &mut R,
        limit: u64,
        taker: &mut T,
    ) -> Result<(), Stopped>
        ensures ok { OnOk result ((text : List ℕ) × IsReadWhole (R.remaining from.old) limit text (R.remaining from.new)
            × TakesMore T.takes text self.old taker.old self.new taker.new) }
        ensures err { IfErr result (StopsTakingFrom T.ends) }
    {
        let mut buf = [0; PIECE_BYTES];
        let mut left = limit;
        'pieces: while left > 0 {
            let room = left.min(PIECE_BYTES as u64) as usize;
            let piece = &mut buf[..room];
            let count = match from.read(piece) {
                Ok(count) => count,
                Err(fault) => return Err(Stopped::Failed(fault)),
            };
            if count == 0 {
                return Ok(());
            }
            match self.take(&piece[..count], taker) {
                Ok(()) => left -= count as u64,
                Err(ended) => return Err(Stopped::Ended(ended)),
            }
        }
        Ok(())
    }

    /// At the end of the text: takes a last line without newline, if there is one.
    pub fn end<T: LineTaker>(&mut self, taker: &mut T) -> Result<(), Ended>
        ensures ok { OnOk result ((start : T) (text : List ℕ) → HasTakenLines T.takes start text self.old taker.old →
            (lines : List (List ℕ)) × AreLines text lines × AreTakenInTurn T.takes start lines taker.new) }
        ensures first { OnErr result ((start : T) (text : List ℕ) → HasTakenLines T.takes start text self.old taker.old
            → HasTakenFirst T.takes T.leaves start text taker.new) }
        ensures err { IfErr result (StopsTaking T.ends) }
    {
        if self.is_begun() {
            self.end_line(taker)
        } else {
            Ok(())
        }
    }

    // Whether a byte of a line has come.
    fn is_begun(&self) -> bool
        ensures { (result ≡ false) ↔ (self.now ≡ Some []) }
    {
        match self.cutter.line() {
            Some(bytes) => !bytes.is_empty(),
            None => true,
        }
    }

    // Takes the line that has come, and begins the next one.
    fn end_line<T: LineTaker>(&mut self, taker: &mut T) -> Result<(), Ended>
        ensures begun { OnOk result (self.new ≡ Some []) }
        ensures taken { OnOk result (T.takes taker.old self.old taker.new) }
        ensures left { OnErr result (T.leaves taker.old taker.new) }
        ensures err { IfErr result T.ends }
    {
        taker.take_line(self.cutter.line())?;
        self.cutter.begin();
        Ok(())
    }
}

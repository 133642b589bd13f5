// From a stream of lines to what is said to them, and waits to be written.
ghost use Rattle.std.specs.Prelude.{◌≡◌, ◌⊎◌, ◌<◌, ◌≤◌, [], IfErr, IfOk, List, ℕ, Option, ◌++◌, OnErr, OnOk};
ghost use Rattle.std.specs.Io.KnownBytes.{IsAtEnd, Appends};
ghost use Rattle.cmd_lines.specs.Stream.{IsSaidToFirst, WritesFirst, TakesStream, first_fault};
ghost use Rattle.cmd_lines.specs.inside.{IsSaid};
ghost use Rattle.cmd_options.specs.Terms.{IsCutShort};

use crate::line_loop::{LineLoop, LineTaker, Sayer};
use cmd_options::{Ended, Outcome, write_in_full};
use kind_evidence::NoMemory;
use std::alloc::Global;
use std::io::{Read, Write};
use std::mem;

/// The most bytes that are read at once.
pub const PIECE_BYTES: usize = 16_384;

/// Reads lines, so many bytes at once at most, and writes the answer to each as soon as its piece of the stream was taken.
/// A last line without newline is read too. Where that ends early, what was said to the lines before is written, to each in
/// full; where a stream failed, a first part of that. Errors: what ends the taking, a stream that fails, and refused memory.
pub fn say_lines<S: Sayer + Drop, R: Read, W: Write>(
    alloc: Global,
    sayer: S,
    room: usize,
    input: &mut R,
    says: &mut W,
) -> Result<(Outcome, S), Ended>
    requires { (0 < room) × (room ≤ 16_384) }
    ensures ok { IfOk result (λ said. TakesStream S.takes sayer said.1 (R.remaining input.old) (R.remaining input.new)
        (W.contents says.old) (W.contents says.new) said.0) }
    ensures first { IfErr result (WritesFirst
        (IsSaidToFirst S.takes sayer (R.remaining input.old) (R.remaining input.new)) (W.contents says.old)
        (W.contents says.new)) }
    ensures err { IfErr result (λ e. ((e ≡ Ended.NoMemory) ⊎ S.ends e) ⊎ (e ≡ Ended.Stream)) }
{
    let mut lines = LineLoop::new(alloc);
    let mut saying = Saying {
        sayer,
        waits: Vec::new(alloc),
        said: Vec::new(alloc),
        outcome: Outcome::Accepted,
    };
    let mut buf = [0; PIECE_BYTES];
    for _ in 0..u64::MAX {
        let piece = &mut buf[..room];
        let count = input.read(piece)?;
        if count == 0 {
            return finish(lines, saying, says);
        }
        let taken = lines.take(&piece[..count], &mut saying);
        saying.write(says)?;
        taken?;
    }
    // No stream has so many pieces.
    Err(Ended::Stream)
}

// At the end of the stream: takes a last line without newline, if there is one.
fn finish<S: Sayer + Drop, W: Write>(
    lines: LineLoop,
    saying: Saying<S>,
    says: &mut W,
) -> Result<(Outcome, S), Ended>
    requires { saying.waits.items ≡ [] }
    ensures ok { IfOk result (λ said. (start : S) (read new_read held : Option (List ℕ)) → IsAtEnd new_read →
        IsSaid S.takes start read new_read held (W.contents says.old) lines saying.outcome saying.sayer →
        TakesStream S.takes start said.1 read new_read held (W.contents says.new) said.0) }
    ensures first { IfErr result (λ e. (start : S) (read new_read held : Option (List ℕ)) → IsAtEnd new_read →
        IsSaid S.takes start read new_read held (W.contents says.old) lines saying.outcome saying.sayer →
        WritesFirst (IsSaidToFirst S.takes start read new_read) held (W.contents says.new) e) }
    ensures err { IfErr result (λ e. ((e ≡ Ended.NoMemory) ⊎ S.ends e) ⊎ (e ≡ Ended.Stream)) }
{
    let mut lines = lines;
    let mut saying = saying;
    let ended = lines.end(&mut saying);
    saying.write(says)?;
    ended?;
    Ok((saying.outcome, saying.sayer))
}

// One who says something to lines, and what of that waits to be written.
#[derive(Drop)]
pub(crate) struct Saying<S> {
    pub sayer: S,
    pub waits: Vec<u8>,
    // What is said to the line that is taken: it waits as soon as it is whole.
    pub said: Vec<u8>,
    // The outcome of the first line that wasn't accepted.
    pub outcome: Outcome,
}

impl<S: Sayer> LineTaker for Saying<S> {
    ghost use Rattle.std.specs.Prelude.{◌≡◌};
    ghost use Rattle.cmd_lines.specs.Lines.{StopsTaking};
    ghost use Rattle.cmd_lines.specs.inside.{SaysBehind};

    ghost takes = { λ old line new. SaysBehind S.takes old.sayer old.outcome old.waits.items line new.sayer new.outcome
        new.waits.items };

    // What was said to a part of a line never waits.
    ghost leaves = { λ old new. new.waits.items ≡ old.waits.items };

    ghost ends = { StopsTaking S.ends };

    fn take_line(&mut self, line: Option<&[u8]>) -> Result<(), Ended> {
        self.said.clear();
        let outcome = self.sayer.take_line(line, &mut self.said)?;
        append_said(&mut self.said, &mut self.waits)?;
        self.outcome = first_fault(self.outcome, outcome);
        Ok(())
    }
}

// Puts what was said behind what waits. Where that is nothing, no byte is copied: a line may be told much.
fn append_said(said: &mut Vec<u8>, waits: &mut Vec<u8>) -> Result<(), NoMemory>
    ensures ok { OnOk result (waits.new.items ≡ waits.old.items ++ said.old.items) }
    ensures err { OnErr result (waits.new.items ≡ waits.old.items) }
{
    if waits.is_empty() {
        mem::swap(said, waits);
        Ok(())
    } else {
        waits.append(said)
    }
}

impl<S: Sayer> Saying<S> {
    // Writes what waits.
    pub fn write<W: Write>(&mut self, says: &mut W) -> Result<(), Ended>
        ensures sayer { self.new.sayer ≡ self.old.sayer }
        ensures outcome { self.new.outcome ≡ self.old.outcome }
        ensures none { self.new.waits.items ≡ [] }
        ensures ok { OnOk result (Appends (W.contents says.old) (W.contents says.new) self.old.waits.items) }
        ensures cut { OnErr result (IsCutShort self.old.waits.items (W.contents says.old) (W.contents says.new)) }
        ensures err { IfErr result (λ e. e ≡ Ended.Stream) }
    {
        let written = write_in_full(&self.waits, says);
        self.waits.clear();
        Ok(written?)
    }
}

// The first of two outcomes that isn't that all was accepted.
fn first_fault(first: Outcome, later: Outcome) -> Outcome
    ensures { result ≡ first_fault first later }
{
    match first {
        Outcome::Accepted => later,
        fault => fault,
    }
}

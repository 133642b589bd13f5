// The parts of a text between its separators, and lines of a stream that comes in pieces.
ghost use Rattle.std.specs.Prelude.{◌≡◌, ◌==◌, ◌<◌, length, IfSome, IfNone, option_map, position, ◌∷◌, [], MatchOption, ◌≤◌, Some, OnOk, OnErr};
ghost use Rattle.text.specs.Fields.{cut_at, HasNoNewline, BeginsWithLine, IsCut, IsShort, BoundedLine, with_more};

use crate::limits::MAX_LINE_BYTES;
use std::alloc::{AllocError as NoMemory, Global};
use std::marker::Model;

/// What stands before the first such byte, and what stands behind it; none where there is no such byte.
pub fn cut_at(byte: u8, text: &[u8]) -> Option<(&[u8], &[u8])>
    ensures cut { option_map (λ cut. (cut.0.now, cut.1.now)) result ≡ cut_at byte text.now }
    ensures shorter { IfSome result (λ cut. length cut.1.now < length text.now) }
{
    let at = first_place(byte, text)?;
    Some((&text[..at], &text[at + 1..]))
}

/// The first line of a text, and what follows its newline; none where there is no newline.
pub fn first_line(text: &[u8]) -> Option<(&[u8], &[u8])>
    ensures some { IfSome result (λ cut. BeginsWithLine text.now cut.0.now cut.1.now) }
    ensures none { IfNone result (HasNoNewline text.now) }
    ensures shorter { IfSome result (λ cut. length cut.1.now < length text.now) }
{
    cut_at(b'\n', text)
}

/// A piece of a stream up to its first newline, and what follows that; nothing follows where it has none.
pub fn cut(piece: &[u8]) -> (&[u8], Option<&[u8]>)
    ensures cut { IsCut piece.now result.0.now result.1 }
    ensures shorter { IfSome result.1 (λ rest. length rest.now < length piece.now) }
{
    match first_line(piece) {
        Some((line, rest)) => (line, Some(rest)),
        None => (piece, None),
    }
}

// The first place of a byte.
fn first_place(byte: u8, text: &[u8]) -> Option<usize>
    ensures place { result ≡ position (λ b. b == byte) text.now }
    ensures within { IfSome result (λ at. at < length text.now) }
{
    text.iter().position(|b| *b == byte)
}

/// The parts of a text, cut at every byte of a kind: one more than it has such bytes.
#[derive(Drop)]
pub struct Parts<'a> {
    byte: u8,
    rest: Option<&'a [u8]>,
}

impl<'a> Model for Parts<'a> {
    ghost use Rattle.std.specs.Prelude.{List, ℕ};

    ghost Value = { List (List ℕ) };

    ghost use Rattle.text.specs.inside.{parts_left};

    ghost view = { λ a. parts_left a.byte a.rest };
}

impl<'a> Parts<'a> {
    ghost use Rattle.text.specs.Fields.{parts_of};

    /// The parts of a text between such bytes.
    pub fn of(byte: u8, text: &'a [u8]) -> Parts<'a>
        ensures { result ≡ parts_of byte text.now }
    {
        Parts {
            byte,
            rest: Some(text),
        }
    }

    /// The first part that is left; none where none is.
    pub fn next(&mut self) -> Option<&'a [u8]>
        ensures { MatchOption result ((self.old ≡ []) × (self.new ≡ [])) (λ part. self.old ≡ part.now ∷ self.new) }
    {
        let text = self.rest?;
        match cut_at(self.byte, text) {
            Some((part, rest)) => {
                self.rest = Some(rest);
                Some(part)
            }
            None => {
                self.rest = None;
                Some(text)
            }
        }
    }
}

/// The line that is being read, as far as it has come: its bytes, or only that it is longer than
/// `MAX_LINE_BYTES`. It keeps no more than that of a stream.
#[derive(Drop)]
pub struct Cutter {
    bytes: Vec<u8>,
    overlong: bool,
}

impl Model for Cutter {
    ghost use Rattle.std.specs.Prelude.{◌≤◌, length, if◌then◌else◌, Some, None};
    ghost use Rattle.text.specs.Fields.{BoundedLine};
    ghost use Rattle.text.specs.Limits.{line_byte_limit};

    ghost Value = { BoundedLine };

    ghost view = { λ a. if a.overlong then None else Some a.bytes.items };

    ghost invariant = { λ a. length a.bytes.items ≤ line_byte_limit };
}

impl Cutter {
    /// At the beginning of a line.
    pub fn new(alloc: Global) -> Cutter
        ensures { result ≡ Some [] }
    {
        Cutter {
            bytes: Vec::new(alloc),
            overlong: false,
        }
    }

    /// Takes more bytes of the line.
    pub fn take(&mut self, more: &[u8]) -> Result<(), NoMemory>
        ensures ok { OnOk result (self.new ≡ with_more self.old more.now) }
        ensures err { OnErr result (self.new ≡ self.old) }
        ensures within { IsShort self.new }
    {
        if self.overlong {
            return Ok(());
        }
        if more.len() <= MAX_LINE_BYTES - self.bytes.len() {
            self.bytes.extend_from_slice(more)?;
        } else {
            self.overlong = true;
        }
        Ok(())
    }

    /// The line as far as it has come; none where it is too long.
    pub fn line(&self) -> Option<&[u8]>
        ensures { option_map (λ line. line.now) result ≡ self.now }
    {
        if self.overlong {
            None
        } else {
            Some(&self.bytes)
        }
    }

    /// The line's bytes, handed over; none where it is too long.
    pub fn into_bytes(self) -> Option<Vec<u8>>
        ensures bytes { option_map (λ bytes. bytes.items) result ≡ self }
        ensures within { IsShort self }
    {
        if self.overlong {
            None
        } else {
            Some(self.bytes)
        }
    }

    /// Begins the next line.
    pub fn begin(&mut self)
        ensures { self.new ≡ Some [] }
    {
        self.bytes.clear();
        self.overlong = false;
    }
}

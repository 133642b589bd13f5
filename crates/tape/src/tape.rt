// The tape: its cells, its head and its moves.
ghost use Rattle.std.specs.Prelude.{◌≡◌, IfOk, OnOk, OnErr, [], ◌∷◌, ◌++◌};
ghost use Rattle.machine_text.specs.declared.table.Dir.TheVariants.{L, R};
ghost use Rattle.tape.specs.inside.{IsNearest};

use crate::cell::{symbol_at, with_symbol};
use crate::limits::MAX_PLACE;
use machine_text::Sym;
use std::alloc::{AllocError, Global};
use std::marker::Model;

// The number of the word that holds place 0.
const ORIGIN: u64 = 1 << 57;
// The bit of a word's rightmost cell.
pub(crate) const LAST_BIT: u32 = 63;

/// The only fault of a tape: memory for a growth was refused.
pub type NoMemory = AllocError;

/// A two-sided tape with a head. Each cell is blank, which is `Sym::Zero`, until a one is written there.
///
/// Places are whole numbers: the head starts at 0, a move to the right adds one. A head that is moved stands
/// at most `MAX_PLACE` cells from 0 before the move, which is the caller's to see to.
#[derive(Drop)]
pub struct Tape {
    // The number of the word under the head: the word `n` holds the places from `64 * n - 2^63` on.
    pub(crate) block: u64,
    // The bit under the head.
    pub(crate) bit: u32,
    pub(crate) word: u64,
    // The visited words on each side of that one, the nearest one last. In each word the leftmost cell is
    // the lowest bit.
    pub(crate) left: Vec<u64>,
    pub(crate) right: Vec<u64>,
}

impl Model for Tape {
    ghost use Rattle.std.specs.Prelude.{length};
    ghost use Rattle.law_turing.specs.Terms.{Tape, tape_code};
    ghost use Rattle.tape.specs.inside.{stored, IsPacked};

    ghost Value = { Tape };

    ghost coded = { tape_code };

    ghost view = { λ a. stored a.block a.bit a.left.items a.word a.right.items };

    ghost invariant = { λ a. IsPacked a.block a.bit (length a.left.items) (length a.right.items) };
}

impl Tape {
    ghost use Rattle.law_turing.specs.Terms.{blank, symbol_read, written, moved};
    ghost use Rattle.tape.specs.Limits.{place_limit};
    ghost use Rattle.tape.specs.Cells.{IsWithinLimit};

    /// The blank tape with its head at 0.
    pub fn new(alloc: Global) -> Tape
        ensures tape { result ≡ blank }
        ensures limit { MAX_PLACE ≡ place_limit }
    {
        Tape {
            block: ORIGIN,
            bit: 0,
            word: 0,
            left: Vec::new(alloc),
            right: Vec::new(alloc),
        }
    }

    /// Where the head stands.
    #[inline]
    pub fn head(&self) -> i64
        ensures { result ≡ self.now.head }
    {
        (64 * self.block + self.bit as u64)
            .wrapping_sub(1 << 63)
            .cast_signed()
    }

    /// The symbol under the head.
    #[inline]
    pub fn read(&self) -> Sym
        ensures { result ≡ symbol_read self.now }
    {
        symbol_at(self.word, self.bit)
    }

    /// Writes a symbol under the head.
    #[inline]
    pub fn write(&mut self, s: Sym)
        ensures { self.new ≡ written self.old s }
    {
        self.word = with_symbol(self.word, self.bit, s);
    }

    /// Moves the head by one cell to the left. After an error the tape is as it was.
    #[inline]
    #[tactic(auto, using(crate::proofs::PackedCells::rewritten))]
    pub fn left(&mut self) -> Result<(), NoMemory>
        requires { IsWithinLimit self.old.head }
        ensures ok { OnOk result (self.new ≡ moved self.old L) }
        ensures err { OnErr result (self.new ≡ self.old) }
    {
        self.write_left(self.read())
    }

    /// Moves the head by one cell to the right. After an error the tape is as it was.
    #[inline]
    #[tactic(auto, using(crate::proofs::PackedCells::rewritten))]
    pub fn right(&mut self) -> Result<(), NoMemory>
        requires { IsWithinLimit self.old.head }
        ensures ok { OnOk result (self.new ≡ moved self.old R) }
        ensures err { OnErr result (self.new ≡ self.old) }
    {
        self.write_right(self.read())
    }

    /// Writes a symbol under the head, then moves to the left. After an error the tape is as it was:
    /// nothing is written either.
    #[inline]
    pub fn write_left(&mut self, s: Sym) -> Result<(), NoMemory>
        requires { IsWithinLimit self.old.head }
        ensures ok { OnOk result (self.new ≡ moved (written self.old s) L) }
        ensures err { OnErr result (self.new ≡ self.old) }
    {
        let word = with_symbol(self.word, self.bit, s);
        if self.bit > 0 {
            self.bit -= 1;
            self.word = word;
        } else {
            self.word = next_word(&mut self.left, &mut self.right, word)?;
            self.block -= 1;
            self.bit = LAST_BIT;
        }
        Ok(())
    }

    /// Writes a symbol under the head, then moves to the right. After an error the tape is as it was:
    /// nothing is written either.
    #[inline]
    pub fn write_right(&mut self, s: Sym) -> Result<(), NoMemory>
        requires { IsWithinLimit self.old.head }
        ensures ok { OnOk result (self.new ≡ moved (written self.old s) R) }
        ensures err { OnErr result (self.new ≡ self.old) }
    {
        let word = with_symbol(self.word, self.bit, s);
        if self.bit < LAST_BIT {
            self.bit += 1;
            self.word = word;
        } else {
            self.word = next_word(&mut self.right, &mut self.left, word)?;
            self.block += 1;
            self.bit = 0;
        }
        Ok(())
    }

    /// Makes the tape blank, with its head at 0. It keeps the memory that it has.
    pub fn clear(&mut self)
        ensures { self.new ≡ blank }
    {
        self.block = ORIGIN;
        self.bit = 0;
        self.word = 0;
        self.left.clear();
        self.right.clear();
    }

    /// Takes over the head and the cells of another tape, in the memory that it has where that suffices.
    /// After an error the tape is blank.
    pub fn copy_from(&mut self, other: &Tape) -> Result<(), NoMemory>
        ensures ok { OnOk result (self.new ≡ other.now) }
        ensures err { OnErr result (self.new ≡ blank) }
    {
        let copied = copy_words(&other.left, &mut self.left, &other.right, &mut self.right);
        if copied.is_ok() {
            self.block = other.block;
            self.bit = other.bit;
            self.word = other.word;
        } else {
            self.block = ORIGIN;
            self.bit = 0;
            self.word = 0;
            self.left.clear();
            self.right.clear();
        }
        copied
    }

    /// Another tape with the same head and cells, on the allocator given.
    pub fn copied(&self, alloc: Global) -> Result<Tape, NoMemory>
        ensures { IfOk result (λ t. t ≡ self.now) }
    {
        Ok(Tape {
            block: self.block,
            bit: self.bit,
            word: self.word,
            left: self.left.to_vec(alloc)?,
            right: self.right.to_vec(alloc)?,
        })
    }
}

// Puts the word that a head leaves on the side behind it, and takes the nearest one of the side ahead, a blank
// one where there is none. After an error both sides are as they were.
// Kept apart from the steps: it is needed for few of them, and they are inlined.
#[inline(never)]
pub(crate) fn next_word(
    ahead: &mut Vec<u64>,
    behind: &mut Vec<u64>,
    word: u64,
) -> Result<u64, NoMemory>
    ensures left { OnOk result (behind.new.items ≡ behind.old.items ++ word ∷ []) }
    ensures entered { IfOk result (λ next. IsNearest ahead.old.items next ahead.new.items) }
    ensures err_ahead { OnErr result (ahead.new.items ≡ ahead.old.items) }
    ensures err_behind { OnErr result (behind.new.items ≡ behind.old.items) }
{
    behind.push(word)?;
    Ok(ahead.pop().unwrap_or(0))
}

// Puts the visited words of a tape in the place of another's.
fn copy_words(
    from_left: &[u64],
    left: &mut Vec<u64>,
    from_right: &[u64],
    right: &mut Vec<u64>,
) -> Result<(), NoMemory>
    ensures left { OnOk result (left.new.items ≡ from_left.now) }
    ensures right { OnOk result (right.new.items ≡ from_right.now) }
{
    left.clear();
    left.extend_from_slice(from_left)?;
    right.clear();
    right.extend_from_slice(from_right)
}

// Many steps at once: sixteen cells with the head among them, and sweeps over cells that hold one symbol.
ghost use Rattle.std.specs.Prelude.{◌≡◌, ◌<◌, ◌-ℤ◌, pos, OnOk, OnErr, ◌≤◌, IfOk};
ghost use Rattle.tape.specs.Cells.{Crosses, HoldsCells, IsInWindow, last_place, IsWithinLimit};
ghost use Rattle.machine_text.specs.declared.table.Dir.TheVariants.{L, R};

use crate::cell::{alike, symbol_at, window_at, with_symbols, with_window};
use crate::tape::{LAST_BIT, NoMemory, Tape, next_word};
use machine_text::{Dir, Sym};

/// Sixteen cells side by side, the head on one of them. Windows follow one another from the least place on, so that each cell is in
/// one of them.
#[derive(Clone, Copy, Debug, PartialEq, Eq)]
pub struct Window {
    /// The cells, the leftmost one in the lowest bit.
    pub cells: u16,
    /// How many of them are left of the head.
    pub at: u32,
}

impl Window {
    ghost use Rattle.std.specs.Prelude.{◌≢◌, ℕ, IfSome, IfNone};
    ghost use Rattle.std.specs.Int.{bit_at};
    ghost use Rattle.law_turing.specs.Terms.{moved_head};
    ghost use Rattle.tape.specs.Cells.{bit_symbol, place_beyond};

    /// The symbol under the head.
    #[inline]
    pub fn read(&self) -> Sym
        requires { self.now.at < 16 }
        ensures { result ≡ bit_symbol (bit_at self.now.cells self.now.at) }
    {
        symbol_at(self.cells as u64, self.at)
    }

    /// Writes a symbol under the head.
    #[inline]
    pub fn write(&mut self, s: Sym)
        requires { self.old.at < 16 }
        ensures at { self.new.at ≡ self.old.at }
        ensures here { bit_symbol (bit_at self.new.cells self.old.at) ≡ s }
        ensures others { (i : ℕ) → i < 16 → i ≢ self.old.at → bit_at self.new.cells i ≡ bit_at self.old.cells i }
    {
        match s {
            Sym::Zero => self.cells &= !(1 << self.at),
            Sym::One => self.cells |= 1 << self.at,
        }
    }

    /// The window after its head has moved by one cell to a side; none where it has left it then.
    #[inline]
    pub fn moved(self, side: Dir) -> Option<Window>
        requires { self.at < 16 }
        ensures some { IfSome result
            (λ w. w.cells ≡ self.cells × (w.at < 16) × (moved_head (pos self.at) side ≡ pos w.at)) }
        ensures none { IfNone result (moved_head (pos self.at) side ≡ place_beyond side (pos 0)) }
    {
        let cells = self.cells;
        match side {
            Dir::L if self.at == 0 => None,
            Dir::L => Some(Window {
                cells,
                at: self.at - 1,
            }),
            Dir::R if self.at == 15 => None,
            Dir::R => Some(Window {
                cells,
                at: self.at + 1,
            }),
        }
    }
}

impl Tape {
    /// The window in which the head stands.
    #[inline]
    pub fn window(&self) -> Window
        ensures cells { HoldsCells self.now.ones (self.now.head -ℤ pos result.at) result.cells }
        ensures at { IsInWindow result.at self.now.head }
    {
        let at = self.bit % 16;
        Window {
            cells: window_at(self.word, self.bit - at) as u16,
            at,
        }
    }

    /// Puts other cells into the window in which the head stands, `at` cells from its left, and moves the head out of it to a
    /// side. After an error the tape is as it was.
    #[inline]
    pub fn cross(&mut self, at: u32, cells: u16, side: Dir) -> Result<(), NoMemory>
        requires at { IsInWindow at self.old.head }
        requires limit { IsWithinLimit (last_place side (self.old.head -ℤ pos at)) }
        ensures ok { OnOk result (Crosses at cells side self.old self.new) }
        ensures err { OnErr result (self.new ≡ self.old) }
    {
        match side {
            Dir::L => self.cross_left(at, cells),
            Dir::R => self.cross_right(at, cells),
        }
    }

    #[inline]
    fn cross_left(&mut self, at: u32, cells: u16) -> Result<(), NoMemory>
        requires at { IsInWindow at self.old.head }
        requires limit { IsWithinLimit (last_place L (self.old.head -ℤ pos at)) }
        ensures ok { OnOk result (Crosses at cells L self.old self.new) }
        ensures err { OnErr result (self.new ≡ self.old) }
    {
        let low = self.bit - at;
        let word = with_window(self.word, low, cells as u64);
        if low > 0 {
            self.bit = low - 1;
            self.word = word;
        } else {
            self.word = next_word(&mut self.left, &mut self.right, word)?;
            self.block -= 1;
            self.bit = LAST_BIT;
        }
        Ok(())
    }

    #[inline]
    fn cross_right(&mut self, at: u32, cells: u16) -> Result<(), NoMemory>
        requires at { IsInWindow at self.old.head }
        requires limit { IsWithinLimit (last_place R (self.old.head -ℤ pos at)) }
        ensures ok { OnOk result (Crosses at cells R self.old self.new) }
        ensures err { OnErr result (self.new ≡ self.old) }
    {
        let low = self.bit - at;
        let word = with_window(self.word, low, cells as u64);
        if low + 16 <= LAST_BIT {
            self.bit = low + 16;
            self.word = word;
        } else {
            self.word = next_word(&mut self.right, &mut self.left, word)?;
            self.block += 1;
            self.bit = 0;
        }
        Ok(())
    }
}

impl Tape {
    ghost use Rattle.tape.specs.Cells.{MaySweep, Sweeps, EndsSweep};

    /// Makes several moves to a side at once, at most `limit` of them: as long as the head reads what it read
    /// before the first one, it writes a symbol and moves. It answers how many moves it made, one at least; it
    /// stops at the edge of a word too, at a place that is a multiple of 64 on the right, or one before such a place
    /// on the left, so more may follow. After an error the tape is as it was. The head stands at
    /// least `limit` cells within `MAX_PLACE`, which is the caller's to see to.
    ///
    /// A machine that stays in its state on such cells does just these steps. Long runs consist of little else.
    pub fn sweep(&mut self, dir: Dir, s: Sym, limit: u64) -> Result<u64, NoMemory>
        requires { MaySweep limit self.old }
        ensures ok { IfOk result (λ count. Sweeps dir s self.old count self.new × count ≤ limit) }
        ensures all { IfOk result (λ count. EndsSweep dir limit self.old count self.new) }
        ensures err { OnErr result (self.new ≡ self.old) }
    {
        match dir {
            Dir::L => self.sweep_left(s, limit),
            Dir::R => self.sweep_right(s, limit),
        }
    }

    fn sweep_left(&mut self, s: Sym, limit: u64) -> Result<u64, NoMemory>
        requires { MaySweep limit self.old }
        ensures ok { IfOk result (λ count. Sweeps L s self.old count self.new × count ≤ limit) }
        ensures all { IfOk result (λ count. EndsSweep L limit self.old count self.new) }
        ensures err { OnErr result (self.new ≡ self.old) }
    {
        let count = (alike(self.word, self.bit, Dir::L) as u64).min(limit) as u32;
        let word = with_symbols(self.word, self.bit, Dir::L, count, s);
        if count <= self.bit {
            self.bit -= count;
            self.word = word;
        } else {
            self.word = next_word(&mut self.left, &mut self.right, word)?;
            self.block -= 1;
            self.bit = LAST_BIT;
        }
        Ok(count as u64)
    }

    fn sweep_right(&mut self, s: Sym, limit: u64) -> Result<u64, NoMemory>
        requires { MaySweep limit self.old }
        ensures ok { IfOk result (λ count. Sweeps R s self.old count self.new × count ≤ limit) }
        ensures all { IfOk result (λ count. EndsSweep R limit self.old count self.new) }
        ensures err { OnErr result (self.new ≡ self.old) }
    {
        let count = (alike(self.word, self.bit, Dir::R) as u64).min(limit) as u32;
        let word = with_symbols(self.word, self.bit, Dir::R, count, s);
        if self.bit + count <= LAST_BIT {
            self.bit += count;
            self.word = word;
        } else {
            self.word = next_word(&mut self.right, &mut self.left, word)?;
            self.block += 1;
            self.bit = 0;
        }
        Ok(count as u64)
    }
}

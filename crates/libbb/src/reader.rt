// A ledger's text that is reported in pieces.
ghost use Rattle.std.specs.Prelude.{◌≡◌, ◌+◌, ◌++◌, ◌∷◌, ◌<◌, ◌≤◌, [], length, ◌⊎◌, ℕ, List, true, false};
ghost use Rattle.ledger.specs.Terms.{header_byte_limit, StandsAfter, IsSigma};
ghost use Rattle.law_turing.specs.Terms.{IsRado};
ghost use Rattle.text.specs.Terms.{HasNoNewline};
ghost use Rattle.libbb.specs.TreeAnswer.{Reports};
ghost use Rattle.libbb.specs.Pieces.{IsBehind, IsHeadedBy, HasCome};

use crate::tree_answer::{TreeAnswer, refused, report_text, tell};
use ledger::{LoadFault, Loader, peek_root};
use std::alloc::Global;
use std::marker::Model;
use text::first_line;

/// More bytes than a ledger's header has.
pub(crate) const MAX_HEADER_BYTES: usize = 64;

/// The first bytes of a text, as far as they have come: no more than show whether it has a header. It takes no memory.
#[derive(Drop)]
pub struct FirstBytes {
    buffer: [u8; MAX_HEADER_BYTES],
    len: usize,
}

impl Model for FirstBytes {
    ghost use Rattle.std.specs.Prelude.{ℕ, List, ◌≤◌, take};
    ghost use Rattle.ledger.specs.Terms.{header_byte_limit};

    ghost Value = { List ℕ };

    ghost view = { λ a. take a.len a.buffer };

    ghost invariant = { λ a. a.len ≤ header_byte_limit };
}

impl FirstBytes {
    /// None of them.
    pub fn new() -> FirstBytes
        ensures { result ≡ [] }
    {
        FirstBytes {
            buffer: [0; MAX_HEADER_BYTES],
            len: 0,
        }
    }

    /// Takes more bytes of the text, for which there must be room.
    pub fn add(&mut self, more: &[u8])
        requires { length self.old + length more.now ≤ header_byte_limit }
        ensures { self.new ≡ self.old ++ more.now }
    {
        for byte in more {
            self.push(*byte);
        }
    }

    /// All of them.
    pub fn bytes(&self) -> &[u8]
        ensures { result.now ≡ self.now }
    {
        &self.buffer[..self.len]
    }

    /// For how many more of them there is room.
    pub fn room(&self) -> usize
        ensures { result + length self.now ≡ header_byte_limit }
    {
        MAX_HEADER_BYTES - self.len
    }

    // Takes one more byte.
    fn push(&mut self, byte: u8)
        requires { length self.old < header_byte_limit }
        ensures { self.new ≡ self.old ++ byte ∷ [] }
    {
        self.buffer[self.len] = byte;
        self.len += 1;
    }
}

/// What a text has come to.
#[derive(Drop)]
pub enum Behind {
    /// There is a header, and the text is being loaded.
    Headed(Loader),
    /// There is no board of it, whatever follows.
    Ended(LoadFault),
}

impl Behind {
    /// Behind these first bytes, which are enough to show whether the text has a header.
    pub fn of(alloc: Global, first: &[u8]) -> Behind
        requires { (HasNoNewline first.now → ⊥) ⊎ (header_byte_limit ≤ length first.now) }
        ensures { IsBehind first.now result }
    {
        match peek_root(first) {
            Ok(Some(root)) => loaded(Loader::new(alloc, root), first),
            Ok(None) => Behind::Ended(LoadFault::BadHeader),
            Err(fault) => Behind::Ended(fault),
        }
    }

    /// Behind one more piece.
    pub fn fed(self, piece: &[u8]) -> Behind
        ensures { (text : List ℕ) → IsBehind text self → IsBehind (text ++ piece.now) result }
    {
        match self {
            Behind::Headed(loader) => loaded(loader, piece),
            Behind::Ended(fault) => Behind::Ended(fault),
        }
    }

    /// Reports the text, which ends here.
    pub fn report(self) -> TreeAnswer
        ensures reports { (text : List ℕ) → IsBehind text self → Reports text result }
        ensures rado { result.outcome ≡ 0 → result.is_whole ≡ 1 → result.has_best ≡ 1
            → IsRado result.states result.best }
        ensures sigma { result.outcome ≡ 0 → result.is_whole ≡ 1 → result.has_ones ≡ 1
            → IsSigma result.states result.ones }
    {
        match self {
            Behind::Headed(loader) => match loader.finish() {
                Ok((board, left)) => tell(&board, &left),
                Err(fault) => refused(fault),
            },
            Behind::Ended(fault) => refused(fault),
        }
    }
}

// Loads one more piece, with which the text has the header of the loader's root.
fn loaded(loader: Loader, piece: &[u8]) -> Behind
    ensures { (text : List ℕ) → StandsAfter loader text → IsHeadedBy loader.root (text ++ piece.now)
        → IsBehind (text ++ piece.now) result }
{
    let mut loader = loader;
    if piece.len() as u64 > u64::MAX - loader.bytes() {
        return Behind::Ended(LoadFault::NoMemory);
    }
    match loader.feed(piece) {
        Ok(()) => Behind::Headed(loader),
        Err(_) => Behind::Ended(LoadFault::NoMemory),
    }
}

/// A ledger's text, as far as it has come. What isn't finished of a line is kept, and the board; no other byte of it is.
#[derive(Drop)]
pub enum Reader {
    /// The first bytes, which don't show yet whether it has a header.
    Begun(FirstBytes),
    /// What it has come to behind them.
    Past(Behind),
}

// So many bytes of its caller's memory a reader has at most, aligned as words of eight are. `bb.h` gives the number to callers, and
// `stress/library.py` compares the two.
const READER_BYTES: usize = 1024;

const _: () = prove!(size_of::<Reader>() <= READER_BYTES);

const _: () = prove!(align_of::<Reader>() <= 8);

impl Reader {
    /// Before the first byte.
    pub fn new() -> Reader
        ensures { HasCome [] result }
    {
        Reader::Begun(FirstBytes::new())
    }

    /// Takes one more piece, wherever the text is cut.
    pub fn fed(self, alloc: Global, piece: &[u8]) -> Reader
        ensures { (text : List ℕ) → HasCome text self → HasCome (text ++ piece.now) result }
    {
        match self {
            Reader::Begun(first) => begun(alloc, first, piece),
            Reader::Past(behind) => Reader::Past(behind.fed(piece)),
        }
    }

    /// Reports the text, which ends here: what `report_text` says of it.
    pub fn report(self, alloc: Global) -> TreeAnswer
        ensures reports { (text : List ℕ) → HasCome text self → Reports text result }
        ensures rado { result.outcome ≡ 0 → result.is_whole ≡ 1 → result.has_best ≡ 1
            → IsRado result.states result.best }
        ensures sigma { result.outcome ≡ 0 → result.is_whole ≡ 1 → result.has_ones ≡ 1
            → IsSigma result.states result.ones }
    {
        match self {
            Reader::Begun(first) => report_text(alloc, first.bytes()),
            Reader::Past(behind) => behind.report(),
        }
    }
}

// Takes one more piece behind first bytes that have no newline.
fn begun(alloc: Global, first: FirstBytes, piece: &[u8]) -> Reader
    ensures { HasNoNewline first → HasCome (first ++ piece.now) result }
{
    let mut first = first;
    let (part, rest) = piece.split_at(piece.len().min(first.room()));
    first.add(part);
    if !is_enough(first.bytes()) {
        return Reader::Begun(first);
    }
    Reader::Past(Behind::of(alloc, first.bytes()).fed(rest))
}

// Whether first bytes show if the text has a header.
fn is_enough(first: &[u8]) -> bool
    ensures enough { result ≡ true → (HasNoNewline first.now → ⊥) ⊎ (header_byte_limit ≤ length first.now) }
    ensures short { result ≡ false → HasNoNewline first.now × (length first.now < header_byte_limit) }
{
    match first_line(first) {
        Some(_) => true,
        None => first.len() >= MAX_HEADER_BYTES,
    }
}

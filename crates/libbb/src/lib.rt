//! The judge as C functions, which other languages call: one judges a record, one a ledger, three a ledger whose text
//! comes in pieces. `packaging/c/bb.h` says to a caller what he gives and gets.
//!
//! What is said of a record and of a ledger is plain numbers, since a program in another language has no text to read
//! then: `specs/Answer` says which numbers come of a record's text, `specs/TreeAnswer` which come of a ledger's, and
//! `specs/Pieces` what a reader holds of the text that it was fed, which lies in the caller's memory.
//!
//! But for that, no function keeps anything between two calls, and none waits for another: threads may make them side
//! by side.
#![tactic(auto)]

mod answer;
mod reader;
mod tree_answer;

ghost use Rattle.std.specs.Prelude.{◌≡◌, ◌++◌, ℕ, List, [], Ok};
ghost use Rattle.std.specs.Borrow.{sem};
ghost use Rattle.machine_text.specs.Terms.{entry_of};
ghost use Rattle.law_turing.specs.Terms.{IsRado, Never, HaltsWith};
ghost use Rattle.cert.specs.Terms.{Recorded, record_of};
ghost use Rattle.ledger.specs.Terms.{IsSigma};
ghost use Rattle.libbb.specs.Answer.{TellsOfRead};
ghost use Rattle.libbb.specs.Pieces.{reader_at, reader_room};
ghost use Rattle.libbb.specs.TreeAnswer.{Reports};

use answer::{Answer, check_text};
use reader::Reader;
use std::alloc::Global;
use tree_answer::{TreeAnswer, report_text};

/// The number of this interface: it grows with each change of what is declared in `bb.h`.
#[unsafe(no_mangle)]
pub extern "C" fn bb_version() -> u32
    ensures { result ≡ 2 }
{
    2
}

/// Judges one record, a text without a newline.
#[unsafe(no_mangle)]
pub extern "C" fn bb_check(alloc: Global, text: &[u8], out: &mut Answer)
    ensures answers { TellsOfRead (record_of text.now) out.new }
    ensures halts { out.new.outcome ≡ 0 → (r : Recorded) × (record_of text.now ≡ Ok r)
        × HaltsWith (entry_of r.table) out.new.steps out.new.ones }
    ensures never { out.new.outcome ≡ 1 → (r : Recorded) × (record_of text.now ≡ Ok r) × Never (entry_of r.table) }
{
    *out = check_text(alloc, text);
}

/// Reports a whole ledger's text. Where it is complete and its root is the empty table of n states, its best is S(n) and
/// its ones are Σ(n).
#[unsafe(no_mangle)]
pub extern "C" fn bb_report(alloc: Global, text: &[u8], out: &mut TreeAnswer)
    ensures reports { Reports text.now out.new }
    ensures rado { out.new.outcome ≡ 0 → out.new.is_whole ≡ 1 → out.new.has_best ≡ 1
        → IsRado out.new.states out.new.best }
    ensures sigma { out.new.outcome ≡ 0 → out.new.is_whole ≡ 1 → out.new.has_ones ≡ 1
        → IsSigma out.new.states out.new.ones }
{
    *out = report_text(alloc, text);
}

/// Begins to report a ledger whose text comes in pieces: makes a reader in the caller's memory.
#[unsafe(no_mangle)]
pub unsafe extern "C" fn bb_report_begin(place: *mut u8)
    requires* { sem 𝓛 (reader_room place) }
    ensures* { sem 𝓛 (reader_at place []) }
{
    let reader = Reader::new();
    unsafe { (place as *mut Reader).write(reader) };
}

/// Feeds a reader one more piece of the text, wherever that is cut.
#[unsafe(no_mangle)]
pub unsafe extern "C" fn bb_report_feed(alloc: Global, place: *mut u8, piece: &[u8])
    ghost text: { List ℕ }
    requires* { sem 𝓛 (reader_at place text) }
    ensures* { sem 𝓛 (reader_at place (text ++ piece.now)) }
{
    let reader = unsafe { (place as *mut Reader).read() };
    let reader = reader.fed(alloc, piece);
    unsafe { (place as *mut Reader).write(reader) };
}

/// Reports the text that a reader was fed, as `bb_report` does, and ends the reader.
#[unsafe(no_mangle)]
pub unsafe extern "C" fn bb_report_end(alloc: Global, place: *mut u8) -> TreeAnswer
    ghost text: { List ℕ }
    requires* { sem 𝓛 (reader_at place text) }
    ensures { Reports text result
        × (result.outcome ≡ 0 → result.is_whole ≡ 1 → result.has_best ≡ 1 → IsRado result.states result.best)
        × (result.outcome ≡ 0 → result.is_whole ≡ 1 → result.has_ones ≡ 1 → IsSigma result.states result.ones) }
{
    let reader = unsafe { (place as *mut Reader).read() };
    reader.report(alloc)
}

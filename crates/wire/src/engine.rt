// What every link and every ledger promises, and the engine, which runs a node over them.
ghost use Rattle.std.specs.Prelude.{◌≡◌, ◌≢◌, ◌≤◌, ℕ, List, [], length, Ok, OnOk, OnErr, IfErr, IfSome};
ghost use Rattle.wire.specs.Fulfilled.{kept_text, IsPartlyKept, scene, preceded, EndsInStep, TakesPiece, Turned, devices};
ghost use Rattle.wire.specs.Limits.{piece_byte_limit};

use crate::handing::{Turn, TurnFault, hand_all, keep};
use crate::limits::MAX_PIECE_BYTES;
use crate::lines::Lines;
use crate::node::{Node, Out};
use std::error::Error;
use std::fmt;

/// A call of a link or of a ledger failed.
#[derive(Clone, Copy, Debug, PartialEq, Eq)]
pub struct Fault;

impl fmt::Display for Fault {
    ghost use Rattle.std.specs.Prelude.{Some, codes};

    ghost output = { λ _. Some (codes "the device failed") };

    fn fmt<W: fmt::Write>(&self, f: &mut fmt::Formatter<W>) -> fmt::Result {
        f.write_str("the device failed")
    }
}

impl Error for Fault {}

/// A stream of bytes in both directions.
pub trait Link {
    ghost use Rattle.std.specs.Prelude.{◌≡◌, ◌≢◌, ◌<◌, ◌≤◌, ℕ, List, [], Option, Some, Ok, IfOk, IfSome, OnErr, length, take};
    ghost use Rattle.wire.specs.Fulfilled.{grown, preceded, IsBegun, IsRefusal};

    /// What it has still to deliver, where that is known.
    ghost waiting: { Self → Option (List ℕ) };

    /// What it took to be sent, where that is known.
    ghost sent: { Self → Option (List ℕ) };

    /// A count of its failures, by which one is told.
    ghost failures: { Self → ℕ };

    /// Puts what came at the front of the buffer, and says how many bytes that is: none where the stream has
    /// ended. After a fault nothing is lost.
    fn receive(&mut self, buf: &mut [u8]) -> Result<usize, Fault>
        ensures came { IfOk result (λ n. (n ≤ length buf.new)
            × (waiting self.old ≡ preceded (take n buf.new) (waiting self.new))) }
        ensures end { result ≡ Ok 0 → 0 < length buf.new → IfSome (waiting self.new) (λ bytes. bytes ≡ []) }
        ensures sent { sent self.new ≡ sent self.old }
        ensures count { IfOk result (λ n. failures self.new ≡ failures self.old) }
        ensures err { OnErr result ((failures self.old ≢ failures self.new) × (waiting self.new ≡ waiting self.old)) };

    /// Takes bytes to be sent from the front of these, and says how many: some, where there are any, unless
    /// that counts as a failure.
    fn send(&mut self, bytes: &[u8]) -> Result<usize, Fault>
        ensures took { IfOk result (λ n. (n ≤ length bytes.now)
            × (sent self.new ≡ grown (sent self.old) (take n bytes.now))) }
        ensures count { IfOk result (λ n. (IsRefusal n bytes.now → failures self.old ≢ failures self.new)
            × ((IsRefusal n bytes.now → ⊥) → failures self.new ≡ failures self.old)) }
        ensures waiting { waiting self.new ≡ waiting self.old }
        ensures err { OnErr result ((failures self.old ≢ failures self.new)
            × IsBegun (sent self.old) bytes.now (sent self.new)) };
}

/// A text that is cut and appended to.
pub trait LedgerOut {
    ghost use Rattle.std.specs.Prelude.{◌≡◌, ◌≢◌, ◌⊎◌, ◌≤◌, ℕ, List, Option, IfOk, OnOk, OnErr, length, take};
    ghost use Rattle.wire.specs.Fulfilled.{grown, shortened, IsBegun, IsRefusal};

    /// What it holds, where that is known.
    ghost text: { Self → Option (List ℕ) };

    /// A count of its failures, by which one is told.
    ghost failures: { Self → ℕ };

    /// Keeps its first bytes, so many of them.
    fn cut(&mut self, len: u64) -> Result<(), Fault>
        ensures ok { OnOk result ((text self.new ≡ shortened len (text self.old))
            × (failures self.new ≡ failures self.old)) }
        ensures err { OnErr result ((failures self.old ≢ failures self.new)
            × ((text self.new ≡ text self.old) ⊎ (text self.new ≡ shortened len (text self.old)))) };

    /// Takes bytes at its end from the front of these, and says how many: some, where there are any, unless
    /// that counts as a failure.
    fn append(&mut self, bytes: &[u8]) -> Result<usize, Fault>
        ensures took { IfOk result (λ n. (n ≤ length bytes.now)
            × (text self.new ≡ grown (text self.old) (take n bytes.now))) }
        ensures count { IfOk result (λ n. (IsRefusal n bytes.now → failures self.old ≢ failures self.new)
            × ((IsRefusal n bytes.now → ⊥) → failures self.new ≡ failures self.old)) }
        ensures err { OnErr result ((failures self.old ≢ failures self.new)
            × IsBegun (text self.old) bytes.now (text self.new)) };
}

/// Carries out the ledger's part of an answer, and nothing else: its cut, and then what is to be appended,
/// whole. After `LedgerFault` at most the cut was made and a beginning of the rest, and the caller stops
/// the node.
pub fn begin<W: LedgerOut>(first: &Out, ledger: &mut W) -> Result<(), TurnFault>
    ensures ok { OnOk result (W.text ledger.new ≡ kept_text first.now (W.text ledger.old)) }
    ensures err { IfErr result (λ e. e ≡ TurnFault.LedgerFault) }
    ensures partly { OnErr result (IsPartlyKept first.now (W.text ledger.old) (W.text ledger.new)) }
    ensures count { OnErr result (W.failures ledger.old ≢ W.failures ledger.new) }
{
    match keep(first, ledger) {
        Ok(()) => Ok(()),
        Err(_) => Err(TurnFault::LedgerFault),
    }
}

/// Takes the next piece of a stream, and hands each line that then is whole to the node, in order, a line that is too long
/// as an empty frame. The answers are fulfilled together once all have come: first the ledger's part of all of them, whole
/// and in one, and only then their frames are sent. Nothing is received over the link. What a fault leaves is as after one of
/// `turn`.
pub fn hand_piece<N: Node, L: Link, W: LedgerOut>(
    node: &mut N,
    lines: &mut Lines,
    piece: &[u8],
    link: &mut L,
    ledger: &mut W,
) -> Result<(), TurnFault>
    ensures taken { TakesPiece N.answers N.is_stopped (scene node.old (W.text ledger.old) (L.sent link.old)) lines.old
        piece.now result lines.new (scene node.new (W.text ledger.new) (L.sent link.new)) }
    ensures ends { EndsInStep N.in_step result
        (devices node.old (W.text ledger.old) (L.failures link.old) (W.failures ledger.old))
        (devices node.new (W.text ledger.new) (L.failures link.new) (W.failures ledger.new)) }
    ensures waiting { L.waiting link.new ≡ L.waiting link.old }
{
    lines.feed(piece)?;
    hand_all(node, lines, link, ledger)
}

/// Receives once, at most `MAX_PIECE_BYTES` bytes, and hands each line that then is whole to the node, in
/// order, a line that is too long as an empty frame. The answers are fulfilled together once all have come: first
/// the ledger's part of all of them, whole and in one, and only then their frames are sent; an answer that cuts, or
/// for which memory is refused, at once, with those before it. `Turn::End` where no byte came.
///
/// After `LinkFault` the ledger's part of the last answers stands, whole, and a beginning of their frames may have
/// been sent. After `LedgerFault` no frame of the last answers was sent, a beginning of what they append stands at
/// most, and the node is stopped. After the node's own fault, or where memory was refused for the lines of the
/// piece, each answer was fulfilled whole. Lines that weren't handed over stay in `lines`, but for the piece for
/// which memory was refused.
pub fn turn<N: Node, L: Link, W: LedgerOut>(
    node: &mut N,
    lines: &mut Lines,
    link: &mut L,
    ledger: &mut W,
) -> Result<Turn, TurnFault>
    ensures turned { (piece : List ℕ) × (length piece ≤ piece_byte_limit)
        × (L.waiting link.old ≡ preceded piece (L.waiting link.new))
        × Turned N.answers N.is_stopped (scene node.old (W.text ledger.old) (L.sent link.old)) lines.old piece result
        lines.new (scene node.new (W.text ledger.new) (L.sent link.new)) }
    ensures ends { EndsInStep N.in_step result
        (devices node.old (W.text ledger.old) (L.failures link.old) (W.failures ledger.old))
        (devices node.new (W.text ledger.new) (L.failures link.new) (W.failures ledger.new)) }
    ensures end { result ≡ Ok Turn.End → IfSome (L.waiting link.new) (λ bytes. bytes ≡ []) }
{
    let mut piece = [0; MAX_PIECE_BYTES];
    let Ok(count) = link.receive(&mut piece) else {
        return Err(TurnFault::LinkFault);
    };
    hand_piece(node, lines, &piece[..count], link, ledger)?;
    if count == 0 {
        Ok(Turn::End)
    } else {
        Ok(Turn::More)
    }
}

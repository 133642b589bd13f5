// What delivers frames between the two ends of a worker's link, of which some may be lost.
ghost use Rattle.std.specs.Prelude.{◌≡◌, ◌++◌, List, ℕ, [], None, OnOk, ◌⊎◌, ◌≤◌, length, OnErr, IfErr, IfSome};
ghost use Rattle.std.specs.Io.{StartsWith};
ghost use Rattle.cmd_nodes.specs.Moving.{Delivers, counted_on, is_lost, left_of, StopsMoving, HasMoved, HasWritten, HasRead, IsPartlyRead, IsPartlyWritten, way};
ghost use Rattle.wire.specs.Terms.{piece_byte_limit};

use crate::links::{SocketPair, Sockets, connected};
use cmd_options::Ended;
use kind_evidence::NoMemory;
use std::io::{Read, Write};
use text::cut;
use wire::{MAX_PIECE_BYTES, MemLink};

// How many frames of a direction are counted: later ones aren't lost.
const COUNTED_FRAMES: u64 = 1_000;

/// Which frames of one direction of a link are lost: of the first 1,000 every so many-th, or none.
#[derive(Clone, Copy, Debug, PartialEq, Eq)]
pub struct Losses {
    every: Option<u64>,
    counted: u64,
}

impl Losses {
    /// Every so many-th frame is to be lost, or none.
    pub fn of(every: Option<u64>) -> Losses
        ensures every { result.every ≡ every }
        ensures counted { result.counted ≡ 0 }
    {
        Losses { every, counted: 0 }
    }

    // Counts one more frame, and answers whether it is lost.
    fn loses_next(&mut self) -> bool
        ensures every { self.new.every ≡ self.old.every }
        ensures counted { self.new.counted ≡ counted_on self.old.counted }
        ensures lost { result ≡ is_lost self.old.every self.old.counted }
    {
        let before = self.counted;
        if before >= COUNTED_FRAMES {
            return false;
        }
        self.counted = before + 1;
        match self.every {
            Some(every) => every > 0 && (before + 1) % every == 0,
            None => false,
        }
    }
}

/// Delivers to one end what was sent from the other, except for the frames that are lost.
pub fn deliver(from: &mut MemLink, to: &mut MemLink, losses: &mut Losses) -> Result<(), NoMemory>
    ensures every { losses.new.every ≡ losses.old.every }
    ensures frames { OnOk result ((delivered : List ℕ)
        × Delivers losses.old.every losses.old.counted from.old.sent delivered losses.new.counted
        × (to.new.waiting ≡ to.old.waiting ++ delivered)) }
    ensures whole { OnOk result (losses.old.every ≡ None → to.new.waiting ≡ to.old.waiting ++ from.old.sent) }
    ensures sent { OnOk result (from.new.sent ≡ []) }
{
    deliver_frames(from.sent(), to, losses)?;
    from.clear_sent();
    Ok(())
}

// Delivers frames, each with its newline, but for those that are lost, and what stands behind the last newline.
fn deliver_frames(sent: &[u8], to: &mut MemLink, losses: &mut Losses) -> Result<(), NoMemory>
    ensures every { losses.new.every ≡ losses.old.every }
    ensures frames { OnOk result ((delivered : List ℕ)
        × Delivers losses.old.every losses.old.counted sent.now delivered losses.new.counted
        × (to.new.waiting ≡ to.old.waiting ++ delivered)) }
{
    let mut left = sent;
    'frames: loop {
        let (frame, rest) = cut(left);
        let Some(rest) = rest else {
            return to.deliver(frame);
        };
        deliver_frame(frame, to, losses)?;
        left = rest;
    }
}

// Counts a frame, and delivers it with its newline where it isn't lost.
fn deliver_frame(frame: &[u8], to: &mut MemLink, losses: &mut Losses) -> Result<(), NoMemory>
    ensures every { losses.new.every ≡ losses.old.every }
    ensures counted { losses.new.counted ≡ counted_on losses.old.counted }
    ensures left { OnOk result (to.new.waiting ≡ to.old.waiting
        ++ left_of losses.old.every losses.old.counted frame.now) }
{
    if losses.loses_next() {
        return Ok(());
    }
    to.deliver(frame)?;
    to.deliver(b"\n")
}

/// Moves all that one end of a link has sent to the other end: so many bytes are written to a stream, at most
/// `MAX_PIECE_BYTES`, and as many are read at its other end and delivered, before more are written. So no write waits
/// for a read that comes later. A write or a read that moves nothing is a fault. After a fault the outbox is as it was.
pub fn move_all<W: Write, R: Read>(
    from: &mut MemLink,
    near: &mut W,
    far: &mut R,
    to: &mut MemLink,
) -> Result<(), Ended>
    ensures moved { OnOk result (HasMoved from.old.sent (way (W.contents near.old) (R.remaining far.old) to.old.waiting)
        (way (W.contents near.new) (R.remaining far.new) to.new.waiting)) }
    ensures whole { OnOk result (IfSome (R.remaining far.old)
        (λ ready. StartsWith ready from.old.sent → to.new.waiting ≡ to.old.waiting ++ from.old.sent)) }
    ensures broken { IfErr result (λ e. StopsMoving e from.old.sent
        (way (W.contents near.old) (R.remaining far.old) to.old.waiting)
        (way (W.contents near.new) (R.remaining far.new) to.new.waiting)) }
    ensures outbox { OnOk result (from.new ≡ record from.old { sent = [] }) }
    ensures left { OnErr result (from.new ≡ from.old) }
    ensures inbox { to.new ≡ record to.old { waiting = to.new.waiting } }
{
    move_pieces(from.sent(), near, far, to)?;
    from.clear_sent();
    Ok(())
}

// Moves bytes in as many pieces as that takes.
fn move_pieces<W: Write, R: Read>(
    sent: &[u8],
    near: &mut W,
    far: &mut R,
    to: &mut MemLink,
) -> Result<(), Ended>
    ensures moved { OnOk result (HasMoved sent.now (way (W.contents near.old) (R.remaining far.old) to.old.waiting)
        (way (W.contents near.new) (R.remaining far.new) to.new.waiting)) }
    ensures broken { IfErr result (λ e. StopsMoving e sent.now
        (way (W.contents near.old) (R.remaining far.old) to.old.waiting)
        (way (W.contents near.new) (R.remaining far.new) to.new.waiting)) }
    ensures inbox { to.new ≡ record to.old { waiting = to.new.waiting } }
{
    let mut left = sent;
    'pieces: while !left.is_empty() {
        let (piece, rest) = left.split_at(left.len().min(MAX_PIECE_BYTES));
        move_piece(piece, near, far, to)?;
        left = rest;
    }
    Ok(())
}

// Moves one piece.
fn move_piece<W: Write, R: Read>(
    piece: &[u8],
    near: &mut W,
    far: &mut R,
    to: &mut MemLink,
) -> Result<(), Ended>
    requires { length piece.now ≤ piece_byte_limit }
    ensures moved { OnOk result (HasMoved piece.now (way (W.contents near.old) (R.remaining far.old) to.old.waiting)
        (way (W.contents near.new) (R.remaining far.new) to.new.waiting)) }
    ensures broken { IfErr result (λ e. StopsMoving e piece.now
        (way (W.contents near.old) (R.remaining far.old) to.old.waiting)
        (way (W.contents near.new) (R.remaining far.new) to.new.waiting)) }
    ensures inbox { to.new ≡ record to.old { waiting = to.new.waiting } }
{
    write_piece(near, piece)?;
    read_piece(far, piece.len(), to)
}

// Writes all of a piece, in as many calls as that takes.
fn write_piece<W: Write>(near: &mut W, piece: &[u8]) -> Result<(), Ended>
    ensures ok { OnOk result (HasWritten piece.now (W.contents near.old) (W.contents near.new)) }
    ensures err { OnErr result (IsPartlyWritten piece.now (W.contents near.old) (W.contents near.new)) }
    ensures fault { IfErr result (λ e. e ≡ Ended.Stream) }
{
    let mut left = piece;
    'writes: while !left.is_empty() {
        let count = near.write(left)?;
        if count == 0 {
            return Err(Ended::Stream);
        }
        left = &left[count..];
    }
    near.flush()?;
    Ok(())
}

// Reads so many bytes, in as many calls as that takes, and delivers what each has read.
fn read_piece<R: Read>(far: &mut R, count: usize, to: &mut MemLink) -> Result<(), Ended>
    requires { count ≤ piece_byte_limit }
    ensures ok { OnOk result (HasRead count (R.remaining far.old) to.old.waiting (R.remaining far.new) to.new.waiting) }
    ensures err { IfErr result (λ e. IsPartlyRead e count (R.remaining far.old) to.old.waiting (R.remaining far.new)
        to.new.waiting) }
    ensures inbox { to.new ≡ record to.old { waiting = to.new.waiting } }
{
    let mut buf = [0; MAX_PIECE_BYTES];
    let mut left = count;
    'reads: while left > 0 {
        let came = far.read(&mut buf[..left])?;
        if came == 0 {
            return Err(Ended::Stream);
        }
        to.deliver(&buf[..came])?;
        left -= came;
    }
    Ok(())
}

// Both ends of a link keep what is sent, and what has come, in memory: this takes what is in the outbox of one to the
// inbox of the other.
pub(crate) trait Courier {
    ghost use Rattle.std.specs.Prelude.{◌≡◌, [], OnOk};

    // Nothing is left to be delivered twice.
    fn to_coordinator(
        &mut self,
        worker: &mut MemLink,
        coordinator: &mut MemLink,
    ) -> Result<(), Ended>
        ensures sent { OnOk result (worker.new.sent ≡ []) };

    fn to_worker(&mut self, coordinator: &mut MemLink, worker: &mut MemLink) -> Result<(), Ended>
        ensures sent { OnOk result (coordinator.new.sent ≡ []) };
}

// Where the courier of each worker comes from.
pub(crate) trait Couriers {
    type Base: Drop;

    type Courier: Courier + Drop;

    // What all of them have in common, which is there before the first.
    fn begin(&self) -> Result<Self::Base, Ended>;

    fn courier(&self, base: &Self::Base) -> Result<Self::Courier, Ended>;
}

// In memory: of the first 1,000 frames of each direction every so many-th is lost, or none.
#[derive(Drop)]
pub(crate) struct InMemory {
    pub lose: Option<u64>,
}

// What is lost of the frames of each direction of a link.
#[derive(Drop)]
pub(crate) struct BothLosses {
    to_coordinator: Losses,
    to_worker: Losses,
}

impl Couriers for InMemory {
    type Base = ();

    type Courier = BothLosses;

    fn begin(&self) -> Result<(), Ended> {
        Ok(())
    }

    fn courier(&self, _base: &()) -> Result<BothLosses, Ended> {
        Ok(BothLosses {
            to_coordinator: Losses::of(self.lose),
            to_worker: Losses::of(self.lose),
        })
    }
}

impl Courier for BothLosses {
    fn to_coordinator(
        &mut self,
        worker: &mut MemLink,
        coordinator: &mut MemLink,
    ) -> Result<(), Ended> {
        Ok(deliver(worker, coordinator, &mut self.to_coordinator)?)
    }

    fn to_worker(&mut self, coordinator: &mut MemLink, worker: &mut MemLink) -> Result<(), Ended> {
        Ok(deliver(coordinator, worker, &mut self.to_worker)?)
    }
}

// Over sockets: a connection for each worker, accepted before the next is made.
#[derive(Drop)]
pub(crate) struct OverSockets<'a, S> {
    pub sockets: &'a S,
}

impl<'a, S: Sockets> Couriers for OverSockets<'a, S> {
    type Base = S::Listener;

    type Courier = SocketPair<S::Stream>;

    fn begin(&self) -> Result<S::Listener, Ended> {
        Ok(self.sockets.listen()?)
    }

    fn courier(&self, base: &S::Listener) -> Result<SocketPair<S::Stream>, Ended> {
        connected(self.sockets, base)
    }
}

impl<S: Read + Write> Courier for SocketPair<S> {
    fn to_coordinator(
        &mut self,
        worker: &mut MemLink,
        coordinator: &mut MemLink,
    ) -> Result<(), Ended> {
        move_all(worker, &mut self.near, &mut self.far, coordinator)
    }

    fn to_worker(&mut self, coordinator: &mut MemLink, worker: &mut MemLink) -> Result<(), Ended> {
        move_all(coordinator, &mut self.far, &mut self.near, worker)
    }
}

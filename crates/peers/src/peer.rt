// A peer, its place, and what waits to be sent to it.
ghost use Rattle.std.specs.Prelude.{◌≡◌, ◌≤◌, [], drop, length, ◌≢◌, List, IfErr, None, OnOk, Some, IfOk};
ghost use Rattle.wire.specs.Terms.{BrokenOff, Handed, scene, Happening, EndsInStep, TakesPiece, devices};
ghost use Rattle.wire.specs.declared.handing.TurnFault.TheVariants.{LinkFault as Unlinked};
ghost use Rattle.peers.specs.Guard.{returned};
ghost use Rattle.peers.specs.Peers.{InStepWithin, StoppedWithin, Through, at_first, drained, dismissal_at, drained_at, due_at, failures_at, is_there, boxed_peer};
ghost use Rattle.peers.specs.Served.{scene_with, Hears};

use crate::guard::{Dismissal, Guard};
use crate::guarded::Guarded;
use std::alloc::Global;
use std::marker::Model;
use std::mem::size_of;
use wire::{Fault, LedgerOut, Lines, Link, NoMemory, Node, TurnFault, hand_piece};

/// The bytes that wait to be sent to a peer. Nothing is received over it: what comes is handed over in pieces. Each time
/// that memory is refused for more of them is counted as a failure.
#[derive(Drop)]
pub struct Outbox {
    bytes: Vec<u8>,
    // How many of them were written.
    written: usize,
    failures: u64,
}

impl Model for Outbox {
    ghost use Rattle.std.specs.Prelude.{◌≤◌, drop, length};
    ghost use Rattle.peers.specs.Peers.{Waits};

    ghost Value = { Waits };

    ghost view = { λ a. record { due = drop a.written a.bytes.items; failures = a.failures } };

    ghost invariant = { λ a. a.written ≤ length a.bytes.items };
}

impl Outbox {
    /// Nothing waits.
    pub fn new(alloc: Global) -> Outbox
        ensures { result ≡ record { due = []; failures = 0 } }
    {
        Outbox {
            bytes: Vec::new(alloc),
            written: 0,
            failures: 0,
        }
    }

    /// What waits.
    pub fn due(&self) -> &[u8]
        ensures { result.now ≡ self.now.due }
    {
        &self.bytes[self.written..]
    }

    /// The first of what waits was written.
    pub fn wrote(&mut self, count: usize)
        requires { count ≤ length self.old.due }
        ensures { self.new ≡ record self.old { due = drop count self.old.due } }
    {
        self.written += count;
        // What was written goes once it is the greater part, so that moving the rest costs no more than writing did.
        if self.written >= self.bytes.len() - self.written {
            drop_front(&mut self.bytes, self.written);
            self.written = 0;
        }
    }
}

// Takes out the first of some bytes.
fn drop_front(bytes: &mut Vec<u8>, count: usize)
    requires { count ≤ length bytes.old.items }
    ensures { bytes.new.items ≡ drop count bytes.old.items }
{
    let _ = bytes.drain(..count);
}

impl Link for Outbox {
    ghost use Rattle.std.specs.Prelude.{Some, []};

    ghost waiting = { λ o. Some [] };

    ghost sent = { λ o. Some o.due };

    ghost failures = { λ o. o.failures };

    fn receive(&mut self, _buf: &mut [u8]) -> Result<usize, Fault> {
        Ok(0)
    }

    fn send(&mut self, bytes: &[u8]) -> Result<usize, Fault> {
        if self.bytes.extend_from_slice(bytes).is_err() {
            self.failures = self.failures.wrapping_add(1);
            return Err(Fault);
        }
        Ok(bytes.len())
    }
}

/// A peer: the lines that come from it, its guard, and what waits to be sent to it.
#[derive(Drop)]
pub struct Peer {
    lines: Lines,
    guard: Guard,
    outbox: Outbox,
}

impl Model for Peer {
    ghost use Rattle.peers.specs.Peers.{PeerState};

    ghost Value = { PeerState };

    ghost view = { λ a. record {
      lines = a.lines;
      guard = a.guard;
      due = a.outbox.due;
      failures = a.outbox.failures;
    } };
}

impl Peer {
    /// Nothing has come, and nothing waits.
    pub fn new(alloc: Global) -> Peer
        ensures { result ≡ at_first }
    {
        Peer {
            lines: Lines::new(alloc),
            guard: Guard::new(alloc),
            outbox: Outbox::new(alloc),
        }
    }

    /// What waits to be sent to it.
    pub fn due(&self) -> &[u8]
        ensures { result.now ≡ self.now.due }
    {
        self.outbox.due()
    }

    /// The first of what waits was written to it.
    pub fn wrote(&mut self, count: usize)
        requires { count ≤ length self.old.due }
        ensures { self.new ≡ drained count self.old }
    {
        self.outbox.wrote(count);
    }

    /// Why it was let go; none where it wasn't.
    pub fn dismissal(&self) -> Option<Dismissal>
        ensures { result ≡ self.now.guard.dismissal }
    {
        self.guard.dismissal()
    }

    /// Takes a piece that came from it: the node is handed in order what the guard makes of its lines, and the answers are
    /// fulfilled together: the ledger's part of all first, and then what this peer is told waits to be sent to it. `LinkFault`
    /// where memory for that was refused.
    pub fn take<N: Node, W: LedgerOut>(
        &mut self,
        piece: &[u8],
        node: &mut Guarded<N>,
        ledger: &mut W,
    ) -> Result<(), TurnFault>
        ensures taken { TakesPiece (Through N.answers) (StoppedWithin N.is_stopped)
            (scene_with node.old (W.text ledger.old) self.old) self.old.lines piece.now result self.new.lines
            (scene_with node.new (W.text ledger.new) self.new) }
        ensures ends { EndsInStep (InStepWithin N.in_step) result
            (devices node.old (W.text ledger.old) self.old.failures (W.failures ledger.old))
            (devices node.new (W.text ledger.new) self.new.failures (W.failures ledger.new)) }
    {
        node.exchange_guard(&mut self.guard);
        let taken = hand_piece(node, &mut self.lines, piece, &mut self.outbox, ledger);
        node.exchange_guard(&mut self.guard);
        taken
    }

    // The peer leaves: a node is handed the frames that give its leases back.
    pub(crate) fn give_back<N: Node, W: LedgerOut>(
        &self,
        node: &mut N,
        ledger: &mut W,
    ) -> Result<(), TurnFault>
        ensures ok { OnOk result (Handed N.answers (scene node.old (W.text ledger.old) None)
            (returned self.now.guard.askers) [] (scene node.new (W.text ledger.new) None)) }
        ensures err { IfErr result (λ fault. (fault ≢ Unlinked) × ((left : List Happening)
            × BrokenOff N.answers N.is_stopped (scene node.old (W.text ledger.old) None)
            (returned self.now.guard.askers) fault left (scene node.new (W.text ledger.new) None))) }
        ensures ends { EndsInStep N.in_step result (devices node.old (W.text ledger.old) 0 (W.failures ledger.old))
            (devices node.new (W.text ledger.new) 0 (W.failures ledger.new)) }
    {
        self.guard.give_back_all(node, ledger)
    }
}

// A place, with its peer as long as that is there.
//
// No place is used twice, so what one takes once its peer is gone is taken for good.
#[derive(Drop)]
pub(crate) struct Slot {
    peer: Option<Box<Peer>>,
}

const _: () = prove!(size_of::<Slot>() == 16);

impl Model for Slot {
    ghost use Rattle.std.specs.Prelude.{Option};
    ghost use Rattle.peers.specs.Peers.{PeerState, boxed_peer};

    ghost Value = { Option PeerState };

    ghost view = { λ a. boxed_peer a.peer };
}

impl Slot {
    // The place of a peer that comes.
    pub fn new(alloc: Global) -> Result<Slot, NoMemory>
        ensures { IfOk result (λ slot. slot ≡ Some at_first) }
    {
        let peer = Box::new(alloc, Peer::new(alloc))?;
        Ok(Slot { peer: Some(peer) })
    }

    // Whether its peer is there.
    pub fn is_there(&self) -> bool
        ensures { result ≡ is_there self.now }
    {
        self.peer.is_some()
    }

    // The peer here is gone; it is answered, if there was one.
    pub fn leave(&mut self) -> Option<Box<Peer>>
        ensures left { self.new ≡ None }
        ensures gone { boxed_peer result ≡ self.old }
    {
        self.peer.take()
    }

    // Why its peer was let go; none where it wasn't, or is gone.
    pub fn dismissal(&self) -> Option<Dismissal>
        ensures { result ≡ dismissal_at self.now }
    {
        match &self.peer {
            Some(peer) => peer.dismissal(),
            None => None,
        }
    }

    // Takes a piece that came from its peer.
    pub fn take<N: Node, W: LedgerOut>(
        &mut self,
        piece: &[u8],
        node: &mut Guarded<N>,
        ledger: &mut W,
    ) -> Result<(), TurnFault>
        ensures heard { Hears N.answers N.is_stopped node.old (W.text ledger.old) self.old piece.now result node.new
            (W.text ledger.new) self.new }
        ensures ends { EndsInStep (InStepWithin N.in_step) result
            (devices node.old (W.text ledger.old) (failures_at self.old) (W.failures ledger.old))
            (devices node.new (W.text ledger.new) (failures_at self.new) (W.failures ledger.new)) }
    {
        match &mut self.peer {
            Some(peer) => peer.take(piece, node, ledger),
            None => Ok(()),
        }
    }

    // What waits to be sent to its peer.
    pub fn due(&self) -> &[u8]
        ensures { result.now ≡ due_at self.now }
    {
        match &self.peer {
            Some(peer) => peer.due(),
            None => &[],
        }
    }

    // The first of what waits was written to its peer.
    pub fn wrote(&mut self, count: usize)
        requires { count ≤ length (due_at self.old) }
        ensures { self.new ≡ drained_at count self.old }
    {
        if let Some(peer) = &mut self.peer {
            peer.wrote(count);
        }
    }
}

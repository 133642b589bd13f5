// Peers, each at a place of its own.
ghost use Rattle.std.specs.Prelude.{◌≡◌, ◌≢◌, ◌≤◌, ◌↔◌, ◌++◌, ◌∷◌, List, [], None, Some, IfErr, IsTrue, OnOk, OnErr, length, set};
ghost use Rattle.wire.specs.Terms.{BrokenOff, Handed, scene, Happening, EndsInStep, devices};
ghost use Rattle.wire.specs.declared.handing.TurnFault.TheVariants.{LinkFault as Unlinked};
ghost use Rattle.peers.specs.Peers.{InStepWithin, KeepsOthers, at_first, dismissal_at, due_at, failures_at, peer_at, peer_count, drained_at, boxed_peer};
ghost use Rattle.peers.specs.Served.{Hears, OnlyNode, returned_at};

use crate::guard::Dismissal;
use crate::guarded::Guarded;
use crate::peer::{Peer, Slot};
use std::alloc::Global;
use std::marker::Model;
use wire::{LedgerOut, NoMemory, Node, TurnFault};

/// Peers, each at a place that no later one gets.
#[derive(Drop)]
pub struct Peers {
    alloc: Global,
    places: Vec<Slot>,
    // How many places have a peer.
    present: usize,
}

impl Model for Peers {
    ghost use Rattle.std.specs.Prelude.{◌≡◌, List, Option};
    ghost use Rattle.peers.specs.Peers.{PeerState, peer_count};

    ghost Value = { List (Option PeerState) };

    ghost view = { λ a. a.places.items };

    ghost invariant = { λ a. a.present ≡ peer_count a.places.items };
}

impl Peers {
    /// No peer has come.
    pub fn new(alloc: Global) -> Peers
        ensures { result ≡ [] }
    {
        Peers {
            alloc,
            places: Vec::new(alloc),
            present: 0,
        }
    }

    /// How many peers are there.
    pub fn count(&self) -> usize
        ensures { result ≡ peer_count self.now }
    {
        self.present
    }

    /// Whether no peer is there.
    pub fn is_empty(&self) -> bool
        ensures { IsTrue result ↔ (peer_count self.now ≡ 0) }
    {
        self.present == 0
    }

    /// A peer comes: it has the next place. Where memory is refused, nothing changes.
    pub fn open(&mut self) -> Result<(), NoMemory>
        ensures ok { OnOk result (self.new ≡ self.old ++ (Some at_first ∷ [])) }
        ensures err { OnErr result (self.new ≡ self.old) }
    {
        let slot = Slot::new(self.alloc)?;
        self.places.push(slot)?;
        self.present += 1;
        Ok(())
    }

    /// The peer at a place leaves: what it began and hasn't ended is no line, and what waits for it isn't sent. The node is
    /// handed the frames that give its leases back, what the ledger gains by them is kept, and nobody is sent what the node
    /// answers. Where the node doesn't answer, or the ledger fails, the peer is gone all the same.
    pub fn leave<N: Node, W: LedgerOut>(
        &mut self,
        place: usize,
        node: &mut Guarded<N>,
        ledger: &mut W,
    ) -> Result<(), TurnFault>
        ensures ok { OnOk result (Handed N.answers (scene node.old.node (W.text ledger.old) None)
            (returned_at (peer_at self.old place)) [] (scene node.new.node (W.text ledger.new) None)) }
        ensures err { IfErr result (λ fault. (fault ≢ Unlinked) × ((left : List Happening)
            × BrokenOff N.answers N.is_stopped (scene node.old.node (W.text ledger.old) None)
            (returned_at (peer_at self.old place)) fault left (scene node.new.node (W.text ledger.new) None))) }
        ensures left { self.new ≡ set self.old place None }
        ensures only { OnlyNode node.old node.new }
        ensures ends { EndsInStep N.in_step result
            (devices node.old.node (W.text ledger.old) 0 (W.failures ledger.old))
            (devices node.new.node (W.text ledger.new) 0 (W.failures ledger.new)) }
    {
        match self.take_out(place) {
            Some(peer) => peer.give_back(&mut node.node, ledger),
            None => Ok(()),
        }
    }

    // Takes out the peer at a place.
    fn take_out(&mut self, place: usize) -> Option<Box<Peer>>
        ensures left { self.new ≡ set self.old place None }
        ensures gone { boxed_peer result ≡ peer_at self.old place }
    {
        if place >= self.places.len() {
            return None;
        }
        if self.places[place].is_there() {
            self.present -= 1;
        }
        self.places[place].leave()
    }

    /// Why the peer at a place was let go; none where it wasn't, or is gone.
    pub fn dismissal(&self, place: usize) -> Option<Dismissal>
        ensures { result ≡ dismissal_at (peer_at self.now place) }
    {
        if place < self.places.len() {
            return self.places[place].dismissal();
        }
        None
    }

    /// Takes a piece that came from the peer at a place, as `Peer::take`. Nothing else of what waits to be sent to any
    /// peer changes; where the peer is gone, nothing at all does.
    pub fn take<N: Node, W: LedgerOut>(
        &mut self,
        place: usize,
        piece: &[u8],
        node: &mut Guarded<N>,
        ledger: &mut W,
    ) -> Result<(), TurnFault>
        ensures heard { Hears N.answers N.is_stopped node.old (W.text ledger.old) (peer_at self.old place) piece.now
            result node.new (W.text ledger.new) (peer_at self.new place) }
        ensures others { KeepsOthers place self.old self.new }
        ensures ends { EndsInStep (InStepWithin N.in_step) result
            (devices node.old (W.text ledger.old) (failures_at (peer_at self.old place)) (W.failures ledger.old))
            (devices node.new (W.text ledger.new) (failures_at (peer_at self.new place)) (W.failures ledger.new)) }
    {
        if place < self.places.len() {
            return self.places[place].take(piece, node, ledger);
        }
        Ok(())
    }

    /// What waits to be sent to the peer at a place; nothing where that is gone.
    pub fn due(&self, place: usize) -> &[u8]
        ensures { result.now ≡ due_at (peer_at self.now place) }
    {
        if place < self.places.len() {
            return self.places[place].due();
        }
        &[]
    }

    /// The first of what waits was written to the peer at a place.
    pub fn wrote(&mut self, place: usize, count: usize)
        requires { count ≤ length (due_at (peer_at self.old place)) }
        ensures { self.new ≡ set self.old place (drained_at count (peer_at self.old place)) }
    {
        if place < self.places.len() {
            self.places[place].wrote(count);
        }
    }
}

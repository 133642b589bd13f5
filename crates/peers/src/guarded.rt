// A node behind the guards of its peers.
ghost use Rattle.std.specs.Prelude.{◌≡◌, ◌≢◌, Ok, OnOk, IfErr, None};
ghost use Rattle.peers.specs.Peers.{unheard};
ghost use Rattle.wire.specs.Terms.{Faulted, kept_text, scene, seen, EndsInStep, devices};
ghost use Rattle.wire.specs.declared.node.Out.{Out as Answer};
ghost use Rattle.wire.specs.declared.handing.TurnFault.TheVariants.{LinkFault as Unlinked};

use crate::guard::Guard;
use std::alloc::Global;
use std::mem;
use wire::{Event, Fault, LedgerOut, Link, Node, NodeFault, Out, TurnFault, fulfil};

/// What a coordinator takes from its peers.
#[derive(Clone, Copy, Debug, PartialEq, Eq)]
pub struct Conduct {
    /// Whether it takes records of holdouts. Where it doesn't, who sends one is let go.
    pub takes_holdouts: bool,
}

/// A node behind the guards of its peers: it is handed what the guard of the peer that is heard makes of each line.
#[derive(Drop)]
pub struct Guarded<N> {
    pub(crate) node: N,
    // The guard of the peer that is heard.
    guard: Guard,
    // The moment that it was told last.
    moment: u64,
    conduct: Conduct,
}

impl<N> Guarded<N> {
    /// A node that hears nobody yet.
    pub fn new(alloc: Global, node: N, conduct: Conduct) -> Guarded<N>
        ensures { result ≡ unheard conduct node }
    {
        Guarded {
            node,
            guard: Guard::new(alloc),
            moment: 0,
            conduct,
        }
    }

    /// The node.
    pub fn node(&self) -> &N
        ensures { result.now ≡ self.now.node }
    {
        &self.node
    }

    /// The moment that it was told last, in seconds; 0 at first.
    pub fn moment(&self) -> u64
        ensures { result ≡ self.now.moment }
    {
        self.moment
    }

    // The moment is now this one.
    pub(crate) fn tell_moment(&mut self, moment: u64)
        ensures { self.new ≡ record self.old { moment = moment } }
    {
        self.moment = moment;
    }

    // Hears another peer: its guard is exchanged for that one's.
    pub(crate) fn exchange_guard(&mut self, guard: &mut Guard)
        ensures node { self.new ≡ record self.old { guard = guard.old } }
        ensures guard { guard.new ≡ self.old.guard }
    {
        mem::swap(&mut self.guard, guard);
    }
}

impl<N: Node> Node for Guarded<N> {
    ghost use Rattle.peers.specs.Peers.{InStepWithin, KeepsThrough, StoppedWithin, Through};

    ghost is_stopped = { StoppedWithin N.is_stopped };

    ghost in_step = { InStepWithin N.in_step };

    ghost answers = { Through N.answers };

    ghost keeps_final = { KeepsThrough N.keeps_final };

    fn on(&mut self, e: Event<'_>) -> Result<Out, NodeFault> {
        match e {
            Event::Frame(line) => {
                let passage = self
                    .guard
                    .passage(self.conduct.takes_holdouts, self.moment, line);
                let handed = self.guard.handed_line(line, passage);
                let mut out = self.node.on(Event::Frame(handed))?;
                self.guard.tell(self.moment, line, passage, &mut out);
                Ok(out)
            }
            Event::Tick(moment) => {
                let out = self.node.on(Event::Tick(moment))?;
                self.moment = moment;
                Ok(out)
            }
            Event::Work => self.node.on(Event::Work),
        }
    }

    fn stop(&mut self) {
        self.node.stop();
    }
}

// A link over which nothing comes, and what is sent reaches nobody.
#[derive(Drop)]
struct Nobody;

impl Link for Nobody {
    ghost use Rattle.std.specs.Prelude.{None};

    ghost waiting = { λ nobody. None };

    ghost sent = { λ nobody. None };

    ghost failures = { λ nobody. 0 };

    fn receive(&mut self, _buf: &mut [u8]) -> Result<usize, Fault> {
        Ok(0)
    }

    fn send(&mut self, bytes: &[u8]) -> Result<usize, Fault> {
        Ok(bytes.len())
    }
}

// Hands a node what nobody asked: the ledger's part of its answer is kept, and its frames are sent to nobody.
pub(crate) fn hand_alone<N: Node, W: LedgerOut>(
    node: &mut N,
    ledger: &mut W,
    event: Event<'_>,
) -> Result<(), TurnFault>
    ensures ok { OnOk result ((out : Answer) × N.answers node.old (seen event.entry) (Ok out) node.new
        × (W.text ledger.new ≡ kept_text out (W.text ledger.old))) }
    ensures same { OnOk result (W.failures ledger.new ≡ W.failures ledger.old) }
    ensures err { IfErr result (λ fault. (fault ≢ Unlinked) × Faulted N.answers N.is_stopped
        (scene node.old (W.text ledger.old) None) (seen event.entry) fault (scene node.new (W.text ledger.new) None)) }
    ensures ends { EndsInStep N.in_step result (devices node.old (W.text ledger.old) 0 (W.failures ledger.old))
        (devices node.new (W.text ledger.new) 0 (W.failures ledger.new)) }
{
    let out = node.on(event)?;
    fulfil(node, &mut Nobody, ledger, &out)
}

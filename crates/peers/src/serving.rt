// What comes from outside, what all connections promise, and what is sent to peers.
ghost use Rattle.std.specs.Prelude.{◌≡◌, ◌≢◌, ◌∷◌, ℕ, List, [], Option, Some, None, Ok, Err, OnOk, IfOk, OnErr, IfErr, IfSome, length};
ghost use Rattle.wire.specs.Terms.{Faulted, kept_text, scene, Ticked, EndsInStep, devices};
ghost use Rattle.wire.specs.declared.node.Out.{Out as Answer};
ghost use Rattle.wire.specs.declared.handing.TurnFault.TheVariants.{LinkFault as Unlinked};
ghost use Rattle.peers.specs.Served.{Incoming, TakesAsBefore, noted, CountsFailure, Exchange, Fails, TakesArrival, asker, let_go, let_go_by, noted_if, served};
ghost use Rattle.peers.specs.Sent.{Sends, SendsTo, ServesOne};

use crate::guard::Dismissal;
use crate::guarded::{Guarded, hand_alone};
use crate::peers::Peers;
use wire::{Event, Fault, LedgerOut, Node, TurnFault};

/// What comes next from outside.
#[derive(Clone, Copy, Debug, PartialEq, Eq)]
pub enum Arrival {
    /// A peer came: it has the next place.
    Opened,
    /// Bytes came from the peer at this place: so many of them stand at the front of the buffer.
    Came { place: usize, count: usize },
    /// The peer at this place is gone.
    Gone { place: usize },
    /// Time has passed: the moment is now this one, in seconds.
    Passed(u64),
    /// The peer at this place takes bytes again.
    Room { place: usize },
}

/// Peers that come and go, and what passes between them and a coordinator. Places are counted from 0 and given to peers
/// in the order in which they come; none is given twice.
///
/// Of a peer that took less than it was sent no bytes come until a later `send` has taken all, so that what waits for it is
/// bounded by what one piece can bring: what keeps this promise is the implementation, which reads no more from that peer
/// until then, and says by `Arrival::Room` that it takes bytes again.
pub trait Connections {
    ghost use Rattle.std.specs.Prelude.{◌≡◌, ◌≢◌, ◌≤◌, ◌∷◌, ℕ, List, [], Option, Some, IfOk, OnErr, length, take};
    ghost use Rattle.wire.specs.Terms.{grown};
    ghost use Rattle.peers.specs.Served.{Incoming, FitsIn, TakesAsBefore, incoming, noted};
    ghost use Rattle.peers.specs.declared.guard.Dismissed.{Dismissed};

    /// What has come so far, in its order, where that is known.
    ghost arrived: { Self → Option (List Incoming) };

    /// What the peer at a place has been sent so far, where that is known.
    ghost sent: { Self → ℕ → Option (List ℕ) };

    /// How many of these bytes the peer at a place takes at once, as far as that is known.
    ghost takes: { Self → ℕ → List ℕ → ℕ → Type 0 };

    /// A count of its failures, by which one is told.
    ghost failures: { Self → ℕ };

    /// The peer that was to be let go last, and why.
    ghost dismissed: { Self → Option Dismissed };

    /// What comes next. After a fault nothing is lost. That it waits for no peer, and says what time it is where nothing comes for a
    /// while, an implementation sees to: no contract speaks of time.
    fn next_arrival(&mut self, buf: &mut [u8]) -> Result<Arrival, Fault>
        ensures came { IfOk result (λ arrival. FitsIn (length buf.new) arrival
            × (arrived self.new ≡ noted (arrived self.old) (incoming arrival buf.new ∷ []))) }
        ensures sent { (place : ℕ) → sent self.new place ≡ sent self.old place }
        ensures takes { TakesAsBefore (takes self.old) (takes self.new) }
        ensures dismissed { dismissed self.new ≡ dismissed self.old }
        ensures count { IfOk result (λ arrival. failures self.new ≡ failures self.old) }
        ensures err { OnErr result ((failures self.old ≢ failures self.new)
            × (arrived self.new ≡ arrived self.old)) };

    /// Sends bytes to the peer at a place, from the front of these, and says how many: as many as it takes at once, and
    /// none where that peer is gone.
    fn send(&mut self, place: usize, bytes: &[u8]) -> usize
        ensures took { (result ≤ length bytes.now) × takes self.old place bytes.now result
            × (sent self.new place ≡ grown (sent self.old place) (take result bytes.now)) }
        ensures others { (other : ℕ) → other ≢ place → sent self.new other ≡ sent self.old other }
        ensures takes { TakesAsBefore (takes self.old) (takes self.new) }
        ensures arrived { arrived self.new ≡ arrived self.old }
        ensures dismissed { dismissed self.new ≡ dismissed self.old }
        ensures count { failures self.new ≡ failures self.old };

    /// Lets the peer at a place go. That it is gone comes as of any other; when, no contract says.
    fn dismiss(&mut self, place: usize, why: Dismissal)
        ensures dismissed { dismissed self.new ≡ Some (record { place = place; why = why }) }
        ensures sent { (other : ℕ) → sent self.new other ≡ sent self.old other }
        ensures takes { TakesAsBefore (takes self.old) (takes self.new) }
        ensures arrived { arrived self.new ≡ arrived self.old }
        ensures count { failures self.new ≡ failures self.old };
}

/// Takes what comes next: a piece is cut into lines, which the node is handed in their order, and its answers wait for
/// the peer that asked. Nothing is sent. Answers the place of the peer to which there may be something to send.
///
/// `LinkFault` where the connections failed, and nothing came, or where memory was refused for answers. `NoMemory` where it
/// was refused for a new peer, or for the lines of a piece, which are lost. `LedgerFault` where the ledger failed: no frame
/// of the answers to that piece waits, and the node is stopped. `Node` where the node didn't answer.
pub fn take_arrival<C: Connections, N: Node, W: LedgerOut>(
    connections: &mut C,
    buf: &mut [u8],
    peers: &mut Peers,
    node: &mut Guarded<N>,
    ledger: &mut W,
) -> Result<Option<usize>, TurnFault>
    ensures ok { IfOk result (λ place. (exchange : Exchange)
        × (C.arrived connections.new ≡ noted (C.arrived connections.old) (exchange.came ∷ []))
        × TakesArrival N.answers (served node.old (W.text ledger.old) peers.old) exchange.came exchange.replies
        exchange.handed (served node.new (W.text ledger.new) peers.new) × (place ≡ asker exchange.came)
        × (C.dismissed connections.new ≡ let_go_by exchange.came peers.old peers.new (C.dismissed connections.old))) }
    ensures err { IfErr result (λ fault. (came : Option Incoming)
        × (C.arrived connections.new ≡ noted_if (C.arrived connections.old) came)
        × Fails N.answers N.is_stopped (served node.old (W.text ledger.old) peers.old) came fault
        (served node.new (W.text ledger.new) peers.new)) }
    ensures kept { OnErr result (C.dismissed connections.new ≡ C.dismissed connections.old) }
    ensures sent { (place : ℕ) → C.sent connections.new place ≡ C.sent connections.old place }
    ensures takes { TakesAsBefore (C.takes connections.old) (C.takes connections.new) }
    ensures step { result ≢ Err TurnFault.LedgerFault → IfSome (W.text ledger.old) (N.in_step node.old.node)
        → IfSome (W.text ledger.new) (N.in_step node.new.node) }
    ensures ledger { result ≡ Err TurnFault.LedgerFault → W.failures ledger.old ≢ W.failures ledger.new }
    ensures link { result ≡ Err TurnFault.LinkFault
        → CountsFailure (C.failures connections.old) (C.failures connections.new) peers.old peers.new }
{
    let Ok(arrival) = connections.next_arrival(buf) else {
        return Err(TurnFault::LinkFault);
    };
    match arrival {
        Arrival::Opened => {
            peers.open()?;
            Ok(None)
        }
        Arrival::Came { place, count } => {
            let was = peers.dismissal(place);
            peers.take(place, &buf[..count], node, ledger)?;
            let_go(connections, place, was, peers.dismissal(place));
            Ok(Some(place))
        }
        Arrival::Gone { place } => {
            peers.leave(place, node, ledger)?;
            Ok(None)
        }
        Arrival::Passed(moment) => {
            tick(node, ledger, moment)?;
            Ok(None)
        }
        Arrival::Room { place } => Ok(Some(place)),
    }
}

// Who wasn't dismissed before is let go where it is now.
fn let_go<C: Connections>(
    connections: &mut C,
    place: usize,
    was: Option<Dismissal>,
    now: Option<Dismissal>,
)
    ensures dismissed { C.dismissed connections.new ≡ let_go place was now (C.dismissed connections.old) }
    ensures sent { (other : ℕ) → C.sent connections.new other ≡ C.sent connections.old other }
    ensures takes { TakesAsBefore (C.takes connections.old) (C.takes connections.new) }
    ensures arrived { C.arrived connections.new ≡ C.arrived connections.old }
    ensures count { C.failures connections.new ≡ C.failures connections.old }
{
    if was.is_none()
        && let Some(why) = now
    {
        connections.dismiss(place, why);
    }
}

// Time has passed. What a node would send then, nobody asked for.
fn tick<N: Node, W: LedgerOut>(
    node: &mut Guarded<N>,
    ledger: &mut W,
    moment: u64,
) -> Result<(), TurnFault>
    ensures ok { OnOk result ((out : Answer) × N.answers node.old.node (Ticked moment) (Ok out) node.new.node
        × (node.new ≡ record node.old { node = node.new.node; moment = moment })
        × (W.text ledger.new ≡ kept_text out (W.text ledger.old))) }
    ensures err { IfErr result (λ fault. (fault ≢ Unlinked) × Faulted N.answers N.is_stopped
        (scene node.old.node (W.text ledger.old) None) (Ticked moment) fault
        (scene node.new.node (W.text ledger.new) None)) }
    ensures ends { EndsInStep N.in_step result (devices node.old.node (W.text ledger.old) 0 (W.failures ledger.old))
        (devices node.new.node (W.text ledger.new) 0 (W.failures ledger.new)) }
{
    hand_alone(&mut node.node, ledger, Event::Tick(moment))?;
    node.tell_moment(moment);
    Ok(())
}

/// Sends a peer as much of what waits for it as it takes now; that waits no more.
pub fn flush<C: Connections>(connections: &mut C, peers: &mut Peers, place: usize)
    ensures sent { Sends (C.takes connections.old) place peers.old peers.new (C.sent connections.old place)
        (C.sent connections.new place) }
    ensures others { (other : ℕ) → other ≢ place → C.sent connections.new other ≡ C.sent connections.old other }
    ensures takes { TakesAsBefore (C.takes connections.old) (C.takes connections.new) }
    ensures arrived { C.arrived connections.new ≡ C.arrived connections.old }
    ensures count { C.failures connections.new ≡ C.failures connections.old }
{
    let count = connections.send(place, peers.due(place));
    peers.wrote(place, count);
}

/// Takes what comes next, as `take_arrival`, and sends the peer that asked as much of its answers as it takes. What a node
/// would send as time passes is sent to nobody, and after a fault nothing is sent.
pub fn serve<C: Connections, N: Node, W: LedgerOut>(
    connections: &mut C,
    buf: &mut [u8],
    peers: &mut Peers,
    node: &mut Guarded<N>,
    ledger: &mut W,
) -> Result<(), TurnFault>
    ensures ok { OnOk result ((exchange : Exchange)
        × (C.arrived connections.new ≡ noted (C.arrived connections.old) (exchange.came ∷ []))
        × ServesOne N.answers (C.takes connections.old) (served node.old (W.text ledger.old) peers.old) exchange
        (served node.new (W.text ledger.new) peers.new) (C.sent connections.old) (C.sent connections.new)) }
    ensures err { IfErr result (λ fault. (came : Option Incoming)
        × (C.arrived connections.new ≡ noted_if (C.arrived connections.old) came)
        × Fails N.answers N.is_stopped (served node.old (W.text ledger.old) peers.old) came fault
        (served node.new (W.text ledger.new) peers.new)) }
    ensures unsent { OnErr result ((place : ℕ) → C.sent connections.new place ≡ C.sent connections.old place) }
    ensures takes { TakesAsBefore (C.takes connections.old) (C.takes connections.new) }
    ensures step { result ≢ Err TurnFault.LedgerFault → IfSome (W.text ledger.old) (N.in_step node.old.node)
        → IfSome (W.text ledger.new) (N.in_step node.new.node) }
{
    let asker = take_arrival(connections, buf, peers, node, ledger)?;
    answer_asker(connections, peers, asker);
    Ok(())
}

// Sends the peer that asked what it takes.
fn answer_asker<C: Connections>(connections: &mut C, peers: &mut Peers, asker: Option<usize>)
    ensures sent { SendsTo (C.takes connections.old) asker peers.old peers.new (C.sent connections.old)
        (C.sent connections.new) }
    ensures takes { TakesAsBefore (C.takes connections.old) (C.takes connections.new) }
    ensures arrived { C.arrived connections.new ≡ C.arrived connections.old }
{
    if let Some(place) = asker {
        flush(connections, peers, place);
    }
}

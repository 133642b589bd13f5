// Handing lines to a node, fulfilling what it answers, and how a turn ends.
ghost use Rattle.std.specs.Prelude.{◌≡◌, ◌≢◌, ◌⊎◌, ◌<◌, ◌≤◌, List, ℕ, OnOk, OnErr, IfErr, Some, IfSome, ◌∷◌, ◌++◌, [], None, false, true, length, Err};
ghost use Rattle.wire.specs.Fulfilled.{grown, IsBegun, cut_to, kept_text, IsPartlyKept, BrokenTogether, Handed, Scene, scene, Happening, known, EndsInStep, IsBroken, devices, event_of, events_of, frame_of};
ghost use Rattle.wire.specs.inside.{HasGathered, TakesAnswer, text_gathered};

use crate::engine::{Fault, LedgerOut, Link};
use crate::lines::{Line, Lines};
use crate::node::{Event, Node, NodeFault, Out};
use kind_evidence::NoMemory;
use std::error::Error;
use std::fmt;

/// Appends all of the bytes to a ledger, in as many calls as that takes; a call that takes none is a fault.
pub fn append_all<W: LedgerOut>(ledger: &mut W, bytes: &[u8]) -> Result<(), Fault>
    ensures ok { OnOk result ((W.text ledger.new ≡ grown (W.text ledger.old) bytes.now)
        × (W.failures ledger.new ≡ W.failures ledger.old)) }
    ensures err { OnErr result ((W.failures ledger.old ≢ W.failures ledger.new)
        × IsBegun (W.text ledger.old) bytes.now (W.text ledger.new)) }
{
    let mut done = 0;
    'calls: while done < bytes.len() {
        let count = ledger.append(&bytes[done..])?;
        if count == 0 {
            return Err(Fault);
        }
        done += count;
    }
    Ok(())
}

// Sends all of the bytes, in as many calls as that takes.
pub(crate) fn send_all<L: Link>(link: &mut L, bytes: &[u8]) -> Result<(), Fault>
    ensures ok { OnOk result ((L.sent link.new ≡ grown (L.sent link.old) bytes.now)
        × (L.failures link.new ≡ L.failures link.old)) }
    ensures err { OnErr result ((L.failures link.old ≢ L.failures link.new)
        × IsBegun (L.sent link.old) bytes.now (L.sent link.new)) }
    ensures waiting { L.waiting link.new ≡ L.waiting link.old }
{
    let mut done = 0;
    'calls: while done < bytes.len() {
        let count = link.send(&bytes[done..])?;
        if count == 0 {
            return Err(Fault);
        }
        done += count;
    }
    Ok(())
}

// Carries out an answer's cut.
fn cut<W: LedgerOut>(ledger: &mut W, at: Option<u64>) -> Result<(), Fault>
    ensures ok { OnOk result ((W.text ledger.new ≡ cut_to at (W.text ledger.old))
        × (W.failures ledger.new ≡ W.failures ledger.old)) }
    ensures err { OnErr result ((W.failures ledger.old ≢ W.failures ledger.new)
        × ((W.text ledger.new ≡ W.text ledger.old) ⊎ (W.text ledger.new ≡ cut_to at (W.text ledger.old)))) }
{
    match at {
        Some(len) => ledger.cut(len),
        None => Ok(()),
    }
}

// Carries out an answer's cut, and then appends.
pub(crate) fn keep<W: LedgerOut>(out: &Out, ledger: &mut W) -> Result<(), Fault>
    ensures ok { OnOk result ((W.text ledger.new ≡ kept_text out.now (W.text ledger.old))
        × (W.failures ledger.new ≡ W.failures ledger.old)) }
    ensures err { OnErr result ((W.failures ledger.old ≢ W.failures ledger.new)
        × IsPartlyKept out.now (W.text ledger.old) (W.text ledger.new)) }
{
    cut(ledger, out.cut)?;
    append_all(ledger, &out.append)
}

/// Carries out an answer: its ledger's part first, whole, and only then its frames. Where the ledger fails,
/// the node is stopped.
pub fn fulfil<N: Node, L: Link, W: LedgerOut>(
    node: &mut N,
    link: &mut L,
    ledger: &mut W,
    out: &Out,
) -> Result<(), TurnFault>
    ensures ok { OnOk result ((node.new ≡ node.old) × (W.text ledger.new ≡ kept_text out.now (W.text ledger.old))
        × (L.sent link.new ≡ grown (L.sent link.old) out.now.frames.items)
        × (W.failures ledger.new ≡ W.failures ledger.old) × (L.failures link.new ≡ L.failures link.old)) }
    ensures link { result ≡ Err TurnFault.LinkFault → (node.new ≡ node.old)
        × (W.text ledger.new ≡ kept_text out.now (W.text ledger.old))
        × IsBegun (L.sent link.old) out.now.frames.items (L.sent link.new)
        × (W.failures ledger.new ≡ W.failures ledger.old) × (L.failures link.old ≢ L.failures link.new) }
    ensures ledger { result ≡ Err TurnFault.LedgerFault → N.is_stopped node.new
        × IsPartlyKept out.now (W.text ledger.old) (W.text ledger.new) × (L.sent link.new ≡ L.sent link.old)
        × (W.failures ledger.old ≢ W.failures ledger.new) × (L.failures link.new ≡ L.failures link.old) }
    ensures faults { IfErr result (λ e. (e ≡ TurnFault.LinkFault) ⊎ (e ≡ TurnFault.LedgerFault)) }
    ensures waiting { L.waiting link.new ≡ L.waiting link.old }
{
    if keep(out, ledger).is_err() {
        node.stop();
        return Err(TurnFault::LedgerFault);
    }
    if send_all(link, &out.frames).is_err() {
        return Err(TurnFault::LinkFault);
    }
    Ok(())
}

/// Whether more may come over the link.
#[derive(Clone, Copy, Debug, PartialEq, Eq)]
pub enum Turn {
    /// Bytes came.
    More,
    /// No bytes came: the stream has ended.
    End,
}

/// Why a turn, or the fulfilling out of an answer, ended before its time. What was appended before stands.
#[derive(Clone, Copy, Debug, PartialEq, Eq)]
pub enum TurnFault {
    /// The link failed. A beginning of the last answers' frames was sent.
    LinkFault,
    /// The ledger failed. No frame of the last answers was sent, and the node is stopped.
    LedgerFault,
    /// The node didn't answer.
    Node(NodeFault),
    /// Memory was refused for the lines that came; what came is lost.
    NoMemory,
}

impl TurnFault {
    ghost use Rattle.wire.specs.Message.{turn_fault_number};

    /// The refusal number: 603, 604, or the node's; none where memory was refused.
    pub fn number(&self) -> Option<u16>
        ensures { result ≡ turn_fault_number self.now }
    {
        match self {
            TurnFault::LinkFault => Some(603),
            TurnFault::LedgerFault => Some(604),
            TurnFault::Node(fault) => fault.number(),
            TurnFault::NoMemory => None,
        }
    }
}

impl fmt::Display for TurnFault {
    ghost use Rattle.std.specs.Prelude.{Some};
    ghost use Rattle.wire.specs.Message.{turn_fault_text};

    ghost output = { λ fault. Some (turn_fault_text fault) };

    fn fmt<W: fmt::Write>(&self, f: &mut fmt::Formatter<W>) -> fmt::Result {
        match self {
            TurnFault::LinkFault => f.write_str("the link failed"),
            TurnFault::LedgerFault => f.write_str("the ledger failed"),
            TurnFault::Node(NodeFault::Stopped) => f.write_str("the node is stopped"),
            TurnFault::Node(NodeFault::NoMemory) | TurnFault::NoMemory => f.write_str(
                "out of memory",
            ),
        }
    }
}

impl Error for TurnFault {}

impl From<NodeFault> for TurnFault {
    ghost use Rattle.wire.specs.declared.handing.TurnFault.TheVariants.{Node};

    ghost from_gives = { λ fault e. e ≡ Node fault };

    fn from(fault: NodeFault) -> TurnFault {
        TurnFault::Node(fault)
    }
}

impl From<NoMemory> for TurnFault {
    ghost use Rattle.wire.specs.declared.handing.TurnFault.TheVariants.{NoMemory};

    ghost from_gives = { λ _ e. e ≡ NoMemory };

    fn from(_: NoMemory) -> TurnFault {
        TurnFault::NoMemory
    }
}

// A line as a frame.
fn frame_of(line: &Line) -> &[u8]
    ensures { result.now ≡ frame_of (known line.now) }
{
    match line {
        Line::Whole(bytes) => bytes,
        Line::Overlong => &[],
    }
}

// Puts an answer behind those that are gathered, and says whether it could: not where it cuts, or memory is refused.
fn join(gathered: &mut Out, next: &Out) -> bool
    ensures cut { gathered.new.cut ≡ gathered.old.cut }
    ensures uncut { result ≡ true → next.now.cut ≡ None }
    ensures append { result ≡ true
        → gathered.new.append.items ≡ gathered.old.append.items ++ next.now.append.items }
    ensures frames { result ≡ true
        → gathered.new.frames.items ≡ gathered.old.frames.items ++ next.now.frames.items }
    ensures apart { result ≡ false → (gathered.new.append.items ≡ gathered.old.append.items)
        × (gathered.new.frames.items ≡ gathered.old.frames.items) }
{
    if next.cut.is_some() {
        return false;
    }
    let len = gathered.append.len();
    if gathered.append.extend_from_slice(&next.append).is_err() {
        return false;
    }
    if gathered.frames.extend_from_slice(&next.frames).is_err() {
        gathered.append.truncate(len);
        return false;
    }
    true
}

// Sends all of some bytes, and then all of others.
fn send_both<L: Link>(link: &mut L, first: &[u8], next: &[u8]) -> Result<(), Fault>
    ensures ok { OnOk result ((L.sent link.new ≡ grown (grown (L.sent link.old) first.now) next.now)
        × (L.failures link.new ≡ L.failures link.old)) }
    ensures err { OnErr result ((L.failures link.old ≢ L.failures link.new)
        × IsBegun (L.sent link.old) (first.now ++ next.now) (L.sent link.new)) }
    ensures waiting { L.waiting link.new ≡ L.waiting link.old }
{
    send_all(link, first)?;
    send_all(link, next)
}

// Carries out two answers: first the ledger's part of both, whole, and only then their frames. Where the ledger fails, the
// node is stopped.
fn fulfil_both<N: Node, L: Link, W: LedgerOut>(
    node: &mut N,
    link: &mut L,
    ledger: &mut W,
    first: &Out,
    next: &Out,
) -> Result<(), TurnFault>
    ensures ok { OnOk result ((node.new ≡ node.old)
        × (W.text ledger.new ≡ kept_text next.now (kept_text first.now (W.text ledger.old)))
        × (L.sent link.new ≡ grown (grown (L.sent link.old) first.now.frames.items) next.now.frames.items)
        × (W.failures ledger.new ≡ W.failures ledger.old) × (L.failures link.new ≡ L.failures link.old)) }
    ensures link { result ≡ Err TurnFault.LinkFault → (node.new ≡ node.old)
        × (W.text ledger.new ≡ kept_text next.now (kept_text first.now (W.text ledger.old)))
        × IsBegun (L.sent link.old) (first.now.frames.items ++ next.now.frames.items) (L.sent link.new)
        × (L.failures link.old ≢ L.failures link.new) }
    ensures ledger { result ≡ Err TurnFault.LedgerFault → N.is_stopped node.new
        × (IsPartlyKept first.now (W.text ledger.old) (W.text ledger.new)
        ⊎ IsPartlyKept next.now (kept_text first.now (W.text ledger.old)) (W.text ledger.new))
        × (L.sent link.new ≡ L.sent link.old) × (W.failures ledger.old ≢ W.failures ledger.new) }
    ensures faults { IfErr result (λ e. (e ≡ TurnFault.LinkFault) ⊎ (e ≡ TurnFault.LedgerFault)) }
    ensures waiting { L.waiting link.new ≡ L.waiting link.old }
{
    if keep(first, ledger).is_err() || keep(next, ledger).is_err() {
        node.stop();
        return Err(TurnFault::LedgerFault);
    }
    if send_both(link, &first.frames, &next.frames).is_err() {
        return Err(TurnFault::LinkFault);
    }
    Ok(())
}

// Gathers an answer, or fulfils it with those that are gathered.
fn take<N: Node, L: Link, W: LedgerOut>(
    node: &mut N,
    gathered: &mut Out,
    out: &Out,
    link: &mut L,
    ledger: &mut W,
) -> Result<(), TurnFault>
    ensures ok { OnOk result ((node.new ≡ node.old) × (gathered.new.cut ≡ gathered.old.cut)
        × (W.failures ledger.new ≡ W.failures ledger.old) × (L.failures link.new ≡ L.failures link.old)
        × TakesAnswer gathered.old out.now (W.text ledger.old) (L.sent link.old) gathered.new (W.text ledger.new)
        (L.sent link.new)) }
    ensures link { result ≡ Err TurnFault.LinkFault → (node.new ≡ node.old)
        × (W.text ledger.new ≡ kept_text out.now (kept_text gathered.old (W.text ledger.old)))
        × IsBegun (L.sent link.old) (gathered.old.frames.items ++ out.now.frames.items) (L.sent link.new)
        × (L.failures link.old ≢ L.failures link.new) }
    ensures ledger { result ≡ Err TurnFault.LedgerFault → N.is_stopped node.new
        × (IsPartlyKept gathered.old (W.text ledger.old) (W.text ledger.new)
        ⊎ IsPartlyKept out.now (kept_text gathered.old (W.text ledger.old)) (W.text ledger.new))
        × (L.sent link.new ≡ L.sent link.old) × (W.failures ledger.old ≢ W.failures ledger.new) }
    ensures faults { IfErr result (λ e. (e ≡ TurnFault.LinkFault) ⊎ (e ≡ TurnFault.LedgerFault)) }
    ensures waiting { L.waiting link.new ≡ L.waiting link.old }
{
    if join(gathered, out) {
        return Ok(());
    }
    fulfil_both(node, link, ledger, gathered, out)?;
    gathered.append.clear();
    gathered.frames.clear();
    Ok(())
}

// Hands one line to the node, and gathers its answer. Where it brings none, what is gathered is fulfilled.
fn gather<N: Node, L: Link, W: LedgerOut>(
    node: &mut N,
    line: &Line,
    gathered: &mut Out,
    link: &mut L,
    ledger: &mut W,
) -> Result<(), TurnFault>
    ensures ok { OnOk result ((old : Scene N) (events left : List Happening)
        → HasGathered N.answers old events (event_of (known line.now) ∷ left) (W.text ledger.old) (L.sent link.old)
        gathered.old node.old
        → HasGathered N.answers old events left (W.text ledger.new) (L.sent link.new) gathered.new node.new) }
    ensures err { IfErr result (λ fault. (old : Scene N) (events left : List Happening)
        → HasGathered N.answers old events (event_of (known line.now) ∷ left) (W.text ledger.old) (L.sent link.old)
        gathered.old node.old
        → BrokenTogether N.answers N.is_stopped old events fault left
        (scene node.new (W.text ledger.new) (L.sent link.new))) }
    ensures counts { OnOk result ((W.failures ledger.new ≡ W.failures ledger.old)
        × (L.failures link.new ≡ L.failures link.old)) }
    ensures step { gathered.old.cut ≡ None → result ≢ Err TurnFault.LedgerFault
        → IfSome (kept_text gathered.old (W.text ledger.old)) (N.in_step node.old)
        → IfSome (text_gathered result gathered.new (W.text ledger.new)) (N.in_step node.new) }
    ensures link { result ≡ Err TurnFault.LinkFault → L.failures link.old ≢ L.failures link.new }
    ensures ledger { result ≡ Err TurnFault.LedgerFault → W.failures ledger.old ≢ W.failures ledger.new }
    ensures waiting { L.waiting link.new ≡ L.waiting link.old }
{
    match node.on(Event::Frame(frame_of(line))) {
        Ok(out) => take(node, gathered, &out, link, ledger),
        Err(fault) => {
            fulfil(node, link, ledger, gathered)?;
            Err(TurnFault::Node(fault))
        }
    }
}

// Hands each line that waits to the node, and fulfils its answers together, as far as one that can't be.
pub(crate) fn hand_all<N: Node, L: Link, W: LedgerOut>(
    node: &mut N,
    lines: &mut Lines,
    link: &mut L,
    ledger: &mut W,
) -> Result<(), TurnFault>
    ensures ok { OnOk result (Handed N.answers (scene node.old (W.text ledger.old) (L.sent link.old))
        (events_of lines.old.waiting) [] (scene node.new (W.text ledger.new) (L.sent link.new))
        × (lines.new ≡ record { waiting = []; rest = lines.old.rest })) }
    ensures err { IfErr result (λ fault. IsBroken N.answers N.is_stopped
        (scene node.old (W.text ledger.old) (L.sent link.old)) lines.old fault lines.new
        (scene node.new (W.text ledger.new) (L.sent link.new))) }
    ensures ends { EndsInStep N.in_step result
        (devices node.old (W.text ledger.old) (L.failures link.old) (W.failures ledger.old))
        (devices node.new (W.text ledger.new) (L.failures link.new) (W.failures ledger.new)) }
    ensures waiting { L.waiting link.new ≡ L.waiting link.old }
{
    let mut gathered = Out::nothing(lines.alloc());
    'lines: while let Some(line) = lines.next() {
        gather(node, &line, &mut gathered, link, ledger)?;
    }
    fulfil(node, link, ledger, &gathered)
}

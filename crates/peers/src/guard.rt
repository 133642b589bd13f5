// The guard of a peer: what it lets through, and why a peer is let go.
ghost use Rattle.std.specs.Prelude.{◌≡◌, IfOk, option_map, ◌≢◌, ◌<◌, List, [], IfErr, IfNone, IfSome, None, OnErr, OnOk, Some, false, length, position, true};
ghost use Rattle.peers.specs.Guard.{asked_id, text_behind, granted, is_holdout, lease_in, fresh, is_of, later_frame, returned};
ghost use Rattle.wire.specs.Terms.{BrokenOff, Handed, scene, Happening, EndsInStep, devices};
ghost use Rattle.wire.specs.declared.handing.TurnFault.TheVariants.{LinkFault as Unlinked};
ghost use Rattle.peers.specs.Limits.{peer_lease_limit};
ghost use Rattle.peers.specs.Passing.{BecomesOfAsk, Forgets, IsPlaceFor, IsPassage, Remembers, Tells, given_back, handed_line, heard_out, is_spent, put_at};

use crate::limits::MAX_PEER_LEASES;
use crate::pool_core::Asker;
use std::alloc::Global;
use std::fmt;
use std::marker::Model;
use text::{cut_at, decimal_value};
use wire::{LedgerOut, NoMemory, Node, Note, Out, TurnFault};

/// Why a peer of a coordinator is let go.
#[derive(Clone, Copy, Debug, PartialEq, Eq)]
pub enum Dismissal {
    /// A line of it is no message, or none for a coordinator.
    Strange,
    /// A record of it was refused, with this number.
    Refused(u16),
    /// A record of a holdout came from it, where none is taken.
    Holdout,
    /// Memory for its leases, or for an answer to it, was refused.
    NoMemory,
}

impl fmt::Display for Dismissal {
    ghost use Rattle.std.specs.Prelude.{Some};
    ghost use Rattle.peers.specs.Peers.{dismissal_text};

    ghost output = { λ why. Some (dismissal_text why) };

    fn fmt<W: fmt::Write>(&self, f: &mut fmt::Formatter<W>) -> fmt::Result {
        match self {
            Dismissal::Strange => f.write_str("it sent a line that is no message to a coordinator"),
            Dismissal::Refused(number) => write!(f, "a record of it was refused with {number}"),
            Dismissal::Holdout => f.write_str("it sent a holdout, and none is taken"),
            Dismissal::NoMemory => f.write_str("out of memory"),
        }
    }
}

/// A peer that is to be let go.
#[derive(Clone, Copy, Debug, PartialEq, Eq)]
pub struct Dismissed {
    /// The place that it has.
    pub place: usize,
    /// Why it is let go.
    pub why: Dismissal,
}

// What of a line the node is handed, and what its peer is told.
#[derive(Clone, Copy, Debug, PartialEq, Eq)]
pub(crate) enum Passage {
    // The line is handed over.
    Whole,
    // The line is handed over: an `ASK` of this id. Where it brings a lease, that is remembered at this place, and if nothing
    // comes of it the id waits for so many seconds.
    Ask { id: u32, place: usize, wait: u64 },
    // The lease at this place is given back, and who asked is told to come later.
    GiveBack { place: usize },
    // The node is handed nothing, and who asked is told to come later.
    Later,
    // The node is handed nothing, and the peer is told nothing: it is let go, since it sent a holdout.
    Holdout,
    // The node is handed nothing, and the peer is told nothing: it is let go already.
    Nothing,
}

// Room for the longest `DONE`: a word and two numbers.
const ROOM: usize = 46;

// What stands behind a word and a space; none where a text begins otherwise.
fn behind<'a>(word: &[u8], text: &'a [u8]) -> Option<&'a [u8]>
    ensures { option_map (λ rest. rest.now) result ≡ text_behind word.now text.now }
{
    let (first, rest) = cut_at(b' ', text)?;
    if first == word { Some(rest) } else { None }
}

#[tactic(auto, unfolding(crate::specs::Guard::asked_id))]
// The id of an `ASK`; none where a line is no `ASK` of an id.
pub(crate) fn asked_id(line: &[u8]) -> Option<u32>
    ensures { result ≡ asked_id line.now }
{
    match u32::try_from(decimal_value(behind(b"ASK", line)?)?) {
        Ok(id) => Some(id),
        Err(_) => None,
    }
}

#[tactic(auto, unfolding(crate::specs::Guard::is_holdout))]
// Whether a line is the record of a holdout.
pub(crate) fn is_holdout(line: &[u8]) -> bool
    ensures { result ≡ is_holdout line.now }
{
    let Some(text) = behind(b"REC", line) else {
        return false;
    };
    match cut_at(b' ', text) {
        Some((_, kind)) => kind == b"U".as_slice(),
        None => false,
    }
}

#[tactic(auto, unfolding(crate::specs::Guard::granted))]
// The frame that gives back the lease that the first of some frames grants; none where it grants none.
pub(crate) fn returning(alloc: Global, frames: &[u8]) -> Result<Option<Vec<u8>>, NoMemory>
    ensures { IfOk result (λ frame. option_map (λ f. f.items) frame ≡ granted frames.now) }
{
    let Some((era, number)) = lease_in(frames) else {
        return Ok(None);
    };
    let mut frame = Vec::with_capacity(alloc, ROOM)?;
    frame.extend_from_slice(b"DONE ")?;
    frame.extend_from_slice(era)?;
    frame.extend_from_slice(b" ")?;
    frame.extend_from_slice(number)?;
    Ok(Some(frame))
}

// The era and the number of that lease, as they are written.
fn lease_in(frames: &[u8]) -> Option<(&[u8], &[u8])>
    ensures { option_map (λ lease. (lease.0.now, lease.1.now)) result ≡ lease_in frames.now }
{
    let (era, rest) = cut_at(b' ', behind(b"GRANT", frames)?)?;
    let (number, _) = cut_at(b' ', rest)?;
    Some((era, number))
}

/// What stands between a peer and a node: it knows the leases that the peer has, and how many new records it brought, and
/// decides what of its lines the node is handed.
#[derive(Drop)]
pub struct Guard {
    alloc: Global,
    askers: Vec<Asker>,
    // How many new records the peer has brought.
    records: u64,
    // The moment at which it brought the last.
    renewed: u64,
    dismissal: Option<Dismissal>,
}

impl Model for Guard {
    ghost use Rattle.peers.specs.Guard.{GuardState};

    ghost Value = { GuardState };

    ghost view = { λ a. record { askers = a.askers.items; records = a.records; dismissal = a.dismissal } };
}

impl Guard {
    /// Of a peer of which nothing has come.
    pub fn new(alloc: Global) -> Guard
        ensures { result ≡ fresh }
    {
        Guard {
            alloc,
            askers: Vec::new(alloc),
            records: 0,
            renewed: 0,
            dismissal: None,
        }
    }

    /// Why the peer was let go; none where it wasn't.
    pub fn dismissal(&self) -> Option<Dismissal>
        ensures { result ≡ self.now.dismissal }
    {
        self.dismissal
    }

    // What becomes of a line at this moment.
    pub(crate) fn passage(&self, takes_holdouts: bool, moment: u64, line: &[u8]) -> Passage
        ensures { IsPassage takes_holdouts self.now line.now result }
    {
        if self.dismissal.is_some() {
            return Passage::Nothing;
        }
        if !takes_holdouts && is_holdout(line) {
            return Passage::Holdout;
        }
        match asked_id(line) {
            Some(id) => self.ask_passage(moment, id),
            None => Passage::Whole,
        }
    }

    // What becomes of an `ASK`. Who brings nothing by one id doesn't get more by others: where some id gave its lease back,
    // and nothing came since, an id that has no place waits as that one does.
    fn ask_passage(&self, moment: u64, id: u32) -> Passage
        ensures { BecomesOfAsk self.now id result }
    {
        if let Some(place) = self.place_of(id) {
            let asker = &self.askers[place];
            if !asker.is_idle(self.records) {
                return Passage::Ask { id, place, wait: 1 };
            }
            asker.idle_passage(moment, id, place)
        } else if let Some(place) = self.first_spent() {
            self.askers[place].idle_passage(moment, id, place)
        } else if let Some(place) = self.free_place(moment) {
            Passage::Ask { id, place, wait: 1 }
        } else {
            Passage::Later
        }
    }

    // The place of the first asker that gave its lease back, where the peer has brought no new record since.
    fn first_spent(&self) -> Option<usize>
        ensures { result ≡ position (is_spent self.now.records) self.now.askers }
    {
        let records = self.records;
        self.askers.iter().position(|asker| asker.is_spent(records))
    }

    // The place of the asker with this id.
    fn place_of(&self, id: u32) -> Option<usize>
        ensures { result ≡ position (is_of id) self.now.askers }
    {
        self.askers.iter().position(|asker| asker.is_of(id))
    }

    // Where one more asker may stand: behind the others, or at the place of the first that is over.
    fn free_place(&self, moment: u64) -> Option<usize>
        ensures room { IfSome result (λ place. IsPlaceFor self.now place) }
        ensures few { length self.now.askers < peer_lease_limit → result ≢ None }
    {
        if self.askers.len() < MAX_PEER_LEASES {
            return Some(self.askers.len());
        }
        let renewed = self.renewed;
        self.askers
            .iter()
            .position(|asker| asker.is_over(moment, renewed))
    }

    // What of a line the node is handed.
    pub(crate) fn handed_line<'a>(&'a self, line: &'a [u8], passage: Passage) -> &'a [u8]
        ensures { result.now ≡ handed_line self.now line.now passage }
    {
        match passage {
            Passage::Whole | Passage::Ask { .. } => line,
            Passage::GiveBack { place } => self.returning(place),
            Passage::Later | Passage::Holdout | Passage::Nothing => &[],
        }
    }

    // The frame that gives back the lease at a place.
    fn returning(&self, place: usize) -> &[u8]
        ensures { result.now ≡ handed_line self.now [] (Passage.GiveBack place) }
    {
        if place < self.askers.len() {
            return self.askers[place].returning();
        }
        &[]
    }

    // Takes note of the node's answer to a line, and leaves of its frames what the peer is told.
    pub(crate) fn tell(&mut self, moment: u64, line: &[u8], passage: Passage, out: &mut Out)
        ensures tells { Tells passage self.old out.old out.new.frames.items self.new }
        ensures cut { out.new.cut ≡ out.old.cut }
        ensures append { out.new.append.items ≡ out.old.append.items }
    {
        match passage {
            Passage::Whole => {
                self.forget(line);
                self.hear(moment, out);
            }
            Passage::Ask { id, place, wait } => self.tell_asker(moment, id, place, wait, out),
            Passage::GiveBack { place } => self.tell_back(moment, place, out),
            Passage::Later => self.tell_later(out),
            Passage::Holdout => {
                out.frames.clear();
                self.dismissal = Some(Dismissal::Holdout);
            }
            Passage::Nothing => out.frames.clear(),
        }
    }

    // The node answered to an `ASK`.
    fn tell_asker(&mut self, moment: u64, id: u32, place: usize, wait: u64, out: &mut Out)
        ensures tells { Tells (Passage.Ask id place wait) self.old out.old out.new.frames.items self.new }
        ensures cut { out.new.cut ≡ out.old.cut }
        ensures append { out.new.append.items ≡ out.old.append.items }
    {
        match self.remember(moment, id, place, wait, &out.frames) {
            Ok(()) => self.hear(moment, out),
            Err(_) => {
                out.frames.clear();
                self.dismissal = Some(Dismissal::NoMemory);
            }
        }
    }

    // A lease was given back.
    fn tell_back(&mut self, moment: u64, place: usize, out: &mut Out)
        ensures tells { Tells (Passage.GiveBack place) self.old out.old out.new.frames.items self.new }
        ensures cut { out.new.cut ≡ out.old.cut }
        ensures append { out.new.append.items ≡ out.old.append.items }
    {
        if put_later(&mut out.frames) {
            self.give_back(moment, place);
        } else {
            self.dismissal = Some(Dismissal::NoMemory);
        }
    }

    // Who asked comes later.
    fn tell_later(&mut self, out: &mut Out)
        ensures tells { Tells Passage.Later self.old out.old out.new.frames.items self.new }
        ensures cut { out.new.cut ≡ out.old.cut }
        ensures append { out.new.append.items ≡ out.old.append.items }
    {
        if !put_later(&mut out.frames) {
            self.dismissal = Some(Dismissal::NoMemory);
        }
    }

    // The node answered to a line that it was handed: one by which the ledger gains something has brought a new record.
    fn hear(&mut self, moment: u64, out: &Out)
        ensures { self.new ≡ heard_out out.now self.old }
    {
        if !out.append.is_empty() {
            self.records = self.records.wrapping_add(1);
            self.renewed = moment;
        }
        match out.note {
            Note::Quiet | Note::Stale => {}
            Note::Strange => self.dismissal = Some(Dismissal::Strange),
            Note::Refused(number) => self.dismissal = Some(Dismissal::Refused(number)),
        }
    }

    // A lease ends by this line, if it gives one back.
    fn forget(&mut self, line: &[u8])
        ensures { Forgets self.old self.new }
    {
        if !line.starts_with(b"DONE ") {
            return;
        }
        if let Some(place) = self.place_returned_by(line) {
            let _ = self.askers.remove(place);
        }
    }

    fn place_returned_by(&self, frame: &[u8]) -> Option<usize>
        ensures { IfSome result (λ place. place < length self.now.askers) }
    {
        self.askers
            .iter()
            .position(|asker| asker.is_returned_by(frame))
    }

    // Remembers the lease that an answer grants, if it grants one.
    fn remember(
        &mut self,
        moment: u64,
        id: u32,
        place: usize,
        wait: u64,
        frames: &[u8],
    ) -> Result<(), NoMemory>
        ensures ok { OnOk result (Remembers id place frames.now self.old self.new) }
        ensures err { OnErr result (self.new ≡ self.old) }
    {
        let Some(lease) = returning(self.alloc, frames)? else {
            return Ok(());
        };
        self.put(place, Asker::new(id, lease, self.records, moment, wait))
    }

    // Puts an asker at a place, or behind the others.
    fn put(&mut self, place: usize, asker: Asker) -> Result<(), NoMemory>
        ensures ok { OnOk result (self.new ≡ record self.old { askers = put_at place asker self.old.askers }) }
        ensures err { OnErr result (self.new ≡ self.old) }
    {
        if place < self.askers.len() {
            self.askers[place] = asker;
            return Ok(());
        }
        match self.askers.push(asker) {
            Ok(()) => Ok(()),
            Err(_) => Err(NoMemory),
        }
    }

    // The lease at a place is given back.
    fn give_back(&mut self, moment: u64, place: usize)
        ensures { self.new ≡ given_back place self.old }
    {
        if place < self.askers.len() {
            self.askers[place].give_back(moment);
        }
    }

    // Gives back each lease that the peer has: a node is handed the frames that do it.
    pub(crate) fn give_back_all<N: Node, W: LedgerOut>(
        &self,
        node: &mut N,
        ledger: &mut W,
    ) -> Result<(), TurnFault>
        ensures ok { OnOk result (Handed N.answers (scene node.old (W.text ledger.old) None)
            (returned self.now.askers) [] (scene node.new (W.text ledger.new) None)) }
        ensures err { IfErr result (λ fault. (fault ≢ Unlinked) × ((left : List Happening)
            × BrokenOff N.answers N.is_stopped (scene node.old (W.text ledger.old) None) (returned self.now.askers)
            fault left (scene node.new (W.text ledger.new) None))) }
        ensures ends { EndsInStep N.in_step result (devices node.old (W.text ledger.old) 0 (W.failures ledger.old))
            (devices node.new (W.text ledger.new) 0 (W.failures ledger.new)) }
    {
        let mut place = 0;
        'askers: while place < self.askers.len() {
            self.askers[place].return_lease(node, ledger)?;
            place += 1;
        }
        Ok(())
    }
}

// Puts the frame `LATER` in place of others, and says whether there was memory for it; where there wasn't, there is no frame.
fn put_later(frames: &mut Vec<u8>) -> bool
    ensures told { result ≡ true → frames.new.items ≡ later_frame }
    ensures refused { result ≡ false → frames.new.items ≡ [] }
{
    frames.clear();
    frames.extend_from_slice(b"LATER\n").is_ok()
}

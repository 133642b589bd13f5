// The places of peers: none is given twice, one that is silent too long is lost, and each is read in its turn.
ghost use Rattle.std.specs.Prelude.{◌≤◌, ℕ, IfOk, IfSome, length};
ghost use Rattle.peers.specs.Terms.{FitsIn};

use crate::coordinator_socket::Herald;
use crate::peer_sockets::{Leaving, PeerSocket, Turns};
use mio::event::Event;
use peers::Arrival;
use std::alloc::{AllocError as NoMemory, Global};
use std::collections::VecDeque;
use std::net::IpAddr;

// How many seconds a peer has for its first line.
const FIRST_LINE_SECONDS: u64 = 10;

// How many seconds a peer may be silent; a search for one record may take that long.
const MOST_SILENT_SECONDS: u64 = 3_600;

// How often it is looked for peers that are silent too long, in seconds.
const LOOK_SECONDS: u64 = 60;

// After how many silent seconds a peer may lose its place to another that waits.
const LEAST_SILENT_SECONDS: u64 = 60;

// After how many silent seconds a peer that may have a table loses its place while others are told that none is free. What its
// search finds is taken all the same, once it has connected again.
const MOST_IDLE_SECONDS: u64 = 5;

// How long nobody is let in then, so that one of the others gets the table, in seconds.
const CALM_SECONDS: u64 = 2;

// What a peer is told for which no table is free.
const COME_LATER: &[u8] = b"LATER\n";

#[derive(Drop)]
pub(crate) struct Places<'a> {
    herald: Herald<'a>,
    // none where a peer is gone
    sockets: Vec<Option<Box<PeerSocket>>>,
    // the places of those that are there
    taken: Vec<usize>,
    // the places of those whose first line may not have come, the oldest first
    young: VecDeque<usize>,
    turns: Turns,
    // the places that take bytes again
    roomy: VecDeque<usize>,
    second: u64,
    // the second in which a peer was told last that no table is free
    waited: Option<u64>,
    // the second from which on peers are let in again
    calm_until: u64,
}

impl<'a> Places<'a> {
    pub fn new(alloc: Global, herald: Herald<'a>) -> Places<'a> {
        Places {
            herald,
            sockets: Vec::new(alloc),
            taken: Vec::new(alloc),
            young: VecDeque::new(alloc),
            turns: Turns::new(alloc),
            roomy: VecDeque::new(alloc),
            second: 0,
            waited: None,
            calm_until: 0,
        }
    }

    // How many peers there are.
    pub fn count(&self) -> usize {
        self.taken.len()
    }

    // How many come from an address.
    pub fn count_from(&self, ip: IpAddr) -> usize {
        let mut count: usize = 0;
        for place in self.taken.iter() {
            if let Some(Some(socket)) = self.sockets.get(*place)
                && socket.origin.ip() == Some(ip)
            {
                count = count.saturating_add(1);
            }
        }
        count
    }

    // The place that the next peer gets.
    pub fn next_place(&self) -> usize {
        self.sockets.len()
    }

    // Whether nobody is let in for now.
    pub fn is_calm(&self) -> bool {
        self.second < self.calm_until
    }

    // How many are to be read next.
    pub fn ready_count(&self) -> usize {
        self.turns.count()
    }

    // Whether something may have come.
    pub fn has_ready(&self) -> bool {
        self.turns.count() > 0 || !self.roomy.is_empty()
    }

    // A peer has the next place.
    pub fn open(&mut self, socket: Box<PeerSocket>) -> Result<(), NoMemory> {
        let place = self.sockets.len();
        let mut socket = socket;
        socket.since = self.second;
        socket.heard = self.second;
        let origin = socket.origin;
        if !socket.has_spoken {
            self.young.push_back(place)?;
        }
        self.turns.add(place, &mut socket)?;
        self.sockets.push(Some(socket))?;
        if self.taken.push(place).is_err() {
            let _ = self.sockets.pop();
            return Err(NoMemory);
        }
        self.herald.say(origin, "came");
        Ok(())
    }

    // Remembers what a socket is ready for.
    pub fn note(&mut self, place: usize, event: &Event) -> Result<(), NoMemory> {
        let Some(Some(socket)) = self.sockets.get_mut(place) else {
            return Ok(());
        };
        if event.is_writable() && socket.is_full {
            socket.is_full = false;
            self.roomy.push_back(place)?;
        }
        self.turns.add(place, socket)
    }

    // Another second begins: those leave that have said nothing for too long, and each is read again.
    pub fn begin_second(&mut self, second: u64) -> Result<(), NoMemory> {
        self.second = second;
        self.herald.begin_second();
        self.turns.begin_second()?;
        for place in self.taken.iter() {
            if let Some(Some(socket)) = self.sockets.get_mut(*place) {
                socket.put_offs = 0;
            }
        }
        self.end_mute()?;
        self.end_idle()?;
        if second % LOOK_SECONDS == 0 {
            self.end_silent()?;
        }
        Ok(())
    }

    // Peers leave whose first line hasn't come in time.
    fn end_mute(&mut self) -> Result<(), NoMemory> {
        for _ in 0..u64::MAX {
            let Some(place) = self.young.front().copied() else {
                break;
            };
            if let Some(Some(socket)) = self.sockets.get(place)
                && !socket.has_spoken
            {
                // What has come and wasn't read yet may be a line.
                let is_unread = socket.is_ready && socket.heard == socket.since;
                if is_unread || self.second.saturating_sub(socket.since) < FIRST_LINE_SECONDS {
                    break;
                }
                self.leave(place, Leaving::Mute)?;
            }
            let _ = self.young.pop_front();
        }
        Ok(())
    }

    // Peers leave of whom nothing has come for too long.
    fn end_silent(&mut self) -> Result<(), NoMemory> {
        for i in 0..self.taken.len() {
            if let Some(place) = self.taken.get(i).copied()
                && self.silence_of(place) >= MOST_SILENT_SECONDS
            {
                self.leave(place, Leaving::Silent)?;
            }
        }
        Ok(())
    }

    // Where others have no table, peers leave that may have one and say nothing.
    fn end_idle(&mut self) -> Result<(), NoMemory> {
        let Some(waited) = self.waited else {
            return Ok(());
        };
        if self.second.saturating_sub(waited) > 1 {
            return Ok(());
        }
        for i in 0..self.taken.len() {
            if let Some(place) = self.taken.get(i).copied()
                && self.is_idle(place)
            {
                self.leave(place, Leaving::Idle)?;
                self.calm_until = self.second.saturating_add(CALM_SECONDS);
            }
        }
        Ok(())
    }

    // Whether the peer at a place may have a table and has said nothing for too long.
    fn is_idle(&self, place: usize) -> bool {
        match self.sockets.get(place) {
            Some(Some(socket)) => {
                socket.was_served && self.silence_of(place) >= MOST_IDLE_SECONDS
            }
            _ => false,
        }
    }

    // For how many seconds nothing has come from the peer at a place; of one that was never heard, since it came.
    fn silence_of(&self, place: usize) -> u64 {
        match self.sockets.get(place) {
            Some(Some(socket)) => self.second.saturating_sub(socket.heard),
            _ => 0,
        }
    }

    // The one leaves that has been silent longest, where that is long enough.
    pub fn displace(&mut self) -> Result<(), NoMemory> {
        let mut longest = LEAST_SILENT_SECONDS;
        let mut found = None;
        for place in self.taken.iter() {
            let silence = self.silence_of(*place);
            if silence >= longest {
                longest = silence.saturating_add(1);
                found = Some(*place);
            }
        }
        match found {
            Some(place) => self.leave(place, Leaving::Displaced),
            None => Ok(()),
        }
    }

    // The peer at a place is gone in its next turn.
    pub fn leave(&mut self, place: usize, why: Leaving) -> Result<(), NoMemory> {
        let Some(Some(socket)) = self.sockets.get_mut(place) else {
            return Ok(());
        };
        if socket.leaving.is_none() {
            socket.leaving = Some(why);
        }
        self.turns.add(place, socket)
    }

    // A peer that takes bytes again. It is read again too.
    pub fn next_room(&mut self) -> Option<Arrival>
        ensures { IfSome result (λ arrival. (size : ℕ) → FitsIn size arrival) }
    {
        let place = self.roomy.pop_front()?;
        Some(Arrival::Room { place })
    }

    // What a peer has sent that is ready, each in its turn.
    pub fn read_next(&mut self, buf: &mut [u8]) -> Result<Option<Arrival>, NoMemory>
        ensures { IfOk result (λ arrival. IfSome arrival (FitsIn (length buf.new))) }
    {
        for _ in 0..u64::MAX {
            let Some(place) = self.turns.next() else {
                break;
            };
            if let Some(arrival) = self.read(place, buf)? {
                return Ok(Some(arrival));
            }
        }
        Ok(None)
    }

    // What the peer at a place has sent; none where it has to be waited for.
    fn read(&mut self, place: usize, buf: &mut [u8]) -> Result<Option<Arrival>, NoMemory>
        ensures { IfOk result (λ arrival. IfSome arrival (FitsIn (length buf.new))) }
    {
        let Some(Some(socket)) = self.sockets.get_mut(place) else {
            return Ok(None);
        };
        socket.is_ready = false;
        if let Some(why) = socket.leaving {
            self.close(place, why);
            return Ok(Some(Arrival::Gone { place }));
        }
        if socket.is_full {
            return Ok(None);
        }
        match socket.read(buf, self.second) {
            Ok(Some(count)) => {
                // There may be more where the buffer is full; elsewhere the system says so once there is.
                if count == buf.len() || !socket.first.is_empty() {
                    self.turns.add(place, socket)?;
                }
                Ok(Some(Arrival::Came { place, count }))
            }
            Ok(None) => Ok(None),
            Err(why) => {
                self.close(place, why);
                Ok(Some(Arrival::Gone { place }))
            }
        }
    }

    fn close(&mut self, place: usize, why: Leaving) {
        if let Some(Some(socket)) = self.sockets.get(place) {
            match why {
                Leaving::Dismissed(_) => self.herald.warn(socket.origin, why),
                _ => self.herald.say(socket.origin, why),
            }
        }
        if let Some(socket) = self.sockets.get_mut(place) {
            *socket = None;
        }
        self.taken.retain(|other| *other != place);
    }

    // Sends the first of these bytes to the peer at a place, and says how many: none where it is gone, or would have to be
    // waited for.
    pub fn send(&mut self, place: usize, bytes: &[u8]) -> usize
        ensures { result ≤ length bytes.now }
    {
        let Some(Some(socket)) = self.sockets.get_mut(place) else {
            return 0;
        };
        if bytes.is_empty() || socket.is_full || socket.leaving.is_some() {
            return 0;
        }
        if bytes.ends_with(COME_LATER) {
            self.waited = Some(self.second);
        }
        if puts_off(bytes) {
            socket.put_offs = socket.put_offs.saturating_add(1);
        } else {
            socket.was_served = true;
        }
        match socket.write_all_now(bytes) {
            Ok(count) => count,
            Err(_) => {
                socket.leaving = Some(Leaving::Failed);
                // Where memory is refused, the system says soon that the socket has failed.
                let _ = self.turns.add(place, socket);
                0
            }
        }
    }
}

// Whether a peer is told to come later, and nothing else.
fn puts_off(answers: &[u8]) -> bool {
    answers
        .split(|byte| *byte == b'\n')
        .all(|line| line.is_empty() || line == b"LATER".as_slice())
}

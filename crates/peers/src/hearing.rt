// What comes from the coordinator, and what a frame is for.
ghost use Rattle.std.specs.Prelude.{◌≡◌, Ok, ◌≢◌, ◌∷◌, ◌<◌, [], Err, IfNone, IfSome, List, Some, length, slice_get, ℕ};
ghost use Rattle.wire.specs.Terms.{message_of, said, known, frame_of};
ghost use Rattle.peers.specs.Frames.{heard_as, sent_as};
ghost use Rattle.peers.specs.Crew.{AreInStep, hall, AnswersOldest, HearsLine, Heeds, Offers, TakesWord, has_it, next_place, owing, with_course};
ghost use Rattle.peers.specs.declared.pool_core.Core.{Core};

use crate::pool::Crew;
use crate::pool_core::Course;
use wire::{Event, LedgerOut, Line, Link, Msg, Node, Note, Out, TurnFault, decode};

// A frame that a core sends, by how the coordinator answers it.
#[derive(Clone, Copy)]
pub(crate) enum Sent {
    // By a table, `LATER` or `STOP`.
    Ask,
    // By a word on the record.
    Record,
    // Not at all.
    Other,
}

// A frame that comes from the coordinator, by whom it is for.
#[derive(Clone, Copy)]
pub(crate) enum Heard {
    // The answer to an `ASK`, and how its core goes on.
    Answer(Course),
    // The word on a record.
    Receipt,
    // Nobody.
    Other,
}

// By its first letter alone: what a core sends was printed here.
pub(crate) fn sent_as(frame: &[u8]) -> Sent
    ensures { result ≡ sent_as frame.now }
{
    match frame.first() {
        Some(b'A') => Sent::Ask,
        Some(b'R') => Sent::Record,
        _ => Sent::Other,
    }
}

pub(crate) fn heard_as(frame: &[u8]) -> Heard
    ensures { result ≡ heard_as (message_of frame.now) }
{
    let message = decode(frame);
    match &message {
        Ok(m) => heard_by(m),
        Err(_) => Heard::Other,
    }
}

fn heard_by(m: &Msg<'_>) -> Heard
    ensures { result ≡ heard_as (Ok (said m.now)) }
{
    match m {
        Msg::Grant { .. } => Heard::Answer(Course::Work),
        Msg::Later(None) => Heard::Answer(Course::Later),
        Msg::Stop => Heard::Answer(Course::Stop),
        Msg::Ack(_) | Msg::Later(Some(_)) => Heard::Receipt,
        Msg::Ask { .. } | Msg::Rec(_) | Msg::Done { .. } => Heard::Other,
    }
}

// A line as a frame.
fn frame_of(line: &Line) -> &[u8]
    ensures { result.now ≡ frame_of (known line.now) }
{
    match line {
        Line::Whole(bytes) => bytes,
        Line::Overlong => &[],
    }
}

// The place behind a place, the first behind the last.
fn next_place(count: usize, place: usize) -> usize
    requires { place < count }
    ensures { result ≡ next_place count place }
{
    if place + 1 == count { 0 } else { place + 1 }
}

// Whether a core that answers this has the record.
fn has_it(out: &Out) -> bool
    ensures { result ≡ has_it out.now.note }
{
    match out.note {
        Note::Stale => false,
        Note::Quiet | Note::Strange | Note::Refused(_) => true,
    }
}

impl<N: Node, W: LedgerOut> Crew<N, W> {
    // Takes out the oldest `ASK`, if one is unanswered, and tells its core how to go on.
    fn take_oldest(&mut self, course: Course) -> Option<usize>
        ensures none { IfNone result ((self.old.asks ≡ []) × (self.new ≡ self.old)) }
        ensures some { IfSome result (λ place. (core : Core N W) × (asks : List ℕ) × (self.old.asks ≡ place ∷ asks)
            × (slice_get self.old.cores place ≡ Some core) × (self.new ≡ with_course course place asks core self.old)) }
        ensures within { IfSome result (λ place. place < length self.new.cores) }
        ensures step { AreInStep N.in_step W.text self.old.cores → AreInStep N.in_step W.text self.new.cores }
        ensures count { length self.new.cores ≡ length self.old.cores }
    {
        let place = self.asks.pop_front()?;
        self.cores[place].tell(course);
        Some(place)
    }

    // The core at a place goes on as it notes the answer to its `ASK`.
    fn heed(&mut self, place: usize, out: &Out)
        requires { place < length self.old.cores }
        ensures heeds { Heeds place out.now.note self.old self.new }
        ensures step { AreInStep N.in_step W.text self.old.cores → AreInStep N.in_step W.text self.new.cores }
        ensures count { length self.new.cores ≡ length self.old.cores }
    {
        self.cores[place].heed(out.note);
    }

    // The answer to the oldest `ASK`; nobody gets one that nobody asked for, and who doesn't take it asks again later.
    fn answer_oldest<L: Link>(
        &mut self,
        course: Course,
        frame: &[u8],
        link: &mut L,
    ) -> Result<(), TurnFault>
        ensures answers { AnswersOldest N.answers N.is_stopped W.text course frame.now self.old.asks result
            (hall self.old (L.sent link.old)) (hall self.new (L.sent link.new)) }
        ensures step { result ≢ Err TurnFault.LedgerFault → AreInStep N.in_step W.text self.old.cores
            → AreInStep N.in_step W.text self.new.cores }
        ensures count { length self.new.cores ≡ length self.old.cores }
        ensures waiting { L.waiting link.new ≡ L.waiting link.old }
    {
        let Some(place) = self.take_oldest(course) else {
            return Ok(());
        };
        let out = self.hand(place, Event::Frame(frame), link)?;
        self.heed(place, &out);
        Ok(())
    }

    // As whose a word on a record counts that the core at a place took. A worker takes any `LATER` with a table, so the
    // first that is asked takes it. Where it isn't that one's, one count is too high and another too low, and a tick
    // comes late or early; but all counts together are right, so none is left above zero by the last word.
    fn owing(&self, place: usize) -> usize
        requires { place < length self.now.cores }
        ensures owing { (core : Core N W) × (slice_get self.now.cores place ≡ Some core)
            × (result ≡ owing place core self.now.cores) }
        ensures within { result < length self.now.cores }
    {
        if self.cores[place].is_word_due() {
            place
        } else {
            self.first_word_due().unwrap_or(place)
        }
    }

    // The core at a place took the word on a record.
    fn take_word(&mut self, place: usize)
        requires { place < length self.old.cores }
        ensures taken { TakesWord place self.old self.new }
        ensures step { AreInStep N.in_step W.text self.old.cores → AreInStep N.in_step W.text self.new.cores }
        ensures count { length self.new.cores ≡ length self.old.cores }
    {
        let owing = self.owing(place);
        self.cores[owing].count_answered();
        self.latest = place;
    }

    // Hands the word on a record to one core after another, from the one that took the last such word on, as far as
    // one that has the record.
    fn offer<L: Link>(&mut self, frame: &[u8], link: &mut L) -> Result<(), TurnFault>
        ensures offers { Offers N.answers N.is_stopped W.text (length self.old.cores) self.old.latest frame.now result
            (hall self.old (L.sent link.old)) (hall self.new (L.sent link.new)) }
        ensures step { result ≢ Err TurnFault.LedgerFault → AreInStep N.in_step W.text self.old.cores
            → AreInStep N.in_step W.text self.new.cores }
        ensures count { length self.new.cores ≡ length self.old.cores }
        ensures waiting { L.waiting link.new ≡ L.waiting link.old }
    {
        let mut left = self.count();
        let mut place = self.latest;
        'offers: while left > 0 {
            let out = self.hand(place, Event::Frame(frame), link)?;
            if has_it(&out) {
                self.take_word(place);
                return Ok(());
            }
            place = next_place(self.count(), place);
            left -= 1;
        }
        Ok(())
    }

    // Hands a line to the core to which it belongs.
    pub fn hear_line<L: Link>(&mut self, line: Line, link: &mut L) -> Result<(), TurnFault>
        ensures hears { HearsLine N.answers N.is_stopped W.text (known line) result
            (hall self.old (L.sent link.old)) (hall self.new (L.sent link.new)) }
        ensures step { result ≢ Err TurnFault.LedgerFault → AreInStep N.in_step W.text self.old.cores
            → AreInStep N.in_step W.text self.new.cores }
        ensures count { length self.new.cores ≡ length self.old.cores }
        ensures waiting { L.waiting link.new ≡ L.waiting link.old }
    {
        let frame = frame_of(&line);
        match heard_as(frame) {
            Heard::Answer(course) => self.answer_oldest(course, frame, link),
            Heard::Receipt => self.offer(frame, link),
            Heard::Other => Ok(()),
        }
    }
}

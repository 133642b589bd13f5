// A coordinator of one state over a ledger or a link in memory that fails at each of its calls in turn.
use crate::nodes::coordinator;
use crate::words::Said;
use lease_core::Coordinator;
use std::alloc::{AllocError as NoMemory, Global};
use wire::{Lines, MemLedger, MemLink, Node, NodeFault, Out, Turn, TurnFault, begin, turn};

// No session has more calls.
const MOST_CALLS: u64 = 10_000;

// How many calls of a ledger and of a link fail in a session at the least, so that it is one.
const LEDGER_CALLS: u64 = 3;

const LINK_CALLS: u64 = 15;

/// Frames with the answers to them, and what the ledger holds once all have come.
#[derive(Clone, Copy)]
pub struct Session<'a> {
    pub alloc: Global,
    /// `FRAME > ANSWER`, with `|` between two.
    pub rows: &'a str,
    pub kept: &'a [u8],
}

/// How it went.
#[derive(Clone, Copy, PartialEq, Eq)]
enum Came {
    Whole,
    // the device failed, at the row of this number
    Failed(usize),
    Wrong,
}

impl Session<'_> {
    /// `fails DEVICE LEDGER`: the frames come to a coordinator that begins with a ledger, and its device fails at the first of its
    /// calls, at the second, and so on until none is left to fail. A ledger that failed is gone on with by a new coordinator,
    /// which gets the frame whose answer failed, and those after it. The ledger is whole at the end each time; that the board is the
    /// ledger's, a clause of `turn` says.
    pub fn say_failing(self, device: &str, held: &[u8], said: &mut Said) -> Result<(), NoMemory> {
        let (is_link, slow) = match device {
            "ledger" => (false, false),
            "slow_ledger" => (false, true),
            "link" => (true, false),
            "slow_link" => (true, true),
            _ => return said.text("no device"),
        };
        for call in 1..MOST_CALLS {
            let came = if is_link {
                self.with_link(call, slow)?
            } else {
                self.with_ledger(held, call, slow)?
            };
            match came {
                Came::Failed(_) => continue,
                Came::Whole if call > if is_link { LINK_CALLS } else { LEDGER_CALLS } => {
                    return said.text("whole at each call");
                }
                _ => {
                    said.text("not whole at call")?;
                    return said.number(call);
                }
            }
        }
        said.text("no end")
    }

    // Fails at one call of the ledger, if it has so many.
    fn with_ledger(self, held: &[u8], call: u64, slow: bool) -> Result<Came, NoMemory> {
        let mut ledger = MemLedger::holding(held.to_vec(self.alloc)?);
        ledger.fail_at(call);
        ledger.take_single(slow);
        self.over_ledger(&mut ledger)
    }

    // Goes on with a ledger that failed.
    fn over_ledger(self, ledger: &mut MemLedger) -> Result<Came, NoMemory> {
        let from = match self.go_on(ledger, 0)? {
            Came::Failed(from) => from,
            came => return Ok(self.came_whole(came, ledger.text())),
        };
        if !self.kept.starts_with(ledger.text()) {
            return Ok(Came::Wrong);
        }
        let again = self.go_on(ledger, from)?;
        Ok(match self.came_whole(again, ledger.text()) {
            Came::Whole => Came::Failed(from),
            _ => Came::Wrong,
        })
    }

    // What came, or wrong where the ledger isn't whole.
    fn came_whole(self, came: Came, ledger: &[u8]) -> Came {
        if ledger == self.kept {
            came
        } else {
            Came::Wrong
        }
    }

    // Starts a coordinator, which gets the frames from one on.
    fn go_on(self, ledger: &mut MemLedger, from: usize) -> Result<Came, NoMemory> {
        match begun(self.alloc, ledger)? {
            Some(mut node) => hand_rows(self, &mut node, ledger, from),
            None => Ok(Came::Failed(0)),
        }
    }

    // Fails at one call of the link, if it has so many: the ledger is whole all the same, and where it doesn't fail, all is
    // answered.
    fn with_link(self, call: u64, slow: bool) -> Result<Came, NoMemory> {
        let mut ledger = MemLedger::new(self.alloc);
        match begun(self.alloc, &mut ledger)? {
            Some(mut node) => self.over_link(&mut node, &mut ledger, call, slow),
            None => Ok(Came::Wrong),
        }
    }

    fn over_link<N: Node>(
        self,
        node: &mut N,
        ledger: &mut MemLedger,
        call: u64,
        slow: bool,
    ) -> Result<Came, NoMemory> {
        let came = deliver_all(self, node, ledger, call, slow)?;
        Ok(self.came_whole(came, ledger.text()))
    }
}

// A coordinator that begins with what a ledger holds; none where the ledger fails.
fn begun(alloc: Global, ledger: &mut MemLedger) -> Result<Option<Coordinator>, NoMemory> {
    match coordinator(alloc, 1, 1, ledger.text())? {
        (node, Ok(out)) => Ok(is_begun(&out, ledger).then_some(node)),
        (_, Err(_)) => Err(NoMemory),
    }
}

// Carries out the first answer of a node; false where the ledger fails.
fn is_begun(first: &Out, ledger: &mut MemLedger) -> bool {
    begin(first, ledger).is_ok()
}

// Hands over the frames from one on, as far as one whose answer fails or isn't the row's.
fn hand_rows<N: Node>(
    session: Session<'_>,
    node: &mut N,
    ledger: &mut MemLedger,
    from: usize,
) -> Result<Came, NoMemory> {
    for (place, row) in session.rows.split('|').enumerate() {
        if place < from {
            continue;
        }
        match hand(session.alloc, node, ledger, row)? {
            Came::Whole => {}
            Came::Failed(_) => return Ok(Came::Failed(place)),
            Came::Wrong => return Ok(Came::Wrong),
        }
    }
    Ok(Came::Whole)
}

// Hands over a row's frame, whose answer must be the row's; or the ledger fails, nothing is sent, and the node is stopped. Of
// any node: the proof then has no rules of a coordinator to look at.
fn hand<N: Node>(
    alloc: Global,
    node: &mut N,
    ledger: &mut MemLedger,
    row: &str,
) -> Result<Came, NoMemory> {
    let Some((frame, answer)) = row.split_once(" > ") else {
        return Ok(Came::Wrong);
    };
    let mut lines = Lines::new(alloc);
    let mut link = MemLink::new(alloc);
    link.deliver(frame.as_bytes())?;
    link.deliver(b"\n")?;
    match turn(node, &mut lines, &mut link, ledger) {
        Ok(_) if link.sent().strip_suffix(b"\n") == Some(answer.as_bytes()) => Ok(Came::Whole),
        Err(TurnFault::LedgerFault) if link.sent().is_empty() => {
            link.deliver(b"ASK 1\n")?;
            let stopped = Err(TurnFault::Node(NodeFault::Stopped));
            if turn(node, &mut lines, &mut link, ledger) == stopped {
                return Ok(Came::Failed(0));
            }
            Ok(Came::Wrong)
        }
        _ => Ok(Came::Wrong),
    }
}

// Hands over all frames by a link that fails at one of its calls; says whether it did, and else whether all is answered.
fn deliver_all<N: Node>(
    session: Session<'_>,
    node: &mut N,
    ledger: &mut MemLedger,
    call: u64,
    slow: bool,
) -> Result<Came, NoMemory> {
    let mut link = MemLink::new(session.alloc);
    link.fail_at(call);
    link.take_single(slow);
    let mut lines = Lines::new(session.alloc);
    let mut due = Vec::new(session.alloc);
    for row in session.rows.split('|') {
        let Some((frame, answer)) = row.split_once(" > ") else {
            return Ok(Came::Wrong);
        };
        due.extend_from_slice(answer.as_bytes())?;
        due.push(b'\n')?;
        link.deliver(frame.as_bytes())?;
        link.deliver(b"\n")?;
        if !turn_to_the_end(node, &mut lines, &mut link, ledger) {
            return Ok(Came::Wrong);
        }
    }
    if link.failures() > 0 {
        return Ok(Came::Failed(0));
    }
    if link.sent() == due.as_slice() {
        return Ok(Came::Whole);
    }
    Ok(Came::Wrong)
}

// Turns until nothing more comes, also where the link fails in one; says whether nothing else went wrong.
fn turn_to_the_end<N: Node>(
    node: &mut N,
    lines: &mut Lines,
    link: &mut MemLink,
    ledger: &mut MemLedger,
) -> bool {
    for _ in 0..MOST_CALLS {
        match turn(node, lines, link, ledger) {
            Ok(Turn::End) => return true,
            Ok(Turn::More) | Err(TurnFault::LinkFault) => {}
            Err(_) => return false,
        }
    }
    false
}

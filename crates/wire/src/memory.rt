// Links and ledgers in memory.
ghost use Rattle.std.specs.Prelude.{◌≡◌, ◌≢◌, ◌↔◌, OnOk, OnErr, IsErr, ◌++◌, [], IfOk, length, take, ◌≤◌, drop, min};
ghost use Rattle.wire.specs.Fulfilled.{IsDue, no_trouble, called, failed, share, MemoryLedger, MemoryLink};

use crate::engine::{Fault, LedgerOut, Link};
use kind_evidence::NoMemory;
use std::alloc::Global;
use std::marker::Model;

// What a device in memory was set to, and the count of its failures.
#[derive(Clone, Copy, Debug)]
pub(crate) struct Trouble {
    // Which call from now fails; 0 where none does.
    pub failing: u64,
    // The stream moves one byte at a time.
    pub slow: bool,
    pub failures: u64,
}

impl Trouble {
    pub fn none() -> Trouble
        ensures { result ≡ no_trouble }
    {
        Trouble {
            failing: 0,
            slow: false,
            failures: 0,
        }
    }

    // Counts a call, which fails where it is the one that was to fail.
    pub fn begin_call(&mut self) -> Result<(), Fault>
        ensures due { IsErr result ↔ IsDue self.old }
        ensures ok { OnOk result (self.new ≡ called self.old) }
        ensures err { OnErr result ((self.old.failures ≢ self.new.failures) × (self.new ≡ failed (called self.old))) }
    {
        let due = self.failing == 1;
        self.failing = self.failing.saturating_sub(1);
        if due {
            return Err(self.fail());
        }
        Ok(())
    }

    // Counts a failure.
    pub fn fail(&mut self) -> Fault
        ensures failed { self.new ≡ failed self.old }
        ensures count { self.old.failures ≢ self.new.failures }
    {
        self.failures = self.failures.wrapping_add(1);
        Fault
    }

    // How many of so many bytes are moved by one call.
    pub fn share(&self, len: usize) -> usize
        ensures { result ≡ share self.now len }
    {
        if self.slow { len.min(1) } else { len }
    }
}

/// A ledger that keeps its text in memory, for programs and tests. It can be set to fail at a call, or to
/// take one byte at a time. A growth that is refused is a failure of its own.
#[derive(Drop)]
pub struct MemLedger {
    text: Vec<u8>,
    trouble: Trouble,
}

impl Model for MemLedger {
    ghost use Rattle.wire.specs.Fulfilled.{MemoryLedger};

    ghost Value = { MemoryLedger };

    ghost view = { λ a. record { text = a.text.items; trouble = a.trouble } };
}

impl MemLedger {
    /// An empty ledger.
    pub fn new(alloc: Global) -> MemLedger
        ensures { result ≡ record { text = []; trouble = no_trouble } }
    {
        MemLedger::holding(Vec::new(alloc))
    }

    /// A ledger with this text.
    pub fn holding(text: Vec<u8>) -> MemLedger
        ensures { result ≡ record { text = text.items; trouble = no_trouble } }
    {
        MemLedger {
            text,
            trouble: Trouble::none(),
        }
    }

    /// The ledger's text.
    pub fn text(&self) -> &[u8]
        ensures { result.now ≡ self.now.text }
    {
        &self.text
    }

    /// Sets it to fail at a call from now, 1 being the next; 0 takes that back.
    pub fn fail_at(&mut self, call: u64)
        ensures { self.new ≡ record self.old { trouble = record self.old.trouble { failing = call } } }
    {
        self.trouble.failing = call;
    }

    /// Sets whether it takes one byte at a time.
    pub fn take_single(&mut self, slow: bool)
        ensures { self.new ≡ record self.old { trouble = record self.old.trouble { slow = slow } } }
    {
        self.trouble.slow = slow;
    }

    /// The count of its failures; after 18446744073709551615 it begins again at 0.
    pub fn failures(&self) -> u64
        ensures { result ≡ self.now.trouble.failures }
    {
        self.trouble.failures
    }
}

impl LedgerOut for MemLedger {
    ghost use Rattle.std.specs.Prelude.{Some};

    ghost text = { λ m. Some m.text };

    ghost failures = { λ m. m.trouble.failures };

    /// Keeps its first bytes. It fails exactly where it was set to.
    fn cut(&mut self, len: u64) -> Result<(), Fault>
        ensures due { IsErr result ↔ IsDue self.old.trouble }
        ensures ok { OnOk result (self.new ≡ record
            { text = take len self.old.text; trouble = called self.old.trouble }) }
        ensures err { OnErr result (self.new ≡ record
            { text = self.old.text; trouble = failed (called self.old.trouble) }) }
    {
        self.trouble.begin_call()?;
        if len < self.text.len() as u64 {
            self.text.truncate(len as usize);
        }
        Ok(())
    }

    /// Takes all bytes, or one where it was set so. It fails where it was set to, and where memory is
    /// refused; then its text is as it was.
    fn append(&mut self, bytes: &[u8]) -> Result<usize, Fault>
        ensures due { IsDue self.old.trouble → IsErr result }
        ensures ok { IfOk result (λ n. (n ≡ share self.old.trouble (length bytes.now))
            × (self.new ≡ record { text = self.old.text ++ take n bytes.now; trouble = called self.old.trouble })) }
        ensures err { OnErr result (self.new ≡ record
            { text = self.old.text; trouble = failed (called self.old.trouble) }) }
    {
        self.trouble.begin_call()?;
        let count = self.trouble.share(bytes.len());
        if self.text.extend_from_slice(&bytes[..count]).is_err() {
            return Err(self.trouble.fail());
        }
        Ok(count)
    }
}

/// A link that keeps its bytes in memory, for programs and tests: what is delivered to it is received from
/// it, and what it sends stands there to be delivered. It can be set to fail at a call, or to move one byte
/// at a time. A growth that is refused is a failure of its own.
#[derive(Drop)]
pub struct MemLink {
    inbox: Vec<u8>,
    // How many bytes of the inbox were received.
    received: usize,
    outbox: Vec<u8>,
    trouble: Trouble,
}

impl Model for MemLink {
    ghost use Rattle.std.specs.Prelude.{◌≤◌, drop, length};
    ghost use Rattle.wire.specs.Fulfilled.{MemoryLink};

    ghost Value = { MemoryLink };

    ghost view = { λ a. record {
      waiting = drop a.received a.inbox.items;
      sent = a.outbox.items;
      trouble = a.trouble;
    } };

    ghost invariant = { λ a. a.received ≤ length a.inbox.items };
}

impl MemLink {
    /// Nothing is delivered yet, and nothing sent.
    pub fn new(alloc: Global) -> MemLink
        ensures { result ≡ record { waiting = []; sent = []; trouble = no_trouble } }
    {
        MemLink {
            inbox: Vec::new(alloc),
            received: 0,
            outbox: Vec::new(alloc),
            trouble: Trouble::none(),
        }
    }

    /// Delivers bytes, to be received after those that wait.
    pub fn deliver(&mut self, bytes: &[u8]) -> Result<(), NoMemory>
        ensures ok { OnOk result (self.new ≡ record self.old { waiting = self.old.waiting ++ bytes.now }) }
        ensures err { OnErr result (self.new ≡ self.old) }
    {
        // What was received goes once it is the greater part, so that moving the rest costs no more than
        // receiving did.
        if self.received >= self.inbox.len() - self.received {
            drop_front(&mut self.inbox, self.received);
            self.received = 0;
        }
        self.inbox.extend_from_slice(bytes)?;
        Ok(())
    }

    /// What was delivered and not yet received.
    pub fn waiting(&self) -> &[u8]
        ensures { result.now ≡ self.now.waiting }
    {
        &self.inbox[self.received..]
    }

    /// What was sent since it was last cleared.
    pub fn sent(&self) -> &[u8]
        ensures { result.now ≡ self.now.sent }
    {
        &self.outbox
    }

    /// Forgets what was sent, once that is delivered.
    pub fn clear_sent(&mut self)
        ensures { self.new ≡ record self.old { sent = [] } }
    {
        self.outbox.clear();
    }

    /// Sets it to fail at a call from now, 1 being the next; 0 takes that back.
    pub fn fail_at(&mut self, call: u64)
        ensures { self.new ≡ record self.old { trouble = record self.old.trouble { failing = call } } }
    {
        self.trouble.failing = call;
    }

    /// Sets whether it moves one byte at a time.
    pub fn take_single(&mut self, slow: bool)
        ensures { self.new ≡ record self.old { trouble = record self.old.trouble { slow = slow } } }
    {
        self.trouble.slow = slow;
    }

    /// The count of its failures; after 18446744073709551615 it begins again at 0.
    pub fn failures(&self) -> u64
        ensures { result ≡ self.now.trouble.failures }
    {
        self.trouble.failures
    }
}

impl Link for MemLink {
    ghost use Rattle.std.specs.Prelude.{Some};

    ghost waiting = { λ m. Some m.waiting };

    ghost sent = { λ m. Some m.sent };

    ghost failures = { λ m. m.trouble.failures };

    /// Gives all that waits and fits, or one byte where it was set so. It fails exactly where it was set to.
    fn receive(&mut self, buf: &mut [u8]) -> Result<usize, Fault>
        ensures due { IsErr result ↔ IsDue self.old.trouble }
        ensures ok { IfOk result (λ n. (n ≡ share self.old.trouble (min (length buf.new) (length self.old.waiting)))
            × (take n buf.new ≡ take n self.old.waiting)
            × (self.new ≡ record self.old { waiting = drop n self.old.waiting; trouble = called self.old.trouble })) }
        ensures err { OnErr result (self.new ≡ record self.old { trouble = failed (called self.old.trouble) }) }
    {
        self.trouble.begin_call()?;
        let waiting = self.inbox.len() - self.received;
        let count = self.trouble.share(buf.len().min(waiting));
        let end = self.received + count;
        buf[..count].copy_from_slice(&self.inbox[self.received..end]);
        self.received = end;
        Ok(count)
    }

    /// Takes all bytes, or one where it was set so. It fails where it was set to, and where memory is
    /// refused; then it took none.
    fn send(&mut self, bytes: &[u8]) -> Result<usize, Fault>
        ensures due { IsDue self.old.trouble → IsErr result }
        ensures ok { IfOk result (λ n. (n ≡ share self.old.trouble (length bytes.now))
            × (self.new ≡ record self.old {
              sent = self.old.sent
                  ++ take n bytes.now;
              trouble = called self.old.trouble;
            })) }
        ensures err { OnErr result (self.new ≡ record self.old { trouble = failed (called self.old.trouble) }) }
    {
        self.trouble.begin_call()?;
        let count = self.trouble.share(bytes.len());
        if self.outbox.extend_from_slice(&bytes[..count]).is_err() {
            return Err(self.trouble.fail());
        }
        Ok(count)
    }
}

// Takes out the first of some bytes.
fn drop_front(bytes: &mut Vec<u8>, count: usize)
    requires { count ≤ length bytes.old.items }
    ensures { bytes.new.items ≡ drop count bytes.old.items }
{
    let _ = bytes.drain(..count);
}

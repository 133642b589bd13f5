// What a node is handed, what it answers, and what every node promises.
ghost use Rattle.std.specs.Prelude.{◌≡◌, [], None};

use kind_evidence::NoMemory;
use std::alloc::Global;
use std::error::Error;
use std::fmt;

/// What happens to a node.
#[derive(Clone, Copy, Debug)]
pub enum Event<'a> {
    /// A frame came: a line, without its newline.
    Frame(&'a [u8]),
    /// The moment is now this one, a plain number.
    Tick(u64),
    /// There is time to work.
    Work,
}

/// A node's answer: what is to be done to its ledger, and then sent.
#[derive(Debug, Drop)]
pub struct Out {
    /// How many of the ledger's bytes stay; none where it isn't cut.
    pub cut: Option<u64>,
    /// What the ledger gains, after the cut.
    pub append: Vec<u8>,
    /// What is sent, once the ledger has it all: frames, each with its newline.
    pub frames: Vec<u8>,
    /// What there is to say of the event.
    pub note: Note,
}

impl Out {
    // An answer that asks for nothing.
    pub(crate) fn nothing(alloc: Global) -> Out
        ensures cut { result.cut ≡ None }
        ensures append { result.append.items ≡ [] }
        ensures frames { result.frames.items ≡ [] }
    {
        Out {
            cut: None,
            append: Vec::new(alloc),
            frames: Vec::new(alloc),
            note: Note::Quiet,
        }
    }
}

/// What a node says of an event, for whoever watches it.
#[derive(Clone, Copy, Debug, PartialEq, Eq)]
pub enum Note {
    /// Nothing.
    Quiet,
    /// The frame is no message, or none for this role.
    Strange,
    /// The event speaks of what is no more.
    Stale,
    /// The event was refused, with this number.
    Refused(u16),
}

/// Why a node didn't answer. Nothing changed.
#[derive(Clone, Copy, Debug, PartialEq, Eq)]
pub enum NodeFault {
    /// The node was stopped.
    Stopped,
    /// Memory was refused.
    NoMemory,
}

/// Answers events. What it knows stands in a ledger, which is kept in step with it: after each answer that
/// was fulfilled it is in step again.
pub trait Node {
    ghost use Rattle.std.specs.Prelude.{◌≡◌, ◌↔◌, ℕ, List, Result, Err, IfOk, OnErr};
    ghost use Rattle.wire.specs.Fulfilled.{Happening, seen, text_after};
    ghost use Rattle.wire.specs.declared.node.NodeFault.{NodeFault as Failure};
    ghost use Rattle.wire.specs.declared.node.Out.{Out as Answer};

    /// The node was stopped, or never started.
    ghost is_stopped: { Self → Type 0 };

    /// A ledger with this text is in step with it.
    ghost in_step: { Self → List ℕ → Type 0 };

    /// To what happens it may give this answer, and become so.
    ghost answers: { Self → Happening → Result Answer Failure → Self → Type 0 };

    /// What happens leaves what is final of what it holds as it was.
    ghost keeps_final: { Self → Happening → Self → Type 0 };

    /// Hands it an event. `Stopped` where it was stopped.
    fn on(&mut self, e: Event<'_>) -> Result<Out, NodeFault>
        ensures answer { answers self.old (seen e.entry) result self.new }
        ensures final_kept { keeps_final self.old (seen e.entry) self.new }
        ensures step { IfOk result (λ out. (text : List ℕ) → in_step self.old text
            → in_step self.new (text_after out text)) }
        ensures fault { OnErr result ((text : List ℕ) → in_step self.old text → in_step self.new text) }
        ensures refused { result ≡ Err NodeFault.Stopped ↔ is_stopped self.old }
        ensures stopped { is_stopped self.new ↔ is_stopped self.old };

    /// Stops it: from now on it answers every event by `Stopped`.
    fn stop(&mut self)
        ensures stopped { is_stopped self.new }
        ensures step { (text : List ℕ) → in_step self.old text ↔ in_step self.new text };
}

impl Note {
    ghost use Rattle.wire.specs.Message.{note_number};

    /// The refusal number: 501, or that of the refusal; none where nothing was refused.
    pub fn number(&self) -> Option<u16>
        ensures { result ≡ note_number self.now }
    {
        match self {
            Note::Strange => Some(501),
            Note::Refused(number) => Some(*number),
            Note::Quiet | Note::Stale => None,
        }
    }
}

impl NodeFault {
    ghost use Rattle.wire.specs.Message.{node_fault_number};

    /// The refusal number: 502; none where memory was refused.
    pub fn number(&self) -> Option<u16>
        ensures { result ≡ node_fault_number self.now }
    {
        match self {
            NodeFault::Stopped => Some(502),
            NodeFault::NoMemory => None,
        }
    }
}

impl fmt::Display for NodeFault {
    ghost use Rattle.std.specs.Prelude.{Some};
    ghost use Rattle.wire.specs.Message.{node_fault_text};

    ghost output = { λ fault. Some (node_fault_text fault) };

    fn fmt<W: fmt::Write>(&self, f: &mut fmt::Formatter<W>) -> fmt::Result {
        match self {
            NodeFault::Stopped => f.write_str("the node is stopped"),
            NodeFault::NoMemory => f.write_str("out of memory"),
        }
    }
}

impl Error for NodeFault {}

impl From<NoMemory> for NodeFault {
    ghost use Rattle.wire.specs.declared.node.NodeFault.TheVariants.{NoMemory};

    ghost from_gives = { λ _ e. e ≡ NoMemory };

    fn from(_: NoMemory) -> NodeFault {
        NodeFault::NoMemory
    }
}

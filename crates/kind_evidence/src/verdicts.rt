// What evidence is, what it says of a table, why it is refused, and sides in text.
ghost use Rattle.std.specs.Prelude.{◌≡◌};
ghost use Rattle.kind_evidence.specs.Verdict.{side_of, side_text};

use machine_text::{Dir, Table};
use std::alloc::{AllocError as NoMemory, Global};
use std::error::Error;
use std::fmt;

/// Evidence for a verdict: a claim about tables that can be checked. What it claims is its ghost member
/// `meaning`; the `law` says that it makes the verdict true of the table, and every implementation proves it.
pub trait Evidence {
    ghost use Rattle.std.specs.Prelude.{◌≡◌, ◌⊎◌, Err, IfOk};
    ghost use Rattle.machine_text.specs.Terms.{Packed, IsTable, entry_of};
    ghost use Rattle.kind_evidence.specs.declared.verdicts.Verdict.{Verdict as Said};
    ghost use Rattle.kind_evidence.specs.Verdict.{Meaning, IsTrueOf};

    /// What the claim means: when it is so of a table, and what its check asks for.
    ghost meaning: { Self → Meaning };

    /// The verdict on a table for which the claim is made.
    ghost shows: { Self → Packed → Said };

    /// Checks the claim. The limit is judged first, then whether it is too wide, then whether it stands. Its numbers
    /// overflow, it is not seen, and memory is refused only where the claim allows for it.
    fn check(&self, alloc: Global, t: &Table) -> Result<Verdict, Refused>
        ensures ok { IfOk result (λ v. (v ≡ shows self.now t.now) × (meaning self.now).within
            × (meaning self.now).stands t.now × ((meaning self.now).wide t.now → ⊥)) }
        ensures fails { result ≡ Err Refused.Fails → (meaning self.now).within × ((meaning self.now).wide t.now → ⊥)
            × ((meaning self.now).stands t.now → ⊥) }
        ensures long { result ≡ Err Refused.TooLong → (meaning self.now).within → ⊥ }
        ensures wide { result ≡ Err Refused.TooWide → (meaning self.now).within
            × ((meaning self.now).wide t.now ⊎ (meaning self.now).overflows t.now) }
        ensures unseen { result ≡ Err Refused.NotSeen → (meaning self.now).unseen t.now }
        ensures memory { result ≡ Err Refused.NoMemory → (meaning self.now).takes_memory t.now };

    /// A claim that stands makes its verdict true.
    ghost law: { (e : Self) (p : Packed) → IsTable p → (meaning e).stands p → IsTrueOf (shows e p) (entry_of p) };
}

/// The side that a text names, by `L` or `R`.
pub fn side_of(text: &[u8]) -> Option<Dir>
    ensures { result ≡ side_of text.now }
{
    if text == b"L".as_slice() {
        Some(Dir::L)
    } else if text == b"R".as_slice() {
        Some(Dir::R)
    } else {
        None
    }
}

/// The text of a side.
pub fn side_text(side: Dir) -> &'static [u8]
    ensures { result.now ≡ side_text side }
{
    match side {
        Dir::L => b"L",
        Dir::R => b"R",
    }
}

/// What is said of a table's run from the blank tape.
#[derive(Clone, Copy, Debug, PartialEq, Eq)]
pub enum Verdict {
    /// The table halts in so many steps, with so many ones on its tape then; the halting step counts and writes a one
    /// (Radó 1962).
    Halts { steps: u64, ones: u64 },
    /// The table never halts.
    Never,
}

/// How a table's run from the blank tape ends: a verdict without the ones, which aren't known before it is run.
#[derive(Clone, Copy, Debug, PartialEq, Eq)]
pub enum Ending {
    /// The table halts in so many steps; the halting step counts (Radó 1962).
    Halts(u64),
    /// The table never halts.
    Never,
}

/// Why evidence was refused.
#[derive(Clone, Copy, Debug, PartialEq, Eq)]
pub enum Refused {
    /// The evidence doesn't hold for the table.
    Fails,
    /// The evidence asks for more than its kind's limit, and isn't looked at.
    TooLong,
    /// The check asks for more than its kind allows: more paths of one depth than backward reasoning keeps, or larger
    /// numbers than counted automata may have.
    TooWide,
    /// The check ended without having seen whether the evidence holds: nothing is known of the table.
    NotSeen,
    /// Memory was refused.
    NoMemory,
}

impl Refused {
    ghost use Rattle.std.specs.Prelude.{◌≡◌};
    ghost use Rattle.kind_evidence.specs.Verdict.{refused_number};

    /// The refusal number: 201 to 204; none where memory was refused.
    pub fn number(&self) -> Option<u16>
        ensures { result ≡ refused_number self.now }
    {
        match self {
            Refused::Fails => Some(201),
            Refused::TooLong => Some(202),
            Refused::TooWide => Some(203),
            Refused::NotSeen => Some(204),
            Refused::NoMemory => None,
        }
    }
}

impl fmt::Display for Refused {
    fn fmt<W: fmt::Write>(&self, f: &mut fmt::Formatter<W>) -> fmt::Result {
        match self {
            Refused::Fails => write!(f, "it does not hold for the table"),
            Refused::TooLong => write!(f, "it asks for more than the limit of its kind"),
            Refused::TooWide => write!(
                f,
                "it asks for more paths, or larger numbers, than its check keeps"
            ),
            Refused::NotSeen => write!(f, "its run is not seen to repeat"),
            Refused::NoMemory => write!(f, "out of memory"),
        }
    }
}

impl Error for Refused {}

impl From<NoMemory> for Refused {
    ghost use Rattle.std.specs.Prelude.{◌≡◌};
    ghost use Rattle.kind_evidence.specs.declared.verdicts.Refused.TheVariants.{NoMemory};

    ghost from_gives = { λ _ e. e ≡ NoMemory };

    fn from(_: NoMemory) -> Refused {
        Refused::NoMemory
    }
}

// Why calls of a board are refused, and what becomes of what isn't.
ghost use Rattle.std.specs.Prelude.{◌≡◌};

use kind_evidence::{NoMemory, Refused};
use std::error::Error;
use std::fmt;

/// Why there is no board.
#[derive(Clone, Copy, Debug, PartialEq, Eq)]
pub enum BoardFault {
    /// The root doesn't name its states in order.
    NotInOrder,
    /// Memory was refused.
    NoMemory,
}

/// Why an offered record wasn't taken. Nothing changed.
#[derive(Clone, Copy, Debug, PartialEq, Eq)]
pub enum OfferFault {
    /// The record's table has another number of states than the root.
    WrongSize,
    /// The record's table is neither open nor a holdout.
    NotOpen,
    /// The record's certificate was refused, and not because memory was refused.
    Refused(Refused),
    /// Memory was refused.
    NoMemory,
}

/// Why a ledger's text wasn't loaded.
#[derive(Clone, Copy, Debug, PartialEq, Eq)]
pub enum LoadFault {
    /// The first line is no header with a table that reads, or the text has no newline and doesn't begin
    /// as a header does.
    BadHeader,
    /// The header is of another root than was asked for, or of a table that doesn't name its states in
    /// order.
    WrongRoot,
    /// Memory was refused.
    NoMemory,
}

/// Why two boards weren't merged.
#[derive(Clone, Copy, Debug, PartialEq, Eq)]
pub enum MergeFault {
    /// The roots differ. Nothing changed.
    WrongRoot,
    /// Memory was refused. A beginning of the other board's records was taken in.
    NoMemory,
}

impl BoardFault {
    ghost use Rattle.ledger.specs.Faults.{board_fault_number};

    /// The refusal number: 401; none where memory was refused.
    pub fn number(&self) -> Option<u16>
        ensures { result ≡ board_fault_number self.now }
    {
        match self {
            BoardFault::NotInOrder => Some(401),
            BoardFault::NoMemory => None,
        }
    }
}

impl OfferFault {
    ghost use Rattle.ledger.specs.Faults.{offer_fault_number};

    /// The refusal number: 402, 403, or that of the certificate; none where memory was refused.
    pub fn number(&self) -> Option<u16>
        ensures { result ≡ offer_fault_number self.now }
    {
        match self {
            OfferFault::NotOpen => Some(402),
            OfferFault::WrongSize => Some(403),
            OfferFault::Refused(refused) => refused.number(),
            OfferFault::NoMemory => None,
        }
    }
}

impl LoadFault {
    ghost use Rattle.ledger.specs.Faults.{load_fault_number};

    /// The refusal number: 404, 405; none where memory was refused.
    pub fn number(&self) -> Option<u16>
        ensures { result ≡ load_fault_number self.now }
    {
        match self {
            LoadFault::BadHeader => Some(404),
            LoadFault::WrongRoot => Some(405),
            LoadFault::NoMemory => None,
        }
    }
}

impl MergeFault {
    ghost use Rattle.ledger.specs.Faults.{merge_fault_number};

    /// The refusal number: 405; none where memory was refused.
    pub fn number(&self) -> Option<u16>
        ensures { result ≡ merge_fault_number self.now }
    {
        match self {
            MergeFault::WrongRoot => Some(405),
            MergeFault::NoMemory => None,
        }
    }
}

impl fmt::Display for BoardFault {
    ghost use Rattle.std.specs.Prelude.{Some};
    ghost use Rattle.ledger.specs.Faults.{board_fault_text};

    ghost output = { λ fault. Some (board_fault_text fault) };

    fn fmt<W: fmt::Write>(&self, f: &mut fmt::Formatter<W>) -> fmt::Result {
        match self {
            BoardFault::NotInOrder => f.write_str("the root does not name its states in order"),
            BoardFault::NoMemory => f.write_str("out of memory"),
        }
    }
}

impl fmt::Display for OfferFault {
    ghost use Rattle.std.specs.Prelude.{Some};
    ghost use Rattle.ledger.specs.Faults.{offer_fault_text};

    ghost output = { λ fault. Some (offer_fault_text fault) };

    fn fmt<W: fmt::Write>(&self, f: &mut fmt::Formatter<W>) -> fmt::Result {
        match self {
            OfferFault::WrongSize => f.write_str(
                "the table has another number of states than the root",
            ),
            OfferFault::NotOpen => f.write_str("the table is neither open nor a holdout"),
            OfferFault::Refused(Refused::Fails) => f.write_str(
                "the certificate does not stand for the table",
            ),
            OfferFault::Refused(Refused::TooLong) => f.write_str(
                "the certificate asks for more than its limit",
            ),
            OfferFault::Refused(Refused::TooWide) => f.write_str(
                "the certificate needs more paths at one depth than are kept",
            ),
            OfferFault::Refused(Refused::NotSeen) => f.write_str(
                "the check ended without an answer",
            ),
            OfferFault::Refused(Refused::NoMemory) | OfferFault::NoMemory => f.write_str(
                "out of memory",
            ),
        }
    }
}

impl fmt::Display for LoadFault {
    ghost use Rattle.std.specs.Prelude.{Some};
    ghost use Rattle.ledger.specs.Faults.{load_fault_text};

    ghost output = { λ fault. Some (load_fault_text fault) };

    fn fmt<W: fmt::Write>(&self, f: &mut fmt::Formatter<W>) -> fmt::Result {
        match self {
            LoadFault::BadHeader => f.write_str("the first line is no header of a ledger"),
            LoadFault::WrongRoot => f.write_str(
                "the ledger is of another root, or of one that does not name its states in order",
            ),
            LoadFault::NoMemory => f.write_str("out of memory"),
        }
    }
}

impl fmt::Display for MergeFault {
    ghost use Rattle.std.specs.Prelude.{Some};
    ghost use Rattle.ledger.specs.Faults.{merge_fault_text};

    ghost output = { λ fault. Some (merge_fault_text fault) };

    fn fmt<W: fmt::Write>(&self, f: &mut fmt::Formatter<W>) -> fmt::Result {
        match self {
            MergeFault::WrongRoot => f.write_str("the boards are of different roots"),
            MergeFault::NoMemory => f.write_str("out of memory"),
        }
    }
}

impl Error for BoardFault {}

impl Error for OfferFault {}

impl Error for LoadFault {}

impl Error for MergeFault {}

impl From<NoMemory> for BoardFault {
    ghost use Rattle.ledger.specs.declared.faults.BoardFault.TheVariants.{NoMemory};

    ghost from_gives = { λ _ e. e ≡ NoMemory };

    fn from(_: NoMemory) -> BoardFault {
        BoardFault::NoMemory
    }
}

impl From<NoMemory> for OfferFault {
    ghost use Rattle.ledger.specs.declared.faults.OfferFault.TheVariants.{NoMemory};

    ghost from_gives = { λ _ e. e ≡ NoMemory };

    fn from(_: NoMemory) -> OfferFault {
        OfferFault::NoMemory
    }
}

impl From<NoMemory> for LoadFault {
    ghost use Rattle.ledger.specs.declared.faults.LoadFault.TheVariants.{NoMemory};

    ghost from_gives = { λ _ e. e ≡ NoMemory };

    fn from(_: NoMemory) -> LoadFault {
        LoadFault::NoMemory
    }
}

// How a board stands.
/// How a board stands.
#[derive(Clone, Copy, Debug, PartialEq, Eq)]
pub enum Status {
    /// So many tables are open.
    Working {
        count: u64,
    },
    /// No table is open, but so many are holdouts.
    Holdouts {
        count: u64,
    },
    /// No table is open and none is a holdout. The greatest number of steps recorded of a table that halts, and the
    /// greatest score, or none where none does.
    Complete {
        best: Option<u64>,
        ones: Option<u64>,
    },
}

// What becomes of an offered record that isn't refused.
/// What became of an offered record.
#[derive(Clone, Copy, Debug, PartialEq, Eq)]
pub enum Taken {
    /// The table was open, and has the record now.
    New,
    /// The table had a verdict, or was a holdout for which no verdict was offered. Nothing changed.
    Known,
    /// The table was a holdout, and has a verdict now.
    Settled,
}

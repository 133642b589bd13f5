//! Pages: one HTML file each, which needs no server and asks for nothing from elsewhere.
//!
//! `specs/Page` is the text of a board's page, a shell about the title, what the page is made from, and the report, as
//! lines for a reader without scripts, and as JSON. It has the page of records too, an object of JSON for each line of
//! a stream; the page of one ledger that holds the records of a trunk and of all its parts, and which bytes are summed
//! for it; what a page tells of the program and the ledgers that it is made from, so that it can be cited; and how a
//! text of any bytes stands in HTML. `specs/Census` is what is counted beside that, of one board or of many: how many
//! records there are of each kind, of tables with so many entries, and of tables that halt in so many steps.
//! `specs/inside` is for the code alone.
//!
//! The shell is constants that definitions cite: `look` has how a page looks, `picture` what draws a run, `script`
//! what draws the rest from the JSON. No contract speaks of what those do.
#![tactic(auto)]

mod census;
mod heading;
mod look;
mod page;
mod picture;
mod records;
mod script;
mod shell;
mod sums;

pub use heading::Maker;
pub use page::{folder_page_at, write_ledger_page};
pub use records::record_page_for;
pub use shell::{embedded_begins_no_tag, escaped_is_plain};
pub use sums::sum_of;

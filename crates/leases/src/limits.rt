// The limits of leases.
ghost use Rattle.std.specs.Prelude.{◌<◌, ◌↔◌, IsTrue};
ghost use Rattle.leases.specs.Limits.{lease_limit, last_number};

use machine_text::MAX_STATES;

/// So many leases live at most.
pub const MAX_LEASES: usize = 4096;

/// A lease lasts for so long after it was given or renewed.
pub const LEASE_TIME: u64 = 60;

/// A table has so many children at most: to each of its states four.
pub(crate) const MAX_CHILDREN: usize = 4 * MAX_STATES as usize;

// Whether one more lease may live, and a number is left for it.
pub(crate) fn may_grant(live: usize, given: u64) -> bool
    ensures { IsTrue result ↔ ((live < lease_limit) × (given < last_number)) }
{
    live < MAX_LEASES && given < u64::MAX
}

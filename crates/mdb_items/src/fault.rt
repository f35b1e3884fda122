//! Why three sheets give no mission database.

use std::alloc::AllocError;

/// The sheets of a mission database.
#[derive(Drop, Clone, Copy, Debug, PartialEq, Eq)]
pub enum MdbSheet {
    Parameters,
    Calibrations,
    Containers,
}

/// The quantities that a mission database limits.
#[derive(Drop, Clone, Copy, Debug, PartialEq, Eq)]
pub enum MdbLimit {
    Calibrations,
    CalibrationRows,
    Parameters,
    Containers,
    Entries,
}

/// Why three sheets give no mission database.
#[derive(Drop, Debug, PartialEq, Eq)]
pub enum MdbFault {
    /// The first rule that is broken, and the row, counted from 1 with the header.
    Bad {
        sheet: MdbSheet,
        row: usize,
        rule: u8,
    },
    /// The first quantity that passes its limit, and that limit.
    Limit {
        which: MdbLimit,
        number: usize,
    },
    OutOfMemory,
}

impl From<AllocError> for MdbFault {
    ghost use Rattle.std.specs.Prelude.{◌≡◌};
    ghost use Rattle.mdb_items.specs.declared.fault.MdbFault.TheVariants.{OutOfMemory};

    ghost from_gives = { λ _ e. e ≡ OutOfMemory };

    fn from(_: AllocError) -> MdbFault {
        MdbFault::OutOfMemory
    }
}

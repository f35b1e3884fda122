// Why a call of a journal was refused.
ghost use Rattle.std.specs.Prelude.{◌≡◌};
ghost use Rattle.disk_journal.specs.Faults.{wrote_of};
ghost use Rattle.disk_journal.specs.declared.fault.JournalFault.TheVariants.{OutOfMemory};

use std::alloc::{AllocError, AllocFailed};
use thiserror::Error;

#[derive(Debug, Drop, PartialEq, Eq, Error)]
pub enum JournalFault {
    #[error("the file holds a journal")]
    Exists,
    #[error("the file holds no journal")]
    NoArchive,
    /// The open record at this gate, in octets from the file's start, passes the file's end.
    #[error("the journal is damaged at octet {at}")]
    Damaged {
        at: u64,
    },
    /// A write or a sync has failed since the last heal; the disk's count of faults stood so.
    #[error("the journal must be healed after fault {faults}")]
    NeedsReopen {
        faults: u64,
    },
    #[error("the journal has as many records as it may")]
    Limit,
    /// A call of the disk failed.
    #[error("the disk failed")]
    DiskFault {
        /// Whether that was a write or a sync; else it was a look.
        wrote: bool,
    },
    #[error("out of memory")]
    OutOfMemory,
}

impl JournalFault {
    /// Whether a write or a sync of the disk failed in the call.
    pub fn wrote(&self) -> bool
        ensures { result ≡ wrote_of self.now }
    {
        match self {
            JournalFault::DiskFault { wrote } => *wrote,
            JournalFault::Exists
            | JournalFault::NoArchive
            | JournalFault::Damaged { .. }
            | JournalFault::NeedsReopen { .. }
            | JournalFault::Limit
            | JournalFault::OutOfMemory => false,
        }
    }
}

impl<T: Drop> From<AllocFailed<T>> for JournalFault {
    ghost from_gives = { λ _ e. e ≡ OutOfMemory };

    fn from(_: AllocFailed<T>) -> Self {
        JournalFault::OutOfMemory
    }
}

impl From<AllocError> for JournalFault {
    ghost from_gives = { λ _ e. e ≡ OutOfMemory };

    fn from(_: AllocError) -> Self {
        JournalFault::OutOfMemory
    }
}

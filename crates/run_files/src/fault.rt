//! Why a call of a run was refused.

ghost use Rattle.std.specs.Prelude.{◌≡◌};
ghost use Rattle.run_files.specs.declared.fault.RunFault.TheVariants.{OutOfMemory};

use std::alloc::{AllocError, AllocFailed};
use thiserror::Error;

#[derive(Debug, Drop, PartialEq, Eq, Error)]
pub enum RunFault {
    /// The file has no index and footer of a run, at octet 0, or its first broken page begins at this octet.
    #[error("the run in file {file} is damaged at octet {at}")]
    Damaged {
        file: u32,
        at: u64,
    },
    #[error("the run has more rows than a history may have")]
    Limit,
    /// A call of the disk failed.
    #[error("the disk failed")]
    DiskFault {
        /// Whether that was a write, a cut or a sync; else it was a look.
        wrote: bool,
    },
    #[error("out of memory")]
    OutOfMemory,
}

impl<T: Drop> From<AllocFailed<T>> for RunFault {
    ghost from_gives = { λ _ e. e ≡ OutOfMemory };

    fn from(_: AllocFailed<T>) -> Self {
        RunFault::OutOfMemory
    }
}

impl From<AllocError> for RunFault {
    ghost from_gives = { λ _ e. e ≡ OutOfMemory };

    fn from(_: AllocError) -> Self {
        RunFault::OutOfMemory
    }
}

//! Why a source gives no rows.

use std::alloc::AllocError;

/// Why a source gives no rows.
#[derive(Clone, Copy, Debug, PartialEq, Eq)]
pub enum RowFault {
    /// The disk failed.
    DiskFault,
    /// The file breaks its format at this octet.
    Damaged { file: u32, at: u64 },
    /// There was no memory.
    OutOfMemory,
}

impl From<AllocError> for RowFault {
    ghost use Rattle.std.specs.Prelude.{◌≡◌};
    ghost use Rattle.arch_types.specs.declared.row_fault.RowFault.TheVariants.{OutOfMemory};

    ghost from_gives = { λ _ fault. fault ≡ OutOfMemory };

    fn from(_error: AllocError) -> RowFault {
        RowFault::OutOfMemory
    }
}

//! Why a text isn't printed.

use crate::fault::Failed;
use std::alloc::AllocError;

/// Why a text isn't printed to its end. Texts of rows in memory have neither of the faults of a disk.
#[derive(Clone, Copy, Debug, PartialEq, Eq)]
pub enum PrintFault {
    /// A write failed.
    Write,
    /// The disk failed where what is printed is read from it.
    DiskFault,
    /// The file that is printed from breaks its format at this octet.
    Damaged { file: u32, at: u64 },
    OutOfMemory,
}

impl From<Failed> for PrintFault {
    ghost use Rattle.std.specs.Prelude.{◌≡◌};
    ghost use Rattle.outer_traits.specs.declared.print_fault.PrintFault.TheVariants.{Write};

    ghost from_gives = { λ _ fault. fault ≡ Write };

    fn from(_error: Failed) -> PrintFault {
        PrintFault::Write
    }
}

impl From<AllocError> for PrintFault {
    ghost use Rattle.std.specs.Prelude.{◌≡◌};
    ghost use Rattle.outer_traits.specs.declared.print_fault.PrintFault.TheVariants.{OutOfMemory};

    ghost from_gives = { λ _ fault. fault ≡ OutOfMemory };

    fn from(_error: AllocError) -> PrintFault {
        PrintFault::OutOfMemory
    }
}

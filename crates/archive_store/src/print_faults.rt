//! Rows that aren't read, where a text of them is printed.

ghost use Rattle.std.specs.Prelude.{◌≡◌};
ghost use Rattle.archive_store.specs.PrintFaults.{print_fault_of};

use arch_types::row_fault::RowFault;
use outer_traits::print_fault::PrintFault;

/// Why a text isn't printed whose rows aren't read.
pub fn print_fault_of(fault: RowFault) -> PrintFault
    ensures { result ≡ print_fault_of fault }
{
    match fault {
        RowFault::DiskFault => PrintFault::DiskFault,
        RowFault::Damaged { file, at } => PrintFault::Damaged { file, at },
        RowFault::OutOfMemory => PrintFault::OutOfMemory,
    }
}

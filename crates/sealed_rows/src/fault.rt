//! Refusals of runs as refusals of rows.

ghost use Rattle.std.specs.Prelude.{◌≡◌};
ghost use Rattle.sealed_rows.specs.Calls.{row_fault};

use arch_types::row_fault::RowFault;
use run_files::RunFault;

/// Why a run gives no page, as why a source gives no rows. No page is refused for a limit.
pub(crate) fn row_fault(fault: RunFault) -> RowFault
    ensures { result ≡ row_fault fault }
{
    match fault {
        RunFault::Damaged { file, at } => RowFault::Damaged { file, at },
        RunFault::DiskFault { wrote: _ } => RowFault::DiskFault,
        RunFault::Limit | RunFault::OutOfMemory => RowFault::OutOfMemory,
    }
}

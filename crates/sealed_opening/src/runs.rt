//! The runs that a seal names, read whole.

ghost use Rattle.std.specs.Prelude.{◌≡◌, IfErr, IfOk, OnOk};
ghost use Rattle.arch_disk.specs.Disk.{NoFault, OnlyReads};
ghost use Rattle.sealed_opening.specs.ReadRefusals.{IsReadRefusal};
ghost use Rattle.sealed_opening.specs.Runs.{AreRunRowsNoted, IsDamagedRun, IsRunNoteFault, IsRunNoted, run_refusal};

use crate::so_far::SealedSoFar;
use arch_disk::Disk;
use archive_images::Head;
use refusals::Refusal;
use run_files::{Run, RunFault, RunOpening};
use seal_codec::SealedRun;
use std::alloc::Global;

/// The refusal for a fault of a run. No run is refused here for its number of rows.
fn refusal_of_run(fault: RunFault) -> Refusal
    ensures { result ≡ run_refusal fault }
{
    match fault {
        RunFault::Damaged { file, at } => Refusal::Damaged { file, at },
        RunFault::DiskFault { .. } => Refusal::DiskFault,
        RunFault::Limit | RunFault::OutOfMemory => Refusal::OutOfMemory,
    }
}

/// Reads a run whole, page after page, and notes its rows.
fn note_pages<D: Disk>(
    alloc: Global,
    disk: &mut D,
    head: &Head,
    file: u32,
    so_far: &mut SealedSoFar,
) -> Result<Run, RunFault>
    ensures noted { IfOk result (λ run. AreRunRowsNoted D.device disk.old head.now file run so_far.old so_far.new) }
    ensures refused { IfErr result (IsRunNoteFault D.device file disk.old disk.new) }
    ensures looked { OnlyReads D.device disk.old disk.new }
    ensures no_fault { OnOk result (NoFault D.device disk.old disk.new) }
{
    let mut opening = RunOpening::begin_synced(alloc, disk, file)?;
    'pages: while let Some(page) = opening.next(alloc, disk)? {
        so_far.note_page(head, &page)?;
    }
    Ok(opening.finish())
}

/// Reads a run of a seal whole and notes its rows; the run stands behind those before.
pub(crate) fn read_run<D: Disk>(
    alloc: Global,
    disk: &mut D,
    head: &Head,
    named: SealedRun,
    so_far: &mut SealedSoFar,
) -> Result<(), Refusal>
    ensures read { OnOk result (IsRunNoted D.device disk.old head.now named so_far.old so_far.new) }

    // Refused: at octet 0 where it has no index, else at the first broken page; a read failed; or memory is wanting.
    ensures refused { IfErr result (IsReadRefusal
        (IsDamagedRun (D.device.reads disk.old) named.file) D.device disk.old disk.new) }
    ensures looked { OnlyReads D.device disk.old disk.new }
    ensures no_fault { OnOk result (NoFault D.device disk.old disk.new) }
{
    let run = match note_pages(alloc, disk, head, named.file, so_far) {
        Ok(run) => run,
        Err(fault) => return Err(refusal_of_run(fault)),
    };
    so_far.note_run(run, named.table)?;
    Ok(())
}

//! The position of a key in runs.

ghost use Rattle.std.specs.Prelude.{◌≡◌, IsTrue, OnOk, IfOk, IfErr};
ghost use Rattle.arch_disk.specs.Disk.{NoFault, OnlyReads};
ghost use Rattle.run_files.specs.Run.{IsRunOn, run_file};
ghost use Rattle.sealed_rows.specs.Rows.{rows_in, rows_of_runs};
ghost use Rattle.sealed_rows.specs.Calls.{AreRunsOn, IsPlaceOf, IsReadFault};

use crate::fault::row_fault;
use arch_disk::Disk;
use arch_types::key::Key;
use arch_types::row_fault::RowFault;
use run_files::Run;
use std::alloc::Global;

/// The position of the row of a table with a key in a run: at most one read of the disk, and none of a run of another
/// table.
fn position_in<D: Disk>(
    alloc: Global,
    disk: &mut D,
    run: &Run,
    table: u8,
    key: Key,
) -> Result<Option<u64>, RowFault>
    requires held { IsTrue D.device.is_transparent → IsRunOn D.device run.now disk.old }
    ensures place { IsTrue D.device.is_transparent → IfOk result
        (IsPlaceOf (rows_in (D.device.reads disk.old (run_file run.now)) run.now) table key) }
    ensures refused { IfErr result (IsReadFault D.device disk.old disk.new) }
    ensures told { OnOk result (NoFault D.device disk.old disk.new) }
    ensures looked { OnlyReads D.device disk.old disk.new }
{
    if run.table() != table {
        return Ok(None);
    }
    match run.position(alloc, disk, key) {
        Ok(position) => Ok(position),
        Err(fault) => Err(row_fault(fault)),
    }
}

/// The position of the row of a table with a key in any of some runs: at most one read of the disk a run, and none where
/// the key is outside all pages of it.
pub fn find_position<D: Disk>(
    alloc: Global,
    disk: &mut D,
    runs: &[Run],
    table: u8,
    key: Key,
) -> Result<Option<u64>, RowFault>
    requires held { IsTrue D.device.is_transparent → AreRunsOn D.device runs.now disk.old }
    ensures place { IsTrue D.device.is_transparent → IfOk result
        (IsPlaceOf (rows_of_runs (D.device.reads disk.old) runs.now) table key) }
    ensures refused { IfErr result (IsReadFault D.device disk.old disk.new) }
    ensures told { OnOk result (NoFault D.device disk.old disk.new) }
    ensures looked { OnlyReads D.device disk.old disk.new }
{
    for run in runs {
        if let Some(position) = position_in(alloc, disk, run, table, key)? {
            return Ok(Some(position));
        }
    }
    Ok(None)
}

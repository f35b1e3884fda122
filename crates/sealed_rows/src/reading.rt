//! The rows of runs that are wanted, read page by page.

ghost use Rattle.std.specs.Prelude.{◌≡◌, ◌++◌, ◌<◌, List, IsTrue, OnOk, IfOk, IfErr};
ghost use Rattle.std.specs.List.{AllByRecursion, Contains};
ghost use Rattle.arch_disk.specs.Disk.{NoFault, OnlyReads};
ghost use Rattle.joined_rows.specs.Rising.{HaveRisingKeys};
ghost use Rattle.run_pages.specs.Placed.{Placed};
ghost use Rattle.run_pages.specs.Pages.{rows_of_page};
ghost use Rattle.run_pages.specs.Runs.{page_of_rows};
ghost use Rattle.run_files.specs.Calls.{IsRisingPage};
ghost use Rattle.run_files.specs.Run.{HoldsRun, IsRunOn, page_count, run_file, run_table};
ghost use Rattle.sealed_rows.specs.Rows.{rows_in, rows_of_runs};
ghost use Rattle.sealed_rows.specs.Wanted.{IsRowWanted, rows_wanted};
ghost use Rattle.sealed_rows.specs.Calls.{AreRunsOn, IsReadFault};
ghost use Rattle.sealed_rows.specs.Gathered.{gathered_of, history_wanted, wanted_of};
ghost use Rattle.sealed_rows.specs.Sealed.{AreSealed, sealed_state};

use crate::fault::row_fault;
use crate::page_span::pages_with;
use crate::wanted::{Wanted, add_page};
use arch_disk::Disk;
use arch_types::row::{Row, Rows};
use arch_types::row_fault::RowFault;
use joined_rows::rising::rising_by_key;
use run_files::Run;
use run_pages::PageRows;
use std::alloc::Global;

/// A page of a run. One read of the disk.
fn read_page<D: Disk>(
    alloc: Global,
    disk: &mut D,
    run: &Run,
    page: u32,
) -> Result<PageRows, RowFault>
    requires page { page < page_count run.now }
    requires held { IsTrue D.device.is_transparent → IsRunOn D.device run.now disk.old }
    ensures rows { IsTrue D.device.is_transparent → (rows : List Placed) →
        HoldsRun D.device run.now rows disk.old → IfOk result (λ held. rows_of_page held ≡ page_of_rows page rows) }
    ensures rising { IfOk result (λ held. IsRisingPage run.now page held) }
    ensures refused { IfErr result (IsReadFault D.device disk.old disk.new) }
    ensures told { OnOk result (NoFault D.device disk.old disk.new) }
    ensures looked { OnlyReads D.device disk.old disk.new }
{
    match run.rows_of(alloc, disk, page) {
        Ok(held) => Ok(held),
        Err(fault) => Err(row_fault(fault)),
    }
}

/// Rows, and then those of a run of the table that are wanted: each page that may have one is read once.
fn add_pages<D: Disk>(
    alloc: Global,
    disk: &mut D,
    run: &Run,
    wanted: Wanted,
    mut rows: Vec<Row>,
) -> Result<Vec<Row>, RowFault>
    requires held { IsTrue D.device.is_transparent → IsRunOn D.device run.now disk.old }
    requires table { run_table run.now ≡ wanted.table }
    requires each { AllByRecursion (IsRowWanted wanted) rows.items }
    ensures rows { IsTrue D.device.is_transparent → IfOk result (λ all. all.items
        ≡ rows.items ++ rows_wanted wanted (rows_in (D.device.reads disk.old (run_file run.now)) run.now)) }
    ensures each { IfOk result (λ all. AllByRecursion (IsRowWanted wanted) all.items) }
    ensures refused { IfErr result (IsReadFault D.device disk.old disk.new) }
    ensures told { OnOk result (NoFault D.device disk.old disk.new) }
    ensures looked { OnlyReads D.device disk.old disk.new }
{
    let span = pages_with(run, wanted.times);
    for page in span.first..span.end {
        let held = read_page(alloc, disk, run, page)?;
        rows = add_page(rows, &held, wanted)?;
    }
    Ok(rows)
}

/// Rows, and then those of a run that are wanted, if it is of the table.
fn add_run<D: Disk>(
    alloc: Global,
    disk: &mut D,
    run: &Run,
    wanted: Wanted,
    rows: Vec<Row>,
) -> Result<Vec<Row>, RowFault>
    requires held { IsTrue D.device.is_transparent → IsRunOn D.device run.now disk.old }
    requires each { AllByRecursion (IsRowWanted wanted) rows.items }
    ensures rows { IsTrue D.device.is_transparent → IfOk result (λ all. all.items
        ≡ rows.items ++ wanted_of wanted (D.device.reads disk.old) run.now) }
    ensures each { IfOk result (λ all. AllByRecursion (IsRowWanted wanted) all.items) }
    ensures refused { IfErr result (IsReadFault D.device disk.old disk.new) }
    ensures told { OnOk result (NoFault D.device disk.old disk.new) }
    ensures looked { OnlyReads D.device disk.old disk.new }
{
    if run.table() != wanted.table {
        return Ok(rows);
    }
    add_pages(alloc, disk, run, wanted, rows)
}

/// The rows of all runs of the table that are wanted, run behind run.
fn gather<D: Disk>(
    alloc: Global,
    disk: &mut D,
    runs: &[Run],
    wanted: Wanted,
) -> Result<Vec<Row>, RowFault>
    requires held { IsTrue D.device.is_transparent → AreRunsOn D.device runs.now disk.old }
    ensures rows { IsTrue D.device.is_transparent → IfOk result (λ rows. rows.items
        ≡ gathered_of wanted (D.device.reads disk.old) runs.now) }
    ensures each { IfOk result (λ rows. AllByRecursion (IsRowWanted wanted) rows.items) }
    ensures refused { IfErr result (IsReadFault D.device disk.old disk.new) }
    ensures told { OnOk result (NoFault D.device disk.old disk.new) }
    ensures looked { OnlyReads D.device disk.old disk.new }
{
    let mut rows = Vec::new(alloc);
    for run in runs {
        rows = add_run(alloc, disk, run, wanted, rows)?;
    }
    Ok(rows)
}

/// The rows that are wanted of all runs, in the order of their keys, no key twice.
pub(crate) fn read_runs<D: Disk>(
    alloc: Global,
    disk: &mut D,
    runs: &[Run],
    wanted: Wanted,
) -> Result<Rows, RowFault>
    requires { IsTrue D.device.is_transparent → AreSealed D.device runs.now disk.old }
    ensures rows { IsTrue D.device.is_transparent → IfOk result (λ rows. rows
        ≡ history_wanted wanted (rows_of_runs (D.device.reads disk.old) runs.now)) }
    ensures given { IfOk result (AllByRecursion (sealed_state D.device runs.now disk.old).may_give) }
    ensures each { IfOk result (λ rows. AllByRecursion (IsRowWanted wanted) rows) }
    ensures rising { IfOk result HaveRisingKeys }
    ensures refused { IfErr result (IsReadFault D.device disk.old disk.new) }
    ensures told { OnOk result (NoFault D.device disk.old disk.new) }
    ensures looked { OnlyReads D.device disk.old disk.new }
{
    let rows = gather(alloc, disk, runs, wanted)?;
    Ok(rising_by_key(rows)?)
}

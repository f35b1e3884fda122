//! Writes a run.

ghost use Rattle.std.specs.Prelude.{◌≡◌, ◌≤◌, ◌+◌, ◌++◌, [], ℕ, IsTrue, length, OnOk, IfOk, IfErr};
ghost use Rattle.std.specs.List.{AllByRecursion};
ghost use Rattle.arch_disk.specs.Disk.{IsDurable, LeavesOthers, NoFault, NoWriteFailed};
ghost use Rattle.run_pages.specs.Placed.{placed_rows};
ghost use Rattle.run_pages.specs.Pages.{IsPage, page_octets};
ghost use Rattle.run_pages.specs.Index.{IsPageEntry, index_octets};
ghost use Rattle.run_pages.specs.Footer.{IsFooter, footer_octets};
ghost use Rattle.run_pages.specs.Runs.{AreRunRows};
ghost use Rattle.run_files.specs.Faults.{IsWriteFault};
ghost use Rattle.run_files.specs.Opening.{most_run_rows};
ghost use Rattle.run_files.specs.Writing.{ArePagesWritten, IsRunWritten, entry_of_page};

use crate::RunFault;
use crate::run::Run;
use crate::run_index::RunIndex;
use crate::steps::{empty, flush, put_more};
use arch_disk::Disk;
use arch_types::key::Key;
use arch_types::row::Row;
use run_pages::{Footer, PAGE_ROWS, PageEntry, page_len, put_footer, put_index, put_page};
use std::alloc::Global;

/// What was written of a run: the entries of its pages, and the octet behind the last.
#[derive(Drop)]
pub(crate) struct Written {
    pub(crate) entries: Vec<PageEntry>,
    pub(crate) end: u64,
}

/// The entry of a page.
fn page_entry(first: Key, at: u64, len: u32) -> PageEntry
    ensures entry { result ≡ record { first = first; at = at; len = len } }
    ensures fits { IsPageEntry result }
{
    PageEntry { first, at, len }
}

/// Writes a page behind what the file has, and answers its entry.
fn write_page<D: Disk>(
    alloc: Global,
    disk: &mut D,
    file: u32,
    end: u64,
    rows: &[Row],
    positions: &[u64],
) -> Result<PageEntry, RunFault>
    requires beside { length positions.now ≡ length rows.now }
    requires page { IsPage (placed_rows positions.now rows.now) }
    requires end { IsTrue D.device.is_transparent → end ≡ length (D.device.reads disk.old file) }
    ensures entry { IfOk result (λ entry. entry ≡ entry_of_page end (placed_rows positions.now rows.now)) }
    ensures fits { IfOk result (λ entry. IsPageEntry entry × (entry.len ≤ 4195970)) }
    ensures written { OnOk result (IsTrue D.device.is_transparent → D.device.reads disk.new file
        ≡ D.device.reads disk.old file ++ page_octets (placed_rows positions.now rows.now)) }
    ensures others { LeavesOthers D.device file disk.old disk.new }
    ensures refused { IfErr result (IsWriteFault D.device disk.old disk.new) }
    ensures told { OnOk result (NoFault D.device disk.old disk.new) }
    ensures no_failed_write { OnOk result (NoWriteFailed D.device disk.old disk.new) }
{
    let len = page_len(rows);
    let mut octets = Vec::with_capacity(alloc, len)?;
    put_page(&mut octets, rows, positions)?;
    put_more(disk, file, end, &octets)?;
    Ok(page_entry(rows[0].key, end, len as u32))
}

/// Writes the pages of rows into an empty file.
fn write_pages<D: Disk>(
    alloc: Global,
    disk: &mut D,
    file: u32,
    rows: &[Row],
    positions: &[u64],
) -> Result<Written, RunFault>
    requires beside { length positions.now ≡ length rows.now }
    requires rows { (table : ℕ) × AreRunRows table (placed_rows positions.now rows.now) }
    requires few { length rows.now ≤ most_run_rows }
    requires end { IsTrue D.device.is_transparent → D.device.reads disk.old file ≡ [] }
    ensures pages { IfOk result (λ written. ArePagesWritten D.device file disk.new
        (placed_rows positions.now rows.now) written.entries.items written.end) }
    ensures others { LeavesOthers D.device file disk.old disk.new }
    ensures refused { IfErr result (IsWriteFault D.device disk.old disk.new) }
    ensures told { OnOk result (NoFault D.device disk.old disk.new) }
    ensures no_failed_write { OnOk result (NoWriteFailed D.device disk.old disk.new) }
{
    let mut entries = Vec::new(alloc);
    let mut end: u64 = 0;
    let mut from = 0;
    'pages: while from < rows.len() {
        let to = rows.len().min(from + PAGE_ROWS);
        let entry = write_page(
            alloc,
            disk,
            file,
            end,
            &rows[from..to],
            &positions[from..to],
        )?;
        entries.push(entry)?;
        end += u64::from(entry.len);
        from = to;
    }
    Ok(Written { entries, end })
}

/// Writes an index and a footer behind what the file has, and makes all durable.
fn write_end<D: Disk>(
    alloc: Global,
    disk: &mut D,
    file: u32,
    entries: &[PageEntry],
    footer: Footer,
) -> Result<(), RunFault>
    requires entries { AllByRecursion IsPageEntry entries.now }
    requires footer { IsFooter footer }
    requires end { IsTrue D.device.is_transparent → footer.at ≡ length (D.device.reads disk.old file) }
    ensures written { OnOk result (IsTrue D.device.is_transparent → D.device.reads disk.new file
        ≡ D.device.reads disk.old file ++ (index_octets entries.now ++ footer_octets footer)) }
    ensures durable { OnOk result (IsDurable D.device file (D.device.reads disk.new file) disk.new) }
    ensures others { LeavesOthers D.device file disk.old disk.new }
    ensures refused { IfErr result (IsWriteFault D.device disk.old disk.new) }
    ensures told { OnOk result (NoFault D.device disk.old disk.new) }
    ensures no_failed_write { OnOk result (NoWriteFailed D.device disk.old disk.new) }
{
    let mut octets = Vec::new(alloc);
    put_index(&mut octets, entries)?;
    put_footer(&mut octets, footer)?;
    put_more(disk, file, footer.at, &octets)?;
    flush(disk, file)
}

/// Writes rows as a run: empties the file, writes page by page, then the index and the footer, and syncs. Nothing names the
/// file before it is whole, so that what a crash or a fault leaves of it counts for nothing.
pub fn write_run<D: Disk>(
    alloc: Global,
    disk: &mut D,
    file: u32,
    rows: &[Row],
    positions: &[u64],
) -> Result<Run, RunFault>
    requires beside { length positions.now ≡ length rows.now }
    requires rows { (table : ℕ) × AreRunRows table (placed_rows positions.now rows.now) }
    requires few { length rows.now ≤ most_run_rows }

    // Ok: the file is a run of just these rows, durably.
    ensures written { IfOk result (IsRunWritten D.device file disk.old disk.new (placed_rows positions.now rows.now)) }

    // Refused: one write failed, or memory is wanting.
    ensures refused { IfErr result (IsWriteFault D.device disk.old disk.new) }

    // Whatever it answers, and at any moment of it, all other files are as they were.
    ensures others { LeavesOthers D.device file disk.old disk.new }

    // A failed call of the disk is never passed over.
    ensures told { OnOk result (NoFault D.device disk.old disk.new) }
{
    empty(disk, file)?;
    flush(disk, file)?;
    let written = write_pages(alloc, disk, file, rows, positions)?;
    let footer = Footer {
        at: written.end,
        pages: written.entries.len() as u32,
        rows: rows.len() as u64,
    };
    write_end(alloc, disk, file, &written.entries, footer)?;
    Ok(Run {
        file,
        table: rows[0].table,
        index: RunIndex {
            entries: written.entries,
            footer,
        },
        last: rows[rows.len() - 1].key,
    })
}

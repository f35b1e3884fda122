//! A run file that is read whole, page after page.

ghost use Rattle.std.specs.Prelude.{◌≡◌, ◌++◌, ◌∷◌, [], ◌+◌, ◌<◌, ◌≤◌, ℕ, List, length, IsTrue, Option, Some, None, true, false, take, drop, slice_get, OnOk, OnErr, IfOk, IfErr, IfSome};
ghost use Rattle.arch_disk.specs.Disk.{IsUntouched, NoFault, OnlyReads};
ghost use Rattle.arch_types.specs.declared.key.Key.{Key as AKey};
ghost use Rattle.run_pages.specs.Order.{are_ordered};
ghost use Rattle.run_files.specs.Opening.{IsOpenRefusal, IsRunOpened};

use crate::RunFault;
use crate::end::read_end;
use crate::pages::{page_first_key, page_on_disk};
use crate::run::Run;
use crate::run_index::RunIndex;
use crate::steps::flush;
use arch_disk::Disk;
use arch_types::key::Key;
use arch_types::row::Row;
use run_pages::{PAGE_ROWS, PageEntry, PageRows, are_ordered};
use std::alloc::Global;

/// The most rows that a run has: as many as a history may have.
pub const MAX_ROWS: u64 = 4_194_304;

/// A reading of a run file, up to a page.
#[derive(Drop)]
pub struct RunOpening {
    pub(crate) file: u32,
    pub(crate) index: RunIndex,
    /// How many pages were read.
    pub(crate) read: usize,
    /// The table of their rows; 0 before the first.
    pub(crate) table: u8,
    /// The key of their last row; 0 before the first.
    pub(crate) last: Key,
}

impl RunOpening {
    ghost use Rattle.run_pages.specs.Pages.{IsPage, page_octets, rows_of_page};
    ghost use Rattle.run_pages.specs.Damage.{IsBrokenPage, count_at};
    ghost use Rattle.run_pages.specs.Placed.{Placed};
    ghost use Rattle.run_files.specs.Opening.{IsNextPage, IsPageReadRefusal, IsReadingRun, IsRunAtStart, IsRunBeginRefusal, IsRunBegun, IsRunFinished, IsRunStartRefusal, StandsInRun, file_opened, footer_rows, index_pages, pages_read, table_read};

    /// Begins before the first page, with a sync, and reads the index whole: 32 octets of memory a page.
    pub fn begin<D: Disk>(alloc: Global, disk: &mut D, file: u32) -> Result<RunOpening, RunFault>
        // Ok: the file has an index and a footer, no page is read yet, and what it reads as is durable.
        ensures begun { IfOk result (IsRunBegun D.device file disk.old disk.new) }

        // Refused: it has none, which is damage at octet 0; or the disk failed; or memory is wanting.
        ensures refused { IfErr result (IsRunBeginRefusal D.device file disk.old disk.new) }

        // A failed call of the disk is never passed over.
        ensures told { OnOk result (NoFault D.device disk.old disk.new) }
        ensures untouched { IsUntouched D.device disk.old disk.new }
    {
        flush(disk, file)?;
        Self::begin_synced(alloc, disk, file)
    }

    /// Begins before the first page, without a sync, of a file that is known to be durable, and reads the index whole: 32 octets
    /// of memory a page.
    pub fn begin_synced<D: Disk>(
        alloc: Global,
        disk: &mut D,
        file: u32,
    ) -> Result<RunOpening, RunFault>
        // Ok: the file has an index and a footer, and no page is read yet.
        ensures begun { IfOk result (IsRunAtStart D.device file disk.old) }

        // Refused: it has none, which is damage at octet 0; or a read failed; or memory is wanting.
        ensures refused { IfErr result (IsRunStartRefusal D.device file disk.old disk.new) }

        // A failed call of the disk is never passed over.
        ensures told { OnOk result (NoFault D.device disk.old disk.new) }
        ensures looked { OnlyReads D.device disk.old disk.new }
    {
        let Some(index) = read_end(alloc, disk, file)? else {
            return Err(RunFault::Damaged { file, at: 0 });
        };
        Ok(RunOpening {
            file,
            index,
            read: 0,
            table: 0,
            last: Key { time: 0, seq: 0 },
        })
    }

    /// The next page, or none behind the last. One read of the disk; what is kept of a page is the caller's.
    pub fn next<D: Disk>(
        &mut self,
        alloc: Global,
        disk: &mut D,
    ) -> Result<Option<PageRows>, RunFault>
        requires reading { StandsInRun D.device self.old disk.old }

        // Some: the next page, whole. None: all were read.
        ensures page { IfOk result (IsNextPage D.device self.old self.new disk.old) }

        // Whatever the disk tells, a page has rows that have a spelling.
        ensures is_page { IfOk result (λ next. IfSome next (λ page. IsPage (rows_of_page page))) }
        ensures reading { OnOk result (StandsInRun D.device self.new disk.new) }

        // Refused: the page is broken, and it is the first that is; or a read failed; or memory is wanting.
        ensures refused { IfErr result (IsPageReadRefusal D.device self.old disk.old disk.new) }

        // Then the opening is as it was.
        ensures same { OnErr result (self.new ≡ self.old) }

        // A failed call of the disk is never passed over.
        ensures told { OnOk result (NoFault D.device disk.old disk.new) }
        ensures looked { OnlyReads D.device disk.old disk.new }
        ensures file { file_opened self.new ≡ file_opened self.old }
    {
        if self.read >= self.index.entries.len() {
            return Ok(None);
        }
        let entry = self.index.entries[self.read];
        let (file, at) = (self.file, entry.at);
        let Some(page) = page_on_disk(alloc, disk, file, entry)? else {
            return Err(RunFault::Damaged { file, at });
        };
        if !self.take_in(&page, entry) {
            return Err(RunFault::Damaged { file, at });
        }
        Ok(Some(page))
    }

    /// Whether a page is as the index says of the next one; then it was read.
    fn take_in(&mut self, page: &PageRows, entry: PageEntry) -> bool
        requires there { slice_get self.old.index.entries.items self.old.read ≡ Some entry }
        ensures yes { result ≡ true → (content : List ℕ) (pages : List (List Placed)) → IsReadingRun self.old content pages →
            IsPage (rows_of_page page.now) → take entry.len (drop entry.at content) ≡ page_octets (rows_of_page page.now) →
            IsReadingRun self.new content (pages ++ rows_of_page page.now ∷ []) }
        ensures no { result ≡ false → (content : List ℕ) (pages : List (List Placed)) → IsReadingRun self.old content pages →
            IsPage (rows_of_page page.now) → take entry.len (drop entry.at content) ≡ page_octets (rows_of_page page.now) →
            IsBrokenPage content entry.at }
        ensures unchanged { result ≡ false → self.new ≡ self.old }
        ensures count { result ≡ true → pages_read self.new ≡ pages_read self.old + 1 }
        ensures same { (file_opened self.new ≡ file_opened self.old) × (self.new.index ≡ self.old.index) }
    {
        let rows = page.rows.as_slice();
        if rows.is_empty() {
            return false;
        }
        if rows.len() as u64 != self.next_count() {
            return false;
        }
        let table = self.next_table(rows);
        let next = page_first_key(&self.index.entries, self.read + 1);
        if !are_ordered(rows, table, entry.first, next) {
            return false;
        }
        self.table = table;
        self.last = rows[rows.len() - 1].key;
        self.read += 1;
        true
    }

    /// The table of the next page's rows: that of the pages before, or the first page's own.
    #[tactic(auto, using(crate::proofs::Openings::table_is))]
    fn next_table(&self, rows: &[Row]) -> u8
        requires some { 0 < length rows.now }
        ensures first { pages_read self.now ≡ 0 → (table : ℕ) (first : AKey) (next : Option AKey) →
            are_ordered table first next None rows.now ≡ true → result ≡ table }
        ensures later { 0 < pages_read self.now → result ≡ table_read self.now }
    {
        if self.read == 0 {
            rows[0].table
        } else {
            self.table
        }
    }

    /// How many rows the next page has.
    fn next_count(&self) -> u64
        ensures { result ≡ count_at (footer_rows self.now) (pages_read self.now) }
    {
        let page = PAGE_ROWS as u64;
        let before = page.saturating_mul(self.read as u64);
        self.index.footer.rows.saturating_sub(before).min(page)
    }

    /// The run whose pages were read to the last, however many rows it has.
    pub fn finish(self) -> Run
        requires all { index_pages self ≤ pages_read self }
        ensures { IsRunFinished self result }
    {
        let RunOpening {
            file,
            index,
            read: _,
            table,
            last,
        } = self;
        Run {
            file,
            table,
            index,
            last,
        }
    }
}

/// Opens a run: a sync, and its index and each page are read. Of the pages nothing is kept.
pub fn open_run<D: Disk>(alloc: Global, disk: &mut D, file: u32) -> Result<Run, RunFault>
    // Ok: the file is a run, durably.
    ensures opened { IfOk result (IsRunOpened D.device file disk.old disk.new) }

    // Refused: it is damaged at that octet; or has more rows than a history may have; or the disk failed; or memory is wanting.
    ensures refused { IfErr result (IsOpenRefusal D.device file disk.old disk.new) }

    // A failed call of the disk is never passed over.
    ensures told { OnOk result (NoFault D.device disk.old disk.new) }
    ensures untouched { IsUntouched D.device disk.old disk.new }
{
    let mut opening = RunOpening::begin(alloc, disk, file)?;
    'pages: while let Some(_) = opening.next(alloc, disk)? {}
    if opening.index.footer.rows > MAX_ROWS {
        return Err(RunFault::Limit);
    }
    Ok(opening.finish())
}

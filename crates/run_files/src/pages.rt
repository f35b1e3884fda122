//! The pages of a run.

ghost use Rattle.std.specs.Prelude.{◌≡◌, ◌+◌, ◌<◌, ◌≤◌, ℕ, List, None, IsTrue, true, length, take, drop, slice_get, OnOk, IfOk, IfErr, IfSome};
ghost use Rattle.arch_disk.specs.Disk.{NoFault, OnlyReads};
ghost use Rattle.run_pages.specs.Placed.{Placed};
ghost use Rattle.run_pages.specs.Pages.{IsPage, page_octets, rows_of_page};
ghost use Rattle.run_pages.specs.Damage.{first_of_entry};
ghost use Rattle.run_files.specs.Faults.{IsLookFault};
ghost use Rattle.run_files.specs.Calls.{IsPageRefusal, IsRisingPage};
ghost use Rattle.run_pages.specs.Runs.{page_of_rows};
ghost use Rattle.run_files.specs.Run.{HoldsRun, IsRunOn, page_count};

use crate::RunFault;
use crate::run::Run;
use crate::steps::octets_at;
use arch_disk::Disk;
use arch_types::key::Key;
use octet_fields::DecodeError;
use run_pages::{PageEntry, PageRows, are_ordered, read_page};
use std::alloc::Global;

/// The first key of a page, if there is such a page.
pub(crate) fn page_first_key(entries: &[PageEntry], page: usize) -> Option<Key>
    ensures { result ≡ first_of_entry (slice_get entries.now page) }
{
    match entries.get(page) {
        Some(entry) => Some(entry.first),
        None => None,
    }
}

/// The page that stands where an entry says, or none where the octets there spell none.
pub(crate) fn page_on_disk<D: Disk>(
    alloc: Global,
    disk: &mut D,
    file: u32,
    entry: PageEntry,
) -> Result<Option<PageRows>, RunFault>
    requires { IsTrue D.device.is_transparent → entry.at + entry.len ≤ length (D.device.reads disk.old file) }
    ensures page { IfOk result (λ found. IfSome found (λ page. IsPage (rows_of_page page))) }
    ensures some { IsTrue D.device.is_transparent → IfOk result (λ found. IfSome found (λ page.
        IsPage (rows_of_page page)
        × (take entry.len (drop entry.at (D.device.reads disk.old file)) ≡ page_octets (rows_of_page page)))) }
    ensures none { IsTrue D.device.is_transparent → IfOk result (λ found. found ≡ None → (rows : List Placed) →
        IsPage rows → take entry.len (drop entry.at (D.device.reads disk.old file)) ≡ page_octets rows → ⊥) }
    ensures refused { IfErr result (IsLookFault D.device disk.old disk.new) }
    ensures told { OnOk result (NoFault D.device disk.old disk.new) }
    ensures looked { OnlyReads D.device disk.old disk.new }
{
    let octets = octets_at(alloc, disk, file, entry.at, entry.len)?;
    match read_page(alloc, &octets) {
        Ok(page) => Ok(Some(page)),
        Err(DecodeError::OutOfMemory) => Err(RunFault::OutOfMemory),
        Err(DecodeError::Malformed) => Ok(None),
    }
}

impl Run {
    /// The rows of a page, each at its position. One read of the disk.
    pub fn rows_of<D: Disk>(
        &self,
        alloc: Global,
        disk: &mut D,
        page: u32,
    ) -> Result<PageRows, RunFault>
        requires page { page < page_count self.now }
        requires held { IsTrue D.device.is_transparent → IsRunOn D.device self.now disk.old }

        // Ok: those that the run was written with.
        ensures rows { IsTrue D.device.is_transparent → (rows : List Placed) →
            HoldsRun D.device self.now rows disk.old → IfOk result (λ held. rows_of_page held ≡ page_of_rows page rows) }

        // Whatever the disk tells, each may be stored and is of the run's table, and they rise from the page's first key to
        // below the next page's.
        ensures rising { IfOk result (λ held. IsRisingPage self.now page held) }

        // Refused: the read failed, or memory is wanting; damage is found on a disk that doesn't tell what it holds alone.
        ensures refused { IfErr result (IsPageRefusal D.device self.now disk.old disk.new) }

        // A failed call of the disk is never passed over.
        ensures told { OnOk result (NoFault D.device disk.old disk.new) }
        ensures looked { OnlyReads D.device disk.old disk.new }
    {
        let entry = self.index.entries[page as usize];
        let next = page_first_key(&self.index.entries, page as usize + 1);
        let file = self.file;
        let at = entry.at;
        let Some(held) = page_on_disk(alloc, disk, file, entry)? else {
            return Err(RunFault::Damaged { file, at });
        };
        if !are_ordered(held.rows.as_slice(), self.table, entry.first, next) {
            return Err(RunFault::Damaged { file, at });
        }
        Ok(held)
    }
}

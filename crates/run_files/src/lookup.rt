//! Where a run may have a key, and the position of the row that has it.

ghost use Rattle.std.specs.Prelude.{◌≡◌, List, IsTrue, OnOk, IfOk, IfErr};
ghost use Rattle.std.specs.List.{position};
ghost use Rattle.arch_disk.specs.Disk.{NoFault, OnlyReads};
ghost use Rattle.run_pages.specs.Placed.{Placed};
ghost use Rattle.run_pages.specs.Order.{is_same_key};
ghost use Rattle.run_files.specs.Calls.{IsPageRefusal};
ghost use Rattle.run_files.specs.Lookup.{IsPageFor, IsPositionOf};
ghost use Rattle.run_files.specs.Run.{HoldsRun, IsRunOn, run_entries};

use crate::RunFault;
use crate::run::Run;
use arch_disk::Disk;
use arch_types::key::Key;
use arch_types::row::Row;
use std::alloc::Global;

/// The place of the row with a key among the rows of a page.
fn place_of_key(rows: &[Row], key: Key) -> Option<usize>
    ensures { result ≡ position (λ row. is_same_key row.key key) rows.now }
{
    rows.iter().position(|row| row.key == key)
}

impl Run {
    /// The last page whose first key isn't above a key; none where the first page's is. A row with that key stands on no
    /// other page.
    pub fn page_of(&self, key: Key) -> Option<u32>
        ensures { IsPageFor (run_entries self.now) key result }
    {
        let behind = self
            .index
            .entries
            .partition_point(|entry| entry.first <= key);
        if behind == 0 {
            return None;
        }
        Some((behind - 1) as u32)
    }

    /// The position of the row with a key, if the run has one. One read of the disk; none where no page may have the key.
    pub fn position<D: Disk>(
        &self,
        alloc: Global,
        disk: &mut D,
        key: Key,
    ) -> Result<Option<u64>, RunFault>
        requires held { IsTrue D.device.is_transparent → IsRunOn D.device self.now disk.old }

        // Some: that with which the run was written. None: no row of it has the key.
        ensures position { IsTrue D.device.is_transparent → (rows : List Placed) →
            HoldsRun D.device self.now rows disk.old → IfOk result (IsPositionOf rows key) }

        // Refused: the read failed, or memory is wanting; damage is found on a disk that doesn't tell what it holds alone.
        ensures refused { IfErr result (IsPageRefusal D.device self.now disk.old disk.new) }

        // A failed call of the disk is never passed over.
        ensures told { OnOk result (NoFault D.device disk.old disk.new) }
        ensures looked { OnlyReads D.device disk.old disk.new }
    {
        if self.last < key {
            return Ok(None);
        }
        let Some(page) = self.page_of(key) else {
            return Ok(None);
        };
        let held = self.rows_of(alloc, disk, page)?;
        let Some(place) = place_of_key(held.rows.as_slice(), key) else {
            return Ok(None);
        };
        Ok(Some(held.positions.as_slice()[place]))
    }
}

//! The intervals that have rows, and the rows of each.

ghost use Rattle.std.specs.Prelude.{◌≡◌, ℕ, true, IfErr, IfOk, IsSome};
ghost use Rattle.std.specs.List.{list_any, AllByRecursion};
ghost use Rattle.intervals.specs.declared.interval.Interval.{Interval as AnInterval};
ghost use Rattle.history_items.specs.Fills.{is_same};
ghost use Rattle.history_items.specs.Late.{StandsIn, last_in};
ghost use Rattle.interval_fills.specs.Intervals.{rows_of_interval};
ghost use Rattle.interval_walks.specs.Turns.{IntervalsRise};
ghost use Rattle.store_fills.specs.Built.{IsTaskRows};
ghost use Rattle.store_fills.specs.LastFills.{fillings_in};

use crate::filling::rows_of;
use crate::store::Store;
use arch_disk::Disk;
use arch_types::row::Rows;
use arch_types::row_fault::RowFault;
use interval_walks::intervals_meeting;
use intervals::Interval;
use std::alloc::{AllocError, Global};

impl<D: Disk> Store<D> {
    ghost use Rattle.archive_images.specs.Entries.{IsArchivedRow};
    ghost use Rattle.archive_store.specs.Pages.{TellsRows};
    ghost use Rattle.archive_store.specs.UnreadRows.{IsLeftByRead, IsReadFault};

    /// The intervals that have rows of table `tm`, in the order of their numbers. The one error is want of memory.
    pub fn intervals(&self, alloc: Global) -> Result<Vec<Interval>, AllocError>
        ensures rising { IfOk result (λ intervals. IntervalsRise intervals.items) }
        ensures rows { IfOk result (λ intervals.
            AllByRecursion (λ i. IsSome (last_in self.now.exponent i self.now.history)) intervals.items) }
        ensures cover { IfOk result (λ intervals. (i : AnInterval) (position : ℕ) →
            StandsIn self.now.exponent i position self.now.history → list_any (is_same i) intervals.items ≡ true) }

        // Each interval that was filled has rows, so it is among them.
        ensures filled { IfOk result (λ intervals. (i : AnInterval) →
            IsSome (fillings_in self.now.filled i) → list_any (is_same i) intervals.items ≡ true) }
    {
        // no row has a time outside of this range
        intervals_meeting(alloc, &self.tracker, 0, i64::MAX, self.history.exponent())
    }

    /// The rows of table `tm` in an interval that has some, in the order of their keys. They may share their packets with
    /// the store.
    pub fn interval_rows(&mut self, alloc: Global, interval: Interval) -> Result<Rows, RowFault>
        requires { IsSome (last_in self.old.exponent interval self.old.history) }
        ensures rows { TellsRows D.device self.old → IfOk result (λ rows.
            rows ≡ rows_of_interval self.old.exponent interval self.old.history) }

        // Whatever the disk tells.
        ensures archived { IfOk result (AllByRecursion (IsArchivedRow self.old.head self.old.history)) }
        ensures in_order { IfOk result (IsTaskRows self.old.exponent interval) }
        ensures refused { IfErr result (IsReadFault D.device self.old self.new) }
        ensures same { IsLeftByRead D.device self.old self.new result }
    {
        self.is_kept();
        let exponent = self.exponent();
        let front = self.front();
        let mut source = self.source();
        rows_of(alloc, &mut source, exponent, interval, front)
    }
}

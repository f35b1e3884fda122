//! The marks of the intervals that have rows.

ghost use Rattle.std.specs.Prelude.{◌≡◌, ℕ, IfNone, IfOk, IfSome, None, true};
ghost use Rattle.std.specs.List.{list_any, AllByRecursion};
ghost use Rattle.intervals.specs.declared.interval.Interval.{Interval as AnInterval};
ghost use Rattle.history_items.specs.Fills.{base_in, is_same};
ghost use Rattle.history_items.specs.Late.{StandsIn, last_in};
ghost use Rattle.interval_walks.specs.Turns.{IntervalsRise};
ghost use Rattle.archive_store.specs.Marks.{IsMarkIn, marked_intervals};

use crate::store::Store;
use arch_disk::Disk;
use intervals::Interval;
use std::alloc::{AllocError, Global};

/// An interval that has rows of table `tm`.
#[derive(Clone, Copy, Debug, Drop)]
pub struct Mark {
    pub interval: Interval,
    /// The greatest position of what changed it.
    pub last: u64,
    /// The base of its last fill.
    pub base: Option<u64>,
}

impl<D: Disk> Store<D> {
    /// The base of an interval's last fill.
    fn base(&self, interval: Interval) -> Option<u64>
        ensures { result ≡ base_in interval self.now.fills }
    {
        let fill = self.sets.get(interval)?;
        Some(fill.base)
    }

    /// The mark of an interval, where it has rows of table `tm`.
    pub fn mark(&self, interval: Interval) -> Option<Mark>
        ensures some { IfSome result (IsMarkIn self.now.exponent self.now.history self.now.fills) }
        ensures interval { IfSome result (λ mark. mark.interval ≡ interval) }
        ensures none { IfNone result (last_in self.now.exponent interval self.now.history ≡ None) }
    {
        let last = self.tracker.last(interval)?;
        Some(Mark {
            interval,
            last,
            base: self.base(interval),
        })
    }

    /// The marks of the intervals that have rows of table `tm`, in the order of their numbers. The one error is want of
    /// memory.
    pub fn marks(&self, alloc: Global) -> Result<Vec<Mark>, AllocError>
        ensures rising { IfOk result (λ marks. IntervalsRise (marked_intervals marks.items)) }
        ensures each { IfOk result (λ marks.
            AllByRecursion (IsMarkIn self.now.exponent self.now.history self.now.fills) marks.items) }
        ensures cover { IfOk result (λ marks. (i : AnInterval) (position : ℕ) →
            StandsIn self.now.exponent i position self.now.history
            → list_any (is_same i) (marked_intervals marks.items) ≡ true) }
    {
        let intervals = self.intervals(alloc)?;
        let mut marks = Vec::new(alloc);
        for interval in intervals.as_slice() {
            if let Some(mark) = self.mark(*interval) {
                marks.push(mark)?;
            }
        }
        Ok(marks)
    }
}
